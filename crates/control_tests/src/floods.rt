//! Tests of `flooding`. Expected flags are the standard's, at three Up ports, of which the second hears; those of a
//! dead LSP of an id that isn't held are *profile*. Checksums and PDUs were made by hand.
ghost use Rattle.std.specs.Prelude.{◌≡◌, ◌≤◌};
ghost use Rattle.isis_pdu.specs.declared.kind.Kind.TheVariants as kinds;
ghost use Rattle.isis_pdu.specs.Spelling.{CanWrite};

use crate::fixtures::{
    UP, WITH_NEIGHBOUR, are_bytes, are_equal, check_bytes, check_few, dead, live, lsp_id, own, put,
    seq, system,
};
use flooding::{FloodError, Own, hear_lsp, lsp_of, originate, to_send, write_held};
use isis_pdu::{Lsp, Pdu, decode};
use lsdb::{Database, Held, Version};
use spb_types::limits::MOST_PORTS;
use spb_types::{LspId, PortSet};
use std::alloc::Global;
use std::process::Abort;

/// A bridge's first LSP, with lifetime 1200 and without a neighbour.
const FIRST_LSP: &[u8] = b"\
    \x83\x1b\x01\x00\x12\x01\x00\x00\x00\x3d\x04\xb0\x02\x00\x00\x00\x00\x01\x00\x00\x00\x00\x00\x01\
    \x4f\xd7\x01\x01\x04\x03\x49\x00\x01\x81\x01\xc1\x90\x17\x00\x00\x01\x13\x00\x00\x00\x00\x00\x00\
    \x00\x00\x00\x00\x00\x00\x80\x00\x00\x00\x00\x01\x00";

/// A dead LSP: the fixed part alone.
const DEAD_LSP: &[u8] = b"\
    \x83\x1b\x01\x00\x12\x01\x00\x00\x00\x1b\x00\x00\x02\x00\x00\x00\x00\x02\x00\x00\x00\x00\x00\x02\
    \x00\x00\x01";

/// Puts an LSP, to be sent at the ports 1 and 2 and acknowledged at 2 and 3.
fn put_held(rt: &impl Abort, alloc: Global, db: &mut Database, id: LspId, version: Version) {
    put(rt, alloc, db, id, version, 500, (0b011, 0b110));
}

/// Version, lifetime, length of body, SRM and SSN of what stands under an id, if anything does.
type Row = Option<(Version, u16, usize, u32, u32)>;

fn row(version: Version, lifetime: u16, len: usize, srm: u32, ssn: u32) -> Row {
    Some((version, lifetime, len, srm, ssn))
}

fn row_of(db: &Database, id: &LspId) -> Row {
    match db.find(id) {
        Some(h) => row(h.version, h.lifetime, h.body.len(), h.srm.bits, h.ssn.bits),
        None => None,
    }
}

fn check_row(rt: &impl Abort, db: &Database, id: &LspId, expected: Row) {
    are_equal(rt, &row_of(db, id), &expected);
}

fn check_body(rt: &impl Abort, db: &Database, id: &LspId, expected: &[u8]) {
    let held = db.find(id).expect(rt, "nothing is held");
    are_bytes(rt, held.body.as_slice(), expected);
}

/// An LSP of this sequence number, lifetime and checksum, with a body of three bytes.
fn lsp(id: LspId, (seq, lifetime, sum): (u32, u16, u16)) -> Lsp<'static> {
    Lsp {
        lifetime,
        id,
        seq,
        sum,
        flags: 3,
        tlvs: b"\x89\x00",
    }
}

/// The bridge hears an LSP at a port, which gives this.
fn hear(
    rt: &impl Abort,
    alloc: Global,
    db: &mut Database,
    up: PortSet,
    port: u8,
    lsp: &Lsp<'_>,
    own: &mut Own,
) -> Result<(), FloodError>
    requires low { 1 ≤ port }
    requires high { port ≤ MOST_PORTS }
{
    check_bytes(rt, own);
    check_few(rt, db, own);
    hear_lsp(alloc, db, up, port, lsp, own)
}

/// Asserts what stands under the id, and whether the bridge is spent, after which claim.
fn check_outcome(
    rt: &impl Abort,
    claim: (u32, u16, u16),
    found: (Row, bool),
    outcome: (Row, bool),
) {
    are_equal(rt, &(claim, found), &(claim, outcome));
}

/// That bridge 1, where this version is held, if any, hears this claim of the id at port 2, after which this stands
/// under the id, and the bridge is spent or not.
fn check_answered(
    rt: &impl Abort,
    alloc: Global,
    before: Option<Version>,
    id: LspId,
    claim: (u32, u16, u16),
    outcome: (Row, bool),
) {
    let mut db = Database::new(alloc);
    if let Some(version) = before {
        put_held(rt, alloc, &mut db, id, version);
    }
    let mut own = own(rt, alloc, b"\x01\x09\x01\x07");
    let heard = hear(rt, alloc, &mut db, UP, 2, &lsp(id, claim), &mut own);
    are_equal(rt, &heard, &Ok(()));
    check_outcome(rt, claim, (row_of(&db, &id), own.spent), outcome);
}

/// The same of the first LSP of system 2, after which the bridge is not spent.
fn check_heard(
    rt: &impl Abort,
    alloc: Global,
    before: Option<Version>,
    claim: (u32, u16, u16),
    outcome: Row,
) {
    check_answered(rt, alloc, before, lsp_id(2, 0), claim, (outcome, false));
}

// Newer: stored, also where it is dead, and where nothing is held (for a dead one that is *profile*).
#[test]
fn a_newer_lsp_is_stored(rt: HostRuntime) {
    let (none, lived) = (Some(Version::Absent), Some(live(7, 9)));
    let newer = row(live(8, 5), 30, 3, 0b101, 0b010);
    check_heard(&rt, rt.alloc(), lived, (8, 30, 5), newer);
    let died = row(dead(7), 0, 1, 0b101, 0b010);
    check_heard(&rt, rt.alloc(), lived, (7, 0, 0), died);
    let first = row(live(1, 5), 30, 3, 0b101, 0b010);
    check_heard(&rt, rt.alloc(), none, (1, 30, 5), first);
    let first_dead = row(dead(1), 0, 1, 0b101, 0b010);
    check_heard(&rt, rt.alloc(), None, (1, 0, 5), first_dead);
}

// Equal: acknowledged, but not where it is absent; lifetime and body aren't taken.
#[test]
fn an_equal_lsp_is_acknowledged(rt: HostRuntime) {
    let lived = row(live(7, 9), 500, 3, 0b001, 0b110);
    check_heard(&rt, rt.alloc(), Some(live(7, 9)), (7, 30, 9), lived);
    let died = row(dead(7), 0, 1, 0b001, 0b110);
    check_heard(&rt, rt.alloc(), Some(dead(7)), (7, 0, 9), died);
    let none = row(Version::Absent, 0, 0, 0b011, 0b110);
    check_heard(&rt, rt.alloc(), Some(Version::Absent), (0, 30, 9), none);
    check_heard(&rt, rt.alloc(), None, (0, 30, 9), None);
}

// Older: the neighbour gets what is held. Confused: dead, and sent to all.
#[test]
fn an_older_lsp_gets_what_is_held_and_a_confused_one_ends_it(rt: HostRuntime) {
    let lived = row(live(7, 9), 500, 3, 0b011, 0b100);
    check_heard(&rt, rt.alloc(), Some(live(7, 9)), (6, 30, 9), lived);
    let died = row(dead(7), 0, 1, 0b011, 0b100);
    check_heard(&rt, rt.alloc(), Some(dead(7)), (7, 30, 9), died);
    let purged = row(dead(7), 0, 1, 0b111, 0);
    check_heard(&rt, rt.alloc(), Some(live(7, 9)), (7, 30, 5), purged);
}

/// The own LSP renewed, and a dead one, each sent to all. The body is 01 09 01 07.
fn renewed(seq: u32, sum: u16) -> Row {
    row(live(seq, sum), 1200, 4, 0b111, 0)
}

fn dead_at(seq: u32) -> Row {
    row(dead(seq), 0, 1, 0b111, 0)
}

// The own LSP goes past the claim. At the last number it is dead.
#[test]
fn claims_of_the_own_lsp_are_answered(rt: HostRuntime) {
    let (id, lived, last) = (lsp_id(1, 0), Some(live(7, 9)), u32::MAX);
    let past = (renewed(10, 0xfbe4), false);
    check_answered(&rt, rt.alloc(), lived, id, (9, 30, 5), past);
    let next = (renewed(8, 0xffe2), false);
    check_answered(&rt, rt.alloc(), lived, id, (7, 30, 5), next);
    check_answered(&rt, rt.alloc(), lived, id, (7, 0, 0), next);
    let anew = (renewed(4, 0x08de), false);
    check_answered(&rt, rt.alloc(), None, id, (3, 0, 0), anew);
    let spent = (dead_at(last), true);
    check_answered(&rt, rt.alloc(), lived, id, (last, 30, 5), spent);
}

// Every other own id is dead at the claim's number. An equal and an older claim are as of any id.
#[test]
fn claims_of_own_ids_are_answered(rt: HostRuntime) {
    let (own, other) = (lsp_id(1, 0), lsp_id(1, 5));
    let (lived, last) = (Some(live(7, 9)), u32::MAX);
    let purged = (dead_at(9), false);
    check_answered(&rt, rt.alloc(), lived, other, (9, 30, 5), purged);
    let purged = (dead_at(last), false);
    check_answered(&rt, rt.alloc(), None, other, (last, 30, 5), purged);
    let equal = (row(live(7, 9), 500, 3, 0b001, 0b110), false);
    check_answered(&rt, rt.alloc(), lived, own, (7, 30, 9), equal);
    let older = (row(live(7, 9), 500, 3, 0b011, 0b100), false);
    check_answered(&rt, rt.alloc(), lived, own, (6, 30, 9), older);
}

/// That these are the ids of what is to be sent at the port.
fn check_to_send(rt: &impl Abort, alloc: Global, db: &Database, port: u8, ids: &[LspId])
    requires low { 1 ≤ port }
    requires high { port ≤ MOST_PORTS }
{
    let found = to_send(alloc, db, port).expect(rt, "out of memory");
    are_equal(rt, &found.as_slice(), &ids);
}

/// Asserts that the LSP is held as it was heard.
fn check_lsp(rt: &impl Abort, db: &Database, lsp: &Lsp<'_>) {
    let held = db.find(&lsp.id).expect(rt, "nothing is held");
    are_equal(rt, &lsp_of(held), lsp);
}

fn check_heard_and_sent_on(rt: &impl Abort, alloc: Global, lsp: &Lsp<'_>) {
    let up = PortSet { bits: 0b11 };
    let mut db = Database::new(alloc);
    let mut own = own(rt, alloc, &[1]);
    own.system = system(2);
    let heard = hear(rt, alloc, &mut db, up, 1, lsp, &mut own);
    are_equal(rt, &heard, &Ok(()));
    check_row(rt, &db, &lsp.id, row(live(1, 0x4fd7), 1200, 35, 0b10, 0b01));
    check_body(rt, &db, &lsp.id, &FIRST_LSP[26..]);
    check_lsp(rt, &db, lsp);
    check_to_send(rt, alloc, &db, 2, &[lsp.id]);
    check_to_send(rt, alloc, &db, 1, &[]);
}

#[test]
fn an_lsp_is_heard_and_sent_on(rt: HostRuntime) {
    match decode(FIRST_LSP) {
        Ok(Pdu::Lsp(lsp)) => check_heard_and_sent_on(&rt, rt.alloc(), &lsp),
        other => assert!(rt; false, "{other:?}"),
    }
}

/// Originates number 0, which has a place, where there is a body.
#[tactic(auto, unfolding(flooding::specs::Own::own_numbers))]
fn originate_in(rt: &impl Abort, alloc: Global, db: &mut Database, up: PortSet, own: &mut Own) {
    check_bytes(rt, own);
    check_few(rt, db, own);
    assert!(*rt; originate(alloc, db, up, own, 0).is_ok());
}

#[test]
fn each_origination_goes_one_number_further(rt: HostRuntime) {
    let alloc = rt.alloc();
    let id = lsp_id(1, 0);
    let mut db = Database::new(alloc);
    let mut first = own(&rt, alloc, &FIRST_LSP[26..]);
    originate_in(&rt, alloc, &mut db, PortSet::none(), &mut first);
    assert!(rt; first.id(0) == id && db.version_at(&id) == live(1, 0x4fd7));
    let mut second = own(&rt, alloc, WITH_NEIGHBOUR);
    originate_in(&rt, alloc, &mut db, PortSet { bits: 0b1000 }, &mut second);
    check_row(&rt, &db, &id, row(live(2, 0xa512), 1200, 56, 0b1000, 0));
    check_body(&rt, &db, &id, WITH_NEIGHBOUR);
}

#[test]
fn no_number_comes_after_the_last(rt: HostRuntime) {
    let alloc = rt.alloc();
    let id = lsp_id(1, 0);
    let mut db = Database::new(alloc);
    let mut own = own(&rt, alloc, &[1]);
    put_held(&rt, alloc, &mut db, id, live(u32::MAX, 9));
    originate_in(&rt, alloc, &mut db, UP, &mut own);
    check_row(&rt, &db, &id, row(dead(u32::MAX), 0, 1, 0b111, 0b110));
    assert!(rt; own.spent);
    originate_in(&rt, alloc, &mut db, PortSet::none(), &mut own);
    check_row(&rt, &db, &id, row(dead(u32::MAX), 0, 1, 0b111, 0b110));
}

/// A database with places for own numbers alone: 4,080 live LSPs of other ids.
fn full(rt: &impl Abort, alloc: Global) -> Database {
    let mut db = Database::new(alloc);
    for number in 0..4080 {
        put_held(rt, alloc, &mut db, lsp_id(number, 16), live(7, 9));
    }
    db
}

#[test]
fn a_full_database_takes_own_numbers_alone(rt: HostRuntime) {
    let alloc = rt.alloc();
    let up = PortSet { bits: 0b11 };
    let mut db = full(&rt, alloc);
    let mut own = own(&rt, alloc, &[1]);
    let more = lsp(lsp_id(9, 0), (1, 30, 5));
    assert!(rt; hear(&rt, alloc, &mut db, up, 1, &more, &mut own) == Err(FloodError::Full));
    let pseudonode = LspId {
        system: system(1),
        pseudonode: 1,
        number: 0,
    };
    let named = lsp(pseudonode, (3, 30, 5));
    assert!(rt; hear(&rt, alloc, &mut db, up, 1, &named, &mut own) == Err(FloodError::Full));
    let mine = lsp(own.id(0), (3, 30, 5));
    assert!(rt; hear(&rt, alloc, &mut db, up, 1, &mine, &mut own).is_ok());
    assert!(rt; db.version_at(&own.id(0)).number() == 4 && db.len() == 4081);
    assert!(rt; hear(&rt, alloc, &mut db, up, 1, &more, &mut own) == Err(FloodError::Full));
    let known = lsp(lsp_id(0, 16), (8, 30, 5));
    assert!(rt; hear(&rt, alloc, &mut db, up, 1, &known, &mut own).is_ok());
    assert!(rt; db.version_at(&known.id) == live(8, 5));
}

#[test]
fn what_is_to_be_sent_stands_in_order_of_id(rt: HostRuntime) {
    let alloc = rt.alloc();
    let mut db = Database::new(alloc);
    put_held(&rt, alloc, &mut db, lsp_id(3, 0), live(7, 9));
    put_held(&rt, alloc, &mut db, lsp_id(1, 0), live(7, 9));
    put_held(&rt, alloc, &mut db, lsp_id(2, 0), live(7, 9));
    db.set_srm(&lsp_id(2, 0), 1, false);
    check_to_send(&rt, alloc, &db, 1, &[lsp_id(1, 0), lsp_id(3, 0)]);
    check_to_send(&rt, alloc, &db, 3, &[]);
}

#[test]
#[tactic(auto, unfolding(isis_pdu::specs::Tlvs::is_whole_after))]
fn a_dead_lsp_is_its_header_alone(rt: HostRuntime) {
    let held = Held {
        id: lsp_id(2, 0),
        version: dead(2),
        lifetime: 0,
        body: seq(&rt, rt.alloc(), &[1]),
        srm: PortSet::none(),
        ssn: PortSet::none(),
    };
    let bytes = write_held(rt.alloc(), &held).expect(&rt, "out of memory");
    are_bytes(&rt, bytes.as_slice(), DEAD_LSP);
}
