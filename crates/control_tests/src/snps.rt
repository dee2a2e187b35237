//! Tests of `snp_sync`. Expected flags are the standard's, but for this project's profile of dead LSPs: an id that isn't
//! held is asked for where a dead LSP of it is claimed too, and a dead LSP that a CSNP doesn't list is sent. There are
//! three Up ports, of which the second hears. Checksums and PDUs were made by hand.
ghost use Rattle.std.specs.Prelude.{◌≤◌};

use crate::fixtures::{
    UP, WITH_NEIGHBOUR, are_bytes, are_equal, check_bytes, check_few, dead, live, lsp_id, own, put,
    system,
};
use isis_pdu::{Csnp, Pdu, decode};
use lsdb::{Database, Version};
use snp_sync::{csnps, entries_of_snp, hear_csnp, hear_psnp, psnps, successor};
use spb_tlvs::{SnpEntry, TlvError};
use spb_types::limits::MOST_PORTS;
use spb_types::{LspId, Mac, SystemId};
use std::alloc::Global;
use std::process::Abort;

/// The PSNP of system 1 for the LSP 2 of system 2.
const PSNP: [u8; 35] = [
    0x83, 0x11, 0x01, 0x00, 0x1a, 0x01, 0x00, 0x00, 0x00, 0x23, 0x02, 0x00, 0x00, 0x00, 0x00, 0x01,
    0x00, 0x09, 0x10, 0x04, 0xae, 0x02, 0x00, 0x00, 0x00, 0x00, 0x02, 0x00, 0x00, 0x00, 0x00, 0x00,
    0x02, 0xc2, 0xf3,
];

/// The least LSP id.
const FIRST: LspId = LspId {
    system: SystemId {
        mac: Mac { bytes: [0; 6] },
    },
    pseudonode: 0,
    number: 0,
};

/// The greatest LSP id.
const LAST: LspId = LspId {
    system: SystemId {
        mac: Mac { bytes: [255; 6] },
    },
    pseudonode: 255,
    number: 255,
};

/// An entry of this sequence number, lifetime and checksum.
fn entry(id: LspId, (seq, lifetime, sum): (u32, u16, u16)) -> SnpEntry {
    SnpEntry {
        lifetime,
        id,
        seq,
        sum,
    }
}

/// System 1 hears these entries at port 2 in a PSNP, of which so many find no place.
fn hear_in_psnp(
    rt: &impl Abort,
    alloc: Global,
    db: &mut Database,
    entries: &[SnpEntry],
    full: u64,
) {
    let mut own = own(rt, alloc, WITH_NEIGHBOUR);
    check_bytes(rt, &own);
    check_few(rt, db, &own);
    assert!(*rt; hear_psnp(alloc, db, UP, 2, entries, &mut own) == Ok(full));
}

/// System 1 hears them there in a CSNP of this range.
fn hear_in_csnp(
    rt: &impl Abort,
    alloc: Global,
    db: &mut Database,
    (start, end): (LspId, LspId),
    entries: &[SnpEntry],
    full: u64,
) {
    let mut own = own(rt, alloc, WITH_NEIGHBOUR);
    check_bytes(rt, &own);
    check_few(rt, db, &own);
    assert!(*rt; hear_csnp(alloc, db, UP, 2, &start, &end, entries, &mut own) == Ok(full));
}

/// Puts a live LSP of lifetime 1198, or a dead or absent one, and the ports where it is to be sent and acknowledged.
fn put_held(
    rt: &impl Abort,
    alloc: Global,
    db: &mut Database,
    id: LspId,
    version: Version,
    flags: (u32, u32),
) {
    put(rt, alloc, db, id, version, 1198, flags);
}

/// What is held under an id, if anything: its version, and where it is to be sent and acknowledged.
type Before = Option<(Version, u32, u32)>;

fn was(version: Version, srm: u32, ssn: u32) -> Before {
    Some((version, srm, ssn))
}

/// Version, lifetime, SRM and SSN of what stands under an id, if anything does.
type Row = Option<(Version, u16, u32, u32)>;

fn row(version: Version, lifetime: u16, srm: u32, ssn: u32) -> Row {
    Some((version, lifetime, srm, ssn))
}

fn row_of(db: &Database, id: &LspId) -> Row {
    match db.find(id) {
        Some(h) => row(h.version, h.lifetime, h.srm.bits, h.ssn.bits),
        None => None,
    }
}

/// Asserts that system 1, which holds this, hears this claim of the id, and what then stands under the id.
fn check_heard(
    rt: &impl Abort,
    alloc: Global,
    before: Before,
    id: LspId,
    claim: (u32, u16, u16),
    outcome: Row,
) {
    let mut db = Database::new(alloc);
    if let Some((version, srm, ssn)) = before {
        put_held(rt, alloc, &mut db, id, version, (srm, ssn));
    }
    hear_in_psnp(rt, alloc, &mut db, &[entry(id, claim)], 0);
    let found = row_of(&db, &id);
    are_equal(rt, &(before, claim, found), &(before, claim, outcome));
}

/// The same of the first LSP of system 2.
fn check_other(
    rt: &impl Abort,
    alloc: Global,
    before: Before,
    claim: (u32, u16, u16),
    outcome: Row,
) {
    check_heard(rt, alloc, before, lsp_id(2, 0), claim, outcome);
}

#[test]
fn a_newer_entry_is_asked_for(rt: HostRuntime) {
    let (lived, died) = ((5, 600, 7), (5, 0, 0));
    let older = was(live(4, 9), 0b011, 0b100);
    let older_asked = row(live(4, 9), 1198, 0b001, 0b110);
    check_other(&rt, rt.alloc(), older, lived, older_asked);
    let asked = row(Version::Absent, 0, 0, 0b010);
    check_other(&rt, rt.alloc(), None, lived, asked);
    check_other(&rt, rt.alloc(), None, died, asked);
    let absent = was(Version::Absent, 0, 0);
    check_other(&rt, rt.alloc(), absent, lived, asked);
    let still_live = was(live(5, 9), 0b011, 0b100);
    let still_live_asked = row(live(5, 9), 1198, 0b001, 0b110);
    check_other(&rt, rt.alloc(), still_live, died, still_live_asked);
}

#[test]
fn an_equal_entry_needs_no_sending(rt: HostRuntime) {
    let lived = was(live(5, 7), 0b011, 0b110);
    let lived_kept = row(live(5, 7), 1198, 0b001, 0b110);
    check_other(&rt, rt.alloc(), lived, (5, 600, 7), lived_kept);
    let died = was(dead(5), 0b011, 0b100);
    let died_kept = row(dead(5), 0, 0b001, 0b100);
    check_other(&rt, rt.alloc(), died, (5, 0, 0), died_kept);
    let absent = was(Version::Absent, 0, 0b100);
    let absent_kept = row(Version::Absent, 0, 0, 0b100);
    check_other(&rt, rt.alloc(), absent, (0, 0, 0), absent_kept);
    check_other(&rt, rt.alloc(), None, (0, 600, 7), None);
}

#[test]
fn an_older_entry_gets_what_is_held(rt: HostRuntime) {
    let newer = was(live(6, 7), 0b001, 0b110);
    let newer_sent = row(live(6, 7), 1198, 0b011, 0b100);
    check_other(&rt, rt.alloc(), newer, (5, 600, 7), newer_sent);
    let died = was(dead(5), 0, 0b010);
    let died_sent = row(dead(5), 0, 0b010, 0);
    check_other(&rt, rt.alloc(), died, (0, 0, 0), died_sent);
}

#[test]
fn a_confused_entry_ends_the_lsp(rt: HostRuntime) {
    let before = was(live(5, 7), 0, 0b010);
    let outcome = row(dead(5), 0, 0b111, 0);
    check_other(&rt, rt.alloc(), before, (5, 600, 8), outcome);
}

#[test]
fn an_entry_of_an_own_id_is_answered(rt: HostRuntime) {
    let (alloc, last) = (rt.alloc(), u32::MAX);
    let before = was(live(4, 9), 0b001, 0b100);
    let (mine, other) = (lsp_id(1, 0), lsp_id(1, 3));
    let past = row(live(10, 0x951a), 1200, 0b111, 0);
    check_heard(&rt, alloc, before, mine, (9, 600, 7), past);
    let next = row(live(5, 0x9f15), 1200, 0b111, 0);
    check_heard(&rt, alloc, before, mine, (4, 600, 7), next);
    let spent = row(dead(last), 0, 0b111, 0);
    check_heard(&rt, alloc, before, mine, (last, 600, 7), spent);
    let purged = row(dead(9), 0, 0b111, 0);
    check_heard(&rt, alloc, before, other, (9, 600, 7), purged);
    let older = row(live(4, 9), 1198, 0b011, 0b100);
    check_heard(&rt, alloc, before, mine, (3, 600, 7), older);
}

/// The database of so many live LSPs, from system 1 on.
fn filled(rt: &impl Abort, alloc: Global, count: u16) -> Database {
    let mut db = Database::new(alloc);
    for place in 0..count {
        let id = lsp_id(place.wrapping_add(1), 0);
        put_held(rt, alloc, &mut db, id, live(5, 7), (0, 0));
    }
    db
}

/// Asserts at which ports a system's LSP is to be sent.
fn check_srm(rt: &impl Abort, db: &Database, of: u16, srm: u32) {
    let held = db.find(&lsp_id(of, 0)).expect(rt, "nothing is held");
    are_equal(rt, &(of, held.srm.bits), &(of, srm));
}

/// Asserts how many LSPs are held.
fn check_len(rt: &impl Abort, db: &Database, len: usize) {
    are_equal(rt, &db.len(), &len);
}

#[test]
fn entries_without_a_place_are_counted(rt: HostRuntime) {
    let alloc = rt.alloc();
    let mut db = filled(&rt, alloc, 4081);
    let entries = [
        entry(lsp_id(5000, 0), (1, 600, 7)),
        entry(lsp_id(7, 0), (4, 600, 7)),
        entry(lsp_id(5001, 0), (0, 0, 0)),
        entry(lsp_id(5002, 0), (1, 600, 7)),
    ];
    hear_in_psnp(&rt, alloc, &mut db, &entries, 2);
    check_len(&rt, &db, 4081);
    check_srm(&rt, &db, 7, 0b010);
    check_srm(&rt, &db, 8, 0);
    let range = (lsp_id(8, 0), lsp_id(9, 0));
    hear_in_csnp(&rt, alloc, &mut db, range, &entries, 2);
    check_len(&rt, &db, 4081);
    check_srm(&rt, &db, 7, 0b010);
    check_srm(&rt, &db, 8, 0b010);
    check_srm(&rt, &db, 9, 0b010);
    check_srm(&rt, &db, 10, 0);
}

#[test]
fn a_csnp_is_answered_with_what_its_sender_lacks(rt: HostRuntime) {
    let alloc = rt.alloc();
    let mut db = Database::new(alloc);
    put_held(&rt, alloc, &mut db, lsp_id(2, 0), live(5, 7), (0, 0));
    put_held(&rt, alloc, &mut db, lsp_id(3, 0), dead(5), (0, 0));
    put_held(&rt, alloc, &mut db, lsp_id(4, 0), live(5, 7), (0, 0));
    put_held(&rt, alloc, &mut db, lsp_id(5, 0), Version::Absent, (0, 0));
    put_held(&rt, alloc, &mut db, lsp_id(6, 0), live(5, 7), (0, 0));
    put_held(&rt, alloc, &mut db, lsp_id(7, 0), live(5, 7), (0, 0));
    let entries = [
        entry(lsp_id(9, 0), (0, 0, 0)),
        entry(lsp_id(4, 0), (5, 600, 7)),
    ];
    let range = (lsp_id(2, 1), lsp_id(6, 0));
    hear_in_csnp(&rt, alloc, &mut db, range, &entries, 0);
    // 2 lies before the range and 7 behind it; 4 is named, and 5 is absent.
    check_srm(&rt, &db, 2, 0);
    check_srm(&rt, &db, 3, 0b010);
    check_srm(&rt, &db, 4, 0);
    check_srm(&rt, &db, 5, 0);
    check_srm(&rt, &db, 6, 0b010);
    check_srm(&rt, &db, 7, 0);
}

/// The PSNPs of system 1 for its port 2.
fn psnps_at_2(rt: &impl Abort, alloc: Global, db: &mut Database) -> Vec<Vec<u8>> {
    psnps(alloc, db, system(1), 2).expect(rt, "out of memory")
}

/// Asserts what stands under an id.
fn check_row(rt: &impl Abort, db: &Database, id: &LspId, expected: Row) {
    are_equal(rt, &row_of(db, id), &expected);
}

#[test]
fn a_psnp_acknowledges_once(rt: HostRuntime) {
    let alloc = rt.alloc();
    let (first, second) = (lsp_id(2, 0), lsp_id(3, 0));
    let mut db = Database::new(alloc);
    put_held(&rt, alloc, &mut db, first, live(2, 0xc2f3), (0b010, 0b110));
    put_held(&rt, alloc, &mut db, second, live(2, 7), (0b010, 0b100));
    let pdus = psnps_at_2(&rt, alloc, &mut db);
    assert!(rt; pdus.len() == 1);
    are_bytes(&rt, pdus[0].as_slice(), &PSNP);
    check_row(&rt, &db, &first, row(live(2, 0xc2f3), 1198, 0b010, 0b100));
    check_row(&rt, &db, &second, row(live(2, 7), 1198, 0b010, 0b100));
    assert!(rt; psnps_at_2(&rt, alloc, &mut db).is_empty());
}

/// The length and the range of a CSNP, and the number of its entries.
type Chunk = (usize, LspId, LspId, usize);

/// Asserts that entries name systems in order from this number on.
fn check_entries(rt: &impl Abort, entries: &[SnpEntry], from: u16) {
    let mut number = from;
    for entry in entries {
        are_equal(rt, &entry.id, &lsp_id(number, 0));
        number = number.wrapping_add(1);
    }
}

/// The entries of SNPs' TLVs, under no contract.
fn entries_in(rt: &impl Abort, alloc: Global, tlvs: &[u8]) -> Vec<SnpEntry> {
    entries_of_snp(alloc, tlvs).expect(rt, "no entries")
}

/// What a CSNP is, under no contract.
fn csnp_of<'a>(rt: &impl Abort, pdu: &'a [u8]) -> Csnp<'a> {
    match decode(pdu) {
        Ok(Pdu::Csnp(csnp)) => csnp,
        _ => panic!(*rt; "no CSNP"),
    }
}

/// Asserts what a CSNP of system 1 is, and that it names systems in order from this number on.
fn check_csnp(rt: &impl Abort, alloc: Global, pdu: &[u8], expected: Chunk, from: u16) {
    let csnp = csnp_of(rt, pdu);
    let entries = entries_in(rt, alloc, csnp.tlvs);
    let found = (pdu.len(), csnp.start, csnp.end, entries.len());
    are_equal(rt, &csnp.source, &system(1));
    are_equal(rt, &found, &expected);
    check_entries(rt, entries.as_slice(), from);
}

/// The CSNPs of system 1, under no contract.
fn csnps_of_1(rt: &impl Abort, alloc: Global, db: &Database) -> Vec<Vec<u8>> {
    csnps(alloc, db, system(1)).expect(rt, "out of memory")
}

/// Asserts what the CSNPs of system 1 about this many LSPs are. Together they list each of them once, in order.
fn check_csnps(rt: &impl Abort, alloc: Global, count: u16, expected: &[Chunk]) {
    let db = filled(rt, alloc, count);
    let pdus = csnps_of_1(rt, alloc, &db);
    assert!(*rt; pdus.len() == expected.len());
    let mut from = 1_u16;
    for (pdu, chunk) in pdus.iter().zip(expected) {
        check_csnp(rt, alloc, pdu.as_slice(), *chunk, from);
        from = from.wrapping_add(90);
    }
}

#[test]
fn csnps_list_90_lsps_each(rt: HostRuntime) {
    let (end, next) = (lsp_id(90, 0), lsp_id(90, 1));
    let (second_end, third) = (lsp_id(180, 0), lsp_id(180, 1));
    let alloc = rt.alloc();
    check_csnps(&rt, alloc, 0, &[(33, FIRST, LAST, 0)]);
    check_csnps(&rt, alloc, 1, &[(51, FIRST, LAST, 1)]);
    check_csnps(&rt, alloc, 90, &[(1485, FIRST, LAST, 90)]);
    let two = [(1485, FIRST, end, 90), (51, next, LAST, 1)];
    check_csnps(&rt, alloc, 91, &two);
    let three = [
        (1485, FIRST, end, 90),
        (1485, next, second_end, 90),
        (51, third, LAST, 1),
    ];
    check_csnps(&rt, alloc, 181, &three);
}

#[test]
fn an_absent_lsp_is_not_listed(rt: HostRuntime) {
    let alloc = rt.alloc();
    let mut db = filled(&rt, alloc, 2);
    put_held(
        &rt,
        alloc,
        &mut db,
        lsp_id(1, 5),
        Version::Absent,
        (0, 0b010),
    );
    let pdus = csnps_of_1(&rt, alloc, &db);
    assert!(rt; pdus.len() == 1);
    check_csnp(&rt, alloc, pdus[0].as_slice(), (67, FIRST, LAST, 2), 1);
    assert!(rt; psnps_at_2(&rt, alloc, &mut db).len() == 1);
}

fn check_read(rt: &impl Abort, alloc: Global, tlvs: &[u8], expected: &[SnpEntry]) {
    let entries = entries_in(rt, alloc, tlvs);
    are_equal(rt, &entries.as_slice(), &expected);
}

fn extend(rt: &impl Abort, bytes: &mut Vec<u8>, more: &[u8]) {
    bytes.extend_from_slice(more).expect(rt, "out of memory");
}

#[test]
fn entries_are_read_of_each_tlv(rt: HostRuntime) {
    let mut tlvs = Vec::new(rt.alloc());
    extend(&rt, &mut tlvs, &PSNP[17..]);
    extend(&rt, &mut tlvs, &[137, 1, 7]);
    extend(&rt, &mut tlvs, &PSNP[17..]);
    let known = entry(lsp_id(2, 0), (2, 1198, 0xc2f3));
    check_read(&rt, rt.alloc(), tlvs.as_slice(), &[known, known]);
    extend(&rt, &mut tlvs, &[9, 1, 7]);
    let cut = entries_of_snp(rt.alloc(), tlvs.as_slice());
    are_equal(&rt, &cut.err(), &Some(TlvError::Cut));
}

fn check_successor(rt: &impl Abort, from: LspId, to: LspId) {
    are_equal(rt, &successor(from), &to);
}

/// The id of these bytes.
fn id_of(bytes: [u8; 6], pseudonode: u8, number: u8) -> LspId {
    LspId {
        system: SystemId { mac: Mac { bytes } },
        pseudonode,
        number,
    }
}

#[test]
fn the_successor_carries(rt: HostRuntime) {
    let one = [2, 0, 0, 0, 0, 1];
    check_successor(&rt, id_of(one, 0, 0), id_of(one, 0, 1));
    check_successor(&rt, id_of(one, 0, 255), id_of(one, 1, 0));
    let last = id_of([2, 0, 255, 255, 255, 255], 255, 255);
    check_successor(&rt, last, id_of([2, 1, 0, 0, 0, 0], 0, 0));
    check_successor(&rt, LAST, FIRST);
}
