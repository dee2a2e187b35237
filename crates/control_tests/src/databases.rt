//! Tests of `lsdb`.
ghost use Rattle.std.specs.Prelude.{◌≤◌};
ghost use Rattle.lsdb.specs.Entry.{CanBeHeld};

use crate::fixtures::{are_equal, dead, held, live, lsp_id as id, put};
use lsdb::{Database, PutError, Raised, Relation, Version, compare, join};
use spb_types::limits::MOST_PORTS;
use spb_types::{LspId, PortSet};
use std::alloc::{AllocError, Global};
use std::process::Abort;

fn check_order(rt: &impl Abort, a: Version, h: Version, relation: Relation, top: Version) {
    are_equal(rt, &(a, h, compare(a, h)), &(a, h, relation));
    are_equal(rt, &(a, h, join(a, h)), &(a, h, top));
}

#[test]
fn versions_stand_in_their_order(rt: HostRuntime) {
    let absent = Version::Absent;
    check_order(&rt, absent, absent, Relation::Equal, absent);
    check_order(&rt, absent, live(1, 7), Relation::Older, live(1, 7));
    check_order(&rt, live(5, 7), live(5, 7), Relation::Equal, live(5, 7));
    check_order(&rt, live(5, 7), live(5, 8), Relation::Confused, dead(5));
    check_order(&rt, live(5, 7), live(4, 9), Relation::Newer, live(5, 7));
    check_order(&rt, live(5, 7), dead(5), Relation::Older, dead(5));
    check_order(&rt, live(6, 0), dead(5), Relation::Newer, live(6, 0));
    check_order(&rt, dead(5), live(5, 7), Relation::Newer, dead(5));
    check_order(&rt, dead(5), dead(6), Relation::Older, dead(6));
}

/// Asserts the version of which a PDU with this sequence number, lifetime and checksum speaks.
fn check_claimed(rt: &impl Abort, seq: u32, lifetime: u16, sum: u16, version: Version) {
    are_equal(rt, &Version::claimed(seq, lifetime, sum), &version);
}

#[test]
fn a_pdu_speaks_of_a_version(rt: HostRuntime) {
    check_claimed(&rt, 0, 1200, 7, Version::Absent);
    check_claimed(&rt, 9, 0, 7, dead(9));
    check_claimed(&rt, 9, 1, 7, live(9, 7));
    are_equal(&rt, &live(9, 7).number(), &9);
    assert!(rt; Version::Absent.is_absent() && !live(9, 7).is_absent());
}

fn put_absent(rt: &impl Abort, alloc: Global, db: &mut Database, id: LspId) {
    put(rt, alloc, db, id, Version::Absent, 1, (0, 0));
}

/// An LSP to be sent at port 2, with an acknowledgement at port 3.
fn put_live(rt: &impl Abort, alloc: Global, db: &mut Database, id: LspId, lifetime: u16)
    requires { 1 ≤ lifetime }
{
    put(rt, alloc, db, id, live(7, 9), lifetime, (0b010, 0b100));
}

/// What stands under an id: version, lifetime, SRM and SSN in hexadecimal digits, and the body.
fn text_of(alloc: Global, db: &Database, id: LspId) -> Result<String, AllocError> {
    match db.find(&id) {
        None => format!(in alloc; "none"),
        Some(held) => format!(in alloc;
            "{:?} for {} srm {:x} ssn {:x} body {:?}",
            held.version,
            held.lifetime,
            held.srm.bits,
            held.ssn.bits,
            held.body.as_slice()
        ),
    }
}

fn check(rt: &impl Abort, alloc: Global, db: &Database, id: LspId, expected: &str) {
    let text = text_of(alloc, db, id).expect(rt, "out of memory");
    are_equal(rt, &text.as_str(), &expected);
}

fn check_place(rt: &impl Abort, db: &Database, place: usize, id: Option<LspId>) {
    let found = match db.at(place) {
        Some(held) => Some(held.id),
        None => None,
    };
    are_equal(rt, &found, &id);
}

fn check_held(rt: &impl Abort, db: &Database, id: LspId, held: bool) {
    assert!(*rt; db.find(&id).is_some() == held);
}

fn check_version(rt: &impl Abort, db: &Database, id: LspId, version: Version) {
    are_equal(rt, &db.version_at(&id), &version);
}

fn check_len(rt: &impl Abort, db: &Database, len: usize) {
    are_equal(rt, &(db.len(), db.is_empty()), &(len, len == 0));
}

#[test]
fn lsps_stand_in_order_of_id(rt: HostRuntime) {
    let mut db = Database::new(rt.alloc());
    check_len(&rt, &db, 0);
    put_absent(&rt, rt.alloc(), &mut db, id(2, 0));
    put_absent(&rt, rt.alloc(), &mut db, id(1, 5));
    put_absent(&rt, rt.alloc(), &mut db, id(3, 0));
    put_absent(&rt, rt.alloc(), &mut db, id(1, 0));
    put_absent(&rt, rt.alloc(), &mut db, id(2, 0));
    check_len(&rt, &db, 4);
    check_place(&rt, &db, 0, Some(id(1, 0)));
    check_place(&rt, &db, 1, Some(id(1, 5)));
    check_place(&rt, &db, 2, Some(id(2, 0)));
    check_place(&rt, &db, 3, Some(id(3, 0)));
    check_place(&rt, &db, 4, None);
    check_held(&rt, &db, id(1, 5), true);
    check_held(&rt, &db, id(1, 6), false);
    check_version(&rt, &db, id(1, 6), Version::Absent);
}

#[test]
fn an_lsp_is_put_over_the_one_under_its_id(rt: HostRuntime) {
    let mut db = Database::new(rt.alloc());
    put_absent(&rt, rt.alloc(), &mut db, id(1, 0));
    put_live(&rt, rt.alloc(), &mut db, id(1, 0), 30);
    check_len(&rt, &db, 1);
    let live = "Live { seq: 7, sum: 9 } for 30 srm 2 ssn 4 body [1, 9, 0]";
    check(&rt, rt.alloc(), &db, id(1, 0), live);
}

#[test]
fn the_4097th_id_is_full(rt: HostRuntime) {
    let mut db = Database::new(rt.alloc());
    for system in 0..4096 {
        put_absent(&rt, rt.alloc(), &mut db, id(4095 - system, 0));
    }
    let more = db.put(held(&rt, rt.alloc(), id(4096, 0), Version::Absent, 1, (0, 0)));
    assert_eq!(rt; more, Err(PutError::Full));
    put_live(&rt, rt.alloc(), &mut db, id(9, 0), 1);
    check_len(&rt, &db, 4096);
}

const UP: PortSet = PortSet { bits: 0b1000 };

fn check_told(rt: &impl Abort, db: &Database, flags: bool) {
    assert!(*rt; db.has_flags() == flags);
}

/// A second passes, and there are flags or none.
fn age(rt: &impl Abort, db: &mut Database, up: PortSet, flags: bool) {
    assert!(*rt; db.age_one(up) == flags);
}

/// There are flags or none, which a second doesn't change.
fn check_told_twice(rt: &impl Abort, db: &mut Database, flags: bool) {
    check_told(rt, db, flags);
    age(rt, db, UP, flags);
}

#[test]
fn the_last_second_makes_an_lsp_dead(rt: HostRuntime) {
    let mut db = Database::new(rt.alloc());
    put_live(&rt, rt.alloc(), &mut db, id(1, 0), 2);
    let up = PortSet::none().with(1).with(4);
    age(&rt, &mut db, up, true);
    let live = "Live { seq: 7, sum: 9 } for 1 srm 2 ssn 4 body [1, 9, 0]";
    check(&rt, rt.alloc(), &db, id(1, 0), live);
    age(&rt, &mut db, up, true);
    age(&rt, &mut db, PortSet::none(), true);
    let dead = "Dead { seq: 7 } for 0 srm 9 ssn 4 body [1]";
    check(&rt, rt.alloc(), &db, id(1, 0), dead);
}

/// Sets or clears one flag of an LSP, or sets all its flags, or clears those of a port.
fn set_srm(db: &mut Database, id: LspId, port: u8, on: bool)
    requires low { 1 ≤ port }
    requires high { port ≤ MOST_PORTS }
{
    db.set_srm(&id, port, on);
}

fn set_ssn(db: &mut Database, id: LspId, port: u8, on: bool)
    requires low { 1 ≤ port }
    requires high { port ≤ MOST_PORTS }
{
    db.set_ssn(&id, port, on);
}

fn set_flags(db: &mut Database, id: LspId, srm: u32, ssn: u32) {
    db.set_flags(&id, PortSet { bits: srm }, PortSet { bits: ssn });
}

fn clear_port(db: &mut Database, port: u8)
    requires low { 1 ≤ port }
    requires high { port ≤ MOST_PORTS }
{
    db.clear_port(port);
}

#[test]
fn flags_are_told_with_ageing(rt: HostRuntime) {
    let mut db = Database::new(rt.alloc());
    check_told_twice(&rt, &mut db, false);
    put_absent(&rt, rt.alloc(), &mut db, id(2, 0));
    put_live(&rt, rt.alloc(), &mut db, id(1, 0), 9);
    check_told_twice(&rt, &mut db, true);
    set_flags(&mut db, id(1, 0), 0, 0x8000_0000);
    check_told_twice(&rt, &mut db, true);
    set_ssn(&mut db, id(1, 0), 32, false);
    check_told_twice(&rt, &mut db, false);
    set_srm(&mut db, id(2, 0), 1, true);
    check_told_twice(&rt, &mut db, true);
    clear_port(&mut db, 1);
    for _ in 0..4 {
        age(&rt, &mut db, UP, false);
    }
    check_told(&rt, &db, false);
    age(&rt, &mut db, UP, true);
    check_told(&rt, &db, true);
}

/// Raises an LSP to a newer version, which gives this.
fn raise(
    rt: &impl Abort,
    db: &mut Database,
    id: LspId,
    to: (Version, u16, Vec<u8>),
    outcome: Raised,
)
    requires { CanBeHeld to.0 to.1 to.2.items }
{
    let (version, lifetime, body) = to;
    match compare(version, db.version_at(&id)) {
        Relation::Newer => {
            let raised = db.raise(&id, version, lifetime, body);
            are_equal(rt, &raised, &outcome);
        }
        other => are_equal(rt, &other, &Relation::Newer),
    }
}

#[test]
fn a_newer_version_takes_the_place_of_an_older(rt: HostRuntime) {
    let mut db = Database::new(rt.alloc());
    put_live(&rt, rt.alloc(), &mut db, id(1, 0), 2);
    let to = Version::Live { seq: 8, sum: 5 };
    let body = vec![in rt.alloc(); 3, 4].expect(&rt, "out of memory");
    raise(&rt, &mut db, id(1, 0), (to, 700, body), Raised::Raised);
    let raised = "Live { seq: 8, sum: 5 } for 700 srm 2 ssn 4 body [3, 4]";
    check(&rt, rt.alloc(), &db, id(1, 0), raised);
}

#[test]
fn an_id_that_isnt_held_is_not_raised(rt: HostRuntime) {
    let mut db = Database::new(rt.alloc());
    put_live(&rt, rt.alloc(), &mut db, id(1, 0), 2);
    let to = Version::Dead { seq: 8 };
    let body = vec![in rt.alloc(); 1].expect(&rt, "out of memory");
    raise(&rt, &mut db, id(2, 0), (to, 0, body), Raised::NotHeld);
    check_len(&rt, &db, 1);
    check_held(&rt, &db, id(2, 0), false);
}

/// Makes a live LSP dead, which is to be sent at these ports.
fn purge(db: &mut Database, id: LspId, srm: u32) {
    if let Version::Live { seq, sum: _ } = db.version_at(&id) {
        db.purge(&id, seq, PortSet { bits: srm });
    }
}

#[test]
fn flags_are_set_and_cleared(rt: HostRuntime) {
    let mut db = Database::new(rt.alloc());
    let own = id(1, 0);
    put_live(&rt, rt.alloc(), &mut db, own, 2);
    set_srm(&mut db, own, 32, true);
    set_ssn(&mut db, own, 2, true);
    set_ssn(&mut db, own, 3, false);
    set_srm(&mut db, id(9, 0), 1, true);
    let flags = "Live { seq: 7, sum: 9 } for 2 srm 80000002 ssn 2 body [1, 9, 0]";
    check(&rt, rt.alloc(), &db, own, flags);
    clear_port(&mut db, 2);
    let flags = "Live { seq: 7, sum: 9 } for 2 srm 80000000 ssn 0 body [1, 9, 0]";
    check(&rt, rt.alloc(), &db, own, flags);
    set_flags(&mut db, own, 0, 0b1_0000);
    let flags = "Live { seq: 7, sum: 9 } for 2 srm 0 ssn 10 body [1, 9, 0]";
    check(&rt, rt.alloc(), &db, own, flags);
    purge(&mut db, own, 0b1);
    let dead = "Dead { seq: 7 } for 0 srm 1 ssn 0 body [1]";
    check(&rt, rt.alloc(), &db, own, dead);
    check_version(&rt, &db, own, Version::Dead { seq: 7 });
}

fn check_text(rt: &impl Abort, alloc: Global, error: PutError, expected: &str) {
    let text = format!(in alloc; "{error}").expect(rt, "out of memory");
    are_equal(rt, &text.as_str(), &expected);
}

#[test]
fn errors_say_what_was_missing(rt: HostRuntime) {
    check_text(&rt, rt.alloc(), PutError::Full, "the database is full");
    check_text(&rt, rt.alloc(), PutError::NoMemory, "out of memory");
}
