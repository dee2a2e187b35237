//! What the tests of several crates share.
ghost use Rattle.std.specs.Prelude.{◌≡◌, ◌≤◌};
ghost use Rattle.flooding.specs.Own.{HaveBytes};
ghost use Rattle.flooding.specs.Hearing.{HasFewOthers};
ghost use Rattle.flooding.specs.Placing.{holding};
ghost use Rattle.lsdb.specs.Entry.{CanBeHeld};

use flooding::{Own, most_others};
use lsdb::{Database, Held, Version};
use spb_types::{Edge, Graph, GraphBridge, LspId, Mac, Member, PortSet, Seq, SystemId};
use std::alloc::Global;
use std::fmt::Debug;
use std::process::Abort;

/// The ports 1, 2 and 3.
pub(crate) const UP: PortSet = PortSet { bits: 0b111 };

/// The body of system 1's LSP with a neighbour at port 1, metric 10.
pub(crate) const WITH_NEIGHBOUR: &[u8] = b"\
    \x01\x01\x04\x03\x49\x00\x01\x81\x01\xc1\x16\x13\x02\x00\x00\x00\x00\x02\x00\x00\x00\x0a\x08\x1d\
    \x06\x00\x00\x0a\x01\x00\x01\x90\x17\x00\x00\x01\x13\x00\x00\x00\x00\x00\x00\x00\x00\x00\x00\x00\
    \x00\x80\x00\x00\x00\x00\x01\x00";

pub(crate) fn system(number: u16) -> SystemId {
    let [high, low] = number.to_be_bytes();
    SystemId {
        mac: Mac {
            bytes: [2, 0, 0, 0, high, low],
        },
    }
}

/// The id of this LSP of the system.
pub(crate) fn lsp_id(of: u16, number: u8) -> LspId {
    LspId {
        system: system(of),
        pseudonode: 0,
        number,
    }
}

pub(crate) fn live(seq: u32, sum: u16) -> Version {
    Version::Live { seq, sum }
}

pub(crate) fn dead(seq: u32) -> Version {
    Version::Dead { seq }
}

/// The items as a list of their own.
pub(crate) fn seq<T: Copy>(rt: &impl Abort, alloc: Global, items: &[T]) -> Seq<T>
    ensures { result ≡ items.now }
{
    Seq::from_vec(Vec::from_slice(alloc, items).expect(rt, "out of memory"))
}

/// The graph of these bridges, edges and members.
pub(crate) fn graph_of(
    rt: &impl Abort,
    alloc: Global,
    bridges: &[GraphBridge],
    edges: &[Edge],
    members: &[Member],
) -> Graph
    ensures { result ≡ record { bridges = bridges.now; edges = edges.now; members = members.now } }
{
    Graph {
        bridges: seq(rt, alloc, bridges),
        edges: seq(rt, alloc, edges),
        members: seq(rt, alloc, members),
    }
}

/// The system 1, which says this of itself.
pub(crate) fn own(rt: &impl Abort, alloc: Global, body: &[u8]) -> Own {
    Own {
        system: system(1),
        bodies: Seq::from_vec(vec![in alloc; Some(seq(rt, alloc, body))].expect(
            rt,
            "out of memory",
        )),
        spent: false,
    }
}

/// Asserts that a system has one body, with a byte.
pub(crate) fn check_bytes(rt: &impl Abort, own: &Own)
    ensures { HaveBytes own.now }
{
    match own.bodies.as_slice() {
        [Some(body)] => assert!(*rt; !body.is_empty()),
        _ => assert!(*rt; false, "another number of bodies than one"),
    }
}

/// Asserts that no more ids that aren't own numbers are held than have room.
pub(crate) fn check_few(rt: &impl Abort, db: &Database, own: &Own)
    ensures { HasFewOthers (holding db.now own.now) }
{
    assert!(*rt; own.others(db) <= most_others());
}

/// An LSP with the body 01 09 00, and the ports where it is to be sent and acknowledged.
pub(crate) fn held(
    rt: &impl Abort,
    alloc: Global,
    id: LspId,
    version: Version,
    lifetime: u16,
    flags: (u32, u32),
) -> Held
    requires { 1 ≤ lifetime }
    ensures { CanBeHeld result.version result.lifetime result.body }
{
    let body = seq(rt, alloc, b"\x01\x09\x00");
    let (srm, ssn) = (PortSet { bits: flags.0 }, PortSet { bits: flags.1 });
    match version {
        Version::Absent => Held {
            id,
            version: Version::Absent,
            lifetime,
            body,
            srm,
            ssn,
        },
        Version::Live { seq, sum } => Held {
            id,
            version: Version::Live { seq, sum },
            lifetime,
            body,
            srm,
            ssn,
        },
        Version::Dead { seq } => Held {
            id,
            version: Version::Dead { seq },
            lifetime,
            body,
            srm,
            ssn,
        },
    }
}

/// Puts that LSP.
pub(crate) fn put(
    rt: &impl Abort,
    alloc: Global,
    db: &mut Database,
    id: LspId,
    version: Version,
    lifetime: u16,
    flags: (u32, u32),
)
    requires { 1 ≤ lifetime }
{
    let held = held(rt, alloc, id, version, lifetime, flags);
    assert!(*rt; db.put(held).is_ok());
}

/// Asserts that these are equal. An assertion is proved once here, and not at each type.
pub(crate) fn are_equal<T: PartialEq + Debug>(rt: &impl Abort, found: &T, want: &T) {
    assert_eq!(*rt; found, want);
}

pub(crate) fn are_bytes(rt: &impl Abort, found: &[u8], want: &[u8]) {
    are_equal(rt, &found, &want);
}
