//! Tests of `swift_bridge`: its trees.
ghost use Rattle.std.specs.Prelude.{◌≡◌, false, OnOk};

use crate::fixtures::{Made, are_equal, meet};
use bridge_api::{Bridge, Kind};
use spb_types::NoMemory;
use std::alloc::Global;
use std::process::Abort;
use swift_bridge::{SharedReading, SwiftBridge};

/// What the trees of a bridge say: of how many bridges they are, the cost of the one edge, and how many labels were
/// computed anew.
fn trees_of(bridge: &mut SwiftBridge) -> Result<(usize, u32, u64), NoMemory>
    requires { bridge.old.blank ≡ false }
    ensures { OnOk result (bridge.new ≡ bridge.old) }
{
    let trees = bridge.trees()?;
    let graph = trees.graph();
    match graph.edges.as_slice() {
        [edge] => Ok((graph.bridges.len(), edge.cost, trees.relabelled())),
        _ => Ok((graph.bridges.len(), 0, trees.relabelled())),
    }
}

/// The same, with memory.
fn trees_with_memory(rt: &impl Abort, bridge: &mut SwiftBridge) -> (usize, u32, u64)
    requires { bridge.old.blank ≡ false }
    ensures { bridge.new ≡ bridge.old }
{
    match trees_of(bridge) {
        Ok(said) => said,
        Err(_) => panic!(*rt; "out of memory"),
    }
}

/// The same of a bridge that was made.
fn said_by(rt: &impl Abort, made: &mut Made<SwiftBridge>) -> (usize, u32, u64) {
    trees_with_memory(rt, &mut made.bridge)
}

/// Asserts how many rows its tables have.
fn check_rows(rt: &impl Abort, made: &Made<SwiftBridge>, rows: usize) {
    let tables = made.bridge.tables().expect(rt, "out of memory");
    are_equal(rt, &tables.unicast.len(), &rows);
}

/// A swift bridge in the VID 10.
fn made(rt: &impl Abort, alloc: Global, last: u8) -> Made<SwiftBridge> {
    let blank = SwiftBridge::blank(alloc);
    are_equal(rt, &blank.kind(), &Kind::Swift);
    Made::in_vid_10(rt, alloc, blank, last)
}

/// Asserts what the trees of A say of a metric of B, before and after it is set.
fn check_trees(rt: &impl Abort, a: &mut Made<SwiftBridge>, b: &mut Made<SwiftBridge>) {
    meet(rt, a, b, 5);
    are_equal(rt, &said_by(rt, a), &(2, 10, 0));
    b.set_metric(rt, 20);
    meet(rt, a, b, 3);
    let changed = said_by(rt, a);
    are_equal(rt, &(changed.0, changed.1), &(2, 20));
    assert!(*rt; changed.2 > 0);
    check_rows(rt, a, 1);
    are_equal(rt, &said_by(rt, a), &changed);
}

#[test]
fn trees_follow_a_metric(rt: HostRuntime) {
    let mut a = made(&rt, rt.alloc(), 1);
    let mut b = made(&rt, rt.alloc(), 2);
    check_trees(&rt, &mut a, &mut b);
}

/// Two swift bridges in the VID 10 that have met, and share what they read.
fn two_that_share(rt: &impl Abort, alloc: Global) -> (Made<SwiftBridge>, Made<SwiftBridge>) {
    let shared = SharedReading::new(alloc).expect(rt, "out of memory");
    let other = shared.share().expect(rt, "out of memory");
    let mut a = Made::in_vid_10(rt, alloc, SwiftBridge::sharing(alloc, shared), 1);
    let mut b = Made::in_vid_10(rt, alloc, SwiftBridge::sharing(alloc, other), 2);
    meet(rt, &mut a, &mut b, 5);
    (a, b)
}

#[test]
fn trees_are_kept_where_one_bridge_is_asked_alone(rt: HostRuntime) {
    let (mut a, mut b) = two_that_share(&rt, rt.alloc());
    check_rows(&rt, &a, 1);
    b.set_metric(&rt, 20);
    meet(&rt, &mut a, &mut b, 3);
    check_rows(&rt, &a, 1);
    b.set_metric(&rt, 30);
    meet(&rt, &mut a, &mut b, 3);
    check_rows(&rt, &a, 1);
    assert!(rt; said_by(&rt, &mut a).2 > 0);
}

#[test]
fn no_trees_are_made_where_others_are_asked_too(rt: HostRuntime) {
    let (mut a, mut b) = two_that_share(&rt, rt.alloc());
    check_rows(&rt, &a, 1);
    check_rows(&rt, &b, 1);
    b.set_metric(&rt, 20);
    meet(&rt, &mut a, &mut b, 3);
    check_rows(&rt, &a, 1);
    check_rows(&rt, &b, 1);
    b.set_metric(&rt, 30);
    meet(&rt, &mut a, &mut b, 3);
    check_rows(&rt, &a, 1);
    are_equal(&rt, &said_by(&rt, &mut a), &(2, 30, 0));
}
