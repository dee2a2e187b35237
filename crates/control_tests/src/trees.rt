//! Tests of `ect_trees`.
ghost use Rattle.spb_types.specs.Graph.{IsValid};

use crate::fixtures::{are_bytes, are_equal, graph_of, seq};
use ect_trees::{PathKey, Tree, compare_keys, tree_from};
use spb_types::{BridgeId, Edge, Graph, GraphBridge, Mac, Path, SourceId, SystemId};
use std::alloc::Global;
use std::cmp::Ordering;
use std::process::Abort;

const SQUARE_BRIDGES: [GraphBridge; 4] = [bridge!(1), bridge!(2), bridge!(3), bridge!(4)];

const SQUARE_EDGES: [Edge; 4] = [
    edge!(1, 2, 10),
    edge!(2, 4, 10),
    edge!(1, 3, 10),
    edge!(3, 4, 10),
];

/// Four bridges in a square, whose two ways from corner to corner tie.
pub(crate) fn square(rt: &impl Abort, alloc: Global) -> Graph
    ensures { IsValid result }
{
    graph_of(rt, alloc, &SQUARE_BRIDGES, &SQUARE_EDGES, &[])
}

const ONE: GraphBridge = bridge!(1);

const TWO: GraphBridge = bridge!(2);

const FOUR: GraphBridge = bridge!(4);

const FIVE: GraphBridge = bridge!(5);

const EIGHT: GraphBridge = bridge!(8);

const LADDER_EDGES: [Edge; 6] = [
    edge!(1, 5, 10),
    edge!(5, 2, 10),
    edge!(2, 8, 10),
    edge!(1, 3, 10),
    edge!(3, 4, 10),
    edge!(4, 8, 10),
];

/// Two ways from 1 to 8 of the same cost and hops: 1 5 2 8 and 1 3 4 8, with a priority of bridge 3.
fn ladder(rt: &impl Abort, alloc: Global, priority: u16) -> Graph
    ensures { IsValid result }
{
    let bridges = [ONE, TWO, bridge!(3, priority), FOUR, FIVE, EIGHT];
    graph_of(rt, alloc, &bridges, &LADDER_EDGES, &[])
}

const DETOUR_BRIDGES: [GraphBridge; 6] = [
    bridge!(4),
    bridge!(7),
    bridge!(1),
    bridge!(9),
    bridge!(3),
    bridge!(2),
];

const DETOUR_EDGES: [Edge; 5] = [
    edge!(1, 2, 10),
    edge!(3, 2, 10),
    edge!(3, 4, 10),
    edge!(9, 1, 10),
    edge!(9, 4, 20),
];

/// Two ways of cost 30 from 1 to 4: 1 2 3 4, and 1 9 4. Bridge 7 has no edge.
fn detour(rt: &impl Abort, alloc: Global) -> Graph
    ensures { IsValid result }
{
    graph_of(rt, alloc, &DETOUR_BRIDGES, &DETOUR_EDGES, &[])
}

fn key(rt: &impl Abort, alloc: Global, cost: u64, hops: u32, last: u8) -> PathKey {
    let ids = seq(rt, alloc, &[[0x80, 0, 2, 0, 0, 0, 0, last]]);
    PathKey { cost, hops, ids }
}

/// The tree from a bridge, under no contract: the tests ask for nothing but what it is.
pub(crate) fn tree(rt: &impl Abort, alloc: Global, graph: &Graph, from: u8, mask: u8) -> Tree
    requires { IsValid graph.now }
{
    tree_from(alloc, graph, system!(from), mask).expect(rt, "out of memory")
}

/// The tree's path to a bridge, under no contract.
pub(crate) fn path(rt: &impl Abort, alloc: Global, tree: &Tree, to: u8) -> Option<Path> {
    tree.path_to(alloc, system!(to)).expect(rt, "out of memory")
}

/// The last byte of each bridge on a path.
pub(crate) fn ends(rt: &impl Abort, alloc: Global, path: &Path) -> Vec<u8> {
    let mut ends = Vec::new(alloc);
    for system in path.bridges.as_slice() {
        ends.push(system.mac.bytes[5]).expect(rt, "out of memory");
    }
    ends
}

/// Asserts that the tree's path to a bridge has this cost and these bridges, by the last byte of each.
fn check_path(rt: &impl Abort, alloc: Global, tree: &Tree, to: u8, cost: u64, want: &[u8]) {
    let path = path(rt, alloc, tree, to).expect(rt, "no path");
    are_equal(rt, &path.cost, &cost);
    are_bytes(rt, ends(rt, alloc, &path).as_slice(), want);
}

/// Asserts that the best path has this cost and these bridges, by the last byte of each.
fn check_best(rt: &impl Abort, alloc: Global, graph: &Graph, mask: u8, cost: u64, want: &[u8])
    requires { IsValid graph.now }
{
    let from = want.first().copied().expect(rt, "no bridges");
    let to = want.last().copied().expect(rt, "no bridges");
    let tree = tree(rt, alloc, graph, from, mask);
    check_path(rt, alloc, &tree, to, cost, want);
}

#[test]
fn ties_fall_by_masked_ids(rt: HostRuntime) {
    let graph = square(&rt, rt.alloc());
    check_best(&rt, rt.alloc(), &graph, 0x00, 20, &[1, 2, 4]);
    check_best(&rt, rt.alloc(), &graph, 0xff, 20, &[1, 3, 4]);
    check_best(&rt, rt.alloc(), &graph, 0x00, 20, &[4, 2, 1]);
    check_best(&rt, rt.alloc(), &graph, 0xff, 20, &[4, 3, 1]);
}

/// Asserts the best path from 1 to 8 with a priority of bridge 3.
fn check_ladder(rt: &impl Abort, alloc: Global, priority: u16, mask: u8, want: &[u8]) {
    let graph = ladder(rt, alloc, priority);
    check_best(rt, alloc, &graph, mask, 30, want);
}

#[test]
fn ids_compare_in_sorted_order(rt: HostRuntime) {
    check_ladder(&rt, rt.alloc(), 32768, 0x00, &[1, 5, 2, 8]);
    check_ladder(&rt, rt.alloc(), 32768, 0x44, &[1, 3, 4, 8]);
    check_ladder(&rt, rt.alloc(), 32768, 0xff, &[1, 5, 2, 8]);
    check_ladder(&rt, rt.alloc(), 4096, 0x00, &[1, 3, 4, 8]);
    check_ladder(&rt, rt.alloc(), 4096, 0xff, &[1, 5, 2, 8]);
}

/// Asserts how a key of this cost, so many hops and this id compares with another.
fn check_keys(
    rt: &impl Abort,
    alloc: Global,
    a: (u64, u32, u8),
    b: (u64, u32, u8),
    want: Ordering,
) {
    let first = key(rt, alloc, a.0, a.1, a.2);
    let second = key(rt, alloc, b.0, b.1, b.2);
    are_equal(rt, &compare_keys(&first, &second), &want);
}

#[test]
fn keys_compare_by_cost_then_hops_then_ids(rt: HostRuntime) {
    check_keys(&rt, rt.alloc(), (10, 2, 9), (20, 1, 1), Ordering::Less);
    check_keys(&rt, rt.alloc(), (10, 2, 9), (10, 3, 1), Ordering::Less);
    check_keys(&rt, rt.alloc(), (10, 2, 9), (10, 2, 1), Ordering::Greater);
    check_keys(&rt, rt.alloc(), (10, 2, 9), (10, 2, 9), Ordering::Equal);
}

/// Asserts the best paths of that graph under a mask.
fn check_detour(rt: &impl Abort, alloc: Global, graph: &Graph, mask: u8)
    requires { IsValid graph.now }
{
    check_best(rt, alloc, graph, mask, 30, &[1, 9, 4]);
    check_best(rt, alloc, graph, mask, 30, &[4, 9, 1]);
    check_best(rt, alloc, graph, mask, 20, &[1, 2, 3]);
    check_best(rt, alloc, graph, mask, 20, &[9, 1, 2]);
    check_best(rt, alloc, graph, mask, 30, &[9, 4, 3]);
}

#[test]
fn fewer_hops_win_at_equal_cost(rt: HostRuntime) {
    let graph = detour(&rt, rt.alloc());
    check_detour(&rt, rt.alloc(), &graph, 0x00);
    check_detour(&rt, rt.alloc(), &graph, 0xff);
}

/// The tree of that graph from a bridge.
fn tree_of_detour(rt: &impl Abort, alloc: Global, from: u8) -> Tree {
    tree(rt, alloc, &detour(rt, alloc), from, 0)
}

/// Asserts that the tree has no path to a bridge.
fn has_no_path(rt: &impl Abort, alloc: Global, tree: &Tree, to: u8) {
    assert!(*rt; path(rt, alloc, tree, to).is_none(), "to {to}");
}

#[test]
fn no_path_is_none(rt: HostRuntime) {
    let alone = tree_of_detour(&rt, rt.alloc(), 7);
    are_equal(&rt, &alone.source(), &system!(7));
    check_path(&rt, rt.alloc(), &alone, 7, 0, &[7]);
    has_no_path(&rt, rt.alloc(), &alone, 1);
    has_no_path(&rt, rt.alloc(), &alone, 2);
    has_no_path(&rt, rt.alloc(), &alone, 3);
    has_no_path(&rt, rt.alloc(), &alone, 4);
    has_no_path(&rt, rt.alloc(), &alone, 9);
    has_no_path(&rt, rt.alloc(), &alone, 5);
}

#[test]
fn a_tree_from_no_bridge_has_no_path(rt: HostRuntime) {
    let strange = tree_of_detour(&rt, rt.alloc(), 5);
    has_no_path(&rt, rt.alloc(), &strange, 1);
    has_no_path(&rt, rt.alloc(), &strange, 5);
    has_no_path(&rt, rt.alloc(), &strange, 7);
}
