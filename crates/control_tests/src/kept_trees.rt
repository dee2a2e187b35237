//! Tests of `fork_trees`.
ghost use Rattle.std.specs.Prelude.{◌≡◌, [], ◌∷◌, IfOk};
ghost use Rattle.spb_types.specs.Graph.{IsValid};

use crate::fixtures::{are_bytes, are_equal};
use crate::trees::{path, square, tree};
use ect_trees::{Tree, Trees};
use fork_trees::TreeSet;
use spb_types::{BridgeId, Edge, Graph, GraphBridge, Mac, NoMemory, Seq, SourceId, SystemId};
use std::alloc::Global;
use std::process::Abort;

const MASKS: [u8; 2] = [0x00, 0xff];

/// The cost of a tree's path to a bridge, and behind it the bridges on it. Empty where there is no path.
fn path_of(rt: &impl Abort, alloc: Global, tree: &Tree, to: u8) -> Vec<u64> {
    let mut bridges = Vec::new(alloc);
    if let Some(found) = path(rt, alloc, tree, to) {
        bridges.push(found.cost).expect(rt, "out of memory");
        for system in found.bridges.as_slice() {
            bridges
                .push(u64::from(system.mac.bytes[5]))
                .expect(rt, "out of memory");
        }
    }
    bridges
}

/// The trees have the same paths to the bridges 1 to 4.
fn check_same(rt: &impl Abort, alloc: Global, found: &Tree, want: &Tree) {
    for to in 1..5 {
        let found = path_of(rt, alloc, found, to);
        let want = path_of(rt, alloc, want, to);
        are_equal(rt, &found.as_slice(), &want.as_slice());
    }
}

/// The trees of a graph under these masks.
fn set_of(rt: &impl Abort, alloc: Global, graph: &Graph, masks: &[u8]) -> TreeSet
    requires { IsValid graph.now }
{
    TreeSet::new(alloc, graph, masks).expect(rt, "out of memory")
}

/// Those of the square.
fn set_of_square(rt: &impl Abort, alloc: Global, masks: &[u8]) -> TreeSet {
    set_of(rt, alloc, &square(rt, alloc), masks)
}

/// The set's tree from a bridge, under no contract.
fn kept<'a>(rt: &impl Abort, set: &'a TreeSet, from: u8, mask: u8) -> &'a Tree {
    set.tree(system!(from), mask).expect(rt, "no tree")
}

/// The tree from a bridge has the paths of one that is searched in the graph as it is now.
fn check_best(rt: &impl Abort, alloc: Global, set: &TreeSet, from: u8, mask: u8) {
    let anew = tree(rt, alloc, set.graph(), from, mask);
    check_same(rt, alloc, kept(rt, set, from, mask), &anew);
}

/// Every tree of the set has these paths.
fn check_all_best(rt: &impl Abort, alloc: Global, set: &TreeSet) {
    for from in 1..5 {
        check_best(rt, alloc, set, from, 0x00);
        check_best(rt, alloc, set, from, 0xff);
    }
}

/// Sets or removes the edge.
fn change(rt: &impl Abort, alloc: Global, set: &mut TreeSet, edge: Edge, present: bool) {
    assert!(*rt; set.can_have(&edge));
    set.change_edge(alloc, &edge, present)
        .expect(rt, "out of memory");
}

/// Asserts the cost of the best path between two bridges, if there is one.
fn check_cost(rt: &impl Abort, alloc: Global, set: &TreeSet, from: u8, to: u8, want: Option<u64>) {
    let found = match path(rt, alloc, kept(rt, set, from, 0), to) {
        Some(path) => Some(path.cost),
        None => None,
    };
    are_equal(rt, &found, &want);
}

/// Sets the edge between two bridges, or removes it, after which the best path between them has this cost, and every tree
/// is as one that is searched anew.
fn check_changed(
    rt: &impl Abort,
    alloc: Global,
    set: &mut TreeSet,
    (a, b, cost): (u8, u8, u32),
    present: bool,
    want: Option<u64>,
) {
    change(rt, alloc, set, edge!(a, b, cost), present);
    check_cost(rt, alloc, set, a, b, want);
    check_all_best(rt, alloc, set);
}

#[test]
fn trees_follow_each_change(rt: HostRuntime) {
    let mut set = set_of_square(&rt, rt.alloc(), &MASKS);
    check_changed(&rt, rt.alloc(), &mut set, (2, 1, 40), true, Some(30));
    check_changed(&rt, rt.alloc(), &mut set, (1, 2, 5), true, Some(5));
    check_changed(&rt, rt.alloc(), &mut set, (4, 2, 10), false, Some(25));
    check_changed(&rt, rt.alloc(), &mut set, (1, 4, 20), true, Some(20));
    check_changed(&rt, rt.alloc(), &mut set, (1, 2, 5), false, None);
    check_changed(&rt, rt.alloc(), &mut set, (2, 3, 7), true, Some(7));
}

/// Asserts how many labels the last change computed.
fn check_relabelled(rt: &impl Abort, set: &TreeSet, want: u64) {
    are_equal(rt, &set.relabelled(), &want);
}

#[test]
fn a_change_of_ports_computes_nothing(rt: HostRuntime) {
    let mut set = set_of_square(&rt, rt.alloc(), &MASKS);
    change(&rt, rt.alloc(), &mut set, edge!(1, 7, 2, 7, 10), true);
    change(&rt, rt.alloc(), &mut set, edge!(1, 4, 10), false);
    check_relabelled(&rt, &set, 0);
}

/// Whether there is a tree from a bridge under a mask.
fn has_tree<T: Trees>(trees: &T, from: u8, mask: u8) -> bool {
    trees.tree_of(system!(from), mask).is_some()
}

fn check_tree(rt: &impl Abort, set: &TreeSet, from: u8, mask: u8, want: bool) {
    are_equal(
        rt,
        &(from, mask, has_tree(set, from, mask)),
        &(from, mask, want),
    );
}

#[test]
fn other_bridges_and_masks_have_no_trees(rt: HostRuntime) {
    let set = set_of_square(&rt, rt.alloc(), &[0x00, 0x44, 0x00]);
    check_tree(&rt, &set, 1, 0x00, true);
    check_tree(&rt, &set, 4, 0x44, true);
    check_tree(&rt, &set, 5, 0x00, false);
    check_tree(&rt, &set, 1, 0xff, false);
    are_bytes(&rt, set.masks(), &[0x00, 0x44, 0x00]);
    assert!(rt; !set.has_failed());
}

/// Asserts whether the graph may have an edge between two bridges at a cost.
fn check_edge(rt: &impl Abort, set: &TreeSet, a: u8, b: u8, cost: u32, want: bool) {
    let edge = edge!(a, b, cost);
    are_equal(rt, &(edge, set.can_have(&edge)), &(edge, want));
}

#[test]
fn edges_join_two_bridges_at_a_cost(rt: HostRuntime) {
    let set = set_of_square(&rt, rt.alloc(), &[]);
    check_edge(&rt, &set, 4, 1, 1, true);
    check_edge(&rt, &set, 1, 2, 16_777_214, true);
    check_edge(&rt, &set, 1, 5, 10, false);
    check_edge(&rt, &set, 5, 1, 10, false);
    check_edge(&rt, &set, 3, 3, 10, false);
    check_edge(&rt, &set, 1, 2, 0, false);
    check_edge(&rt, &set, 1, 2, 16_777_215, false);
}

/// The bridge of this number.
fn bridge(number: u8) -> GraphBridge
    ensures { result.id.system ≡ record { mac = record { bytes = 2 ∷ 0 ∷ 0 ∷ 0 ∷ 0 ∷ number ∷ [] } } }
{
    GraphBridge {
        id: BridgeId {
            priority: 32768,
            system: system!(number),
        },
        source: SourceId {
            value: u32::from(number),
        },
    }
}

/// The bridges 1 to 96, none joined to another.
fn apart(alloc: Global) -> Result<Graph, NoMemory>
    ensures { IfOk result IsValid }
{
    let mut bridges = Vec::new(alloc);
    for number in 1..97 {
        bridges.push(bridge(number))?;
    }
    Ok(Graph {
        bridges: Seq::from_vec(bridges),
        edges: Seq::new(alloc),
        members: Seq::new(alloc),
    })
}

/// Joins each of the bridges 1 to 96 to the next.
fn join_all(rt: &impl Abort, alloc: Global, set: &mut TreeSet) {
    for number in 1..96 {
        change(rt, alloc, set, edge!(number, number + 1, 10), true);
    }
}

/// The trees of the line of the bridges 1 to 96 under these masks. The line is made in a set without masks, where a
/// change costs little.
fn set_of_line(rt: &impl Abort, alloc: Global, masks: &[u8]) -> TreeSet {
    let apart = apart(alloc).expect(rt, "out of memory");
    let mut line = set_of(rt, alloc, &apart, &[]);
    join_all(rt, alloc, &mut line);
    set_of(rt, alloc, line.graph(), masks)
}

/// Of a line of bridges the tree of the last changes at each other bridge, and each other tree at the last.
#[test]
fn one_edge_of_a_line_changes_few_labels(rt: HostRuntime) {
    let mut set = set_of_line(&rt, rt.alloc(), &[0]);
    change(&rt, rt.alloc(), &mut set, edge!(95, 96, 15), true);
    check_relabelled(&rt, &set, 190);
}
