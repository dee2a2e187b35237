//! A set of trees that follows the graph which a bridge reads.
ghost use Rattle.std.specs.Prelude.{◌≡◌, true, false, IfOk, OnOk, IsTrue, Contains};
ghost use Rattle.spb_types.specs.Graph.{IsValid, joins};
ghost use Rattle.ect_trees.specs.Laws.{HasEdge, turned};
ghost use Rattle.fdb_build.specs.Tables.{ArePlans};
ghost use Rattle.swift_bridge.specs.Following as following;

use fork_trees::TreeSet;
use spb_types::{Edge, Graph, NoMemory, SystemId, VidPlan, ect_mask};
use std::alloc::Global;

/// The masks of the ECT algorithms of base VIDs.
pub fn masks_of(alloc: Global, plans: &[VidPlan]) -> Result<Vec<u8>, NoMemory>
    requires { ArePlans plans.now }
    ensures { IfOk result (λ masks. masks.items ≡ following.masks_of plans.now) }
{
    let mut masks = Vec::with_capacity(alloc, plans.len())?;
    for plan in plans {
        masks.push(ect_mask(plan.ect))?;
    }
    Ok(masks)
}

/// Whether the edge joins these two bridges, whichever of its ends is which.
fn joins(edge: &Edge, x: SystemId, y: SystemId) -> bool
    ensures { result ≡ joins edge.now x y }
{
    (edge.a.is(x) && edge.b.is(y)) || (edge.a.is(y) && edge.b.is(x))
}

/// The place of an edge that joins the ends of this one, looked for behind the last place first; past the last edge if
/// there is none. A guess, which is looked at before it is believed: edges that stand together in one graph mostly stand
/// together in the other.
fn place_joining(graph: &Graph, edge: &Edge, last: usize) -> usize {
    let edges = graph.edges.as_slice();
    let next = last.saturating_add(1);
    if next < edges.len() && joins(&edges[next], edge.a, edge.b) {
        return next;
    }
    edges
        .iter()
        .position(|other| joins(other, edge.a, edge.b))
        .unwrap_or(edges.len())
}

/// Whether some edge of the graph joins the ends of this one, looked for at `near` first.
fn joins_ends(graph: &Graph, edge: &Edge, near: usize) -> bool
    ensures { result ≡ following.joins_ends graph.now edge.now }
{
    let edges = graph.edges.as_slice();
    if near < edges.len() && joins(&edges[near], edge.a, edge.b) {
        return true;
    }
    edges.iter().any(|other| joins(other, edge.a, edge.b))
}

/// The edge with its ends exchanged.
fn turned(edge: &Edge) -> Edge
    ensures { result ≡ turned edge.now }
{
    Edge {
        a: edge.b,
        port_a: edge.port_b,
        b: edge.a,
        port_b: edge.port_a,
        cost: edge.cost,
    }
}

/// Whether the edge stands at this place.
fn stands_at(edges: &[Edge], place: usize, edge: &Edge) -> bool
    ensures { IsTrue result → Contains edges.now edge.now }
{
    place < edges.len() && edges[place] == *edge
}

/// Whether the graph has this edge, with its ports and its cost, whichever of its ends is named first. It is looked for
/// at `near` first.
fn has_edge(graph: &Graph, edge: &Edge, near: usize) -> bool
    ensures { IsTrue result → HasEdge graph.now edge.now }
{
    let edges = graph.edges.as_slice();
    stands_at(edges, near, edge) || edges.contains(edge) || edges.contains(&turned(edge))
}

/// Removes the edges of the set whose ends no edge of the graph joins.
fn remove_gone(alloc: Global, set: &mut TreeSet, graph: &Graph) -> Result<(), NoMemory>
    requires bridges { set.old.graph.bridges ≡ graph.now.bridges }
    requires can { set.old.failed ≡ false }
    ensures stays { OnOk result (following.Stays set.old set.new) }
    ensures joined { OnOk result (following.AllJoined graph.now set.new.graph) }
{
    let edges = Vec::from_slice(alloc, set.graph().edges.as_slice())?;
    let mut near = 0;
    for edge in &edges {
        near = place_joining(graph, edge, near);
        if !joins_ends(graph, edge, near) {
            set.change_edge(alloc, edge, false)?;
        }
    }
    Ok(())
}

/// Sets the edges of the graph that the set doesn't have, with their ports and their costs.
fn set_others(alloc: Global, set: &mut TreeSet, graph: &Graph) -> Result<(), NoMemory>
    requires valid { IsValid graph.now }
    requires bridges { set.old.graph.bridges ≡ graph.now.bridges }
    requires can { set.old.failed ≡ false }
    requires joined { following.AllJoined graph.now set.old.graph }
    ensures stays { OnOk result (following.Stays set.old set.new) }
    ensures joined { OnOk result (following.AllJoined graph.now set.new.graph) }
    ensures has { OnOk result (following.HasEach graph.now.edges set.new.graph) }
{
    let mut near = 0;
    for edge in graph.edges.as_slice() {
        near = place_joining(set.graph(), edge, near);
        if !has_edge(set.graph(), edge, near) {
            set.change_edge(alloc, edge, true)?;
        }
    }
    Ok(())
}

/// Brings a set up to date whose graph has the bridges of this one: edge by edge.
fn follow(alloc: Global, mut set: TreeSet, graph: &Graph) -> Result<TreeSet, NoMemory>
    requires valid { IsValid graph.now }
    requires bridges { set.graph.bridges ≡ graph.now.bridges }
    requires can { set.failed ≡ false }
    ensures { IfOk result (following.AreTreesOf graph.now set.masks) }
{
    remove_gone(alloc, &mut set, graph)?;
    set_others(alloc, &mut set, graph)?;
    let _ = set.graph();
    Ok(set)
}

/// Whether two graphs have the same bridges, in the same order.
fn have_same_bridges(graph: &Graph, other: &Graph) -> bool
    ensures { IsTrue result → graph.now.bridges ≡ other.now.bridges }
{
    graph.bridges.as_slice() == other.bridges.as_slice()
}

/// Whether a set can follow a graph: it has the same bridges, and the same masks.
fn can_follow(set: &TreeSet, graph: &Graph, masks: &[u8]) -> bool
    ensures bridges { IsTrue result → set.now.graph.bridges ≡ graph.now.bridges }
    ensures masks { IsTrue result → set.now.masks ≡ masks.now }
    ensures can { IsTrue result → set.now.failed ≡ false }
{
    !set.has_failed() && set.masks() == masks && have_same_bridges(set.graph(), graph)
}

/// The trees of a graph under these masks: those that are kept, brought up to date, if they can follow it, and else
/// trees that are made anew.
pub fn trees_of(
    alloc: Global,
    kept: Option<TreeSet>,
    graph: &Graph,
    masks: &[u8],
) -> Result<TreeSet, NoMemory>
    requires { IsValid graph.now }
    ensures { IfOk result (following.AreTreesOf graph.now masks.now) }
{
    match kept {
        Some(set) if can_follow(&set, graph, masks) => follow(alloc, set, graph),
        _ => TreeSet::new(alloc, graph, masks),
    }
}
