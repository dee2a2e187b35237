//! A graph in which the edge between two bridges is set, changed or removed.
ghost use Rattle.std.specs.Prelude.{◌≡◌, ◌↔◌, find, IfOk, IsTrue};
ghost use Rattle.std.specs.Option.{option_copied};
ghost use Rattle.spb_types.specs.Graph.{joins, cost_between};
ghost use Rattle.fork_trees.specs.Edges as spec;

use spb_types::{Edge, Graph, NoMemory, Seq, SystemId};
use std::alloc::Global;

/// Whether the edge joins these two bridges, whichever of its ends is which.
fn joins(edge: &Edge, x: SystemId, y: SystemId) -> bool
    ensures { result ≡ joins edge.now x y }
{
    (edge.a.is(x) && edge.b.is(y)) || (edge.a.is(y) && edge.b.is(x))
}

/// The edge between two bridges, if there is one.
fn edge_between(graph: &Graph, x: SystemId, y: SystemId) -> Option<&Edge>
    ensures { option_copied result ≡ find (λ e. joins e x y) graph.now.edges }
{
    graph.edges.iter().find(|edge| joins(edge, x, y))
}

/// The cost between two bridges, if there is an edge.
#[tactic(auto, using(ect_trees::proofs::Joining::cost_among_find))]
fn cost_between(graph: &Graph, x: SystemId, y: SystemId) -> Option<u32>
    ensures { result ≡ cost_between graph.now x y }
{
    match edge_between(graph, x, y) {
        None => None,
        Some(edge) => Some(edge.cost),
    }
}

/// Whether the cost between the ends of the edge stays as it is when the edge is set, or removed.
pub fn keeps_cost(graph: &Graph, edge: &Edge, present: bool) -> bool
    ensures { IsTrue result ↔ spec.KeepsCost graph.now edge.now present }
{
    match cost_between(graph, edge.a, edge.b) {
        None => !present,
        Some(cost) => present && cost == edge.cost,
    }
}

/// The edges that don't join the ends of this one.
fn others(alloc: Global, edge: &Edge, edges: &[Edge]) -> Result<Vec<Edge>, NoMemory>
    ensures { IfOk result (λ others. others.items ≡ spec.others edge.now edges.now) }
{
    let others = edges
        .iter()
        .filter(|other| !joins(edge, other.a, other.b))
        .copied()
        .collect(alloc)?;
    Ok(others)
}

/// The edges once this one is set between its ends, or once none is.
fn edges_with(
    alloc: Global,
    edges: &[Edge],
    edge: &Edge,
    present: bool,
) -> Result<Vec<Edge>, NoMemory>
    ensures { IfOk result (λ changed. changed.items ≡ spec.edges_with edges.now edge.now present) }
{
    let others = others(alloc, edge, edges)?;
    if !present {
        return Ok(others);
    }
    let mut changed = Vec::with_capacity(alloc, others.len().saturating_add(1))?;
    changed.push(*edge)?;
    changed.extend_from_slice(&others)?;
    Ok(changed)
}

/// The graph once this edge is set between its ends, or once none is, with no members.
pub fn with_edge(
    alloc: Global,
    graph: &Graph,
    edge: &Edge,
    present: bool,
) -> Result<Graph, NoMemory>
    ensures { IfOk result (λ changed. changed ≡ spec.with_edge graph.now edge.now present) }
{
    let bridges = Vec::from_slice(alloc, graph.bridges.as_slice())?;
    let edges = edges_with(alloc, graph.edges.as_slice(), edge, present)?;
    Ok(Graph {
        bridges: Seq::from_vec(bridges),
        edges: Seq::from_vec(edges),
        members: Seq::new(alloc),
    })
}
