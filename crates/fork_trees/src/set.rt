//! The trees of best paths of a graph, from each of its bridges and under some masks, kept over changes of its edges.
ghost use Rattle.std.specs.Prelude.{◌≡◌, ◌↔◌, ◌*◌, ◌≤◌, ◌∷◌, length, find, nat_eq, IfOk, OnOk, IsTrue};
ghost use Rattle.std.specs.Option.{option_copied};
ghost use Rattle.spb_types.specs.Graph.{IsBridge, IsEdgeOf, IsValid};
ghost use Rattle.fork_trees.specs.Edges as edges;
ghost use Rattle.fork_trees.specs.Set as spec;

use crate::edges::{keeps_cost, with_edge};
use ect_trees::{Roads, Tree, Trees};
use spb_types::limits::GREATEST_METRIC;
use spb_types::{Edge, Graph, NoMemory, SystemId};
use std::alloc::Global;
use std::marker::Model;

/// The trees under a mask, one from each bridge of a graph, in the order of its list.
#[derive(Drop)]
pub struct Row {
    pub mask: u8,
    pub trees: Vec<Tree>,
}

/// The trees of the best paths of a graph, from each of its bridges and under each of some masks. Contracts see the
/// graph, the masks, whether a change found no memory, and how many labels were computed anew.
#[derive(Drop)]
pub struct TreeSet {
    roads: Roads,
    masks: Vec<u8>,
    rows: Vec<Row>,
    failed: bool,
    relabelled: u64,
}

impl Model for TreeSet {
    ghost use Rattle.fork_trees.specs.Set.{Kept, IsSound};

    ghost Value = { Kept };

    ghost view = { λ s. record {
      graph = s.roads;
      masks = s.masks.items;
      failed = s.failed;
      relabelled = s.relabelled;
    } };

    ghost invariant = { λ s. IsSound s.roads s.masks.items s.rows.items s.failed };
}

/// The trees under a mask.
fn trees_under(alloc: Global, roads: &Roads, mask: u8) -> Result<Vec<Tree>, NoMemory>
    ensures { IfOk result (λ trees. spec.AreTrees roads.now mask trees.items) }
{
    let bridges = roads.graph().bridges.as_slice();
    let mut trees = Vec::with_capacity(alloc, bridges.len())?;
    for bridge in bridges {
        trees.push(roads.tree(alloc, bridge.id.system, mask)?)?;
    }
    Ok(trees)
}

/// The trees under each of these masks.
fn rows_under(alloc: Global, roads: &Roads, masks: &[u8]) -> Result<Vec<Row>, NoMemory>
    ensures { IfOk result (λ rows. spec.HasRows roads.now masks.now rows.items) }
{
    let mut rows = Vec::with_capacity(alloc, masks.len())?;
    for mask in masks {
        rows.push(Row {
            mask: *mask,
            trees: trees_under(alloc, roads, *mask)?,
        })?;
    }
    Ok(rows)
}

/// Brings the trees under a mask up to date after the edge between these two bridges changed. Says how many labels were
/// computed anew.
fn repair_trees(
    alloc: Global,
    roads: &Roads,
    mask: u8,
    edge: &Edge,
    trees: &mut Vec<Tree>,
) -> Result<u64, NoMemory>
    requires { spec.WereTrees roads.now edge.now mask trees.old.items }
    ensures trees { OnOk result (spec.AreTrees roads.now mask trees.new.items) }
    ensures few { IfOk result (λ anew. anew ≤ length roads.now.bridges * length roads.now.bridges) }
{
    let mut anew: u64 = 0;
    for tree in trees.iter_mut() {
        anew = anew.saturating_add(tree.repair(alloc, roads, mask, edge)?);
    }
    Ok(anew)
}

/// The same of the trees under each mask.
fn repair_rows(
    alloc: Global,
    roads: &Roads,
    edge: &Edge,
    rows: &mut Vec<Row>,
) -> Result<u64, NoMemory>
    requires { spec.WereRows roads.now edge.now rows.old.items }
    ensures masks { OnOk result (spec.masks_of rows.new.items ≡ spec.masks_of rows.old.items) }
    ensures trees { OnOk result (spec.AreRows roads.now rows.new.items) }
    ensures few { IfOk result (λ anew. anew
        ≤ length rows.old.items * (length roads.now.bridges * length roads.now.bridges)) }
{
    let mut anew: u64 = 0;
    for row in rows.iter_mut() {
        anew = anew.saturating_add(repair_trees(alloc, roads, row.mask, edge, &mut row.trees)?);
    }
    Ok(anew)
}

/// The same, where the trees are those of this graph before the edge is set or removed. Nothing is to be done where the
/// cost between its ends stays as it is.
fn repair_after(
    alloc: Global,
    before: &Graph,
    roads: &Roads,
    edge: &Edge,
    present: bool,
    rows: &mut Vec<Row>,
) -> Result<u64, NoMemory>
    requires valid { IsValid before.now }
    requires edge { IsEdgeOf before.now edge.now }
    requires roads { roads.now ≡ edges.with_edge before.now edge.now present }
    requires rows { spec.AreRows before.now rows.old.items }
    ensures masks { OnOk result (spec.masks_of rows.new.items ≡ spec.masks_of rows.old.items) }
    ensures trees { OnOk result (spec.AreRows roads.now rows.new.items) }
    ensures few { IfOk result (λ anew. anew
        ≤ length rows.old.items * (length before.now.bridges * length before.now.bridges)) }
    ensures none { IfOk result (λ anew. edges.KeepsCost before.now edge.now present → anew ≡ 0) }
{
    if keeps_cost(before, edge, present) {
        return Ok(0);
    }
    repair_rows(alloc, roads, edge, rows)
}

/// Whether a bridge is one of the graph.
fn has_bridge(roads: &Roads, system: SystemId) -> bool
    ensures { IsTrue result ↔ IsBridge roads.now system }
{
    roads.place_of(system).is_some()
}

/// The first row under a mask, if there is one.
fn row_under(rows: &[Row], mask: u8) -> Option<&Row>
    ensures { option_copied result ≡ find (λ r. nat_eq r.mask mask) rows.now }
{
    rows.iter().find(|row| row.mask == mask)
}

impl TreeSet {
    ghost use Rattle.std.specs.Prelude.{◌≡◌, ◌↔◌, [], false, true, IfOk, OnOk, OnErr, IsTrue};
    ghost use Rattle.std.specs.Option.{option_copied};
    ghost use Rattle.spb_types.specs.Graph.{IsEdgeOf, IsValid};
    ghost use Rattle.fork_trees.specs.Set.{Answers, IsChanged, IsCounted};

    /// The trees of a graph under these masks.
    pub fn new(alloc: Global, graph: &Graph, masks: &[u8]) -> Result<Self, NoMemory>
        requires { IsValid graph.now }
        ensures { IfOk result (λ s. s
            ≡ record { graph = graph.now; masks = masks.now; failed = false; relabelled = 0 }) }
    {
        let roads = Roads::new(alloc, graph)?;
        let rows = rows_under(alloc, &roads, masks)?;
        Ok(TreeSet {
            roads,
            masks: Vec::from_slice(alloc, masks)?,
            rows,
            failed: false,
            relabelled: 0,
        })
    }

    /// The graph as it is now.
    pub fn graph(&self) -> &Graph
        ensures same { result.now ≡ self.now.graph }
        ensures valid { IsValid self.now.graph }
    {
        self.roads.graph()
    }

    /// The masks, as they were given.
    pub fn masks(&self) -> &[u8]
        ensures { result.now ≡ self.now.masks }
    {
        self.masks.as_slice()
    }

    /// Whether a change found no memory. There are no trees then.
    pub fn has_failed(&self) -> bool
        ensures { result ≡ self.now.failed }
    {
        self.failed
    }

    /// How many labels changes have computed anew, over all trees, since [`TreeSet::new`]. At most 2^64 - 1 are counted.
    pub fn relabelled(&self) -> u64
        ensures { result ≡ self.now.relabelled }
    {
        self.relabelled
    }

    /// Whether this is an edge that the graph may have: between two different bridges of it, at a cost of 1 to
    /// 16,777,214. Only such edges can be set or removed.
    pub fn can_have(&self, edge: &Edge) -> bool
        ensures { IsTrue result ↔ IsEdgeOf self.now.graph edge.now }
    {
        has_bridge(&self.roads, edge.a)
            && has_bridge(&self.roads, edge.b)
            && !edge.a.is(edge.b)
            && 1 <= edge.cost
            && edge.cost <= GREATEST_METRIC
    }

    /// Sets the edge between its ends, where there may be another, or removes the edge that is there. Every tree then
    /// has the best paths of the graph as it is now. After `NoMemory` there are no trees any more, and each later change
    /// answers `NoMemory` and changes nothing.
    pub fn change_edge(&mut self, alloc: Global, edge: &Edge, present: bool) -> Result<(), NoMemory>
        requires { IsEdgeOf self.old.graph edge.now }
        ensures changed { OnOk result (IsChanged self.old edge.now present self.new) }
        ensures counted { OnOk result (IsCounted self.old edge.now present self.new) }
        ensures failed { OnErr result (self.new ≡ record self.old { failed = true }) }
    {
        if self.failed {
            return Err(NoMemory);
        }
        self.failed = true;
        let changed = with_edge(alloc, self.roads.graph(), edge, present)?;
        let roads = Roads::over(alloc, changed)?;
        let before = self.roads.graph();
        let anew = repair_after(alloc, before, &roads, edge, present, &mut self.rows)?;
        self.relabelled = self.relabelled.saturating_add(anew);
        self.roads = roads;
        self.failed = false;
        Ok(())
    }

    /// The tree of the best paths from a bridge under a mask. None exactly where the bridge or the mask isn't one of the
    /// set, or a change found no memory.
    pub fn tree(&self, source: SystemId, mask: u8) -> Option<&Tree>
        ensures { Answers self.now source mask (option_copied result) }
    {
        if self.failed {
            return None;
        }
        let Some(row) = row_under(self.rows.as_slice(), mask) else {
            return None;
        };
        let Some(place) = self.roads.place_of(source) else {
            return None;
        };
        Some(&row.trees[place])
    }
}

impl Trees for TreeSet {
    ghost use Rattle.fork_trees.specs.Set.{has_tree};

    ghost graph = { λ s. s.graph };

    ghost has = { has_tree };

    fn tree_of(&self, source: SystemId, mask: u8) -> Option<&Tree> {
        self.tree(source, mask)
    }
}
