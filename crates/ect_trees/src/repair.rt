//! Best paths brought up to date after one edge changed.
ghost use Rattle.std.specs.Prelude.{◌≡◌, ◌≤◌, ◌<◌, length, IfSome, IfNone, IfOk, OnOk, MatchBool};
ghost use Rattle.ect_trees.specs.Arcs.{AreReady};
ghost use Rattle.ect_trees.specs.Change.{WereBest};
ghost use Rattle.ect_trees.specs.Repair as repairs;
ghost use Rattle.ect_trees.specs.Search as search;

use crate::mesh::{Arc, Mesh};
use crate::search::{Label, Search};
use crate::waiting::Frontier;
use spb_types::{Edge, NoMemory, SystemId};
use std::alloc::Global;

/// Whether these are the two bridges, whichever is which.
fn are_pair(a: SystemId, b: SystemId, x: SystemId, y: SystemId) -> bool
    ensures { MatchBool result (repairs.ArePair a b x y) (repairs.ArePair a b x y → ⊥) }
{
    (x == a && y == b) || (x == b && y == a)
}

/// Whether a path steps from one of two bridges to the other.
fn steps_over(path: &[SystemId], a: SystemId, b: SystemId) -> bool
    ensures { MatchBool result (repairs.Avoids a b path.now → ⊥) (repairs.Avoids a b path.now) }
{
    for place in 1..path.len() {
        if are_pair(a, b, path[place - 1], path[place]) {
            return true;
        }
    }
    false
}

/// Whether there is a label whose path steps from one of two bridges to the other.
fn is_lost(label: &Option<Label>, a: SystemId, b: SystemId) -> bool
    ensures { repairs.TellsLost a b label.now result }
{
    match label {
        None => false,
        Some(label) => steps_over(label.bridges.as_slice(), a, b),
    }
}

/// Forgets each label whose path steps from one of two bridges to the other.
fn forget(labels: &mut Vec<Option<Label>>, a: SystemId, b: SystemId)
    ensures { repairs.AreForgotten a b labels.old.items labels.new.items }
{
    for place in 0..labels.len() {
        if is_lost(&labels[place], a, b) {
            labels[place] = None;
        }
    }
}

/// The arc in the other direction.
fn turned(arc: Arc) -> Arc
    ensures { result ≡ repairs.turned arc }
{
    Arc {
        from: arc.to,
        to: arc.from,
        cost: arc.cost,
    }
}

/// The arc from one place to another, if there is one.
fn arc_between(mesh: &Mesh, from: usize, to: usize) -> Option<Arc>
    requires ready { AreReady mesh.now }
    requires within { from < length mesh.now.graph.bridges }
    ensures some { IfSome result (repairs.IsArcBetween mesh.now from to) }
    ensures none { IfNone result (repairs.IsNoneBetween mesh.now from to) }
{
    for arc in &mesh.arcs[from] {
        if arc.to == to {
            return Some(*arc);
        }
    }
    None
}

impl<'a> Search<'a> {
    /// Relaxes each arc into a place.
    fn relax_into(
        &self,
        alloc: Global,
        labels: &mut Vec<Option<Label>>,
        front: &mut Frontier,
        place: usize,
    ) -> Result<(), NoMemory>
        requires ready { AreReady self.now.mesh.now }
        requires within { place < length labels.old.items }
        requires state { search.IsState self.now labels.old.items front.old }
        ensures state { OnOk result (search.IsState self.now labels.new.items front.new) }
        ensures reached { OnOk result
            (repairs.ReachesPlace self.now place labels.old.items labels.new.items front.old front.new) }
    {
        for arc in &self.mesh.arcs[place] {
            self.relax(alloc, labels, front, turned(*arc))?;
        }
        Ok(())
    }

    /// Relaxes each arc into a place that has no label.
    fn reach_lost(
        &self,
        alloc: Global,
        labels: &mut Vec<Option<Label>>,
        front: &mut Frontier,
    ) -> Result<(), NoMemory>
        requires ready { AreReady self.now.mesh.now }
        requires state { search.IsState self.now labels.old.items front.old }
        ensures state { OnOk result (search.IsState self.now labels.new.items front.new) }
        ensures reached { OnOk result
            (repairs.ReachesLost self.now labels.old.items labels.new.items front.old front.new) }
    {
        for place in 0..labels.len() {
            if labels[place].is_none() {
                self.relax_into(alloc, labels, front, place)?;
            }
        }
        Ok(())
    }

    /// Relaxes both arcs between two places, if there are any.
    fn reach_edge(
        &self,
        alloc: Global,
        labels: &mut Vec<Option<Label>>,
        front: &mut Frontier,
        from: usize,
        to: usize,
    ) -> Result<(), NoMemory>
        requires ready { AreReady self.now.mesh.now }
        requires within { from < length (search.graph_of self.now).bridges }
        requires state { search.IsState self.now labels.old.items front.old }
        ensures state { OnOk result (search.IsState self.now labels.new.items front.new) }
        ensures reached { OnOk result
            (repairs.ReachesEdge self.now from to labels.old.items labels.new.items front.old front.new) }
    {
        let Some(arc) = arc_between(self.mesh, from, to) else {
            return Ok(());
        };
        self.relax(alloc, labels, front, arc)?;
        self.relax(alloc, labels, front, turned(arc))
    }

    /// Relaxes the arcs into places without a label, and those of the edge between two bridges, if there is one.
    fn reach(
        &self,
        alloc: Global,
        labels: &mut Vec<Option<Label>>,
        front: &mut Frontier,
        a: SystemId,
        b: SystemId,
    ) -> Result<(), NoMemory>
        requires ready { AreReady self.now.mesh.now }
        requires state { search.IsState self.now labels.old.items front.old }
        ensures state { OnOk result (search.IsState self.now labels.new.items front.new) }
        ensures reached { OnOk result
            (repairs.Reaches self.now a b labels.old.items labels.new.items front.old front.new) }
    {
        self.reach_lost(alloc, labels, front)?;
        match (self.mesh.place_of(a), self.mesh.place_of(b)) {
            (Some(from), Some(to)) => self.reach_edge(alloc, labels, front, from, to),
            _ => Ok(()),
        }
    }

    /// Makes labels the best paths, which they were before the edge between these two bridges changed: those whose path
    /// steps over it are forgotten, and the arcs into their bridges relaxed, and those of the edge. Says how many labels
    /// were computed anew.
    pub(crate) fn repair(
        &self,
        alloc: Global,
        labels: &mut Vec<Option<Label>>,
        edge: &Edge,
    ) -> Result<u64, NoMemory>
        requires ready { AreReady self.now.mesh.now }
        requires before { WereBest self.now edge.now.a edge.now.b labels.old.items }
        ensures best { OnOk result (search.AreBest self.now labels.new.items) }
        ensures few { IfOk result (λ anew. anew ≤ length (search.graph_of self.now).bridges) }
    {
        forget(labels, edge.a, edge.b);
        let mut front = Frontier::new(alloc);
        self.reach(alloc, labels, &mut front, edge.a, edge.b)?;
        let settled = self.settle(alloc, labels, &mut front)?;
        Ok(settled as u64)
    }
}
