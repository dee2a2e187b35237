//! The search for best paths: labels at the places of bridges, relaxed over arcs and settled in order of cost.
ghost use Rattle.std.specs.Prelude.{◌≡◌, ◌+◌, ◌-◌, ◌<◌, ◌≤◌, ◌∷◌, [], length, replicate, None, Some, IfOk, OnOk, IsTrue, MatchBool};
ghost use Rattle.std.specs.Ordering.{nat_cmp, ordering_then};
ghost use Rattle.spb_types.specs.Graph.{IsAmong, IsValid};
ghost use Rattle.spb_types.specs.declared.address.SystemId.{SystemId};
ghost use Rattle.ect_trees.specs.declared.search.Label.{Label};
ghost use Rattle.ect_trees.specs.Arcs.{AreReady, IsBridgeAt, CanGo};
ghost use Rattle.ect_trees.specs.Search as search;

use crate::fork::{NOWHERE, Near, compare_ids};
use crate::mesh::{Arc, Mesh};
use crate::waiting::{Frontier, Waiting};
use spb_types::{NoMemory, SystemId};
use std::alloc::Global;
use std::cmp::Ordering;

/// A path from the source that was found, with its cost, and where the two bridges before its last may stand.
#[derive(Debug, Drop)]
pub struct Label {
    pub cost: u64,
    pub bridges: Vec<SystemId>,
    pub near: Near,
}

/// The search for the best paths from a source to each bridge of a graph. It keeps a label at the place of each
/// bridge that it has reached.
#[derive(Drop)]
pub struct Search<'a> {
    pub mesh: &'a Mesh,
    pub source: SystemId,
    pub mask: u8,
}

impl Label {
    /// A path with its cost.
    pub fn new(cost: u64, bridges: Vec<SystemId>) -> Self
        ensures cost { result.cost ≡ cost }
        ensures bridges { result.bridges.items ≡ bridges.items }
    {
        Label {
            cost,
            bridges,
            near: NOWHERE,
        }
    }

    /// Whether the bridge is on the path.
    fn passes(&self, system: SystemId) -> bool
        ensures { MatchBool result (IsAmong system self.now.bridges.items)
            (IsAmong system self.now.bridges.items → ⊥) }
    {
        self.bridges.contains(&system)
    }

    /// The label's entry in the frontier.
    fn entry(&self, place: usize) -> Waiting
        ensures { result ≡ search.entry_of self.now place }
    {
        Waiting {
            cost: self.cost,
            hops: self.bridges.len().saturating_sub(1),
            place,
        }
    }

    /// The path with one bridge more, at this cost, where those before it may stand at these places.
    fn extended(
        &self,
        alloc: Global,
        system: SystemId,
        cost: u64,
        near: Near,
    ) -> Result<Label, NoMemory>
        ensures { IfOk result (search.IsExtended self.now system cost) }
    {
        let mut bridges = Vec::with_capacity(alloc, self.bridges.len() + 1)?;
        bridges.extend_from_slice(self.bridges.as_slice())?;
        bridges.push(system)?;
        Ok(Label {
            cost,
            bridges,
            near,
        })
    }
}

/// No label, at as many places.
fn no_labels(alloc: Global, places: usize) -> Result<Vec<Option<Label>>, NoMemory>
    ensures { IfOk result (λ labels. labels.items ≡ replicate places None) }
{
    let mut labels = Vec::with_capacity(alloc, places)?;
    for _place in 0..places {
        labels.push(None)?;
    }
    Ok(labels)
}

/// Gives a place a new label, which waits in place of the old one.
fn set_label(
    labels: &mut Vec<Option<Label>>,
    front: &mut Frontier,
    place: usize,
    new: Label,
) -> Result<(), NoMemory>
    requires within { place < length labels.old.items }
    requires entries { search.AreEntries labels.old.items front.old }
    ensures { OnOk result (search.IsSet place new labels.old.items labels.new.items front.old front.new) }
{
    if let Some(old) = &labels[place] {
        front.drop_one(old.entry(place));
    }
    front.put(new.entry(place))?;
    labels[place] = Some(new);
    Ok(())
}

/// Compares this cost, and this number of bridges, with a label's.
fn compare_lengths(cost: u64, bridges: usize, label: &Label) -> Ordering
    ensures { result ≡ ordering_then (nat_cmp cost label.now.cost)
        (nat_cmp bridges (length label.now.bridges.items)) }
{
    if label.cost < cost {
        return Ordering::Greater;
    }
    if cost < label.cost {
        return Ordering::Less;
    }
    bridges.cmp(&label.bridges.len())
}

/// Whether this costs more than the old label, if there is one.
fn is_dearer(cost: u64, old: &Option<Label>) -> bool
    ensures { IsTrue result → (o : Label) × (old.now ≡ Some o) × (o.cost < cost) }
{
    match old {
        None => false,
        Some(old) => old.cost < cost,
    }
}

impl<'a> Search<'a> {
    /// The path of the source alone.
    fn first(&self, alloc: Global) -> Result<Label, NoMemory>
        ensures { IfOk result (search.IsFirst self.now.source) }
    {
        Ok(Label::new(0, Vec::from_slice(alloc, &[self.source])?))
    }

    /// Whether the label's path, whose last bridges may stand at these places, has lower ids than the old one without its
    /// last bridge.
    fn wins_tie(
        &self,
        alloc: Global,
        label: &Label,
        near: Near,
        old: &Label,
    ) -> Result<bool, NoMemory>
        requires valid { IsValid (search.graph_of self.now) }
        requires long { length old.now.bridges.items ≡ length label.now.bridges.items + 1 }
        ensures { IfOk result (search.HasLowerIds self.now label.now old.now) }
    {
        let bridges = label.bridges.as_slice();
        let order = compare_ids(
            alloc,
            self.mesh,
            self.mask,
            bridges,
            &old.bridges.as_slice()[..bridges.len()],
            near,
            old.near,
        )?;
        Ok(order.is_lt())
    }

    /// Whether the label's path with one bridge more, at this cost, is a path and better than the old one. Ids are
    /// compared only where cost and hops tie.
    fn is_lower(
        &self,
        alloc: Global,
        label: &Label,
        near: Near,
        system: SystemId,
        cost: u64,
        old: &Option<Label>,
    ) -> Result<bool, NoMemory>
        requires valid { IsValid (search.graph_of self.now) }
        requires label { (x : SystemId) × search.IsLabel self.now x label.now
            × (cost ≡ search.longer_cost self.now label.now system) }
        requires old { (o : Label) → old.now ≡ Some o → search.IsLabel self.now system o }
        ensures { IfOk result (search.Tells self.now label.now system old.now) }
    {
        let Some(old) = old else {
            return Ok(!label.passes(system));
        };
        match compare_lengths(cost, label.bridges.len() + 1, old) {
            Ordering::Less => Ok(!label.passes(system)),
            Ordering::Greater => Ok(false),
            Ordering::Equal => {
                if self.wins_tie(alloc, label, near, old)? {
                    Ok(!label.passes(system))
                } else {
                    Ok(false)
                }
            }
        }
    }

    /// The path of `label` and an arc from its end, if it is a path and better than the one that `old` has. None exactly
    /// where the path of `label` passes the arc's end, or `old` has a path that this one isn't better than.
    pub fn better(
        &self,
        alloc: Global,
        label: &Label,
        arc: Arc,
        old: &Option<Label>,
    ) -> Result<Option<Label>, NoMemory>
        requires ready { AreReady self.now.mesh.now }
        requires arc { search.Extends self.now arc label.now }
        requires old { (y : SystemId) (l : Label) → IsBridgeAt (search.graph_of self.now) arc.to y
            → old.now ≡ Some l → search.IsLabel self.now y l }
        ensures { IfOk result (search.Improves self.now arc label.now old.now) }
    {
        let cost = label.cost + u64::from(arc.cost);
        if is_dearer(cost, old) {
            return Ok(None);
        }
        let system = self.mesh.graph.bridges.as_slice()[arc.to].id.system;
        let near = Near {
            last: arc.from,
            before: label.near.last,
        };
        if self.is_lower(alloc, label, near, system, cost, old)? {
            Ok(Some(label.extended(alloc, system, cost, near)?))
        } else {
            Ok(None)
        }
    }

    /// Gives the arc's end the path by way of the arc, if that is better.
    pub(crate) fn relax(
        &self,
        alloc: Global,
        labels: &mut Vec<Option<Label>>,
        front: &mut Frontier,
        arc: Arc,
    ) -> Result<(), NoMemory>
        requires ready { AreReady self.now.mesh.now }
        requires arc { CanGo (search.graph_of self.now) arc }
        requires state { search.IsState self.now labels.old.items front.old }
        ensures { OnOk result (search.IsRelaxed self.now arc labels.old.items labels.new.items front.old front.new) }
    {
        let better = match &labels[arc.from] {
            None => None,
            Some(label) => self.better(alloc, label, arc, &labels[arc.to])?,
        };
        match better {
            None => Ok(()),
            Some(new) => set_label(labels, front, arc.to, new),
        }
    }

    /// Relaxes each arc from a place.
    fn relax_all(
        &self,
        alloc: Global,
        labels: &mut Vec<Option<Label>>,
        front: &mut Frontier,
        place: usize,
    ) -> Result<(), NoMemory>
        requires ready { AreReady self.now.mesh.now }
        requires within { place < length labels.old.items }
        requires state { search.IsState self.now labels.old.items front.old }
        ensures state { OnOk result (search.IsState self.now labels.new.items front.new) }
        ensures done { OnOk result
            (search.RelaxesAll self.now place labels.old.items labels.new.items front.old front.new) }
    {
        for arc in &self.mesh.arcs[place] {
            self.relax(alloc, labels, front, *arc)?;
        }
        Ok(())
    }

    /// Settles the bridges that wait, in order of cost, until none waits. Says how many were settled.
    pub(crate) fn settle(
        &self,
        alloc: Global,
        labels: &mut Vec<Option<Label>>,
        front: &mut Frontier,
    ) -> Result<usize, NoMemory>
        requires ready { AreReady self.now.mesh.now }
        requires state { search.IsState self.now labels.old.items front.old }
        requires front { search.IsFront self.now labels.old.items front.old [] }
        ensures best { OnOk result (search.AreBest self.now labels.new.items) }
        ensures few { IfOk result (λ settled. settled ≤ length (search.graph_of self.now).bridges) }
    {
        let mut settled = 0;
        while let Some(first) = front.take_first() {
            self.relax_all(alloc, labels, front, first.place)?;
            settled += 1;
        }
        Ok(settled)
    }

    /// The labels of the best paths.
    pub fn labels(&self, alloc: Global) -> Result<Vec<Option<Label>>, NoMemory>
        requires { AreReady self.now.mesh.now }
        ensures { IfOk result (λ labels. search.AreBest self.now labels.items) }
    {
        let mut labels = no_labels(alloc, self.mesh.graph.bridges.len())?;
        let mut front = Frontier::new(alloc);
        if let Some(place) = self.mesh.place_of(self.source) {
            set_label(&mut labels, &mut front, place, self.first(alloc)?)?;
            self.settle(alloc, &mut labels, &mut front)?;
        }
        Ok(labels)
    }
}
