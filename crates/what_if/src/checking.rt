//! Checking the entries of a proof.
ghost use Rattle.std.specs.Prelude.{◌≡◌, ◌↔◌, ◌<◌, false, length, Some, IfOk, IsTrue};
ghost use Rattle.spb_types.specs.Graph.{IsBridge, IsValid};
ghost use Rattle.ect_trees.specs.Arcs.{CanGo};
ghost use Rattle.ect_trees.specs.Search.{label_at};
ghost use Rattle.what_if.specs.Entries.{best_entries};
ghost use Rattle.what_if.specs.Failing.{verdict_of};
ghost use Rattle.what_if.specs.Claim as claim;

use crate::entry::Entry;
use crate::following::{system_at, ways};
use ect_trees::{Arc, Label, Mesh, Roads, Search};
use spb_types::{NoMemory, SystemId};
use std::alloc::Global;

/// What a checker answers: the entries prove the best paths; or they don't, and then the first bridge that shows it,
/// counted from 1 in the order of the graph's list.
#[derive(Clone, Copy, Debug, PartialEq, Eq)]
pub enum Verdict {
    Yes,
    No(u16),
}

/// Entries that are to prove the best paths from a source under a mask, and the ways that following them gives, each at
/// the place of its bridge.
#[derive(Drop)]
struct Claim<'a> {
    mesh: &'a Mesh,
    source: SystemId,
    mask: u8,
    entries: &'a [Entry],
    ways: Vec<Option<Label>>,
}

impl<'a> Claim<'a> {
    /// Whether the entry of the bridge at the start of an arc names the neighbour at its end.
    fn names_end(&self, arc: Arc) -> bool
        requires claim { claim.IsClaim self.now }
        requires arc { CanGo self.now.mesh.now.graph arc }
        ensures { IsTrue result → claim.NamesEnd self.now arc }
    {
        self.entries[arc.from].names(system_at(self.mesh, arc.to))
    }

    /// Whether the way of the bridge at the start of an arc costs less than that of the neighbour at its end with the arc,
    /// or is just that, as the entry says. No hops and no ids are looked at.
    fn keeps_way(&self, arc: Arc, way: &Label) -> bool
        requires claim { claim.IsClaim self.now }
        requires arc { CanGo self.now.mesh.now.graph arc }
        requires way { label_at self.now.ways.items arc.to ≡ Some way.now }
        ensures { IsTrue result → claim.TellsBetter self.now arc false }
    {
        let Some(own) = &self.ways[arc.from] else {
            return false;
        };
        let cost = way.cost + u64::from(arc.cost);
        if own.cost == cost {
            self.names_end(arc)
        } else {
            own.cost < cost
        }
    }

    /// Whether the neighbour at the end of an arc gives the bridge at its start a better way.
    fn gives_better(&self, alloc: Global, arc: Arc) -> Result<bool, NoMemory>
        requires claim { claim.IsClaim self.now }
        requires arc { CanGo self.now.mesh.now.graph arc }
        ensures { IfOk result (claim.TellsBetter self.now arc) }
    {
        let Some(way) = &self.ways[arc.to] else {
            return Ok(false);
        };
        if self.keeps_way(arc, way) {
            return Ok(false);
        }
        let back = Arc {
            from: arc.to,
            to: arc.from,
            cost: arc.cost,
        };
        let search = Search {
            mesh: self.mesh,
            source: self.source,
            mask: self.mask,
        };
        let better = search.better(alloc, way, back, &self.ways[arc.from])?;
        Ok(better.is_some())
    }

    /// Whether a neighbour gives the bridge at a place a better way.
    fn has_better(&self, alloc: Global, place: usize) -> Result<bool, NoMemory>
        requires claim { claim.IsClaim self.now }
        requires within { place < length self.now.mesh.now.graph.bridges }
        ensures { IfOk result (claim.TellsHasBetter self.now place) }
    {
        for arc in &self.mesh.arcs[place] {
            if self.gives_better(alloc, *arc)? {
                return Ok(true);
            }
        }
        Ok(false)
    }

    /// Whether the bridge at a place fails.
    fn fails(&self, alloc: Global, place: usize) -> Result<bool, NoMemory>
        requires claim { claim.IsClaim self.now }
        requires within { place < length self.now.mesh.now.graph.bridges }
        ensures { IfOk result (claim.TellsFails self.now place) }
    {
        let entry = self.entries[place];
        if system_at(self.mesh, place).is(self.source) {
            return Ok(!entry.is_start());
        }
        match entry {
            Entry::Start => Ok(true),
            Entry::Before(_) => {
                if self.ways[place].is_none() {
                    Ok(true)
                } else {
                    self.has_better(alloc, place)
                }
            }
            Entry::Unreached => self.has_better(alloc, place),
        }
    }

    /// The first bridge that fails, if there is one.
    fn verdict(&self, alloc: Global) -> Result<Verdict, NoMemory>
        requires { claim.IsClaim self.now }
        ensures { IfOk result (λ verdict. verdict ≡ verdict_of self.now.mesh.now.graph
            self.now.mask self.now.entries.now self.now.source) }
    {
        for place in 0..self.entries.len() {
            if self.fails(alloc, place)? {
                return Ok(Verdict::No((place + 1) as u16));
            }
        }
        Ok(Verdict::Yes)
    }
}

/// Checks entries, one for each bridge of a graph in its order, that are to prove the best paths from a bridge under a
/// mask (IEEE 802.1aq, 28.5 to 28.8). It takes about as long as a search for the paths, and compares each path with
/// those by way of each neighbour alone.
pub fn check(
    alloc: Global,
    roads: &Roads,
    mask: u8,
    from: SystemId,
    entries: &[Entry],
) -> Result<Verdict, NoMemory>
    requires valid { IsValid roads.now }
    requires from { IsBridge roads.now from }
    requires long { length entries.now ≡ length roads.now.bridges }
    ensures verdict { IfOk result (λ verdict. verdict ≡ verdict_of roads.now mask entries.now from) }
    ensures yes { IfOk result (λ verdict.
        (verdict ≡ Verdict.Yes) ↔ (entries.now ≡ best_entries roads.now mask from)) }
{
    let ways = ways(alloc, roads.mesh(), entries, from)?;
    let claim = Claim {
        mesh: roads.mesh(),
        source: from,
        mask,
        entries,
        ways,
    };
    claim.verdict(alloc)
}
