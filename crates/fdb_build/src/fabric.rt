//! A graph made ready for the tables of all its bridges.
ghost use Rattle.std.specs.Prelude.{◌≡◌, ◌<◌, ◌≤◌, length, IfOk, OnOk};
ghost use Rattle.std.specs.List.{AllByRecursion};
ghost use Rattle.spb_types.specs.declared.limits.TheConstants.{GREATEST_ECT};
ghost use Rattle.spb_types.specs.Ect.{mask_of};
ghost use Rattle.spb_types.specs.Graph.{IsValid, IsValidFor};
ghost use Rattle.ect_trees.specs.Forest.{KeepsStill};
ghost use Rattle.ect_trees.specs.Tree.{best_path};
ghost use Rattle.fdb_build.specs.Fabric as fabric;
ghost use Rattle.fdb_build.specs.Layout.{IsPlanned};
ghost use Rattle.fdb_build.specs.Tables.{ArePlans};
ghost use Rattle.fdb_build.specs.Tables as tables;
ghost use Rattle.fdb_build.specs.Groups as groups;

use crate::layout::{Layout, Planned};
use crate::searches::Grown;
use crate::tables::tables_with;
use ect_trees::{Forest, Roads};
use spb_types::limits::GREATEST_ECT;
use spb_types::{Graph, NoMemory, Path, SystemId, Tables, VidPlan, ect_mask};
use std::alloc::Global;
use std::marker::Model;

/// A graph with its base VIDs, made ready once for the tables of all its bridges: its bridges and its services in
/// order, and the best paths that were needed. Contracts see the graph and the base VIDs.
#[derive(Drop)]
pub struct Fabric {
    forest: Forest,
    vids: Vec<VidPlan>,
    layout: Layout,
    /// Whether the best paths from each bridge that sends to a service are kept.
    has_senders: bool,
}

impl Model for Fabric {
    ghost use Rattle.std.specs.Prelude.{◌≡◌, true};
    ghost use Rattle.spb_types.specs.Graph.{IsValid};
    ghost use Rattle.std.specs.List.{AllByRecursion};
    ghost use Rattle.fdb_build.specs.Fabric.{FabricView, KeepsSenders};
    ghost use Rattle.fdb_build.specs.Layout.{IsLayoutOf};
    ghost use Rattle.fdb_build.specs.Tables.{ArePlans};

    ghost Value = { FabricView };

    ghost view = { λ f. record { graph = f.forest.graph; vids = f.vids.items } };

    ghost invariant = { λ f. IsValid f.forest.graph × ArePlans f.vids.items
        × IsLayoutOf f.forest.graph f.vids.items f.layout
        × (f.has_senders ≡ true → AllByRecursion (KeepsSenders f.forest) f.layout.plans.items) };
}

/// Searches the best paths from each bridge that sends to a service of a plan, under the mask of the plan.
fn grow_senders(alloc: Global, forest: &mut Forest, planned: &Planned) -> Result<(), NoMemory>
    requires { IsPlanned forest.old.graph planned.now }
    ensures graph { forest.new.graph ≡ forest.old.graph }
    ensures kept { OnOk result (fabric.KeepsSenders forest.new planned.now) }
    ensures still { KeepsStill forest.old forest.new }
{
    let mask = ect_mask(planned.plan.ect);
    for place in 0..planned.services.sends.len() {
        if !planned.services.sent_at(place).is_empty() {
            forest.grow(alloc, place, mask)?;
        }
    }
    Ok(())
}

/// The same for each of the plans.
fn grow_all(alloc: Global, forest: &mut Forest, plans: &[Planned]) -> Result<(), NoMemory>
    requires { AllByRecursion (IsPlanned forest.old.graph) plans.now }
    ensures graph { forest.new.graph ≡ forest.old.graph }
    ensures kept { OnOk result (AllByRecursion (fabric.KeepsSenders forest.new) plans.now) }
{
    for planned in plans {
        grow_senders(alloc, forest, planned)?;
    }
    Ok(())
}

/// Searches the best paths from the bridge at a place under the mask of each plan.
fn grow_under(
    alloc: Global,
    forest: &mut Forest,
    place: usize,
    plans: &[Planned],
) -> Result<(), NoMemory>
    requires { AllByRecursion (IsPlanned forest.old.graph) plans.now }
    ensures graph { forest.new.graph ≡ forest.old.graph }
    ensures kept { OnOk result (place < length forest.old.graph.bridges
        → AllByRecursion (fabric.KeepsFrom forest.new place) plans.now) }
    ensures still { KeepsStill forest.old forest.new }
{
    for planned in plans {
        forest.grow(alloc, place, ect_mask(planned.plan.ect))?;
    }
    Ok(())
}

impl Fabric {
    /// A graph, by its roads, with its base VIDs.
    pub fn new(alloc: Global, roads: Roads, vids: &[VidPlan]) -> Result<Self, NoMemory>
        requires valid { IsValid roads }
        requires vids { ArePlans vids.now }
        ensures { IfOk result (λ fabric. fabric ≡ record { graph = roads; vids = vids.now }) }
    {
        let layout = Layout::new(alloc, &roads, vids)?;
        Ok(Fabric {
            forest: Forest::new(alloc, roads)?,
            vids: Vec::from_slice(alloc, vids)?,
            layout,
            has_senders: false,
        })
    }

    /// The graph.
    pub fn graph(&self) -> &Graph
        ensures same { result.now ≡ self.now.graph }
        ensures valid { IsValid self.now.graph }
    {
        self.forest.roads().graph()
    }

    /// The roads of the graph, made once.
    pub fn roads(&self) -> &Roads
        ensures { result.now ≡ self.now.graph }
    {
        self.forest.roads()
    }

    /// The base VIDs, as they were given.
    pub fn vids(&self) -> &[VidPlan]
        ensures { result.now ≡ self.now.vids }
    {
        self.vids.as_slice()
    }

    /// Searches the best paths from each bridge that sends to a service, unless they are kept.
    fn grow_to_members(&mut self, alloc: Global) -> Result<(), NoMemory>
        ensures { self.new ≡ self.old }
    {
        if !self.has_senders {
            grow_all(alloc, &mut self.forest, self.layout.plans.as_slice())?;
            self.has_senders = true;
        }
        Ok(())
    }

    /// Searches the best paths from which the tables of a bridge are read, unless they are kept: those from each bridge
    /// that sends to a service, for its group rows, and those from the bridge itself, for its unicast rows.
    pub fn grow_from(&mut self, alloc: Global, me: SystemId) -> Result<(), NoMemory>
        ensures { self.new ≡ self.old }
    {
        self.grow_to_members(alloc)?;
        match self.forest.roads().place_of(me) {
            None => Ok(()),
            Some(place) => grow_under(alloc, &mut self.forest, place, self.layout.plans.as_slice()),
        }
    }

    /// Searches the best paths from a bridge by an ECT algorithm, unless they are kept.
    pub fn grow_by(&mut self, alloc: Global, me: SystemId, ect: u8) -> Result<(), NoMemory>
        requires low { 1 ≤ ect }
        requires high { ect ≤ GREATEST_ECT }
        ensures { self.new ≡ self.old }
    {
        match self.forest.roads().place_of(me) {
            None => Ok(()),
            Some(place) => self.forest.grow(alloc, place, ect_mask(ect)),
        }
    }

    /// The best path from a bridge to another by an ECT algorithm, with its cost. None exactly where there is no path.
    /// Where the best paths from the first are kept, it is read from them; else they are searched for this answer alone.
    pub fn path(
        &self,
        alloc: Global,
        me: SystemId,
        to: SystemId,
        ect: u8,
    ) -> Result<Option<Path>, NoMemory>
        requires low { 1 ≤ ect }
        requires high { ect ≤ GREATEST_ECT }
        ensures { IfOk result (λ path. path ≡ best_path self.now.graph (mask_of ect) me to) }
    {
        let mask = ect_mask(ect);
        match self.forest.roads().place_of(me) {
            None => {
                let tree = self.forest.roads().tree(alloc, me, mask)?;
                tree.path_to(alloc, to)
            }
            Some(place) => self.forest.path(alloc, place, mask, to),
        }
    }

    /// The tables of a bridge: its unicast rows and its group rows, by ascending VID and address (IEEE 802.1aq, 8.8 and
    /// 28.10). Paths that aren't kept are searched for these tables alone.
    pub fn tables(&self, alloc: Global, me: SystemId) -> Result<Tables, NoMemory>
        requires { IsValidFor self.now.graph me }
        ensures { IfOk result (λ t. t ≡ record {
          unicast = tables.unicast_rows self.now.graph me self.now.vids;
          group = groups.group_rows self.now.graph me self.now.vids;
        }) }
    {
        let searches = Grown {
            forest: &self.forest,
            last: None,
        };
        tables_with(alloc, self.forest.roads(), &self.layout, searches, me)
    }
}
