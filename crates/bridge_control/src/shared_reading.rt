//! What bridges that hold the same LSPs can share: the graph that they read, made ready for their tables.
ghost use Rattle.std.specs.Prelude.{◌≡◌, ◌≤◌, ◌++◌, map, true, false, None, Some, Decides, IfOk, OnOk, IsTrue};
ghost use Rattle.std.specs.Option.{option_to_list};
ghost use Rattle.spb_types.specs.declared.limits.TheConstants.{GREATEST_ECT};
ghost use Rattle.spb_types.specs.Ect.{mask_of};
ghost use Rattle.spb_types.specs.Graph.{IsValidFor};
ghost use Rattle.ect_trees.specs.Tree.{best_path};
ghost use Rattle.lsdb.specs.Database.{keyed};
ghost use Rattle.fdb_build.specs.Groups.{group_rows};
ghost use Rattle.fdb_build.specs.Tables.{unicast_rows};
ghost use Rattle.bridge_api.specs.Graph as read;
ghost use Rattle.bridge_api.specs.Tables as tables;
ghost use Rattle.bridge_api.specs.Laws.{IsSoundView};
ghost use Rattle.bridge_control.specs.Machine.{view_of};
ghost use Rattle.bridge_control.specs.Reading as reading;

use crate::machine::Machine;
use crate::reading::{contents, is_read};
use crate::shared::SharedReading;
use ect_trees::Roads;
use fdb_build::Fabric;
use lsdb::{Database, Held};
use spb_content::said_graph_of;
use spb_types::limits::GREATEST_ECT;
use spb_types::{LspId, NoMemory, Path, SystemId, Tables, VidPlan};
use std::alloc::Global;
use std::marker::Model;

/// A live LSP that its system originates.
#[derive(Drop)]
pub struct LiveLsp {
    pub id: LspId,
    pub body: Vec<u8>,
}

/// The graph that a bridge read from the LSPs that it held, made ready for tables; and these LSPs, by which a bridge
/// sees whether it reads the same. It is taken out of its place at each use, so it is small. Contracts see the graph and
/// the base VIDs.
#[derive(Drop)]
pub struct Reading {
    lsps: Vec<LiveLsp>,
    fabric: Box<Fabric>,
}

impl Model for Reading {
    ghost use Rattle.fdb_build.specs.Fabric.{FabricView};
    ghost use Rattle.bridge_control.specs.Reading.{IsReadOf};

    ghost Value = { FabricView };

    ghost view = { λ r. r.fabric.value };

    ghost invariant = { λ r. IsReadOf r.lsps.items r.fabric.value.graph };
}

impl Reading {
    /// The tables of a bridge in the graph. The best paths from which they are read are searched, unless they are kept.
    pub fn tables(&mut self, alloc: Global, me: SystemId) -> Result<Tables, NoMemory>
        requires { IsValidFor self.old.graph me }
        ensures same { self.new ≡ self.old }
        ensures tables { IfOk result (λ t. t ≡ record {
          unicast = unicast_rows self.old.graph me self.old.vids;
          group = group_rows self.old.graph me self.old.vids;
        }) }
    {
        self.fabric.grow_from(alloc, me)?;
        self.fabric.tables(alloc, me)
    }

    /// Searches the best paths from a bridge by an ECT algorithm, unless they are kept.
    pub fn prepare(&mut self, alloc: Global, me: SystemId, ect: u8) -> Result<(), NoMemory>
        requires low { 1 ≤ ect }
        requires high { ect ≤ GREATEST_ECT }
        ensures { self.new ≡ self.old }
    {
        self.fabric.grow_by(alloc, me, ect)
    }

    /// The best path of a bridge to a system by an ECT algorithm, in the graph. None exactly where there is none. Where
    /// the best paths from the bridge are kept, it is read from them.
    pub fn path(
        &self,
        alloc: Global,
        me: SystemId,
        to: SystemId,
        ect: u8,
    ) -> Result<Option<Path>, NoMemory>
        requires low { 1 ≤ ect }
        requires high { ect ≤ GREATEST_ECT }
        ensures { IfOk result (λ path. path ≡ best_path self.now.graph (mask_of ect) me to) }
    {
        self.fabric.path(alloc, me, to, ect)
    }
}

/// Whether an LSP that is held is read, and is this one.
fn is_same(held: &Held, lsp: &LiveLsp) -> bool
    ensures { Decides result (tables.live_lsp (keyed held.now) ≡ Some (reading.copied lsp.now)) }
{
    is_read(held) && held.id == lsp.id && held.body.as_slice() == lsp.body.as_slice()
}

/// Whether just these LSPs are read of what is held. They are compared, and not read.
fn are_held(db: &Database, lsps: &[LiveLsp]) -> bool
    ensures held { Decides result (tables.live_lsps db.now ≡ map reading.copied lsps.now) }
    ensures read { IsTrue result
        → tables.contents_among (tables.live_lsps db.now) ≡ tables.contents_among (map reading.copied lsps.now) }
{
    let mut next = 0;
    for place in 0..db.len() {
        let Some(held) = db.at(place) else {
            return false;
        };
        if is_read(held) {
            if next >= lsps.len() || !is_same(held, &lsps[next]) {
                return false;
            }
            next += 1;
        }
    }
    next == lsps.len()
}

/// Whether two lists of base VIDs are the same.
fn are_same(vids: &[VidPlan], others: &[VidPlan]) -> bool
    ensures { Decides result (vids.now ≡ others.now) }
{
    vids == others
}

/// Puts a copy of an LSP that is held behind the others, if it is one that is read.
fn push_lsp(alloc: Global, lsps: &mut Vec<LiveLsp>, held: &Held) -> Result<(), NoMemory>
    ensures { OnOk result (map reading.copied lsps.new.items
        ≡ map reading.copied lsps.old.items ++ option_to_list (tables.live_lsp (keyed held.now))) }
{
    if is_read(held) {
        lsps.push(LiveLsp {
            id: held.id,
            body: Vec::from_slice(alloc, held.body.as_slice())?,
        })?;
    }
    Ok(())
}

/// Copies of the LSPs that are read, in order of their ids.
fn read_lsps(alloc: Global, db: &Database) -> Result<Vec<LiveLsp>, NoMemory>
    ensures held { IfOk result (λ lsps. map reading.copied lsps.items ≡ tables.live_lsps db.now) }
    ensures read { IfOk result (λ lsps. tables.contents_among (map reading.copied lsps.items)
        ≡ tables.contents_among (tables.live_lsps db.now)) }
{
    let mut lsps = Vec::new(alloc);
    for place in 0..db.len() {
        if let Some(held) = db.at(place) {
            push_lsp(alloc, &mut lsps, held)?;
        }
    }
    Ok(lsps)
}

impl Machine {
    /// The graph of all that the bridge reads, made ready for its tables.
    fn read_anew(&self) -> Result<Reading, NoMemory>
        requires { IsSoundView (view_of self.now) }
        ensures reading { IfOk result (λ r.
            r ≡ record { graph = read.read_graph (view_of self.now); vids = self.now.vids }) }
        ensures valid { IfOk result (λ r. IsValidFor r.graph self.now.id.system) }
    {
        let lsps = read_lsps(self.alloc, &self.db)?;
        let list = contents(self.alloc, &self.db)?;
        let graph = said_graph_of(self.alloc, list.as_slice())?;
        let roads = Roads::over(self.alloc, graph)?;
        let fabric = Fabric::new(self.alloc, roads, self.vids.as_slice())?;
        Ok(Reading {
            lsps,
            fabric: Box::new(self.alloc, fabric)?,
        })
    }

    /// The same: what is kept, if the bridge holds what that was read of and has its base VIDs, and else what it reads
    /// anew.
    pub(crate) fn reading(&self, kept: Option<Reading>) -> Result<Reading, NoMemory>
        requires { IsSoundView (view_of self.now) }
        ensures reading { IfOk result (λ r.
            r ≡ record { graph = read.read_graph (view_of self.now); vids = self.now.vids }) }
        ensures valid { IfOk result (λ r. IsValidFor r.graph self.now.id.system) }
    {
        if let Some(reading) = kept
            && are_same(reading.fabric.vids(), self.vids.as_slice())
            && are_held(&self.db, reading.lsps.as_slice())
        {
            return Ok(reading);
        }
        self.read_anew()
    }
    /// Whether the bridge was the last to use what is shared, and reads something else now.
    pub(crate) fn has_changed_since(&self, shared: &SharedReading) -> bool {
        if !shared.was_used_by(self.id.system) {
            return false;
        }
        let Some(reading) = shared.take() else {
            return false;
        };
        let same = are_same(reading.fabric.vids(), self.vids.as_slice())
            && are_held(&self.db, reading.lsps.as_slice());
        shared.keep(reading, self.id.system);
        !same
    }
}
