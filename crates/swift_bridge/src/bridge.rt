//! The swift bridge: its calls, forwarded to its control plane, and its tables, made by the trees that it keeps.
ghost use Rattle.std.specs.Prelude.{◌≡◌, true, false, None, IfOk, IfSome, IsErr, OnOk, OnErr};
ghost use Rattle.std.specs.Borrow.{sem};
ghost use Rattle.spb_types.specs.Graph.{IsValid, IsValidFor};
ghost use Rattle.bridge_api.specs.Tables.{read_graph, own_tables};
ghost use Rattle.swift_bridge.specs.Following.{masks_of, AreTreesOf};
ghost use Rattle.swift_bridge.specs.Shown.{AreOwnTrees};
ghost use Rattle.swift_bridge.specs.Lent.{Rests};

use crate::following::{masks_of, trees_of};
use adjacency::Adjacency;
use bridge_api::{Bridge, BridgeConfig, DropReason, Kind, Outbox};
use bridge_control::{ControlPlane, SharedReading};
use fdb_build::tables_by;
use fork_trees::TreeSet;
use lsdb::Held;
use spb_types::{
    Graph, Isid, Mac, Mode, NoMemory, Path, PortSet, SystemId, Tables, Vid, group_of, unicast_of,
};
use std::alloc::Global;
use std::cell::RefCell;
use std::marker::Model;

/// A bridge of the kind [`Kind::Swift`].
#[derive(Drop)]
pub struct SwiftBridge {
    control: ControlPlane,
    alloc: Global,
    /// The trees that were made last, until they are brought up to date.
    kept: RefCell<Option<TreeSet>>,
    /// Those that `trees` showed last, while nothing has changed since.
    shown: Option<TreeSet>,
}

impl Model for SwiftBridge {
    ghost use Rattle.bridge_control.specs.Plane.{Plane};
    ghost use Rattle.bridge_control.specs.contracts.control_plane.ControlPlane as control_plane;
    ghost use Rattle.swift_bridge.specs.Shown.{AreCurrent};

    ghost Value = { Plane };

    ghost coded = { control_plane.the_row.coded };

    ghost view = { λ b. b.control };

    ghost invariant = { λ b. AreCurrent b.control.view b.shown };
}

/// The trees that are shown are kept for the next time. So begins each call that may change what they are made of.
fn put_back(shown: &mut Option<TreeSet>, kept: &RefCell<Option<TreeSet>>)
    ensures { shown.new ≡ None }
{
    if let Some(trees) = shown.take() {
        let _ = kept.try_replace(Some(trees));
    }
}

impl SwiftBridge {
    /// A bridge that isn't configured. It keeps the allocator, and takes no memory.
    pub fn blank(alloc: Global) -> Self
        ensures blank { result.blank ≡ true }
        ensures failed { result.view.failed ≡ false }
    {
        SwiftBridge {
            control: ControlPlane::blank(alloc),
            alloc,
            kept: RefCell::new(None),
            shown: None,
        }
    }

    /// The same, of a bridge that shares with others what its tables and paths are made of, while it keeps no trees.
    pub fn sharing(alloc: Global, shared: SharedReading) -> Self
        ensures blank { result.blank ≡ true }
        ensures failed { result.view.failed ≡ false }
    {
        SwiftBridge {
            control: ControlPlane::sharing(alloc, shared),
            alloc,
            kept: RefCell::new(None),
            shown: None,
        }
    }

    /// Whether trees are kept.
    fn keeps_trees(&self) -> bool {
        match self.kept.try_borrow() {
            Ok(kept) => kept.is_some(),
            Err(_) => false,
        }
    }

    /// The trees that are kept, which are taken out.
    fn take_kept(&self) -> Option<TreeSet> {
        self.kept.try_replace(None).unwrap_or(None)
    }

    /// The trees of the graph that the bridge reads.
    fn renewed(&self, graph: &Graph) -> Result<TreeSet, NoMemory>
        requires made { self.now.blank ≡ false }
        requires unfailed { self.now.view.failed ≡ false }
        requires valid { IsValid graph.now }
        ensures { IfOk result (AreTreesOf graph.now (masks_of self.now.view.vids)) }
    {
        let masks = masks_of(self.alloc, self.control.vids())?;
        trees_of(self.alloc, self.take_kept(), graph, masks.as_slice())
    }

    /// The tables of the bridge by these trees, which are those of the graph that it reads.
    fn tables_in(&self, graph: &Graph, trees: &TreeSet) -> Result<Tables, NoMemory>
        requires made { self.now.blank ≡ false }
        requires unfailed { self.now.view.failed ≡ false }
        requires graph { graph.now ≡ read_graph self.now.view }
        requires valid { IsValidFor graph.now self.now.view.id.system }
        requires trees { AreTreesOf graph.now (masks_of self.now.view.vids) trees.now }
        ensures { IfOk result (λ t. t ≡ own_tables self.now.view) }
    {
        let me = self.control.id().system;
        tables_by(self.alloc, graph, me, self.control.vids(), trees)
    }

    /// The tables of the bridge, made by its trees, which are kept.
    fn tables_by_trees(&self) -> Result<Tables, NoMemory>
        requires made { self.now.blank ≡ false }
        requires unfailed { self.now.view.failed ≡ false }
        ensures { IfOk result (λ t. t ≡ own_tables self.now.view) }
    {
        let graph = self.control.graph()?;
        if let Some(trees) = &self.shown {
            return self.tables_in(&graph, trees);
        }
        let trees = self.renewed(&graph)?;
        let tables = self.tables_in(&graph, &trees);
        let _ = self.kept.try_replace(Some(trees));
        tables
    }

    /// The tables of the bridge: by its trees where some are there, and where it alone is asked again and again; and
    /// else by what bridges share.
    fn made_tables(&self) -> Result<Tables, NoMemory>
        requires { self.now.blank ≡ false }
        ensures tables { IfOk result (λ t. t ≡ own_tables self.now.view) }
        ensures failed { self.now.view.failed ≡ true → IsErr result }
    {
        if self.control.is_failed() {
            return Err(NoMemory);
        }
        let has_trees = self.shown.is_some() || self.keeps_trees();
        if has_trees || self.control.is_asked_alone() {
            return self.tables_by_trees();
        }
        self.control.tables()
    }

    /// The trees of the bridge as it is now.
    fn own_trees(&self) -> Result<TreeSet, NoMemory>
        requires { self.now.blank ≡ false }
        ensures trees { IfOk result (AreOwnTrees self.now.view) }
        ensures failed { self.now.view.failed ≡ true → IsErr result }
    {
        if self.control.is_failed() {
            return Err(NoMemory);
        }
        let graph = self.control.graph()?;
        self.renewed(&graph)
    }

    /// The trees of the graph of all that the bridge reads, from each of its bridges, reached or not, under the masks
    /// of its base VIDs (IEEE 802.1aq, 28.5 to 28.8). From what the bridge reaches they are those of its own graph, cut
    /// down to that ([`cut_keeps_trees`](crate::cut_keeps_trees)). They are brought up to date edge by edge; where the
    /// bridges of the graph or the masks changed, they are made anew. After `NoMemory` the bridge is failed, and else
    /// as it was.
    pub fn trees(&mut self) -> Result<&TreeSet, NoMemory>
        requires { self.old.blank ≡ false }
        ensures* rests { sem 𝓛 (Rests self.entry result) }
        ensures trees { IfOk result (λ s. AreOwnTrees self.old.view s.now) }
        ensures failed { self.old.view.failed ≡ true → IsErr result }
    {
        put_back(&mut self.shown, &self.kept);
        match self.own_trees() {
            Ok(trees) => Ok(self.shown.insert(trees)),
            Err(refused) => {
                self.control.fail();
                Err(refused)
            }
        }
    }

    /// The tables are kept that the next frame is sent on by, if none are.
    fn prepare(&mut self) -> Result<(), NoMemory>
        requires made { self.old.blank ≡ false }
        requires unfailed { self.old.view.failed ≡ false }
        ensures same { OnOk result (self.new ≡ self.old) }
        ensures memory { OnErr result (self.new.view.failed ≡ true) }
        ensures still_made { self.new.blank ≡ false }
    {
        if self.control.kept_tables().is_some() {
            return Ok(());
        }
        match self.made_tables() {
            Ok(tables) => {
                self.control.keep_tables(tables);
                Ok(())
            }
            Err(refused) => {
                put_back(&mut self.shown, &self.kept);
                self.control.fail();
                Err(refused)
            }
        }
    }
}

impl Bridge for SwiftBridge {
    ghost use Rattle.bridge_api.specs.declared.kind.Kind.TheVariants.{Swift};

    ghost shown = { λ b. record { kind = Swift; blank = b.blank; view = b.view } };

    fn kind(&self) -> Kind {
        Kind::Swift
    }

    fn is_blank(&self) -> bool {
        self.control.is_blank()
    }

    fn is_failed(&self) -> bool {
        self.control.is_failed()
    }

    fn configure(&mut self, config: &BridgeConfig) -> Result<(), NoMemory> {
        put_back(&mut self.shown, &self.kept);
        self.control.configure(config)
    }

    fn tick(&mut self, outbox: &mut Outbox) -> Result<(), NoMemory> {
        put_back(&mut self.shown, &self.kept);
        self.control.tick(outbox)
    }

    fn receive(&mut self, port: u8, frame: &[u8], outbox: &mut Outbox) -> Result<(), NoMemory> {
        if !self.control.is_failed() && self.control.needs_tables(port, frame) {
            self.prepare()?;
        }
        put_back(&mut self.shown, &self.kept);
        self.control.receive(port, frame, outbox)
    }

    fn customer(&mut self, port: u16, frame: &[u8], outbox: &mut Outbox) -> Result<(), NoMemory> {
        if !self.control.is_failed() {
            self.prepare()?;
        }
        put_back(&mut self.shown, &self.kept);
        self.control.customer(port, frame, outbox)
    }

    fn carrier(&mut self, port: u8, on: bool) -> Result<(), NoMemory> {
        put_back(&mut self.shown, &self.kept);
        self.control.carrier(port, on)
    }

    fn set_metric(&mut self, port: u8, metric: u32) -> Result<(), NoMemory> {
        put_back(&mut self.shown, &self.kept);
        self.control.set_metric(port, metric)
    }

    fn attach(&mut self, port: u16, isid: Isid, vid: Vid, mode: Mode) -> Result<(), NoMemory> {
        put_back(&mut self.shown, &self.kept);
        self.control.attach(port, isid, vid, mode)
    }

    fn detach(&mut self, port: u16) -> Result<(), NoMemory> {
        put_back(&mut self.shown, &self.kept);
        self.control.detach(port)
    }

    fn adjacent(&self, port: u8) -> Adjacency {
        self.control.adjacent(port)
    }

    fn due(&self, port: u8) -> bool {
        self.control.due(port)
    }

    fn has_flag(&self) -> bool {
        self.control.has_flag()
    }

    fn entry(&self, place: usize) -> Option<&Held> {
        self.control.entry(place)
    }

    fn drops(&self, reason: DropReason) -> u64 {
        self.control.drops(reason)
    }

    fn tables(&self) -> Result<Tables, NoMemory> {
        self.made_tables()
    }

    fn unicast_port(&self, vid: Vid, mac: Mac) -> Result<Option<u8>, NoMemory> {
        Ok(unicast_of(&self.made_tables()?, vid, mac))
    }

    fn group_ports(&self, vid: Vid, mac: Mac) -> Result<PortSet, NoMemory> {
        Ok(group_of(&self.made_tables()?, vid, mac))
    }

    fn path(&self, to: SystemId, vid: Vid) -> Result<Option<Path>, NoMemory> {
        self.control.path(to, vid)
    }

    fn prepare_paths(&mut self, vid: Vid) -> Result<(), NoMemory> {
        self.control.prepare_paths(vid)
    }

    fn rest(&mut self) {
        self.control.rest();
    }

    fn calm_seconds(&self) -> u16 {
        self.control.calm_seconds()
    }

    fn pass_calm(&mut self, seconds: u16) -> Result<(), NoMemory> {
        put_back(&mut self.shown, &self.kept);
        self.control.pass_calm(seconds);
        Ok(())
    }
}
