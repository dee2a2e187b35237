//! The plain bridge: its calls, forwarded to its control plane.
ghost use Rattle.std.specs.Prelude.{◌≡◌, true, false, OnOk, OnErr};

use adjacency::Adjacency;
use bridge_api::{Bridge, BridgeConfig, DropReason, Kind, Outbox};
use bridge_control::{ControlPlane, SharedReading};
use lsdb::Held;
use spb_types::{Isid, Mac, Mode, NoMemory, Path, PortSet, SystemId, Tables, Vid};
use std::alloc::Global;
use std::marker::Model;

/// A bridge of the kind [`Kind::Plain`].
#[derive(Drop)]
pub struct PlainBridge {
    control: ControlPlane,
}

impl Model for PlainBridge {
    ghost use Rattle.bridge_control.specs.Plane.{Plane};
    ghost use Rattle.bridge_control.specs.contracts.control_plane.ControlPlane as control_plane;

    ghost Value = { Plane };

    ghost coded = { control_plane.the_row.coded };

    ghost view = { λ b. b.control };
}

/// Whether a B-TAG follows the two addresses of a frame, as in each that carries a customer's (IEEE 802.1ah, 9.7). Any
/// other is heard without tables.
fn has_b_tag(frame: &[u8]) -> bool {
    frame.len() > 13 && frame[12] == 0x88 && frame[13] == 0xa8
}

impl PlainBridge {
    ghost use Rattle.bridge_api.specs.View.{IsPort};

    /// A bridge that isn't configured. It keeps the allocator, and takes no memory.
    pub fn blank(alloc: Global) -> Self
        ensures blank { result.blank ≡ true }
        ensures failed { result.view.failed ≡ false }
    {
        PlainBridge {
            control: ControlPlane::blank(alloc),
        }
    }

    /// The same, of a bridge that shares with others what its tables and paths are made of.
    pub fn sharing(alloc: Global, shared: SharedReading) -> Self
        ensures blank { result.blank ≡ true }
        ensures failed { result.view.failed ≡ false }
    {
        PlainBridge {
            control: ControlPlane::sharing(alloc, shared),
        }
    }

    /// Whether a frame that comes to a port is sent on by tables, and none are kept.
    fn lacks_tables(&self, port: u8, frame: &[u8]) -> bool
        requires made { self.now.blank ≡ false }
        requires unfailed { self.now.view.failed ≡ false }
        requires port { IsPort self.now.view port }
    {
        self.control.kept_tables().is_none() && self.control.needs_tables(port, frame)
    }

    /// The tables are kept that the next frame is sent on by, if none are.
    fn prepare(&mut self) -> Result<(), NoMemory>
        requires made { self.old.blank ≡ false }
        requires unfailed { self.old.view.failed ≡ false }
        ensures same { OnOk result (self.new ≡ self.old) }
        ensures memory { OnErr result (self.new.view.failed ≡ true) }
        ensures still_made { self.new.blank ≡ false }
    {
        if self.control.kept_tables().is_some() {
            return Ok(());
        }
        match self.control.tables() {
            Ok(tables) => {
                self.control.keep_tables(tables);
                Ok(())
            }
            Err(refused) => {
                self.control.fail();
                Err(refused)
            }
        }
    }
}

impl Bridge for PlainBridge {
    ghost use Rattle.bridge_api.specs.declared.kind.Kind.TheVariants.{Plain};

    ghost shown = { λ b. record { kind = Plain; blank = b.blank; view = b.view } };

    fn kind(&self) -> Kind {
        Kind::Plain
    }

    fn is_blank(&self) -> bool {
        self.control.is_blank()
    }

    fn is_failed(&self) -> bool {
        self.control.is_failed()
    }

    fn configure(&mut self, config: &BridgeConfig) -> Result<(), NoMemory> {
        self.control.configure(config)
    }

    fn tick(&mut self, outbox: &mut Outbox) -> Result<(), NoMemory> {
        self.control.tick(outbox)
    }

    fn receive(&mut self, port: u8, frame: &[u8], outbox: &mut Outbox) -> Result<(), NoMemory> {
        if has_b_tag(frame) && !self.control.is_failed() && self.lacks_tables(port, frame) {
            self.prepare()?;
        }
        self.control.receive(port, frame, outbox)
    }

    fn customer(&mut self, port: u16, frame: &[u8], outbox: &mut Outbox) -> Result<(), NoMemory> {
        if !self.control.is_failed() {
            self.prepare()?;
        }
        self.control.customer(port, frame, outbox)
    }

    fn carrier(&mut self, port: u8, on: bool) -> Result<(), NoMemory> {
        self.control.carrier(port, on)
    }

    fn set_metric(&mut self, port: u8, metric: u32) -> Result<(), NoMemory> {
        self.control.set_metric(port, metric)
    }

    fn attach(&mut self, port: u16, isid: Isid, vid: Vid, mode: Mode) -> Result<(), NoMemory> {
        self.control.attach(port, isid, vid, mode)
    }

    fn detach(&mut self, port: u16) -> Result<(), NoMemory> {
        self.control.detach(port)
    }

    fn adjacent(&self, port: u8) -> Adjacency {
        self.control.adjacent(port)
    }

    fn due(&self, port: u8) -> bool {
        self.control.due(port)
    }

    fn has_flag(&self) -> bool {
        self.control.has_flag()
    }

    fn entry(&self, place: usize) -> Option<&Held> {
        self.control.entry(place)
    }

    fn drops(&self, reason: DropReason) -> u64 {
        self.control.drops(reason)
    }

    fn tables(&self) -> Result<Tables, NoMemory> {
        self.control.tables()
    }

    fn unicast_port(&self, vid: Vid, mac: Mac) -> Result<Option<u8>, NoMemory> {
        self.control.unicast_port(vid, mac)
    }

    fn group_ports(&self, vid: Vid, mac: Mac) -> Result<PortSet, NoMemory> {
        self.control.group_ports(vid, mac)
    }

    fn path(&self, to: SystemId, vid: Vid) -> Result<Option<Path>, NoMemory> {
        self.control.path(to, vid)
    }

    fn prepare_paths(&mut self, vid: Vid) -> Result<(), NoMemory> {
        self.control.prepare_paths(vid)
    }

    fn rest(&mut self) {
        self.control.rest();
    }

    fn calm_seconds(&self) -> u16 {
        self.control.calm_seconds()
    }

    fn pass_calm(&mut self, seconds: u16) -> Result<(), NoMemory> {
        self.control.pass_calm(seconds);
        Ok(())
    }
}
