//! A box that is asked for each row of its tables. It says of no second that it passes in calm, so each is played.
ghost use Rattle.std.specs.Prelude.{◌≡◌, false};

use adjacency::Adjacency;
use bridge_api::{Bridge, BridgeConfig, DropReason, Kind, Outbox};
use lsdb::Held;
use spb_types::{
    GroupRow, Isid, Mac, Mode, NoMemory, Path, PortSet, SystemId, Tables, UnicastRow, Vid,
};

/// A bridge that asks another for its tables, and then for each of their rows apart, and for the path of each unicast
/// row. Where an answer isn't that row, or there is no path, it says `NoMemory`, which ends the run.
#[derive(Drop)]
pub(super) struct AskingBox<B: Bridge> {
    bridge: B,
}

impl<B: Bridge> AskingBox<B> {
    /// A bridge that asks this one.
    pub(super) fn new(bridge: B) -> Self {
        AskingBox { bridge }
    }

    /// Asks for a unicast row and its path.
    fn ask_unicast(&self, row: &UnicastRow) -> Result<(), NoMemory>
        requires { (B.shown self.now.bridge).blank ≡ false }
    {
        let port = self.bridge.unicast_port(row.vid, row.mac)?;
        let path = self.bridge.path(SystemId { mac: row.mac }, row.vid)?;
        if port == Some(row.port) && path.is_some() {
            Ok(())
        } else {
            Err(NoMemory)
        }
    }

    /// Asks for a group row.
    fn ask_group(&self, row: &GroupRow) -> Result<(), NoMemory>
        requires { (B.shown self.now.bridge).blank ≡ false }
    {
        if self.bridge.group_ports(row.vid, row.mac)? == row.ports {
            Ok(())
        } else {
            Err(NoMemory)
        }
    }

    /// Asks for each unicast row.
    fn ask_all_unicast(&self, rows: &[UnicastRow]) -> Result<(), NoMemory>
        requires { (B.shown self.now.bridge).blank ≡ false }
    {
        for row in rows {
            self.ask_unicast(row)?;
        }
        Ok(())
    }

    /// Asks for each group row.
    fn ask_all_group(&self, rows: &[GroupRow]) -> Result<(), NoMemory>
        requires { (B.shown self.now.bridge).blank ≡ false }
    {
        for row in rows {
            self.ask_group(row)?;
        }
        Ok(())
    }
}

impl<B: Bridge> Bridge for AskingBox<B> {
    ghost shown = { λ b. B.shown b.bridge };

    fn kind(&self) -> Kind {
        self.bridge.kind()
    }

    fn is_blank(&self) -> bool {
        self.bridge.is_blank()
    }

    fn is_failed(&self) -> bool {
        self.bridge.is_failed()
    }

    fn configure(&mut self, config: &BridgeConfig) -> Result<(), NoMemory> {
        self.bridge.configure(config)
    }

    fn tick(&mut self, outbox: &mut Outbox) -> Result<(), NoMemory> {
        self.bridge.tick(outbox)
    }

    fn receive(&mut self, port: u8, frame: &[u8], outbox: &mut Outbox) -> Result<(), NoMemory> {
        self.bridge.receive(port, frame, outbox)
    }

    fn customer(&mut self, port: u16, frame: &[u8], outbox: &mut Outbox) -> Result<(), NoMemory> {
        self.bridge.customer(port, frame, outbox)
    }

    fn carrier(&mut self, port: u8, on: bool) -> Result<(), NoMemory> {
        self.bridge.carrier(port, on)
    }

    fn set_metric(&mut self, port: u8, metric: u32) -> Result<(), NoMemory> {
        self.bridge.set_metric(port, metric)
    }

    fn attach(&mut self, port: u16, isid: Isid, vid: Vid, mode: Mode) -> Result<(), NoMemory> {
        self.bridge.attach(port, isid, vid, mode)
    }

    fn detach(&mut self, port: u16) -> Result<(), NoMemory> {
        self.bridge.detach(port)
    }

    fn adjacent(&self, port: u8) -> Adjacency {
        self.bridge.adjacent(port)
    }

    fn due(&self, port: u8) -> bool {
        self.bridge.due(port)
    }

    fn has_flag(&self) -> bool {
        self.bridge.has_flag()
    }

    fn entry(&self, place: usize) -> Option<&Held> {
        self.bridge.entry(place)
    }

    fn drops(&self, reason: DropReason) -> u64 {
        self.bridge.drops(reason)
    }

    fn tables(&self) -> Result<Tables, NoMemory> {
        let tables = self.bridge.tables()?;
        self.ask_all_unicast(tables.unicast.as_slice())?;
        self.ask_all_group(tables.group.as_slice())?;
        Ok(tables)
    }

    fn unicast_port(&self, vid: Vid, mac: Mac) -> Result<Option<u8>, NoMemory> {
        self.bridge.unicast_port(vid, mac)
    }

    fn group_ports(&self, vid: Vid, mac: Mac) -> Result<PortSet, NoMemory> {
        self.bridge.group_ports(vid, mac)
    }

    fn path(&self, to: SystemId, vid: Vid) -> Result<Option<Path>, NoMemory> {
        self.bridge.path(to, vid)
    }
}
