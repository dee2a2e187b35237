//! A box that runs out of memory.
ghost use Rattle.std.specs.Prelude.{◌≡◌, true, false};

use adjacency::Adjacency;
use bridge_api::{Bridge, BridgeConfig, DropReason, Kind, Outbox};
use lsdb::Held;
use plain_bridge::PlainBridge;
use spb_types::{Isid, Mac, Mode, NoMemory, Path, PortSet, SystemId, Tables, Vid};
use std::alloc::Global;

/// A plain bridge that answers `NoMemory` at its second tick, and is failed from then on.
#[derive(Drop)]
pub(super) struct FailingBox {
    bridge: PlainBridge,
    /// Whether a tick was passed on.
    ticked: bool,
    failed: bool,
    ghost made: { failed ≡ true → bridge.blank ≡ false },
}

impl FailingBox {
    /// A blank box.
    pub(super) fn blank(alloc: Global) -> Self {
        FailingBox {
            bridge: PlainBridge::blank(alloc),
            ticked: false,
            failed: false,
        }
    }
}

impl Bridge for FailingBox {
    ghost use Rattle.std.specs.Prelude.{true, if◌then◌else◌};
    ghost use Rattle.bridge_api.specs.declared.kind.Kind.TheVariants.{Plain};

    ghost shown = { λ b. record {
      kind = Plain;
      blank = b.bridge.blank;
      view = if b.failed then record b.bridge.view { failed = true } else b.bridge.view;
    } };

    fn kind(&self) -> Kind {
        self.bridge.kind()
    }

    fn is_blank(&self) -> bool {
        self.bridge.is_blank()
    }

    fn is_failed(&self) -> bool {
        self.failed || self.bridge.is_failed()
    }

    fn configure(&mut self, config: &BridgeConfig) -> Result<(), NoMemory> {
        self.bridge.configure(config)
    }

    fn tick(&mut self, outbox: &mut Outbox) -> Result<(), NoMemory> {
        if self.ticked {
            self.failed = true;
        }
        if self.failed {
            return Err(NoMemory);
        }
        self.ticked = true;
        self.bridge.tick(outbox)
    }

    fn receive(&mut self, port: u8, frame: &[u8], outbox: &mut Outbox) -> Result<(), NoMemory> {
        if self.failed {
            return Err(NoMemory);
        }
        self.bridge.receive(port, frame, outbox)
    }

    fn customer(&mut self, port: u16, frame: &[u8], outbox: &mut Outbox) -> Result<(), NoMemory> {
        if self.failed {
            return Err(NoMemory);
        }
        self.bridge.customer(port, frame, outbox)
    }

    fn carrier(&mut self, port: u8, on: bool) -> Result<(), NoMemory> {
        if self.failed {
            return Err(NoMemory);
        }
        self.bridge.carrier(port, on)
    }

    fn set_metric(&mut self, port: u8, metric: u32) -> Result<(), NoMemory> {
        if self.failed {
            return Err(NoMemory);
        }
        self.bridge.set_metric(port, metric)
    }

    fn attach(&mut self, port: u16, isid: Isid, vid: Vid, mode: Mode) -> Result<(), NoMemory> {
        if self.failed {
            return Err(NoMemory);
        }
        self.bridge.attach(port, isid, vid, mode)
    }

    fn detach(&mut self, port: u16) -> Result<(), NoMemory> {
        if self.failed {
            return Err(NoMemory);
        }
        self.bridge.detach(port)
    }

    fn adjacent(&self, port: u8) -> Adjacency {
        self.bridge.adjacent(port)
    }

    fn due(&self, port: u8) -> bool {
        self.bridge.due(port)
    }

    fn has_flag(&self) -> bool {
        self.bridge.has_flag()
    }

    fn entry(&self, place: usize) -> Option<&Held> {
        self.bridge.entry(place)
    }

    fn drops(&self, reason: DropReason) -> u64 {
        self.bridge.drops(reason)
    }

    fn tables(&self) -> Result<Tables, NoMemory> {
        if self.failed {
            return Err(NoMemory);
        }
        self.bridge.tables()
    }

    fn unicast_port(&self, vid: Vid, mac: Mac) -> Result<Option<u8>, NoMemory> {
        if self.failed {
            return Err(NoMemory);
        }
        self.bridge.unicast_port(vid, mac)
    }

    fn group_ports(&self, vid: Vid, mac: Mac) -> Result<PortSet, NoMemory> {
        if self.failed {
            return Err(NoMemory);
        }
        self.bridge.group_ports(vid, mac)
    }

    fn path(&self, to: SystemId, vid: Vid) -> Result<Option<Path>, NoMemory> {
        if self.failed {
            return Err(NoMemory);
        }
        self.bridge.path(to, vid)
    }
}
