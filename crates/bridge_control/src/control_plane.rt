//! The control plane as a kind of bridge uses it: each call refuses a failed bridge, works on the machine, and keeps or
//! forgets the tables.
ghost use Rattle.std.specs.Prelude.{◌≡◌, ◌≤◌, true, false, ◌↔◌, ◌&&◌, IfOk, IfSome, OnOk, OnErr, IsErr, Some};
ghost use Rattle.std.specs.Option.{option_map, option_copied};
ghost use Rattle.spb_types.specs.Graph.{IsValidFor};
ghost use Rattle.spb_types.specs.Tables.{unicast_in, group_in};
ghost use Rattle.fdb_build.specs.Tables.{ArePlans};
ghost use Rattle.lsdb.specs.Database.{keyed};
ghost use Rattle.bridge_api.specs.Drops.{count_of};
ghost use Rattle.bridge_api.specs.View.{IsPort, has_carrier_at, is_csnp_due_at, adjacency_at, has_flags, entry_at};
ghost use Rattle.bridge_api.specs.Config.{IsWhole, IsMetric, configured};
ghost use Rattle.bridge_api.specs.Hearing.{after_receive, with_carrier, with_metric};
ghost use Rattle.bridge_api.specs.Services.{IsAttachedPort, IsSendingPort, CanAttach, attachment_of, with_attachment, without_attachment};
ghost use Rattle.bridge_api.specs.Ticking.{after_tick, sent_in_tick};
ghost use Rattle.bridge_api.specs.Customers.{IsCustomerFrame, after_entry, moved_by_entry, moved_by_receive};
ghost use Rattle.bridge_api.specs.Step.{with_wire, with_moved, Gains, GainsMoved};
ghost use Rattle.bridge_api.specs.Graph.{read_graph, own_tables, own_path};
ghost use Rattle.bridge_api.specs.Calm.{IsCalmFor, aged_by};
ghost use Rattle.bridge_control.specs.Carrying.{carries_customer};

use crate::kept_tables::copy_of;
use crate::machine::Machine;
use crate::parsing::is_customer;
use crate::ports::port_at;
use crate::shared::{SharedReading, give_back};
use crate::shared_reading::Reading;
use adjacency::Adjacency;
use bridge_api::{BridgeConfig, DropReason, Outbox};
use lsdb::Held;
use spb_types::{
    Attachment, BridgeId, Graph, Isid, Mac, Mode, NoMemory, Path, PortSet, SystemId, Tables, Vid,
    VidPlan, group_of, unicast_of,
};
use std::alloc::Global;
use std::marker::Model;

/// The IS-IS control plane of a bridge: its adjacencies, its LSPs, and what it says of itself.
///
/// Its calls are those of `bridge_api::Bridge`, with the same conditions and answers, so a kind of bridge forwards
/// them. It is blank until `configure` is called, and each call but `is_blank`, `is_failed` and `configure` has the
/// condition that it isn't blank. A call that finds no memory leaves it failed: from then on each call that can answer
/// `NoMemory` answers it and changes nothing.
#[derive(Drop)]
pub struct ControlPlane {
    blank: bool,
    failed: bool,
    machine: Machine,
    /// The tables, where they were made since what is held last changed.
    tables: Option<Tables>,
    /// What is read from the LSPs, where bridges share it.
    shared: Option<SharedReading>,
    /// What the bridge read, where paths were prepared since what is held last changed.
    reading: Option<Reading>,
}

impl Model for ControlPlane {
    ghost use Rattle.std.specs.Coded.{codes};
    ghost use Rattle.customer_learning.specs.contracts.learned.Learned as learned;
    ghost use Rattle.lsdb.specs.contracts.database.Database as database;
    ghost use Rattle.bridge_control.specs.Plane.{Plane, plane_of, IsKept};

    ghost Value = { Plane };

    ghost coded = { Prim.hlevel (codes, database.the_row.coded, learned.the_row.coded) };

    ghost view = { λ c. plane_of c.blank c.failed c.machine };

    ghost invariant = { λ c. IsKept c.blank c.failed c.machine c.tables c.reading };
}

impl ControlPlane {
    /// A control plane that isn't configured, and shares what it reads from its LSPs, or doesn't.
    fn idle(alloc: Global, shared: Option<SharedReading>) -> Self
        ensures blank { result.blank ≡ true }
        ensures failed { result.view.failed ≡ false }
    {
        ControlPlane {
            blank: true,
            failed: false,
            machine: Machine::idle(alloc),
            tables: None,
            shared,
            reading: None,
        }
    }

    /// A control plane that isn't configured. It keeps the allocator, and takes no memory.
    pub fn blank(alloc: Global) -> Self
        ensures blank { result.blank ≡ true }
        ensures failed { result.view.failed ≡ false }
    {
        ControlPlane::idle(alloc, None)
    }

    /// The same, of a bridge that shares with others what it reads from its LSPs.
    pub fn sharing(alloc: Global, shared: SharedReading) -> Self
        ensures blank { result.blank ≡ true }
        ensures failed { result.view.failed ≡ false }
    {
        ControlPlane::idle(alloc, Some(shared))
    }

    /// Whether `configure` was never called.
    pub fn is_blank(&self) -> bool
        ensures { result ≡ self.now.blank }
    {
        self.blank
    }

    /// Whether a call answered `NoMemory`. A blank control plane isn't failed.
    pub fn is_failed(&self) -> bool
        ensures failed { result ≡ self.now.view.failed }
        ensures made { result ≡ true → self.now.blank ≡ false }
    {
        self.failed
    }

    /// Refuses every call after one that found no memory.
    fn refuse_failed(&self) -> Result<(), NoMemory>
        ensures { IsErr result ↔ (self.now.view.failed ≡ true) }
    {
        if self.failed { Err(NoMemory) } else { Ok(()) }
    }

    /// Makes the blank control plane that of a whole configuration. There is no carrier afterwards.
    pub fn configure(&mut self, config: &BridgeConfig) -> Result<(), NoMemory>
        requires blank { self.old.blank ≡ true }
        requires whole { IsWhole config.now }
        ensures view { OnOk result (self.new.view ≡ configured config.now) }
        ensures memory { OnErr result (self.new.view.failed ≡ true) }
        ensures made { self.new.blank ≡ false }
    {
        self.blank = false;
        self.tables = None;
        self.reading = None;
        match Machine::configured(self.machine.alloc, config) {
            Ok(machine) => {
                self.machine = machine;
                Ok(())
            }
            Err(refused) => {
                self.failed = true;
                Err(refused)
            }
        }
    }

    /// A second passes: counts and lifetimes fall, the bridge originates where it has to, and all that is to be sent
    /// goes into the outbox.
    pub fn tick(&mut self, outbox: &mut Outbox) -> Result<(), NoMemory>
        requires { self.old.blank ≡ false }
        ensures view { OnOk result (self.new.view ≡ after_tick self.old.view) }
        ensures sent { OnOk result (outbox.new ≡ with_wire (sent_in_tick self.old.view) outbox.old) }
        ensures memory { OnErr result (self.new.view.failed ≡ true) }
        ensures gained { OnErr result (Gains (sent_in_tick self.old.view) outbox.old outbox.new) }
        ensures failed { self.old.view.failed ≡ true
            → IsErr result × (self.new.view ≡ self.old.view) × (outbox.new ≡ outbox.old) }
        ensures made { self.new.blank ≡ false }
    {
        self.refuse_failed()?;
        give_back(
            &mut self.reading,
            self.shared.as_ref(),
            self.machine.id.system,
        );
        self.tables = None;
        let ended = self.machine.tick(outbox);
        self.failed = ended.is_err();
        ended
    }

    /// Hears a frame, which may be any bytes, at a port. A frame of no use is dropped, which raises one count and changes
    /// nothing else. A backbone frame is relayed and delivered by the tables of the bridge.
    pub fn receive(&mut self, port: u8, frame: &[u8], outbox: &mut Outbox) -> Result<(), NoMemory>
        requires made { self.old.blank ≡ false }
        requires port { self.old.view.failed ≡ false → IsPort self.old.view port }
        ensures view { OnOk result (self.new.view ≡ after_receive port frame.now self.old.view) }
        ensures sent { OnOk result (outbox.new ≡ with_moved (moved_by_receive port frame.now self.old.view) outbox.old) }
        ensures memory { OnErr result (self.new.view.failed ≡ true) }
        ensures gained { OnErr result
            (GainsMoved (moved_by_receive port frame.now self.old.view) outbox.old outbox.new) }
        ensures failed { self.old.view.failed ≡ true
            → IsErr result × (self.new.view ≡ self.old.view) × (outbox.new ≡ outbox.old) }
        ensures still_made { self.new.blank ≡ false }
    {
        self.refuse_failed()?;
        give_back(
            &mut self.reading,
            self.shared.as_ref(),
            self.machine.id.system,
        );
        let ended = self.machine.receive(port, frame, &mut self.tables, outbox);
        self.failed = ended.is_err();
        ended
    }

    /// A customer's frame enters at a customer port that is attached and sends, and is sent on by the tables of the
    /// bridge.
    pub fn customer(&mut self, port: u16, frame: &[u8], outbox: &mut Outbox) -> Result<(), NoMemory>
        requires made { self.old.blank ≡ false }
        requires sending { self.old.view.failed ≡ false → IsSendingPort self.old.view port }
        requires frame { IsCustomerFrame frame.now }
        ensures view { OnOk result (self.new.view ≡ after_entry port frame.now self.old.view) }
        ensures sent { OnOk result (outbox.new ≡ with_moved (moved_by_entry port frame.now self.old.view) outbox.old) }
        ensures memory { OnErr result (self.new.view.failed ≡ true) }
        ensures gained { OnErr result
            (GainsMoved (moved_by_entry port frame.now self.old.view) outbox.old outbox.new) }
        ensures failed { self.old.view.failed ≡ true
            → IsErr result × (self.new.view ≡ self.old.view) × (outbox.new ≡ outbox.old) }
        ensures still_made { self.new.blank ≡ false }
    {
        self.refuse_failed()?;
        give_back(
            &mut self.reading,
            self.shared.as_ref(),
            self.machine.id.system,
        );
        let ended = self.machine.customer(port, frame, &mut self.tables, outbox);
        self.failed = ended.is_err();
        ended
    }

    /// Carrier comes or goes at a port.
    pub fn carrier(&mut self, port: u8, on: bool) -> Result<(), NoMemory>
        requires made { self.old.blank ≡ false }
        requires port { self.old.view.failed ≡ false → IsPort self.old.view port }
        ensures view { OnOk result (self.new.view ≡ with_carrier port on self.old.view) }
        ensures memory { OnErr result (self.new.view.failed ≡ true) }
        ensures failed { self.old.view.failed ≡ true → IsErr result × (self.new.view ≡ self.old.view) }
        ensures still_made { self.new.blank ≡ false }
    {
        self.refuse_failed()?;
        give_back(
            &mut self.reading,
            self.shared.as_ref(),
            self.machine.id.system,
        );
        self.tables = None;
        let ended = self.machine.carrier(port, on);
        self.failed = ended.is_err();
        ended
    }

    /// Sets the metric of the link at a port, from 1 to 16,777,214 (RFC 5305, 3).
    pub fn set_metric(&mut self, port: u8, metric: u32) -> Result<(), NoMemory>
        requires made { self.old.blank ≡ false }
        requires port { self.old.view.failed ≡ false → IsPort self.old.view port }
        requires metric { IsMetric metric }
        ensures view { OnOk result (self.new.view ≡ with_metric port metric self.old.view) }
        ensures memory { OnErr result (self.new.view.failed ≡ true) }
        ensures failed { self.old.view.failed ≡ true → IsErr result × (self.new.view ≡ self.old.view) }
        ensures still_made { self.new.blank ≡ false }
    {
        self.refuse_failed()?;
        give_back(
            &mut self.reading,
            self.shared.as_ref(),
            self.machine.id.system,
        );
        self.tables = None;
        let ended = self.machine.set_metric(port, metric);
        self.failed = ended.is_err();
        ended
    }

    /// Attaches a customer port to a service, an I-SID in a base VID (IEEE 802.1ah, 25.10).
    pub fn attach(&mut self, port: u16, isid: Isid, vid: Vid, mode: Mode) -> Result<(), NoMemory>
        requires made { self.old.blank ≡ false }
        requires can { self.old.view.failed ≡ false → CanAttach self.old.view (attachment_of port isid vid mode) }
        ensures view { OnOk result (self.new.view ≡ with_attachment (attachment_of port isid vid mode) self.old.view) }
        ensures memory { OnErr result (self.new.view.failed ≡ true) }
        ensures failed { self.old.view.failed ≡ true → IsErr result × (self.new.view ≡ self.old.view) }
        ensures still_made { self.new.blank ≡ false }
    {
        self.refuse_failed()?;
        give_back(
            &mut self.reading,
            self.shared.as_ref(),
            self.machine.id.system,
        );
        self.tables = None;
        let ended = self.machine.attach(Attachment {
            port,
            isid,
            vid,
            mode,
        });
        self.failed = ended.is_err();
        ended
    }

    /// Detaches a customer port that is attached, and forgets what was learned there.
    pub fn detach(&mut self, port: u16) -> Result<(), NoMemory>
        requires made { self.old.blank ≡ false }
        requires attached { self.old.view.failed ≡ false → IsAttachedPort self.old.view port }
        ensures view { OnOk result (self.new.view ≡ without_attachment port self.old.view) }
        ensures memory { OnErr result (self.new.view.failed ≡ true) }
        ensures failed { self.old.view.failed ≡ true → IsErr result × (self.new.view ≡ self.old.view) }
        ensures still_made { self.new.blank ≡ false }
    {
        self.refuse_failed()?;
        give_back(
            &mut self.reading,
            self.shared.as_ref(),
            self.machine.id.system,
        );
        self.tables = None;
        let ended = self.machine.detach(port);
        self.failed = ended.is_err();
        ended
    }

    /// The adjacency at a port.
    pub fn adjacent(&self, port: u8) -> Adjacency
        requires made { self.now.blank ≡ false }
        requires port { IsPort self.now.view port }
        ensures { Some result ≡ adjacency_at self.now.view port }
    {
        port_at(self.machine.ports.as_slice(), port).adjacency
    }

    /// Whether CSNPs are to be sent at a port at the next tick.
    pub fn due(&self, port: u8) -> bool
        requires made { self.now.blank ≡ false }
        requires port { IsPort self.now.view port }
        ensures { result ≡ is_csnp_due_at self.now.view port }
    {
        port_at(self.machine.ports.as_slice(), port).csnp_due
    }

    /// Whether an LSP is to be sent, acknowledged or asked for at any port (SRM and SSN), or CSNPs are due at one.
    pub fn has_flag(&self) -> bool
        requires { self.now.blank ≡ false }
        ensures { result ≡ has_flags self.now.view }
    {
        self.machine.db.has_flags() || self.machine.ports.iter().any(|port| port.csnp_due)
    }

    /// What is held at a place, counted from 0, in order of LSP id; None exactly past the last.
    pub fn entry(&self, place: usize) -> Option<&Held>
        requires { self.now.blank ≡ false }
        ensures { option_map keyed (option_copied result) ≡ entry_at self.now.view place }
    {
        self.machine.db.at(place)
    }

    /// How many frames were dropped for a reason, and for `Full` how many LSPs and entries of sequence numbers PDUs.
    pub fn drops(&self, reason: DropReason) -> u64
        requires { self.now.blank ≡ false }
        ensures { result ≡ count_of reason self.now.view.drops }
    {
        self.machine.drops.of(reason)
    }

    /// The tables of the bridge: a copy of those that are kept, or, where none are, made from the LSPs that it holds
    /// (IEEE 802.1aq, 8.8 and 28.10).
    pub fn tables(&self) -> Result<Tables, NoMemory>
        requires { self.now.blank ≡ false }
        ensures tables { IfOk result (λ t. t ≡ own_tables self.now.view) }
        ensures failed { self.now.view.failed ≡ true → IsErr result }
    {
        self.refuse_failed()?;
        match &self.tables {
            Some(kept) => copy_of(self.machine.alloc, kept),
            None => self.machine.tables(self.shared.as_ref()),
        }
    }

    /// The port by which frames to an address in a base VID leave, by those tables; None exactly where they have no row
    /// for both.
    pub fn unicast_port(&self, vid: Vid, mac: Mac) -> Result<Option<u8>, NoMemory>
        requires { self.now.blank ≡ false }
        ensures port { IfOk result (λ port. port ≡ unicast_in (own_tables self.now.view).unicast vid mac) }
        ensures failed { self.now.view.failed ≡ true → IsErr result }
    {
        self.refuse_failed()?;
        match &self.tables {
            Some(kept) => Ok(unicast_of(kept, vid, mac)),
            None => Ok(unicast_of(&self.machine.tables(self.shared.as_ref())?, vid, mac)),
        }
    }

    /// The ports by which frames to a group address in a base VID leave, by those tables; none where they have no row
    /// for both.
    pub fn group_ports(&self, vid: Vid, mac: Mac) -> Result<PortSet, NoMemory>
        requires { self.now.blank ≡ false }
        ensures ports { IfOk result (λ ports. ports ≡ group_in (own_tables self.now.view).group vid mac) }
        ensures failed { self.now.view.failed ≡ true → IsErr result }
    {
        self.refuse_failed()?;
        match &self.tables {
            Some(kept) => Ok(group_of(kept, vid, mac)),
            None => Ok(group_of(&self.machine.tables(self.shared.as_ref())?, vid, mac)),
        }
    }

    /// Keeps what paths in a base VID are read from, until the bridge rests or something changes.
    pub fn prepare_paths(&mut self, vid: Vid) -> Result<(), NoMemory>
        requires { self.old.blank ≡ false }
        ensures same { self.new ≡ self.old }
        ensures failed { self.old.view.failed ≡ true → IsErr result }
    {
        self.refuse_failed()?;
        self.machine
            .prepare_paths(&mut self.reading, self.shared.as_ref(), vid)
    }

    /// Gives what was kept for paths to the bridges that share it.
    pub fn rest(&mut self)
        ensures { self.new ≡ self.old }
    {
        give_back(
            &mut self.reading,
            self.shared.as_ref(),
            self.machine.id.system,
        );
    }

    /// For how many seconds it can be told that nothing would come to pass but that lifetimes fall, as long as each
    /// neighbour says hello in each of them; 0 where something would.
    pub fn calm_seconds(&self) -> u16
        requires { self.now.blank ≡ false }
        ensures { 1 ≤ result → IsCalmFor result self.now.view }
    {
        if self.failed {
            return 0;
        }
        self.machine.calm_seconds()
    }

    /// So many seconds pass in calm, with a hello of each neighbour in each of them, all at once. Takes no memory.
    pub fn pass_calm(&mut self, seconds: u16)
        requires made { self.old.blank ≡ false }
        requires calm { IsCalmFor seconds self.old.view }
        ensures view { self.new.view ≡ aged_by seconds self.old.view }
        ensures still_made { self.new.blank ≡ false }
    {
        give_back(
            &mut self.reading,
            self.shared.as_ref(),
            self.machine.id.system,
        );
        self.tables = None;
        self.machine.pass_calm(seconds);
    }

    /// The best path to a system in a base VID over the LSPs that the bridge holds, with its cost. None exactly where
    /// there is none, or the VID isn't configured (IEEE 802.1aq, 28.5 to 28.8).
    pub fn path(&self, to: SystemId, vid: Vid) -> Result<Option<Path>, NoMemory>
        requires { self.now.blank ≡ false }
        ensures path { IfOk result (λ path. path ≡ own_path self.now.view to vid) }
        ensures failed { self.now.view.failed ≡ true → IsErr result }
    {
        self.refuse_failed()?;
        self.machine
            .path(self.reading.as_ref(), self.shared.as_ref(), to, vid)
    }

    /// The id of the bridge.
    pub fn id(&self) -> BridgeId
        ensures { result ≡ self.now.view.id }
    {
        self.machine.id
    }

    /// The base VIDs of the bridge, with the numbers of their ECT algorithms. A bridge that works has sound ones.
    pub fn vids(&self) -> &[VidPlan]
        ensures vids { result.now ≡ self.now.view.vids }
        ensures plans { self.now.blank ≡ false → self.now.view.failed ≡ false → ArePlans result.now }
    {
        self.machine.vids.as_slice()
    }

    /// The graph of all that the bridge reads from the LSPs that it holds, in which its tables are made.
    pub fn graph(&self) -> Result<Graph, NoMemory>
        requires { self.now.blank ≡ false }
        ensures graph { IfOk result (λ g. g ≡ read_graph self.now.view) }
        ensures valid { IfOk result (λ g. IsValidFor g self.now.view.id.system) }
        ensures failed { self.now.view.failed ≡ true → IsErr result }
    {
        self.refuse_failed()?;
        self.machine.graph()
    }

    /// Whether tables and paths are asked of this bridge alone, again and again: it was the last of those that share what
    /// they read to use that, and reads something else now. So it is, too, where it shares nothing.
    pub fn is_asked_alone(&self) -> bool
        requires { self.now.blank ≡ false }
    {
        match &self.shared {
            None => true,
            Some(shared) => self.machine.has_changed_since(shared),
        }
    }

    /// The tables that are kept, if some are.
    pub fn kept_tables(&self) -> Option<&Tables>
        requires made { self.now.blank ≡ false }
        requires unfailed { self.now.view.failed ≡ false }
        ensures { IfSome result (λ t. t.now ≡ own_tables self.now.view) }
    {
        self.tables.as_ref()
    }

    /// Keeps these tables, which are those of the bridge, for the frames that come before anything changes them.
    pub fn keep_tables(&mut self, tables: Tables)
        requires made { self.old.blank ≡ false }
        requires own { tables ≡ own_tables self.old.view }
        ensures { self.new ≡ self.old }
    {
        self.tables = Some(tables);
    }

    /// Whether a frame that comes to a port is one that the bridge sends on by its tables.
    pub fn needs_tables(&self, port: u8, frame: &[u8]) -> bool
        requires made { self.now.blank ≡ false }
        requires port { IsPort self.now.view port }
        ensures { result ≡ (has_carrier_at self.now.view port && carries_customer frame.now) }
    {
        port_at(self.machine.ports.as_slice(), port)
            .adjacency
            .carrier
            && is_customer(frame)
    }

    /// Marks the control plane failed, as a call that found no memory does.
    pub fn fail(&mut self)
        requires { self.old.blank ≡ false }
        ensures view { self.new.view ≡ record self.old.view { failed = true } }
        ensures made { self.new.blank ≡ false }
    {
        self.failed = true;
    }
}
