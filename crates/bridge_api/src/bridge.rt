//! The trait that each implementation of a bridge has, and boxes of bridges, which have it too.
use crate::config::BridgeConfig;
use crate::kind::Kind;
use crate::outbox::Outbox;
use adjacency::Adjacency;
use lsdb::Held;
use spb_types::{DropReason, Isid, Mac, Mode, NoMemory, Path, PortSet, SystemId, Tables, Vid};

/// A bridge of the backbone, with its IS-IS control.
///
/// A bridge is blank until `configure` is called, and each call but `kind`, `is_blank`, `is_failed` and `configure`
/// has the condition that it isn't blank. A call that finds no memory leaves the bridge failed: from then on each call
/// that can answer `NoMemory` answers it and changes nothing. What else a failed bridge's view says isn't told, and
/// the outbox may have gained the first of that call's frames. A question that finds no memory, which `tables`,
/// `unicast_port`, `group_ports` and `path` can, leaves the bridge as it was.
pub trait Bridge: Drop {
    ghost use Rattle.std.specs.Prelude.{◌≡◌, ◌≤◌, true, false, IfOk, OnOk, OnErr, IsErr, Some};
    ghost use Rattle.std.specs.Option.{option_map, option_copied};
    ghost use Rattle.spb_types.specs.Tables.{unicast_in, group_in};
    ghost use Rattle.lsdb.specs.Database.{keyed};
    ghost use Rattle.bridge_api.specs.Shown.{Shown};
    ghost use Rattle.bridge_api.specs.View.{IsPort, is_csnp_due_at, adjacency_at, has_flags, entry_at};
    ghost use Rattle.bridge_api.specs.Drops.{count_of};
    ghost use Rattle.bridge_api.specs.Config.{IsWhole, IsMetric, configured};
    ghost use Rattle.bridge_api.specs.Customers.{IsCustomerFrame, after_entry, moved_by_entry, moved_by_receive};
    ghost use Rattle.bridge_api.specs.Hearing.{after_receive, with_carrier, with_metric};
    ghost use Rattle.bridge_api.specs.Services.{IsAttachedPort, IsSendingPort, CanAttach, attachment_of, with_attachment, without_attachment};
    ghost use Rattle.bridge_api.specs.Ticking.{after_tick, sent_in_tick};
    ghost use Rattle.bridge_api.specs.Step.{with_wire, with_moved, Gains, GainsMoved};
    ghost use Rattle.bridge_api.specs.Graph.{own_tables, own_path};
    ghost use Rattle.bridge_api.specs.Calm.{IsCalmFor, aged_by};

    /// What is seen of the box: its kind, whether it is blank, and the bridge in it.
    ghost shown: { Self → Shown };

    /// The kind of this implementation.
    fn kind(&self) -> Kind
        ensures { result ≡ (shown self.now).kind };

    /// Whether `configure` was never called.
    fn is_blank(&self) -> bool
        ensures { result ≡ (shown self.now).blank };

    /// Whether a call answered `NoMemory`. A blank bridge isn't failed.
    fn is_failed(&self) -> bool
        ensures failed { result ≡ (shown self.now).view.failed }
        ensures made { result ≡ true → (shown self.now).blank ≡ false };

    /// Makes the blank bridge that of a whole configuration. Each of its own LSPs begins above the number that it had in
    /// the life before, and there is no carrier afterwards.
    fn configure(&mut self, config: &BridgeConfig) -> Result<(), NoMemory>
        requires blank { (shown self.old).blank ≡ true }
        requires whole { IsWhole config.now }
        ensures view { OnOk result ((shown self.new).view ≡ configured config.now) }
        ensures memory { OnErr result ((shown self.new).view.failed ≡ true) }
        ensures made { (shown self.new).blank ≡ false }
        ensures kind { (shown self.new).kind ≡ (shown self.old).kind };

    /// A second passes, in four steps (ISO/IEC 10589, 7.3.15 and 7.3.16). The holding counts fall, and at 0 a port goes
    /// Down. The lifetimes of what is held fall, and at 0 an LSP is dead and is sent at every Up port. The bridge goes
    /// over its own LSPs by number: it originates each in which it has something else to say, or that has a lifetime of
    /// 300 or less, once for both, and purges each in which it has nothing to say any more. Then it sends at each port
    /// with carrier, in ascending order, a hello, and at an Up one the CSNPs if they are due, the LSPs with SRM there,
    /// and PSNPs of those with SSN there.
    fn tick(&mut self, outbox: &mut Outbox) -> Result<(), NoMemory>
        requires { (shown self.old).blank ≡ false }
        ensures view { OnOk result ((shown self.new).view ≡ after_tick (shown self.old).view) }
        ensures sent { OnOk result (outbox.new ≡ with_wire (sent_in_tick (shown self.old).view) outbox.old) }
        ensures memory { OnErr result ((shown self.new).view.failed ≡ true) }
        ensures gained { OnErr result (Gains (sent_in_tick (shown self.old).view) outbox.old outbox.new) }
        ensures failed { (shown self.old).view.failed ≡ true →
            IsErr result × ((shown self.new).view ≡ (shown self.old).view) × (outbox.new ≡ outbox.old) }
        ensures made { (shown self.new).blank ≡ false }
        ensures kind { (shown self.new).kind ≡ (shown self.old).kind };

    /// Hears a frame, which may be any bytes, at a port. A frame of no use, or at a port without carrier, is dropped:
    /// this raises one count (`DropReason`) and changes nothing else. A hello moves the adjacency (RFC 5303, 3.2):
    /// where the port leaves Up its flags are cleared, and where it enters Up every LSP is to be sent there and CSNPs
    /// are due. LSPs and sequence numbers PDUs are heard only at a port that is Up (ISO/IEC 10589, 7.3.15). What finds
    /// no place in the database is counted as `Full`, each entry for itself, and the rest is heard. Afterwards the
    /// bridge originates if it has something else to say.
    ///
    /// A backbone frame that comes by the port that leads to its source is relayed and delivered by the bridge's
    /// tables, at customer ports that receive, and where it is delivered the bridge learns its customer's source
    /// (IEEE 802.1ah, 25; IEEE 802.1aq).
    fn receive(&mut self, port: u8, frame: &[u8], outbox: &mut Outbox) -> Result<(), NoMemory>
        requires made { (shown self.old).blank ≡ false }
        requires port { (shown self.old).view.failed ≡ false → IsPort (shown self.old).view port }
        ensures view { OnOk result ((shown self.new).view ≡ after_receive port frame.now (shown self.old).view) }
        ensures sent { OnOk result
            (outbox.new ≡ with_moved (moved_by_receive port frame.now (shown self.old).view) outbox.old) }
        ensures memory { OnErr result ((shown self.new).view.failed ≡ true) }
        ensures gained { OnErr result
            (GainsMoved (moved_by_receive port frame.now (shown self.old).view) outbox.old outbox.new) }
        ensures failed { (shown self.old).view.failed ≡ true →
            IsErr result × ((shown self.new).view ≡ (shown self.old).view) × (outbox.new ≡ outbox.old) }
        ensures still_made { (shown self.new).blank ≡ false }
        ensures kind { (shown self.new).kind ≡ (shown self.old).kind };

    /// A customer's frame, of 14 to 2,000 bytes, enters at a customer port that is attached and sends. The bridge learns
    /// where its source is, if that is an individual address, and then sends it on towards its destination: at another
    /// customer port, in a backbone frame to another bridge, or, where the destination is a group address or isn't
    /// known, at all other ports of its I-SID and to the group address of the own source and the I-SID (IEEE 802.1Q,
    /// 8.6 to 8.8; IEEE 802.1ah, 25). It leaves at no port that only sends. Where no port leads to the other bridge it
    /// is dropped, and counted as `NoWay`.
    fn customer(&mut self, port: u16, frame: &[u8], outbox: &mut Outbox) -> Result<(), NoMemory>
        requires made { (shown self.old).blank ≡ false }
        requires sending { (shown self.old).view.failed ≡ false → IsSendingPort (shown self.old).view port }
        requires frame { IsCustomerFrame frame.now }
        ensures view { OnOk result ((shown self.new).view ≡ after_entry port frame.now (shown self.old).view) }
        ensures sent { OnOk result
            (outbox.new ≡ with_moved (moved_by_entry port frame.now (shown self.old).view) outbox.old) }
        ensures memory { OnErr result ((shown self.new).view.failed ≡ true) }
        ensures gained { OnErr result
            (GainsMoved (moved_by_entry port frame.now (shown self.old).view) outbox.old outbox.new) }
        ensures failed { (shown self.old).view.failed ≡ true →
            IsErr result × ((shown self.new).view ≡ (shown self.old).view) × (outbox.new ≡ outbox.old) }
        ensures still_made { (shown self.new).blank ≡ false }
        ensures kind { (shown self.new).kind ≡ (shown self.old).kind };

    /// Carrier comes or goes at a port. Where it goes, the port is Down and its flags are cleared; the bridge
    /// originates if it has something else to say.
    fn carrier(&mut self, port: u8, on: bool) -> Result<(), NoMemory>
        requires made { (shown self.old).blank ≡ false }
        requires port { (shown self.old).view.failed ≡ false → IsPort (shown self.old).view port }
        ensures view { OnOk result ((shown self.new).view ≡ with_carrier port on (shown self.old).view) }
        ensures memory { OnErr result ((shown self.new).view.failed ≡ true) }
        ensures failed { (shown self.old).view.failed ≡ true →
            IsErr result × ((shown self.new).view ≡ (shown self.old).view) }
        ensures still_made { (shown self.new).blank ≡ false }
        ensures kind { (shown self.new).kind ≡ (shown self.old).kind };

    /// Sets the metric of the link at a port, from 1 to 16,777,214 (RFC 5305, 3). The bridge originates if it has
    /// something else to say.
    fn set_metric(&mut self, port: u8, metric: u32) -> Result<(), NoMemory>
        requires made { (shown self.old).blank ≡ false }
        requires port { (shown self.old).view.failed ≡ false → IsPort (shown self.old).view port }
        requires metric { IsMetric metric }
        ensures view { OnOk result ((shown self.new).view ≡ with_metric port metric (shown self.old).view) }
        ensures memory { OnErr result ((shown self.new).view.failed ≡ true) }
        ensures failed { (shown self.old).view.failed ≡ true →
            IsErr result × ((shown self.new).view ≡ (shown self.old).view) }
        ensures still_made { (shown self.new).blank ≡ false }
        ensures kind { (shown self.new).kind ≡ (shown self.old).kind };

    /// Attaches a customer port to a service, an I-SID in a base VID (IEEE 802.1ah, 25.10), in which it sends, receives,
    /// or does both. The port is free and 1 to 1,024; the I-SID is 1 to 16,777,215; the VID is one of the bridge, and
    /// that of the other ports of the I-SID; and there are at most 960 I-SIDs afterwards. The bridge originates each of
    /// its own LSPs in which it has something else to say.
    fn attach(&mut self, port: u16, isid: Isid, vid: Vid, mode: Mode) -> Result<(), NoMemory>
        requires made { (shown self.old).blank ≡ false }
        requires can { (shown self.old).view.failed ≡ false →
            CanAttach (shown self.old).view (attachment_of port isid vid mode) }
        ensures view { OnOk result
            ((shown self.new).view ≡ with_attachment (attachment_of port isid vid mode) (shown self.old).view) }
        ensures memory { OnErr result ((shown self.new).view.failed ≡ true) }
        ensures failed { (shown self.old).view.failed ≡ true →
            IsErr result × ((shown self.new).view ≡ (shown self.old).view) }
        ensures still_made { (shown self.new).blank ≡ false }
        ensures kind { (shown self.new).kind ≡ (shown self.old).kind };

    /// Detaches a customer port that is attached. What was learned there is forgotten, and all that was learned in its
    /// I-SID where it was the last port of this (IEEE 802.1Q, 8.7). The bridge brings its own LSPs up to date: it
    /// originates each in which it has something else to say, and purges each in which it has nothing to say any more.
    fn detach(&mut self, port: u16) -> Result<(), NoMemory>
        requires made { (shown self.old).blank ≡ false }
        requires attached { (shown self.old).view.failed ≡ false → IsAttachedPort (shown self.old).view port }
        ensures view { OnOk result ((shown self.new).view ≡ without_attachment port (shown self.old).view) }
        ensures memory { OnErr result ((shown self.new).view.failed ≡ true) }
        ensures failed { (shown self.old).view.failed ≡ true →
            IsErr result × ((shown self.new).view ≡ (shown self.old).view) }
        ensures still_made { (shown self.new).blank ≡ false }
        ensures kind { (shown self.new).kind ≡ (shown self.old).kind };

    /// The adjacency at a port.
    fn adjacent(&self, port: u8) -> Adjacency
        requires made { (shown self.now).blank ≡ false }
        requires port { IsPort (shown self.now).view port }
        ensures { Some result ≡ adjacency_at (shown self.now).view port };

    /// Whether CSNPs are to be sent at a port at the next tick.
    fn due(&self, port: u8) -> bool
        requires made { (shown self.now).blank ≡ false }
        requires port { IsPort (shown self.now).view port }
        ensures { result ≡ is_csnp_due_at (shown self.now).view port };

    /// Whether an LSP is to be sent, acknowledged or asked for at any port (SRM and SSN), or CSNPs are due at one.
    fn has_flag(&self) -> bool
        requires { (shown self.now).blank ≡ false }
        ensures { result ≡ has_flags (shown self.now).view };

    /// What is held at a place, counted from 0, in order of LSP id; None exactly past the last.
    fn entry(&self, place: usize) -> Option<&Held>
        requires { (shown self.now).blank ≡ false }
        ensures { option_map keyed (option_copied result) ≡ entry_at (shown self.now).view place };

    /// How many frames were dropped for a reason, and for `Full` how many LSPs and entries of sequence numbers PDUs. It
    /// stops at the greatest `u64`.
    fn drops(&self, reason: DropReason) -> u64
        requires { (shown self.now).blank ≡ false }
        ensures { result ≡ count_of reason (shown self.now).view.drops };

    /// The tables of the bridge over the LSPs that it holds, by ascending VID and address (IEEE 802.1aq, 8.8 and 28.10):
    /// for each of its base VIDs and each other bridge that it reaches, the port towards that bridge; and for each group
    /// address of a member that sends to a service, the ports by which it sends on towards the other members that
    /// receive. It answers `NoMemory` where it finds none, and where the bridge is failed.
    fn tables(&self) -> Result<Tables, NoMemory>
        requires { (shown self.now).blank ≡ false }
        ensures tables { IfOk result (λ t. t ≡ own_tables (shown self.now).view) }
        ensures failed { (shown self.now).view.failed ≡ true → IsErr result };

    /// The port by which frames to an address in a base VID leave, by the tables of the bridge; None exactly where they
    /// have no row for both (IEEE 802.1aq, 8.8). It answers `NoMemory` where it finds none, and where the bridge is
    /// failed.
    fn unicast_port(&self, vid: Vid, mac: Mac) -> Result<Option<u8>, NoMemory>
        requires { (shown self.now).blank ≡ false }
        ensures port { IfOk result (λ port.
            port ≡ unicast_in (own_tables (shown self.now).view).unicast vid mac) }
        ensures failed { (shown self.now).view.failed ≡ true → IsErr result };

    /// The ports by which frames to a group address in a base VID leave, by the tables of the bridge; none where they
    /// have no row for both (IEEE 802.1aq, 8.8). It answers `NoMemory` where it finds none, and where the bridge is
    /// failed.
    fn group_ports(&self, vid: Vid, mac: Mac) -> Result<PortSet, NoMemory>
        requires { (shown self.now).blank ≡ false }
        ensures ports { IfOk result (λ ports.
            ports ≡ group_in (own_tables (shown self.now).view).group vid mac) }
        ensures failed { (shown self.now).view.failed ≡ true → IsErr result };

    /// The best path to a system in a base VID over the LSPs that the bridge holds, with its cost, from this bridge on
    /// (IEEE 802.1aq, 28.5 to 28.8). None exactly where there is no path, or the VID isn't one of the bridge. The path
    /// to itself has cost 0 and one bridge. It answers `NoMemory` where it finds none, and where the bridge is failed.
    fn path(&self, to: SystemId, vid: Vid) -> Result<Option<Path>, NoMemory>
        requires { (shown self.now).blank ≡ false }
        ensures path { IfOk result (λ path. path ≡ own_path (shown self.now).view to vid) }
        ensures failed { (shown self.now).view.failed ≡ true → IsErr result };

    /// Paths in a base VID are asked of this bridge: it may keep what they are read from until it rests. It stays as it
    /// is, whether it answers `NoMemory` or not.
    fn prepare_paths(&mut self, _vid: Vid) -> Result<(), NoMemory>
        requires { (shown self.old).blank ≡ false }
        ensures { shown self.new ≡ shown self.old }
    {
        Ok(())
    }

    /// Other bridges are asked now, which may use what this one kept. It stays as it is.
    fn rest(&mut self)
        ensures { shown self.new ≡ shown self.old }
    {}

    /// For how many seconds the bridge can tell that nothing would come to pass at it but that lifetimes fall, as long
    /// as each of its neighbours says hello in each of them. It answers 0 where something would, and where it can't tell.
    fn calm_seconds(&self) -> u16
        requires { (shown self.now).blank ≡ false }
        ensures { 1 ≤ result → IsCalmFor result (shown self.now).view }
    {
        0
    }

    /// So many seconds pass in calm, with a hello of each neighbour in each of them, all at once. After `NoMemory` the
    /// bridge is as it was. A bridge that can't do so answers that; it isn't called where `calm_seconds` answers 0.
    fn pass_calm(&mut self, _seconds: u16) -> Result<(), NoMemory>
        requires made { (shown self.old).blank ≡ false }
        requires calm { IsCalmFor _seconds (shown self.old).view }
        ensures view { OnOk result ((shown self.new).view ≡ aged_by _seconds (shown self.old).view) }
        ensures memory { OnErr result (shown self.new ≡ shown self.old) }
        ensures still_made { (shown self.new).blank ≡ false }
        ensures kind { (shown self.new).kind ≡ (shown self.old).kind }
    {
        Err(NoMemory)
    }
}

impl Bridge for Box<dyn Bridge> {
    ghost shown = { λ b. (Bridge-box b).shown b.value };

    fn kind(&self) -> Kind {
        (**self).kind()
    }

    fn is_blank(&self) -> bool {
        (**self).is_blank()
    }

    fn is_failed(&self) -> bool {
        (**self).is_failed()
    }

    fn configure(&mut self, config: &BridgeConfig) -> Result<(), NoMemory> {
        (**self).configure(config)
    }

    fn tick(&mut self, outbox: &mut Outbox) -> Result<(), NoMemory> {
        (**self).tick(outbox)
    }

    fn receive(&mut self, port: u8, frame: &[u8], outbox: &mut Outbox) -> Result<(), NoMemory> {
        (**self).receive(port, frame, outbox)
    }

    fn customer(&mut self, port: u16, frame: &[u8], outbox: &mut Outbox) -> Result<(), NoMemory> {
        (**self).customer(port, frame, outbox)
    }

    fn carrier(&mut self, port: u8, on: bool) -> Result<(), NoMemory> {
        (**self).carrier(port, on)
    }

    fn set_metric(&mut self, port: u8, metric: u32) -> Result<(), NoMemory> {
        (**self).set_metric(port, metric)
    }

    fn attach(&mut self, port: u16, isid: Isid, vid: Vid, mode: Mode) -> Result<(), NoMemory> {
        (**self).attach(port, isid, vid, mode)
    }

    fn detach(&mut self, port: u16) -> Result<(), NoMemory> {
        (**self).detach(port)
    }

    fn adjacent(&self, port: u8) -> Adjacency {
        (**self).adjacent(port)
    }

    fn due(&self, port: u8) -> bool {
        (**self).due(port)
    }

    fn has_flag(&self) -> bool {
        (**self).has_flag()
    }

    fn entry(&self, place: usize) -> Option<&Held> {
        (**self).entry(place)
    }

    fn drops(&self, reason: DropReason) -> u64 {
        (**self).drops(reason)
    }

    fn tables(&self) -> Result<Tables, NoMemory> {
        (**self).tables()
    }

    fn unicast_port(&self, vid: Vid, mac: Mac) -> Result<Option<u8>, NoMemory> {
        (**self).unicast_port(vid, mac)
    }

    fn group_ports(&self, vid: Vid, mac: Mac) -> Result<PortSet, NoMemory> {
        (**self).group_ports(vid, mac)
    }

    fn path(&self, to: SystemId, vid: Vid) -> Result<Option<Path>, NoMemory> {
        (**self).path(to, vid)
    }

    fn prepare_paths(&mut self, vid: Vid) -> Result<(), NoMemory> {
        (**self).prepare_paths(vid)
    }

    fn rest(&mut self) {
        (**self).rest();
    }

    fn calm_seconds(&self) -> u16 {
        (**self).calm_seconds()
    }

    fn pass_calm(&mut self, seconds: u16) -> Result<(), NoMemory> {
        (**self).pass_calm(seconds)
    }
}
