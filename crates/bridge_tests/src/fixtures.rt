//! What the tests of both kinds share: A and B, each with one port, at the two ends of a link.
ghost use Rattle.std.specs.Prelude.{◌≡◌, ◌≤◌, true, false, length, IfOk, OnOk};
ghost use Rattle.bridge_api.specs.Config.{IsMetric, IsWhole};

use adjacency::Adjacency;
use bridge_api::{Bridge, BridgeConfig, Outbox, first_life};
use lsdb::Version;
use spb_types::{
    Attachment, BridgeId, Isid, Mac, Mode, NoMemory, Seq, SourceId, SystemId, Vid, VidPlan,
};
use std::alloc::Global;
use std::fmt::Debug;
use std::process::Abort;

/// Asserts that these are equal. An assertion is proved once here, and not at each type.
pub(crate) fn are_equal<T: PartialEq + Debug>(rt: &impl Abort, found: &T, want: &T) {
    assert_eq!(*rt; found, want);
}

/// A blank plain bridge in a box.
macro_rules! boxed {
    ($rt:expr) => {{
        let blank = plain_bridge::PlainBridge::blank($rt.alloc());
        let boxed: Box<dyn bridge_api::Bridge> =
            Box::new($rt.alloc(), blank).expect(&$rt, "out of memory");
        boxed
    }};
}

pub(crate) use boxed;

/// The header of a dead LSP of the system 3, which is taken whatever its id, as a frame from B.
pub(crate) const DEAD: &[u8] = b"\
    \x01\x80\xc2\x00\x00\x14\x02\x00\x00\x00\x00\x02\x00\x1e\xfe\xfe\x03\x83\x1b\x01\x00\x12\x01\x00\
    \x00\x00\x1b\x00\x00\x02\x00\x00\x00\x00\x03\x00\x00\x00\x00\x00\x01\x00\x00\x01";

/// An LSP of A at number 9 that says nothing, as a frame from B.
pub(crate) const OLD_LSP: &[u8] = b"\
    \x01\x80\xc2\x00\x00\x14\x02\x00\x00\x00\x00\x02\x00\x1e\xfe\xfe\x03\x83\x1b\x01\x00\x12\x01\x00\
    \x00\x00\x1b\x03\xe8\x02\x00\x00\x00\x00\x01\x00\x00\x00\x00\x00\x09\xcc\x26\x01";

/// The configuration of a bridge with one port. Its address ends in this number, which is its source too.
macro_rules! one_port {
    ($number:expr, $vids:expr, $metrics:expr, $attached:expr, $last:expr) => {
        BridgeConfig {
            id: BridgeId {
                priority: 32768,
                system: SystemId {
                    mac: Mac {
                        bytes: [2, 0, 0, 0, 0, $number],
                    },
                },
            },
            source: SourceId {
                value: u32::from($number),
            },
            ports: 1,
            vids: $vids,
            metrics: $metrics,
            attached: $attached,
            last: $last,
        }
    };
}

pub(crate) use one_port;

/// The configuration of a bridge with one port and no VID.
fn config(alloc: Global, last: u8) -> Result<BridgeConfig, NoMemory>
    ensures whole { IfOk result IsWhole }
    ensures port { IfOk result (λ c. c.ports ≡ 1) }
{
    let mut metrics = Seq::new(alloc);
    metrics.push(10)?;
    let lives = first_life(alloc)?;
    let config = one_port!(last, Seq::new(alloc), metrics, Seq::new(alloc), lives);
    Ok(config)
}

/// The same with the VID 10 under the ECT algorithm 1.
fn config_in_vid_10(alloc: Global, last: u8) -> Result<BridgeConfig, NoMemory>
    ensures whole { IfOk result IsWhole }
    ensures port { IfOk result (λ c. c.ports ≡ 1) }
{
    let mut metrics = Seq::new(alloc);
    metrics.push(10)?;
    let mut vids = Seq::new(alloc);
    vids.push(VidPlan {
        vid: Vid { value: 10 },
        ect: 1,
    })?;
    let lives = first_life(alloc)?;
    let config = one_port!(last, vids, metrics, Seq::new(alloc), lives);
    Ok(config)
}

/// The configuration of a bridge with two ports and no VID.
fn config_of_two_ports(alloc: Global, last: u8) -> Result<BridgeConfig, NoMemory>
    ensures whole { IfOk result IsWhole }
    ensures ports { IfOk result (λ c. c.ports ≡ 2) }
{
    let mut metrics = Seq::new(alloc);
    metrics.push(10)?;
    metrics.push(10)?;
    let lives = first_life(alloc)?;
    let mut config = one_port!(last, Seq::new(alloc), metrics, Seq::new(alloc), lives);
    config.ports = 2;
    Ok(config)
}

/// The configuration of a bridge with two ports in the VID 10, whose customer port 1 is attached to the I-SID 100.
fn config_of_member(alloc: Global, last: u8) -> Result<BridgeConfig, NoMemory>
    ensures whole { IfOk result IsWhole }
    ensures ports { IfOk result (λ c. c.ports ≡ 2) }
{
    let vid = Vid { value: 10 };
    let mut metrics = Seq::new(alloc);
    metrics.push(10)?;
    metrics.push(10)?;
    let mut vids = Seq::new(alloc);
    vids.push(VidPlan { vid, ect: 1 })?;
    let mut attached = Seq::new(alloc);
    attached.push(Attachment {
        port: 1,
        isid: Isid { value: 100 },
        vid,
        mode: Mode::Both,
    })?;
    let lives = first_life(alloc)?;
    let mut config = one_port!(last, vids, metrics, attached, lives);
    config.ports = 2;
    Ok(config)
}

/// Makes a blank bridge that of a configuration with one port or more, with carrier at the first.
fn make_of<B: Bridge>(bridge: &mut B, config: &BridgeConfig) -> Result<(), NoMemory>
    requires blank { (B.shown bridge.old).blank ≡ true }
    requires whole { IsWhole config.now }
    requires port { 1 ≤ config.now.ports }
    ensures made { OnOk result ((B.shown bridge.new).blank ≡ false) }
    ensures ports { OnOk result (length (B.shown bridge.new).view.ports ≡ config.now.ports) }
{
    bridge.configure(config)?;
    bridge.carrier(1, true)
}

/// A second passes. The bridge stays made, with as many ports.
fn ticked<B: Bridge>(bridge: &mut B, outbox: &mut Outbox) -> Result<(), NoMemory>
    requires { (B.shown bridge.old).blank ≡ false }
    ensures still_made { (B.shown bridge.new).blank ≡ false }
    ensures still_ports { OnOk result (length (B.shown bridge.new).view.ports ≡ length (B.shown bridge.old).view.ports) }
{
    bridge.tick(outbox)
}

/// The same, with memory.
fn tick<B: Bridge>(rt: &impl Abort, bridge: &mut B, outbox: &mut Outbox)
    requires { (B.shown bridge.old).blank ≡ false }
    ensures still_made { (B.shown bridge.new).blank ≡ false }
    ensures still_ports { length (B.shown bridge.new).view.ports ≡ length (B.shown bridge.old).view.ports }
{
    match ticked(bridge, outbox) {
        Ok(()) => {}
        Err(_) => panic!(*rt; "out of memory"),
    }
}

/// A frame comes to a port. The bridge stays made, with as many ports.
fn heard<B: Bridge>(
    bridge: &mut B,
    port: u8,
    frame: &[u8],
    outbox: &mut Outbox,
) -> Result<(), NoMemory>
    requires made { (B.shown bridge.old).blank ≡ false }
    requires low { 1 ≤ port }
    requires high { port ≤ length (B.shown bridge.old).view.ports }
    ensures still_made { (B.shown bridge.new).blank ≡ false }
    ensures still_ports { OnOk result (length (B.shown bridge.new).view.ports ≡ length (B.shown bridge.old).view.ports) }
{
    bridge.receive(port, frame, outbox)
}

/// The same, with memory.
fn hear<B: Bridge>(rt: &impl Abort, bridge: &mut B, port: u8, frame: &[u8], outbox: &mut Outbox)
    requires made { (B.shown bridge.old).blank ≡ false }
    requires low { 1 ≤ port }
    requires high { port ≤ length (B.shown bridge.old).view.ports }
    ensures still_made { (B.shown bridge.new).blank ≡ false }
    ensures still_ports { length (B.shown bridge.new).view.ports ≡ length (B.shown bridge.old).view.ports }
{
    match heard(bridge, port, frame, outbox) {
        Ok(()) => {}
        Err(_) => panic!(*rt; "out of memory"),
    }
}

/// Carrier comes at a port. The bridge stays made, with as many ports.
fn carrier_set<B: Bridge>(bridge: &mut B, port: u8) -> Result<(), NoMemory>
    requires made { (B.shown bridge.old).blank ≡ false }
    requires low { 1 ≤ port }
    requires high { port ≤ length (B.shown bridge.old).view.ports }
    ensures still_made { (B.shown bridge.new).blank ≡ false }
    ensures still_ports { OnOk result (length (B.shown bridge.new).view.ports ≡ length (B.shown bridge.old).view.ports) }
{
    bridge.carrier(port, true)
}

/// The same, with memory.
fn set_carrier<B: Bridge>(rt: &impl Abort, bridge: &mut B, port: u8)
    requires made { (B.shown bridge.old).blank ≡ false }
    requires low { 1 ≤ port }
    requires high { port ≤ length (B.shown bridge.old).view.ports }
    ensures still_made { (B.shown bridge.new).blank ≡ false }
    ensures still_ports { length (B.shown bridge.new).view.ports ≡ length (B.shown bridge.old).view.ports }
{
    match carrier_set(bridge, port) {
        Ok(()) => {}
        Err(_) => panic!(*rt; "out of memory"),
    }
}

/// The metric of the link at the port 1 is set. The bridge stays made, with as many ports.
fn metric_set<B: Bridge>(bridge: &mut B, metric: u32) -> Result<(), NoMemory>
    requires made { (B.shown bridge.old).blank ≡ false }
    requires port { 1 ≤ length (B.shown bridge.old).view.ports }
    requires metric { IsMetric metric }
    ensures still_made { (B.shown bridge.new).blank ≡ false }
    ensures still_ports { OnOk result (length (B.shown bridge.new).view.ports ≡ length (B.shown bridge.old).view.ports) }
{
    bridge.set_metric(1, metric)
}

/// The same, with memory.
fn set_metric<B: Bridge>(rt: &impl Abort, bridge: &mut B, metric: u32)
    requires made { (B.shown bridge.old).blank ≡ false }
    requires port { 1 ≤ length (B.shown bridge.old).view.ports }
    requires metric { IsMetric metric }
    ensures still_made { (B.shown bridge.new).blank ≡ false }
    ensures still_ports { length (B.shown bridge.new).view.ports ≡ length (B.shown bridge.old).view.ports }
{
    match metric_set(bridge, metric) {
        Ok(()) => {}
        Err(_) => panic!(*rt; "out of memory"),
    }
}

/// A bridge that was configured, with one port or more. What it is called with has no conditions here.
#[derive(Drop)]
pub(crate) struct Made<B: Bridge> {
    alloc: Global,
    pub(crate) bridge: B,
    ports: u8,
    ghost made: { (B.shown bridge).blank ≡ false },
    ghost shown_ports: { length (B.shown bridge).view.ports ≡ ports },
    ghost some: { 1 ≤ ports },
}

impl<B: Bridge> Made<B> {
    /// A blank bridge becomes that of a configuration, with carrier at the port 1.
    pub(crate) fn of(rt: &impl Abort, alloc: Global, blank: B, config: &BridgeConfig) -> Self
        requires blank { (B.shown blank).blank ≡ true }
        requires whole { IsWhole config.now }
        requires port { 1 ≤ config.now.ports }
    {
        let mut bridge = blank;
        match make_of(&mut bridge, config) {
            Ok(()) => Made {
                alloc,
                bridge,
                ports: config.ports,
            },
            Err(_) => panic!(*rt; "out of memory"),
        }
    }

    /// A blank bridge becomes one with one port and no VID. Its address ends in this number.
    pub(crate) fn new(rt: &impl Abort, alloc: Global, blank: B, last: u8) -> Self
        requires { (B.shown blank).blank ≡ true }
    {
        let config = config(alloc, last).expect(rt, "out of memory");
        Self::of(rt, alloc, blank, &config)
    }

    /// The same in the VID 10.
    pub(crate) fn in_vid_10(rt: &impl Abort, alloc: Global, blank: B, last: u8) -> Self
        requires { (B.shown blank).blank ≡ true }
    {
        let config = config_in_vid_10(alloc, last).expect(rt, "out of memory");
        Self::of(rt, alloc, blank, &config)
    }

    /// The same with two ports and no VID.
    pub(crate) fn of_two_ports(rt: &impl Abort, alloc: Global, blank: B, last: u8) -> Self
        requires { (B.shown blank).blank ≡ true }
    {
        let config = config_of_two_ports(alloc, last).expect(rt, "out of memory");
        Self::of(rt, alloc, blank, &config)
    }

    /// One with two ports in the VID 10, whose customer port 1 is attached to the I-SID 100.
    pub(crate) fn of_member(rt: &impl Abort, alloc: Global, blank: B, last: u8) -> Self
        requires { (B.shown blank).blank ≡ true }
    {
        let config = config_of_member(alloc, last).expect(rt, "out of memory");
        Self::of(rt, alloc, blank, &config)
    }

    /// A bridge with one port that was made elsewhere.
    pub(crate) fn of_one_port(alloc: Global, bridge: B) -> Self
        requires made { (B.shown bridge).blank ≡ false }
        requires port { length (B.shown bridge).view.ports ≡ 1 }
    {
        Made {
            alloc,
            bridge,
            ports: 1,
        }
    }

    /// What is sent as a second passes.
    pub(crate) fn tick(&mut self, rt: &impl Abort) -> Outbox {
        let mut outbox = Outbox::new(self.alloc);
        tick(rt, &mut self.bridge, &mut outbox);
        outbox
    }

    /// What is sent as a frame comes to a port.
    pub(crate) fn hear_at(&mut self, rt: &impl Abort, port: u8, frame: &[u8]) -> Outbox {
        assert!(*rt; 1 <= port && port <= self.ports);
        let mut outbox = Outbox::new(self.alloc);
        hear(rt, &mut self.bridge, port, frame, &mut outbox);
        outbox
    }

    /// The same at the port 1.
    pub(crate) fn hear(&mut self, rt: &impl Abort, frame: &[u8]) -> Outbox {
        self.hear_at(rt, 1, frame)
    }

    /// Carrier comes at a port.
    pub(crate) fn carrier_at(&mut self, rt: &impl Abort, port: u8) {
        assert!(*rt; 1 <= port && port <= self.ports);
        set_carrier(rt, &mut self.bridge, port);
    }

    /// Sets the metric of the link at the port 1.
    pub(crate) fn set_metric(&mut self, rt: &impl Abort, metric: u32)
        requires { IsMetric metric }
    {
        set_metric(rt, &mut self.bridge, metric);
    }

    /// A second passes, and all that is sent comes to a port of another.
    pub(crate) fn tick_to_port(&mut self, rt: &impl Abort, to: &mut Self, port: u8) {
        let outbox = self.tick(rt);
        for sent in outbox.wire.as_slice() {
            to.hear_at(rt, port, sent.1.as_slice());
        }
    }

    /// The same at the port 1.
    pub(crate) fn tick_to(&mut self, rt: &impl Abort, to: &mut Self) {
        self.tick_to_port(rt, to, 1);
    }

    /// Seconds pass, and what is sent is lost.
    pub(crate) fn pass(&mut self, rt: &impl Abort, seconds: u16) {
        for _ in 0..seconds {
            self.tick(rt);
        }
    }

    /// The adjacency at the port 1, whether CSNPs are due there, and whether there is a flag.
    pub(crate) fn seen(&self) -> (Adjacency, bool, bool) {
        let bridge = &self.bridge;
        (bridge.adjacent(1), bridge.due(1), bridge.has_flag())
    }

    /// The version and the lifetime that are held at a place.
    pub(crate) fn held_at(&self, place: usize) -> (Version, u16) {
        match self.bridge.entry(place) {
            Some(held) => (held.version, held.lifetime),
            None => (Version::Absent, 0),
        }
    }

    /// Whether what is held at a place is to be sent at the port 1, and is to be acknowledged or asked for there.
    pub(crate) fn flags_at(&self, place: usize) -> (bool, bool) {
        match self.bridge.entry(place) {
            Some(held) => (held.srm.has(1), held.ssn.has(1)),
            None => (false, false),
        }
    }
}

/// Seconds pass at both, and each hears what the other sends.
pub(crate) fn meet<B: Bridge>(rt: &impl Abort, a: &mut Made<B>, b: &mut Made<B>, rounds: u8) {
    for _ in 0..rounds {
        a.tick_to(rt, b);
        b.tick_to(rt, a);
    }
}

/// The bytes, with others at some places.
pub(crate) fn changed(
    rt: &impl Abort,
    alloc: Global,
    bytes: &[u8],
    changes: &[(usize, u8)],
) -> Vec<u8> {
    let mut changed = Vec::from_slice(alloc, bytes).expect(rt, "out of memory");
    for (place, byte) in changes {
        if let Some(other) = changed.get_mut(*place) {
            *other = *byte;
        }
    }
    changed
}
