//! What the tests of fragments share: bridges with one port, of many services in the VID 10.
ghost use Rattle.std.specs.Prelude.{◌≡◌, ◌≤◌, ◌<◌, ◌+◌, ◌∷◌, [], true, false, length, map, IfOk, OnOk};
ghost use Rattle.std.specs.List.{AllByRecursion};
ghost use Rattle.flooding.specs.Own.{last_number, own_numbers};
ghost use Rattle.bridge_api.specs.Config.{ArePairwise, AgreesWith, IsAttachment, IsMetric, IsWhole, different, vids_of};
ghost use Rattle.bridge_tests.specs.Services.{IsKept, IsServing};
ghost use Rattle.bridge_tests.specs.Services as many;

use crate::fixtures::{Made, one_port};
use bridge_api::{Bridge, BridgeConfig, Outbox};
use flooding::OWN_NUMBERS;
use lsdb::Version;
use spb_types::{
    Attachment, BridgeId, Isid, Mac, Mode, NoMemory, Seq, SourceId, SystemId, Vid, VidPlan,
};
use std::alloc::Global;
use std::process::Abort;

const VID: Vid = Vid { value: 10 };

/// A bridge of services: its address ends in a number, which is its source too; each of its customer ports, from 1 to a
/// count, is attached to the I-SID of its number and a base; and in the life before, each of its own LSPs had a number.
#[derive(Clone, Copy)]
pub(crate) struct Served {
    pub(crate) last: u8,
    pub(crate) base: u32,
    pub(crate) count: u16,
    pub(crate) life: u32,
}

/// A customer port with its service.
fn service(base: u32, port: u16) -> Attachment
    requires { base ≤ 1000 }
    ensures { result ≡ many.service base port }
{
    Attachment {
        port,
        isid: Isid {
            value: base + u32::from(port),
        },
        vid: VID,
        mode: Mode::Both,
    }
}

/// The customer ports from 1 to a count.
#[tactic(auto, using(crate::proofs::ManyServices::still_so_many))]
fn services(alloc: Global, base: u32, count: u16) -> Result<Seq<Attachment>, NoMemory>
    requires base { base ≤ 1000 }
    requires count { count ≤ 960 }
    ensures { IfOk result (λ attached. attached ≡ many.services base count) }
{
    let mut attached = Seq::new(alloc);
    'services: for before in 0..count {
        attached.push(service(base, before + 1))?;
    }
    Ok(attached)
}

/// A number for each own LSP.
#[tactic(auto, unfolding(flooding::specs::Own::own_numbers))]
fn lives(alloc: Global, life: u32) -> Result<Seq<u32>, NoMemory>
    ensures long { IfOk result (λ last. length last ≡ own_numbers) }
    ensures each { IfOk result (AllByRecursion (λ n. n ≤ last_number)) }
{
    let last = vec![in alloc; life; usize::from(OWN_NUMBERS)]?;
    Ok(Seq::from_vec(last))
}

/// The configuration of a bridge with one port in the VID 10, with these customer ports and these numbers of the life
/// before.
fn config_with(
    alloc: Global,
    last: u8,
    attached: Seq<Attachment>,
    lives: Seq<u32>,
) -> Result<BridgeConfig, NoMemory>
    requires each { AllByRecursion (IsAttachment (10 ∷ [])) attached }
    requires apart { ArePairwise AgreesWith attached }
    requires few { length (different (map (λ a. a.isid.value) attached)) ≤ 960 }
    requires long { length lives ≡ own_numbers }
    requires low { AllByRecursion (λ n. n ≤ last_number) lives }
    ensures whole { IfOk result IsWhole }
    ensures port { IfOk result (λ c. c.ports ≡ 1) }
    ensures vids { IfOk result (λ c. vids_of c.vids ≡ 10 ∷ []) }
    ensures attached { IfOk result (λ c. c.attached ≡ attached) }
{
    let mut metrics = Seq::new(alloc);
    metrics.push(10)?;
    let mut vids = Seq::new(alloc);
    vids.push(VidPlan { vid: VID, ect: 1 })?;
    let config = one_port!(last, vids, metrics, attached, lives);
    Ok(config)
}

/// The configuration of a bridge of services.
#[tactic(auto, using(crate::proofs::ManyServices::each_service, crate::proofs::ManyServices::services_apart, crate::proofs::ManyServices::few_isids))]
fn config(alloc: Global, served: Served) -> Result<BridgeConfig, NoMemory>
    requires base { served.base ≤ 1000 }
    requires count { served.count ≤ 960 }
    ensures whole { IfOk result IsWhole }
    ensures port { IfOk result (λ c. c.ports ≡ 1) }
    ensures vids { IfOk result (λ c. vids_of c.vids ≡ 10 ∷ []) }
    ensures attached { IfOk result (λ c. c.attached ≡ many.services served.base served.count) }
{
    let attached = services(alloc, served.base, served.count)?;
    let lives = lives(alloc, served.life)?;
    config_with(alloc, served.last, attached, lives)
}

/// Makes a blank bridge A with so many customer ports, with carrier at the port 1.
pub(crate) fn make<B: Bridge>(alloc: Global, bridge: &mut B, count: u16) -> Result<(), NoMemory>
    requires blank { (B.shown bridge.old).blank ≡ true }
    requires few { count ≤ 960 }
    ensures made { OnOk result ((B.shown bridge.new).blank ≡ false) }
    ensures serving { OnOk result (IsServing count (B.shown bridge.new).view) }
{
    let served = Served {
        last: 1,
        base: 0,
        count,
        life: 0,
    };
    let config = config(alloc, served)?;
    bridge.configure(&config)?;
    bridge.carrier(1, true)
}

/// A frame comes to the port 1. The bridge is kept.
fn heard<B: Bridge>(bridge: &mut B, frame: &[u8], outbox: &mut Outbox) -> Result<(), NoMemory>
    requires made { (B.shown bridge.old).blank ≡ false }
    requires port { length (B.shown bridge.old).view.ports ≡ 1 }
    ensures still_made { (B.shown bridge.new).blank ≡ false }
    ensures kept { OnOk result (IsKept (B.shown bridge.old).view (B.shown bridge.new).view) }
{
    bridge.receive(1, frame, outbox)
}

/// The same, with memory.
fn hear<B: Bridge>(rt: &impl Abort, bridge: &mut B, frame: &[u8], outbox: &mut Outbox)
    requires made { (B.shown bridge.old).blank ≡ false }
    requires port { length (B.shown bridge.old).view.ports ≡ 1 }
    ensures still_made { (B.shown bridge.new).blank ≡ false }
    ensures kept { IsKept (B.shown bridge.old).view (B.shown bridge.new).view }
{
    match heard(bridge, frame, outbox) {
        Ok(()) => {}
        Err(_) => panic!(*rt; "out of memory"),
    }
}

/// The metric of the link at the port 1 is set. The bridge is kept.
fn metric_set<B: Bridge>(bridge: &mut B, metric: u32) -> Result<(), NoMemory>
    requires made { (B.shown bridge.old).blank ≡ false }
    requires port { length (B.shown bridge.old).view.ports ≡ 1 }
    requires metric { IsMetric metric }
    ensures still_made { (B.shown bridge.new).blank ≡ false }
    ensures kept { OnOk result (IsKept (B.shown bridge.old).view (B.shown bridge.new).view) }
{
    bridge.set_metric(1, metric)
}

/// The same, with memory.
fn set_metric<B: Bridge>(rt: &impl Abort, bridge: &mut B, metric: u32)
    requires made { (B.shown bridge.old).blank ≡ false }
    requires port { length (B.shown bridge.old).view.ports ≡ 1 }
    requires metric { IsMetric metric }
    ensures still_made { (B.shown bridge.new).blank ≡ false }
    ensures kept { IsKept (B.shown bridge.old).view (B.shown bridge.new).view }
{
    match metric_set(bridge, metric) {
        Ok(()) => {}
        Err(_) => panic!(*rt; "out of memory"),
    }
}

/// The next customer port is attached.
fn attached_next<B: Bridge>(bridge: &mut B, count: u16) -> Result<(), NoMemory>
    requires made { (B.shown bridge.old).blank ≡ false }
    requires serving { IsServing count (B.shown bridge.old).view }
    requires few { count < 960 }
    ensures still_made { (B.shown bridge.new).blank ≡ false }
    ensures serving { OnOk result (IsServing (count + 1) (B.shown bridge.new).view) }
{
    let next = service(0, count + 1);
    bridge.attach(next.port, next.isid, next.vid, next.mode)
}

/// The last customer port is detached.
fn detached_last<B: Bridge>(bridge: &mut B, count: u16) -> Result<(), NoMemory>
    requires made { (B.shown bridge.old).blank ≡ false }
    requires serving { IsServing count (B.shown bridge.old).view }
    requires some { 1 ≤ count }
    ensures still_made { (B.shown bridge.new).blank ≡ false }
    ensures still_port { OnOk result (length (B.shown bridge.new).view.ports ≡ 1) }
{
    bridge.detach(count)
}

/// The version that a bridge holds at a place.
fn version_at<B: Bridge>(bridge: &B, place: usize) -> Version
    requires { (B.shown bridge.now).blank ≡ false }
{
    match bridge.entry(place) {
        Some(held) => held.version,
        None => Version::Absent,
    }
}

/// The versions that a bridge holds at the first five places.
fn versions<B: Bridge>(bridge: &B) -> [Version; 5]
    requires { (B.shown bridge.now).blank ≡ false }
{
    [
        version_at(bridge, 0),
        version_at(bridge, 1),
        version_at(bridge, 2),
        version_at(bridge, 3),
        version_at(bridge, 4),
    ]
}

impl<B: Bridge> Made<B> {
    /// The versions that are held at the first five places.
    pub(crate) fn versions(&self) -> [Version; 5] {
        versions(&self.bridge)
    }

    /// A blank bridge becomes one of services.
    pub(crate) fn serving(rt: &impl Abort, alloc: Global, blank: B, served: Served) -> Self
        requires { (B.shown blank).blank ≡ true }
    {
        assert!(*rt; served.base <= 1000 && served.count <= 960);
        let config = config(alloc, served).expect(rt, "out of memory");
        Self::of(rt, alloc, blank, &config)
    }
}

/// A bridge of services whose I-SIDs are the numbers of its customer ports. What it is called with has no conditions
/// here.
#[derive(Drop)]
pub(crate) struct Serving<B: Bridge> {
    alloc: Global,
    bridge: B,
    count: u16,
    ghost made: { (B.shown bridge).blank ≡ false },
    ghost serving: { IsServing count (B.shown bridge).view },
}

impl<B: Bridge> Serving<B> {
    /// A blank bridge becomes A, with so many customer ports.
    pub(crate) fn new(rt: &impl Abort, alloc: Global, blank: B, count: u16) -> Self
        requires { (B.shown blank).blank ≡ true }
    {
        assert!(*rt; count <= 960);
        let mut bridge = blank;
        match make(alloc, &mut bridge, count) {
            Ok(()) => Serving {
                alloc,
                bridge,
                count,
            },
            Err(_) => panic!(*rt; "out of memory"),
        }
    }

    /// A frame comes to the port 1.
    #[tactic(auto, using(crate::proofs::ManyServices::still_serving))]
    pub(crate) fn hear(&mut self, rt: &impl Abort, frame: &[u8]) {
        let mut outbox = Outbox::new(self.alloc);
        hear(rt, &mut self.bridge, frame, &mut outbox);
    }

    /// Sets the metric of the link at the port 1.
    #[tactic(auto, using(crate::proofs::ManyServices::still_serving))]
    pub(crate) fn set_metric(&mut self, rt: &impl Abort, metric: u32)
        requires { IsMetric metric }
    {
        set_metric(rt, &mut self.bridge, metric);
    }

    /// Attaches the next customer port.
    pub(crate) fn with_next(self, rt: &impl Abort) -> Self {
        assert!(*rt; self.count < 960);
        let mut bridge = self.bridge;
        match attached_next(&mut bridge, self.count) {
            Ok(()) => Serving {
                alloc: self.alloc,
                bridge,
                count: self.count + 1,
            },
            Err(_) => panic!(*rt; "out of memory"),
        }
    }

    /// Detaches the last customer port.
    pub(crate) fn without_last(self, rt: &impl Abort) -> Made<B> {
        assert!(*rt; 1 <= self.count);
        let mut bridge = self.bridge;
        match detached_last(&mut bridge, self.count) {
            Ok(()) => Made::of_one_port(self.alloc, bridge),
            Err(_) => panic!(*rt; "out of memory"),
        }
    }

    /// The versions that are held at the first five places.
    pub(crate) fn versions(&self) -> [Version; 5] {
        versions(&self.bridge)
    }
}
