//! The events of a network: what comes to one bridge, and what becomes of the frames that it sends and that leave it.
ghost use Rattle.std.specs.Prelude.{◌≡◌, [], true, slice_get, OnOk, IfOk, IfSome};
ghost use Rattle.bridge_api.specs.Config.{IsMetric};
ghost use Rattle.bridge_api.specs.Step as comes;
ghost use Rattle.spb_world.specs.World.{IsEnd, IsLink};
ghost use Rattle.network_model.specs.State.{links_of};
ghost use Rattle.spb_world.specs.Links.{lane_out};
ghost use Rattle.network_model.specs.Captured as capture;
ghost use Rattle.network_model.specs.Events as event;
ghost use Rattle.spb_network.specs.Network.{state_of, IsInOrder};
ghost use Rattle.spb_network.specs.Watching.{noted};

use crate::seen::Seen;
use crate::{DeclaredLink, LinkEnd, NetworkOf, Out, boxes};
use bridge_api::{Bridge, Outbox};
use link_model::LaneId;
use scenario::Side;
use shared_frames::Frame;
use spb_types::{NoMemory, Seq};
use spb_world::link_ends;

/// Room in an outbox for so many frames that aren't hellos.
const SPARE: usize = 16;

impl<B: Bridge> NetworkOf<B> {
    /// A frame goes out at a port of the bridge at a place. It is lost where no link that is up ends there.
    fn send_over(&mut self, i: usize, port: u8, frame: Frame) -> Result<(), NoMemory>
        ensures state { OnOk result (state_of B.shown self.new
            ≡ event.sent_over (state_of B.shown self.old)
            (lane_out (links_of (state_of B.shown self.old)) i port) frame) }
        ensures boxes { self.new.boxes ≡ self.old.boxes }
    {
        match self.world.live_lane(i, port) {
            None => Ok(()),
            Some(lane) => self.lanes.push(lane, frame),
        }
    }

    /// The bridge at a place sends frames, each at a port.
    fn send_all(&mut self, i: usize, frames: Vec<(u8, Frame)>) -> Result<(), NoMemory>
        ensures state { OnOk result (state_of B.shown self.new
            ≡ event.sent_all (state_of B.shown self.old) i frames.items) }
        ensures boxes { self.new.boxes ≡ self.old.boxes }
    {
        for (port, frame) in frames {
            self.send_over(i, port, frame)?;
        }
        Ok(())
    }

    /// Frames left the bridge at a place, each at a customer port. Nothing happens past the last bridge.
    fn leave_all(&mut self, i: usize, frames: Vec<(u16, Seq<u8>)>) -> Result<(), NoMemory>
        ensures state { OnOk result (state_of B.shown self.new
            ≡ event.left_all (state_of B.shown self.old) i frames.items) }
        ensures boxes { self.new.boxes ≡ self.old.boxes }
    {
        let Some(bridge) = self.world.bridge_name(i) else {
            return Ok(());
        };
        for (port, frame) in frames {
            self.outs.push(Out {
                bridge,
                port,
                frame,
            })?;
        }
        Ok(())
    }

    /// What the bridge at a place sends is on its way at once, and what leaves it has left.
    pub(crate) fn send_on(&mut self, i: usize, outbox: Outbox) -> Result<(), NoMemory>
        ensures state { OnOk result (state_of B.shown self.new
            ≡ event.left_all (event.sent_all (state_of B.shown self.old) i outbox.wire) i outbox.left) }
        ensures boxes { self.new.boxes ≡ self.old.boxes }
    {
        self.send_all(i, outbox.wire.into_vec())?;
        self.leave_all(i, outbox.left.into_vec())
    }

    /// A second of the bridge at a place. No customer's frame leaves.
    pub(crate) fn tick(&mut self, i: usize) -> Result<(), NoMemory>
        requires { IsInOrder B.shown self.old }
        ensures state { OnOk result (state_of B.shown self.new
            ≡ event.ticked (state_of B.shown self.old) i) }
        ensures order { OnOk result (IsInOrder B.shown self.new) }
    {
        let mut outbox = self.outbox(i)?;
        boxes::tick(&mut self.boxes, i, &mut outbox)?;
        self.send_all(i, outbox.wire.into_vec())?;
        self.count_second(i);
        Ok(())
    }

    /// An empty outbox with room for a frame at each port of the bridge at a place, and for a few more.
    fn outbox(&self, i: usize) -> Result<Outbox, NoMemory>
        ensures { IfOk result (λ outbox. outbox.wire ≡ []) }
    {
        let room = usize::from(self.world.ports(i)) + SPARE;
        Ok(Outbox {
            wire: Seq::from_vec(Vec::with_capacity(self.alloc, room)?),
            left: Seq::new(self.alloc),
        })
    }

    /// A frame comes to an end of a link. A backbone frame may be sent on, and may let customers' frames leave.
    fn hear(&mut self, end: LinkEnd, frame: &[u8]) -> Result<(), NoMemory>
        requires order { IsInOrder B.shown self.old }
        requires end { IsEnd self.old.world.bridges end }
        ensures state { OnOk result (state_of B.shown self.new
            ≡ event.stepped (comes.frame end.port frame.now) (state_of B.shown self.old) end.bridge) }
        ensures order { OnOk result (IsInOrder B.shown self.new) }
    {
        let mut outbox = Outbox::new(self.alloc);
        boxes::hear(&mut self.boxes, end.bridge, end.port, frame, &mut outbox)?;
        if is_empty(&outbox) {
            return Ok(());
        }
        self.send_on(end.bridge, outbox)
    }

    /// Carrier comes to an end of a link, or goes.
    pub(crate) fn set_carrier(&mut self, end: LinkEnd, on: bool) -> Result<(), NoMemory>
        requires order { IsInOrder B.shown self.old }
        requires end { IsEnd self.old.world.bridges end }
        ensures state { OnOk result (state_of B.shown self.new
            ≡ event.with_carrier_at_end on (state_of B.shown self.old) end) }
        ensures order { OnOk result (IsInOrder B.shown self.new) }
        ensures world { self.new.world ≡ self.old.world }
        ensures rack { self.new.rack ≡ self.old.rack }
    {
        boxes::set_carrier(&mut self.boxes, end.bridge, end.port, on)
    }

    /// Carrier comes to both ends of the link that was at a place, or goes.
    fn set_carriers(&mut self, link: Option<DeclaredLink>, on: bool) -> Result<(), NoMemory>
        requires order { IsInOrder B.shown self.old }
        requires ends { IfSome link (IsLink self.old.world.bridges) }
        ensures state { OnOk result (state_of B.shown self.new
            ≡ event.with_carrier_over on (state_of B.shown self.old) link) }
        ensures order { OnOk result (IsInOrder B.shown self.new) }
    {
        match link {
            None => Ok(()),
            Some(link) => {
                self.set_carrier(link.a, on)?;
                self.set_carrier(link.b, on)
            }
        }
    }

    /// An end of a link gets its metric.
    fn set_end_metric(&mut self, end: LinkEnd) -> Result<(), NoMemory>
        requires order { IsInOrder B.shown self.old }
        requires end { IsEnd self.old.world.bridges end }
        ensures state { OnOk result (state_of B.shown self.new
            ≡ event.with_metric_at_end (state_of B.shown self.old) end) }
        ensures order { OnOk result (IsInOrder B.shown self.new) }
        ensures world { self.new.world ≡ self.old.world }
    {
        boxes::set_metric(&mut self.boxes, end.bridge, end.port, end.metric)
    }

    /// Both ends of a link get their metrics.
    pub(crate) fn set_end_metrics(&mut self, link: DeclaredLink) -> Result<(), NoMemory>
        requires order { IsInOrder B.shown self.old }
        requires link { IsLink self.old.world.bridges link }
        ensures state { OnOk result (state_of B.shown self.new
            ≡ event.with_metrics_over (state_of B.shown self.old) link) }
        ensures order { OnOk result (IsInOrder B.shown self.new) }
    {
        self.set_end_metric(link.a)?;
        self.set_end_metric(link.b)
    }

    /// An end of the link at a place gets another metric, which its bridge is told.
    #[tactic(auto, unfolding(network_model::specs::Events::with_metric_changed))]
    pub(crate) fn set_metric(
        &mut self,
        place: usize,
        side: Side,
        metric: u32,
    ) -> Result<(), NoMemory>
        requires order { IsInOrder B.shown self.old }
        requires metric { IsMetric metric }
        ensures state { OnOk result (state_of B.shown self.new
            ≡ event.with_metric_changed (state_of B.shown self.old) place side metric) }
        ensures order { OnOk result (IsInOrder B.shown self.new) }
    {
        self.world.set_metric(place, side, metric);
        match self.world.link(place) {
            None => Ok(()),
            Some(link) => self.set_end_metric(link_ends::end_on(&link, side)),
        }
    }

    /// The link at a place comes up.
    #[tactic(auto, unfolding(network_model::specs::Events::switched_on))]
    pub(crate) fn switch_on(&mut self, place: usize) -> Result<(), NoMemory>
        requires { IsInOrder B.shown self.old }
        ensures state { OnOk result (state_of B.shown self.new
            ≡ event.switched_on (state_of B.shown self.old) place) }
        ensures order { OnOk result (IsInOrder B.shown self.new) }
    {
        let link = self.world.link(place);
        self.world.set_live(place, true);
        self.set_carriers(link, true)
    }

    /// The link at a place goes down.
    #[tactic(auto, unfolding(network_model::specs::Events::switched_off))]
    pub(crate) fn switch_off(&mut self, place: usize) -> Result<(), NoMemory>
        requires { IsInOrder B.shown self.old }
        ensures state { OnOk result (state_of B.shown self.new
            ≡ event.switched_off (state_of B.shown self.old) place) }
        ensures order { OnOk result (IsInOrder B.shown self.new) }
    {
        let link = self.world.link(place);
        self.lanes.flush(place);
        self.world.set_live(place, false);
        self.set_carriers(link, false)
    }

    /// The frame at the front of a lane is delivered. Nothing happens where there is none.
    #[inline(always)]
    #[tactic(auto, unfolding(network_model::specs::Events::delivered, network_model::specs::Captured::seen_at))]
    pub(crate) fn deliver(&mut self, lane: LaneId, seen: &mut Seen) -> Result<(), NoMemory>
        requires { IsInOrder B.shown self.old }
        ensures state { OnOk result (state_of B.shown self.new
            ≡ event.delivered (state_of B.shown self.old) lane.link lane.dir) }
        ensures order { OnOk result (IsInOrder B.shown self.new) }
        ensures seen { OnOk result (seen.new
            ≡ noted seen.old (capture.seen_at (state_of B.shown self.old) lane.link lane.dir)) }
    {
        match self.lanes.pop(lane) {
            None => Ok(()),
            Some(frame) => {
                self.note(lane, &frame, seen)?;
                self.hear_over(lane, frame.as_slice())
            }
        }
    }

    /// A frame comes to the far end of a lane.
    #[inline(always)]
    fn hear_over(&mut self, lane: LaneId, frame: &[u8]) -> Result<(), NoMemory>
        requires { IsInOrder B.shown self.old }
        ensures state { OnOk result (state_of B.shown self.new
            ≡ event.heard_over (state_of B.shown self.old) lane.dir frame.now
            (slice_get (links_of (state_of B.shown self.old)) lane.link)) }
        ensures order { OnOk result (IsInOrder B.shown self.new) }
    {
        match self.world.link(lane.link) {
            None => Ok(()),
            Some(link) => self.hear(link_ends::far_end(link, lane.dir), frame),
        }
    }

    /// The frame at a place of a lane is lost. Nothing happens where there is none.
    pub(crate) fn lose(&mut self, lane: LaneId, place: usize)
        requires { IsInOrder B.shown self.old }
        ensures state { state_of B.shown self.new
            ≡ event.lost (state_of B.shown self.old) lane.link lane.dir place }
        ensures order { IsInOrder B.shown self.new }
    {
        self.lanes.lose(lane, place);
    }

    /// The frame at a place of a lane is doubled. Nothing happens where there is none.
    pub(crate) fn double(&mut self, lane: LaneId, place: usize) -> Result<(), NoMemory>
        requires { IsInOrder B.shown self.old }
        ensures state { OnOk result (state_of B.shown self.new
            ≡ event.doubled (state_of B.shown self.old) lane.link lane.dir place) }
        ensures order { OnOk result (IsInOrder B.shown self.new) }
    {
        self.lanes.double(lane, place)
    }
}

/// Whether nothing is in an outbox.
fn is_empty(outbox: &Outbox) -> bool
    ensures wire { result ≡ true → outbox.now.wire ≡ [] }
    ensures left { result ≡ true → outbox.now.left ≡ [] }
    ensures empty { outbox.now.wire ≡ [] → outbox.now.left ≡ [] → result ≡ true }
{
    outbox.wire.is_empty() && outbox.left.is_empty()
}
