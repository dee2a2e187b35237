//! Why each command is refused.
ghost use Rattle.std.specs.Prelude.{◌≡◌, IsTrue};
ghost use Rattle.network_model.specs.Refusing as refuse;
ghost use Rattle.network_model.specs.Play.{is_event};
ghost use Rattle.network_model.specs.Questions.{question_of};
ghost use Rattle.spb_network.specs.Network.{state_of};

use crate::questions::asked;
use crate::rack::{kind_at, next_box};
use crate::{NetworkOf, Reason, World};
use bridge_api::Bridge;
use link_model::LaneId;
use scenario::{Command, Dir};
use spb_types::limits::{MOST_DELIVERIES, MOST_DELIVERIES_TOGETHER, MOST_ROUNDS};
use spb_types::{Mac, Name, SourceId};
use spb_world::reason_unless;

/// Why what may be a question about a bridge is refused, if it is.
fn asked_refusal(world: &World, command: &Command) -> Option<Reason>
    ensures { result ≡ refuse.asked_refusal world.now (question_of command.now) }
{
    match asked(command) {
        None => None,
        Some(name) => world.unnamed_refusal(name),
    }
}

impl<B: Bridge> NetworkOf<B> {
    /// Why a bridge can't be declared, if it can't.
    #[tactic(auto, unfolding(network_model::specs::Refusing::declared_refusal))]
    fn declared_refusal(
        &self,
        name: Name,
        priority: u64,
        system: Mac,
        source: SourceId,
        ports: u64,
    ) -> Option<Reason>
        ensures { result ≡ refuse.declared_refusal (state_of B.shown self.now) name priority system source ports }
    {
        let wanted = kind_at(self.rule, self.world.bridge_count());
        let has_box = next_box(&self.rack, wanted).is_some();
        self.world
            .bridge_refusal(name, priority, system, source, ports)
            .or(reason_unless(has_box, Reason::RackSpent))
    }

    /// Why no frame at this place of a lane can be delivered, lost or doubled, if none can.
    #[tactic(auto, unfolding(network_model::specs::Refusing::frame_refusal))]
    fn frame_refusal(&self, name: Name, dir: Dir, place: u64) -> Option<Reason>
        ensures { result ≡ refuse.frame_refusal (state_of B.shown self.now) name dir place }
    {
        match self.world.link_place(name) {
            None => Some(Reason::NoSuchName),
            Some(link) => {
                let frames = self.lanes.frames(LaneId { link, dir });
                reason_unless(place < frames as u64, Reason::NoFrame)
            }
        }
    }

    /// Why so many rounds can't be played, if they can't.
    #[tactic(auto, unfolding(network_model::specs::Refusing::round_refusal, spb_world::specs::Reason::reason_unless))]
    fn round_refusal(&self, n: u64) -> Option<Reason>
        ensures { result ≡ refuse.round_refusal (state_of B.shown self.now) n }
    {
        if n < 1 || n > MOST_ROUNDS {
            return Some(Reason::Range);
        }
        if u64::from(self.rounds) + n > MOST_ROUNDS {
            return Some(Reason::TooMany);
        }
        None
    }

    /// Why so many deliveries can't be asked for, if they can't.
    #[tactic(auto, unfolding(network_model::specs::Refusing::drain_refusal, spb_world::specs::Reason::reason_unless))]
    fn drain_refusal(&self, n: u64) -> Option<Reason>
        ensures { result ≡ refuse.drain_refusal (state_of B.shown self.now) n }
    {
        if n < 1 || n > MOST_DELIVERIES {
            return Some(Reason::Range);
        }
        if u64::from(self.drained) + n > MOST_DELIVERIES_TOGETHER {
            return Some(Reason::TooMany);
        }
        None
    }

    /// Why an event is refused, if it is.
    fn event_refusal(&self, command: &Command) -> Option<Reason>
        ensures { IsTrue (is_event command.now) →
            result ≡ refuse.refusal_of (state_of B.shown self.now) command.now }
    {
        match command {
            Command::Metric { link, metric, .. } => self.world.metric_refusal(*link, *metric),
            Command::Down(name) => self.world.down_refusal(*name),
            Command::Up(name) => self.world.up_refusal(*name),
            Command::Restart(name) => self.restart_refusal(*name),
            Command::Tick(name) => self.world.unnamed_refusal(*name),
            Command::Deliver { link, dir } => self.frame_refusal(*link, *dir, 0),
            Command::Lose { link, dir, place } | Command::Double { link, dir, place } => {
                self.frame_refusal(*link, *dir, *place)
            }
            Command::Round(n) => self.round_refusal(*n),
            Command::Drain(n) => self.drain_refusal(*n),
            Command::Frame {
                bridge,
                port,
                frame,
            } => self
                .world
                .named_entry_refusal(*bridge, *port, frame.as_slice()),
            _ => None,
        }
    }

    /// Why a command is refused, if it is: the first reason in order of number that holds. Takes no memory.
    pub fn refusal(&self, command: &Command) -> Option<Reason>
        ensures { result ≡ refuse.refusal_of (state_of B.shown self.now) command.now }
    {
        match command {
            Command::Vid { vid, ect } => self.world.vid_refusal(*vid, *ect),
            Command::Bridge {
                name,
                priority,
                system,
                source,
                ports,
            } => self.declared_refusal(*name, *priority, *system, *source, *ports),
            Command::Link {
                name,
                a,
                port_a,
                b,
                port_b,
                cost,
            } => self
                .world
                .named_link_refusal(*name, *a, *port_a, *b, *port_b, *cost),
            Command::Isid { isid, vid } => self.world.isid_refusal(*isid, *vid),
            Command::Attach {
                bridge,
                port,
                isid,
                ..
            } => { self.world.named_attach_refusal(*bridge, *port, *isid) }
            Command::Detach { bridge, port } => self.world.named_detach_refusal(*bridge, *port),
            Command::Path { from, to, vid } => self.world.path_refusal(*from, *to, *vid),
            Command::State
            | Command::Show(_)
            | Command::Wiring(_)
            | Command::Db(_)
            | Command::Adj(_)
            | Command::Drops(_) => asked_refusal(&self.world, command),
            _ => self.event_refusal(command),
        }
    }
}
