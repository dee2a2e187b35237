//! What each command makes of a network, where it isn't refused. Nothing happens at a name that isn't there.
ghost use Rattle.std.specs.Prelude.{◌≡◌, ◌<◌, [], false, true, None, Some, length, OnOk, IfOk};
ghost use Rattle.spb_world.specs.Declaring as declare;
ghost use Rattle.spb_world.specs.Services as service;
ghost use Rattle.network_model.specs.Refusing as refuse;
ghost use Rattle.spb_world.specs.Naming.{metric_refusal, named_link_refusal};
ghost use Rattle.network_model.specs.Questions as question;
ghost use Rattle.network_model.specs.Play as play;
ghost use Rattle.network_model.specs.Captured as capture;
ghost use Rattle.network_model.specs.Events as event;
ghost use Rattle.spb_network.specs.Network.{state_of, AreConfigured, IsInOrder, IsBlankAt};
ghost use Rattle.spb_network.specs.Applying.{IsSoundNetwork, KeepsConditions};
ghost use Rattle.spb_network.specs.Watching.{noted};

use crate::questions::{asks_for_quiet, event_answer, is_question};
use crate::rack::{kind_at, next_box};
use crate::seen::Seen;
use crate::{Answer, NetworkOf, Out};
use bridge_api::Bridge;
use link_model::LaneId;
use scenario::{Command, Dir, Side};
use spb_types::{BridgeId, Mac, Name, NoMemory, SourceId, SystemId};
use std::mem;

impl<B: Bridge> NetworkOf<B> {
    /// Declares a base VID.
    #[tactic(auto, unfolding(network_model::specs::Play::with_vid_more))]
    fn play_vid(&mut self, vid: u64, ect: u64) -> Result<(), NoMemory>
        requires order { IsInOrder B.shown self.old }
        requires accepted { declare.vid_refusal self.old.world vid ect ≡ None }
        ensures state { OnOk result (state_of B.shown self.new
            ≡ play.with_vid_more (state_of B.shown self.old) vid ect) }
        ensures made { OnOk result (AreConfigured B.shown self.new.boxes.items) }
    {
        self.world.declare_vid(vid, ect)
    }

    /// Takes a box of the rack for a bridge that isn't refused.
    fn take_box(
        &mut self,
        place: usize,
        name: Name,
        priority: u64,
        system: Mac,
        source: SourceId,
        ports: u64,
    ) -> Result<(), NoMemory>
        requires place { place < length self.old.rack.items }
        requires blank { IsBlankAt B.shown self.old.rack.items place }
        requires made { AreConfigured B.shown self.old.boxes.items }
        requires accepted { declare.bridge_refusal self.old.world name priority system source ports ≡ None }
        ensures state { OnOk result (state_of B.shown self.new
            ≡ play.boxed (state_of B.shown self.old) name
            (declare.bridge_of priority system source ports) (Some place)) }
        ensures made { OnOk result (AreConfigured B.shown self.new.boxes.items) }
    {
        let id = BridgeId {
            priority: priority as u16,
            system: SystemId { mac: system },
        };
        let config = self.world.config(self.alloc, id, source, ports as u8)?;
        let mut bridge = self.rack.remove(place);
        bridge.configure(&config)?;
        self.boxes.push(bridge)?;
        self.ticks.push(0)?;
        self.world
            .declare_bridge(name, priority, system, source, ports)
    }

    /// Declares a bridge. Nothing happens where no blank box of its kind is left.
    #[tactic(auto, unfolding(network_model::specs::Play::declared))]
    fn play_bridge(
        &mut self,
        name: Name,
        priority: u64,
        system: Mac,
        source: SourceId,
        ports: u64,
    ) -> Result<(), NoMemory>
        requires order { IsInOrder B.shown self.old }
        requires accepted { refuse.declared_refusal (state_of B.shown self.old) name priority system source ports
            ≡ None }
        ensures state { OnOk result (state_of B.shown self.new
            ≡ play.declared (state_of B.shown self.old) name (declare.bridge_of priority system source ports)) }
        ensures made { OnOk result (AreConfigured B.shown self.new.boxes.items) }
    {
        let wanted = kind_at(self.rule, self.world.bridge_count());
        match next_box(&self.rack, wanted) {
            None => Ok(()),
            Some(place) => self.take_box(place, name, priority, system, source, ports),
        }
    }

    /// Puts in a link between the bridges at two places that isn't refused, gives its ends their metrics, and switches
    /// it on.
    #[tactic(auto, unfolding(network_model::specs::Play::linked))]
    fn add_link(
        &mut self,
        name: Name,
        i: usize,
        port_a: u64,
        j: usize,
        port_b: u64,
        cost: u64,
    ) -> Result<(), NoMemory>
        requires order { IsInOrder B.shown self.old }
        requires accepted { declare.link_refusal self.old.world name i port_a j port_b cost ≡ None }
        ensures state { OnOk result (state_of B.shown self.new
            ≡ play.linked (state_of B.shown self.old) name (declare.link_of i port_a j port_b cost)) }
        ensures made { OnOk result (AreConfigured B.shown self.new.boxes.items) }
    {
        let place = self.lanes.links();
        let link = self.world.declare_link(name, i, port_a, j, port_b, cost)?;
        self.lanes.add_link()?;
        self.set_end_metrics(link)?;
        self.switch_on(place)
    }

    /// Declares a link between two bridges, which comes up at once.
    #[tactic(auto, unfolding(spb_world::specs::Naming::named_link_refusal, network_model::specs::Play::named_link))]
    fn play_link(
        &mut self,
        name: Name,
        a: Name,
        port_a: u64,
        b: Name,
        port_b: u64,
        cost: u64,
    ) -> Result<(), NoMemory>
        requires order { IsInOrder B.shown self.old }
        requires accepted { named_link_refusal self.old.world name a port_a b port_b cost ≡ None }
        ensures state { OnOk result (state_of B.shown self.new
            ≡ play.named_link (state_of B.shown self.old) name a port_a b port_b cost) }
        ensures made { OnOk result (AreConfigured B.shown self.new.boxes.items) }
    {
        let Some(i) = self.world.bridge_place(a) else {
            return Ok(());
        };
        let Some(j) = self.world.bridge_place(b) else {
            return Ok(());
        };
        self.add_link(name, i, port_a, j, port_b, cost)
    }

    /// Declares a service.
    #[tactic(auto, unfolding(network_model::specs::Play::with_service_more))]
    fn play_isid(&mut self, isid: u64, vid: u64) -> Result<(), NoMemory>
        requires order { IsInOrder B.shown self.old }
        requires accepted { service.isid_refusal self.old.world isid vid ≡ None }
        ensures state { OnOk result (state_of B.shown self.new
            ≡ play.with_service_more (state_of B.shown self.old) isid vid) }
        ensures made { OnOk result (AreConfigured B.shown self.new.boxes.items) }
    {
        self.world.declare_isid(isid, vid)
    }

    /// An end of a link gets another metric.
    #[tactic(auto, using(spb_world::proofs::RefusalLemmas::metric_refusal_none), unfolding(network_model::specs::Play::at_link))]
    fn play_metric(&mut self, name: Name, side: Side, metric: u64) -> Result<(), NoMemory>
        requires order { IsInOrder B.shown self.old }
        requires accepted { metric_refusal self.old.world name metric ≡ None }
        ensures state { OnOk result (state_of B.shown self.new
            ≡ play.at_link (λ s k. event.with_metric_changed s k side metric) (state_of B.shown self.old) name) }
        ensures made { OnOk result (AreConfigured B.shown self.new.boxes.items) }
    {
        match self.world.link_place(name) {
            None => Ok(()),
            Some(link) => self.set_metric(link, side, metric as u32),
        }
    }

    /// A link goes down.
    #[tactic(auto, unfolding(network_model::specs::Play::at_link))]
    fn play_down(&mut self, name: Name) -> Result<(), NoMemory>
        requires { IsInOrder B.shown self.old }
        ensures state { OnOk result (state_of B.shown self.new
            ≡ play.at_link event.switched_off (state_of B.shown self.old) name) }
        ensures made { OnOk result (AreConfigured B.shown self.new.boxes.items) }
    {
        match self.world.link_place(name) {
            None => Ok(()),
            Some(link) => self.switch_off(link),
        }
    }

    /// A link comes up.
    #[tactic(auto, unfolding(network_model::specs::Play::at_link))]
    fn play_up(&mut self, name: Name) -> Result<(), NoMemory>
        requires { IsInOrder B.shown self.old }
        ensures state { OnOk result (state_of B.shown self.new
            ≡ play.at_link event.switched_on (state_of B.shown self.old) name) }
        ensures made { OnOk result (AreConfigured B.shown self.new.boxes.items) }
    {
        match self.world.link_place(name) {
            None => Ok(()),
            Some(link) => self.switch_on(link),
        }
    }

    /// A second of a bridge.
    #[tactic(auto, unfolding(network_model::specs::Play::at_bridge))]
    fn play_tick(&mut self, name: Name) -> Result<(), NoMemory>
        requires { IsInOrder B.shown self.old }
        ensures state { OnOk result (state_of B.shown self.new
            ≡ play.at_bridge event.ticked (state_of B.shown self.old) name) }
        ensures made { OnOk result (AreConfigured B.shown self.new.boxes.items) }
    {
        match self.world.bridge_place(name) {
            None => Ok(()),
            Some(place) => self.tick(place),
        }
    }

    /// The frame at the front of a lane is delivered.
    #[tactic(auto, unfolding(network_model::specs::Play::at_link, network_model::specs::Captured::seen_at_link))]
    fn play_deliver(&mut self, name: Name, dir: Dir, seen: &mut Seen) -> Result<(), NoMemory>
        requires { IsInOrder B.shown self.old }
        ensures state { OnOk result (state_of B.shown self.new
            ≡ play.at_link (λ s k. event.delivered s k dir) (state_of B.shown self.old) name) }
        ensures made { OnOk result (AreConfigured B.shown self.new.boxes.items) }
        ensures seen { OnOk result (seen.new
            ≡ noted seen.old (capture.seen_at_link (state_of B.shown self.old) name dir)) }
    {
        match self.world.link_place(name) {
            None => Ok(()),
            Some(link) => self.deliver(LaneId { link, dir }, seen),
        }
    }

    /// A frame is lost. Takes no memory, and answers Ok.
    #[tactic(auto, unfolding(network_model::specs::Play::at_link))]
    fn play_lose(&mut self, name: Name, dir: Dir, place: u64) -> Result<(), NoMemory>
        requires { IsInOrder B.shown self.old }
        ensures state { OnOk result (state_of B.shown self.new
            ≡ play.at_link (λ s k. event.lost s k dir place) (state_of B.shown self.old) name) }
        ensures made { OnOk result (AreConfigured B.shown self.new.boxes.items) }
    {
        if let Some(link) = self.world.link_place(name) {
            self.lose(LaneId { link, dir }, place as usize);
        }
        Ok(())
    }

    /// A frame is doubled.
    #[tactic(auto, unfolding(network_model::specs::Play::at_link))]
    fn play_double(&mut self, name: Name, dir: Dir, place: u64) -> Result<(), NoMemory>
        requires { IsInOrder B.shown self.old }
        ensures state { OnOk result (state_of B.shown self.new
            ≡ play.at_link (λ s k. event.doubled s k dir place) (state_of B.shown self.old) name) }
        ensures made { OnOk result (AreConfigured B.shown self.new.boxes.items) }
    {
        match self.world.link_place(name) {
            None => Ok(()),
            Some(link) => self.double(LaneId { link, dir }, place as usize),
        }
    }

    /// So many rounds.
    #[tactic(auto, using(network_model::proofs::StateRefusals::round_refusal_none), unfolding(network_model::specs::Play::with_rounds))]
    fn play_round_command(&mut self, n: u64, seen: &mut Seen) -> Result<(), NoMemory>
        requires order { IsInOrder B.shown self.old }
        requires sound { IsSoundNetwork B.shown self.old }
        requires accepted { refuse.round_refusal (state_of B.shown self.old) n ≡ None }
        ensures state { OnOk result (state_of B.shown self.new ≡ play.with_rounds n (state_of B.shown self.old)) }
        ensures made { OnOk result (AreConfigured B.shown self.new.boxes.items) }
        ensures seen { OnOk result (seen.new
            ≡ noted seen.old (capture.seen_rounds n (state_of B.shown self.old))) }
    {
        let rounds = self.rounds + n as u32;
        self.play_rounds(n as u32, seen)?;
        self.rounds = rounds;
        Ok(())
    }

    /// So many deliveries at most.
    #[tactic(auto, using(network_model::proofs::StateRefusals::drain_refusal_none), unfolding(network_model::specs::Play::with_drain))]
    fn play_drain_command(&mut self, n: u64, seen: &mut Seen) -> Result<(), NoMemory>
        requires order { IsInOrder B.shown self.old }
        requires accepted { refuse.drain_refusal (state_of B.shown self.old) n ≡ None }
        ensures state { OnOk result (state_of B.shown self.new ≡ play.with_drain n (state_of B.shown self.old)) }
        ensures made { OnOk result (AreConfigured B.shown self.new.boxes.items) }
        ensures seen { OnOk result (seen.new
            ≡ noted seen.old (capture.seen_drained n (state_of B.shown self.old))) }
    {
        let drained = self.drained + n as u32;
        self.play_drain(n as u32, seen)?;
        self.drained = drained;
        Ok(())
    }

    /// What a command that isn't refused makes of the network.
    fn perform(&mut self, command: &Command, seen: &mut Seen) -> Result<(), NoMemory>
        requires order { IsInOrder B.shown self.old }
        requires sound { IsSoundNetwork B.shown self.old }
        requires accepted { refuse.refusal_of (state_of B.shown self.old) command.now ≡ None }
        ensures state { OnOk result (state_of B.shown self.new ≡ play.played (state_of B.shown self.old) command.now) }
        ensures made { OnOk result (AreConfigured B.shown self.new.boxes.items) }
        ensures seen { OnOk result (seen.new
            ≡ noted seen.old (capture.seen_of (state_of B.shown self.old) command.now)) }
    {
        match command {
            Command::Vid { vid, ect } => self.play_vid(*vid, *ect),
            Command::Bridge {
                name,
                priority,
                system,
                source,
                ports,
            } => self.play_bridge(*name, *priority, *system, *source, *ports),
            Command::Link {
                name,
                a,
                port_a,
                b,
                port_b,
                cost,
            } => self.play_link(*name, *a, *port_a, *b, *port_b, *cost),
            Command::Isid { isid, vid } => self.play_isid(*isid, *vid),
            Command::Attach { .. } | Command::Detach { .. } | Command::Frame { .. } => {
                self.play_customers(command)
            }
            Command::Metric { link, side, metric } => self.play_metric(*link, *side, *metric),
            Command::Down(name) => self.play_down(*name),
            Command::Up(name) => self.play_up(*name),
            Command::Restart(name) => self.play_restart(*name),
            Command::Tick(name) => self.play_tick(*name),
            Command::Deliver { link, dir } => self.play_deliver(*link, *dir, seen),
            Command::Lose { link, dir, place } => self.play_lose(*link, *dir, *place),
            Command::Double { link, dir, place } => self.play_double(*link, *dir, *place),
            Command::Round(n) => self.play_round_command(*n, seen),
            Command::Drain(n) => self.play_drain_command(*n, seen),
            _ => Ok(()),
        }
    }

    /// Makes ready what the answer to a command reads. Nothing of the state changes.
    fn prepare(&mut self, command: &Command) -> Result<(), NoMemory>
        requires { IsSoundNetwork B.shown self.old }
        ensures state { OnOk result (state_of B.shown self.new ≡ state_of B.shown self.old) }
        ensures sound { OnOk result (IsSoundNetwork B.shown self.new) }
        ensures halted { OnOk result (self.new.halted ≡ self.old.halted) }
    {
        match command {
            Command::Path { from, vid, .. } => self.prepare_paths(*from, *vid),
            Command::Wiring(name) => self.prepare_wiring(*name),
            _ => {
                self.rest_asked();
                Ok(())
            }
        }
    }

    /// Makes ready the tables that the wiring gives a bridge.
    fn prepare_wiring(&mut self, bridge: Name) -> Result<(), NoMemory>
        ensures { self.new ≡ self.old }
    {
        match self.world.bridge_place(bridge) {
            None => Ok(()),
            Some(place) => self.world.prepare_tables(self.alloc, place),
        }
    }

    /// Makes ready what questions about the wiring read, which is kept until what is declared changes. Nothing of the
    /// network changes.
    pub fn keep_fabric(&mut self) -> Result<(), NoMemory>
        ensures { self.new ≡ self.old }
    {
        self.world.keep_fabric(self.alloc)
    }

    /// Keeps which conditions of quiet hold, if a command asks for them.
    fn keep_if_asked(&mut self, command: &Command)
        requires { IsSoundNetwork B.shown self.old }
        ensures state { state_of B.shown self.new ≡ state_of B.shown self.old }
        ensures sound { IsSoundNetwork B.shown self.new }
        ensures halted { self.new.halted ≡ self.old.halted }
    {
        if asks_for_quiet(command) {
            self.keep_conditions();
        }
    }

    /// Answers a question, at a network that hasn't halted.
    fn ask(&mut self, command: &Command) -> Result<Answer, NoMemory>
        requires halted { self.old.halted ≡ false }
        requires sound { IsSoundNetwork B.shown self.old }
        requires question { question.is_question command.now ≡ true }
        ensures answer { IfOk result (λ answer. answer ≡ play.answer_of (state_of B.shown self.old) command.now) }
        ensures state { OnOk result (state_of B.shown self.new
            ≡ record (play.played (state_of B.shown self.old) command.now) { outs = [] }) }
        ensures made { OnOk result (AreConfigured B.shown self.new.boxes.items) }
        ensures kept { OnOk result (KeepsConditions B.shown self.new) }
    {
        self.prepare(command)?;
        self.keep_if_asked(command);
        self.answer(command)
    }

    /// The customers' frames that left, which are handed over. Takes no memory.
    fn take_outs(&mut self) -> Vec<Out>
        ensures outs { result.items ≡ (state_of B.shown self.old).outs }
        ensures state { state_of B.shown self.new ≡ record (state_of B.shown self.old) { outs = [] } }
        ensures boxes { self.new.boxes ≡ self.old.boxes }
        ensures kept { self.new.conditions ≡ self.old.conditions }
    {
        mem::replace(&mut self.outs, Vec::new(self.alloc))
    }

    /// Plays a command that isn't refused, at a network that hasn't halted. What left is handed over in the answer. What
    /// is kept of the conditions of quiet stays at a question alone.
    #[tactic(auto, using(crate::proofs::CommandFits::in_order))]
    pub(crate) fn play(&mut self, command: &Command, seen: &mut Seen) -> Result<Answer, NoMemory>
        requires halted { self.old.halted ≡ false }
        requires sound { IsSoundNetwork B.shown self.old }
        requires accepted { refuse.refusal_of (state_of B.shown self.old) command.now ≡ None }
        ensures answer { IfOk result (λ answer. answer ≡ play.answer_of (state_of B.shown self.old) command.now) }
        ensures state { OnOk result (state_of B.shown self.new
            ≡ record (play.played (state_of B.shown self.old) command.now) { outs = [] }) }
        ensures made { OnOk result (AreConfigured B.shown self.new.boxes.items) }
        ensures kept { OnOk result (KeepsConditions B.shown self.new) }
        ensures seen { OnOk result (seen.new
            ≡ noted seen.old (capture.seen_of (state_of B.shown self.old) command.now)) }
    {
        if is_question(command) {
            return self.ask(command);
        }
        self.perform(command, seen)?;
        self.conditions = None;
        Ok(event_answer(command, self.take_outs()))
    }
}
