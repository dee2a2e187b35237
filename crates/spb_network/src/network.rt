//! The network itself: what it keeps, how it begins, and one step of play.
ghost use Rattle.std.specs.Prelude.{◌≡◌, ◌≤◌, false, map, OnOk};
ghost use Rattle.bridge_api.specs.Shown.{views_of};
ghost use Rattle.network_model.specs.declared.kind_rule.KindRule.TheVariants as rules;
ghost use Rattle.network_model.specs.Sound.{opening};
ghost use Rattle.spb_network.specs.Network.{state_of, spare, AreConfigured};
ghost use Rattle.spb_network.specs.Applying.{Applies, IsReady};
ghost use Rattle.spb_network.specs.Watching.{Watches, noted};
ghost use Rattle.network_model.specs.Captured.{seen_of};
ghost use Rattle.network_model.specs.Counted.{most_commands};
ghost use Rattle.network_model.specs.Convergence.{QuietIsConverged};
ghost use Rattle.network_rounds.specs.SettlingLaws.{Settles};

use crate::seen::Seen;
use crate::{Answer, ApplyError, Delivered, KindRule, Out, World};
use bridge_api::Bridge;
use link_model::Lanes;
use network_model::Conditions;
use network_rounds::networks_settle;
use scenario::Command;
use spb_types::NoMemory;
use std::alloc::Global;

/// A network of bridges in boxes of one type.
///
/// It owns one box for each declared bridge, takes it from the rack that it was given, and reaches it through the trait
/// alone. A box of the rack that isn't blank is never taken.
#[derive(Drop)]
pub struct NetworkOf<B> {
    pub(crate) alloc: Global,
    pub(crate) rule: KindRule,
    pub(crate) rack: Vec<B>,
    pub(crate) boxes: Vec<B>,
    pub(crate) world: World,
    pub(crate) lanes: Lanes,
    /// The customers' frames that left in the present command, in order.
    pub(crate) outs: Vec<Out>,
    pub(crate) rounds: u32,
    pub(crate) drained: u32,
    pub(crate) accepted: u64,
    /// The seconds that each bridge had, under its name.
    pub(crate) ticks: Vec<u32>,
    pub(crate) halted: bool,
    /// Which conditions of quiet hold, since a question found them and until something may change.
    pub(crate) conditions: Option<Conditions>,
    /// The place of the bridge of which paths were asked last. It made ready for more of them.
    pub(crate) asked: Option<usize>,
}

/// A network of bridges in boxes.
pub type Network = NetworkOf<Box<dyn Bridge>>;

impl<B: Bridge> NetworkOf<B> {
    /// The network of a rack of boxes, in which nothing is declared. Takes no memory.
    pub fn new(alloc: Global, rack: Vec<B>) -> Self
        ensures state { state_of B.shown result
            ≡ opening rules.Plain (map (spare B.shown) rack.items) }
        ensures halted { result.halted ≡ false }
        ensures ready { IsReady B.shown result }
    {
        NetworkOf {
            alloc,
            rule: KindRule::Plain,
            rack,
            boxes: Vec::new(alloc),
            world: World::new(alloc),
            lanes: Lanes::new(alloc),
            outs: Vec::new(alloc),
            rounds: 0,
            drained: 0,
            accepted: 0,
            ticks: Vec::new(alloc),
            halted: false,
            conditions: None,
            asked: None,
        }
    }

    /// Sets by which rule bridges take boxes, before the first command. Takes no memory.
    pub fn set_rule(&mut self, rule: KindRule)
        requires halted { self.old.halted ≡ false }
        requires first { self.old.accepted ≡ 0 }
        requires ready { IsReady B.shown self.old }
        ensures state { state_of B.shown self.new
            ≡ record (state_of B.shown self.old) { rule = rule } }
        ensures halted { self.new.halted ≡ false }
        ensures ready { IsReady B.shown self.new }
    {
        self.rule = rule;
        self.conditions = None;
    }

    /// The boxes of the declared bridges, in order of declaration: the network's own, and none is blank unless the
    /// network halted. Takes no memory.
    pub fn boxes(&self) -> &[B]
        ensures same { result.now ≡ self.now.boxes.items }
        ensures views { views_of B.shown result.now ≡ (state_of B.shown self.now).views }
        ensures made { self.now.halted ≡ false → IsReady B.shown self.now → AreConfigured B.shown result.now }
    {
        self.boxes.as_slice()
    }

    /// What is declared and attached. Takes no memory.
    pub fn world(&self) -> &World
        ensures { result.now ≡ (state_of B.shown self.now).world }
    {
        &self.world
    }

    /// Applies a command: one step of play from the present state.
    ///
    /// `Halted` exactly where an earlier command found no memory, and `Refused` with the first reason that holds
    /// exactly where one does. After both nothing is changed, and no memory was taken. After `NoMemory` the network is
    /// halted, and nothing is said of its boxes and lanes. Where a command was accepted, one of the first 120,000, and
    /// the network is quiet after it, it is converged: every bridge has its part of the wiring right. And a `round` of
    /// 2(n - 1) + 6 to 4n + 16 rounds, n being the number of bridges, ends in quiet where the network was ready for
    /// 4n + 16 of them.
    ///
    /// Every form is played. An event answers the customers' frames that left by it, in order; they are handed over and
    /// not copied, and none of them is answered again.
    pub fn apply(&mut self, command: &Command) -> Result<Answer, ApplyError>
        requires { IsReady B.shown self.old }
        ensures applies { Applies B.shown self.old command.now result self.new }
        ensures ready { IsReady B.shown self.new }
        ensures quiet { OnOk result ((state_of B.shown self.new).accepted ≤ most_commands →
            QuietIsConverged (state_of B.shown self.new)) }
        ensures settles { OnOk result ((state_of B.shown self.old).accepted ≤ most_commands →
            Settles (state_of B.shown self.old) command.now (state_of B.shown self.new)) }
    {
        self.apply_noting(command, &mut Seen::unwatched(self.alloc))
    }

    /// Applies a command as [`apply`](NetworkOf::apply) does, and appends the frames that it delivers, in order, each
    /// with the seconds of the bridge to which it comes; none has more than 2,022 bytes. Where it answers an error,
    /// nothing is appended.
    ///
    /// No frame is copied. `NoMemory` comes also where the list can't grow; the network is then halted, as it is
    /// wherever memory is missing.
    pub fn apply_watched(
        &mut self,
        command: &Command,
        seen: &mut Vec<Delivered>,
    ) -> Result<Answer, ApplyError>
        requires { IsReady B.shown self.old }
        ensures watches { Watches B.shown self.old command.now result seen.old.items seen.new.items self.new }
        ensures ready { IsReady B.shown self.new }
        ensures quiet { OnOk result ((state_of B.shown self.new).accepted ≤ most_commands →
            QuietIsConverged (state_of B.shown self.new)) }
        ensures settles { OnOk result ((state_of B.shown self.old).accepted ≤ most_commands →
            Settles (state_of B.shown self.old) command.now (state_of B.shown self.new)) }
    {
        let mut now = Seen::watched(self.alloc);
        let answer = self.apply_noting(command, &mut now)?;
        match now.move_behind(seen) {
            Ok(()) => Ok(answer),
            Err(NoMemory) => {
                self.halted = true;
                Err(ApplyError::NoMemory)
            }
        }
    }

    /// Applies a command, and notes its deliveries if they are watched.
    fn apply_noting(&mut self, command: &Command, seen: &mut Seen) -> Result<Answer, ApplyError>
        requires { IsReady B.shown self.old }
        ensures applies { Applies B.shown self.old command.now result self.new }
        ensures ready { IsReady B.shown self.new }
        ensures quiet { OnOk result ((state_of B.shown self.new).accepted ≤ most_commands →
            QuietIsConverged (state_of B.shown self.new)) }
        ensures settles { OnOk result ((state_of B.shown self.old).accepted ≤ most_commands →
            Settles (state_of B.shown self.old) command.now (state_of B.shown self.new)) }
        ensures seen { OnOk result (seen.new ≡ noted seen.old (seen_of (state_of B.shown self.old) command.now)) }
    {
        if self.halted {
            return Err(ApplyError::Halted);
        }
        match self.refusal(command) {
            Some(reason) => Err(ApplyError::Refused(reason)),
            None => match self.play(command, seen) {
                Ok(answer) => {
                    networks_settle();
                    self.accepted = self.accepted.saturating_add(1);
                    self.halted = false;
                    Ok(answer)
                }
                Err(NoMemory) => {
                    self.halted = true;
                    Err(ApplyError::NoMemory)
                }
            },
        }
    }
}
