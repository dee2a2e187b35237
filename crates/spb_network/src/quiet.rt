//! Whether a network is quiet: which of the three conditions fail.
ghost use Rattle.std.specs.Prelude.{◌≡◌, ◌++◌, false, true, not, slice_get, IfOk, OnOk};
ghost use Rattle.std.specs.List.{list_all};
ghost use Rattle.std.specs.Option.{option_map_or};
ghost use Rattle.adjacency.specs.Adjacency.{is_up};
ghost use Rattle.bridge_api.specs.View.{has_flags};
ghost use Rattle.bridge_api.specs.Shown.{views_of};
ghost use Rattle.spb_network.specs.Applying.{IsReady, IsSoundNetwork};
ghost use Rattle.spb_network.specs.Network.{state_of, AreConfigured};
ghost use Rattle.network_model.specs.State.{IsPortAt, links_of};
ghost use Rattle.network_model.specs.Quiet.{holds_q1, holds_q2, holds_q3, failing, unless_holds};
ghost use Rattle.network_model.specs.Questions as question;
ghost use Rattle.network_model.specs.Quieting.{is_end_up, is_link_up, conditions_of, numbers_of};

use crate::{LinkEnd, NetworkOf};
use adjacency::AdjState;
use bridge_api::Bridge;
use network_model::Conditions;
use spb_types::NoMemory;
use std::alloc::Global;

/// Whether a state is Up.
fn is_up(state: AdjState) -> bool
    ensures { result ≡ is_up state }
{
    match state {
        AdjState::Down | AdjState::Initializing => false,
        AdjState::Up => true,
    }
}

/// Whether the port at an end of a link is Up.
fn is_end_up<B: Bridge>(boxes: &[B], end: LinkEnd) -> bool
    requires made { AreConfigured B.shown boxes.now }
    requires port { IsPortAt (views_of B.shown boxes.now) end.bridge end.port }
    ensures { result ≡ is_end_up (views_of B.shown boxes.now) end }
{
    match boxes.get(end.bridge) {
        None => false,
        Some(bridge) => is_up(bridge.adjacent(end.port).state),
    }
}

/// Whether the bridge at a place has an LSP to send, to acknowledge or to ask for, or CSNPs that are due.
fn is_clear<B: Bridge>(boxes: &[B], place: usize) -> bool
    requires made { AreConfigured B.shown boxes.now }
    ensures { result ≡ option_map_or (λ v. not (has_flags v)) (slice_get (views_of B.shown boxes.now) place) true }
{
    match boxes.get(place) {
        None => true,
        Some(bridge) => !bridge.has_flag(),
    }
}

/// Whether no bridge has.
fn are_clear<B: Bridge>(boxes: &[B]) -> bool
    requires made { AreConfigured B.shown boxes.now }
    ensures { result ≡ list_all (λ v. not (has_flags v)) (views_of B.shown boxes.now) }
{
    for place in 0..boxes.len() {
        if !is_clear(boxes, place) {
            return false;
        }
    }
    true
}

/// Notes the number of a condition that doesn't hold.
fn note_unless(holds: bool, number: u8, numbers: &mut Vec<u8>) -> Result<(), NoMemory>
    ensures { OnOk result (numbers.new.items ≡ numbers.old.items ++ unless_holds number holds) }
{
    if !holds {
        numbers.push(number)?;
    }
    Ok(())
}

/// The numbers of the conditions that fail, in ascending order.
fn numbers_of(alloc: Global, found: Conditions) -> Result<Vec<u8>, NoMemory>
    ensures { IfOk result (λ numbers. numbers.items ≡ numbers_of found) }
{
    let mut numbers = Vec::new(alloc);
    note_unless(found.links, 1, &mut numbers)?;
    note_unless(found.lanes, 2, &mut numbers)?;
    note_unless(found.flags, 3, &mut numbers)?;
    Ok(numbers)
}

impl<B: Bridge> NetworkOf<B> {
    /// Whether both ports of the link at a place are Up, if there is such a link and it is up.
    fn is_link_up(&self, place: usize) -> bool
        requires { IsSoundNetwork B.shown self.now }
        ensures { result ≡ option_map_or (is_link_up (state_of B.shown self.now).views)
            (slice_get (links_of (state_of B.shown self.now)) place) true }
    {
        match self.world.link(place) {
            None => true,
            Some(link) => {
                !link.live || (is_end_up(&self.boxes, link.a) && is_end_up(&self.boxes, link.b))
            }
        }
    }

    /// Whether both ends of each link that is up are Up with each other, and no other port is Up. The states tell,
    /// since the neighbour at each port is the far end of the link there.
    fn are_links_up(&self) -> bool
        requires { IsSoundNetwork B.shown self.now }
        ensures { result ≡ holds_q1 (state_of B.shown self.now) }
    {
        for place in 0..self.lanes.links() {
            if !self.is_link_up(place) {
                return false;
            }
        }
        true
    }

    /// Whether every lane is empty.
    pub(crate) fn are_lanes_empty(&self) -> bool
        ensures { result ≡ holds_q2 (state_of B.shown self.now) }
    {
        self.lanes.are_empty()
    }

    /// Whether no bridge has a flag.
    #[tactic(auto, unfolding(network_model::specs::Quiet::holds_q3))]
    fn are_flags_clear(&self) -> bool
        requires { IsSoundNetwork B.shown self.now }
        ensures { result ≡ holds_q3 (state_of B.shown self.now) }
    {
        are_clear(&self.boxes)
    }

    /// Which conditions hold, found anew.
    fn find_conditions(&self) -> Conditions
        requires { IsSoundNetwork B.shown self.now }
        ensures { result ≡ conditions_of (state_of B.shown self.now) }
    {
        Conditions {
            links: self.are_links_up(),
            lanes: self.are_lanes_empty(),
            flags: self.are_flags_clear(),
        }
    }

    /// Which conditions hold: those that are kept, or else found anew.
    fn conditions(&self) -> Conditions
        requires { IsSoundNetwork B.shown self.now }
        ensures { result ≡ conditions_of (state_of B.shown self.now) }
    {
        match self.conditions {
            Some(kept) => kept,
            None => self.find_conditions(),
        }
    }

    /// Keeps which conditions hold.
    pub(crate) fn keep_conditions(&mut self)
        requires { IsSoundNetwork B.shown self.old }
        ensures state { state_of B.shown self.new ≡ state_of B.shown self.old }
        ensures sound { IsSoundNetwork B.shown self.new }
        ensures halted { self.new.halted ≡ self.old.halted }
    {
        let found = self.conditions();
        self.conditions = Some(found);
    }

    /// Whether the network is quiet: none of the conditions of quiet fails. Takes no memory.
    #[tactic(auto, unfolding(network_model::specs::Quiet::failing))]
    pub fn is_quiet(&self) -> bool
        requires halted { self.now.halted ≡ false }
        requires ready { IsReady B.shown self.now }
        ensures { result ≡ question.is_quiet (state_of B.shown self.now) }
    {
        let found = self.conditions();
        found.links && found.lanes && found.flags
    }

    /// The numbers of the conditions of quiet that fail, in ascending order: 1 both ends of each link that is up are
    /// Up with each other and no other port is Up, 2 no frame is on its way, 3 no bridge has a flag. None fails exactly
    /// where the network is quiet.
    pub fn failing(&self) -> Result<Vec<u8>, NoMemory>
        requires halted { self.now.halted ≡ false }
        requires ready { IsReady B.shown self.now }
        ensures { IfOk result (λ numbers. numbers.items ≡ failing (state_of B.shown self.now)) }
    {
        numbers_of(self.alloc, self.conditions())
    }
}
