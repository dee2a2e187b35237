//! Rounds that pass in calm, all at once.
ghost use Rattle.std.specs.Prelude.{◌≡◌, ◌≤◌, true, None, length, map, OnOk};
ghost use Rattle.std.specs.List.{AllByRecursion};
ghost use Rattle.bridge_api.specs.Calm.{IsCalmFor, aged_by};
ghost use Rattle.bridge_api.specs.Shown.{views_of};
ghost use Rattle.network_model.specs.Quiet.{holds_q2};
ghost use Rattle.network_rounds.specs.Calm.{AreCalmFor, ticks_after, passed_by};
ghost use Rattle.spb_network.specs.Network.{state_of, AreConfigured, IsInOrder};

use crate::NetworkOf;
use crate::seen::Seen;
use bridge_api::Bridge;
use spb_types::NoMemory;

/// So many, as far as 16 bits count.
fn counted(n: u32) -> u16
    ensures { result ≤ n }
{
    n.min(u32::from(u16::MAX)) as u16
}

/// For how many seconds, and no more than so many, every bridge can tell that they pass in calm. 0 where one can't.
fn calm_seconds<B: Bridge>(boxes: &[B], most: u16) -> u16
    requires made { AreConfigured B.shown boxes.now }
    ensures most { result ≤ most }
    ensures calm { 1 ≤ result → AllByRecursion (IsCalmFor result) (views_of B.shown boxes.now) }
{
    let mut least = most;
    for bridge in boxes {
        least = least.min(bridge.calm_seconds());
        if least == 0 {
            return 0;
        }
    }
    least
}

/// So many seconds pass in calm at every bridge.
fn pass_calm<B: Bridge>(boxes: &mut Vec<B>, seconds: u16) -> Result<(), NoMemory>
    requires made { AreConfigured B.shown boxes.old.items }
    requires calm { AllByRecursion (IsCalmFor seconds) (views_of B.shown boxes.old.items) }
    ensures views { OnOk result (views_of B.shown boxes.new.items
        ≡ map (aged_by seconds) (views_of B.shown boxes.old.items)) }
    ensures made { OnOk result (AreConfigured B.shown boxes.new.items) }
{
    for bridge in boxes.iter_mut() {
        bridge.pass_calm(seconds)?;
    }
    Ok(())
}

/// So many seconds more of a bridge are counted.
fn count_on(tick: &mut u32, seconds: u16)
    ensures { tick.new ≡ ticks_after seconds tick.old }
{
    *tick = tick.saturating_add(u32::from(seconds));
}

/// So many seconds more of every bridge are counted.
fn count_seconds(ticks: &mut Vec<u32>, seconds: u16)
    ensures { ticks.new.items ≡ map (ticks_after seconds) ticks.old.items }
{
    for tick in ticks.iter_mut() {
        count_on(tick, seconds);
    }
}

impl<B: Bridge> NetworkOf<B> {
    /// Whether rounds that pass in calm may go unplayed: deliveries aren't watched, the seconds of every bridge are
    /// counted, and no frame is on its way.
    fn may_leap(&self, seen: &Seen) -> bool
        ensures unwatched { result ≡ true → seen.now ≡ None }
        ensures counted { result ≡ true → length self.now.ticks.items ≡ length self.now.boxes.items }
        ensures empty { result ≡ true → holds_q2 (state_of B.shown self.now) ≡ true }
    {
        !seen.is_watched() && self.ticks.len() == self.boxes.len() && self.are_lanes_empty()
    }

    /// How many rounds, and no more than so many, pass in calm and needn't be played; 0 where the next one is to be
    /// played.
    pub(crate) fn calm_rounds(&self, most: u32, seen: &Seen) -> u16
        requires { IsInOrder B.shown self.now }
        ensures most { result ≤ most }
        ensures unwatched { 1 ≤ result → seen.now ≡ None }
        ensures calm { 1 ≤ result → AreCalmFor result (state_of B.shown self.now) }
    {
        if !self.may_leap(seen) {
            return 0;
        }
        calm_seconds(&self.boxes, counted(most))
    }

    /// So many rounds pass in calm.
    pub(crate) fn pass_rounds(&mut self, n: u16) -> Result<(), NoMemory>
        requires order { IsInOrder B.shown self.old }
        requires calm { AreCalmFor n (state_of B.shown self.old) }
        ensures state { OnOk result (state_of B.shown self.new ≡ passed_by n (state_of B.shown self.old)) }
        ensures made { OnOk result (AreConfigured B.shown self.new.boxes.items) }
    {
        pass_calm(&mut self.boxes, n)?;
        count_seconds(&mut self.ticks, n);
        Ok(())
    }
}
