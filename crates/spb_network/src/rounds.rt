//! Many events: rounds, and deliveries until all lanes are empty.
ghost use Rattle.std.specs.Prelude.{◌≡◌, ◌≤◌, OnOk, IfOk};
ghost use Rattle.link_model.specs.Lanes.{first_full_from};
ghost use Rattle.network_model.specs.Captured as capture;
ghost use Rattle.network_model.specs.Events as event;
ghost use Rattle.network_model.specs.Sound.{IsSoundState};
ghost use Rattle.spb_network.specs.Network.{state_of, IsInOrder};
ghost use Rattle.spb_network.specs.Watching.{noted};

use crate::NetworkOf;
use crate::seen::Seen;
use bridge_api::Bridge;
use link_model::LaneId;
use network_rounds::calm_rounds_pass;
use scenario::Dir;
use spb_types::NoMemory;

impl<B: Bridge> NetworkOf<B> {
    /// Every bridge ticks, in order of declaration.
    fn tick_all(&mut self) -> Result<(), NoMemory>
        requires { IsInOrder B.shown self.old }
        ensures state { OnOk result (state_of B.shown self.new
            ≡ event.all_ticked (state_of B.shown self.old)) }
        ensures order { OnOk result (IsInOrder B.shown self.new) }
    {
        for i in 0..self.boxes.len() {
            self.tick(i)?;
        }
        Ok(())
    }

    /// As many frames of a lane are delivered as it holds.
    #[tactic(auto, unfolding(network_model::specs::Events::lane_served, network_model::specs::Captured::seen_lane))]
    fn serve_lane(&mut self, lane: LaneId, seen: &mut Seen) -> Result<(), NoMemory>
        requires { IsInOrder B.shown self.old }
        ensures state { OnOk result (state_of B.shown self.new
            ≡ event.lane_served (state_of B.shown self.old) lane.link lane.dir) }
        ensures order { OnOk result (IsInOrder B.shown self.new) }
        ensures seen { OnOk result (seen.new
            ≡ noted seen.old (capture.seen_lane (state_of B.shown self.old) lane.link lane.dir)) }
    {
        for _ in 0..self.lanes.frames(lane) {
            self.deliver(lane, seen)?;
        }
        Ok(())
    }

    /// Both lanes of the link at a place are served, ab before ba.
    fn serve_link(&mut self, link: usize, seen: &mut Seen) -> Result<(), NoMemory>
        requires { IsInOrder B.shown self.old }
        ensures state { OnOk result (state_of B.shown self.new
            ≡ event.link_served (state_of B.shown self.old) link) }
        ensures order { OnOk result (IsInOrder B.shown self.new) }
        ensures seen { OnOk result (seen.new
            ≡ noted seen.old (capture.seen_link (state_of B.shown self.old) link)) }
    {
        self.serve_lane(LaneId { link, dir: Dir::Ab }, seen)?;
        self.serve_lane(LaneId { link, dir: Dir::Ba }, seen)
    }

    /// Every link is served, in order of declaration.
    fn serve_all(&mut self, seen: &mut Seen) -> Result<(), NoMemory>
        requires { IsInOrder B.shown self.old }
        ensures state { OnOk result (state_of B.shown self.new
            ≡ event.all_served (state_of B.shown self.old)) }
        ensures order { OnOk result (IsInOrder B.shown self.new) }
        ensures seen { OnOk result (seen.new
            ≡ noted seen.old (capture.all_seen (state_of B.shown self.old))) }
    {
        for link in 0..self.lanes.links() {
            self.serve_link(link, seen)?;
        }
        Ok(())
    }

    /// So many rounds. In each every bridge ticks, and then every link is served. Those that pass in calm aren't played
    /// one by one.
    pub(crate) fn play_rounds(&mut self, n: u32, seen: &mut Seen) -> Result<(), NoMemory>
        requires order { IsInOrder B.shown self.old }
        requires sound { IsSoundState (state_of B.shown self.old) }
        ensures state { OnOk result (state_of B.shown self.new
            ≡ event.rounds n (state_of B.shown self.old)) }
        ensures order { OnOk result (IsInOrder B.shown self.new) }
        ensures seen { OnOk result (seen.new
            ≡ noted seen.old (capture.seen_rounds n (state_of B.shown self.old))) }
    {
        let mut left = n;
        while left > 0 {
            left -= self.play_some(left, seen)?;
        }
        Ok(())
    }

    /// The first of so many rounds, and how many they are: as many as pass in calm, or else one.
    fn play_some(&mut self, most: u32, seen: &mut Seen) -> Result<u32, NoMemory>
        requires order { IsInOrder B.shown self.old }
        requires sound { IsSoundState (state_of B.shown self.old) }
        requires some { 1 ≤ most }
        ensures some { IfOk result (λ n. 1 ≤ n) }
        ensures most { IfOk result (λ n. n ≤ most) }
        ensures state { IfOk result (λ n. state_of B.shown self.new
            ≡ event.rounds n (state_of B.shown self.old)) }
        ensures order { OnOk result (IsInOrder B.shown self.new) }
        ensures sound { OnOk result (IsSoundState (state_of B.shown self.new)) }
        ensures seen { IfOk result (λ n. seen.new
            ≡ noted seen.old (capture.seen_rounds n (state_of B.shown self.old))) }
    {
        let calm = self.calm_rounds(most, seen);
        if calm == 0 {
            self.play_round(seen)?;
            return Ok(1);
        }
        calm_rounds_pass();
        self.pass_rounds(calm)?;
        Ok(u32::from(calm))
    }

    /// One round.
    #[tactic(auto, unfolding(network_model::specs::Events::one_round, network_model::specs::Captured::seen_round))]
    fn play_round(&mut self, seen: &mut Seen) -> Result<(), NoMemory>
        requires { IsInOrder B.shown self.old }
        ensures state { OnOk result (state_of B.shown self.new
            ≡ event.one_round (state_of B.shown self.old)) }
        ensures order { OnOk result (IsInOrder B.shown self.new) }
        ensures seen { OnOk result (seen.new
            ≡ noted seen.old (capture.seen_round (state_of B.shown self.old))) }
    {
        self.tick_all()?;
        self.serve_all(seen)
    }

    /// The first lane that isn't empty.
    fn first_full(&mut self) -> Option<LaneId>
        requires { IsInOrder B.shown self.old }
        ensures lane { result ≡ first_full_from 0 (state_of B.shown self.old).lanes }
        ensures state { state_of B.shown self.new ≡ state_of B.shown self.old }
        ensures order { IsInOrder B.shown self.new }
    {
        self.lanes.first_full()
    }

    /// At most so many deliveries, each from the first lane that isn't empty.
    pub(crate) fn play_drain(&mut self, n: u32, seen: &mut Seen) -> Result<(), NoMemory>
        requires { IsInOrder B.shown self.old }
        ensures state { OnOk result (state_of B.shown self.new
            ≡ event.drained n (state_of B.shown self.old)) }
        ensures order { OnOk result (IsInOrder B.shown self.new) }
        ensures seen { OnOk result (seen.new
            ≡ noted seen.old (capture.seen_drained n (state_of B.shown self.old))) }
    {
        for _ in 0..n {
            let Some(lane) = self.first_full() else {
                return Ok(());
            };
            self.deliver(lane, seen)?;
        }
        Ok(())
    }
}
