//! What stands in a network, looked up by number: its counts, what its bridges hold, and the frames in its lanes. None of
//! these calls takes memory.
ghost use Rattle.std.specs.Prelude.{◌≡◌, ◌<◌, ◌*◌, false, length, slice_get};
ghost use Rattle.std.specs.Option.{option_map, option_copied};
ghost use Rattle.lsdb.specs.Database.{keyed};
ghost use Rattle.bridge_api.specs.Shown.{views_of};
ghost use Rattle.spb_world.specs.World.{system_at};
ghost use Rattle.spb_network.specs.Contents as spec;
ghost use Rattle.spb_network.specs.Contents.{entry_held, frames_of};
ghost use Rattle.spb_network.specs.Network.{state_of, AreConfigured};
ghost use Rattle.spb_network.specs.Applying.{IsReady};

use crate::NetworkOf;
use bridge_api::Bridge;
use link_model::LaneId;
use lsdb::Held;
use scenario::Dir;
use spb_types::SystemId;

/// The direction of the lane of a number.
fn dir_of(lane: usize) -> Dir
    ensures { result ≡ spec.dir_of lane }
{
    if lane % 2 == 0 { Dir::Ab } else { Dir::Ba }
}

/// What the bridge at a place holds at a place, in order of id.
fn entry_of<B: Bridge>(boxes: &[B], bridge: usize, place: usize) -> Option<&Held>
    requires { AreConfigured B.shown boxes.now }
    ensures { option_map keyed (option_copied result) ≡ entry_held (views_of B.shown boxes.now) bridge place }
{
    match boxes.get(bridge) {
        None => None,
        Some(found) => found.entry(place),
    }
}

impl<B: Bridge> NetworkOf<B> {
    /// How many bridges are declared.
    pub fn bridge_count(&self) -> usize
        ensures { result ≡ length (state_of B.shown self.now).views }
    {
        self.boxes.len()
    }

    /// The system id of the bridge at a place in order of declaration, or zeros past the last bridge.
    pub fn system_of(&self, bridge: usize) -> SystemId
        ensures { result ≡ system_at (state_of B.shown self.now).world.bridges bridge }
    {
        self.world.system(bridge)
    }

    /// What a declared bridge holds at a place, counted from 0, in order of LSP id; None exactly past the last.
    pub fn entry_of(&self, bridge: usize, place: usize) -> Option<&Held>
        requires halted { self.now.halted ≡ false }
        requires ready { IsReady B.shown self.now }
        requires bridge { bridge < length (state_of B.shown self.now).views }
        ensures { option_map keyed (option_copied result)
            ≡ entry_held (state_of B.shown self.now).views bridge place }
    {
        entry_of(&self.boxes, bridge, place)
    }

    /// How many lanes there are: two for each link.
    pub fn lane_count(&self) -> usize
        ensures { result ≡ 2 * length (state_of B.shown self.now).lanes }
    {
        self.lanes.lanes()
    }

    /// The frame at a place of a lane, counted from 0 at the front; None exactly past the last. The lanes of the link
    /// that was declared as number j, counted from 0, are 2j from its end a to its end b, and 2j + 1 the other way.
    pub fn frame_at(&self, lane: usize, place: usize) -> Option<&[u8]>
        requires { lane < 2 * length (state_of B.shown self.now).lanes }
        ensures { option_copied result ≡ slice_get (frames_of (state_of B.shown self.now) lane) place }
    {
        let id = LaneId {
            link: lane / 2,
            dir: dir_of(lane),
        };
        self.lanes.frame(id, place)
    }

    /// How many rounds were played: `round n` is n of them.
    pub fn rounds_used(&self) -> u32
        ensures { result ≡ (state_of B.shown self.now).rounds }
    {
        self.rounds
    }

    /// Whether an earlier command found no memory.
    pub fn is_halted(&self) -> bool
        ensures { result ≡ self.now.halted }
    {
        self.halted
    }
}
