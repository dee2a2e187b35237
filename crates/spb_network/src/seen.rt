//! The deliveries of a command, noted where they are watched.
ghost use Rattle.std.specs.Prelude.{◌≡◌, List, [], ◌∷◌, ◌++◌, true, false, None, Some, slice_get, OnOk, OnErr};
ghost use Rattle.std.specs.Option.{is_some};
ghost use Rattle.spb_types.specs.Places.{changed_at};
ghost use Rattle.network_model.specs.declared.delivered.Delivered.{Delivered};
ghost use Rattle.network_model.specs.Captured as capture;
ghost use Rattle.network_model.specs.Events as event;
ghost use Rattle.network_model.specs.State.{links_of, tick_at};
ghost use Rattle.spb_network.specs.Network.{state_of};
ghost use Rattle.spb_network.specs.Watching.{noted};

use crate::{Delivered, NetworkOf};
use bridge_api::Bridge;
use link_model::LaneId;
use shared_frames::Frame;
use spb_types::NoMemory;
use spb_world::link_ends;
use std::alloc::Global;
use std::marker::Model;

/// The deliveries of a command, in order, or nothing, where they aren't watched.
#[derive(Drop)]
pub struct Seen {
    watched: bool,
    items: Vec<Delivered>,
}

impl Model for Seen {
    ghost use Rattle.std.specs.Prelude.{List, Option, Some, None, if◌then◌else◌};
    ghost use Rattle.network_model.specs.declared.delivered.Delivered.{Delivered};

    ghost Value = { Option (List Delivered) };

    ghost view = { λ seen. if seen.watched then Some seen.items.items else None };
}

impl Seen {
    /// Deliveries aren't watched. Takes no memory.
    pub fn unwatched(alloc: Global) -> Self
        ensures { result ≡ None }
    {
        Seen {
            watched: false,
            items: Vec::new(alloc),
        }
    }

    /// Deliveries are watched, and none was seen. Takes no memory.
    pub fn watched(alloc: Global) -> Self
        ensures { result ≡ Some [] }
    {
        Seen {
            watched: true,
            items: Vec::new(alloc),
        }
    }

    /// Whether deliveries are watched.
    pub fn is_watched(&self) -> bool
        ensures { result ≡ is_some self.now }
    {
        self.watched
    }

    /// Notes a delivery, if they are watched. The frame gets an owner more, and no byte is copied.
    fn note(&mut self, tick: u32, frame: &Frame) -> Result<(), NoMemory>
        ensures { OnOk result (self.new ≡ noted self.old (record { tick = tick; frame = frame.now } ∷ [])) }
    {
        let frame = frame.share()?;
        self.items.push(Delivered { tick, frame })?;
        Ok(())
    }

    /// Moves what was seen, where it was watched, behind a list. After `NoMemory` the list is as it was.
    pub fn move_behind(self, list: &mut Vec<Delivered>) -> Result<(), NoMemory>
        ensures ok { OnOk result ((ds : List Delivered) → self ≡ Some ds → list.new.items ≡ list.old.items ++ ds) }
        ensures err { OnErr result (list.new.items ≡ list.old.items) }
    {
        let mut items = self.items;
        if list.is_empty() {
            *list = items;
            return Ok(());
        }
        list.append(&mut items)?;
        Ok(())
    }
}

impl<B: Bridge> NetworkOf<B> {
    /// One second more of the bridge at a place is counted.
    pub(crate) fn count_second(&mut self, i: usize)
        ensures state { state_of B.shown self.new ≡ event.with_second (state_of B.shown self.old) i }
        ensures boxes { self.new.boxes ≡ self.old.boxes }
    {
        if i < self.ticks.len() {
            self.ticks[i] = self.ticks[i].saturating_add(1);
        }
    }

    /// The seconds that the bridge at a place had.
    fn tick_of(&self, i: usize) -> u32
        ensures { result ≡ tick_at (state_of B.shown self.now) i }
    {
        match self.ticks.get(i) {
            None => 0,
            Some(tick) => *tick,
        }
    }

    /// Notes that a frame comes to the far end of a lane, if deliveries are watched.
    #[inline(always)]
    pub(crate) fn note(&self, lane: LaneId, frame: &Frame, seen: &mut Seen) -> Result<(), NoMemory>
        ensures { OnOk result (seen.new ≡ noted seen.old (capture.seen_over (state_of B.shown self.now) lane.dir
            frame.now (slice_get (links_of (state_of B.shown self.now)) lane.link))) }
    {
        if seen.is_watched() {
            self.note_arrival(lane, frame, seen)
        } else {
            Ok(())
        }
    }

    /// Notes that a frame comes to the far end of a lane.
    #[inline(never)]
    fn note_arrival(&self, lane: LaneId, frame: &Frame, seen: &mut Seen) -> Result<(), NoMemory>
        ensures { OnOk result (seen.new ≡ noted seen.old (capture.seen_over (state_of B.shown self.now) lane.dir
            frame.now (slice_get (links_of (state_of B.shown self.now)) lane.link))) }
    {
        match self.world.link(lane.link) {
            None => Ok(()),
            Some(link) => {
                let end = link_ends::far_end(link, lane.dir);
                seen.note(self.tick_of(end.bridge), frame)
            }
        }
    }
}
