//! The lanes of all links in a list, each found by its id.
ghost use Rattle.std.specs.Prelude.{◌≡◌, ℕ, ◌*◌, ◌≤◌, ◌<◌, [], ◌∷◌, ◌++◌, length, None, OnOk, OnErr, slice_get};
ghost use Rattle.std.specs.Option.{option_map, option_copied};
ghost use Rattle.std.specs.Borrow.{sem};
ghost use Rattle.spb_types.specs.Places.{changed_at};
ghost use Rattle.link_model.specs.Lane.{pushed, after_lose, after_double};
ghost use Rattle.link_model.specs.Lanes.{lane_in, lane_of, rest, no_frames, changed_frames, full_at};
ghost use Rattle.link_model.specs.Lending.{LendsLaneAt};

use crate::lanes::{LaneId, LinkLanes};
use crate::{DoubleError, Lane};
use shared_frames::Frame;
use spb_types::{Dir, NoMemory};
use std::alloc::Global;
use std::marker::Model;

/// The lanes of a network's links, in order of declaration. A place past the last link is one where nothing happens.
/// Contracts see the list of each link's two lanes.
#[derive(Debug, Drop)]
pub(crate) struct AllLanes {
    links: Vec<LinkLanes>,
}

impl Model for AllLanes {
    ghost use Rattle.std.specs.Prelude.{List};
    ghost use Rattle.link_model.specs.declared.lanes.LinkLanes.{LinkLanes};

    ghost Value = { List LinkLanes };

    ghost view = { λ lanes. lanes.links.items };
}

impl AllLanes {
    /// No lanes, which take no memory.
    pub fn new(alloc: Global) -> Self
        ensures { result ≡ [] }
    {
        AllLanes {
            links: Vec::new(alloc),
        }
    }

    /// How many links have lanes.
    pub fn links(&self) -> usize
        ensures { result ≡ length self.now }
    {
        self.links.len()
    }

    /// Two empty lanes for one link more. After NoMemory nothing changed.
    pub fn add_link(&mut self) -> Result<(), NoMemory>
        ensures ok { OnOk result (self.new ≡ self.old ++ no_frames ∷ []) }
        ensures err { OnErr result (self.new ≡ self.old) }
    {
        let lanes = LinkLanes::new(*self.links.allocator());
        self.links.push(lanes)?;
        Ok(())
    }

    /// How many frames stand in a lane.
    pub fn frames(&self, id: LaneId) -> usize
        ensures { result ≡ length (lane_of self.now id.link id.dir) }
    {
        match self.links.get(id.link) {
            None => 0,
            Some(lanes) => lanes.lane(id.dir).len(),
        }
    }

    /// How many lanes there are: two for each link.
    pub fn lanes(&self) -> usize
        ensures { result ≡ 2 * length self.now }
    {
        2 * self.links.len()
    }

    /// The frame at a place of a lane, counted from 0 at the front. None exactly where there is none.
    pub fn frame(&self, id: LaneId, place: usize) -> Option<&[u8]>
        ensures { option_copied result ≡ slice_get (lane_of self.now id.link id.dir) place }
    {
        match self.links.get(id.link) {
            None => None,
            Some(lanes) => lanes.lane(id.dir).at(place),
        }
    }

    /// The lane of an id, to be changed. None exactly where its link has none.
    fn lane_mut(&mut self, id: LaneId) -> Option<&mut Lane>
        ensures* writes_back { sem 𝓛 (LendsLaneAt self.entry id result) }
        ensures lane { option_map (λ lane. lane.now) result
            ≡ option_map (lane_in id.dir) (slice_get self.old id.link) }
    {
        let lanes = self.links.get_mut(id.link)?;
        Some(lanes.lane_mut(id.dir))
    }

    /// A frame goes into a lane. It is lost where 1,024 frames stand. After NoMemory nothing changed.
    pub fn push(&mut self, id: LaneId, frame: Frame) -> Result<(), NoMemory>
        ensures ok { OnOk result (self.new
            ≡ changed_frames (λ frames. pushed frames frame) self.old id.link id.dir) }
        ensures err { OnErr result (self.new ≡ self.old) }
    {
        match self.lane_mut(id) {
            None => Ok(()),
            Some(lane) => {
                let _pushed = lane.push(frame)?;
                Ok(())
            }
        }
    }

    /// Takes the frame at the front of a lane. None exactly where there is none.
    pub fn pop(&mut self, id: LaneId) -> Option<Frame>
        ensures frame { result ≡ slice_get (lane_of self.old id.link id.dir) 0 }
        ensures rest { self.new ≡ changed_frames rest self.old id.link id.dir }
    {
        match self.lane_mut(id) {
            None => None,
            Some(lane) => lane.pop(),
        }
    }

    /// The frame at a place of a lane, counted from 0 at the front, is lost. Nothing happens where there is none.
    pub fn lose(&mut self, id: LaneId, place: usize)
        ensures { self.new ≡ changed_frames (λ frames. after_lose frames place) self.old id.link id.dir }
    {
        match self.lane_mut(id) {
            None => {}
            Some(lane) => {
                let _lost = lane.lose(place);
            }
        }
    }

    /// The frame at a place of a lane, counted from 0 at the front, is doubled: it stands right behind itself once more,
    /// or is lost there where 1,024 frames stand. Nothing happens where there is no frame. After NoMemory nothing changed.
    pub fn double(&mut self, id: LaneId, place: usize) -> Result<(), NoMemory>
        ensures ok { OnOk result (self.new
            ≡ changed_frames (λ frames. after_double frames place (slice_get frames place)) self.old id.link id.dir) }
        ensures err { OnErr result (self.new ≡ self.old) }
    {
        match self.lane_mut(id) {
            None => Ok(()),
            Some(lane) => match lane.double(place) {
                Ok(()) => Ok(()),
                Err(DoubleError::NoFrame) => Ok(()),
                Err(DoubleError::NoMemory) => Err(NoMemory),
            },
        }
    }

    /// Both lanes of the link at a place lose their frames.
    pub fn flush(&mut self, link: usize)
        ensures { self.new ≡ changed_at (λ _. no_frames) self.old link }
    {
        if let Some(lanes) = self.links.get_mut(link) {
            lanes.flush();
        }
    }

    /// The lane of the link at a place that isn't empty, ab before ba. None exactly where both are empty.
    pub fn full_at(&self, link: usize) -> Option<LaneId>
        ensures { result ≡ full_at self.now link }
    {
        let ab = LaneId { link, dir: Dir::Ab };
        if self.frames(ab) > 0 {
            return Some(ab);
        }
        let ba = LaneId { link, dir: Dir::Ba };
        if self.frames(ba) > 0 {
            return Some(ba);
        }
        None
    }

    /// The first link from a place on of which a lane isn't empty, or how many links there are.
    pub fn first_busy(&self, first: usize) -> usize
        ensures idle { (k : ℕ) → first ≤ k → k < result → full_at self.now k ≡ None }
        ensures end { full_at self.now result ≡ None → length self.now ≤ result }
    {
        for link in first..self.links.len() {
            if self.full_at(link).is_some() {
                return link;
            }
        }
        self.links.len().max(first)
    }
}
