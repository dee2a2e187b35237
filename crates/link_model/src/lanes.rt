//! The lanes of all links, two for each, by the place of the link.
ghost use Rattle.std.specs.Prelude.{◌≡◌, ◌*◌, [], ◌∷◌, ◌++◌, length, is_none, OnOk, OnErr, slice_get};
ghost use Rattle.std.specs.Option.{option_copied};
ghost use Rattle.std.specs.Borrow.{sem};
ghost use Rattle.spb_types.specs.Places.{changed_at};
ghost use Rattle.link_model.specs.Lane.{pushed, after_lose, after_double};
ghost use Rattle.link_model.specs.Lanes.{lane_in, lane_of, rest, no_frames, changed_frames, first_full_from};
ghost use Rattle.link_model.specs.Lending.{LendsLane};

use crate::Lane;
use crate::all_lanes::AllLanes;
use shared_frames::Frame;
use spb_types::{Dir, NoMemory};
use std::alloc::Global;
use std::marker::Model;

/// A lane: the link by place in order of declaration, counted from 0, and a direction.
#[derive(Clone, Copy, Debug, PartialEq, Eq)]
pub struct LaneId {
    pub link: usize,
    pub dir: Dir,
}

/// The two lanes of a link.
#[derive(Debug, Drop)]
pub struct LinkLanes {
    /// From end a to end b.
    pub ab: Lane,
    /// From end b to end a.
    pub ba: Lane,
}

impl LinkLanes {
    /// Two empty lanes, which take no memory.
    pub(crate) fn new(alloc: Global) -> Self
        ensures { result ≡ no_frames }
    {
        LinkLanes {
            ab: Lane::new(alloc),
            ba: Lane::new(alloc),
        }
    }

    /// The lane of a direction.
    pub(crate) fn lane(&self, dir: Dir) -> &Lane
        ensures { result.now ≡ lane_in dir self.now }
    {
        match dir {
            Dir::Ab => &self.ab,
            Dir::Ba => &self.ba,
        }
    }

    /// Both lanes lose their frames.
    pub(crate) fn flush(&mut self)
        ensures { self.new ≡ no_frames }
    {
        self.ab.flush();
        self.ba.flush();
    }

    /// The lane of a direction, to be changed.
    pub(crate) fn lane_mut(&mut self, dir: Dir) -> &mut Lane
        ensures* writes_back { sem 𝓛 (LendsLane self.entry dir result) }
        ensures lane { result.now ≡ lane_in dir self.old }
    {
        match dir {
            Dir::Ab => &mut self.ab,
            Dir::Ba => &mut self.ba,
        }
    }
}

/// The lanes of a network's links, in order of declaration. A place past the last link is one where nothing happens.
/// Contracts see the list of each link's two lanes.
#[derive(Debug, Drop)]
pub struct Lanes {
    all: AllLanes,
    /// The lanes of all links before this place are empty, so a look for a frame begins here.
    idle: usize,
}

impl Model for Lanes {
    ghost use Rattle.std.specs.Prelude.{List};
    ghost use Rattle.link_model.specs.declared.lanes.LinkLanes.{LinkLanes};
    ghost use Rattle.link_model.specs.Lanes.{AreIdle};

    ghost Value = { List LinkLanes };

    ghost view = { λ lanes. lanes.all };

    ghost invariant = { λ lanes. AreIdle lanes.idle lanes.all };
}

impl Lanes {
    /// No lanes, which take no memory.
    pub fn new(alloc: Global) -> Self
        ensures { result ≡ [] }
    {
        Lanes {
            all: AllLanes::new(alloc),
            idle: 0,
        }
    }

    /// How many links have lanes.
    pub fn links(&self) -> usize
        ensures { result ≡ length self.now }
    {
        self.all.links()
    }

    /// Two empty lanes for one link more. After NoMemory nothing changed.
    pub fn add_link(&mut self) -> Result<(), NoMemory>
        ensures ok { OnOk result (self.new ≡ self.old ++ no_frames ∷ []) }
        ensures err { OnErr result (self.new ≡ self.old) }
    {
        self.idle = 0;
        self.all.add_link()
    }

    /// How many frames stand in a lane.
    pub fn frames(&self, id: LaneId) -> usize
        ensures { result ≡ length (lane_of self.now id.link id.dir) }
    {
        self.all.frames(id)
    }

    /// How many lanes there are: two for each link.
    pub fn lanes(&self) -> usize
        ensures { result ≡ 2 * length self.now }
    {
        self.all.lanes()
    }

    /// The frame at a place of a lane, counted from 0 at the front. None exactly where there is none.
    pub fn frame(&self, id: LaneId, place: usize) -> Option<&[u8]>
        ensures { option_copied result ≡ slice_get (lane_of self.now id.link id.dir) place }
    {
        self.all.frame(id, place)
    }

    /// A frame goes into a lane. It is lost where 1,024 frames stand. After NoMemory nothing changed.
    pub fn push(&mut self, id: LaneId, frame: Frame) -> Result<(), NoMemory>
        ensures ok { OnOk result (self.new
            ≡ changed_frames (λ frames. pushed frames frame) self.old id.link id.dir) }
        ensures err { OnErr result (self.new ≡ self.old) }
    {
        self.idle = self.idle.min(id.link);
        self.all.push(id, frame)
    }

    /// Takes the frame at the front of a lane. None exactly where there is none.
    pub fn pop(&mut self, id: LaneId) -> Option<Frame>
        ensures frame { result ≡ slice_get (lane_of self.old id.link id.dir) 0 }
        ensures rest { self.new ≡ changed_frames rest self.old id.link id.dir }
    {
        self.all.pop(id)
    }

    /// The frame at a place of a lane, counted from 0 at the front, is lost. Nothing happens where there is none.
    pub fn lose(&mut self, id: LaneId, place: usize)
        ensures { self.new ≡ changed_frames (λ frames. after_lose frames place) self.old id.link id.dir }
    {
        self.idle = self.idle.min(id.link);
        self.all.lose(id, place);
    }

    /// The frame at a place of a lane, counted from 0 at the front, is doubled: it stands right behind itself once more,
    /// or is lost there where 1,024 frames stand. Nothing happens where there is no frame. After NoMemory nothing changed.
    pub fn double(&mut self, id: LaneId, place: usize) -> Result<(), NoMemory>
        ensures ok { OnOk result (self.new
            ≡ changed_frames (λ frames. after_double frames place (slice_get frames place)) self.old id.link id.dir) }
        ensures err { OnErr result (self.new ≡ self.old) }
    {
        self.idle = self.idle.min(id.link);
        self.all.double(id, place)
    }

    /// Both lanes of the link at a place lose their frames.
    pub fn flush(&mut self, link: usize)
        ensures { self.new ≡ changed_at (λ _. no_frames) self.old link }
    {
        self.idle = self.idle.min(link);
        self.all.flush(link);
    }

    /// The first lane that isn't empty, in order of declaration, ab before ba. None exactly where all are empty. Empty lanes
    /// that were passed over aren't looked at again while nothing happens there.
    pub fn first_full(&mut self) -> Option<LaneId>
        ensures lane { result ≡ first_full_from 0 self.old }
        ensures same { self.new ≡ self.old }
    {
        let here = self.all.full_at(self.idle);
        if here.is_some() {
            return here;
        }
        self.idle = self.all.first_busy(self.idle);
        self.all.full_at(self.idle)
    }

    /// Whether every lane is empty.
    pub fn are_empty(&self) -> bool
        ensures { result ≡ is_none (first_full_from 0 self.now) }
    {
        self.all.full_at(self.all.first_busy(self.idle)).is_none()
    }
}
