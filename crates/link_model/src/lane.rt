//! One lane: frames, first in first out, with those that are lost and doubled.
ghost use Rattle.std.specs.Prelude.{◌≡◌, ◌≤◌, ◌<◌, ◌↔◌, false, IsOk, List, [], ◌∷◌, ℕ, length, map, nat_eq, MatchOption, MatchResult, OnOk, OnErr, IfOk, IsErrOf, slice_get, remove, nat_lt, if◌then◌else◌, ⊤};
ghost use Rattle.std.specs.Option.{option_copied};
ghost use Rattle.std.specs.Result.{OkIff};
ghost use Rattle.link_model.specs.declared.lane.DoubleError.TheVariants as double_errors;
ghost use Rattle.link_model.specs.Lane.{pushed, doubled, has_room, after_double, after_lose};

use shared_frames::Frame;
use spb_types::NoMemory;
use spb_types::limits::MOST_FRAMES;
use std::alloc::{AllocFailed, Global};
use std::collections::VecDeque;
use std::marker::Model;
use thiserror::Error;

/// One direction of a link: its frames in the order in which they were sent, at most 1,024. Contracts see it as
/// the list of the frames' bytes, the front first.
#[derive(Debug, Drop)]
pub struct Lane {
    frames: VecDeque<Frame>,
}

impl Model for Lane {
    ghost use Rattle.std.specs.Prelude.{List, ℕ, ◌≤◌};
    ghost use Rattle.std.specs.VecDeque.{deque_len};
    ghost use Rattle.spb_types.specs.declared.limits.TheConstants.{MOST_FRAMES};

    ghost Value = { List (List ℕ) };

    ghost view = { λ lane. lane.frames.items };

    ghost invariant = { λ lane. deque_len lane.frames ≤ MOST_FRAMES };
}

/// What became of a frame that was pushed.
#[derive(Clone, Copy, Debug, PartialEq, Eq)]
pub enum Pushed {
    /// It stands at the back of the lane.
    Kept,
    /// It is lost, since 1,024 frames stand.
    Dropped,
}

/// The lane has no frame at that place.
#[derive(Clone, Copy, Debug, PartialEq, Eq, Error)]
#[error("no frame at that place")]
pub struct NoFrame;

/// Why a frame wasn't doubled.
#[derive(Clone, Copy, Debug, PartialEq, Eq, Error)]
pub enum DoubleError {
    /// The lane has no frame at that place.
    #[error("no frame at that place")]
    NoFrame,
    /// No memory was found.
    #[error("out of memory")]
    NoMemory,
}

impl From<NoMemory> for DoubleError {
    ghost from_gives = { λ _ e. e ≡ double_errors.NoMemory };

    fn from(_refused: NoMemory) -> Self {
        DoubleError::NoMemory
    }
}

impl<T: Drop> From<AllocFailed<T>> for DoubleError {
    ghost from_gives = { λ _ e. e ≡ double_errors.NoMemory };

    fn from(_refused: AllocFailed<T>) -> Self {
        DoubleError::NoMemory
    }
}

impl Lane {
    /// The empty lane, which takes no memory.
    pub fn new(alloc: Global) -> Self
        ensures { result ≡ [] }
    {
        Lane {
            frames: VecDeque::new(alloc),
        }
    }

    /// How many frames stand in the lane, at most 1,024.
    pub fn len(&self) -> usize
        ensures len { result ≡ length self.now }
        ensures within { result ≤ MOST_FRAMES }
    {
        self.frames.len()
    }

    /// Whether no frame stands in the lane.
    pub fn is_empty(&self) -> bool
        ensures { result ≡ nat_eq (length self.now) 0 }
    {
        self.frames.is_empty()
    }

    /// Sends a frame into the lane. It is lost exactly where 1,024 frames stand.
    pub fn push(&mut self, frame: Frame) -> Result<Pushed, NoMemory>
        ensures dropped { (result ≡ Ok Pushed.Dropped) ↔ (has_room self.old ≡ false) }
        ensures ok { OnOk result (self.new ≡ pushed self.old frame) }
        ensures err { OnErr result (self.new ≡ self.old) }
    {
        if self.frames.len() == MOST_FRAMES {
            return Ok(Pushed::Dropped);
        }
        self.frames.push_back(frame)?;
        Ok(Pushed::Kept)
    }

    /// The frame at the front. None exactly where the lane is empty.
    pub fn front(&self) -> Option<&[u8]>
        ensures { option_copied result ≡ slice_get self.now 0 }
    {
        self.at(0)
    }

    /// The frame at place `k`, counted from 0 at the front. None exactly where `k` isn't below the length.
    pub fn at(&self, k: usize) -> Option<&[u8]>
        ensures { option_copied result ≡ slice_get self.now k }
    {
        match self.frames.get(k) {
            None => None,
            Some(frame) => Some(frame.as_slice()),
        }
    }

    /// Takes the frame at the front. None exactly where the lane is empty.
    pub fn pop(&mut self) -> Option<Frame>
        ensures { MatchOption result ((self.old ≡ []) × (self.new ≡ [])) (λ frame. self.old ≡ frame ∷ self.new) }
    {
        self.frames.pop_front()
    }

    /// Removes the frame at place `k`, counted from 0 at the front. `NoFrame` exactly where `k` isn't below the
    /// length, and then nothing changes.
    pub fn lose(&mut self, k: usize) -> Result<(), NoFrame>
        ensures ok { IsOk result ↔ (k < length self.old) }
        ensures frames { self.new ≡ after_lose self.old k }
    {
        match self.frames.remove(k) {
            None => Err(NoFrame),
            Some(_lost) => Ok(()),
        }
    }

    /// Puts the frame at place `k`, counted from 0 at the front, right behind itself once more; that one is lost where
    /// 1,024 frames stand. `NoFrame` exactly where `k` isn't below the length. After an error nothing changes.
    pub fn double(&mut self, k: usize) -> Result<(), DoubleError>
        ensures no_frame { IsErrOf result DoubleError.NoFrame ↔ (length self.old ≤ k) }
        ensures ok { OnOk result (self.new ≡ after_double self.old k (slice_get self.old k)) }
        ensures err { OnErr result (self.new ≡ self.old) }
    {
        let Some(frame) = self.frames.get(k) else {
            return Err(DoubleError::NoFrame);
        };
        if self.frames.len() == MOST_FRAMES {
            return Ok(());
        }
        let again = frame.share()?;
        self.frames.insert(k + 1, again)?;
        Ok(())
    }

    /// Loses every frame.
    pub fn flush(&mut self)
        ensures { self.new ≡ [] }
    {
        self.frames.clear();
    }
}
