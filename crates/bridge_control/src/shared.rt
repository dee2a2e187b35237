//! What bridges have read, and share.
ghost use Rattle.std.specs.Prelude.{◌≡◌, None};

use crate::shared_reading::Reading;
use spb_types::{NoMemory, SystemId};
use std::alloc::Global;
use std::cell::Cell;
use std::rc::Rc;

/// A place for what one of some bridges read last. Where several hold the same LSPs, as in a quiet network, the graph is
/// read and its trees are searched once for all. What is there only saves time: a bridge takes it out, and reads anew
/// what it holds itself where that isn't the same.
#[derive(Drop)]
pub struct SharedReading {
    kept: Rc<Cell<Option<Reading>>>,
    /// The bridge that used it last.
    user: Rc<Cell<Option<SystemId>>>,
}

impl SharedReading {
    /// A place with nothing there yet.
    pub fn new(alloc: Global) -> Result<Self, NoMemory> {
        Ok(SharedReading {
            kept: Rc::new(alloc, Cell::new(None))?,
            user: Rc::new(alloc, Cell::new(None))?,
        })
    }

    /// The same place, for one bridge more.
    pub fn share(&self) -> Result<Self, NoMemory> {
        Ok(SharedReading {
            kept: self.kept.clone()?,
            user: self.user.clone()?,
        })
    }

    /// Whether this bridge was the last to use what is there.
    pub(crate) fn was_used_by(&self, system: SystemId) -> bool {
        self.user.get() == Some(system)
    }

    /// Takes out what is there.
    pub(crate) fn take(&self) -> Option<Reading> {
        self.kept.take()
    }

    /// Keeps there what a bridge has used.
    pub(crate) fn keep(&self, reading: Reading, user: SystemId) {
        self.kept.set(Some(reading));
        self.user.set(Some(user));
    }
}

/// Takes out what is shared, if anything is.
pub(crate) fn take_from(shared: Option<&SharedReading>) -> Option<Reading> {
    match shared {
        None => None,
        Some(place) => place.take(),
    }
}

/// Keeps what a bridge has used for those that share it, if any do.
pub(crate) fn keep_in(shared: Option<&SharedReading>, reading: Reading, user: SystemId) {
    if let Some(place) = shared {
        place.keep(reading, user);
    }
}

/// Gives back what a bridge kept for itself, if it kept anything: to those that share it, if any do. Every call of a
/// bridge begins so, and mostly there is nothing.
#[inline(always)]
pub(crate) fn give_back(kept: &mut Option<Reading>, shared: Option<&SharedReading>, user: SystemId)
    ensures { kept.new ≡ None }
{
    if kept.is_some() {
        hand_back(kept, shared, user);
    }
}

/// The same, where something is kept.
#[inline(never)]
fn hand_back(kept: &mut Option<Reading>, shared: Option<&SharedReading>, user: SystemId)
    ensures { kept.new ≡ None }
{
    if let Some(reading) = kept.take() {
        keep_in(shared, reading, user);
    }
}
