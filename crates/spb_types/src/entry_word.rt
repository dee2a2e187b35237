//! The words of a proof of paths.
use crate::Name;

/// An entry of a proof of the best paths from a bridge: the bridge before the entry's own on its path, by its name.
#[derive(Clone, Copy, Debug, PartialEq, Eq)]
pub enum EntryWord {
    /// The paths start at this bridge.
    Start,
    Before(Name),
    /// No path leads to this bridge.
    Unreached,
}
