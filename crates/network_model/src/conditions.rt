//! The three conditions of a quiet network, as they were found.

/// Which conditions of quiet hold.
#[derive(Clone, Copy)]
pub struct Conditions {
    /// Both ends of each link that is up are Up with each other, and no other port is Up.
    pub links: bool,
    /// No frame is on its way.
    pub lanes: bool,
    /// No bridge has a flag.
    pub flags: bool,
}
