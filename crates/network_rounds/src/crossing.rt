//! Group frames that cross links. The law is the contract of a function that does nothing.
ghost use Rattle.network_rounds.specs.Crossing.{SomeFrameCrosses};

/// Some network with a link that is up is quiet, and a group frame that enters at one end of the link has to leave, and
/// so leaves, once, at the other.
pub fn group_frames_cross_links()
    ensures { SomeFrameCrosses }
{}
