//! The lanes of links. A [`Lane`] is one direction of a link: a queue of frames, first in first out. [`Lanes`] are
//! those of all links of a network.
//!
//! A lane has one word for each of its frames, whose bytes all places of a frame share. Pushing, popping and looking
//! take constant time; losing or doubling a frame moves at most the frames on the shorter side of it, and doubling
//! copies no byte. To look for the first lane that isn't empty takes a look at each lane before it, but none twice while
//! nothing comes there.
#![tactic(auto)]

pub use lane::{DoubleError, Lane, NoFrame, Pushed};
pub use lanes::{LaneId, Lanes, LinkLanes};

mod all_lanes;
mod lane;
mod lanes;
