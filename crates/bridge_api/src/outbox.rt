//! Where a bridge's calls put the frames that it sends, and the customers' frames that leave it.
ghost use Rattle.std.specs.Prelude.{◌≡◌, []};

use shared_frames::Frame;
use spb_types::Seq;
use std::alloc::Global;

/// The frames that bridges send in calls, in order, each with the number of its port.
#[derive(Debug, Drop)]
pub struct Outbox {
    /// Frames sent at backbone ports.
    pub wire: Seq<(u8, Frame)>,
    /// Frames that leave at customer ports.
    pub left: Seq<(u16, Seq<u8>)>,
}

impl Outbox {
    /// An empty outbox, which takes no memory.
    pub fn new(alloc: Global) -> Self
        ensures wire { result.wire ≡ [] }
        ensures left { result.left ≡ [] }
    {
        Outbox {
            wire: Seq::new(alloc),
            left: Seq::new(alloc),
        }
    }
}
