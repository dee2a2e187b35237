//! What a frame makes a bridge send and let out, or why it is dropped.
ghost use Rattle.std.specs.Prelude.{◌≡◌};
ghost use Rattle.forwarding.specs.Tenant as spec;

use shared_frames::Frame;
use spb_types::{DropReason, Seq};
use std::alloc::Global;

/// What a frame makes a bridge send, in order, each frame with the number of its port, or why it is dropped.
#[derive(Debug, Drop)]
pub struct Moved {
    /// Frames sent at backbone ports.
    pub wire: Seq<(u8, Frame)>,
    /// Frames that leave at customer ports.
    pub left: Seq<(u16, Seq<u8>)>,
    /// Why the frame is dropped, if it is.
    pub dropped: Option<DropReason>,
}

impl Moved {
    /// Nothing is sent, and nothing is dropped.
    pub(crate) fn nothing(alloc: Global) -> Self
        ensures { result ≡ spec.nothing }
    {
        Moved {
            wire: Seq::new(alloc),
            left: Seq::new(alloc),
            dropped: None,
        }
    }

    /// Nothing is sent, since the frame is dropped.
    pub(crate) fn dropped_for(alloc: Global, reason: DropReason) -> Self
        ensures { result ≡ spec.dropped_for reason }
    {
        Moved {
            wire: Seq::new(alloc),
            left: Seq::new(alloc),
            dropped: Some(reason),
        }
    }
}
