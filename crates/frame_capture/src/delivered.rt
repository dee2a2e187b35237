//! What a packet of a capture stands for.
use spb_types::Seq;

/// A frame that came to a bridge, and how many seconds the bridge had by then.
#[derive(Debug, Drop)]
pub struct Delivered {
    /// The seconds.
    pub tick: u32,
    /// The bytes of the frame.
    pub frame: Seq<u8>,
}
