//! What bridges hear.
use shared_frames::Frame;

/// A frame that came to a backbone port of a bridge, and how many seconds the bridge had by then, under its name, since
/// it was declared; they are counted to 4,294,967,295 and stop there.
#[derive(Debug, Drop)]
pub struct Delivered {
    /// The seconds.
    pub tick: u32,
    /// The bytes of the frame, which are shared and not copied.
    pub frame: Frame,
}
