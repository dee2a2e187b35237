//! Why a capture isn't read.
use thiserror::Error;

/// Why a file isn't read as a capture, or one of its packets isn't read.
#[derive(Clone, Copy, Debug, PartialEq, Eq, Hash, Error)]
pub enum CaptureError {
    /// There are fewer bytes than those of the header.
    #[error("fewer than 24 bytes")]
    Short,
    /// The header is none of a classic capture of Ethernet frames.
    #[error("no capture of Ethernet frames of version 2.4")]
    NotCapture,
    /// The bytes end within a packet.
    #[error("a packet that isn't whole")]
    Cut,
}
