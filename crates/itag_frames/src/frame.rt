//! A frame of the backbone as a value, and why bytes are none.
use spb_types::{Isid, Mac, Vid};
use thiserror::Error;

/// A frame of the backbone.
#[derive(Clone, Copy, Debug, PartialEq, Eq)]
pub enum Frame<'a> {
    /// A control frame, by its PDU.
    Control(&'a [u8]),
    /// A frame with an I-TAG, which carries a customer's frame.
    Backbone(Backbone<'a>),
}

/// A frame with an I-TAG (IEEE 802.1ah, 9.7).
#[derive(Clone, Copy, Debug, PartialEq, Eq)]
pub struct Backbone<'a> {
    /// The backbone destination address.
    pub da: Mac,
    /// The backbone source address.
    pub sa: Mac,
    /// The backbone VID, 1 to 4094.
    pub vid: Vid,
    /// The I-SID, 1 to 16,777,215.
    pub isid: Isid,
    /// The whole customer frame, from its destination address on.
    pub customer: &'a [u8],
}

/// Why bytes are no frame of the backbone.
#[derive(Clone, Copy, Debug, PartialEq, Eq, Error)]
pub enum FrameError {
    /// Fewer bytes than the shortest frame has: 17, and 36 where it isn't sent to the group address of the bridges.
    #[error("a frame is too short")]
    Short,
    /// A frame to the group address of the bridges that has no PDU, or another without a B-TAG whose VID is 1 to 4094.
    #[error("a frame is no backbone frame")]
    NotBackbone,
    /// A frame with a B-TAG and no I-TAG behind it, or one whose I-SID is 0.
    #[error("a frame has no I-TAG")]
    NoItag,
}

/// The group address of control frames (ISO/IEC 10589, 8.4.8).
pub(crate) const CONTROL_ADDRESS: [u8; 6] = [0x01, 0x80, 0xc2, 0x00, 0x00, 0x14];

/// The LLC bytes before a PDU (ISO/IEC 10589, 8.4.8).
pub(crate) const LLC: [u8; 3] = [0xfe, 0xfe, 0x03];
