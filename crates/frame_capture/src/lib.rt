//! Captures of frames: files of the classic pcap format (draft-ietf-opsawg-pcap), written and read.
//!
//! A file is [`header`] and a [`packet`] for each frame. [`read_header`] and [`packet_at`] read files of any program,
//! whatever the order of the bytes of their numbers; they copy nothing and take no memory.
//! Writing takes time in proportion to the bytes that are written, and reading constant time.
#![tactic(auto)]

pub use delivered::Delivered;
pub use error::CaptureError;
pub use laws::{captures_are_listed, listing_goes_on, written_is_listed};
pub use order::Order;
pub use reading::{Packet, packet_at, read_header};
pub use writing::{header, packet, put_frame, put_packet};

mod delivered;
mod error;
mod laws;
mod order;
mod reading;
mod writing;
