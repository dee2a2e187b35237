//! The frames of the backbone on their way. A [`Frame`] is a handle of one word on bytes that are never changed, so
//! sending the same frame at several ports, or keeping it to send it again, copies no byte.
//!
//! Making a frame takes memory for the count of its owners, and sharing, reading and dropping one takes constant time;
//! only the drop of the last owner frees the bytes.
#![tactic(auto)]

pub use frame::Frame;

mod frame;
