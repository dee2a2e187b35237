//! The frames of the backbone: control frames, which carry a PDU of IS-IS, and frames with a B-TAG and an I-TAG, which
//! carry a customer's frame (IEEE 802.1ah).
//!
//! [`classify`] and [`open_frame`] look at no more than the header of a frame, copy nothing and take no memory.
//! [`control_frame`] and [`encapsulate`] take memory for the frame that they make, and [`control_head`] for the whole
//! frame whose head it makes, so that a PDU can be written into its frame at once.
#![tactic(auto)]

pub use backbone::{encapsulate, open_frame};
pub use classifying::classify;
pub use control::{control_frame, control_head};
pub use frame::{Backbone, Frame, FrameError};
pub use laws::{carried_again, control_again, encapsulated_again, opened_can_be_carried};

mod backbone;
mod classifying;
mod control;
mod frame;
mod laws;
