//! Customers' frames: what a bridge makes of one that enters at a customer port, and of a backbone frame that carries
//! one. The tables of the bridge are given, and so is what it has learned, which the frames change.
//!
//! A frame is made or copied once, which the backbone ports at which it is sent share, and once for each customer port
//! at which it leaves. Besides that a call takes the time of a few look-ups in the tables and of a walk
//! over the attached ports; where a frame leaves at every port of its I-SID, the ports are put in order one by one.
#![tactic(auto)]

pub use backbone::from_backbone;
pub use customer::from_customer;
pub use detaching::{detach, without_customer_port};
pub use laws::{
    frames_leave_where_they_are_received, ingress_failure_changes_nothing,
    places_stay_in_their_service, services_stay_apart,
};
pub use moved::Moved;
pub use tenant::Tenant;

mod backbone;
mod copies;
mod customer;
mod detaching;
mod going;
mod laws;
mod moved;
mod ports;
mod step;
mod tenant;
