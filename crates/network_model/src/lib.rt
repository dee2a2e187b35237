//! What a network of bridges and links is, and what holds of it: its state, what comes to pass in it, why a command is
//! refused, what an accepted one makes and answers, and when the network is quiet.
//!
//! There is no code here but the types that states and answers are made of; `spb_network` does what is said here. What
//! an accepted command makes stands in `specs/Play.antt`, what it delivers in `specs/Captured.antt`, and why one is
//! refused in `specs/Refusing.antt`. What holds of a network at every moment stands in `specs/Sound.antt`; what a quiet network knows of its wiring in
//! `specs/Truth.antt`; and that service instances don't mix in it, quiet or not, in `specs/Isolation.antt`. Each law is
//! the contract of a function that does nothing.
#![tactic(auto)]

pub use answer::{Answer, Out};
pub use conditions::Conditions;
pub use delivered::Delivered;
pub use kind_rule::KindRule;
pub use laws::{
    a_delivery_is_one_step, a_restart_begins_anew, deliveries_are_brief, events_keep_sound,
    group_frames_leave_once, networks_are_sound, numbers_stay_bounded, quiet_can_be_relied_on,
    quiet_is_true, quiet_paths_are_wired, quiet_says_what_it_reads_like, services_stay_apart,
    some_network_is_busy, the_first_reason_is_given, wiring_gives_tables,
};

mod answer;
mod conditions;
mod delivered;
mod kind_rule;
mod laws;
