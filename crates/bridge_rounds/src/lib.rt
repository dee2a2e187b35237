//! What a round is for one bridge: a second, and then the frames that come to it. What one second and one frame do, and
//! what holds after all frames of a round.
//!
//! There is no code here: each law is the contract of a function that does nothing. The laws of settling stand on them.
#![tactic(auto)]

pub use calm::calm_seconds_pass;
pub use flags::{equal_claims_settle_flags, lsps_are_acknowledged};
pub use hearing::{
    control_is_silent, frames_are_silent, frames_keep_living, rounds_hold_ids, spent_stays,
};
pub use inbox::{
    bridges_last_through_rounds, hellos_move_adjacencies, neighbours_keep_up, ports_stay_up,
    versions_come_by_claims,
};
pub use links::{links_fall_silent, links_tell_what_is_held};
pub use seconds::{
    seconds_are_calm, seconds_carry_none, seconds_lower, seconds_send_at_port, summaries_are_due,
};

mod calm;
mod flags;
mod hearing;
mod inbox;
mod links;
mod seconds;
