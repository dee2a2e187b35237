//! Rounds of a network, one after another: what comes to each bridge in a round, and when the network becomes quiet.
//!
//! There is no code here: each law is the contract of a function that does nothing.
#![tactic(auto)]

pub use agreement::bridges_come_to_agree;
pub use calm::{calm_rounds_pass, settled_rounds_are_calm};
pub use crossing::group_frames_cross_links;
pub use flags::flags_fall;
pub use laws::{bridges_are_near, rounds_are_heard, rounds_keep_networks_sound};
pub use settling::{networks_settle, rounds_settle, some_network_settles};
pub use steady::{lifetimes_last, links_come_up, nothing_is_lost};

mod agreement;
mod calm;
mod crossing;
mod flags;
mod laws;
mod settling;
mod steady;
