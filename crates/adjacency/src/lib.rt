//! The three-way adjacency at a point-to-point port (RFC 5303): the state machine, the holding count, and what the
//! own hello says. The laws by which a network keeps track of who is whose neighbour stand here too.
//!
//! No call takes memory, and each takes constant time.
#![tactic(auto)]

pub use laws::{
    a_hello_names_nobody_but_the_kept_neighbour, a_kept_neighbour_was_kept_or_heard,
    a_silent_neighbour_is_kept_for_its_count,
};
pub use port::{Adjacency, keeps_up};
pub use state::{AdjState, AdjacencyChange};

mod laws;
mod port;
mod state;
