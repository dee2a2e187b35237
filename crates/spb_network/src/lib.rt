//! The network of bridges and links that commands declare and play.
//!
//! A [`Network`] owns a box for each declared bridge and reaches it through the trait `Bridge` alone; it names no
//! implementation. What is declared stands in a [`World`]; beside it stand the boxes and, by the same place as the
//! links, the two lanes of each link. [`NetworkOf::apply`] is one step of play, as `network_model` says in
//! `specs/Play.antt`: a command that is refused names the first reason in order of number and changes nothing. What
//! holds of a network at every moment is a clause of each call. That, what a quiet network knows of its wiring, and
//! that service instances don't mix in it, are definitions and laws of `network_model`.
//!
//! **Costs.** A frame that is sent finds its link in constant time, and a name is found so on average. A round takes a
//! call of each bridge and one for each frame that stands in a lane. Rounds that pass in calm take two calls of each
//! bridge, however many they are. Before a round is played, lanes are looked over for a frame, and where all are empty,
//! bridges are asked for calm seconds up to the first that answers none; where deliveries are watched, neither happens.
//! A tick takes memory for an outbox with room for a frame at each port of the bridge, and a delivery none of its own.
//! A frame that a bridge sends at several ports stands in their lanes as one, whose bytes they share. A delivery of
//! `drain` looks for the first lane that isn't empty. A restart asks each link twice, goes over the database of the old
//! box once for each number that the bridge originates, and takes memory for the new bridge, for these numbers and for
//! the metric of each of its ports. Frames are moved and not copied, and nothing grows with the number of rounds. Which
//! conditions of quiet fail asks each link, lane and bridge once, for which a bridge goes over its database; it takes
//! no memory. The answer is kept until a command is played that is no question, so that the questions `state` and
//! `show` after it take constant time for it. `show` makes the bridge's tables anew. `wiring` makes them of the fabric
//! of the wiring (`fdb_build`), which is made at the first such question, and kept with what was searched in it until a
//! base VID, a bridge, a link, a metric or what is attached changes. `path` makes the graph that the bridge reads and
//! one tree in it, and looks through the bridges once for each name. An `attach` goes over what is attached at its
//! bridge once, and where 960 ports or more are, sorts their I-SIDs too, on the stack, and a `detach` goes over it
//! twice; neither takes memory for that. A `frame` goes over what is attached at its bridge once. What leaves at
//! customer ports takes memory for its place in the answer, and is handed over with it; where nothing leaves, none is
//! taken. Where deliveries are watched, each takes memory for its seconds and a handle of its frame; where they aren't,
//! it costs a test of a flag.
#![tactic(auto)]

pub use apply_error::ApplyError;
pub use laws::networks_halt_without_memory;
pub use network::{Network, NetworkOf};
pub use network_model::{Answer, Delivered, KindRule, Out};
pub use spb_world::{DeclaredBridge, DeclaredLink, LinkEnd, Reason, World};

mod apply_error;
mod boxes;
mod calm;
mod contents;
mod customers;
mod events;
mod laws;
mod network;
mod numbers;
mod paths;
mod play;
mod questions;
mod quiet;
mod rack;
mod refusing;
mod restart;
mod rounds;
mod seen;
