//! What is declared of a network, and why a line about it is refused: its base VIDs, bridges, links and services, and
//! what is attached to the customer ports; and the graph and the tables of the wiring.
//!
//! **Costs.** A port finds its link in constant time, and a name and a system id are found so on average. The tables of the wiring are
//! made of its fabric (`fdb_build`), which is made at the first such question, and kept with what was searched in it
//! until a base VID, a bridge, a link, a metric or what is attached changes. What is attached is kept for each bridge:
//! an `attach`, a `detach` and an entering frame go over what is attached at their bridge alone, once, or twice for a
//! `detach`. Where `MOST_ISIDS` ports or more are, an `attach` sorts their I-SIDs too, on the stack. None takes memory
//! for that.
#![tactic(auto)]

pub use declaration::{DeclaredBridge, DeclaredLink, LinkEnd};
pub use reason::{Reason, reason_unless};
pub use world::World;

mod attached;
mod attaching;
mod changing;
mod check;
mod declaration;
mod graph;
mod hints;
pub mod link_ends;
mod naming;
mod reason;
mod systems;
mod world;
