//! Bounded settling: single rounds until a network is quiet, at most as many as its bridges allow.
//!
//! [`settle`] plays a network through `apply` alone. Its answer says how many rounds it made, and whether the network is
//! quiet, or else which premise failed before the first round. [`settle_watched`] does the same, and tells what its
//! rounds deliver. [`bound`] says how many rounds there may be, and [`ready`] which premise of settling fails in a network
//! as it is. The definitions stand in `network_rounds`.
//!
//! **Costs.** Settling costs its rounds, a test of quiet before each and after the last, and where the network isn't
//! quiet at first, a look for the premises. A test of quiet asks each link, lane and bridge once, and takes no memory.
//! The premises take one look over all lanes, and one over all databases for each premise of what is held. It takes
//! memory for the entries of a sequence numbers PDU while it is read, and for the ids that are held: those of one
//! bridge, and at most 900 of the bridges before it. Each id is looked for among the ids found before it. Where
//! deliveries are watched, each takes memory for its seconds and a handle of its frame.
#![tactic(auto)]

pub use answers::{Ready, Settled};
pub use premises::ready;
pub use settling::{bound, settle, settle_watched};

mod answers;
mod databases;
mod ids;
mod lanes;
mod premises;
mod settling;
mod watch;
