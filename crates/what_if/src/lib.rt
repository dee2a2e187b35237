//! Proofs of the best paths from a bridge (IEEE 802.1aq, 28.5 to 28.8), which anybody can check without trust in who
//! made them.
//!
//! A proof is a list of [`Entry`], one for each bridge of a graph in its order, which names the bridge before it on its
//! path. [`prove`] makes it, with one search; [`entries_in`] makes it of a tree that is there. [`check`] answers
//! whether it is right, by questions to each bridge about itself and its neighbours: it follows the entries from each
//! bridge, and takes a look at the costs of each arc; at hops and ids only where costs tie and the entry names another
//! neighbour. Nothing is searched. [`along`] reads one path off a proof, in a step for each hop. A step takes a look at
//! the arcs of its bridge. All three stand on roads that the caller keeps, and none are made anew.
#![tactic(auto)]

pub use checking::{Verdict, check};
pub use entry::Entry;
pub use following::along;
pub use proving::{entries_in, prove};

mod checking;
mod entry;
mod following;
pub mod laws;
mod proving;
