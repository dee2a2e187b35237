//! The addresses of customers that a bridge has learned, for each service instance apart (IEEE 802.1Q, 8.7; IEEE
//! 802.1ah, 25.10).
//!
//! Of each I-SID the last 1,024 addresses are kept, in the kit's `lru`: learning, looking up and forgetting
//! an address take constant time, besides a look at the tables of the bridge's I-SIDs one by one. `forget_port` goes
//! over an I-SID's addresses once for each that it forgets. Only `learn` takes memory.
#![tactic(auto)]

pub use learned::Learned;
pub use place::Place;

mod learned;
mod place;
mod table;
