//! A bridge of the kind [`Kind::Swift`](bridge_api::Kind): a control plane of `bridge_control`, to which each call is
//! forwarded, and beside it the trees of the graph that the bridge reads (`fork_trees`), one from each bridge under the
//! mask of each of its base VIDs.
//!
//! Trees are made where tables are made for the bridge alone, again and again: where it asked for them before, what it
//! holds has changed, and none of the bridges with which it shares what they read ([`SharedReading`]) has asked since.
//! Until then it answers by what is shared, as a plain bridge does, and so it always answers about paths. A bridge that
//! shares nothing makes them for its first tables.
//!
//! Trees that are kept are brought up to date where tables are made: where a frame is to be sent on, and where a
//! question asks for tables. What was read last is compared with the graph that is read now: edges that went are
//! removed, and edges that came or changed, also in their ports, are set, each by one change of the trees. Each edge is
//! looked for among those of the other graph behind the last one that was found, where it mostly stands: so for E edges
//! this takes time of order E, and once more E for each edge that changed since the trees were made, besides the
//! changes. Where the bridges of the graph or the masks changed, the trees are made anew.
#![tactic(auto)]

pub use bridge::SwiftBridge;
pub use bridge_control::SharedReading;
pub use laws::cut_keeps_trees;

mod bridge;
mod following;
mod laws;
