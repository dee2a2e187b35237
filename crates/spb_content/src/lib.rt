//! What a bridge says of itself in its LSPs, and the graph that the LSPs of a backbone make (RFC 6329, 13 to 16).
//!
//! [`content_of`] writes the TLVs of the own LSP of a number, a fragment of what the bridge says, and [`bodies_of`] the
//! bodies of all that exist. [`read_content`] reads the TLVs of any LSP, and [`said_graph_of`] makes the graph of what
//! the systems of a backbone say; [`graph_of`] makes the part of it that a bridge reaches.
//!
//! Writing and reading take time in proportion to the bytes. Where more than 60 ports are attached, `content_of` and
//! `bodies_of` first sort the m ports once, in O(m log m). Before a fragment is written, its VIDs are sorted, and its
//! ports where they don't ascend, and its n ports are gone over once for each of its v base VIDs: with t trees, which
//! number 0 alone has, that takes O(n (v + log n) + t log t), where n is at most 60.
//!
//! The graph of n systems takes O(n log n) for a map of the bridges; then O(k + log n) for each entry of a reached
//! bridge, where k is how many neighbours it and the one that it lists have, as both ends of a link are searched and an
//! entry is compared with the earlier ones; and O(1) for each of its services, which are sorted first where they don't
//! ascend. Without the cut that is so of all bridges.
#![tactic(auto)]

pub use content::{Content, Inst, read_content};
pub use fragments::{bodies_of, content_of};
pub use graph::{graph_of, said_graph_of};
pub use laws::{
    content_again, content_fits, few_are_one, fragments_are_first, fragments_are_read,
    fragments_fit, lists_ascend, members_are_read, merging_is_exact, order_says_nothing,
    same_content_is_written_alike,
};
pub use local::{AREAS_AND_PROTOCOLS, BridgeConfigFacts, Local};
pub use merging::merge;

mod backbone;
mod content;
mod fragments;
mod graph;
mod laws;
mod local;
mod merging;
mod walk;
