//! The TLVs of a bridge's IS-IS PDUs, read and written: the three-way adjacency, the entries of an SNP, the
//! neighbours of a bridge, and its SPB capabilities.
//!
//! What is written has one spelling. A reader answers with the value or with the first refusal that holds, on every
//! byte string, and ignores what it doesn't know.
//!
//! A reader takes time in proportion to the bytes, and memory for the list that it answers. A writer takes memory
//! for the bytes that it appends alone. [`split_tlv`], [`find_tlv`] and [`read_three_way`] take none.
#![tactic(auto)]

pub use capability::{Capability, Service, read_capability, write_capability};
pub use codes::{
    AREA_ADDRESSES, EXTENDED_IS_REACHABILITY, LSP_ENTRIES, MT_CAPABILITY, PROTOCOLS_SUPPORTED,
    THREE_WAY_ADJACENCY,
};
pub use entries::{SnpEntry, append_entries, read_entries, write_entries};
pub use error::TlvError;
pub use laws::{
    capability_again, capability_same, entries_again, entries_same, neighbours_again,
    neighbours_same, three_way_again, three_way_same, tlvs_in_order,
};
pub use neighbours::{Neighbour, read_neighbours, write_neighbours};
pub use three_way::{ThreeWay, read_three_way, write_three_way};
pub use tlv::{find_tlv, split_tlv};

mod append;
mod capability;
mod codes;
mod entries;
mod error;
mod laws;
mod neighbours;
mod piece;
mod three_way;
mod tlv;
