//! Identities, the graph of a backbone and the tables of a bridge: the words that every other crate uses.
//!
//! A value is `Copy` where it is small, and each list is a [`Seq`], which contracts see as the list of its items. Only
//! `Seq::push` takes memory, and moves the items where there is no room left. `Name::new` reads its at most 16 bytes,
//! and `Seq::truncate` drops items. `unicast_of`, `ingress_ok` and `group_of` go over the rows until they find theirs.
//! Each other call takes constant time.
#![tactic(auto)]

pub use address::{BridgeId, LspId, Mac, SystemId, group_address};
pub use drop_reason::DropReason;
pub use ect::ect_mask;
pub use entry_word::EntryWord;
pub use fields::{lsp_id_in, mac_in, system_in, u16_in, u24_in, u32_in};
pub use graph::{Edge, Graph, GraphBridge, Member};
pub use level::LEVEL_1;
pub use link::{Dir, Side};
pub use memory::NoMemory;
pub use name::Name;
pub use ports::PortSet;
pub use seq::Seq;
pub use service::{Attachment, Isid, Mode, SourceId, Vid, VidPlan};
pub use tables::{GroupRow, Path, TableRow, Tables, UnicastRow, group_of, ingress_ok, unicast_of};
pub use take::{Short, take_u8, take_u16, take_u24, take_u32};

mod address;
mod drop_reason;
mod ect;
mod entry_word;
mod fields;
mod graph;
pub mod laws;
mod level;
pub mod limits;
mod link;
mod memory;
mod name;
mod ports;
mod seq;
mod service;
mod tables;
mod take;
