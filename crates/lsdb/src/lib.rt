//! The link state database of a bridge: versions of LSPs, and what is held under each LSP id (ISO/IEC 10589, 7.3).
//!
//! A [`Database`] keeps at most 4,096 LSPs in a vector in order of id. Contracts see it as the finite map from ids to
//! entries. Finding an id takes a binary search of at most 13 comparisons, each of two numbers of eight bytes; where
//! `look_up_near` is told the right place it takes one. What is at a place is read and changed without a search. A new
//! id moves those behind it, and nothing else is copied: no call copies the database or a body. Only `put` and
//! `flagged_places` take memory. `clear_port`, `age_one`, `srm_ports`, `ssn_ports`, `flagged_places` and `has_flags` go
//! over the database once; while it is known that no flags stand and that no LSP dies, `age_one` lowers the lifetimes
//! and does nothing else.
#![tactic(auto)]

pub use database::{Database, Found, PutError, Raised};
pub use held::{DbRow, Held};
pub use version::{Relation, Version, compare, join};

mod database;
mod held;
mod item;
pub mod laws;
mod search;
mod version;
