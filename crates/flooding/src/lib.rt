//! Flooding (ISO/IEC 10589, 7.3.15): what an LSP changes where it is heard, which LSPs are to be sent at a port, and
//! what a system originates.
//!
//! An LSP that is heard takes one binary search, or one comparison where its place was given, and a second search where
//! it is put into the database or purged; its body is copied once, and only where it is stored. Originating takes two,
//! and copies the body once. Telling whether own LSPs are up to date takes one search, and two comparisons for each that
//! is held, while those that have a body are held and none is missing between two numbers; a number that has no body, and
//! above which none is held either, takes none. Where 4,080 ids are held or more, a new id that isn't an own number takes a
//! walk over the database, which counts such ids. No call copies the database.
#![tactic(auto)]

pub use error::FloodError;
pub use hear::{hear_lsp, hear_lsp_near};
pub use origination::{bring_up, originate, purge};
pub use own::{OWN_NUMBERS, Own};
pub use places::most_others;
pub use put::put_near;
pub use rules::{acknowledge, offer};
pub use send::{lsp_of, to_send, write_held};
pub use settling::{fresh_seconds, keep_fresh, settle};
pub use starting::{begin, begin_all};

mod error;
mod hear;
pub mod laws;
mod origination;
mod own;
mod places;
mod put;
mod rules;
mod send;
mod settling;
mod starting;
