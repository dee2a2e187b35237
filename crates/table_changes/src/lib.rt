//! What one change of what is declared would do to the tables that the wiring gives the bridges: a `down`, an `up` or a
//! `metric`.
//!
//! [`changes`] copies what is declared twice, once with the change, so that each copy keeps the fabric of its wiring.
//! For one bridge after another it makes the tables before and after it, compares them and drops them, so that no more
//! than these two are there. Rows ascend, so that two tables are compared in one pass over both.
#![tactic(auto)]

pub use differing::{Change, changes};

mod differing;
mod gone;
pub mod laws;
mod rows;
