//! The tests of the kinds of bridges, `plain_bridge` and `swift_bridge`, which are called through the trait.
//!
//! Nothing else stands here, and nothing stands on this crate. A crate with tests is proved twice, with and without
//! them; so those of the bridges, which see them from outside, stand above them.
#![tactic(auto)]

#[cfg(test)]
mod calm;
#[cfg(test)]
mod drops;
#[cfg(test)]
mod fixtures;
#[cfg(test)]
mod fragments;
#[cfg(test)]
mod lives;
#[cfg(test)]
mod modes;
#[cfg(test)]
mod plain;
#[cfg(test)]
mod rows;
#[cfg(test)]
mod serving;
#[cfg(test)]
mod swift;
