//! The tests of the crates that make bytes, texts and values of one another: `spb_types`, `spb_outside`, `isis_pdu`,
//! `spb_tlvs`, `itag_frames`, `frame_capture`, `spb_content`, `scenario`, `scenario_maker`, `adjacency` and `report`. A
//! module tests one crate, and two more test the cutter and the extras of `scenario`.
//!
//! Nothing else stands here, and nothing stands on this crate. A crate with tests is proved twice, with and without
//! them; so those of the lower crates, which see them from outside, stand above them.
#![tactic(auto)]

#[cfg(test)]
mod adjacencies;
#[cfg(test)]
mod captures;
#[cfg(test)]
mod contents;
#[cfg(test)]
mod cutting;
#[cfg(test)]
mod extras;
#[cfg(test)]
mod fixtures;
#[cfg(test)]
mod frames;
#[cfg(test)]
mod lines;
#[cfg(test)]
mod made;
#[cfg(test)]
mod pdus;
#[cfg(test)]
mod streams;
#[cfg(test)]
mod texts;
#[cfg(test)]
mod tlvs;
#[cfg(test)]
mod values;
