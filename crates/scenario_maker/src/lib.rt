//! A large script, made rather than read: a ring of bridges with chords across it, and a service for each bridge with
//! three members.
//!
//! `make` gives the script's commands. It takes time and memory in proportion to their number, which is 16 for each
//! bridge, one for each chord, and 7.
#![tactic(auto)]

mod events;
mod laws;
mod names;
mod network;
mod services;

ghost use Rattle.std.specs.Prelude.{◌≡◌, ◌≤◌, IfOk};
ghost use Rattle.scenario_maker.specs.Made.{made};

pub use laws::{
    chords_join_no_neighbours, chords_lead_across, members_are_apart, names_are_apart,
    places_are_taken_once, scripts_are_long,
};
use scenario::Command;
use spb_types::NoMemory;
use std::alloc::Global;

/// The commands of the script for `n` bridges, 4 to 96, in order.
///
/// First all is declared: the base VIDs, the bridges, the ring, the chords, the services and their members. Then come
/// rounds in which the network should become quiet, the questions, and a frame of each service. A link of the ring
/// fails, and after as many rounds all is asked again; and so again after a bridge starts anew, with a frame of each
/// service at the end. `NoMemory` comes only where no memory was found.
pub fn make(alloc: Global, n: u8) -> Result<Vec<Command>, NoMemory>
    requires least { 4 ≤ n }
    requires most { n ≤ 96 }
    ensures { IfOk result (λ script. script.items ≡ made n) }
{
    let mut script = Vec::new(alloc);
    network::push_network(&mut script, n)?;
    services::push_services(&mut script, n)?;
    services::push_attachments(&mut script, n)?;
    events::push_events(alloc, &mut script, n)?;
    Ok(script)
}
