//! The entries that prove the best paths from a bridge.
ghost use Rattle.std.specs.Prelude.{◌≡◌, IfOk};
ghost use Rattle.report.specs.Checking as texts;
ghost use Rattle.spb_tlvs.specs.Capability.{IsTree};
ghost use Rattle.spb_world.specs.World.{Sound, world_graph};
ghost use Rattle.what_if.specs.Entries.{best_entries};
ghost use Rattle.extra_answers.specs.Answers as answers;
ghost use Rattle.extra_answers.specs.Entries as entries;

use crate::naming::{name_of, planned_for, system_named};
use crate::wiring::roads_of;
use report::proof_text;
use spb_types::{EntryWord, Name, NoMemory, SystemId, VidPlan, ect_mask};
use spb_world::World;
use std::alloc::Global;
use what_if::{Entry, prove};

/// An entry, by the name of its bridge.
fn word_of(world: &World, entry: &Entry) -> EntryWord
    ensures { result ≡ entries.word_of world.now.bridges entry.now }
{
    match entry {
        Entry::Start => EntryWord::Start,
        Entry::Before(system) => match name_of(world, *system) {
            None => EntryWord::Unreached,
            Some(name) => EntryWord::Before(name),
        },
        Entry::Unreached => EntryWord::Unreached,
    }
}

/// Entries, by the names of their bridges.
fn words_of(alloc: Global, world: &World, list: &[Entry]) -> Result<Vec<EntryWord>, NoMemory>
    ensures { IfOk result (λ words. words.items ≡ entries.words_of world.now.bridges list.now) }
{
    let words = list
        .iter()
        .map(|entry| word_of(world, entry))
        .collect(alloc)?;
    Ok(words)
}

/// The entries that prove the best paths from a bridge under a mask, over the roads that are kept, or over such that are
/// made for this question alone.
fn entries_from(
    alloc: Global,
    world: &World,
    mask: u8,
    from: SystemId,
) -> Result<Vec<Entry>, NoMemory>
    requires { Sound world.now }
    ensures { IfOk result (λ list. list.items ≡ best_entries (world_graph world.now) mask from) }
{
    match world.roads() {
        Some(roads) => prove(alloc, roads, mask, from),
        None => {
            let roads = roads_of(alloc, world)?;
            prove(alloc, &roads, mask, from)
        }
    }
}

/// The entries that prove the best paths from a bridge in a base VID.
fn proved(
    alloc: Global,
    world: &World,
    plan: VidPlan,
    from: Name,
) -> Result<Vec<EntryWord>, NoMemory>
    requires sound { Sound world.now }
    requires tree { IsTree plan }
    ensures { IfOk result (λ words. words.items
        ≡ entries.words_of world.now.bridges (answers.proved_entries world.now plan from)) }
{
    let source = system_named(world, from);
    let list = entries_from(alloc, world, ect_mask(plan.ect), source)?;
    words_of(alloc, world, list.as_slice())
}

/// The answer to what proves the best paths from a bridge in a base VID, among them the one to another.
pub fn proof_answer(
    alloc: Global,
    world: &World,
    from: Name,
    to: Name,
    vid: u64,
) -> Result<Vec<u8>, NoMemory>
    requires { Sound world.now }
    ensures { IfOk result
        (λ text. text.items ≡ answers.proof_in world.now from to (answers.planned_for world.now.vids vid)) }
{
    let Some(plan) = planned_for(world, vid) else {
        return Ok(Vec::new(alloc));
    };
    let words = proved(alloc, world, plan, from)?;
    proof_text(alloc, from, to, plan.vid, words.as_slice())
}
