//! Whether entries prove the best paths from a bridge.
ghost use Rattle.std.specs.Prelude.{◌≡◌, None, IfOk, length};
ghost use Rattle.spb_types.specs.Graph.{IsBridge};
ghost use Rattle.spb_world.specs.World.{Sound, world_graph};
ghost use Rattle.extra_answers.specs.Answers as answers;
ghost use Rattle.extra_answers.specs.Entries as entries;
ghost use Rattle.extra_answers.specs.Refusing.{check_refusal};

use crate::naming::{planned_for, system_named};
use crate::wiring::roads_of;
use ect_trees::Roads;
use report::{check_no_text, check_yes_text};
use spb_types::{EntryWord, Name, NoMemory, Path, SystemId, ect_mask};
use spb_world::World;
use std::alloc::Global;
use what_if::{Entry, Verdict, along, check};

/// What an entry says, by the system id of its bridge.
fn entry_of(world: &World, word: &EntryWord) -> Entry
    ensures { result ≡ entries.entry_of world.now.bridges word.now }
{
    match word {
        EntryWord::Start => Entry::Start,
        EntryWord::Before(name) => Entry::Before(system_named(world, *name)),
        EntryWord::Unreached => Entry::Unreached,
    }
}

/// The entries that words say.
fn entries_of(alloc: Global, world: &World, words: &[EntryWord]) -> Result<Vec<Entry>, NoMemory>
    ensures { IfOk result (λ list. list.items ≡ entries.entries_of world.now.bridges words.now) }
{
    let list = words
        .iter()
        .map(|word| entry_of(world, word))
        .collect(alloc)?;
    Ok(list)
}

/// The answer where entries prove the best paths, with one of these.
fn yes_text(alloc: Global, world: &World, path: Option<Path>) -> Result<Vec<u8>, NoMemory>
    ensures { IfOk result (λ text. text.items ≡ answers.yes_text world.now.bridges path) }
{
    match path {
        None => check_yes_text(alloc, 0, &[]),
        Some(path) => {
            let names = world.names_on(alloc, path.bridges.as_slice())?;
            check_yes_text(alloc, path.cost, names.as_slice())
        }
    }
}

/// The answer of entries that are to prove the best paths from a bridge under a mask, with the one to another, over the
/// roads of the wiring.
fn checked_over(
    alloc: Global,
    world: &World,
    roads: &Roads,
    mask: u8,
    from: SystemId,
    to: SystemId,
    entries: &[Entry],
) -> Result<Vec<u8>, NoMemory>
    requires sound { Sound world.now }
    requires roads { roads.now ≡ world_graph world.now }
    requires from { IsBridge (world_graph world.now) from }
    requires long { length entries.now ≡ length world.now.bridges }
    ensures { IfOk result (λ text. text.items ≡ answers.checked_text world.now mask from to entries.now) }
{
    let verdict = check(alloc, roads, mask, from, entries)?;
    match verdict {
        Verdict::No(place) => check_no_text(alloc, place),
        Verdict::Yes => {
            let path = along(alloc, roads, entries, to)?;
            yes_text(alloc, world, path)
        }
    }
}

/// The same, over the roads that are kept, or over such that are made for this question alone.
fn checked(
    alloc: Global,
    world: &World,
    mask: u8,
    from: SystemId,
    to: SystemId,
    entries: &[Entry],
) -> Result<Vec<u8>, NoMemory>
    requires sound { Sound world.now }
    requires from { IsBridge (world_graph world.now) from }
    requires long { length entries.now ≡ length world.now.bridges }
    ensures { IfOk result (λ text. text.items ≡ answers.checked_text world.now mask from to entries.now) }
{
    match world.roads() {
        Some(roads) => checked_over(alloc, world, roads, mask, from, to, entries),
        None => {
            let roads = roads_of(alloc, world)?;
            checked_over(alloc, world, &roads, mask, from, to, entries)
        }
    }
}

/// The answer of entries that are to prove the best paths from a bridge in a base VID, with the one to another.
pub fn check_answer(
    alloc: Global,
    world: &World,
    from: Name,
    to: Name,
    vid: u64,
    words: &[EntryWord],
) -> Result<Vec<u8>, NoMemory>
    requires sound { Sound world.now }
    requires accepted { check_refusal world.now from to vid words.now ≡ None }
    ensures { IfOk result (λ text. text.items
        ≡ answers.check_in world.now from to words.now (answers.planned_for world.now.vids vid)) }
{
    let Some(plan) = planned_for(world, vid) else {
        return Ok(Vec::new(alloc));
    };
    let mask = ect_mask(plan.ect);
    let list = entries_of(alloc, world, words)?;
    let source = system_named(world, from);
    let end = system_named(world, to);
    checked(alloc, world, mask, source, end, list.as_slice())
}
