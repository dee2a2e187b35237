//! Why a question is refused.
ghost use Rattle.std.specs.Prelude.{◌≡◌};
ghost use Rattle.std.specs.List.{list_all};
ghost use Rattle.spb_world.specs.Changing.{change_refusal};
ghost use Rattle.extra_answers.specs.Refusing as refuse;

use scenario::{Command, Extra};
use spb_types::{EntryWord, Name};
use spb_world::{Reason, World, reason_unless};

/// Why a change can't be made, if it can't. What is no change is never refused.
fn change_refused(world: &World, change: &Command) -> Option<Reason>
    ensures { result ≡ change_refusal world.now change.now }
{
    match change {
        Command::Down(link) => world.down_refusal(*link),
        Command::Up(link) => world.up_refusal(*link),
        Command::Metric { link, metric, .. } => world.metric_refusal(*link, *metric),
        _ => None,
    }
}

/// Whether the name of an entry, if it has one, is that of a declared bridge.
fn is_known(world: &World, entry: &EntryWord) -> bool
    ensures { result ≡ refuse.is_known world.now.bridges entry.now }
{
    match entry {
        EntryWord::Before(name) => world.bridge_place(*name).is_some(),
        EntryWord::Start | EntryWord::Unreached => true,
    }
}

/// Whether all names among entries are those of declared bridges.
fn are_known(world: &World, entries: &[EntryWord]) -> bool
    ensures { result ≡ list_all (refuse.is_known world.now.bridges) entries.now }
{
    entries.iter().all(|entry| is_known(world, entry))
}

/// Why entries can't be checked, if they can't.
#[tactic(auto, unfolding(crate::specs::Refusing::check_refusal))]
fn check_refused(
    world: &World,
    from: Name,
    to: Name,
    vid: u64,
    entries: &[EntryWord],
) -> Option<Reason>
    ensures { result ≡ refuse.check_refusal world.now from to vid entries.now }
{
    let are_known = are_known(world, entries);
    let are_all = entries.len() == world.bridge_count();
    world
        .path_refusal(from, to, vid)
        .or(reason_unless(are_known, Reason::NoSuchName))
        .or(reason_unless(are_all, Reason::Range))
}

/// Why a question is refused, if it is: the first reason in order of number that holds. Takes no memory. `Settle` is no
/// question, and nothing here refuses it.
pub fn refusal(world: &World, extra: &Extra) -> Option<Reason>
    ensures { result ≡ refuse.extra_refusal world.now extra.now }
{
    match extra {
        Extra::WhatIf(change) => change_refused(world, change),
        Extra::Proof { from, to, vid } => world.path_refusal(*from, *to, *vid),
        Extra::Check {
            from,
            to,
            vid,
            entries,
        } => check_refused(world, *from, *to, *vid, entries.as_slice()),
        Extra::Settle => None,
    }
}
