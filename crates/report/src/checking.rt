//! The texts of a proof of paths, and of what becomes of one that is checked.
ghost use Rattle.std.specs.Prelude.{◌≡◌, ◌++◌, map, OnOk, IfOk};
ghost use Rattle.std.specs.List.{flat_map};
ghost use Rattle.report.specs.Checking as texts;
ghost use Rattle.report.specs.Words.{spaced};

use crate::lines::put_way;
use crate::text::{LINE, Text};
use spb_types::{EntryWord, Name, NoMemory, Vid};
use std::alloc::Global;

/// The answer to `proof`: `proof FROM TO VID` and an entry for each declared bridge, in order: the name of the bridge
/// before it on its path, `-` for the one where the paths start, and `.` where no path leads.
#[tactic(auto, unfolding(crate::specs::Checking::proof_text))]
pub fn proof_text(
    alloc: Global,
    from: Name,
    to: Name,
    vid: Vid,
    entries: &[EntryWord],
) -> Result<Vec<u8>, NoMemory>
    ensures { IfOk result
        (λ bytes. bytes.items ≡ texts.proof_text from to vid.value entries.now) }
{
    let mut text = Text::with_room(alloc, LINE)?;
    text.push(b"proof")?;
    text.word(from.bytes())?;
    text.word(to.bytes())?;
    text.number(u64::from(vid.value))?;
    put_entries(&mut text, entries)?;
    text.end()?;
    Ok(text.into_bytes())
}

fn put_entries(text: &mut Text, entries: &[EntryWord]) -> Result<(), NoMemory>
    ensures { OnOk result (text.new ≡ text.old ++ flat_map spaced (map texts.entry_text entries.now)) }
{
    for entry in entries {
        put_entry(text, entry)?;
    }
    Ok(())
}

fn put_entry(text: &mut Text, entry: &EntryWord) -> Result<(), NoMemory>
    ensures { OnOk result (text.new ≡ text.old ++ spaced (texts.entry_text entry.now)) }
{
    match entry {
        EntryWord::Start => text.word(b"-"),
        EntryWord::Before(name) => text.word(name.bytes()),
        EntryWord::Unreached => text.word(b"."),
    }
}

/// The answer to `check` of a proof that is right: `check yes COST HOPS` and the names of the bridges on the path that
/// it gives, or `check yes none` where there is no name. The hops are one less than the names.
#[tactic(auto, unfolding(crate::specs::Checking::check_yes_text))]
pub fn check_yes_text(alloc: Global, cost: u64, names: &[Name]) -> Result<Vec<u8>, NoMemory>
    ensures { IfOk result (λ bytes. bytes.items ≡ texts.check_yes_text cost names.now) }
{
    let mut text = Text::with_room(alloc, LINE)?;
    text.push(b"check")?;
    text.word(b"yes")?;
    put_way(&mut text, cost, names)?;
    text.end()?;
    Ok(text.into_bytes())
}

/// The answer to `check` of a proof that is wrong: `check no K`, where K is the number of a bridge, counted from 1.
#[tactic(auto, unfolding(crate::specs::Checking::check_no_text))]
pub fn check_no_text(alloc: Global, number: u16) -> Result<Vec<u8>, NoMemory>
    ensures { IfOk result (λ bytes. bytes.items ≡ texts.check_no_text number) }
{
    let mut text = Text::with_room(alloc, LINE)?;
    text.push(b"check")?;
    text.word(b"no")?;
    text.number(u64::from(number))?;
    text.end()?;
    Ok(text.into_bytes())
}
