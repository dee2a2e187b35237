//! The entries of a `check` line.
ghost use Rattle.std.specs.Prelude.{◌≡◌, ◌<◌, ◌-◌, [], ◌∷◌, ◌++◌, List, length, OnOk, IfOk};
ghost use Rattle.spb_types.specs.declared.entry_word.EntryWord.{EntryWord};
ghost use Rattle.scenario.specs.declared.extra.Extra.{Extra};
ghost use Rattle.scenario.specs.Grammar.{read};
ghost use Rattle.scenario.specs.Extras.{more_entries, all_entries, AddsEntries, ListsEntries};

use crate::error::LineError;
use crate::words::Words;
use spb_types::limits::MOST_BRIDGES;
use spb_types::{EntryWord, NoMemory, Seq};
use std::alloc::Global;
use std::marker::Model;

/// At most 96 entries, in order. They take no memory; contracts see them as a list.
#[derive(Drop)]
pub struct Entries {
    words: [EntryWord; MOST_BRIDGES],
    count: usize,
}

impl Model for Entries {
    ghost use Rattle.std.specs.Prelude.{◌≡◌, ◌≤◌, List, length, take};
    ghost use Rattle.spb_types.specs.declared.entry_word.EntryWord.{EntryWord};
    ghost use Rattle.spb_types.specs.declared.limits.TheConstants.{MOST_BRIDGES};

    ghost Value = { List EntryWord };

    ghost view = { λ e. take e.count e.words };

    ghost invariant = { λ e. (length e.words ≡ MOST_BRIDGES) × (e.count ≤ MOST_BRIDGES) };
}

impl Entries {
    /// No entries.
    fn new() -> Entries
        ensures { result ≡ [] }
    {
        Entries {
            words: [EntryWord::Start; MOST_BRIDGES],
            count: 0,
        }
    }

    /// How many entries there are.
    fn len(&self) -> usize
        ensures { result ≡ length self.now }
    {
        self.count
    }

    /// Puts an entry behind the others.
    fn push(&mut self, entry: EntryWord)
        requires { length self.old < MOST_BRIDGES }
        ensures { self.new ≡ self.old ++ entry ∷ [] }
    {
        self.words[self.count] = entry;
        self.count += 1;
    }

    /// The entries as a list. `NoMemory` where no memory was found for them.
    pub fn to_seq(&self, alloc: Global) -> Result<Seq<EntryWord>, NoMemory>
        ensures { IfOk result (λ entries. entries ≡ self.now) }
    {
        let items = Vec::from_slice(alloc, &self.words[..self.count])?;
        Ok(Seq::from_vec(items))
    }
}

/// Puts the entries that follow behind those that were found, until none is left or 96 are there. `Words` exactly where
/// one of these words is no entry.
fn read_more(words: &mut Words<'_>, found: &mut Entries) -> Result<(), LineError>
    ensures { (given : List EntryWord → Extra) → AddsEntries given result found.new words.new
        (read (more_entries (MOST_BRIDGES - length found.old) given found.old) words.old) }
{
    while found.len() < MOST_BRIDGES {
        match words.take_more()? {
            Some(entry) => found.push(entry),
            None => return Ok(()),
        }
    }
    Ok(())
}

/// The entries up to the line's end: at least one, and at most 96. `Words` exactly where there are fewer or more, or a
/// word is no entry.
#[tactic(auto, unfolding(crate::specs::Extras::all_entries))]
pub fn read_entries(words: &mut Words<'_>) -> Result<Entries, LineError>
    ensures { (given : List EntryWord → Extra) → ListsEntries given result (read (all_entries given) words.old) }
{
    let mut found = Entries::new();
    found.push(words.take()?);
    read_more(words, &mut found)?;
    words.finish()?;
    Ok(found)
}
