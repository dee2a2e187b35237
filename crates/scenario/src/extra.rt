//! Lines that are no commands: questions that change nothing, and settling; as values, and the words that begin them.
ghost use Rattle.std.specs.Prelude.{◌≡◌};
ghost use Rattle.scenario.specs.Keywords.{extra_keyword, change_of};

use crate::command::Command;
use crate::keyword::Keyword;
use spb_types::{EntryWord, Name, Seq};

/// What a line asks that is no command: one variant for each form of its line. All but `Settle` are questions that
/// change nothing.
///
/// Each number is one of at most 10 decimal digits; whether it is in range is not judged here.
#[derive(Debug, Drop)]
pub enum Extra {
    /// `whatif down L`, `whatif up L` or `whatif metric L END M`: what the command behind `whatif` would change.
    WhatIf(Command),
    /// `proof A B V`: the entries of a proof of the best paths from bridge A in the VID V, among them the one to B.
    Proof {
        from: Name,
        to: Name,
        vid: u64,
    },
    /// `check A B V ENTRY..`: whether these entries, 1 to 96, prove the best paths from bridge A in the VID V, and the
    /// path that they give to B. An entry is the name of the bridge before, `-` at the start, or `.` where no path
    /// leads.
    Check {
        from: Name,
        to: Name,
        vid: u64,
        entries: Seq<EntryWord>,
    },
    /// `settle`: rounds until the network is quiet.
    Settle,
}

/// The first word of the line of an extra: one for each form.
#[derive(Clone, Copy, Debug, PartialEq, Eq)]
pub enum ExtraKeyword {
    WhatIf,
    Proof,
    Check,
    Settle,
}

impl ExtraKeyword {
    /// The keyword that the word spells, in lower case. None exactly where it spells none.
    #[tactic(auto, unfolding(crate::specs::Keywords::extra_keyword))]
    pub fn read(word: &[u8]) -> Option<ExtraKeyword>
        ensures { result ≡ extra_keyword word.now }
    {
        if word == b"whatif".as_slice() {
            return Some(ExtraKeyword::WhatIf);
        }
        if word == b"proof".as_slice() {
            return Some(ExtraKeyword::Proof);
        }
        if word == b"check".as_slice() {
            return Some(ExtraKeyword::Check);
        }
        if word == b"settle".as_slice() {
            return Some(ExtraKeyword::Settle);
        }
        None
    }
}

/// The second word of a `whatif` line: the keyword of the command that would be given.
#[derive(Clone, Copy, Debug, PartialEq, Eq)]
pub enum Change {
    Down,
    Up,
    Metric,
}

impl Change {
    /// The change that the word spells. None exactly where it spells none.
    #[tactic(auto, unfolding(crate::specs::Keywords::change_of))]
    pub fn read(word: &[u8]) -> Option<Change>
        ensures { result ≡ change_of word.now }
    {
        if word == Keyword::Down.text() {
            return Some(Change::Down);
        }
        if word == Keyword::Up.text() {
            return Some(Change::Up);
        }
        if word == Keyword::Metric.text() {
            return Some(Change::Metric);
        }
        None
    }
}
