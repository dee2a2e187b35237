//! The words of a line with their columns, one after another.
ghost use Rattle.std.specs.Prelude.{◌≡◌, ◌≤◌, [], ◌∷◌, length, MatchOption, Ok};
ghost use Rattle.std.specs.List.{prefix_len, position_or_len};
ghost use Rattle.scenario.specs.Words.{is_blank as is_blank_byte, rest_from, next, next_more, at_end};
ghost use Rattle.scenario.specs.Answers.{Ends, Takes};

use crate::error::LineError;
use crate::field::Field;
use std::marker::Model;

/// What is left of a line: its words from left to right.
#[derive(Drop)]
pub struct Words<'a> {
    bytes: &'a [u8],
    column: usize,
}

impl<'a> Model for Words<'a> {
    ghost use Rattle.std.specs.Prelude.{◌+◌, ◌≤◌, ◌^◌, length};
    ghost use Rattle.scenario.specs.Words.{Rest, rest_from};

    ghost Value = { Rest };

    ghost view = { λ w. rest_from w.column w.bytes.now };

    ghost invariant = { λ w. w.column + length w.bytes.now ≤ 2 ^ 63 };
}

/// Whether a byte stands between words: a space or a tab.
#[tactic(auto, unfolding(crate::specs::Words::is_blank))]
pub(crate) fn is_blank(byte: u8) -> bool
    ensures { result ≡ is_blank_byte byte }
{
    byte == b' ' || byte == b'\t'
}

/// How many blanks the bytes begin with.
fn blanks(bytes: &[u8]) -> usize
    ensures len { result ≡ prefix_len is_blank_byte bytes.now }
    ensures within { result ≤ length bytes.now }
{
    bytes.iter().take_while(|byte| is_blank(**byte)).count()
}

/// How many bytes stand before the first blank.
fn word_len(bytes: &[u8]) -> usize
    ensures len { result ≡ position_or_len is_blank_byte bytes.now }
    ensures within { result ≤ length bytes.now }
{
    bytes.iter().take_while(|byte| !is_blank(**byte)).count()
}

impl<'a> Words<'a> {
    /// The words of a line.
    pub fn new(line: &'a [u8]) -> Words<'a>
        ensures { result ≡ rest_from 1 line.now }
    {
        Words {
            bytes: line,
            column: 1,
        }
    }

    /// The column right behind the line.
    fn end(&self) -> usize
        ensures { result ≡ self.now.end }
    {
        self.column + self.bytes.len()
    }

    /// The next word and its column. None where none is left.
    pub fn next_word(&mut self) -> Option<(usize, &'a [u8])>
        ensures { MatchOption result
            ((self.old.words ≡ []) × (self.new ≡ self.old))
            (λ word. (self.old.words ≡ record { column = word.0; bytes = word.1.now } ∷ self.new.words)
            × (self.new.end ≡ self.old.end)) }
    {
        let blanks = blanks(self.bytes);
        let column = self.column + blanks;
        let (_, bytes) = self.bytes.split_at(blanks);
        let len = word_len(bytes);
        let (word, after) = bytes.split_at(len);
        self.column = column + len;
        self.bytes = after;
        if len == 0 {
            return None;
        }
        Some((column, word))
    }

    /// What the next word means. `Words` exactly where it doesn't fit or is missing.
    #[tactic(auto, unfolding(crate::specs::Words::next))]
    pub fn take<T: Field<'a>>(&mut self) -> Result<T, LineError>
        ensures { Takes result self.new (next T.meaning self.old) }
    {
        let Some((column, word)) = self.next_word() else {
            return Err(LineError::Words(self.end()));
        };
        T::read(word).ok_or(LineError::Words(column))
    }

    /// What the next word means, or None where none is left. `Words` exactly where it doesn't fit.
    #[tactic(auto, unfolding(crate::specs::Words::next_more))]
    pub fn take_more<T: Field<'a>>(&mut self) -> Result<Option<T>, LineError>
        ensures { Takes result self.new (next_more T.meaning self.old) }
    {
        let Some((column, word)) = self.next_word() else {
            return Ok(None);
        };
        match T::read(word) {
            Some(value) => Ok(Some(value)),
            None => Err(LineError::Words(column)),
        }
    }

    /// `Words` exactly where a word is left.
    #[tactic(auto, unfolding(crate::specs::Words::at_end))]
    pub fn finish(&mut self) -> Result<(), LineError>
        ensures { Ends result (at_end self.old) }
    {
        match self.next_word() {
            None => Ok(()),
            Some((column, _)) => Err(LineError::Words(column)),
        }
    }
}
