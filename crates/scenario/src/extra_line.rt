//! The line of an extra, read by the grammar.
ghost use Rattle.std.specs.Prelude.{◌≡◌, ◌↔◌, IsTrue, Ok, None};
ghost use Rattle.scenario.specs.Grammar.{read};
ghost use Rattle.scenario.specs.Spelling.{Spells, IsBlankOrComment};
ghost use Rattle.scenario.specs.Extras.{extra_form, change_form, extra_of, GivesExtra, ReadsExtra, SpellsExtra, IsSoundExtra, BeginsExtra, IsExtraRefusedAt, may_begin_extra};

use crate::command::Command;
use crate::entries::read_entries;
use crate::error::LineError;
use crate::extra::{Change, Extra, ExtraKeyword};
use crate::forms;
use crate::line::LINE_LIMIT;
use crate::words::{Words, is_blank};
use std::alloc::Global;

/// The words behind `whatif metric`.
#[tactic(auto, unfolding(crate::specs::Extras::change_form))]
fn metric(words: &mut Words<'_>) -> Result<Extra, LineError>
    ensures { GivesExtra result (read (change_form Change.Metric) words.old) }
{
    let link = words.take()?;
    let side = words.take()?;
    let metric = words.take()?;
    words.finish()?;
    Ok(Extra::WhatIf(Command::Metric { link, side, metric }))
}

/// The words behind `whatif` and the keyword of a change.
#[tactic(auto, unfolding(crate::specs::Extras::change_form))]
fn what_if(change: Change, words: &mut Words<'_>) -> Result<Extra, LineError>
    ensures { GivesExtra result (read (change_form change) words.old) }
{
    match change {
        Change::Down => Ok(Extra::WhatIf(Command::Down(forms::one_name(words)?))),
        Change::Up => Ok(Extra::WhatIf(Command::Up(forms::one_name(words)?))),
        Change::Metric => metric(words),
    }
}

/// The words behind the keyword of `proof A B V`.
#[tactic(auto, unfolding(crate::specs::Extras::extra_form))]
fn proof(words: &mut Words<'_>) -> Result<Extra, LineError>
    ensures { GivesExtra result (read (extra_form ExtraKeyword.Proof) words.old) }
{
    let from = words.take()?;
    let to = words.take()?;
    let vid = words.take()?;
    words.finish()?;
    Ok(Extra::Proof { from, to, vid })
}

/// The words behind the keyword of `check A B V ENTRY..`.
#[tactic(auto, unfolding(crate::specs::Extras::extra_form))]
fn check(alloc: Global, words: &mut Words<'_>) -> Result<Extra, LineError>
    ensures { GivesExtra result (read (extra_form ExtraKeyword.Check) words.old) }
{
    let from = words.take()?;
    let to = words.take()?;
    let vid = words.take()?;
    let entries = read_entries(words)?.to_seq(alloc)?;
    Ok(Extra::Check {
        from,
        to,
        vid,
        entries,
    })
}

/// The words behind `settle`: none.
#[tactic(auto, unfolding(crate::specs::Extras::extra_form))]
fn settle(words: &mut Words<'_>) -> Result<Extra, LineError>
    ensures { GivesExtra result (read (extra_form ExtraKeyword.Settle) words.old) }
{
    words.finish()?;
    Ok(Extra::Settle)
}

/// The extra of the keyword's form, of the words behind it.
#[tactic(auto, unfolding(crate::specs::Extras::extra_form))]
fn extra(alloc: Global, keyword: ExtraKeyword, words: &mut Words<'_>) -> Result<Extra, LineError>
    ensures { GivesExtra result (read (extra_form keyword) words.old) }
{
    match keyword {
        ExtraKeyword::WhatIf => {
            let change = words.take()?;
            what_if(change, words)
        }
        ExtraKeyword::Proof => proof(words),
        ExtraKeyword::Check => check(alloc, words),
        ExtraKeyword::Settle => settle(words),
    }
}

/// Whether a line that begins with a byte may begin with the keyword of an extra: with its first letter, or a blank.
fn may_begin(byte: u8) -> bool
    ensures { result ≡ may_begin_extra byte }
{
    is_blank(byte) || byte == b'w' || byte == b'p' || byte == b'c' || byte == b's'
}

/// Whether a line begins with a byte with which no extra begins.
fn begins_otherwise(line: &[u8]) -> bool
    ensures { IsTrue result → extra_of line.now ≡ Ok None }
{
    match line.first() {
        None => false,
        Some(first) => !may_begin(*first),
    }
}

/// What the grammar of extras gives for a line.
#[tactic(auto, unfolding(crate::specs::Extras::extra_of, crate::specs::Words::next))]
fn read_extra(alloc: Global, line: &[u8]) -> Result<Option<Extra>, LineError>
    ensures { ReadsExtra result (extra_of line.now) }
{
    if begins_otherwise(line) {
        return Ok(None);
    }
    let mut words = Words::new(line);
    let Some((_, word)) = words.next_word() else {
        return Ok(None);
    };
    let Some(keyword) = ExtraKeyword::read(word) else {
        return Ok(None);
    };
    if line.len() > LINE_LIMIT {
        return Err(LineError::Words(LINE_LIMIT + 1));
    }
    let extra = extra(alloc, keyword, &mut words)?;
    Ok(Some(extra))
}

/// The extra that a line asks. The line comes without its end (LF, or CR LF).
///
/// None exactly where the first word of the line, however long that is, is none of `whatif`, `proof`, `check`
/// and `settle`, so also where it is blank or a comment: `parse_line` then says what the line is. Of a line that begins so, `Words`
/// exactly where it isn't in the grammar of extras or has more than 8,192 bytes, and `NoMemory` only where it is a
/// `check` line and no memory was found for its entries.
pub fn parse_extra(alloc: Global, line: &[u8]) -> Result<Option<Extra>, LineError>
    ensures exact { ReadsExtra result (extra_of line.now) }

    // Above the grammar: a line gives an extra exactly where it spells it, and it spells one at most.
    ensures spelled { (extra : _) → result ≡ Ok (Some extra) → SpellsExtra line.now extra }
    ensures only { (extra : _) → SpellsExtra line.now extra → ReadsExtra result (Ok (Some extra)) }
    ensures one { (a b : _) → SpellsExtra line.now a → SpellsExtra line.now b → a ≡ b }

    // A `whatif` has a change, and a `check` 1 to 96 entries.
    ensures sound { (extra : _) → result ≡ Ok (Some extra) → IsSoundExtra extra }

    // None where the line begins otherwise, so for each line that gives a command or is ignored.
    ensures others { (result ≡ Ok None) ↔ (BeginsExtra line.now → ⊥) }
    ensures commands { (command : _) → Spells line.now command → result ≡ Ok None }
    ensures ignored { IsBlankOrComment line.now → result ≡ Ok None }

    // The column is that of the first word that doesn't fit, or right behind the line where words are missing.
    ensures refused { (column : _) → result ≡ Err (LineError.Words column) → IsExtraRefusedAt line.now column }
{
    read_extra(alloc, line)
}
