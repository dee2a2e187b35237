//! The texts of one line: a path, counts of drops, a frame that leaves, the state, what settling
//! came to, an error, and what `try` counted.
ghost use Rattle.std.specs.Prelude.{◌≡◌, ◌++◌, codes, decimal, map, option_map, OnOk, IfOk};
ghost use Rattle.std.specs.List.{flat_map};
ghost use Rattle.report.specs.Lines as texts;
ghost use Rattle.report.specs.Words.{spaced};

use crate::text::{LINE, Text};
use spb_types::{Name, NoMemory, Vid};
use std::alloc::Global;

/// The answer that shows a path: `path FROM TO VID COST HOPS` and the names of its bridges from the first to the last,
/// or `path FROM TO VID none` where there is no name. The hops are one less than the names.
#[tactic(auto, unfolding(crate::specs::Lines::path_text))]
pub fn path_text(
    alloc: Global,
    from: Name,
    to: Name,
    vid: Vid,
    cost: u64,
    names: &[Name],
) -> Result<Vec<u8>, NoMemory>
    ensures { IfOk result
        (λ bytes. bytes.items ≡ texts.path_text from to vid.value cost names.now) }
{
    let mut text = Text::with_room(alloc, LINE)?;
    text.push(b"path")?;
    text.word(from.bytes())?;
    text.word(to.bytes())?;
    text.number(u64::from(vid.value))?;
    put_way(&mut text, cost, names)?;
    text.end()?;
    Ok(text.into_bytes())
}

pub(crate) fn put_way(text: &mut Text, cost: u64, names: &[Name]) -> Result<(), NoMemory>
    ensures { OnOk result (text.new ≡ text.old ++ flat_map spaced (texts.way_words cost names.now)) }
{
    if names.is_empty() {
        return text.word(b"none");
    }
    text.number(cost)?;
    text.number(names.len() as u64 - 1)?;
    put_names(text, names)
}

fn put_names(text: &mut Text, names: &[Name]) -> Result<(), NoMemory>
    ensures { OnOk result (text.new ≡ text.old ++ flat_map spaced names.now) }
{
    for name in names {
        text.word(name.bytes())?;
    }
    Ok(())
}

/// The answer that tells how many frames a bridge dropped, by the reason: `drops NAME` and the nine counts, in order.
#[tactic(auto, unfolding(crate::specs::Lines::drops_text))]
pub fn drops_text(alloc: Global, name: Name, counts: &[u64; 9]) -> Result<Vec<u8>, NoMemory>
    ensures { IfOk result (λ bytes. bytes.items ≡ texts.drops_text name counts.now) }
{
    let mut text = Text::with_room(alloc, LINE)?;
    text.push(b"drops")?;
    text.word(name.bytes())?;
    put_numbers(&mut text, counts)?;
    text.end()?;
    Ok(text.into_bytes())
}

fn put_numbers(text: &mut Text, numbers: &[u64]) -> Result<(), NoMemory>
    ensures { OnOk result (text.new ≡ text.old ++ flat_map spaced (map decimal numbers.now)) }
{
    for number in numbers {
        text.number(*number)?;
    }
    Ok(())
}

/// The answer for a customer frame that leaves a bridge: `out NAME PORT FRAME`.
#[tactic(auto, unfolding(crate::specs::Lines::out_text))]
pub fn out_text(alloc: Global, name: Name, port: u16, frame: &[u8]) -> Result<Vec<u8>, NoMemory>
    ensures { IfOk result (λ bytes. bytes.items ≡ texts.out_text name port frame.now) }
{
    let digits = frame.len().saturating_mul(2);
    let mut text = Text::with_room(alloc, digits.saturating_add(LINE))?;
    text.push(b"out")?;
    text.word(name.bytes())?;
    text.number(u64::from(port))?;
    text.hex(frame)?;
    text.end()?;
    Ok(text.into_bytes())
}

/// The answer that says whether a network is quiet, given the numbers of the conditions that fail, ascending: `state
/// quiet` where there is none, and else `state busy` and `qN` for each number N.
#[tactic(auto, unfolding(crate::specs::Lines::state_text))]
pub fn state_text(alloc: Global, failing: &[u8]) -> Result<Vec<u8>, NoMemory>
    ensures { IfOk result (λ bytes. bytes.items ≡ texts.state_text failing.now) }
{
    let mut text = Text::with_room(alloc, LINE)?;
    text.push(b"state")?;
    put_state(&mut text, failing)?;
    text.end()?;
    Ok(text.into_bytes())
}

fn put_state(text: &mut Text, failing: &[u8]) -> Result<(), NoMemory>
    ensures { OnOk result (text.new ≡ text.old ++ flat_map spaced (texts.state_words failing.now)) }
{
    if failing.is_empty() {
        return text.word(b"quiet");
    }
    text.word(b"busy")?;
    put_conditions(text, failing)
}

fn put_conditions(text: &mut Text, failing: &[u8]) -> Result<(), NoMemory>
    ensures { OnOk result
        (text.new ≡ text.old ++ flat_map spaced (map (λ n. codes "q" ++ decimal n) failing.now)) }
{
    for condition in failing {
        text.push(b" q")?;
        text.decimal(u64::from(*condition))?;
    }
    Ok(())
}

/// The answer that tells what settling came to after so many rounds: `settle K quiet` where there is no reason, and else
/// `settle K busy WHY`.
#[tactic(auto, unfolding(crate::specs::Lines::settle_text))]
pub fn settle_text(alloc: Global, rounds: u32, why: Option<&str>) -> Result<Vec<u8>, NoMemory>
    ensures { IfOk result
        (λ bytes. bytes.items ≡ texts.settle_text rounds (option_map (λ word. word.now) why.entry)) }
{
    let mut text = Text::with_room(alloc, LINE)?;
    text.push(b"settle")?;
    text.number(u64::from(rounds))?;
    put_settled(&mut text, why)?;
    text.end()?;
    Ok(text.into_bytes())
}

fn put_settled(text: &mut Text, why: Option<&str>) -> Result<(), NoMemory>
    ensures { OnOk result (text.new ≡ text.old
        ++ flat_map spaced (texts.settle_words (option_map (λ word. word.now) why.entry))) }
{
    match why {
        None => text.word(b"quiet"),
        Some(word) => {
            text.word(b"busy")?;
            text.word(word.as_bytes())
        }
    }
}

/// The answer to a refused line: `error LINE NUMBER NAME`, with the number of the line from 1, and the number and name
/// of the reason; behind it the column, from 1, of the first word that doesn't fit, where one is given.
#[tactic(auto, unfolding(crate::specs::Lines::error_text))]
pub fn error_text(
    alloc: Global,
    line: u32,
    number: u8,
    name: &str,
    column: Option<usize>,
) -> Result<Vec<u8>, NoMemory>
    ensures { IfOk result (λ bytes. bytes.items ≡ texts.error_text line number name.now column) }
{
    let mut text = Text::with_room(alloc, LINE)?;
    text.push(b"error")?;
    text.number(u64::from(line))?;
    text.number(u64::from(number))?;
    text.word(name.as_bytes())?;
    put_column(&mut text, column)?;
    text.end()?;
    Ok(text.into_bytes())
}

fn put_column(text: &mut Text, column: Option<usize>) -> Result<(), NoMemory>
    ensures { OnOk result (text.new ≡ text.old ++ flat_map spaced (texts.column_words column)) }
{
    match column {
        None => Ok(()),
        Some(column) => text.number(column as u64),
    }
}

/// The line of what was counted of the answers to a script for so many bridges: `try N lines L shows S same M outs O`.
#[tactic(auto, unfolding(crate::specs::Lines::try_text))]
pub fn try_text(
    alloc: Global,
    bridges: u8,
    lines: u64,
    shows: u64,
    same: u64,
    outs: u64,
) -> Result<Vec<u8>, NoMemory>
    ensures { IfOk result (λ bytes. bytes.items ≡ texts.try_text bridges lines shows same outs) }
{
    let mut text = Text::with_room(alloc, LINE)?;
    text.push(b"try")?;
    text.number(u64::from(bridges))?;
    put_count(&mut text, b"lines", lines)?;
    put_count(&mut text, b"shows", shows)?;
    put_count(&mut text, b"same", same)?;
    put_count(&mut text, b"outs", outs)?;
    text.end()?;
    Ok(text.into_bytes())
}

fn put_count(text: &mut Text, name: &[u8], count: u64) -> Result<(), NoMemory>
    ensures { OnOk result (text.new ≡ text.old ++ flat_map spaced (texts.count_words name.now count)) }
{
    text.word(name)?;
    text.number(count)
}
