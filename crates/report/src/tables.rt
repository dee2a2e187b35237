//! The text of a bridge's tables, as `show` and `wiring` give it.
ghost use Rattle.std.specs.Prelude.{◌≡◌, ◌<◌, ◌≤◌, ◌++◌, OnOk, IfOk};
ghost use Rattle.std.specs.List.{flat_map};
ghost use Rattle.report.specs.Tables as texts;
ghost use Rattle.report.specs.Words.{spaced};

use crate::text::{Text, hex_digits};
use spb_types::{GroupRow, Name, NoMemory, Tables, UnicastRow};
use std::alloc::Global;

/// Bytes that the line of a unicast row takes, at most.
const UNICAST_ROW: usize = 23;

/// Bytes that the line of a group row takes, mostly.
const GROUP_ROW: usize = 40;

/// Bytes that the first line takes, mostly.
const HEAD: usize = 64;

/// The answer that shows tables: a line of the word, the bridge's name, `quiet` or `busy` if that was asked, and the
/// numbers of rows; then a line `u VID MAC PORT` for each unicast row, and a line `g VID MAC PORTS` for each group row.
#[tactic(auto, unfolding(crate::specs::Tables::tables_text))]
pub fn tables_text(
    alloc: Global,
    word: &str,
    name: Name,
    quiet: Option<bool>,
    tables: &Tables,
) -> Result<Vec<u8>, NoMemory>
    ensures { IfOk result
        (λ bytes. bytes.items ≡ texts.tables_text word.now name quiet tables.now) }
{
    let rows = tables
        .unicast
        .len()
        .saturating_mul(UNICAST_ROW)
        .saturating_add(tables.group.len().saturating_mul(GROUP_ROW));
    let mut text = Text::with_room(alloc, rows.saturating_add(HEAD))?;
    put_head(&mut text, word, name, quiet, tables)?;
    put_unicast_rows(&mut text, tables.unicast.as_slice())?;
    put_group_rows(&mut text, tables.group.as_slice())?;
    Ok(text.into_bytes())
}

#[tactic(auto, unfolding(crate::specs::Tables::tables_head))]
fn put_head(
    text: &mut Text,
    word: &str,
    name: Name,
    quiet: Option<bool>,
    tables: &Tables,
) -> Result<(), NoMemory>
    ensures { OnOk result
        (text.new ≡ text.old ++ texts.tables_head word.now name quiet tables.now) }
{
    text.push(word.as_bytes())?;
    text.word(name.bytes())?;
    put_quiet(text, quiet)?;
    text.number(tables.unicast.len() as u64)?;
    text.number(tables.group.len() as u64)?;
    text.end()
}

fn put_quiet(text: &mut Text, quiet: Option<bool>) -> Result<(), NoMemory>
    ensures { OnOk result (text.new ≡ text.old ++ flat_map spaced (texts.quiet_words quiet)) }
{
    match quiet {
        None => Ok(()),
        Some(true) => text.word(b"quiet"),
        Some(false) => text.word(b"busy"),
    }
}

fn put_unicast_rows(text: &mut Text, rows: &[UnicastRow]) -> Result<(), NoMemory>
    ensures { OnOk result (text.new ≡ text.old ++ flat_map texts.unicast_line rows.now) }
{
    for row in rows {
        put_unicast_row(text, row)?;
    }
    Ok(())
}

/// The line of a unicast row whose VID has two digits and whose port has one. Its bytes are put all at once.
#[tactic(auto, unfolding(crate::specs::Tables::unicast_line))]
fn put_short_row(text: &mut Text, row: &UnicastRow) -> Result<(), NoMemory>
    requires low { 10 ≤ row.now.vid.value }
    requires high { row.now.vid.value < 100 }
    requires port { row.now.port < 10 }
    ensures { OnOk result (text.new ≡ text.old ++ texts.unicast_line row.now) }
{
    let tens = b'0' + (row.vid.value / 10) as u8;
    let ones = b'0' + (row.vid.value % 10) as u8;
    let port = b'0' + row.port;
    let [a, b, c, d, e, f, g, h, i, j, k, l] = hex_digits(row.mac);
    text.push(&[
        b'u', b' ', tens, ones, b' ', a, b, c, d, e, f, g, h, i, j, k, l, b' ', port, b'\n',
    ])
}

#[tactic(auto, unfolding(crate::specs::Tables::unicast_line))]
fn put_unicast_row(text: &mut Text, row: &UnicastRow) -> Result<(), NoMemory>
    ensures { OnOk result (text.new ≡ text.old ++ texts.unicast_line row.now) }
{
    if 10 <= row.vid.value && row.vid.value < 100 && row.port < 10 {
        return put_short_row(text, row);
    }
    text.push(b"u")?;
    text.number(u64::from(row.vid.value))?;
    text.mac(row.mac)?;
    text.number(u64::from(row.port))?;
    text.end()
}

fn put_group_rows(text: &mut Text, rows: &[GroupRow]) -> Result<(), NoMemory>
    ensures { OnOk result (text.new ≡ text.old ++ flat_map texts.group_line rows.now) }
{
    for row in rows {
        put_group_row(text, row)?;
    }
    Ok(())
}

#[tactic(auto, unfolding(crate::specs::Tables::group_line))]
fn put_group_row(text: &mut Text, row: &GroupRow) -> Result<(), NoMemory>
    ensures { OnOk result (text.new ≡ text.old ++ texts.group_line row.now) }
{
    text.push(b"g")?;
    text.number(u64::from(row.vid.value))?;
    text.mac(row.mac)?;
    text.ports(row.ports)?;
    text.end()
}
