//! The text of what a bridge holds, an LSP id a line.
ghost use Rattle.std.specs.Prelude.{◌≡◌, ◌++◌, OnOk, IfOk};
ghost use Rattle.std.specs.List.{flat_map};
ghost use Rattle.report.specs.Database as texts;
ghost use Rattle.report.specs.Words.{spaced};

use crate::text::{LINE, Text};
use lsdb::{DbRow, Version};
use spb_types::{LspId, Name, NoMemory};
use std::alloc::Global;

/// The answer that lists a database: a line of `db`, the bridge's name and the number of ids; then, for each id,
/// `l ID`, its version, and the ports with SRM and with SSN. The version is `live LIFETIME SEQ SUM`, `dead SEQ`, or
/// `none` for an id without an LSP.
#[tactic(auto, unfolding(crate::specs::Database::db_text))]
pub fn db_text(alloc: Global, name: Name, rows: &[DbRow]) -> Result<Vec<u8>, NoMemory>
    ensures { IfOk result (λ bytes. bytes.items ≡ texts.db_text name rows.now) }
{
    let lines = rows.len().saturating_add(1);
    let mut text = Text::with_room(alloc, lines.saturating_mul(LINE))?;
    text.push(b"db")?;
    text.word(name.bytes())?;
    text.number(rows.len() as u64)?;
    text.end()?;
    put_rows(&mut text, rows)?;
    Ok(text.into_bytes())
}

fn put_rows(text: &mut Text, rows: &[DbRow]) -> Result<(), NoMemory>
    ensures { OnOk result (text.new ≡ text.old ++ flat_map texts.held_line rows.now) }
{
    for row in rows {
        put_row(text, row)?;
    }
    Ok(())
}

#[tactic(auto, unfolding(crate::specs::Database::held_line))]
fn put_row(text: &mut Text, row: &DbRow) -> Result<(), NoMemory>
    ensures { OnOk result (text.new ≡ text.old ++ texts.held_line row.now) }
{
    text.push(b"l")?;
    put_id(text, &row.id)?;
    put_version(text, row.version, row.lifetime)?;
    text.word(b"srm")?;
    text.ports(row.srm)?;
    text.word(b"ssn")?;
    text.ports(row.ssn)?;
    text.end()
}

fn put_id(text: &mut Text, id: &LspId) -> Result<(), NoMemory>
    ensures { OnOk result (text.new ≡ text.old ++ spaced (texts.id_text id.now)) }
{
    let [a, b, c, d, e, f] = id.system.mac.bytes;
    text.hex(&[a, b, c, d, e, f, id.pseudonode, id.number])
}

fn put_version(text: &mut Text, version: Version, lifetime: u16) -> Result<(), NoMemory>
    ensures { OnOk result
        (text.new ≡ text.old ++ flat_map spaced (texts.version_words version lifetime)) }
{
    match version {
        Version::Absent => text.word(b"none"),
        Version::Live { seq, sum } => {
            text.word(b"live")?;
            text.number(u64::from(lifetime))?;
            text.number(u64::from(seq))?;
            text.hex(&sum.to_be_bytes())
        }
        Version::Dead { seq } => {
            text.word(b"dead")?;
            text.number(u64::from(seq))
        }
    }
}
