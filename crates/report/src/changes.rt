//! The text of what a change would do to the tables of bridges.
ghost use Rattle.std.specs.Prelude.{◌≡◌, ◌++◌, OnOk, IfOk};
ghost use Rattle.std.specs.List.{flat_map};
ghost use Rattle.report.specs.Changes as texts;
ghost use Rattle.report.specs.Words.{spaced};

use crate::text::Text;
use spb_types::{Name, NoMemory, TableRow};
use std::alloc::Global;

/// Bytes that the line of a row takes, mostly.
const ROW: usize = 48;

/// Bytes that the first line takes, at most.
const HEAD: usize = 32;

/// The answer to `whatif`: a line `whatif N` with the number of rows that change, and a line for each in the order
/// given: `+` where it is there only after the change, `-` where only before, the name of its bridge, and the row as in
/// the answer that shows a table.
#[tactic(auto, unfolding(crate::specs::Changes::whatif_text))]
pub fn whatif_text(alloc: Global, rows: &[(Name, bool, TableRow)]) -> Result<Vec<u8>, NoMemory>
    ensures { IfOk result (λ bytes. bytes.items ≡ texts.whatif_text rows.now) }
{
    let mut text = Text::with_room(alloc, rows.len().saturating_mul(ROW).saturating_add(HEAD))?;
    text.push(b"whatif")?;
    text.number(rows.len() as u64)?;
    text.end()?;
    put_changes(&mut text, rows)?;
    Ok(text.into_bytes())
}

fn put_changes(text: &mut Text, rows: &[(Name, bool, TableRow)]) -> Result<(), NoMemory>
    ensures { OnOk result (text.new ≡ text.old ++ flat_map texts.change_line rows.now) }
{
    for row in rows {
        put_change(text, row)?;
    }
    Ok(())
}

#[tactic(auto, unfolding(crate::specs::Changes::change_line))]
fn put_change(text: &mut Text, change: &(Name, bool, TableRow)) -> Result<(), NoMemory>
    ensures { OnOk result (text.new ≡ text.old ++ texts.change_line change.now) }
{
    let (name, is_added, row) = change;
    put_sign(text, *is_added)?;
    text.word(name.bytes())?;
    put_row(text, row)?;
    text.end()
}

fn put_sign(text: &mut Text, is_added: bool) -> Result<(), NoMemory>
    ensures { OnOk result (text.new ≡ text.old ++ texts.sign is_added) }
{
    if is_added {
        text.push(b"+")
    } else {
        text.push(b"-")
    }
}

fn put_row(text: &mut Text, row: &TableRow) -> Result<(), NoMemory>
    ensures { OnOk result (text.new ≡ text.old ++ flat_map spaced (texts.row_words row.now)) }
{
    match row {
        TableRow::Unicast(row) => {
            text.word(b"u")?;
            text.number(u64::from(row.vid.value))?;
            text.mac(row.mac)?;
            text.number(u64::from(row.port))
        }
        TableRow::Group(row) => {
            text.word(b"g")?;
            text.number(u64::from(row.vid.value))?;
            text.mac(row.mac)?;
            text.ports(row.ports)
        }
    }
}
