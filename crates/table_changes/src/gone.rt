//! The rows of tables that others lack.
ghost use Rattle.std.specs.Prelude.{◌≡◌, ◌++◌, [], ◌∷◌, drop, map, OnOk, if◌then◌else◌};
ghost use Rattle.fdb_build.specs.Tables.{AscendsBy};
ghost use Rattle.table_changes.specs.Changes.{all_rows, change_at, gone};
ghost use Rattle.table_changes.specs.Passing as passing;

use crate::Change;
use crate::rows::{is_before, is_same, row_at, row_count};
use spb_types::{NoMemory, TableRow, Tables};

/// The first place from `next` on at which no row before this one stands.
fn passed(tables: &Tables, next: usize, row: TableRow) -> usize
    ensures { drop result (all_rows tables.now) ≡ passing.drop_before row (drop next (all_rows tables.now)) }
{
    let count = row_count(tables);
    for place in next..count {
        if !is_before(row_at(tables, place), row) {
            return place;
        }
    }
    count
}

/// Whether this row stands at a place.
fn is_at(tables: &Tables, place: usize, row: TableRow) -> bool
    ensures { result ≡ passing.begins_with row (drop place (all_rows tables.now)) }
{
    place < row_count(tables) && is_same(row, row_at(tables, place))
}

/// Puts a change behind the others, unless its row is there.
fn put_unless(changes: &mut Vec<Change>, is_there: bool, change: Change) -> Result<(), NoMemory>
    ensures { OnOk result (changes.new.items ≡ changes.old.items ++ (if is_there then [] else change ∷ [])) }
{
    if !is_there {
        changes.push(change)?;
    }
    Ok(())
}

/// Puts the rows that others lack behind the changes, in order. It is one pass over the rows and the others.
pub fn put_gone(
    changes: &mut Vec<Change>,
    bridge: u16,
    added: bool,
    tables: &Tables,
    others: &Tables,
) -> Result<(), NoMemory>
    requires rows { AscendsBy passing.table_cmp (all_rows tables.now) }
    requires others { AscendsBy passing.table_cmp (all_rows others.now) }
    ensures { OnOk result
        (changes.new.items ≡ changes.old.items ++ map (change_at bridge added) (gone tables.now others.now)) }
{
    let mut next = 0;
    for place in 0..row_count(tables) {
        let row = row_at(tables, place);
        next = passed(others, next, row);
        let is_there = is_at(others, next, row);
        put_unless(changes, is_there, Change { bridge, added, row })?;
    }
    Ok(())
}
