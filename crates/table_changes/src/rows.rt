//! The rows of both tables of a bridge, as one list.
ghost use Rattle.std.specs.Prelude.{◌≡◌, ◌+◌, ◌<◌, ◌∷◌, length, drop};
ghost use Rattle.std.specs.Ordering.{is_lt};
ghost use Rattle.table_changes.specs.Changes.{all_rows, same_row};
ghost use Rattle.table_changes.specs.Passing as passing;

use spb_types::{Mac, TableRow, Tables, Vid};

/// How many rows both tables have.
pub fn row_count(tables: &Tables) -> usize
    ensures { result ≡ length (all_rows tables.now) }
{
    tables.unicast.as_slice().len() + tables.group.as_slice().len()
}

/// The row at a place of both tables, of which there is one: unicast rows first.
pub fn row_at(tables: &Tables, place: usize) -> TableRow
    requires { place < length (all_rows tables.now) }
    ensures { drop place (all_rows tables.now) ≡ result ∷ drop (place + 1) (all_rows tables.now) }
{
    let unicast = tables.unicast.as_slice();
    if place < unicast.len() {
        return TableRow::Unicast(unicast[place]);
    }
    let group = tables.group.as_slice();
    TableRow::Group(group[place - unicast.len()])
}

/// Whether two rows are the same.
pub fn is_same(row: TableRow, other: TableRow) -> bool
    ensures { result ≡ same_row row other }
{
    row == other
}

/// Whether a VID and an address stand before others.
fn is_key_before(vid: Vid, mac: Mac, other_vid: Vid, other_mac: Mac) -> bool
    ensures { result ≡ is_lt (passing.key_cmp vid mac other_vid other_mac) }
{
    vid.cmp(&other_vid).then(mac.cmp(&other_mac)).is_lt()
}

/// Whether a row stands before another: unicast rows before group rows, and then by VID and address.
pub fn is_before(row: TableRow, other: TableRow) -> bool
    ensures { result ≡ is_lt (passing.table_cmp row other) }
{
    match row {
        TableRow::Unicast(a) => match other {
            TableRow::Unicast(b) => is_key_before(a.vid, a.mac, b.vid, b.mac),
            TableRow::Group(_) => true,
        },
        TableRow::Group(a) => match other {
            TableRow::Unicast(_) => false,
            TableRow::Group(b) => is_key_before(a.vid, a.mac, b.vid, b.mac),
        },
    }
}
