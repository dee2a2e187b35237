//! The tables of a bridge, and the questions that frames ask of them.
ghost use Rattle.std.specs.Prelude.{◌≡◌, ◌↔◌, ◌<◌, ◌^◌, ◌==◌, ◌&&◌, IsTrue, find};
ghost use Rattle.std.specs.Int.{w64, from_le_bytes};
ghost use Rattle.std.specs.Str.{bytes_eq};
ghost use Rattle.spb_types.specs.Address.{HasSixBytes};
ghost use Rattle.std.specs.Option.{option_copied};
ghost use Rattle.spb_types.specs.Tables.{row_bytes, is_row_for, unicast_in, is_group_row_for, group_in, IsIngress};

use crate::{Mac, PortSet, Seq, SystemId, Vid};

/// A unicast entry of the filtering database: frames to `mac` in `vid` leave by `port`, 1 to 32 (IEEE 802.1aq, 8.8).
#[derive(Clone, Copy, Debug, PartialEq, Eq)]
pub struct UnicastRow {
    pub vid: Vid,
    pub mac: Mac,
    pub port: u8,
}

/// A group entry of the filtering database: frames to `mac` in `vid` leave by each of `ports`.
#[derive(Clone, Copy, Debug, PartialEq, Eq)]
pub struct GroupRow {
    pub vid: Vid,
    pub mac: Mac,
    pub ports: PortSet,
}

/// A row of either table.
#[derive(Clone, Copy, Debug, PartialEq, Eq)]
pub enum TableRow {
    Unicast(UnicastRow),
    Group(GroupRow),
}

/// The tables of a bridge, each in ascending order of (VID, address).
#[derive(Debug, Drop)]
pub struct Tables {
    pub unicast: Seq<UnicastRow>,
    pub group: Seq<GroupRow>,
}

/// A path through a graph: the sum of its edges' costs, and its bridges from the first to the last.
#[derive(Debug, Drop)]
pub struct Path {
    pub cost: u64,
    pub bridges: Seq<SystemId>,
}

/// A VID and an address as one number of eight bytes, in the order in which they stand in memory.
fn number_of(vid: Vid, mac: Mac) -> u64
    ensures number { result ≡ from_le_bytes w64 (row_bytes vid mac) }
    ensures vid { vid.value < 2 ^ 16 }
    ensures bytes { HasSixBytes (record { mac = mac }) }
{
    let [low, high] = vid.value.to_le_bytes();
    let [a, b, c, d, e, f] = mac.bytes;
    u64::from_le_bytes([low, high, a, b, c, d, e, f])
}

/// Whether the VID and the address of a row are these. Both are compared at once.
#[tactic(auto, using(crate::proofs::RowNumbers::same_rows))]
fn is_at(row_vid: Vid, row_mac: Mac, vid: Vid, mac: Mac) -> bool
    ensures { result ≡ ((row_vid.value == vid.value) && bytes_eq row_mac.bytes mac.bytes) }
{
    number_of(row_vid, row_mac) == number_of(vid, mac)
}

/// The first unicast row for a VID and an address.
fn row_for(tables: &Tables, vid: Vid, mac: Mac) -> Option<&UnicastRow>
    ensures { option_copied result ≡ find (is_row_for vid mac) tables.now.unicast }
{
    tables
        .unicast
        .iter()
        .find(|row| is_at(row.vid, row.mac, vid, mac))
}

/// The port by which frames to an address in a VID leave: that of the first unicast row for both. None exactly where
/// there is no such row (IEEE 802.1aq, 8.8).
pub fn unicast_of(tables: &Tables, vid: Vid, mac: Mac) -> Option<u8>
    ensures { result ≡ unicast_in tables.now.unicast vid mac }
{
    match row_for(tables, vid, mac) {
        None => None,
        Some(row) => Some(row.port),
    }
}

/// The first group row for a VID and an address.
fn group_row_for(tables: &Tables, vid: Vid, mac: Mac) -> Option<&GroupRow>
    ensures { option_copied result ≡ find (is_group_row_for vid mac) tables.now.group }
{
    tables
        .group
        .iter()
        .find(|group| is_at(group.vid, group.mac, vid, mac))
}

/// The ports by which frames to a group address in a VID leave: those of the first group row for both, and none where
/// there is no such row (IEEE 802.1aq, 8.8).
pub fn group_of(tables: &Tables, vid: Vid, mac: Mac) -> PortSet
    ensures { result ≡ group_in tables.now.group vid mac }
{
    match group_row_for(tables, vid, mac) {
        None => PortSet::none(),
        Some(row) => row.ports,
    }
}

/// Whether a frame from an address in a VID may come in at a port: where frames to that address leave by this port, by
/// the ingress check of IEEE 802.1aq. A frame from an address without a row may come in nowhere.
pub fn ingress_ok(tables: &Tables, vid: Vid, sa: Mac, port: u8) -> bool
    ensures { IsTrue result ↔ IsIngress tables.now.unicast vid sa port }
{
    match unicast_of(tables, vid, sa) {
        None => false,
        Some(found) => found == port,
    }
}
