//! TLV 22 (Extended IS Reachability) with SPB link metrics, read and written.
ghost use Rattle.std.specs.Prelude.{◌≡◌, ◌≤◌, ◌<◌, ◌++◌, ◌==◌, length, take, All, OnOk, OnErr, if◌then◌else◌};
ghost use Rattle.std.specs.Option.{ForSome, option_map, option_copied};
ghost use Rattle.spb_types.specs.Bytes.{u8_at};
ghost use Rattle.spb_tlvs.specs.Tlv.{tlv, tlv_of, are_whole};
ghost use Rattle.spb_tlvs.specs.Reading.{Reads};
ghost use Rattle.spb_tlvs.specs.Neighbour as spec;

use crate::append::{push_some, put, whole_or_none};
use crate::codes::EXTENDED_IS_REACHABILITY;
use crate::error::TlvError;
use crate::piece::split_piece;
use crate::tlv::{TLV_HEAD, find_tlv};
use spb_types::{NoMemory, SystemId, system_in, u16_in, u24_in};
use std::alloc::Global;

/// A neighbour of a bridge, in a TLV 22 with an SPB link metric (RFC 5305, 3; RFC 6329, 15.1).
#[derive(Clone, Copy, Debug, PartialEq, Eq)]
pub struct Neighbour {
    /// The neighbour's system id.
    pub system: SystemId,
    /// The SPB link metric, 0 to 16,777,215.
    pub metric: u32,
    /// The id of the bridge's port towards the neighbour.
    pub port: u16,
}

const SPB_METRIC: u8 = 29;

/// How many bytes of an entry stand before its sub-TLVs; the last of them counts those.
const ENTRY_HEAD: usize = 11;

/// How many bytes an SPB link metric has at least.
const METRIC_LEN: usize = 6;

/// Reads the value of a TLV 22 (RFC 5305, 3): in order, the neighbours that its entries name by an SPB link metric, the
/// first of the entry (RFC 6329, 15.1). An entry without one, or of a pseudonode, is ignored. `Cut` exactly where
/// an entry or one of its sub-TLVs isn't whole, or an SPB link metric has fewer than 6 bytes.
pub fn read_neighbours(alloc: Global, value: &[u8]) -> Result<Vec<Neighbour>, TlvError>
    ensures { Reads result (spec.neighbours_of value.now) }
{
    let mut neighbours = Vec::new(alloc);
    let mut rest = value;
    while let Some((entry, after)) = split_piece(ENTRY_HEAD, rest) {
        push_some(&mut neighbours, neighbour_in(entry)?)?;
        rest = after;
    }
    if !rest.is_empty() {
        return Err(TlvError::Cut);
    }
    Ok(neighbours)
}

/// The neighbour that an entry names, if it does. `Cut` where its sub-TLVs aren't whole.
fn neighbour_in(entry: &[u8]) -> Result<Option<Neighbour>, TlvError>
    requires { 11 ≤ length entry.now }
    ensures { result ≡ spec.one_neighbour entry.now }
{
    let (_, subs) = entry.split_at(ENTRY_HEAD);
    if !are_metrics_whole(subs) {
        return Err(TlvError::Cut);
    }
    Ok(neighbour_with(entry, find_tlv(subs, SPB_METRIC, 0)))
}

/// The neighbour of an entry whose first SPB link metric this is.
fn neighbour_with(entry: &[u8], metric: Option<&[u8]>) -> Option<Neighbour>
    requires head { 11 ≤ length entry.now }
    requires metric { ForSome metric (λ m. 6 ≤ length m.now) }
    ensures { result ≡ (if u8_at entry.now 6 == 0 then option_map (spec.neighbour_at entry.now) (option_copied metric.entry) else None) }
{
    if entry[6] != 0 {
        return None;
    }
    let metric = metric?;
    Some(Neighbour {
        system: system_in(entry, 0),
        metric: u24_in(metric, 0),
        port: u16_in(metric, 4),
    })
}

/// Whether sub-TLVs are whole, and each SPB link metric has its six bytes.
fn are_metrics_whole(subs: &[u8]) -> bool
    ensures { result ≡ are_whole spec.is_metric_whole subs.now }
{
    let mut rest = subs;
    while let Some((sub, after)) = split_piece(TLV_HEAD, rest) {
        if !is_metric_whole(sub) {
            return false;
        }
        rest = after;
    }
    rest.is_empty()
}

fn is_metric_whole(sub: &[u8]) -> bool
    requires { 2 ≤ length sub.now }
    ensures { result ≡ spec.is_metric_whole (tlv_of sub.now) }
{
    sub[0] != SPB_METRIC || sub.len() >= TLV_HEAD + METRIC_LEN
}

/// Appends the TLV 22 of these neighbours, at most 13, with metrics below 16,777,216 (RFC 5305, 3; RFC 6329, 15.1).
pub fn write_neighbours(out: &mut Vec<u8>, items: &[Neighbour]) -> Result<(), NoMemory>
    requires few { length items.now ≤ 13 }
    requires metrics { All (λ n. n.metric < 16777216) items.now }
    ensures ok { OnOk result (out.new.items ≡ out.old.items ++ tlv 22 (spec.neighbours_value items.now)) }
    ensures err { OnErr result (out.new.items ≡ out.old.items) }
{
    let before = out.len();
    let ended = put_neighbours(out, items);
    whole_or_none(out, before, ended)
}

fn put_neighbours(out: &mut Vec<u8>, items: &[Neighbour]) -> Result<(), NoMemory>
    requires { length items.now ≤ 13 }
    ensures ok { OnOk result (out.new.items ≡ out.old.items ++ tlv 22 (spec.neighbours_value items.now)) }
    ensures err { OnErr result (take (length out.old.items) out.new.items ≡ out.old.items) }
{
    put(out, &[EXTENDED_IS_REACHABILITY, 19 * items.len() as u8])?;
    for neighbour in items {
        put_neighbour(out, neighbour)?;
    }
    Ok(())
}

fn put_neighbour(out: &mut Vec<u8>, neighbour: &Neighbour) -> Result<(), NoMemory>
    ensures ok { OnOk result (out.new.items ≡ out.old.items ++ spec.neighbour_bytes neighbour.now) }
    ensures len { OnOk result (length (spec.neighbour_bytes neighbour.now) ≡ 19) }
    ensures err { OnErr result (take (length out.old.items) out.new.items ≡ out.old.items) }
{
    let [_, high, middle, low] = neighbour.metric.to_be_bytes();
    put(out, &neighbour.system.mac.bytes)?;
    put(out, &[0, high, middle, low])?;
    put(out, &[8, SPB_METRIC, 6, high, middle, low, 1])?;
    put(out, &neighbour.port.to_be_bytes())
}
