//! TLV 9 (LSP Entries), read and written.
ghost use Rattle.std.specs.Prelude.{◌≡◌, ◌*◌, ◌≤◌, ◌++◌, length, take, OnOk, OnErr, IfErr};
ghost use Rattle.spb_tlvs.specs.Tlv.{tlv};
ghost use Rattle.spb_tlvs.specs.Reading.{Reads, Refuses, AreAppended};
ghost use Rattle.spb_tlvs.specs.Entry.{entries_of, entries_value, entry_at, entry_bytes};

use crate::append::{put, whole_or_none};
use crate::codes::LSP_ENTRIES;
use crate::error::TlvError;
use spb_types::{LspId, NoMemory, lsp_id_in, u16_in, u32_in};
use std::alloc::{AllocError, Global};

/// What an SNP says of an LSP, in a TLV 9 (ISO/IEC 10589, 9.10 to 9.13).
#[derive(Clone, Copy, Debug, PartialEq, Eq)]
pub struct SnpEntry {
    /// The remaining lifetime in seconds.
    pub lifetime: u16,
    /// The id of the LSP.
    pub id: LspId,
    /// Its sequence number.
    pub seq: u32,
    /// Its checksum.
    pub sum: u16,
}

/// Reads the value of a TLV 9 (ISO/IEC 10589, 9.10 to 9.13): the entries in order. `Cut` exactly where its length is
/// no multiple of 16.
pub fn read_entries(alloc: Global, value: &[u8]) -> Result<Vec<SnpEntry>, TlvError>
    ensures { Reads result (entries_of value.now) }
{
    let mut entries = Vec::with_capacity(alloc, value.len() / 16)?;
    append_entries(&mut entries, value)?;
    Ok(entries)
}

/// Reads the value of a TLV 9 as [`read_entries`] does, and puts its entries behind others. Where the vector has room
/// for them, one for each 16 bytes, no memory is taken. After an error some of them may stand behind the others.
pub fn append_entries(entries: &mut Vec<SnpEntry>, value: &[u8]) -> Result<(), TlvError>
    ensures ok { OnOk result (AreAppended entries.old.items entries.new.items (entries_of value.now)) }
    ensures err { IfErr result (λ e. Refuses e (entries_of value.now)) }
{
    let (chunks, rest) = value.as_chunks::<16>();
    if !rest.is_empty() {
        return Err(TlvError::Cut);
    }
    for chunk in chunks {
        entries.push(entry_in(chunk))?;
    }
    Ok(())
}

fn entry_in(entry: &[u8; 16]) -> SnpEntry
    ensures { result ≡ entry_at entry.now }
{
    SnpEntry {
        lifetime: u16_in(entry, 0),
        id: lsp_id_in(entry, 2),
        seq: u32_in(entry, 10),
        sum: u16_in(entry, 14),
    }
}

/// Appends the TLV 9 of these entries, at most 15 (ISO/IEC 10589, 9.10 to 9.13).
pub fn write_entries(out: &mut Vec<u8>, items: &[SnpEntry]) -> Result<(), NoMemory>
    requires { length items.now ≤ 15 }
    ensures ok { OnOk result (out.new.items ≡ out.old.items ++ tlv 9 (entries_value items.now)) }
    ensures len { OnOk result (length (entries_value items.now) ≡ 16 * length items.now) }
    ensures err { OnErr result (out.new.items ≡ out.old.items) }
{
    let before = out.len();
    let ended = put_entries(out, items);
    whole_or_none(out, before, ended)
}

fn put_entries(out: &mut Vec<u8>, items: &[SnpEntry]) -> Result<(), NoMemory>
    requires { length items.now ≤ 15 }
    ensures ok { OnOk result (out.new.items ≡ out.old.items ++ tlv 9 (entries_value items.now)) }
    ensures len { OnOk result (length (entries_value items.now) ≡ 16 * length items.now) }
    ensures err { OnErr result (take (length out.old.items) out.new.items ≡ out.old.items) }
{
    put(out, &[LSP_ENTRIES, 16 * items.len() as u8])?;
    for entry in items {
        put_entry(out, entry)?;
    }
    Ok(())
}

fn put_entry(out: &mut Vec<u8>, entry: &SnpEntry) -> Result<(), NoMemory>
    ensures ok { OnOk result (out.new.items ≡ out.old.items ++ entry_bytes entry.now) }
    ensures len { OnOk result (length (entry_bytes entry.now) ≡ 16) }
    ensures err { OnErr result (take (length out.old.items) out.new.items ≡ out.old.items) }
{
    out.extend_from_slice(&octets_of(*entry))?;
    Ok(())
}

fn octets_of(entry: SnpEntry) -> [u8; 16]
    ensures bytes { result ≡ entry_bytes entry }
    ensures len { length (entry_bytes entry) ≡ 16 }
{
    let [first, second] = entry.lifetime.to_be_bytes();
    let [a, b, c, d, e, f] = entry.id.system.mac.bytes;
    let [s, t, u, v] = entry.seq.to_be_bytes();
    let [high, low] = entry.sum.to_be_bytes();
    [
        first,
        second,
        a,
        b,
        c,
        d,
        e,
        f,
        entry.id.pseudonode,
        entry.id.number,
        s,
        t,
        u,
        v,
        high,
        low,
    ]
}
