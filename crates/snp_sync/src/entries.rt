//! The entries of sequence numbers PDUs: which LSPs they tell of, and the TLVs that they are written in.
ghost use Rattle.std.specs.Prelude.{◌≡◌, ◌≤◌, ◌+◌, ◌*◌, ◌++◌, IfOk, OnOk, length, slice_get};
ghost use Rattle.lsdb.specs.Entry.{entry_of};
ghost use Rattle.std.specs.FinMap as finite;
ghost use Rattle.lsdb.specs.Database.{AreFlagsAt};
ghost use Rattle.snp_sync.specs.SnpEntries as snp;
ghost use Rattle.snp_sync.specs.SnpEntries.{snp_entries_where, has_ssn_at};
ghost use Rattle.snp_sync.specs.Chunks as chunks;
ghost use Rattle.snp_sync.specs.Chunks.{entry_tlvs};

use lsdb::{Database, Held, Version};
use spb_tlvs::{SnpEntry, write_entries};
use spb_types::NoMemory;
use spb_types::limits::MOST_PORTS;
use std::alloc::Global;

/// The most entries in a TLV.
const ENTRIES_PER_TLV: usize = 15;

/// The bytes of a TLV before its value: its code and its length.
const TLV_HEAD_BYTES: usize = 2;

/// The bytes of an entry.
const ENTRY_BYTES: usize = 16;

/// What an SNP says of an LSP.
fn snp_entry(held: &Held) -> SnpEntry
    ensures { result ≡ snp.snp_entry_of held.now.id (entry_of held.now) }
{
    SnpEntry {
        lifetime: held.lifetime,
        id: held.id,
        seq: held.version.number(),
        sum: held.version.sum(),
    }
}

/// Whether CSNPs list an LSP: all but the absent ones.
pub fn is_listed(held: &Held) -> bool
    ensures { result ≡ snp.is_listed (entry_of held.now) }
{
    match held.version {
        Version::Absent => false,
        Version::Live { seq: _, sum: _ } => true,
        Version::Dead { seq: _ } => true,
    }
}

/// The entries of all LSPs but the absent ones, in order of id.
pub fn listed(alloc: Global, db: &Database) -> Result<Vec<SnpEntry>, NoMemory>
    ensures { IfOk result (λ v. v.items ≡ snp_entries_where snp.is_listed db.now) }
{
    let mut entries = Vec::with_capacity(alloc, db.len())?;
    for place in 0..db.len() {
        if let Some(held) = db.at(place) {
            if is_listed(held) {
                entries.push(snp_entry(held))?;
            }
        }
    }
    Ok(entries)
}

/// Puts the entry of the LSP at a place behind others, if it is to be acknowledged or asked for at a port.
fn put_entry(
    db: &Database,
    place: usize,
    port: u8,
    entries: &mut Vec<SnpEntry>,
) -> Result<(), NoMemory>
    requires low { 1 ≤ port }
    requires high { port ≤ MOST_PORTS }
    ensures { OnOk result (entries.new.items
        ≡ entries.old.items ++ snp.entry_where (has_ssn_at port) (slice_get (finite.entries db.now) place)) }
{
    let Some(held) = db.at(place) else {
        return Ok(());
    };
    if !held.ssn.has(port) {
        return Ok(());
    }
    entries.push(snp_entry(held))?;
    Ok(())
}

/// The entries of the LSPs that are to be acknowledged or asked for at a port, in order of id. No flags stand but at these
/// places, and none are looked for elsewhere. Room for an entry at each place is taken first.
pub fn entries_with_ssn(
    alloc: Global,
    db: &Database,
    port: u8,
    places: &[usize],
) -> Result<Vec<SnpEntry>, NoMemory>
    requires low { 1 ≤ port }
    requires high { port ≤ MOST_PORTS }
    requires places { AreFlagsAt 0 places.now (finite.entries db.now) }
    ensures { IfOk result (λ v. v.items ≡ snp_entries_where (has_ssn_at port) db.now) }
{
    let mut entries = Vec::with_capacity(alloc, places.len())?;
    for k in 0..places.len() {
        put_entry(db, places[k], port, &mut entries)?;
    }
    Ok(entries)
}

/// How many bytes the TLVs of at most 90 entries have.
pub fn tlvs_length(entries: &[SnpEntry]) -> usize
    requires { length entries.now ≤ 90 }
    ensures { result ≡ chunks.tlvs_length (length entries.now) }
{
    let tlvs = (entries.len() + (ENTRIES_PER_TLV - 1)) / ENTRIES_PER_TLV;
    TLV_HEAD_BYTES * tlvs + ENTRY_BYTES * entries.len()
}

/// The bytes, and behind them the TLVs of at most 90 entries: 15 entries in each, the last with the rest.
pub fn append_tlvs(bytes: Vec<u8>, entries: &[SnpEntry]) -> Result<Vec<u8>, NoMemory>
    requires { length entries.now ≤ 90 }
    ensures tlvs { IfOk result (λ v. v.items ≡ bytes.items ++ entry_tlvs entries.now) }
    ensures length { OnOk result (length (entry_tlvs entries.now) ≡ chunks.tlvs_length (length entries.now)) }
{
    let mut out = bytes;
    for chunk in entries.chunks(ENTRIES_PER_TLV) {
        write_entries(&mut out, chunk)?;
    }
    Ok(out)
}

/// The TLVs of at most 90 entries.
pub fn tlvs_of(alloc: Global, entries: &[SnpEntry]) -> Result<Vec<u8>, NoMemory>
    requires { length entries.now ≤ 90 }
    ensures tlvs { IfOk result (λ v. v.items ≡ entry_tlvs entries.now) }
    ensures length { IfOk result (λ v. length v.items ≡ chunks.tlvs_length (length entries.now)) }
{
    let room = Vec::with_capacity(alloc, tlvs_length(entries))?;
    append_tlvs(room, entries)
}
