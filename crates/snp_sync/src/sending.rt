//! CSNPs of the whole database, and the PSNPs at a port, cut into PDUs.
ghost use Rattle.std.specs.Prelude.{◌≡◌, ◌≤◌, ◌<◌, ◌++◌, IfOk, OnOk, OnErr, map, length};
ghost use Rattle.isis_pdu.specs.Spelling.{csnp_bytes, psnp_bytes};
ghost use Rattle.std.specs.FinMap as finite;
ghost use Rattle.lsdb.specs.Database.{AreFlagsAt};
ghost use Rattle.snp_sync.specs.SnpEntries.{snp_entries_where, has_ssn_at};
ghost use Rattle.snp_sync.specs.Chunks.{chunks};
ghost use Rattle.snp_sync.specs.Sending as sending;
ghost use Rattle.snp_sync.specs.Sending.{bytes_in, csnp_for, psnp_for, csnps_of, ssn_cleared_at, all_ssn_cleared};

use crate::entries::{append_tlvs, entries_with_ssn, listed, tlvs_length, tlvs_of};
use crate::ids::{FIRST, LAST, successor};
use isis_pdu::{Csnp, append_psnp_head, write_csnp};
use lsdb::Database;
use spb_tlvs::SnpEntry;
use spb_types::limits::MOST_PORTS;
use spb_types::{LspId, NoMemory, SystemId};
use std::alloc::Global;

/// The most entries in a PDU.
pub const ENTRIES_PER_PDU: usize = 90;

/// The bytes of a PSNP before its TLVs.
const PSNP_HEAD_BYTES: usize = 17;

/// The CSNP of a range, with at most 90 entries.
fn csnp(
    alloc: Global,
    me: SystemId,
    start: LspId,
    end: LspId,
    entries: &[SnpEntry],
) -> Result<Vec<u8>, NoMemory>
    requires { length entries.now ≤ 90 }
    ensures { IfOk result (λ v. v.items ≡ csnp_bytes (csnp_for me (record { start = start; end = end; entries = entries.now }))) }
{
    let tlvs = tlvs_of(alloc, entries)?;
    write_csnp(
        alloc,
        &Csnp {
            source: me,
            start,
            end,
            tlvs: &tlvs,
        },
    )
}

/// How many bytes the PSNP of at most 90 entries has.
pub fn psnp_length(entries: &[SnpEntry]) -> usize
    requires { length entries.now ≤ 90 }
    ensures length { result ≡ sending.psnp_length (length entries.now) }
    ensures short { result ≤ 1497 }
{
    PSNP_HEAD_BYTES + tlvs_length(entries)
}

/// The bytes, and behind them the PSNP of at most 90 entries (ISO/IEC 10589, 7.3.15.4 and 9.12). Where their vector
/// has room for it, as [`psnp_length`] says, no memory is taken.
pub fn append_psnp(bytes: Vec<u8>, me: SystemId, entries: &[SnpEntry]) -> Result<Vec<u8>, NoMemory>
    requires { length entries.now ≤ 90 }
    ensures bytes { IfOk result (λ v. v.items ≡ bytes.items ++ psnp_bytes (psnp_for me entries.now)) }
    ensures length { OnOk result (length (psnp_bytes (psnp_for me entries.now)) ≡ sending.psnp_length (length entries.now)) }
{
    let mut out = bytes;
    append_psnp_head(&mut out, &me, tlvs_length(entries))?;
    let pdu = append_tlvs(out, entries)?;
    Ok(pdu)
}

/// The PSNP of at most 90 entries.
fn psnp(alloc: Global, me: SystemId, entries: &[SnpEntry]) -> Result<Vec<u8>, NoMemory>
    requires { length entries.now ≤ 90 }
    ensures { IfOk result (λ v. v.items ≡ psnp_bytes (psnp_for me entries.now)) }
{
    let room = Vec::with_capacity(alloc, psnp_length(entries))?;
    let pdu = append_psnp(room, me, entries)?;
    Ok(pdu)
}

/// The CSNPs of the whole database (ISO/IEC 10589, 7.3.15.3), the bytes of each: they list every LSP that is held but
/// the absent ones, in order of id, at most 90 in each. The first starts at the least id, and each further one at the
/// successor of the end of the one before. The last ends at the greatest id, and each other one at its last entry.
/// Where nothing is listed there is one without entries.
pub fn csnps(alloc: Global, db: &Database, me: SystemId) -> Result<Vec<Vec<u8>>, NoMemory>
    ensures { IfOk result (λ pdus. bytes_in pdus.items ≡ map csnp_bytes (csnps_of me db.now)) }
{
    let entries = listed(alloc, db)?;
    let mut pdus = Vec::new(alloc);
    let mut start = FIRST;
    let mut rest = entries.as_slice();
    while rest.len() > ENTRIES_PER_PDU {
        let (chunk, more) = rest.split_at(ENTRIES_PER_PDU);
        let end = chunk[ENTRIES_PER_PDU - 1].id;
        pdus.push(csnp(alloc, me, start, end, chunk)?)?;
        start = successor(end);
        rest = more;
    }
    pdus.push(csnp(alloc, me, start, LAST, rest)?)?;
    Ok(pdus)
}

/// The PSNPs of entries.
fn psnps_of(alloc: Global, entries: &[SnpEntry], me: SystemId) -> Result<Vec<Vec<u8>>, NoMemory>
    ensures { IfOk result (λ pdus. bytes_in pdus.items ≡ map psnp_bytes (map (psnp_for me) (chunks 90 entries.now))) }
{
    let mut pdus = Vec::with_capacity(alloc, 1)?;
    for chunk in entries.chunks(ENTRIES_PER_PDU) {
        pdus.push(psnp(alloc, me, chunk)?)?;
    }
    Ok(pdus)
}

/// The LSP at a place isn't to be acknowledged or asked for at a port any longer.
fn clear_ssn_at(db: &mut Database, port: u8, place: usize)
    requires low { 1 ≤ port }
    requires high { port ≤ MOST_PORTS }
    ensures { db.new ≡ ssn_cleared_at port place db.old }
{
    let Some(held) = db.at(place) else {
        return;
    };
    if held.ssn.has(port) {
        db.set_ssn_at(place, port, false);
    }
}

/// Nothing is to be acknowledged or asked for at a port any longer. No flags stand but at these places.
fn clear_ssn(db: &mut Database, port: u8, places: &[usize])
    requires low { 1 ≤ port }
    requires high { port ≤ MOST_PORTS }
    requires places { AreFlagsAt 0 places.now (finite.entries db.old) }
    ensures { db.new ≡ all_ssn_cleared port db.old }
{
    for k in 0..places.len() {
        clear_ssn_at(db, port, places[k]);
    }
}

/// The PSNPs at a port, 1 to 32 (ISO/IEC 10589, 7.3.15.4), the bytes of each: they list what is to be acknowledged or
/// asked for there, in order of id, at most 90 in each. Where nothing is, there is none. Those flags are cleared there;
/// after `NoMemory` nothing changed.
pub fn psnps(
    alloc: Global,
    db: &mut Database,
    me: SystemId,
    port: u8,
) -> Result<Vec<Vec<u8>>, NoMemory>
    requires low { 1 ≤ port }
    requires high { port ≤ MOST_PORTS }
    ensures ok { IfOk result (λ pdus. bytes_in pdus.items ≡ map psnp_bytes (sending.psnps_of me port db.old)) }
    ensures ssn_cleared { OnOk result (db.new ≡ all_ssn_cleared port db.old) }
    ensures err { OnErr result (db.new ≡ db.old) }
{
    let places = db.flagged_places(alloc)?;
    let entries = entries_with_ssn(alloc, db, port, &places)?;
    let pdus = psnps_of(alloc, &entries, me)?;
    clear_ssn(db, port, &places);
    Ok(pdus)
}

/// The entries that the PSNPs at a port, 1 to 32, list (ISO/IEC 10589, 7.3.15.4): those of what is to be acknowledged
/// or asked for there, in order of id. It is known that no flags stand but at these places, which ascend: only these are
/// looked at. Those flags are cleared there; after `NoMemory` nothing changed.
pub fn requests_within(
    alloc: Global,
    db: &mut Database,
    port: u8,
    places: &[usize],
) -> Result<Vec<SnpEntry>, NoMemory>
    requires low { 1 ≤ port }
    requires high { port ≤ MOST_PORTS }
    requires places { AreFlagsAt 0 places.now (finite.entries db.old) }
    ensures ok { IfOk result (λ entries. entries.items ≡ snp_entries_where (has_ssn_at port) db.old) }
    ensures ssn_cleared { OnOk result (db.new ≡ all_ssn_cleared port db.old) }
    ensures err { OnErr result (db.new ≡ db.old) }
{
    let entries = entries_with_ssn(alloc, db, port, places)?;
    if entries.is_empty() {
        return Ok(entries);
    }
    clear_ssn(db, port, places);
    Ok(entries)
}
