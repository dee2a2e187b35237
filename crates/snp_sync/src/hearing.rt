//! Sequence numbers PDUs that are heard: entry by entry, and of a CSNP also what it doesn't list.
ghost use Rattle.std.specs.Prelude.{◌≡◌, ◌≤◌, length, if◌then◌else◌, IfOk, OnOk, OnErr};
ghost use Rattle.std.specs.FinMap.{get};
ghost use Rattle.lsdb.specs.Version.{claimed};
ghost use Rattle.lsdb.specs.Entry.{cleared};
ghost use Rattle.lsdb.specs.Database.{changed_if_held, StandsAt};
ghost use Rattle.flooding.specs.Own.{HaveBytes};
ghost use Rattle.flooding.specs.Hearing.{HasFewOthers, wanted, unless_absent, hear_entry_of, is_full_for_entry};
ghost use Rattle.flooding.specs.Placing.{Puts, Hears, holding};
ghost use Rattle.snp_sync.specs.Hearing.{claim_in, claims_in, hear_entries_of, full_count, HeardSome, hear_csnp_of};

use crate::missed::{flag_missed, sorted_ids};
use flooding::{FloodError, Own, acknowledge, offer, put_near};
use lsdb::{Database, Held, Relation, Version, compare};
use spb_tlvs::SnpEntry;
use spb_types::limits::MOST_PORTS;
use spb_types::{LspId, NoMemory, PortSet, Seq};
use std::alloc::Global;

/// The place behind the one where an id was found; `near` where it wasn't.
fn behind(place: Option<usize>, near: usize) -> usize {
    match place {
        Some(place) => place.saturating_add(1),
        None => near,
    }
}

fn version_of(entry: &SnpEntry) -> Version
    ensures { result ≡ claimed entry.now.seq entry.now.lifetime entry.now.sum }
{
    Version::claimed(entry.seq, entry.lifetime, entry.sum)
}

/// The neighbour at a port has a newer LSP, which is asked for. An id that isn't held is entered as absent.
fn want(
    alloc: Global,
    db: &mut Database,
    port: u8,
    own: &Own,
    id: &LspId,
    place: Option<usize>,
) -> Result<(), FloodError>
    requires low { 1 ≤ port }
    requires high { port ≤ MOST_PORTS }
    requires place { StandsAt db.old id.now place }
    requires few { HasFewOthers (holding db.old own.now) }
    ensures { Puts result own.now.system id.now (wanted port (get db.old id.now)) db.old db.new }
{
    if place.is_some() {
        acknowledge(db, port, place);
        return Ok(());
    }
    put_near(
        db,
        own,
        usize::MAX,
        Held {
            id: *id,
            version: Version::Absent,
            lifetime: 0,
            body: Seq::new(alloc),
            srm: PortSet::none(),
            ssn: PortSet::none().with(port),
        },
    )
}

/// The neighbour at a port has the LSP at a place. Nothing happens where it is absent.
fn clear(db: &mut Database, port: u8, place: Option<usize>)
    requires low { 1 ≤ port }
    requires high { port ≤ MOST_PORTS }
    ensures { db.new ≡ changed_if_held (unless_absent (cleared port)) db.old place }
{
    if db.version_if_held(place).is_absent() {
        return;
    }
    if let Some(place) = place {
        db.set_srm_at(place, port, false);
    }
}

/// Hears an entry at a port. Its id is looked for at the place `near` first, which is then the place behind the one
/// where it was found.
fn hear_entry(
    alloc: Global,
    db: &mut Database,
    up: PortSet,
    port: u8,
    entry: &SnpEntry,
    own: &mut Own,
    near: &mut usize,
) -> Result<(), FloodError>
    requires low { 1 ≤ port }
    requires high { port ≤ MOST_PORTS }
    requires bodies { HaveBytes own.old }
    requires few { HasFewOthers (holding db.old own.old) }
    ensures { Hears result (is_full_for_entry up port (claim_in entry.now) (holding db.old own.old)) (holding db.old own.old)
        (hear_entry_of up port (claim_in entry.now) (holding db.old own.old)) (holding db.new own.new) }
{
    let found = db.look_up_near(*near, &entry.id);
    *near = behind(found.place, *near);
    let relation = compare(version_of(entry), found.version);
    if own.answers(&entry.id, relation) {
        return own.answer(alloc, db, up, &entry.id, entry.seq);
    }
    match relation {
        Relation::Newer => return want(alloc, db, port, own, &entry.id, found.place),
        Relation::Equal => clear(db, port, found.place),
        Relation::Older => offer(db, port, found.place),
        Relation::Confused => db.purge(&entry.id, entry.seq, up),
    }
    Ok(())
}

/// Hears an entry at a port, and counts it where it needed a place that there wasn't.
fn count_entry(
    alloc: Global,
    db: &mut Database,
    up: PortSet,
    port: u8,
    entry: &SnpEntry,
    own: &mut Own,
    near: &mut usize,
) -> Result<u64, NoMemory>
    requires low { 1 ≤ port }
    requires high { port ≤ MOST_PORTS }
    requires bodies { HaveBytes own.old }
    requires few { HasFewOthers (holding db.old own.old) }
    ensures full { IfOk result (λ n. n ≡ (if is_full_for_entry up port (claim_in entry.now) (holding db.old own.old) then 1 else 0)) }
    ensures heard { OnOk result (holding db.new own.new ≡ hear_entry_of up port (claim_in entry.now) (holding db.old own.old)) }
    ensures err { OnErr result (holding db.new own.new ≡ holding db.old own.old) }
{
    match hear_entry(alloc, db, up, port, entry, own, near) {
        Ok(()) => Ok(0),
        Err(FloodError::Full) => Ok(1),
        Err(FloodError::NoMemory) => Err(NoMemory),
    }
}

/// Hears the entries of a PSNP at a port, 1 to 32, one after another (ISO/IEC 10589, 7.3.15.2), where `up` are the Up
/// ports:
///
/// - what is newer than what is held is asked for at the port, and needn't be sent there; an id that isn't held is
///   entered as absent for that. It is entered whatever the entry's lifetime and checksum are, by a rule of this
///   project's *profile*; the standard enters it only where neither is 0;
/// - what is the same needn't be sent there;
/// - of what is older the neighbour gets what is held;
/// - one that is live with the number of the held one and another checksum makes the LSP dead at that number, to be
///   sent at every Up port;
/// - a newer or confused one of the system's own is answered instead.
///
/// Each body of the system has at least one byte, and at most 4,080 ids are held that aren't own numbers. The answer is
/// the number of entries whose id isn't held, isn't an own number, and had to go in beside 4,080 such ids; such an entry
/// changes nothing, and the others are heard. After `NoMemory` some of the entries, from the first on, have been heard.
pub fn hear_psnp(
    alloc: Global,
    db: &mut Database,
    up: PortSet,
    port: u8,
    entries: &[SnpEntry],
    own: &mut Own,
) -> Result<u64, NoMemory>
    requires low { 1 ≤ port }
    requires high { port ≤ MOST_PORTS }
    requires bodies { HaveBytes own.old }
    requires few { HasFewOthers (holding db.old own.old) }
    ensures full { IfOk result (λ n. n ≡ full_count up port (claims_in entries.now) (holding db.old own.old)) }
    ensures heard { OnOk result (holding db.new own.new ≡ hear_entries_of up port (claims_in entries.now) (holding db.old own.old)) }
    ensures err { OnErr result (HeardSome up port (claims_in entries.now) (holding db.old own.old) (holding db.new own.new)) }
{
    let mut full = 0;
    let mut near = 0;
    for entry in entries {
        full += count_entry(alloc, db, up, port, entry, own, &mut near)?;
    }
    Ok(full)
}

/// Hears a CSNP of a range at a port, 1 to 32 (ISO/IEC 10589, 7.3.15.2), where `up` are the Up ports: its entries as
/// those of a PSNP, and then every LSP but the absent ones whose id lies in the range, its ends included, and isn't
/// among the entries is to be sent at the port. A dead LSP is sent there as a live one is, by a rule of this project's
/// *profile*; the standard sends none that is dead.
///
/// Each body of the system has at least one byte, and at most 4,080 ids are held that aren't own numbers. The answer is
/// the number of entries that found no place, as of a PSNP. After `NoMemory` some of the entries, from the first on, have
/// been heard, and nothing else changed.
pub fn hear_csnp(
    alloc: Global,
    db: &mut Database,
    up: PortSet,
    port: u8,
    start: &LspId,
    end: &LspId,
    entries: &[SnpEntry],
    own: &mut Own,
) -> Result<u64, NoMemory>
    requires low { 1 ≤ port }
    requires high { port ≤ MOST_PORTS }
    requires bodies { HaveBytes own.old }
    requires few { HasFewOthers (holding db.old own.old) }
    ensures full { IfOk result (λ n. n ≡ full_count up port (claims_in entries.now) (holding db.old own.old)) }
    ensures heard { OnOk result (holding db.new own.new ≡ hear_csnp_of up port start.now end.now (claims_in entries.now) (holding db.old own.old)) }
    ensures err { OnErr result (HeardSome up port (claims_in entries.now) (holding db.old own.old) (holding db.new own.new)) }
{
    let named = sorted_ids(alloc, entries)?;
    let full = hear_psnp(alloc, db, up, port, entries, own)?;
    flag_missed(db, port, start, end, &named);
    Ok(full)
}
