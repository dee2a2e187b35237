//! An LSP that is heard: what it changes in the database, by how it stands to what is held.
ghost use Rattle.std.specs.Prelude.{◌≡◌, ◌≤◌, length, IfOk};
ghost use Rattle.isis_pdu.specs.Pdu.{lsp_of};
ghost use Rattle.lsdb.specs.Version.{claimed};
ghost use Rattle.lsdb.specs.Entry.{stored, acked};
ghost use Rattle.lsdb.specs.Database.{changed_if_held};
ghost use Rattle.flooding.specs.Own.{HaveBytes};
ghost use Rattle.flooding.specs.Hearing as hearing;
ghost use Rattle.flooding.specs.Hearing.{HasFewOthers, unless_absent, hear_lsp_of, is_full_for_lsp};
ghost use Rattle.flooding.specs.Placing.{Puts, Hears, holding};

use crate::put::put_near;
use crate::rules::{acknowledge, offer};
use crate::{FloodError, Own};
use isis_pdu::Lsp;
use lsdb::{Database, Held, Relation, Version, compare};
use spb_types::limits::MOST_PORTS;
use spb_types::{PortSet, Seq};
use std::alloc::{AllocError, Global};

/// Hears an LSP at a port, 1 to 32 (ISO/IEC 10589, 7.3.15.1 and 7.3.16), where `up` are the Up ports:
///
/// - a newer one is stored, to be sent at the other Up ports and acknowledged at this one; that a dead one of an id
///   that isn't held is stored too is *profile*;
/// - the same one is acknowledged at this port, and needn't be sent there;
/// - of an older one the neighbour gets what is held;
/// - one that is live with the number of the held one and another checksum makes the LSP dead at that number, to be
///   sent at every Up port;
/// - a newer or confused one of the system's own is answered instead.
///
/// Each body of the system has at least one byte, and at most 4,080 ids are held that aren't own numbers. Where the id
/// isn't held, isn't an own number, and has to go in beside 4,080 such ids, the answer is `Full` or `NoMemory`, and else
/// never `Full`. After an error nothing changed.
pub fn hear_lsp(
    alloc: Global,
    db: &mut Database,
    up: PortSet,
    port: u8,
    lsp: &Lsp<'_>,
    own: &mut Own,
) -> Result<(), FloodError>
    requires low { 1 ≤ port }
    requires high { port ≤ MOST_PORTS }
    requires bodies { HaveBytes own.old }
    requires few { HasFewOthers (holding db.old own.old) }
    ensures { Hears result (is_full_for_lsp up port (lsp_of lsp.now) (holding db.old own.old)) (holding db.old own.old)
        (hear_lsp_of up port (lsp_of lsp.now) (holding db.old own.old)) (holding db.new own.new) }
{
    let last = db.len();
    hear_lsp_near(alloc, db, up, port, lsp, own, last)
}

/// [`hear_lsp`], which looks for the id at the place `near` before any other: where it stands there, that takes one
/// comparison.
pub fn hear_lsp_near(
    alloc: Global,
    db: &mut Database,
    up: PortSet,
    port: u8,
    lsp: &Lsp<'_>,
    own: &mut Own,
    near: usize,
) -> Result<(), FloodError>
    requires low { 1 ≤ port }
    requires high { port ≤ MOST_PORTS }
    requires bodies { HaveBytes own.old }
    requires few { HasFewOthers (holding db.old own.old) }
    ensures { Hears result (is_full_for_lsp up port (lsp_of lsp.now) (holding db.old own.old)) (holding db.old own.old)
        (hear_lsp_of up port (lsp_of lsp.now) (holding db.old own.old)) (holding db.new own.new) }
{
    let found = db.look_up_near(near, &lsp.id);
    let relation = compare(version_of(lsp), found.version);
    if own.answers(&lsp.id, relation) {
        return own.answer(alloc, db, up, &lsp.id, lsp.seq);
    }
    match relation {
        Relation::Newer => return store(alloc, db, up, port, lsp, own, found.place),
        Relation::Equal => acknowledge_held(db, port, found.place),
        Relation::Older => offer(db, port, found.place),
        Relation::Confused => db.purge(&lsp.id, lsp.seq, up),
    }
    Ok(())
}

fn version_of(lsp: &Lsp<'_>) -> Version
    ensures { result ≡ claimed lsp.now.seq lsp.now.lifetime lsp.now.sum }
{
    Version::claimed(lsp.seq, lsp.lifetime, lsp.sum)
}

/// The body of an LSP: its flags octet and then its TLVs.
fn body_of(alloc: Global, lsp: &Lsp<'_>) -> Result<Vec<u8>, AllocError>
    ensures { IfOk result (λ body. body.items ≡ hearing.body_of (lsp_of lsp.now)) }
{
    let mut body = Vec::with_capacity(alloc, 1 + lsp.tlvs.len())?;
    body.push(lsp.flags)?;
    body.extend_from_slice(lsp.tlvs)?;
    Ok(body)
}

/// Stores an LSP that is newer than what is held, at this place if its id is held.
fn store(
    alloc: Global,
    db: &mut Database,
    up: PortSet,
    port: u8,
    lsp: &Lsp<'_>,
    own: &Own,
    place: Option<usize>,
) -> Result<(), FloodError>
    requires low { 1 ≤ port }
    requires high { port ≤ MOST_PORTS }
    requires few { HasFewOthers (holding db.old own.now) }
    ensures { Puts result own.now.system lsp.now.id
        (stored up port (claimed lsp.now.seq lsp.now.lifetime lsp.now.sum) lsp.now.lifetime (hearing.body_of (lsp_of lsp.now)))
        db.old db.new }
{
    let body = body_of(alloc, lsp)?;
    put_near(
        db,
        own,
        place.unwrap_or(usize::MAX),
        Held {
            id: lsp.id,
            version: version_of(lsp),
            lifetime: lsp.lifetime,
            body: Seq::from_vec(body),
            srm: up.without(port),
            ssn: PortSet::none().with(port),
        },
    )
}

/// The neighbour at a port has the LSP at a place, and gets an acknowledgement. Nothing happens where it is absent.
fn acknowledge_held(db: &mut Database, port: u8, place: Option<usize>)
    requires low { 1 ≤ port }
    requires high { port ≤ MOST_PORTS }
    ensures { db.new ≡ changed_if_held (unless_absent (acked port)) db.old place }
{
    if !db.version_if_held(place).is_absent() {
        acknowledge(db, port, place);
    }
}
