//! An own LSP, originated: one sequence number further, or dead past the last one; and purged.
ghost use Rattle.std.specs.Prelude.{◌≡◌, ◌≤◌, ◌<◌, Some, false, length, OnOk, OnErr};
ghost use Rattle.std.specs.FinMap.{get, insert};
ghost use Rattle.lsdb.specs.Version.{is_absent};
ghost use Rattle.lsdb.specs.Database.{version_at, ssn_in};
ghost use Rattle.flooding.specs.Own as own_specs;
ghost use Rattle.flooding.specs.Own.{own_numbers, HaveBytes};
ghost use Rattle.flooding.specs.Hearing.{HasFewOthers};
ghost use Rattle.flooding.specs.Origination.{spent_entry, originated, number_purged, brought_up};
ghost use Rattle.flooding.specs.Placing.{holding, Puts};

use crate::put::put;
use crate::{FloodError, Own};
use isis_pdu::lsp_sum;
use lsdb::{Database, Held, Version};
use spb_types::{LspId, NoMemory, PortSet, Seq};
use std::alloc::Global;

/// The lifetime of an own LSP when it is originated, in seconds (ISO/IEC 10589, 7.3.5).
pub const MAX_AGE: u16 = 1_200;

/// Originates a number, if the system has a body for it (ISO/IEC 10589, 7.3.7): the own LSP goes one sequence number
/// further with that body and a lifetime of 1,200 seconds, is to be sent at every Up port and acknowledged at none. Past
/// number 4,294,967,295 it is dead instead, to be sent at every Up port, and the system is spent. A spent system
/// originates no more.
///
/// The number is one of the system's own; at most 4,080 ids are held that aren't own numbers, and each body has at least
/// one byte. After an error nothing changed.
pub fn originate(
    alloc: Global,
    db: &mut Database,
    up: PortSet,
    own: &mut Own,
    number: u8,
) -> Result<(), NoMemory>
    requires number { number < own_numbers }
    requires few { HasFewOthers (holding db.old own.old) }
    requires bodies { HaveBytes own.old }
    ensures ok { OnOk result (holding db.new own.new ≡ originated up number (holding db.old own.old)) }
    ensures err { OnErr result (holding db.new own.new ≡ holding db.old own.old) }
{
    if own.spent {
        return Ok(());
    }
    let Some(body) = own.body(number) else {
        return Ok(());
    };
    let id = own.id(number);
    let seq = db.version_at(&id).number();
    if seq < u32::MAX {
        return match renew(alloc, db, up, own, &id, body, seq + 1) {
            Ok(()) => Ok(()),
            // An own number has room, so it was memory that ran out.
            Err(_) => Err(NoMemory),
        };
    }
    spend(db, up, &id, seq);
    own.spent = true;
    Ok(())
}

/// Makes the own LSP of a number dead at its sequence number, to be sent at every Up port, if it is live. It takes no
/// memory.
pub fn purge(db: &mut Database, up: PortSet, own: &Own, number: u8)
    ensures { db.new ≡ (number_purged up number (holding db.old own.now)).db }
{
    let id = own.id(number);
    if let Version::Live { seq, sum: _ } = db.version_at(&id) {
        db.purge(&id, seq, up);
    }
}

/// Brings a number up to what the system says: originates it where the system has a body for it, and purges it where it
/// has none.
pub fn bring_up(
    alloc: Global,
    db: &mut Database,
    up: PortSet,
    own: &mut Own,
    number: u8,
) -> Result<(), NoMemory>
    requires number { number < own_numbers }
    requires few { HasFewOthers (holding db.old own.old) }
    requires bodies { HaveBytes own.old }
    ensures { OnOk result (holding db.new own.new ≡ brought_up up number (holding db.old own.old)) }
{
    if own.body(number).is_some() {
        return originate(alloc, db, up, own, number);
    }
    purge(db, up, own, number);
    Ok(())
}

/// Makes the LSP that is held under an id, and not as absent, dead at this sequence number, to be sent at every Up
/// port; where it is to be acknowledged stays.
fn spend(db: &mut Database, up: PortSet, id: &LspId, seq: u32)
    requires { is_absent (version_at db.old id.now) ≡ false }
    ensures { db.new ≡ insert db.old id.now (spent_entry up seq (get db.old id.now)) }
{
    let ssn = ssn_at(db, id);
    db.purge(id, seq, up);
    db.set_flags(id, up, ssn);
}

/// The ports at which the LSP under an id is to be acknowledged; none where the id isn't held.
fn ssn_at(db: &Database, id: &LspId) -> PortSet
    ensures { result ≡ ssn_in (get db.now id.now) }
{
    match db.find(id) {
        Some(held) => held.ssn,
        None => PortSet::none(),
    }
}

/// Puts an own LSP in at this number, with this body, to be sent at every Up port.
pub fn renew(
    alloc: Global,
    db: &mut Database,
    up: PortSet,
    own: &Own,
    id: &LspId,
    body: &Seq<u8>,
    seq: u32,
) -> Result<(), FloodError>
    requires body { 1 ≤ length body.now }
    requires few { HasFewOthers (holding db.old own.now) }
    ensures { Puts result own.now.system id.now (own_specs.renewed up id.now body.now seq) db.old db.new }
{
    let body = Vec::from_slice(alloc, body.as_slice())?;
    let sum = lsp_sum(id, seq, body[0], &body[1..]);
    put(
        db,
        own,
        Held {
            id: *id,
            version: Version::Live { seq, sum },
            lifetime: MAX_AGE,
            body: Seq::from_vec(body),
            srm: up,
            ssn: PortSet::none(),
        },
    )
}
