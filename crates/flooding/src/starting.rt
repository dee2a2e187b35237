//! The own LSPs that a life of a system begins with.
ghost use Rattle.std.specs.Prelude.{◌≡◌, ◌<◌, length, OnOk, OnErr};
ghost use Rattle.lsdb.specs.Database.{changed_to};
ghost use Rattle.flooding.specs.Own.{own_numbers, own_number, body_of_number, HaveBytes};
ghost use Rattle.flooding.specs.Hearing.{HasFewOthers};
ghost use Rattle.flooding.specs.Starting.{started, started_as, started_all};
ghost use Rattle.flooding.specs.Placing.{holding};

use crate::origination::renew;
use crate::own::OWN_NUMBERS;
use crate::put::put_dead;
use crate::{FloodError, Own};
use lsdb::Database;
use spb_types::{NoMemory, PortSet};
use std::alloc::Global;

/// Begins the own LSP of a number above the number `last`, which it had in the life before (0: none): with a body it is
/// live at `last + 1` for 1,200 seconds; without one it is dead at `last`, or where that is 0, not held. At number
/// 4,294,967,295 it is dead there, and the system is spent (ISO/IEC 10589, 7.3.16.1). It is to be sent nowhere.
///
/// The number is one of the system's own; at most 4,080 ids are held that aren't own numbers, and each body has at least
/// one byte. After an error nothing changed.
pub fn begin(
    alloc: Global,
    db: &mut Database,
    own: &mut Own,
    number: u8,
    last: u32,
) -> Result<(), NoMemory>
    requires number { number < own_numbers }
    requires few { HasFewOthers (holding db.old own.old) }
    requires bodies { HaveBytes own.old }
    ensures ok { OnOk result (holding db.new own.new ≡ started number last (holding db.old own.old)) }
    ensures err { OnErr result (holding db.new own.new ≡ holding db.old own.old) }
{
    match put_first(alloc, db, own, number, last) {
        Ok(()) => {}
        // An own number has room, so it was memory that ran out.
        Err(_) => return Err(NoMemory),
    }
    if last < u32::MAX {
        return Ok(());
    }
    own.spent = true;
    Ok(())
}

/// Begins each own LSP above the number of this list that has its place: those that they had in the life before (0: none).
///
/// There is one for each own number; at most 4,080 ids are held that aren't own numbers, and each body has at least one
/// byte. The one error is `NoMemory`.
#[tactic(auto, unfolding(crate::specs::Own::own_numbers))]
pub fn begin_all(
    alloc: Global,
    db: &mut Database,
    own: &mut Own,
    last: &[u32],
) -> Result<(), NoMemory>
    requires long { length last.now ≡ own_numbers }
    requires few { HasFewOthers (holding db.old own.old) }
    requires bodies { HaveBytes own.old }
    ensures { OnOk result (holding db.new own.new ≡ started_all last.now 0 (holding db.old own.old)) }
{
    for number in 0..OWN_NUMBERS {
        begin(alloc, db, own, number, last[usize::from(number)])?;
    }
    Ok(())
}

/// Puts in what the own LSP of a number begins with above the number `last`, if it is held.
fn put_first(
    alloc: Global,
    db: &mut Database,
    own: &Own,
    number: u8,
    last: u32,
) -> Result<(), FloodError>
    requires few { HasFewOthers (holding db.old own.now) }
    requires bodies { HaveBytes own.now }
    ensures ok { OnOk result (db.new ≡ changed_to db.old (own_number own.now.system number)
        (started_as (own_number own.now.system number) last (body_of_number own.now number))) }
    ensures err { OnErr result (db.new ≡ db.old) }
{
    let id = own.id(number);
    let nowhere = PortSet::none();
    if last == u32::MAX {
        return put_dead(alloc, db, nowhere, own, &id, u32::MAX);
    }
    if let Some(body) = own.body(number) {
        return renew(alloc, db, nowhere, own, &id, body, last + 1);
    }
    if last == 0 {
        return Ok(());
    }
    put_dead(alloc, db, nowhere, own, &id, last)
}
