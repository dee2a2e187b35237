//! Entries that go into the database.
ghost use Rattle.std.specs.Prelude.{◌≡◌};
ghost use Rattle.lsdb.specs.Entry.{CanBeHeld, entry_of, cleaned};
ghost use Rattle.lsdb.specs.Database.{fits};
ghost use Rattle.flooding.specs.Own as own_specs;
ghost use Rattle.flooding.specs.Hearing.{HasFewOthers};
ghost use Rattle.flooding.specs.Placing.{Puts, PutsIf, holding};

use crate::{FloodError, Own};
use lsdb::{Database, Held, Version};
use spb_types::{LEVEL_1, LspId, PortSet, Seq};
use std::alloc::Global;

/// Puts an LSP in, if its id has room among those that this system holds.
pub fn put(db: &mut Database, own: &Own, held: Held) -> Result<(), FloodError>
    requires can { CanBeHeld held.version held.lifetime held.body }
    requires few { HasFewOthers (holding db.old own.now) }
    ensures { Puts result own.now.system held.id (cleaned (entry_of held)) db.old db.new }
{
    put_near(db, own, usize::MAX, held)
}

/// Puts an LSP in, if its id has room, which is looked for at the place `near` first.
pub fn put_near(db: &mut Database, own: &Own, near: usize, held: Held) -> Result<(), FloodError>
    requires can { CanBeHeld held.version held.lifetime held.body }
    requires few { HasFewOthers (holding db.old own.now) }
    ensures { Puts result own.now.system held.id (cleaned (entry_of held)) db.old db.new }
{
    if !own.has_room(db, &held.id) {
        return Err(FloodError::Full);
    }
    put_in(db, near, held)
}

/// Puts an LSP in, where there is a place for it.
fn put_in(db: &mut Database, near: usize, held: Held) -> Result<(), FloodError>
    requires { CanBeHeld held.version held.lifetime held.body }
    ensures { PutsIf result (fits db.old held.id) held.id (cleaned (entry_of held)) db.old db.new }
{
    db.put_near(near, held)?;
    Ok(())
}

/// Puts a dead LSP in, to be sent at every Up port.
pub fn put_dead(
    alloc: Global,
    db: &mut Database,
    up: PortSet,
    own: &Own,
    id: &LspId,
    seq: u32,
) -> Result<(), FloodError>
    requires { HasFewOthers (holding db.old own.now) }
    ensures { Puts result own.now.system id.now (own_specs.dead_at up seq) db.old db.new }
{
    put(
        db,
        own,
        Held {
            id: *id,
            version: Version::Dead { seq },
            lifetime: 0,
            body: Seq::from_vec(vec![in alloc; LEVEL_1]?),
            srm: up,
            ssn: PortSet::none(),
        },
    )
}
