//! Rules of hearing that change what is held at a place, and take no memory.
ghost use Rattle.std.specs.Prelude.{◌≡◌, ◌≤◌};
ghost use Rattle.lsdb.specs.Entry.{acked, offered};
ghost use Rattle.lsdb.specs.Database.{changed_if_held};

use lsdb::Database;
use spb_types::limits::MOST_PORTS;

/// The neighbour at a port, 1 to 32, needn't be sent the LSP at a place, and gets an acknowledgement: the SRM flag is
/// cleared there and the SSN flag set. Nothing happens where there is none.
pub fn acknowledge(db: &mut Database, port: u8, place: Option<usize>)
    requires low { 1 ≤ port }
    requires high { port ≤ MOST_PORTS }
    ensures { db.new ≡ changed_if_held (acked port) db.old place }
{
    if let Some(place) = place {
        db.set_flags_at(place, port, false, true);
    }
}

/// The neighbour at a port, 1 to 32, has an older LSP than the one at a place, and gets this one: its SRM flag is set
/// there and its SSN flag cleared. Nothing happens where there is none.
pub fn offer(db: &mut Database, port: u8, place: Option<usize>)
    requires low { 1 ≤ port }
    requires high { port ≤ MOST_PORTS }
    ensures { db.new ≡ changed_if_held (offered port) db.old place }
{
    if let Some(place) = place {
        db.set_flags_at(place, port, true, false);
    }
}
