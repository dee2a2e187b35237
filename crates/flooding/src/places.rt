//! Room in a database: an own number always has it, and another id while few of them are held.
ghost use Rattle.std.specs.Prelude.{◌≡◌, slice_get};
ghost use Rattle.std.specs.FinMap.{entries, contains_key};
ghost use Rattle.flooding.specs.Room as room_specs;

use crate::Own;
use crate::own::OWN_NUMBERS;
use lsdb::Database;
use spb_types::LspId;
use spb_types::limits::MOST_LSPS;

/// How many ids that aren't own numbers have room.
#[tactic(auto, unfolding(crate::specs::Own::own_numbers))]
pub fn most_others() -> usize
    ensures { result ≡ room_specs.most_others }
{
    MOST_LSPS - usize::from(OWN_NUMBERS)
}

/// Whether an id is held.
fn holds(db: &Database, id: &LspId) -> bool
    ensures { result ≡ contains_key db.now id.now }
{
    db.find(id).is_some()
}

impl Own {
    /// Whether an id has room: it is held, or is an own number, or there is a place beside those of the own numbers. Only
    /// where so many ids are held is it asked which they are.
    pub fn has_room(&self, db: &Database, id: &LspId) -> bool
        ensures { result ≡ room_specs.has_room self.now.system db.now id.now }
    {
        if db.len() < most_others() {
            return true;
        }
        holds(db, id) || self.has_number(id) || self.others(db) < most_others()
    }

    /// How many ids are held that aren't own numbers.
    pub fn others(&self, db: &Database) -> usize
        ensures { result ≡ room_specs.others self.now.system db.now }
    {
        let mut count = 0;
        for place in 0..db.len() {
            count += self.others_at(db, place);
        }
        count
    }

    /// How many of them stand at a place, 0 or 1.
    fn others_at(&self, db: &Database, place: usize) -> usize
        ensures { result ≡ room_specs.others_at self.now.system (slice_get (entries db.now) place) }
    {
        let Some(held) = db.at(place) else {
            return 0;
        };
        if self.has_number(&held.id) { 0 } else { 1 }
    }
}
