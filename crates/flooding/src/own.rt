//! A system and what it says of itself, and how it answers a claim of one of its own ids.
ghost use Rattle.std.specs.Prelude.{◌≡◌, ◌≤◌, Some, length, option_copied};
ghost use Rattle.flooding.specs.Hearing as hearing;

use crate::FloodError;
use crate::origination::renew;
use crate::put::put_dead;
use lsdb::{Database, Relation};
use spb_types::{LspId, PortSet, Seq, SystemId};
use std::alloc::Global;

/// The numbers of the LSPs that a system originates are those below this one (ISO/IEC 10589, 7.3.7).
pub const OWN_NUMBERS: u8 = 16;

/// A system and what it says of itself: the present bodies of its own LSPs by number, each the flags octet and then the
/// TLVs, at least one byte; and whether it is spent, which it is once one of its LSPs would have passed sequence number
/// 4,294,967,295. A spent system originates no more.
#[derive(Debug, Drop)]
pub struct Own {
    pub system: SystemId,
    pub bodies: Seq<Option<Seq<u8>>>,
    pub spent: bool,
}

impl Own {
    ghost use Rattle.flooding.specs.Own.{own_number, is_own_number, body_of_number, body_for, HaveBytes, answered, answering};
    ghost use Rattle.flooding.specs.Hearing.{HasFewOthers, is_answered, lacks_place, after_entry};
    ghost use Rattle.flooding.specs.Placing.{Hears, holding};

    /// The id of the system's own LSP of a number: its pseudonode is 0.
    pub fn id(&self, number: u8) -> LspId
        ensures { result ≡ own_number self.now.system number }
    {
        LspId {
            system: self.system,
            pseudonode: 0,
            number,
        }
    }

    /// Whether this is the id of an LSP that the system originates.
    #[tactic(auto, unfolding(crate::specs::Own::own_numbers))]
    pub fn has_number(&self, id: &LspId) -> bool
        ensures { result ≡ is_own_number self.now.system id.now }
    {
        id.system == self.system && id.pseudonode == 0 && id.number < OWN_NUMBERS
    }

    /// The body of a number, if the system has one for it.
    pub fn body(&self, number: u8) -> Option<&Seq<u8>>
        ensures { option_copied result ≡ body_of_number self.now number }
    {
        match self.bodies.as_slice().get(usize::from(number)) {
            Some(Some(body)) => Some(body),
            _ => None,
        }
    }

    /// The body that answers a claim of an id. A spent system has none.
    fn body_for(&self, id: &LspId) -> Option<&Seq<u8>>
        ensures { option_copied result ≡ body_for self.now id.now }
    {
        if self.spent || !self.has_number(id) {
            return None;
        }
        self.body(id.number)
    }

    /// Whether the system answers a claim of this id, by the relation of the claim to what is held: the id is one of
    /// its own, and the claim is newer or confused (ISO/IEC 10589, 7.3.16.1).
    pub fn answers(&self, id: &LspId, relation: Relation) -> bool
        ensures { result ≡ is_answered self.now id.now relation }
    {
        is_beyond(relation) && id.system == self.system
    }

    /// Answers a claim of one of the system's own ids at this sequence number (ISO/IEC 10589, 7.3.16.1). An LSP that
    /// the system has a body for goes one number further, with that body; at the last number it is dead and the system
    /// spent. Every other LSP, and each of a spent system, is dead at the claim's number. Each goes to every Up port.
    ///
    /// Each body has at least one byte, and at most 4,080 ids are held that aren't own numbers. Where the id isn't held,
    /// isn't an own number, and 4,080 such ids are held, the answer is `Full` or `NoMemory`, and else never `Full`. After
    /// an error nothing changed.
    pub fn answer(
        &mut self,
        alloc: Global,
        db: &mut Database,
        up: PortSet,
        id: &LspId,
        seq: u32,
    ) -> Result<(), FloodError>
        requires bodies { HaveBytes self.old }
        requires few { HasFewOthers (holding db.old self.old) }
        ensures { Hears result (lacks_place (holding db.old self.old) id.now (Some (answered up self.old id.now seq)))
            (holding db.old self.old)
            (after_entry (holding db.old self.old) id.now (Some (answered up self.old id.now seq)) (answering self.old id.now seq))
            (holding db.new self.new) }
    {
        let Some(body) = self.body_for(id) else {
            return put_dead(alloc, db, up, self, id, seq);
        };
        if seq < u32::MAX {
            return renew(alloc, db, up, self, id, body, seq + 1);
        }
        put_dead(alloc, db, up, self, id, seq)?;
        self.spent = true;
        Ok(())
    }
}

fn is_beyond(relation: Relation) -> bool
    ensures { result ≡ hearing.is_beyond relation }
{
    match relation {
        Relation::Older | Relation::Equal => false,
        Relation::Newer | Relation::Confused => true,
    }
}
