//! All that a bridge has learned: a table of addresses for each I-SID that it met.
ghost use Rattle.std.specs.Prelude.{◌≡◌, filter, not, OnOk, OnErr};
ghost use Rattle.std.specs.FinMap as finite;
ghost use Rattle.customer_learning.specs.Known.{place_in, with_learned, with_port_forgotten, with_isid_forgotten};
ghost use Rattle.customer_learning.specs.Tables.{is_of};

use crate::Place;
use crate::table::{Table, bring, forget_at, new_table, place_among, place_of};
use spb_types::{Isid, Mac, NoMemory};
use std::alloc::Global;
use std::marker::Model;

/// Where the addresses of customers are, for each I-SID apart: at most 1,024 addresses of each, the one learned last
/// first. Contracts see it as the finite map from I-SIDs to these lists.
#[derive(Drop)]
pub struct Learned {
    alloc: Global,
    tables: Vec<Table>,
}

impl Model for Learned {
    ghost use Rattle.std.specs.Prelude.{map};
    ghost use Rattle.std.specs.Coded.{codes};
    ghost use Rattle.std.specs.FinMap.{from_entries, code};
    ghost use Rattle.customer_learning.specs.Known.{Addresses};

    ghost Value = { Addresses };

    ghost coded = { code (Prim.hlevel codes) (Prim.hlevel codes) };

    ghost use Rattle.customer_learning.specs.Tables.{keyed, AreSized};

    ghost view = { λ l. from_entries (map keyed l.tables.items) };

    ghost invariant = { λ l. AreSized l.tables.items };
}

// The tables but for those of an I-SID.
fn forget_tables(tables: &mut Vec<Table>, isid: Isid)
    ensures { tables.new.items ≡ filter (λ t. not (is_of isid t)) tables.old.items }
{
    tables.retain(|t| t.isid.value != isid.value);
}

impl Learned {
    /// Nothing is learned yet. Takes no memory.
    pub fn new(alloc: Global) -> Self
        ensures { result ≡ finite.empty }
    {
        Learned {
            alloc,
            tables: Vec::new(alloc),
        }
    }

    /// The place of an address in an I-SID. None exactly where it wasn't learned, or is forgotten. Which addresses are
    /// forgotten next stays the same.
    pub fn find(&self, isid: Isid, mac: Mac) -> Option<Place>
        ensures { result ≡ place_in self.now isid mac }
    {
        match place_of(&self.tables, isid) {
            Some(i) => place_among(&self.tables[i].addresses, mac),
            None => None,
        }
    }

    /// Learns that an address of an I-SID is at a place. It goes to the front of the I-SID's addresses, and where there
    /// are 1,024 others the last of them is forgotten. After `NoMemory` nothing changed.
    pub fn learn(&mut self, isid: Isid, mac: Mac, place: Place) -> Result<(), NoMemory>
        ensures ok { OnOk result (self.new ≡ with_learned self.old isid mac place) }
        ensures err { OnErr result (self.new ≡ self.old) }
    {
        match place_of(&self.tables, isid) {
            Some(i) => bring(&mut self.tables[i].addresses, mac, place),
            None => {
                let mut table = new_table(self.alloc, isid)?;
                bring(&mut table.addresses, mac, place)?;
                self.tables.push(table)?;
                Ok(())
            }
        }
    }

    /// Forgets the addresses of an I-SID that are at a customer port. The others stay in their order.
    pub fn forget_port(&mut self, isid: Isid, port: u16)
        ensures { self.new ≡ with_port_forgotten self.old isid port }
    {
        match place_of(&self.tables, isid) {
            Some(i) => forget_at(&mut self.tables[i].addresses, port),
            None => {}
        }
    }

    /// Forgets all that was learned of an I-SID.
    pub fn forget_isid(&mut self, isid: Isid)
        ensures { self.new ≡ with_isid_forgotten self.old isid }
    {
        forget_tables(&mut self.tables, isid);
    }
}
