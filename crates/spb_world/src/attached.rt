//! What is attached to the customer ports, a list for each bridge.
ghost use Rattle.std.specs.Prelude.{◌≡◌, [], ◌∷◌, ◌++◌, length, IfOk, OnOk, OnErr};
ghost use Rattle.std.specs.List.{slice_index_or};
ghost use Rattle.spb_types.specs.Places.{changed_at};
ghost use Rattle.fdb_build.specs.Making.{lists_in};
ghost use Rattle.bridge_api.specs.Services.{without_customer_port};

use spb_types::{Attachment, NoMemory};
use std::alloc::Global;
use std::marker::Model;

/// What is attached to the customer ports: by the place of each bridge a list, in order of attaching. Contracts see it
/// as these lists.
#[derive(Drop)]
pub struct Attached {
    lists: Vec<Vec<Attachment>>,
    alloc: Global,
}

impl Model for Attached {
    ghost use Rattle.std.specs.Prelude.{List};
    ghost use Rattle.fdb_build.specs.Making.{lists_in};
    ghost use Rattle.spb_types.specs.declared.service.Attachment.{Attachment};

    ghost Value = { List (List Attachment) };

    ghost view = { λ a. lists_in a.lists.items };
}

impl Attached {
    /// No lists, which take no memory.
    pub fn new(alloc: Global) -> Self
        ensures { result ≡ [] }
    {
        Attached {
            lists: Vec::new(alloc),
            alloc,
        }
    }

    /// A copy.
    pub fn copied(&self) -> Result<Self, NoMemory>
        ensures { IfOk result (λ copy. copy ≡ self.now) }
    {
        Ok(Attached {
            lists: copied_lists(self.alloc, self.lists.as_slice())?,
            alloc: self.alloc,
        })
    }

    /// How many lists there are.
    pub fn count(&self) -> usize
        ensures { result ≡ length self.now }
    {
        self.lists.len()
    }

    /// What is attached at the bridge at a place, in order of attaching; nothing past the last list.
    pub fn at(&self, place: usize) -> &[Attachment]
        ensures { result.now ≡ slice_index_or self.now place [] }
    {
        if place < self.lists.len() {
            self.lists[place].as_slice()
        } else {
            &[]
        }
    }

    /// Puts an empty list behind the others. After NoMemory nothing changed.
    pub fn add_bridge(&mut self) -> Result<(), NoMemory>
        ensures ok { OnOk result (self.new ≡ self.old ++ [] ∷ []) }
        ensures err { OnErr result (self.new ≡ self.old) }
    {
        self.lists.push(Vec::new(self.alloc))?;
        Ok(())
    }

    /// Attaches a customer port of the bridge at a place; past the last list nothing changes. After NoMemory nothing
    /// changed.
    pub fn attach(&mut self, place: usize, attachment: Attachment) -> Result<(), NoMemory>
        ensures ok { OnOk result (self.new ≡ changed_at (λ list. list ++ attachment ∷ []) self.old place) }
        ensures err { OnErr result (self.new ≡ self.old) }
    {
        push_at(&mut self.lists, place, attachment)?;
        Ok(())
    }

    /// Detaches a customer port of the bridge at a place. Takes no memory.
    pub fn detach(&mut self, place: usize, port: u16)
        ensures { self.new ≡ changed_at (without_customer_port port) self.old place }
    {
        remove_at(&mut self.lists, place, port);
    }
}

/// Puts what is attached behind the others. After NoMemory nothing changed.
fn push(list: &mut Vec<Attachment>, attachment: Attachment) -> Result<(), NoMemory>
    ensures ok { OnOk result (list.new.items ≡ list.old.items ++ attachment ∷ []) }
    ensures err { OnErr result (list.new.items ≡ list.old.items) }
{
    list.push(attachment)?;
    Ok(())
}

/// Puts what is attached behind the list at a place. After NoMemory nothing changed.
fn push_at(
    lists: &mut Vec<Vec<Attachment>>,
    place: usize,
    attachment: Attachment,
) -> Result<(), NoMemory>
    ensures ok { OnOk result (lists_in lists.new.items
        ≡ changed_at (λ list. list ++ attachment ∷ []) (lists_in lists.old.items) place) }
    ensures err { OnErr result (lists_in lists.new.items ≡ lists_in lists.old.items) }
{
    match lists.get_mut(place) {
        None => Ok(()),
        Some(list) => push(list, attachment),
    }
}

/// A copy of the lists.
fn copied_lists(alloc: Global, lists: &[Vec<Attachment>]) -> Result<Vec<Vec<Attachment>>, NoMemory>
    ensures { IfOk result (λ copy. lists_in copy.items ≡ lists_in lists.now) }
{
    let mut copy = Vec::with_capacity(alloc, lists.len())?;
    for list in lists {
        copy.push(Vec::from_slice(alloc, list.as_slice())?)?;
    }
    Ok(copy)
}

/// Leaves out what is attached at a customer port.
fn remove(list: &mut Vec<Attachment>, port: u16)
    ensures { list.new.items ≡ without_customer_port port list.old.items }
{
    list.retain(|attachment| attachment.port != port);
}

/// Leaves out of the list at a place what is attached at a customer port.
fn remove_at(lists: &mut Vec<Vec<Attachment>>, place: usize, port: u16)
    ensures { lists_in lists.new.items ≡ changed_at (without_customer_port port) (lists_in lists.old.items) place }
{
    match lists.get_mut(place) {
        None => {}
        Some(list) => remove(list, port),
    }
}
