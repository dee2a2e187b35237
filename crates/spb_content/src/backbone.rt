//! What systems say, looked up by system: which are bridges, and which two have entries for each other.
ghost use Rattle.std.specs.Prelude.{◌≡◌, ◌<◌, length, find, IfOk, IfSome, Option, option_map, option_and_then};
ghost use Rattle.std.specs.Option.{option_copied};
ghost use Rattle.spb_types.specs.Address.{same_system};
ghost use Rattle.spb_content.specs.Graph as spec;
ghost use Rattle.spb_content.specs.Building as building;

use crate::Content;
use spb_tlvs::Neighbour;
use spb_types::limits::GREATEST_METRIC;
use spb_types::{NoMemory, SystemId};
use std::alloc::Global;
use std::collections::BTreeMap;

/// What some systems say, and the places of those that are bridges.
#[derive(Drop)]
pub struct Backbone<'a> {
    /// The systems with what they say.
    pub list: &'a [(SystemId, Content)],
    /// The place in the list of each bridge, by the number of its system id.
    pub places: BTreeMap<u64, usize>,
}

/// The entry, if its metric is one that a link can have.
fn usable(neighbour: &Neighbour) -> Option<Neighbour>
    ensures { result ≡ spec.usable neighbour.now }
{
    if 1 <= neighbour.metric && neighbour.metric <= GREATEST_METRIC {
        Some(*neighbour)
    } else {
        None
    }
}

/// The first entry for a neighbour.
fn first_entry(content: &Content, to: SystemId) -> Option<&Neighbour>
    ensures { option_copied result ≡ find (λ n. same_system n.system to) content.now.neighbours }
{
    content.neighbours.iter().find(|n| n.system.is(to))
}

/// The entry of a content for a neighbour: the first counts, and only with a metric that a link can have.
fn entry_for(content: &Content, to: SystemId) -> Option<Neighbour>
    ensures { result ≡ spec.entry_for to content.now }
{
    match first_entry(content, to) {
        None => None,
        Some(first) => usable(first),
    }
}

impl<'a> Backbone<'a> {
    /// Puts the place of each bridge into the map, from the last to the first.
    pub fn new(alloc: Global, list: &'a [(SystemId, Content)]) -> Result<Self, NoMemory>
        ensures indexed { IfOk result building.IsIndexed }
        ensures list { IfOk result (λ b. b.list.now ≡ list.now) }
    {
        let mut places = BTreeMap::new(alloc);
        let mut left = list.len();
        while left > 0 {
            left -= 1;
            let (system, content) = &list[left];
            if content.inst.is_some() {
                places.insert(system.number(), left)?;
            }
        }
        Ok(Backbone { list, places })
    }

    /// The place of a bridge. None exactly where the system is no bridge.
    pub fn place_of(&self, system: SystemId) -> Option<usize>
        requires { building.IsIndexed self.now }
        ensures place { result ≡ building.place_from 0 self.now.list.now system }
        ensures within { IfSome result (λ place. place < length self.now.list.now) }
    {
        self.places.get(&system.number()).copied()
    }

    /// What a bridge says. None exactly where the system is no bridge.
    pub fn said_of(&self, system: SystemId) -> Option<&Content>
        requires { building.IsIndexed self.now }
        ensures { option_copied result ≡ spec.said_of self.now.list.now system }
    {
        match self.place_of(system) {
            None => None,
            Some(place) => Some(&self.list[place].1),
        }
    }

    /// The entry of a bridge for another.
    fn entry(&self, from: SystemId, to: SystemId) -> Option<Neighbour>
        requires { building.IsIndexed self.now }
        ensures { result ≡ spec.entry_said self.now.list.now from to }
    {
        match self.said_of(from) {
            None => None,
            Some(content) => entry_for(content, to),
        }
    }

    /// The entries of two different bridges for each other, where each has one for the other.
    pub fn link(&self, x: SystemId, y: SystemId) -> Option<(Neighbour, Neighbour)>
        requires { building.IsIndexed self.now }
        ensures { result ≡ spec.link_said self.now.list.now x y }
    {
        if x.is(y) {
            return None;
        }
        let there = self.entry(x, y)?;
        let back = self.entry(y, x)?;
        Some((there, back))
    }
}
