//! The places of a graph's bridges by system id, as guesses: each is looked at before it is believed.
ghost use Rattle.std.specs.Prelude.{IsTrue, IfSome};
ghost use Rattle.ect_trees.specs.Arcs.{IsBridgeAt};

use spb_types::{Graph, NoMemory, SystemId};
use std::alloc::Global;

/// How many slots are looked at for a system id.
const TRIES: usize = 8;

/// A slot where no place stands.
const FREE: usize = usize::MAX;

/// An odd number near 2^64 divided by the golden ratio: a product with it spreads system ids that stand close.
const SPREAD: u64 = 0x9e37_79b9_7f4a_7c15;

/// Slots, a power of two of them and two or more for each bridge. A bridge's place stands in the first slot that was
/// free from that of its system id on; it stands in none where the first few were taken.
#[derive(Drop)]
pub struct Index {
    slots: Vec<usize>,
    mask: usize,
}

/// Whether the bridge stands at this place of the graph.
#[inline(always)]
pub fn stands_at(graph: &Graph, place: usize, system: SystemId) -> bool
    ensures { IsTrue result → IsBridgeAt graph.now place system }
{
    let bridges = graph.bridges.as_slice();
    place < bridges.len() && bridges[place].id.system.is(system)
}

/// The system id read as a number, and spread.
fn spread(system: SystemId) -> usize {
    let [a, b, c, d, e, f] = system.mac.bytes;
    let number = u64::from_be_bytes([0, 0, a, b, c, d, e, f]);
    (number.wrapping_mul(SPREAD) >> 32) as usize
}

impl Index {
    /// The places of the graph's bridges.
    pub fn new(alloc: Global, graph: &Graph) -> Result<Self, NoMemory> {
        let wanted = graph.bridges.len().saturating_mul(2);
        let count = wanted.checked_next_power_of_two().unwrap_or(1);
        let mut index = Index {
            slots: Vec::from_elem(alloc, FREE, count)?,
            mask: count.saturating_sub(1),
        };
        for (place, bridge) in graph.bridges.iter().enumerate() {
            index.put(bridge.id.system, place);
        }
        Ok(index)
    }

    /// The number of the slot that is looked at in this try.
    fn slot(&self, spread: usize, attempt: usize) -> usize {
        spread.wrapping_add(attempt) & self.mask
    }

    /// Puts a place into the first slot of its system id that is free.
    fn put(&mut self, system: SystemId, place: usize) {
        let spread = spread(system);
        for attempt in 0..TRIES {
            let slot = self.slot(spread, attempt);
            if slot < self.slots.len() && self.slots[slot] == FREE {
                self.slots[slot] = place;
                return;
            }
        }
    }

    /// A place where the bridge stands in the graph, if one of its slots has it.
    pub fn find(&self, graph: &Graph, system: SystemId) -> Option<usize>
        ensures { IfSome result (λ place. IsBridgeAt graph.now place system) }
    {
        let spread = spread(system);
        for attempt in 0..TRIES {
            let slot = self.slot(spread, attempt);
            if slot >= self.slots.len() || self.slots[slot] == FREE {
                return None;
            }
            let place = self.slots[slot];
            if stands_at(graph, place, system) {
                return Some(place);
            }
        }
        None
    }
}
