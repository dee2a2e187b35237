//! Where to look first for the link at a port, and for the bridge of a system id.
use crate::LinkEnd;
use spb_types::limits::MOST_BRIDGES;
use spb_types::{NoMemory, SystemId};
use std::alloc::Global;

/// Places for the ports of a bridge, which are numbered from 1 to 32.
const PORTS: usize = 33;

/// Slots for the places of bridges: a power of two, and enough that few of the most bridges share one.
const SLOTS: usize = 512;

/// An odd number near 2^64 divided by the golden ratio: a product with it spreads system ids that stand close.
const SPREAD: u64 = 0x9e37_79b9_7f4a_7c15;

/// Which link may end at each port, and where the bridge of a system id may stand. A hint says nothing by itself: who takes
/// it looks at the link, or at the bridge.
#[derive(Drop)]
pub struct Hints {
    links: Vec<usize>,
    /// A place for each slot, that of the last bridge whose system id has it.
    bridges: Vec<usize>,
}

/// The slot of a system id.
fn slot_of(system: SystemId) -> usize {
    (system.number().wrapping_mul(SPREAD) >> 55) as usize
}

impl Hints {
    /// No hints, which take no memory.
    pub fn new(alloc: Global) -> Self {
        Hints {
            links: Vec::new(alloc),
            bridges: Vec::new(alloc),
        }
    }

    /// A copy.
    pub fn copied(&self, alloc: Global) -> Result<Self, NoMemory> {
        Ok(Hints {
            links: Vec::from_slice(alloc, self.links.as_slice())?,
            bridges: Vec::from_slice(alloc, self.bridges.as_slice())?,
        })
    }

    /// Makes room for the ports of one bridge more, which has the next place, and notes that.
    pub fn add_bridge(&mut self, system: SystemId) -> Result<(), NoMemory> {
        let place = self.links.len() / PORTS;
        for _ in 0..PORTS {
            self.links.push(0)?;
        }
        for _ in self.bridges.len()..SLOTS {
            self.bridges.push(0)?;
        }
        if let Some(hint) = self.bridges.get_mut(slot_of(system)) {
            *hint = place;
        }
        Ok(())
    }

    /// The place where the bridge of a system id may stand.
    pub fn bridge_at(&self, system: SystemId) -> usize {
        match self.bridges.get(slot_of(system)) {
            None => 0,
            Some(place) => *place,
        }
    }

    /// The place of the link that may end at a port of the bridge at a place.
    pub fn link_at(&self, bridge: usize, port: u8) -> usize {
        if bridge >= MOST_BRIDGES {
            return 0;
        }
        match self.links.get(bridge * PORTS + usize::from(port)) {
            None => 0,
            Some(link) => *link,
        }
    }

    /// The link at a place has this end.
    pub fn note(&mut self, end: LinkEnd, link: usize) {
        if end.bridge >= MOST_BRIDGES {
            return;
        }
        if let Some(hint) = self
            .links
            .get_mut(end.bridge * PORTS + usize::from(end.port))
        {
            *hint = link;
        }
    }
}
