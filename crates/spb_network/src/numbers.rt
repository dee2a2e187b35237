//! The sequence numbers with which the life of a bridge ends, read from what it holds.
ghost use Rattle.std.specs.Prelude.{◌≡◌, false, slice_get, IfOk};
ghost use Rattle.lsdb.specs.Database.{keyed};
ghost use Rattle.flooding.specs.Own.{own_numbers};
ghost use Rattle.bridge_api.specs.Shown.{views_of};
ghost use Rattle.network_model.specs.Restarting.{numbers_from, last_of};
ghost use Rattle.spb_network.specs.Network.{AreConfigured};
ghost use Rattle.spb_network.specs.Numbers as numbers;
ghost use Rattle.spb_network.specs.Numbers.{IsSystemAt, with_number_of};

use bridge_api::{Bridge, first_life};
use lsdb::Held;
use spb_types::{LspId, NoMemory, Seq, SystemId};
use std::alloc::Global;

/// Whether an id is that of one of a system's own LSPs, whatever its number: its pseudonode is 0.
fn is_of(system: SystemId, id: &LspId) -> bool
    ensures { result ≡ numbers.is_of system id.now }
{
    id.system == system && id.pseudonode == 0
}

/// Notes the sequence number of an LSP, if it is one of a system's own, at the place of its number.
fn note_number(system: SystemId, held: &Held, numbers: &mut Seq<u32>)
    ensures { numbers.new ≡ with_number_of system (keyed held.now) numbers.old }
{
    let place = usize::from(held.id.number);
    if is_of(system, &held.id) && place < numbers.len() {
        numbers.set(place, held.version.number());
    }
}

/// The sequence numbers that a bridge of a system has under its own ids, and 0 under one that it doesn't hold. No
/// database has more places than a `usize` counts.
fn read_numbers<B: Bridge>(
    alloc: Global,
    bridge: &B,
    system: SystemId,
) -> Result<Seq<u32>, NoMemory>
    requires made { (B.shown bridge.now).blank ≡ false }
    requires system { (B.shown bridge.now).view.id.system ≡ system }
    ensures { IfOk result (λ numbers. numbers ≡ numbers_from (B.shown bridge.now).view own_numbers 0) }
{
    let mut numbers = first_life(alloc)?;
    let mut place: usize = 0;
    while let Some(held) = bridge.entry(place) {
        note_number(system, held, &mut numbers);
        let Some(next) = place.checked_add(1) else {
            return Err(NoMemory);
        };
        place = next;
    }
    Ok(numbers)
}

/// The sequence numbers with which the life of the bridge at a place ends, that of a system.
pub fn last_numbers<B: Bridge>(
    alloc: Global,
    boxes: &[B],
    i: usize,
    system: SystemId,
) -> Result<Seq<u32>, NoMemory>
    requires made { AreConfigured B.shown boxes.now }
    requires system { IsSystemAt (views_of B.shown boxes.now) i system }
    ensures { IfOk result (λ last. last ≡ last_of (slice_get (views_of B.shown boxes.now) i)) }
{
    match boxes.get(i) {
        None => first_life(alloc),
        Some(bridge) => read_numbers(alloc, bridge, system),
    }
}
