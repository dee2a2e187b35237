//! What holds of a network's boxes. A law is the contract of a function that does nothing.
ghost use Rattle.spb_network.specs.Halting.{HaltsWithoutMemory};

use bridge_api::Bridge;

/// Of commands that are applied one after another to a network that hasn't halted, one answers `Halted` exactly where
/// one before it found no memory.
pub fn networks_halt_without_memory<B: Bridge>()
    ensures { HaltsWithoutMemory B.shown }
{}
