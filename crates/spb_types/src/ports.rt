//! Sets of backbone ports, in 32 bits.
ghost use Rattle.std.specs.Prelude.{◌≡◌, ◌≤◌};
ghost use Rattle.spb_types.specs.Ports.{has, no_ports, with_port, without_port};

use crate::limits::MOST_PORTS;

/// A set of backbone ports, 1 to 32: port `p` is bit `p - 1`.
#[derive(Clone, Copy, Debug, PartialEq, Eq)]
pub struct PortSet {
    pub bits: u32,
}

impl PortSet {
    /// The set of no port.
    #[tactic(auto, unfolding(crate::specs::Ports::no_ports))]
    pub fn none() -> PortSet
        ensures { result ≡ no_ports }
    {
        PortSet { bits: 0 }
    }

    /// Whether the port, 1 to 32, is in the set.
    #[tactic(auto, using(crate::proofs::PortLemmas::has_bit))]
    pub fn has(self, port: u8) -> bool
        requires low { 1 ≤ port }
        requires high { port ≤ MOST_PORTS }
        ensures { result ≡ has self port }
    {
        (self.bits >> (port - 1)) & 1 == 1
    }

    /// The set and this port, 1 to 32.
    #[tactic(auto, unfolding(crate::specs::Ports::with_port))]
    pub fn with(self, port: u8) -> PortSet
        requires low { 1 ≤ port }
        requires high { port ≤ MOST_PORTS }
        ensures { result ≡ with_port self port }
    {
        PortSet {
            bits: self.bits | (1 << (port - 1)),
        }
    }

    /// The set but for this port, 1 to 32.
    #[tactic(auto, unfolding(crate::specs::Ports::without_port))]
    pub fn without(self, port: u8) -> PortSet
        requires low { 1 ≤ port }
        requires high { port ≤ MOST_PORTS }
        ensures { result ≡ without_port self port }
    {
        PortSet {
            bits: self.bits & !(1 << (port - 1)),
        }
    }
}
