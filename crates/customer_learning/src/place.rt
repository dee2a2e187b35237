//! The places where a customer's address can be.
ghost use Rattle.std.specs.Prelude.{◌≡◌};
ghost use Rattle.customer_learning.specs.Known.{is_local};

use spb_types::Mac;

/// Where a customer's address is.
#[derive(Clone, Copy, Debug, PartialEq, Eq)]
pub enum Place {
    /// At a customer port of this bridge.
    Local(u16),
    /// Behind another bridge, which has this backbone address.
    Remote(Mac),
}

impl Place {
    /// Whether this is a customer port.
    pub(crate) fn is_local(&self, port: u16) -> bool
        ensures { result ≡ is_local port self.now }
    {
        match self {
            Place::Local(p) => *p == port,
            Place::Remote(_) => false,
        }
    }
}
