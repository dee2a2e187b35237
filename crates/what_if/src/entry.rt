//! What a proof says of a bridge.
use spb_types::SystemId;

/// What a proof of the best paths from a source says of a bridge: it is the source; this bridge stands before it on its
/// path; or it has no path.
#[derive(Clone, Copy, Debug, PartialEq, Eq)]
pub enum Entry {
    Start,
    Before(SystemId),
    Unreached,
}

impl Entry {
    ghost use Rattle.std.specs.Prelude.{◌≡◌};
    ghost use Rattle.what_if.specs.Failing.{is_start, names};

    /// Whether the bridge is the source.
    pub fn is_start(self) -> bool
        ensures { result ≡ is_start self }
    {
        matches!(self, Entry::Start)
    }

    /// Whether this bridge is named.
    pub fn names(self, bridge: SystemId) -> bool
        ensures { result ≡ names self bridge }
    {
        match self {
            Entry::Before(named) => named.is(bridge),
            Entry::Start | Entry::Unreached => false,
        }
    }
}
