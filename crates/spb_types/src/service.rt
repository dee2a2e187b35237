//! Services and VIDs: their numbers, and what a customer port is attached to.
ghost use Rattle.std.specs.Prelude.{◌≡◌};
ghost use Rattle.spb_types.specs.Service as spec;

/// A backbone service instance: 24 bits, 1 to 16,777,215 (IEEE 802.1ah, 9.7).
#[derive(Clone, Copy, Debug, PartialEq, Eq, PartialOrd, Ord, Hash)]
pub struct Isid {
    pub value: u32,
}

/// A base VID: 12 bits, 1 to 4094 (IEEE 802.1Q, 9.6).
#[derive(Clone, Copy, Debug, PartialEq, Eq, PartialOrd, Ord)]
pub struct Vid {
    pub value: u16,
}

/// A shortest path source id: 20 bits, 0 to 1,048,575 (IEEE 802.1aq, 27.15).
#[derive(Clone, Copy, Debug, PartialEq, Eq)]
pub struct SourceId {
    pub value: u32,
}

/// A base VID and the number of its ECT algorithm, 1 to 16 (IEEE 802.1aq, 28.8).
#[derive(Clone, Copy, Debug, PartialEq, Eq)]
pub struct VidPlan {
    pub vid: Vid,
    pub ect: u8,
}

/// What a customer port does in the service instance that it is attached to (RFC 6329, 16.1: T and R).
#[derive(Clone, Copy, Debug, PartialEq, Eq)]
pub enum Mode {
    /// It sends and receives.
    Both,
    /// It sends: frames enter at it, and none leave.
    Send,
    /// It receives: frames leave at it, and none enter.
    Recv,
}

impl Mode {
    /// Whether frames enter at such a port.
    pub fn sends(self) -> bool
        ensures { result ≡ spec.sends self }
    {
        match self {
            Mode::Both | Mode::Send => true,
            Mode::Recv => false,
        }
    }

    /// Whether frames leave at such a port.
    pub fn receives(self) -> bool
        ensures { result ≡ spec.receives self }
    {
        match self {
            Mode::Both | Mode::Recv => true,
            Mode::Send => false,
        }
    }
}

/// A customer port, the service instance and base VID that it is attached to, and what it does there (IEEE 802.1ah,
/// 25.10).
#[derive(Clone, Copy, Debug, PartialEq, Eq)]
pub struct Attachment {
    /// The number of the port, from 1 on.
    pub port: u16,
    pub isid: Isid,
    pub vid: Vid,
    pub mode: Mode,
}
