//! The reasons for which commands are refused, with their numbers and names.
ghost use Rattle.std.specs.Prelude.{◌≡◌};
ghost use Rattle.spb_world.specs.Reason as reasons;

use thiserror::Error;

/// Why a command is refused. Reasons are tested in order of number, and the first that holds is given.
#[derive(Clone, Copy, Debug, PartialEq, Eq, Error)]
#[error("{}", self.name())]
pub enum Reason {
    /// A bridge, link, VID or I-SID isn't declared.
    NoSuchName,
    /// The name, VID or I-SID is declared already.
    NameTaken,
    /// Another bridge has the system id or the SPSourceID.
    IdTaken,
    /// One of the two ports has a link.
    PortUse,
    /// A number is out of its range.
    Range,
    /// There would be more of something than the network has room for.
    TooMany,
    /// A link between the two bridges is declared.
    AlreadyLinked,
    /// The link is up.
    AlreadyUp,
    /// The link is down.
    AlreadyDown,
    /// The customer port is attached.
    Attached,
    /// The customer port isn't attached.
    NotAttached,
    /// No frame stands at that place of the lane.
    NoFrame,
    /// No blank box of the kind is left.
    RackSpent,
    /// A bridge is declared already.
    TooLate,
    /// The customer port is attached and only receives.
    ReceiveOnly,
}

impl Reason {
    /// The number of the reason, 2 to 14.
    pub fn number(&self) -> u8
        ensures { result ≡ reasons.reason_number self.now }
    {
        match self {
            Reason::NoSuchName => 2,
            Reason::NameTaken => 3,
            Reason::IdTaken => 4,
            Reason::PortUse => 5,
            Reason::Range => 6,
            Reason::TooMany => 7,
            Reason::AlreadyLinked => 8,
            Reason::AlreadyUp | Reason::AlreadyDown => 9,
            Reason::Attached | Reason::NotAttached => 10,
            Reason::NoFrame => 11,
            Reason::RackSpent => 12,
            Reason::TooLate => 13,
            Reason::ReceiveOnly => 14,
        }
    }

    /// The name of the reason, as it is written.
    pub fn name(&self) -> &'static str
        ensures { result.now ≡ reasons.name_of self.now }
    {
        match self {
            Reason::NoSuchName => "NoSuchName",
            Reason::NameTaken => "NameTaken",
            Reason::IdTaken => "IdTaken",
            Reason::PortUse => "PortUse",
            Reason::Range => "Range",
            Reason::TooMany => "TooMany",
            Reason::AlreadyLinked => "AlreadyLinked",
            Reason::AlreadyUp => "AlreadyUp",
            Reason::AlreadyDown => "AlreadyDown",
            Reason::Attached => "Attached",
            Reason::NotAttached => "NotAttached",
            Reason::NoFrame => "NoFrame",
            Reason::RackSpent => "RackSpent",
            Reason::TooLate => "TooLate",
            Reason::ReceiveOnly => "ReceiveOnly",
        }
    }
}

/// The reason, where the test fails.
#[tactic(auto, unfolding(crate::specs::Reason::reason_unless))]
pub fn reason_unless(test: bool, reason: Reason) -> Option<Reason>
    ensures { result ≡ reasons.reason_unless test reason }
{
    if test { None } else { Some(reason) }
}
