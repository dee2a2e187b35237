//! What settling answers, and which premise of it fails.

/// Whether a network is ready to be settled, or the first premise that fails, in this order.
#[derive(Clone, Copy, Debug, PartialEq, Eq)]
pub enum Ready {
    /// None fails.
    Yes,
    /// A frame that carries a customer's is on its way.
    Frame,
    /// An LSP that is held or on its way, or of which a sequence numbers PDU on its way tells, is live, and no more
    /// seconds are left of it than settling may make rounds.
    Lifetime,
    /// An own LSP of a bridge is live, and no more seconds are left of it than settling may make rounds and 300.
    OwnLifetime,
    /// All bridges together hold more than 900 different LSP ids.
    Ids,
}

/// What settling came to.
#[derive(Clone, Copy, Debug, PartialEq, Eq)]
pub struct Settled {
    /// The rounds that were made.
    pub rounds: u32,
    /// `Yes` where the network is quiet, and else the first premise that failed before the first round.
    pub left: Ready,
}
