//! What is to be sent, acknowledged and asked for after all frames of a round. Each is the contract of a function that
//! does nothing.
ghost use Rattle.bridge_rounds.specs.FlagLaws.{LspIsAcked, NothingIsOffered, EqualIsCleared, NothingIsAsked};

/// An LSP that came at a port and is held in the end is to be acknowledged there.
pub fn lsps_are_acknowledged()
    ensures { LspIsAcked }
{}

/// Where all that is claimed of an id at a port is the version that the bridge holds, before and after, the LSP comes
/// neither to be sent nor to be asked for there; and where something is claimed, it is no longer to be sent there.
pub fn equal_claims_settle_flags()
    ensures offered { NothingIsOffered }
    ensures cleared { EqualIsCleared }
    ensures asked { NothingIsAsked }
{}
