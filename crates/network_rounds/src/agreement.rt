//! Agreement. Each law is the contract of a function that does nothing.
ghost use Rattle.network_rounds.specs.Agreement.{OriginsAreAhead, BridgesAgree};

/// In a network that was ready for so many rounds, where bridges that links which are up join are at most d links
/// apart: from the end of round 4 + d on each bridge holds its own LSPs at least at the versions of all bridges that
/// are joined to it, and from the end of round 4 + 2d on all of these hold the same versions of all LSPs.
pub fn bridges_come_to_agree()
    ensures ahead { OriginsAreAhead }
    ensures agree { BridgesAgree }
{}
