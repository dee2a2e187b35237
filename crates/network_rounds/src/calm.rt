//! Rounds that pass in calm. Each law is the contract of a function that does nothing.
ghost use Rattle.network_rounds.specs.Calm.{CalmRoundsPass};
ghost use Rattle.network_rounds.specs.CalmLaws.{QuietPassesInCalm, SettledPassesInCalm, SomeNetworkIsCalmFor};

/// In a network in which rounds pass in calm, they leave each bridge so many seconds older, and nothing else changes.
pub fn calm_rounds_pass()
    ensures { CalmRoundsPass }
{}

/// A network that has settled passes rounds in calm: one that is quiet, for as long as lifetimes allow; and one that
/// was ready for so many rounds, all of these behind the first 2d + 6, where any two bridges that links which are up
/// join are at most d links apart. Some network with a link that is up is quiet, and does so for sixteen rounds.
pub fn settled_rounds_are_calm()
    ensures quiet { QuietPassesInCalm }
    ensures settled { SettledPassesInCalm }
    ensures some { SomeNetworkIsCalmFor 16 }
{}
