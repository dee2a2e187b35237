//! The laws of proofs of paths. Each is the contract of a function that does nothing.
ghost use Rattle.what_if.specs.Laws.{PassingIsBest, BestPasses};

/// In a valid graph, where no bridge fails, following the entries gives the best paths, and they are the entries of
/// these; and with the entries of the best paths no bridge fails.
pub fn entries_that_pass_are_best()
    ensures pass { PassingIsBest }
    ensures best { BestPasses }
{}
