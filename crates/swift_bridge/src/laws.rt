//! The law of the trees that a bridge shows. It is the contract of a function that does nothing.
ghost use Rattle.swift_bridge.specs.Shown.{CutKeepsTrees};

/// What a bridge doesn't reach says nothing of its trees: from each bridge that it reaches they are those of its own
/// graph, cut down to what it reaches, where it reads at most 65,535 systems and its own graph is valid.
pub fn cut_keeps_trees()
    ensures { CutKeepsTrees }
{}
