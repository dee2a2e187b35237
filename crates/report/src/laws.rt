//! The laws of the texts. Each is the contract of a function that does nothing.
ghost use Rattle.report.specs.Laws.{PortsAreThoseOfTheSet, TablesHaveLines, DatabaseHasLines, AdjacenciesHaveLines, ChangesHaveLines, PathIsLine, DropsIsLine, OutIsLine, StateIsLine, SettleIsLine, ErrorIsLine, ProofIsLine, YesIsLine, NoIsLine};

/// The ports that are written for a set are just those of the set, ascending.
pub fn ports_are_those_of_the_set()
    ensures { PortsAreThoseOfTheSet }
{}

/// An answer with rows is a line for each row and one before, and any other answer, that of `drops` with its counts
/// among them, is one line.
pub fn answers_are_lines()
    ensures tables { TablesHaveLines }
    ensures database { DatabaseHasLines }
    ensures adjacencies { AdjacenciesHaveLines }
    ensures changes { ChangesHaveLines }
    ensures path { PathIsLine }
    ensures drops { DropsIsLine }
    ensures out { OutIsLine }
    ensures state { StateIsLine }
    ensures settle { SettleIsLine }
    ensures error { ErrorIsLine }
    ensures proof { ProofIsLine }
    ensures yes { YesIsLine }
    ensures no { NoIsLine }
{}
