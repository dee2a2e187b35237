//! What holds of the scripts that are made. A law is the contract of a function that does nothing.
ghost use Rattle.made_runs.specs.MadeLaws.{MadeIsAccepted, MadeIsApplied};

/// A network in which nothing is declared accepts every command of the script that is made for 4 to 96 bridges, and
/// none is refused when they are applied, where the rack has, of each kind that the rule uses, a blank box for each
/// bridge and one more.
pub fn made_scripts_are_accepted()
    ensures accepted { MadeIsAccepted }
    ensures applied { MadeIsApplied }
{}
