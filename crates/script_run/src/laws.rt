//! What holds of the lines of a script. A law is the contract of a function that does nothing.
ghost use Rattle.script_run.specs.Commands.{LinesPlayCommands};
ghost use Rattle.script_run.specs.Foretold.{ChangesAreForetold, ChangesAreRefusedAlike};

/// The commands that the lines of a script play are accepted, one after another, and the network's state after the
/// lines is the one after these commands.
pub fn lines_play_commands()
    ensures { LinesPlayCommands }
{}

/// Between two trusted states that are quiet, the rows of each bridge change as `whatif` answers, where the wiring of the
/// later one is that after the change alone.
pub fn changes_are_foretold()
    ensures { ChangesAreForetold }
{}

/// What a change would do is refused for the reason for which the change would be, and is answered where there is none.
pub fn changes_are_refused_alike()
    ensures { ChangesAreRefusedAlike }
{}
