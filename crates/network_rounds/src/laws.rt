//! The laws of rounds, each the contract of a function that does nothing.
ghost use Rattle.network_rounds.specs.Rounds.{RoundsAreHeard, InboxAtPort, LanesHoldWhatIsSent};
ghost use Rattle.network_rounds.specs.Near.{BridgesAreNear};
ghost use Rattle.network_rounds.specs.Along.{RoundsAreRounds, CommandsAreRounds, SingleCommandsAreRounds, RoundsStaySound, RoundsStayCounted, RoundsSplit, RoundsHaveLast};

/// In a network in which no customer's frame is on its way, a round is, for each bridge, a second and then the frames
/// that come to it; at each port come those that are on their way over the link there. Where lanes were empty, these
/// are the frames that the bridge at the other end sent in this second, unless they are more than a lane has room for.
pub fn rounds_are_heard()
    ensures heard { RoundsAreHeard }
    ensures ports { InboxAtPort }
    ensures lanes { LanesHoldWhatIsSent }
{}

/// No two bridges that links which are up join are further apart than the other bridges are many.
pub fn bridges_are_near()
    ensures { BridgesAreNear }
{}

/// So many rounds, one after another, keep what is sound of a network, and raise the sequence numbers by 128 each at
/// most. The rounds of a command are such, and so are those of so many commands of one round each; and so many rounds
/// are some of them, and then the others.
pub fn rounds_keep_networks_sound()
    ensures rounds { RoundsAreRounds }
    ensures command { CommandsAreRounds }
    ensures single { SingleCommandsAreRounds }
    ensures sound { RoundsStaySound }
    ensures counted { RoundsStayCounted }
    ensures split { RoundsSplit }
    ensures last { RoundsHaveLast }
{}
