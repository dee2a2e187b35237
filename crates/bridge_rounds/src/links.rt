//! What becomes of flags at the two ends of a link. Each law is the contract of a function that does nothing.
ghost use Rattle.bridge_rounds.specs.LinkFlags.{NeighbourAnswers, AnsweredIsCleared, SilenceFollows, LinksFallSilent};
ghost use Rattle.bridge_rounds.specs.LinkFrames.{LspsAreFlagged, SsnIsTold, FramesTell};

use itag_frames::control_again;

/// Where both ends of a link come to hold the same LSP, and one of them has still to send it, the other one has still
/// to send or to acknowledge it. A round later neither has it to send, and another one later neither has anything to
/// send or to acknowledge of it. So three rounds are enough, if after the first both ends hold the same.
pub fn links_fall_silent()
    ensures answers { NeighbourAnswers }
    ensures cleared { AnsweredIsCleared }
    ensures silence { SilenceFollows }
    ensures three { LinksFallSilent }
{}

/// A bridge sends at a port the LSPs that have SRM there, and no others, and tells there of all that has SSN. So what
/// comes over a link in a round says of each LSP what its sender holds, and has to send or to acknowledge.
pub fn links_tell_what_is_held()
    ensures flagged { LspsAreFlagged }
    ensures told { SsnIsTold }
    ensures link { FramesTell }
{
    control_again();
}
