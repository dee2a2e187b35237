//! What one frame that comes to a bridge does, and what each step keeps. Each is the contract of a function that does
//! nothing.
ghost use Rattle.bridge_rounds.specs.Hearing.{ControlIsSilent, FramesAreSilent, FramesKeepLiving, RoundsHoldIds, SpentStays};

/// A frame that carries no customer's frame makes a bridge send nothing at once, and lets nothing out.
pub fn control_is_silent()
    ensures { ControlIsSilent }
{}

/// A frame changes an adjacency only at its own port, and only if it is taken for a hello.
pub fn frames_are_silent()
    ensures { FramesAreSilent }
{}

/// After a frame what stands under an id has the version and the lifetime that it had, or those of the LSP that came
/// in; or it is live for 1,200 seconds, or not live.
pub fn frames_keep_living()
    ensures { FramesKeepLiving }
{}

/// In a second and by a frame no id comes to be held but by a claim of a version of it that isn't absent.
pub fn rounds_hold_ids()
    ensures { RoundsHoldIds }
{}

/// Sequence numbers that are spent stay so.
pub fn spent_stays()
    ensures { SpentStays }
{}
