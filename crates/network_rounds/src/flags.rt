//! When flags fall. The law is the contract of a function that does nothing.
ghost use Rattle.network_rounds.specs.Flags.{FlagsFall};

use itag_frames::control_again;

/// Three rounds in which nothing is lost, and after the first of which neighbours hold the same LSPs and keep them, end
/// with no flag at any bridge.
pub fn flags_fall()
    ensures { FlagsFall }
{
    control_again();
}
