//! What one second of a bridge does. Each is the contract of a function that does nothing.
ghost use Rattle.bridge_rounds.specs.Seconds.{SecondsLower, SecondsCarryNone, SecondsSendAtPort, SummariesAreDue, SecondsAreCalm};

use itag_frames::control_again;

/// In a second the holding count at each port falls, and the neighbour is lost where it was 1.
pub fn seconds_lower()
    ensures { SecondsLower }
{}

/// No frame that is sent in a second carries a customer's.
pub fn seconds_carry_none()
    ensures { SecondsCarryNone }
{}

/// Of a sound bridge that holds at most so many LSPs when it sends, a second sends at a port a hello, the sequence
/// numbers PDUs of so many LSPs, twice, and so many LSPs, at most.
pub fn seconds_send_at_port()
    ensures { SecondsSendAtPort }
{}

/// A sound bridge sends CSNPs only where they are due.
pub fn summaries_are_due()
    ensures { SummariesAreDue }
{
    control_again();
}

/// Where no count of an Up port and no lifetime is about to end, and no own LSP is about to be originated anew for its
/// age, a second of a sound bridge changes lifetimes alone: the same ports stay Up with the same neighbours, and it has
/// the same to say.
pub fn seconds_are_calm()
    ensures { SecondsAreCalm }
{}
