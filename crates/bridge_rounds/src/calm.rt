//! Seconds that pass in calm. Each law is the contract of a function that does nothing.
ghost use Rattle.bridge_rounds.specs.Calm.{CalmRoundAges, CalmSecondGreets, CalmSecondIsSilent};
ghost use Rattle.bridge_rounds.specs.Calm.{CalmGoesOn, AgesAdd, SomeBridgeIsCalm};

use itag_frames::control_again;

/// A bridge that could pass seconds in calm and gets a hello of each neighbour is a second older after a round, and
/// nothing else has changed. In it the bridge sends such a hello at each port with carrier, and nothing else. So it
/// goes on for all of its seconds. And there is such a bridge.
pub fn calm_seconds_pass()
    ensures ages { CalmRoundAges }
    ensures greets { CalmSecondGreets }
    ensures silent { CalmSecondIsSilent }
    ensures goes_on { CalmGoesOn }
    ensures adds { AgesAdd }
    ensures some { SomeBridgeIsCalm }
{
    control_again();
}
