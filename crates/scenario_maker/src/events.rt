//! What happens in the network: rounds and questions, frames, a link that fails, a bridge that starts anew.
ghost use Rattle.std.specs.Prelude.{◌≡◌, ◌++◌, ◌<◌, ◌≤◌, IfOk, OnOk};
ghost use Rattle.scenario_maker.specs.Made as made;

use crate::names::{bridge_name, ring_name};
use scenario::Command;
use spb_types::{NoMemory, Seq};
use std::alloc::Global;

/// The frame of customer `k` to all.
fn frame_bytes(alloc: Global, k: u8) -> Result<Seq<u8>, NoMemory>
    ensures { IfOk result (λ frame. frame ≡ made.frame_bytes k) }
{
    let bytes = [255, 255, 255, 255, 255, 255, 10, 0, 0, 0, 0, k, 8, 0];
    Ok(Seq::from_vec(Vec::from_array(alloc, bytes)?))
}

/// The two questions about bridge `k`.
fn push_questions_of(script: &mut Vec<Command>, k: u8) -> Result<(), NoMemory>
    requires { k < 100 }
    ensures { OnOk result (script.new.items ≡ script.old.items ++ made.questions_of k) }
{
    script.push(Command::Show(bridge_name(k)))?;
    script.push(Command::Wiring(bridge_name(k)))?;
    Ok(())
}

#[tactic(auto, using(crate::proofs::Numbers::flat_more))]
fn push_questions(script: &mut Vec<Command>, n: u8) -> Result<(), NoMemory>
    requires { n ≤ 96 }
    ensures { OnOk result (script.new.items ≡ script.old.items ++ made.questions n) }
{
    'questions: for place in 0..n {
        push_questions_of(script, place + 1)?;
    }
    Ok(())
}

/// Rounds, and then the questions about each bridge.
fn push_convergence(script: &mut Vec<Command>, n: u8) -> Result<(), NoMemory>
    requires { n ≤ 96 }
    ensures { OnOk result (script.new.items ≡ script.old.items ++ made.convergence n) }
{
    script.push(Command::Round(4 * u64::from(n) + 16))?;
    push_questions(script, n)?;
    Ok(())
}

/// A frame enters at the first member of service `k`, and what comes of it is delivered.
fn push_sent(alloc: Global, script: &mut Vec<Command>, k: u8) -> Result<(), NoMemory>
    requires { k < 100 }
    ensures { OnOk result (script.new.items ≡ script.old.items ++ made.sent k) }
{
    script.push(Command::Frame {
        bridge: bridge_name(k),
        port: 1,
        frame: frame_bytes(alloc, k)?,
    })?;
    script.push(Command::Drain(100_000))?;
    Ok(())
}

#[tactic(auto, using(crate::proofs::Numbers::flat_more))]
fn push_traffic(alloc: Global, script: &mut Vec<Command>, n: u8) -> Result<(), NoMemory>
    requires { n ≤ 96 }
    ensures { OnOk result (script.new.items ≡ script.old.items ++ made.traffic n) }
{
    'traffic: for place in 0..n {
        push_sent(alloc, script, place + 1)?;
    }
    Ok(())
}

/// The link of the ring from bridge 1 fails, and the network gets quiet.
fn push_failure(script: &mut Vec<Command>, n: u8) -> Result<(), NoMemory>
    requires { n ≤ 96 }
    ensures { OnOk result (script.new.items ≡ script.old.items ++ made.after_failure n) }
{
    script.push(Command::Down(ring_name(1)))?;
    push_convergence(script, n)?;
    Ok(())
}

/// Bridge 2 starts anew, the network gets quiet, and each service carries a frame.
fn push_restart(alloc: Global, script: &mut Vec<Command>, n: u8) -> Result<(), NoMemory>
    requires { n ≤ 96 }
    ensures { OnOk result (script.new.items ≡ script.old.items ++ made.after_restart n) }
{
    script.push(Command::Restart(bridge_name(2)))?;
    push_convergence(script, n)?;
    push_traffic(alloc, script, n)?;
    Ok(())
}

/// Puts all that happens behind the script.
pub(crate) fn push_events(alloc: Global, script: &mut Vec<Command>, n: u8) -> Result<(), NoMemory>
    requires { n ≤ 96 }
    ensures { OnOk result (script.new.items ≡ script.old.items ++ made.events n) }
{
    push_convergence(script, n)?;
    push_traffic(alloc, script, n)?;
    push_failure(script, n)?;
    push_restart(alloc, script, n)?;
    Ok(())
}
