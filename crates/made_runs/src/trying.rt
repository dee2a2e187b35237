//! The script that is made, played at once on a network, and the one line that tells what came of it.
ghost use Rattle.std.specs.Prelude.{◌≡◌, ◌≢◌, ◌≤◌, ◌⊎◌, Some, Ok, Err, length, IfOk, IsErrOf, IsTrue, OnOk, OnErr};
ghost use Rattle.std.specs.Io.KnownBytes.{Appends};
ghost use Rattle.spb_network.specs.Applying.{IsReady, Plays};
ghost use Rattle.spb_network.specs.Network.{state_of};
ghost use Rattle.network_model.specs.Refusing.{refusal_of};
ghost use Rattle.spb_outside.specs.Faults.{Rose};
ghost use Rattle.made_runs.specs.Applied.{applied, counts_of};
ghost use Rattle.script_run.specs.Output.{AppendsFront};
ghost use Rattle.made_runs.specs.MadeLaws.{HasBoxes};
ghost use Rattle.script_run.specs.Replying.{IsAlive, IsNew};
ghost use Rattle.made_runs.specs.Trying.{summary_by, summary_of, outcome_of, tried};
ghost use Rattle.script_run.specs.Run as ends;

use crate::counts::{Counts, Tally};
use bridge_api::Bridge;
use report::{error_text, try_text};
use scenario::Command;
use scenario_maker::make;
use script_run::{Refusal, Status, write_all};
use spb_network::{Answer, ApplyError, NetworkOf, Reason};
use spb_outside::{Sink, WriteError};
use spb_types::NoMemory;
use std::alloc::Global;

/// What came of applying commands: what was counted of the answers, and the first that is refused, with its number from
/// 1, if one is.
#[derive(Clone, Copy, Debug, PartialEq, Eq)]
struct Outcome {
    counts: Counts,
    refused: Option<(u32, Reason)>,
}

impl Outcome {
    /// The status, where all was written.
    fn status(self) -> Status
        ensures { result ≡ outcome_of self.refused }
    {
        match self.refused {
            None => Status::Done,
            Some((number, reason)) => Status::Refused(number, Refusal::Command(reason)),
        }
    }

    /// The one line that is written: what was counted, or why a command is refused.
    fn summary(self, alloc: Global, bridges: u8) -> Result<Vec<u8>, NoMemory>
        ensures { IfOk result (λ text. text.items ≡ summary_by bridges self.refused self.counts) }
    {
        match self.refused {
            None => {
                let counts = self.counts;
                try_text(
                    alloc,
                    bridges,
                    counts.lines,
                    counts.shows,
                    counts.same,
                    counts.outs,
                )
            }
            Some((number, reason)) => error_text(
                alloc,
                number,
                reason.number(),
                reason.name(),
                None,
            ),
        }
    }
}

/// Applies a command, and gives its answer, or the reason for which it is refused. After NoMemory the network is halted.
fn apply_one<B: Bridge>(
    network: &mut NetworkOf<B>,
    command: &Command,
) -> Result<Result<Answer, Reason>, NoMemory>
    requires { IsAlive B.shown network.old }
    ensures played { (answer : _) → result ≡ Ok (Ok answer) →
        Plays (state_of B.shown network.old) command.now answer (state_of B.shown network.new) }
    ensures refused { (reason : _) → result ≡ Ok (Err reason) →
        (refusal_of (state_of B.shown network.old) command.now ≡ Some reason)
        × (state_of B.shown network.new ≡ state_of B.shown network.old) }
    ensures alive { OnOk result (IsAlive B.shown network.new) }
    ensures ready { IsReady B.shown network.new }
{
    match network.apply(command) {
        Ok(answer) => Ok(Ok(answer)),
        Err(ApplyError::Refused(reason)) => Ok(Err(reason)),
        Err(ApplyError::Halted | ApplyError::NoMemory) => Err(NoMemory),
    }
}

/// Applies commands one after another, up to the first that is refused, and counts their answers. After NoMemory the
/// network is halted.
fn apply_all<B: Bridge>(
    network: &mut NetworkOf<B>,
    commands: &[Command],
) -> Result<Outcome, NoMemory>
    requires alive { IsAlive B.shown network.old }
    requires few { length commands.now ≤ 100000 }
    ensures counts { IfOk result (λ outcome.
        outcome.counts ≡ counts_of (applied (state_of B.shown network.old) 1 commands.now).answers) }
    ensures refused { IfOk result (λ outcome.
        outcome.refused ≡ (applied (state_of B.shown network.old) 1 commands.now).refused) }
    ensures state { OnOk result (state_of B.shown network.new
        ≡ (applied (state_of B.shown network.old) 1 commands.now).state) }
    ensures alive { OnOk result (IsAlive B.shown network.new) }
    ensures ready { IsReady B.shown network.new }
{
    let mut tally = Tally::new();
    let mut number = 1;
    for command in commands {
        match apply_one(network, command)? {
            Ok(answer) => tally.add(answer),
            Err(reason) => {
                return Ok(Outcome {
                    counts: tally.counts,
                    refused: Some((number, reason)),
                });
            }
        }
        number += 1;
    }
    Ok(Outcome {
        counts: tally.counts,
        refused: None,
    })
}

/// Makes the script for some number of bridges, and applies its commands.
fn play_made<B: Bridge>(
    alloc: Global,
    bridges: u8,
    network: &mut NetworkOf<B>,
) -> Result<Outcome, NoMemory>
    requires least { 4 ≤ bridges }
    requires most { bridges ≤ 96 }
    requires alive { IsAlive B.shown network.old }
    ensures counts { IfOk result (λ outcome.
        outcome.counts ≡ counts_of (tried (state_of B.shown network.old) bridges).answers) }
    ensures refused { IfOk result (λ outcome.
        outcome.refused ≡ (tried (state_of B.shown network.old) bridges).refused) }
    ensures state { OnOk result (state_of B.shown network.new
        ≡ (tried (state_of B.shown network.old) bridges).state) }
    ensures alive { OnOk result (IsAlive B.shown network.new) }
    ensures ready { IsReady B.shown network.new }
{
    let script = make(alloc, bridges)?;
    apply_all(network, script.as_slice())
}

/// Makes the script for some number of bridges, plays it, and writes the one line of what was counted.
fn try_made<B: Bridge, K: Sink>(
    alloc: Global,
    bridges: u8,
    network: &mut NetworkOf<B>,
    sink: &mut K,
) -> Result<Status, WriteError>
    requires least { 4 ≤ bridges }
    requires most { bridges ≤ 96 }
    requires alive { IsAlive B.shown network.old }
    ensures fate { IfOk result (λ status.
        status ≡ outcome_of (tried (state_of B.shown network.old) bridges).refused) }
    ensures text { OnOk result (Appends (K.holds sink.old) (K.holds sink.new)
        (summary_of bridges (tried (state_of B.shown network.old) bridges))) }
    ensures state { OnOk result (state_of B.shown network.new
        ≡ (tried (state_of B.shown network.old) bridges).state) }
    ensures alive { OnOk result (IsAlive B.shown network.new) }
    ensures ready { IsReady B.shown network.new }
    ensures front { OnErr result (AppendsFront (K.holds sink.old) (K.holds sink.new)
        (summary_of bridges (tried (state_of B.shown network.old) bridges))) }
    ensures failed { IsErrOf result WriteError.Failed → Rose (K.faults sink.old) (K.faults sink.new) }
    ensures reliable { IsTrue (K.is_reliable sink.old) → result ≢ Err WriteError.Failed }
{
    let outcome = play_made(alloc, bridges, network)?;
    let text = outcome.summary(alloc, bridges)?;
    write_all(sink, &text)?;
    Ok(outcome.status())
}

/// Plays the script that is made for some number of bridges, 4 to 96, and writes the one line of what was counted, or of
/// the command that is refused. The status is Done, Refused with the number of that command, NoMemory, or WriteFault.
#[tactic(auto, using(crate::proofs::Tried::tried_done))]
pub fn try_script<B: Bridge, K: Sink>(
    alloc: Global,
    bridges: u8,
    network: &mut NetworkOf<B>,
    sink: &mut K,
) -> Status
    requires least { 4 ≤ bridges }
    requires most { bridges ≤ 96 }
    requires new { IsNew B.shown network.old }
    ensures ends { (result ≡ outcome_of (tried (state_of B.shown network.old) bridges).refused)
        ⊎ (result ≡ Status.NoMemory) ⊎ (result ≡ Status.WriteFault) }
    ensures text { IsTrue (ends.is_ended result) → Appends (K.holds sink.old) (K.holds sink.new)
        (summary_of bridges (tried (state_of B.shown network.old) bridges)) }
    ensures front { IsTrue (ends.is_cut result) → AppendsFront (K.holds sink.old) (K.holds sink.new)
        (summary_of bridges (tried (state_of B.shown network.old) bridges)) }
    ensures state { IsTrue (ends.is_ended result) → state_of B.shown network.new
        ≡ (tried (state_of B.shown network.old) bridges).state }
    ensures alive { IsTrue (ends.is_ended result) → IsAlive B.shown network.new }
    ensures ready { IsReady B.shown network.new }
    ensures failed { result ≡ Status.WriteFault → Rose (K.faults sink.old) (K.faults sink.new) }
    ensures reliable { IsTrue (K.is_reliable sink.old) → result ≢ Status.WriteFault }
    ensures done { HasBoxes (state_of B.shown network.old).rule (state_of B.shown network.old).rack bridges →
        IsTrue (K.is_reliable sink.old) → (result ≡ Status.Done) ⊎ (result ≡ Status.NoMemory) }
{
    match try_made(alloc, bridges, network, sink) {
        Ok(status) => status,
        Err(WriteError::Failed) => Status::WriteFault,
        Err(WriteError::NoMemory) => Status::NoMemory,
    }
}
