//! The script that is made, written line by line.
ghost use Rattle.std.specs.Prelude.{◌≡◌, ◌≢◌, ◌≤◌, ◌⊎◌, Err, IfOk, IsErrOf, IsTrue, OnOk, OnErr};
ghost use Rattle.std.specs.Io.KnownBytes.{Appends};
ghost use Rattle.spb_outside.specs.Faults.{Rose};
ghost use Rattle.made_runs.specs.Making.{line_text, script_text, made_text};
ghost use Rattle.script_run.specs.Output.{AppendsFront};
ghost use Rattle.script_run.specs.Run as ends;

use scenario::{Command, print_command};
use scenario_maker::make;
use script_run::{Status, write_all};
use spb_outside::{Sink, WriteError};
use spb_types::NoMemory;
use std::alloc::Global;

/// The line of a command, with its end.
fn line_of(alloc: Global, command: &Command) -> Result<Vec<u8>, NoMemory>
    ensures { IfOk result (λ line. line.items ≡ line_text command.now) }
{
    let mut line = print_command(alloc, command)?;
    line.push(b'\n')?;
    Ok(line)
}

/// Writes the line of a command.
fn write_line<K: Sink>(alloc: Global, command: &Command, sink: &mut K) -> Result<(), WriteError>
    ensures all { OnOk result (Appends (K.holds sink.old) (K.holds sink.new) (line_text command.now)) }
    ensures front { OnErr result (AppendsFront (K.holds sink.old) (K.holds sink.new) (line_text command.now)) }
    ensures count { K.faults sink.old ≤ K.faults sink.new }
    ensures failed { IsErrOf result WriteError.Failed → Rose (K.faults sink.old) (K.faults sink.new) }
    ensures reliable { IsTrue (K.is_reliable sink.old) →
        (result ≢ Err WriteError.Failed) × IsTrue (K.is_reliable sink.new) }
{
    let line = line_of(alloc, command)?;
    write_all(sink, &line)
}

/// Writes the lines of some commands, each before the next is spelled.
fn write_lines<K: Sink>(alloc: Global, commands: &[Command], sink: &mut K) -> Result<(), WriteError>
    ensures all { OnOk result (Appends (K.holds sink.old) (K.holds sink.new) (script_text commands.now)) }
    ensures front { OnErr result (AppendsFront (K.holds sink.old) (K.holds sink.new) (script_text commands.now)) }
    ensures failed { IsErrOf result WriteError.Failed → Rose (K.faults sink.old) (K.faults sink.new) }
    ensures reliable { IsTrue (K.is_reliable sink.old) → result ≢ Err WriteError.Failed }
{
    for command in commands {
        write_line(alloc, command, sink)?;
    }
    Ok(())
}

/// Makes the script for some number of bridges, and writes it.
#[tactic(auto, unfolding(crate::specs::Making::made_text))]
fn write_made<K: Sink>(alloc: Global, bridges: u8, sink: &mut K) -> Result<(), WriteError>
    requires least { 4 ≤ bridges }
    requires most { bridges ≤ 96 }
    ensures all { OnOk result (Appends (K.holds sink.old) (K.holds sink.new) (made_text bridges)) }
    ensures front { OnErr result (AppendsFront (K.holds sink.old) (K.holds sink.new) (made_text bridges)) }
    ensures failed { IsErrOf result WriteError.Failed → Rose (K.faults sink.old) (K.faults sink.new) }
    ensures reliable { IsTrue (K.is_reliable sink.old) → result ≢ Err WriteError.Failed }
{
    let script = make(alloc, bridges)?;
    write_lines(alloc, script.as_slice(), sink)
}

/// Writes the script for some number of bridges, 4 to 96, line by line, and gives the status: Done, NoMemory, or
/// WriteFault.
pub fn make_script<K: Sink>(alloc: Global, bridges: u8, sink: &mut K) -> Status
    requires least { 4 ≤ bridges }
    requires most { bridges ≤ 96 }
    ensures ends { (result ≡ Status.Done) ⊎ (result ≡ Status.NoMemory) ⊎ (result ≡ Status.WriteFault) }
    ensures text { result ≡ Status.Done → Appends (K.holds sink.old) (K.holds sink.new) (made_text bridges) }
    ensures front { IsTrue (ends.is_cut result) →
        AppendsFront (K.holds sink.old) (K.holds sink.new) (made_text bridges) }
    ensures failed { result ≡ Status.WriteFault → Rose (K.faults sink.old) (K.faults sink.new) }
    ensures reliable { IsTrue (K.is_reliable sink.old) → result ≢ Status.WriteFault }
{
    match write_made(alloc, bridges, sink) {
        Ok(()) => Status::Done,
        Err(WriteError::Failed) => Status::WriteFault,
        Err(WriteError::NoMemory) => Status::NoMemory,
    }
}
