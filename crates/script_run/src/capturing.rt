//! A script that is captured: played to its end, or up to what cuts it short, where the frames that are delivered are
//! written.
ghost use Rattle.std.specs.Prelude.{◌≡◌, ◌≢◌, ◌≤◌, ◌+◌, ◌⊎◌, Err, Ok, IfOk, IfSome, IsErrOf, IsTrue, OnOk, OnErr};
ghost use Rattle.std.specs.Io.KnownBytes.{Appends, IsAtEnd};
ghost use Rattle.frame_capture.specs.Capture.{header_bytes};
ghost use Rattle.spb_types.specs.declared.limits.TheConstants.{MOST_ROUNDS};
ghost use Rattle.scenario.specs.Cutting.{most_lines};
ghost use Rattle.spb_network.specs.Applying.{IsReady};
ghost use Rattle.spb_network.specs.Network.{state_of};
ghost use Rattle.spb_outside.specs.Faults.{Rose};
ghost use Rattle.script_run.specs.declared.refusal.Refusal.{Refusal};
ghost use Rattle.script_run.specs.Capturing.{capture_text, BreaksAtHeader, Captures};
ghost use Rattle.script_run.specs.Output.{AppendsFront};
ghost use Rattle.script_run.specs.Pieces.{Completes, WritesWhole, WritesSoon, ReadsLittle};
ghost use Rattle.script_run.specs.Replying.{IsAlive, IsNew};
ghost use Rattle.script_run.specs.Run as ends;

use crate::Status;
use crate::output::write_all;
use crate::pieces::{Break, play_script};
use crate::voice::Voice;
use bridge_api::Bridge;
use frame_capture::header;
use spb_network::NetworkOf;
use spb_outside::{Sink, Source, WriteError};
use std::alloc::Global;

/// Writes the header of a capture.
fn write_header<K: Sink>(alloc: Global, sink: &mut K) -> Result<(), WriteError>
    ensures all { OnOk result (Appends (K.holds sink.old) (K.holds sink.new) header_bytes) }
    ensures front { OnErr result (AppendsFront (K.holds sink.old) (K.holds sink.new) header_bytes) }
    ensures count { K.faults sink.old ≤ K.faults sink.new }
    ensures failed { IsErrOf result WriteError.Failed → Rose (K.faults sink.old) (K.faults sink.new) }
    ensures reliable { IsTrue (K.is_reliable sink.old) →
        (result ≢ Err WriteError.Failed) × IsTrue (K.is_reliable sink.new) }
{
    let bytes = header(alloc)?;
    write_all(sink, &bytes)
}

/// Writes the header, and then plays the script that the source gives and writes the packets of what is delivered, those
/// of each line before the next is played, and those of all whole lines of a piece before the next is read.
fn capture_pieces<B: Bridge, S: Source, K: Sink>(
    alloc: Global,
    network: &mut NetworkOf<B>,
    source: &mut S,
    sink: &mut K,
) -> Result<Status, Break>
    requires alive { IsAlive B.shown network.old }
    ensures ends { IfOk result (λ status. IfSome (S.left source.old) (λ script. Completes K.holds capture_text script
        status (state_of B.shown network.old) (state_of B.shown network.new) sink.old sink.new)) }
    ensures own { IfOk result (λ status. IsTrue (ends.is_written status)) }
    ensures ended { result ≡ Ok Status.Done → IsAtEnd (S.left source.new) }
    ensures front { OnErr result (IfSome (S.left source.old) (λ script.
        AppendsFront (K.holds sink.old) (K.holds sink.new) (capture_text (state_of B.shown network.old) script))) }
    ensures whole { result ≡ Err Break.Read → WritesWhole K.holds capture_text
        (state_of B.shown network.old) (S.left source.old) (S.left source.new) sink.old sink.new }
    ensures prompt { (((result ≡ Err Break.Write) ⊎ (result ≡ Err Break.NoMemory)) × BreaksAtHeader K.holds
        (state_of B.shown network.old) (state_of B.shown network.new) source.old source.new sink.old sink.new)
        ⊎ WritesSoon K.holds capture_text
        (state_of B.shown network.old) (S.left source.old) (S.left source.new) sink.old sink.new }
    ensures reads { ReadsLittle (S.left source.old) (S.left source.new)
        (λ n. (why : Refusal) × (result ≡ Ok (Status.Refused n why))) }
    ensures few { OnOk result ((state_of B.shown network.new).accepted
        ≤ (state_of B.shown network.old).accepted + most_lines + MOST_ROUNDS) }
    ensures alive { OnOk result (IsAlive B.shown network.new) }
    ensures ready { IsReady B.shown network.new }
    ensures read_fault { result ≡ Err Break.Read → Rose (S.faults source.old) (S.faults source.new) }
    ensures write_fault { result ≡ Err Break.Write → Rose (K.faults sink.old) (K.faults sink.new) }
    ensures reliable_source { IsTrue (S.is_reliable source.old) → result ≢ Err Break.Read }
    ensures reliable_sink { IsTrue (K.is_reliable sink.old) → result ≢ Err Break.Write }
{
    write_header(alloc, sink)?;
    play_script(alloc, network, Voice::Packets, source, sink)
}

/// Plays the script that the source gives, piece by piece, and captures the frames that are delivered.
pub fn capture_script<B: Bridge, S: Source, K: Sink>(
    alloc: Global,
    network: &mut NetworkOf<B>,
    source: &mut S,
    sink: &mut K,
) -> Status
    requires { IsNew B.shown network.old }
    ensures other { result ≢ Status.Usage }
    ensures silent { IsTrue (ends.is_silent result) → sink.new ≡ sink.old }
    ensures captures { Captures S.left S.is_reliable K.holds K.is_reliable result
        (state_of B.shown network.old) (state_of B.shown network.new) source.old source.new sink.old sink.new }
    ensures alive { IsTrue (ends.is_ended result) → IsAlive B.shown network.new }
    ensures ready { IsReady B.shown network.new }
    ensures read_fault { result ≡ Status.ReadFault → Rose (S.faults source.old) (S.faults source.new) }
    ensures write_fault { result ≡ Status.WriteFault → Rose (K.faults sink.old) (K.faults sink.new) }
    ensures reliable_source { IsTrue (S.is_reliable source.old) → result ≢ Status.ReadFault }
    ensures reliable_sink { IsTrue (K.is_reliable sink.old) → result ≢ Status.WriteFault }
{
    match capture_pieces(alloc, network, source, sink) {
        Ok(status) => status,
        Err(Break::Read) => Status::ReadFault,
        Err(Break::Write) => Status::WriteFault,
        Err(Break::NoMemory) => Status::NoMemory,
    }
}
