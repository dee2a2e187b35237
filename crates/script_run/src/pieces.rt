//! A script that is played in pieces, as the source gives them.
ghost use Rattle.std.specs.Prelude.{[], List, ℕ, ◌≡◌, ◌≢◌, ◌≤◌, ◌<◌, ◌+◌, None, Some, Ok, Err, length, take, IfOk, IfNone, IfSome, IsErr, IsErrOf, IsOk, IsTrue, OnOk, OnErr, MatchResult, Option, ⊤};
ghost use Rattle.std.specs.Io.KnownBytes.{Appends, Consumes, IsAtEnd, Keeps};
ghost use Rattle.spb_network.specs.Applying.{IsReady};
ghost use Rattle.spb_network.specs.Network.{state_of};
ghost use Rattle.spb_outside.specs.Faults.{Rose};
ghost use Rattle.script_run.specs.Output.{AppendsFront};
ghost use Rattle.script_run.specs.declared.pieces.Break.TheVariants.{Read as ReadBreak};
ghost use Rattle.script_run.specs.Break.{break_of};
ghost use Rattle.script_run.specs.Pieces.{Finishes, Completes, WritesWhole, WritesSoon, ReadsLittle, most_piece, GoesOn, Ends, Breaks, StandsAt, to_come, Accepts, Stops, shown_lines};
ghost use Rattle.spb_types.specs.declared.limits.TheConstants.{MOST_ROUNDS};
ghost use Rattle.scenario.specs.Cutting.{longest_line, most_bytes, most_lines, start};
ghost use Rattle.script_run.specs.Play.{judged, misspelled_text, if_answers};
ghost use Rattle.script_run.specs.declared.refusal.Refusal.{Refusal};
ghost use Rattle.script_run.specs.Run.{is_written};
ghost use Rattle.script_run.specs.Replying.{IsAlive};
ghost use Rattle.script_run.specs.Text.{play_lines, said_in};

use crate::output::write_all;
use crate::packets::capture_line;
use crate::play::play_line;
use crate::voice::Voice;
use crate::{Refusal, Status, play};
use bridge_api::Bridge;
use scenario::{Cutter, Cutting, LINE_LIMIT, SCRIPT_LIMIT};
use spb_network::NetworkOf;
use spb_outside::{Failed, Sink, Source, WriteError};
use std::alloc::Global;

/// How many bytes are read at once, at most.
const PIECE: usize = 8192;

/// How many bytes are read in all, at most: one more than a script may have.
const MOST_READ: usize = SCRIPT_LIMIT + 1;

/// Why a run was cut short.
pub(crate) enum Break {
    /// A read failed.
    Read,
    /// A write failed.
    Write,
    /// Memory ran out.
    NoMemory,
}

impl From<Failed> for Break {
    ghost from_gives = { λ _ e. e ≡ ReadBreak };

    fn from(_failed: Failed) -> Self {
        Break::Read
    }
}

impl From<WriteError> for Break {
    ghost from_gives = { λ error e. e ≡ break_of error };

    fn from(error: WriteError) -> Self {
        match error {
            WriteError::Failed => Break::Write,
            WriteError::NoMemory => Break::NoMemory,
        }
    }
}

/// Plays a line and writes its answer.
fn answer_line<B: Bridge, K: Sink>(
    alloc: Global,
    network: &mut NetworkOf<B>,
    number: u32,
    line: &[u8],
    sink: &mut K,
) -> Result<Option<Refusal>, WriteError>
    requires { IsAlive B.shown network.old }
    ensures text { OnOk result (Appends (K.holds sink.old) (K.holds sink.new)
        ((judged (state_of B.shown network.old) number line.now).says Voice.Answers)) }
    ensures refused { IfOk result (λ refused.
        refused ≡ (judged (state_of B.shown network.old) number line.now).refused) }
    ensures state { OnOk result (state_of B.shown network.new
        ≡ (judged (state_of B.shown network.old) number line.now).state) }
    ensures alive { OnOk result (IsAlive B.shown network.new) }
    ensures ready { IsReady B.shown network.new }
    ensures front { OnErr result (AppendsFront (K.holds sink.old) (K.holds sink.new)
        ((judged (state_of B.shown network.old) number line.now).says Voice.Answers)) }
    ensures count { K.faults sink.old ≤ K.faults sink.new }
    ensures failed { IsErrOf result WriteError.Failed → Rose (K.faults sink.old) (K.faults sink.new) }
    ensures reliable { IsTrue (K.is_reliable sink.old) →
        (result ≢ Err WriteError.Failed) × IsTrue (K.is_reliable sink.new) }
{
    let reply = play_line(alloc, network, number, line)?;
    write_all(sink, &reply.text)?;
    Ok(reply.refused)
}

/// Plays a line and writes what is told of it.
fn tell_line<B: Bridge, K: Sink>(
    alloc: Global,
    network: &mut NetworkOf<B>,
    voice: Voice,
    number: u32,
    line: &[u8],
    sink: &mut K,
) -> Result<Option<Refusal>, WriteError>
    requires { IsAlive B.shown network.old }
    ensures text { OnOk result (Appends (K.holds sink.old) (K.holds sink.new)
        ((judged (state_of B.shown network.old) number line.now).says voice)) }
    ensures refused { IfOk result (λ refused.
        refused ≡ (judged (state_of B.shown network.old) number line.now).refused) }
    ensures state { OnOk result (state_of B.shown network.new
        ≡ (judged (state_of B.shown network.old) number line.now).state) }
    ensures alive { OnOk result (IsAlive B.shown network.new) }
    ensures ready { IsReady B.shown network.new }
    ensures front { OnErr result (AppendsFront (K.holds sink.old) (K.holds sink.new)
        ((judged (state_of B.shown network.old) number line.now).says voice)) }
    ensures count { K.faults sink.old ≤ K.faults sink.new }
    ensures failed { IsErrOf result WriteError.Failed → Rose (K.faults sink.old) (K.faults sink.new) }
    ensures reliable { IsTrue (K.is_reliable sink.old) →
        (result ≢ Err WriteError.Failed) × IsTrue (K.is_reliable sink.new) }
{
    match voice {
        Voice::Answers => answer_line(alloc, network, number, line, sink),
        Voice::Packets => capture_line(alloc, network, number, line, sink),
    }
}

/// Answers a line that is too long, at the column of its first byte past the limit.
fn answer_long<K: Sink>(alloc: Global, number: u32, sink: &mut K) -> Result<Status, WriteError>
    ensures text { OnOk result (Appends (K.holds sink.old) (K.holds sink.new)
        (misspelled_text number (longest_line + 1))) }
    ensures refused { IfOk result (λ status. status ≡ Status.Refused number (Refusal.Words (longest_line + 1))) }
    ensures front { OnErr result (AppendsFront (K.holds sink.old) (K.holds sink.new)
        (misspelled_text number (longest_line + 1))) }
    ensures count { K.faults sink.old ≤ K.faults sink.new }
    ensures failed { IsErrOf result WriteError.Failed → Rose (K.faults sink.old) (K.faults sink.new) }
    ensures reliable { IsTrue (K.is_reliable sink.old) →
        (result ≢ Err WriteError.Failed) × IsTrue (K.is_reliable sink.new) }
{
    let column = LINE_LIMIT + 1;
    let reply = play::misspelled(alloc, number, column)?;
    write_all(sink, &reply.text)?;
    Ok(Status::Refused(number, Refusal::Words(column)))
}

/// Refuses a line that is too long, and writes what is told of that.
fn refuse_long<K: Sink>(
    alloc: Global,
    voice: Voice,
    number: u32,
    sink: &mut K,
) -> Result<Status, WriteError>
    ensures text { OnOk result (Appends (K.holds sink.old) (K.holds sink.new)
        (if_answers voice (misspelled_text number (longest_line + 1)))) }
    ensures refused { IfOk result (λ status. status ≡ Status.Refused number (Refusal.Words (longest_line + 1))) }
    ensures front { OnErr result (AppendsFront (K.holds sink.old) (K.holds sink.new)
        (if_answers voice (misspelled_text number (longest_line + 1)))) }
    ensures count { K.faults sink.old ≤ K.faults sink.new }
    ensures failed { IsErrOf result WriteError.Failed → Rose (K.faults sink.old) (K.faults sink.new) }
    ensures reliable { IsTrue (K.is_reliable sink.old) →
        (result ≢ Err WriteError.Failed) × IsTrue (K.is_reliable sink.new) }
{
    match voice {
        Voice::Answers => answer_long(alloc, number, sink),
        Voice::Packets => Ok(Status::Refused(number, Refusal::Words(LINE_LIMIT + 1))),
    }
}

/// Answers what the cutter showed: a line that ends is played, and one that is too long refused. It gives the status
/// where the script ends there.
fn answer_cut<B: Bridge, K: Sink>(
    alloc: Global,
    network: &mut NetworkOf<B>,
    voice: Voice,
    cutter: &Cutter,
    what: Cutting,
    number: &mut u32,
    sink: &mut K,
) -> Result<Option<Status>, WriteError>
    requires alive { IsAlive B.shown network.old }
    requires few { number.old ≤ most_lines + 1 }
    ensures goes_on { result ≡ Ok None → Accepts voice K.holds (shown_lines what cutter.now)
        (state_of B.shown network.old) (state_of B.shown network.new) number.old number.new sink.old sink.new }
    ensures ends { (status : Status) → result ≡ Ok (Some status) → Stops voice K.holds (shown_lines what cutter.now)
        status (state_of B.shown network.old) (state_of B.shown network.new) number.old sink.old sink.new }
    ensures front { OnErr result (AppendsFront (K.holds sink.old) (K.holds sink.new)
        ((play_lines (state_of B.shown network.old) number.old (shown_lines what cutter.now)).says voice)) }
    ensures alive { OnOk result (IsAlive B.shown network.new) }
    ensures ready { IsReady B.shown network.new }
    ensures count { K.faults sink.old ≤ K.faults sink.new }
    ensures failed { IsErrOf result WriteError.Failed → Rose (K.faults sink.old) (K.faults sink.new) }
    ensures reliable { IsTrue (K.is_reliable sink.old) →
        (result ≢ Err WriteError.Failed) × IsTrue (K.is_reliable sink.new) }
{
    match what {
        Cutting::More => Ok(None),
        Cutting::Over => Ok(Some(Status::TooLong)),
        Cutting::Long => Ok(Some(refuse_long(alloc, voice, *number, sink)?)),
        Cutting::Line => {
            if let Some(why) = tell_line(alloc, network, voice, *number, cutter.line(), sink)? {
                return Ok(Some(Status::Refused(*number, why)));
            }
            *number += 1;
            Ok(None)
        }
    }
}

/// Plays the whole lines in the next piece of a script, the first of which has this number, and answers each before the
/// next is played. It gives the status where the script ends in this piece, and none where it goes on.
fn play_piece<B: Bridge, K: Sink>(
    alloc: Global,
    network: &mut NetworkOf<B>,
    voice: Voice,
    cutter: &mut Cutter,
    number: &mut u32,
    piece: &[u8],
    sink: &mut K,
) -> Result<Option<Status>, WriteError>
    requires alive { IsAlive B.shown network.old }
    requires stands { StandsAt cutter.old number.old }
    ensures goes_on { result ≡ Ok None → GoesOn voice K.holds piece.now
        (state_of B.shown network.old) (state_of B.shown network.new) number.old number.new
        cutter.old cutter.new sink.old sink.new }
    ensures ends { (status : Status) → result ≡ Ok (Some status) → Ends voice K.holds piece.now status
        (state_of B.shown network.old) (state_of B.shown network.new) number.old cutter.old sink.old sink.new }
    ensures breaks { OnErr result (Breaks voice K.holds piece.now
        (state_of B.shown network.old) number.old cutter.old sink.old sink.new) }
    ensures alive { OnOk result (IsAlive B.shown network.new) }
    ensures ready { IsReady B.shown network.new }
    ensures count { K.faults sink.old ≤ K.faults sink.new }
    ensures failed { IsErrOf result WriteError.Failed → Rose (K.faults sink.old) (K.faults sink.new) }
    ensures reliable { IsTrue (K.is_reliable sink.old) →
        (result ≢ Err WriteError.Failed) × IsTrue (K.is_reliable sink.new) }
{
    let mut rest = piece;
    while !rest.is_empty() {
        let cut = cutter.feed(rest)?;
        if let Some(status) = answer_cut(alloc, network, voice, cutter, cut.what, number, sink)? {
            return Ok(Some(status));
        }
        rest = &rest[cut.used..];
    }
    Ok(None)
}

/// Answers the end of the input: a last line that was begun is played, and one that is too long refused.
fn end_script<B: Bridge, K: Sink>(
    alloc: Global,
    network: &mut NetworkOf<B>,
    voice: Voice,
    cutter: &mut Cutter,
    number: &mut u32,
    sink: &mut K,
) -> Result<Status, WriteError>
    requires alive { IsAlive B.shown network.old }
    requires stands { StandsAt cutter.old number.old }
    ensures ends { IfOk result (λ status. Finishes voice K.holds status
        (state_of B.shown network.old) (state_of B.shown network.new) number.old cutter.old sink.old sink.new) }
    ensures front { OnErr result (AppendsFront (K.holds sink.old) (K.holds sink.new)
        ((to_come (state_of B.shown network.old) number.old cutter.old []).says voice)) }
    ensures alive { OnOk result (IsAlive B.shown network.new) }
    ensures ready { IsReady B.shown network.new }
    ensures count { K.faults sink.old ≤ K.faults sink.new }
    ensures failed { IsErrOf result WriteError.Failed → Rose (K.faults sink.old) (K.faults sink.new) }
    ensures reliable { IsTrue (K.is_reliable sink.old) →
        (result ≢ Err WriteError.Failed) × IsTrue (K.is_reliable sink.new) }
{
    let what = cutter.end();
    match answer_cut(alloc, network, voice, cutter, what, number, sink)? {
        Some(status) => Ok(status),
        None => Ok(Status::Done),
    }
}

/// Reads the next piece of a script into the front of the buffer, behind the bytes that were `read` before, and says how
/// many bytes it has: none at the end of the input alone. After an error nothing was read.
fn read_piece<S: Source>(source: &mut S, buffer: &mut [u8], read: usize) -> Result<usize, Failed>
    requires going { read ≤ most_bytes }
    requires room { most_piece ≤ length buffer.old }
    ensures short { IfOk result (λ count. count ≤ most_piece) }
    ensures few { IfOk result (λ count. read + count ≤ most_bytes + 1) }
    ensures bytes { IfOk result (λ count.
        Consumes (S.left source.old) (S.left source.new) (take count buffer.new)) }
    ensures end { result ≡ Ok 0 → IsAtEnd (S.left source.new) }
    ensures kept { OnErr result (Keeps (S.left source.old) (S.left source.new)) }
    ensures count { S.faults source.old ≤ S.faults source.new }
    ensures failed { IsErr result → Rose (S.faults source.old) (S.faults source.new) }
    ensures reliable { IsTrue (S.is_reliable source.old) → IsOk result × IsTrue (S.is_reliable source.new) }
{
    let room = (MOST_READ - read).min(PIECE);
    source.read(&mut buffer[..room])
}

/// Plays the script that the source gives. Each line is answered before the next is played, and all whole lines of a
/// piece are played before the next is read: however it ends, all whole lines that were read are accepted and answered,
/// but for those that end in the last 8,192 bytes.
pub(crate) fn play_script<B: Bridge, S: Source, K: Sink>(
    alloc: Global,
    network: &mut NetworkOf<B>,
    voice: Voice,
    source: &mut S,
    sink: &mut K,
) -> Result<Status, Break>
    requires alive { IsAlive B.shown network.old }
    ensures ends { IfOk result (λ status. IfSome (S.left source.old) (λ script. Completes K.holds (said_in voice) script status
        (state_of B.shown network.old) (state_of B.shown network.new) sink.old sink.new)) }
    ensures own { IfOk result (λ status. IsTrue (is_written status)) }
    ensures ended { result ≡ Ok Status.Done → IsAtEnd (S.left source.new) }
    ensures front { OnErr result (IfSome (S.left source.old) (λ script.
        AppendsFront (K.holds sink.old) (K.holds sink.new) (said_in voice (state_of B.shown network.old) script))) }
    ensures whole { result ≡ Err Break.Read → WritesWhole K.holds (said_in voice)
        (state_of B.shown network.old) (S.left source.old) (S.left source.new) sink.old sink.new }
    ensures prompt { WritesSoon K.holds (said_in voice)
        (state_of B.shown network.old) (S.left source.old) (S.left source.new) sink.old sink.new }
    ensures reads { ReadsLittle (S.left source.old) (S.left source.new)
        (λ n. (why : Refusal) × (result ≡ Ok (Status.Refused n why))) }
    ensures few { OnOk result ((state_of B.shown network.new).accepted
        ≤ (state_of B.shown network.old).accepted + most_lines + MOST_ROUNDS) }
    ensures alive { OnOk result (IsAlive B.shown network.new) }
    ensures ready { IsReady B.shown network.new }
    ensures read_fault { result ≡ Err Break.Read → Rose (S.faults source.old) (S.faults source.new) }
    ensures count { K.faults sink.old ≤ K.faults sink.new }
    ensures write_fault { result ≡ Err Break.Write → Rose (K.faults sink.old) (K.faults sink.new) }
    ensures reliable_source { IsTrue (S.is_reliable source.old) → result ≢ Err Break.Read }
    ensures reliable_sink { IsTrue (K.is_reliable sink.old) → result ≢ Err Break.Write }
{
    let mut cutter = Cutter::new(alloc);
    let mut number = 1;
    let mut read = 0;
    let mut buffer = [0; PIECE];
    loop {
        let count = read_piece(source, &mut buffer, read)?;
        if count == 0 {
            return Ok(end_script(alloc, network, voice, &mut cutter, &mut number, sink)?);
        }
        if let Some(status) = play_piece(
            alloc,
            network,
            voice,
            &mut cutter,
            &mut number,
            &buffer[..count],
            sink,
        )? {
            return Ok(status);
        }
        read += count;
    }
}
