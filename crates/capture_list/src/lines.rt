//! The lines of a listing.
ghost use Rattle.std.specs.Prelude.{◌≡◌, ◌≢◌, ◌≤◌, ◌++◌, decimal, Err, IfOk, IsErrOf, IsTrue, OnOk, OnErr};
ghost use Rattle.hex.specs.Hex.{encode_lower};
ghost use Rattle.spb_outside.specs.Faults.{Rose};
ghost use Rattle.report.specs.Words.{spaced};
ghost use Rattle.script_run.specs.Output.{AppendsFront};
ghost use Rattle.capture_list.specs.Listing.{hex_or_dash, frame_line, line_head, refused_line};
ghost use Rattle.script_run.specs.Puts.{Puts};

use itoa::Buffer;
use report::error_text;
use script_run::{Refusal, Status, put};
use spb_outside::{Sink, WriteError};
use spb_types::NoMemory;
use std::alloc::Global;

/// Room for what stands before the frame in its line, in bytes.
const HEAD: usize = 32;

/// How many bytes of a frame are spelled at once, at most: so a long one isn't in memory twice.
const PIECE: usize = 8192;

/// The number of the reason for which a capture is refused.
const CAPTURE: u8 = 15;

/// A space and a number.
fn push_number(text: &mut Vec<u8>, number: u64) -> Result<(), NoMemory>
    ensures { OnOk result (text.new.items ≡ text.old.items ++ spaced (decimal number)) }
{
    let mut buffer = Buffer::new();
    text.push(b' ')?;
    text.extend_from_slice(buffer.format(number).as_bytes())?;
    Ok(())
}

/// What stands before the frame in its line.
fn line_head(alloc: Global, seconds: u32, len: usize) -> Result<Vec<u8>, NoMemory>
    ensures { IfOk result (λ text. text.items ≡ line_head seconds len) }
{
    let mut text = Vec::with_capacity(alloc, HEAD)?;
    text.push(b'f')?;
    push_number(&mut text, u64::from(seconds))?;
    push_number(&mut text, len as u64)?;
    text.push(b' ')?;
    Ok(text)
}

/// Puts two hexadecimal digits for each byte.
fn put_digits<K: Sink>(
    alloc: Global,
    bytes: &[u8],
    sink: &mut K,
    held: &mut Vec<u8>,
) -> Result<(), WriteError>
    ensures all { OnOk result (Puts (K.holds sink.old) (K.holds sink.new)
        held.old.items held.new.items (encode_lower bytes.now)) }
    ensures front { OnErr result (AppendsFront (K.holds sink.old) (K.holds sink.new)
        (held.old.items ++ encode_lower bytes.now)) }
    ensures count { K.faults sink.old ≤ K.faults sink.new }
    ensures failed { IsErrOf result WriteError.Failed → Rose (K.faults sink.old) (K.faults sink.new) }
    ensures reliable { IsTrue (K.is_reliable sink.old) →
        (result ≢ Err WriteError.Failed) × IsTrue (K.is_reliable sink.new) }
{
    let mut rest = bytes;
    while !rest.is_empty() {
        let count = rest.len().min(PIECE);
        let digits = hex::encode(alloc, &rest[..count])?;
        put(sink, held, digits.as_bytes())?;
        rest = &rest[count..];
    }
    Ok(())
}

/// Puts the digits of a frame, or `-` where it has no bytes.
fn put_frame<K: Sink>(
    alloc: Global,
    frame: &[u8],
    sink: &mut K,
    held: &mut Vec<u8>,
) -> Result<(), WriteError>
    ensures all { OnOk result (Puts (K.holds sink.old) (K.holds sink.new)
        held.old.items held.new.items (hex_or_dash frame.now)) }
    ensures front { OnErr result (AppendsFront (K.holds sink.old) (K.holds sink.new)
        (held.old.items ++ hex_or_dash frame.now)) }
    ensures count { K.faults sink.old ≤ K.faults sink.new }
    ensures failed { IsErrOf result WriteError.Failed → Rose (K.faults sink.old) (K.faults sink.new) }
    ensures reliable { IsTrue (K.is_reliable sink.old) →
        (result ≢ Err WriteError.Failed) × IsTrue (K.is_reliable sink.new) }
{
    match frame {
        [] => put(sink, held, b"-"),
        [_, ..] => put_digits(alloc, frame, sink, held),
    }
}

/// Puts the line of a packet.
pub(crate) fn put_line<K: Sink>(
    alloc: Global,
    seconds: u32,
    frame: &[u8],
    sink: &mut K,
    held: &mut Vec<u8>,
) -> Result<(), WriteError>
    ensures all { OnOk result (Puts (K.holds sink.old) (K.holds sink.new)
        held.old.items held.new.items (frame_line (record { tick = seconds; frame = frame.now }))) }
    ensures front { OnErr result (AppendsFront (K.holds sink.old) (K.holds sink.new)
        (held.old.items ++ frame_line (record { tick = seconds; frame = frame.now }))) }
    ensures count { K.faults sink.old ≤ K.faults sink.new }
    ensures failed { IsErrOf result WriteError.Failed → Rose (K.faults sink.old) (K.faults sink.new) }
    ensures reliable { IsTrue (K.is_reliable sink.old) →
        (result ≢ Err WriteError.Failed) × IsTrue (K.is_reliable sink.new) }
{
    let head = line_head(alloc, seconds, frame.len())?;
    put(sink, held, &head)?;
    put_frame(alloc, frame, sink, held)?;
    put(sink, held, b"\n")?;
    Ok(())
}

/// Puts the line of the packet of this number, which isn't read; of the header, where it is 0.
pub(crate) fn put_refused<K: Sink>(
    alloc: Global,
    number: u32,
    sink: &mut K,
    held: &mut Vec<u8>,
) -> Result<Status, WriteError>
    ensures all { OnOk result (Puts (K.holds sink.old) (K.holds sink.new)
        held.old.items held.new.items (refused_line number)) }
    ensures status { IfOk result (λ status. status ≡ Status.Refused number Refusal.Capture) }
    ensures front { OnErr result (AppendsFront (K.holds sink.old) (K.holds sink.new)
        (held.old.items ++ refused_line number)) }
    ensures count { K.faults sink.old ≤ K.faults sink.new }
    ensures failed { IsErrOf result WriteError.Failed → Rose (K.faults sink.old) (K.faults sink.new) }
    ensures reliable { IsTrue (K.is_reliable sink.old) →
        (result ≢ Err WriteError.Failed) × IsTrue (K.is_reliable sink.new) }
{
    let line = error_text(alloc, number, CAPTURE, "Capture", None)?;
    put(sink, held, &line)?;
    Ok(Status::Refused(number, Refusal::Capture))
}
