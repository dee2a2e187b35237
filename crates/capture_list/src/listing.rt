//! A file that is listed: read whole, and then written packet by packet.
ghost use Rattle.std.specs.Prelude.{◌≡◌, ◌≢◌, ◌≤◌, ◌++◌, ◌⊎◌, length, drop, Err, IfOk, IsErrOf, IsTrue, OnOk, OnErr};
ghost use Rattle.std.specs.Io.KnownBytes.{Appends};
ghost use Rattle.spb_outside.specs.Faults.{Rose};
ghost use Rattle.frame_capture.specs.Capture.{header_of, listed};
ghost use Rattle.script_run.specs.Output.{AppendsFront};
ghost use Rattle.script_run.specs.Run as ends;
ghost use Rattle.capture_list.specs.Listing.{most_listed, told, listing_by, listing};
ghost use Rattle.capture_list.specs.Lists.{Lists};
ghost use Rattle.script_run.specs.Puts.{Puts};

use crate::lines::{put_line, put_refused};
use crate::reading::{MOST_LISTED, Trouble, read_all};
use frame_capture::{Order, packet_at, read_header};
use script_run::{Status, write_all};
use spb_outside::{Sink, Source, WriteError};
use std::alloc::Global;

/// Where the first packet of a capture begins.
const FIRST: usize = 24;

/// Puts the lines of the packets behind a header.
fn put_packets<K: Sink>(
    alloc: Global,
    order: Order,
    bytes: &[u8],
    sink: &mut K,
    held: &mut Vec<u8>,
) -> Result<Status, WriteError>
    requires { length bytes.now ≤ most_listed }
    ensures all { OnOk result (Puts (K.holds sink.old) (K.holds sink.new)
        held.old.items held.new.items (told 0 (listed order (drop 24 bytes.now))).text) }
    ensures status { IfOk result (λ status. status ≡ (told 0 (listed order (drop 24 bytes.now))).status) }
    ensures own { IfOk result (λ status. IsTrue (ends.is_ended status)) }
    ensures front { OnErr result (AppendsFront (K.holds sink.old) (K.holds sink.new)
        (held.old.items ++ (told 0 (listed order (drop 24 bytes.now))).text)) }
    ensures count { K.faults sink.old ≤ K.faults sink.new }
    ensures failed { IsErrOf result WriteError.Failed → Rose (K.faults sink.old) (K.faults sink.new) }
    ensures reliable { IsTrue (K.is_reliable sink.old) →
        (result ≢ Err WriteError.Failed) × IsTrue (K.is_reliable sink.new) }
{
    let mut at = FIRST;
    let mut number: u32 = 0;
    loop {
        match packet_at(bytes, at, order) {
            Ok(None) => return Ok(Status::Done),
            Ok(Some(packet)) => {
                put_line(alloc, packet.seconds, packet.frame, sink, held)?;
                at = packet.next;
                number += 1;
            }
            Err(_) => return put_refused(alloc, number + 1, sink, held),
        }
    }
}

/// Puts what is written of a file.
fn put_listing<K: Sink>(
    alloc: Global,
    bytes: &[u8],
    sink: &mut K,
    held: &mut Vec<u8>,
) -> Result<Status, WriteError>
    requires { length bytes.now ≤ most_listed }
    ensures all { OnOk result (Puts (K.holds sink.old) (K.holds sink.new)
        held.old.items held.new.items (listing_by (header_of bytes.now) bytes.now).text) }
    ensures status { IfOk result (λ status. status ≡ (listing_by (header_of bytes.now) bytes.now).status) }
    ensures own { IfOk result (λ status. IsTrue (ends.is_ended status)) }
    ensures front { OnErr result (AppendsFront (K.holds sink.old) (K.holds sink.new)
        (held.old.items ++ (listing_by (header_of bytes.now) bytes.now).text)) }
    ensures count { K.faults sink.old ≤ K.faults sink.new }
    ensures failed { IsErrOf result WriteError.Failed → Rose (K.faults sink.old) (K.faults sink.new) }
    ensures reliable { IsTrue (K.is_reliable sink.old) →
        (result ≢ Err WriteError.Failed) × IsTrue (K.is_reliable sink.new) }
{
    match read_header(bytes) {
        Ok(order) => put_packets(alloc, order, bytes, sink, held),
        Err(_) => put_refused(alloc, 0, sink, held),
    }
}

/// Writes what is written of a file.
fn write_listing<K: Sink>(alloc: Global, bytes: &[u8], sink: &mut K) -> Result<Status, WriteError>
    requires { length bytes.now ≤ most_listed }
    ensures all { OnOk result (Appends (K.holds sink.old) (K.holds sink.new)
        (listing_by (header_of bytes.now) bytes.now).text) }
    ensures status { IfOk result (λ status. status ≡ (listing_by (header_of bytes.now) bytes.now).status) }
    ensures own { IfOk result (λ status. IsTrue (ends.is_ended status)) }
    ensures front { OnErr result (AppendsFront (K.holds sink.old) (K.holds sink.new)
        (listing_by (header_of bytes.now) bytes.now).text) }
    ensures failed { IsErrOf result WriteError.Failed → Rose (K.faults sink.old) (K.faults sink.new) }
    ensures reliable { IsTrue (K.is_reliable sink.old) → result ≢ Err WriteError.Failed }
{
    let mut held = Vec::new(alloc);
    let status = put_listing(alloc, bytes, sink, &mut held)?;
    write_all(sink, &held)?;
    Ok(status)
}

/// Lists a file that was read, up to the first byte past those that it may have.
#[tactic(auto, unfolding(crate::specs::Listing::listing))]
fn list_bytes<K: Sink>(alloc: Global, bytes: &[u8], sink: &mut K) -> Status
    ensures ends { (result ≡ (listing bytes.now).status) ⊎ (result ≡ Status.NoMemory) ⊎ (result ≡ Status.WriteFault) }
    ensures text { IsTrue (ends.is_written result) →
        Appends (K.holds sink.old) (K.holds sink.new) (listing bytes.now).text }
    ensures front { IsTrue (ends.is_cut result) →
        AppendsFront (K.holds sink.old) (K.holds sink.new) (listing bytes.now).text }
    ensures silent { (result ≡ Status.ReadFault) ⊎ (result ≡ Status.TooLong) → sink.new ≡ sink.old }
    ensures other { result ≢ Status.Usage }
    ensures unread { result ≢ Status.ReadFault }
    ensures short { IsTrue (ends.is_ended result) → length bytes.now ≤ most_listed }
    ensures failed { result ≡ Status.WriteFault → Rose (K.faults sink.old) (K.faults sink.new) }
    ensures reliable { IsTrue (K.is_reliable sink.old) → result ≢ Status.WriteFault }
{
    if bytes.len() > MOST_LISTED {
        return Status::TooLong;
    }
    match write_listing(alloc, bytes, sink) {
        Ok(status) => status,
        Err(WriteError::Failed) => Status::WriteFault,
        Err(WriteError::NoMemory) => Status::NoMemory,
    }
}

/// Lists the file that the source gives, of at most 67,108,864 bytes: it is read whole, and then for each of its packets
/// a line is written, `f SECONDS LENGTH HEX`. A header that isn't read, or a packet that isn't whole, is `Refused` by
/// the line `error N 15 Capture`, with the number of the packet, or 0 for the header.
pub fn list_capture<S: Source, K: Sink>(alloc: Global, source: &mut S, sink: &mut K) -> Status
    ensures other { result ≢ Status.Usage }
    ensures silent { IsTrue (ends.is_silent result) → sink.new ≡ sink.old }
    ensures lists { Lists S.left S.is_reliable K.holds K.is_reliable
        result source.old source.new sink.old sink.new }
    ensures read_fault { result ≡ Status.ReadFault → Rose (S.faults source.old) (S.faults source.new) }
    ensures write_fault { result ≡ Status.WriteFault → Rose (K.faults sink.old) (K.faults sink.new) }
    ensures reliable_source { IsTrue (S.is_reliable source.old) → result ≢ Status.ReadFault }
    ensures reliable_sink { IsTrue (K.is_reliable sink.old) → result ≢ Status.WriteFault }
{
    match read_all(alloc, source) {
        Ok(bytes) => list_bytes(alloc, &bytes, sink),
        Err(Trouble::Failed) => Status::ReadFault,
        Err(Trouble::NoMemory) => Status::NoMemory,
    }
}
