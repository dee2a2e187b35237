use crate::case::Case;
use crate::compare::difference;
use crate::escape::words_of;
use crate::trouble::Trouble;
use bridge_api::Bridge;
use plain_bridge::{PlainBridge, SharedReading};
use spb_network::NetworkOf;
use spb_outside::{MemorySink, MemorySource, Sink, Source};
use spb_run::{Status, run};
use spb_types::NoMemory;
use std::alloc::Global;
use swift_bridge::SwiftBridge;

/// How many blank boxes of each kind the rack has, as that of the program.
const BOXES: usize = 256;

/// Makes a rack of blank boxes, and runs the program with these words on the network of it.
fn played<S: Source, K: Sink>(
    alloc: Global,
    words: &[String],
    source: &mut S,
    sink: &mut K,
) -> Result<Status, NoMemory> {
    let mut rack: Vec<Box<dyn Bridge>> = Vec::new(alloc);
    let shared = SharedReading::new(alloc)?;
    for _ in 0..BOXES {
        rack.push(Box::new(alloc, PlainBridge::sharing(alloc, shared.share()?))?)?;
        rack.push(Box::new(alloc, SwiftBridge::sharing(alloc, shared.share()?))?)?;
    }
    Ok(played_on(alloc, words, rack, source, sink))
}

/// Runs the program with these words on the network of a rack.
fn played_on<B: Bridge, S: Source, K: Sink>(
    alloc: Global,
    words: &[String],
    rack: Vec<B>,
    source: &mut S,
    sink: &mut K,
) -> Status {
    let mut network = NetworkOf::new(alloc, rack);
    run(alloc, words, &mut network, source, sink)
}

/// How many reads and writes have failed where a run ends so.
fn faults_at(status: Status) -> (u64, u64) {
    match status {
        Status::ReadFault => (1, 0),
        Status::WriteFault => (0, 1),
        _ => (0, 0),
    }
}

/// What is wrong with how a run ended, if anything is.
fn wrong_ending(
    alloc: Global,
    case: &Case,
    status: Status,
    faults: (u64, u64),
) -> Result<Option<String>, Trouble> {
    let found = format!(in alloc; "{status:?}")?;
    let wanted = case.ending(alloc)?;
    if found.as_str() != wanted.as_str() {
        return Ok(Some(format!(in alloc; "it ends by {found}, and not by {wanted}")?));
    }
    if faults != faults_at(status) {
        let told = format!(in alloc; "it ends by {found}, and {faults:?} reads and writes failed")?;
        return Ok(Some(told));
    }
    Ok(None)
}

/// What is written of some bytes that are listed.
fn listing(alloc: Global, bytes: &[u8]) -> Result<MemorySink, Trouble> {
    let words = words_of(alloc, "list")?;
    let bytes = Vec::from_slice(alloc, bytes)?;
    let mut source = MemorySource::new(bytes, Vec::new(alloc), 4096);
    let mut sink = MemorySink::new(alloc, Vec::new(alloc), 4096);
    played(alloc, words.as_slice(), &mut source, &mut sink)?;
    Ok(sink)
}

/// What is wrong with what a run wrote, or with the listing of it, where the case is of that, if anything is.
fn wrong_output(alloc: Global, case: &Case, sink: &MemorySink) -> Result<Option<String>, Trouble> {
    if case.is_listed {
        let listed = listing(alloc, sink.bytes())?;
        return wrong_text(alloc, case, &listed);
    }
    wrong_text(alloc, case, sink)
}

/// What is wrong with what was written, if anything is.
fn wrong_text(alloc: Global, case: &Case, sink: &MemorySink) -> Result<Option<String>, Trouble> {
    let wanted = case.written()?;
    if sink.has_taken(wanted.as_bytes()) {
        return Ok(None);
    }
    let found = std::str::from_utf8(sink.bytes()).unwrap_or("");
    Ok(Some(difference(alloc, found, wanted)?))
}

/// What is wrong with a run of a case for these words, in which each read and each write moves at most so many bytes,
/// if anything is.
fn wrong_in_pieces(
    alloc: Global,
    case: &Case,
    words: &str,
    piece: usize,
) -> Result<Option<String>, Trouble> {
    let words = words_of(alloc, words)?;
    let bytes = Vec::from_slice(alloc, case.script.as_bytes())?;
    let piece = piece.max(1);
    let mut source = MemorySource::new(bytes, vec![in alloc; case.failing_read]?, piece);
    let mut sink = MemorySink::new(alloc, vec![in alloc; case.failing_write]?, piece);
    let status = played(alloc, words.as_slice(), &mut source, &mut sink)?;
    let faults = (source.faults(), sink.faults());
    match wrong_output(alloc, case, &sink)? {
        Some(told) => Ok(Some(told)),
        None => wrong_ending(alloc, case, status, faults),
    }
}

/// What is wrong with the first run for these words that differs, if one does.
fn wrong_for(alloc: Global, case: &Case, words: &str) -> Result<Option<String>, Trouble> {
    for piece in case.pieces.iter() {
        if let Some(told) = wrong_in_pieces(alloc, case, words, *piece)? {
            let told = format!(in alloc; "{words}, pieces {piece}: {told}")?;
            return Ok(Some(told));
        }
    }
    Ok(None)
}

/// What is wrong with the first run of a case that differs, if one does.
pub(crate) fn wrong(alloc: Global, case: &Case) -> Result<Option<String>, Trouble> {
    for words in case.calls.iter() {
        if let Some(told) = wrong_for(alloc, case, words.as_str())? {
            return Ok(Some(told));
        }
    }
    Ok(None)
}
