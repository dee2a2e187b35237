//! What needs a test of its own of the program: boxes that fail or ask, and each form once. Other scripts, and how
//! their runs end, are data of the crate `cases`.
use crate::{Status, play};
use spb_outside::{MemorySink, MemorySource, Sink, Source};
use std::alloc::Global;
use std::fmt::Debug;
use std::process::Abort;

mod asking_box;
mod boxes;
mod calm;
mod captures;
mod failing_box;
mod faults;
mod runs;
mod settling;

/// Two bridges with a link between them.
const TWO: &str = "bridge A 32768 020000000001 00001 1
bridge B 32768 020000000002 00002 1
link L1 A 1 B 1 10
";

/// Asserts that these are equal. An assertion is proved once here, and not at each type.
fn are_equal<T: PartialEq + Debug>(rt: &impl Abort, found: &T, want: &T) {
    assert_eq!(*rt; found, want);
}

/// The words of the program: those of a text, which stand a blank apart.
fn words_of(rt: &impl Abort, alloc: Global, text: &str) -> Vec<String> {
    let mut words = Vec::new(alloc);
    for word in text.split(' ') {
        let word = String::from_str(alloc, word).expect(rt, "out of memory");
        words.push(word).expect(rt, "out of memory");
    }
    words
}

/// A source of a text, which gives at most `step` bytes at each read, and fails at the one of this number. (Reads and
/// writes are counted from 1, so 0 is none.)
fn source(rt: &impl Abort, alloc: Global, text: &str, step: usize, failing: u32) -> MemorySource {
    source_of(rt, alloc, text.as_bytes(), step, failing)
}

/// The same of bytes that may be no text.
fn source_of(
    rt: &impl Abort,
    alloc: Global,
    bytes: &[u8],
    step: usize,
    failing: u32,
) -> MemorySource {
    assert!(*rt; step >= 1);
    let bytes = Vec::from_slice(alloc, bytes).expect(rt, "out of memory");
    let failing = vec![in alloc; failing].expect(rt, "out of memory");
    MemorySource::new(bytes, failing, step)
}

/// A sink that takes at most `step` bytes at each write, and fails at the one of this number.
fn sink(rt: &impl Abort, alloc: Global, step: usize, failing: u32) -> MemorySink {
    assert!(*rt; step >= 1);
    let failing = vec![in alloc; failing].expect(rt, "out of memory");
    MemorySink::new(alloc, failing, step)
}

/// How many reads and writes have failed where a run ends so.
fn faults_at(status: Status) -> (u64, u64) {
    match status {
        Status::ReadFault => (1, 0),
        Status::WriteFault => (0, 1),
        _ => (0, 0),
    }
}

/// How the program ends with these words. A fault is counted exactly where it ends by one.
fn ending(
    rt: &impl Abort,
    alloc: Global,
    words: &[String],
    source: &mut MemorySource,
    sink: &mut MemorySink,
) -> Status {
    let status = play(alloc, words, source, sink).expect(rt, "out of memory");
    are_equal(rt, &(source.faults(), sink.faults()), &faults_at(status));
    status
}

/// The text that a sink has taken.
fn text_of<'a>(rt: &impl Abort, sink: &'a MemorySink) -> &'a str {
    std::str::from_utf8(sink.bytes()).expect(rt, "no text")
}

/// Asserts how the program ends with these words and what it writes.
fn check_call(
    rt: &impl Abort,
    alloc: Global,
    words: &str,
    mut source: MemorySource,
    mut sink: MemorySink,
    status: Status,
    text: &str,
) {
    let words = words_of(rt, alloc, words);
    let found = ending(rt, alloc, &words, &mut source, &mut sink);
    are_equal(rt, &found, &status);
    are_equal(rt, &text_of(rt, &sink), &text);
}
