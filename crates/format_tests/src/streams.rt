//! Tests of `spb_outside`.
use crate::fixtures::{are_bytes, are_equal};
use spb_outside::{MemorySink, MemorySource, Sink, Source, StdSink, StdSource, WriteError};
use std::process::Abort;

/// Asserts what a source gives at a read of eight bytes, and how many of its reads have failed.
fn check_read(rt: &impl Abort, source: &mut MemorySource, expected: &[u8], faults: u64) {
    let mut into = [0; 8];
    let count = source.read(&mut into).expect(rt, "a fault");
    are_equal(rt, &into.get(..count), &Some(expected));
    are_equal(rt, &source.faults(), &faults);
}

/// Asserts that a read fails, and how many have failed then.
fn check_failed_read(rt: &impl Abort, source: &mut MemorySource, faults: u64) {
    let mut into = [0; 8];
    assert!(*rt; source.read(&mut into).is_err());
    are_equal(rt, &source.faults(), &faults);
}

#[test]
fn a_source_in_memory_gives_its_bytes_in_steps_and_fails_where_listed(rt: HostRuntime) {
    let bytes = Vec::from_slice(rt.alloc(), b"abcde").expect(&rt, "out of memory");
    let plan = vec![in rt.alloc(); 2].expect(&rt, "out of memory");
    let mut source = MemorySource::new(bytes, plan, 3);
    check_read(&rt, &mut source, b"abc", 0);
    check_failed_read(&rt, &mut source, 1);
    check_read(&rt, &mut source, b"de", 1);
    check_read(&rt, &mut source, b"", 1);
}

/// Asserts how many bytes a sink takes of these, how many of its writes have failed, and what it has then.
fn check_written(
    rt: &impl Abort,
    sink: &mut MemorySink,
    bytes: &[u8],
    taken: Result<usize, WriteError>,
    faults: u64,
    all: &[u8],
) {
    are_equal(rt, &sink.write(bytes), &taken);
    are_equal(rt, &sink.faults(), &faults);
    are_bytes(rt, sink.bytes(), all);
}

#[test]
fn a_sink_in_memory_takes_bytes_in_steps_and_fails_where_listed(rt: HostRuntime) {
    let plan = vec![in rt.alloc(); 2, 4].expect(&rt, "out of memory");
    let mut sink = MemorySink::new(rt.alloc(), plan, 3);
    let failed = Err(WriteError::Failed);
    check_written(&rt, &mut sink, b"abcde", Ok(3), 0, b"abc");
    check_written(&rt, &mut sink, b"de", failed, 1, b"abc");
    check_written(&rt, &mut sink, b"de", Ok(2), 1, b"abcde");
    check_written(&rt, &mut sink, b"", failed, 2, b"abcde");
    check_written(&rt, &mut sink, b"", Ok(0), 2, b"abcde");
    assert!(rt; sink.has_taken(b"abcde") && !sink.has_taken(b"abcdf"));
}

#[test]
fn the_standard_streams_begin_with_no_fault(rt: HostRuntime) {
    let mut source = StdSource::new(rt.stdin());
    are_equal(&rt, &source.read(&mut []), &Ok(0));
    are_equal(&rt, &source.faults(), &0);
    let mut sink = StdSink::new(rt.stdout());
    are_equal(&rt, &sink.write(b""), &Ok(0));
    are_equal(&rt, &sink.faults(), &0);
}
