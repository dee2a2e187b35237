//! Captures that are written, byte for byte, and captures that are listed. Which frames are delivered, and what is no
//! capture at all, stands in the crate `cases`.
use super::{TWO, are_equal, check_call, ending, sink, source, source_of, words_of};
use crate::Status;
use spb_outside::{MemorySink, MemorySource};
use spb_run::Refusal;
use std::alloc::Global;
use std::process::Abort;

/// A header, and the packet of a frame of 53 bytes in second 0, with the greatest byte of each number first.
const CAPTURE: &[u8] = b"\
    \xa1\xb2\xc3\xd4\x00\x02\x00\x04\x00\x00\x00\x00\x00\x00\x00\x00\x00\x00\xff\xff\x00\x00\x00\x01\
    \x00\x00\x00\x00\x00\x00\x00\x00\x00\x00\x00\x35\x00\x00\x05\xdc\
    \x01\x80\xc2\x00\x00\x14\x02\x00\x00\x00\x00\x01\x88\xb5xxxxxxxxxxxxxxxxxxxxxxxxxxxxxxxxxxxxxxx";

/// The line of that packet.
const LISTED: &str = "f 0 53 0180c200001402000000000188b5\
    787878787878787878787878787878787878787878787878787878787878787878787878787878\n";

/// A header, the packets of a frame of 19 bytes and of one without bytes, and six bytes of another packet, with the
/// least byte of each number first.
const LITTLE: &[u8] = b"\
    \xd4\xc3\xb2\xa1\x02\x00\x04\x00\x00\x00\x00\x00\x00\x00\x00\x00\xff\xff\x00\x00\x01\x00\x00\x00\
    \x07\x00\x00\x00\x00\x00\x00\x00\x13\x00\x00\x00\x13\x00\x00\x00\
    \xff\xff\xff\xff\xff\xff\x0a\x00\x00\x00\x00\x01\x88\xb5xxxxx\
    \xff\xff\xff\xff\x00\x00\x00\x00\x00\x00\x00\x00\x0e\x00\x00\x00\
    \x08\x00\x00\x00\x00\x00";

/// Asserts how the listing of these bytes ends, and what it writes.
fn is_listed(rt: &impl Abort, alloc: Global, bytes: &[u8], status: Status, text: &str) {
    let source = source_of(rt, alloc, bytes, 40, 0);
    let sink = sink(rt, alloc, 8, 0);
    check_call(rt, alloc, "list", source, sink, status, text);
}

#[test]
fn a_packet_is_listed(rt: HostRuntime) {
    is_listed(&rt, rt.alloc(), CAPTURE, Status::Done, LISTED);
    is_listed(&rt, rt.alloc(), &CAPTURE[..24], Status::Done, "");
}

#[test]
fn a_packet_that_is_cut_is_refused(rt: HostRuntime) {
    let refused = Status::Refused(1, Refusal::Capture);
    let error = "error 1 15 Capture\n";
    is_listed(&rt, rt.alloc(), &CAPTURE[..92], refused, error);
    is_listed(&rt, rt.alloc(), &CAPTURE[..25], refused, error);
}

#[test]
fn packets_before_it_are_listed(rt: HostRuntime) {
    let refused = Status::Refused(3, Refusal::Capture);
    let text =
        "f 7 19 ffffffffffff0a000000000188b57878787878\nf 4294967295 0 -\nerror 3 15 Capture\n";
    is_listed(&rt, rt.alloc(), LITTLE, refused, text);
}

#[test]
fn a_header_that_is_cut_is_refused(rt: HostRuntime) {
    let refused = Status::Refused(0, Refusal::Capture);
    is_listed(
        &rt,
        rt.alloc(),
        &CAPTURE[..23],
        refused,
        "error 0 15 Capture\n",
    );
}

#[test]
fn nothing_is_written_where_a_read_fails(rt: HostRuntime) {
    let alloc = rt.alloc();
    let source = source_of(&rt, alloc, CAPTURE, 40, 3);
    let sink = sink(&rt, alloc, 8, 0);
    check_call(&rt, alloc, "list", source, sink, Status::ReadFault, "");
}

#[test]
fn a_front_is_written_where_a_write_fails(rt: HostRuntime) {
    let alloc = rt.alloc();
    let source = source_of(&rt, alloc, CAPTURE, 40, 0);
    let sink = sink(&rt, alloc, 8, 2);
    check_call(
        &rt,
        alloc,
        "list",
        source,
        sink,
        Status::WriteFault,
        "f 0 53 0",
    );
}

/// A header, and the packet of the first hello of the bridge A.
const DELIVERED: &[u8] = b"\
    \xa1\xb2\xc3\xd4\x00\x02\x00\x04\x00\x00\x00\x00\x00\x00\x00\x00\x00\x00\xff\xff\x00\x00\x00\x01\
    \x00\x00\x00\x00\x00\x00\x00\x00\x00\x00\x00\x35\x00\x00\x00\x35\
    \x01\x80\xc2\x00\x00\x14\x02\x00\x00\x00\x00\x01\x00\x27\xfe\xfe\x03\
    \x83\x14\x01\x00\x11\x01\x00\x00\x01\x02\x00\x00\x00\x00\x01\x00\x03\x00\x24\x01\
    \x01\x04\x03\x49\x00\x01\x81\x01\xc1\xf0\x05\x02\x00\x00\x00\x01";

/// The lines that follow two bridges, of which one says hello.
const HELLO: &str = "tick A\ndeliver L1 ab\n";

/// Asserts how a script that is captured ends, and which bytes it writes.
fn check_capture(
    rt: &impl Abort,
    alloc: Global,
    mut source: MemorySource,
    mut sink: MemorySink,
    status: Status,
    bytes: &[u8],
) {
    let words = words_of(rt, alloc, "capture");
    let found = ending(rt, alloc, &words, &mut source, &mut sink);
    are_equal(rt, &found, &status);
    assert!(*rt; sink.has_taken(bytes));
}

/// The script of two bridges, of which one says hello.
fn saying_hello(rt: &impl Abort, alloc: Global) -> String {
    let mut script = String::from_str(alloc, TWO).expect(rt, "out of memory");
    script.push_str(HELLO).expect(rt, "out of memory");
    script
}

#[test]
fn a_frame_that_is_delivered_is_captured(rt: HostRuntime) {
    let alloc = rt.alloc();
    let script = saying_hello(&rt, alloc);
    let source = source(&rt, alloc, script.as_str(), 40, 0);
    let sink = sink(&rt, alloc, 8, 0);
    check_capture(&rt, alloc, source, sink, Status::Done, DELIVERED);
}

#[test]
fn no_line_leaves_the_header(rt: HostRuntime) {
    let alloc = rt.alloc();
    let source = source(&rt, alloc, "", 40, 0);
    let sink = sink(&rt, alloc, 8, 0);
    check_capture(&rt, alloc, source, sink, Status::Done, &DELIVERED[..24]);
}

#[test]
fn the_header_is_written_before_anything_is_read(rt: HostRuntime) {
    let alloc = rt.alloc();
    let source = source(&rt, alloc, TWO, 40, 1);
    let sink = sink(&rt, alloc, 8, 0);
    check_capture(
        &rt,
        alloc,
        source,
        sink,
        Status::ReadFault,
        &DELIVERED[..24],
    );
}

#[test]
fn a_front_of_a_capture_is_written_where_a_write_fails(rt: HostRuntime) {
    let alloc = rt.alloc();
    let script = saying_hello(&rt, alloc);
    let source = source(&rt, alloc, script.as_str(), 40, 0);
    let sink = sink(&rt, alloc, 8, 5);
    check_capture(
        &rt,
        alloc,
        source,
        sink,
        Status::WriteFault,
        &DELIVERED[..32],
    );
}
