//! Tests of `itag_frames`.
use crate::fixtures::{HELLO, are_bytes, are_equal, changed, system};
use itag_frames::{Frame, FrameError, classify, control_frame};
use std::alloc::Global;
use std::process::Abort;

/// The control frame of [`HELLO`].
const FRAME: &[u8] = b"\
    \x01\x80\xc2\x00\x00\x14\x02\x00\x00\x00\x00\x01\x00\x27\xfe\xfe\x03\x83\x14\x01\x00\x11\x01\x00\
    \x00\x01\x02\x00\x00\x00\x00\x01\x00\x03\x00\x24\x01\x01\x04\x03\x49\x00\x01\x81\x01\xc1\xf0\x05\
    \x02\x00\x00\x00\x01";

#[test]
fn a_hello_in_its_control_frame(rt: HostRuntime) {
    let frame = control_frame(rt.alloc(), system(1).mac, HELLO).expect(&rt, "out of memory");
    are_bytes(&rt, frame.as_slice(), FRAME);
    match classify(FRAME) {
        Ok(Frame::Control(pdu)) => are_bytes(&rt, pdu, HELLO),
        _ => panic!(rt; "no control frame"),
    }
}

fn is_refused(rt: &impl Abort, frame: &[u8], want: FrameError) {
    are_equal(rt, &classify(frame).err(), &Some(want));
}

/// Asserts that the frame is none of the backbone with another byte at a place.
fn is_refused_with(rt: &impl Abort, alloc: Global, place: usize, byte: u8) {
    let frame = changed(rt, alloc, FRAME, place, byte);
    is_refused(rt, frame.as_slice(), FrameError::NotBackbone);
}

#[test]
fn frames_that_are_no_control_frames(rt: HostRuntime) {
    is_refused(&rt, &FRAME[..16], FrameError::Short);
    is_refused(&rt, &FRAME[..52], FrameError::NotBackbone);
    is_refused_with(&rt, rt.alloc(), 5, 0x15);
    is_refused_with(&rt, rt.alloc(), 16, 0x13);
    is_refused_with(&rt, rt.alloc(), 13, 2);
}
