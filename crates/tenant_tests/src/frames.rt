//! Tests of frames with an I-TAG.
use crate::fixtures::{ISID, TO_ALL, VID, are_bytes, are_equal, mac};
use itag_frames::{Frame, FrameError, classify, encapsulate, open_frame};
use spb_types::{SourceId, group_address};
use std::alloc::Global;
use std::process::Abort;

/// [`TO_ALL`] from the bridge 1 to the group address of source 1 and I-SID 100, in VID 10.
const FRAME: &[u8] = b"\
    \x03\x00\x01\x00\x00\x64\x02\x00\x00\x00\x00\x01\x88\xa8\x00\x0a\x88\xe7\x00\x00\x00\x64\xff\xff\
    \xff\xff\xff\xff\x0a\x00\x00\x00\x00\x01\x08\x00";

#[test]
fn a_frame_to_a_group_is_written(rt: HostRuntime) {
    let da = group_address(SourceId { value: 1 }, ISID);
    let frame = encapsulate(rt.alloc(), da, mac(2, 1), VID, ISID, TO_ALL).expect(
        &rt,
        "out of memory",
    );
    are_bytes(&rt, frame.as_slice(), FRAME);
}

#[test]
fn a_frame_to_a_group_is_opened(rt: HostRuntime) {
    match open_frame(FRAME) {
        Ok(opened) => {
            are_equal(&rt, &opened.da, &group_address(SourceId { value: 1 }, ISID));
            are_equal(&rt, &opened.sa, &mac(2, 1));
            are_equal(&rt, &opened.vid, &VID);
            are_equal(&rt, &opened.isid, &ISID);
            are_bytes(&rt, opened.customer, TO_ALL);
        }
        Err(_) => panic!(rt; "not opened"),
    }
}

/// Asserts why a frame isn't opened; none is where it is.
fn is_refused(rt: &impl Abort, frame: &[u8], want: Option<FrameError>) {
    are_equal(rt, &open_frame(frame).err(), &want);
}

/// The same of [`FRAME`] with other bytes at two places.
fn is_refused_with(
    rt: &impl Abort,
    alloc: Global,
    first: (usize, u8),
    second: (usize, u8),
    want: Option<FrameError>,
) {
    let mut frame = Vec::from_slice(alloc, FRAME).expect(rt, "out of memory");
    for (place, byte) in [first, second] {
        if let Some(old) = frame.get_mut(place) {
            *old = byte;
        }
    }
    is_refused(rt, frame.as_slice(), want);
}

#[test]
fn frames_that_are_not_opened(rt: HostRuntime) {
    let alloc = rt.alloc();
    is_refused(&rt, &FRAME[..35], Some(FrameError::Short));
    let other_vlan = Some(FrameError::NotBackbone);
    is_refused_with(&rt, alloc, (14, 0), (15, 0), other_vlan);
    is_refused_with(&rt, alloc, (16, 0x88), (17, 0xe6), Some(FrameError::NoItag));
    is_refused_with(&rt, alloc, (20, 0), (21, 0), Some(FrameError::NoItag));
    // Priorities, and the bits of the I-TAG before the I-SID, may be any.
    is_refused_with(&rt, alloc, (14, 0xf0), (18, 0xff), None);
}

#[test]
fn a_frame_of_the_backbone_has_36_bytes(rt: HostRuntime) {
    are_equal(&rt, &classify(&FRAME[..35]).err(), &Some(FrameError::Short));
    match classify(FRAME) {
        Ok(Frame::Backbone(_)) => {}
        _ => panic!(rt; "no frame of the backbone"),
    }
}
