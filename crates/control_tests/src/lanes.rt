//! Tests of `link_model`.
use crate::fixtures::{are_bytes, are_equal};
use link_model::{DoubleError, Lane, LaneId, Lanes, NoFrame, Pushed};
use shared_frames::Frame;
use spb_types::Dir;
use std::alloc::Global;
use std::process::Abort;

/// A frame of so many bytes, which are all the same.
fn frame_of(rt: &impl Abort, alloc: Global, byte: u8, len: usize) -> Frame {
    let bytes = vec![in alloc; byte; len].expect(rt, "out of memory");
    Frame::from_vec(bytes).expect(rt, "out of memory")
}

/// Puts a frame of so many bytes behind the others, and says what became of it.
fn pushed(rt: &impl Abort, alloc: Global, lane: &mut Lane, byte: u8, len: usize) -> Pushed {
    let pushed = lane.push(frame_of(rt, alloc, byte, len));
    pushed.expect(rt, "out of memory")
}

/// A lane with a frame of 7 bytes, one of 8 and one of 9.
fn lane_of_three(rt: &impl Abort, alloc: Global) -> Lane {
    let mut lane = Lane::new(alloc);
    pushed(rt, alloc, &mut lane, 7, 7);
    pushed(rt, alloc, &mut lane, 8, 8);
    pushed(rt, alloc, &mut lane, 9, 9);
    lane
}

/// Asserts how many frames stand in a lane.
fn check_len(rt: &impl Abort, lane: &Lane, len: usize) {
    are_equal(rt, &(lane.len(), lane.is_empty()), &(len, len == 0));
}

/// Asserts the first byte of the frame at place `k`, if one stands there.
fn check_byte(rt: &impl Abort, lane: &Lane, k: usize, expected: Option<u8>) {
    let found = match lane.at(k) {
        Some(frame) => frame.first().copied(),
        None => None,
    };
    are_equal(rt, &found, &expected);
}

/// Takes the first frame out of a lane, which has these bytes. No bytes: there is none.
fn check_popped(rt: &impl Abort, lane: &mut Lane, want: &[u8]) {
    are_bytes(rt, lane.front().unwrap_or(&[]), want);
    match lane.pop() {
        Some(frame) => are_bytes(rt, frame.as_slice(), want),
        None => are_bytes(rt, &[], want),
    }
}

#[test]
fn frames_come_out_in_the_order_in_which_they_went_in(rt: HostRuntime) {
    let mut lane = lane_of_three(&rt, rt.alloc());
    check_len(&rt, &lane, 3);
    check_byte(&rt, &lane, 2, Some(9));
    check_byte(&rt, &lane, 3, None);
    check_popped(&rt, &mut lane, &[7; 7]);
    check_byte(&rt, &lane, 0, Some(8));
    lane.flush();
    check_popped(&rt, &mut lane, &[]);
}

/// The frame at place `k` is lost, or there is none.
fn check_lost(rt: &impl Abort, lane: &mut Lane, k: usize, expected: Result<(), NoFrame>) {
    assert!(*rt; lane.lose(k) == expected);
}

/// The frame at place `k` is doubled, or there is none.
fn check_doubled(rt: &impl Abort, lane: &mut Lane, k: usize, expected: Result<(), DoubleError>) {
    assert!(*rt; lane.double(k) == expected);
}

#[test]
fn a_frame_is_lost_or_doubled_at_its_place(rt: HostRuntime) {
    let mut lane = lane_of_three(&rt, rt.alloc());
    check_doubled(&rt, &mut lane, 1, Ok(()));
    check_byte(&rt, &lane, 2, Some(8));
    check_lost(&rt, &mut lane, 0, Ok(()));
    check_byte(&rt, &lane, 0, Some(8));
    check_lost(&rt, &mut lane, 3, Err(NoFrame));
    check_doubled(&rt, &mut lane, 3, Err(DoubleError::NoFrame));
    check_len(&rt, &lane, 3);
}

/// A frame of one byte is put behind the others, or finds no place.
fn check_pushed(rt: &impl Abort, alloc: Global, lane: &mut Lane, byte: u8, expected: Pushed) {
    assert!(*rt; pushed(rt, alloc, lane, byte, 1) == expected);
}

#[test]
fn the_frame_after_1024_and_a_copy_after_them_are_lost(rt: HostRuntime) {
    let mut lane = Lane::new(rt.alloc());
    for _ in 0..1_024 {
        check_pushed(&rt, rt.alloc(), &mut lane, 1, Pushed::Kept);
    }
    check_pushed(&rt, rt.alloc(), &mut lane, 2, Pushed::Dropped);
    check_doubled(&rt, &mut lane, 0, Ok(()));
    check_len(&rt, &lane, 1_024);
}

/// Both directions of the second link.
const THERE: LaneId = LaneId {
    link: 1,
    dir: Dir::Ab,
};

const BACK: LaneId = LaneId {
    link: 1,
    dir: Dir::Ba,
};

/// Asserts how many frames stand in both directions of the second link, and which lane is the first that isn't empty.
fn check_lanes(
    rt: &impl Abort,
    lanes: &mut Lanes,
    there: usize,
    back: usize,
    first: Option<LaneId>,
) {
    are_equal(rt, &lanes.frames(THERE), &there);
    are_equal(rt, &lanes.frames(BACK), &back);
    are_equal(rt, &lanes.first_full(), &first);
}

/// A frame of one byte is put into a lane.
fn push_to(rt: &impl Abort, alloc: Global, lanes: &mut Lanes, id: LaneId, byte: u8) {
    let frame = frame_of(rt, alloc, byte, 1);
    lanes.push(id, frame).expect(rt, "out of memory");
}

/// Takes the first frame out of a lane, which has these bytes. No bytes: there is none.
fn check_taken(rt: &impl Abort, lanes: &mut Lanes, id: LaneId, want: &[u8]) {
    match lanes.pop(id) {
        Some(frame) => are_bytes(rt, frame.as_slice(), want),
        None => are_bytes(rt, &[], want),
    }
}

/// The frame at place `k` of a lane is doubled.
fn double_in(rt: &impl Abort, lanes: &mut Lanes, id: LaneId, k: usize) {
    lanes.double(id, k).expect(rt, "out of memory");
}

/// The frame at place `k` of a lane is lost.
fn lose_in(lanes: &mut Lanes, id: LaneId, k: usize) {
    lanes.lose(id, k);
}

#[test]
fn frames_stand_in_the_lane_of_their_link_and_direction(rt: HostRuntime) {
    let mut lanes = two_links(&rt, rt.alloc());
    push_to(&rt, rt.alloc(), &mut lanes, BACK, 7);
    check_lanes(&rt, &mut lanes, 0, 1, Some(BACK));
    push_to(&rt, rt.alloc(), &mut lanes, THERE, 8);
    push_to(&rt, rt.alloc(), &mut lanes, THERE, 9);
    double_in(&rt, &mut lanes, THERE, 1);
    lose_in(&mut lanes, THERE, 0);
    check_lanes(&rt, &mut lanes, 2, 1, Some(THERE));
    check_taken(&rt, &mut lanes, THERE, &[9]);
    lanes.flush(1);
    check_lanes(&rt, &mut lanes, 0, 0, None);
    check_taken(&rt, &mut lanes, BACK, &[]);
}

/// The empty lanes of two links.
fn two_links(rt: &impl Abort, alloc: Global) -> Lanes {
    let mut lanes = Lanes::new(alloc);
    lanes.add_link().expect(rt, "out of memory");
    lanes.add_link().expect(rt, "out of memory");
    are_equal(rt, &lanes.links(), &2);
    lanes
}
