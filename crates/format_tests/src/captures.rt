//! Tests of `frame_capture`.
use crate::fixtures::{are_bytes, are_equal, changed};
use frame_capture::{
    CaptureError, Delivered, Order, header, packet, packet_at, put_packet, read_header,
};
use spb_types::Seq;
use std::alloc::Global;
use std::process::Abort;

const FRAME: &[u8] = b"\xff\xff\xff\xff\xff\xff\x0a\x00\x00\x00\x00\x01\x88\xb5xxxxx";

/// The capture of [`FRAME`] in second 7, and of its first 14 bytes in second 4,294,967,295, as tcpdump 4.99.3 wrote it
/// where numbers have their least byte first.
const CAPTURE: &[u8] = b"\
    \xd4\xc3\xb2\xa1\x02\x00\x04\x00\x00\x00\x00\x00\x00\x00\x00\x00\xff\xff\x00\x00\x01\x00\x00\x00\
    \x07\x00\x00\x00\x00\x00\x00\x00\x13\x00\x00\x00\x13\x00\x00\x00\
    \xff\xff\xff\xff\xff\xff\x0a\x00\x00\x00\x00\x01\x88\xb5xxxxx\
    \xff\xff\xff\xff\x00\x00\x00\x00\x0e\x00\x00\x00\x0e\x00\x00\x00\
    \xff\xff\xff\xff\xff\xff\x0a\x00\x00\x00\x00\x01\x88\xb5";

/// The header and the packet of second 7, which tcpdump 4.99.3 read.
const WRITTEN: &[u8] = b"\
    \xa1\xb2\xc3\xd4\x00\x02\x00\x04\x00\x00\x00\x00\x00\x00\x00\x00\x00\x00\xff\xff\x00\x00\x00\x01\
    \x00\x00\x00\x07\x00\x00\x00\x00\x00\x00\x00\x13\x00\x00\x00\x13\
    \xff\xff\xff\xff\xff\xff\x0a\x00\x00\x00\x00\x01\x88\xb5xxxxx";

/// Asserts which packet stands at a place of [`CAPTURE`], and where the next begins.
fn is_packet(rt: &impl Abort, at: usize, seconds: u32, frame: &[u8], next: usize) {
    match packet_at(CAPTURE, at, Order::Little) {
        Ok(Some(packet)) => {
            are_equal(rt, &packet.seconds, &seconds);
            are_bytes(rt, packet.frame, frame);
            are_equal(rt, &packet.next, &next);
        }
        _ => panic!(*rt; "no packet"),
    }
}

#[test]
fn a_capture_of_tcpdump(rt: HostRuntime) {
    are_equal(&rt, &read_header(CAPTURE), &Ok(Order::Little));
    is_packet(&rt, 24, 7, FRAME, 59);
    is_packet(&rt, 59, 4294967295, &FRAME[..14], 89);
    assert!(rt; packet_at(CAPTURE, 89, Order::Little).is_ok_and(|found| found.is_none()));
}

fn is_cut(rt: &impl Abort, bytes: &[u8]) {
    let refused = packet_at(bytes, 59, Order::Little).err();
    are_equal(rt, &refused, &Some(CaptureError::Cut));
}

#[test]
fn a_packet_that_is_cut(rt: HostRuntime) {
    is_cut(&rt, &CAPTURE[..60]);
    is_cut(&rt, &CAPTURE[..74]);
    is_cut(&rt, &CAPTURE[..88]);
}

/// Asserts what the header of [`CAPTURE`] is read as with another byte at a place.
fn is_header(
    rt: &impl Abort,
    alloc: Global,
    place: usize,
    byte: u8,
    want: Result<Order, CaptureError>,
) {
    let bytes = changed(rt, alloc, CAPTURE, place, byte);
    are_equal(rt, &read_header(bytes.as_slice()), &want);
}

#[test]
fn headers_of_other_files(rt: HostRuntime) {
    let refused = Err(CaptureError::NotCapture);
    is_header(&rt, rt.alloc(), 0, 0x0a, refused);
    is_header(&rt, rt.alloc(), 6, 3, refused);
    is_header(&rt, rt.alloc(), 20, 101, refused);
    is_header(&rt, rt.alloc(), 23, 0x10, Ok(Order::Little));
    are_equal(&rt, &read_header(&CAPTURE[..23]), &Err(CaptureError::Short));
}

#[test]
fn a_capture_is_written(rt: HostRuntime) {
    let frame = Vec::from_slice(rt.alloc(), FRAME).expect(&rt, "out of memory");
    let item = Delivered {
        tick: 7,
        frame: Seq::from_vec(frame),
    };
    let mut bytes = header(rt.alloc()).expect(&rt, "out of memory");
    put_packet(&mut bytes, &item).expect(&rt, "out of memory");
    are_bytes(&rt, bytes.as_slice(), WRITTEN);
    let alone = packet(rt.alloc(), &item).expect(&rt, "out of memory");
    are_bytes(&rt, alone.as_slice(), &WRITTEN[24..]);
}
