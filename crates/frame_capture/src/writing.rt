//! The header and the packets of a capture, written.
ghost use Rattle.std.specs.Prelude.{◌≡◌, ◌<◌, ◌^◌, ◌++◌, length, IfOk, OnOk, OnErr};
ghost use Rattle.frame_capture.specs.Capture as capture;

use crate::Delivered;
use spb_types::NoMemory;
use std::alloc::Global;

/// The magic number of microseconds, version 2.4, two fields that are reserved, frames of at most 65,535 bytes, and the
/// link type of Ethernet.
const HEADER: [u8; 24] = [
    0xa1, 0xb2, 0xc3, 0xd4, 0, 2, 0, 4, 0, 0, 0, 0, 0, 0, 0, 0, 0, 0, 0xff, 0xff, 0, 0, 0, 1,
];

/// The header of a capture, with the greatest byte of each number first (draft-ietf-opsawg-pcap, 4).
pub fn header(alloc: Global) -> Result<Vec<u8>, NoMemory>
    ensures { IfOk result (λ bytes. bytes.items ≡ capture.header_bytes) }
{
    Ok(Vec::from_slice(alloc, &HEADER)?)
}

/// The packet of a frame of fewer than 2^32 bytes, all of which are captured: its seconds, no microseconds, its length
/// twice, and its bytes (draft-ietf-opsawg-pcap, 5).
pub fn packet(alloc: Global, item: &Delivered) -> Result<Vec<u8>, NoMemory>
    requires { length item.now.frame < 2 ^ 32 }
    ensures { IfOk result (λ bytes. bytes.items ≡ capture.packet_bytes item.now) }
{
    let mut out = Vec::with_capacity(alloc, 16 + item.frame.len())?;
    put_packet(&mut out, item)?;
    Ok(out)
}

/// Appends the packet of a frame of fewer than 2^32 bytes. After `NoMemory` nothing was appended.
pub fn put_packet(out: &mut Vec<u8>, item: &Delivered) -> Result<(), NoMemory>
    requires { length item.now.frame < 2 ^ 32 }
    ensures ok { OnOk result (out.new.items ≡ out.old.items ++ capture.packet_bytes item.now) }
    ensures err { OnErr result (out.new.items ≡ out.old.items) }
{
    put_frame(out, item.tick, item.frame.as_slice())
}

/// Appends the packet of a frame of fewer than 2^32 bytes, given by its seconds and its bytes. After `NoMemory` nothing
/// was appended.
pub fn put_frame(out: &mut Vec<u8>, seconds: u32, frame: &[u8]) -> Result<(), NoMemory>
    requires { length frame.now < 2 ^ 32 }
    ensures ok { OnOk result (out.new.items
        ≡ out.old.items ++ capture.packet_bytes (record { tick = seconds; frame = frame.now })) }
    ensures err { OnErr result (out.new.items ≡ out.old.items) }
{
    put_both(out, &packet_head(seconds, frame.len() as u32), frame)
}

/// Appends one piece and then another. After `NoMemory` nothing was appended.
fn put_both(out: &mut Vec<u8>, first: &[u8], second: &[u8]) -> Result<(), NoMemory>
    ensures ok { OnOk result (out.new.items ≡ out.old.items ++ (first.now ++ second.now)) }
    ensures err { OnErr result (out.new.items ≡ out.old.items) }
{
    let before = out.len();
    out.extend_from_slice(first)?;
    if out.extend_from_slice(second).is_err() {
        out.truncate(before);
        return Err(NoMemory);
    }
    Ok(())
}

/// What stands before the frame in its packet.
fn packet_head(seconds: u32, len: u32) -> [u8; 16]
    ensures { result ≡ capture.packet_head seconds len }
{
    let [a, b, c, d] = seconds.to_be_bytes();
    let [s, t, u, v] = len.to_be_bytes();
    [a, b, c, d, 0, 0, 0, 0, s, t, u, v, s, t, u, v]
}
