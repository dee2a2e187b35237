//! The header and the packets of a capture, read.
ghost use Rattle.std.specs.Prelude.{◌≡◌, ◌+◌, ◌≤◌, length, drop, IfOk, IfSome};
ghost use Rattle.frame_capture.specs.Capture as capture;

use crate::{CaptureError, Order};

/// The magic number of a capture whose packets tell microseconds beside their seconds.
const MICROSECONDS: u32 = 0xa1b2_c3d4;

/// The magic number of a capture whose packets tell nanoseconds.
const NANOSECONDS: u32 = 0xa1b2_3c4d;

/// The link type of Ethernet.
const ETHERNET: u32 = 1;

/// A packet of a capture.
#[derive(Clone, Copy, Debug)]
pub struct Packet<'a> {
    /// The seconds of its time.
    pub seconds: u32,
    /// The captured bytes of its frame.
    pub frame: &'a [u8],
    /// The place at which the next packet begins.
    pub next: usize,
}

/// The order of the bytes of a capture's numbers, by its first 24 bytes (draft-ietf-opsawg-pcap, 4). `Short` where
/// there are fewer. `NotCapture` where in neither order they have one of the two magic numbers, version 2.4 and, in the
/// low 16 bits of the last field, the link type of Ethernet.
pub fn read_header(bytes: &[u8]) -> Result<Order, CaptureError>
    ensures { result ≡ capture.header_of bytes.now }
{
    if bytes.len() < 24 {
        return Err(CaptureError::Short);
    }
    if is_header(Order::Big, bytes) {
        Ok(Order::Big)
    } else if is_header(Order::Little, bytes) {
        Ok(Order::Little)
    } else {
        Err(CaptureError::NotCapture)
    }
}

fn is_header(order: Order, bytes: &[u8]) -> bool
    requires { 24 ≤ length bytes.now }
    ensures { result ≡ capture.is_header order bytes.now }
{
    is_magic(order.u32_in(bytes, 0))
        && order.u16_in(bytes, 4) == 2
        && order.u16_in(bytes, 6) == 4
        && order.u32_in(bytes, 20) % 0x1_0000 == ETHERNET
}

fn is_magic(number: u32) -> bool
    ensures { result ≡ capture.is_magic number }
{
    number == MICROSECONDS || number == NANOSECONDS
}

/// The packet that begins at place `at` of a capture (draft-ietf-opsawg-pcap, 5), and none where no byte stands there.
/// `Cut` where fewer bytes stand than the 16 before its frame, or than these and the captured bytes that they announce.
/// The fraction of its second and its original length are passed over.
pub fn packet_at(bytes: &[u8], at: usize, order: Order) -> Result<Option<Packet<'_>>, CaptureError>
    ensures packet { capture.seen result ≡ capture.packet_in order (drop at bytes.now) }
    ensures next { IfOk result (λ found. IfSome found (λ packet. packet.next ≡ at + 16 + length packet.frame.now)) }
{
    if at >= bytes.len() {
        return Ok(None);
    }
    let rest = &bytes[at..];
    if rest.len() < 16 {
        return Err(CaptureError::Cut);
    }
    let captured = order.u32_in(rest, 8) as usize;
    if rest.len() - 16 < captured {
        return Err(CaptureError::Cut);
    }
    Ok(Some(Packet {
        seconds: order.u32_in(rest, 0),
        frame: &rest[16..16 + captured],
        next: at + 16 + captured,
    }))
}
