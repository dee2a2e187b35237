//! Frames with a B-TAG and an I-TAG: opened, and made of what they carry.
ghost use Rattle.std.specs.Prelude.{◌≡◌, ◌≤◌, length, Ok, IfOk};
ghost use Rattle.itag_frames.specs.Frame.{Customer};
ghost use Rattle.itag_frames.specs.Backbone as spec;

use crate::frame::{Backbone, FrameError};
use spb_types::limits::GREATEST_VID;
use spb_types::{Isid, Mac, NoMemory, Vid, mac_in, u16_in, u24_in};
use std::alloc::Global;

/// The type of a B-TAG (IEEE 802.1Q, 9.5).
const B_TAG: u16 = 0x88a8;

/// The type of an I-TAG (IEEE 802.1ah, 9.7).
const I_TAG: u16 = 0x88e7;

/// The parts of a frame with a B-TAG and an I-TAG (IEEE 802.1ah, 9.7). Priorities, the DEI bits, the UCA bit and
/// reserved bits are ignored. Nothing is copied.
///
/// `Short` where the frame has fewer than 36 bytes; else `NotBackbone` where no B-TAG follows the two addresses, or its
/// VID is 0 or 4095; else `NoItag` where no I-TAG follows the B-TAG, or its I-SID is 0.
pub fn open_frame(frame: &[u8]) -> Result<Backbone<'_>, FrameError>
    ensures { spec.opened result ≡ spec.backbone_in frame.now }
{
    if frame.len() < 36 {
        return Err(FrameError::Short);
    }
    if !has_b_tag(frame) {
        return Err(FrameError::NotBackbone);
    }
    if !has_i_tag(frame) {
        return Err(FrameError::NoItag);
    }
    Ok(parts_of(frame))
}

fn has_b_tag(frame: &[u8]) -> bool
    requires { 36 ≤ length frame.now }
    ensures { result ≡ spec.has_b_tag frame.now }
{
    let vid = vid_in(frame);
    u16_in(frame, 12) == B_TAG && (1 <= vid && vid <= GREATEST_VID)
}

fn has_i_tag(frame: &[u8]) -> bool
    requires { 36 ≤ length frame.now }
    ensures { result ≡ spec.has_i_tag frame.now }
{
    u16_in(frame, 16) == I_TAG && 1 <= u24_in(frame, 19)
}

fn vid_in(frame: &[u8]) -> u16
    requires { 36 ≤ length frame.now }
    ensures { result ≡ spec.vid_at frame.now }
{
    u16_in(frame, 14) % 0x1000
}

fn parts_of(frame: &[u8]) -> Backbone<'_>
    requires { 36 ≤ length frame.now }
    ensures { spec.carried result ≡ spec.parts_of frame.now }
{
    Backbone {
        da: mac_in(frame, 0),
        sa: mac_in(frame, 6),
        vid: Vid {
            value: vid_in(frame),
        },
        isid: Isid {
            value: u24_in(frame, 19),
        },
        customer: &frame[22..],
    }
}

/// The frame that carries a customer's frame from one backbone address to another in a VID and an I-SID (IEEE 802.1ah,
/// 9.7). Of the VID its low 12 bits are written, of the I-SID its low 24; priorities and flags are 0. `NoMemory` where
/// no memory was found.
pub fn encapsulate(
    alloc: Global,
    da: Mac,
    sa: Mac,
    vid: Vid,
    isid: Isid,
    customer: &[u8],
) -> Result<Vec<u8>, NoMemory>
    ensures bytes { IfOk result (λ frame. frame.items ≡ spec.backbone_bytes da sa vid isid customer.now) }
    // It is opened as what was carried.
    ensures again { spec.CanBeCarried da sa vid isid customer.now
        → IfOk result (λ frame. spec.backbone_in frame.items ≡ Ok (Customer da sa vid isid customer.now)) }
{
    let mut frame = Vec::with_capacity(alloc, 22 + customer.len())?;
    frame.extend_from_slice(&da.bytes)?;
    frame.extend_from_slice(&sa.bytes)?;
    frame.extend_from_slice(&B_TAG.to_be_bytes())?;
    frame.extend_from_slice(&(vid.value % 0x1000).to_be_bytes())?;
    frame.extend_from_slice(&I_TAG.to_be_bytes())?;
    frame.extend_from_slice(&(isid.value % 0x100_0000).to_be_bytes())?;
    frame.extend_from_slice(customer)?;
    Ok(frame)
}
