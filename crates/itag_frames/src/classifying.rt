//! What a frame is: a control frame with its PDU, one with an I-TAG, or neither.
ghost use Rattle.std.specs.Prelude.{◌≡◌, ◌≤◌, length, take, drop};
ghost use Rattle.std.specs.Str.{bytes_eq};
ghost use Rattle.itag_frames.specs.Frame as spec;
ghost use Rattle.itag_frames.specs.Classify.{content_in, control_in};

use crate::backbone::open_frame;
use crate::frame::{CONTROL_ADDRESS, Frame, FrameError, LLC};
use spb_types::{mac_in, u16_in};

/// What a frame is. `Short` where it has fewer than 17 bytes. A frame to 01-80-C2-00-00-14 is `Control` where its
/// length is 3 to 1,500 and at most the number of the bytes after the length field, and the LLC bytes are fe fe 03
/// (ISO/IEC 10589, 8.4.8), and else `NotBackbone`; bytes after the length are ignored. Every other frame is what
/// [`open_frame`] answers.
pub fn classify(frame: &[u8]) -> Result<Frame<'_>, FrameError>
    ensures { spec.contents result ≡ content_in frame.now }
{
    if frame.len() < 17 {
        return Err(FrameError::Short);
    }
    if is_to_bridges(frame) {
        return control(frame);
    }
    match open_frame(frame) {
        Ok(opened) => Ok(Frame::Backbone(opened)),
        Err(error) => Err(error),
    }
}

/// The PDU of a frame to the bridges.
fn control(frame: &[u8]) -> Result<Frame<'_>, FrameError>
    requires { 17 ≤ length frame.now }
    ensures { spec.contents result ≡ control_in frame.now }
{
    if !has_pdu(frame) {
        return Err(FrameError::NotBackbone);
    }
    let end = 14 + length_of(frame);
    Ok(Frame::Control(&frame[17..end]))
}

fn is_to_bridges(frame: &[u8]) -> bool
    requires { 17 ≤ length frame.now }
    ensures { result ≡ spec.is_to_bridges frame.now }
{
    mac_in(frame, 0).bytes == CONTROL_ADDRESS
}

fn has_pdu(frame: &[u8]) -> bool
    requires { 17 ≤ length frame.now }
    ensures { result ≡ spec.has_pdu frame.now }
{
    let len = length_of(frame);
    (3 <= len && len <= 1500 && len <= frame.len() - 14) && has_llc(frame)
}

/// Whether the three LLC bytes stand where those of a control frame do.
fn has_llc(frame: &[u8]) -> bool
    requires { 17 ≤ length frame.now }
    ensures { result ≡ bytes_eq (take 3 (drop 14 frame.now)) spec.llc }
{
    [frame[14], frame[15], frame[16]] == LLC
}

fn length_of(frame: &[u8]) -> usize
    requires { 17 ≤ length frame.now }
    ensures { result ≡ spec.length_of frame.now }
{
    usize::from(u16_in(frame, 12))
}
