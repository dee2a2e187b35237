//! Control frames, made of a PDU or of the room for one.
ghost use Rattle.std.specs.Prelude.{◌≡◌, ◌≤◌, ◌++◌, ℕ, List, length, Ok, IfOk};
ghost use Rattle.std.specs.Int.{w16, to_be_bytes};
ghost use Rattle.itag_frames.specs.Frame.{Pdu, control_address, llc, control_bytes};
ghost use Rattle.itag_frames.specs.Classify.{content_in};

use crate::frame::{CONTROL_ADDRESS, LLC};
use spb_types::{Mac, NoMemory};
use std::alloc::Global;

/// The control frame of a PDU of at most 1,497 bytes, from this address, without padding (ISO/IEC 10589, 8.4.8).
pub fn control_frame(alloc: Global, sa: Mac, pdu: &[u8]) -> Result<Vec<u8>, NoMemory>
    requires { length pdu.now ≤ 1497 }
    ensures bytes { IfOk result (λ frame. frame.items ≡ control_bytes sa pdu.now) }
    // It is read as what was written.
    ensures again { IfOk result (λ frame. content_in frame.items ≡ Ok (Pdu pdu.now)) }
{
    let mut frame = control_head(alloc, sa, pdu.len())?;
    frame.extend_from_slice(pdu)?;
    Ok(frame)
}

/// What stands before the PDU in the control frame of a PDU of `len` bytes, at most 1,497, from this address. The
/// vector has room for the PDU, which is written behind it.
pub fn control_head(alloc: Global, sa: Mac, len: usize) -> Result<Vec<u8>, NoMemory>
    requires { len ≤ 1497 }
    ensures { IfOk result (λ head. (pdu : List ℕ) → length pdu ≡ len → head.items ++ pdu ≡ control_bytes sa pdu) }
{
    let counted = LLC.len() + len;
    let mut head = Vec::with_capacity(alloc, 14 + counted)?;
    head.extend_from_slice(&head_of(sa, counted as u16))?;
    Ok(head)
}

/// The two addresses, the length field and the LLC bytes, where the LLC bytes and the PDU are `counted`.
fn head_of(sa: Mac, counted: u16) -> [u8; 17]
    ensures { result ≡ control_address ++ sa.bytes ++ to_be_bytes w16 counted ++ llc }
{
    let [a, b, c, d, e, f] = CONTROL_ADDRESS;
    let [g, h, i, j, k, l] = sa.bytes;
    let [high, low] = counted.to_be_bytes();
    let [dsap, ssap, control] = LLC;
    [
        a, b, c, d, e, f, g, h, i, j, k, l, high, low, dsap, ssap, control,
    ]
}
