//! The masks of the ECT algorithms.
ghost use Rattle.std.specs.Prelude.{◌≡◌, ◌≤◌};
ghost use Rattle.spb_types.specs.Ect.{mask_of};

use crate::limits::GREATEST_ECT;

/// The mask of an ECT algorithm by its number, 1 to 16: each byte of a bridge id is XORed with it before path
/// ids are compared (IEEE 802.1aq, 28.8). The masks stand in the order of RFC 6329, 12.
pub fn ect_mask(number: u8) -> u8
    requires low { 1 ≤ number }
    requires high { number ≤ GREATEST_ECT }
    ensures { result ≡ mask_of number }
{
    MASKS[usize::from(number) - 1]
}

const MASKS: [u8; GREATEST_ECT as usize] = [
    0x00, 0xff, 0x88, 0x77, 0x44, 0x33, 0xcc, 0xbb, 0x22, 0x11, 0x66, 0x55, 0xaa, 0x99, 0xdd, 0xee,
];
