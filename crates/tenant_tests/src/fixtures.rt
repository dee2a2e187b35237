//! What the tests share.
use spb_types::{Isid, Mac, Vid};
use std::fmt::Debug;
use std::process::Abort;

/// A customer's frame to all addresses.
pub(crate) const TO_ALL: &[u8] = b"\xff\xff\xff\xff\xff\xff\x0a\x00\x00\x00\x00\x01\x08\x00";

/// Customer 2's frame to customer 1, who sent the one above.
pub(crate) const TO_ONE: &[u8] = b"\x0a\x00\x00\x00\x00\x01\x0a\x00\x00\x00\x00\x02\x08\x00";

/// The I-SID of the service in most tests.
pub(crate) const ISID: Isid = Isid { value: 100 };

/// Its base VID.
pub(crate) const VID: Vid = Vid { value: 10 };

/// The address of a bridge or of a customer, by its number.
pub(crate) fn mac(first: u8, number: u16) -> Mac {
    let [high, low] = number.to_be_bytes();
    Mac {
        bytes: [first, 0, 0, 0, high, low],
    }
}

/// Asserts that these are equal. An assertion is proved once here, and not at each type.
pub(crate) fn are_equal<T: PartialEq + Debug>(rt: &impl Abort, found: &T, want: &T) {
    assert_eq!(*rt; found, want);
}

pub(crate) fn are_bytes(rt: &impl Abort, found: &[u8], want: &[u8]) {
    are_equal(rt, &found, &want);
}
