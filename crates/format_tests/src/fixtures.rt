//! What the tests of several crates share.
ghost use Rattle.std.specs.Prelude.{◌≡◌, [], ◌∷◌};

use spb_types::{LspId, Mac, SystemId};
use std::alloc::Global;
use std::fmt::Debug;
use std::process::Abort;

/// A hello of system 1 at its circuit 1, to a neighbour that isn't known yet.
pub(crate) const HELLO: &[u8] = b"\
    \x83\x14\x01\x00\x11\x01\x00\x00\x01\x02\x00\x00\x00\x00\x01\x00\x03\x00\x24\x01\x01\x04\x03\x49\
    \x00\x01\x81\x01\xc1\xf0\x05\x02\x00\x00\x00\x01";

/// The system 02-00-00-00-00 and this byte.
pub(crate) const fn system(last: u8) -> SystemId
    ensures { result.mac.bytes ≡ 2 ∷ 0 ∷ 0 ∷ 0 ∷ 0 ∷ last ∷ [] }
{
    SystemId {
        mac: Mac {
            bytes: [2, 0, 0, 0, 0, last],
        },
    }
}

/// The id of a system's first LSP.
pub(crate) const fn lsp_id(system: SystemId) -> LspId {
    LspId {
        system,
        pseudonode: 0,
        number: 0,
    }
}

/// The bytes of these hexadecimal numbers.
pub(crate) fn hex(rt: &impl Abort, alloc: Global, numbers: &str) -> Vec<u8> {
    let mut bytes = Vec::new(alloc);
    for number in numbers.split_whitespace() {
        let byte = u8::from_str_radix(number, 16).expect(rt, numbers);
        bytes.push(byte).expect(rt, "out of memory");
    }
    bytes
}

/// The bytes, with another one at this place.
pub(crate) fn changed(
    rt: &impl Abort,
    alloc: Global,
    bytes: &[u8],
    place: usize,
    byte: u8,
) -> Vec<u8> {
    let mut changed = Vec::from_slice(alloc, bytes).expect(rt, "out of memory");
    *changed.get_mut(place).expect(rt, "no such place") = byte;
    changed
}

/// Asserts that these are equal. An assertion is proved once here, and not at each type.
pub(crate) fn are_equal<T: PartialEq + Debug>(rt: &impl Abort, found: &T, want: &T) {
    assert_eq!(*rt; found, want);
}

pub(crate) fn are_bytes(rt: &impl Abort, found: &[u8], want: &[u8]) {
    are_equal(rt, &found, &want);
}

/// The text by which a value is shown.
pub(crate) fn shown<T: Debug>(rt: &impl Abort, alloc: Global, value: &T) -> String {
    format!(in alloc; "{value:?}").expect(rt, "out of memory")
}

/// Asserts that text.
pub(crate) fn is_shown<T: Debug>(rt: &impl Abort, alloc: Global, value: &T, want: &str) {
    are_equal(rt, &shown(rt, alloc, value).as_str(), &want);
}
