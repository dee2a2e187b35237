//! The numbers of a capture, in either order of their bytes.
ghost use Rattle.std.specs.Prelude.{◌≡◌, ◌+◌, ◌≤◌, length};
ghost use Rattle.frame_capture.specs.Capture.{u16_by, u32_by};

/// The order of the bytes of each number of a capture: that of the machine which wrote it.
#[derive(Clone, Copy, Debug, PartialEq, Eq, Hash)]
pub enum Order {
    /// The greatest byte first.
    Big,
    /// The least byte first.
    Little,
}

impl Order {
    /// The number in the two bytes from place `at` on, which stand.
    pub(crate) fn u16_in(self, bytes: &[u8], at: usize) -> u16
        requires { at + 2 ≤ length bytes.now }
        ensures { result ≡ u16_by self bytes.now at }
    {
        let field = *bytes[at..at + 2].as_array().unwrap();
        match self {
            Order::Big => u16::from_be_bytes(field),
            Order::Little => u16::from_le_bytes(field),
        }
    }

    /// The number in the four bytes from place `at` on, which stand.
    pub(crate) fn u32_in(self, bytes: &[u8], at: usize) -> u32
        requires { at + 4 ≤ length bytes.now }
        ensures { result ≡ u32_by self bytes.now at }
    {
        let field = *bytes[at..at + 4].as_array().unwrap();
        match self {
            Order::Big => u32::from_be_bytes(field),
            Order::Little => u32::from_le_bytes(field),
        }
    }
}
