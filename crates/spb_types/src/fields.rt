//! Numbers, addresses and ids at places of bytes that are known to stand there.
ghost use Rattle.std.specs.Prelude.{◌≡◌, ◌+◌, ◌≤◌, length};
ghost use Rattle.spb_types.specs.Bytes.{u16_at, u24_at, u32_at, mac_at, system_at, lsp_id_at};

use crate::address::{LspId, Mac, SystemId};

/// The big-endian number in the two bytes from place `at` on, which stand.
pub fn u16_in(bytes: &[u8], at: usize) -> u16
    requires { at + 2 ≤ length bytes.now }
    ensures { result ≡ u16_at bytes.now at }
{
    u16::from(bytes[at]) * 256 + u16::from(bytes[at + 1])
}

/// The big-endian number in the three bytes from place `at` on, which stand.
pub fn u24_in(bytes: &[u8], at: usize) -> u32
    requires { at + 3 ≤ length bytes.now }
    ensures { result ≡ u24_at bytes.now at }
{
    u32::from(u16_in(bytes, at)) * 256 + u32::from(bytes[at + 2])
}

/// The big-endian number in the four bytes from place `at` on, which stand.
pub fn u32_in(bytes: &[u8], at: usize) -> u32
    requires { at + 4 ≤ length bytes.now }
    ensures { result ≡ u32_at bytes.now at }
{
    u24_in(bytes, at) * 256 + u32::from(bytes[at + 3])
}

/// The address in the six bytes from place `at` on, which stand.
pub fn mac_in(bytes: &[u8], at: usize) -> Mac
    requires { at + 6 ≤ length bytes.now }
    ensures { result ≡ mac_at bytes.now at }
{
    Mac {
        bytes: *bytes[at..at + 6].as_array().unwrap(),
    }
}

/// The system id in the six bytes from place `at` on, which stand.
pub fn system_in(bytes: &[u8], at: usize) -> SystemId
    requires { at + 6 ≤ length bytes.now }
    ensures { result ≡ system_at bytes.now at }
{
    SystemId {
        mac: mac_in(bytes, at),
    }
}

/// The LSP id in the eight bytes from place `at` on, which stand (ISO/IEC 10589, 9.8).
pub fn lsp_id_in(bytes: &[u8], at: usize) -> LspId
    requires { at + 8 ≤ length bytes.now }
    ensures { result ≡ lsp_id_at bytes.now at }
{
    LspId {
        system: system_in(bytes, at),
        pseudonode: bytes[at + 6],
        number: bytes[at + 7],
    }
}
