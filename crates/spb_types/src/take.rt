//! Numbers read at places of bytes that may be too short.
ghost use Rattle.std.specs.Prelude.{◌≡◌, ◌+◌, ◌≤◌, ◌<◌, length};
ghost use Rattle.std.specs.Result.{OkIff};
ghost use Rattle.spb_types.specs.Bytes.{u8_at, u16_at, u24_at, u32_at};

use crate::fields::{u16_in, u24_in, u32_in};
use thiserror::Error;

/// Too few bytes stand at the place where a number was to be read.
#[derive(Clone, Copy, Debug, PartialEq, Eq, Error)]
#[error("too few bytes")]
pub struct Short;

/// The byte at place `at`, counted from 0. `Short` exactly where no byte stands there.
pub fn take_u8(input: &[u8], at: usize) -> Result<u8, Short>
    ensures { OkIff result (at + 1 ≤ length input.now) (u8_at input.now at) }
{
    if at >= input.len() {
        return Err(Short);
    }
    Ok(input[at])
}

/// The big-endian number in the two bytes from place `at` on. `Short` exactly where fewer than two stand there.
pub fn take_u16(input: &[u8], at: usize) -> Result<u16, Short>
    ensures { OkIff result (at + 2 ≤ length input.now) (u16_at input.now at) }
{
    if input.len() < 2 || at > input.len() - 2 {
        return Err(Short);
    }
    Ok(u16_in(input, at))
}

/// The big-endian number in the three bytes from place `at` on. `Short` exactly where fewer than three stand there.
pub fn take_u24(input: &[u8], at: usize) -> Result<u32, Short>
    ensures { OkIff result (at + 3 ≤ length input.now) (u24_at input.now at) }
{
    if input.len() < 3 || at > input.len() - 3 {
        return Err(Short);
    }
    Ok(u24_in(input, at))
}

/// The big-endian number in the four bytes from place `at` on. `Short` exactly where fewer than four stand there.
pub fn take_u32(input: &[u8], at: usize) -> Result<u32, Short>
    ensures { OkIff result (at + 4 ≤ length input.now) (u32_at input.now at) }
{
    if input.len() < 4 || at > input.len() - 4 {
        return Err(Short);
    }
    Ok(u32_in(input, at))
}
