//! A file that a source gives, read whole, up to a limit.
ghost use Rattle.std.specs.Prelude.{◌≡◌, ◌≢◌, ◌≤◌, ◌+◌, length, take, Ok, Err, IfOk, IsErr, IsOk, IsTrue, OnErr};
ghost use Rattle.std.specs.Io.KnownBytes.{Consumes, IsAtEnd, Keeps};
ghost use Rattle.spb_outside.specs.Faults.{Rose};
ghost use Rattle.script_run.specs.Pieces.{most_piece};
ghost use Rattle.capture_list.specs.Listing.{most_listed};
ghost use Rattle.capture_list.specs.Lists.{ReadsFew};
ghost use Rattle.capture_list.specs.declared.reading.Trouble.TheVariants.{Failed as ReadFailed, NoMemory as NoRoom};

use spb_outside::{Failed, Source};
use std::alloc::{AllocError, Global};

/// How many bytes are read at once, at most.
const PIECE: usize = 8192;

/// How many bytes a file may have.
pub(crate) const MOST_LISTED: usize = 67_108_864;

/// Why a file isn't read.
pub(crate) enum Trouble {
    /// A read failed.
    Failed,
    /// Memory ran out.
    NoMemory,
}

impl From<Failed> for Trouble {
    ghost from_gives = { λ _ e. e ≡ ReadFailed };

    fn from(_failed: Failed) -> Self {
        Trouble::Failed
    }
}

impl From<AllocError> for Trouble {
    ghost from_gives = { λ _ e. e ≡ NoRoom };

    fn from(_refused: AllocError) -> Self {
        Trouble::NoMemory
    }
}

/// Reads the next piece of a file into the front of the buffer, behind the bytes that were `read` before, and says how
/// many bytes it has: none at the end of the input alone. After an error nothing was read.
fn read_piece<S: Source>(source: &mut S, buffer: &mut [u8], read: usize) -> Result<usize, Failed>
    requires going { read ≤ most_listed }
    requires room { most_piece ≤ length buffer.old }
    ensures short { IfOk result (λ count. count ≤ most_piece) }
    ensures few { IfOk result (λ count. read + count ≤ most_listed + 1) }
    ensures bytes { IfOk result (λ count.
        Consumes (S.left source.old) (S.left source.new) (take count buffer.new)) }
    ensures end { result ≡ Ok 0 → IsAtEnd (S.left source.new) }
    ensures kept { OnErr result (Keeps (S.left source.old) (S.left source.new)) }
    ensures count { S.faults source.old ≤ S.faults source.new }
    ensures failed { IsErr result → Rose (S.faults source.old) (S.faults source.new) }
    ensures reliable { IsTrue (S.is_reliable source.old) → IsOk result × IsTrue (S.is_reliable source.new) }
{
    let room = (MOST_LISTED + 1 - read).min(PIECE);
    source.read(&mut buffer[..room])
}

/// Reads the input to its end, or to the first byte past those that a file may have.
pub(crate) fn read_all<S: Source>(alloc: Global, source: &mut S) -> Result<Vec<u8>, Trouble>
    ensures bytes { IfOk result (λ bytes. Consumes (S.left source.old) (S.left source.new) bytes.items) }
    ensures end { IfOk result (λ bytes. length bytes.items ≤ most_listed → IsAtEnd (S.left source.new)) }
    ensures few { ReadsFew (S.left source.old) (S.left source.new) }
    ensures failed { result ≡ Err Trouble.Failed → Rose (S.faults source.old) (S.faults source.new) }
    ensures reliable { IsTrue (S.is_reliable source.old) → result ≢ Err Trouble.Failed }
{
    let mut bytes = Vec::new(alloc);
    let mut buffer = [0; PIECE];
    loop {
        let count = read_piece(source, &mut buffer, bytes.len())?;
        if count == 0 {
            return Ok(bytes);
        }
        bytes.extend_from_slice(&buffer[..count])?;
        if bytes.len() > MOST_LISTED {
            return Ok(bytes);
        }
    }
}
