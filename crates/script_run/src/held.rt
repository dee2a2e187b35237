//! Bytes that are held until there are many, and then written together.
ghost use Rattle.std.specs.Prelude.{◌≡◌, ◌≢◌, ◌≤◌, ◌++◌, [], Err, IsErrOf, IsTrue, OnOk, OnErr};
ghost use Rattle.std.specs.Io.KnownBytes.{Appends};
ghost use Rattle.spb_outside.specs.Faults.{Rose};
ghost use Rattle.script_run.specs.Output.{AppendsFront};
ghost use Rattle.script_run.specs.Puts.{Puts};

use crate::output::write_all;
use spb_outside::{Sink, WriteError};

/// How many bytes are held before they are written.
const CHUNK: usize = 65536;

/// Writes the bytes that are held.
fn flush<K: Sink>(sink: &mut K, held: &mut Vec<u8>) -> Result<(), WriteError>
    ensures all { OnOk result (Appends (K.holds sink.old) (K.holds sink.new) held.old.items) }
    ensures none { OnOk result (held.new.items ≡ []) }
    ensures front { OnErr result (AppendsFront (K.holds sink.old) (K.holds sink.new) held.old.items) }
    ensures count { K.faults sink.old ≤ K.faults sink.new }
    ensures failed { IsErrOf result WriteError.Failed → Rose (K.faults sink.old) (K.faults sink.new) }
    ensures reliable { IsTrue (K.is_reliable sink.old) →
        (result ≢ Err WriteError.Failed) × IsTrue (K.is_reliable sink.new) }
{
    write_all(sink, held.as_slice())?;
    held.clear();
    Ok(())
}

/// Writes the bytes that are held, if they are many.
pub(crate) fn make_room<K: Sink>(sink: &mut K, held: &mut Vec<u8>) -> Result<(), WriteError>
    ensures all { OnOk result (Puts (K.holds sink.old) (K.holds sink.new) held.old.items held.new.items []) }
    ensures front { OnErr result (AppendsFront (K.holds sink.old) (K.holds sink.new) held.old.items) }
    ensures count { K.faults sink.old ≤ K.faults sink.new }
    ensures failed { IsErrOf result WriteError.Failed → Rose (K.faults sink.old) (K.faults sink.new) }
    ensures reliable { IsTrue (K.is_reliable sink.old) →
        (result ≢ Err WriteError.Failed) × IsTrue (K.is_reliable sink.new) }
{
    if held.len() < CHUNK {
        return Ok(());
    }
    flush(sink, held)?;
    Ok(())
}

/// Puts bytes behind those that are held. After an error a front of all of them is written.
pub fn put<K: Sink>(sink: &mut K, held: &mut Vec<u8>, bytes: &[u8]) -> Result<(), WriteError>
    ensures all { OnOk result (Puts (K.holds sink.old) (K.holds sink.new) held.old.items held.new.items bytes.now) }
    ensures front { OnErr result (AppendsFront (K.holds sink.old) (K.holds sink.new)
        (held.old.items ++ bytes.now)) }
    ensures count { K.faults sink.old ≤ K.faults sink.new }
    ensures failed { IsErrOf result WriteError.Failed → Rose (K.faults sink.old) (K.faults sink.new) }
    ensures reliable { IsTrue (K.is_reliable sink.old) →
        (result ≢ Err WriteError.Failed) × IsTrue (K.is_reliable sink.new) }
{
    make_room(sink, held)?;
    held.extend_from_slice(bytes)?;
    Ok(())
}
