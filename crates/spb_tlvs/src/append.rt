//! Bytes and items put behind others; after a failure of it nothing half written stays.
ghost use Rattle.std.specs.Prelude.{◌≡◌, ◌++◌, take, OnOk, OnErr, IfErr, option_to_list};

use crate::error::TlvError;
use spb_types::NoMemory;

/// Appends the bytes.
pub(crate) fn put(out: &mut Vec<u8>, bytes: &[u8]) -> Result<(), NoMemory>
    ensures ok { OnOk result (out.new.items ≡ out.old.items ++ bytes.now) }
    ensures err { OnErr result (out.new.items ≡ out.old.items) }
{
    out.extend_from_slice(bytes)?;
    Ok(())
}

/// Hands on how an appending of bytes ended. Where it failed, what it appended is taken away again.
pub(crate) fn whole_or_none(
    out: &mut Vec<u8>,
    before: usize,
    ended: Result<(), NoMemory>,
) -> Result<(), NoMemory>
    ensures same { result ≡ ended }
    ensures ok { OnOk ended (out.new.items ≡ out.old.items) }
    ensures err { OnErr ended (out.new.items ≡ take before out.old.items) }
{
    if ended.is_err() {
        out.truncate(before);
    }
    ended
}

/// Appends the item, if there is one.
pub(crate) fn push_some<T: Drop>(items: &mut Vec<T>, item: Option<T>) -> Result<(), TlvError>
    ensures ok { OnOk result (items.new.items ≡ items.old.items ++ option_to_list item) }
    ensures err { IfErr result (λ e. e ≡ TlvError.NoMemory) }
{
    if let Some(item) = item {
        items.push(item)?;
    }
    Ok(())
}
