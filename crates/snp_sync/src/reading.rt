//! The entries that the TLVs of a sequence numbers PDU have.
ghost use Rattle.std.specs.Prelude.{◌≡◌};
ghost use Rattle.spb_tlvs.specs.Reading.{Reads};
ghost use Rattle.snp_sync.specs.Reading.{entries_in};

use spb_tlvs::{LSP_ENTRIES, SnpEntry, TlvError, append_entries, split_tlv};
use std::alloc::Global;

/// How many bytes an entry takes.
const ENTRY_BYTES: usize = 16;

/// The entries of a sequence numbers PDU by its TLVs: those of each of its TLVs 9, in order. The first that can't be
/// read refuses all. The TLVs are gone over once, and room for as many entries as they may have is taken first.
pub fn entries_of_snp(alloc: Global, tlvs: &[u8]) -> Result<Vec<SnpEntry>, TlvError>
    ensures { Reads result (entries_in tlvs.now) }
{
    let mut entries = Vec::with_capacity(alloc, tlvs.len() / ENTRY_BYTES)?;
    let mut rest = tlvs;
    while let Some((code, value, after)) = split_tlv(rest) {
        if code == LSP_ENTRIES {
            append_entries(&mut entries, value)?;
        }
        rest = after;
    }
    Ok(entries)
}
