//! Which LSPs are to be sent at a port, and the LSP of what is held.
ghost use Rattle.std.specs.Prelude.{◌≡◌, ◌≤◌, IfOk};
ghost use Rattle.isis_pdu.specs.declared.kind.Kind.TheVariants as kinds;
ghost use Rattle.isis_pdu.specs.Pdu as pdu;
ghost use Rattle.isis_pdu.specs.Spelling.{CanWrite, lsp_bytes};
ghost use Rattle.lsdb.specs.Entry.{entry_of};
ghost use Rattle.flooding.specs.Own.{tlvs_of_body};
ghost use Rattle.flooding.specs.Sending.{ids_to_send, lsp_in};

use isis_pdu::{Lsp, write_lsp};
use lsdb::{Database, Held};
use spb_types::limits::MOST_PORTS;
use spb_types::{LEVEL_1, LspId, NoMemory};
use std::alloc::Global;

/// The ids of the LSPs that are to be sent at a port, 1 to 32, in order of id.
pub fn to_send(alloc: Global, db: &Database, port: u8) -> Result<Vec<LspId>, NoMemory>
    requires low { 1 ≤ port }
    requires high { port ≤ MOST_PORTS }
    ensures { IfOk result (λ ids. ids.items ≡ ids_to_send db.now port) }
{
    let mut ids = Vec::new(alloc);
    for place in 0..db.len() {
        if let Some(held) = db.at(place) {
            if held.srm.has(port) {
                ids.push(held.id)?;
            }
        }
    }
    Ok(ids)
}

/// The LSP of what is held under an id (ISO/IEC 10589, 9.8). A dead one is the header alone, with lifetime 0, checksum
/// 0 and flags 01.
pub fn lsp_of(held: &Held) -> Lsp<'_>
    ensures { pdu.lsp_of result ≡ lsp_in held.now.id (entry_of held.now) }
{
    let (flags, tlvs) = match held.body.as_slice() {
        [flags, tlvs @ ..] => (*flags, tlvs),
        [] => (LEVEL_1, [].as_slice()),
    };
    Lsp {
        lifetime: held.lifetime,
        id: held.id,
        seq: held.version.number(),
        sum: held.version.sum(),
        flags,
        tlvs,
    }
}

/// The bytes of the LSP of what is held under an id. Its TLVs are whole, and the LSP has at most 1,497 bytes.
pub fn write_held(alloc: Global, held: &Held) -> Result<Vec<u8>, NoMemory>
    requires { CanWrite kinds.Lsp (tlvs_of_body held.now.body) }
    ensures { IfOk result (λ out. out.items ≡ lsp_bytes (lsp_in held.now.id (entry_of held.now))) }
{
    write_lsp(alloc, &lsp_of(held))
}
