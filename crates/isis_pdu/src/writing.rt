//! PDUs written as bytes.
ghost use Rattle.std.specs.Prelude.{◌≡◌, ◌+◌, ◌≤◌, ◌++◌, ◌∷◌, [], ℕ, List, length, IfOk, OnOk};
ghost use Rattle.isis_pdu.specs.declared.kind.Kind.TheVariants as kinds;
ghost use Rattle.spb_types.specs.Bytes.{lsp_id_bytes};
ghost use Rattle.isis_pdu.specs.Bytes.{u16_bytes, u32_bytes};
ghost use Rattle.isis_pdu.specs.Header.{fixed_length};
ghost use Rattle.isis_pdu.specs.Pdu.{hello_of, lsp_of, csnp_of, psnp_of};
ghost use Rattle.isis_pdu.specs.Spelling as spelling;
ghost use Rattle.isis_pdu.specs.Spelling.{CanWrite, zeros, source_bytes, length_bytes, hello_bytes, lsp_bytes, csnp_bytes, psnp_bytes};

use crate::kind::Kind;
use crate::pdu::{Csnp, Hello, Lsp, Psnp};
use spb_types::{LspId, NoMemory, SystemId};
use std::alloc::{AllocError, Global};

fn common_header(kind: Kind) -> [u8; 8]
    ensures { result ≡ spelling.common_header zeros kind }
{
    [0x83, kind.fixed_length(), 1, 0, kind.number(), 1, 0, 0]
}

/// A vector with room for the PDU, and its common header.
fn with_header(alloc: Global, kind: Kind, tlvs: &[u8]) -> Result<Vec<u8>, AllocError>
    requires { fixed_length kind + length tlvs.now ≤ 1497 }
    ensures { IfOk result (λ out. out.items ≡ spelling.common_header zeros kind) }
{
    let mut out = Vec::with_capacity(alloc, usize::from(kind.fixed_length()) + tlvs.len())?;
    out.extend_from_slice(&common_header(kind))?;
    Ok(out)
}

#[tactic(auto, using(crate::proofs::Bytes::be_bytes_u16))]
fn put_u16(out: &mut Vec<u8>, number: u16) -> Result<(), AllocError>
    ensures { OnOk result (out.new.items ≡ out.old.items ++ u16_bytes number) }
{
    out.extend_from_slice(&number.to_be_bytes())?;
    Ok(())
}

/// The PDU length, which counts the whole PDU.
fn put_length(out: &mut Vec<u8>, kind: Kind, tlvs: &[u8]) -> Result<(), AllocError>
    requires { fixed_length kind + length tlvs.now ≤ 1497 }
    ensures { OnOk result (out.new.items ≡ out.old.items ++ length_bytes kind tlvs.now) }
{
    let len = usize::from(kind.fixed_length()) + tlvs.len();
    put_u16(out, len as u16)
}

fn put_lsp_id(out: &mut Vec<u8>, id: &LspId) -> Result<(), AllocError>
    ensures { OnOk result (out.new.items ≡ out.old.items ++ lsp_id_bytes id.now) }
{
    out.extend_from_slice(&id.system.mac.bytes)?;
    out.extend_from_slice(&[id.pseudonode, id.number])?;
    Ok(())
}

/// The source of a sequence numbers PDU: the system id, and a circuit octet of 0.
fn put_source(out: &mut Vec<u8>, source: &SystemId) -> Result<(), AllocError>
    ensures { OnOk result (out.new.items ≡ out.old.items ++ source_bytes zeros source.now) }
{
    out.extend_from_slice(&source.mac.bytes)?;
    out.push(0)?;
    Ok(())
}

/// The bytes of a hello, of whole TLVs and at most 1,497 bytes (ISO/IEC 10589, 9.7).
#[tactic(auto, unfolding(crate::specs::Spelling::hello_bytes))]
pub fn write_hello(alloc: Global, hello: &Hello<'_>) -> Result<Vec<u8>, NoMemory>
    requires { CanWrite kinds.Hello hello.now.tlvs.now }
    ensures { IfOk result (λ out. out.items ≡ hello_bytes (hello_of hello.now)) }
{
    let mut out = with_header(alloc, Kind::Hello, hello.tlvs)?;
    out.push(hello.circuit_type)?;
    out.extend_from_slice(&hello.source.mac.bytes)?;
    put_u16(&mut out, hello.holding)?;
    put_length(&mut out, Kind::Hello, hello.tlvs)?;
    out.push(hello.circuit)?;
    out.extend_from_slice(hello.tlvs)?;
    Ok(out)
}

/// The bytes of an LSP, of whole TLVs and at most 1,497 bytes (ISO/IEC 10589, 9.8). Its checksum is written as it is.
pub fn write_lsp(alloc: Global, lsp: &Lsp<'_>) -> Result<Vec<u8>, NoMemory>
    requires { CanWrite kinds.Lsp lsp.now.tlvs.now }
    ensures { IfOk result (λ out. out.items ≡ lsp_bytes (lsp_of lsp.now)) }
{
    let mut out = Vec::with_capacity(alloc, lsp_length(lsp))?;
    append_lsp(&mut out, lsp)?;
    Ok(out)
}

/// How many bytes an LSP has that can be written, at most 1,497.
pub fn lsp_length(lsp: &Lsp<'_>) -> usize
    requires { CanWrite kinds.Lsp lsp.now.tlvs.now }
    ensures length { result ≡ fixed_length kinds.Lsp + length lsp.now.tlvs.now }
    ensures short { result ≤ 1497 }
{
    usize::from(Kind::Lsp.fixed_length()) + lsp.tlvs.len()
}

/// All of an LSP of `len` bytes that stands before its TLVs.
fn lsp_head(id: LspId, len: u16, lifetime: u16, seq: u32, sum: u16, flags: u8) -> [u8; 27]
    ensures { result ≡ spelling.common_header zeros kinds.Lsp
        ++ u16_bytes len
        ++ u16_bytes lifetime
        ++ lsp_id_bytes id
        ++ u32_bytes seq
        ++ u16_bytes sum
        ++ flags ∷ [] }
{
    let [a, b, c, d, e, f] = id.system.mac.bytes;
    [
        0x83,
        27,
        1,
        0,
        18,
        1,
        0,
        0,
        (len / 256) as u8,
        (len % 256) as u8,
        (lifetime / 256) as u8,
        (lifetime % 256) as u8,
        a,
        b,
        c,
        d,
        e,
        f,
        id.pseudonode,
        id.number,
        (seq / 16_777_216) as u8,
        (seq / 65_536 % 256) as u8,
        (seq / 256 % 256) as u8,
        (seq % 256) as u8,
        (sum / 256) as u8,
        (sum % 256) as u8,
        flags,
    ]
}

/// Writes an LSP behind other bytes, as [`write_lsp`] does alone. Where the vector has room for it, as
/// [`lsp_length`] says, no memory is taken.
#[tactic(auto, unfolding(crate::specs::Spelling::lsp_bytes))]
pub fn append_lsp(out: &mut Vec<u8>, lsp: &Lsp<'_>) -> Result<(), NoMemory>
    requires { CanWrite kinds.Lsp lsp.now.tlvs.now }
    ensures { OnOk result (out.new.items ≡ out.old.items ++ lsp_bytes (lsp_of lsp.now)) }
{
    let len = lsp_length(lsp) as u16;
    let head = lsp_head(lsp.id, len, lsp.lifetime, lsp.seq, lsp.sum, lsp.flags);
    out.extend_from_slice(&head)?;
    out.extend_from_slice(lsp.tlvs)?;
    Ok(())
}

/// The bytes of a CSNP, of whole TLVs and at most 1,497 bytes (ISO/IEC 10589, 9.10).
#[tactic(auto, unfolding(crate::specs::Spelling::csnp_bytes))]
pub fn write_csnp(alloc: Global, csnp: &Csnp<'_>) -> Result<Vec<u8>, NoMemory>
    requires { CanWrite kinds.Csnp csnp.now.tlvs.now }
    ensures { IfOk result (λ out. out.items ≡ csnp_bytes (csnp_of csnp.now)) }
{
    let mut out = with_header(alloc, Kind::Csnp, csnp.tlvs)?;
    put_length(&mut out, Kind::Csnp, csnp.tlvs)?;
    put_source(&mut out, &csnp.source)?;
    put_lsp_id(&mut out, &csnp.start)?;
    put_lsp_id(&mut out, &csnp.end)?;
    out.extend_from_slice(csnp.tlvs)?;
    Ok(out)
}

/// The bytes of a PSNP, of whole TLVs and at most 1,497 bytes (ISO/IEC 10589, 9.12).
#[tactic(auto, unfolding(crate::specs::Spelling::psnp_bytes))]
pub fn write_psnp(alloc: Global, psnp: &Psnp<'_>) -> Result<Vec<u8>, NoMemory>
    requires { CanWrite kinds.Psnp psnp.now.tlvs.now }
    ensures { IfOk result (λ out. out.items ≡ psnp_bytes (psnp_of psnp.now)) }
{
    let len = usize::from(Kind::Psnp.fixed_length()) + psnp.tlvs.len();
    let mut out = Vec::with_capacity(alloc, len)?;
    append_psnp_head(&mut out, &psnp.source, psnp.tlvs.len())?;
    out.extend_from_slice(psnp.tlvs)?;
    Ok(out)
}

/// All of a PSNP of `len` bytes that stands before its TLVs.
fn psnp_head(source: SystemId, len: u16) -> [u8; 17]
    ensures { result ≡ spelling.common_header zeros kinds.Psnp ++ u16_bytes len ++ source_bytes zeros source }
{
    let [a, b, c, d, e, f] = source.mac.bytes;
    [
        0x83,
        17,
        1,
        0,
        26,
        1,
        0,
        0,
        (len / 256) as u8,
        (len % 256) as u8,
        a,
        b,
        c,
        d,
        e,
        f,
        0,
    ]
}

/// Writes all of a PSNP that stands before its TLVs, behind other bytes (ISO/IEC 10589, 9.12). Its TLVs, of `tlvs_len`
/// bytes in all, are written behind it; the PDU has at most 1,497 bytes. Where the vector has room for 17 bytes, no
/// memory is taken.
pub fn append_psnp_head(
    out: &mut Vec<u8>,
    source: &SystemId,
    tlvs_len: usize,
) -> Result<(), NoMemory>
    requires { fixed_length kinds.Psnp + tlvs_len ≤ 1497 }
    ensures { OnOk result ((tlvs : List ℕ) → length tlvs ≡ tlvs_len
        → out.new.items ++ tlvs ≡ out.old.items ++ psnp_bytes (record { source = source.now; tlvs = tlvs })) }
{
    let len = usize::from(Kind::Psnp.fixed_length()) + tlvs_len;
    out.extend_from_slice(&psnp_head(*source, len as u16))?;
    Ok(())
}
