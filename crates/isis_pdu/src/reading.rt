//! Bytes read as a PDU, or the first rule that they break.
ghost use Rattle.std.specs.Prelude.{◌≡◌, ◌+◌, ◌≤◌, length, IsTrue, IfOk, Some};
ghost use Rattle.isis_pdu.specs.Header.{fixed_length, length_place};
ghost use Rattle.isis_pdu.specs.Grammar.{IsReadFrom, IsCanonical};
ghost use Rattle.isis_pdu.specs.Pdu.{pdu_of};
ghost use Rattle.isis_pdu.specs.Spelling.{pdu_bytes};
ghost use Rattle.isis_pdu.specs.Reading as layout;
ghost use Rattle.isis_pdu.specs.Reading.{pdu_length, tlvs_of_pdu, value_in, read_as, read, answer_of};

use crate::checksum::check_ok;
use crate::kind::Kind;
use crate::pdu::{Csnp, Hello, Lsp, Pdu, PduError, Psnp};
use crate::tlvs::are_whole;
use spb_types::{lsp_id_in, system_in, u16_in, u32_in};

/// Whether the common header is that of an IS-IS PDU, whatever its type.
fn is_isis(bytes: &[u8]) -> bool
    requires { 8 ≤ length bytes.now }
    ensures { result ≡ layout.is_isis bytes.now }
{
    bytes[0] == 0x83
        && bytes[2] == 1
        && (bytes[3] == 0 || bytes[3] == 6)
        && bytes[5] == 1
        && (bytes[7] == 0 || bytes[7] == 3)
}

/// Whether the bytes have the whole fixed part, and the PDU ends behind it and within the bytes.
fn has_length(kind: Kind, bytes: &[u8]) -> bool
    ensures { result ≡ layout.has_length kind bytes.now }
{
    let fixed = usize::from(kind.fixed_length());
    if bytes.len() < fixed {
        return false;
    }
    let len = usize::from(u16_in(bytes, kind.length_place()));
    fixed <= len && len <= bytes.len()
}

/// Whether an LSP's checksum need not hold, or isn't 0 and holds. Other PDUs have none.
fn has_sum(kind: Kind, bytes: &[u8]) -> bool
    requires { IsTrue (layout.has_length kind bytes.now) }
    ensures { result ≡ layout.has_sum kind bytes.now }
{
    match kind {
        Kind::Lsp => {
            let len = usize::from(u16_in(bytes, 8));
            u16_in(bytes, 10) == 0
                || u32_in(bytes, 20) == 0
                || (u16_in(bytes, 24) >= 1 && check_ok(&bytes[12..len]))
        }
        Kind::Hello | Kind::Csnp | Kind::Psnp => true,
    }
}

/// The fields of a PDU whose TLVs these are.
#[tactic(auto, unfolding(crate::specs::Reading::value_in))]
fn value<'a>(kind: Kind, bytes: &'a [u8], tlvs: &'a [u8]) -> Pdu<'a>
    requires long { fixed_length kind ≤ length bytes.now }
    requires tlvs { tlvs.now ≡ tlvs_of_pdu kind bytes.now }
    ensures { pdu_of result ≡ value_in kind bytes.now }
{
    match kind {
        Kind::Hello => Pdu::Hello(Hello {
            circuit_type: bytes[8],
            source: system_in(bytes, 9),
            holding: u16_in(bytes, 15),
            circuit: bytes[19],
            tlvs,
        }),
        Kind::Lsp => Pdu::Lsp(Lsp {
            lifetime: u16_in(bytes, 10),
            id: lsp_id_in(bytes, 12),
            seq: u32_in(bytes, 20),
            sum: u16_in(bytes, 24),
            flags: bytes[26],
            tlvs,
        }),
        Kind::Csnp => Pdu::Csnp(Csnp {
            source: system_in(bytes, 10),
            start: lsp_id_in(bytes, 17),
            end: lsp_id_in(bytes, 25),
            tlvs,
        }),
        Kind::Psnp => Pdu::Psnp(Psnp {
            source: system_in(bytes, 10),
            tlvs,
        }),
    }
}

/// The PDU of this type, or the first rule that the bytes break. It's inlined, so that the places and lengths are
/// constants for each type.
#[inline(always)]
#[tactic(auto, unfolding(crate::specs::Reading::read_as))]
fn decode_as(kind: Kind, bytes: &[u8]) -> Result<Pdu<'_>, PduError>
    requires { 8 ≤ length bytes.now }
    ensures { answer_of result ≡ read_as (Some kind) bytes.now }
{
    let fixed = kind.fixed_length();
    if bytes[1] != fixed {
        return Err(PduError::Kind);
    }
    if !has_length(kind, bytes) {
        return Err(PduError::Length);
    }
    let len = usize::from(u16_in(bytes, kind.length_place()));
    let tlvs = &bytes[usize::from(fixed)..len];
    if !are_whole(tlvs) {
        return Err(PduError::TlvCut);
    }
    if !has_sum(kind, bytes) {
        return Err(PduError::Sum);
    }
    Ok(value(kind, bytes, tlvs))
}

/// The same, with a branch for each type, which is compiled with places and lengths of its own.
#[inline(always)]
fn decode_by_kind(kind: Kind, bytes: &[u8]) -> Result<Pdu<'_>, PduError>
    requires { 8 ≤ length bytes.now }
    ensures { answer_of result ≡ read_as (Some kind) bytes.now }
{
    match kind {
        Kind::Hello => decode_as(Kind::Hello, bytes),
        Kind::Lsp => decode_as(Kind::Lsp, bytes),
        Kind::Csnp => decode_as(Kind::Csnp, bytes),
        Kind::Psnp => decode_as(Kind::Psnp, bytes),
    }
}

#[tactic(auto, unfolding(crate::specs::Reading::read, crate::specs::Reading::read_as))]
fn first_pdu(bytes: &[u8]) -> Result<Pdu<'_>, PduError>
    ensures { answer_of result ≡ read bytes.now }
{
    if bytes.len() < 8 {
        return Err(PduError::Short);
    }
    if !is_isis(bytes) {
        return Err(PduError::NotIsis);
    }
    match Kind::of_number(bytes[4] % 32) {
        Some(kind) => decode_by_kind(kind, bytes),
        None => Err(PduError::Kind),
    }
}

/// The PDU that the bytes begin with, up to its PDU length. Bytes after that are ignored.
///
/// A refusal names the first rule that the bytes break, in the order of [`PduError`].
pub fn decode(bytes: &[u8]) -> Result<Pdu<'_>, PduError>
    ensures exact { answer_of result ≡ read bytes.now }
    // What is read is a PDU, and is spelled in the bytes but for what is ignored.
    ensures spelled { IfOk result (λ pdu. IsReadFrom bytes.now (pdu_of pdu)) }
    // Bytes that are as a writer makes them are written again.
    ensures again { IfOk result (λ pdu. IsCanonical bytes.now (pdu_of pdu) → pdu_bytes (pdu_of pdu) ≡ bytes.now) }
{
    first_pdu(bytes)
}
