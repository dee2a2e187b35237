//! The PDUs as values: their fields, with TLVs that lie in the bytes that were read; and why bytes are none.
use spb_types::{LspId, SystemId};
use thiserror::Error;

/// A point-to-point IS to IS hello (ISO/IEC 10589, 9.7).
#[derive(Clone, Copy, Debug, PartialEq, Eq)]
pub struct Hello<'a> {
    /// The levels that the sender speaks on this circuit: 1 is level 1 alone.
    pub circuit_type: u8,
    /// The sender.
    pub source: SystemId,
    /// How long the sender is to be held as a neighbour, in seconds.
    pub holding: u16,
    /// The local circuit id that the sender gave the circuit.
    pub circuit: u8,
    /// The TLVs, one after another, as bytes.
    pub tlvs: &'a [u8],
}

/// A level 1 link state PDU (ISO/IEC 10589, 9.8).
#[derive(Clone, Copy, Debug, PartialEq, Eq)]
pub struct Lsp<'a> {
    /// The remaining lifetime, in seconds. An LSP with 0 is dead.
    pub lifetime: u16,
    /// The LSP id: the system that the LSP is of, the pseudonode, and the number of the fragment.
    pub id: LspId,
    /// The sequence number.
    pub seq: u32,
    /// The checksum field: its two check bytes, the first one times 256.
    pub sum: u16,
    /// The octet of P, ATT, LSPDBOL and IS type.
    pub flags: u8,
    /// The TLVs, one after another, as bytes.
    pub tlvs: &'a [u8],
}

/// A level 1 complete sequence numbers PDU (ISO/IEC 10589, 9.10).
#[derive(Clone, Copy, Debug, PartialEq, Eq)]
pub struct Csnp<'a> {
    /// The sender.
    pub source: SystemId,
    /// The first LSP id of the range that it speaks of.
    pub start: LspId,
    /// The last LSP id of that range.
    pub end: LspId,
    /// The TLVs, one after another, as bytes.
    pub tlvs: &'a [u8],
}

/// A level 1 partial sequence numbers PDU (ISO/IEC 10589, 9.12).
#[derive(Clone, Copy, Debug, PartialEq, Eq)]
pub struct Psnp<'a> {
    /// The sender.
    pub source: SystemId,
    /// The TLVs, one after another, as bytes.
    pub tlvs: &'a [u8],
}

/// A PDU that was read. Its TLVs lie in the bytes that it was read from.
#[derive(Clone, Copy, Debug, PartialEq, Eq)]
pub enum Pdu<'a> {
    /// A hello of a point-to-point circuit.
    Hello(Hello<'a>),
    /// A link state PDU.
    Lsp(Lsp<'a>),
    /// A complete sequence numbers PDU.
    Csnp(Csnp<'a>),
    /// A partial sequence numbers PDU.
    Psnp(Psnp<'a>),
}

/// Why bytes are no PDU: the first of these rules, in this order, that they break.
#[derive(Clone, Copy, Debug, PartialEq, Eq, Error)]
pub enum PduError {
    /// There are fewer than 8 bytes.
    #[error("fewer bytes than the common header")]
    Short,
    /// The discriminator, a version, the id length or the number of areas isn't one that is read.
    #[error("no IS-IS PDU")]
    NotIsis,
    /// The type isn't one of the four that are read, or the header length isn't that of the type.
    #[error("an unknown type or a wrong header length")]
    Kind,
    /// There are fewer bytes than the header, or the PDU length is less than the header or more than the bytes.
    #[error("a wrong PDU length")]
    Length,
    /// The TLVs don't end exactly at the PDU length.
    #[error("a TLV passes the end")]
    TlvCut,
    /// A live LSP has the checksum 0, or one that doesn't hold.
    #[error("a wrong checksum")]
    Sum,
}
