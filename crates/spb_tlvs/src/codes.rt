//! The codes of TLVs.

/// Area Addresses (ISO/IEC 10589, 9.7 and 9.8).
pub const AREA_ADDRESSES: u8 = 1;

/// LSP Entries (ISO/IEC 10589, 9.10 and 9.12).
pub const LSP_ENTRIES: u8 = 9;

/// Extended IS Reachability (RFC 5305, 3).
pub const EXTENDED_IS_REACHABILITY: u8 = 22;

/// Protocols Supported (RFC 1195, 5.3).
pub const PROTOCOLS_SUPPORTED: u8 = 129;

/// MT-Capability (RFC 6329, 14).
pub const MT_CAPABILITY: u8 = 144;

/// Point-to-Point Three-Way Adjacency (RFC 5303, 3).
pub const THREE_WAY_ADJACENCY: u8 = 240;
