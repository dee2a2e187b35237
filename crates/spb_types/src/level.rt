//! The number of level 1, the one level of IS-IS that is used.

/// Level 1: as the circuit type of a hello, and as the flags octet of an LSP in which nothing but the IS type is set
/// (ISO/IEC 10589, 9.7 and 9.8).
pub const LEVEL_1: u8 = 1;
