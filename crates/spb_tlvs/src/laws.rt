//! The laws of TLVs: what is written is read, what is read is written to the same bytes, and the codes are those of the
//! standards. Each is the contract of a function that does nothing.
ghost use Rattle.std.specs.Prelude.{◌≡◌};
ghost use Rattle.spb_tlvs.specs.RoundTrip as law;
ghost use Rattle.spb_tlvs.specs.declared.codes.TheConstants.{AREA_ADDRESSES, EXTENDED_IS_REACHABILITY, LSP_ENTRIES, MT_CAPABILITY, PROTOCOLS_SUPPORTED, THREE_WAY_ADJACENCY};

/// A TLV 240 that was written is read as what was written.
pub fn three_way_again()
    ensures { law.ThreeWayAgain }
{}

/// A TLV 9 that was written is read as what was written.
pub fn entries_again()
    ensures { law.EntriesAgain }
{}

/// A TLV 22 that was written is read as what was written.
pub fn neighbours_again()
    ensures { law.NeighboursAgain }
{}

/// A TLV 144 that was written is read as what was written.
pub fn capability_again()
    ensures { law.CapabilityAgain }
{}

/// What is read of a TLV 240 is written to the same bytes.
pub fn three_way_same()
    ensures { law.ThreeWaySame }
{}

/// What is read of a TLV 9 is written to the same bytes.
pub fn entries_same()
    ensures { law.EntriesSame }
{}

/// What is read of a TLV 22 that was written is written to the same bytes.
pub fn neighbours_same()
    ensures { law.NeighboursSame }
{}

/// What is read of a TLV 144 that was written is written to the same bytes.
pub fn capability_same()
    ensures { law.CapabilitySame }
{}

/// Where a TLV stands among others it is found by its code, in order.
pub fn tlvs_in_order()
    ensures here { law.TlvHere }
    ensures elsewhere { law.TlvElsewhere }
    ensures join { law.TlvsJoin }
    ensures whole { law.TlvIsWhole }
{}

/// The codes of TLVs are 1 (Area Addresses), 9 (LSP Entries), 22 (Extended IS Reachability), 129 (Protocols Supported),
/// 144 (MT-Capability) and 240 (Point-to-Point Three-Way Adjacency) (ISO/IEC 10589, 9.7 to 9.12; RFC 1195, 5.3; RFC
/// 5303, 3; RFC 5305, 3; RFC 6329, 14). Definitions above `spb_tlvs` name these constants.
pub fn codes_are_these()
    ensures area_addresses { AREA_ADDRESSES ≡ 1 }
    ensures lsp_entries { LSP_ENTRIES ≡ 9 }
    ensures extended_is_reachability { EXTENDED_IS_REACHABILITY ≡ 22 }
    ensures protocols_supported { PROTOCOLS_SUPPORTED ≡ 129 }
    ensures mt_capability { MT_CAPABILITY ≡ 144 }
    ensures three_way_adjacency { THREE_WAY_ADJACENCY ≡ 240 }
{}
