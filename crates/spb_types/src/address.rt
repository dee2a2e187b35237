//! Addresses and ids: of systems, bridges, LSPs and groups.
ghost use Rattle.std.specs.Prelude.{◌≡◌, ◌==◌, ◌%◌, slice_index};
ghost use Rattle.spb_types.specs.Address.{same_system, system_number, group_address, HasSixBytes};

use crate::{Isid, SourceId};

/// A MAC address: six bytes, as they stand in a frame (IEEE 802).
#[derive(Clone, Copy, Debug, PartialEq, Eq, PartialOrd, Ord, Hash)]
pub struct Mac {
    pub bytes: [u8; 6],
}

impl Mac {
    /// Whether this is a group address: the lowest bit of its first byte is set (IEEE 802, the I/G bit).
    pub fn is_group(&self) -> bool
        ensures { result ≡ (slice_index self.now.bytes 0 % 2 == 1) }
    {
        self.bytes[0] % 2 == 1
    }
}

/// The group address of a source and an I-SID, to which the source sends that service's flooded frames: the low 20 bits
/// of the source, its top 4 bits before a nibble 3, and the low 24 bits of the I-SID (IEEE 802.1aq, 27.15).
pub fn group_address(source: SourceId, isid: Isid) -> Mac
    ensures { result ≡ group_address source.value isid.value }
{
    let (s, i) = (source.value, isid.value);
    Mac {
        bytes: [
            (s / 0x1_0000 % 16 * 16 + 3) as u8,
            (s / 0x100 % 0x100) as u8,
            (s % 0x100) as u8,
            (i / 0x1_0000 % 0x100) as u8,
            (i / 0x100 % 0x100) as u8,
            (i % 0x100) as u8,
        ],
    }
}

/// An IS-IS system id, which is also the bridge's backbone MAC address (ISO/IEC 10589, 7.1; IEEE 802.1aq, 28.2).
///
/// A bridge's own has the group bit clear and isn't all zero.
#[derive(Clone, Copy, Debug, PartialEq, Eq, PartialOrd, Ord, Hash)]
pub struct SystemId {
    pub mac: Mac,
}

impl SystemId {
    /// Whether both are the same system, which `==` tells too: the six bytes are compared as one number.
    #[tactic(auto, using(crate::proofs::SystemNumbers::same_numbers))]
    pub fn is(self, other: SystemId) -> bool
        ensures { result ≡ same_system self other }
    {
        self.number() == other.number()
    }

    /// The six bytes as a number, the first one the greatest.
    #[tactic(auto, unfolding(crate::specs::Address::system_number))]
    pub fn number(self) -> u64
        ensures number { result ≡ system_number self }
        ensures bytes { HasSixBytes self }
    {
        let [a, b, c, d, e, f] = self.mac.bytes;
        u64::from_be_bytes([0, 0, a, b, c, d, e, f])
    }
}

/// A bridge id: the priority, 0 to 65,535, and then the system id (IEEE 802.1aq, 28.5).
#[derive(Clone, Copy, Debug, PartialEq, Eq, PartialOrd, Ord)]
pub struct BridgeId {
    pub priority: u16,
    pub system: SystemId,
}

/// The id of an LSP: the system, its pseudonode and the number of the fragment (ISO/IEC 10589, 9.8).
///
/// A bridge originates the one whose last two bytes are 0. Ids are ordered as the eight bytes.
#[derive(Clone, Copy, Debug, PartialEq, Eq, PartialOrd, Ord, Hash)]
pub struct LspId {
    pub system: SystemId,
    pub pseudonode: u8,
    pub number: u8,
}
