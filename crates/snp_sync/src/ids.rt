//! The first, the last and the next LSP id, by which CSNPs part their ranges.
ghost use Rattle.std.specs.Prelude.{◌≡◌};
ghost use Rattle.snp_sync.specs.Ids as ids;

use spb_types::{LspId, Mac, SystemId};

/// The least LSP id.
pub(crate) const FIRST: LspId = LspId {
    system: SystemId {
        mac: Mac { bytes: [0; 6] },
    },
    pseudonode: 0,
    number: 0,
};

/// The greatest LSP id.
pub(crate) const LAST: LspId = LspId {
    system: SystemId {
        mac: Mac { bytes: [255; 6] },
    },
    pseudonode: 255,
    number: 255,
};

/// The next LSP id, as a number of eight bytes; after the last comes the first.
#[tactic(auto, unfolding(crate::specs::Ids::successor, crate::specs::Ids::id_number))]
pub fn successor(id: LspId) -> LspId
    ensures { result ≡ ids.successor id }
{
    let [a, b, c, d, e, f] = id.system.mac.bytes;
    let number = u64::from_be_bytes([a, b, c, d, e, f, id.pseudonode, id.number]);
    let [a, b, c, d, e, f, pseudonode, number] = number.wrapping_add(1).to_be_bytes();
    LspId {
        system: SystemId {
            mac: Mac {
                bytes: [a, b, c, d, e, f],
            },
        },
        pseudonode,
        number,
    }
}
