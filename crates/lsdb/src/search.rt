//! Where an id stands among LSPs in order of id.
ghost use Rattle.std.specs.Prelude.{◌≡◌, IfOk, IfErr};
ghost use Rattle.lsdb.specs.Ids.{id_number, HasEightBytes};
ghost use Rattle.lsdb.specs.Place.{AreSorted, IsAt, IsGap};

use crate::Held;
use spb_types::LspId;

/// The eight bytes of an id as one number, the first byte the greatest.
#[tactic(auto, unfolding(crate::specs::Ids::id_number))]
fn number_of(id: LspId) -> u64
    ensures number { result ≡ id_number id }
    ensures bytes { HasEightBytes id }
{
    let [a, b, c, d, e, f] = id.system.mac.bytes;
    u64::from_be_bytes([a, b, c, d, e, f, id.pseudonode, id.number])
}

/// Where the id stands, or where it would go, by binary search.
pub fn place_of(held: &[Held], id: &LspId) -> Result<usize, usize>
    requires { AreSorted held.now }
    ensures found { IfOk result (IsAt held.now id.now) }
    ensures absent { IfErr result (IsGap held.now id.now) }
{
    let wanted = number_of(*id);
    let mut low = 0;
    let mut high = held.len();
    while low < high {
        let middle = low + (high - low) / 2;
        let number = number_of(held[middle].id);
        if number < wanted {
            low = middle + 1;
        } else if number > wanted {
            high = middle;
        } else {
            return Ok(middle);
        }
    }
    Err(low)
}

/// Where the id stands, or where it would go. It is looked for at the place `near` first.
pub fn place_near(held: &[Held], near: usize, id: &LspId) -> Result<usize, usize>
    requires { AreSorted held.now }
    ensures found { IfOk result (IsAt held.now id.now) }
    ensures absent { IfErr result (IsGap held.now id.now) }
{
    if near < held.len() {
        if number_of(held[near].id) == number_of(*id) {
            return Ok(near);
        }
    }
    place_of(held, id)
}
