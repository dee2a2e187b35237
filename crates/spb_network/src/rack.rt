//! The rack of boxes that bridges are taken from.
ghost use Rattle.std.specs.Prelude.{◌≡◌, ◌<◌, true, length, map, IfSome};
ghost use Rattle.network_model.specs.State as state;
ghost use Rattle.spb_network.specs.Network.{spare, IsBlankAt};

use crate::KindRule;
use bridge_api::{Bridge, Kind};

/// The kind of box that the bridge at a place takes.
pub fn kind_at(rule: KindRule, place: usize) -> Kind
    ensures { result ≡ state.kind_at rule place }
{
    match rule {
        KindRule::Plain => Kind::Plain,
        KindRule::Swift => Kind::Swift,
        KindRule::Mixed => {
            if place % 2 == 0 {
                Kind::Plain
            } else {
                Kind::Swift
            }
        }
    }
}

fn is_same_kind(x: Kind, y: Kind) -> bool
    ensures { result ≡ state.same_kind x y }
{
    match (x, y) {
        (Kind::Plain, Kind::Plain) | (Kind::Swift, Kind::Swift) => true,
        (Kind::Plain, Kind::Swift) | (Kind::Swift, Kind::Plain) => false,
    }
}

/// Whether a box is a blank one of a kind.
fn serves<B: Bridge>(bridge: &B, wanted: Kind) -> bool
    ensures { result ≡ state.serves wanted (spare B.shown bridge.now) }
{
    bridge.is_blank() && is_same_kind(bridge.kind(), wanted)
}

/// The next blank box of a kind, by place in the rack. None exactly where none is left.
#[tactic(auto, unfolding(network_model::specs::State::next_box))]
pub fn next_box<B: Bridge>(rack: &Vec<B>, wanted: Kind) -> Option<usize>
    ensures place { result ≡ state.next_box wanted (map (spare B.shown) rack.now.items) }
    ensures within { IfSome result (λ place. place < length rack.now.items) }
    ensures blank { IfSome result (IsBlankAt B.shown rack.now.items) }
{
    for place in 0..rack.len() {
        if serves(&rack[place], wanted) {
            return Some(place);
        }
    }
    None
}
