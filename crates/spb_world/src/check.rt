//! The tests by which declarations are refused, each by itself.
ghost use Rattle.std.specs.Prelude.{◌≡◌, ◌&&◌, ◌||◌, ◌==◌, ℕ, false, length};
ghost use Rattle.std.specs.List.{list_any};
ghost use Rattle.spb_world.specs.Declaring as declare;
ghost use Rattle.spb_world.specs.Services as service;
ghost use Rattle.spb_world.specs.World as state;

use crate::{DeclaredBridge, DeclaredLink};
use indexmap::IndexMap;
use spb_types::limits::{
    GREATEST_ECT, GREATEST_ISID, GREATEST_METRIC, GREATEST_VID, MOST_PORTS, SOURCE_IDS,
};
use spb_types::{Mac, Name, SourceId, VidPlan};

/// Whether nothing of this name is declared.
#[tactic(auto, unfolding(crate::specs::Declaring::is_new_name))]
pub fn is_new_name<T>(entries: &IndexMap<Name, T>, name: Name) -> bool
    ensures { result ≡ declare.is_new_name name entries.now.entries }
{
    entries.get_index_of(&name).is_none()
}

/// Whether this is what is planned for the base VID of a number.
pub fn is_vid(plan: &VidPlan, vid: u64) -> bool
    ensures { result ≡ (plan.now.vid.value == vid) }
{
    u64::from(plan.vid.value) == vid
}

/// Whether a base VID is declared.
pub fn has_vid(vids: &[VidPlan], vid: u64) -> bool
    ensures { result ≡ declare.has_vid vids.now vid }
{
    vids.iter().any(|plan| is_vid(plan, vid))
}

/// Whether a base VID isn't declared.
pub fn is_new_vid(vids: &[VidPlan], vid: u64) -> bool
    ensures { result ≡ declare.is_new_vid vids.now vid }
{
    !has_vid(vids, vid)
}

/// Whether this is a base VID and the number of an ECT algorithm.
#[tactic(auto, unfolding(crate::specs::Declaring::is_vid_range))]
pub fn is_vid_range(vid: u64, ect: u64) -> bool
    ensures { result ≡ declare.is_vid_range vid ect }
{
    1 <= vid && vid <= u64::from(GREATEST_VID) && 1 <= ect && ect <= u64::from(GREATEST_ECT)
}

/// Whether this is an I-SID.
#[tactic(auto, unfolding(crate::specs::Services::is_isid_range))]
pub fn is_isid_range(isid: u64) -> bool
    ensures { result ≡ service.is_isid_range isid }
{
    1 <= isid && isid <= u64::from(GREATEST_ISID)
}

#[tactic(auto, unfolding(crate::specs::Declaring::is_new_system))]
fn is_new_system(bridges: &IndexMap<Name, DeclaredBridge>, system: Mac) -> bool
    ensures { result ≡ declare.is_new_system system bridges.now.entries }
{
    !bridges
        .values()
        .any(|bridge| bridge.bridge.id.system.mac == system)
}

#[tactic(auto, unfolding(crate::specs::Declaring::is_new_source))]
fn is_new_source(bridges: &IndexMap<Name, DeclaredBridge>, source: SourceId) -> bool
    ensures { result ≡ declare.is_new_source source bridges.now.entries }
{
    !bridges
        .values()
        .any(|bridge| bridge.bridge.source == source)
}

/// Whether no bridge has this system id or this source id.
pub fn is_new_id(bridges: &IndexMap<Name, DeclaredBridge>, system: Mac, source: SourceId) -> bool
    ensures { result
        ≡ (declare.is_new_system system bridges.now.entries && declare.is_new_source source bridges.now.entries) }
{
    is_new_system(bridges, system) && is_new_source(bridges, source)
}

/// Whether an address can be a bridge's own: its group bit is clear, and it isn't all zero. Six octets it always has.
fn is_bridge_address(mac: Mac) -> bool
    ensures { result ≡ declare.is_bridge_address mac }
{
    let [first, _b, _c, _d, _e, _f] = mac.bytes;
    first % 2 == 0 && mac.bytes != [0; 6]
}

/// Whether a bridge can have this priority, address, source and number of ports.
#[tactic(auto, unfolding(crate::specs::Declaring::is_bridge_range))]
pub fn is_bridge_range(priority: u64, system: Mac, source: SourceId, ports: u64) -> bool
    ensures { result ≡ declare.is_bridge_range priority system source ports }
{
    priority <= 65535
        && is_bridge_address(system)
        && source.value < SOURCE_IDS
        && ports <= u64::from(MOST_PORTS)
}

/// Whether the link ends at this port of the bridge at a place.
fn is_at_port(link: &DeclaredLink, place: usize, port: u64) -> bool
    ensures { result ≡ state.is_at_port link.now place port }
{
    (link.a.bridge == place && u64::from(link.a.port) == port)
        || (link.b.bridge == place && u64::from(link.b.port) == port)
}

/// Whether the link joins the bridges at two places, whichever of its ends is which.
fn is_between(link: &DeclaredLink, i: usize, j: usize) -> bool
    ensures { result ≡ state.is_between link.now i j }
{
    (link.a.bridge == i && link.b.bridge == j) || (link.a.bridge == j && link.b.bridge == i)
}

#[tactic(auto, unfolding(crate::specs::Declaring::is_free_port))]
fn is_free_port(links: &IndexMap<Name, DeclaredLink>, place: usize, port: u64) -> bool
    ensures { result ≡ declare.is_free_port links.now.entries place port }
{
    !links.values().any(|link| is_at_port(link, place, port))
}

/// Whether neither of two ports has a link.
fn are_free_ports(
    links: &IndexMap<Name, DeclaredLink>,
    i: usize,
    port_a: u64,
    j: usize,
    port_b: u64,
) -> bool
    ensures { result
        ≡ (declare.is_free_port links.now.entries i port_a && declare.is_free_port links.now.entries j port_b) }
{
    is_free_port(links, i, port_a) && is_free_port(links, j, port_b)
}

/// Whether no link joins the bridges at two places.
#[tactic(auto, unfolding(crate::specs::Declaring::is_unlinked))]
fn is_unlinked(links: &IndexMap<Name, DeclaredLink>, i: usize, j: usize) -> bool
    ensures { result ≡ declare.is_unlinked links.now.entries i j }
{
    !links.values().any(|link| is_between(link, i, j))
}

/// Whether the link ends at one of the bridges at two places. One that doesn't ends at no port of theirs, and doesn't
/// join them.
#[inline(always)]
fn is_at_either(link: &DeclaredLink, i: usize, j: usize) -> bool
    ensures apart { (a b : ℕ) → result ≡ false → (state.is_at_port link.now i a
        || (state.is_at_port link.now j b || state.is_between link.now i j)) ≡ false }
{
    let (a, b) = (link.a.bridge, link.b.bridge);
    a == i || b == i || a == j || b == j
}

/// Whether the link ends at one of two ports or joins their bridges. Most links end at neither bridge.
#[inline(always)]
fn is_near(link: &DeclaredLink, i: usize, port_a: u64, j: usize, port_b: u64) -> bool
    ensures { result ≡ (state.is_at_port link.now i port_a
        || (state.is_at_port link.now j port_b || state.is_between link.now i j)) }
{
    is_at_either(link, i, j)
        && (is_at_port(link, i, port_a) || (is_at_port(link, j, port_b) || is_between(link, i, j)))
}

/// Whether some link ends at one of two ports or joins their bridges.
fn is_any_near(
    links: &IndexMap<Name, DeclaredLink>,
    i: usize,
    port_a: u64,
    j: usize,
    port_b: u64,
) -> bool
    ensures { result ≡ list_any (λ l. state.is_at_port l i port_a
        || (state.is_at_port l j port_b || state.is_between l i j)) (state.things_of links.now.entries) }
{
    links
        .values()
        .any(|link| is_near(link, i, port_a, j, port_b))
}

/// Whether neither of two ports has a link, and whether no link joins their bridges. One pass tells both where that is
/// so.
pub fn are_clear(
    links: &IndexMap<Name, DeclaredLink>,
    i: usize,
    port_a: u64,
    j: usize,
    port_b: u64,
) -> (bool, bool)
    ensures free { result.0
        ≡ (declare.is_free_port links.now.entries i port_a && declare.is_free_port links.now.entries j port_b) }
    ensures unlinked { result.1 ≡ declare.is_unlinked links.now.entries i j }
{
    if is_any_near(links, i, port_a, j, port_b) {
        return (
            are_free_ports(links, i, port_a, j, port_b),
            is_unlinked(links, i, j),
        );
    }
    (true, true)
}

/// The number of ports of the bridge at a place, or 0 past the last bridge.
#[tactic(auto, using(crate::proofs::PlaceLemmas::ports_at_entry))]
pub fn ports_at(bridges: &IndexMap<Name, DeclaredBridge>, place: usize) -> u8
    ensures { result ≡ state.ports_at bridges.now.entries place }
{
    match bridges.get_index(place) {
        None => 0,
        Some((_, bridge)) => bridge.ports,
    }
}

fn is_port(bridges: &IndexMap<Name, DeclaredBridge>, place: usize, port: u64) -> bool
    ensures { result ≡ declare.is_port bridges.now.entries place port }
{
    1 <= port && port <= u64::from(ports_at(bridges, place))
}

/// Whether a link can have these ends and this cost.
#[tactic(auto, unfolding(crate::specs::Declaring::is_link_range))]
pub fn is_link_range(
    bridges: &IndexMap<Name, DeclaredBridge>,
    i: usize,
    port_a: u64,
    j: usize,
    port_b: u64,
    cost: u64,
) -> bool
    ensures { result ≡ declare.is_link_range bridges.now.entries i port_a j port_b cost }
{
    i != j
        && is_port(bridges, i, port_a)
        && is_port(bridges, j, port_b)
        && 1 <= cost
        && cost <= u64::from(GREATEST_METRIC)
}
