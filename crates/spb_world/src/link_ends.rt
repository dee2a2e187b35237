//! The ends of links, and the lanes that lead from them.
ghost use Rattle.std.specs.Prelude.{◌≡◌, slice_get};
ghost use Rattle.std.specs.Option.{option_and_then};
ghost use Rattle.spb_world.specs.World.{things_of};
ghost use Rattle.spb_world.specs.Declaring as declare;
ghost use Rattle.spb_world.specs.Links as ends;

use crate::{DeclaredLink, LinkEnd};
use indexmap::IndexMap;
use link_model::LaneId;
use scenario::{Dir, Side};
use spb_types::Name;

/// Whether this is the port of a link's end.
fn is_at(end: LinkEnd, bridge: usize, port: u8) -> bool
    ensures { result ≡ ends.is_at end bridge port }
{
    end.bridge == bridge && end.port == port
}

/// The direction in which a link leads away from a port. None exactly where it doesn't end there.
fn direction(link: &DeclaredLink, bridge: usize, port: u8) -> Option<Dir>
    ensures { result ≡ ends.direction link.now bridge port }
{
    if is_at(link.a, bridge, port) {
        Some(Dir::Ab)
    } else if is_at(link.b, bridge, port) {
        Some(Dir::Ba)
    } else {
        None
    }
}

/// The lane of a link, which stands at a place, that leads out of a port. None exactly where it doesn't end there.
pub fn lane_of_link(place: usize, link: &DeclaredLink, bridge: usize, port: u8) -> Option<LaneId>
    ensures { result ≡ ends.lane_of_link place link.now bridge port }
{
    let dir = direction(link, bridge, port)?;
    Some(LaneId { link: place, dir })
}

/// The lane of the link at a place that leads out of a port. None exactly where none does.
#[tactic(auto, using(crate::proofs::PlaceLemmas::get_things))]
fn lane_at_place(
    links: &IndexMap<Name, DeclaredLink>,
    place: usize,
    bridge: usize,
    port: u8,
) -> Option<LaneId>
    ensures { result ≡ option_and_then (λ l. ends.lane_of_link place l bridge port) (slice_get (things_of links.now.entries) place) }
{
    let (_, link) = links.get_index(place)?;
    lane_of_link(place, link, bridge, port)
}

/// The end of a link that a direction leads to.
pub fn far_end(link: DeclaredLink, dir: Dir) -> LinkEnd
    ensures { result ≡ ends.far_end dir link }
{
    match dir {
        Dir::Ab => link.b,
        Dir::Ba => link.a,
    }
}

/// The end of a link that a direction leads from.
pub fn near_end(link: DeclaredLink, dir: Dir) -> LinkEnd
    ensures { result ≡ ends.near_end dir link }
{
    match dir {
        Dir::Ab => link.a,
        Dir::Ba => link.b,
    }
}

/// The lane out of a port. None exactly where no link ends there.
#[tactic(auto, unfolding(crate::specs::Links::lane_out))]
pub fn lane_out(links: &IndexMap<Name, DeclaredLink>, bridge: usize, port: u8) -> Option<LaneId>
    ensures { result ≡ ends.lane_out (things_of links.now.entries) bridge port }
{
    for place in 0..links.len() {
        if let Some(lane) = lane_at_place(links, place, bridge, port) {
            return Some(lane);
        }
    }
    None
}

/// Whether the link at a place is up.
pub fn is_live(links: &IndexMap<Name, DeclaredLink>, place: usize) -> bool
    ensures { result ≡ ends.is_live (things_of links.now.entries) place }
{
    match links.get_index(place) {
        None => false,
        Some((_, link)) => link.live,
    }
}

/// The end of a link that its line names first, or second.
pub fn end_on(link: &DeclaredLink, side: Side) -> LinkEnd
    ensures { result ≡ declare.end_on side link.now }
{
    match side {
        Side::A => link.a,
        Side::B => link.b,
    }
}

/// The end of a link on a side gets this metric.
pub fn set_metric(link: &mut DeclaredLink, side: Side, metric: u32)
    ensures { link.new ≡ declare.link_with_metric side metric link.old }
{
    match side {
        Side::A => link.a.metric = metric,
        Side::B => link.b.metric = metric,
    }
}

/// Whether this is a link of the bridge at a place that is up.
pub fn ends_here(link: &DeclaredLink, bridge: usize) -> bool
    ensures { result ≡ ends.ends_here link.now bridge }
{
    link.live && (link.a.bridge == bridge || link.b.bridge == bridge)
}

/// The end of a link at the bridge at a place.
pub fn end_here(link: &DeclaredLink, bridge: usize) -> LinkEnd
    ensures { result ≡ ends.end_here link.now bridge }
{
    if link.a.bridge == bridge {
        link.a
    } else {
        link.b
    }
}

/// The other end.
pub fn end_away(link: &DeclaredLink, bridge: usize) -> LinkEnd
    ensures { result ≡ ends.end_away link.now bridge }
{
    if link.a.bridge == bridge {
        link.b
    } else {
        link.a
    }
}
