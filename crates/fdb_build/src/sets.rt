//! The ports of a bridge behind it on the best paths from a source.
ghost use Rattle.std.specs.Prelude.{◌≡◌, ◌≤◌, ◌<◌, ◌^◌, ℕ, length, Some, None, OnOk, IfOk};
ghost use Rattle.std.specs.List.{slice_index_or, slice_set};
ghost use Rattle.spb_types.specs.Ect.{mask_of};
ghost use Rattle.spb_types.specs.Ports.{has};
ghost use Rattle.fdb_build.specs.Making as making;
ghost use Rattle.fdb_build.specs.Surroundings.{AreKnown};

use crate::searches::Searches;
use crate::surroundings::Surroundings;
use spb_types::limits::GREATEST_ECT;
use spb_types::{NoMemory, PortSet, VidPlan, ect_mask};
use std::alloc::Global;

/// What was asked for last at a place: the ports of a bridge `me` behind it on the best path from the source, a place
/// too, under an ECT algorithm, as a set.
#[derive(Clone, Copy)]
pub struct Found {
    pub source: usize,
    pub ect: u8,
    pub ports: PortSet,
}

/// The ports of either set.
#[inline(always)]
pub fn union(a: PortSet, b: PortSet) -> PortSet
    ensures value { result ≡ making.union a b }
    ensures small { result.bits < 2 ^ 32 }
{
    PortSet {
        bits: a.bits | b.bits,
    }
}

/// The port of `me` towards the bridge at a place, as a set; the empty one where no edge joins them.
fn set_towards(around: &Surroundings<'_>, place: usize) -> PortSet
    requires { AreKnown around.now }
    ensures { result ≡ making.port_set (slice_index_or around.now.ports.items place None) }
{
    match around.port_at(place) {
        None => PortSet::none(),
        Some(port) => PortSet::none().with(port as u8),
    }
}

/// The port of `me` behind it on the best path from the bridge at one place to that at another, as a set; the empty one
/// where that path doesn't go on from `me`.
fn set_behind<S: Searches>(
    alloc: Global,
    around: &Surroundings<'_>,
    searches: S,
    plan: VidPlan,
    source: usize,
    to: usize,
) -> Result<PortSet, NoMemory>
    requires known { AreKnown around.now }
    requires low { 1 ≤ plan.ect }
    requires high { plan.ect ≤ GREATEST_ECT }
    requires can { S.can searches around.now.roads.now (mask_of plan.ect) }
    requires within { source < length around.now.roads.now.bridges }
    ensures { IfOk result (λ set. set ≡ making.set_at (making.sets_from around.now.roads.now around.now.me plan
        (making.source_at around.now.roads.now source).id.system) to) }
{
    if to >= around.ports.len() {
        return Ok(PortSet::none());
    }
    let mask = ect_mask(plan.ect);
    let next = searches.follower(alloc, around.roads, source, mask, around.place, to)?;
    Ok(set_towards(around, next))
}

/// Room for what is found at each place of a graph; none where it has no members, since nothing is asked for then.
pub fn nothing_found(
    alloc: Global,
    around: &Surroundings<'_>,
) -> Result<Vec<Option<Found>>, NoMemory>
    ensures { IfOk result (λ found. making.AreFound around.now.roads.now around.now.me found.items) }
{
    let graph = around.roads.graph();
    let places = if graph.members.is_empty() {
        0
    } else {
        graph.bridges.len()
    };
    let mut found = Vec::with_capacity(alloc, places)?;
    for _place in 0..places {
        found.push(None)?;
    }
    Ok(found)
}

/// What was found last at a place.
#[inline(always)]
fn found_at(found: &Vec<Option<Found>>, place: usize) -> Option<Found>
    ensures { result ≡ slice_index_or found.now.items place None }
{
    if place < found.len() {
        found[place]
    } else {
        None
    }
}

/// The set, if it was found for this source under this plan.
#[inline(always)]
fn found_for(last: Option<Found>, plan: VidPlan, source: usize) -> Option<PortSet>
    ensures { result ≡ making.found_for plan source last }
{
    match last {
        None => None,
        Some(last) => {
            if last.source == source && last.ect == plan.ect {
                Some(last.ports)
            } else {
                None
            }
        }
    }
}

/// Keeps what was found at a place, if there is room for it.
#[inline(always)]
fn keep(found: &mut Vec<Option<Found>>, place: usize, last: Found)
    ensures { found.new.items ≡ slice_set found.old.items place (Some last) }
{
    if place < found.len() {
        found[place] = Some(last);
    }
}

/// The set that [`set_behind`] gives, asked for only if it isn't what was found last at that place. The way from the source
/// to itself goes on from nowhere.
fn set_once<S: Searches>(
    alloc: Global,
    found: &mut Vec<Option<Found>>,
    around: &Surroundings<'_>,
    searches: S,
    plan: VidPlan,
    source: usize,
    to: usize,
) -> Result<PortSet, NoMemory>
    requires found { making.AreFound around.now.roads.now around.now.me found.old.items }
    requires known { AreKnown around.now }
    requires low { 1 ≤ plan.ect }
    requires high { plan.ect ≤ GREATEST_ECT }
    requires can { S.can searches around.now.roads.now (mask_of plan.ect) }
    requires within { source < length around.now.roads.now.bridges }
    ensures set { IfOk result (λ set. set ≡ making.set_at (making.sets_from around.now.roads.now around.now.me plan
        (making.source_at around.now.roads.now source).id.system) to) }
    ensures found { OnOk result (making.AreFound around.now.roads.now around.now.me found.new.items) }
{
    if to == source {
        return Ok(PortSet::none());
    }
    if let Some(set) = found_for(found_at(found, to), plan, source) {
        return Ok(set);
    }
    let ports = set_behind(alloc, around, searches, plan, source, to)?;
    let ect = plan.ect;
    keep(found, to, Found { source, ect, ports });
    Ok(ports)
}

/// The ports of `me` behind it on the best paths from the bridge at a place to those at others.
pub fn ports_behind<S: Searches>(
    alloc: Global,
    found: &mut Vec<Option<Found>>,
    around: &Surroundings<'_>,
    searches: S,
    plan: VidPlan,
    source: usize,
    places: &[usize],
) -> Result<PortSet, NoMemory>
    requires found { making.AreFound around.now.roads.now around.now.me found.old.items }
    requires known { AreKnown around.now }
    requires low { 1 ≤ plan.ect }
    requires high { plan.ect ≤ GREATEST_ECT }
    requires can { S.can searches around.now.roads.now (mask_of plan.ect) }
    requires within { source < length around.now.roads.now.bridges }
    ensures ports { IfOk result (λ ports. (p : ℕ) → has ports p ≡ making.is_towards (making.sets_from
        around.now.roads.now around.now.me plan (making.source_at around.now.roads.now source).id.system) places.now p) }
    ensures found { OnOk result (making.AreFound around.now.roads.now around.now.me found.new.items) }
{
    let mut ports = PortSet::none();
    for place in places {
        let more = set_once(alloc, found, around, searches, plan, source, *place)?;
        ports = union(ports, more);
    }
    Ok(ports)
}
