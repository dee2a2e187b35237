//! Following entries from bridge to bridge, back to the source.
ghost use Rattle.std.specs.Prelude.{◌≡◌, ◌<◌, length, reverse, IfOk, position};
ghost use Rattle.spb_types.specs.Graph.{IsValid};
ghost use Rattle.ect_trees.specs.Arcs.{AreReady, IsBridgeAt};
ghost use Rattle.what_if.specs.Failing.{is_start};
ghost use Rattle.what_if.specs.Labels as label;

use crate::entry::Entry;
use ect_trees::{Arc, Label, Mesh, Roads};
use spb_types::{NoMemory, Path, Seq, SystemId};
use std::alloc::Global;

/// The bridge at a place.
pub(crate) fn system_at(mesh: &Mesh, place: usize) -> SystemId
    requires { place < length mesh.now.graph.bridges }
    ensures { IsBridgeAt mesh.now.graph place result }
{
    mesh.graph.bridges.as_slice()[place].id.system
}

/// The arc to a place from a neighbour of the bridge there, if this system is a neighbour.
fn arc_from(mesh: &Mesh, place: usize, neighbour: SystemId) -> Option<Arc>
    requires ready { AreReady mesh.now }
    requires within { place < length mesh.now.graph.bridges }
    ensures { label.IsArcFrom mesh.now.graph place neighbour result }
{
    for arc in &mesh.arcs[place] {
        if system_at(mesh, arc.to).is(neighbour) {
            return Some(Arc {
                from: arc.to,
                to: place,
                cost: arc.cost,
            });
        }
    }
    None
}

/// The arc to a place from the neighbour that the entry there names, if it names one.
fn step_to(mesh: &Mesh, entries: &[Entry], place: usize) -> Option<Arc>
    requires ready { AreReady mesh.now }
    requires long { length entries.now ≡ length mesh.now.graph.bridges }
    requires within { place < length mesh.now.graph.bridges }
    ensures { label.IsStepTo mesh.now.graph entries.now place result }
{
    match entries[place] {
        Entry::Start => None,
        Entry::Before(neighbour) => arc_from(mesh, place, neighbour),
        Entry::Unreached => None,
    }
}

/// The label of a way whose bridges were met from its end on, with its cost.
fn label_of(cost: u64, mut bridges: Vec<SystemId>) -> Label
    ensures cost { result.cost ≡ cost }
    ensures bridges { result.bridges.items ≡ reverse bridges.items }
{
    bridges.as_mut_slice().reverse();
    Label::new(cost, bridges)
}

/// The way to the bridge at a place, if following the entries from there leads to the source, in at most as many steps
/// as there are bridges.
fn way_to(
    alloc: Global,
    mesh: &Mesh,
    entries: &[Entry],
    source: SystemId,
    place: usize,
) -> Result<Option<Label>, NoMemory>
    requires ready { AreReady mesh.now }
    requires long { length entries.now ≡ length mesh.now.graph.bridges }
    requires within { place < length mesh.now.graph.bridges }
    ensures { IfOk result (label.IsWayTo mesh.now.graph entries.now source place) }
{
    let mut bridges = Vec::new(alloc);
    let mut cost = 0u64;
    let mut here = place;
    let mut system = system_at(mesh, here);
    let mut left = entries.len();
    while left > 0 && !system.is(source) {
        let Some(arc) = step_to(mesh, entries, here) else {
            return Ok(None);
        };
        bridges.push(system)?;
        cost += u64::from(arc.cost);
        here = arc.from;
        system = system_at(mesh, here);
        left -= 1;
    }
    if !system.is(source) {
        return Ok(None);
    }
    bridges.push(system)?;
    Ok(Some(label_of(cost, bridges)))
}

/// The way to each bridge, at its place, if there is one.
pub(crate) fn ways(
    alloc: Global,
    mesh: &Mesh,
    entries: &[Entry],
    source: SystemId,
) -> Result<Vec<Option<Label>>, NoMemory>
    requires ready { AreReady mesh.now }
    requires long { length entries.now ≡ length mesh.now.graph.bridges }
    ensures { IfOk result (λ labels. label.AreWays mesh.now.graph entries.now source labels.items) }
{
    let mut labels = Vec::with_capacity(alloc, entries.len())?;
    for place in 0..entries.len() {
        labels.push(way_to(alloc, mesh, entries, source, place)?)?;
    }
    Ok(labels)
}

/// The place of the first entry that is the source's.
fn start_of(entries: &[Entry]) -> Option<usize>
    ensures { result ≡ position is_start entries.now }
{
    entries.iter().position(|entry| entry.is_start())
}

/// The path from the source to a bridge that is read off entries which no bridge fails, with its cost: the best path
/// (IEEE 802.1aq, 28.5 to 28.8). It takes a step for each hop, and nothing is searched.
pub fn along(
    alloc: Global,
    roads: &Roads,
    entries: &[Entry],
    to: SystemId,
) -> Result<Option<Path>, NoMemory>
    requires valid { IsValid roads.now }
    requires long { length entries.now ≡ length roads.now.bridges }
    ensures { IfOk result (label.IsPathBy roads.now entries.now to) }
{
    let Some(start) = start_of(entries) else {
        return Ok(None);
    };
    let Some(place) = roads.place_of(to) else {
        return Ok(None);
    };
    let mesh = roads.mesh();
    let source = system_at(mesh, start);
    match way_to(alloc, mesh, entries, source, place)? {
        None => Ok(None),
        Some(way) => Ok(Some(Path {
            cost: way.cost,
            bridges: Seq::from_vec(way.bridges),
        })),
    }
}
