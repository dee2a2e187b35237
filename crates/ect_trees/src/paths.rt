//! Whole paths, read back from the last step of each way.
ghost use Rattle.std.specs.Prelude.{◌≡◌, reverse, IfOk};
ghost use Rattle.spb_types.specs.Graph.{IsValid};
ghost use Rattle.ect_trees.specs.Routes.{IsPathOnWay};
ghost use Rattle.ect_trees.specs.Ways as ways;

use crate::mesh::Mesh;
use crate::ways::{Step, place_before, step_at};
use spb_types::{NoMemory, Path, Seq, SystemId};
use std::alloc::Global;

/// The bridge at a place, or the source past the last.
fn system_at(mesh: &Mesh, source: SystemId, place: usize) -> SystemId
    ensures { result ≡ ways.bridge_at mesh.now.graph source place }
{
    let bridges = mesh.graph.bridges.as_slice();
    if place < bridges.len() {
        bridges[place].id.system
    } else {
        source
    }
}

/// The bridges on the way of so many hops that ends at a place, from its end back to the source.
fn bridges_back(
    alloc: Global,
    mesh: &Mesh,
    source: SystemId,
    steps: &[Option<Step>],
    hops: usize,
    to: usize,
) -> Result<Vec<SystemId>, NoMemory>
    ensures { IfOk result (λ bridges.
        bridges.items ≡ reverse (ways.way_back mesh.now.graph source steps.now hops to)) }
{
    let mut bridges = Vec::with_capacity(alloc, hops.saturating_add(1))?;
    let mut place = to;
    let mut left = hops;
    while left > 0 {
        bridges.push(system_at(mesh, source, place))?;
        place = place_before(steps, place);
        left -= 1;
    }
    bridges.push(system_at(mesh, source, place))?;
    Ok(bridges)
}

/// The way of so many hops that ends at a place.
fn way_to(
    alloc: Global,
    mesh: &Mesh,
    source: SystemId,
    steps: &[Option<Step>],
    hops: usize,
    to: usize,
) -> Result<Vec<SystemId>, NoMemory>
    ensures { IfOk result (λ way. way.items ≡ ways.way_back mesh.now.graph source steps.now hops to) }
{
    let mut bridges = bridges_back(alloc, mesh, source, steps, hops, to)?;
    bridges.as_mut_slice().reverse();
    Ok(bridges)
}

/// The path to a bridge on the way there, with its cost. None exactly where there is no way.
pub(crate) fn path_by(
    alloc: Global,
    mesh: &Mesh,
    source: SystemId,
    steps: &[Option<Step>],
    to: SystemId,
) -> Result<Option<Path>, NoMemory>
    requires { IsValid mesh.now.graph }
    ensures { IfOk result (IsPathOnWay mesh.now.graph source steps.now to) }
{
    let Some(place) = mesh.place_of(to) else {
        return Ok(None);
    };
    let Some(step) = step_at(steps, place) else {
        return Ok(None);
    };
    let bridges = way_to(alloc, mesh, source, steps, step.hops, place)?;
    Ok(Some(Path {
        cost: step.cost,
        bridges: Seq::from_vec(bridges),
    }))
}
