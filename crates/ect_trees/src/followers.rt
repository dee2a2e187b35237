//! The bridge that directly follows another on a best path.
ghost use Rattle.std.specs.Prelude.{◌≡◌, ◌<◌, false, length, position, option_map, IfOk};
ghost use Rattle.std.specs.Option.{option_copied};
ghost use Rattle.spb_types.specs.Address.{same_system};
ghost use Rattle.spb_types.specs.Graph.{IsValid};
ghost use Rattle.ect_trees.specs.declared.mesh.Mesh.{Mesh};
ghost use Rattle.ect_trees.specs.Arcs.{AreReady};
ghost use Rattle.ect_trees.specs.Followers as followers;
ghost use Rattle.ect_trees.specs.Search.{path_of};
ghost use Rattle.ect_trees.specs.Ways as ways;

use crate::mesh::Mesh;
use crate::search::Label;
use crate::tree::{Tree, tree_over};
use crate::ways::{Step, place_before, step_at};
use spb_types::{NoMemory, SystemId};
use std::alloc::Global;

/// The number of hops of the way to a place, or `most` where none leads there.
fn hops_to(steps: &[Option<Step>], place: usize, most: usize) -> usize
    ensures { result ≡ ways.hops_or (ways.step_at steps.now place) most }
{
    match step_at(steps, place) {
        None => most,
        Some(step) => step.hops,
    }
}

/// The place that directly follows that of `me` on the way to another, or the number of places where none does. The way
/// is walked back to the one place where `me` can stand, by the hops of the way there.
pub(crate) fn follower(steps: &[Option<Step>], me: usize, to: usize) -> usize
    ensures { (r : Mesh) → followers.FollowsOnWay r steps.now me to result }
{
    let none = steps.len();
    let Some(step) = step_at(steps, to) else {
        return none;
    };
    let least = hops_to(steps, me, step.hops);
    let mut place = to;
    let mut left = step.hops;
    if left <= least {
        return none;
    }
    while left - 1 > least {
        place = place_before(steps, place);
        left -= 1;
    }
    let before = place_before(steps, place);
    if before == me {
        return place;
    }
    none
}

/// Whether the last step of the way to a place leads on from `me`.
#[inline(always)]
fn is_before(steps: &[Option<Step>], me: usize, place: usize) -> bool
    ensures { result ≡ followers.is_before (ways.step_at steps.now place) me }
{
    match step_at(steps, place) {
        None => false,
        Some(step) => step.before == me,
    }
}

/// Whether some bridge directly follows the one at the place `me` on one of the ways. It is looked for among those to which
/// an arc leads from `me`.
pub(crate) fn leads_on(mesh: &Mesh, steps: &[Option<Step>], me: usize) -> bool
    requires ready { AreReady mesh.now }
    requires me { me < length mesh.now.graph.bridges }
    ensures { result ≡ false → followers.NoneOnWays mesh.now.graph steps.now me }
{
    for arc in &mesh.arcs[me] {
        if is_before(steps, me, arc.to) {
            return true;
        }
    }
    false
}

/// The place of a bridge on a path.
fn place_on(path: &[SystemId], system: SystemId) -> Option<usize>
    ensures { result ≡ position (λ b. same_system b system) path.now }
{
    path.iter().position(|bridge| bridge.is(system))
}

/// The bridge that directly follows another on a path. None where the other isn't on it, or is its last.
fn after(path: &[SystemId], system: SystemId) -> Option<SystemId>
    ensures { result ≡ followers.after_in system path.now }
{
    let place = place_on(path, system)?;
    path.get(place + 1).copied()
}

/// The place of the bridge that directly follows `me` on the path of a label, or the number of bridges where none does.
fn follower_on(mesh: &Mesh, label: Option<&Label>, me: SystemId) -> usize
    requires { IsValid mesh.now.graph }
    ensures { result ≡ followers.place_after mesh.now.graph me
        (option_map (λ p. p.bridges) (option_map path_of (option_copied label.entry))) }
{
    let none = mesh.graph.bridges.len();
    let Some(label) = label else {
        return none;
    };
    match after(label.bridges.as_slice(), me) {
        None => none,
        Some(next) => mesh.place_of(next).unwrap_or(none),
    }
}

/// The place of the bridge that directly follows `me` on the whole path of a tree to the bridge at a place, or the
/// number of bridges where none does.
pub(crate) fn follower_in(mesh: &Mesh, tree: &Tree, me: SystemId, to: usize) -> usize
    requires { IsValid mesh.now.graph }
    ensures { followers.FollowsInTree mesh.now.graph tree.now me to result }
{
    let bridges = mesh.graph.bridges.as_slice();
    if to >= bridges.len() {
        return bridges.len();
    }
    follower_on(mesh, tree.find_near(to, bridges[to].id.system), me)
}

/// The same on the best path from a bridge, for which whole paths are searched.
#[cold]
#[inline(never)]
pub(crate) fn follower_anew(
    alloc: Global,
    mesh: &Mesh,
    source: SystemId,
    mask: u8,
    me: SystemId,
    to: usize,
) -> Result<usize, NoMemory>
    requires { AreReady mesh.now }
    ensures { IfOk result (followers.IsFollower mesh.now.graph mask source me to) }
{
    let tree = tree_over(alloc, mesh, source, mask)?;
    Ok(follower_in(mesh, &tree, me, to))
}
