//! Looks at guessed ways: whether the steps lead back to the source, and whether the ways are low at every edge.
ghost use Rattle.std.specs.Prelude.{◌≤◌, ℕ, length, IfOk, IfSome, IsTrue, OnOk};
ghost use Rattle.ect_trees.specs.Arcs.{IsArcAt, rows_of};
ghost use Rattle.ect_trees.specs.Trial as trials;
ghost use Rattle.ect_trees.specs.Ways as steps;
ghost use Rattle.ect_trees.specs.declared.trial.TheConstants.{GREATEST};
ghost use Rattle.ect_trees.specs.declared.trial.Verdict.{Verdict};

use crate::mesh::Arc;
use crate::ways::{Step, Ways};
use spb_types::NoMemory;
use std::alloc::Global;
use std::cmp::Ordering;

/// What comes of a look at ways: they aren't all best; they are, under the mask; or they are under every mask, since no
/// other path is as short in cost and hops.
#[derive(Clone, Copy)]
pub enum Verdict {
    Wrong,
    Tied,
    Untied,
}

/// The order of the ways of as many hops to one place, which is known, and to another.
#[derive(Clone, Copy)]
pub struct Compared {
    pub other: usize,
    pub order: Ordering,
}

/// The verdict on two things.
#[inline(always)]
fn both(a: Verdict, b: Verdict) -> Verdict
    ensures { (mask m : ℕ) → trials.Covers mask result m → trials.Covers mask a m × trials.Covers mask b m }
{
    match (a, b) {
        (Verdict::Wrong, _) | (_, Verdict::Wrong) => Verdict::Wrong,
        (Verdict::Untied, Verdict::Untied) => Verdict::Untied,
        _ => Verdict::Tied,
    }
}

/// The order of the ways of as many hops to two places: that which is known, or, where it isn't the one to that place, what
/// is compared now and known then.
#[inline(always)]
fn order_of(
    alloc: Global,
    ways: &Ways<'_>,
    known: &mut Option<Compared>,
    hops: usize,
    place: usize,
    other: usize,
) -> Result<Ordering, NoMemory>
    requires { trials.IsCompared ways.now.mesh.now ways.now.mask ways.now.steps.now hops place known.old }
    ensures order { IfOk result
        (steps.Compares ways.now.mesh.now ways.now.mask ways.now.steps.now hops place other) }
    ensures known { OnOk result
        (trials.IsCompared ways.now.mesh.now ways.now.mask ways.now.steps.now hops place known.new) }
{
    if let Some(last) = *known
        && last.other == other
    {
        return Ok(last.order);
    }
    let order = ways.compare(alloc, hops, place, other)?;
    *known = Some(Compared { other, order });
    Ok(order)
}

/// The arc of this number from a place.
#[inline(always)]
fn arc_at(ways: &Ways<'_>, place: usize, number: usize) -> Option<Arc>
    ensures { IfSome result (IsArcAt (rows_of ways.now.mesh.now) place number) }
{
    if place >= ways.mesh.arcs.len() {
        return None;
    }
    let row = ways.mesh.arcs[place].as_slice();
    if number < row.len() {
        Some(row[number])
    } else {
        None
    }
}

/// Whether the step leads along an arc from the end of a way, with that way's cost and hops and its own.
fn leads_on(ways: &Ways<'_>, place: usize, step: Step) -> bool
    ensures { IsTrue result → steps.IsOnward ways.now.mesh.now ways.now.steps.now place step }
{
    let Some(before) = ways.step_at(step.before) else {
        return false;
    };
    let Some(arc) = arc_at(ways, step.before, step.number) else {
        return false;
    };
    arc.to == place
        && before.hops.checked_add(1) == Some(step.hops)
        && before.cost.checked_add(u64::from(arc.cost)) == Some(step.cost)
}

/// Whether the step is that of the source, or leads on from another.
fn is_sound(ways: &Ways<'_>, source: usize, place: usize, step: Step) -> bool
    ensures { IsTrue result → steps.IsSound ways.now.mesh.now ways.now.steps.now source place step }
{
    if step.hops == 0 {
        place == source && step.cost == 0
    } else {
        leads_on(ways, place, step)
    }
}

/// Whether each step is sound.
fn are_sound(ways: &Ways<'_>, source: usize) -> bool
    ensures { IsTrue result → trials.AreSound ways.now.mesh.now ways.now.steps.now source (length ways.now.steps.now) }
{
    for place in 0..ways.steps.len() {
        if let Some(step) = ways.steps[place]
            && !is_sound(ways, source, place, step)
        {
            return false;
        }
    }
    true
}

/// Whether the steps make ways from the bridge at a place.
fn are_ways(ways: &Ways<'_>, source: usize) -> bool
    ensures { IsTrue result → trials.MakeWays ways.now.mesh.now ways.now.steps.now source }
{
    let Some(first) = ways.step_at(source) else {
        return false;
    };
    first.hops == 0 && ways.steps.len() == ways.mesh.graph.bridges.len() && are_sound(ways, source)
}

/// The greatest cost to which the cost of any arc can be added.
const GREATEST: u64 = u64::MAX - u32::MAX as u64;

/// Whether the way by an arc from a place surely isn't better than the way to the arc's end: it costs more, or the way
/// to the end goes on from that place itself.
#[inline(always)]
fn is_clear(ways: &Ways<'_>, place: usize, step: Step, arc: Arc) -> bool
    requires { step.cost ≤ GREATEST }
    ensures { IsTrue result → trials.ArcIsLow
        ways.now.mesh.now ways.now.mask ways.now.steps.now place step arc Verdict.Untied }
{
    let Some(end) = ways.step_at(arc.to) else {
        return false;
    };
    if end.cost < step.cost + u64::from(arc.cost) {
        return true;
    }
    end.before == place && step.hops < end.hops
}

/// Whether the way by an arc that isn't clear is none that is better than the way to the arc's end. The way to the
/// arc's start was compared last with one that is known.
#[inline(never)]
fn verdict_of_arc(
    alloc: Global,
    ways: &Ways<'_>,
    known: &mut Option<Compared>,
    place: usize,
    step: &Step,
    arc: &Arc,
) -> Result<Verdict, NoMemory>
    requires { trials.IsCompared ways.now.mesh.now ways.now.mask ways.now.steps.now step.now.hops place known.old }
    ensures low { IfOk result
        (trials.ArcIsLow ways.now.mesh.now ways.now.mask ways.now.steps.now place step.now arc.now) }
    ensures known { OnOk result
        (trials.IsCompared ways.now.mesh.now ways.now.mask ways.now.steps.now step.now.hops place known.new) }
{
    let Some(end) = ways.step_at(arc.to) else {
        return Ok(Verdict::Wrong);
    };
    let Some(cost) = step.cost.checked_add(u64::from(arc.cost)) else {
        return Ok(Verdict::Wrong);
    };
    if cost != end.cost {
        return Ok(Verdict::Wrong);
    }
    if step.hops >= end.hops {
        return Ok(Verdict::Untied);
    }
    if end.hops - step.hops > 1 {
        return Ok(Verdict::Wrong);
    }
    let order = order_of(alloc, ways, known, step.hops, place, end.before)?;
    if order.is_lt() {
        Ok(Verdict::Wrong)
    } else {
        Ok(Verdict::Tied)
    }
}

/// The verdict on arcs from a place that were looked at before, and on one more. Most are clear, and say nothing against
/// it.
#[inline(always)]
fn verdict_with_arc(
    alloc: Global,
    ways: &Ways<'_>,
    known: &mut Option<Compared>,
    place: usize,
    step: &Step,
    arc: &Arc,
    before: Verdict,
) -> Result<Verdict, NoMemory>
    requires cost { step.now.cost ≤ GREATEST }
    requires known { trials.IsCompared ways.now.mesh.now ways.now.mask ways.now.steps.now step.now.hops place known.old }
    ensures before { IfOk result
        (λ v. (m : ℕ) → trials.Covers ways.now.mask v m → trials.Covers ways.now.mask before m) }
    ensures low { IfOk result
        (trials.ArcIsLow ways.now.mesh.now ways.now.mask ways.now.steps.now place step.now arc.now) }
    ensures known { OnOk result
        (trials.IsCompared ways.now.mesh.now ways.now.mask ways.now.steps.now step.now.hops place known.new) }
{
    if is_clear(ways, place, *step, *arc) {
        return Ok(before);
    }
    let next = verdict_of_arc(alloc, ways, known, place, step, arc)?;
    Ok(both(before, next))
}

/// The same of each arc from a place.
fn verdict_of_place(
    alloc: Global,
    ways: &Ways<'_>,
    place: usize,
    step: Step,
) -> Result<Verdict, NoMemory>
    ensures { IfOk result (trials.PlaceIsLow ways.now.mesh.now ways.now.mask ways.now.steps.now place step) }
{
    if place >= ways.mesh.arcs.len() || step.cost > GREATEST {
        return Ok(Verdict::Wrong);
    }
    let mut verdict = Verdict::Untied;
    let mut known = None;
    for arc in &ways.mesh.arcs[place] {
        verdict = verdict_with_arc(alloc, ways, &mut known, place, &step, arc, verdict)?;
    }
    Ok(verdict)
}

/// The same of each arc from the end of a way.
fn verdict_of_all(alloc: Global, ways: &Ways<'_>) -> Result<Verdict, NoMemory>
    ensures { IfOk result
        (trials.PlacesAreLow ways.now.mesh.now ways.now.mask ways.now.steps.now (length ways.now.steps.now)) }
{
    let mut verdict = Verdict::Untied;
    for place in 0..ways.steps.len() {
        if let Some(step) = ways.steps[place] {
            verdict = both(verdict, verdict_of_place(alloc, ways, place, step)?);
        }
    }
    Ok(verdict)
}

/// Whether the ways are the best paths from the bridge at a place.
pub fn verdict_of(alloc: Global, ways: &Ways<'_>, source: usize) -> Result<Verdict, NoMemory>
    ensures { IfOk result
        (trials.AreBestWays ways.now.mesh.now ways.now.mask source ways.now.steps.now) }
{
    if are_ways(ways, source) {
        verdict_of_all(alloc, ways)
    } else {
        Ok(Verdict::Wrong)
    }
}
