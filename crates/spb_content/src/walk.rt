//! The bridges that a bridge reaches over links that both ends list.
ghost use Rattle.std.specs.Prelude.{◌≡◌, ◌<◌, [], length, false, Contains, IfOk, IfSome, OnOk, replicate, Option};
ghost use Rattle.std.specs.List.{AllByRecursion};
ghost use Rattle.spb_content.specs.Building as building;

use crate::backbone::Backbone;
use spb_types::{NoMemory, SystemId};
use std::alloc::Global;

/// A walk over the links of a backbone: the bridges that it has reached are marked by place, and stand in the queue in
/// the order in which they were reached.
#[derive(Drop)]
pub struct Walk {
    /// The bridge at which the walk begins.
    pub source: SystemId,
    /// For each place whether it was reached.
    pub marks: Vec<bool>,
    /// The places that were reached, in that order.
    pub queue: Vec<usize>,
}

impl Walk {
    /// The walk that has reached nothing.
    fn start(alloc: Global, source: SystemId, len: usize) -> Result<Walk, NoMemory>
        ensures source { IfOk result (λ w. w.source ≡ source) }
        ensures marks { IfOk result (λ w. w.marks.items ≡ replicate len false) }
        ensures queue { IfOk result (λ w. w.queue.items ≡ []) }
    {
        Ok(Walk {
            source,
            marks: vec![in alloc; false; len]?,
            queue: Vec::new(alloc),
        })
    }

    /// Marks a place and puts it behind the queue, unless it is marked.
    fn mark(&mut self, place: usize) -> Result<(), NoMemory>
        requires { place < length self.old.marks.items }
        ensures { OnOk result (building.Marks place self.old self.new) }
    {
        if !self.marks[place] {
            self.queue.push(place)?;
            self.marks[place] = true;
        }
        Ok(())
    }
}

/// The place of a bridge beyond a link.
fn place_beyond(backbone: &Backbone<'_>, from: SystemId, to: SystemId) -> Option<usize>
    requires { building.IsIndexed backbone.now }
    ensures place { result ≡ building.place_beyond backbone.now.list.now from to }
    ensures within { IfSome result (λ place. place < length backbone.now.list.now) }
{
    if backbone.link(from, to).is_none() {
        return None;
    }
    backbone.place_of(to)
}

/// Marks what lies beyond the links of the bridge at a place.
fn visit(backbone: &Backbone<'_>, walk: &mut Walk, place: usize) -> Result<(), NoMemory>
    requires indexed { building.IsIndexed backbone.now }
    requires walk { building.IsWalk backbone.now.list.now walk.old }
    requires queued { Contains walk.old.queue.items place }
    requires within { place < length backbone.now.list.now }
    ensures { OnOk result (building.Visits backbone.now.list.now place walk.old walk.new) }
{
    let (from, content) = &backbone.list[place];
    for neighbour in content.neighbours.as_slice() {
        if let Some(beyond) = place_beyond(backbone, *from, neighbour.system) {
            walk.mark(beyond)?;
        }
    }
    Ok(())
}

/// The walk that has reached its source, if that is a bridge.
fn walk_at(alloc: Global, backbone: &Backbone<'_>, source: SystemId) -> Result<Walk, NoMemory>
    requires { building.IsIndexed backbone.now }
    ensures { IfOk result (building.Starts backbone.now.list.now source) }
{
    let mut walk = Walk::start(alloc, source, backbone.list.len())?;
    match backbone.place_of(source) {
        None => Ok(walk),
        Some(place) => {
            walk.mark(place)?;
            Ok(walk)
        }
    }
}

/// Marks the bridges that a bridge reaches over links, itself among them.
pub fn walk_from(alloc: Global, backbone: &Backbone<'_>, source: SystemId) -> Result<Walk, NoMemory>
    requires { building.IsIndexed backbone.now }
    ensures { IfOk result (λ w. building.Reaches backbone.now.list.now source w.marks.items) }
{
    let mut walk = walk_at(alloc, backbone, source)?;
    let mut next = 0;
    while next < walk.queue.len() {
        let place = walk.queue[next];
        visit(backbone, &mut walk, place)?;
        next += 1;
    }
    Ok(walk)
}
