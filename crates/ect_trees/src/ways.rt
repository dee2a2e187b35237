//! Ways that are told by the last step of each: the way to a place is that to the place before it, and the place.
ghost use Rattle.std.specs.Prelude.{◌≡◌, ℕ, List, ◌∷◌, [], false, IfOk, slice_get};
ghost use Rattle.std.specs.Ordering.{is_eq};
ghost use Rattle.std.specs.Cmp.Lexicographic.{slice_cmp};
ghost use Rattle.spb_types.specs.Graph.{IsValid};
ghost use Rattle.spb_types.specs.declared.address.SystemId.{SystemId};
ghost use Rattle.ect_trees.specs.Key.{id_cmp, inserted, masked_id};
ghost use Rattle.ect_trees.specs.Arcs.{IsBridgeAt};
ghost use Rattle.ect_trees.specs.Ways as ways;

use crate::fork::{compare_masked, in_order, put_id};
use crate::key;
use crate::mesh::Mesh;
use spb_types::NoMemory;
use std::alloc::Global;
use std::cmp::Ordering;

/// The last step of a way from a source: the cost and the number of hops of the whole way, the place before its last,
/// and the number of the arc from there. The way to the source has no hop.
#[derive(Clone, Copy)]
pub struct Step {
    pub cost: u64,
    pub hops: usize,
    pub before: usize,
    pub number: usize,
}

/// Ways over a mesh, and the mask under which they are compared. There is a step at the place of each bridge that has a
/// way.
#[derive(Drop)]
pub struct Ways<'a> {
    pub mesh: &'a Mesh,
    pub mask: u8,
    pub steps: &'a [Option<Step>],
}

/// The step to a place, if there is one.
#[inline(always)]
pub fn step_at(steps: &[Option<Step>], place: usize) -> Option<Step>
    ensures { result ≡ ways.step_at steps.now place }
{
    if place < steps.len() {
        steps[place]
    } else {
        None
    }
}

/// The place before another on the way there.
#[inline(always)]
pub fn place_before(steps: &[Option<Step>], place: usize) -> usize
    ensures { result ≡ ways.place_before steps.now place }
{
    match step_at(steps, place) {
        None => 0,
        Some(step) => step.before,
    }
}

impl<'a> Ways<'a> {
    /// The step to a place, if there is one.
    #[inline(always)]
    pub fn step_at(&self, place: usize) -> Option<Step>
        ensures { result ≡ ways.step_at self.now.steps.now place }
    {
        step_at(self.steps, place)
    }

    /// The place before another on the way there.
    #[inline(always)]
    pub fn place_before(&self, place: usize) -> usize
        ensures { result ≡ ways.place_before self.now.steps.now place }
    {
        place_before(self.steps, place)
    }

    /// The masked id of the bridge at a place.
    #[inline(always)]
    fn masked_at(&self, place: usize) -> [u8; 8]
        ensures { (x : SystemId) → IsValid self.now.mesh.now.graph → IsBridgeAt self.now.mesh.now.graph place x
            → result ≡ masked_id self.now.mesh.now.graph self.now.mask x }
    {
        let bridges = self.mesh.graph.bridges.as_slice();
        if place < bridges.len() {
            key::masked_id(bridges[place].id, self.mask)
        } else {
            [0; 8]
        }
    }

    /// Compares the PATHIDs of the ways of as many hops to two places (IEEE 802.1aq, 28.8). What both begin with says
    /// nothing. Where that is all but their last bridge, or their last two, no memory is taken.
    pub fn compare(
        &self,
        alloc: Global,
        hops: usize,
        a: usize,
        b: usize,
    ) -> Result<Ordering, NoMemory>
        ensures { IfOk result (ways.Compares self.now.mesh.now self.now.mask self.now.steps.now hops a b) }
    {
        let (before, other) = (self.place_before(a), self.place_before(b));
        if before == other {
            return Ok(self.compare_last(a, b));
        }
        if hops > 1 && self.place_before(before) == self.place_before(other) {
            return Ok(self.compare_last_two(before, a, other, b));
        }
        self.compare_back(alloc, hops, a, b)
    }

    /// Compares the masked ids of the bridges at two places.
    fn compare_last(&self, a: usize, b: usize) -> Ordering
        ensures { (x y : SystemId) → IsValid self.now.mesh.now.graph
            → IsBridgeAt self.now.mesh.now.graph a x → IsBridgeAt self.now.mesh.now.graph b y
            → result ≡ slice_cmp id_cmp (ways.ids_of self.now.mesh.now.graph self.now.mask (x ∷ []))
            (ways.ids_of self.now.mesh.now.graph self.now.mask (y ∷ [])) }
    {
        compare_masked(self.masked_at(a), self.masked_at(b))
    }

    /// Compares the masked ids of the bridges at two places with those at two others.
    fn compare_last_two(&self, before: usize, a: usize, other: usize, b: usize) -> Ordering
        ensures { (w x v y : SystemId) → IsValid self.now.mesh.now.graph
            → IsBridgeAt self.now.mesh.now.graph before w → IsBridgeAt self.now.mesh.now.graph a x
            → IsBridgeAt self.now.mesh.now.graph other v → IsBridgeAt self.now.mesh.now.graph b y
            → result ≡ slice_cmp id_cmp (ways.ids_of self.now.mesh.now.graph self.now.mask (w ∷ x ∷ []))
            (ways.ids_of self.now.mesh.now.graph self.now.mask (v ∷ y ∷ [])) }
    {
        let (low, high) = in_order(self.masked_at(before), self.masked_at(a));
        let (other_low, other_high) = in_order(self.masked_at(other), self.masked_at(b));
        compare_masked(low, other_low).then(compare_masked(high, other_high))
    }

    /// Compares the PATHIDs of ways of as many hops, from their ends back to the place where they part. The least ids
    /// mostly decide, and then nothing is put in order.
    fn compare_back(
        &self,
        alloc: Global,
        hops: usize,
        a: usize,
        b: usize,
    ) -> Result<Ordering, NoMemory>
        ensures { IfOk result (ways.Compares self.now.mesh.now self.now.mask self.now.steps.now hops a b) }
    {
        let order = self.compare_least(hops, a, b);
        if order.is_ne() {
            return Ok(order);
        }
        self.compare_sorted(alloc, hops, a, b)
    }

    /// Compares the least masked ids of ways of as many hops behind the place where they part. Unless these are equal,
    /// they decide.
    fn compare_least(&self, hops: usize, a: usize, b: usize) -> Ordering
        ensures { is_eq result ≡ false
            → ways.Compares self.now.mesh.now self.now.mask self.now.steps.now hops a b result }
    {
        let mut least = None;
        let mut other_least = None;
        let mut place = a;
        let mut other = b;
        let mut left = hops;
        while left > 0 && place != other {
            least = lesser(least, self.masked_at(place));
            other_least = lesser(other_least, self.masked_at(other));
            place = self.place_before(place);
            other = self.place_before(other);
            left -= 1;
        }
        compare_if_some(least, other_least)
    }

    /// Compares all masked ids of ways of as many hops behind the place where they part.
    fn compare_sorted(
        &self,
        alloc: Global,
        hops: usize,
        a: usize,
        b: usize,
    ) -> Result<Ordering, NoMemory>
        ensures { IfOk result (ways.Compares self.now.mesh.now self.now.mask self.now.steps.now hops a b) }
    {
        let mut ids = Vec::new(alloc);
        let mut others = Vec::new(alloc);
        let mut place = a;
        let mut other = b;
        let mut left = hops;
        while left > 0 && place != other {
            put_id(&mut ids, self.masked_at(place))?;
            put_id(&mut others, self.masked_at(other))?;
            place = self.place_before(place);
            other = self.place_before(other);
            left -= 1;
        }
        Ok(ids.as_slice().cmp(&others.as_slice()))
    }
}

/// The lesser of two masked ids, the first of which may be missing.
#[inline(always)]
fn lesser(least: Option<[u8; 8]>, id: [u8; 8]) -> Option<[u8; 8]>
    ensures { (ids : List (List ℕ)) → slice_get ids 0 ≡ least → slice_get (inserted id ids) 0 ≡ result }
{
    match least {
        Some(other) if compare_masked(id, other).is_gt() => least,
        _ => Some(id),
    }
}

/// Compares two masked ids; where one is missing they count as equal.
fn compare_if_some(least: Option<[u8; 8]>, other: Option<[u8; 8]>) -> Ordering
    ensures { (ids others : List (List ℕ)) → slice_get ids 0 ≡ least → slice_get others 0 ≡ other
        → is_eq result ≡ false → result ≡ slice_cmp id_cmp ids others }
{
    match (least, other) {
        (Some(least), Some(other)) => compare_masked(least, other),
        _ => Ordering::Equal,
    }
}
