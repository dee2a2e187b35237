//! The frontier of a search: the bridges whose arcs are still to be relaxed.
ghost use Rattle.std.specs.Prelude.{◌≡◌, ◌<◌, ◌≤◌, ℕ, length, position};
ghost use Rattle.std.specs.List.{slice_index_or};
ghost use Rattle.std.specs.Ordering.{is_eq};
ghost use Rattle.ect_trees.specs.declared.waiting.Waiting.{Waiting};
ghost use Rattle.ect_trees.specs.Waits.{waiting_cmp};

use spb_types::NoMemory;
use std::alloc::Global;
use std::marker::Model;

/// A bridge that waits: the cost and the number of hops of its label, and its place in the graph.
#[derive(Clone, Copy, PartialEq, Eq, PartialOrd, Ord)]
pub struct Waiting {
    pub cost: u64,
    pub hops: usize,
    pub place: usize,
}

/// Those that wait, in no order. Contracts see the list.
#[derive(Drop)]
pub struct Frontier {
    items: Vec<Waiting>,
}

impl Model for Frontier {
    ghost use Rattle.std.specs.Prelude.{List};
    ghost use Rattle.ect_trees.specs.declared.waiting.Waiting.{Waiting};
    ghost use Rattle.ect_trees.specs.Waits.{WaitOnce};

    ghost Value = { List Waiting };

    ghost view = { λ f. f.items.items };

    ghost invariant = { λ f. WaitOnce f.items.items };
}

/// The place of one that costs least.
fn least_of(items: &[Waiting]) -> usize
    requires { 0 < length items.now }
    ensures within { result < length items.now }
    ensures least { (k : ℕ) (d : Waiting) → k < length items.now
        → (slice_index_or items.now result d).cost ≤ (slice_index_or items.now k d).cost }
{
    let mut least = 0;
    let mut cost = items[0].cost;
    for place in 1..items.len() {
        let other = items[place].cost;
        if other < cost {
            least = place;
            cost = other;
        }
    }
    least
}

/// The place of one that waits.
fn place_among(items: &[Waiting], waiting: Waiting) -> Option<usize>
    ensures { result ≡ position (λ e. is_eq (waiting_cmp e waiting)) items.now }
{
    items.iter().position(|other| other.cmp(&waiting).is_eq())
}

impl Frontier {
    ghost use Rattle.std.specs.Prelude.{◌≡◌, ◌≤◌, [], cond, true, false, IfSome, IfNone, OnOk};
    ghost use Rattle.std.specs.Ordering.{is_eq};
    ghost use Rattle.ect_trees.specs.declared.waiting.Waiting.{Waiting};
    ghost use Rattle.ect_trees.specs.Waits.{waits, waiting_cmp};

    /// The frontier in which nothing waits, which takes no memory.
    pub fn new(alloc: Global) -> Self
        ensures { result ≡ [] }
    {
        Frontier {
            items: Vec::new(alloc),
        }
    }

    /// Takes one that costs least. None where nothing waits.
    pub fn take_first(&mut self) -> Option<Waiting>
        ensures none { IfNone result ((e : Waiting) → waits self.old e ≡ false) }
        ensures first { IfSome result (λ first. waits self.old first ≡ true) }
        ensures least { IfSome result (λ first. (e : Waiting) → waits self.old e ≡ true → first.cost ≤ e.cost) }
        ensures others { IfSome result (λ first. (e : Waiting)
            → waits self.new e ≡ cond (is_eq (waiting_cmp first e)) false (waits self.old e)) }
    {
        if self.items.is_empty() {
            None
        } else {
            let place = least_of(self.items.as_slice());
            Some(self.items.swap_remove(place))
        }
    }

    /// Puts one more into the frontier, which doesn't wait yet.
    pub fn put(&mut self, waiting: Waiting) -> Result<(), NoMemory>
        requires { waits self.old waiting ≡ false }
        ensures { OnOk result ((e : Waiting)
            → waits self.new e ≡ cond (is_eq (waiting_cmp waiting e)) true (waits self.old e)) }
    {
        self.items.push(waiting)?;
        Ok(())
    }

    /// Takes one out of the frontier, if it waits.
    pub fn drop_one(&mut self, waiting: Waiting)
        ensures { (e : Waiting)
            → waits self.new e ≡ cond (is_eq (waiting_cmp waiting e)) false (waits self.old e) }
    {
        if let Some(place) = place_among(self.items.as_slice(), waiting) {
            self.items.swap_remove(place);
        }
    }
}
