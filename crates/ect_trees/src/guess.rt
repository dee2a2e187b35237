//! A quick search for the best paths from a source, which keeps the last step of each path alone. What it finds is a
//! guess: it is looked at before it is believed.
ghost use Rattle.std.specs.Prelude.{◌≡◌};

use crate::mesh::Mesh;
use crate::queue::{Entry, Queue, are_costs_low};
use crate::ways::{Step, Ways, place_before, step_at};
use spb_types::{BridgeId, Graph, NoMemory};
use std::alloc::Global;

/// What guesses in a graph are made with: the bridge ids as numbers, which order as their bytes do, by place; and
/// whether each edge costs little.
#[derive(Drop)]
pub struct Hints {
    ids: Vec<u64>,
    are_costs_low: bool,
}

/// The bridge ids as numbers, and the mask for all eight bytes of one; the steps that were found, by place; the cost of
/// the way to each place, the greatest number where none is found yet; the places from which the search has still to go
/// on, some of them at costs that were undercut; and the tie that was looked at last.
#[derive(Drop)]
struct Guess<'a> {
    mesh: &'a Mesh,
    mask: u8,
    ids: &'a [u64],
    masks: u64,
    steps: Vec<Option<Step>>,
    costs: Vec<u64>,
    queue: Queue,
    tie: Tie,
}

/// Which of the ways of one cost and one number of hops to two places was compared last, and whether the first is lower.
#[derive(Clone, Copy)]
struct Tie {
    first: usize,
    second: usize,
    is_lower: bool,
}

/// No step, at as many places.
fn no_steps(alloc: Global, places: usize) -> Result<Vec<Option<Step>>, NoMemory> {
    let mut steps = Vec::with_capacity(alloc, places)?;
    for _place in 0..places {
        steps.push(None)?;
    }
    Ok(steps)
}

/// The cost of the way to a place.
#[inline(always)]
fn cost_at(costs: &[u64], place: usize) -> u64 {
    if place < costs.len() {
        costs[place]
    } else {
        u64::MAX
    }
}

impl<'a> Guess<'a> {
    /// No way yet but that from a place to itself, from which the search has to go on.
    fn new(
        alloc: Global,
        mesh: &'a Mesh,
        hints: &'a Hints,
        source: usize,
        mask: u8,
    ) -> Result<Self, NoMemory> {
        let places = mesh.graph.bridges.len();
        let room = places.saturating_mul(2);
        let mut guess = Guess {
            mesh,
            mask,
            ids: hints.ids.as_slice(),
            masks: u64::from_be_bytes([mask; 8]),
            steps: no_steps(alloc, places)?,
            costs: Vec::from_elem(alloc, u64::MAX, places)?,
            queue: Queue::new(alloc, room, hints.are_costs_low, source)?,
            tie: Tie {
                first: usize::MAX,
                second: usize::MAX,
                is_lower: false,
            },
        };
        guess.start(source);
        Ok(guess)
    }

    /// The masked id of the bridge at a place, as a number.
    #[inline(always)]
    fn masked_at(&self, place: usize) -> u64 {
        if place < self.ids.len() {
            self.ids[place] ^ self.masks
        } else {
            0
        }
    }

    /// The least masked ids on the ways of as many hops to two places, behind the place where they part.
    fn least_of(&self, hops: usize, first: usize, second: usize) -> (u64, u64) {
        let steps = self.steps.as_slice();
        let (mut place, mut other) = (first, second);
        let (mut least, mut other_least) = (u64::MAX, u64::MAX);
        for _hop in 0..hops {
            if place == other {
                break;
            }
            least = least.min(self.masked_at(place));
            other_least = other_least.min(self.masked_at(other));
            place = place_before(steps, place);
            other = place_before(steps, other);
        }
        (least, other_least)
    }

    /// Whether the way of as many hops to one place has lower ids than that to another. The least ids mostly decide.
    fn is_lower(
        &self,
        alloc: Global,
        hops: usize,
        first: usize,
        second: usize,
    ) -> Result<bool, NoMemory> {
        let (least, other_least) = self.least_of(hops, first, second);
        if least != other_least {
            return Ok(least < other_least);
        }
        let ways = Ways {
            mesh: self.mesh,
            mask: self.mask,
            steps: self.steps.as_slice(),
        };
        Ok(ways.compare(alloc, hops, first, second)?.is_lt())
    }

    /// Whether the way of as many hops to the place before the end of the new step has lower ids than to that of the old
    /// one. The arcs from a place mostly tie with those from one other, so the last answer is asked for first.
    fn tie_of(&self, alloc: Global, new: Step, old: Step) -> Result<Tie, NoMemory> {
        let (first, second) = (new.before, old.before);
        if self.tie.first == first && self.tie.second == second {
            return Ok(self.tie);
        }
        let hops = new.hops.saturating_sub(1);
        Ok(Tie {
            first,
            second,
            is_lower: self.is_lower(alloc, hops, first, second)?,
        })
    }

    /// Whether a step is better than the one to the same place, which costs as much.
    fn is_better(&mut self, alloc: Global, place: usize, new: Step) -> Result<bool, NoMemory>
        ensures { self.new.steps ≡ self.old.steps }
    {
        let Some(old) = step_at(self.steps.as_slice(), place) else {
            return Ok(false);
        };
        if new.hops != old.hops {
            return Ok(new.hops < old.hops);
        }
        self.tie = self.tie_of(alloc, new, old)?;
        Ok(self.tie.is_lower)
    }

    /// Gives a place this step, which costs no more than the one that it has, unless that is better.
    #[inline(always)]
    fn put(&mut self, alloc: Global, place: usize, new: Step) -> Result<(), NoMemory> {
        if place >= self.steps.len() || place >= self.costs.len() {
            return Ok(());
        }
        if new.cost < self.costs[place] {
            let cost = new.cost;
            self.queue.put(Entry { cost, place })?;
            self.costs[place] = cost;
        } else if !self.is_better(alloc, place, new)? {
            return Ok(());
        }
        self.steps[place] = Some(new);
        Ok(())
    }

    /// Gives a place the way to itself.
    fn start(&mut self, source: usize) {
        if source < self.steps.len() && source < self.costs.len() {
            self.costs[source] = 0;
            self.steps[source] = Some(Step {
                cost: 0,
                hops: 0,
                before: source,
                number: 0,
            });
        }
    }

    /// Goes on along each arc from a place, unless the way there has been undercut. A way that costs more than one that
    /// was found leads no further.
    fn go_on(&mut self, alloc: Global, from: Entry) -> Result<(), NoMemory> {
        let place = from.place;
        if place >= self.mesh.arcs.len() || from.cost > cost_at(self.costs.as_slice(), place) {
            return Ok(());
        }
        let Some(step) = step_at(self.steps.as_slice(), place) else {
            return Ok(());
        };
        let mesh = self.mesh;
        for (number, arc) in mesh.arcs[place].iter().enumerate() {
            let cost = step.cost.wrapping_add(u64::from(arc.cost));
            if cost <= cost_at(self.costs.as_slice(), arc.to) {
                let hops = step.hops.wrapping_add(1);
                self.put(
                    alloc,
                    arc.to,
                    Step {
                        cost,
                        hops,
                        before: place,
                        number,
                    },
                )?;
            }
        }
        Ok(())
    }
}

/// The bridge ids of a graph's bridges as numbers, by their places.
fn id_numbers(alloc: Global, graph: &Graph) -> Result<Vec<u64>, NoMemory> {
    let mut ids = Vec::with_capacity(alloc, graph.bridges.len())?;
    for bridge in graph.bridges.as_slice() {
        let BridgeId { priority, system } = bridge.id;
        ids.push(u64::from(priority) << 48 | system.number())?;
    }
    Ok(ids)
}

impl Hints {
    /// What guesses in this graph are made with.
    pub fn new(alloc: Global, graph: &Graph) -> Result<Self, NoMemory> {
        Ok(Hints {
            ids: id_numbers(alloc, graph)?,
            are_costs_low: are_costs_low(graph),
        })
    }
}

/// How often a search may go on, at most: from its source, and from the end of each arc.
fn turns_in(mesh: &Mesh) -> usize {
    mesh.graph.edges.len().saturating_mul(2).saturating_add(1)
}

/// The last steps of the best paths from the bridge at a place, by place of the bridge where each ends.
pub fn guessed<'a>(
    alloc: Global,
    mesh: &'a Mesh,
    hints: &'a Hints,
    source: usize,
    mask: u8,
) -> Result<Vec<Option<Step>>, NoMemory> {
    let mut guess = Guess::new(alloc, mesh, hints, source, mask)?;
    for _turn in 0..turns_in(mesh) {
        let Some(first) = guess.queue.take_first() else {
            break;
        };
        guess.go_on(alloc, first)?;
    }
    let Guess { steps, .. } = guess;
    Ok(steps)
}
