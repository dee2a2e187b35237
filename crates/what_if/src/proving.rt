//! Making the entries of a proof.
ghost use Rattle.std.specs.Prelude.{◌≡◌, ℕ, IfOk};
ghost use Rattle.spb_types.specs.Graph.{IsValid};
ghost use Rattle.spb_types.specs.declared.graph.Graph.{Graph};
ghost use Rattle.ect_trees.specs.Tree.{GivesBest};
ghost use Rattle.what_if.specs.Entries.{before_last, named, best_entry, best_entries};

use crate::entry::Entry;
use ect_trees::{Roads, Tree};
use spb_types::{Graph, NoMemory, SystemId};
use std::alloc::Global;

/// The entry of the last bridge of a path: the one before it.
fn entry_of(bridges: &[SystemId]) -> Entry
    ensures { result ≡ named (before_last bridges.now) }
{
    if bridges.len() < 2 {
        Entry::Unreached
    } else {
        Entry::Before(bridges[bridges.len() - 2])
    }
}

/// The entry of the bridge at a place, which is this system, by a tree.
fn entry_in(tree: &Tree, place: usize, system: SystemId) -> Entry
    ensures { (g : Graph) (mask : ℕ) → GivesBest g mask tree.now.source tree.now
        → result ≡ best_entry g mask tree.now.source system }
{
    if system.is(tree.source()) {
        return Entry::Start;
    }
    match tree.find_near(place, system) {
        None => Entry::Unreached,
        Some(label) => entry_of(label.bridges.as_slice()),
    }
}

/// The entries that a tree of the best paths of a graph gives its bridges, in their order.
pub fn entries_in(alloc: Global, graph: &Graph, tree: &Tree) -> Result<Vec<Entry>, NoMemory>
    ensures { IfOk result (λ entries. (mask : ℕ) → GivesBest graph.now mask tree.now.source tree.now
        → entries.items ≡ best_entries graph.now mask tree.now.source) }
{
    let bridges = graph.bridges.as_slice();
    let mut entries = Vec::with_capacity(alloc, bridges.len())?;
    for place in 0..bridges.len() {
        entries.push(entry_in(tree, place, bridges[place].id.system))?;
    }
    Ok(entries)
}

/// The entries that prove the best paths from a bridge under a mask, one for each bridge of the graph in its order
/// (IEEE 802.1aq, 28.5 to 28.8). The paths are searched once.
pub fn prove(alloc: Global, roads: &Roads, mask: u8, from: SystemId) -> Result<Vec<Entry>, NoMemory>
    requires { IsValid roads.now }
    ensures { IfOk result (λ entries. entries.items ≡ best_entries roads.now mask from) }
{
    let tree = roads.tree(alloc, from, mask)?;
    entries_in(alloc, roads.graph(), &tree)
}
