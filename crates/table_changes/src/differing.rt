//! The changes of the tables of all bridges.
ghost use Rattle.std.specs.Prelude.{◌≡◌, ◌++◌, ◌<◌, None, OnOk, IfOk, length};
ghost use Rattle.fdb_build.specs.Tables.{AscendsBy};
ghost use Rattle.spb_world.specs.Changing.{change_refusal};
ghost use Rattle.spb_world.specs.World as state;
ghost use Rattle.table_changes.specs.Changes.{all_rows, changes_at, changes_of};
ghost use Rattle.table_changes.specs.Passing.{table_cmp};

use crate::gone::put_gone;
use scenario::Command;
use spb_types::{NoMemory, TableRow, Tables};
use spb_world::World;
use std::alloc::Global;

/// A row of a table that goes or comes.
#[derive(Clone, Copy, Debug, PartialEq, Eq)]
pub struct Change {
    /// The place of the bridge in order of declaration, from 0.
    pub bridge: u16,
    /// Whether the row comes.
    pub added: bool,
    pub row: TableRow,
}

/// The tables that the wiring gives the bridge at a place, whose rows ascend. What was searched for them is kept.
fn wired(alloc: Global, world: &mut World, place: usize) -> Result<Tables, NoMemory>
    requires { state.Sound world.old }
    ensures tables { IfOk result (λ t. t ≡ state.wired_tables world.old place) }
    ensures ascend { IfOk result (λ t. AscendsBy table_cmp (all_rows t)) }
    ensures same { world.new ≡ world.old }
{
    world.prepare_tables(alloc, place)?;
    world.wired_tables(alloc, place)
}

/// Puts what changes in the tables of the bridge at a place behind the others: the rows that go, then those that come.
/// The tables are dropped again.
fn put_changes(
    alloc: Global,
    changes: &mut Vec<Change>,
    before: &mut World,
    after: &mut World,
    place: usize,
) -> Result<(), NoMemory>
    requires before { state.Sound before.old }
    requires after { state.Sound after.old }
    requires place { place < length before.old.bridges }
    ensures changes { OnOk result (changes.new.items ≡ changes.old.items ++ changes_at before.old after.old place) }
    ensures before { before.new ≡ before.old }
    ensures after { after.new ≡ after.old }
{
    let bridge = place as u16;
    let old = wired(alloc, before, place)?;
    let new = wired(alloc, after, place)?;
    put_gone(changes, bridge, false, &old, &new)?;
    put_gone(changes, bridge, true, &new, &old)?;
    Ok(())
}

/// What a `down`, an `up` or a `metric` that would be accepted would change in the tables that the wiring gives the
/// bridges: for each bridge in order of declaration the rows that go, then those that come; unicast rows before group
/// rows, and each by ascending VID and address. Any other command changes no row. The world stays as it is.
pub fn changes(alloc: Global, world: &World, change: &Command) -> Result<Vec<Change>, NoMemory>
    requires { change_refusal world.now change.now ≡ None }
    ensures { IfOk result (λ list. list.items ≡ changes_of world.now change.now) }
{
    let mut before = world.copied(alloc)?;
    let mut after = world.after(alloc, change)?;
    let mut list = Vec::new(alloc);
    for place in 0..world.bridge_count() {
        put_changes(alloc, &mut list, &mut before, &mut after, place)?;
    }
    Ok(list)
}
