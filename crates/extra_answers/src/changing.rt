//! What a change would do to the tables of bridges.
ghost use Rattle.std.specs.Prelude.{◌≡◌, None, IfOk};
ghost use Rattle.std.specs.List.{filter_map};
ghost use Rattle.report.specs.Changes as texts;
ghost use Rattle.spb_world.specs.Changing.{change_refusal};
ghost use Rattle.extra_answers.specs.Answers as answers;

use report::whatif_text;
use scenario::Command;
use spb_types::{Name, NoMemory, TableRow};
use spb_world::World;
use std::alloc::Global;
use table_changes::{Change, changes};

/// A row that goes or comes, with the name of its bridge.
fn named(world: &World, change: &Change) -> Option<(Name, bool, TableRow)>
    ensures { result ≡ answers.named_change world.now.bridges change.now }
{
    match world.bridge_name(usize::from(change.bridge)) {
        None => None,
        Some(name) => Some((name, change.added, change.row)),
    }
}

/// The rows that go or come, in order, each with the name of its bridge.
fn all_named(
    alloc: Global,
    world: &World,
    list: &[Change],
) -> Result<Vec<(Name, bool, TableRow)>, NoMemory>
    ensures { IfOk result
        (λ rows. rows.items ≡ filter_map (answers.named_change world.now.bridges) list.now) }
{
    let rows = list
        .iter()
        .filter_map(|change| named(world, change))
        .collect(alloc)?;
    Ok(rows)
}

/// The answer to what a change would do: the rows that go and those that come, of each bridge in order of declaration.
pub fn changes_text(alloc: Global, world: &World, change: &Command) -> Result<Vec<u8>, NoMemory>
    requires { change_refusal world.now change.now ≡ None }
    ensures { IfOk result
        (λ text. text.items ≡ texts.whatif_text (answers.named_changes world.now change.now)) }
{
    let list = changes(alloc, world, change)?;
    let rows = all_named(alloc, world, list.as_slice())?;
    whatif_text(alloc, rows.as_slice())
}
