//! The answer to a question.
ghost use Rattle.std.specs.Prelude.{◌≡◌, None, IfOk};
ghost use Rattle.spb_world.specs.World.{Sound};
ghost use Rattle.extra_answers.specs.Answers.{extra_text};
ghost use Rattle.extra_answers.specs.Refusing.{extra_refusal};

use crate::changing::changes_text;
use crate::checking::check_answer;
use crate::proving::proof_answer;
use scenario::Extra;
use spb_types::NoMemory;
use spb_world::World;
use std::alloc::Global;

/// The lines that are answered to a question that isn't refused. `Settle` is no question, and gets none.
pub fn answer(alloc: Global, world: &World, extra: &Extra) -> Result<Vec<u8>, NoMemory>
    requires sound { Sound world.now }
    requires accepted { extra_refusal world.now extra.now ≡ None }
    ensures { IfOk result (λ text. text.items ≡ extra_text world.now extra.now) }
{
    match extra {
        Extra::WhatIf(change) => changes_text(alloc, world, change),
        Extra::Proof { from, to, vid } => proof_answer(alloc, world, *from, *to, *vid),
        Extra::Check {
            from,
            to,
            vid,
            entries,
        } => check_answer(alloc, world, *from, *to, *vid, entries.as_slice()),
        Extra::Settle => Ok(Vec::new(alloc)),
    }
}
