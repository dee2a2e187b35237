//! Which text of `report` is written for which answer.
ghost use Rattle.std.specs.Prelude.{◌≡◌, IfOk};
ghost use Rattle.std.specs.List.{flat_map};
ghost use Rattle.script_run.specs.Answer.{text_of_out, text_of_answer};

use report::{adj_text, db_text, drops_text, out_text, path_text, state_text, tables_text};
use spb_network::{Answer, Out};
use spb_types::NoMemory;
use std::alloc::Global;

/// The lines of customer frames that leave, in order.
pub(crate) fn outs_text(alloc: Global, frames: &[Out]) -> Result<Vec<u8>, NoMemory>
    ensures { IfOk result (λ text. text.items ≡ flat_map text_of_out frames.now) }
{
    let mut text = Vec::new(alloc);
    for out in frames {
        let line = out_text(alloc, out.bridge, out.port, out.frame.as_slice())?;
        text.extend_from_slice(line.as_slice())?;
    }
    Ok(text)
}

/// The lines of an answer.
pub(crate) fn answer_text(alloc: Global, answer: &Answer) -> Result<Vec<u8>, NoMemory>
    ensures { IfOk result (λ text. text.items ≡ text_of_answer answer.now) }
{
    match answer {
        Answer::Silent => Ok(Vec::new(alloc)),
        Answer::Outs { frames } => outs_text(alloc, frames.as_slice()),
        Answer::State { failing } => state_text(alloc, failing.as_slice()),
        Answer::Show {
            bridge,
            quiet,
            tables,
        } => tables_text(alloc, "show", *bridge, Some(*quiet), tables),
        Answer::Wiring { bridge, tables } => tables_text(alloc, "wiring", *bridge, None, tables),
        Answer::Db { bridge, rows } => db_text(alloc, *bridge, rows.as_slice()),
        Answer::Adj { bridge, ports } => adj_text(alloc, *bridge, ports.as_slice()),
        Answer::Path {
            from,
            to,
            vid,
            cost,
            names,
        } => path_text(alloc, *from, *to, *vid, *cost, names.as_slice()),
        Answer::Drops { bridge, counts } => drops_text(alloc, *bridge, counts),
    }
}
