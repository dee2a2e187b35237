//! Attachments that add nothing to what a bridge says of itself.
ghost use Rattle.std.specs.Prelude.{◌≡◌, IfOk};
ghost use Rattle.bridge_control.specs.Repeats as spec;

use spb_types::{Attachment, NoMemory};
use std::alloc::Global;

/// Whether this is attached to the service of another attachment, and does nothing there that the other doesn't do.
fn adds_nothing(b: &Attachment, a: &Attachment) -> bool
    ensures { result ≡ spec.adds_nothing a.now b.now }
{
    b.isid.value == a.isid.value
        && b.vid.value == a.vid.value
        && (a.mode.sends() || !b.mode.sends())
        && (a.mode.receives() || !b.mode.receives())
}

/// Whether the second attachment adds nothing to the first.
pub(crate) fn begins_with_repeat(attached: &[Attachment]) -> bool
    ensures { result ≡ spec.begins_with_repeat attached.now }
{
    attached.len() > 1 && adds_nothing(&attached[1], &attached[0])
}

/// What is attached, without what adds nothing to the last one before it that is left.
pub(crate) fn without_repeats(
    alloc: Global,
    attached: &[Attachment],
) -> Result<Vec<Attachment>, NoMemory>
    ensures { IfOk result (λ few. few.items ≡ spec.without_repeats attached.now) }
{
    let mut few = Vec::with_capacity(alloc, attached.len())?;
    let Some((first, rest)) = attached.split_first() else {
        return Ok(few);
    };
    let mut last = *first;
    few.push(last)?;
    for next in rest {
        if !adds_nothing(next, &last) {
            last = *next;
            few.push(last)?;
        }
    }
    Ok(few)
}
