//! The line `settle`: single rounds until the network is quiet, and what is answered to it.
ghost use Rattle.std.specs.Prelude.{◌≡◌, [], ◌++◌, IfOk, OnOk};
ghost use Rattle.std.specs.List.{flat_map};
ghost use Rattle.report.specs.Lines as texts;
ghost use Rattle.network_rounds.specs.Settling.{settle_refusal};
ghost use Rattle.spb_network.specs.Applying.{IsReady};
ghost use Rattle.spb_network.specs.Network.{state_of};
ghost use Rattle.script_run.specs.Answer as answers;
ghost use Rattle.script_run.specs.Play as play;
ghost use Rattle.script_run.specs.Replying.{Replies, Watched, IsAlive};

use crate::Refusal;
use crate::answer::outs_text;
use crate::play::refused;
use crate::reply::Reply;
use bridge_api::Bridge;
use report::settle_text;
use settle_laws::{Ready, Settled, settle, settle_watched};
use spb_network::{ApplyError, Delivered, NetworkOf, Out};
use spb_types::NoMemory;
use std::alloc::Global;

/// The line that tells what settling came to.
fn last_line(alloc: Global, settled: Settled) -> Result<Vec<u8>, NoMemory>
    ensures { IfOk result
        (λ text. text.items ≡ texts.settle_text settled.rounds (answers.why_of settled.left)) }
{
    match settled.left {
        Ready::Yes => settle_text(alloc, settled.rounds, None),
        Ready::Frame => settle_text(alloc, settled.rounds, Some("frame")),
        Ready::Lifetime => settle_text(alloc, settled.rounds, Some("lifetime")),
        Ready::OwnLifetime => settle_text(alloc, settled.rounds, Some("own")),
        Ready::Ids => settle_text(alloc, settled.rounds, Some("ids")),
    }
}

/// The lines of settling: the customer frames that left, and behind them what it came to.
fn settled_text(alloc: Global, outs: &[Out], settled: Settled) -> Result<Vec<u8>, NoMemory>
    ensures { IfOk result (λ text. text.items ≡ flat_map answers.text_of_out outs.now
        ++ texts.settle_text settled.rounds (answers.why_of settled.left)) }
{
    let mut text = outs_text(alloc, outs)?;
    let line = last_line(alloc, settled)?;
    text.extend_from_slice(line.as_slice())?;
    Ok(text)
}

/// Judges and plays a line that settles the network.
pub(crate) fn play_settle<B: Bridge>(
    alloc: Global,
    network: &mut NetworkOf<B>,
    number: u32,
) -> Result<Reply, NoMemory>
    requires { IsAlive B.shown network.old }
    ensures ok { IfOk result (λ reply. Replies
        (play.judged_settle (state_of B.shown network.old) number (settle_refusal (state_of B.shown network.old)))
        reply (state_of B.shown network.new)) }
    ensures alive { OnOk result (IsAlive B.shown network.new) }
    ensures ready { IsReady B.shown network.new }
{
    let mut outs = Vec::new(alloc);
    match settle(alloc, network, &mut outs) {
        Ok(settled) => Ok(Reply {
            text: settled_text(alloc, outs.as_slice(), settled)?,
            refused: None,
        }),
        Err(ApplyError::Refused(reason)) => refused(alloc, number, reason),
        Err(ApplyError::Halted | ApplyError::NoMemory) => Err(NoMemory),
    }
}

/// Judges and plays a line that settles the network, and notes what its rounds deliver, behind nothing. It says why it is
/// refused.
pub(crate) fn watch_settle<B: Bridge>(
    alloc: Global,
    network: &mut NetworkOf<B>,
    number: u32,
    seen: &mut Vec<Delivered>,
) -> Result<Option<Refusal>, NoMemory>
    requires alive { IsAlive B.shown network.old }
    requires none { seen.old.items ≡ [] }
    ensures ok { IfOk result (λ why. Watched
        (play.judged_settle (state_of B.shown network.old) number (settle_refusal (state_of B.shown network.old)))
        why seen.new.items (state_of B.shown network.new)) }
    ensures alive { OnOk result (IsAlive B.shown network.new) }
    ensures ready { IsReady B.shown network.new }
{
    let mut outs = Vec::new(alloc);
    match settle_watched(alloc, network, &mut outs, seen) {
        Ok(_settled) => Ok(None),
        Err(ApplyError::Refused(reason)) => Ok(Some(Refusal::Command(reason))),
        Err(ApplyError::Halted | ApplyError::NoMemory) => Err(NoMemory),
    }
}
