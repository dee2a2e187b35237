//! One line of a script: read, judged, played, and answered.
ghost use Rattle.std.specs.Prelude.{◌≡◌, [], Some, None, codes, IfOk, OnOk};
ghost use Rattle.extra_answers.specs.Refusing.{extra_refusal};
ghost use Rattle.report.specs.Lines as texts;
ghost use Rattle.scenario.specs.Grammar.{line_of};
ghost use Rattle.spb_network.specs.Applying.{IsReady};
ghost use Rattle.spb_network.specs.Network.{state_of};
ghost use Rattle.spb_world.specs.Reason as reasons;
ghost use Rattle.network_model.specs.Refusing as refuse;
ghost use Rattle.script_run.specs.Play as play;
ghost use Rattle.script_run.specs.Replying.{Replies, Watched, IsAlive};
ghost use Rattle.script_run.specs.declared.refusal.Refusal.TheVariants as refusal;

use crate::Refusal;
use crate::answer::answer_text;
use crate::reply::Reply;
use crate::settling::{play_settle, watch_settle};
use bridge_api::Bridge;
use extra_answers::{answer, refusal};
use report::error_text;
use scenario::{Command, Extra, LineError, parse_extra, parse_line};
use spb_network::{ApplyError, Delivered, NetworkOf, Reason};
use spb_types::NoMemory;
use std::alloc::Global;

/// The reply to a line that is outside the grammar from a column on.
pub(crate) fn misspelled(alloc: Global, number: u32, column: usize) -> Result<Reply, NoMemory>
    ensures { IfOk result (λ reply. (reply.text.items ≡ play.misspelled_text number column)
        × (reply.refused ≡ Some (refusal.Words column))) }
{
    Ok(Reply {
        text: error_text(alloc, number, 1, "Words", Some(column))?,
        refused: Some(Refusal::Words(column)),
    })
}

/// The reply to a command that is refused.
pub(crate) fn refused(alloc: Global, number: u32, reason: Reason) -> Result<Reply, NoMemory>
    ensures { IfOk result (λ reply. (reply.text.items ≡ texts.error_text number (reasons.reason_number reason) (reasons.name_of reason) None)
        × (reply.refused ≡ Some (refusal.Command reason))) }
{
    Ok(Reply {
        text: error_text(alloc, number, reason.number(), reason.name(), None)?,
        refused: Some(Refusal::Command(reason)),
    })
}

/// Plays a command that a line gave.
fn play_command<B: Bridge>(
    alloc: Global,
    network: &mut NetworkOf<B>,
    number: u32,
    command: &Command,
) -> Result<Reply, NoMemory>
    requires { IsAlive B.shown network.old }
    ensures ok { IfOk result (λ reply. Replies
        (play.judged_by (state_of B.shown network.old) number command.now
        (refuse.refusal_of (state_of B.shown network.old) command.now))
        reply (state_of B.shown network.new)) }
    ensures alive { OnOk result (IsAlive B.shown network.new) }
    ensures ready { IsReady B.shown network.new }
{
    match network.apply(command) {
        Ok(answer) => Ok(Reply {
            text: answer_text(alloc, &answer)?,
            refused: None,
        }),
        Err(ApplyError::Refused(reason)) => refused(alloc, number, reason),
        Err(ApplyError::Halted | ApplyError::NoMemory) => Err(NoMemory),
    }
}

/// Judges and plays the line of this number as a command, or passes over it where it is blank or a comment.
fn play_plain<B: Bridge>(
    alloc: Global,
    network: &mut NetworkOf<B>,
    number: u32,
    line: &[u8],
) -> Result<Reply, NoMemory>
    requires { IsAlive B.shown network.old }
    ensures ok { IfOk result (λ reply. Replies
        (play.judged_as (state_of B.shown network.old) number (line_of line.now))
        reply (state_of B.shown network.new)) }
    ensures alive { OnOk result (IsAlive B.shown network.new) }
    ensures ready { IsReady B.shown network.new }
{
    match parse_line(alloc, line) {
        Ok(Some(command)) => play_command(alloc, network, number, &command),
        Ok(None) => Ok(Reply {
            text: Vec::new(alloc),
            refused: None,
        }),
        Err(LineError::Words(column)) => misspelled(alloc, number, column),
        Err(LineError::NoMemory) => Err(NoMemory),
    }
}

/// Makes ready what the answer to a question reads of the wiring as it is. Nothing of the network changes.
fn prepare<B: Bridge>(network: &mut NetworkOf<B>, extra: &Extra) -> Result<(), NoMemory>
    ensures { network.new ≡ network.old }
{
    match extra {
        Extra::Proof { .. } | Extra::Check { .. } => network.keep_fabric(),
        Extra::WhatIf(_) | Extra::Settle => Ok(()),
    }
}

/// Judges and answers a question that changes nothing.
fn answer_question<B: Bridge>(
    alloc: Global,
    network: &mut NetworkOf<B>,
    number: u32,
    extra: &Extra,
) -> Result<Reply, NoMemory>
    requires { IsAlive B.shown network.old }
    ensures ok { IfOk result (λ reply. Replies
        (play.judged_extra (state_of B.shown network.old) number extra.now
        (extra_refusal (state_of B.shown network.old).world extra.now))
        reply (state_of B.shown network.new)) }
    ensures alive { OnOk result (IsAlive B.shown network.new) }
    ensures ready { IsReady B.shown network.new }
{
    match refusal(network.world(), extra) {
        Some(reason) => refused(alloc, number, reason),
        None => {
            prepare(network, extra)?;
            Ok(Reply {
                text: answer(alloc, network.world(), extra)?,
                refused: None,
            })
        }
    }
}

/// Judges and plays what asks for something and is no command.
fn play_extra<B: Bridge>(
    alloc: Global,
    network: &mut NetworkOf<B>,
    number: u32,
    extra: &Extra,
) -> Result<Reply, NoMemory>
    requires { IsAlive B.shown network.old }
    ensures ok { IfOk result (λ reply. Replies
        (play.judged_asked (state_of B.shown network.old) number extra.now)
        reply (state_of B.shown network.new)) }
    ensures alive { OnOk result (IsAlive B.shown network.new) }
    ensures ready { IsReady B.shown network.new }
{
    match extra {
        Extra::Settle => play_settle(alloc, network, number),
        Extra::WhatIf(_) | Extra::Proof { .. } | Extra::Check { .. } => {
            answer_question(alloc, network, number, extra)
        }
    }
}

/// Judges and plays the line of this number, counted from 1, given without its end. After NoMemory nothing is said of
/// the network.
#[tactic(auto, unfolding(crate::specs::Play::judged))]
pub(crate) fn play_line<B: Bridge>(
    alloc: Global,
    network: &mut NetworkOf<B>,
    number: u32,
    line: &[u8],
) -> Result<Reply, NoMemory>
    requires { IsAlive B.shown network.old }
    ensures ok { IfOk result (λ reply. Replies
        (play.judged (state_of B.shown network.old) number line.now)
        reply (state_of B.shown network.new)) }
    ensures alive { OnOk result (IsAlive B.shown network.new) }
    ensures ready { IsReady B.shown network.new }
{
    match parse_extra(alloc, line) {
        Ok(Some(extra)) => play_extra(alloc, network, number, &extra),
        Ok(None) => play_plain(alloc, network, number, line),
        Err(LineError::Words(at)) => misspelled(alloc, number, at),
        Err(LineError::NoMemory) => Err(NoMemory),
    }
}

/// Plays a command that a line gave, and notes what it delivers, behind nothing. It says why it is refused.
fn watch_command<B: Bridge>(
    network: &mut NetworkOf<B>,
    number: u32,
    command: &Command,
    seen: &mut Vec<Delivered>,
) -> Result<Option<Refusal>, NoMemory>
    requires alive { IsAlive B.shown network.old }
    requires none { seen.old.items ≡ [] }
    ensures ok { IfOk result (λ refused. Watched
        (play.judged_by (state_of B.shown network.old) number command.now
        (refuse.refusal_of (state_of B.shown network.old) command.now))
        refused seen.new.items (state_of B.shown network.new)) }
    ensures alive { OnOk result (IsAlive B.shown network.new) }
    ensures ready { IsReady B.shown network.new }
{
    match network.apply_watched(command, seen) {
        Ok(_answer) => Ok(None),
        Err(ApplyError::Refused(reason)) => Ok(Some(Refusal::Command(reason))),
        Err(ApplyError::Halted | ApplyError::NoMemory) => Err(NoMemory),
    }
}

/// Judges and plays the line of this number as a command, or passes over it where it is blank or a comment. It notes what
/// the line delivers, behind nothing.
fn watch_plain<B: Bridge>(
    alloc: Global,
    network: &mut NetworkOf<B>,
    number: u32,
    line: &[u8],
    seen: &mut Vec<Delivered>,
) -> Result<Option<Refusal>, NoMemory>
    requires alive { IsAlive B.shown network.old }
    requires none { seen.old.items ≡ [] }
    ensures ok { IfOk result (λ refused. Watched
        (play.judged_as (state_of B.shown network.old) number (line_of line.now))
        refused seen.new.items (state_of B.shown network.new)) }
    ensures alive { OnOk result (IsAlive B.shown network.new) }
    ensures ready { IsReady B.shown network.new }
{
    match parse_line(alloc, line) {
        Ok(Some(command)) => watch_command(network, number, &command, seen),
        Ok(None) => Ok(None),
        Err(LineError::Words(column)) => Ok(Some(Refusal::Words(column))),
        Err(LineError::NoMemory) => Err(NoMemory),
    }
}

/// Judges a question that changes nothing. Nothing is delivered by it.
fn watch_question<B: Bridge>(network: &NetworkOf<B>, extra: &Extra) -> Option<Refusal>
    ensures { (number : _) → Watched
        (play.judged_extra (state_of B.shown network.now) number extra.now
        (extra_refusal (state_of B.shown network.now).world extra.now))
        result [] (state_of B.shown network.now) }
{
    match refusal(network.world(), extra) {
        Some(reason) => Some(Refusal::Command(reason)),
        None => None,
    }
}

/// Judges and plays what asks for something and is no command, and notes what it delivers, behind nothing.
fn watch_extra<B: Bridge>(
    alloc: Global,
    network: &mut NetworkOf<B>,
    number: u32,
    extra: &Extra,
    seen: &mut Vec<Delivered>,
) -> Result<Option<Refusal>, NoMemory>
    requires alive { IsAlive B.shown network.old }
    requires none { seen.old.items ≡ [] }
    ensures ok { IfOk result (λ refused. Watched
        (play.judged_asked (state_of B.shown network.old) number extra.now)
        refused seen.new.items (state_of B.shown network.new)) }
    ensures alive { OnOk result (IsAlive B.shown network.new) }
    ensures ready { IsReady B.shown network.new }
{
    match extra {
        Extra::Settle => watch_settle(alloc, network, number, seen),
        Extra::WhatIf(_) | Extra::Proof { .. } | Extra::Check { .. } => {
            Ok(watch_question(network, extra))
        }
    }
}

/// Judges and plays the line of this number, as [`play_line`] does, and notes what it delivers, behind nothing. It says
/// why it is refused. After NoMemory nothing is said of the network, nor of what was noted.
#[tactic(auto, unfolding(crate::specs::Play::judged))]
pub(crate) fn watch_line<B: Bridge>(
    alloc: Global,
    network: &mut NetworkOf<B>,
    number: u32,
    line: &[u8],
    seen: &mut Vec<Delivered>,
) -> Result<Option<Refusal>, NoMemory>
    requires alive { IsAlive B.shown network.old }
    requires none { seen.old.items ≡ [] }
    ensures ok { IfOk result (λ refused. Watched (play.judged (state_of B.shown network.old) number line.now)
        refused seen.new.items (state_of B.shown network.new)) }
    ensures alive { OnOk result (IsAlive B.shown network.new) }
    ensures ready { IsReady B.shown network.new }
{
    match parse_extra(alloc, line) {
        Ok(Some(extra)) => watch_extra(alloc, network, number, &extra, seen),
        Ok(None) => watch_plain(alloc, network, number, line, seen),
        Err(LineError::Words(column)) => Ok(Some(Refusal::Words(column))),
        Err(LineError::NoMemory) => Err(NoMemory),
    }
}
