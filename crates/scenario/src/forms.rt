//! The forms of lines: the words behind each keyword, in order.
ghost use Rattle.std.specs.Prelude.{◌≡◌};
ghost use Rattle.scenario.specs.Grammar.{read, form_of};
ghost use Rattle.scenario.specs.Answers.{Gives, Names};

use crate::command::Command;
use crate::error::LineError;
use crate::field::Hex;
use crate::keyword::Keyword;
use crate::words::Words;
use spb_types::{Mode, Name};
use std::alloc::Global;

/// The word behind a keyword that takes one name, as in `tick B`.
pub fn one_name(words: &mut Words<'_>) -> Result<Name, LineError>
    ensures { Names result words.old }
{
    let name = words.take()?;
    words.finish()?;
    Ok(name)
}

/// The words behind the keyword of `vid V E`.
pub fn vid(words: &mut Words<'_>) -> Result<Command, LineError>
    ensures { Gives result (read (form_of Keyword.Vid) words.old) }
{
    let vid = words.take()?;
    let ect = words.take()?;
    words.finish()?;
    Ok(Command::Vid { vid, ect })
}

/// The words behind the keyword of `bridge N PRIO SYSID SRC PORTS`.
pub fn bridge(words: &mut Words<'_>) -> Result<Command, LineError>
    ensures { Gives result (read (form_of Keyword.Bridge) words.old) }
{
    let name = words.take()?;
    let priority = words.take()?;
    let system = words.take()?;
    let source = words.take()?;
    let ports = words.take()?;
    words.finish()?;
    Ok(Command::Bridge {
        name,
        priority,
        system,
        source,
        ports,
    })
}

/// The words behind the keyword of `link L A PA B PB COST`.
pub fn link(words: &mut Words<'_>) -> Result<Command, LineError>
    ensures { Gives result (read (form_of Keyword.Link) words.old) }
{
    let name = words.take()?;
    let a = words.take()?;
    let port_a = words.take()?;
    let b = words.take()?;
    let port_b = words.take()?;
    let cost = words.take()?;
    words.finish()?;
    Ok(Command::Link {
        name,
        a,
        port_a,
        b,
        port_b,
        cost,
    })
}

/// The words behind the keyword of `isid I V`.
pub fn isid(words: &mut Words<'_>) -> Result<Command, LineError>
    ensures { Gives result (read (form_of Keyword.Isid) words.old) }
{
    let isid = words.take()?;
    let vid = words.take()?;
    words.finish()?;
    Ok(Command::Isid { isid, vid })
}

/// The words behind the keyword of `attach B P I [MODE]`.
pub fn attach(words: &mut Words<'_>) -> Result<Command, LineError>
    ensures { Gives result (read (form_of Keyword.Attach) words.old) }
{
    let bridge = words.take()?;
    let port = words.take()?;
    let isid = words.take()?;
    let mode = match words.take_more()? {
        Some(mode) => mode,
        None => Mode::Both,
    };
    words.finish()?;
    Ok(Command::Attach {
        bridge,
        port,
        isid,
        mode,
    })
}

/// The words behind the keyword of `detach B P`.
pub fn detach(words: &mut Words<'_>) -> Result<Command, LineError>
    ensures { Gives result (read (form_of Keyword.Detach) words.old) }
{
    let bridge = words.take()?;
    let port = words.take()?;
    words.finish()?;
    Ok(Command::Detach { bridge, port })
}

/// The words behind the keyword of `metric L END M`.
pub fn metric(words: &mut Words<'_>) -> Result<Command, LineError>
    ensures { Gives result (read (form_of Keyword.Metric) words.old) }
{
    let link = words.take()?;
    let side = words.take()?;
    let metric = words.take()?;
    words.finish()?;
    Ok(Command::Metric { link, side, metric })
}

/// The words behind the keyword of `deliver L DIR`.
pub fn deliver(words: &mut Words<'_>) -> Result<Command, LineError>
    ensures { Gives result (read (form_of Keyword.Deliver) words.old) }
{
    let link = words.take()?;
    let dir = words.take()?;
    words.finish()?;
    Ok(Command::Deliver { link, dir })
}

/// The words behind the keyword of `lose L DIR K`.
pub fn lose(words: &mut Words<'_>) -> Result<Command, LineError>
    ensures { Gives result (read (form_of Keyword.Lose) words.old) }
{
    let link = words.take()?;
    let dir = words.take()?;
    let place = words.take()?;
    words.finish()?;
    Ok(Command::Lose { link, dir, place })
}

/// The words behind the keyword of `double L DIR K`.
pub fn double(words: &mut Words<'_>) -> Result<Command, LineError>
    ensures { Gives result (read (form_of Keyword.Double) words.old) }
{
    let link = words.take()?;
    let dir = words.take()?;
    let place = words.take()?;
    words.finish()?;
    Ok(Command::Double { link, dir, place })
}

/// The words behind the keyword of `round N`.
pub fn round(words: &mut Words<'_>) -> Result<Command, LineError>
    ensures { Gives result (read (form_of Keyword.Round) words.old) }
{
    let times = words.take()?;
    words.finish()?;
    Ok(Command::Round(times))
}

/// The words behind the keyword of `drain N`.
pub fn drain(words: &mut Words<'_>) -> Result<Command, LineError>
    ensures { Gives result (read (form_of Keyword.Drain) words.old) }
{
    let most = words.take()?;
    words.finish()?;
    Ok(Command::Drain(most))
}

/// The words behind the keyword of `path A B V`.
pub fn path(words: &mut Words<'_>) -> Result<Command, LineError>
    ensures { Gives result (read (form_of Keyword.Path) words.old) }
{
    let from = words.take()?;
    let to = words.take()?;
    let vid = words.take()?;
    words.finish()?;
    Ok(Command::Path { from, to, vid })
}

/// The words behind the keyword of `frame B P HEX`.
pub fn frame(alloc: Global, words: &mut Words<'_>) -> Result<Command, LineError>
    ensures { Gives result (read (form_of Keyword.Frame) words.old) }
{
    let bridge = words.take()?;
    let port = words.take()?;
    let digits: Hex<'_> = words.take()?;
    words.finish()?;
    let frame = digits.bytes(alloc)?;
    Ok(Command::Frame {
        bridge,
        port,
        frame,
    })
}

/// The words behind the keyword of `state`.
pub fn state(words: &mut Words<'_>) -> Result<Command, LineError>
    ensures { Gives result (read (form_of Keyword.State) words.old) }
{
    words.finish()?;
    Ok(Command::State)
}
