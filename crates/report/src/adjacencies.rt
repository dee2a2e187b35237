//! The text of the adjacencies of a bridge's ports.
ghost use Rattle.std.specs.Prelude.{◌≡◌, ◌++◌, OnOk, IfOk};
ghost use Rattle.std.specs.List.{flat_map};
ghost use Rattle.report.specs.Adjacencies as texts;
ghost use Rattle.report.specs.Words.{spaced};

use crate::text::{LINE, Text};
use adjacency::{AdjState, Adjacency};
use spb_types::{Name, NoMemory};
use std::alloc::Global;

/// The answer that lists the adjacencies of a bridge's ports, from port 1 on, each with whether CSNPs are due there: a
/// line of `adj`, the bridge's name and the number of ports; then, for each port, `p PORT` and `off` without carrier,
/// `down`, `init SYSTEM CIRCUIT HOLD -`, or `up SYSTEM CIRCUIT HOLD` and `due` or `-`.
#[tactic(auto, unfolding(crate::specs::Adjacencies::adj_text))]
pub fn adj_text(alloc: Global, name: Name, ports: &[(Adjacency, bool)]) -> Result<Vec<u8>, NoMemory>
    ensures { IfOk result (λ bytes. bytes.items ≡ texts.adj_text name ports.now) }
{
    let lines = ports.len().saturating_add(1);
    let mut text = Text::with_room(alloc, lines.saturating_mul(LINE))?;
    text.push(b"adj")?;
    text.word(name.bytes())?;
    text.number(ports.len() as u64)?;
    text.end()?;
    put_ports(&mut text, ports)?;
    Ok(text.into_bytes())
}

fn put_ports(text: &mut Text, ports: &[(Adjacency, bool)]) -> Result<(), NoMemory>
    ensures { OnOk result (text.new ≡ text.old ++ texts.port_lines ports.now) }
{
    for (place, port) in ports.iter().enumerate() {
        put_port(text, place as u64 + 1, port)?;
    }
    Ok(())
}

#[tactic(auto, unfolding(crate::specs::Adjacencies::port_line))]
fn put_port(text: &mut Text, number: u64, port: &(Adjacency, bool)) -> Result<(), NoMemory>
    ensures { OnOk result (text.new ≡ text.old ++ texts.port_line number port.now) }
{
    text.push(b"p")?;
    text.number(number)?;
    put_adjacency(text, &port.0, port.1)?;
    text.end()
}

fn put_adjacency(text: &mut Text, adjacency: &Adjacency, due: bool) -> Result<(), NoMemory>
    ensures { OnOk result
        (text.new ≡ text.old ++ flat_map spaced (texts.adjacency_words adjacency.now due)) }
{
    if !adjacency.carrier {
        return text.word(b"off");
    }
    match adjacency.state {
        AdjState::Down => text.word(b"down"),
        AdjState::Initializing => {
            text.word(b"init")?;
            put_neighbour(text, adjacency)?;
            text.word(b"-")
        }
        AdjState::Up => {
            text.word(b"up")?;
            put_neighbour(text, adjacency)?;
            put_due(text, due)
        }
    }
}

fn put_neighbour(text: &mut Text, adjacency: &Adjacency) -> Result<(), NoMemory>
    ensures { OnOk result
        (text.new ≡ text.old ++ flat_map spaced (texts.neighbour_words adjacency.now)) }
{
    text.hex(adjacency.neighbour.mac.bytes.as_slice())?;
    text.number(u64::from(adjacency.circuit))?;
    text.number(u64::from(adjacency.hold))
}

fn put_due(text: &mut Text, due: bool) -> Result<(), NoMemory>
    ensures { OnOk result (text.new ≡ text.old ++ spaced (texts.due_text due)) }
{
    if due {
        text.word(b"due")
    } else {
        text.word(b"-")
    }
}
