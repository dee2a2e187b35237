//! The base VIDs, the bridges, the ring and its chords.
ghost use Rattle.std.specs.Prelude.{◌≡◌, ◌++◌, ◌<◌, ◌≤◌, OnOk};
ghost use Rattle.scenario_maker.specs.Made as made;

use crate::names::{across, bridge_name, chord_name, next_of, ring_name};
use scenario::Command;
use spb_types::{Mac, NoMemory, SourceId};

/// The bridge `k`.
fn bridge(k: u8) -> Command
    requires { k < 100 }
    ensures { result ≡ made.bridge k }
{
    Command::Bridge {
        name: bridge_name(k),
        priority: 32_768,
        system: Mac {
            bytes: [2, 0, 0, 0, 0, k],
        },
        source: SourceId {
            value: u32::from(k),
        },
        ports: 3,
    }
}

/// The link of the ring from bridge `k` to the next one.
fn ring_link(n: u8, k: u8) -> Command
    requires few { n ≤ 96 }
    requires some { 1 ≤ k }
    requires within { k ≤ n }
    ensures { result ≡ made.ring_link n k }
{
    Command::Link {
        name: ring_name(k),
        a: bridge_name(k),
        port_a: 1,
        b: bridge_name(next_of(n, k)),
        port_b: 2,
        cost: 10 + u64::from(k % 3),
    }
}

/// The chord from bridge `k` to the one across.
fn chord(n: u8, k: u8) -> Command
    requires few { n ≤ 96 }
    requires within { k ≤ n }
    ensures { result ≡ made.chord n k }
{
    Command::Link {
        name: chord_name(k),
        a: bridge_name(k),
        port_a: 3,
        b: bridge_name(across(n, k)),
        port_b: 3,
        cost: 25,
    }
}

fn push_base_vids(script: &mut Vec<Command>) -> Result<(), NoMemory>
    ensures { OnOk result (script.new.items ≡ script.old.items ++ made.base_vids) }
{
    script.push(Command::Vid { vid: 10, ect: 1 })?;
    script.push(Command::Vid { vid: 20, ect: 2 })?;
    Ok(())
}

#[tactic(auto, using(crate::proofs::Numbers::map_more))]
fn push_bridges(script: &mut Vec<Command>, n: u8) -> Result<(), NoMemory>
    requires { n ≤ 96 }
    ensures { OnOk result (script.new.items ≡ script.old.items ++ made.bridges n) }
{
    'bridges: for place in 0..n {
        script.push(bridge(place + 1))?;
    }
    Ok(())
}

#[tactic(auto, using(crate::proofs::Numbers::map_more))]
fn push_ring(script: &mut Vec<Command>, n: u8) -> Result<(), NoMemory>
    requires { n ≤ 96 }
    ensures { OnOk result (script.new.items ≡ script.old.items ++ made.ring n) }
{
    'ring: for place in 0..n {
        script.push(ring_link(n, place + 1))?;
    }
    Ok(())
}

#[tactic(auto, using(crate::proofs::Numbers::map_more))]
fn push_chords(script: &mut Vec<Command>, n: u8) -> Result<(), NoMemory>
    requires { n ≤ 96 }
    ensures { OnOk result (script.new.items ≡ script.old.items ++ made.chords n) }
{
    'chords: for place in 0..(n / 2 + 2) / 3 {
        script.push(chord(n, 3 * place + 1))?;
    }
    Ok(())
}

/// Puts all that the network is made of behind the script.
pub(crate) fn push_network(script: &mut Vec<Command>, n: u8) -> Result<(), NoMemory>
    requires { n ≤ 96 }
    ensures { OnOk result (script.new.items ≡ script.old.items ++ made.network n) }
{
    push_base_vids(script)?;
    push_bridges(script, n)?;
    push_ring(script, n)?;
    push_chords(script, n)?;
    Ok(())
}
