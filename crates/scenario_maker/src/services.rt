//! The services and their members.
ghost use Rattle.std.specs.Prelude.{◌≡◌, ◌++◌, ◌≤◌, OnOk};
ghost use Rattle.scenario_maker.specs.Made as made;

use crate::names::{across, bridge_name, next_of};
use scenario::{Command, Mode};
use spb_types::NoMemory;

/// The I-SID of service `k`.
fn isid_of(k: u8) -> u64
    ensures { result ≡ made.isid_of k }
{
    1000 + u64::from(k)
}

/// The service `k`, in the base VID whose turn it is.
fn service(k: u8) -> Command
    ensures { result ≡ made.service k }
{
    Command::Isid {
        isid: isid_of(k),
        vid: if k % 2 == 1 { 10 } else { 20 },
    }
}

/// The customer port of a bridge becomes a member of service `k`.
fn attach(bridge: u8, port: u64, k: u8) -> Command
    requires { bridge ≤ 96 }
    ensures { result ≡ made.attach bridge port k }
{
    Command::Attach {
        bridge: bridge_name(bridge),
        port,
        isid: isid_of(k),
        mode: Mode::Both,
    }
}

/// The three members of service `k`.
fn push_members(script: &mut Vec<Command>, n: u8, k: u8) -> Result<(), NoMemory>
    requires few { n ≤ 96 }
    requires some { 1 ≤ k }
    requires within { k ≤ n }
    ensures { OnOk result (script.new.items ≡ script.old.items ++ made.members n k) }
{
    script.push(attach(k, 1, k))?;
    script.push(attach(next_of(n, k), 2, k))?;
    script.push(attach(across(n, k), 3, k))?;
    Ok(())
}

/// Puts the services behind the script.
#[tactic(auto, using(crate::proofs::Numbers::map_more))]
pub(crate) fn push_services(script: &mut Vec<Command>, n: u8) -> Result<(), NoMemory>
    requires { n ≤ 96 }
    ensures { OnOk result (script.new.items ≡ script.old.items ++ made.services n) }
{
    'services: for place in 0..n {
        script.push(service(place + 1))?;
    }
    Ok(())
}

/// Puts the members of all services behind the script.
#[tactic(auto, using(crate::proofs::Numbers::flat_more))]
pub(crate) fn push_attachments(script: &mut Vec<Command>, n: u8) -> Result<(), NoMemory>
    requires { n ≤ 96 }
    ensures { OnOk result (script.new.items ≡ script.old.items ++ made.attachments n) }
{
    'attachments: for place in 0..n {
        push_members(script, n, place + 1)?;
    }
    Ok(())
}
