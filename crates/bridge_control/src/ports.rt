//! Work on the ports of a bridge.
ghost use Rattle.std.specs.Prelude.{◌≡◌, ◌+◌, ◌-◌, ◌≤◌, Bool, true, false, length, map, drop, Some, IfOk, slice_get, slice_set, if◌then◌else◌};
ghost use Rattle.std.specs.List.{AllByRecursion};
ghost use Rattle.adjacency.specs.Adjacency as adjacency;
ghost use Rattle.lsdb.specs.Entry.{srm_set_at, flags_cleared_at};
ghost use Rattle.lsdb.specs.Database.{each};
ghost use Rattle.bridge_api.specs.declared.port.BridgePort.{BridgePort};
ghost use Rattle.bridge_api.specs.View.{is_port_up, up_from, port_in};
ghost use Rattle.bridge_api.specs.Config.{port_without_carrier};
ghost use Rattle.bridge_api.specs.Own as own;
ghost use Rattle.bridge_api.specs.Hearing as api;
ghost use Rattle.bridge_api.specs.Ticking as ticking;
ghost use Rattle.bridge_api.specs.Laws.{IsSoundPort};
ghost use Rattle.bridge_control.specs.Ports.{AreSoundPorts, AreUnused, IsSameEnd, with_hold, loses, has_lost};

use adjacency::{AdjState, Adjacency, AdjacencyChange};
use bridge_api::BridgePort;
use lsdb::Database;
use spb_tlvs::Neighbour;
use spb_types::{NoMemory, PortSet};
use std::alloc::Global;

/// Ports without carrier, with these metrics.
pub(crate) fn bare_ports(alloc: Global, metrics: &[u32]) -> Result<Vec<BridgePort>, NoMemory>
    ensures { IfOk result (λ ports. ports.items ≡ map port_without_carrier metrics.now) }
{
    let ports = metrics
        .iter()
        .map(|metric| bare_port(*metric))
        .collect(alloc)?;
    Ok(ports)
}

fn bare_port(metric: u32) -> BridgePort
    ensures { result ≡ port_without_carrier metric }
{
    BridgePort {
        adjacency: Adjacency::down(false),
        csnp_due: false,
        metric,
    }
}

/// The port of a number.
pub(crate) fn port_at(ports: &[BridgePort], port: u8) -> BridgePort
    requires low { 1 ≤ port }
    requires high { port ≤ length ports.now }
    ensures { port_in ports.now port ≡ Some result }
{
    ports[usize::from(port) - 1]
}

/// Gives the port of a number another state.
pub(crate) fn put_port(ports: &mut Vec<BridgePort>, port: u8, new: BridgePort)
    requires low { 1 ≤ port }
    requires high { port ≤ length ports.old.items }
    ensures { ports.new.items ≡ slice_set ports.old.items (port - 1) new }
{
    ports[usize::from(port) - 1] = new;
}

/// Gives the port of a number another holding count.
pub(crate) fn put_hold(ports: &mut Vec<BridgePort>, port: u8, hold: u16)
    requires low { 1 ≤ port }
    requires high { port ≤ length ports.old.items }
    ensures { (was : BridgePort) → port_in ports.old.items port ≡ Some was
        → ports.new.items ≡ slice_set ports.old.items (port - 1) (with_hold hold was) }
{
    ports[usize::from(port) - 1].adjacency.hold = hold;
}

pub(crate) fn is_up(port: &BridgePort) -> bool
    ensures { result ≡ is_port_up port.now }
{
    port.adjacency.state == AdjState::Up
}

/// Whether hellos say the same of two adjacencies, and are sent of both or of neither: one state, the same neighbour
/// and circuit, and carrier at both ports or at neither.
pub(crate) fn is_same_end(a: &Adjacency, b: &Adjacency) -> bool
    ensures { result ≡ true → IsSameEnd a.now b.now }
{
    a.carrier == b.carrier
        && a.state == b.state
        && a.neighbour == b.neighbour
        && a.circuit == b.circuit
}

/// The ports that are Up.
pub(crate) fn up_ports(ports: &[BridgePort]) -> PortSet
    requires { length ports.now ≤ 32 }
    ensures { result ≡ up_from 1 ports.now }
{
    let mut up = PortSet::none();
    'up: for place in (0..ports.len()).rev() {
        if is_up(&ports[place]) {
            up = up.with(place as u8 + 1);
        }
    }
    up
}

/// The neighbours at the ports that are Up, in order, each with the metric of the link there.
pub(crate) fn neighbours_at(alloc: Global, ports: &[BridgePort]) -> Result<Vec<Neighbour>, NoMemory>
    requires { length ports.now ≤ 32 }
    ensures { IfOk result (λ v. v.items ≡ own.neighbours_from 1 ports.now) }
{
    let mut neighbours = Vec::new(alloc);
    'find: for (place, port) in ports.iter().enumerate() {
        if is_up(port) {
            neighbours.push(neighbour_at(place as u16 + 1, port))?;
        }
    }
    Ok(neighbours)
}

fn neighbour_at(number: u16, port: &BridgePort) -> Neighbour
    ensures { result ≡ own.neighbour_in number port.now }
{
    Neighbour {
        system: port.adjacency.neighbour,
        metric: port.metric,
        port: number,
    }
}

/// How many ports there are up to the last with carrier. From the end, four of them are looked at together.
pub(crate) fn ports_in_use(ports: &[BridgePort]) -> usize
    ensures within { result ≤ length ports.now }
    ensures last { (port : BridgePort) → port_in ports.now result ≡ Some port → port.adjacency.carrier ≡ true }
    ensures unused { AreUnused (drop result ports.now) }
{
    let mut rest = ports.len();
    'skip: while rest >= 4 {
        if !are_four_unused(ports, rest - 4) {
            return last_in_use(ports, rest);
        }
        rest -= 4;
    }
    last_in_use(ports, rest)
}

/// Whether the four ports at a place have no carrier.
fn are_four_unused(ports: &[BridgePort], place: usize) -> bool
    requires { place + 4 ≤ length ports.now }
    ensures { result ≡ true → AreUnused (drop (place + 4) ports.now) → AreUnused (drop place ports.now) }
{
    is_unused_at(ports, place)
        & is_unused_at(ports, place + 1)
        & is_unused_at(ports, place + 2)
        & is_unused_at(ports, place + 3)
}

fn is_unused_at(ports: &[BridgePort], place: usize) -> bool
    requires { place + 1 ≤ length ports.now }
    ensures { result ≡ true → AreUnused (drop (place + 1) ports.now) → AreUnused (drop place ports.now) }
{
    !ports[place].adjacency.carrier
}

/// How many ports there are up to the last with carrier, where those from the place `rest` on have none.
fn last_in_use(ports: &[BridgePort], rest: usize) -> usize
    requires within { rest ≤ length ports.now }
    requires unused { AreUnused (drop rest ports.now) }
    ensures within { result ≤ length ports.now }
    ensures last { (port : BridgePort) → port_in ports.now result ≡ Some port → port.adjacency.carrier ≡ true }
    ensures unused { AreUnused (drop result ports.now) }
{
    'search: for place in (0..rest).rev() {
        if ports[place].adjacency.carrier {
            return place + 1;
        }
    }
    0
}

/// A second passes at each port: the holding counts fall. Where the neighbour at an Up port is lost, the flags of the
/// port are cleared and nothing is due there any more. Tells whether a neighbour is lost at any port. Only the first
/// ports, so many, are gone over: a second changes nothing at one without carrier.
pub(crate) fn count_down(ports: &mut Vec<BridgePort>, used: usize, db: &mut Database) -> bool
    requires few { length ports.old.items ≤ 32 }
    requires sound { AreSoundPorts ports.old.items }
    requires within { used ≤ length ports.old.items }
    requires unused { AreUnused (drop used ports.old.items) }
    ensures ports { ports.new.items ≡ map ticking.later ports.old.items }
    ensures db { db.new ≡ each (λ id e. ticking.flags_cleared_at_all (ticking.leaving_from 1 ports.old.items) e) db.old }
    ensures lost { result ≡ has_lost ports.old.items }
{
    let mut lost = false;
    'count: for place in 0..used {
        if count_down_at(place as u8 + 1, &mut ports[place], db) {
            lost = true;
        }
    }
    lost
}

/// A second passes at the port of a number: the flags of the port are cleared where it leaves Up. Tells whether its
/// neighbour is lost.
fn count_down_at(number: u8, port: &mut BridgePort, db: &mut Database) -> bool
    requires low { 1 ≤ number }
    requires high { number ≤ 32 }
    requires sound { IsSoundPort port.old }
    ensures port { port.new ≡ ticking.later port.old }
    ensures db { db.new ≡ (if ticking.leaves port.old then each (λ id e. flags_cleared_at number e) db.old else db.old) }
    ensures lost { result ≡ loses port.old }
{
    let was_down = is_down(port);
    if pass_second(port) {
        db.clear_port(number);
    }
    !was_down && is_down(port)
}

fn is_down(port: &BridgePort) -> bool
    ensures { result ≡ adjacency.is_down port.now.adjacency.state }
{
    port.adjacency.state == AdjState::Down
}

/// A second passes at a port. Tells whether its neighbour is lost and it leaves Up.
fn pass_second(port: &mut BridgePort) -> bool
    requires { IsSoundPort port.old }
    ensures port { port.new ≡ ticking.later port.old }
    ensures left { result ≡ ticking.leaves port.old }
{
    let left = port.adjacency.tick() == AdjacencyChange::LeftUp;
    port.csnp_due = port.csnp_due && !left;
    left
}

/// Nothing is due any more. Only the first ports, so many, are gone over: nothing is due at one without carrier.
pub(crate) fn clear_csnp_due(ports: &mut Vec<BridgePort>, used: usize)
    requires sound { AreSoundPorts ports.old.items }
    requires within { used ≤ length ports.old.items }
    requires unused { AreUnused (drop used ports.old.items) }
    ensures { ports.new.items ≡ map (api.with_csnp_due false) ports.old.items }
{
    'clear: for place in 0..used {
        ports[place].csnp_due = false;
    }
}

/// Each LSP that is held is to be sent at a port that has come up.
pub(crate) fn set_srm_for_all(db: &mut Database, port: u8)
    requires low { 1 ≤ port }
    requires high { port ≤ 32 }
    ensures { db.new ≡ each (λ id e. srm_set_at port e) db.old }
{
    for place in 0..db.len() {
        if let Some(held) = db.at(place) {
            if !held.version.is_absent() {
                db.set_srm_at(place, port, true);
            }
        }
    }
}
