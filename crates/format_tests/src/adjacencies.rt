//! Tests of `adjacency`: two systems A and B at the circuits 1 of each other.
ghost use Rattle.std.specs.Prelude.{◌≡◌, ◌≤◌, true};
ghost use Rattle.adjacency.specs.Adjacency.{IsSound};

use crate::fixtures::{are_equal, system};
use adjacency::{AdjState, Adjacency, AdjacencyChange, keeps_up};
use isis_pdu::Hello;
use spb_tlvs::ThreeWay;
use spb_types::SystemId;
use std::process::Abort;

/// A hello for levels of circuits of this type.
fn hello_for(circuit_type: u8, source: u8, holding: u16) -> Hello<'static> {
    Hello {
        circuit_type,
        source: system(source),
        holding,
        circuit: 1,
        tlvs: &[],
    }
}

fn hello(source: u8, holding: u16) -> Hello<'static> {
    hello_for(1, source, holding)
}

/// What a sender in this state says: as its neighbour A at circuit 1, unless Down.
fn way(state: AdjState) -> ThreeWay
    ensures { result.state ≤ 2 }
{
    match state {
        AdjState::Down => ThreeWay {
            state: 2,
            circuit: 1,
            neighbour: None,
        },
        AdjState::Initializing => ThreeWay {
            state: 1,
            circuit: 1,
            neighbour: Some((system(1), 1)),
        },
        AdjState::Up => ThreeWay {
            state: 0,
            circuit: 1,
            neighbour: Some((system(1), 1)),
        },
    }
}

/// A's port in this state; where it isn't Down, B's circuit 1 is kept for two seconds.
fn port_in(state: AdjState) -> Adjacency
    ensures carrier { result.carrier ≡ true }
    ensures sound { IsSound result }
{
    match state {
        AdjState::Down => Adjacency::down(true),
        AdjState::Initializing | AdjState::Up => Adjacency {
            carrier: true,
            state,
            neighbour: system(2),
            circuit: 1,
            hold: 2,
        },
    }
}

/// What A's port does at a hello, under no more of its contract than that the port may hear again.
fn heard(
    rt: &impl Abort,
    port: &mut Adjacency,
    hello: &Hello<'_>,
    way: &ThreeWay,
) -> AdjacencyChange
    requires state { way.now.state ≤ 2 }
    requires sound { IsSound port.old }
    ensures { IsSound port.new }
{
    assert!(*rt; port.carrier);
    port.hear(system(1), 1, hello, way)
}

/// Asserts what was done.
fn is_done(rt: &impl Abort, found: AdjacencyChange, want: AdjacencyChange) {
    are_equal(rt, &found, &want);
}

fn is_port(rt: &impl Abort, port: &Adjacency, expected: Adjacency) {
    are_equal(rt, port, &expected);
}

/// Asserts in which state a port is, and for how many seconds it keeps B, or none.
fn keeps(rt: &impl Abort, port: &Adjacency, state: AdjState, hold: u16) {
    are_equal(rt, &port.state, &state);
    are_equal(rt, &port.hold, &hold);
    are_equal(rt, &(port.neighbour == system(2)), &(hold > 0));
}

/// Asserts what a hello of B, in a state, does to A's port in a state, and in which state that is afterwards.
fn check_cell(
    rt: &impl Abort,
    state: AdjState,
    received: AdjState,
    after: AdjState,
    change: AdjacencyChange,
) {
    let mut port = port_in(state);
    let done = heard(rt, &mut port, &hello(2, 3), &way(received));
    is_done(rt, done, change);
    keeps(
        rt,
        &port,
        after,
        if after == AdjState::Down { 0 } else { 3 },
    );
}

#[test]
fn the_nine_cells_of_the_table(rt: HostRuntime) {
    let down = AdjState::Down;
    let init = AdjState::Initializing;
    let up = AdjState::Up;
    check_cell(&rt, down, down, init, AdjacencyChange::Kept);
    check_cell(&rt, down, init, up, AdjacencyChange::CameUp);
    check_cell(&rt, down, up, down, AdjacencyChange::Kept);
    check_cell(&rt, init, down, init, AdjacencyChange::Kept);
    check_cell(&rt, init, init, up, AdjacencyChange::CameUp);
    check_cell(&rt, init, up, up, AdjacencyChange::CameUp);
    check_cell(&rt, up, down, init, AdjacencyChange::LeftUp);
    check_cell(&rt, up, init, up, AdjacencyChange::Kept);
    check_cell(&rt, up, up, up, AdjacencyChange::Kept);
}

/// A hello with the holding time 0 makes A's port Down, which is in this state.
fn check_left(rt: &impl Abort, state: AdjState, change: AdjacencyChange) {
    let mut port = port_in(state);
    let way = way(AdjState::Initializing);
    is_done(rt, heard(rt, &mut port, &hello(2, 0), &way), change);
    is_port(rt, &port, Adjacency::down(true));
}

#[test]
fn holding_time_0_makes_it_down(rt: HostRuntime) {
    check_left(&rt, AdjState::Down, AdjacencyChange::Kept);
    check_left(&rt, AdjState::Initializing, AdjacencyChange::Kept);
    check_left(&rt, AdjState::Up, AdjacencyChange::LeftUp);
}

/// Whether A's port, Up, discards a hello that names this neighbour as Up, and stays as it was.
fn discards(rt: &impl Abort, hello: &Hello<'_>, neighbour: u8, circuit: u32) -> bool {
    let way = ThreeWay {
        state: 0,
        circuit: 1,
        neighbour: Some((system(neighbour), circuit)),
    };
    let mut port = port_in(AdjState::Up);
    let done = heard(rt, &mut port, hello, &way);
    done == AdjacencyChange::Discarded && port == port_in(AdjState::Up)
}

#[test]
fn hellos_of_no_use_are_discarded(rt: HostRuntime) {
    assert!(rt; discards(&rt, &hello(1, 3), 1, 1));
    // of level 2
    assert!(rt; discards(&rt, &hello_for(2, 2, 3), 1, 1));
    // to another system, and to another circuit
    assert!(rt; discards(&rt, &hello(2, 3), 9, 1));
    assert!(rt; discards(&rt, &hello(2, 0), 1, 2));
    // of both levels
    assert!(rt; !discards(&rt, &hello_for(3, 2, 3), 1, 1));
}

/// Asserts the state of a port, and the system and the circuit that it keeps.
fn is_kept(rt: &impl Abort, port: &Adjacency, state: AdjState, system: SystemId, circuit: u32) {
    are_equal(rt, &(port.state, port.neighbour), &(state, system));
    are_equal(rt, &port.circuit, &circuit);
}

#[test]
fn another_neighbour_or_circuit_begins_anew(rt: HostRuntime) {
    let mut moved = way(AdjState::Initializing);
    moved.circuit = 7;
    let mut port = port_in(AdjState::Up);
    let done = heard(&rt, &mut port, &hello(2, 3), &moved);
    is_done(&rt, done, AdjacencyChange::CameUp);
    is_kept(&rt, &port, AdjState::Up, system(2), 7);
    let done = heard(&rt, &mut port, &hello(3, 3), &way(AdjState::Down));
    is_done(&rt, done, AdjacencyChange::LeftUp);
    is_kept(&rt, &port, AdjState::Initializing, system(3), 1);
    let done = heard(&rt, &mut port, &hello(2, 3), &way(AdjState::Up));
    is_done(&rt, done, AdjacencyChange::Kept);
    is_port(&rt, &port, Adjacency::down(true));
}

/// A second passes at a port, which does this.
fn check_tick(rt: &impl Abort, port: &mut Adjacency, change: AdjacencyChange)
    requires { IsSound port.old }
    ensures { IsSound port.new }
{
    is_done(rt, port.tick(), change);
}

#[test]
fn the_neighbour_is_lost_when_the_count_ends(rt: HostRuntime) {
    let mut port = port_in(AdjState::Up);
    check_tick(&rt, &mut port, AdjacencyChange::Kept);
    keeps(&rt, &port, AdjState::Up, 1);
    check_tick(&rt, &mut port, AdjacencyChange::LeftUp);
    is_port(&rt, &port, Adjacency::down(true));
    check_tick(&rt, &mut port, AdjacencyChange::Kept);
}

/// Carrier comes to a port or goes, which does this, and leaves the port so.
fn check_carrier(
    rt: &impl Abort,
    port: &mut Adjacency,
    on: bool,
    change: AdjacencyChange,
    after: Adjacency,
)
    requires { IsSound port.old }
    ensures { IsSound port.new }
{
    is_done(rt, port.set_carrier(on), change);
    is_port(rt, port, after);
}

#[test]
fn the_neighbour_is_lost_when_the_carrier_goes(rt: HostRuntime) {
    let up = port_in(AdjState::Up);
    let mut port = up;
    check_carrier(&rt, &mut port, true, AdjacencyChange::Kept, up);
    let off = Adjacency::down(false);
    check_carrier(&rt, &mut port, false, AdjacencyChange::LeftUp, off);
    let on = Adjacency::down(true);
    check_carrier(&rt, &mut port, true, AdjacencyChange::Kept, on);
}

/// Asserts what A's port in a state says as the port of this number: that number, a state, and the neighbour.
fn check_said(
    rt: &impl Abort,
    kept: AdjState,
    port: u8,
    state: u8,
    neighbour: Option<(SystemId, u32)>,
) {
    let said = ThreeWay {
        state,
        circuit: u32::from(port),
        neighbour,
    };
    are_equal(rt, &port_in(kept).three_way(port), &said);
}

#[test]
fn the_own_hello_names_the_neighbour_unless_down(rt: HostRuntime) {
    let named = Some((system(2), 1));
    check_said(&rt, AdjState::Down, 1, 2, None);
    check_said(&rt, AdjState::Initializing, 4, 1, named);
    check_said(&rt, AdjState::Up, 4, 0, named);
}

/// How many seconds A's port in this state keeps its neighbour after a hello of a sender in a state, if that only begins
/// the count anew.
fn refreshed(state: AdjState, hello: &Hello<'_>, said: AdjState) -> Option<u16> {
    let mut port = port_in(state);
    let way = way(said);
    if keeps_up(system(1), 1, hello, &way) && hello.holding > 0 && port.refresh(hello, &way) {
        Some(port.hold)
    } else {
        None
    }
}

/// Asserts that of a hello of this system for so many seconds.
fn check_refreshed(
    rt: &impl Abort,
    state: AdjState,
    from: u8,
    holding: u16,
    said: AdjState,
    count: Option<u16>,
) {
    let found = refreshed(state, &hello(from, holding), said);
    are_equal(rt, &found, &count);
}

#[test]
fn a_hello_that_says_the_same_begins_the_count_anew(rt: HostRuntime) {
    let up = AdjState::Up;
    let init = AdjState::Initializing;
    check_refreshed(&rt, up, 2, 9, up, Some(9));
    check_refreshed(&rt, up, 2, 9, init, Some(9));
    check_refreshed(&rt, up, 2, 9, AdjState::Down, None);
    check_refreshed(&rt, up, 2, 0, up, None);
    check_refreshed(&rt, up, 3, 9, up, None);
    check_refreshed(&rt, init, 2, 9, up, None);
}
