//! Tests of `fdb_build`.
ghost use Rattle.std.specs.Prelude.{◌≤◌, [], ◌∷◌};
ghost use Rattle.spb_types.specs.Graph.{IsValidFor};
ghost use Rattle.fdb_build.specs.Tables.{ArePlans};

use crate::fixtures::{are_equal, graph_of};
use fdb_build::tables_of;
use spb_types::{
    BridgeId, Edge, Graph, GraphBridge, GroupRow, Isid, Mac, Member, PortSet, SourceId, SystemId,
    Tables, UnicastRow, Vid, VidPlan,
};
use std::alloc::Global;
use std::process::Abort;

macro_rules! plan {
    ($vid:expr, $ect:expr) => {
        VidPlan {
            vid: Vid { value: $vid },
            ect: $ect,
        }
    };
}

/// A member of the service 100, or of another, in VID 10, that sends and receives, or does what is said.
macro_rules! member {
    ($last:expr) => {
        member!($last, 100)
    };
    ($last:expr, $isid:expr) => {
        member!($last, $isid, true, true)
    };
    ($last:expr, $isid:expr, $transmit:expr, $receive:expr) => {
        Member {
            system: system!($last),
            isid: Isid { value: $isid },
            vid: Vid { value: 10 },
            transmit: $transmit,
            receive: $receive,
        }
    };
}

/// The tables of a bridge, under no contract: the tests ask for nothing but what they are.
fn tables(rt: &impl Abort, alloc: Global, graph: &Graph, me: SystemId, vids: &[VidPlan]) -> Tables
    requires graph { IsValidFor graph.now me }
    requires vids { ArePlans vids.now }
{
    tables_of(alloc, graph, me, vids).expect(rt, "out of memory")
}

/// The same with the VID 10 alone.
fn tables_in_10(rt: &impl Abort, alloc: Global, graph: &Graph, me: SystemId) -> Tables
    requires { IsValidFor graph.now me }
{
    tables(rt, alloc, graph, me, &[plan!(10, 1)])
}

/// The same with two VIDs.
fn tables_in_two(rt: &impl Abort, alloc: Global, graph: &Graph, me: SystemId) -> Tables
    requires { IsValidFor graph.now me }
{
    tables(rt, alloc, graph, me, &[plan!(20, 2), plan!(10, 1)])
}

/// The same with the greatest VID and the least.
fn tables_in_far(rt: &impl Abort, alloc: Global, graph: &Graph, me: SystemId) -> Tables
    requires { IsValidFor graph.now me }
{
    tables(rt, alloc, graph, me, &[plan!(4094, 16), plan!(1, 2)])
}

/// The same with no VID.
fn tables_in_none(rt: &impl Abort, alloc: Global, graph: &Graph, me: SystemId) -> Tables
    requires { IsValidFor graph.now me }
{
    tables(rt, alloc, graph, me, &[])
}

/// The tables have these unicast rows, by VID, last byte of the address and port, and no group rows.
fn check_rows(rt: &impl Abort, tables: &Tables, want: &[(u16, u8, u8)]) {
    are_equal(rt, &tables.unicast.len(), &want.len());
    for (row, (vid, last, port)) in tables.unicast.iter().zip(want) {
        let want = UnicastRow {
            vid: Vid { value: *vid },
            mac: mac!(*last),
            port: *port,
        };
        are_equal(rt, row, &want);
    }
    assert!(*rt; tables.group.is_empty());
}

const SQUARE_BRIDGES: [GraphBridge; 5] = [
    bridge!(4),
    bridge!(9),
    bridge!(1),
    bridge!(3),
    bridge!(2),
];

const SQUARE_EDGES: [Edge; 4] = [
    edge!(1, 5, 2, 1, 10),
    edge!(4, 8, 2, 2, 10),
    edge!(3, 1, 1, 32, 10),
    edge!(3, 2, 4, 6, 10),
];

/// Bridges 1, 2, 4, 3 in a square, whose two ways from corner to corner tie, and bridge 9, which has no edge.
fn square(rt: &impl Abort, alloc: Global) -> Graph
    ensures one { IsValidFor result (record { mac = record { bytes = 2 ∷ 0 ∷ 0 ∷ 0 ∷ 0 ∷ 1 ∷ [] } }) }
    ensures four { IsValidFor result (record { mac = record { bytes = 2 ∷ 0 ∷ 0 ∷ 0 ∷ 0 ∷ 4 ∷ [] } }) }
    ensures nine { IsValidFor result (record { mac = record { bytes = 2 ∷ 0 ∷ 0 ∷ 0 ∷ 0 ∷ 9 ∷ [] } }) }
{
    graph_of(rt, alloc, &SQUARE_BRIDGES, &SQUARE_EDGES, &[])
}

/// The unicast rows of bridge 1, by VID, last byte of the address and port.
const ROWS_OF_ONE: [(u16, u8, u8); 6] = [
    (10, 2, 5),
    (10, 3, 32),
    (10, 4, 5),
    (20, 2, 5),
    (20, 3, 32),
    (20, 4, 32),
];

/// Those of bridge 4.
const ROWS_OF_FOUR: [(u16, u8, u8); 6] = [
    (10, 1, 8),
    (10, 2, 8),
    (10, 3, 6),
    (20, 1, 6),
    (20, 2, 8),
    (20, 3, 6),
];

#[test]
fn ties_fall_by_the_mask_of_the_vid(rt: HostRuntime) {
    let graph = square(&rt, rt.alloc());
    let one = tables_in_two(&rt, rt.alloc(), &graph, system!(1));
    check_rows(&rt, &one, &ROWS_OF_ONE);
    let four = tables_in_two(&rt, rt.alloc(), &graph, system!(4));
    check_rows(&rt, &four, &ROWS_OF_FOUR);
}

#[test]
fn a_bridge_without_edges_has_no_rows(rt: HostRuntime) {
    let graph = square(&rt, rt.alloc());
    let nine = tables_in_10(&rt, rt.alloc(), &graph, system!(9));
    check_rows(&rt, &nine, &[]);
    let without_vids = tables_in_none(&rt, rt.alloc(), &graph, system!(1));
    check_rows(&rt, &without_vids, &[]);
}

const TRIANGLE_BRIDGES: [GraphBridge; 3] = [bridge!(3), bridge!(2), bridge!(1)];

const ONE_TO_TWO: Edge = edge!(1, 2, 2, 1, 10);

const TWO_TO_THREE: Edge = edge!(2, 3, 3, 2, 10);

/// Bridges 1, 2 and 3, each joined to both others, with a cost of the edge between 1 and 3 and one of 10 for the
/// others.
fn triangle(rt: &impl Abort, alloc: Global, cost: u32) -> Graph
    requires low { 1 ≤ cost }
    requires high { cost ≤ 1000 }
    ensures { IsValidFor result (record { mac = record { bytes = 2 ∷ 0 ∷ 0 ∷ 0 ∷ 0 ∷ 1 ∷ [] } }) }
{
    let edges = [ONE_TO_TWO, TWO_TO_THREE, edge!(3, 1, 1, 3, cost)];
    graph_of(rt, alloc, &TRIANGLE_BRIDGES, &edges, &[])
}

/// Bridge 1 of the triangle with an edge of this cost to bridge 3 comes there through this port.
fn check_port(rt: &impl Abort, alloc: Global, cost: u32, port: u8)
    requires low { 1 ≤ cost }
    requires high { cost ≤ 1000 }
{
    let graph = triangle(rt, alloc, cost);
    let tables = tables_in_far(rt, alloc, &graph, system!(1));
    let rows = [(1, 2, 2), (1, 3, port), (4094, 2, 2), (4094, 3, port)];
    check_rows(rt, &tables, &rows);
}

#[test]
fn rows_lead_to_the_second_bridge(rt: HostRuntime) {
    check_port(&rt, rt.alloc(), 19, 3);
    check_port(&rt, rt.alloc(), 20, 3);
    check_port(&rt, rt.alloc(), 21, 2);
}

/// The tables have these group rows in VID 10, by the source in the address and the bits of the ports.
fn check_groups(rt: &impl Abort, tables: &Tables, want: &[(u8, u32)]) {
    are_equal(rt, &tables.group.len(), &want.len());
    for (row, (source, bits)) in tables.group.iter().zip(want) {
        let want = GroupRow {
            vid: Vid { value: 10 },
            mac: Mac {
                bytes: [3, 0, *source, 0, 0, 100],
            },
            ports: PortSet { bits: *bits },
        };
        are_equal(rt, row, &want);
    }
}

const RING_BRIDGES: [GraphBridge; 6] = [
    bridge!(6),
    bridge!(1),
    bridge!(5),
    bridge!(2),
    bridge!(4),
    bridge!(3),
];

const RING_EDGES: [Edge; 6] = [
    edge!(1, 1, 2, 2, 10),
    edge!(2, 1, 3, 2, 10),
    edge!(3, 1, 4, 2, 10),
    edge!(4, 1, 5, 2, 10),
    edge!(5, 1, 6, 2, 10),
    edge!(6, 1, 1, 2, 10),
];

const RING_MEMBERS: [Member; 5] = [member!(5), member!(1), member!(4), member!(2), member!(3)];

/// Bridges 1 to 6 in a ring: port 1 leads to the next bridge, port 2 to the one before. All but 6 are members.
fn ring(rt: &impl Abort, alloc: Global) -> Graph
    ensures one { IsValidFor result (record { mac = record { bytes = 2 ∷ 0 ∷ 0 ∷ 0 ∷ 0 ∷ 1 ∷ [] } }) }
    ensures six { IsValidFor result (record { mac = record { bytes = 2 ∷ 0 ∷ 0 ∷ 0 ∷ 0 ∷ 6 ∷ [] } }) }
{
    graph_of(rt, alloc, &RING_BRIDGES, &RING_EDGES, &RING_MEMBERS)
}

#[test]
fn group_rows_lead_to_the_members_behind(rt: HostRuntime) {
    let graph = ring(&rt, rt.alloc());
    let one = tables_in_10(&rt, rt.alloc(), &graph, system!(1));
    check_groups(&rt, &one, &[(1, 0b11), (2, 0b10), (5, 0b01)]);
    let six = tables_in_10(&rt, rt.alloc(), &graph, system!(6));
    check_groups(&rt, &six, &[(1, 0b10), (2, 0b10), (5, 0b01)]);
}

const LINE_BRIDGES: [GraphBridge; 3] = [bridge!(1), bridge!(2), FAR];

/// Bridge 3, with the source of bridge 1 but for a bit above the low 20.
const FAR: GraphBridge = GraphBridge {
    id: BridgeId {
        priority: 32768,
        system: system!(3),
    },
    source: SourceId { value: 0x10_0001 },
};

const LINE_EDGES: [Edge; 2] = [edge!(1, 1, 2, 1, 10), edge!(2, 2, 3, 1, 10)];

const LINE_MEMBERS: [Member; 4] = [member!(1), member!(2), member!(3), member!(1, 7)];

/// Bridge 2 between bridges 1 and 3, whose sources differ above their low 20 bits. All are members of service 100, and
/// 1 alone of service 7.
fn line(rt: &impl Abort, alloc: Global) -> Graph
    ensures { IsValidFor result (record { mac = record { bytes = 2 ∷ 0 ∷ 0 ∷ 0 ∷ 0 ∷ 2 ∷ [] } }) }
{
    graph_of(rt, alloc, &LINE_BRIDGES, &LINE_EDGES, &LINE_MEMBERS)
}

#[test]
fn sources_with_one_address_share_a_row(rt: HostRuntime) {
    let graph = line(&rt, rt.alloc());
    let tables = tables_in_10(&rt, rt.alloc(), &graph, system!(2));
    check_groups(&rt, &tables, &[(1, 0b11), (2, 0b11)]);
}

const ONE_WAY_MEMBERS: [Member; 3] = [
    member!(1, 100, true, false),
    member!(2),
    member!(3, 100, false, true),
];

/// The same ring, of which 1 only sends, 2 sends and receives, and 3 only receives.
fn one_way_ring(rt: &impl Abort, alloc: Global) -> Graph
    ensures two { IsValidFor result (record { mac = record { bytes = 2 ∷ 0 ∷ 0 ∷ 0 ∷ 0 ∷ 2 ∷ [] } }) }
    ensures three { IsValidFor result (record { mac = record { bytes = 2 ∷ 0 ∷ 0 ∷ 0 ∷ 0 ∷ 3 ∷ [] } }) }
{
    graph_of(rt, alloc, &RING_BRIDGES, &RING_EDGES, &ONE_WAY_MEMBERS)
}

#[test]
fn group_rows_lead_from_senders_to_receivers(rt: HostRuntime) {
    let graph = one_way_ring(&rt, rt.alloc());
    let two = tables_in_10(&rt, rt.alloc(), &graph, system!(2));
    check_groups(&rt, &two, &[(1, 0b01), (2, 0b01)]);
    let three = tables_in_10(&rt, rt.alloc(), &graph, system!(3));
    check_groups(&rt, &three, &[]);
}
