//! Tests of `spb_content`.
ghost use Rattle.std.specs.Prelude.{◌≡◌, ◌+◌, ◌%◌, ◌≤◌, ◌<◌, length, IfOk};
ghost use Rattle.std.specs.List.{AllByRecursion};
ghost use Rattle.spb_types.specs.Graph.{IsDistinct};
ghost use Rattle.spb_content.specs.Graph.{systems_in};
ghost use Rattle.spb_content.specs.Local.{IsLocal};

use crate::fixtures::{are_bytes, are_equal, hex, system};
use spb_content::{
    BridgeConfigFacts, Content, Inst, Local, bodies_of, content_of, graph_of, read_content,
    said_graph_of,
};
use spb_tlvs::{Neighbour, Service, find_tlv, read_neighbours};
use spb_types::{
    BridgeId, Edge, Graph, Isid, Mac, Member, NoMemory, Seq, SourceId, SystemId, Vid, VidPlan,
};
use std::alloc::Global;
use std::process::Abort;

/// An entry for the system with this last byte.
fn entry(to: u8, metric: u32, port: u16) -> Neighbour
    ensures { result.metric ≡ metric }
{
    Neighbour {
        system: system(to),
        metric,
        port,
    }
}

/// Bridges 2, 3 and so on at the ports 1, 2 and so on, over links of metric 10.
fn neighbours(alloc: Global, count: u8) -> Result<Seq<Neighbour>, NoMemory>
    requires { count ≤ 32 }
    ensures { IfOk result (AllByRecursion (λ n. n.metric < 16777216)) }
{
    let mut neighbours = Seq::new(alloc);
    for place in 0..count {
        neighbours.push(entry(place + 2, 10, u16::from(place) + 1))?;
    }
    Ok(neighbours)
}

/// Bridge 1 without VIDs, with these neighbours.
fn linked(alloc: Global, neighbours: Seq<Neighbour>) -> Local
    requires { AllByRecursion (λ n. n.metric < 16777216) neighbours }
    ensures { IsLocal result }
{
    Local {
        config: BridgeConfigFacts {
            id: BridgeId {
                priority: 32768,
                system: system(1),
            },
            source: SourceId { value: 1 },
            vids: Seq::new(alloc),
        },
        neighbours,
        attached: Seq::new(alloc),
    }
}

/// A fragment of what a bridge says of itself, under no contract: the tests ask for nothing but what it is.
fn fragment(rt: &impl Abort, alloc: Global, local: &Local, number: u8) -> Option<Vec<u8>>
    requires { IsLocal local.now }
{
    content_of(alloc, local, number).expect(rt, "out of memory")
}

/// What a bridge says of itself in its first LSP.
fn said(rt: &impl Abort, alloc: Global, local: &Local) -> Vec<u8>
    requires { IsLocal local.now }
{
    fragment(rt, alloc, local, 0).expect(rt, "no first fragment")
}

/// The TLVs of bridge 1 with so many neighbours.
fn written(rt: &impl Abort, alloc: Global, count: u8) -> Vec<u8>
    requires { count ≤ 32 }
{
    let neighbours = neighbours(alloc, count).expect(rt, "out of memory");
    said(rt, alloc, &linked(alloc, neighbours))
}

/// The TLVs of that bridge with one neighbour, made by hand.
const TLVS: &str = "01 04 03 49 00 01 81 01 c1
    16 13 02 00 00 00 00 02 00 00 00 0a 08 1d 06 00 00 0a 01 00 01
    90 17 00 00 01 13 00 00 00 00 00 00 00 00 00 00 00 00 80 00 00 00 00 01 00";

#[test]
fn a_bridge_with_a_neighbour_writes_its_tlvs(rt: HostRuntime) {
    let content = written(&rt, rt.alloc(), 1);
    are_bytes(
        &rt,
        content.as_slice(),
        hex(&rt, rt.alloc(), TLVS).as_slice(),
    );
}

/// What is read of these TLVs, under no contract.
fn read(rt: &impl Abort, alloc: Global, tlvs: &[u8]) -> Content {
    read_content(alloc, tlvs).expect(rt, "refused")
}

/// Asserts that the content has an SPB-Inst with this priority and this source id.
fn has_inst(rt: &impl Abort, content: &Content, priority: u16, source: u32) {
    let inst = content.inst.as_ref().expect(rt, "no SPB-Inst");
    are_equal(rt, &(inst.priority, inst.source.value), &(priority, source));
}

#[test]
fn what_is_written_is_read(rt: HostRuntime) {
    let tlvs = written(&rt, rt.alloc(), 1);
    let content = read(&rt, rt.alloc(), tlvs.as_slice());
    are_equal(&rt, &content.neighbours.len(), &1);
    are_equal(&rt, &content.services.len(), &0);
    has_inst(&rt, &content, 32768, 1);
}

/// Asserts that the TLV 22 of this number names so many neighbours, of which this is the last.
fn has_neighbours(
    rt: &impl Abort,
    alloc: Global,
    tlvs: &[u8],
    nth: usize,
    count: usize,
    last: Neighbour,
) {
    let value = find_tlv(tlvs, 22, nth).expect(rt, "too few TLVs 22");
    let read = read_neighbours(alloc, value).expect(rt, "refused");
    are_equal(rt, &read.len(), &count);
    are_equal(rt, &read.last().copied(), &Some(last));
}

#[test]
fn the_fourteenth_neighbour_takes_a_second_tlv(rt: HostRuntime) {
    let tlvs = written(&rt, rt.alloc(), 14);
    let (first, second) = (entry(14, 10, 13), entry(15, 10, 14));
    has_neighbours(&rt, rt.alloc(), tlvs.as_slice(), 0, 13, first);
    has_neighbours(&rt, rt.alloc(), tlvs.as_slice(), 1, 1, second);
    assert!(rt; find_tlv(tlvs.as_slice(), 22, 2).is_none());
}

/// Bridge 1 with a service in a base VID: an attached customer port, or a member of a graph.
fn attached(isid: u32, vid: u16) -> Member
    ensures isid { result.isid.value ≡ isid }
    ensures vid { result.vid.value ≡ vid }
{
    doing(isid, vid, true, true)
}

/// The same, where it only sends or only receives.
fn doing(isid: u32, vid: u16, transmit: bool, receive: bool) -> Member
    ensures isid { result.isid.value ≡ isid }
    ensures vid { result.vid.value ≡ vid }
{
    Member {
        system: system(1),
        isid: Isid { value: isid },
        vid: Vid { value: vid },
        transmit,
        receive,
    }
}

/// Bridge 1 with two VIDs, two neighbours and three services: it sends to one, receives from another, and does both in
/// the third, where it has a port for each.
fn serving(rt: &impl Abort, alloc: Global) -> Local
    ensures { IsLocal result }
{
    let vids = [
        VidPlan {
            vid: Vid { value: 20 },
            ect: 2,
        },
        VidPlan {
            vid: Vid { value: 10 },
            ect: 1,
        },
    ];
    let neighbours = [entry(2, 10, 1), entry(3, 0x01_2345, 3)];
    let ports = [
        doing(300, 20, true, false),
        doing(200, 10, false, true),
        doing(100, 10, false, true),
        doing(200, 10, true, false),
    ];
    Local {
        config: BridgeConfigFacts {
            id: BridgeId {
                priority: 32768,
                system: system(1),
            },
            source: SourceId { value: 1 },
            vids: Seq::from_vec(Vec::from_slice(alloc, &vids).expect(rt, "out of memory")),
        },
        neighbours: Seq::from_vec(Vec::from_slice(alloc, &neighbours).expect(rt, "out of memory")),
        attached: Seq::from_vec(Vec::from_slice(alloc, &ports).expect(rt, "out of memory")),
    }
}

/// Its TLVs, made by hand: a TLV 22 with two entries of 19 bytes, the SPB-Inst with the trees of the VIDs 10 and 20,
/// and the services, which are the I-SIDs 100 with R and 200 with both in VID 10, and 300 with T in VID 20.
const SERVING: &str = "01 04 03 49 00 01 81 01 c1
    16 26 02 00 00 00 00 02 00 00 00 0a 08 1d 06 00 00 0a 01 00 01
          02 00 00 00 00 03 00 01 23 45 08 1d 06 01 23 45 01 00 03
    90 27 00 00 01 23 00 00 00 00 00 00 00 00 00 00 00 00 80 00 00 00 00 01 02
          40 00 80 c2 01 00 a0 00 40 00 80 c2 02 01 40 00
    90 14 00 00 03 10 02 00 00 00 00 01 00 0a 40 00 00 64 c0 00 00 c8
    90 10 00 00 03 0c 02 00 00 00 00 01 00 14 80 00 01 2c";

#[test]
fn vids_and_services_are_written_ascending(rt: HostRuntime) {
    let content = said(&rt, rt.alloc(), &serving(&rt, rt.alloc()));
    are_bytes(
        &rt,
        content.as_slice(),
        hex(&rt, rt.alloc(), SERVING).as_slice(),
    );
}

/// Ports of bridge 1 at the I-SIDs 60 down to 1 and at 60 again, and so on; an I-SID is in one of so many VIDs.
fn ports(alloc: Global, count: u8, vids: u16) -> Result<Seq<Member>, NoMemory>
    requires vids { (1 ≤ vids) × (vids ≤ 16) }
    ensures { IfOk result (AllByRecursion (λ m. (1 ≤ m.isid.value) × (m.isid.value ≤ 60) × (m.vid.value ≡ 10 + m.isid.value % vids))) }
{
    let mut ports = Seq::new(alloc);
    for place in 0..count {
        let isid = 60 - u16::from(place % 60);
        ports.push(attached(u32::from(isid), 10 + isid % vids))?;
    }
    Ok(ports)
}

/// Bridge 1 without neighbours, with these ports attached.
fn attached_at(alloc: Global, count: u8, vids: u16) -> Result<Local, NoMemory>
    requires vids { (1 ≤ vids) × (vids ≤ 16) }
    ensures { IfOk result IsLocal }
{
    let mut local = linked(alloc, Seq::new(alloc));
    let attached = ports(alloc, count, vids)?;
    local.attached = attached;
    Ok(local)
}

/// Asserts that all that bridge 1 says with so many ports is in fragment 0, and how that is written.
fn is_in_one(rt: &impl Abort, alloc: Global, count: u8, vids: u16, tlvs: &str)
    requires vids { (1 ≤ vids) × (vids ≤ 16) }
{
    let local = attached_at(alloc, count, vids).expect(rt, "out of memory");
    are_bytes(
        rt,
        said(rt, alloc, &local).as_slice(),
        hex(rt, alloc, tlvs).as_slice(),
    );
    for number in [1, 15, 16, 255] {
        assert!(*rt; fragment(rt, alloc, &local, number).is_none());
    }
}

/// Its TLVs with 60 services in one VID, made by hand.
const SIXTY: &str = "01 04 03 49 00 01 81 01 c1
    90 17 00 00 01 13 00 00 00 00 00 00 00 00 00 00 00 00 80 00 00 00 00 01 00
    90 fc 00 00 03 f8 02 00 00 00 00 01 00 0a
          c0 00 00 01 c0 00 00 02 c0 00 00 03 c0 00 00 04 c0 00 00 05 c0 00 00 06 c0 00 00 07 c0 00 00 08
          c0 00 00 09 c0 00 00 0a c0 00 00 0b c0 00 00 0c c0 00 00 0d c0 00 00 0e c0 00 00 0f c0 00 00 10
          c0 00 00 11 c0 00 00 12 c0 00 00 13 c0 00 00 14 c0 00 00 15 c0 00 00 16 c0 00 00 17 c0 00 00 18
          c0 00 00 19 c0 00 00 1a c0 00 00 1b c0 00 00 1c c0 00 00 1d c0 00 00 1e c0 00 00 1f c0 00 00 20
          c0 00 00 21 c0 00 00 22 c0 00 00 23 c0 00 00 24 c0 00 00 25 c0 00 00 26 c0 00 00 27 c0 00 00 28
          c0 00 00 29 c0 00 00 2a c0 00 00 2b c0 00 00 2c c0 00 00 2d c0 00 00 2e c0 00 00 2f c0 00 00 30
          c0 00 00 31 c0 00 00 32 c0 00 00 33 c0 00 00 34 c0 00 00 35 c0 00 00 36 c0 00 00 37 c0 00 00 38
          c0 00 00 39 c0 00 00 3a c0 00 00 3b c0 00 00 3c";

#[test]
fn sixty_services_are_one_fragment(rt: HostRuntime) {
    is_in_one(&rt, rt.alloc(), 60, 1, SIXTY);
}

#[test]
fn services_are_cut_and_not_ports(rt: HostRuntime) {
    is_in_one(&rt, rt.alloc(), 61, 1, SIXTY);
    is_in_one(&rt, rt.alloc(), 120, 1, SIXTY);
}

/// Its TLVs with 60 services in 16 VIDs, made by hand.
const SIXTEEN: &str = "01 04 03 49 00 01 81 01 c1
    90 17 00 00 01 13 00 00 00 00 00 00 00 00 00 00 00 00 80 00 00 00 00 01 00
    90 18 00 00 03 14 02 00 00 00 00 01 00 0a c0 00 00 10 c0 00 00 20 c0 00 00 30
    90 1c 00 00 03 18 02 00 00 00 00 01 00 0b c0 00 00 01 c0 00 00 11 c0 00 00 21 c0 00 00 31
    90 1c 00 00 03 18 02 00 00 00 00 01 00 0c c0 00 00 02 c0 00 00 12 c0 00 00 22 c0 00 00 32
    90 1c 00 00 03 18 02 00 00 00 00 01 00 0d c0 00 00 03 c0 00 00 13 c0 00 00 23 c0 00 00 33
    90 1c 00 00 03 18 02 00 00 00 00 01 00 0e c0 00 00 04 c0 00 00 14 c0 00 00 24 c0 00 00 34
    90 1c 00 00 03 18 02 00 00 00 00 01 00 0f c0 00 00 05 c0 00 00 15 c0 00 00 25 c0 00 00 35
    90 1c 00 00 03 18 02 00 00 00 00 01 00 10 c0 00 00 06 c0 00 00 16 c0 00 00 26 c0 00 00 36
    90 1c 00 00 03 18 02 00 00 00 00 01 00 11 c0 00 00 07 c0 00 00 17 c0 00 00 27 c0 00 00 37
    90 1c 00 00 03 18 02 00 00 00 00 01 00 12 c0 00 00 08 c0 00 00 18 c0 00 00 28 c0 00 00 38
    90 1c 00 00 03 18 02 00 00 00 00 01 00 13 c0 00 00 09 c0 00 00 19 c0 00 00 29 c0 00 00 39
    90 1c 00 00 03 18 02 00 00 00 00 01 00 14 c0 00 00 0a c0 00 00 1a c0 00 00 2a c0 00 00 3a
    90 1c 00 00 03 18 02 00 00 00 00 01 00 15 c0 00 00 0b c0 00 00 1b c0 00 00 2b c0 00 00 3b
    90 1c 00 00 03 18 02 00 00 00 00 01 00 16 c0 00 00 0c c0 00 00 1c c0 00 00 2c c0 00 00 3c
    90 18 00 00 03 14 02 00 00 00 00 01 00 17 c0 00 00 0d c0 00 00 1d c0 00 00 2d
    90 18 00 00 03 14 02 00 00 00 00 01 00 18 c0 00 00 0e c0 00 00 1e c0 00 00 2e
    90 18 00 00 03 14 02 00 00 00 00 01 00 19 c0 00 00 0f c0 00 00 1f c0 00 00 2f";

#[test]
fn sixteen_vids_are_in_one_fragment(rt: HostRuntime) {
    is_in_one(&rt, rt.alloc(), 60, 16, SIXTEEN);
    is_in_one(&rt, rt.alloc(), 200, 16, SIXTEEN);
}

#[test]
fn bodies_are_fragments_behind_their_flags(rt: HostRuntime) {
    let local = attached_at(rt.alloc(), 64, 16).expect(&rt, "out of memory");
    let bodies = bodies_of(rt.alloc(), &local, 16, 0x01).expect(&rt, "out of memory");
    are_equal(&rt, &bodies.len(), &1);
    let first = bodies.as_slice().first().expect(&rt, "no body");
    let body = first.as_ref().expect(&rt, "an empty place");
    let mut expected = hex(&rt, rt.alloc(), "01");
    let tlvs = hex(&rt, rt.alloc(), SIXTEEN);
    expected
        .extend_from_slice(tlvs.as_slice())
        .expect(&rt, "out of memory");
    are_bytes(&rt, body.as_slice(), expected.as_slice());
}

/// A cut SPB-Inst, and then three without trees: of another topology, with the priority 0x8000 and the source id 1, and
/// with others.
const INSTS: &str = "90 05 00 00 01 01 00
    90 17 00 02 01 13 00 00 00 00 00 00 00 00 00 00 00 00 70 00 00 00 00 07 00
    90 17 00 00 01 13 00 00 00 00 00 00 00 00 00 00 00 00 80 00 00 00 00 01 00
    90 17 00 00 01 13 00 00 00 00 00 00 00 00 00 00 00 00 10 00 00 00 00 02 00";

#[test]
fn the_first_inst_that_can_be_read_counts(rt: HostRuntime) {
    let tlvs = hex(&rt, rt.alloc(), INSTS);
    let content = read(&rt, rt.alloc(), tlvs.as_slice());
    has_inst(&rt, &content, 0x8000, 1);
}

/// The items as a list of their own.
fn list_of<T: Copy>(rt: &impl Abort, alloc: Global, items: &[T]) -> Seq<T> {
    Seq::from_vec(Vec::from_slice(alloc, items).expect(rt, "out of memory"))
}

/// What a bridge says with these neighbours and services.
fn bridge(
    rt: &impl Abort,
    alloc: Global,
    neighbours: &[Neighbour],
    services: &[(Mac, Vid, Service)],
) -> Content {
    let inst = Inst {
        priority: 32768,
        source: SourceId { value: 1 },
        trees: Seq::new(alloc),
    };
    Content {
        inst: Some(inst),
        neighbours: list_of(rt, alloc, neighbours),
        services: list_of(rt, alloc, services),
    }
}

/// The systems 1, 2 and 3 with what they say: these neighbours each, and the first one these services.
fn systems(
    rt: &impl Abort,
    alloc: Global,
    neighbours: [&[Neighbour]; 3],
    services: &[(Mac, Vid, Service)],
) -> Vec<(SystemId, Content)>
    ensures apart { IsDistinct (systems_in result.items) }
    ensures few { length result.items ≤ 65535 }
{
    let [one, two, three] = neighbours;
    let one = (system(1), bridge(rt, alloc, one, services));
    let two = (system(2), bridge(rt, alloc, two, &[]));
    let three = (system(3), bridge(rt, alloc, three, &[]));
    vec![in alloc; one, two, three].expect(rt, "out of memory")
}

/// The graph of their links from this system on, under no contract.
fn graph(
    rt: &impl Abort,
    alloc: Global,
    from: u8,
    neighbours: [&[Neighbour]; 3],
    services: &[(Mac, Vid, Service)],
) -> Graph {
    let list = systems(rt, alloc, neighbours, services);
    graph_of(alloc, system(from), list.as_slice()).expect(rt, "out of memory")
}

/// The graph of all that they say, under no contract.
fn said_graph(
    rt: &impl Abort,
    alloc: Global,
    neighbours: [&[Neighbour]; 3],
    services: &[(Mac, Vid, Service)],
) -> Graph {
    let list = systems(rt, alloc, neighbours, services);
    said_graph_of(alloc, list.as_slice()).expect(rt, "out of memory")
}

/// Asserts how many bridges, edges and members a graph has.
fn has_sizes(rt: &impl Abort, graph: &Graph, bridges: usize, edges: usize, members: usize) {
    are_equal(rt, &graph.bridges.len(), &bridges);
    are_equal(rt, &graph.edges.len(), &edges);
    are_equal(rt, &graph.members.len(), &members);
}

/// An edge between two systems and their ports.
fn edge(a: (u8, u16), b: (u8, u16), cost: u32) -> Edge {
    Edge {
        a: system(a.0),
        port_a: a.1,
        b: system(b.0),
        port_b: b.1,
        cost,
    }
}

#[test]
fn a_link_costs_the_greater_metric(rt: HostRuntime) {
    let one = [entry(2, 10, 1)];
    let two = [entry(3, 16_777_214, 4), entry(1, 30, 7)];
    let three = [entry(2, 1, 5)];
    let graph = graph(&rt, rt.alloc(), 1, [&one, &two, &three], &[]);
    let edges = [edge((1, 1), (2, 7), 30), edge((2, 4), (3, 5), 16_777_214)];
    are_equal(&rt, &graph.edges.as_slice(), &edges.as_slice());
    has_sizes(&rt, &graph, 3, 2, 0);
}

#[test]
fn what_one_end_lists_is_no_link(rt: HostRuntime) {
    let one = [entry(1, 10, 1), entry(2, 10, 2), entry(9, 10, 3)];
    let two = [entry(3, 10, 1)];
    let graph = graph(&rt, rt.alloc(), 1, [&one, &two, &[]], &[]);
    has_sizes(&rt, &graph, 1, 0, 0);
}

#[test]
fn the_first_entry_hides_the_others(rt: HostRuntime) {
    let one = [entry(2, 0, 1), entry(2, 10, 2)];
    let two = [entry(1, 10, 1), entry(3, 10, 2)];
    let three = [entry(2, 16_777_215, 1), entry(2, 10, 2)];
    let graph = graph(&rt, rt.alloc(), 2, [&one, &two, &three], &[]);
    has_sizes(&rt, &graph, 1, 0, 0);
}

#[test]
fn what_is_not_reached_is_cut(rt: HostRuntime) {
    let one = [entry(9, 10, 1)];
    let two = [entry(3, 10, 1)];
    let three = [entry(2, 10, 1)];
    let services = [service(1, 100, true, true)];
    let lists = [one.as_slice(), &two, &three];
    let of_two = graph(&rt, rt.alloc(), 2, lists, &services);
    has_sizes(&rt, &of_two, 2, 1, 0);
    let of_one = graph(&rt, rt.alloc(), 1, lists, &services);
    has_sizes(&rt, &of_one, 1, 0, 1);
    let of_none = graph(&rt, rt.alloc(), 4, lists, &services);
    has_sizes(&rt, &of_none, 0, 0, 0);
}

#[test]
fn all_that_is_said_makes_a_graph(rt: HostRuntime) {
    let two = [entry(3, 10, 1)];
    let three = [entry(2, 10, 1)];
    let services = [service(1, 100, true, true)];
    let graph = said_graph(&rt, rt.alloc(), [&[], &two, &three], &services);
    has_sizes(&rt, &graph, 3, 1, 1);
}

/// A service at the address of a system in VID 10, with its T and R bits.
fn service(at: u8, isid: u32, transmit: bool, receive: bool) -> (Mac, Vid, Service) {
    let service = Service {
        isid: Isid { value: isid },
        transmit,
        receive,
    };
    (system(at).mac, Vid { value: 10 }, service)
}

#[test]
fn members_send_and_take_at_their_own_mac(rt: HostRuntime) {
    let services = [
        service(1, 100, true, false),
        service(1, 101, false, true),
        service(2, 102, true, true),
        service(1, 103, true, true),
    ];
    let graph = graph(&rt, rt.alloc(), 1, [&[], &[], &[]], &services);
    let members = [
        doing(100, 10, true, false),
        doing(101, 10, false, true),
        attached(103, 10),
    ];
    are_equal(&rt, &graph.members.as_slice(), &members.as_slice());
}

#[test]
fn services_of_one_number_make_one_member(rt: HostRuntime) {
    let services = [
        service(1, 103, true, false),
        service(1, 100, true, false),
        service(1, 102, false, false),
        service(1, 101, false, true),
        service(1, 100, false, true),
        service(1, 103, true, false),
    ];
    let graph = graph(&rt, rt.alloc(), 1, [&[], &[], &[]], &services);
    let members = [
        attached(100, 10),
        doing(101, 10, false, true),
        doing(103, 10, true, false),
    ];
    are_equal(&rt, &graph.members.as_slice(), &members.as_slice());
}
