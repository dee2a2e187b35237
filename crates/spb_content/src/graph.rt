//! The graph that the contents of LSPs make, as far as a bridge reaches, or whole.
ghost use Rattle.std.specs.Prelude.{◌≡◌, ◌≤◌, ◌++◌, length, map, IfOk, OnOk};
ghost use Rattle.std.specs.List.{filter_map};
ghost use Rattle.std.specs.Option.{option_to_list};
ghost use Rattle.spb_types.specs.Graph.{IsDistinct, IsValid, IsValidFor};
ghost use Rattle.spb_content.specs.Graph as spec;
ghost use Rattle.spb_content.specs.Graph.{IsGraphOf, HasOwnPorts};
ghost use Rattle.spb_content.specs.Building as building;

use crate::Content;
use crate::backbone::Backbone;
use crate::merging::{ascends, merge};
use crate::walk::walk_from;
use spb_tlvs::{Neighbour, Service};
use spb_types::limits::MOST_GRAPH_BRIDGES;
use spb_types::{BridgeId, Edge, Graph, GraphBridge, Mac, Member, NoMemory, Seq, SystemId, Vid};
use std::alloc::Global;

/// Puts an item behind the others, if there is one.
fn push_some<T: Drop>(items: &mut Seq<T>, item: Option<T>) -> Result<(), NoMemory>
    ensures { OnOk result (items.new ≡ items.old ++ option_to_list item) }
{
    match item {
        None => Ok(()),
        Some(item) => items.push(item),
    }
}

/// The bridge that a system is, if it has an SPB-Inst.
fn bridge_of(said: &(SystemId, Content)) -> Option<GraphBridge>
    ensures { result ≡ spec.bridge_of said.now }
{
    let (system, content) = said;
    match &content.inst {
        None => None,
        Some(inst) => Some(GraphBridge {
            id: BridgeId {
                priority: inst.priority,
                system: *system,
            },
            source: inst.source,
        }),
    }
}

/// The member that a service makes its system: it stands at the system's own B-MAC, with T or R set.
fn member_of(system: SystemId, service: &(Mac, Vid, Service)) -> Option<Member>
    ensures { result ≡ spec.member_of system service.now }
{
    let (mac, vid, service) = service;
    if *mac == system.mac && (service.transmit || service.receive) {
        Some(Member {
            system,
            isid: service.isid,
            vid: *vid,
            transmit: service.transmit,
            receive: service.receive,
        })
    } else {
        None
    }
}

/// Puts a member for each service that makes its system one behind the others.
fn put_each(members: &mut Seq<Member>, said: &(SystemId, Content)) -> Result<(), NoMemory>
    ensures { OnOk result (members.new ≡ members.old ++ filter_map (spec.member_of said.now.0) said.now.1.services) }
{
    let (system, content) = said;
    for service in content.services.as_slice() {
        push_some(members, member_of(*system, service))?;
    }
    Ok(())
}

fn put_all(members: &mut Seq<Member>, more: &[Member]) -> Result<(), NoMemory>
    ensures { OnOk result (members.new ≡ members.old ++ more.now) }
{
    for member in more {
        members.push(*member)?;
    }
    Ok(())
}

/// Puts the members that the services of a system make it behind the others: they stay as they are read where they
/// ascend, each once.
fn put_members(
    alloc: Global,
    members: &mut Seq<Member>,
    said: &(SystemId, Content),
) -> Result<(), NoMemory>
    ensures { OnOk result (members.new ≡ members.old ++ spec.members_of said.now) }
{
    let start = members.len();
    put_each(members, said)?;
    let own = &members.as_slice()[start..];
    if ascends(own) {
        return Ok(());
    }
    let merged = merge(alloc, said.0, own)?;
    members.truncate(start);
    put_all(members, merged.as_slice())
}

/// The edge between two bridges that list each other, made at the end with the lower system id.
fn edge(backbone: &Backbone<'_>, from: SystemId, to: SystemId) -> Option<Edge>
    requires { building.IsIndexed backbone.now }
    ensures { result ≡ building.edge_said backbone.now.list.now from to }
{
    if !from.cmp(&to).is_lt() {
        return None;
    }
    let (there, back) = backbone.link(from, to)?;
    Some(Edge {
        a: from,
        port_a: there.port,
        b: to,
        port_b: back.port,
        cost: there.metric.max(back.metric),
    })
}

/// Whether one of the entries is for the system.
fn is_listed(neighbours: &[Neighbour], system: SystemId) -> bool
    ensures { result ≡ building.is_listed neighbours.now system }
{
    neighbours.iter().any(|n| n.system.is(system))
}

/// Puts the edge to a neighbour behind the others, unless the neighbour was listed earlier.
fn put_edge(
    backbone: &Backbone<'_>,
    edges: &mut Seq<Edge>,
    from: SystemId,
    earlier: &[Neighbour],
    to: SystemId,
) -> Result<(), NoMemory>
    requires { building.IsIndexed backbone.now }
    ensures { OnOk result (edges.new ≡ edges.old
        ++ option_to_list (building.edge_for backbone.now.list.now from earlier.now to)) }
{
    if is_listed(earlier, to) {
        return Ok(());
    }
    push_some(edges, edge(backbone, from, to))
}

/// Puts the edges that are made at a system behind the others.
fn put_edges(
    backbone: &Backbone<'_>,
    edges: &mut Seq<Edge>,
    said: &(SystemId, Content),
) -> Result<(), NoMemory>
    requires { building.IsIndexed backbone.now }
    ensures { OnOk result (edges.new ≡ edges.old ++ building.edges_from backbone.now.list.now said.now) }
{
    let (from, content) = said;
    let neighbours = content.neighbours.as_slice();
    for place in 0..neighbours.len() {
        let to = neighbours[place].system;
        put_edge(backbone, edges, *from, &neighbours[..place], to)?;
    }
    Ok(())
}

/// Puts a bridge, the edges that are made at it, and its members into the graph.
fn put(
    alloc: Global,
    backbone: &Backbone<'_>,
    graph: &mut Graph,
    said: &(SystemId, Content),
) -> Result<(), NoMemory>
    requires { building.IsIndexed backbone.now }
    ensures { OnOk result (graph.new ≡ building.with_said backbone.now.list.now graph.old said.now) }
{
    push_some(&mut graph.bridges, bridge_of(said))?;
    put_edges(backbone, &mut graph.edges, said)?;
    put_members(alloc, &mut graph.members, said)
}

/// The graph of the contents at marked places.
fn graph_among(alloc: Global, backbone: &Backbone<'_>, marks: &[bool]) -> Result<Graph, NoMemory>
    requires indexed { building.IsIndexed backbone.now }
    requires places { length marks.now ≡ length backbone.now.list.now }
    ensures { IfOk result (λ g. g ≡ building.graph_among backbone.now.list.now (building.kept backbone.now.list.now marks.now)) }
{
    let mut graph = Graph {
        bridges: Seq::new(alloc),
        edges: Seq::new(alloc),
        members: Seq::new(alloc),
    };
    for place in 0..marks.len() {
        if marks[place] {
            put(alloc, backbone, &mut graph, &backbone.list[place])?;
        }
    }
    Ok(graph)
}

/// The graph that the contents of some systems make, as far as `me` reaches it (RFC 6329, 15 and 16; IEEE 802.1aq, 28).
///
/// A system with an SPB-Inst is a bridge. An edge joins two different bridges that list each other with a metric of 1
/// to 16,777,214, where the first entry for a neighbour counts; its cost is the greater metric, and its ports are those
/// listed. A service makes its system a member where it stands at the system's own B-MAC, with T or R set; those of one
/// base VID and I-SID make it one. The graph is empty where `me` is no bridge.
///
/// The system ids differ, and there are at most 65,535. The graph is valid, and it is valid for `me` where the ports
/// that `me` lists differ and are 1 to 32.
///
/// It puts each bridge into a map, and for each entry of a reached bridge looks up both ends there and searches the
/// entries of both.
pub fn graph_of(
    alloc: Global,
    me: SystemId,
    list: &[(SystemId, Content)],
) -> Result<Graph, NoMemory>
    requires apart { IsDistinct (spec.systems_in list.now) }
    requires few { length list.now ≤ MOST_GRAPH_BRIDGES }
    ensures graph { IfOk result (IsGraphOf me list.now) }
    ensures valid { IfOk result IsValid }
    ensures valid_for { HasOwnPorts list.now me → IfOk result (λ g. IsValidFor g me) }
{
    let backbone = Backbone::new(alloc, list)?;
    let walk = walk_from(alloc, &backbone, me)?;
    graph_among(alloc, &backbone, walk.marks.as_slice())
}

/// Whether the system is a bridge.
fn is_bridge(said: &(SystemId, Content)) -> bool
    ensures { result ≡ building.has_inst said.now }
{
    said.1.inst.is_some()
}

/// A mark at the place of each system that is a bridge.
fn marked_bridges(alloc: Global, list: &[(SystemId, Content)]) -> Result<Vec<bool>, NoMemory>
    ensures { IfOk result (λ marks. marks.items ≡ map building.has_inst list.now) }
{
    let mut marks = Vec::new(alloc);
    for said in list {
        marks.push(is_bridge(said))?;
    }
    Ok(marks)
}

/// The graph that the contents of some systems make, reached or not: that of [`graph_of`] without the cut.
///
/// The system ids differ, and there are at most 65,535. The graph is valid, and it is valid for each bridge whose ports
/// differ and are 1 to 32.
///
/// It costs what `graph_of` does where all is reached, but for the walk.
pub fn said_graph_of(alloc: Global, list: &[(SystemId, Content)]) -> Result<Graph, NoMemory>
    requires apart { IsDistinct (spec.systems_in list.now) }
    requires few { length list.now ≤ MOST_GRAPH_BRIDGES }
    ensures graph { IfOk result (λ g. g ≡ building.said_graph list.now) }
    ensures valid { IfOk result IsValid }
    ensures valid_for { IfOk result (λ g. (x : SystemId) → HasOwnPorts list.now x → IsValidFor g x) }
{
    let backbone = Backbone::new(alloc, list)?;
    let marks = marked_bridges(alloc, list)?;
    graph_among(alloc, &backbone, marks.as_slice())
}
