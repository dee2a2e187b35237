//! The graph of the wiring, part by part: bridges, edges of links that are up, members of services.
ghost use Rattle.std.specs.Prelude.{◌≡◌, ◌++◌, length, map, OnOk, IfOk};
ghost use Rattle.std.specs.List.{filter_map};
ghost use Rattle.spb_world.specs.World as state;
ghost use Rattle.spb_world.specs.Members as made;
ghost use Rattle.spb_world.specs.Systems as paths;

use crate::attached::Attached;
use crate::{DeclaredBridge, DeclaredLink};
use bridge_api::attached_members;
use indexmap::IndexMap;
use spb_content::merge;
use spb_types::{Attachment, Edge, GraphBridge, Mac, Member, Name, NoMemory, SystemId};
use std::alloc::Global;

/// The system id of the bridge at a place, or zeros past the last bridge.
#[tactic(auto, using(crate::proofs::PlaceLemmas::system_at_entry))]
pub fn system_at(bridges: &IndexMap<Name, DeclaredBridge>, place: usize) -> SystemId
    ensures { result ≡ state.system_at bridges.now.entries place }
{
    match bridges.get_index(place) {
        None => SystemId {
            mac: Mac { bytes: [0; 6] },
        },
        Some((_, bridge)) => bridge.bridge.id.system,
    }
}

/// The place of the bridge of a system id. None exactly where there is none.
pub fn place_of_system(bridges: &IndexMap<Name, DeclaredBridge>, system: SystemId) -> Option<usize>
    ensures { result ≡ paths.place_of_system bridges.now.entries system }
{
    bridges
        .values()
        .position(|bridge| bridge.bridge.id.system.is(system))
}

/// The edge that a link makes, if it is up.
fn live_edge(bridges: &IndexMap<Name, DeclaredBridge>, link: &DeclaredLink) -> Option<Edge>
    ensures { result ≡ state.live_edge bridges.now.entries link.now }
{
    if !link.live {
        return None;
    }
    Some(Edge {
        a: system_at(bridges, link.a.bridge),
        port_a: u16::from(link.a.port),
        b: system_at(bridges, link.b.bridge),
        port_b: u16::from(link.b.port),
        cost: link.a.metric.max(link.b.metric),
    })
}

/// The bridges of the graph, in order of declaration.
pub fn graph_bridges(
    alloc: Global,
    bridges: &IndexMap<Name, DeclaredBridge>,
) -> Result<Vec<GraphBridge>, NoMemory>
    ensures { IfOk result (λ list. list.items ≡ state.graph_bridges bridges.now.entries) }
{
    let list = bridges.values().map(|bridge| bridge.bridge).collect(alloc)?;
    Ok(list)
}

/// The edges of the links that are up, in order of declaration.
pub fn graph_edges(
    alloc: Global,
    bridges: &IndexMap<Name, DeclaredBridge>,
    links: &IndexMap<Name, DeclaredLink>,
) -> Result<Vec<Edge>, NoMemory>
    ensures { IfOk result (λ list. list.items
        ≡ filter_map (state.live_edge bridges.now.entries) (state.things_of links.now.entries)) }
{
    let list = links
        .values()
        .filter_map(|link| live_edge(bridges, link))
        .collect(alloc)?;
    Ok(list)
}

/// Puts the members that what is attached at a bridge makes it behind the others: one for each base VID and I-SID, in
/// ascending order of these.
fn put_members(
    alloc: Global,
    members: &mut Vec<Member>,
    system: SystemId,
    attached: &[Attachment],
) -> Result<(), NoMemory>
    ensures { OnOk result (members.new.items ≡ members.old.items ++ state.bridge_members system attached.now) }
{
    let each = attached_members(alloc, system, attached)?;
    let merged = merge(alloc, system, each.as_slice())?;
    members.extend_from_slice(merged.as_slice())?;
    Ok(())
}

/// The members of services: for each bridge in order of declaration one for each base VID and I-SID, in ascending order
/// of these.
pub fn graph_members(
    alloc: Global,
    bridges: &IndexMap<Name, DeclaredBridge>,
    attached: &Attached,
) -> Result<Vec<Member>, NoMemory>
    ensures { IfOk result (λ list. list.items ≡ made.members_up_to bridges.now.entries attached.now (length bridges.now.entries)) }
{
    let mut members = Vec::new(alloc);
    for place in 0..bridges.len() {
        let system = system_at(bridges, place);
        put_members(alloc, &mut members, system, attached.at(place))?;
    }
    Ok(members)
}
