//! The group rows of a bridge.
ghost use Rattle.std.specs.Prelude.{◌≡◌, ◌<◌, ◌++◌, ◌&&◌, length, map, OnOk, IfOk};
ghost use Rattle.std.specs.List.{flat_map, AllByRecursion};
ghost use Rattle.std.specs.BTreeMap.{IsOrdered};
ghost use Rattle.spb_types.specs.Ect.{mask_of};
ghost use Rattle.spb_types.specs.Ports.{has};
ghost use Rattle.fdb_build.specs.Tables.{mac_cmp};
ghost use Rattle.fdb_build.specs.Groups as groups;
ghost use Rattle.fdb_build.specs.Making as making;
ghost use Rattle.fdb_build.specs.Layout.{IsPlanned};
ghost use Rattle.fdb_build.specs.Surroundings.{AreKnown};

use crate::layout::Planned;
use crate::searches::Searches;
use crate::sets::{Found, nothing_found, ports_behind, union};
use crate::surroundings::Surroundings;
use spb_types::{GraphBridge, GroupRow, Mac, NoMemory, PortSet, Vid, ect_mask, group_address};
use std::alloc::Global;
use std::collections::BTreeMap;

/// Adds ports to the row for an address, which mostly isn't there yet.
fn add_ports(rows: &mut BTreeMap<Mac, PortSet>, mac: Mac, ports: PortSet) -> Result<(), NoMemory>
    ensures { OnOk result (making.Grew rows.old rows.new (λ q p. making.same_mac q mac && has ports p)) }
{
    if ports.bits == 0 {
        return Ok(());
    }
    if let Some(before) = rows.insert(mac, ports)? {
        rows.insert(mac, union(before, ports))?;
    }
    Ok(())
}

/// The bridge at a place of the graph.
fn source_at(around: &Surroundings<'_>, place: usize) -> GraphBridge
    requires { place < length around.now.roads.now.bridges }
    ensures { result ≡ making.source_at around.now.roads.now place }
{
    around.roads.graph().bridges.as_slice()[place]
}

/// Adds the ports for the services to which the bridge at a place sends. Where no bridge follows `me` on a path from there,
/// nothing more is asked; else for each place it asks at most once, since it keeps what it found there.
fn add_source<S: Searches>(
    alloc: Global,
    rows: &mut BTreeMap<Mac, PortSet>,
    found: &mut Vec<Option<Found>>,
    around: &Surroundings<'_>,
    searches: S,
    planned: &Planned,
    place: usize,
) -> Result<(), NoMemory>
    requires found { making.AreFound around.now.roads.now around.now.me found.old.items }
    requires known { AreKnown around.now }
    requires planned { IsPlanned around.now.roads.now planned.now }
    requires can { S.can searches around.now.roads.now (mask_of planned.now.plan.ect) }
    requires within { place < length around.now.roads.now.bridges }
    ensures rows { OnOk result (making.Grew rows.old rows.new
        (making.is_from_bridge around.now.roads.now around.now.me planned.now.plan planned.now.services
        (making.source_at around.now.roads.now place))) }
    ensures found { OnOk result (making.AreFound around.now.roads.now around.now.me found.new.items) }
{
    let isids = planned.services.sent_at(place);
    if isids.is_empty() {
        return Ok(());
    }
    let mask = ect_mask(planned.plan.ect);
    let searches = searches.at(place, mask);
    if !searches.leads_on(around.roads, place, mask, around.place) {
        return Ok(());
    }
    let source = source_at(around, place).source;
    for isid in isids {
        let receivers = planned.services.receivers_of(*isid);
        let plan = planned.plan;
        let ports = ports_behind(alloc, found, around, searches, plan, place, receivers)?;
        add_ports(rows, group_address(source, *isid), ports)?;
    }
    Ok(())
}

/// Adds the ports for each source.
fn add_sources<S: Searches>(
    alloc: Global,
    rows: &mut BTreeMap<Mac, PortSet>,
    found: &mut Vec<Option<Found>>,
    around: &Surroundings<'_>,
    searches: S,
    planned: &Planned,
) -> Result<(), NoMemory>
    requires found { making.AreFound around.now.roads.now around.now.me found.old.items }
    requires known { AreKnown around.now }
    requires planned { IsPlanned around.now.roads.now planned.now }
    requires can { S.can searches around.now.roads.now (mask_of planned.now.plan.ect) }
    ensures rows { OnOk result (making.Grew rows.old rows.new (making.is_from_some around.now.roads.now
        around.now.me planned.now.plan planned.now.services around.now.roads.now.bridges)) }
    ensures found { OnOk result (making.AreFound around.now.roads.now around.now.me found.new.items) }
{
    for place in 0..around.roads.graph().bridges.len() {
        add_source(alloc, rows, found, around, searches, planned, place)?;
    }
    Ok(())
}

/// Puts the rows of a VID behind the others, by ascending address.
fn put_rows(
    rows: &mut Vec<GroupRow>,
    vid: Vid,
    of_vid: &BTreeMap<Mac, PortSet>,
) -> Result<(), NoMemory>
    ensures rows { OnOk result (rows.new.items ≡ rows.old.items ++ map (making.row_of vid) of_vid.now.entries) }
    ensures ordered { OnOk result (IsOrdered mac_cmp of_vid.now) }
{
    for (mac, ports) in of_vid {
        rows.push(GroupRow {
            vid,
            mac: *mac,
            ports: *ports,
        })?;
    }
    Ok(())
}

/// Puts the group rows for a VID behind the others, by ascending address.
fn push_groups<S: Searches>(
    alloc: Global,
    rows: &mut Vec<GroupRow>,
    found: &mut Vec<Option<Found>>,
    around: &Surroundings<'_>,
    searches: S,
    planned: &Planned,
) -> Result<(), NoMemory>
    requires found { making.AreFound around.now.roads.now around.now.me found.old.items }
    requires known { AreKnown around.now }
    requires planned { IsPlanned around.now.roads.now planned.now }
    requires can { S.can searches around.now.roads.now (mask_of planned.now.plan.ect) }
    ensures rows { OnOk result (rows.new.items
        ≡ rows.old.items ++ groups.group_rows_of_vid around.now.roads.now around.now.me planned.now.plan) }
    ensures found { OnOk result (making.AreFound around.now.roads.now around.now.me found.new.items) }
{
    let mut of_vid = BTreeMap::new(alloc);
    add_sources(alloc, &mut of_vid, found, around, searches, planned)?;
    put_rows(rows, planned.plan.vid, &of_vid)
}

/// The group rows for each of the plans, in order. Where the graph has no members, there are none.
pub fn groups_of<S: Searches>(
    alloc: Global,
    around: &Surroundings<'_>,
    searches: S,
    plans: &[Planned],
) -> Result<Vec<GroupRow>, NoMemory>
    requires known { AreKnown around.now }
    requires planned { AllByRecursion (IsPlanned around.now.roads.now) plans.now }
    requires can { AllByRecursion (λ p. S.can searches around.now.roads.now (mask_of p.plan.ect)) plans.now }
    ensures { IfOk result (λ rows.
        rows.items ≡ flat_map (λ p. groups.group_rows_of_vid around.now.roads.now around.now.me p.plan) plans.now) }
{
    if around.roads.graph().members.is_empty() {
        return Ok(Vec::new(alloc));
    }
    let mut found = nothing_found(alloc, around)?;
    let mut rows = Vec::new(alloc);
    for planned in plans {
        push_groups(alloc, &mut rows, &mut found, around, searches, planned)?;
    }
    Ok(rows)
}
