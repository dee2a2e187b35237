//! The members of the services in a base VID, gathered once for all its trees.
ghost use Rattle.std.specs.Prelude.{◌≡◌, ◌<◌, ◌++◌, ◌∷◌, ◌&&◌, [], length, replicate, OnOk, IfOk, if◌then◌else◌};
ghost use Rattle.std.specs.List.{slice_index_or, slice_set};
ghost use Rattle.std.specs.Ordering.{is_eq};
ghost use Rattle.spb_types.specs.Graph.{IsValid};
ghost use Rattle.fdb_build.specs.Making as making;

use ect_trees::Roads;
use spb_types::{Isid, Member, NoMemory, Vid};
use std::alloc::Global;
use std::collections::BTreeMap;

/// Of a base VID: the services to which each bridge sends, by its place in the graph, and the places of the bridges
/// that receive from each service.
#[derive(Drop)]
pub struct Services {
    pub sends: Vec<Vec<Isid>>,
    pub receivers: BTreeMap<Isid, Vec<usize>>,
}

/// As many empty lists.
fn empty_lists(alloc: Global, count: usize) -> Result<Vec<Vec<Isid>>, NoMemory>
    ensures { IfOk result (λ lists. making.lists_in lists.items ≡ replicate count []) }
{
    let mut lists = Vec::with_capacity(alloc, count)?;
    for _place in 0..count {
        lists.push(Vec::new(alloc))?;
    }
    Ok(lists)
}

/// Puts an item behind the list at a place.
fn put_at(lists: &mut Vec<Vec<Isid>>, place: usize, item: Isid) -> Result<(), NoMemory>
    requires { place < length lists.old.items }
    ensures { OnOk result (making.lists_in lists.new.items ≡ slice_set (making.lists_in lists.old.items) place
        (slice_index_or (making.lists_in lists.old.items) place [] ++ item ∷ [])) }
{
    lists[place].push(item)?;
    Ok(())
}

/// A list of one item.
fn list_of<V: Drop>(alloc: Global, item: V) -> Result<Vec<V>, NoMemory>
    ensures { IfOk result (λ list. list.items ≡ item ∷ []) }
{
    let mut list = Vec::new(alloc);
    list.push(item)?;
    Ok(list)
}

/// Puts an item behind those that the map has for a key.
fn put<K: Ord + Drop, V: Drop>(
    alloc: Global,
    map: &mut BTreeMap<K, Vec<V>>,
    key: K,
    item: V,
) -> Result<(), NoMemory>
    ensures { OnOk result ((q : K) → making.list_at K.cmp map.new q
        ≡ (if is_eq (K.cmp key q) then making.list_at K.cmp map.old q ++ item ∷ [] else making.list_at K.cmp map.old q)) }
{
    if let Some(list) = map.get_mut(&key) {
        list.push(item)?;
        return Ok(());
    }
    map.insert(key, list_of(alloc, item)?)?;
    Ok(())
}

/// Puts the service of a member behind those to which the bridge at a place sends, if the member transmits.
fn put_sender(sends: &mut Vec<Vec<Isid>>, place: usize, member: Member) -> Result<(), NoMemory>
    requires { place < length sends.old.items }
    ensures { OnOk result (making.lists_in sends.new.items ≡ (if member.transmit
        then slice_set (making.lists_in sends.old.items) place
        (slice_index_or (making.lists_in sends.old.items) place [] ++ member.isid ∷ [])
        else making.lists_in sends.old.items)) }
{
    if member.transmit {
        return put_at(sends, place, member.isid);
    }
    Ok(())
}

/// Puts the place of a member's bridge behind those that receive from its service, if the member receives.
fn put_receiver(
    alloc: Global,
    receivers: &mut BTreeMap<Isid, Vec<usize>>,
    place: usize,
    member: Member,
) -> Result<(), NoMemory>
    ensures { OnOk result ((q : Isid) → making.list_at making.isid_cmp receivers.new q
        ≡ (if member.receive && is_eq (making.isid_cmp member.isid q)
        then making.list_at making.isid_cmp receivers.old q ++ place ∷ []
        else making.list_at making.isid_cmp receivers.old q)) }
{
    if member.receive {
        return put(alloc, receivers, member.isid, place);
    }
    Ok(())
}

impl Services {
    /// Adds a member, if it is in this VID: to the senders, to the receivers, or to both.
    fn add(
        &mut self,
        alloc: Global,
        roads: &Roads,
        vid: Vid,
        member: Member,
    ) -> Result<(), NoMemory>
        requires valid { IsValid roads.now }
        requires places { length self.old.sends.items ≡ length roads.now.bridges }
        ensures { OnOk result (making.Added roads.now vid member self.old self.new) }
    {
        if member.vid != vid {
            return Ok(());
        }
        let Some(place) = roads.place_of(member.system) else {
            return Ok(());
        };
        put_sender(&mut self.sends, place, member)?;
        put_receiver(alloc, &mut self.receivers, place, member)
    }

    /// The services of the graph's members in this VID.
    pub fn new(alloc: Global, roads: &Roads, vid: Vid) -> Result<Self, NoMemory>
        requires { IsValid roads.now }
        ensures { IfOk result (making.AreServicesOf roads.now roads.now.members vid) }
    {
        let mut services = Services {
            sends: empty_lists(alloc, roads.graph().bridges.len())?,
            receivers: BTreeMap::new(alloc),
        };
        for member in roads.graph().members.as_slice() {
            services.add(alloc, roads, vid, *member)?;
        }
        Ok(services)
    }

    /// The services to which the bridge at a place sends.
    pub fn sent_at(&self, place: usize) -> &[Isid]
        ensures { result.now ≡ making.sent_at self.now place }
    {
        if place < self.sends.len() {
            self.sends[place].as_slice()
        } else {
            &[]
        }
    }

    /// The places of the bridges that receive from a service.
    pub fn receivers_of(&self, isid: Isid) -> &[usize]
        ensures { result.now ≡ making.list_at making.isid_cmp self.now.receivers isid }
    {
        match self.receivers.get(&isid) {
            None => &[],
            Some(places) => places.as_slice(),
        }
    }
}
