//! The world of declarations: what is declared and attached, why more can't be, and the tables of the wiring.
ghost use Rattle.std.specs.Prelude.{◌≡◌, [], ◌∷◌, ◌++◌, true, None, IfOk, OnOk, OnErr};
ghost use Rattle.spb_world.specs.Declaring.{is_new_name, switched, links_with_metric};

use crate::attached::Attached;
use crate::attaching::{
    has_isid_room, is_attached, is_customer_frame, is_customer_port, is_sending,
};
use crate::graph::{graph_bridges, graph_edges, graph_members, place_of_system, system_at};
use crate::hints::Hints;
use crate::reason::reason_unless;
use crate::{DeclaredBridge, DeclaredLink, LinkEnd, Reason, check, link_ends};
use bridge_api::{BridgeConfig, first_life};
use ect_trees::Roads;
use fdb_build::{Fabric, tables_of};
use indexmap::IndexMap;
use link_model::LaneId;
use scenario::Side;
use spb_types::limits::{
    GREATEST_ISID, MOST_BRIDGES, MOST_LINKS, MOST_SERVICES, MOST_VIDS, SOURCE_IDS,
};
use spb_types::{
    Attachment, BridgeId, Graph, GraphBridge, Isid, Mac, Member, Name, NoMemory, Seq, SourceId,
    SystemId, Tables, Vid, VidPlan,
};
use std::alloc::Global;
use std::marker::Model;

/// What is declared: the base VIDs, the bridges, the links and the services, each in order of declaration; and what is
/// attached, for each bridge in order of attaching. The fabric of the wiring is kept from the first question about it
/// until a base VID, a bridge, a link, a metric or what is attached changes.
#[derive(Drop)]
pub struct World {
    vids: Vec<VidPlan>,
    bridges: IndexMap<Name, DeclaredBridge>,
    links: IndexMap<Name, DeclaredLink>,
    services: IndexMap<Isid, Vid>,
    attached: Attached,
    hints: Hints,
    fabric: Option<Fabric>,
}

impl Model for World {
    ghost use Rattle.std.specs.Prelude.{◌≡◌, ◌≤◌, length, IfSome};
    ghost use Rattle.spb_world.specs.World as state;

    ghost Value = { state.World };

    ghost view = { λ w. record { vids = w.vids.items; bridges = w.bridges.entries; links = w.links.entries; services = w.services.entries; attached = state.by_place w.attached } };

    ghost invariant = { λ w. state.Sound (record { vids = w.vids.items; bridges = w.bridges.entries; links = w.links.entries; services = w.services.entries; attached = state.by_place w.attached })
        × IfSome w.fabric (λ fabric. fabric ≡ state.wired_fabric (record { vids = w.vids.items; bridges = w.bridges.entries; links = w.links.entries; services = w.services.entries; attached = state.by_place w.attached }))
        × (length w.bridges.entries ≤ length w.attached) };
}

impl World {
    ghost use Rattle.std.specs.Prelude.{◌≡◌, ◌<◌, ◌≤◌, [], ℕ, true, None, Some, length, IfOk, IfSome, slice_get};
    ghost use Rattle.spb_world.specs.World as state;
    ghost use Rattle.spb_world.specs.World.{names_of, place_of, things_of};
    ghost use Rattle.spb_world.specs.Systems as paths;
    ghost use Rattle.spb_world.specs.Declaring as declare;
    ghost use Rattle.spb_world.specs.Services as service;
    ghost use Rattle.spb_world.specs.Attaching as attaching;
    ghost use Rattle.spb_world.specs.Links.{lane_out, live_lane, is_live};
    ghost use Rattle.spb_world.specs.Declaring.{config_of};
    ghost use Rattle.spb_world.specs.Links.{metric_over, port_metric};
    ghost use Rattle.bridge_api.specs.Config.{IsWhole, IsMetric};

    /// The world in which nothing is declared, which takes no memory.
    pub fn new(alloc: Global) -> Self
        ensures { result ≡ record { vids = []; bridges = []; links = []; services = []; attached = [] } }
    {
        World {
            vids: Vec::new(alloc),
            bridges: IndexMap::new(alloc),
            links: IndexMap::new(alloc),
            services: IndexMap::new(alloc),
            attached: Attached::new(alloc),
            hints: Hints::new(alloc),
            fabric: None,
        }
    }

    /// A copy, in which no fabric of the wiring is kept.
    pub fn copied(&self, alloc: Global) -> Result<World, NoMemory>
        ensures { IfOk result (λ world. world ≡ self.now) }
    {
        Ok(World {
            vids: Vec::from_slice(alloc, self.vids.as_slice())?,
            bridges: copied_bridges(&self.bridges)?,
            links: copied_links(&self.links)?,
            services: copied_services(&self.services)?,
            attached: self.attached.copied()?,
            hints: self.hints.copied(alloc)?,
            fabric: None,
        })
    }

    /// The base VIDs, in order of declaration.
    pub fn vids(&self) -> &[VidPlan]
        ensures { result.now ≡ self.now.vids }
    {
        self.vids.as_slice()
    }

    /// How many bridges are declared.
    pub fn bridge_count(&self) -> usize
        ensures { result ≡ length self.now.bridges }
    {
        self.bridges.len()
    }

    /// The place of the bridge of this name in order of declaration. None exactly where there is none.
    pub fn bridge_place(&self, name: Name) -> Option<usize>
        ensures { result ≡ place_of name self.now.bridges }
    {
        self.bridges.get_index_of(&name)
    }

    /// The place of the link of this name in order of declaration. None exactly where there is none.
    pub fn link_place(&self, name: Name) -> Option<usize>
        ensures { result ≡ place_of name self.now.links }
    {
        self.links.get_index_of(&name)
    }

    /// The base VID of the service of an I-SID. None exactly where it isn't declared.
    pub fn vid_of_isid(&self, isid: u64) -> Option<Vid>
        ensures { result ≡ state.vid_of_isid self.now.services isid }
    {
        let services = &self.services;
        if isid > u64::from(GREATEST_ISID) {
            return None;
        }
        match services.get(&Isid { value: isid as u32 }) {
            None => None,
            Some(vid) => Some(*vid),
        }
    }

    /// The link at a place, whose ends are ports of declared bridges. None exactly where the place is past the last.
    pub fn link(&self, place: usize) -> Option<DeclaredLink>
        ensures link { result ≡ slice_get (things_of self.now.links) place }
        ensures ends { IfSome result (λ l. state.IsLink self.now.bridges l) }
    {
        match self.links.get_index(place) {
            None => None,
            Some((_, link)) => Some(*link),
        }
    }

    /// The declared bridge at a place. None exactly where the place is past the last.
    pub fn bridge(&self, place: usize) -> Option<DeclaredBridge>
        ensures { result ≡ slice_get (things_of self.now.bridges) place }
    {
        match self.bridges.get_index(place) {
            None => None,
            Some((_, bridge)) => Some(*bridge),
        }
    }

    /// The place that the hint of a system id gives, where that bridge stands there.
    fn hinted_place(&self, system: SystemId) -> Option<usize>
        ensures { IfSome result (λ place. paths.place_of_system self.now.bridges system ≡ Some place) }
    {
        let place = self.hints.bridge_at(system);
        let bridge = self.bridge(place)?;
        if bridge.bridge.id.system.is(system) {
            Some(place)
        } else {
            None
        }
    }

    /// The place of the bridge of a system id. None exactly where there is none.
    pub fn place_of_system(&self, system: SystemId) -> Option<usize>
        ensures { result ≡ paths.place_of_system self.now.bridges system }
    {
        match self.hinted_place(system) {
            Some(place) => Some(place),
            None => place_of_system(&self.bridges, system),
        }
    }

    /// The name of the bridge at a place. None exactly where the place is past the last.
    pub fn bridge_name(&self, place: usize) -> Option<Name>
        ensures { result ≡ slice_get (names_of self.now.bridges) place }
    {
        match self.bridges.get_index(place) {
            None => None,
            Some((name, _)) => Some(*name),
        }
    }

    /// The system id of the bridge at a place, or zeros past the last bridge.
    pub fn system(&self, place: usize) -> SystemId
        ensures { result ≡ state.system_at self.now.bridges place }
    {
        system_at(&self.bridges, place)
    }

    /// How many links are declared.
    pub fn link_count(&self) -> usize
        ensures { result ≡ length (things_of self.now.links) }
    {
        self.links.len()
    }

    /// The lane that the hint of a port gives, where that link ends there.
    fn hinted_lane(&self, bridge: usize, port: u8) -> Option<LaneId>
        ensures { IfSome result (λ lane. lane_out (things_of self.now.links) bridge port ≡ Some lane) }
    {
        let place = self.hints.link_at(bridge, port);
        match self.link(place) {
            None => None,
            Some(link) => link_ends::lane_of_link(place, &link, bridge, port),
        }
    }

    /// The lane out of a port of the bridge at a place. None exactly where no link ends there.
    fn lane_out(&self, bridge: usize, port: u8) -> Option<LaneId>
        ensures { result ≡ lane_out (things_of self.now.links) bridge port }
    {
        match self.hinted_lane(bridge, port) {
            Some(lane) => Some(lane),
            None => link_ends::lane_out(&self.links, bridge, port),
        }
    }

    /// The metric of the link at a port of the bridge at a place, whether the link is up or not; 1 where no link ends.
    pub fn port_metric(&self, bridge: usize, port: u8) -> u32
        ensures { result ≡ port_metric (things_of self.now.links) bridge port }
    {
        match self.lane_out(bridge, port) {
            None => 1,
            Some(lane) => self.metric_over(lane),
        }
    }

    /// The metric of the end of a link that a lane leads from; 1 where there is no such link.
    fn metric_over(&self, lane: LaneId) -> u32
        ensures { result ≡ metric_over (things_of self.now.links) (Some lane) }
    {
        match self.link(lane.link) {
            None => 1,
            Some(link) => link_ends::near_end(link, lane.dir).metric,
        }
    }

    /// What is attached to the customer ports of the bridge at a place, in order of attaching.
    fn attached_at(&self, place: usize) -> &[Attachment]
        ensures { result.now ≡ state.attached_at self.now place }
    {
        self.attached.at(place)
    }

    /// Whether a customer port of the bridge at a place is attached.
    fn is_attached(&self, place: usize, port: u64) -> bool
        ensures { result ≡ attaching.is_attached self.now.attached place port }
    {
        is_attached(self.attached_at(place), port)
    }

    /// Whether a customer port of the bridge at a place is attached and sends.
    fn is_sending(&self, place: usize, port: u64) -> bool
        ensures { result ≡ attaching.is_sending self.now.attached place port }
    {
        is_sending(self.attached_at(place), port)
    }

    /// What is attached to the customer ports of the bridge at a place, in order of attaching. It costs by what is
    /// attached at this bridge.
    pub fn attached(&self, alloc: Global, place: usize) -> Result<Seq<Attachment>, NoMemory>
        ensures { IfOk result (λ attached. attached ≡ state.attached_at self.now place) }
    {
        let attached = Vec::from_slice(alloc, self.attached_at(place))?;
        Ok(Seq::from_vec(attached))
    }

    /// The lane out of a port of the bridge at a place, over a link that is up. None exactly where there is none.
    pub fn live_lane(&self, bridge: usize, port: u8) -> Option<LaneId>
        ensures { result ≡ live_lane (things_of self.now.links) (lane_out (things_of self.now.links) bridge port) }
    {
        match self.lane_out(bridge, port) {
            None => None,
            Some(lane) => {
                if link_ends::is_live(&self.links, lane.link) {
                    Some(lane)
                } else {
                    None
                }
            }
        }
    }

    /// The members of services: for each bridge in order of declaration one for each base VID and I-SID, in ascending
    /// order of these.
    fn members(&self, alloc: Global) -> Result<Vec<Member>, NoMemory>
        ensures { IfOk result (λ list. list.items ≡ state.world_members self.now) }
    {
        graph_members(alloc, &self.bridges, &self.attached)
    }

    /// The actual wiring: all bridges, an edge for each link that is up, and a member for each bridge and service that
    /// a customer port of the bridge is attached to.
    pub fn graph(&self, alloc: Global) -> Result<Graph, NoMemory>
        ensures { IfOk result (λ graph. graph ≡ state.world_graph self.now) }
    {
        let bridges = graph_bridges(alloc, &self.bridges)?;
        let edges = graph_edges(alloc, &self.bridges, &self.links)?;
        let members = self.members(alloc)?;
        Ok(Graph {
            bridges: Seq::from_vec(bridges),
            edges: Seq::from_vec(edges),
            members: Seq::from_vec(members),
        })
    }

    /// Makes the fabric of the wiring, unless it is kept. Nothing that is declared changes.
    pub fn keep_fabric(&mut self, alloc: Global) -> Result<(), NoMemory>
        ensures { self.new ≡ self.old }
    {
        if self.fabric.is_none() {
            let graph = self.graph(alloc)?;
            let roads = Roads::over(alloc, graph)?;
            self.fabric = Some(Fabric::new(alloc, roads, self.vids.as_slice())?);
        }
        Ok(())
    }

    /// The roads of the actual wiring, if its fabric is kept.
    pub fn roads(&self) -> Option<&Roads>
        ensures { IfSome result (λ roads. roads.now ≡ state.world_graph self.now) }
    {
        match &self.fabric {
            None => None,
            Some(fabric) => Some(fabric.roads()),
        }
    }

    /// Makes ready what the tables that the wiring gives the bridge at a place are made of: its fabric, and the best
    /// paths from the bridge in it. Nothing that is declared changes.
    pub fn prepare_tables(&mut self, alloc: Global, place: usize) -> Result<(), NoMemory>
        ensures { self.new ≡ self.old }
    {
        self.keep_fabric(alloc)?;
        let me = system_at(&self.bridges, place);
        match &mut self.fabric {
            None => Ok(()),
            Some(fabric) => fabric.grow_from(alloc, me),
        }
    }

    /// The tables that the wiring gives the bridge at a place. Where no fabric of the wiring is kept, they are made for
    /// this question alone.
    #[tactic(auto, unfolding(crate::specs::World::wired_tables))]
    pub fn wired_tables(&self, alloc: Global, place: usize) -> Result<Tables, NoMemory>
        ensures { IfOk result (λ tables. tables ≡ state.wired_tables self.now place) }
    {
        let me = system_at(&self.bridges, place);
        match &self.fabric {
            Some(fabric) => fabric.tables(alloc, me),
            None => {
                let graph = self.graph(alloc)?;
                tables_of(alloc, &graph, me, self.vids.as_slice())
            }
        }
    }

    /// Whether the link at a place is up.
    pub fn is_live(&self, place: usize) -> bool
        ensures { result ≡ is_live (things_of self.now.links) place }
    {
        link_ends::is_live(&self.links, place)
    }

    /// How many ports the bridge at a place has, 0 to 32; 0 past the last bridge.
    pub fn ports(&self, place: usize) -> u8
        ensures ports { result ≡ state.ports_at self.now.bridges place }
        ensures few { result ≤ 32 }
    {
        check::ports_at(&self.bridges, place)
    }

    /// What a bridge that isn't refused is configured with.
    pub fn config(
        &self,
        alloc: Global,
        id: BridgeId,
        source: SourceId,
        ports: u8,
    ) -> Result<BridgeConfig, NoMemory>
        requires ports { ports ≤ 32 }
        requires source { source.value < SOURCE_IDS }
        requires address { declare.is_bridge_address id.system.mac ≡ true }
        ensures config { IfOk result (λ config. config
            ≡ config_of self.now (record { bridge = record { id = id; source = source }; ports = ports })) }
        ensures whole { IfOk result IsWhole }
    {
        let vids = Vec::from_slice(alloc, self.vids.as_slice())?;
        let metrics = vec![in alloc; 1; usize::from(ports)]?;
        let last = first_life(alloc)?;
        Ok(BridgeConfig {
            id,
            source,
            ports,
            vids: Seq::from_vec(vids),
            metrics: Seq::from_vec(metrics),
            attached: Seq::new(alloc),
            last,
        })
    }

    /// Why a base VID can't be declared, if it can't.
    #[tactic(auto, unfolding(crate::specs::Declaring::vid_refusal))]
    pub fn vid_refusal(&self, vid: u64, ect: u64) -> Option<Reason>
        ensures { result ≡ declare.vid_refusal self.now vid ect }
    {
        let is_new = check::is_new_vid(self.vids.as_slice(), vid);
        let has_room = self.vids.len() < MOST_VIDS;
        reason_unless(is_new, Reason::NameTaken)
            .or(reason_unless(check::is_vid_range(vid, ect), Reason::Range))
            .or(reason_unless(has_room, Reason::TooMany))
            .or(reason_unless(self.bridges.len() == 0, Reason::TooLate))
    }

    /// Why a bridge can't be declared, if it can't, but for the lack of a box.
    #[tactic(auto, unfolding(crate::specs::Declaring::bridge_refusal))]
    pub fn bridge_refusal(
        &self,
        name: Name,
        priority: u64,
        system: Mac,
        source: SourceId,
        ports: u64,
    ) -> Option<Reason>
        ensures { result ≡ declare.bridge_refusal self.now name priority system source ports }
    {
        let is_new_name = check::is_new_name(&self.bridges, name);
        let is_new_id = check::is_new_id(&self.bridges, system, source);
        let is_range = check::is_bridge_range(priority, system, source, ports);
        reason_unless(is_new_name, Reason::NameTaken)
            .or(reason_unless(is_new_id, Reason::IdTaken))
            .or(reason_unless(is_range, Reason::Range))
            .or(reason_unless(self.bridges.len() < MOST_BRIDGES, Reason::TooMany))
    }

    /// Why a link between the bridges at two places can't be declared, if it can't.
    #[tactic(auto, unfolding(crate::specs::Declaring::link_refusal))]
    pub fn link_refusal(
        &self,
        name: Name,
        i: usize,
        port_a: u64,
        j: usize,
        port_b: u64,
        cost: u64,
    ) -> Option<Reason>
        ensures { result ≡ declare.link_refusal self.now name i port_a j port_b cost }
    {
        let is_new_name = check::is_new_name(&self.links, name);
        let (are_free, is_unlinked) = check::are_clear(&self.links, i, port_a, j, port_b);
        let is_range = check::is_link_range(&self.bridges, i, port_a, j, port_b, cost);
        reason_unless(is_new_name, Reason::NameTaken)
            .or(reason_unless(are_free, Reason::PortUse))
            .or(reason_unless(is_range, Reason::Range))
            .or(reason_unless(self.links.len() < MOST_LINKS, Reason::TooMany))
            .or(reason_unless(is_unlinked, Reason::AlreadyLinked))
    }

    /// Whether no service of this I-SID is declared.
    fn is_new_isid(&self, isid: u64) -> bool
        ensures { result ≡ service.is_new_isid self.now.services isid }
    {
        self.vid_of_isid(isid).is_none()
    }

    /// Why a service can't be declared, if it can't.
    #[tactic(auto, unfolding(crate::specs::Services::isid_refusal))]
    pub fn isid_refusal(&self, isid: u64, vid: u64) -> Option<Reason>
        ensures { result ≡ service.isid_refusal self.now isid vid }
    {
        let is_declared = check::has_vid(self.vids.as_slice(), vid);
        let is_new = self.is_new_isid(isid);
        let has_room = self.services.len() < MOST_SERVICES;
        reason_unless(is_declared, Reason::NoSuchName)
            .or(reason_unless(is_new, Reason::NameTaken))
            .or(reason_unless(check::is_isid_range(isid), Reason::Range))
            .or(reason_unless(has_room, Reason::TooMany))
    }

    /// Why a customer port of the bridge at a place can't be attached to the service of an I-SID, if it can't. It takes
    /// a pass over what is attached at this bridge; where `MOST_ISIDS` ports or more are, their I-SIDs are sorted too.
    #[tactic(auto, unfolding(crate::specs::Attaching::attach_refusal))]
    pub fn attach_refusal(&self, place: usize, port: u64, isid: u64) -> Option<Reason>
        ensures { result ≡ attaching.attach_refusal self.now place port isid }
    {
        let is_declared = self.vid_of_isid(isid).is_some();
        let has_place = has_isid_room(self.attached_at(place), isid);
        let is_free = !self.is_attached(place, port);
        reason_unless(is_declared, Reason::NoSuchName)
            .or(reason_unless(is_customer_port(port), Reason::Range))
            .or(reason_unless(has_place, Reason::TooMany))
            .or(reason_unless(is_free, Reason::Attached))
    }

    /// Why a customer port of the bridge at a place can't be detached, if it can't. It takes a pass over what is
    /// attached at this bridge.
    #[tactic(auto, unfolding(crate::specs::Attaching::detach_refusal))]
    pub fn detach_refusal(&self, place: usize, port: u64) -> Option<Reason>
        ensures { result ≡ attaching.detach_refusal self.now place port }
    {
        let is_there = self.is_attached(place, port);
        reason_unless(is_customer_port(port), Reason::Range).or(reason_unless(
            is_there,
            Reason::NotAttached,
        ))
    }

    /// Why a customer's frame can't enter at a customer port of the bridge at a place, if it can't. It takes a pass
    /// over what is attached at this bridge, and a second one where nothing there sends.
    #[tactic(auto, unfolding(crate::specs::Attaching::entry_refusal))]
    pub fn entry_refusal(&self, place: usize, port: u64, frame: &[u8]) -> Option<Reason>
        ensures { result ≡ attaching.entry_refusal self.now place port frame.now }
    {
        let is_range = is_customer_port(port) && is_customer_frame(frame);
        let sends = self.is_sending(place, port);
        let is_there = sends || self.is_attached(place, port);
        reason_unless(is_range, Reason::Range)
            .or(reason_unless(is_there, Reason::NotAttached))
            .or(reason_unless(sends, Reason::ReceiveOnly))
    }

    /// Declares a base VID with the number of its ECT algorithm, which isn't refused. After NoMemory nothing changed.
    pub fn declare_vid(&mut self, vid: u64, ect: u64) -> Result<(), NoMemory>
        requires { declare.vid_refusal self.old vid ect ≡ None }
        ensures ok { OnOk result (self.new ≡ declare.with_vid self.old (declare.plan_of vid ect)) }
        ensures err { OnErr result (self.new ≡ self.old) }
    {
        self.vids.push(VidPlan {
            vid: Vid { value: vid as u16 },
            ect: ect as u8,
        })?;
        self.fabric = None;
        Ok(())
    }

    /// Declares a bridge, which isn't refused. After NoMemory nothing changed.
    pub fn declare_bridge(
        &mut self,
        name: Name,
        priority: u64,
        system: Mac,
        source: SourceId,
        ports: u64,
    ) -> Result<(), NoMemory>
        requires { declare.bridge_refusal self.old name priority system source ports ≡ None }
        ensures ok { OnOk result (self.new
            ≡ declare.with_bridge self.old name (declare.bridge_of priority system source ports)) }
        ensures err { OnErr result (self.new ≡ self.old) }
    {
        let id = BridgeId {
            priority: priority as u16,
            system: SystemId { mac: system },
        };
        let bridge = DeclaredBridge {
            bridge: GraphBridge { id, source },
            ports: ports as u8,
        };
        self.fabric = None;
        self.hints.add_bridge(id.system)?;
        self.attached.add_bridge()?;
        insert_new(&mut self.bridges, name, bridge)?;
        Ok(())
    }

    /// Declares a link between the bridges at two places, which isn't refused and isn't up yet, and answers it. Its
    /// cost is the metric of both ends. After NoMemory nothing changed.
    pub fn declare_link(
        &mut self,
        name: Name,
        i: usize,
        port_a: u64,
        j: usize,
        port_b: u64,
        cost: u64,
    ) -> Result<DeclaredLink, NoMemory>
        requires { declare.link_refusal self.old name i port_a j port_b cost ≡ None }
        ensures link { IfOk result (λ link. link ≡ declare.link_of i port_a j port_b cost) }
        ensures ok { OnOk result (self.new
            ≡ declare.with_link self.old name (declare.link_of i port_a j port_b cost)) }
        ensures err { OnErr result (self.new ≡ self.old) }
    {
        let place = self.links.len();
        let metric = cost as u32;
        let link = DeclaredLink {
            a: LinkEnd {
                bridge: i,
                port: port_a as u8,
                metric,
            },
            b: LinkEnd {
                bridge: j,
                port: port_b as u8,
                metric,
            },
            live: false,
        };
        self.fabric = None;
        insert_new(&mut self.links, name, link)?;
        self.hints.note(link.a, place);
        self.hints.note(link.b, place);
        Ok(link)
    }

    /// Declares a service in a base VID, which isn't refused. After NoMemory nothing changed.
    pub fn declare_isid(&mut self, isid: u64, vid: u64) -> Result<(), NoMemory>
        requires { service.isid_refusal self.old isid vid ≡ None }
        ensures ok { OnOk result (self.new ≡ service.with_service self.old (service.service_of isid vid)) }
        ensures err { OnErr result (self.new ≡ self.old) }
    {
        let isid = Isid { value: isid as u32 };
        self.services.insert(isid, Vid { value: vid as u16 })?;
        Ok(())
    }

    /// Attaches a customer port of the bridge at a place, at which nothing is attached. After NoMemory nothing that is
    /// declared or attached changed.
    pub fn attach(&mut self, place: usize, attachment: Attachment) -> Result<(), NoMemory>
        requires { attaching.IsNewAttachment self.old (place, attachment) }
        ensures ok { OnOk result (self.new ≡ attaching.with_attachment_at self.old place attachment) }
        ensures err { OnErr result (self.new ≡ self.old) }
    {
        self.fabric = None;
        self.attached.attach(place, attachment)?;
        Ok(())
    }

    /// Detaches a customer port of the bridge at a place. Takes no memory.
    pub fn detach(&mut self, place: usize, port: u16)
        ensures { self.new ≡ attaching.without_attachment_at self.old place port }
    {
        self.fabric = None;
        self.attached.detach(place, port);
    }

    /// The link at a place comes up, or goes down. Takes no memory.
    pub fn set_live(&mut self, place: usize, on: bool)
        ensures { self.new ≡ declare.with_live on self.old place }
    {
        self.fabric = None;
        switch(&mut self.links, place, on);
    }

    /// An end of the link at a place gets this metric. Takes no memory.
    pub fn set_metric(&mut self, place: usize, side: Side, metric: u32)
        requires { IsMetric metric }
        ensures { self.new ≡ declare.with_end_metric side metric self.old place }
    {
        self.fabric = None;
        set_end_metric(&mut self.links, place, side, metric);
    }
}

/// A copy of the bridges.
fn copied_bridges(
    bridges: &IndexMap<Name, DeclaredBridge>,
) -> Result<IndexMap<Name, DeclaredBridge>, NoMemory>
    ensures { IfOk result (λ copy. copy.entries ≡ bridges.now.entries) }
{
    Ok(bridges.clone()?)
}

/// A copy of the links.
fn copied_links(
    links: &IndexMap<Name, DeclaredLink>,
) -> Result<IndexMap<Name, DeclaredLink>, NoMemory>
    ensures { IfOk result (λ copy. copy.entries ≡ links.now.entries) }
{
    Ok(links.clone()?)
}

/// A copy of the services.
fn copied_services(services: &IndexMap<Isid, Vid>) -> Result<IndexMap<Isid, Vid>, NoMemory>
    ensures { IfOk result (λ copy. copy.entries ≡ services.now.entries) }
{
    Ok(services.clone()?)
}

/// Puts a thing of a new name behind the others. After NoMemory nothing changed.
fn insert_new<T: Drop>(things: &mut IndexMap<Name, T>, name: Name, thing: T) -> Result<(), NoMemory>
    requires { is_new_name name things.old.entries ≡ true }
    ensures ok { OnOk result (things.new.entries ≡ things.old.entries ++ (name, thing) ∷ []) }
    ensures err { OnErr result (things.new.entries ≡ things.old.entries) }
{
    things.insert(name, thing)?;
    Ok(())
}

/// The link at a place comes up, or goes down.
fn switch(links: &mut IndexMap<Name, DeclaredLink>, place: usize, on: bool)
    ensures { links.new.entries ≡ switched on links.old.entries place }
{
    match links.get_index_mut(place) {
        None => {}
        Some(link) => link.live = on,
    }
}

/// An end of the link at a place gets this metric.
fn set_end_metric(links: &mut IndexMap<Name, DeclaredLink>, place: usize, side: Side, metric: u32)
    ensures { links.new.entries ≡ links_with_metric side metric links.old.entries place }
{
    match links.get_index_mut(place) {
        None => {}
        Some(link) => link_ends::set_metric(link, side, metric),
    }
}
