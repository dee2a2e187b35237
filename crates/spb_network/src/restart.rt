//! A bridge restarts: a blank box takes the place of its box, which is dropped with all that it held.
ghost use Rattle.std.specs.Prelude.{◌≡◌, ◌<◌, Some, length, slice_get, OnOk, IfOk, IfSome};
ghost use Rattle.bridge_api.specs.Config.{IsWhole};
ghost use Rattle.spb_world.specs.World.{things_of, IsEnd};
ghost use Rattle.network_model.specs.State.{links_of};
ghost use Rattle.network_model.specs.Refusing as refuse;
ghost use Rattle.network_model.specs.Restarting as restart;
ghost use Rattle.spb_world.specs.Links.{port_metrics};
ghost use Rattle.network_model.specs.Play as play;
ghost use Rattle.spb_network.specs.Network.{state_of, AreConfigured, IsInOrder, IsBlankAt};
ghost use Rattle.spb_network.specs.Applying.{IsSoundNetwork};

use crate::numbers::last_numbers;
use crate::rack::{kind_at, next_box};
use crate::{DeclaredBridge, DeclaredLink, LinkEnd, NetworkOf, Reason, boxes};
use bridge_api::{Bridge, BridgeConfig};
use spb_types::{Name, NoMemory, Seq};
use spb_world::link_ends::{end_away, end_here, ends_here};
use spb_world::reason_unless;

impl<B: Bridge> NetworkOf<B> {
    /// The box that the bridge at a place takes, by place in the rack. None exactly where no blank one of its kind is
    /// left.
    fn box_at(&self, i: usize) -> Option<usize>
        ensures place { result ≡ restart.box_at (state_of B.shown self.now) i }
        ensures within { IfSome result (λ place. place < length self.now.rack.items) }
        ensures blank { IfSome result (IsBlankAt B.shown self.now.rack.items) }
    {
        next_box(&self.rack, kind_at(self.rule, i))
    }

    /// Why a bridge can't restart, if it can't.
    #[tactic(auto, unfolding(network_model::specs::Refusing::restart_refusal))]
    pub(crate) fn restart_refusal(&self, name: Name) -> Option<Reason>
        ensures { result ≡ refuse.restart_refusal (state_of B.shown self.now) name }
    {
        match self.world.bridge_place(name) {
            None => Some(Reason::NoSuchName),
            Some(i) => reason_unless(self.box_at(i).is_some(), Reason::RackSpent),
        }
    }

    /// The metric at each of so many ports of the bridge at a place.
    fn port_metrics(&self, i: usize, ports: u8) -> Result<Vec<u32>, NoMemory>
        ensures { IfOk result (λ metrics. metrics.items
            ≡ port_metrics (links_of (state_of B.shown self.now)) i ports 1) }
    {
        let mut metrics = Vec::new(self.alloc);
        for place in 0..ports {
            metrics.push(self.world.port_metric(i, place + 1))?;
        }
        Ok(metrics)
    }

    /// What a blank box is configured with that takes the place of a declared bridge.
    fn restart_config(&self, i: usize, bridge: DeclaredBridge) -> Result<BridgeConfig, NoMemory>
        requires sound { IsSoundNetwork B.shown self.now }
        requires bridge { slice_get (things_of self.now.world.bridges) i ≡ Some bridge }
        ensures { IfOk result (λ config. config
            ≡ restart.restart_config (state_of B.shown self.now) i bridge) }
    {
        let vids = Vec::from_slice(self.alloc, self.world.vids())?;
        let metrics = self.port_metrics(i, bridge.ports)?;
        let attached = self.world.attached(self.alloc, i)?;
        let last = last_numbers(self.alloc, &self.boxes, i, bridge.bridge.id.system)?;
        Ok(BridgeConfig {
            id: bridge.bridge.id,
            source: bridge.bridge.source,
            ports: bridge.ports,
            vids: Seq::from_vec(vids),
            metrics: Seq::from_vec(metrics),
            attached,
            last,
        })
    }

    /// The lanes of a link lose their frames, and its far end loses carrier and gets it back.
    fn cut(&mut self, place: usize, far: LinkEnd) -> Result<(), NoMemory>
        requires order { IsInOrder B.shown self.old }
        requires end { IsEnd self.old.world.bridges far }
        ensures state { OnOk result (state_of B.shown self.new
            ≡ restart.link_cut (state_of B.shown self.old) place far) }
        ensures order { OnOk result (IsInOrder B.shown self.new) }
        ensures world { self.new.world ≡ self.old.world }
        ensures rack { self.new.rack ≡ self.old.rack }
    {
        self.lanes.flush(place);
        self.set_carrier(far, false)?;
        self.set_carrier(far, true)
    }

    /// The link at a place is cut, if it is one of the bridge at place i that is up.
    fn cut_link(&mut self, i: usize, place: usize) -> Result<(), NoMemory>
        requires { IsInOrder B.shown self.old }
        ensures state { OnOk result (state_of B.shown self.new
            ≡ restart.cut_link (state_of B.shown self.old) i place
            (slice_get (links_of (state_of B.shown self.old)) place)) }
        ensures order { OnOk result (IsInOrder B.shown self.new) }
        ensures world { self.new.world ≡ self.old.world }
        ensures rack { self.new.rack ≡ self.old.rack }
    {
        match self.world.link(place) {
            None => Ok(()),
            Some(link) => {
                if ends_here(&link, i) {
                    self.cut(place, end_away(&link, i))
                } else {
                    Ok(())
                }
            }
        }
    }

    /// Every link of the bridge at a place that is up is cut, in order of declaration.
    fn cut_links(&mut self, i: usize) -> Result<(), NoMemory>
        requires { IsInOrder B.shown self.old }
        ensures state { OnOk result (state_of B.shown self.new
            ≡ restart.cut_from (length (links_of (state_of B.shown self.old))) 0 i (state_of B.shown self.old)) }
        ensures order { OnOk result (IsInOrder B.shown self.new) }
        ensures world { self.new.world ≡ self.old.world }
        ensures rack { self.new.rack ≡ self.old.rack }
    {
        for place in 0..self.world.link_count() {
            self.cut_link(i, place)?;
        }
        Ok(())
    }

    /// A box leaves the rack, is configured, and takes the place of the box of a declared bridge, which is dropped.
    fn replace_box(
        &mut self,
        i: usize,
        bridge: DeclaredBridge,
        place: usize,
        config: &BridgeConfig,
    ) -> Result<(), NoMemory>
        requires order { IsInOrder B.shown self.old }
        requires bridge { slice_get (things_of self.old.world.bridges) i ≡ Some bridge }
        requires place { place < length self.old.rack.items }
        requires blank { IsBlankAt B.shown self.old.rack.items place }
        requires whole { IsWhole config.now }
        requires ports { config.now.ports ≡ bridge.ports }
        ensures state { OnOk result (state_of B.shown self.new
            ≡ restart.replaced (state_of B.shown self.old) i config.now place) }
        ensures order { OnOk result (IsInOrder B.shown self.new) }
    {
        let mut fresh = self.rack.remove(place);
        fresh.configure(config)?;
        boxes::replace(&mut self.boxes, i, fresh);
        Ok(())
    }

    /// The bridge at place i gets carrier over the link at a place, if it is one of its links that is up.
    fn set_link_carrier(&mut self, i: usize, place: usize) -> Result<(), NoMemory>
        requires { IsInOrder B.shown self.old }
        ensures state { OnOk result (state_of B.shown self.new
            ≡ restart.with_link_carrier (state_of B.shown self.old) i
            (slice_get (links_of (state_of B.shown self.old)) place)) }
        ensures order { OnOk result (IsInOrder B.shown self.new) }
        ensures world { self.new.world ≡ self.old.world }
    {
        match self.world.link(place) {
            None => Ok(()),
            Some(link) => {
                if ends_here(&link, i) {
                    self.set_carrier(end_here(&link, i), true)
                } else {
                    Ok(())
                }
            }
        }
    }

    /// The bridge at a place gets carrier over each of its links that is up, in order of declaration.
    fn set_link_carriers(&mut self, i: usize) -> Result<(), NoMemory>
        requires { IsInOrder B.shown self.old }
        ensures state { OnOk result (state_of B.shown self.new
            ≡ restart.with_carriers_from (length (links_of (state_of B.shown self.old))) 0 i
            (state_of B.shown self.old)) }
        ensures order { OnOk result (IsInOrder B.shown self.new) }
    {
        for place in 0..self.world.link_count() {
            self.set_link_carrier(i, place)?;
        }
        Ok(())
    }

    /// A bridge restarts in the blank box at a place of the rack.
    fn restart_in(&mut self, i: usize, bridge: DeclaredBridge, place: usize) -> Result<(), NoMemory>
        requires sound { IsSoundNetwork B.shown self.old }
        requires bridge { slice_get (things_of self.old.world.bridges) i ≡ Some bridge }
        requires place { place < length self.old.rack.items }
        requires blank { IsBlankAt B.shown self.old.rack.items place }
        ensures state { OnOk result (state_of B.shown self.new
            ≡ restart.restarted_in (state_of B.shown self.old) i
            (restart.restart_config (state_of B.shown self.old) i bridge) place) }
        ensures made { OnOk result (AreConfigured B.shown self.new.boxes.items) }
    {
        let config = self.restart_config(i, bridge)?;
        self.cut_links(i)?;
        self.replace_box(i, bridge, place, &config)?;
        self.set_link_carriers(i)
    }

    /// The bridge at a place restarts. Nothing happens where there is none, or no box for it.
    #[tactic(auto, unfolding(network_model::specs::Restarting::restarted))]
    fn restart(&mut self, i: usize) -> Result<(), NoMemory>
        requires { IsSoundNetwork B.shown self.old }
        ensures state { OnOk result (state_of B.shown self.new
            ≡ restart.restarted (state_of B.shown self.old) i) }
        ensures made { OnOk result (AreConfigured B.shown self.new.boxes.items) }
    {
        let Some(bridge) = self.world.bridge(i) else {
            return Ok(());
        };
        match self.box_at(i) {
            None => Ok(()),
            Some(place) => self.restart_in(i, bridge, place),
        }
    }

    /// The bridge of a name restarts.
    #[tactic(auto, unfolding(network_model::specs::Play::at_bridge))]
    pub(crate) fn play_restart(&mut self, name: Name) -> Result<(), NoMemory>
        requires { IsSoundNetwork B.shown self.old }
        ensures state { OnOk result (state_of B.shown self.new
            ≡ play.at_bridge restart.restarted (state_of B.shown self.old) name) }
        ensures made { OnOk result (AreConfigured B.shown self.new.boxes.items) }
    {
        match self.world.bridge_place(name) {
            None => Ok(()),
            Some(i) => self.restart(i),
        }
    }
}
