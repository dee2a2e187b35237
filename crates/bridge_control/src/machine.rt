//! What a configured bridge keeps, and its own LSPs.
ghost use Rattle.std.specs.Prelude.{ℕ, ◌≡◌, ◌≤◌, ◌<◌, true, false, length, IfOk, OnOk};
ghost use Rattle.spb_content.specs.Local.{IsLocal};
ghost use Rattle.flooding.specs.Own.{own_numbers};
ghost use Rattle.flooding.specs.Room.{most_others, others};
ghost use Rattle.flooding.specs.Placing.{holding};
ghost use Rattle.flooding.specs.Settling.{is_said};
ghost use Rattle.bridge_api.specs.Config as config_specs;
ghost use Rattle.bridge_api.specs.Ticking as ticking;
ghost use Rattle.bridge_api.specs.Own as api;
ghost use Rattle.bridge_api.specs.Hearing as hearing;
ghost use Rattle.bridge_api.specs.Tables.{own_tables};

use crate::heard::{HeardHello, none_heard};
use crate::hello::hellos_of;
use crate::ports::{bare_ports, neighbours_at, up_ports};
use crate::repeats::{begins_with_repeat, without_repeats};
use bridge_api::{BridgeConfig, BridgePort, DropReason, Drops, attached_members};
use customer_learning::Learned;
use flooding::{OWN_NUMBERS, Own, begin_all, keep_fresh, settle};
use forwarding::Tenant;
use lsdb::Database;
use shared_frames::Frame;
use spb_content::{BridgeConfigFacts, Local, bodies_of};
use spb_types::{
    Attachment, BridgeId, LEVEL_1, Mac, NoMemory, PortSet, Seq, SourceId, SystemId, VidPlan,
};
use std::alloc::Global;

/// The id of a bridge that isn't configured.
const NO_ID: BridgeId = BridgeId {
    priority: 0,
    system: SystemId {
        mac: Mac { bytes: [0; 6] },
    },
};

/// What a configured bridge keeps. Between calls the bodies of `own` are what the bridge has to say of itself, `hellos`
/// are the hellos of its ports with carrier, and `up` are those that are Up. What is kept of the hellos that came only
/// saves reading them.
#[derive(Drop)]
pub(crate) struct Machine {
    pub(crate) alloc: Global,
    pub(crate) id: BridgeId,
    pub(crate) vids: Seq<VidPlan>,
    pub(crate) ports: Vec<BridgePort>,
    /// What the bridge knows of its customers. Its address is the own one.
    pub(crate) tenant: Tenant,
    pub(crate) db: Database,
    pub(crate) own: Own,
    /// The hello of each port with carrier, as a control frame.
    pub(crate) hellos: Vec<Option<Frame>>,
    pub(crate) up: PortSet,
    /// How many frames were dropped.
    pub(crate) drops: Drops,
    /// The hello that came last to each port; there is no room for any before the first comes.
    pub(crate) heard: Vec<Option<HeardHello>>,
}

impl Machine {
    ghost use Rattle.bridge_control.specs.Heard.{AreJudged};
    ghost use Rattle.bridge_control.specs.Machine.{view_of, IsCurrent, FollowsPorts, CanOriginate, IsAfter};

    /// A machine without ports, which takes no memory.
    pub(crate) fn idle(alloc: Global) -> Self {
        Machine {
            alloc,
            id: NO_ID,
            vids: Seq::new(alloc),
            ports: Vec::new(alloc),
            tenant: Tenant {
                me: NO_ID.system.mac,
                source: SourceId { value: 0 },
                attached: Seq::new(alloc),
                learned: Learned::new(alloc),
            },
            db: Database::new(alloc),
            own: Own {
                system: NO_ID.system,
                bodies: Seq::new(alloc),
                spent: false,
            },
            hellos: Vec::new(alloc),
            up: PortSet::none(),
            drops: Drops::none(),
            heard: Vec::new(alloc),
        }
    }

    /// The machine of a whole configuration, with no carrier. Its own LSPs have begun.
    pub(crate) fn configured(alloc: Global, config: &BridgeConfig) -> Result<Self, NoMemory>
        requires { config_specs.IsWhole config.now }
        ensures { IfOk result (IsAfter (config_specs.configured config.now)) }
    {
        let mut machine = Machine::bare(alloc, config)?;
        machine.renew_bodies()?;
        machine.begin(config.last.as_slice())?;
        Ok(machine)
    }

    /// The machine of a whole configuration, which holds nothing yet and has no bodies of own LSPs.
    fn bare(alloc: Global, config: &BridgeConfig) -> Result<Self, NoMemory>
        requires { config_specs.IsWhole config.now }
        ensures view { IfOk result (λ m. view_of m ≡ config_specs.bare config.now) }
        ensures system { IfOk result (λ m. m.own.system ≡ m.id.system) }
        ensures ports { IfOk result FollowsPorts }
    {
        let vids = Vec::from_slice(alloc, config.vids.as_slice())?;
        let attached = Vec::from_slice(alloc, config.attached.as_slice())?;
        let ports = bare_ports(alloc, config.metrics.as_slice())?;
        let hellos = hellos_of(alloc, config.id.system, ports.as_slice())?;
        let up = up_ports(ports.as_slice());
        let heard = none_heard(alloc, 0)?;
        Ok(Machine {
            alloc,
            id: config.id,
            vids: Seq::from_vec(vids),
            ports,
            tenant: Tenant {
                me: config.id.system.mac,
                source: config.source,
                attached: Seq::from_vec(attached),
                learned: Learned::new(alloc),
            },
            db: Database::new(alloc),
            own: Own {
                system: config.id.system,
                bodies: Seq::new(alloc),
                spent: false,
            },
            hellos,
            up,
            drops: Drops::none(),
            heard,
        })
    }

    /// What the bridge says of itself where this is attached.
    fn local(&self, attached: &[Attachment]) -> Result<Local, NoMemory>
        requires { length self.now.ports.items ≤ 32 }
        ensures { IfOk result (λ local. local ≡ api.local_of (record (view_of self.now) { attached = attached.now })) }
    {
        let vids = Vec::from_slice(self.alloc, self.vids.as_slice())?;
        let neighbours = neighbours_at(self.alloc, self.ports.as_slice())?;
        let attached = attached_members(self.alloc, self.id.system, attached)?;
        Ok(Local {
            config: BridgeConfigFacts {
                id: self.id,
                source: self.tenant.source,
                vids: Seq::from_vec(vids),
            },
            neighbours: Seq::from_vec(neighbours),
            attached: Seq::from_vec(attached),
        })
    }

    /// The bodies of the own LSPs where this is attached, from number 0 on.
    #[tactic(auto, unfolding(bridge_api::specs::Own::bodies_of, flooding::specs::Own::own_numbers))]
    fn bodies_with(&self, attached: &[Attachment]) -> Result<Vec<Option<Seq<u8>>>, NoMemory>
        requires few { length self.now.ports.items ≤ 32 }
        requires local { IsLocal (api.local_of (record (view_of self.now) { attached = attached.now })) }
        ensures { IfOk result (λ bodies. bodies.items ≡ api.bodies_of (record (view_of self.now) { attached = attached.now })) }
    {
        let local = self.local(attached)?;
        bodies_of(self.alloc, &local, OWN_NUMBERS, LEVEL_1)
    }

    /// The bodies of the own LSPs, from number 0 on. Where many ports stand beside each other in one service, one or
    /// two of them say what all do.
    fn bodies(&self) -> Result<Vec<Option<Seq<u8>>>, NoMemory>
        requires few { length self.now.ports.items ≤ 32 }
        requires local { IsLocal (api.local_of (view_of self.now)) }
        ensures { IfOk result (λ bodies. bodies.items ≡ api.bodies_of (view_of self.now)) }
    {
        let attached = self.tenant.attached.as_slice();
        if !begins_with_repeat(attached) {
            return self.bodies_with(attached);
        }
        let few = without_repeats(self.alloc, attached)?;
        self.bodies_with(few.as_slice())
    }

    /// Makes the bodies of the own LSPs anew, after an Up port, its neighbour, its metric or what is attached changed.
    pub(crate) fn renew_bodies(&mut self) -> Result<(), NoMemory>
        requires few { length self.old.ports.items ≤ 32 }
        requires system { self.old.own.system ≡ self.old.id.system }
        requires local { IsLocal (api.local_of (view_of self.old)) }
        ensures { OnOk result (self.new ≡ record self.old { own = api.own_of (view_of self.old) }) }
    {
        let bodies = self.bodies()?;
        self.own.bodies = Seq::from_vec(bodies);
        Ok(())
    }

    /// Makes the hellos and the set of the Up ports anew, after neighbours were lost.
    pub(crate) fn renew_hellos(&mut self) -> Result<(), NoMemory>
        requires few { length self.old.ports.items ≤ 32 }
        requires me { self.old.tenant.me ≡ self.old.id.system.mac }
        requires heard { AreJudged self.old.id.system self.old.heard.items }
        ensures view { OnOk result (view_of self.new ≡ view_of self.old) }
        ensures own { OnOk result (self.new.own ≡ self.old.own) }
        ensures ports { OnOk result (FollowsPorts self.new) }
    {
        self.hellos = hellos_of(self.alloc, self.id.system, self.ports.as_slice())?;
        self.up = up_ports(self.ports.as_slice());
        Ok(())
    }

    /// Counts a frame that is dropped, by which nothing else changes.
    pub(crate) fn count_drop(&mut self, reason: DropReason)
        requires { IsCurrent self.old }
        ensures after { IsAfter (hearing.after_drop reason (view_of self.old)) self.new }
        ensures tables { own_tables (view_of self.new) ≡ own_tables (view_of self.old) }
    {
        self.drops.raise(reason);
    }

    /// Begins each own LSP above the number that it had in the life before (ISO/IEC 10589, 7.3.16.1).
    fn begin(&mut self, last: &[u32]) -> Result<(), NoMemory>
        requires long { length last.now ≡ own_numbers }
        requires room { others self.old.id.system self.old.db ≤ most_others }
        requires current { IsCurrent self.old }
        ensures { OnOk result (IsAfter (api.after_begin last.now (view_of self.old)) self.new) }
    {
        begin_all(self.alloc, &mut self.db, &mut self.own, last)
    }

    /// Brings own LSPs up to date that say something else than the bridge has to say.
    pub(crate) fn originate_if_changed(&mut self) -> Result<(), NoMemory>
        requires can { CanOriginate self.old }
        requires current { IsCurrent self.old }
        ensures { OnOk result (IsAfter (api.originated_if_changed (view_of self.old)) self.new) }
    {
        settle(self.alloc, &mut self.db, self.up, &mut self.own)
    }

    /// Brings own LSPs up to date that say something else or are old, and tells whether there was one. Only where their
    /// bodies were renewed does it look whether they say something else.
    pub(crate) fn refresh(&mut self, renewed: bool) -> Result<bool, NoMemory>
        requires can { CanOriginate self.old }
        requires current { IsCurrent self.old }
        requires said { renewed ≡ false → self.old.own.spent ≡ false → (number : ℕ) → number < own_numbers
            → is_said (holding self.old.db self.old.own) number ≡ true }
        ensures after { OnOk result (IsAfter (ticking.refreshed (view_of self.old)) self.new) }
        ensures idle { IfOk result (λ originated. originated ≡ false → self.new.db ≡ self.old.db) }
    {
        keep_fresh(self.alloc, &mut self.db, self.up, &mut self.own, renewed)
    }
}
