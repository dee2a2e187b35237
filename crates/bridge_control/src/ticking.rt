//! A second of a bridge.
ghost use Rattle.std.specs.Prelude.{◌≡◌, ◌≤◌, false, length, drop, OnOk, OnErr, IfOk};
ghost use Rattle.lsdb.specs.Database.{any_flags};
ghost use Rattle.bridge_api.specs.Own.{own_of};
ghost use Rattle.bridge_api.specs.Step.{with_wire, Gains};
ghost use Rattle.bridge_api.specs.Ticking as api;
ghost use Rattle.bridge_control.specs.Machine.{view_of, IsReady, IsAfter};
ghost use Rattle.bridge_control.specs.Ports.{AreUnused, has_lost};

use crate::machine::Machine;
use crate::ports::{clear_csnp_due, count_down, ports_in_use};
use crate::sending::send_all;
use bridge_api::Outbox;
use spb_types::NoMemory;

impl Machine {
    /// A second passes.
    pub(crate) fn tick(&mut self, outbox: &mut Outbox) -> Result<(), NoMemory>
        requires { IsReady self.old }
        ensures after { OnOk result (IsAfter (api.after_tick (view_of self.old)) self.new) }
        ensures sent { OnOk result (outbox.new ≡ with_wire (api.sent_in_tick (view_of self.old)) outbox.old) }
        ensures gained { OnErr result (Gains (api.sent_in_tick (view_of self.old)) outbox.old outbox.new) }
    {
        let used = ports_in_use(self.ports.as_slice());
        let has_flags = self.prepare(used)?;
        send_all(
            self.alloc,
            self.id.system,
            &self.ports.as_slice()[..used],
            &self.hellos.as_slice()[..used],
            &mut self.db,
            has_flags,
            outbox,
        )?;
        clear_csnp_due(&mut self.ports, used);
        Ok(())
    }

    /// All of a second that comes before sending. Tells whether anything may have to be sent but hellos and CSNPs. Only
    /// the first ports, so many, have carrier.
    fn prepare(&mut self, used: usize) -> Result<bool, NoMemory>
        requires ready { IsReady self.old }
        requires within { used ≤ length self.old.ports.items }
        requires unused { AreUnused (drop used self.old.ports.items) }
        ensures after { OnOk result (IsAfter (api.readied (view_of self.old)) self.new) }
        ensures idle { IfOk result (λ has_flags. has_flags ≡ false → any_flags self.new.db ≡ false) }
    {
        let lost = self.count(used)?;
        let flags = self.db.age_one(self.up);
        let originated = self.refresh(lost)?;
        Ok(flags || originated)
    }

    /// The holding counts fall, and it tells whether a neighbour is lost. Where one is, the hellos and the bodies of
    /// the own LSPs are made anew. Only the first ports, so many, have carrier.
    fn count(&mut self, used: usize) -> Result<bool, NoMemory>
        requires ready { IsReady self.old }
        requires within { used ≤ length self.old.ports.items }
        requires unused { AreUnused (drop used self.old.ports.items) }
        ensures after { OnOk result (IsAfter (api.counts_lowered (view_of self.old)) self.new) }
        ensures lost { IfOk result (λ lost. lost ≡ has_lost self.old.ports.items) }
    {
        if !count_down(&mut self.ports, used, &mut self.db) {
            return Ok(false);
        }
        self.renew_hellos()?;
        self.renew_bodies()?;
        Ok(true)
    }
}
