//! A change at a port: of carrier, of the metric of its link, and of its adjacency.
ghost use Rattle.std.specs.Prelude.{◌≡◌, ◌≤◌, length, OnOk};
ghost use Rattle.adjacency.specs.declared.state.AdjacencyChange.TheVariants as did;
ghost use Rattle.bridge_api.specs.View.{IsPort};
ghost use Rattle.bridge_api.specs.Config.{IsMetric};
ghost use Rattle.bridge_api.specs.Hearing as api;
ghost use Rattle.bridge_control.specs.Machine.{view_of, IsReady, IsAfter, FollowsPorts, CanPut, IsPut, SaysTheSame};

use crate::hello::{kept_hello, put_hello};
use crate::machine::Machine;
use crate::ports::{is_same_end, is_up, port_at, put_port, set_srm_for_all, up_ports};
use adjacency::AdjacencyChange;
use bridge_api::{BridgePort, DropReason};
use spb_types::NoMemory;

impl Machine {
    /// Carrier comes or goes at a port.
    pub(crate) fn carrier(&mut self, port: u8, on: bool) -> Result<(), NoMemory>
        requires ready { IsReady self.old }
        requires port { IsPort (view_of self.old) port }
        ensures { OnOk result (IsAfter (api.with_carrier port on (view_of self.old)) self.new) }
    {
        let mut new = port_at(self.ports.as_slice(), port);
        let heard = new.adjacency.set_carrier(on);
        self.change(port, new, heard)
    }

    /// Sets the metric of the link at a port.
    pub(crate) fn set_metric(&mut self, port: u8, metric: u32) -> Result<(), NoMemory>
        requires ready { IsReady self.old }
        requires port { IsPort (view_of self.old) port }
        requires metric { IsMetric metric }
        ensures { OnOk result (IsAfter (api.with_metric port metric (view_of self.old)) self.new) }
    {
        let mut new = port_at(self.ports.as_slice(), port);
        new.metric = metric;
        if !is_up(&new) {
            return self.keep(port, &new);
        }
        self.put(port, &new)?;
        self.renew_bodies()?;
        self.originate_if_changed()
    }

    /// A port comes into a new state, by which this came to pass.
    pub(crate) fn change(
        &mut self,
        port: u8,
        new: BridgePort,
        heard: AdjacencyChange,
    ) -> Result<(), NoMemory>
        requires can { CanPut port new self.old }
        requires kept { heard ≡ did.Kept → SaysTheSame port new self.old }
        ensures { OnOk result (IsAfter (api.changed_at heard port new (view_of self.old)) self.new) }
    {
        match heard {
            AdjacencyChange::Discarded => {
                self.count_drop(DropReason::Hello);
                Ok(())
            }
            AdjacencyChange::Kept => self.keep(port, &new),
            AdjacencyChange::LeftUp => self.leave(port, &new),
            AdjacencyChange::CameUp => self.enter(port, &new),
        }
    }

    /// A port comes into a state in which the bridge says the same of itself, as its own LSPs do.
    fn keep(&mut self, port: u8, new: &BridgePort) -> Result<(), NoMemory>
        requires can { CanPut port new.now self.old }
        requires same { SaysTheSame port new.now self.old }
        ensures { OnOk result (IsAfter (api.changed_at did.Kept port new.now (view_of self.old)) self.new) }
    {
        self.put(port, new)
    }

    /// A port leaves Up: its flags are cleared, and nothing is due there.
    fn leave(&mut self, port: u8, new: &BridgePort) -> Result<(), NoMemory>
        requires { CanPut port new.now self.old }
        ensures { OnOk result (IsAfter (api.changed_at did.LeftUp port new.now (view_of self.old)) self.new) }
    {
        let undue = BridgePort {
            csnp_due: false,
            ..*new
        };
        self.put(port, &undue)?;
        self.db.clear_port(port);
        self.renew_bodies()?;
        self.originate_if_changed()
    }

    /// A port enters Up, before which it may have been Up with another neighbour: each LSP is to be sent there, and
    /// CSNPs are due.
    fn enter(&mut self, port: u8, new: &BridgePort) -> Result<(), NoMemory>
        requires { CanPut port new.now self.old }
        ensures { OnOk result (IsAfter (api.changed_at did.CameUp port new.now (view_of self.old)) self.new) }
    {
        self.leave(port, new)?;
        let due = BridgePort {
            csnp_due: true,
            ..*new
        };
        self.put(port, &due)?;
        set_srm_for_all(&mut self.db, port);
        Ok(())
    }

    /// Puts a port into a new state. Its hello is made anew where it is to say something else.
    fn put(&mut self, port: u8, new: &BridgePort) -> Result<(), NoMemory>
        requires port { IsPort (view_of self.old) port }
        requires few { length self.old.ports.items ≤ 32 }
        requires ports { FollowsPorts self.old }
        ensures { OnOk result (IsPut port new.now self.old self.new) }
    {
        let old = port_at(self.ports.as_slice(), port);
        put_port(&mut self.ports, port, *new);
        if is_same_end(&old.adjacency, &new.adjacency) {
            return Ok(());
        }
        let hello = kept_hello(self.alloc, self.id.system, port, new)?;
        put_hello(&mut self.hellos, port, hello);
        self.up = up_ports(self.ports.as_slice());
        Ok(())
    }
}
