//! Seconds that pass in calm: in which nothing comes to pass but that lifetimes fall, as long as each neighbour says
//! hello in each of them.
ghost use Rattle.std.specs.Prelude.{◌≡◌, ◌≤◌, true, false};
ghost use Rattle.bridge_api.specs.Calm.{IsCalmFor, aged_by};
ghost use Rattle.bridge_control.specs.Machine.{view_of, IsReady, IsAfter};
ghost use Rattle.bridge_control.specs.Ports.{KeepsPort, KeepsEach};

use crate::machine::Machine;
use crate::ports::is_up;
use bridge_api::BridgePort;
use flooding::fresh_seconds;

/// Whether no CSNPs are due at a port, and, where it has carrier, it is Up and keeps its neighbour for three seconds.
fn keeps(port: &BridgePort) -> bool
    ensures { result ≡ true → KeepsPort port.now }
{
    !port.csnp_due && (!port.adjacency.carrier || (is_up(port) && port.adjacency.hold == 3))
}

/// Whether it is so at all ports.
fn keeps_each(ports: &[BridgePort]) -> bool
    ensures { result ≡ true → KeepsEach ports.now }
{
    'ask: for port in ports {
        if !keeps(port) {
            return false;
        }
    }
    true
}

impl Machine {
    /// For how many seconds it can be told that nothing would come to pass; 0 where something would.
    pub(crate) fn calm_seconds(&self) -> u16
        requires { IsReady self.now }
        ensures { 1 ≤ result → IsCalmFor result (view_of self.now) }
    {
        let seconds = self.db.calm_seconds();
        if seconds == 0 || self.own.spent || !keeps_each(self.ports.as_slice()) {
            return 0;
        }
        seconds.min(fresh_seconds(&self.db, &self.own))
    }

    /// So many seconds pass in calm, all at once.
    pub(crate) fn pass_calm(&mut self, seconds: u16)
        requires ready { IsReady self.old }
        requires calm { IsCalmFor seconds (view_of self.old) }
        ensures { IsAfter (aged_by seconds (view_of self.old)) self.new }
    {
        self.db.pass_calm(seconds);
    }
}
