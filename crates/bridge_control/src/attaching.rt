//! Attaching a customer port to a service, and detaching it.
ghost use Rattle.std.specs.Prelude.{◌≡◌, OnOk};
ghost use Rattle.bridge_api.specs.Own as api;
ghost use Rattle.bridge_api.specs.Services as services;
ghost use Rattle.bridge_control.specs.Machine.{view_of, IsReady, IsAfter};
ghost use Rattle.bridge_control.specs.Attaching.{CanTell, is_beside, is_done_beside, is_covered};

use crate::machine::Machine;
use forwarding::detach;
use spb_types::{Attachment, NoMemory};

impl Machine {
    /// Attaches a customer port to a service. Where other ports send to it and receive from it as this one does, the
    /// bridge says the same as before.
    pub(crate) fn attach(&mut self, attachment: Attachment) -> Result<(), NoMemory>
        requires ready { IsReady self.old }
        requires can { services.CanAttach (view_of self.old) attachment }
        ensures { OnOk result (IsAfter (services.with_attachment attachment (view_of self.old)) self.new) }
    {
        let is_said = is_done_beside(&attachment, self.tenant.attached.as_slice());
        self.tenant.attached.push(attachment)?;
        if is_said {
            return Ok(());
        }
        self.tell()
    }

    /// Detaches a customer port, and forgets what was learned there. Where other ports send to its service and receive
    /// from it as this one does, the bridge says the same as before.
    pub(crate) fn detach(&mut self, port: u16) -> Result<(), NoMemory>
        requires ready { IsReady self.old }
        requires attached { services.IsAttachedPort (view_of self.old) port }
        ensures { OnOk result (IsAfter (services.without_attachment port (view_of self.old)) self.new) }
    {
        let is_said = is_covered(port, self.tenant.attached.as_slice());
        detach(self.alloc, &mut self.tenant, port)?;
        if is_said {
            return Ok(());
        }
        self.tell()
    }

    /// Makes the bodies of the own LSPs anew, and brings those up to date that say something else.
    fn tell(&mut self) -> Result<(), NoMemory>
        requires { CanTell self.old }
        ensures { OnOk result (IsAfter (api.originated_if_changed (view_of self.old)) self.new) }
    {
        self.renew_bodies()?;
        self.originate_if_changed()
    }
}

/// Whether this is attached to the service of another attachment, at another port.
fn is_beside(b: &Attachment, a: &Attachment) -> bool
    ensures { result ≡ is_beside a.now b.now }
{
    b.isid.value == a.isid.value && b.vid.value == a.vid.value && b.port != a.port
}

/// Whether other ports do in the service of an attachment what this does there. It looks no further than the last that
/// is needed for it.
fn is_done_beside(a: &Attachment, attached: &[Attachment]) -> bool
    ensures { result ≡ is_done_beside attached.now a.now }
{
    let mut sends = !a.mode.sends();
    let mut receives = !a.mode.receives();
    for b in attached {
        if is_beside(b, a) {
            sends |= b.mode.sends();
            receives |= b.mode.receives();
            if sends && receives {
                return true;
            }
        }
    }
    sends && receives
}

/// Whether other ports do what a customer port does in the service that it is attached to, if it is to any.
fn is_covered(port: u16, attached: &[Attachment]) -> bool
    ensures { result ≡ is_covered port attached.now }
{
    for a in attached {
        if a.port == port {
            return is_done_beside(a, attached);
        }
    }
    true
}
