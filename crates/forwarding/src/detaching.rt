//! Detaching a customer port.
ghost use Rattle.std.specs.Prelude.{◌≡◌, IfOk, OnOk, OnErr};
ghost use Rattle.std.specs.List.{list_any};
ghost use Rattle.forwarding.specs.Detaching as spec;
ghost use Rattle.forwarding.specs.Ports as ports;

use crate::Tenant;
use crate::ports::attachment_of;
use customer_learning::Learned;
use spb_types::{Attachment, Isid, NoMemory, Seq};
use std::alloc::Global;
use std::mem;

/// What is attached, without the customer port of this number.
pub fn without_customer_port(
    alloc: Global,
    port: u16,
    attached: &[Attachment],
) -> Result<Vec<Attachment>, NoMemory>
    ensures { IfOk result (λ v. v.items ≡ ports.without_customer_port port attached.now) }
{
    let others = attached
        .iter()
        .filter(|attachment| attachment.port != port)
        .copied()
        .collect(alloc)?;
    Ok(others)
}

/// Whether some customer port is attached to an I-SID.
fn has_port(isid: Isid, attached: &[Attachment]) -> bool
    ensures { result ≡ list_any (ports.is_in isid) attached.now }
{
    attached.iter().any(|a| a.isid.value == isid.value)
}

/// Forgets what was learned at a port of an I-SID, of whose ports these are left.
fn forget(learned: &mut Learned, left: &[Attachment], isid: Isid, port: u16)
    ensures { learned.new ≡ spec.without_port left.now isid port learned.old }
{
    if has_port(isid, left) {
        learned.forget_port(isid, port);
    } else {
        learned.forget_isid(isid);
    }
}

/// Leaves out what is attached at a customer port.
fn remove(attached: &mut Vec<Attachment>, port: u16)
    ensures { attached.new.items ≡ ports.without_customer_port port attached.old.items }
{
    attached.retain(|attachment| attachment.port != port);
}

/// The same of a list that is handed on.
fn leave_out(alloc: Global, attached: &mut Seq<Attachment>, port: u16)
    ensures { attached.new ≡ ports.without_customer_port port attached.old }
{
    let mut left = mem::replace(attached, Seq::new(alloc)).into_vec();
    remove(&mut left, port);
    *attached = Seq::from_vec(left);
}

/// Detaches a customer port: the addresses that were learned there are forgotten, and all addresses of its I-SID where
/// none of the I-SID's ports is left (IEEE 802.1Q, 8.7; IEEE 802.1ah, 25.10). A port that isn't attached changes
/// nothing. It takes no memory. After `NoMemory` nothing changed.
pub fn detach(alloc: Global, tenant: &mut Tenant, port: u16) -> Result<(), NoMemory>
    ensures ok { OnOk result (tenant.new ≡ spec.after_detach tenant.old port) }
    ensures err { OnErr result (tenant.new ≡ tenant.old) }
{
    let gone = attachment_of(port, tenant.attached.as_slice());
    leave_out(alloc, &mut tenant.attached, port);
    match gone {
        None => {}
        Some(entry) => {
            let left = tenant.attached.as_slice();
            forget(&mut tenant.learned, left, entry.isid, port);
        }
    }
    Ok(())
}
