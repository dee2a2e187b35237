//! A backbone frame that comes in: dropped, relayed, or delivered to the customer ports of its I-SID.
ghost use Rattle.std.specs.Prelude.{◌≡◌, ◌≤◌, ◌⊎◌, length, Ok, IfOk, OnOk, OnErr};
ghost use Rattle.itag_frames.specs.Backbone.{backbone_in, carried};
ghost use Rattle.forwarding.specs.Tenant as spec;

use crate::copies::{leaving, on_wire};
use crate::going::{Going, going_of, learn_source};
use crate::ports::{is_mute, is_served, receiving_ports};
use crate::step::{Step, step_of};
use crate::{Moved, Tenant};
use customer_learning::Place;
use itag_frames::Backbone;
use shared_frames::Frame;
use spb_types::{NoMemory, Seq, Tables, mac_in};
use std::alloc::Global;

/// What becomes of a backbone frame that comes in at a backbone port: `frame` is what `whole` is opened as (IEEE
/// 802.1ah, 25; IEEE 802.1aq).
///
/// It is dropped as `Ingress` where frames to its source don't leave by this port, then as `Mismatch` where its
/// destination is the group address of another I-SID. One to the own address is delivered here. One to another bridge
/// is relayed unchanged at the port towards it, or dropped as `NoWay` where there is none, or only the one at which it
/// came. One to a group address is relayed unchanged at the address's other ports, and delivered here too. Where it is
/// delivered and a port is attached to its I-SID in its VID, even one that only sends, its customer's source is learned
/// behind its source; the customer's frame then leaves where its destination is, or, where that is a group address or
/// isn't known, at every port of the I-SID, in either case at ports that receive. After `NoMemory` the source may have
/// been learned, and nothing else changed.
pub fn from_backbone(
    alloc: Global,
    tenant: &mut Tenant,
    tables: &Tables,
    port: u8,
    frame: &Backbone<'_>,
    whole: &[u8],
) -> Result<Moved, NoMemory>
    requires { backbone_in whole.now ≡ Ok (carried frame.now) }
    ensures moved { IfOk result
        (λ moved. moved ≡ spec.of_backbone tenant.old tables.now port (spec.parts frame.now) whole.now) }
    ensures learned { OnOk result (tenant.new ≡ spec.after_backbone tenant.old tables.now port (spec.parts frame.now)) }
    ensures err { OnErr result
        ((tenant.new ≡ tenant.old)
        ⊎ (tenant.new ≡ spec.after_backbone tenant.old tables.now port (spec.parts frame.now))) }
{
    let step = step_of(tenant, tables, port, frame);
    let wire = relayed(alloc, step, port, whole)?;
    let taken = is_taken(step.is_delivered(), tenant, frame);
    let left = received(alloc, tenant, taken, frame)?;
    Ok(Moved {
        wire,
        left,
        dropped: step.dropped(),
    })
}

// The frame at each port at which it is relayed.
fn relayed(alloc: Global, step: Step, port: u8, whole: &[u8]) -> Result<Seq<(u8, Frame)>, NoMemory>
    ensures { IfOk result (λ wire. wire ≡ spec.each_with whole.now (spec.relayed_at port step)) }
{
    let ports = step.relayed_at(alloc, port)?;
    if ports.is_empty() {
        return Ok(Seq::new(alloc));
    }
    let whole = Frame::from_vec(Vec::from_slice(alloc, whole)?)?;
    on_wire(alloc, &whole, &ports)
}

fn is_taken(here: bool, tenant: &Tenant, frame: &Backbone<'_>) -> bool
    ensures { result ≡ spec.is_taken here tenant.now (spec.parts frame.now) }
{
    here && is_served(frame.isid, frame.vid, tenant.attached.as_slice())
}

// Takes the frame up, if it is to be: learns its customer's source, and gives what leaves.
fn received(
    alloc: Global,
    tenant: &mut Tenant,
    taken: bool,
    frame: &Backbone<'_>,
) -> Result<Seq<(u16, Seq<u8>)>, NoMemory>
    requires { 14 ≤ length frame.now.customer.now }
    ensures left { IfOk result (λ left. left ≡ spec.left_of taken tenant.old (spec.parts frame.now)) }
    ensures learned { OnOk result (tenant.new ≡ spec.after_delivery taken tenant.old (spec.parts frame.now)) }
    ensures err { OnErr result
        ((tenant.new ≡ tenant.old) ⊎ (tenant.new ≡ spec.after_delivery taken tenant.old (spec.parts frame.now))) }
{
    if !taken {
        return Ok(Seq::new(alloc));
    }
    learn_source(
        &mut tenant.learned,
        Place::Remote(frame.sa),
        frame.isid,
        frame.customer,
    )?;
    delivered(alloc, tenant, frame)
}

// The customer's frame at a port, if that receives.
fn at_port(
    alloc: Global,
    tenant: &Tenant,
    port: u16,
    customer: &[u8],
) -> Result<Seq<(u16, Seq<u8>)>, NoMemory>
    ensures { IfOk result (λ left. left ≡ spec.each_with customer.now (spec.unless_mute tenant.now port)) }
{
    if is_mute(port, tenant.attached.as_slice()) {
        return Ok(Seq::new(alloc));
    }
    leaving(alloc, customer, &[port])
}

// The customer's frame at this bridge's ports, once its source is learned.
fn delivered(
    alloc: Global,
    tenant: &Tenant,
    frame: &Backbone<'_>,
) -> Result<Seq<(u16, Seq<u8>)>, NoMemory>
    requires { 14 ≤ length frame.now.customer.now }
    ensures { IfOk result (λ left. left ≡ spec.delivered tenant.now (spec.parts frame.now)) }
{
    match going_of(&tenant.learned, frame.isid, mac_in(frame.customer, 0)) {
        Going::Everywhere => {
            let ports = receiving_ports(alloc, frame.isid, tenant.attached.as_slice())?;
            leaving(alloc, frame.customer, &ports)
        }
        Going::AtPort(port) => at_port(alloc, tenant, port, frame.customer),
        Going::Behind(_) => Ok(Seq::new(alloc)),
    }
}
