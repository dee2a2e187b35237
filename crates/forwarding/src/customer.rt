//! A customer's frame that enters: to other customer ports, to another bridge, or to all of its service.
ghost use Rattle.std.specs.Prelude.{◌≡◌, ◌≤◌, ◌∷◌, ◌⊎◌, [], length, IfOk, OnOk, OnErr};
ghost use Rattle.forwarding.specs.Ports.{but_for, ports_in, receiving_ports};
ghost use Rattle.spb_types.specs.Tables.{group_in};
ghost use Rattle.forwarding.specs.Tenant as spec;

use crate::copies::{leaving, local_but_for, on_wire};
use crate::going::{Going, going_of, learn_source};
use crate::ports::{attachment_of, is_mute, ports_in, receiving_ports};
use crate::{Moved, Tenant};
use customer_learning::Place;
use itag_frames::encapsulate;
use shared_frames::Frame;
use spb_types::{
    Attachment, DropReason, Mac, NoMemory, Seq, Tables, group_address, group_of, mac_in, unicast_of,
};
use std::alloc::Global;

/// What becomes of a customer's frame, of at least 14 bytes, that enters at a customer port (IEEE 802.1Q, 8.6 to 8.8;
/// IEEE 802.1ah, 25). Nothing does where the port isn't attached to a service instance.
///
/// An individual source address is learned at the port. Then the frame goes where its destination is: it leaves at
/// another customer port, is sent to another bridge at the port towards it, or dropped as `NoWay` where there is none.
/// One to a group address, or to an address that isn't known, leaves at each other port of the I-SID that receives, and
/// is sent to the group address of the own source and the I-SID. Nothing leaves at a port that only sends, and that
/// counts as no drop. After `NoMemory` the source may have been learned, and nothing else changed.
pub fn from_customer(
    alloc: Global,
    tenant: &mut Tenant,
    tables: &Tables,
    port: u16,
    frame: &[u8],
) -> Result<Moved, NoMemory>
    requires { 14 ≤ length frame.now }
    ensures moved { IfOk result (λ moved. moved ≡ spec.of_customer tenant.old tables.now port frame.now) }
    ensures learned { OnOk result (tenant.new ≡ spec.after_customer tenant.old port frame.now) }
    ensures err { OnErr result
        ((tenant.new ≡ tenant.old) ⊎ (tenant.new ≡ spec.after_customer tenant.old port frame.now)) }
{
    match attachment_of(port, tenant.attached.as_slice()) {
        None => Ok(Moved::nothing(alloc)),
        Some(entry) => {
            learn_source(
                &mut tenant.learned,
                Place::Local(entry.port),
                entry.isid,
                frame,
            )?;
            entered(alloc, tenant, tables, entry, frame)
        }
    }
}

// What becomes of the frame once its source is learned.
fn entered(
    alloc: Global,
    tenant: &Tenant,
    tables: &Tables,
    entry: Attachment,
    frame: &[u8],
) -> Result<Moved, NoMemory>
    requires { 14 ≤ length frame.now }
    ensures { IfOk result (λ moved. moved ≡ spec.entered tenant.now tables.now entry frame.now) }
{
    match going_of(&tenant.learned, entry.isid, mac_in(frame, 0)) {
        Going::Everywhere => flooded(alloc, tenant, tables, entry, frame),
        Going::AtPort(port) => crossing(alloc, tenant, entry, port, frame),
        Going::Behind(mac) => {
            let way = unicast_of(tables, entry.vid, mac);
            sent_towards(alloc, tenant, entry, frame, mac, way)
        }
    }
}

// The frame leaves at another port of this bridge, if that receives.
fn crossing(
    alloc: Global,
    tenant: &Tenant,
    entry: Attachment,
    port: u16,
    frame: &[u8],
) -> Result<Moved, NoMemory>
    ensures { IfOk result
        (λ moved. (moved.wire ≡ spec.nothing.wire)
        × (moved.left ≡ spec.each_with frame.now (but_for entry.port (spec.unless_mute tenant.now port)))
        × (moved.dropped ≡ None)) }
{
    if port == entry.port || is_mute(port, tenant.attached.as_slice()) {
        return Ok(Moved::nothing(alloc));
    }
    let left = leaving(alloc, frame, &[port])?;
    Ok(Moved {
        wire: Seq::new(alloc),
        left,
        dropped: None,
    })
}

fn sent_to(
    alloc: Global,
    tenant: &Tenant,
    entry: Attachment,
    frame: &[u8],
    da: Mac,
    ports: &[u8],
) -> Result<Seq<(u8, Frame)>, NoMemory>
    ensures { IfOk result (λ wire. wire ≡ spec.sent_to tenant.now entry frame.now da ports.now) }
{
    let carrying = encapsulate(alloc, da, tenant.me, entry.vid, entry.isid, frame)?;
    on_wire(alloc, &Frame::from_vec(carrying)?, ports)
}

fn sent_towards(
    alloc: Global,
    tenant: &Tenant,
    entry: Attachment,
    frame: &[u8],
    da: Mac,
    way: Option<u8>,
) -> Result<Moved, NoMemory>
    ensures { IfOk result (λ moved. moved ≡ spec.sent_towards tenant.now entry frame.now da way) }
{
    match way {
        None => Ok(Moved::dropped_for(alloc, DropReason::NoWay)),
        Some(port) => {
            let wire = sent_to(alloc, tenant, entry, frame, da, &[port])?;
            Ok(Moved {
                wire,
                left: Seq::new(alloc),
                dropped: None,
            })
        }
    }
}

fn flooded(
    alloc: Global,
    tenant: &Tenant,
    tables: &Tables,
    entry: Attachment,
    frame: &[u8],
) -> Result<Moved, NoMemory>
    ensures { IfOk result (λ moved. moved ≡ spec.flooded tenant.now tables.now entry frame.now) }
{
    let left = at_other_ports(alloc, tenant, entry, frame)?;
    let wire = to_other_bridges(alloc, tenant, tables, entry, frame)?;
    Ok(Moved {
        wire,
        left,
        dropped: None,
    })
}

// The frame at the other ports of its I-SID.
fn at_other_ports(
    alloc: Global,
    tenant: &Tenant,
    entry: Attachment,
    frame: &[u8],
) -> Result<Seq<(u16, Seq<u8>)>, NoMemory>
    ensures { IfOk result
        (λ left. left ≡ spec.each_with frame.now (but_for entry.port (receiving_ports entry.isid tenant.now.attached))) }
{
    let mut others = receiving_ports(alloc, entry.isid, tenant.attached.as_slice())?;
    local_but_for(entry.port, &mut others);
    leaving(alloc, frame, &others)
}

// The frame sent to a group address, at its ports.
fn sent_to_group(
    alloc: Global,
    tenant: &Tenant,
    tables: &Tables,
    entry: Attachment,
    frame: &[u8],
    da: Mac,
) -> Result<Seq<(u8, Frame)>, NoMemory>
    ensures { IfOk result
        (λ wire. wire ≡ spec.sent_to tenant.now entry frame.now da (ports_in (group_in tables.now.group entry.vid da))) }
{
    let ports = ports_in(alloc, group_of(tables, entry.vid, da))?;
    sent_to(alloc, tenant, entry, frame, da, &ports)
}

// The frame sent to the group address of the own source and its I-SID.
fn to_other_bridges(
    alloc: Global,
    tenant: &Tenant,
    tables: &Tables,
    entry: Attachment,
    frame: &[u8],
) -> Result<Seq<(u8, Frame)>, NoMemory>
    ensures { IfOk result (λ wire. wire ≡ (spec.flooded tenant.now tables.now entry frame.now).wire) }
{
    let da = group_address(tenant.source, entry.isid);
    sent_to_group(alloc, tenant, tables, entry, frame, da)
}
