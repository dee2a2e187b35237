//! What one box of a list does. A place past the last box is one where nothing happens.
ghost use Rattle.std.specs.Prelude.{◌≡◌, ◌≤◌, [], ◌++◌, false, length, slice_get, slice_set, OnOk, IfOk};
ghost use Rattle.std.specs.Option.{option_map_or};
ghost use Rattle.bridge_api.specs.Config.{IsMetric};
ghost use Rattle.bridge_api.specs.Customers.{IsCustomerFrame};
ghost use Rattle.bridge_api.specs.Drops.{counts_in};
ghost use Rattle.bridge_api.specs.Step as comes;
ghost use Rattle.bridge_api.specs.Step.{sent, left_by, step, with_wire};
ghost use Rattle.bridge_api.specs.Shown.{views_of};
ghost use Rattle.spb_types.specs.Places.{changed_at};
ghost use Rattle.network_model.specs.Questions as question;
ghost use Rattle.spb_network.specs.Network.{AreConfigured};
ghost use Rattle.network_model.specs.State.{IsPortAt, CanAttachAt, IsAttachedAt, IsSendingAt};

use adjacency::Adjacency;
use bridge_api::{Bridge, DropReason, Outbox};
use lsdb::DbRow;
use spb_types::{Attachment, NoMemory, Vid};
use std::alloc::Global;

/// A second of a bridge.
pub fn tick<B: Bridge>(boxes: &mut Vec<B>, i: usize, outbox: &mut Outbox) -> Result<(), NoMemory>
    requires made { AreConfigured B.shown boxes.old.items }
    ensures views { OnOk result (views_of B.shown boxes.new.items ≡ changed_at (step comes.second) (views_of B.shown boxes.old.items) i) }
    ensures sent { OnOk result (outbox.new
        ≡ with_wire (option_map_or (sent comes.second) (slice_get (views_of B.shown boxes.old.items) i) []) outbox.old) }
    ensures made { OnOk result (AreConfigured B.shown boxes.new.items) }
{
    match boxes.get_mut(i) {
        None => Ok(()),
        Some(bridge) => bridge.tick(outbox),
    }
}

/// A frame comes to a port of a bridge.
pub fn hear<B: Bridge>(
    boxes: &mut Vec<B>,
    i: usize,
    port: u8,
    frame: &[u8],
    outbox: &mut Outbox,
) -> Result<(), NoMemory>
    requires made { AreConfigured B.shown boxes.old.items }
    requires port { IsPortAt (views_of B.shown boxes.old.items) i port }
    ensures views { OnOk result (views_of B.shown boxes.new.items
        ≡ changed_at (step (comes.frame port frame.now)) (views_of B.shown boxes.old.items) i) }
    ensures sent { OnOk result (outbox.new.wire ≡ outbox.old.wire
        ++ option_map_or (sent (comes.frame port frame.now)) (slice_get (views_of B.shown boxes.old.items) i) []) }
    ensures left { OnOk result (outbox.new.left ≡ outbox.old.left
        ++ option_map_or (left_by (comes.frame port frame.now)) (slice_get (views_of B.shown boxes.old.items) i) []) }
    ensures made { OnOk result (AreConfigured B.shown boxes.new.items) }
{
    match boxes.get_mut(i) {
        None => Ok(()),
        Some(bridge) => bridge.receive(port, frame, outbox),
    }
}

/// A customer's frame enters at a customer port of a bridge, which sends.
pub fn enter<B: Bridge>(
    boxes: &mut Vec<B>,
    i: usize,
    port: u16,
    frame: &[u8],
    outbox: &mut Outbox,
) -> Result<(), NoMemory>
    requires made { AreConfigured B.shown boxes.old.items }
    requires sending { IsSendingAt (views_of B.shown boxes.old.items) i port }
    requires frame { IsCustomerFrame frame.now }
    ensures views { OnOk result (views_of B.shown boxes.new.items
        ≡ changed_at (step (comes.customer port frame.now)) (views_of B.shown boxes.old.items) i) }
    ensures sent { OnOk result (outbox.new.wire ≡ outbox.old.wire
        ++ option_map_or (sent (comes.customer port frame.now)) (slice_get (views_of B.shown boxes.old.items) i) []) }
    ensures left { OnOk result (outbox.new.left ≡ outbox.old.left
        ++ option_map_or (left_by (comes.customer port frame.now)) (slice_get (views_of B.shown boxes.old.items) i) []) }
    ensures made { OnOk result (AreConfigured B.shown boxes.new.items) }
{
    match boxes.get_mut(i) {
        None => Ok(()),
        Some(bridge) => bridge.customer(port, frame, outbox),
    }
}

/// Carrier comes to a port of a bridge, or goes.
pub fn set_carrier<B: Bridge>(
    boxes: &mut Vec<B>,
    i: usize,
    port: u8,
    on: bool,
) -> Result<(), NoMemory>
    requires made { AreConfigured B.shown boxes.old.items }
    requires port { IsPortAt (views_of B.shown boxes.old.items) i port }
    ensures views { OnOk result (views_of B.shown boxes.new.items
        ≡ changed_at (step (comes.carrier port on)) (views_of B.shown boxes.old.items) i) }
    ensures made { OnOk result (AreConfigured B.shown boxes.new.items) }
{
    match boxes.get_mut(i) {
        None => Ok(()),
        Some(bridge) => bridge.carrier(port, on),
    }
}

/// Sets the metric of the link at a port of a bridge.
pub fn set_metric<B: Bridge>(
    boxes: &mut Vec<B>,
    i: usize,
    port: u8,
    metric: u32,
) -> Result<(), NoMemory>
    requires made { AreConfigured B.shown boxes.old.items }
    requires port { IsPortAt (views_of B.shown boxes.old.items) i port }
    requires metric { IsMetric metric }
    ensures views { OnOk result (views_of B.shown boxes.new.items
        ≡ changed_at (step (comes.metric port metric)) (views_of B.shown boxes.old.items) i) }
    ensures made { OnOk result (AreConfigured B.shown boxes.new.items) }
{
    match boxes.get_mut(i) {
        None => Ok(()),
        Some(bridge) => bridge.set_metric(port, metric),
    }
}

/// Attaches a customer port of a bridge to a service.
pub fn attach<B: Bridge>(
    boxes: &mut Vec<B>,
    i: usize,
    attachment: Attachment,
) -> Result<(), NoMemory>
    requires made { AreConfigured B.shown boxes.old.items }
    requires can { CanAttachAt (views_of B.shown boxes.old.items) i attachment }
    ensures views { OnOk result (views_of B.shown boxes.new.items
        ≡ changed_at (step (comes.attach attachment)) (views_of B.shown boxes.old.items) i) }
    ensures made { OnOk result (AreConfigured B.shown boxes.new.items) }
{
    match boxes.get_mut(i) {
        None => Ok(()),
        Some(bridge) => bridge.attach(
            attachment.port,
            attachment.isid,
            attachment.vid,
            attachment.mode,
        ),
    }
}

/// Detaches a customer port of a bridge.
pub fn detach<B: Bridge>(boxes: &mut Vec<B>, i: usize, port: u16) -> Result<(), NoMemory>
    requires made { AreConfigured B.shown boxes.old.items }
    requires attached { IsAttachedAt (views_of B.shown boxes.old.items) i port }
    ensures views { OnOk result (views_of B.shown boxes.new.items
        ≡ changed_at (step (comes.detach port)) (views_of B.shown boxes.old.items) i) }
    ensures made { OnOk result (AreConfigured B.shown boxes.new.items) }
{
    match boxes.get_mut(i) {
        None => Ok(()),
        Some(bridge) => bridge.detach(port),
    }
}

/// A box takes the place of another, which is dropped.
pub fn replace<B: Bridge>(boxes: &mut Vec<B>, i: usize, fresh: B)
    requires made { AreConfigured B.shown boxes.old.items }
    requires fresh { (B.shown fresh).blank ≡ false }
    ensures views { views_of B.shown boxes.new.items
        ≡ slice_set (views_of B.shown boxes.old.items) i (B.shown fresh).view }
    ensures made { AreConfigured B.shown boxes.new.items }
{
    if i < boxes.len() {
        boxes[i] = fresh;
    }
}

/// A bridge makes ready for paths in a base VID that are asked of it.
pub fn prepare_paths<B: Bridge>(boxes: &mut Vec<B>, i: usize, vid: Vid) -> Result<(), NoMemory>
    requires { AreConfigured B.shown boxes.old.items }
    ensures views { views_of B.shown boxes.new.items ≡ views_of B.shown boxes.old.items }
    ensures made { AreConfigured B.shown boxes.new.items }
{
    match boxes.get_mut(i) {
        None => Ok(()),
        Some(bridge) => bridge.prepare_paths(vid),
    }
}

/// A bridge rests, since others are asked.
pub fn rest<B: Bridge>(boxes: &mut Vec<B>, i: usize)
    requires { AreConfigured B.shown boxes.old.items }
    ensures views { views_of B.shown boxes.new.items ≡ views_of B.shown boxes.old.items }
    ensures made { AreConfigured B.shown boxes.new.items }
{
    if let Some(bridge) = boxes.get_mut(i) {
        bridge.rest();
    }
}

/// The ports of a bridge that has so many, from port 1 on: the adjacency, and whether CSNPs are due.
pub fn adjacencies_of<B: Bridge>(
    alloc: Global,
    bridge: &B,
    count: u8,
) -> Result<Vec<(Adjacency, bool)>, NoMemory>
    requires made { (B.shown bridge.now).blank ≡ false }
    requires count { length (B.shown bridge.now).view.ports ≡ count }
    requires few { count ≤ 32 }
    ensures { IfOk result (λ ports. ports.items ≡ question.adjacencies_of (B.shown bridge.now).view.ports) }
{
    let mut ports = Vec::new(alloc);
    for place in 0..count {
        let port = place + 1;
        ports.push((bridge.adjacent(port), bridge.due(port)))?;
    }
    Ok(ports)
}

/// How many frames a bridge dropped: a count for each reason, in order.
pub fn drop_counts<B: Bridge>(bridge: &B) -> [u64; 9]
    requires { (B.shown bridge.now).blank ≡ false }
    ensures { result ≡ counts_in (B.shown bridge.now).view.drops }
{
    [
        bridge.drops(DropReason::Frame),
        bridge.drops(DropReason::Pdu),
        bridge.drops(DropReason::Tlv),
        bridge.drops(DropReason::NotAdjacent),
        bridge.drops(DropReason::Hello),
        bridge.drops(DropReason::Ingress),
        bridge.drops(DropReason::NoWay),
        bridge.drops(DropReason::Mismatch),
        bridge.drops(DropReason::Full),
    ]
}

/// A row for each LSP id that a bridge holds, in order of id.
pub fn held_rows<B: Bridge>(alloc: Global, bridge: &B) -> Result<Vec<DbRow>, NoMemory>
    requires { (B.shown bridge.now).blank ≡ false }
    ensures { IfOk result (λ rows. rows.items ≡ question.rows_of (B.shown bridge.now).view.database) }
{
    let mut rows = Vec::new(alloc);
    while let Some(held) = bridge.entry(rows.len()) {
        rows.push(held.row())?;
    }
    Ok(rows)
}
