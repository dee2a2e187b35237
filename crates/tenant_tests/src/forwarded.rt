//! Tests of what becomes of frames.
use crate::fixtures::{ISID, TO_ALL, TO_ONE, VID, are_bytes, are_equal, mac};
use customer_learning::{Learned, Place};
use forwarding::{Moved, Tenant, from_backbone, from_customer};
use itag_frames::{encapsulate, open_frame};
use spb_types::{
    Attachment, DropReason, GroupRow, Isid, Mac, Mode, PortSet, Seq, SourceId, Tables, UnicastRow,
    group_address,
};
use std::alloc::Global;
use std::process::Abort;

/// A customer port of the service.
fn attachment(port: u16, mode: Mode) -> Attachment {
    Attachment {
        port,
        isid: ISID,
        vid: VID,
        mode,
    }
}

/// The bridge 1, with customer ports 2 and 1 attached to I-SID 100, which send and receive.
fn tenant(rt: &impl Abort, alloc: Global) -> Tenant {
    tenant_in(rt, alloc, Mode::Both, Mode::Both)
}

/// The same, with the modes of the ports 2 and 1.
fn tenant_in(rt: &impl Abort, alloc: Global, two: Mode, one: Mode) -> Tenant {
    let mut attached = Seq::new(alloc);
    attached
        .push(attachment(2, two))
        .expect(rt, "out of memory");
    attached
        .push(attachment(1, one))
        .expect(rt, "out of memory");
    Tenant {
        me: mac(2, 1),
        source: SourceId { value: 1 },
        attached,
        learned: Learned::new(alloc),
    }
}

/// Its tables: the bridge 2 is behind port 1, and the own group address leads there.
fn tables(rt: &impl Abort, alloc: Global) -> Tables {
    let mut unicast = Seq::new(alloc);
    unicast
        .push(UnicastRow {
            vid: VID,
            mac: mac(2, 2),
            port: 1,
        })
        .expect(rt, "out of memory");
    let mut group = Seq::new(alloc);
    group
        .push(GroupRow {
            vid: VID,
            mac: group_address(SourceId { value: 1 }, ISID),
            ports: PortSet { bits: 1 },
        })
        .expect(rt, "out of memory");
    Tables { unicast, group }
}

/// Asserts where the customer 1 is.
fn is_at(rt: &impl Abort, tenant: &mut Tenant, at: Place) {
    are_equal(rt, &tenant.learned.find(ISID, mac(10, 1)), &Some(at));
}

/// Asserts that [`TO_ALL`] left at these customer ports, in this order.
fn has_left(rt: &impl Abort, moved: &Moved, ports: &[u16]) {
    are_equal(rt, &moved.left.len(), &ports.len());
    for (place, port) in ports.iter().enumerate() {
        match moved.left.as_slice().get(place) {
            Some(left) => {
                are_equal(rt, &left.0, port);
                are_bytes(rt, left.1.as_slice(), TO_ALL);
            }
            None => panic!(*rt; "no such frame"),
        }
    }
}

/// Asserts that one frame of so many bytes is sent, at the port 1.
fn is_sent(rt: &impl Abort, moved: &Moved, bytes: usize) {
    match moved.wire.as_slice() {
        [sent] => {
            are_equal(rt, &sent.0, &1);
            are_equal(rt, &sent.1.as_slice().len(), &bytes);
        }
        _ => panic!(*rt; "not one frame"),
    }
}

#[test]
fn a_customers_frame_is_flooded(rt: HostRuntime) {
    let alloc = rt.alloc();
    let mut tenant = tenant(&rt, alloc);
    let tables = tables(&rt, alloc);
    let moved = from_customer(alloc, &mut tenant, &tables, 1, TO_ALL).expect(&rt, "out of memory");
    has_left(&rt, &moved, &[2]);
    is_sent(&rt, &moved, 36);
    is_at(&rt, &mut tenant, Place::Local(1));
}

/// What becomes of [`TO_ALL`] that the bridge 2 sends to an address, where it comes to a port of the bridge 1.
fn received(rt: &impl Abort, alloc: Global, tenant: &mut Tenant, port: u8, to: Mac) -> Moved {
    let tables = tables(rt, alloc);
    let whole = encapsulate(alloc, to, mac(2, 2), VID, ISID, TO_ALL).expect(rt, "out of memory");
    match open_frame(&whole) {
        Ok(frame) => from_backbone(alloc, tenant, &tables, port, &frame, &whole).expect(
            rt,
            "out of memory",
        ),
        Err(_) => panic!(*rt; "not opened"),
    }
}

#[test]
fn a_backbone_frame_is_delivered(rt: HostRuntime) {
    let mut tenant = tenant(&rt, rt.alloc());
    let moved = received(&rt, rt.alloc(), &mut tenant, 1, mac(2, 1));
    has_left(&rt, &moved, &[1, 2]);
    is_at(&rt, &mut tenant, Place::Remote(mac(2, 2)));
}

/// Asserts why such a frame is dropped.
fn is_dropped(rt: &impl Abort, alloc: Global, port: u8, to: Mac, why: DropReason) {
    let mut tenant = tenant(rt, alloc);
    let moved = received(rt, alloc, &mut tenant, port, to);
    are_equal(rt, &moved.dropped, &Some(why));
}

#[test]
fn a_backbone_frame_is_dropped_for_a_reason(rt: HostRuntime) {
    let of_another = group_address(SourceId { value: 2 }, Isid { value: 101 });
    is_dropped(&rt, rt.alloc(), 2, mac(2, 1), DropReason::Ingress);
    is_dropped(&rt, rt.alloc(), 1, of_another, DropReason::Mismatch);
    is_dropped(&rt, rt.alloc(), 1, mac(2, 9), DropReason::NoWay);
}

#[test]
fn a_port_that_only_sends_is_left_out(rt: HostRuntime) {
    let alloc = rt.alloc();
    let mut tenant = tenant_in(&rt, alloc, Mode::Send, Mode::Both);
    let tables = tables(&rt, alloc);
    let moved = from_customer(alloc, &mut tenant, &tables, 1, TO_ALL).expect(&rt, "out of memory");
    has_left(&rt, &moved, &[]);
    is_sent(&rt, &moved, 36);
    let moved = received(&rt, alloc, &mut tenant, 1, mac(2, 1));
    has_left(&rt, &moved, &[1]);
}

#[test]
fn a_frame_to_a_port_that_only_sends_ends_there(rt: HostRuntime) {
    let alloc = rt.alloc();
    let mut tenant = tenant_in(&rt, alloc, Mode::Send, Mode::Both);
    let tables = tables(&rt, alloc);
    from_customer(alloc, &mut tenant, &tables, 2, TO_ALL).expect(&rt, "out of memory");
    is_at(&rt, &mut tenant, Place::Local(2));
    let moved = from_customer(alloc, &mut tenant, &tables, 1, TO_ONE).expect(&rt, "out of memory");
    has_left(&rt, &moved, &[]);
    are_equal(&rt, &moved.wire.len(), &0);
    are_equal(&rt, &moved.dropped, &None);
}

#[test]
fn a_bridge_learns_at_ports_that_only_send(rt: HostRuntime) {
    let mut tenant = tenant_in(&rt, rt.alloc(), Mode::Send, Mode::Send);
    let moved = received(&rt, rt.alloc(), &mut tenant, 1, mac(2, 1));
    has_left(&rt, &moved, &[]);
    is_at(&rt, &mut tenant, Place::Remote(mac(2, 2)));
}
