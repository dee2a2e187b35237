//! Tests of the rows of both kinds, and of what is answered by them: A, B and C stand in a line, each a member of one
//! service.
ghost use Rattle.std.specs.Prelude.{◌≡◌, true};

use crate::fixtures::{Made, are_equal, boxed};
use bridge_api::Bridge;
use spb_types::{GroupRow, Mac, PortSet, SystemId, UnicastRow, Vid};
use std::alloc::Global;
use std::process::Abort;
use swift_bridge::SwiftBridge;

const VID: Vid = Vid { value: 10 };

/// The system id of the bridge of a number.
const fn system(number: u8) -> SystemId {
    SystemId {
        mac: Mac {
            bytes: [2, 0, 0, 0, 0, number],
        },
    }
}

/// The group address of what the bridge of a number sends to the service.
const fn group_mac(number: u8) -> Mac {
    Mac {
        bytes: [3, 0, number, 0, 0, 100],
    }
}

/// The row to the bridge of a number.
const fn unicast_row(number: u8, port: u8) -> UnicastRow {
    UnicastRow {
        vid: VID,
        mac: system(number).mac,
        port,
    }
}

/// The row for what the bridge of a number sends to the service. The port `p` is the bit `p - 1`.
const fn group_row(number: u8, bits: u32) -> GroupRow {
    GroupRow {
        vid: VID,
        mac: group_mac(number),
        ports: PortSet { bits },
    }
}

/// A second passes at B, and A hears what it sends at its port 1, and C the rest.
fn tick_between<B: Bridge>(rt: &impl Abort, a: &mut Made<B>, b: &mut Made<B>, c: &mut Made<B>) {
    let outbox = b.tick(rt);
    for sent in outbox.wire.as_slice() {
        match sent.0 {
            1 => a.hear(rt, sent.1.as_slice()),
            _ => c.hear(rt, sent.1.as_slice()),
        };
    }
}

/// Seconds pass at all three, and each hears what its neighbours send.
fn meet_in_line<B: Bridge>(rt: &impl Abort, a: &mut Made<B>, b: &mut Made<B>, c: &mut Made<B>) {
    for _ in 0..4 {
        a.tick_to(rt, b);
        c.tick_to_port(rt, b, 2);
        tick_between(rt, a, b, c);
    }
}

/// Asserts the rows of B.
fn check_rows<B: Bridge>(rt: &impl Abort, b: &Made<B>) {
    let tables = b.bridge.tables().expect(rt, "out of memory");
    let unicast = [unicast_row(1, 1), unicast_row(3, 2)];
    let group = [group_row(1, 2), group_row(2, 3), group_row(3, 1)];
    are_equal(rt, &tables.unicast.as_slice(), &unicast.as_slice());
    are_equal(rt, &tables.group.as_slice(), &group.as_slice());
}

/// Asserts by which port frames to the bridge of a number leave.
fn check_port<B: Bridge>(rt: &impl Abort, made: &Made<B>, number: u8, port: Option<u8>) {
    let found = made.bridge.unicast_port(VID, system(number).mac);
    are_equal(rt, &found.expect(rt, "out of memory"), &port);
}

/// Asserts by which ports what the bridge of a number sends to the service leaves.
fn check_ports<B: Bridge>(rt: &impl Abort, made: &Made<B>, number: u8, bits: u32) {
    let found = made.bridge.group_ports(VID, group_mac(number));
    are_equal(rt, &found.expect(rt, "out of memory"), &PortSet { bits });
}

/// Asserts the path to the bridge 3.
fn check_path<B: Bridge>(rt: &impl Abort, made: &Made<B>, cost: u64, bridges: &[SystemId]) {
    match made.bridge.path(system(3), VID).expect(rt, "out of memory") {
        Some(path) => are_equal(rt, &(path.cost, path.bridges.as_slice()), &(cost, bridges)),
        None => panic!(*rt; "no path"),
    }
}

/// Asserts what B answers for each of its rows, and for itself.
fn check_between<B: Bridge>(rt: &impl Abort, b: &Made<B>) {
    check_rows(rt, b);
    check_port(rt, b, 1, Some(1));
    check_port(rt, b, 2, None);
    check_port(rt, b, 3, Some(2));
    check_ports(rt, b, 1, 2);
    check_ports(rt, b, 2, 3);
    check_ports(rt, b, 3, 1);
    check_path(rt, b, 10, &[system(2), system(3)]);
}

/// Asserts what A answers, by which nothing of the others is sent on.
fn check_end<B: Bridge>(rt: &impl Abort, a: &Made<B>) {
    check_port(rt, a, 3, Some(1));
    check_ports(rt, a, 1, 1);
    check_ports(rt, a, 3, 0);
    check_path(rt, a, 20, &[system(1), system(2), system(3)]);
}

/// Asserts what bridges in a line answer.
fn answer_by_their_rows<B: Bridge>(rt: &impl Abort, alloc: Global, a: B, b: B, c: B)
    requires a { (B.shown a).blank ≡ true }
    requires b { (B.shown b).blank ≡ true }
    requires c { (B.shown c).blank ≡ true }
{
    let mut a = Made::of_member(rt, alloc, a, 1);
    let mut b = Made::of_member(rt, alloc, b, 2);
    let mut c = Made::of_member(rt, alloc, c, 3);
    b.carrier_at(rt, 2);
    meet_in_line(rt, &mut a, &mut b, &mut c);
    check_between(rt, &b);
    check_end(rt, &a);
}

#[test]
fn boxes_answer_by_their_rows(rt: HostRuntime) {
    answer_by_their_rows(&rt, rt.alloc(), boxed!(rt), boxed!(rt), boxed!(rt));
}

#[test]
fn swift_bridges_answer_by_their_rows(rt: HostRuntime) {
    let alloc = rt.alloc();
    let a = SwiftBridge::blank(alloc);
    let b = SwiftBridge::blank(alloc);
    answer_by_their_rows(&rt, alloc, a, b, SwiftBridge::blank(alloc));
}
