//! Tests of `plain_bridge`: bridges in boxes, at the two ends of a link.
ghost use Rattle.std.specs.Prelude.{◌≡◌, ◌<◌, true, false, vec_len, All, OnOk};
ghost use Rattle.bridge_api.specs.Step.{second, with_wire};
ghost use Rattle.bridge_api.specs.Among.{stepped_at, sent_from_place};
ghost use Rattle.bridge_api.specs.Shown.{views_of};

use crate::fixtures::{Made, OLD_LSP, are_equal, boxed, changed, meet};
use adjacency::{AdjState, Adjacency};
use bridge_api::{Bridge, Kind, Outbox};
use lsdb::{DbRow, Version};
use plain_bridge::{PlainBridge, SharedReading};
use spb_types::{Isid, Mac, NoMemory, PortSet, SourceId, SystemId, UnicastRow, Vid, group_address};
use std::alloc::Global;
use std::process::Abort;

/// A's first hello, as the whole control frame.
const FIRST_HELLO: &[u8] = b"\
    \x01\x80\xc2\x00\x00\x14\x02\x00\x00\x00\x00\x01\x00\x27\xfe\xfe\x03\x83\x14\x01\x00\x11\x01\x00\
    \x00\x01\x02\x00\x00\x00\x00\x01\x00\x03\x00\x24\x01\x01\x04\x03\x49\x00\x01\x81\x01\xc1\xf0\x05\
    \x02\x00\x00\x00\x01";

/// A's hello when it has heard B's circuit 1: it names that neighbour, in state Initializing.
const INITIALIZING_HELLO: &[u8] = b"\
    \x01\x80\xc2\x00\x00\x14\x02\x00\x00\x00\x00\x01\x00\x31\xfe\xfe\x03\x83\x14\x01\x00\x11\x01\x00\
    \x00\x01\x02\x00\x00\x00\x00\x01\x00\x03\x00\x2e\x01\x01\x04\x03\x49\x00\x01\x81\x01\xc1\xf0\x0f\
    \x01\x00\x00\x00\x01\x02\x00\x00\x00\x00\x02\x00\x00\x00\x01";

/// Asserts that one frame alone is sent, at the port 1.
fn is_only_frame(rt: &impl Abort, outbox: &Outbox, frame: &[u8]) {
    match outbox.wire.as_slice() {
        [sent] => {
            are_equal(rt, &sent.0, &1);
            are_equal(rt, &sent.1.as_slice(), &frame);
        }
        _ => panic!(*rt; "not one frame"),
    }
}

/// Ticks one of several bridges. The others stay as they were.
fn tick_at<B: Bridge>(
    bridges: &mut Vec<B>,
    place: usize,
    outbox: &mut Outbox,
) -> Result<(), NoMemory>
    requires place { place < vec_len bridges.old }
    requires made { All (λ b. (B.shown b).blank ≡ false) bridges.old.items }
    ensures views { OnOk result (views_of B.shown bridges.new.items ≡ stepped_at second place (views_of B.shown bridges.old.items)) }
    ensures sent { OnOk result (outbox.new ≡ with_wire (sent_from_place second place (views_of B.shown bridges.old.items)) outbox.old) }
    ensures still_made { All (λ b. (B.shown b).blank ≡ false) bridges.new.items }
{
    bridges[place].tick(outbox)
}

/// Asserts the state of the port 1, and whether CSNPs are due there.
fn check_port<B: Bridge>(rt: &impl Abort, made: &Made<B>, expected: (AdjState, bool)) {
    let (adjacency, due, _) = made.seen();
    are_equal(rt, &(adjacency.state, due), &expected);
}

/// What is held, in order, but for the bodies.
pub(crate) fn rows<B: Bridge>(rt: &impl Abort, alloc: Global, made: &Made<B>) -> Vec<DbRow> {
    let mut rows = Vec::new(alloc);
    for place in 0..4096 {
        if let Some(held) = made.bridge.entry(place) {
            rows.push(held.row()).expect(rt, "out of memory");
        }
    }
    rows
}

/// Whether a frame that comes to the port 1 changes nothing there and nothing that is held, but for the bodies, and
/// nothing is sent.
fn drops_it<B: Bridge>(rt: &impl Abort, alloc: Global, made: &mut Made<B>, frame: &[u8]) -> bool {
    let before = made.seen();
    let held_before = rows(rt, alloc, made);
    let outbox = made.hear(rt, frame);
    let held_after = rows(rt, alloc, made);
    let same_rows = held_after.as_slice() == held_before.as_slice();
    outbox.wire.is_empty() && made.seen() == before && same_rows
}

/// Asserts that a frame is dropped.
fn is_dropped<B: Bridge>(rt: &impl Abort, alloc: Global, made: &mut Made<B>, frame: &[u8]) {
    assert!(*rt; drops_it(rt, alloc, made, frame));
}

/// Asserts what a bridge says first.
fn check_first_hello<B: Bridge>(rt: &impl Abort, alloc: Global, a: B)
    requires { (B.shown a).blank ≡ true }
{
    let mut a = Made::new(rt, alloc, a, 1);
    a.set_metric(rt, 20);
    is_only_frame(rt, &a.tick(rt), FIRST_HELLO);
}

#[test]
fn the_first_hello_names_nobody(rt: HostRuntime) {
    check_first_hello(&rt, rt.alloc(), boxed!(rt));
}

/// Asserts what a bridge says once it has heard another.
fn check_next_hello<B: Bridge>(rt: &impl Abort, alloc: Global, a: B, b: B)
    requires a { (B.shown a).blank ≡ true }
    requires b { (B.shown b).blank ≡ true }
{
    let mut a = Made::new(rt, alloc, a, 1);
    let mut b = Made::new(rt, alloc, b, 2);
    b.tick_to(rt, &mut a);
    is_only_frame(rt, &a.tick(rt), INITIALIZING_HELLO);
}

#[test]
fn the_next_hello_names_the_neighbour_that_was_heard(rt: HostRuntime) {
    let alloc = rt.alloc();
    check_next_hello(
        &rt,
        alloc,
        PlainBridge::blank(alloc),
        PlainBridge::blank(alloc),
    );
}

/// Asserts of what kind a bridge is, and that it isn't failed, and is blank or not.
fn check_kind<B: Bridge>(rt: &impl Abort, bridge: &B, is_blank: bool) {
    are_equal(rt, &bridge.kind(), &Kind::Plain);
    are_equal(
        rt,
        &(bridge.is_blank(), bridge.is_failed()),
        &(is_blank, false),
    );
}

/// Asserts whether there is a flag.
fn check_flag<B: Bridge>(rt: &impl Abort, made: &Made<B>, flag: bool) {
    assert!(*rt; made.bridge.has_flag() == flag);
}

/// Asserts how two bridges come up with each other.
fn come_up<B: Bridge>(rt: &impl Abort, alloc: Global, a: B, b: B)
    requires a { (B.shown a).blank ≡ true }
    requires b { (B.shown b).blank ≡ true }
{
    check_kind(rt, &a, true);
    let mut a = Made::new(rt, alloc, a, 1);
    let mut b = Made::new(rt, alloc, b, 2);
    check_kind(rt, &a.bridge, false);
    check_port(rt, &a, (AdjState::Down, false));
    check_flag(rt, &a, false);
    a.tick_to(rt, &mut b);
    check_port(rt, &b, (AdjState::Initializing, false));
    b.tick_to(rt, &mut a);
    check_port(rt, &a, (AdjState::Up, true));
    a.tick_to(rt, &mut b);
    check_port(rt, &b, (AdjState::Up, true));
}

#[test]
fn two_boxes_come_up_with_each_other(rt: HostRuntime) {
    come_up(&rt, rt.alloc(), boxed!(rt), boxed!(rt));
}

/// Asserts the version at a place.
fn check_version<B: Bridge>(rt: &impl Abort, made: &Made<B>, place: usize, version: Version) {
    are_equal(rt, &made.held_at(place).0, &version);
}

/// Asserts that a bridge has no flag, and holds these versions and nothing else.
fn check_held<B: Bridge>(rt: &impl Abort, made: &Made<B>, versions: [Version; 2]) {
    check_flag(rt, made, false);
    check_version(rt, made, 0, versions[0]);
    check_version(rt, made, 1, versions[1]);
    check_version(rt, made, 2, Version::Absent);
}

/// Asserts what two bridges hold, each alone and once they have met.
fn come_to_hold_the_same<B: Bridge>(rt: &impl Abort, alloc: Global, a: B, b: B)
    requires a { (B.shown a).blank ≡ true }
    requires b { (B.shown b).blank ≡ true }
{
    let mut a = Made::new(rt, alloc, a, 1);
    let mut b = Made::new(rt, alloc, b, 2);
    let alone = Version::Live {
        seq: 1,
        sum: 0x4fd7,
    };
    are_equal(rt, &a.held_at(0), &(alone, 1200));
    meet(rt, &mut a, &mut b, 1);
    check_flag(rt, &a, true);
    meet(rt, &mut a, &mut b, 1);
    a.tick_to(rt, &mut b);
    let of_a = Version::Live {
        seq: 2,
        sum: 0xa512,
    };
    let of_b = Version::Live {
        seq: 2,
        sum: 0xc2f3,
    };
    check_held(rt, &a, [of_a, of_b]);
    check_held(rt, &b, [of_a, of_b]);
}

#[test]
fn two_boxes_come_to_hold_the_same(rt: HostRuntime) {
    come_to_hold_the_same(&rt, rt.alloc(), boxed!(rt), boxed!(rt));
}

const VID: Vid = Vid { value: 10 };

const OTHER_VID: Vid = Vid { value: 20 };

/// The address of the bridge of a number.
const fn mac(last: u8) -> Mac {
    Mac {
        bytes: [2, 0, 0, 0, 0, last],
    }
}

/// How many unicast and group rows a bridge has in its tables, and the first unicast row.
type Rows = (usize, usize, Option<UnicastRow>);

/// Asserts which rows a bridge has.
fn check_rows<B: Bridge>(rt: &impl Abort, made: &Made<B>, expected: Rows) {
    let tables = made.bridge.tables().expect(rt, "out of memory");
    let first = tables.unicast.as_slice().first().copied();
    let found = (tables.unicast.len(), tables.group.len(), first);
    are_equal(rt, &found, &expected);
}

/// Asserts by which port frames to the bridge of a number leave.
fn check_port_to<B: Bridge>(
    rt: &impl Abort,
    made: &Made<B>,
    vid: Vid,
    to: u8,
    expected: Option<u8>,
) {
    let port = made
        .bridge
        .unicast_port(vid, mac(to))
        .expect(rt, "out of memory");
    are_equal(rt, &port, &expected);
}

/// The row to the bridge of a number, which is the neighbour at port 1.
fn row_to(number: u8) -> UnicastRow {
    UnicastRow {
        vid: VID,
        mac: mac(number),
        port: 1,
    }
}

/// Asserts which rows two bridges have, each alone and once they have met.
fn have_each_other<B: Bridge>(rt: &impl Abort, alloc: Global, a: B, b: B)
    requires a { (B.shown a).blank ≡ true }
    requires b { (B.shown b).blank ≡ true }
{
    let mut a = Made::in_vid_10(rt, alloc, a, 1);
    let mut b = Made::in_vid_10(rt, alloc, b, 2);
    check_rows(rt, &a, (0, 0, None));
    meet(rt, &mut a, &mut b, 2);
    a.tick_to(rt, &mut b);
    check_rows(rt, &a, (1, 0, Some(row_to(2))));
    check_rows(rt, &b, (1, 0, Some(row_to(1))));
    check_port_to(rt, &a, VID, 2, Some(1));
    check_port_to(rt, &a, OTHER_VID, 2, None);
    check_port_to(rt, &b, VID, 2, None);
}

#[test]
fn two_boxes_show_each_other_in_their_tables(rt: HostRuntime) {
    have_each_other(&rt, rt.alloc(), boxed!(rt), boxed!(rt));
}

#[test]
fn boxes_that_share_what_they_read_have_their_own_rows(rt: HostRuntime) {
    let alloc = rt.alloc();
    let shared = SharedReading::new(alloc).expect(&rt, "out of memory");
    let a = PlainBridge::sharing(alloc, shared.share().expect(&rt, "out of memory"));
    have_each_other(&rt, alloc, a, PlainBridge::sharing(alloc, shared));
}

/// Asserts the cost of the path to the bridge of a number, and how many bridges stand on it.
fn check_path<B: Bridge>(
    rt: &impl Abort,
    made: &Made<B>,
    to: u8,
    vid: Vid,
    expected: Option<(u64, usize)>,
) {
    let to = SystemId { mac: mac(to) };
    let found = match made.bridge.path(to, vid).expect(rt, "out of memory") {
        Some(path) => Some((path.cost, path.bridges.len())),
        None => None,
    };
    are_equal(rt, &found, &expected);
}

/// Asserts by which ports frames to a service of the bridge of a number leave.
fn check_ports_to<B: Bridge>(rt: &impl Abort, made: &Made<B>, source: u32, expected: PortSet) {
    let group = group_address(SourceId { value: source }, Isid { value: 100 });
    let ports = made
        .bridge
        .group_ports(VID, group)
        .expect(rt, "out of memory");
    are_equal(rt, &ports, &expected);
}

/// Asserts the paths of a bridge, alone and once it has met another, and that it has no group ports.
fn check_paths<B: Bridge>(rt: &impl Abort, alloc: Global, a: B, b: B)
    requires a { (B.shown a).blank ≡ true }
    requires b { (B.shown b).blank ≡ true }
{
    let mut a = Made::in_vid_10(rt, alloc, a, 1);
    let mut b = Made::in_vid_10(rt, alloc, b, 2);
    check_path(rt, &a, 2, VID, None);
    meet(rt, &mut a, &mut b, 2);
    a.tick_to(rt, &mut b);
    check_path(rt, &a, 2, VID, Some((10, 2)));
    check_path(rt, &a, 1, VID, Some((0, 1)));
    check_path(rt, &a, 2, OTHER_VID, None);
    check_ports_to(rt, &a, 2, PortSet::none());
}

#[test]
fn a_box_tells_its_paths_and_no_group_ports_without_members(rt: HostRuntime) {
    check_paths(&rt, rt.alloc(), boxed!(rt), boxed!(rt));
}

/// Asserts the number of the first LSP that is held.
fn check_number<B: Bridge>(rt: &impl Abort, made: &Made<B>, number: u32) {
    are_equal(rt, &made.held_at(0).0.number(), &number);
}

/// Asserts the flags of the first two LSPs that are held, and the number of the first.
fn check_flags<B: Bridge>(rt: &impl Abort, made: &Made<B>, flags: [(bool, bool); 2], number: u32) {
    are_equal(rt, &[made.flags_at(0), made.flags_at(1)], &flags);
    check_number(rt, made, number);
}

/// Asserts the address of the neighbour at the port 1.
fn check_neighbour<B: Bridge>(rt: &impl Abort, made: &Made<B>, last: u8) {
    are_equal(rt, &made.seen().0.neighbour.mac, &mac(last));
}

/// Asserts what is to be sent once another neighbour is heard at an Up port.
fn hears_another<B: Bridge>(rt: &impl Abort, alloc: Global, a: B, b: B)
    requires a { (B.shown a).blank ≡ true }
    requires b { (B.shown b).blank ≡ true }
{
    let mut a = Made::new(rt, alloc, a, 1);
    let mut b = Made::new(rt, alloc, b, 2);
    meet(rt, &mut a, &mut b, 2);
    check_port(rt, &a, (AdjState::Up, false));
    check_flags(rt, &a, [(false, false), (false, true)], 2);
    // C's hello when it has heard A's circuit 1.
    let changes = [(11, 3), (31, 3), (58, 1)];
    let hello = changed(rt, alloc, INITIALIZING_HELLO, &changes);
    a.hear(rt, &hello);
    check_neighbour(rt, &a, 3);
    check_port(rt, &a, (AdjState::Up, true));
    check_flags(rt, &a, [(true, false), (true, false)], 3);
}

#[test]
fn another_neighbour_at_an_up_port_gets_all_and_no_ssn_stays(rt: HostRuntime) {
    hears_another(&rt, rt.alloc(), boxed!(rt), boxed!(rt));
}

/// Asserts that a bridge goes past a greater number of its own LSP, once it is Up.
fn answers_a_greater_number<B: Bridge>(rt: &impl Abort, alloc: Global, a: B, b: B)
    requires a { (B.shown a).blank ≡ true }
    requires b { (B.shown b).blank ≡ true }
{
    let mut a = Made::new(rt, alloc, a, 1);
    let mut b = Made::new(rt, alloc, b, 2);
    // It isn't Up yet.
    is_dropped(rt, alloc, &mut a, OLD_LSP);
    check_number(rt, &a, 1);
    meet(rt, &mut a, &mut b, 1);
    a.hear(rt, OLD_LSP);
    check_number(rt, &a, 10);
}

#[test]
fn a_greater_number_of_an_own_lsp_is_answered(rt: HostRuntime) {
    answers_a_greater_number(&rt, rt.alloc(), boxed!(rt), boxed!(rt));
}

/// Asserts the number and the lifetime of the first LSP that is held, once seconds have passed.
fn check_after<B: Bridge>(rt: &impl Abort, made: &mut Made<B>, seconds: u16, found: (u32, u16)) {
    made.pass(rt, seconds);
    let held = made.held_at(0);
    are_equal(rt, &(held.0.number(), held.1), &found);
}

/// Asserts that a bridge originates anew at lifetime 300.
fn originates_anew<B: Bridge>(rt: &impl Abort, alloc: Global, a: B)
    requires { (B.shown a).blank ≡ true }
{
    let mut a = Made::new(rt, alloc, a, 1);
    check_after(rt, &mut a, 899, (1, 301));
    check_after(rt, &mut a, 1, (2, 1200));
}

#[test]
fn an_own_lsp_of_lifetime_300_is_originated_anew(rt: HostRuntime) {
    originates_anew(&rt, rt.alloc(), boxed!(rt));
}

/// Asserts that two bridges that have met drop garbage.
fn drops_garbage<B: Bridge>(rt: &impl Abort, alloc: Global, a: B, b: B)
    requires a { (B.shown a).blank ≡ true }
    requires b { (B.shown b).blank ≡ true }
{
    let mut a = Made::new(rt, alloc, a, 1);
    let mut b = Made::new(rt, alloc, b, 2);
    meet(rt, &mut a, &mut b, 1);
    is_dropped(rt, alloc, &mut a, &[]);
    is_dropped(rt, alloc, &mut a, b"no frame of the backbone");
    is_dropped(rt, alloc, &mut a, &FIRST_HELLO[..52]);
    // Its own hello.
    is_dropped(rt, alloc, &mut a, FIRST_HELLO);
    let other_protocol = changed(rt, alloc, FIRST_HELLO, &[(17, 0x82)]);
    is_dropped(rt, alloc, &mut b, &other_protocol);
    let without_three_way = changed(rt, alloc, FIRST_HELLO, &[(46, 0xf1)]);
    is_dropped(rt, alloc, &mut b, &without_three_way);
    assert!(*rt; !drops_it(rt, alloc, &mut b, FIRST_HELLO));
}

#[test]
fn a_box_drops_garbage_and_stays_as_it_was(rt: HostRuntime) {
    drops_garbage(&rt, rt.alloc(), boxed!(rt), boxed!(rt));
}

/// Asserts that of two bridges the second alone ticks.
fn one_of_two_ticks<B: Bridge>(rt: &impl Abort, alloc: Global, a: B, b: B)
    requires a { (B.shown a).blank ≡ true }
    requires b { (B.shown b).blank ≡ true }
{
    let a = Made::new(rt, alloc, a, 2);
    let b = Made::new(rt, alloc, b, 1);
    let mut boxes = Vec::new(alloc);
    boxes.push(a.bridge).expect(rt, "out of memory");
    boxes.push(b.bridge).expect(rt, "out of memory");
    let mut outbox = Outbox::new(alloc);
    tick_at(&mut boxes, 1, &mut outbox).expect(rt, "out of memory");
    is_only_frame(rt, &outbox, FIRST_HELLO);
}

#[test]
fn one_box_of_several_ticks(rt: HostRuntime) {
    one_of_two_ticks(&rt, rt.alloc(), boxed!(rt), boxed!(rt));
}
