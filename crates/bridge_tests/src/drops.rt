//! Tests of the counts of dropped frames.
ghost use Rattle.std.specs.Prelude.{◌≡◌, true, false};

use crate::fixtures::{DEAD, Made, are_equal, boxed, changed, meet};
use bridge_api::{Bridge, DropReason, Drops};
use lsdb::Version;
use std::alloc::Global;
use std::process::Abort;
use swift_bridge::SwiftBridge;

/// The hello of B, as the whole control frame.
const HELLO: &[u8] = b"\
    \x01\x80\xc2\x00\x00\x14\x02\x00\x00\x00\x00\x02\x00\x27\xfe\xfe\x03\x83\x14\x01\x00\x11\x01\x00\
    \x00\x01\x02\x00\x00\x00\x00\x02\x00\x03\x00\x24\x01\x01\x04\x03\x49\x00\x01\x81\x01\xc1\xf0\x05\
    \x02\x00\x00\x00\x01";

/// The first LSP of A, as a frame from B.
const LSP: &[u8] = b"\
    \x01\x80\xc2\x00\x00\x14\x02\x00\x00\x00\x00\x02\x00\x40\xfe\xfe\x03\x83\x1b\x01\x00\x12\x01\x00\
    \x00\x00\x3d\x04\xb0\x02\x00\x00\x00\x00\x01\x00\x00\x00\x00\x00\x01\x4f\xd7\x01\x01\x04\x03\x49\
    \x00\x01\x81\x01\xc1\x90\x17\x00\x00\x01\x13\x00\x00\x00\x00\x00\x00\x00\x00\x00\x00\x00\x00\x80\
    \x00\x00\x00\x00\x01\x00";

/// A PSNP of B.
const PSNP: &[u8] = b"\
    \x01\x80\xc2\x00\x00\x14\x02\x00\x00\x00\x00\x02\x00\x26\xfe\xfe\x03\x83\x11\x01\x00\x1a\x01\x00\
    \x00\x00\x23\x02\x00\x00\x00\x00\x02\x00\x09\x10\x04\xae\x02\x00\x00\x00\x00\x03\x00\x00\x00\x00\
    \x00\x02\xc2\xf3";

/// All counts of a bridge.
pub(crate) fn counts_of<B: Bridge>(bridge: &B) -> Drops
    requires { (B.shown bridge.now).blank ≡ false }
{
    Drops {
        frame: bridge.drops(DropReason::Frame),
        pdu: bridge.drops(DropReason::Pdu),
        tlv: bridge.drops(DropReason::Tlv),
        not_adjacent: bridge.drops(DropReason::NotAdjacent),
        hello: bridge.drops(DropReason::Hello),
        ingress: bridge.drops(DropReason::Ingress),
        no_way: bridge.drops(DropReason::NoWay),
        mismatch: bridge.drops(DropReason::Mismatch),
        full: bridge.drops(DropReason::Full),
    }
}

fn counts<B: Bridge>(made: &Made<B>) -> Drops {
    counts_of(&made.bridge)
}

/// Whether a frame that comes to a port raises one count by one, and no other.
fn raises<B: Bridge>(
    rt: &impl Abort,
    made: &mut Made<B>,
    port: u8,
    frame: &[u8],
    reason: DropReason,
) -> bool {
    let mut want = counts(made);
    want.raise(reason);
    made.hear_at(rt, port, frame);
    counts(made) == want
}

/// Asserts that a frame with other bytes at some places raises one count by one, and no other, at the port 1.
fn check_raised<B: Bridge>(
    rt: &impl Abort,
    alloc: Global,
    made: &mut Made<B>,
    frame: &[u8],
    changes: &[(usize, u8)],
    reason: DropReason,
) {
    let frame = changed(rt, alloc, frame, changes);
    assert!(*rt; raises(rt, made, 1, &frame, reason));
}

/// Asserts that an LSP with other bytes at some places is no PDU.
fn is_no_pdu<B: Bridge>(
    rt: &impl Abort,
    alloc: Global,
    made: &mut Made<B>,
    changes: &[(usize, u8)],
) {
    check_raised(rt, alloc, made, LSP, changes, DropReason::Pdu);
}

/// Asserts that what a bridge drops raises the count of its reason.
fn has_counts<B: Bridge>(rt: &impl Abort, alloc: Global, a: B)
    requires { (B.shown a).blank ≡ true }
{
    let mut a = Made::of_two_ports(rt, alloc, a, 1);
    are_equal(rt, &counts(&a), &Drops::none());
    check_raised(rt, alloc, &mut a, &[], &[], DropReason::Frame);
    // An LSP whose last byte is cut, with another last byte, without a checksum, of another protocol, of 7 bytes, of an
    // unknown kind, and with a TLV that is cut.
    is_no_pdu(rt, alloc, &mut a, &[(13, 0x3f)]);
    is_no_pdu(rt, alloc, &mut a, &[(77, 1)]);
    is_no_pdu(rt, alloc, &mut a, &[(41, 0), (42, 0)]);
    is_no_pdu(rt, alloc, &mut a, &[(17, 0x82)]);
    is_no_pdu(rt, alloc, &mut a, &[(13, 10)]);
    is_no_pdu(rt, alloc, &mut a, &[(21, 0x13)]);
    is_no_pdu(rt, alloc, &mut a, &[(54, 0x18)]);
    // A hello without the three-way TLV, a PSNP before there is a neighbour, and an own hello.
    check_raised(rt, alloc, &mut a, HELLO, &[(46, 0xf1)], DropReason::Tlv);
    check_raised(rt, alloc, &mut a, PSNP, &[], DropReason::NotAdjacent);
    check_raised(rt, alloc, &mut a, HELLO, &[(31, 1)], DropReason::Hello);
    assert!(*rt; raises(rt, &mut a, 2, LSP, DropReason::NotAdjacent));
    assert!(*rt; !raises(rt, &mut a, 1, HELLO, DropReason::Hello));
}

#[test]
fn each_reason_has_its_count_in_both_kinds(rt: HostRuntime) {
    has_counts(&rt, rt.alloc(), boxed!(rt));
    has_counts(&rt, rt.alloc(), SwiftBridge::blank(rt.alloc()));
}

/// A dead LSP of A with the last number comes to A.
fn hear_the_last_number<B: Bridge>(rt: &impl Abort, alloc: Global, a: &mut Made<B>) {
    let own = [(34, 1), (37, 0xff), (38, 0xff), (39, 0xff), (40, 0xff)];
    a.hear(rt, &changed(rt, alloc, DEAD, &own));
}

/// Asserts that A holds that, and nothing of it was dropped.
fn holds_the_last_number<B: Bridge>(rt: &impl Abort, a: &Made<B>) {
    let dead = Version::Dead { seq: u32::MAX };
    are_equal(rt, &a.held_at(0), &(dead, 0));
    are_equal(rt, &counts(a), &Drops::none());
}

/// Asserts that a bridge that hears the last number of its own LSP says nothing any more.
fn keeps_the_last_number<B: Bridge>(rt: &impl Abort, alloc: Global, a: B, b: B)
    requires a { (B.shown a).blank ≡ true }
    requires b { (B.shown b).blank ≡ true }
{
    let mut a = Made::new(rt, alloc, a, 1);
    let mut b = Made::new(rt, alloc, b, 2);
    meet(rt, &mut a, &mut b, 1);
    hear_the_last_number(rt, alloc, &mut a);
    holds_the_last_number(rt, &a);
    a.set_metric(rt, 20);
    a.pass(rt, 1);
    holds_the_last_number(rt, &a);
}

#[test]
fn an_own_lsp_of_the_last_number_is_the_last(rt: HostRuntime) {
    keeps_the_last_number(&rt, rt.alloc(), boxed!(rt), boxed!(rt));
}

/// Dead LSPs of this many ids come to the port 1.
fn fill<B: Bridge>(rt: &impl Abort, alloc: Global, made: &mut Made<B>, ids: u16) {
    for id in 0..ids {
        let [high, low] = id.to_be_bytes();
        made.hear(rt, &changed(rt, alloc, DEAD, &[(35, high), (36, low)]));
    }
}

/// Asserts whether something is held at a place, and how much found none.
fn check_place<B: Bridge>(rt: &impl Abort, made: &Made<B>, place: usize, found: (bool, u64)) {
    let is_held = made.bridge.entry(place).is_some();
    are_equal(rt, &(is_held, made.bridge.drops(DropReason::Full)), &found);
}

/// A PSNP of B with three entries. Where the database is full, the first and the last find no place, and the other is
/// newer than what is held.
const PSNP_OF_THREE: &[u8] = b"\
    \x01\x80\xc2\x00\x00\x14\x02\x00\x00\x00\x00\x02\x00\x46\xfe\xfe\x03\x83\x11\x01\x00\x1a\x01\x00\
    \x00\x00\x43\x02\x00\x00\x00\x00\x02\x00\x09\x30\x04\xae\x02\x00\x00\x00\x00\x04\x00\x00\x00\x00\
    \x00\x02\xc2\xf3\x04\xae\x02\x00\x00\x00\x00\x03\x00\x00\x00\x00\x00\x09\xc2\xf3\x04\xae\x02\x00\
    \x00\x00\x00\x05\x00\x00\x00\x00\x00\x02\xc2\xf3";

/// Asserts what a bridge that is full counts and hears.
fn fills_up<B: Bridge>(rt: &impl Abort, alloc: Global, a: B, b: B)
    requires a { (B.shown a).blank ≡ true }
    requires b { (B.shown b).blank ≡ true }
{
    let mut a = Made::new(rt, alloc, a, 1);
    let mut b = Made::new(rt, alloc, b, 2);
    meet(rt, &mut a, &mut b, 1);
    fill(rt, alloc, &mut a, 4080);
    check_place(rt, &a, 4080, (true, 0));
    fill(rt, alloc, &mut a, 4082);
    check_place(rt, &a, 4081, (false, 2));
    a.hear(rt, PSNP_OF_THREE);
    let mut want = Drops::none();
    want.raise_times(DropReason::Full, 4);
    are_equal(rt, &counts(&a), &want);
    are_equal(rt, &a.flags_at(1), &(false, true));
    check_place(rt, &a, 4081, (false, 4));
}

#[test]
fn what_finds_no_place_is_counted_and_the_rest_is_heard(rt: HostRuntime) {
    fills_up(&rt, rt.alloc(), boxed!(rt), boxed!(rt));
}

/// Asserts how often a bridge has dropped a frame for a reason.
fn check_count<B: Bridge>(rt: &impl Abort, made: &Made<B>, reason: DropReason, count: u64) {
    are_equal(rt, &made.bridge.drops(reason), &count);
}

#[test]
fn a_swift_bridge_counts_what_it_drops(rt: HostRuntime) {
    let mut a = Made::in_vid_10(&rt, rt.alloc(), SwiftBridge::blank(rt.alloc()), 1);
    a.hear(&rt, b"");
    a.hear(&rt, b"no frame of the backbone");
    // The head of a control frame, with a PDU of no bytes.
    let frame = b"\x01\x80\xc2\x00\x00\x14\x02\x00\x00\x00\x00\x02\x00\x03\xfe\xfe\x03";
    a.hear(&rt, frame);
    check_count(&rt, &a, DropReason::Frame, 2);
    check_count(&rt, &a, DropReason::Pdu, 1);
    check_count(&rt, &a, DropReason::Hello, 0);
    check_count(&rt, &a, DropReason::Full, 0);
}
