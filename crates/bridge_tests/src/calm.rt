//! Tests of seconds that pass in calm: all at once they come to the same as one by one.
ghost use Rattle.std.specs.Prelude.{◌≡◌, true, false, length};
ghost use Rattle.bridge_api.specs.Calm.{IsCalmFor, aged_by};

use crate::fixtures::{Made, are_equal};
use crate::plain::rows;
use bridge_api::{Bridge, Outbox};
use plain_bridge::PlainBridge;
use spb_types::NoMemory;
use std::alloc::Global;
use std::process::Abort;
use swift_bridge::SwiftBridge;

/// So many seconds pass in calm. The bridge stays made, with as many ports.
#[tactic(auto, unfolding(bridge_api::specs::Calm::aged_by))]
fn passed<B: Bridge>(bridge: &mut B, seconds: u16) -> Result<(), NoMemory>
    requires made { (B.shown bridge.old).blank ≡ false }
    requires calm { IsCalmFor seconds (B.shown bridge.old).view }
    ensures still_made { (B.shown bridge.new).blank ≡ false }
    ensures still_ports { length (B.shown bridge.new).view.ports ≡ length (B.shown bridge.old).view.ports }
{
    bridge.pass_calm(seconds)
}

/// All seconds that a bridge can pass in calm pass at once. Tells how many.
fn pass_all<B: Bridge>(rt: &impl Abort, made: &mut Made<B>) -> u16 {
    let seconds = made.bridge.calm_seconds();
    assert!(*rt; 1 <= seconds);
    let ended = passed(&mut made.bridge, seconds);
    assert!(*rt; ended.is_ok());
    seconds
}

/// All that was sent comes to another bridge.
fn deliver<B: Bridge>(rt: &impl Abort, sent: &Outbox, to: &mut Made<B>) {
    for frame in sent.wire.as_slice() {
        to.hear(rt, frame.1.as_slice());
    }
}

/// So often a second passes at both, and then each hears what the other sent.
fn play<B: Bridge>(rt: &impl Abort, a: &mut Made<B>, b: &mut Made<B>, rounds: u16) {
    for _ in 0..rounds {
        let from_a = a.tick(rt);
        let from_b = b.tick(rt);
        deliver(rt, &from_a, b);
        deliver(rt, &from_b, a);
    }
}

/// Two bridges that have met.
fn two<B: Bridge>(rt: &impl Abort, alloc: Global, a: B, b: B) -> (Made<B>, Made<B>)
    requires a { (B.shown a).blank ≡ true }
    requires b { (B.shown b).blank ≡ true }
{
    let mut a = Made::in_vid_10(rt, alloc, a, 1);
    let mut b = Made::in_vid_10(rt, alloc, b, 2);
    assert!(*rt; a.bridge.calm_seconds() == 0);
    play(rt, &mut a, &mut b, 12);
    (a, b)
}

/// Asserts that two bridges hold the same, but for the bodies, and that their ports 1 are in the same state.
fn are_alike<B: Bridge>(rt: &impl Abort, alloc: Global, one: &Made<B>, other: &Made<B>) {
    are_equal(rt, &one.seen(), &other.seen());
    let rows_of_one = rows(rt, alloc, one);
    let rows_of_other = rows(rt, alloc, other);
    are_equal(rt, &rows_of_one.as_slice(), &rows_of_other.as_slice());
}

/// Asserts that what two bridges pass at once comes to the same as what two others play, and that it ends before their
/// own LSPs are originated anew.
fn check_pairs<B: Bridge>(
    rt: &impl Abort,
    alloc: Global,
    leaping: (Made<B>, Made<B>),
    playing: (Made<B>, Made<B>),
) {
    let (mut a, mut b) = leaping;
    let (mut c, mut d) = playing;
    let seconds = pass_all(rt, &mut a);
    are_equal(rt, &pass_all(rt, &mut b), &seconds);
    assert!(*rt; a.bridge.calm_seconds() == 0);
    play(rt, &mut c, &mut d, seconds);
    are_alike(rt, alloc, &a, &c);
    are_alike(rt, alloc, &b, &d);
    play(rt, &mut a, &mut b, 2);
    play(rt, &mut c, &mut d, 2);
    are_alike(rt, alloc, &a, &c);
    are_alike(rt, alloc, &b, &d);
    assert!(*rt; a.held_at(0).1 > seconds);
}

/// Asserts it of bridges that are blank, the first two of which pass what the others play.
fn check<B: Bridge>(rt: &impl Abort, alloc: Global, a: B, b: B, c: B, d: B)
    requires a { (B.shown a).blank ≡ true }
    requires b { (B.shown b).blank ≡ true }
    requires c { (B.shown c).blank ≡ true }
    requires d { (B.shown d).blank ≡ true }
{
    let leaping = two(rt, alloc, a, b);
    let playing = two(rt, alloc, c, d);
    check_pairs(rt, alloc, leaping, playing);
}

#[test]
fn plain_bridges_pass_seconds_in_calm(rt: HostRuntime) {
    let alloc = rt.alloc();
    check(
        &rt,
        alloc,
        PlainBridge::blank(alloc),
        PlainBridge::blank(alloc),
        PlainBridge::blank(alloc),
        PlainBridge::blank(alloc),
    );
}

#[test]
fn swift_bridges_pass_seconds_in_calm(rt: HostRuntime) {
    let alloc = rt.alloc();
    check(
        &rt,
        alloc,
        SwiftBridge::blank(alloc),
        SwiftBridge::blank(alloc),
        SwiftBridge::blank(alloc),
        SwiftBridge::blank(alloc),
    );
}
