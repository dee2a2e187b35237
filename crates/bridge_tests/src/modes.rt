//! Tests of customer ports that only send or only receive.
ghost use Rattle.std.specs.Prelude.{◌≡◌, true, false, [], ◌∷◌, OnOk};
ghost use Rattle.spb_types.specs.declared.service.Mode.TheVariants as mode;
ghost use Rattle.bridge_tests.specs.TwoPorts.{HasPorts, in_100};

use crate::drops::counts_of;
use crate::fixtures::{are_equal, boxed};
use crate::serving::make;
use bridge_api::{Bridge, Drops, Outbox};
use spb_types::{Isid, Mode, NoMemory, Vid};
use std::alloc::Global;
use std::process::Abort;
use swift_bridge::SwiftBridge;

const ISID: Isid = Isid { value: 100 };

const VID: Vid = Vid { value: 10 };

/// A frame of a station to another that isn't known.
const FROM_STATION: &[u8] = b"\x0a\x00\x00\x00\x00\x09\x0a\x00\x00\x00\x00\x01\x88\xb5";

/// A frame to that station.
const TO_STATION: &[u8] = b"\x0a\x00\x00\x00\x00\x01\x0a\x00\x00\x00\x00\x02\x88\xb5";

/// The octet before the last I-SID that a bridge says: T, R and six reserved bits (RFC 6329, 16.1).
fn octet_said<B: Bridge>(bridge: &B) -> Option<u8>
    requires { (B.shown bridge.now).blank ≡ false }
{
    let body = bridge.entry(0)?.body.as_slice();
    let place = body.len().checked_sub(4)?;
    body.get(place).copied()
}

/// A blank bridge gets a customer port that sends, and then another in the same service. What it says after each.
fn attach_two<B: Bridge>(
    alloc: Global,
    bridge: &mut B,
    other: Mode,
) -> Result<[Option<u8>; 2], NoMemory>
    requires blank { (B.shown bridge.old).blank ≡ true }
    ensures made { OnOk result ((B.shown bridge.new).blank ≡ false) }
    ensures ports { OnOk result (HasPorts (in_100 1 mode.Send ∷ in_100 2 other ∷ []) (B.shown bridge.new).view) }
{
    make(alloc, bridge, 0)?;
    bridge.attach(1, ISID, VID, Mode::Send)?;
    let first = octet_said(bridge);
    bridge.attach(2, ISID, VID, other)?;
    Ok([first, octet_said(bridge)])
}

/// What a bridge says as a port that sends is attached, one that receives beside it, and the first is detached.
fn octets<B: Bridge>(alloc: Global, bridge: &mut B) -> Result<[Option<u8>; 3], NoMemory>
    requires { (B.shown bridge.old).blank ≡ true }
{
    let [sends, does_both] = attach_two(alloc, bridge, Mode::Recv)?;
    bridge.detach(1)?;
    Ok([sends, does_both, octet_said(bridge)])
}

/// Asserts that a bridge says what its customer ports do.
fn says_what_ports_do<B: Bridge>(rt: &impl Abort, alloc: Global, blank: B)
    requires { (B.shown blank).blank ≡ true }
{
    let mut bridge = blank;
    let said = octets(alloc, &mut bridge).expect(rt, "out of memory");
    are_equal(rt, &said, &[Some(0x80), Some(0xc0), Some(0x40)]);
}

#[test]
fn a_service_is_said_as_its_ports_do_in_both_kinds(rt: HostRuntime) {
    says_what_ports_do(&rt, rt.alloc(), boxed!(rt));
    says_what_ports_do(&rt, rt.alloc(), SwiftBridge::blank(rt.alloc()));
}

/// What is sent as a frame enters at a port that only sends, and as one to its station enters at another port; and the
/// counts afterwards.
fn sent<B: Bridge>(alloc: Global, bridge: &mut B) -> Result<(Outbox, Outbox, Drops), NoMemory>
    requires { (B.shown bridge.old).blank ≡ true }
{
    attach_two(alloc, bridge, Mode::Both)?;
    let mut from = Outbox::new(alloc);
    bridge.customer(1, FROM_STATION, &mut from)?;
    let mut to = Outbox::new(alloc);
    bridge.customer(2, TO_STATION, &mut to)?;
    Ok((from, to, counts_of(bridge)))
}

/// Asserts that one frame alone leaves, at the customer port 2.
fn leaves_at_2(rt: &impl Abort, outbox: &Outbox, frame: &[u8]) {
    match outbox.left.as_slice() {
        [left] => {
            are_equal(rt, &left.0, &2);
            are_equal(rt, &left.1.as_slice(), &frame);
        }
        _ => panic!(*rt; "not one frame"),
    }
}

/// Asserts that a frame to a station at a port that only sends leaves nowhere, and isn't counted.
fn is_mute<B: Bridge>(rt: &impl Abort, alloc: Global, blank: B)
    requires { (B.shown blank).blank ≡ true }
{
    let mut bridge = blank;
    let (from, to, drops) = sent(alloc, &mut bridge).expect(rt, "out of memory");
    leaves_at_2(rt, &from, FROM_STATION);
    assert!(*rt; to.left.is_empty() && to.wire.is_empty());
    are_equal(rt, &drops, &Drops::none());
}

#[test]
fn nothing_leaves_at_a_port_that_only_sends_in_both_kinds(rt: HostRuntime) {
    is_mute(&rt, rt.alloc(), boxed!(rt));
    is_mute(&rt, rt.alloc(), SwiftBridge::blank(rt.alloc()));
}
