//! Tests of how a life begins: each own LSP above the number that it had in the life before.
ghost use Rattle.std.specs.Prelude.{◌≡◌, ◌≤◌, [], ◌∷◌, true, map, length, IfOk};
ghost use Rattle.std.specs.List.{AllByRecursion};
ghost use Rattle.bridge_api.specs.Config.{AgreesWith, ArePairwise, IsAttachment, IsWhole, different};
ghost use Rattle.bridge_api.specs.Config as config;

use crate::fixtures::{Made, are_equal, boxed, meet, one_port};
use crate::plain::rows;
use adjacency::AdjState;
use bridge_api::{Bridge, BridgeConfig, first_life};
use lsdb::{DbRow, Version};
use spb_types::{
    Attachment, BridgeId, Isid, LspId, Mac, Mode, NoMemory, PortSet, Seq, SourceId, SystemId, Vid,
    VidPlan,
};
use std::alloc::Global;
use std::process::Abort;
use swift_bridge::SwiftBridge;

const VID: Vid = Vid { value: 10 };

/// The bridge whose life begins.
const SYSTEM: SystemId = SystemId {
    mac: Mac {
        bytes: [2, 0, 0, 0, 0, 1],
    },
};

/// The numbers of a life before.
const LAST: &[u32] = &[
    0, 1, 2, 7, 100, 0, 5, 4294967294, 0, 9, 1, 0, 3, 0, 65536, 4294967294,
];

/// The versions by number that a life of 181 services begins with above those: the first four LSPs have something to
/// say.
const HELD: &[Version] = &[
    Version::Live {
        seq: 1,
        sum: 0xea15,
    },
    Version::Live {
        seq: 2,
        sum: 0xb831,
    },
    Version::Live {
        seq: 3,
        sum: 0xcefa,
    },
    Version::Live {
        seq: 8,
        sum: 0xb00d,
    },
    Version::Dead { seq: 100 },
    Version::Absent,
    Version::Dead { seq: 5 },
    Version::Dead { seq: 4294967294 },
    Version::Absent,
    Version::Dead { seq: 9 },
    Version::Dead { seq: 1 },
    Version::Absent,
    Version::Dead { seq: 3 },
    Version::Absent,
    Version::Dead { seq: 65536 },
    Version::Dead { seq: 4294967294 },
];

/// The numbers of no life before.
const NO_LAST: &[u32] = &[0, 0, 0, 0, 0, 0, 0, 0, 0, 0, 0, 0, 0, 0, 0, 0];

/// The versions by number that a life of one service begins with above those.
const HELD_OF_ONE: &[Version] = &[
    Version::Live {
        seq: 1,
        sum: 0xe889,
    },
    Version::Absent,
    Version::Absent,
    Version::Absent,
    Version::Absent,
    Version::Absent,
    Version::Absent,
    Version::Absent,
    Version::Absent,
    Version::Absent,
];

/// The last version of all.
const LAST_OF_ALL: Version = Version::Dead { seq: u32::MAX };

/// The items, with another at a place.
fn with<T: Copy>(rt: &impl Abort, alloc: Global, items: &[T], place: usize, item: T) -> Vec<T> {
    let mut with = Vec::from_slice(alloc, items).expect(rt, "out of memory");
    if let Some(other) = with.get_mut(place) {
        *other = item;
    }
    with
}

/// The service of a number in the VID 10, at the customer port of that number.
fn service(number: u16) -> Attachment
    ensures port { result.port ≡ number }
    ensures isid { result.isid.value ≡ number }
    ensures vid { result.vid.value ≡ 10 }
{
    Attachment {
        port: number,
        isid: Isid {
            value: u32::from(number),
        },
        vid: VID,
        mode: Mode::Both,
    }
}

/// The services from 1 on.
fn services(alloc: Global, count: u8) -> Result<Seq<Attachment>, NoMemory>
    ensures each { IfOk result (AllByRecursion (IsAttachment (10 ∷ []))) }
    ensures apart { IfOk result (ArePairwise AgreesWith) }
    ensures few { IfOk result (λ services. length (different (map (λ a. a.isid.value) services)) ≤ 960) }
{
    let mut services = Seq::new(alloc);
    for place in 0..count {
        services.push(service(u16::from(place) + 1))?;
    }
    Ok(services)
}

/// The numbers of a life before, one for each own LSP.
fn numbers(rt: &impl Abort, alloc: Global, last: &[u32]) -> Result<Seq<u32>, NoMemory>
    ensures long { IfOk result (λ numbers. length numbers ≡ length config.first_life) }
    ensures each { IfOk result (AllByRecursion (λ n. n ≤ 4294967295)) }
{
    let first = first_life(alloc)?;
    assert!(*rt; last.len() == first.len());
    let numbers = Vec::from_slice(alloc, last)?;
    Ok(Seq::from_vec(numbers))
}

/// The configuration of a bridge with one port in the VID 10, so many services, and these numbers of the life before.
fn config(rt: &impl Abort, alloc: Global, count: u8, last: &[u32]) -> Result<BridgeConfig, NoMemory>
    ensures whole { IfOk result IsWhole }
    ensures port { IfOk result (λ c. c.ports ≡ 1) }
{
    let mut metrics = Seq::new(alloc);
    metrics.push(10)?;
    let mut vids = Seq::new(alloc);
    vids.push(VidPlan { vid: VID, ect: 1 })?;
    let attached = services(alloc, count)?;
    let numbers = numbers(rt, alloc, last)?;
    let config = one_port!(1u8, vids, metrics, attached, numbers);
    Ok(config)
}

/// A blank bridge becomes one with so many services, whose life begins above these numbers.
fn begun<B: Bridge>(rt: &impl Abort, alloc: Global, blank: B, count: u8, last: &[u32]) -> Made<B>
    requires { (B.shown blank).blank ≡ true }
{
    let config = config(rt, alloc, count, last).expect(rt, "out of memory");
    Made::of(rt, alloc, blank, &config)
}

/// The own LSP of a number and a version, which is to be sent nowhere.
fn row(number: u8, version: Version) -> DbRow {
    let lifetime = match version {
        Version::Live { .. } => 1200,
        _ => 0,
    };
    DbRow {
        id: LspId {
            system: SYSTEM,
            pseudonode: 0,
            number,
        },
        version,
        lifetime,
        srm: PortSet { bits: 0 },
        ssn: PortSet { bits: 0 },
    }
}

/// The own LSPs of these versions by number.
fn rows_of(rt: &impl Abort, alloc: Global, versions: &[Version]) -> Vec<DbRow> {
    let mut rows = Vec::new(alloc);
    for number in 0..16 {
        match versions.get(usize::from(number)) {
            None | Some(Version::Absent) => {}
            Some(version) => rows.push(row(number, *version)).expect(rt, "out of memory"),
        }
    }
    rows
}

/// Asserts that a bridge holds own LSPs of these versions by number, and nothing else.
fn check_held<B: Bridge>(rt: &impl Abort, alloc: Global, made: &Made<B>, versions: &[Version]) {
    let held = rows_of(rt, alloc, versions);
    are_equal(rt, &rows(rt, alloc, made).as_slice(), &held.as_slice());
}

/// Asserts how a life begins of whose LSPs none was at the last number.
fn begins<B: Bridge>(rt: &impl Abort, alloc: Global, blank: B)
    requires { (B.shown blank).blank ≡ true }
{
    let made = begun(rt, alloc, blank, 181, LAST);
    check_held(rt, alloc, &made, HELD);
}

#[test]
fn a_life_begins_above_the_life_before_in_both_kinds(rt: HostRuntime) {
    begins(&rt, rt.alloc(), boxed!(rt));
    begins(&rt, rt.alloc(), SwiftBridge::blank(rt.alloc()));
}

/// A bridge whose third LSP, which has something to say, was at the last number.
fn begun_spent<B: Bridge>(rt: &impl Abort, alloc: Global, blank: B) -> Made<B>
    requires { (B.shown blank).blank ≡ true }
{
    let last = with(rt, alloc, LAST, 2, u32::MAX);
    begun(rt, alloc, blank, 181, &last)
}

/// Asserts that the third LSP of that one is dead, and the others are as they would be else.
fn check_spent<B: Bridge>(rt: &impl Abort, alloc: Global, made: &Made<B>) {
    let held = with(rt, alloc, HELD, 2, LAST_OF_ALL);
    check_held(rt, alloc, made, &held);
}

/// Asserts that the port 1 is Up, and that the first LSP is still the one with which the life began.
fn check_first_stays<B: Bridge>(rt: &impl Abort, made: &Made<B>) {
    are_equal(rt, &made.seen().0.state, &AdjState::Up);
    are_equal(rt, &made.held_at(0).0, &HELD[0]);
}

/// Asserts that a life begins spent where an LSP was at the last number: the others begin all the same, but say nothing
/// of a neighbour that comes up.
fn begins_spent<B: Bridge>(rt: &impl Abort, alloc: Global, a: B, b: B)
    requires a { (B.shown a).blank ≡ true }
    requires b { (B.shown b).blank ≡ true }
{
    let mut a = begun_spent(rt, alloc, a);
    let mut b = Made::in_vid_10(rt, alloc, b, 2);
    check_spent(rt, alloc, &a);
    meet(rt, &mut a, &mut b, 1);
    check_first_stays(rt, &a);
    meet(rt, &mut a, &mut b, 2);
    check_first_stays(rt, &a);
}

#[test]
fn a_life_begins_spent_at_the_last_number_in_both_kinds(rt: HostRuntime) {
    begins_spent(&rt, rt.alloc(), boxed!(rt), boxed!(rt));
    let a = SwiftBridge::blank(rt.alloc());
    begins_spent(&rt, rt.alloc(), a, SwiftBridge::blank(rt.alloc()));
}

/// Asserts how a life begins where an LSP that has nothing to say was at the last number.
fn begins_silent<B: Bridge>(rt: &impl Abort, alloc: Global, blank: B)
    requires { (B.shown blank).blank ≡ true }
{
    let last = with(rt, alloc, NO_LAST, 9, u32::MAX);
    let held = with(rt, alloc, HELD_OF_ONE, 9, LAST_OF_ALL);
    let made = begun(rt, alloc, blank, 1, &last);
    check_held(rt, alloc, &made, &held);
}

#[test]
fn an_lsp_that_says_nothing_is_dead_at_the_last_number_in_both_kinds(rt: HostRuntime) {
    begins_silent(&rt, rt.alloc(), boxed!(rt));
    begins_silent(&rt, rt.alloc(), SwiftBridge::blank(rt.alloc()));
}
