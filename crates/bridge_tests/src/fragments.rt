//! Tests of bridges that say what they have to say in more than one LSP: numbers that are spent, fragments without
//! number 0, and claims of numbers that a bridge has nothing for.
ghost use Rattle.std.specs.Prelude.{◌≡◌, true};

use crate::fixtures::{DEAD, Made, OLD_LSP, are_equal, boxed, changed};
use crate::serving::{Served, Serving};
use bridge_api::{Bridge, Outbox};
use lsdb::Version;
use std::alloc::Global;
use std::process::Abort;
use swift_bridge::SwiftBridge;

/// The hello of B when it has heard A's circuit 1: with it, A is Up.
const HELLO: &[u8] = b"\
    \x01\x80\xc2\x00\x00\x14\x02\x00\x00\x00\x00\x02\x00\x31\xfe\xfe\x03\x83\x14\x01\x00\x11\x01\x00\
    \x00\x01\x02\x00\x00\x00\x00\x02\x00\x03\x00\x2e\x01\x01\x04\x03\x49\x00\x01\x81\x01\xc1\xf0\x0f\
    \x01\x00\x00\x00\x01\x02\x00\x00\x00\x00\x01\x00\x00\x00\x01";

/// Of a dead LSP that comes to A: the number of its system, its own number, and its sequence number.
#[derive(Clone, Copy)]
struct Claim {
    system: u8,
    number: u8,
    seq: u32,
}

/// Such an LSP.
fn dead(rt: &impl Abort, alloc: Global, claim: Claim) -> Vec<u8> {
    let [first, second, third, fourth] = claim.seq.to_be_bytes();
    let id = [(34, claim.system), (36, claim.number)];
    let named = changed(rt, alloc, DEAD, &id);
    let seq = [(37, first), (38, second), (39, third), (40, fourth)];
    changed(rt, alloc, &named, &seq)
}

const NUMBER_0: Version = Version::Live {
    seq: 2,
    sum: 0x7719,
};

const NUMBER_1: Version = Version::Live {
    seq: 1,
    sum: 0xba30,
};

const NUMBER_2: Version = Version::Live {
    seq: 1,
    sum: 0xd2f8,
};

const NUMBER_3: Version = Version::Live {
    seq: 1,
    sum: 0xbe06,
};

const NONE: Version = Version::Absent;

/// What A with 181 services holds once it is Up.
const SAID: [Version; 5] = [NUMBER_0, NUMBER_1, NUMBER_2, NUMBER_3, NONE];

const LAST: Version = Version::Dead { seq: u32::MAX };

/// The same once number 3 is at the last sequence number.
const SPENT: [Version; 5] = [NUMBER_0, NUMBER_1, NUMBER_2, LAST, NONE];

const NINTH: Version = Version::Dead { seq: 9 };

/// The same once number 0 was claimed.
const CLAIMED: [Version; 5] = [NINTH, NUMBER_1, NUMBER_2, LAST, NONE];

const FOURTH: Version = Version::Dead { seq: 4 };

/// The same once a number was claimed for which there is nothing.
const ALL_CLAIMED: [Version; 5] = [NINTH, NUMBER_1, NUMBER_2, LAST, FOURTH];

/// Number 3 of A at the last sequence number.
const LAST_OF_3: Claim = Claim {
    system: 1,
    number: 3,
    seq: u32::MAX,
};

/// A number of A for which it has nothing.
const FOURTH_OF_7: Claim = Claim {
    system: 1,
    number: 7,
    seq: 4,
};

/// Asserts what A holds.
fn holds<B: Bridge>(rt: &impl Abort, a: &Serving<B>, want: &[Version; 5]) {
    are_equal(rt, &a.versions(), want);
}

/// Asserts what A holds that was made elsewhere.
fn made_holds<B: Bridge>(rt: &impl Abort, a: &Made<B>, want: &[Version; 5]) {
    are_equal(rt, &a.versions(), want);
}

/// A bridge becomes A with so many services, and is Up.
fn up<B: Bridge>(rt: &impl Abort, alloc: Global, blank: B, count: u16) -> Serving<B>
    requires { (B.shown blank).blank ≡ true }
{
    let mut a = Serving::new(rt, alloc, blank, count);
    a.hear(rt, HELLO);
    a
}

/// A number of A is spent.
fn spend<B: Bridge>(rt: &impl Abort, alloc: Global, a: &mut Serving<B>) {
    holds(rt, a, &SAID);
    a.hear(rt, &dead(rt, alloc, LAST_OF_3));
    holds(rt, a, &SPENT);
    a.set_metric(rt, 77);
    holds(rt, a, &SPENT);
}

/// Numbers of A that is spent are claimed.
fn hear_claims<B: Bridge>(rt: &impl Abort, alloc: Global, a: &mut Made<B>) {
    made_holds(rt, a, &SPENT);
    a.hear(rt, OLD_LSP);
    made_holds(rt, a, &CLAIMED);
    a.hear(rt, &dead(rt, alloc, FOURTH_OF_7));
    made_holds(rt, a, &ALL_CLAIMED);
}

/// Asserts that a bridge of which a number is spent renews nothing and purges nothing.
fn renews_nothing<B: Bridge>(rt: &impl Abort, alloc: Global, a: B)
    requires { (B.shown a).blank ≡ true }
{
    let mut a = up(rt, alloc, a, 181);
    spend(rt, alloc, &mut a);
    let mut a = a.without_last(rt);
    hear_claims(rt, alloc, &mut a);
}

#[test]
fn a_number_is_spent_while_number_0_lives(rt: HostRuntime) {
    renews_nothing(&rt, rt.alloc(), boxed!(rt));
    renews_nothing(&rt, rt.alloc(), SwiftBridge::blank(rt.alloc()));
}

/// What A with 60 services holds once it is Up.
const SAID_BY_ONE: [Version; 5] = [NUMBER_0, NONE, NONE, NONE, NONE];

const EIGHTH: Version = Version::Dead { seq: 8 };

/// The same once number 1 was claimed.
const EIGHTH_OF_1: [Version; 5] = [NUMBER_0, EIGHTH, NONE, NONE, NONE];

const SIXTY_FIRST: Version = Version::Live {
    seq: 9,
    sum: 0xc96d,
};

/// The same with one service more.
const ONE_MORE: [Version; 5] = [NUMBER_0, SIXTY_FIRST, NONE, NONE, NONE];

/// The same without it.
const ONE_LESS: [Version; 5] = [NUMBER_0, NINTH, NONE, NONE, NONE];

/// What makes of the old LSP of A one of its number 1 at the sequence number 8, with its checksum.
const TO_EIGHTH_OF_1: [(usize, u8); 4] = [(36, 1), (40, 8), (41, 0xc8), (42, 0x2a)];

/// Asserts that a number for which there is nothing is dead where it is claimed, and goes on from there.
fn goes_on<B: Bridge>(rt: &impl Abort, alloc: Global, a: B)
    requires { (B.shown a).blank ≡ true }
{
    let mut a = up(rt, alloc, a, 60);
    holds(rt, &a, &SAID_BY_ONE);
    a.hear(rt, &changed(rt, alloc, OLD_LSP, &TO_EIGHTH_OF_1));
    holds(rt, &a, &EIGHTH_OF_1);
    let a = a.with_next(rt);
    holds(rt, &a, &ONE_MORE);
    made_holds(rt, &a.without_last(rt), &ONE_LESS);
}

#[test]
fn a_number_without_a_fragment_is_claimed(rt: HostRuntime) {
    goes_on(&rt, rt.alloc(), boxed!(rt));
    goes_on(&rt, rt.alloc(), SwiftBridge::blank(rt.alloc()));
}

/// A, whose one service is that of the I-SID 210.
const OF_A: Served = Served {
    last: 1,
    base: 209,
    count: 1,
    life: 0,
};

/// B, whose number 2 says the services of the I-SIDs 201 to 230.
const OF_B: Served = Served {
    last: 2,
    base: 80,
    count: 150,
    life: 0,
};

/// The same in a life before which its own LSPs had the sequence number 399.
const OF_B_ANEW: Served = Served {
    last: 2,
    base: 80,
    count: 150,
    life: 399,
};

/// Number 0 of B, purged.
const PURGE_OF_0: Claim = Claim {
    system: 2,
    number: 0,
    seq: 400,
};

/// Number 2 of B, purged.
const PURGE_OF_2: Claim = Claim {
    system: 2,
    number: 2,
    seq: 9,
};

/// Whether a frame is a hello.
fn is_hello(frame: &[u8]) -> bool {
    frame.get(21) == Some(&0x11)
}

/// Whether a frame is B's LSP of a number.
fn is_lsp(frame: &[u8], number: u8) -> bool {
    frame.get(21) == Some(&0x12) && frame.get(34) == Some(&2) && frame.get(36) == Some(&number)
}

/// A bridge hears the hellos of what was sent.
fn hear_hellos<B: Bridge>(rt: &impl Abort, to: &mut Made<B>, sent: &Outbox) {
    for frame in sent.wire.as_slice() {
        if is_hello(frame.1.as_slice()) {
            to.hear(rt, frame.1.as_slice());
        }
    }
}

/// A bridge hears B's LSP of a number of what was sent.
fn hear_lsp<B: Bridge>(rt: &impl Abort, to: &mut Made<B>, sent: &Outbox, number: u8) {
    for frame in sent.wire.as_slice() {
        if is_lsp(frame.1.as_slice(), number) {
            to.hear(rt, frame.1.as_slice());
        }
    }
}

/// What B sends once it has heard A. A hears the hellos of it.
fn said_to<B: Bridge>(rt: &impl Abort, a: &mut Made<B>, b: &mut Made<B>) -> Outbox {
    let first = b.tick(rt);
    hear_hellos(rt, a, &first);
    let answer = a.tick(rt);
    hear_hellos(rt, b, &answer);
    let second = b.tick(rt);
    hear_hellos(rt, a, &second);
    second
}

/// Asserts how many unicast and group rows A has.
fn check_rows<B: Bridge>(rt: &impl Abort, a: &Made<B>, rows: (usize, usize)) {
    let tables = a.bridge.tables().expect(rt, "out of memory");
    are_equal(rt, &(tables.unicast.len(), tables.group.len()), &rows);
}

/// Asserts the rows of A as it hears two LSPs of B, and then that number 0 is purged.
fn reads_with_number_0<B: Bridge>(rt: &impl Abort, alloc: Global, a: &mut Made<B>, said: &Outbox) {
    hear_lsp(rt, a, said, 2);
    check_rows(rt, a, (0, 0));
    hear_lsp(rt, a, said, 0);
    check_rows(rt, a, (1, 1));
    a.hear(rt, &dead(rt, alloc, PURGE_OF_0));
    check_rows(rt, a, (0, 0));
}

/// Asserts the rows of A as it hears number 0 of B anew, and then that number 2 is purged.
fn reads_it_again<B: Bridge>(rt: &impl Abort, alloc: Global, a: &mut Made<B>, said: &Outbox) {
    hear_lsp(rt, a, said, 0);
    are_equal(rt, &a.held_at(1).0.number(), &401);
    check_rows(rt, a, (1, 1));
    a.hear(rt, &dead(rt, alloc, PURGE_OF_2));
    check_rows(rt, a, (1, 0));
}

/// Asserts that fragments are read once number 0 is live.
fn reads_fragments<B: Bridge>(rt: &impl Abort, alloc: Global, a: B, b: B, anew: B)
    requires a { (B.shown a).blank ≡ true }
    requires b { (B.shown b).blank ≡ true }
    requires anew { (B.shown anew).blank ≡ true }
{
    let mut a = Made::serving(rt, alloc, a, OF_A);
    let mut b = Made::serving(rt, alloc, b, OF_B);
    let said = said_to(rt, &mut a, &mut b);
    reads_with_number_0(rt, alloc, &mut a, &said);
    let mut b = Made::serving(rt, alloc, anew, OF_B_ANEW);
    let said = said_to(rt, &mut a, &mut b);
    reads_it_again(rt, alloc, &mut a, &said);
}

#[test]
fn a_fragment_is_read_once_number_0_is_live(rt: HostRuntime) {
    reads_fragments(&rt, rt.alloc(), boxed!(rt), boxed!(rt), boxed!(rt));
    let blank = SwiftBridge::blank(rt.alloc());
    let other = SwiftBridge::blank(rt.alloc());
    reads_fragments(
        &rt,
        rt.alloc(),
        SwiftBridge::blank(rt.alloc()),
        blank,
        other,
    );
}
