//! The boxes of a network: which are taken, and what they answer.
ghost use Rattle.std.specs.Prelude.{◌≡◌, ℕ, [], OnOk};
ghost use Rattle.bridge_api.specs.Config.{IsWhole};
ghost use Rattle.spb_network.specs.Network.{state_of};
ghost use Rattle.network_model.specs.State.{IsPortAt};
ghost use Rattle.script_run.specs.Replying.{IsAlive};

use super::asking_box::AskingBox;
use super::{TWO, are_equal, check_call, sink, source, text_of, words_of};
use crate::{Status, play_on};
use adjacency::Adjacency;
use bridge_api::{Bridge, BridgeConfig, first_life};
use plain_bridge::PlainBridge;
use scenario::Command;
use spb_network::{ApplyError, KindRule, NetworkOf, Reason};
use spb_run::Refusal;
use spb_types::{BridgeId, LspId, Mac, Name, Seq, SourceId, SystemId};
use std::alloc::Global;
use std::process::Abort;
use swift_bridge::SwiftBridge;

/// Asserts that a script is played on the network of a rack until that has no blank box for the line of this number.
fn check_spent<B: Bridge>(
    rt: &impl Abort,
    alloc: Global,
    words: &str,
    rack: Vec<B>,
    script: &str,
    number: u32,
) {
    let words = words_of(rt, alloc, words);
    let mut source = source(rt, alloc, script, 100, 0);
    let mut sink = sink(rt, alloc, 100, 0);
    let status = play_on(alloc, &words, rack, &mut source, &mut sink);
    let why = Refusal::Command(Reason::RackSpent);
    are_equal(rt, &status, &Status::Refused(number, why));
    let text = format!(in alloc; "error {number} 12 RackSpent\n").expect(rt, "out of memory");
    are_equal(rt, &text_of(rt, &sink), &text.as_str());
}

/// TWO, and then B restarts twice.
const RESTARTED: &str = "bridge A 32768 020000000001 00001 1
bridge B 32768 020000000002 00002 1
link L1 A 1 B 1 10
restart B
restart B
";

/// Asserts that the program's own rack has 256 boxes of the kind that these words choose: a bridge takes one, and each
/// restart of it another.
fn check_rack(rt: &impl Abort, alloc: Global, words: &str) {
    let mut script = String::new(alloc);
    script
        .push_str("bridge A 32768 020000000001 00001 1\n")
        .expect(rt, "out of memory");
    for _ in 0..256 {
        script.push_str("restart A\n").expect(rt, "out of memory");
    }
    let source = source(rt, alloc, script.as_str(), 8192, 0);
    let sink = sink(rt, alloc, 100, 0);
    let why = Refusal::Command(Reason::RackSpent);
    let status = Status::Refused(257, why);
    check_call(
        rt,
        alloc,
        words,
        source,
        sink,
        status,
        "error 257 12 RackSpent\n",
    );
}

#[test]
fn the_program_has_256_boxes_of_each_kind(rt: HostRuntime) {
    let alloc = rt.alloc();
    check_rack(&rt, alloc, "run");
    check_rack(&rt, alloc, "run --kind swift");
}

/// A blank box.
pub(super) fn blank(rt: &impl Abort, alloc: Global) -> Box<PlainBridge> {
    Box::new(alloc, PlainBridge::blank(alloc)).expect(rt, "out of memory")
}

/// Puts a box to a rack.
pub(super) fn put<B: Bridge>(rt: &impl Abort, rack: &mut Vec<B>, bridge: B) {
    rack.push(bridge).expect(rt, "out of memory");
}

/// Asserts that of a rack of so many blank boxes.
fn check_blank_spent(
    rt: &impl Abort,
    alloc: Global,
    words: &str,
    boxes: u32,
    script: &str,
    number: u32,
) {
    let mut rack: Vec<Box<dyn Bridge>> = Vec::new(alloc);
    for _ in 0..boxes {
        put(rt, &mut rack, blank(rt, alloc));
    }
    check_spent(rt, alloc, words, rack, script, number);
}

#[test]
fn each_bridge_and_each_restart_takes_a_box_of_its_kind(rt: HostRuntime) {
    check_blank_spent(&rt, rt.alloc(), "run", 1, TWO, 2);
    check_blank_spent(&rt, rt.alloc(), "run --kind swift", 2, TWO, 1);
    check_blank_spent(&rt, rt.alloc(), "run --kind mixed", 2, TWO, 2);
    check_blank_spent(&rt, rt.alloc(), "run", 3, RESTARTED, 5);
}

/// What a bridge without ports is configured with.
fn portless(rt: &impl Abort, alloc: Global) -> BridgeConfig
    ensures { IsWhole result }
{
    BridgeConfig {
        id: BridgeId {
            priority: 32768,
            system: SystemId {
                mac: Mac {
                    bytes: [2, 0, 0, 0, 0, 9],
                },
            },
        },
        source: SourceId { value: 9 },
        ports: 0,
        vids: Seq::new(alloc),
        metrics: Seq::new(alloc),
        attached: Seq::new(alloc),
        last: first_life(alloc).expect(rt, "out of memory"),
    }
}

/// A box that is not blank.
fn used(rt: &impl Abort, alloc: Global) -> Box<PlainBridge> {
    let mut used = PlainBridge::blank(alloc);
    used.configure(&portless(rt, alloc))
        .expect(rt, "out of memory");
    Box::new(alloc, used).expect(rt, "out of memory")
}

#[test]
fn a_box_that_is_not_blank_is_never_taken(rt: HostRuntime) {
    let alloc = rt.alloc();
    let mut rack: Vec<Box<dyn Bridge>> = Vec::new(alloc);
    put(&rt, &mut rack, blank(&rt, alloc));
    put(&rt, &mut rack, used(&rt, alloc));
    check_spent(&rt, alloc, "run", rack, TWO, 2);
}

/// The address of the bridge of a number.
fn address(number: u8) -> Mac {
    Mac {
        bytes: [2, 0, 0, 0, 0, number],
    }
}

/// Declares two bridges of one port each, and a link between them.
pub(super) fn declare_two<B: Bridge>(
    network: &mut NetworkOf<B>,
    a: Name,
    b: Name,
    link: Name,
) -> Result<(), ApplyError>
    requires alive { IsAlive B.shown network.old }
    requires new { (state_of B.shown network.old).world.bridges ≡ [] }
    ensures alive { OnOk result (IsAlive B.shown network.new) }
    ensures ports { OnOk result ((i : ℕ) → IsPortAt (state_of B.shown network.new).views i 1) }
{
    let _first = network.apply(&Command::Bridge {
        name: a,
        priority: 32768,
        system: address(1),
        source: SourceId { value: 1 },
        ports: 1,
    })?;
    let _second = network.apply(&Command::Bridge {
        name: b,
        priority: 32768,
        system: address(2),
        source: SourceId { value: 2 },
        ports: 1,
    })?;
    let _third = network.apply(&Command::Link {
        name: link,
        a,
        port_a: 1,
        b,
        port_b: 1,
        cost: 10,
    })?;
    Ok(())
}

/// What the box of the bridge at a place answers: the adjacency at its first port, and the first LSP that it holds.
fn asked<B: Bridge>(network: &NetworkOf<B>, place: usize) -> Option<(Adjacency, LspId)>
    requires alive { IsAlive B.shown network.now }
    requires port { IsPortAt (state_of B.shown network.now).views place 1 }
{
    match network.boxes().get(place) {
        None => None,
        Some(bridge) => {
            let held = bridge.entry(0)?;
            Some((bridge.adjacent(1), held.id))
        }
    }
}

/// The first LSP of the bridge of a number.
fn own_id(number: u8) -> LspId {
    LspId {
        system: SystemId {
            mac: address(number),
        },
        pseudonode: 0,
        number: 0,
    }
}

/// A name of a command.
pub(super) fn name(rt: &impl Abort, word: &[u8]) -> Name {
    Name::new(word).expect(rt, "no name")
}

/// Asserts what the boxes of two bridges answer, which are declared on the network of a rack after its rule was set.
fn check_boxes<B: Bridge>(rt: &impl Abort, alloc: Global, rack: Vec<B>) {
    let mut network = NetworkOf::new(alloc, rack);
    network.set_rule(KindRule::Plain);
    let (a, b, link) = (name(rt, b"A"), name(rt, b"B"), name(rt, b"L1"));
    declare_two(&mut network, a, b, link).expect(rt, "refused");
    let down = Adjacency::down(true);
    are_equal(rt, &asked(&network, 0), &Some((down, own_id(1))));
    are_equal(rt, &asked(&network, 1), &Some((down, own_id(2))));
    are_equal(rt, &asked(&network, 2), &None);
}

#[test]
fn the_boxes_of_a_network_can_be_asked(rt: HostRuntime) {
    let mut rack: Vec<Box<dyn Bridge>> = Vec::new(rt.alloc());
    put(&rt, &mut rack, blank(&rt, rt.alloc()));
    put(&rt, &mut rack, blank(&rt, rt.alloc()));
    check_boxes(&rt, rt.alloc(), rack);
}

/// A blank box of the other kind.
fn swift(rt: &impl Abort, alloc: Global) -> Box<SwiftBridge> {
    Box::new(alloc, SwiftBridge::blank(alloc)).expect(rt, "out of memory")
}

/// The script `examples/two-services.spb`.
const TWO_SERVICES: &str =
    "# Four bridges in a ring, and two services, each in a base VID of its own: which ports lead to their members?
vid 10 1
vid 20 2
bridge north 32768 020000000001 00001 2
bridge east 32768 020000000002 00002 2
bridge south 32768 020000000003 00003 2
bridge west 32768 020000000004 00004 2
link ne north 1 east 2 10
link es east 1 south 2 10
link sw south 1 west 2 10
link wn west 1 north 2 10
isid 100 10
isid 200 20
attach north 1 100
attach south 1 100
attach north 2 200
attach east 1 200
attach south 2 200
round 40
# From north to south service 100 goes over east, and service 200 over west.
show north
show east
path north south 10
path north south 20
# East leaves service 200, and the link between north and east fails.
detach east 1
down ne
wiring north
round 40
show north
path north south 10
path south north 10
";

/// What stands beside it.
const TWO_SERVICES_OUT: &str = "show north quiet 6 2
u 10 020000000002 1
u 10 020000000003 1
u 10 020000000004 2
u 20 020000000002 1
u 20 020000000003 2
u 20 020000000004 2
g 10 030001000064 1
g 20 0300010000c8 1,2
show east quiet 6 3
u 10 020000000001 2
u 10 020000000003 1
u 10 020000000004 2
u 20 020000000001 2
u 20 020000000003 1
u 20 020000000004 1
g 10 030001000064 1
g 10 030003000064 2
g 20 0300020000c8 1,2
path north south 10 20 2 north east south
path north south 20 20 2 north west south
wiring north 6 2
u 10 020000000002 2
u 10 020000000003 2
u 10 020000000004 2
u 20 020000000002 2
u 20 020000000003 2
u 20 020000000004 2
g 10 030001000064 2
g 20 0300010000c8 2
show north quiet 6 2
u 10 020000000002 2
u 10 020000000003 2
u 10 020000000004 2
u 20 020000000002 2
u 20 020000000003 2
u 20 020000000004 2
g 10 030001000064 2
g 20 0300010000c8 2
path north south 10 20 2 north west south
path south north 10 20 2 south west north
";

/// Asserts that TWO_SERVICES is answered for these words by boxes of a rack.
fn check_services<B: Bridge>(rt: &impl Abort, alloc: Global, words: &str, rack: Vec<B>) {
    let words = words_of(rt, alloc, words);
    let mut source = source(rt, alloc, TWO_SERVICES, 100, 0);
    let mut sink = sink(rt, alloc, 100, 0);
    let status = play_on(alloc, &words, rack, &mut source, &mut sink);
    are_equal(rt, &status, &Status::Done);
    are_equal(rt, &text_of(rt, &sink), &TWO_SERVICES_OUT);
}

/// Asserts that of boxes which are asked for each row of their tables, four of each kind.
fn check_rows(rt: &impl Abort, alloc: Global, words: &str) {
    let mut rack: Vec<AskingBox<Box<dyn Bridge>>> = Vec::new(alloc);
    for _ in 0..4 {
        let plain: Box<dyn Bridge> = blank(rt, alloc);
        put(rt, &mut rack, AskingBox::new(plain));
        let other: Box<dyn Bridge> = swift(rt, alloc);
        put(rt, &mut rack, AskingBox::new(other));
    }
    check_services(rt, alloc, words, rack);
}

#[test]
fn boxes_of_each_kind_answer_each_row_of_their_tables(rt: HostRuntime) {
    check_rows(&rt, rt.alloc(), "run");
    check_rows(&rt, rt.alloc(), "run --kind swift");
    check_rows(&rt, rt.alloc(), "run --kind mixed");
}
