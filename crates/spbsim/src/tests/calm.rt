//! Rounds that pass in calm: boxes that pass them at once answer as boxes of which each second is played.
use super::asking_box::AskingBox;
use super::boxes::{blank, put};
use super::{are_equal, sink, source, text_of, words_of};
use crate::{Status, play_on};
use bridge_api::Bridge;
use std::alloc::Global;
use std::process::Abort;

/// Two bridges through many quiet rounds: their LSPs are originated anew, a frame is on its way, a neighbour is silent for
/// two seconds, the other's LSPs run out while the link is down, and one bridge restarts.
const LIVES: &str = "vid 10 1
bridge A 32768 020000000001 00001 1
bridge B 32768 020000000002 00002 1
link L1 A 1 B 1 10
isid 100 10
attach A 1 100
attach B 1 100
round 895
db A
round 105
db A
adj A
frame A 1 ffffffffffff0a00000000010800
round 30
tick A
tick A
round 1
state
round 1
state
down L1
round 1250
db B
up L1
round 700
db A
restart B
round 2000
show A
db B
adj B
drops A
";

/// What is written of LIVES by boxes of a rack.
fn lives<B: Bridge>(rt: &impl Abort, alloc: Global, rack: Vec<B>) -> String {
    let words = words_of(rt, alloc, "run");
    let mut source = source(rt, alloc, LIVES, 100, 0);
    let mut sink = sink(rt, alloc, 100, 0);
    let status = play_on(alloc, &words, rack, &mut source, &mut sink);
    are_equal(rt, &status, &Status::Done);
    String::from_str(alloc, text_of(rt, &sink)).expect(rt, "out of memory")
}

#[test]
fn rounds_that_pass_at_once_answer_as_those_that_are_played(rt: HostRuntime) {
    let alloc = rt.alloc();
    let mut leaping: Vec<Box<dyn Bridge>> = Vec::new(alloc);
    let mut playing: Vec<AskingBox<Box<dyn Bridge>>> = Vec::new(alloc);
    for _ in 0..3 {
        put(&rt, &mut leaping, blank(&rt, alloc));
        let bridge: Box<dyn Bridge> = blank(&rt, alloc);
        put(&rt, &mut playing, AskingBox::new(bridge));
    }
    let (leapt, played) = (lives(&rt, alloc, leaping), lives(&rt, alloc, playing));
    are_equal(&rt, &leapt, &played);
}
