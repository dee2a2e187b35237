//! A box that fails in the middle of a run.
use super::failing_box::FailingBox;
use super::{TWO, are_equal, sink, source, text_of, words_of};
use crate::{Status, play_on};

/// Behind TWO: hellos up to the second of A.
const HELLOS: &str = "tick A
deliver L1 ab
adj B
tick B
deliver L1 ba
adj A
tick A
adj A
";

/// What is answered before the second tick of A.
const HELLOS_ANSWER: &str = "adj B 1
p 1 init 020000000001 1 3 -
adj A 1
p 1 up 020000000002 1 3 due
";

#[test]
fn a_box_without_memory_ends_a_run(rt: HostRuntime) {
    let alloc = rt.alloc();
    let (first, second) = (FailingBox::blank(alloc), FailingBox::blank(alloc));
    let rack = vec![in alloc; first, second].expect(&rt, "out of memory");
    let script = format!(in alloc; "{TWO}{HELLOS}").expect(&rt, "out of memory");
    let words = words_of(&rt, alloc, "run");
    let mut source = source(&rt, alloc, script.as_str(), 50, 0);
    let mut sink = sink(&rt, alloc, 50, 0);
    let status = play_on(alloc, &words, rack, &mut source, &mut sink);
    are_equal(&rt, &status, &Status::NoMemory);
    are_equal(&rt, &text_of(&rt, &sink), &HELLOS_ANSWER);
}
