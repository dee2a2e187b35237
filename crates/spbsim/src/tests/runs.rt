//! The program as it is called, once in each form: what comes of whole scripts otherwise, stands in the crate `cases`.
use super::{are_equal, check_call, ending, sink, source, text_of, words_of};
use crate::{Status, usage_line};
use spb_run::Refusal;
use std::alloc::Global;
use std::process::Abort;

/// The script `examples/point-to-point.spb`.
const POINT_TO_POINT: &str = "# Two bridges with one link between them: A reaches B by its port 1.
vid 10 1
bridge A 32768 020000000001 00001 1
bridge B 32768 020000000002 00002 1
link L1 A 1 B 1 10
wiring A
";

/// What stands beside it.
const POINT_TO_POINT_OUT: &str = "wiring A 1 0
u 10 020000000002 1
";

#[test]
fn a_script_is_played(rt: HostRuntime) {
    let alloc = rt.alloc();
    let source = source(&rt, alloc, POINT_TO_POINT, 40, 0);
    let sink = sink(&rt, alloc, 8, 0);
    check_call(
        &rt,
        alloc,
        "run",
        source,
        sink,
        Status::Done,
        POINT_TO_POINT_OUT,
    );
}

/// Asserts how many lines `make N` writes.
fn check_made(rt: &impl Abort, alloc: Global, words: &str, count: usize) {
    let words = words_of(rt, alloc, words);
    // A source that fails at once isn't asked.
    let mut source = source(rt, alloc, POINT_TO_POINT, 40, 1);
    let mut sink = sink(rt, alloc, 4096, 0);
    let status = ending(rt, alloc, &words, &mut source, &mut sink);
    are_equal(rt, &status, &Status::Done);
    are_equal(rt, &text_of(rt, &sink).lines().count(), &count);
}

#[test]
fn made_scripts_have_so_many_lines(rt: HostRuntime) {
    check_made(&rt, rt.alloc(), "make 9", 153);
    check_made(&rt, rt.alloc(), "make 10", 169);
    check_made(&rt, rt.alloc(), "make 96", 1559);
}

#[test]
fn a_made_script_is_played_and_counted(rt: HostRuntime) {
    let alloc = rt.alloc();
    // A source that fails at once isn't asked.
    let source = source(&rt, alloc, POINT_TO_POINT, 40, 1);
    let sink = sink(&rt, alloc, 100, 0);
    let counted = "try 4 lines 72 shows 12 same 12 outs 16\n";
    check_call(&rt, alloc, "try 4", source, sink, Status::Done, counted);
}

fn check_status(rt: &impl Abort, status: Status, number: u8, text: Option<&str>) {
    are_equal(rt, &status.number(), &number);
    are_equal(rt, &status.message(), &text);
}

#[test]
fn each_status_has_its_number_and_its_message(rt: HostRuntime) {
    let refused = Status::Refused(1, Refusal::Words(1));
    let no_memory = "spbsim: out of memory";
    let no_read = "spbsim: standard input can't be read";
    let no_write = "spbsim: standard output can't be written";
    let too_long =
        "spbsim: the script has more than 8388608 bytes or 100000 lines, or the capture 67108864 bytes";
    check_status(&rt, Status::Done, 0, None);
    check_status(&rt, refused, 1, None);
    check_status(&rt, Status::Usage, 2, None);
    check_status(&rt, Status::NoMemory, 3, Some(no_memory));
    check_status(&rt, Status::ReadFault, 4, Some(no_read));
    check_status(&rt, Status::WriteFault, 5, Some(no_write));
    check_status(&rt, Status::TooLong, 6, Some(too_long));
}

#[test]
fn the_usage_names_each_form(rt: HostRuntime) {
    let line = usage_line(rt.alloc()).expect(&rt, "out of memory");
    let text = "Usage: spbsim <run [--kind K] | make N | try N [--kind K] | capture | list>";
    are_equal(&rt, &line.as_str(), &text);
}
