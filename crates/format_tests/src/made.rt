//! Tests of `scenario_maker`.
use crate::fixtures::{are_equal, shown};
use scenario::{Command, LineError, parse_line};
use scenario_maker::make;
use std::alloc::Global;
use std::process::Abort;

// The first lines of the script for four bridges.
const FIRST: &str = "\
vid 10 1
vid 20 2
bridge b1 32768 020000000001 00001 3
bridge b2 32768 020000000002 00002 3
bridge b3 32768 020000000003 00003 3
bridge b4 32768 020000000004 00004 3
link r1 b1 1 b2 2 11
link r2 b2 1 b3 2 12
link r3 b3 1 b4 2 10
link r4 b4 1 b1 2 11
link c1 b1 3 b3 3 25";

// Places of the script for 24 bridges, counted from 1, and the lines there: the last bridges and their links, which
// close the ring; the chords; services of both base VIDs and the members of the first and the last one; what happens.
const OF_24: &str = "\
26 bridge b24 32768 020000000018 00018 3
49 link r23 b23 1 b24 2 12
50 link r24 b24 1 b1 2 10
51 link c1 b1 3 b13 3 25
52 link c4 b4 3 b16 3 25
54 link c10 b10 3 b22 3 25
55 isid 1001 10
78 isid 1024 20
79 attach b1 1 1001
80 attach b2 2 1001
81 attach b13 3 1001
148 attach b24 1 1024
149 attach b1 2 1024
150 attach b12 3 1024
151 round 112
152 show b1
153 wiring b1
199 wiring b24
200 frame b1 1 ffffffffffff0a00000000010800
201 drain 100000
246 frame b24 1 ffffffffffff0a00000000180800
247 drain 100000
248 down r1
249 round 112
298 restart b2
299 round 112
347 wiring b24
348 frame b1 1 ffffffffffff0a00000000010800
395 drain 100000";

/// What a line gives, under no contract: the tests ask for nothing but what it is.
fn parsed(alloc: Global, line: &str) -> Result<Option<Command>, LineError> {
    parse_line(alloc, line.as_bytes())
}

/// That the command at this place, counted from 1, is the one that the line spells.
fn check_line(rt: &impl Abort, alloc: Global, script: &[Command], place: usize, line: &str) {
    let command = parsed(alloc, line).expect(rt, line).expect(rt, line);
    let found = script.get(place.wrapping_sub(1)).expect(rt, line);
    let (found, wanted) = (shown(rt, alloc, found), shown(rt, alloc, &command));
    are_equal(rt, &(place, found.as_str()), &(place, wanted.as_str()));
}

#[test]
fn the_first_lines_are_those_of_four_bridges(rt: HostRuntime) {
    let script = make(rt.alloc(), 4).expect(&rt, "out of memory");
    for (place, line) in FIRST.lines().enumerate() {
        check_line(
            &rt,
            rt.alloc(),
            script.as_slice(),
            place.wrapping_add(1),
            line,
        );
    }
}

#[test]
fn the_lines_for_24_bridges_are_at_their_places(rt: HostRuntime) {
    let script = make(rt.alloc(), 24).expect(&rt, "out of memory");
    for row in OF_24.lines() {
        let (place, line) = row.split_once(' ').expect(&rt, "a row");
        let place = place.parse().expect(&rt, "a place");
        check_line(&rt, rt.alloc(), script.as_slice(), place, line);
    }
}

fn check_count(rt: &impl Abort, script: &[Command], count: usize) {
    are_equal(rt, &script.len(), &count);
}

#[test]
fn scripts_have_so_many_commands(rt: HostRuntime) {
    let least = make(rt.alloc(), 4).expect(&rt, "out of memory");
    check_count(&rt, least.as_slice(), 72);
    let some = make(rt.alloc(), 24).expect(&rt, "out of memory");
    check_count(&rt, some.as_slice(), 395);
    let most = make(rt.alloc(), 96).expect(&rt, "out of memory");
    check_count(&rt, most.as_slice(), 1559);
}
