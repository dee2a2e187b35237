//! Tests of the extras of `scenario`.
use crate::fixtures::{are_equal, is_shown, shown};
use scenario::{Extra, LineError, parse_extra, parse_line};
use std::alloc::Global;
use std::process::Abort;

// Lines and the extras that they spell: each form in its shortest spelling, and then with tabs, more blanks, leading
// zeros, keywords as names and the greatest values.
const SPELLED: &str = "\
whatif down L|WhatIf(Down(L))
\twhatif\t  down down |WhatIf(Down(down))
whatif up L2|WhatIf(Up(L2))
whatif  up\twhatif\t|WhatIf(Up(whatif))
whatif metric L a 5|WhatIf(Metric { link: L, side: A, metric: 5 })
 whatif metric  L3\tb 9999999999 |WhatIf(Metric { link: L3, side: B, metric: 9999999999 })
proof A B 10|Proof { from: A, to: B, vid: 10 }
\tproof proof  check\t0000004094 |Proof { from: proof, to: check, vid: 4094 }
check A B 10 -|Check { from: A, to: B, vid: 10, entries: Seq { items: [Start] } }
check A D 10 - A A .|Check { from: A, to: D, vid: 10, entries: Seq { items: [Start, Before(A), Before(A), Unreached] } }
 check\tA A  010 . . a-_9\t- |Check { from: A, to: A, vid: 10, entries: Seq { items: [Unreached, Unreached, Before(a-_9), Start] } }
settle|Settle
 settle\t |Settle
check check check 1 check proof|Check { from: check, to: check, vid: 1, entries: Seq { items: [Before(check), Before(proof)] } }";

// Lines outside the grammar, each behind the column of the first word that doesn't fit.
const REFUSED: &str = "\
7|whatif
8|whatif 
8|whatif tick A
8|whatif whatif down L1
8|whatif Down L1
8|whatif #
12|whatif down
13|whatif down 1
16|whatif down L1 x
10|whatif up
11|whatif up 1
14|whatif up L1 x
14|whatif metric
15|whatif metric 1 a 5
17|whatif metric L1
18|whatif metric L1 c 5
19|whatif metric L1 a
20|whatif metric L1 a x
22|whatif metric L1 a 5 x
6|proof
7|proof 1 B 10
8|proof A
9|proof A 1 10
10|proof A B
11|proof A B x
11|proof A B 12345678901
14|proof A B 10 C
6|check
7|check 1 B 10 -
8|check A
9|check A 1 10 -
10|check A B
11|check A B x -
13|check A B 10
14|check A B 10 
14|check A B 10 -- A A A
14|check A B 10 9 A A A
16|check A B 10 - ..
20|check A B 10 - A Z ?
16|check A B 10 - abcdefghijklmnopq
16|check A B 10 - # A
8|settle x
9|settle  #";

// Lines that are no extras: what `parse_line` says of them isn't touched.
const OTHERS: &str = "\

 
\t \t
#
# whatif down L1
#whatif down L1
#settle
Settle
settles
settl
WhatIf down L1
what if down L1
whatifs down L1
PROOF A B 10
proo A B 10
proofs A B 10
checks A B 10 -
chec A B 10 -
state
path proof check 10
 attach A 1 100 send
down L1
frobnicate whatif down L1";

/// What a line gives as an extra, under no contract: the tests ask for nothing but what it is.
fn parsed(alloc: Global, line: &[u8]) -> Result<Option<Extra>, LineError> {
    parse_extra(alloc, line)
}

/// The row is a line and the extra that it spells.
fn check_spelled(rt: &impl Abort, alloc: Global, row: &str) {
    let (line, expected) = row.split_once('|').expect(rt, "a row");
    let extra = parsed(alloc, line.as_bytes())
        .expect(rt, row)
        .expect(rt, row);
    is_shown(rt, alloc, &extra, expected);
}

#[test]
fn spelled_lines_give_their_extras(rt: HostRuntime) {
    for row in SPELLED.lines() {
        check_spelled(&rt, rt.alloc(), row);
    }
}

/// The column where a line is refused; 0 stands for a line that is not.
fn column_of(alloc: Global, line: &[u8]) -> usize {
    match parsed(alloc, line) {
        Err(LineError::Words(column)) => column,
        _ => 0,
    }
}

/// The row is a column and a line that is refused there.
fn check_refused(rt: &impl Abort, alloc: Global, row: &str) {
    let (column, line) = row.split_once('|').expect(rt, "a row");
    let found = shown(rt, alloc, &column_of(alloc, line.as_bytes()));
    are_equal(rt, &(found.as_str(), line), &(column, line));
}

#[test]
fn extras_that_do_not_fit_are_refused_at_their_column(rt: HostRuntime) {
    for row in REFUSED.lines() {
        check_refused(&rt, rt.alloc(), row);
    }
}

/// A carriage return that ends a line is part of its last word.
#[test]
fn a_return_ends_no_word_of_an_extra(rt: HostRuntime) {
    check_refused(&rt, rt.alloc(), "11|proof A B 10\r");
    check_refused(&rt, rt.alloc(), "16|check A B 10 - A\r");
    check_refused(&rt, rt.alloc(), "8|settle \r");
    check_other(&rt, rt.alloc(), "whatif\r");
}

/// That the line is no extra.
fn check_other(rt: &impl Abort, alloc: Global, line: &str) {
    let extra = parsed(alloc, line.as_bytes()).expect(rt, line);
    are_equal(rt, &(line, extra.is_none()), &(line, true));
}

#[test]
fn other_lines_are_no_extras(rt: HostRuntime) {
    for line in OTHERS.lines() {
        check_other(&rt, rt.alloc(), line);
    }
}

/// That the line of an extra is none of the commands: it is refused at its first word, in column 1.
fn check_no_command(rt: &impl Abort, alloc: Global, line: &str) {
    let column = match parse_line(alloc, line.as_bytes()) {
        Err(LineError::Words(column)) => column,
        _ => 0,
    };
    are_equal(rt, &(line, column), &(line, 1));
}

#[test]
fn extras_are_no_commands(rt: HostRuntime) {
    check_no_command(&rt, rt.alloc(), "whatif down L1");
    check_no_command(&rt, rt.alloc(), "proof A B 10");
    check_no_command(&rt, rt.alloc(), "check A B 10 - A");
    check_no_command(&rt, rt.alloc(), "settle");
}

/// A `check` line with so many entries.
fn check_line(rt: &impl Abort, alloc: Global, count: usize) -> Vec<u8> {
    let mut line = Vec::new(alloc);
    line.extend_from_slice(b"check A B 10")
        .expect(rt, "out of memory");
    for _ in 0..count {
        line.extend_from_slice(b" .").expect(rt, "out of memory");
    }
    line
}

/// How many entries a line has; 0 stands for a line that is no `check`.
fn entry_count(alloc: Global, line: &[u8]) -> usize {
    match parsed(alloc, line) {
        Ok(Some(Extra::Check { entries, .. })) => entries.len(),
        _ => 0,
    }
}

#[test]
fn a_check_has_at_most_96_entries(rt: HostRuntime) {
    let most = check_line(&rt, rt.alloc(), 96);
    are_equal(&rt, &entry_count(rt.alloc(), most.as_slice()), &96);
    let more = check_line(&rt, rt.alloc(), 97);
    are_equal(&rt, &column_of(rt.alloc(), more.as_slice()), &206);
}

/// This line, and blanks behind it up to so many bytes.
fn padded(rt: &impl Abort, alloc: Global, line: &[u8], len: usize) -> Vec<u8> {
    let mut padded = Vec::new(alloc);
    padded.extend_from_slice(line).expect(rt, "out of memory");
    for _ in line.len()..len {
        padded.push(b' ').expect(rt, "out of memory");
    }
    padded
}

#[test]
fn the_line_of_an_extra_has_at_most_8192_bytes(rt: HostRuntime) {
    let longest = padded(&rt, rt.alloc(), b"proof A B 10", 8192);
    let proof = parsed(rt.alloc(), longest.as_slice()).expect(&rt, "the longest line");
    assert!(rt; proof.is_some());
    let long = padded(&rt, rt.alloc(), b"proof A B 10", 8193);
    are_equal(&rt, &column_of(rt.alloc(), long.as_slice()), &8193);
    let long = padded(&rt, rt.alloc(), b" whatif x", 8193);
    are_equal(&rt, &column_of(rt.alloc(), long.as_slice()), &8193);
}

/// That a line of 8,193 bytes that begins so is no extra.
fn check_long_other(rt: &impl Abort, alloc: Global, line: &[u8]) {
    let long = padded(rt, alloc, line, 8193);
    let extra = parsed(alloc, long.as_slice()).expect(rt, "a long line");
    assert!(*rt; extra.is_none());
}

#[test]
fn longer_lines_that_begin_otherwise_are_no_extras(rt: HostRuntime) {
    check_long_other(&rt, rt.alloc(), b"");
    check_long_other(&rt, rt.alloc(), b"#");
    check_long_other(&rt, rt.alloc(), b"state");
    check_long_other(&rt, rt.alloc(), b"checks");
}
