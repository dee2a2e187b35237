//! Tests of `scenario`.
use crate::fixtures::{are_bytes, are_equal, is_shown, shown};
use scenario::{Command, KEYWORDS, Keyword, LineError, parse_line, print_command};
use std::alloc::Global;
use std::process::Abort;

// Lines and the commands that they spell: each form in its shortest spelling, and then with tabs, more blanks, leading
// zeros, digits in upper case and the greatest values.
const SPELLED: &str = "\
vid 1 2|Vid { vid: 1, ect: 2 }
\tvid\t 0000004094   0\t |Vid { vid: 4094, ect: 0 }
bridge A 1 020000000001 00001 3|Bridge { name: A, priority: 1, system: Mac { bytes: [2, 0, 0, 0, 0, 1] }, source: SourceId { value: 1 }, ports: 3 }
 bridge a-b_C9  9999999999\t0A1b2C3d4E5F FfFfF 0 |Bridge { name: a-b_C9, priority: 9999999999, system: Mac { bytes: [10, 27, 44, 61, 78, 95] }, source: SourceId { value: 1048575 }, ports: 0 }
link L A 1 B 2 10|Link { name: L, a: A, port_a: 1, b: B, port_b: 2, cost: 10 }
link link vid 001\t\tvid 002 16777214\t|Link { name: link, a: vid, port_a: 1, b: vid, port_b: 2, cost: 16777214 }
isid 1000 10|Isid { isid: 1000, vid: 10 }
isid\t0016777215 \t4094|Isid { isid: 16777215, vid: 4094 }
attach A 1 1000|Attach { bridge: A, port: 1, isid: 1000, mode: Both }
  attach  B1 064 0000000001  |Attach { bridge: B1, port: 64, isid: 1, mode: Both }
attach A 1 1000 both|Attach { bridge: A, port: 1, isid: 1000, mode: Both }
attach A 1 1000 send|Attach { bridge: A, port: 1, isid: 1000, mode: Send }
\tattach  recv 064\t0000000001 \trecv  |Attach { bridge: recv, port: 64, isid: 1, mode: Recv }
detach A 1|Detach { bridge: A, port: 1 }
detach\tA\t01\t|Detach { bridge: A, port: 1 }
metric L a 5|Metric { link: L, side: A, metric: 5 }
metric   L\tb 0005 |Metric { link: L, side: B, metric: 5 }
down L|Down(L)
\tdown abcdefghijklmnop |Down(abcdefghijklmnop)
up L|Up(L)
up \t L2|Up(L2)
restart A|Restart(A)
restart\tA |Restart(A)
tick A|Tick(A)
  tick  A  |Tick(A)
deliver L ab|Deliver { link: L, dir: Ab }
deliver\tL\tba\t|Deliver { link: L, dir: Ba }
lose L ab 0|Lose { link: L, dir: Ab, place: 0 }
 lose L ba 0001023 |Lose { link: L, dir: Ba, place: 1023 }
double L ba 3|Double { link: L, dir: Ba, place: 3 }
double L\tab\t00 |Double { link: L, dir: Ab, place: 0 }
round 20|Round(20)
\tround 0000000020\t|Round(20)
drain 5|Drain(5)
drain   1000000 |Drain(1000000)
frame A 1 ff|Frame { bridge: A, port: 1, frame: Seq { items: [255] } }
frame\tA 01  0aBC\t|Frame { bridge: A, port: 1, frame: Seq { items: [10, 188] } }
state|State
\t state |State
show A|Show(A)
show  A\t|Show(A)
wiring A|Wiring(A)
 wiring\tA|Wiring(A)
db A|Db(A)
db A |Db(A)
adj A|Adj(A)
adj\tA|Adj(A)
path A B 10|Path { from: A, to: B, vid: 10 }
path A\tA  0010 |Path { from: A, to: A, vid: 10 }
drops A|Drops(A)
 drops\t\tb-2 |Drops(b-2)";

// Lines, and what is printed for their commands: a line of each form with tabs, more blanks, leading zeros and digits in
// upper case, and the least and the greatest values.
const PRINTED: &str = "\
\tvid\t 0000004094   0\t |vid 4094 0
 bridge a-b_C9  9999999999\t0A1b2C3d4E5F FfFfF 0 |bridge a-b_C9 9999999999 0a1b2c3d4e5f fffff 0
bridge A 0032768 FFFFFFFFFFFF 0a0B1 032|bridge A 32768 ffffffffffff 0a0b1 32
bridge A 0 000000000000 00000 00|bridge A 0 000000000000 00000 0
link link vid 001\t\tvid 002 16777214\t|link link vid 1 vid 2 16777214
isid\t0016777215 \t4094|isid 16777215 4094
  attach  B1 064 0000000001  |attach B1 64 1
attach B1 064 01  both\t|attach B1 64 1
attach B1 064 01\tsend|attach B1 64 1 send
 attach recv 064 01 recv |attach recv 64 1 recv
detach\tA\t01\t|detach A 1
metric   L\tb 0005 |metric L b 5
metric L a 0000000000|metric L a 0
\tdown abcdefghijklmnop |down abcdefghijklmnop
up \t L2|up L2
restart\tA |restart A
  tick  A  |tick A
deliver\tL\tba\t|deliver L ba
deliver  L  ab|deliver L ab
 lose L ba 0001023 |lose L ba 1023
double L\tab\t00 |double L ab 0
\tround 0000000020\t|round 20
drain   1000000 |drain 1000000
frame\tA 01  0aBC\t|frame A 1 0abc
frame A 010 000102030405060708090A0B0C0DFEFF|frame A 10 000102030405060708090a0b0c0dfeff
\t state |state
show  A\t|show A
 wiring\tA|wiring A
db A |db A
adj\tA|adj A
path A\tA  0010 |path A A 10
 drops\t\tb-2 |drops b-2";

// Lines outside the grammar, each behind the column of the first word that doesn't fit. For each form: a wrong word at
// each place, a missing word, an extra one, and the keyword in upper case.
const REFUSED_FORMS: &str = "\
5|vid x 7
7|vid 7 x
6|vid 7
9|vid 7 7 x
1|VID
8|bridge 9 7 020000000001 00001 7
10|bridge A x 020000000001 00001 7
12|bridge A 7 02000000000 00001 7
25|bridge A 7 020000000001 0000g 7
31|bridge A 7 020000000001 00001 x
30|bridge A 7 020000000001 00001
33|bridge A 7 020000000001 00001 7 x
1|BRIDGE
6|link 9 A 7 A 7 7
8|link A 9 7 A 7 7
10|link A A x A 7 7
12|link A A 7 9 7 7
14|link A A 7 A x 7
16|link A A 7 A 7 x
15|link A A 7 A 7
18|link A A 7 A 7 7 x
1|LINK
6|isid x 7
8|isid 7 x
7|isid 7
10|isid 7 7 x
1|ISID
8|attach 9 7 7
10|attach A x 7
12|attach A 7 x
11|attach A 7
14|attach A 7 7 x
16|attach A 2 100 r
16|attach A 2 100 Send
16|attach A 2 100 sends
16|attach A 2 100 bot
16|attach A 2 100 RECV
21|attach A 2 100 send x
21|attach A 2 100 both send
11|attach A 2
1|ATTACH
8|detach 9 7
10|detach A x
9|detach A
12|detach A 7 x
12|detach A 1 send
1|DETACH
8|metric 9 a 7
10|metric A c 7
12|metric A a x
11|metric A a
14|metric A a 7 x
1|METRIC
6|down 9
5|down
8|down A x
1|DOWN
4|up 9
3|up
6|up A x
1|UP
9|restart 9
8|restart
11|restart A x
1|RESTART
6|tick 9
5|tick
8|tick A x
1|TICK
9|deliver 9 ab
11|deliver A Ab
10|deliver A
14|deliver A ab x
1|DELIVER
6|lose 9 ab 7
8|lose A Ab 7
11|lose A ab x
10|lose A ab
13|lose A ab 7 x
1|LOSE
8|double 9 ab 7
10|double A Ab 7
13|double A ab x
12|double A ab
15|double A ab 7 x
1|DOUBLE
7|round x
6|round
9|round 7 x
1|ROUND
7|drain x
6|drain
9|drain 7 x
1|DRAIN
7|frame 9 7 0aff
9|frame A x 0aff
11|frame A 7 0af
10|frame A 7
16|frame A 7 0aff x
1|FRAME
7|state x
1|STATE
6|show 9
5|show
8|show A x
1|SHOW
8|wiring 9
7|wiring
10|wiring A x
1|WIRING
4|db 9
3|db
6|db A x
1|DB
5|adj 9
4|adj
7|adj A x
1|ADJ
6|path 9 A 7
8|path A 9 7
10|path A A x
9|path A A
12|path A A 7 x
1|PATH
7|drops 9
6|drops
9|drops A x
1|DROPS";

// The same for names, numbers, digits, blanks and keywords.
const REFUSED_WORDS: &str = "\
6|tick 
8|tick\t \t
7|  tick
8|vid 1  
11|\t vid  1  x 7
6|tick abcdefghijklmnopq
6|tick 9a
6|tick _a
6|tick -a
6|tick a.b
7|round 12345678901
7|round 1234567890x
7|round -1
7|round +1
7|round 1_0
12|bridge A 1 0200000000011 1 1
12|bridge A 1 02-000000001 1 1
25|bridge A 1 020000000001 000001 1
25|bridge A 1 020000000001 0001 1
11|frame A 1 0
11|frame A 1 0af
11|frame A 1 0g
11|frame A 1 0x0a
14|frame A 1 ff ff
11|deliver L abc
11|deliver L a
10|metric L ab 1
2| # comment
2|\t#
7|state # comment
1|drop A
1|vids 1 1
1|vi 1 1
1|tickA
8|tick A A";

/// What a line gives, under no contract: the tests ask for nothing but what it is.
fn parsed(alloc: Global, line: &[u8]) -> Result<Option<Command>, LineError> {
    parse_line(alloc, line)
}

/// The command that a line of this row gives.
fn command_of(rt: &impl Abort, alloc: Global, line: &[u8], row: &str) -> Command {
    let command = parsed(alloc, line).expect(rt, row);
    command.expect(rt, row)
}

/// The row is a line and the command that it spells.
fn check_spelled(rt: &impl Abort, alloc: Global, row: &str) {
    let (line, expected) = row.split_once('|').expect(rt, "a row");
    let command = command_of(rt, alloc, line.as_bytes(), row);
    is_shown(rt, alloc, &command, expected);
}

#[test]
fn spelled_lines_give_their_commands(rt: HostRuntime) {
    for row in SPELLED.lines() {
        check_spelled(&rt, rt.alloc(), row);
    }
}

/// What is printed for a command, under no contract.
fn printed(rt: &impl Abort, alloc: Global, command: &Command) -> Vec<u8> {
    print_command(alloc, command).expect(rt, "out of memory")
}

/// The line gives a command for which this is printed, and that is read as the same command.
fn check_printed(rt: &impl Abort, alloc: Global, line: &str, expected: &str) {
    let command = command_of(rt, alloc, line.as_bytes(), line);
    let text = printed(rt, alloc, &command);
    are_bytes(rt, text.as_slice(), expected.as_bytes());
    let again = command_of(rt, alloc, text.as_slice(), line);
    let meant = shown(rt, alloc, &command);
    is_shown(rt, alloc, &again, meant.as_str());
}

/// The row is a line and what is printed for its command, which is printed so again.
fn check_printed_row(rt: &impl Abort, alloc: Global, row: &str) {
    let (line, expected) = row.split_once('|').expect(rt, "a row");
    check_printed(rt, alloc, line, expected);
    check_printed(rt, alloc, expected, expected);
}

#[test]
fn printed_commands_are_read_back(rt: HostRuntime) {
    for row in PRINTED.lines() {
        check_printed_row(&rt, rt.alloc(), row);
    }
}

/// The column where a line is refused; 0 stands for a line that is not.
fn column_of(alloc: Global, line: &[u8]) -> usize {
    match parsed(alloc, line) {
        Err(LineError::Words(column)) => column,
        _ => 0,
    }
}

/// The row is a column and a line that is refused there.
fn check_refused(rt: &impl Abort, alloc: Global, row: &str) {
    let (column, line) = row.split_once('|').expect(rt, "a row");
    let found = shown(rt, alloc, &column_of(alloc, line.as_bytes()));
    are_equal(rt, &(found.as_str(), line), &(column, line));
}

fn check_all_refused(rt: &impl Abort, alloc: Global, rows: &str) {
    for row in rows.lines() {
        check_refused(rt, alloc, row);
    }
}

#[test]
fn forms_that_do_not_fit_are_refused_at_their_column(rt: HostRuntime) {
    check_all_refused(&rt, rt.alloc(), REFUSED_FORMS);
}

#[test]
fn words_that_do_not_fit_are_refused_at_their_column(rt: HostRuntime) {
    check_all_refused(&rt, rt.alloc(), REFUSED_WORDS);
}

/// A carriage return that ends a line is part of its last word.
#[test]
fn a_return_ends_no_word(rt: HostRuntime) {
    check_refused(&rt, rt.alloc(), "1|state\r");
    check_refused(&rt, rt.alloc(), "6|tick A\r");
    check_refused(&rt, rt.alloc(), "7|round 1\r");
    check_refused(&rt, rt.alloc(), "1|\r");
}

fn check_ignored(rt: &impl Abort, alloc: Global, line: &str) {
    let command = parsed(alloc, line.as_bytes()).expect(rt, line);
    are_equal(rt, &(line, command.is_none()), &(line, true));
}

#[test]
fn blank_lines_and_comments_are_ignored(rt: HostRuntime) {
    check_ignored(&rt, rt.alloc(), "");
    check_ignored(&rt, rt.alloc(), " ");
    check_ignored(&rt, rt.alloc(), "\t \t");
    check_ignored(&rt, rt.alloc(), "#");
    check_ignored(&rt, rt.alloc(), "# tick A");
    check_ignored(&rt, rt.alloc(), "#tick A\r");
}

fn is_too_long(alloc: Global, line: &[u8]) -> bool {
    parsed(alloc, line).err() == Some(LineError::Words(8193))
}

/// That 8,192 of this byte are a line, and not one more.
fn check_longest(rt: &impl Abort, alloc: Global, byte: u8) {
    let mut line = vec![in alloc; byte; 8192].expect(rt, "out of memory");
    assert!(*rt; !is_too_long(alloc, line.as_slice()));
    line.push(byte).expect(rt, "out of memory");
    assert!(*rt; is_too_long(alloc, line.as_slice()));
}

#[test]
fn a_line_has_at_most_8192_bytes(rt: HostRuntime) {
    check_longest(&rt, rt.alloc(), b' ');
    check_longest(&rt, rt.alloc(), b'#');
    check_longest(&rt, rt.alloc(), b'x');
}

#[test]
fn the_longest_line_gives_its_command(rt: HostRuntime) {
    let mut line = vec![in rt.alloc(); b' '; 8186].expect(&rt, "out of memory");
    line.extend_from_slice(b"tick A")
        .expect(&rt, "out of memory");
    let tick = command_of(&rt, rt.alloc(), line.as_slice(), "the longest line");
    is_shown(&rt, rt.alloc(), &tick, "Tick(A)");
    line.push(b'\r').expect(&rt, "out of memory");
    assert!(rt; is_too_long(rt.alloc(), line.as_slice()));
}

fn check_keyword(rt: &impl Abort, keyword: Keyword, text: &str) {
    assert!(*rt; Keyword::read(text.as_bytes()) == Some(keyword), "{text}");
    are_bytes(rt, keyword.text(), text.as_bytes());
}

fn check_keywords(rt: &impl Abort, keywords: &[(Keyword, &str)]) {
    for (keyword, text) in keywords {
        check_keyword(rt, *keyword, text);
    }
}

#[test]
fn a_keyword_is_read_from_its_text(rt: HostRuntime) {
    check_keywords(&rt, &KEYWORDS);
}

fn check_error(rt: &impl Abort, alloc: Global, error: LineError, expected: &str) {
    let text = format!(in alloc; "{error}").expect(rt, "out of memory");
    are_equal(rt, &text.as_str(), &expected);
}

#[test]
fn errors_name_the_column(rt: HostRuntime) {
    let text = "no such line, from column 17 on";
    check_error(&rt, rt.alloc(), LineError::Words(17), text);
    check_error(&rt, rt.alloc(), LineError::NoMemory, "out of memory");
}
