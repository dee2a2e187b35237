//! Tests of `scenario`'s `Cutter`.
use crate::fixtures::are_bytes;
use scenario::{Cut, Cutter, Cutting};
use std::alloc::Global;
use std::process::Abort;

/// What a piece answers, under no contract: the tests ask for nothing but what it is.
fn fed(rt: &impl Abort, cutter: &mut Cutter, piece: &[u8]) -> Cut {
    cutter.feed(piece).expect(rt, "out of memory")
}

/// What the end answers, under no contract.
fn ended(cutter: &mut Cutter) -> Cutting {
    cutter.end()
}

/// Asserts what an answer says.
fn is_what(rt: &impl Abort, found: Cutting, want: Cutting) {
    assert_eq!(*rt; found, want);
}

/// Feeds a piece, of which so many bytes are taken.
fn check_fed(rt: &impl Abort, cutter: &mut Cutter, piece: &[u8], used: usize, what: Cutting) {
    let cut = fed(rt, cutter, piece);
    assert_eq!(*rt; cut.used, used);
    is_what(rt, cut.what, what);
}

/// Puts the last line answered to the text, and `|` behind it.
fn put_line(rt: &impl Abort, cutter: &Cutter, text: &mut Vec<u8>) {
    text.extend_from_slice(cutter.line())
        .expect(rt, "out of memory");
    text.push(b'|').expect(rt, "out of memory");
}

/// Feeds a piece as long as it gives lines, which are put to the text, and says what it answers then.
fn feed_all(rt: &impl Abort, cutter: &mut Cutter, piece: &[u8], text: &mut Vec<u8>) -> Cutting {
    let mut rest = piece;
    for _ in 0..piece.len() {
        let cut = fed(rt, cutter, rest);
        rest = rest.get(cut.used..).expect(rt, "no more than the piece");
        if cut.what != Cutting::Line {
            return cut.what;
        }
        put_line(rt, cutter, text);
    }
    fed(rt, cutter, rest).what
}

/// Ends a script, of which a last line is put to the text.
fn end_all(rt: &impl Abort, cutter: &mut Cutter, text: &mut Vec<u8>) {
    if ended(cutter) == Cutting::Line {
        put_line(rt, cutter, text);
    }
    is_what(rt, ended(cutter), Cutting::More);
}

/// The lines of a script in pieces of this length, each with `|` behind it.
fn lines_of(rt: &impl Abort, alloc: Global, script: &[u8], len: usize) -> Vec<u8> {
    let mut text = Vec::new(alloc);
    let mut cutter = Cutter::new(alloc);
    for piece in script.chunks(len.max(1)) {
        let what = feed_all(rt, &mut cutter, piece, &mut text);
        is_what(rt, what, Cutting::More);
    }
    end_all(rt, &mut cutter, &mut text);
    text
}

/// The script has these lines, each with `|` behind it, in whatever pieces of one length it comes.
fn check_script(rt: &impl Abort, alloc: Global, script: &str, expected: &str) {
    for len in 1..script.len() + 2 {
        let found = lines_of(rt, alloc, script.as_bytes(), len);
        are_bytes(rt, found.as_slice(), expected.as_bytes());
    }
}

#[test]
fn a_script_has_the_same_lines_in_whatever_pieces(rt: HostRuntime) {
    check_script(&rt, rt.alloc(), "", "");
    check_script(&rt, rt.alloc(), "\n", "|");
    check_script(&rt, rt.alloc(), "a\nbc\n", "a|bc|");
    check_script(&rt, rt.alloc(), "a\r\nbc\r\n\r\n", "a|bc||");
    check_script(&rt, rt.alloc(), "a\n\n\nb", "a|||b|");
    check_script(&rt, rt.alloc(), "a\r", "a\r|");
    check_script(&rt, rt.alloc(), "a\n\r", "a|\r|");
    check_script(&rt, rt.alloc(), "a\rb\r\r\nc", "a\rb\r|c|");
    check_script(&rt, rt.alloc(), "\r\n\r", "|\r|");
    let script = "# one\n state \r\n\ttick A";
    check_script(&rt, rt.alloc(), script, "# one| state |\ttick A|");
}

/// So many letters, and these bytes behind them.
fn letters(rt: &impl Abort, alloc: Global, count: usize, behind: &[u8]) -> Vec<u8> {
    let mut bytes = vec![in alloc; b'a'; count].expect(rt, "out of memory");
    bytes.extend_from_slice(behind).expect(rt, "out of memory");
    bytes
}

/// Feeds one byte a piece as long as more is asked for, and says what is answered then and how many bytes are taken.
fn fed_by_bytes(rt: &impl Abort, cutter: &mut Cutter, script: &[u8]) -> Cut {
    let mut used = 0_usize;
    for piece in script.chunks(1) {
        let cut = fed(rt, cutter, piece);
        used = used.wrapping_add(cut.used);
        if cut.what != Cutting::More {
            return Cut {
                used,
                what: cut.what,
            };
        }
    }
    Cut {
        used,
        what: Cutting::More,
    }
}

/// Behind an answer nothing more is answered to no bytes: more is asked for, or the script has failed.
fn check_stays(rt: &impl Abort, cutter: &mut Cutter, what: Cutting) {
    let again = match what {
        Cutting::Line => Cutting::More,
        failed => failed,
    };
    is_what(rt, fed(rt, cutter, b"").what, again);
}

/// A script that begins with so many letters and these bytes answers this when so many bytes are taken. One byte a piece
/// answers the same.
fn check_begun(
    rt: &impl Abort,
    alloc: Global,
    count: usize,
    behind: &[u8],
    used: usize,
    what: Cutting,
) {
    let script = letters(rt, alloc, count, behind);
    let mut whole = Cutter::new(alloc);
    check_fed(rt, &mut whole, script.as_slice(), used, what);
    let mut single = Cutter::new(alloc);
    let cut = fed_by_bytes(rt, &mut single, script.as_slice());
    assert_eq!(*rt; cut.used, used);
    is_what(rt, cut.what, what);
    are_bytes(rt, single.line(), whole.line());
    check_stays(rt, &mut whole, what);
}

#[test]
fn a_line_has_at_most_8192_bytes_without_its_end(rt: HostRuntime) {
    let (line, long) = (Cutting::Line, Cutting::Long);
    check_begun(&rt, rt.alloc(), 8192, b"\nb", 8193, line);
    check_begun(&rt, rt.alloc(), 8192, b"\r\nb", 8194, line);
    check_begun(&rt, rt.alloc(), 8191, b"\r\r\nb", 8194, line);
    check_begun(&rt, rt.alloc(), 8192, b"\rb\n", 8194, long);
    check_begun(&rt, rt.alloc(), 8192, b"\r\r\n", 8194, long);
    check_begun(&rt, rt.alloc(), 8192, b"b\n", 8193, long);
    check_begun(&rt, rt.alloc(), 9000, b"\n", 8193, long);
}

/// What the end answers behind so many letters and these bytes, and how long the line is.
fn check_ended(
    rt: &impl Abort,
    alloc: Global,
    count: usize,
    behind: &[u8],
    what: Cutting,
    len: usize,
) {
    let script = letters(rt, alloc, count, behind);
    let mut cutter = Cutter::new(alloc);
    fed(rt, &mut cutter, script.as_slice());
    is_what(rt, ended(&mut cutter), what);
    assert_eq!(*rt; cutter.line().len(), len);
}

#[test]
fn a_return_at_the_end_of_a_script_is_part_of_its_last_line(rt: HostRuntime) {
    check_ended(&rt, rt.alloc(), 8192, b"", Cutting::Line, 8192);
    check_ended(&rt, rt.alloc(), 8191, b"\r", Cutting::Line, 8192);
    check_ended(&rt, rt.alloc(), 8192, b"\r", Cutting::Long, 0);
    check_ended(&rt, rt.alloc(), 0, b"\n", Cutting::More, 0);
}

/// A cutter behind so many lines of so many bytes, the LF among them.
fn behind_lines(rt: &impl Abort, alloc: Global, lines: usize, len: usize) -> Cutter {
    let mut cutter = Cutter::new(alloc);
    let piece = letters(rt, alloc, len.saturating_sub(1), b"\n");
    for _ in 0..lines {
        check_fed(rt, &mut cutter, piece.as_slice(), len, Cutting::Line);
    }
    cutter
}

#[test]
fn a_script_has_at_most_100000_lines(rt: HostRuntime) {
    let mut cutter = behind_lines(&rt, rt.alloc(), 100_000, 1);
    check_fed(&rt, &mut cutter, b"", 0, Cutting::More);
    check_fed(&rt, &mut cutter, b"\n", 0, Cutting::Over);
    check_fed(&rt, &mut cutter, b"", 0, Cutting::Over);
}

#[test]
fn a_script_has_at_most_8388608_bytes(rt: HostRuntime) {
    let mut cutter = behind_lines(&rt, rt.alloc(), 1023, 8192);
    let last = letters(&rt, rt.alloc(), 8192, b"\n");
    check_fed(&rt, &mut cutter, last.as_slice(), 8192, Cutting::Over);
    is_what(&rt, fed(&rt, &mut cutter, b"\n").what, Cutting::Over);
}

/// Byte 8,388,608 is a CR, and byte 8,193 of its line.
fn at_the_last_return(rt: &impl Abort, alloc: Global) -> Cutter {
    let mut cutter = behind_lines(rt, alloc, 1022, 8192);
    let line = letters(rt, alloc, 8190, b"\n");
    fed(rt, &mut cutter, line.as_slice());
    let last = letters(rt, alloc, 8192, b"\r");
    check_fed(rt, &mut cutter, last.as_slice(), 8193, Cutting::More);
    cutter
}

#[test]
fn a_line_that_is_too_long_is_told_before_the_end_of_the_room(rt: HostRuntime) {
    let mut cutter = at_the_last_return(&rt, rt.alloc());
    check_fed(&rt, &mut cutter, b"b", 1, Cutting::Long);
    let mut other = at_the_last_return(&rt, rt.alloc());
    check_fed(&rt, &mut other, b"\n", 0, Cutting::Over);
}
