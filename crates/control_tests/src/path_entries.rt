//! Tests of `what_if`.
ghost use Rattle.std.specs.Prelude.{◌≡◌, length};
ghost use Rattle.spb_types.specs.Graph.{IsBridge, IsValid};

use crate::fixtures::{are_bytes, are_equal};
use crate::trees::{ends, square, tree};
use ect_trees::Roads;
use spb_types::{Graph, Mac, SystemId};
use std::alloc::Global;
use std::process::Abort;
use what_if::{Entry, Verdict, along, check, entries_in, prove};

/// Entries of the square from 1, by what they say of 2 and 4.
macro_rules! entries {
    ($two:expr, $four:expr) => {
        [Entry::Start, $two, Entry::Before(system!(1)), $four]
    };
}

const BY_TWO: [Entry; 4] = entries!(Entry::Before(system!(1)), Entry::Before(system!(2)));

const BY_THREE: [Entry; 4] = entries!(Entry::Before(system!(1)), Entry::Before(system!(3)));

const WITHOUT_FOUR: [Entry; 4] = entries!(Entry::Before(system!(1)), Entry::Unreached);

const THE_LONG_WAY: [Entry; 4] = entries!(Entry::Before(system!(4)), Entry::Before(system!(3)));

/// The roads of the square.
fn square_roads(rt: &impl Abort, alloc: Global) -> Roads
    ensures { IsValid result }
{
    Roads::over(alloc, square(rt, alloc)).expect(rt, "out of memory")
}

/// The first of four bridges.
fn first_of_four(rt: &impl Abort, graph: &Graph) -> SystemId
    ensures from { IsBridge graph.now result }
    ensures long { length graph.now.bridges ≡ 4 }
{
    match graph.bridges.as_slice() {
        [first, _, _, _] => first.id.system,
        _ => panic!(*rt; "not four bridges"),
    }
}

/// Asserts what is answered of entries that are to prove the best paths from 1 in the square.
fn check_verdict(rt: &impl Abort, alloc: Global, mask: u8, entries: &[Entry; 4], want: Verdict) {
    let roads = square_roads(rt, alloc);
    let from = first_of_four(rt, roads.graph());
    let verdict = check(alloc, &roads, mask, from, entries).expect(rt, "out of memory");
    are_equal(rt, &verdict, &want);
}

#[test]
fn entries_of_the_best_paths_pass_alone(rt: HostRuntime) {
    check_verdict(&rt, rt.alloc(), 0x00, &BY_TWO, Verdict::Yes);
    check_verdict(&rt, rt.alloc(), 0xff, &BY_THREE, Verdict::Yes);
    check_verdict(&rt, rt.alloc(), 0x00, &BY_THREE, Verdict::No(4));
    check_verdict(&rt, rt.alloc(), 0xff, &BY_TWO, Verdict::No(4));
    check_verdict(&rt, rt.alloc(), 0xff, &WITHOUT_FOUR, Verdict::No(4));
    check_verdict(&rt, rt.alloc(), 0xff, &THE_LONG_WAY, Verdict::No(2));
}

/// Asserts that the best paths from 1 in the square under a mask have these entries.
fn check_proved(rt: &impl Abort, alloc: Global, mask: u8, want: &[Entry; 4]) {
    let roads = square_roads(rt, alloc);
    let entries = prove(alloc, &roads, mask, system!(1)).expect(rt, "out of memory");
    are_equal(rt, &entries.as_slice(), &want.as_slice());
    let tree = tree(rt, alloc, roads.graph(), 1, mask);
    let same = entries_in(alloc, roads.graph(), &tree).expect(rt, "out of memory");
    are_equal(rt, &same.as_slice(), &want.as_slice());
}

#[test]
fn the_best_paths_are_proved_by_their_entries(rt: HostRuntime) {
    check_proved(&rt, rt.alloc(), 0x00, &BY_TWO);
    check_proved(&rt, rt.alloc(), 0xff, &BY_THREE);
}

/// Asserts which way from 1 to 4 is read off entries of the square, if one is.
fn check_way(rt: &impl Abort, alloc: Global, entries: &[Entry; 4], want: Option<&[u8]>) {
    let roads = square_roads(rt, alloc);
    let _from = first_of_four(rt, roads.graph());
    let found = along(alloc, &roads, entries, system!(4)).expect(rt, "out of memory");
    match (found, want) {
        (Some(path), Some(want)) => {
            are_equal(rt, &path.cost, &20);
            are_bytes(rt, ends(rt, alloc, &path).as_slice(), want);
        }
        (found, want) => assert!(*rt; found.is_none() && want.is_none()),
    }
}

#[test]
fn a_path_is_read_off_entries(rt: HostRuntime) {
    check_way(&rt, rt.alloc(), &BY_TWO, Some(&[1, 2, 4]));
    check_way(&rt, rt.alloc(), &BY_THREE, Some(&[1, 3, 4]));
    check_way(&rt, rt.alloc(), &WITHOUT_FOUR, None);
}
