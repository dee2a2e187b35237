//! Tests of `report`: each text as a script's answer shows it.

use crate::fixtures::{are_bytes, lsp_id, system};
use adjacency::{AdjState, Adjacency};
use lsdb::{DbRow, Version};
use report::{
    adj_text, check_no_text, check_yes_text, db_text, drops_text, error_text, out_text, path_text,
    proof_text, settle_text, state_text, tables_text, whatif_text,
};
use spb_types::{
    EntryWord, GroupRow, Mac, Name, NoMemory, PortSet, Seq, TableRow, Tables, UnicastRow, Vid,
};
use std::alloc::Global;
use std::process::Abort;

const VID: Vid = Vid { value: 10 };

const fn unicast(last: u8, port: u8) -> UnicastRow {
    UnicastRow {
        vid: VID,
        mac: system(last).mac,
        port,
    }
}

const fn group(bytes: [u8; 6], bits: u32) -> GroupRow {
    GroupRow {
        vid: VID,
        mac: Mac { bytes },
        ports: PortSet { bits },
    }
}

fn tables(rt: &impl Abort, alloc: Global, unicast: &[UnicastRow], group: &[GroupRow]) -> Tables {
    let unicast = Vec::from_slice(alloc, unicast).expect(rt, "out of memory");
    let group = Vec::from_slice(alloc, group).expect(rt, "out of memory");
    Tables {
        unicast: Seq::from_vec(unicast),
        group: Seq::from_vec(group),
    }
}

fn name(rt: &impl Abort, word: &str) -> Name {
    Name::new(word.as_bytes()).expect(rt, "no name")
}

const fn live(seq: u32, sum: u16) -> Version {
    Version::Live { seq, sum }
}

const fn row(last: u8, version: Version, lifetime: u16, srm: u32, ssn: u32) -> DbRow {
    DbRow {
        id: lsp_id(system(last)),
        version,
        lifetime,
        srm: PortSet { bits: srm },
        ssn: PortSet { bits: ssn },
    }
}

const fn kept(state: AdjState, last: u8, circuit: u32, hold: u16) -> Adjacency {
    Adjacency {
        carrier: true,
        state,
        neighbour: system(last),
        circuit,
        hold,
    }
}

fn check(rt: &impl Abort, text: Result<Vec<u8>, NoMemory>, expected: &str) {
    let text = text.expect(rt, "out of memory");
    are_bytes(rt, text.as_slice(), expected.as_bytes());
}

#[test]
fn tables_are_counts_and_rows(rt: HostRuntime) {
    let alloc = rt.alloc();
    let rows = tables(&rt, alloc, &[unicast(2, 1)], &[]);
    check(
        &rt,
        tables_text(alloc, "wiring", name(&rt, "A"), None, &rows),
        "wiring A 1 0\nu 10 020000000002 1\n",
    );
    let group = group([0xf3, 0x30, 0x13, 0, 0, 100], 1);
    let rows = tables(&rt, alloc, &[unicast(2, 1)], &[group]);
    check(
        &rt,
        tables_text(alloc, "wiring", name(&rt, "X"), None, &rows),
        "wiring X 1 1\nu 10 020000000002 1\ng 10 f33013000064 1\n",
    );
}

#[test]
fn tables_of_a_bridge_say_quiet_or_busy(rt: HostRuntime) {
    let alloc = rt.alloc();
    let none = tables(&rt, alloc, &[], &[]);
    check(
        &rt,
        tables_text(alloc, "show", name(&rt, "A"), Some(true), &none),
        "show A quiet 0 0\n",
    );
    let long = name(&rt, "long-name_16byte");
    check(
        &rt,
        tables_text(alloc, "show", long, Some(false), &none),
        "show long-name_16byte busy 0 0\n",
    );
}

#[test]
fn tables_of_a_bridge_list_their_rows(rt: HostRuntime) {
    let unicast = [
        unicast(2, 1),
        unicast(3, 1),
        unicast(4, 1),
        unicast(5, 2),
        unicast(6, 2),
    ];
    let group = [
        group([3, 0, 1, 0, 0, 100], 0b11),
        group([3, 0, 2, 0, 0, 100], 0b10),
        group([3, 0, 5, 0, 0, 100], 0b1),
    ];
    let rows = tables(&rt, rt.alloc(), &unicast, &group);
    check(
        &rt,
        tables_text(rt.alloc(), "show", name(&rt, "A"), Some(true), &rows),
        "show A quiet 5 3\n\
        u 10 020000000002 1\n\
        u 10 020000000003 1\n\
        u 10 020000000004 1\n\
        u 10 020000000005 2\n\
        u 10 020000000006 2\n\
        g 10 030001000064 1,2\n\
        g 10 030002000064 2\n\
        g 10 030005000064 1\n",
    );
}

#[test]
fn a_database_lists_live_dead_and_absent_ids(rt: HostRuntime) {
    let rows = [
        row(1, live(2, 0xa512), 1199, 1, 0),
        row(2, Version::Dead { seq: 2 }, 0, 1, 0),
        row(3, Version::Absent, 0, 0, 0b10),
        row(0xab, live(4_294_967_295, 0x0f), 1, 0x8000_0201, 0xffff_ffff),
    ];
    check(
        &rt,
        db_text(rt.alloc(), name(&rt, "A"), &rows),
        "db A 4\n\
        l 0200000000010000 live 1199 2 a512 srm 1 ssn -\n\
        l 0200000000020000 dead 2 srm 1 ssn -\n\
        l 0200000000030000 none srm - ssn 2\n\
        l 0200000000ab0000 live 1 4294967295 000f srm 1,10,32 ssn \
        1,2,3,4,5,6,7,8,9,10,11,12,13,14,15,16,17,18,19,20,21,22,23,24,25,26,27,28,29,30,31,32\n",
    );
}

#[test]
fn adjacencies_are_listed_by_state(rt: HostRuntime) {
    let ports = [
        (Adjacency::down(false), false),
        (Adjacency::down(true), false),
        (kept(AdjState::Initializing, 1, 7, 3), false),
        (kept(AdjState::Up, 2, 4_294_967_295, 3), true),
        (kept(AdjState::Up, 2, 1, 65_535), false),
    ];
    check(
        &rt,
        adj_text(rt.alloc(), name(&rt, "B"), &ports),
        "adj B 5\n\
        p 1 off\n\
        p 2 down\n\
        p 3 init 020000000001 7 3 -\n\
        p 4 up 020000000002 4294967295 3 due\n\
        p 5 up 020000000002 1 65535 -\n",
    );
    check(&rt, adj_text(rt.alloc(), name(&rt, "B"), &[]), "adj B 0\n");
}

#[test]
fn a_path_is_cost_hops_and_names_or_none(rt: HostRuntime) {
    let alloc = rt.alloc();
    let (a, b, d) = (name(&rt, "A"), name(&rt, "B"), name(&rt, "D"));
    let text = path_text(alloc, a, d, VID, 20, &[a, b, d]);
    check(&rt, text, "path A D 10 20 2 A B D\n");
    let text = path_text(alloc, a, a, VID, 0, &[a]);
    check(&rt, text, "path A A 10 0 0 A\n");
    let text = path_text(alloc, a, d, VID, 0, &[]);
    check(&rt, text, "path A D 10 none\n");
}

#[test]
fn changes_are_signs_names_and_rows(rt: HostRuntime) {
    let (a, b) = (name(&rt, "A"), name(&rt, "B"));
    let unicast = TableRow::Unicast(unicast(2, 1));
    let group = TableRow::Group(group([3, 0, 1, 0, 0, 100], 0b11));
    let text = whatif_text(
        rt.alloc(),
        &[(a, false, unicast), (a, false, group), (b, true, group)],
    );
    check(
        &rt,
        text,
        "whatif 3\n\
        - A u 10 020000000002 1\n\
        - A g 10 030001000064 1,2\n\
        + B g 10 030001000064 1,2\n",
    );
    check(&rt, whatif_text(rt.alloc(), &[]), "whatif 0\n");
}

#[test]
fn a_proof_is_entries_and_its_check_yes_or_no(rt: HostRuntime) {
    let alloc = rt.alloc();
    let (a, b, d) = (name(&rt, "A"), name(&rt, "B"), name(&rt, "D"));
    let entries = [EntryWord::Start, EntryWord::Before(a), EntryWord::Unreached];
    let text = proof_text(alloc, a, d, VID, &entries);
    check(&rt, text, "proof A D 10 - A .\n");
    let text = check_yes_text(alloc, 20, &[a, b, d]);
    check(&rt, text, "check yes 20 2 A B D\n");
    check(&rt, check_yes_text(alloc, 0, &[]), "check yes none\n");
    check(&rt, check_no_text(alloc, 4), "check no 4\n");
}

#[test]
fn drops_are_a_name_and_nine_counts(rt: HostRuntime) {
    let counts = [1, 0, 20, 300, 4, 65_536, 7, 0, 18_446_744_073_709_551_615];
    check(
        &rt,
        drops_text(rt.alloc(), name(&rt, "C-3"), &counts),
        "drops C-3 1 0 20 300 4 65536 7 0 18446744073709551615\n",
    );
}

#[test]
fn a_frame_that_leaves_is_hexadecimal(rt: HostRuntime) {
    let frame = b"\xff\xff\xff\xff\xff\xff\x0a\x00\x00\x00\x00\x01\x08\x00";
    let text = out_text(rt.alloc(), name(&rt, "A"), 2, frame);
    check(&rt, text, "out A 2 ffffffffffff0a00000000010800\n");
}

#[test]
fn a_state_names_the_conditions_that_fail(rt: HostRuntime) {
    check(&rt, state_text(rt.alloc(), &[]), "state quiet\n");
    check(&rt, state_text(rt.alloc(), &[1, 3]), "state busy q1 q3\n");
}

#[test]
fn settling_ends_in_quiet_or_says_why_not(rt: HostRuntime) {
    check(&rt, settle_text(rt.alloc(), 5, None), "settle 5 quiet\n");
    let text = settle_text(rt.alloc(), 56, Some("lifetime"));
    check(&rt, text, "settle 56 busy lifetime\n");
}

#[test]
fn a_refused_line_has_a_column_if_given(rt: HostRuntime) {
    let text = error_text(rt.alloc(), 1, 1, "Words", Some(8));
    check(&rt, text, "error 1 1 Words 8\n");
    let text = error_text(rt.alloc(), 4, 11, "NoFrame", None);
    check(&rt, text, "error 4 11 NoFrame\n");
}
