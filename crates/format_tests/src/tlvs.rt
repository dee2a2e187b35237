//! Tests of `spb_tlvs`.
ghost use Rattle.std.specs.Prelude.{◌≤◌};
ghost use Rattle.spb_tlvs.specs.Capability.{IsCapability};

use crate::fixtures::{are_bytes, are_equal, hex, is_shown, lsp_id, system};
use spb_tlvs::{
    Capability, EXTENDED_IS_REACHABILITY, MT_CAPABILITY, Neighbour, Service, SnpEntry, ThreeWay,
    find_tlv, read_capability, read_entries, read_neighbours, read_three_way, split_tlv,
    write_capability, write_entries, write_neighbours, write_three_way,
};
use spb_types::{Isid, Seq, SourceId, Vid, VidPlan};
use std::alloc::Global;
use std::process::Abort;

/// Asserts how that is shown which is read from the value of a TLV of this code: of a TLV 9, 22, 144 or 240.
fn shows(rt: &impl Abort, alloc: Global, code: u8, value: &[u8], want: &str) {
    match code {
        9 => is_shown(rt, alloc, &read_entries(alloc, value), want),
        22 => is_shown(rt, alloc, &read_neighbours(alloc, value), want),
        144 => is_shown(rt, alloc, &read_capability(alloc, value), want),
        _ => is_shown(rt, alloc, &read_three_way(value), want),
    }
}

/// Asserts the same of a TLV, and that it is written so.
fn written_shows(rt: &impl Abort, alloc: Global, written: &[u8], tlv: &str, want: &str) {
    let tlv = hex(rt, alloc, tlv);
    are_bytes(rt, written, tlv.as_slice());
    let code = written.first().copied().unwrap_or_default();
    shows(rt, alloc, code, written.get(2..).unwrap_or_default(), want);
}

/// Asserts the same of a value in hexadecimal numbers.
fn read_shows(rt: &impl Abort, alloc: Global, code: u8, value: &str, want: &str) {
    shows(rt, alloc, code, hex(rt, alloc, value).as_slice(), want);
}

/// Asserts that the adjacency is written as this TLV, from which one is read that is shown so.
fn check_three_way(rt: &impl Abort, alloc: Global, item: &ThreeWay, tlv: &str, want: &str)
    requires { item.now.state ≤ 2 }
{
    let mut out = Vec::new(alloc);
    write_three_way(&mut out, item).expect(rt, "out of memory");
    written_shows(rt, alloc, out.as_slice(), tlv, want);
}

#[test]
fn three_way_adjacencies(rt: HostRuntime) {
    let down = ThreeWay {
        state: 2,
        circuit: 1,
        neighbour: None,
    };
    let tlv = "f0 05 02 00 00 00 01";
    let shown = "Ok(ThreeWay { state: 2, circuit: 1, neighbour: None })";
    check_three_way(&rt, rt.alloc(), &down, tlv, shown);
    let initializing = ThreeWay {
        state: 1,
        circuit: 1,
        neighbour: Some((system(2), 1)),
    };
    let tlv = "f0 0f 01 00 00 00 01 02 00 00 00 00 02 00 00 00 01";
    let shown = "Ok(ThreeWay { state: 1, circuit: 1, \
        neighbour: Some((SystemId { mac: Mac { bytes: [2, 0, 0, 0, 0, 2] } }, 1)) })";
    check_three_way(&rt, rt.alloc(), &initializing, tlv, shown);
}

#[test]
fn refusals_of_a_three_way_adjacency(rt: HostRuntime) {
    read_shows(&rt, rt.alloc(), 240, "03 00 00 00", "Err(Cut)");
    read_shows(&rt, rt.alloc(), 240, "03 00 00 00 01", "Err(Range)");
}

#[test]
fn entries_of_an_snp(rt: HostRuntime) {
    let entry = SnpEntry {
        lifetime: 1198,
        id: lsp_id(system(2)),
        seq: 2,
        sum: 0xc2f3,
    };
    let tlv = "09 10 04 ae 02 00 00 00 00 02 00 00 00 00 00 02 c2 f3";
    let shown = "Ok([SnpEntry { lifetime: 1198, id: LspId { \
        system: SystemId { mac: Mac { bytes: [2, 0, 0, 0, 0, 2] } }, pseudonode: 0, number: 0 }, \
        seq: 2, sum: 49907 }])";
    let mut out = Vec::new(rt.alloc());
    write_entries(&mut out, &[entry]).expect(&rt, "out of memory");
    written_shows(&rt, rt.alloc(), out.as_slice(), tlv, shown);
}

#[test]
fn an_entry_of_15_bytes_is_cut(rt: HostRuntime) {
    let value = "04 ae 02 00 00 00 00 02 00 00 00 00 00 02 c2";
    read_shows(&rt, rt.alloc(), 9, value, "Err(Cut)");
}

#[test]
fn a_neighbour_with_its_metric(rt: HostRuntime) {
    let neighbour = Neighbour {
        system: system(2),
        metric: 10,
        port: 1,
    };
    let tlv = "16 13 02 00 00 00 00 02 00 00 00 0a 08 1d 06 00 00 0a 01 00 01";
    let shown = "Ok([Neighbour { system: SystemId { mac: Mac { bytes: [2, 0, 0, 0, 0, 2] } }, \
        metric: 10, port: 1 }])";
    let mut out = Vec::new(rt.alloc());
    write_neighbours(&mut out, &[neighbour]).expect(&rt, "out of memory");
    written_shows(&rt, rt.alloc(), out.as_slice(), tlv, shown);
}

// As other implementations send them: an entry with another metric of its own, an unknown sub-TLV before a longer SPB
// link metric, and a second one after it; an entry of a pseudonode; and one without an SPB link metric.
#[test]
fn neighbours_of_another_implementation(rt: HostRuntime) {
    let value =
        "02 00 00 00 00 02 00 ff ff fe 15 06 01 63 1d 08 01 02 03 07 12 34 aa bb 1d 06 00 00 01 01 00 02
         02 00 00 00 00 03 01 00 00 0a 08 1d 06 00 00 0a 01 00 01
         02 00 00 00 00 04 00 00 00 0a 00";
    let shown = "Ok([Neighbour { system: SystemId { mac: Mac { bytes: [2, 0, 0, 0, 0, 2] } }, \
        metric: 66051, port: 4660 }])";
    read_shows(&rt, rt.alloc(), 22, value, shown);
}

#[test]
fn a_neighbour_with_a_short_metric(rt: HostRuntime) {
    let value = "02 00 00 00 00 02 01 00 00 0a 07 1d 05 00 00 0a 01 00";
    read_shows(&rt, rt.alloc(), 22, value, "Err(Cut)");
}

/// Asserts that the capability is written as this TLV, from which only one is read, which is shown so.
fn check_capability(rt: &impl Abort, alloc: Global, item: &Capability, tlv: &str, want: &str)
    requires { IsCapability item.now }
{
    let mut out = Vec::new(alloc);
    write_capability(&mut out, item).expect(rt, "out of memory");
    written_shows(rt, alloc, out.as_slice(), tlv, want);
}

// The TLV of a bridge with no base VID, as it stands in its first LSP.
#[test]
fn an_instance_without_trees(rt: HostRuntime) {
    let item = Capability::Inst {
        priority: 32768,
        source: SourceId { value: 1 },
        trees: Seq::new(rt.alloc()),
    };
    let tlv = "90 17 00 00 01 13 00 00 00 00 00 00 00 00 00 00 00 00 80 00 00 00 00 01 00";
    let shown =
        "Ok([Inst { priority: 32768, source: SourceId { value: 1 }, trees: Seq { items: [] } }])";
    check_capability(&rt, rt.alloc(), &item, tlv, shown);
}

#[test]
fn an_instance_and_its_tree(rt: HostRuntime) {
    let plan = VidPlan {
        vid: Vid { value: 10 },
        ect: 1,
    };
    let item = Capability::Inst {
        priority: 32768,
        source: SourceId { value: 1 },
        trees: Seq::from_vec(vec![in rt.alloc(); plan].expect(&rt, "out of memory")),
    };
    let tlv = "90 1f 00 00 01 1b 00 00 00 00 00 00 00 00 00 00 00 00 80 00 00 00 00 01 01
               40 00 80 c2 01 00 a0 00";
    let shown = "Ok([Inst { priority: 32768, source: SourceId { value: 1 }, \
        trees: Seq { items: [VidPlan { vid: Vid { value: 10 }, ect: 1 }] } }])";
    check_capability(&rt, rt.alloc(), &item, tlv, shown);
}

#[test]
fn services_of_a_vid(rt: HostRuntime) {
    let service = Service {
        isid: Isid { value: 100 },
        transmit: true,
        receive: true,
    };
    let item = Capability::Services {
        mac: system(1).mac,
        vid: Vid { value: 10 },
        isids: Seq::from_vec(vec![in rt.alloc(); service].expect(&rt, "out of memory")),
    };
    let tlv = "90 10 00 00 03 0c 02 00 00 00 00 01 00 0a c0 00 00 64";
    let shown = "Ok([Services { mac: Mac { bytes: [2, 0, 0, 0, 0, 1] }, vid: Vid { value: 10 }, \
        isids: Seq { items: [Service { isid: Isid { value: 100 }, transmit: true, receive: true }] } }])";
    check_capability(&rt, rt.alloc(), &item, tlv, shown);
}

// Reserved bits set, an unknown sub-TLV, fields that are ignored, a tree of an unknown ECT-ALGORITHM with base VID
// 0, bytes after the trees, and I-SID 0.
#[test]
fn capabilities_of_another_implementation(rt: HostRuntime) {
    let value = "f0 00 c8 02 01 02
         01 24 09 09 09 09 09 09 09 09 09 09 09 09 00 07 ff f2 34 56 02
         ff 00 80 c2 11 00 01 23 ff 00 80 c2 10 01 41 23 ab
         03 10 02 00 00 00 00 01 f0 14 bf 00 00 05 ff 00 00 00";
    let shown = "Ok([Inst { priority: 7, source: SourceId { value: 144470 }, \
        trees: Seq { items: [VidPlan { vid: Vid { value: 20 }, ect: 16 }] } }, \
        Services { mac: Mac { bytes: [2, 0, 0, 0, 0, 1] }, vid: Vid { value: 20 }, \
        isids: Seq { items: [Service { isid: Isid { value: 5 }, transmit: true, receive: false }] } }])";
    read_shows(&rt, rt.alloc(), 144, value, shown);
}

#[test]
fn refusals_of_a_capability(rt: HostRuntime) {
    let outside = "00 00 03 08 02 00 00 00 00 01 ff ff";
    read_shows(&rt, rt.alloc(), 144, outside, "Err(Range)");
    let outside_and_cut = "00 00 03 08 02 00 00 00 00 01 00 00 01";
    read_shows(&rt, rt.alloc(), 144, outside_and_cut, "Err(Cut)");
}

#[test]
fn another_topology_says_nothing(rt: HostRuntime) {
    read_shows(&rt, rt.alloc(), 144, "00 01 03 09", "Ok([])");
}

fn is_found(rt: &impl Abort, tlvs: &[u8], code: u8, nth: usize, want: Option<&[u8]>) {
    are_equal(rt, &find_tlv(tlvs, code, nth), &want);
}

#[test]
fn a_tlv_by_its_code_and_number(rt: HostRuntime) {
    let tlvs = [1, 1, 0x49, 9, 0, 1, 2, 5, 6, 9, 1, 7, 1, 3, 8];
    is_found(&rt, &tlvs, 1, 0, Some(&[0x49]));
    is_found(&rt, &tlvs, 1, 1, Some(&[5, 6]));
    is_found(&rt, &tlvs, 9, 0, Some(&[]));
    is_found(&rt, &tlvs, 9, 1, Some(&[7]));
    is_found(&rt, &tlvs, 1, 2, None);
    is_found(&rt, &tlvs, 240, 0, None);
}

/// Asserts what the TLV at the front is split into.
fn is_split(rt: &impl Abort, bytes: &[u8], want: Option<(u8, &[u8], &[u8])>) {
    are_equal(rt, &split_tlv(bytes), &want);
}

#[test]
fn the_tlv_at_the_front(rt: HostRuntime) {
    let bytes = [MT_CAPABILITY, 2, 5, 6, EXTENDED_IS_REACHABILITY, 1];
    is_split(&rt, &bytes, Some((144, &[5, 6], &[22, 1])));
    is_split(&rt, &bytes[4..], None);
    is_split(&rt, &bytes[..3], None);
}
