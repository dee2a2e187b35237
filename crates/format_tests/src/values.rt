//! Tests of `spb_types`.
use crate::fixtures::{are_bytes, are_equal, system};
use spb_types::{
    LspId, Mac, Name, PortSet, Seq, Short, ect_mask, lsp_id_in, mac_in, take_u8, take_u16,
    take_u24, take_u32, u16_in, u24_in, u32_in,
};
use std::alloc::Global;
use std::fmt::Debug;
use std::process::Abort;

fn check_name(rt: &impl Abort, word: &str) {
    let name = Name::new(word.as_bytes()).expect(rt, word);
    are_bytes(rt, name.bytes(), word.as_bytes());
}

fn check_no_name(rt: &impl Abort, word: &str) {
    assert!(*rt; Name::new(word.as_bytes()).is_none(), "{word}");
}

#[test]
fn names_are_letters_digits_dashes_and_underscores(rt: HostRuntime) {
    check_name(&rt, "A");
    check_name(&rt, "z9");
    check_name(&rt, "b-1_c");
    check_name(&rt, "abcdefghijklmnop");
}

#[test]
fn other_words_are_no_names(rt: HostRuntime) {
    for word in ["", "9a", "_a", "-", "a b", "a.b", "abcdefghijklmnopq"] {
        check_no_name(&rt, word);
    }
}

#[test]
fn group_addresses_have_the_lowest_bit_of_the_first_byte(rt: HostRuntime) {
    for (first, is_group) in [
        (0x00, false),
        (0x01, true),
        (0x02, false),
        (0x03, true),
        (0xff, true),
    ] {
        let mac = Mac {
            bytes: [first, 0, 0, 0, 0, 1],
        };
        assert!(rt; mac.is_group() == is_group, "first byte {first}");
    }
}

#[test]
fn lsp_ids_are_ordered_as_their_bytes(rt: HostRuntime) {
    let low = LspId {
        system: system(1),
        pseudonode: 0,
        number: 9,
    };
    let high = LspId {
        system: system(1),
        pseudonode: 1,
        number: 0,
    };
    assert!(rt; low < high);
}

#[test]
fn systems_are_the_same_by_all_six_bytes(rt: HostRuntime) {
    assert!(rt; system(1).is(system(1)));
    assert!(rt; !system(1).is(system(2)));
}

fn check_number(rt: &impl Abort, found: u32, expected: u32) {
    are_equal(rt, &found, &expected);
}

#[test]
fn ports_enter_and_leave_a_set(rt: HostRuntime) {
    let set = PortSet::none().with(1).with(32).with(9);
    check_number(&rt, set.bits, 0x8000_0101);
    assert!(rt; set.has(1) && !set.has(2) && set.has(9) && set.has(32));
    check_number(&rt, set.without(32).without(2).bits, 0x101);
    check_number(&rt, PortSet::none().bits, 0);
}

/// The list of these bytes.
fn list_of(rt: &impl Abort, alloc: Global, bytes: &[u8]) -> Seq<u8> {
    Seq::from_vec(Vec::from_slice(alloc, bytes).expect(rt, "out of memory"))
}

/// Asserts that a list has these bytes.
fn check_list(rt: &impl Abort, list: Seq<u8>, bytes: &[u8]) {
    assert!(*rt; list.is_empty() == bytes.is_empty());
    assert!(*rt; list.len() == bytes.len() && list.iter().count() == bytes.len());
    are_bytes(rt, list.as_slice(), bytes);
    are_bytes(rt, list.into_vec().as_slice(), bytes);
}

#[test]
fn a_list_gives_back_its_items(rt: HostRuntime) {
    check_list(&rt, Seq::new(rt.alloc()), &[]);
    check_list(&rt, list_of(&rt, rt.alloc(), &[7, 8]), &[7, 8]);
}

#[test]
fn a_list_is_cut_changed_and_lengthened(rt: HostRuntime) {
    let mut list = list_of(&rt, rt.alloc(), &[7, 8]);
    list.truncate(1);
    assert!(rt; list.len() == 1);
    list.set(0, 9);
    list.push(6).expect(&rt, "out of memory");
    check_list(&rt, list, &[9, 6]);
}

#[test]
fn masks_stand_in_their_order(rt: HostRuntime) {
    for (number, mask) in [
        (1, 0x00),
        (2, 0xff),
        (3, 0x88),
        (9, 0x22),
        (15, 0xdd),
        (16, 0xee),
    ] {
        assert!(rt; ect_mask(number) == mask, "mask of {number}");
    }
}

const BYTES: &[u8] = b"\x83\x14\x01\x00\x11";

fn check_taken<T: PartialEq + Debug + Drop>(
    rt: &impl Abort,
    found: Result<T, Short>,
    expected: Result<T, Short>,
) {
    are_equal(rt, &found, &expected);
}

#[test]
fn numbers_are_big_endian(rt: HostRuntime) {
    check_taken(&rt, take_u8(BYTES, 4), Ok(0x11));
    check_taken(&rt, take_u8(BYTES, 5), Err(Short));
    check_taken(&rt, take_u16(BYTES, 0), Ok(0x8314));
    check_taken(&rt, take_u16(BYTES, 4), Err(Short));
    check_taken(&rt, take_u24(BYTES, 2), Ok(0x01_0011));
    check_taken(&rt, take_u24(BYTES, usize::MAX), Err(Short));
    check_taken(&rt, take_u32(BYTES, 1), Ok(0x1401_0011));
    check_taken(&rt, take_u32(BYTES, 2), Err(Short));
}

#[test]
fn fields_are_read_from_their_place_on(rt: HostRuntime) {
    let bytes = [9, 1, 2, 3, 4, 5, 6, 7, 8];
    check_number(&rt, u32::from(u16_in(&bytes, 1)), 0x0102);
    check_number(&rt, u24_in(&bytes, 1), 0x01_0203);
    check_number(&rt, u32_in(&bytes, 5), 0x0506_0708);
    let id = lsp_id_in(&bytes, 1);
    are_bytes(&rt, &id.system.mac.bytes, &[1, 2, 3, 4, 5, 6]);
    assert!(rt; id.pseudonode == 7 && id.number == 8);
    are_bytes(&rt, &mac_in(&bytes, 0).bytes, &[9, 1, 2, 3, 4, 5]);
}
