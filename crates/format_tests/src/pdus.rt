//! Tests of `isis_pdu`: bytes made by hand after the standard's layouts. Their checksums come from a search over all pairs of check bytes.

ghost use Rattle.std.specs.Prelude.{◌≤◌, length};

use crate::fixtures::{HELLO, are_bytes, are_equal, changed, hex, lsp_id, system};
use isis_pdu::{
    Csnp, Hello, Lsp, Pdu, PduError, check_ok, decode, lsp_sum, write_csnp, write_hello, write_lsp,
    write_psnp,
};
use spb_types::{LspId, Mac, NoMemory, SystemId};
use std::alloc::Global;
use std::process::Abort;

/// An LSP of number 1 without a neighbour.
const FIRST_LSP: &[u8] = b"\
    \x83\x1b\x01\x00\x12\x01\x00\x00\x00\x3d\x04\xb0\x02\x00\x00\x00\x00\x01\x00\x00\x00\x00\x00\x01\
    \x4f\xd7\x01\x01\x04\x03\x49\x00\x01\x81\x01\xc1\x90\x17\x00\x00\x01\x13\x00\x00\x00\x00\x00\x00\
    \x00\x00\x00\x00\x00\x00\x80\x00\x00\x00\x00\x01\x00";

/// A PSNP of one entry.
const PSNP: &[u8] = b"\
    \x83\x11\x01\x00\x1a\x01\x00\x00\x00\x23\x02\x00\x00\x00\x00\x01\x00\x09\x10\x04\xae\x02\x00\x00\
    \x00\x00\x02\x00\x00\x00\x00\x00\x02\xc2\xf3";

/// A CSNP of the same entry, over all ids.
const CSNP: &[u8] = b"\
    \x83\x21\x01\x00\x18\x01\x00\x00\x00\x33\x02\x00\x00\x00\x00\x01\x00\x00\x00\x00\x00\x00\x00\x00\
    \x00\xff\xff\xff\xff\xff\xff\xff\xff\x09\x10\x04\xae\x02\x00\x00\x00\x00\x02\x00\x00\x00\x00\x00\
    \x02\xc2\xf3";

/// A dead LSP: the fixed part alone.
const DEAD_LSP: &[u8] = b"\
    \x83\x1b\x01\x00\x12\x01\x00\x00\x00\x1b\x00\x00\x02\x00\x00\x00\x00\x02\x00\x00\x00\x00\x00\x02\
    \x00\x00\x01";

/// The front of another implementation's hello of 1,497 bytes, which padding fills up: levels 1 and 2, TLVs 1, 129, 132
/// and 240.
const FOREIGN_HELLO: &[u8] = b"\
    \x83\x14\x01\x00\x11\x01\x00\x00\x03\x19\x21\x68\x00\x10\x02\x00\x1e\x05\xd9\x01\x01\x04\x03\x49\
    \x00\x02\x81\x02\xcc\x8e\x84\x04\x0a\x00\x00\x02\xf0\x0f\x00\x00\x00\x00\x03\x19\x21\x68\x00\x10\
    \x01\x00\x00\x00\x05";

/// Another implementation's LSP of a pseudonode's second fragment, with TLVs 1, 129, 137, 134, 132, 135, 250 and an
/// empty 200.
/// Its header says an id length of 6 and 3 areas.
const FOREIGN_LSP: &[u8] = b"\
    \x83\x1b\x01\x06\x12\x01\x00\x03\x00\x4a\x04\xa9\x19\x21\x68\x00\x10\x02\x03\x01\x00\x00\x01\x2f\
    \x79\x09\x03\x01\x04\x03\x49\x00\x02\x81\x02\xcc\x8e\x89\x06\x72\x74\x72\x2d\x62\x32\x86\x04\x0a\
    \x00\x00\x02\x84\x04\x0a\x00\x00\x02\x87\x08\x00\x00\x00\x0a\x18\x0a\x00\x01\xfa\x03\x01\x02\x03\
    \xc8\x00";

/// Another implementation's CSNP of three entries and a password.
const FOREIGN_CSNP: &[u8] = b"\
    \x83\x21\x01\x00\x18\x01\x00\x03\x00\x5c\x19\x21\x68\x00\x10\x01\x00\x00\x00\x00\x00\x00\x00\x00\
    \x00\xff\xff\xff\xff\xff\xff\xff\xff\x09\x30\x04\xa7\x19\x21\x68\x00\x10\x01\x00\x00\x00\x00\x01\
    \x31\x8a\x3c\x04\xa9\x19\x21\x68\x00\x10\x02\x03\x01\x00\x00\x01\x2f\x79\x09\x00\x00\x19\x21\x68\
    \x00\x10\x03\x00\x00\x00\x00\x00\x07\x00\x00\x0a\x07\x01\x73\x65\x63\x72\x65\x74";

fn system_of(bytes: [u8; 6]) -> SystemId {
    SystemId { mac: Mac { bytes } }
}

fn is_read(rt: &impl Abort, bytes: &[u8], want: Pdu<'_>) {
    are_equal(rt, &decode(bytes), &Ok(want));
}

fn is_refused(rt: &impl Abort, bytes: &[u8], want: PduError) {
    are_equal(rt, &decode(bytes), &Err(want));
}

#[test]
#[tactic(auto, unfolding(isis_pdu::specs::Tlvs::is_whole_after))]
fn a_hello_is_written_and_read(rt: HostRuntime) {
    let hello = Hello {
        circuit_type: 1,
        source: system(1),
        holding: 3,
        circuit: 1,
        tlvs: &[1, 4, 3, 0x49, 0, 1, 0x81, 1, 0xc1, 0xf0, 5, 2, 0, 0, 0, 1],
    };
    let written = write_hello(rt.alloc(), &hello).expect(&rt, "out of memory");
    are_bytes(&rt, written.as_slice(), HELLO);
    is_read(&rt, HELLO, Pdu::Hello(hello));
}

fn is_sum(rt: &impl Abort, found: u16, want: u16) {
    are_equal(rt, &found, &want);
}

#[test]
fn the_first_lsp_is_read(rt: HostRuntime) {
    let id = lsp_id(system(1));
    let tlvs = &FIRST_LSP[27..];
    let lsp = Lsp {
        lifetime: 1200,
        id,
        seq: 1,
        sum: 0x4fd7,
        flags: 1,
        tlvs,
    };
    is_read(&rt, FIRST_LSP, Pdu::Lsp(lsp));
    is_sum(&rt, lsp_sum(&id, 1, 1, tlvs), 0x4fd7);
    assert!(rt; check_ok(&FIRST_LSP[12..]));
}

#[test]
fn a_dead_lsp_is_read(rt: HostRuntime) {
    let lsp = Lsp {
        lifetime: 0,
        id: lsp_id(system(2)),
        seq: 2,
        sum: 0,
        flags: 1,
        tlvs: &[],
    };
    is_read(&rt, DEAD_LSP, Pdu::Lsp(lsp));
}

/// Reads a PDU and writes it again. Nothing where it is refused.
fn written_again(alloc: Global, bytes: &[u8]) -> Result<Vec<u8>, NoMemory>
    requires { length bytes.now ≤ 1497 }
{
    match decode(bytes) {
        Ok(Pdu::Hello(hello)) => write_hello(alloc, &hello),
        Ok(Pdu::Lsp(lsp)) => write_lsp(alloc, &lsp),
        Ok(Pdu::Csnp(csnp)) => write_csnp(alloc, &csnp),
        Ok(Pdu::Psnp(psnp)) => write_psnp(alloc, &psnp),
        Err(_) => Ok(Vec::new(alloc)),
    }
}

fn is_written_again(rt: &impl Abort, alloc: Global, bytes: &[u8]) {
    assert!(*rt; bytes.len() <= 1497);
    let written = written_again(alloc, bytes).expect(rt, "out of memory");
    are_bytes(rt, written.as_slice(), bytes);
}

#[test]
fn pdus_are_written_again(rt: HostRuntime) {
    is_written_again(&rt, rt.alloc(), HELLO);
    is_written_again(&rt, rt.alloc(), FIRST_LSP);
    is_written_again(&rt, rt.alloc(), DEAD_LSP);
    is_written_again(&rt, rt.alloc(), CSNP);
    is_written_again(&rt, rt.alloc(), PSNP);
}

/// Asserts the checksum of an LSP at a number: of a bridge with this source id, which says these TLVs of itself.
fn sum_is(rt: &impl Abort, source: u8, seq: u32, tlvs: &[u8], want: u16) {
    is_sum(rt, lsp_sum(&lsp_id(system(source)), seq, 1, tlvs), want);
}

/// The same where the TLVs name a neighbour at port 1 with this metric.
fn check_sum(
    rt: &impl Abort,
    alloc: Global,
    source: u8,
    neighbour: u8,
    seq: u32,
    metric: u8,
    want: u16,
) {
    let tlvs = format!(in alloc;
        "01 04 03 49 00 01 81 01 c1
        16 13 02 00 00 00 00 {neighbour:02x} 00 00 00 {metric:02x} 08 1d 06 00 00 {metric:02x} 01 00 01
        90 17 00 00 01 13 00 00 00 00 00 00 00 00 00 00 00 00 80 00 00 00 00 {source:02x} 00"
    );
    let tlvs = hex(rt, alloc, tlvs.expect(rt, "out of memory").as_str());
    sum_is(rt, source, seq, tlvs.as_slice(), want);
}

#[test]
fn checksums(rt: HostRuntime) {
    check_sum(&rt, rt.alloc(), 1, 2, 2, 10, 0xa512);
    check_sum(&rt, rt.alloc(), 1, 2, 4, 10, 0xa114);
    check_sum(&rt, rt.alloc(), 1, 2, 3, 15, 0x9e0e);
    check_sum(&rt, rt.alloc(), 2, 1, 2, 10, 0xc2f3);
    check_sum(&rt, rt.alloc(), 2, 1, 8, 15, 0xb1f4);
    check_sum(&rt, rt.alloc(), 2, 1, 3, 20, 0xb6ea);
}

#[test]
fn the_checksum_of_another_first_lsp(rt: HostRuntime) {
    let other = changed(&rt, rt.alloc(), &FIRST_LSP[27..], 32, 2);
    sum_is(&rt, 2, 1, other.as_slice(), 0x69bb);
}

/// Asserts what is answered of the first LSP with another byte at a place.
fn is_refused_with(rt: &impl Abort, alloc: Global, place: usize, byte: u8, want: PduError) {
    is_refused(
        rt,
        changed(rt, alloc, FIRST_LSP, place, byte).as_slice(),
        want,
    );
}

#[test]
fn refusals(rt: HostRuntime) {
    is_refused_with(&rt, rt.alloc(), 0, 0x82, PduError::NotIsis);
    is_refused_with(&rt, rt.alloc(), 2, 2, PduError::NotIsis);
    is_refused_with(&rt, rt.alloc(), 3, 5, PduError::NotIsis);
    is_refused_with(&rt, rt.alloc(), 5, 0, PduError::NotIsis);
    is_refused_with(&rt, rt.alloc(), 7, 2, PduError::NotIsis);
    is_refused_with(&rt, rt.alloc(), 4, 0x13, PduError::Kind);
    is_refused_with(&rt, rt.alloc(), 1, 0x1a, PduError::Kind);
    is_refused_with(&rt, rt.alloc(), 9, 0x1a, PduError::Length);
    is_refused_with(&rt, rt.alloc(), 9, 0x3e, PduError::Length);
    is_refused_with(&rt, rt.alloc(), 9, 0x3c, PduError::TlvCut);
    is_refused_with(&rt, rt.alloc(), 37, 0x18, PduError::TlvCut);
    is_refused_with(&rt, rt.alloc(), 60, 1, PduError::Sum);
}

#[test]
fn a_cut_lsp_is_refused(rt: HostRuntime) {
    is_refused(&rt, &FIRST_LSP[..60], PduError::Length);
    is_refused(&rt, &FIRST_LSP[..7], PduError::Short);
}

#[test]
fn a_checksum_of_0_is_refused_but_for_a_sequence_number_of_0(rt: HostRuntime) {
    let alloc = rt.alloc();
    let one = changed(&rt, alloc, FIRST_LSP, 24, 0);
    let zero = changed(&rt, alloc, one.as_slice(), 25, 0);
    is_refused(&rt, zero.as_slice(), PduError::Sum);
    let new = changed(&rt, alloc, zero.as_slice(), 23, 0);
    assert!(rt; decode(new.as_slice()).is_ok());
    // another type is refused before another length
    let other = changed(&rt, alloc, new.as_slice(), 4, 0x19);
    let longer = changed(&rt, alloc, other.as_slice(), 9, 0xff);
    is_refused(&rt, longer.as_slice(), PduError::Kind);
}

/// Appends a padding TLV with so many bytes of 0.
fn pad(rt: &impl Abort, bytes: &mut Vec<u8>, len: u8) {
    bytes.push(8).expect(rt, "out of memory");
    bytes.push(len).expect(rt, "out of memory");
    for _ in 0..len {
        bytes.push(0).expect(rt, "out of memory");
    }
}

/// That hello, padded to its 1,497 bytes.
fn padded(rt: &impl Abort, alloc: Global) -> Vec<u8> {
    let mut bytes = Vec::from_slice(alloc, FOREIGN_HELLO).expect(rt, "out of memory");
    for _ in 0..5 {
        pad(rt, &mut bytes, 255);
    }
    pad(rt, &mut bytes, 157);
    bytes
}

#[test]
fn a_padded_hello_of_another_implementation(rt: HostRuntime) {
    let bytes = padded(&rt, rt.alloc());
    assert!(rt; bytes.len() == 1497);
    let hello = Hello {
        circuit_type: 3,
        source: system_of([0x19, 0x21, 0x68, 0, 0x10, 2]),
        holding: 30,
        circuit: 1,
        tlvs: &bytes[20..],
    };
    is_read(&rt, bytes.as_slice(), Pdu::Hello(hello));
}

#[test]
fn an_lsp_of_another_implementation(rt: HostRuntime) {
    let lsp = Lsp {
        lifetime: 1193,
        id: LspId {
            system: system_of([0x19, 0x21, 0x68, 0, 0x10, 2]),
            pseudonode: 3,
            number: 1,
        },
        seq: 303,
        sum: 0x7909,
        flags: 3,
        tlvs: &FOREIGN_LSP[27..],
    };
    is_read(&rt, FOREIGN_LSP, Pdu::Lsp(lsp));
}

#[test]
fn a_csnp_of_another_implementation(rt: HostRuntime) {
    let csnp = Csnp {
        source: system_of([0x19, 0x21, 0x68, 0, 0x10, 1]),
        start: lsp_id(system_of([0; 6])),
        end: LspId {
            system: system_of([255; 6]),
            pseudonode: 255,
            number: 255,
        },
        tlvs: &FOREIGN_CSNP[33..],
    };
    let mut frame = Vec::from_slice(rt.alloc(), FOREIGN_CSNP).expect(&rt, "out of memory");
    frame
        .extend_from_slice(&[0xa5; 4])
        .expect(&rt, "out of memory");
    is_read(&rt, frame.as_slice(), Pdu::Csnp(csnp));
}
