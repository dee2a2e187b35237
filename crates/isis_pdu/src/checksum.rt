//! The checksum of an LSP (ISO 8473-1, annex C): made, and looked at.
ghost use Rattle.std.specs.Prelude.{◌≡◌, ◌≤◌, ℕ, length, IsTrue};
ghost use Rattle.isis_pdu.specs.Checksum as field;
ghost use Rattle.isis_pdu.specs.Checksum.{IsReduced, total, weight, sums_from, sums_of, check_byte, is_checked, covered, lsp_sum_of, HasCheckBytes};

use spb_types::LspId;

/// How many bytes are added up before the sums are reduced modulo 255: so many that the sums fit.
const BLOCK: usize = 4_096;

/// The two running sums of the checksum (ISO 8473-1, annex C), each below 255.
#[derive(Clone, Copy)]
struct Sums {
    c0: u8,
    c1: u8,
}

impl Sums {
    const NONE: Sums = Sums { c0: 0, c1: 0 };

    fn over(self, bytes: &[u8]) -> Sums
        requires { IsReduced self }
        ensures sums { result ≡ sums_from self bytes.now }
        ensures reduced { IsReduced result }
    {
        let mut sums = self;
        let mut rest = bytes;
        while rest.len() > BLOCK {
            let (block, after) = rest.split_at(BLOCK);
            sums = sums.over_block(block);
            rest = after;
        }
        sums.over_block(rest)
    }

    /// The sums after one block. The first sum enters the second once for each byte, and so does each byte for itself
    /// and each byte after it.
    fn over_block(self, bytes: &[u8]) -> Sums
        requires reduced { IsReduced self }
        requires short { length bytes.now ≤ 4096 }
        ensures sums { result ≡ sums_from self bytes.now }
        ensures reduced { IsReduced result }
    {
        let len = bytes.len() as u32;
        let c0 = u32::from(self.c0);
        let (total, weight) = totals(bytes);
        Sums {
            c0: ((c0 + total) % 255) as u8,
            c1: ((u32::from(self.c1) + len * c0 + weight) % 255) as u8,
        }
    }
}

/// The sum of the bytes, and the sum of each byte times its place counted from the end.
fn totals(bytes: &[u8]) -> (u32, u32)
    requires { length bytes.now ≤ 4096 }
    ensures total { result.0 ≡ total bytes.now }
    ensures weight { result.1 ≡ weight bytes.now }
{
    let mut total = 0;
    let mut weight = 0;
    let mut place = bytes.len() as u32;
    for byte in bytes {
        let byte = u32::from(*byte);
        total += byte;
        weight += byte * place;
        place -= 1;
    }
    (total, weight)
}

/// The number in 1 to 255 that is `number` modulo 255.
fn in_one_byte(number: u32) -> u8
    ensures { result ≡ check_byte number }
{
    match number % 255 {
        0 => 255,
        rest => rest as u8,
    }
}

/// Whether both running sums of the bytes end as 0 (ISO 8473-1, annex C).
pub fn check_ok(covered: &[u8]) -> bool
    ensures { result ≡ is_checked covered.now }
{
    let sums = Sums::NONE.over(covered);
    sums.c0 == 0 && sums.c1 == 0
}

/// The running sums of what the checksum covers, with 0 in the place of the two check bytes.
fn sums_without_check(id: &LspId, seq: u32, flags: u8, tlvs: &[u8]) -> Sums
    ensures { result ≡ sums_of (covered id.now seq 0 flags tlvs.now) }
{
    Sums::NONE
        .over(&id.system.mac.bytes)
        .over(&[id.pseudonode, id.number])
        .over(&seq.to_be_bytes())
        .over(&[0, 0])
        .over(&[flags])
        .over(tlvs)
}

/// The two check bytes, the first one as the high byte, for TLVs of `len` bytes, from the sums without them.
#[tactic(auto, unfolding(crate::specs::Checksum::check_field))]
fn check_field(sums: Sums, len: usize) -> u16
    ensures { result ≡ field.check_field sums len }
{
    let places = (len % 255) as u32 + 2;
    let first = in_one_byte(places * u32::from(sums.c0) + 255 - u32::from(sums.c1));
    let second = in_one_byte(510 - u32::from(sums.c0) - u32::from(first));
    u16::from(first) * 256 + u16::from(second)
}

/// The checksum field of an LSP with these fields: the two check bytes with which [`check_ok`] holds of what it covers,
/// from its id to its end (ISO/IEC 10589, 7.3.11). Each check byte is in 1 to 255, and the first is the high one.
pub fn lsp_sum(id: &LspId, seq: u32, flags: u8, tlvs: &[u8]) -> u16
    ensures value { result ≡ lsp_sum_of id.now seq flags tlvs.now }
    ensures bytes { HasCheckBytes result }
    ensures holds { IsTrue (is_checked (covered id.now seq result flags tlvs.now)) }
    ensures only { (sum : ℕ) → HasCheckBytes sum → IsTrue (is_checked (covered id.now seq sum flags tlvs.now)) → sum ≡ result }
{
    check_field(sums_without_check(id, seq, flags, tlvs), tlvs.len())
}
