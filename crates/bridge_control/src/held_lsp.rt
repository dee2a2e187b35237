//! An LSP that is held: where it comes again, it isn't read, and its checksum isn't summed.
ghost use Rattle.std.specs.Prelude.{◌≡◌, ◌≤◌, true, Ok, IfSome, length, take, drop};
ghost use Rattle.isis_pdu.specs.Grammar.{IsId};
ghost use Rattle.isis_pdu.specs.Pdu as pdus;
ghost use Rattle.isis_pdu.specs.Reading.{read};
ghost use Rattle.lsdb.specs.Entry.{entry_of};
ghost use Rattle.flooding.specs.Entries.{IsSendable, AreSendable};
ghost use Rattle.bridge_control.specs.HeldLsp.{lsp_head};

use isis_pdu::Lsp;
use lsdb::{Database, Held, Version};
use spb_types::{LspId, lsp_id_in, u16_in};

/// The greatest length of a PDU that is written.
const LONGEST: usize = 1_497;

/// The type of an LSP (ISO/IEC 10589, 9.8).
const LSP: u8 = 18;

/// Where the id of an LSP stands in the database; past the last place where it isn't held, or the PDU isn't an LSP.
pub(crate) fn place_of_lsp(db: &Database, pdu: &[u8]) -> usize {
    if pdu.len() < 27 || pdu[4] != LSP {
        return usize::MAX;
    }
    match db.look_up(&lsp_id_in(pdu, 12)).place {
        Some(place) => place,
        None => usize::MAX,
    }
}

/// The LSP that a PDU brings, if it is live and held as it is at a place, whatever lifetime it has left. It isn't read:
/// what is held can be, and its checksum holds.
pub(crate) fn held_lsp<'a>(db: &Database, place: usize, pdu: &'a [u8]) -> Option<Lsp<'a>>
    requires { AreSendable db.now }
    ensures { IfSome result (λ l. read pdu.now ≡ Ok (pdus.lsp (pdus.lsp_of l))) }
{
    let held = db.at(place)?;
    if pdu.len() < 27 || pdu.len() > LONGEST {
        return None;
    }
    same_lsp(held, pdu)
}

/// The LSP that a PDU brings, if it is this one and live.
fn same_lsp<'a>(held: &Held, pdu: &'a [u8]) -> Option<Lsp<'a>>
    requires long { 27 ≤ length pdu.now }
    requires short { length pdu.now ≤ LONGEST }
    requires sendable { IsSendable held.now.id (entry_of held.now) }
    ensures { IfSome result (λ l. read pdu.now ≡ Ok (pdus.lsp (pdus.lsp_of l))) }
{
    match held.version {
        Version::Absent => None,
        Version::Live { seq, sum } => live_lsp(held, seq, sum, pdu),
        Version::Dead { seq: _ } => None,
    }
}

/// The LSP that a PDU brings, if it is this one, which is live with this number and checksum.
fn live_lsp<'a>(held: &Held, seq: u32, sum: u16, pdu: &'a [u8]) -> Option<Lsp<'a>>
    requires long { 27 ≤ length pdu.now }
    requires short { length pdu.now ≤ LONGEST }
    requires live { held.now.version ≡ Version.Live seq sum }
    requires sendable { IsSendable held.now.id (entry_of held.now) }
    ensures { IfSome result (λ l. read pdu.now ≡ Ok (pdus.lsp (pdus.lsp_of l))) }
{
    let lifetime = u16_in(pdu, 10);
    let head = head_of(held.id, pdu.len() as u16, lifetime, seq, sum);
    let (_, tlvs) = pdu.split_at(27);
    if is_joined(pdu, head.as_slice(), held.body.as_slice()) {
        return Some(Lsp {
            lifetime,
            id: held.id,
            seq,
            sum,
            flags: pdu[26],
            tlvs,
        });
    }
    None
}

/// Whether a PDU is the bytes before the flags octet, and then the body.
fn is_joined(pdu: &[u8], head: &[u8], body: &[u8]) -> bool
    requires { 26 ≤ length pdu.now }
    ensures head { result ≡ true → take 26 pdu.now ≡ head.now }
    ensures body { result ≡ true → drop 26 pdu.now ≡ body.now }
{
    let (first, rest) = pdu.split_at(26);
    first == head && rest == body
}

/// The bytes of an LSP before its flags octet, for a PDU of `len` bytes.
fn head_of(id: LspId, len: u16, lifetime: u16, seq: u32, sum: u16) -> [u8; 26]
    ensures head { result ≡ lsp_head len lifetime id seq sum }
    ensures id { IsId id.system }
{
    let [a, b, c, d, e, f] = id.system.mac.bytes;
    [
        0x83,
        27,
        1,
        0,
        LSP,
        1,
        0,
        0,
        (len / 256) as u8,
        (len % 256) as u8,
        (lifetime / 256) as u8,
        (lifetime % 256) as u8,
        a,
        b,
        c,
        d,
        e,
        f,
        id.pseudonode,
        id.number,
        (seq / 16_777_216) as u8,
        (seq / 65_536 % 256) as u8,
        (seq / 256 % 256) as u8,
        (seq % 256) as u8,
        (sum / 256) as u8,
        (sum % 256) as u8,
    ]
}
