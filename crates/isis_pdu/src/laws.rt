//! Laws of the format, for whoever reasons about PDUs as values. Each is its contract; none does anything.

ghost use Rattle.std.specs.Prelude.{◌≡◌, ℕ, List, ◌∷◌, ◌++◌, length, drop, nat_le, ◌&&◌, IsTrue, if◌then◌else◌};
ghost use Rattle.isis_pdu.specs.Checksum.{lsp_sum_of};
ghost use Rattle.isis_pdu.specs.Grammar.{IsBytes, IsPdu, IsReadFrom, IsCanonical, is_sound, is_sound_lsp};
ghost use Rattle.isis_pdu.specs.Pdu.{HelloValue, LspValue, CsnpValue, PsnpValue, PduValue, hello, lsp, csnp, psnp};
ghost use Rattle.isis_pdu.specs.Reading.{read};
ghost use Rattle.isis_pdu.specs.Spelling.{Ignored, AreIgnored, pdu_with, hello_bytes, lsp_bytes, csnp_bytes, psnp_bytes, pdu_bytes};
ghost use Rattle.isis_pdu.specs.Tlvs.{is_whole};

use crate::pdu::PduError;

/// A PDU in any of its spellings is read, whatever bytes follow it. Only an LSP whose checksum must hold and doesn't is
/// refused.
pub fn spelled_is_read()
    ensures { (over : Ignored) (pdu : PduValue) (after : List ℕ) → AreIgnored over → IsPdu pdu
        → read (pdu_with over pdu ++ after) ≡ (if is_sound pdu then Ok pdu else Err PduError.Sum) }
{}

/// What is read from bytes is spelled in them.
pub fn read_is_spelled()
    ensures { (bytes : List ℕ) (pdu : PduValue) → IsBytes bytes → read bytes ≡ Ok pdu → IsReadFrom bytes pdu }
{}

/// What a writer writes is read again. An LSP is so exactly where its checksum isn't 0 and holds, or its lifetime or
/// its sequence number is 0.
pub fn written_is_read()
    ensures hellos { (h : HelloValue) → IsPdu (hello h) → read (hello_bytes h) ≡ Ok (hello h) }
    ensures lsps { (l : LspValue) → IsPdu (lsp l)
        → read (lsp_bytes l) ≡ (if is_sound_lsp l then Ok (lsp l) else Err PduError.Sum) }
    ensures csnps { (c : CsnpValue) → IsPdu (csnp c) → read (csnp_bytes c) ≡ Ok (csnp c) }
    ensures psnps { (p : PsnpValue) → IsPdu (psnp p) → read (psnp_bytes p) ≡ Ok (psnp p) }
{}

/// What is read from bytes that are as a writer makes them is written to the same bytes.
pub fn read_is_written_again()
    ensures { (bytes : List ℕ) (pdu : PduValue) → IsBytes bytes → read bytes ≡ Ok pdu → IsCanonical bytes pdu
        → pdu_bytes pdu ≡ bytes }
{}

/// An LSP with the checksum that `lsp_sum` gives it is read.
pub fn made_sums_hold()
    ensures { (l : LspValue) → l.sum ≡ lsp_sum_of l.id l.seq l.flags l.tlvs → IsTrue (is_sound_lsp l) }
{}

/// Whole TLVs, one by one: a TLV is whole, those that begin with one go on behind its value, and whole ones before
/// others change nothing of these.
pub fn whole_tlvs()
    ensures next { (code len : ℕ) (bytes : List ℕ)
        → is_whole (code ∷ len ∷ bytes) ≡ (nat_le len (length bytes) && is_whole (drop len bytes)) }
    ensures one { (code : ℕ) (value : List ℕ) → IsTrue (is_whole (code ∷ length value ∷ value)) }
    ensures joined { (first after : List ℕ) → IsTrue (is_whole first) → is_whole (first ++ after) ≡ is_whole after }
{}
