//! TLVs among others: parted from the front, and found by their code.
ghost use Rattle.std.specs.Prelude.{◌≡◌, ◌<◌, ◌++◌, ◌∷◌, [], ◌==◌, ℕ, false, length, MatchOption, if◌then◌else◌};
ghost use Rattle.std.specs.List.{slice_get};
ghost use Rattle.std.specs.Option.{option_copied};
ghost use Rattle.spb_tlvs.specs.Piece.{starts_whole};
ghost use Rattle.spb_tlvs.specs.Tlv.{tlv, values_with};

use crate::piece::split_piece;

/// How many bytes of a TLV stand before its value: the code and the length.
pub(crate) const TLV_HEAD: usize = 2;

/// The TLV at the front (the variable length fields of ISO/IEC 10589, 9.5 to 9.13): its code, its value, and the bytes
/// after it. None exactly where no whole TLV stands there.
pub fn split_tlv(bytes: &[u8]) -> Option<(u8, &[u8], &[u8])>
    ensures whole { MatchOption result (starts_whole 2 bytes.now ≡ false) (λ t. bytes.now ≡ tlv t.0 t.1.now ++ t.2.now) }
    ensures shorter { MatchOption result (starts_whole 2 bytes.now ≡ false) (λ t. length t.2.now < length bytes.now) }
    // So the values with a code are its own, where it has that code, and those after it.
    ensures values { (code : ℕ) → MatchOption result (values_with code bytes.now ≡ [])
        (λ t. values_with code bytes.now ≡ (if t.0 == code then t.1.now ∷ values_with code t.2.now else values_with code t.2.now)) }
{
    let (tlv, after) = split_piece(TLV_HEAD, bytes)?;
    let (_, value) = tlv.split_at(TLV_HEAD);
    Some((tlv[0], value, after))
}

/// The value of the TLV number `nth` of this code, counted from 0 among the whole TLVs from the front on (the variable
/// length fields of ISO/IEC 10589, 9.5 to 9.13). None exactly where there are fewer than `nth + 1` of that code.
pub fn find_tlv(tlvs: &[u8], code: u8, nth: usize) -> Option<&[u8]>
    ensures { option_copied result ≡ slice_get (values_with code tlvs.now) nth }
{
    let mut rest = tlvs;
    let mut before = nth;
    while let Some((found, value, after)) = split_tlv(rest) {
        if found == code {
            if before == 0 {
                return Some(value);
            }
            before -= 1;
        }
        rest = after;
    }
    None
}
