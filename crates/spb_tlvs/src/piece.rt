//! The piece at the front of bytes: a head, and behind it as many bytes as its last byte counts.
ghost use Rattle.std.specs.Prelude.{◌≡◌, ◌≤◌, true, false, length, MatchOption};
ghost use Rattle.spb_tlvs.specs.Piece.{starts_whole, first_piece, after_first};

/// The piece at the front of the bytes, and the bytes after it. A piece is a head of `head` bytes, whose last byte
/// counts the bytes that follow the head, and those bytes. None exactly where no whole piece stands at the front.
pub(crate) fn split_piece(head: usize, bytes: &[u8]) -> Option<(&[u8], &[u8])>
    requires low { 1 ≤ head }
    requires high { head ≤ 11 }
    ensures cases { MatchOption result (starts_whole head bytes.now ≡ false) (λ p. starts_whole head bytes.now ≡ true) }
    ensures piece { MatchOption result (starts_whole head bytes.now ≡ false) (λ p. p.0.now ≡ first_piece head bytes.now) }
    ensures after { MatchOption result (starts_whole head bytes.now ≡ false) (λ p. p.1.now ≡ after_first head bytes.now) }
    ensures whole { MatchOption result (starts_whole head bytes.now ≡ false) (λ p. head ≤ length p.0.now) }
{
    if bytes.len() < head {
        return None;
    }
    let end = head + usize::from(bytes[head - 1]);
    if bytes.len() < end {
        return None;
    }
    Some(bytes.split_at(end))
}
