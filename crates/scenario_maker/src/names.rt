//! The names of bridges and links, and the places on the ring.
ghost use Rattle.std.specs.Prelude.{◌≡◌, ◌<◌, ◌≤◌, ◌*◌, ◌∷◌, IsTrue, decimal};
ghost use Rattle.spb_types.specs.Name as grammar;
ghost use Rattle.scenario_maker.specs.Made as made;

use spb_types::Name;

/// The name that these bytes are.
fn name_of(bytes: &[u8]) -> Name
    requires { IsTrue (grammar.is_name bytes.now) }
    ensures { result ≡ bytes.now }
{
    Name::new(bytes).unwrap()
}

/// A letter and then a number of one or two digits.
#[tactic(auto, using(crate::proofs::Numbers::decimal_one, crate::proofs::Numbers::decimal_pair))]
fn numbered(letter: u8, k: u8) -> Name
    requires letter { IsTrue (grammar.is_letter letter) }
    requires number { k < 100 }
    ensures { result ≡ letter ∷ decimal k }
{
    if k < 10 {
        name_of(&[letter, b'0' + k])
    } else {
        name_of(&[letter, b'0' + k / 10, b'0' + k % 10])
    }
}

/// The name of bridge `k`.
pub(crate) fn bridge_name(k: u8) -> Name
    requires { k < 100 }
    ensures { result ≡ made.bridge_name k }
{
    numbered(b'b', k)
}

/// The name of the link of the ring that leads on from bridge `k`.
pub(crate) fn ring_name(k: u8) -> Name
    requires { k < 100 }
    ensures { result ≡ made.ring_name k }
{
    numbered(b'r', k)
}

/// The name of the chord from bridge `k`.
pub(crate) fn chord_name(k: u8) -> Name
    requires { k < 100 }
    ensures { result ≡ made.chord_name k }
{
    numbered(b'c', k)
}

/// The place `m` on a ring of `n`, on which 1 follows on `n`.
fn wrapped(n: u8, m: u8) -> u8
    requires { m ≤ 2 * n }
    ensures place { result ≡ made.wrapped n m }
    ensures within { result ≤ n }
{
    if m > n { m - n } else { m }
}

/// The bridge behind bridge `k` on a ring of `n`.
pub(crate) fn next_of(n: u8, k: u8) -> u8
    requires few { n ≤ 96 }
    requires some { 1 ≤ k }
    requires within { k ≤ n }
    ensures place { result ≡ made.next_of n k }
    ensures within { result ≤ n }
{
    wrapped(n, k + 1)
}

/// The bridge across bridge `k` on a ring of `n`.
pub(crate) fn across(n: u8, k: u8) -> u8
    requires few { n ≤ 96 }
    requires within { k ≤ n }
    ensures place { result ≡ made.across n k }
    ensures within { result ≤ n }
{
    wrapped(n, k + n / 2)
}
