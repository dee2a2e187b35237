//! What a word of a line means: names, numbers, addresses, sources, directions, ends of links, modes, frames.
ghost use Rattle.std.specs.Prelude.{◌≡◌, ◌+◌, ◌≤◌, ◌<◌, ℕ, List, Option, length, IsTrue, IfOk, unwrap_or};
ghost use Rattle.hex.specs.Hex.{hex_digit_value, is_hex_digit};
ghost use Rattle.std.specs.List.{list_all};
ghost use Rattle.spb_types.specs.Name.{is_digit};
ghost use Rattle.scenario.specs.WordForms as forms;
ghost use Rattle.scenario.specs.Keywords.{extra_keyword, change_of};

use crate::extra::{Change, ExtraKeyword};
use spb_types::{Dir, EntryWord, Mac, Mode, Name, NoMemory, Seq, Side, SourceId};
use std::alloc::Global;
use std::marker::Model;

/// What a word of a line may mean.
pub trait Field<'a>: Sized {
    ghost meaning: { List ℕ → Option Self };

    /// What the word means. None where it isn't of this form.
    fn read(word: &'a [u8]) -> Option<Self>
        ensures { result ≡ meaning word.now };
}

impl<'a> Field<'a> for Name {
    ghost meaning = { forms.name };

    #[tactic(auto, unfolding(crate::specs::WordForms::name))]
    fn read(word: &'a [u8]) -> Option<Name> {
        Name::new(word)
    }
}

/// Whether every byte is a decimal digit.
fn are_digits(bytes: &[u8]) -> bool
    ensures { result ≡ list_all is_digit bytes.now }
{
    bytes.iter().all(u8::is_ascii_digit)
}

/// The number that at most ten decimal digits write.
fn decimal(digits: &[u8]) -> u64
    requires few { length digits.now ≤ 10 }
    requires digits { IsTrue (list_all is_digit digits.now) }
    ensures { result ≡ forms.decimal digits.now }
{
    let mut value = 0;
    for digit in digits {
        value = value * 10 + u64::from(*digit - b'0');
    }
    value
}

impl<'a> Field<'a> for u64 {
    ghost meaning = { forms.number };

    #[tactic(auto, unfolding(crate::specs::WordForms::number))]
    fn read(word: &'a [u8]) -> Option<u64> {
        if !word.is_empty() && word.len() <= 10 && are_digits(word) {
            Some(decimal(word))
        } else {
            None
        }
    }
}

/// Whether every byte is a hexadecimal digit, in either case.
fn are_hex_digits(bytes: &[u8]) -> bool
    ensures { result ≡ list_all is_hex_digit bytes.now }
{
    bytes.iter().all(u8::is_ascii_hexdigit)
}

impl<'a> Field<'a> for Mac {
    ghost meaning = { forms.system };

    #[tactic(auto, unfolding(crate::specs::WordForms::system))]
    fn read(word: &'a [u8]) -> Option<Mac> {
        let mut bytes = [0; 6];
        match hex::decode_to_slice(word, &mut bytes) {
            Ok(()) => Some(Mac { bytes }),
            Err(_) => None,
        }
    }
}

/// The value of a hexadecimal digit, in either case.
fn digit_value(digit: u8) -> u32
    requires { IsTrue (is_hex_digit digit) }
    ensures value { result ≡ unwrap_or (hex_digit_value digit) 0 }
    ensures small { result < 16 }
{
    match digit {
        b'0'..=b'9' => u32::from(digit - b'0'),
        b'a'..=b'f' => u32::from(digit - b'a') + 10,
        _ => u32::from(digit - b'A') + 10,
    }
}

/// The number that at most five hexadecimal digits write.
fn hexadecimal(digits: &[u8]) -> u32
    requires few { length digits.now ≤ 5 }
    requires digits { IsTrue (list_all is_hex_digit digits.now) }
    ensures { result ≡ forms.hexadecimal digits.now }
{
    let mut value = 0;
    for digit in digits {
        value = value * 16 + digit_value(*digit);
    }
    value
}

impl<'a> Field<'a> for SourceId {
    ghost meaning = { forms.source };

    #[tactic(auto, unfolding(crate::specs::WordForms::source))]
    fn read(word: &'a [u8]) -> Option<SourceId> {
        if word.len() == 5 && are_hex_digits(word) {
            Some(SourceId {
                value: hexadecimal(word),
            })
        } else {
            None
        }
    }
}

impl<'a> Field<'a> for Dir {
    ghost meaning = { forms.dir };

    #[tactic(auto, unfolding(crate::specs::WordForms::dir))]
    fn read(word: &'a [u8]) -> Option<Dir> {
        match word {
            b"ab" => Some(Dir::Ab),
            b"ba" => Some(Dir::Ba),
            _ => None,
        }
    }
}

impl<'a> Field<'a> for Mode {
    ghost meaning = { forms.mode };

    #[tactic(auto, unfolding(crate::specs::WordForms::mode))]
    fn read(word: &'a [u8]) -> Option<Mode> {
        match word {
            b"both" => Some(Mode::Both),
            b"send" => Some(Mode::Send),
            b"recv" => Some(Mode::Recv),
            _ => None,
        }
    }
}

impl<'a> Field<'a> for Side {
    ghost meaning = { forms.side };

    #[tactic(auto, unfolding(crate::specs::WordForms::side))]
    fn read(word: &'a [u8]) -> Option<Side> {
        match word {
            b"a" => Some(Side::A),
            b"b" => Some(Side::B),
            _ => None,
        }
    }
}

impl<'a> Field<'a> for ExtraKeyword {
    ghost meaning = { extra_keyword };

    fn read(word: &'a [u8]) -> Option<ExtraKeyword> {
        ExtraKeyword::read(word)
    }
}

impl<'a> Field<'a> for Change {
    ghost meaning = { change_of };

    fn read(word: &'a [u8]) -> Option<Change> {
        Change::read(word)
    }
}

impl<'a> Field<'a> for EntryWord {
    ghost meaning = { forms.entry };

    #[tactic(auto, unfolding(crate::specs::WordForms::entry, crate::specs::WordForms::name))]
    fn read(word: &'a [u8]) -> Option<EntryWord> {
        match word {
            b"-" => Some(EntryWord::Start),
            b"." => Some(EntryWord::Unreached),
            _ => Some(EntryWord::Before(Name::new(word)?)),
        }
    }
}

/// The digits of a frame's bytes, two for each byte; contracts see the bytes.
#[derive(Drop)]
pub struct Hex<'a> {
    digits: &'a [u8],
}

impl<'a> Model for Hex<'a> {
    ghost use Rattle.std.specs.Prelude.{ℕ, List};
    ghost use Rattle.scenario.specs.WordForms.{decoded};

    ghost Value = { List ℕ };

    ghost view = { λ h. decoded h.digits.now };
}

impl<'a> Hex<'a> {
    /// The bytes. `NoMemory` where no memory was found for them.
    pub fn bytes(self, alloc: Global) -> Result<Seq<u8>, NoMemory>
        ensures { IfOk result (λ bytes. bytes ≡ self.entry) }
    {
        match hex::decode(alloc, self.digits) {
            Ok(bytes) => Ok(Seq::from_vec(bytes)),
            Err(_) => Err(NoMemory),
        }
    }
}

impl<'a> Field<'a> for Hex<'a> {
    ghost meaning = { forms.frame };

    #[tactic(auto, unfolding(crate::specs::WordForms::frame))]
    fn read(word: &'a [u8]) -> Option<Hex<'a>> {
        if !word.is_empty() && word.len() % 2 == 0 && are_hex_digits(word) {
            Some(Hex { digits: word })
        } else {
            None
        }
    }
}
