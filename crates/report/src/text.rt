//! A text that is written word by word: what all texts of answers are made with.
ghost use Rattle.std.specs.Prelude.{◌≡◌, ◌++◌, ◌∷◌, [], ◌<◌, ◌≤◌, codes, decimal, slice_index, if◌then◌else◌, IfOk, OnOk};
ghost use Rattle.spb_types.specs.Ports.{has};
ghost use Rattle.hex.specs.Hex.{encode_lower, lower_digits};
ghost use Rattle.report.specs.Words.{spaced};
ghost use Rattle.report.specs.Ports.{ports_among, ports_text};
ghost use Rattle.report.specs.Listing.{comma, separated, separator_after};

use itoa::Buffer;
use spb_types::limits::MOST_PORTS;
use spb_types::{Mac, NoMemory, PortSet};
use std::alloc::Global;
use std::marker::Model;

/// A text that grows word by word: each call that changes it writes behind what stands there. Contracts see its bytes.
#[derive(Drop)]
pub(crate) struct Text {
    bytes: Vec<u8>,
}

impl Model for Text {
    ghost use Rattle.std.specs.Prelude.{ℕ, List};

    ghost Value = { List ℕ };

    ghost view = { λ t. t.bytes.items };
}

/// Room for a line of most answers, in bytes.
pub(crate) const LINE: usize = 64;

/// The hexadecimal digits, in lower case.
static HEX_DIGITS: [u8; 16] = *b"0123456789abcdef";

/// The hexadecimal digit of this value.
fn hex_digit(value: u8) -> u8
    requires { value < 16 }
    ensures { result ≡ slice_index lower_digits value }
{
    HEX_DIGITS[usize::from(value)]
}

/// The hexadecimal digits of an address, two for each of its bytes.
#[inline(always)]
#[tactic(auto, unfolding(hex::specs::Hex::encode_with))]
pub(crate) fn hex_digits(mac: Mac) -> [u8; 12]
    ensures { result ≡ encode_lower mac.bytes }
{
    let [a, b, c, d, e, f] = mac.bytes;
    [
        hex_digit(a / 16),
        hex_digit(a % 16),
        hex_digit(b / 16),
        hex_digit(b % 16),
        hex_digit(c / 16),
        hex_digit(c % 16),
        hex_digit(d / 16),
        hex_digit(d % 16),
        hex_digit(e / 16),
        hex_digit(e % 16),
        hex_digit(f / 16),
        hex_digit(f % 16),
    ]
}

impl Text {
    /// The empty text, with room for this many bytes.
    pub(crate) fn with_room(alloc: Global, bytes: usize) -> Result<Self, NoMemory>
        ensures { IfOk result (λ text. text ≡ []) }
    {
        Ok(Text {
            bytes: Vec::with_capacity(alloc, bytes)?,
        })
    }

    /// The bytes of the text.
    pub(crate) fn into_bytes(self) -> Vec<u8>
        ensures { result.items ≡ self }
    {
        self.bytes
    }

    /// Bytes as they are, as the first word of a line.
    pub(crate) fn push(&mut self, bytes: &[u8]) -> Result<(), NoMemory>
        ensures { OnOk result (self.new ≡ self.old ++ bytes.now) }
    {
        self.bytes.extend_from_slice(bytes)?;
        Ok(())
    }

    /// A byte as it is.
    fn byte(&mut self, byte: u8) -> Result<(), NoMemory>
        ensures { OnOk result (self.new ≡ self.old ++ byte ∷ []) }
    {
        self.bytes.push(byte)?;
        Ok(())
    }

    /// The end of a line.
    pub(crate) fn end(&mut self) -> Result<(), NoMemory>
        ensures { OnOk result (self.new ≡ self.old ++ codes "\n") }
    {
        self.byte(b'\n')
    }

    /// A space and a word.
    pub(crate) fn word(&mut self, word: &[u8]) -> Result<(), NoMemory>
        ensures { OnOk result (self.new ≡ self.old ++ spaced word.now) }
    {
        self.byte(b' ')?;
        self.push(word)
    }

    /// A number without leading zeros. Those of one or two digits, as most are, need no buffer.
    #[inline(always)]
    pub(crate) fn decimal(&mut self, number: u64) -> Result<(), NoMemory>
        ensures { OnOk result (self.new ≡ self.old ++ decimal number) }
    {
        if number < 10 {
            return self.byte(b'0' + number as u8);
        }
        if number < 100 {
            self.byte(b'0' + (number / 10) as u8)?;
            return self.byte(b'0' + (number % 10) as u8);
        }
        self.long_decimal(number)
    }

    /// A number without leading zeros, of any length.
    fn long_decimal(&mut self, number: u64) -> Result<(), NoMemory>
        ensures { OnOk result (self.new ≡ self.old ++ decimal number) }
    {
        let mut buffer = Buffer::new();
        self.push(buffer.format(number).as_bytes())
    }

    /// A space and a number.
    pub(crate) fn number(&mut self, number: u64) -> Result<(), NoMemory>
        ensures { OnOk result (self.new ≡ self.old ++ spaced (decimal number)) }
    {
        self.byte(b' ')?;
        self.decimal(number)
    }

    /// A space, and two hexadecimal digits for each byte.
    pub(crate) fn hex(&mut self, bytes: &[u8]) -> Result<(), NoMemory>
        ensures { OnOk result (self.new ≡ self.old ++ spaced (encode_lower bytes.now)) }
    {
        self.byte(b' ')?;
        for byte in bytes {
            self.hex_byte(*byte)?;
        }
        Ok(())
    }

    /// A space and an address: two hexadecimal digits for each of its bytes.
    pub(crate) fn mac(&mut self, mac: Mac) -> Result<(), NoMemory>
        ensures { OnOk result (self.new ≡ self.old ++ spaced (encode_lower mac.bytes)) }
    {
        let [a, b, c, d, e, f, g, h, i, j, k, l] = hex_digits(mac);
        self.push(&[b' ', a, b, c, d, e, f, g, h, i, j, k, l])
    }

    #[tactic(auto, unfolding(hex::specs::Hex::encode_with))]
    fn hex_byte(&mut self, byte: u8) -> Result<(), NoMemory>
        ensures { OnOk result (self.new ≡ self.old ++ encode_lower (byte ∷ [])) }
    {
        self.byte(hex_digit(byte / 16))?;
        self.byte(hex_digit(byte % 16))
    }

    /// A space and the ports of a set, ascending with commas, or `-` where there is none.
    #[tactic(auto, unfolding(crate::specs::Ports::ports_text))]
    pub(crate) fn ports(&mut self, ports: PortSet) -> Result<(), NoMemory>
        ensures { OnOk result (self.new ≡ self.old ++ spaced (ports_text ports)) }
    {
        if self.separated_ports(ports)? == b' ' {
            self.word(b"-")?;
        }
        Ok(())
    }

    /// The ports of a set, ascending: a space before the first and a comma before each other. The answer is what would
    /// stand before a further one.
    fn separated_ports(&mut self, ports: PortSet) -> Result<u8, NoMemory>
        ensures text { OnOk result (self.new ≡ self.old ++ separated (ports_among ports 32)) }
        ensures next { IfOk result (λ next. next ≡ separator_after (ports_among ports 32)) }
    {
        let mut separator = b' ';
        for port in 1..33 {
            separator = self.port_if_there(separator, ports, port)?;
        }
        Ok(separator)
    }

    /// The separator and the port, if the set has it. The answer is the separator that comes next.
    fn port_if_there(&mut self, separator: u8, ports: PortSet, port: u8) -> Result<u8, NoMemory>
        requires low { 1 ≤ port }
        requires high { port ≤ MOST_PORTS }
        ensures text { OnOk result
            (self.new ≡ self.old ++ (if has ports port then separator ∷ decimal port else [])) }
        ensures next { IfOk result (λ next. next ≡ (if has ports port then comma else separator)) }
    {
        if !ports.has(port) {
            return Ok(separator);
        }
        self.push(&[separator])?;
        self.decimal(u64::from(port))?;
        Ok(b',')
    }
}
