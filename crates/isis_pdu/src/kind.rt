//! The types of PDU, with their numbers and the lengths of their fixed parts.
ghost use Rattle.std.specs.Prelude.{◌≡◌};
ghost use Rattle.isis_pdu.specs.Header.{type_of, kind_of, fixed_length, length_place};

/// The types of PDU that are read and written, each of level 1.
#[derive(Clone, Copy)]
pub enum Kind {
    Hello,
    Lsp,
    Csnp,
    Psnp,
}

impl Kind {
    /// The type with this number (ISO/IEC 10589, 9.7, 9.8, 9.10 and 9.12).
    pub fn of_number(number: u8) -> Option<Kind>
        ensures { result ≡ kind_of number }
    {
        match number {
            17 => Some(Kind::Hello),
            18 => Some(Kind::Lsp),
            24 => Some(Kind::Csnp),
            26 => Some(Kind::Psnp),
            _ => None,
        }
    }

    /// The number of the PDU type.
    pub fn number(self) -> u8
        ensures { result ≡ type_of self }
    {
        match self {
            Kind::Hello => 17,
            Kind::Lsp => 18,
            Kind::Csnp => 24,
            Kind::Psnp => 26,
        }
    }

    /// The length of all that stands before the TLVs.
    pub fn fixed_length(self) -> u8
        ensures { result ≡ fixed_length self }
    {
        match self {
            Kind::Hello => 20,
            Kind::Lsp => 27,
            Kind::Csnp => 33,
            Kind::Psnp => 17,
        }
    }

    /// Where the PDU length stands.
    pub fn length_place(self) -> usize
        ensures { result ≡ length_place self }
    {
        match self {
            Kind::Hello => 17,
            Kind::Lsp | Kind::Csnp | Kind::Psnp => 8,
        }
    }
}
