//! One LSP as it is held, and the row that tells of it.
ghost use Rattle.std.specs.Prelude.{◌≡◌};
ghost use Rattle.lsdb.specs.Entry.{entry_of, row_of};

use crate::Version;
use spb_types::{LspId, PortSet, Seq};

/// An LSP that is held: its id, its version, its remaining lifetime in seconds, its body (the flags octet and then the
/// TLVs, at least one byte), and the ports at which it is to be sent (SRM) and to be acknowledged (SSN).
///
/// An absent one has lifetime 0 and no body, a dead one lifetime 0 and the body 01, and a live one a lifetime of at
/// least 1 (ISO/IEC 10589, 7.3.15).
#[derive(Debug, Drop)]
pub struct Held {
    pub id: LspId,
    pub version: Version,
    pub lifetime: u16,
    pub body: Seq<u8>,
    pub srm: PortSet,
    pub ssn: PortSet,
}

/// A line of the database: what is held under an id, but for the body.
#[derive(Clone, Copy, Debug, PartialEq, Eq)]
pub struct DbRow {
    pub id: LspId,
    pub version: Version,
    pub lifetime: u16,
    pub srm: PortSet,
    pub ssn: PortSet,
}

impl Held {
    /// All but the body.
    pub fn row(&self) -> DbRow
        ensures { result ≡ row_of self.now.id (entry_of self.now) }
    {
        DbRow {
            id: self.id,
            version: self.version,
            lifetime: self.lifetime,
            srm: self.srm,
            ssn: self.ssn,
        }
    }
}
