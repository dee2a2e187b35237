//! The sequence numbers PDUs of a bridge (ISO/IEC 10589, 7.3.15.2 to 7.3.15.4): the CSNPs and PSNPs that it sends of
//! its database, and what one that it hears changes there.
//!
//! A PDU has at most 90 entries, in TLVs of 15. CSNPs go over the database once, to list it. PSNPs go once over the
//! places but at which it is known that no flags stand, to list what has SSN, and once more to clear it where there is
//! any. [`entries_of_snp`] goes over the TLVs of a PDU once.
//! An entry that is heard takes one comparison where its id stands behind that of the entry before it, and else a binary
//! search; a second search where it is put into the database or purged. After the entries of a CSNP one pass over the
//! database finds what its sender lacks, with a binary search among the ids that it named for each LSP in its range.
//! Memory is taken for the entries that are listed and the PDUs that are made of them, for the entries that
//! [`entries_of_snp`] reads, for the sorted ids of a CSNP, and for ids that are entered or answered.
#![tactic(auto)]

pub use hearing::{hear_csnp, hear_psnp};
pub use ids::successor;
pub use reading::entries_of_snp;
pub use sending::{ENTRIES_PER_PDU, append_psnp, csnps, psnp_length, psnps, requests_within};

mod entries;
mod hearing;
mod ids;
pub mod laws;
mod missed;
mod reading;
mod sending;
