//! The PDUs of IS-IS that a backbone's bridges exchange: the point-to-point hello, the link state PDU and the complete
//! and partial sequence numbers PDUs of level 1 (ISO/IEC 10589, 9.7, 9.8, 9.10 and 9.12), and the checksum (ISO 8473).
//!
//! [`decode`] reads a PDU where it lies: it takes no memory, and its time is linear in the length of the PDU, each byte
//! being looked at once for the layout and once for the checksum. A writer makes one vector of the PDU's bytes.
#![tactic(auto)]

pub use checksum::{check_ok, lsp_sum};
pub use laws::{
    made_sums_hold, read_is_spelled, read_is_written_again, spelled_is_read, whole_tlvs,
    written_is_read,
};
pub use pdu::{Csnp, Hello, Lsp, Pdu, PduError, Psnp};
pub use reading::decode;
pub use writing::{
    append_lsp, append_psnp_head, lsp_length, write_csnp, write_hello, write_lsp, write_psnp,
};

mod checksum;
mod kind;
mod laws;
mod pdu;
mod reading;
mod tlvs;
mod writing;
