//! The texts of all answers: one public function for each, whose contract is the exact text.
//!
//! Each text is lines ended by LF, and a line is words with a single space between. Numbers are decimal without leading
//! zeros. Addresses, ids, checksums and frames are hexadecimal in lower case. A text is built in one vector, so that
//! each call takes time and memory linear in the length of its text. `NoMemory` is the only error.
#![tactic(auto)]

pub use adjacencies::adj_text;
pub use changes::whatif_text;
pub use checking::{check_no_text, check_yes_text, proof_text};
pub use database::db_text;
pub use laws::{answers_are_lines, ports_are_those_of_the_set};
pub use lines::{drops_text, error_text, out_text, path_text, settle_text, state_text, try_text};
pub use tables::tables_text;

mod adjacencies;
mod changes;
mod checking;
mod database;
mod laws;
mod lines;
mod tables;
mod text;
