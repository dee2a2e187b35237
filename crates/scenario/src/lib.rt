//! The lines of a script: how its bytes are cut into lines, what each line says, and where a line that says nothing goes
//! wrong.
//!
//! `Cutter` takes a script in pieces, from left to right, and gives its lines one after another. It looks at each byte
//! once, and keeps no more than the line that was begun and the last one that it gave.
//!
//! A line is its words, apart by spaces or tabs: a keyword, and then what its form takes. `parse_line` reads it from
//! left to right, once, and takes time in proportion to the line: each byte of a word is looked at a few times, and the
//! first word is compared with the keywords, of which there are 24. A line of more than 8,192 bytes is refused before
//! it is looked at. Only the bytes of a frame take memory.
//!
//! `parse_extra` reads the line of an extra, which is no command: `whatif`, `proof` and `check`, questions that change
//! nothing, and `settle`. It leaves every line that begins otherwise to `parse_line`, and reads the others by the same
//! rules, in time in proportion to the line. Only the entries of a `check` take memory.
//!
//! `print_command` is the way back: the line of a command, with single spaces, numbers without leading zeros and
//! lower-case digits. What is printed for a command that some line spells, is read as that command, if memory is found
//! for a frame.
#![tactic(auto)]

mod command;
mod cutter;
mod entries;
mod error;
mod extra;
mod extra_line;
mod field;
#[tactic(auto, unfolding(crate::specs::Grammar::form_of))]
mod forms;
mod keyword;
mod laws;
mod line;
#[tactic(auto, unfolding(crate::specs::Printing::words_of))]
mod printing;
mod words;

pub use command::Command;
pub use cutter::{Cut, Cutter, Cutting, LINES_LIMIT, SCRIPT_LIMIT, Stop};
pub use error::LineError;
pub use extra::Extra;
pub use extra_line::parse_extra;
pub use keyword::{KEYWORDS, Keyword};
pub use laws::{
    extras_are_no_commands, lines_follow, pieces_are_fed_together, pieces_say_the_same,
    printed_lines_spell, scripts_are_cut_into_lines, system_ids_are_octets,
};
pub use line::{LINE_LIMIT, parse_line};
pub use printing::print_command;
pub use spb_types::{Dir, EntryWord, Mode, Side};
