//! The forms of the program. A script is run: which lines are refused, what is played on the network, and what is
//! answered, or the frames that it delivers are captured. Or one is made for a number of bridges, and written, or played
//! and counted. Or a capture is listed.
#![tactic(auto)]

pub use capture_list::frames_are_listed;
pub use laws::forms_are_spelled;
pub use made_runs::{Counts, made_scripts_are_accepted};
pub use runner::run;
pub use script_run::{Refusal, Status, lines_play_commands};
pub use words::Form;

mod laws;
mod runner;
mod words;
