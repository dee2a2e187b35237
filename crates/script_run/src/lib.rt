//! Scripts that are played: each line is spelled, played on a network and answered before the next, from a source that
//! gives the script in pieces to a sink that takes the answers. Or the frames that the lines deliver are captured, and
//! the sink takes their packets in place of the answers.
#![tactic(auto)]

pub use capturing::capture_script;
pub use held::put;
pub use laws::{changes_are_foretold, changes_are_refused_alike, lines_play_commands};
pub use output::write_all;
pub use refusal::Refusal;
pub use runner::run_script;
pub use status::Status;

mod answer;
mod capturing;
mod held;
mod laws;
mod output;
mod packets;
mod pieces;
mod play;
mod refusal;
mod reply;
mod runner;
mod settling;
mod status;
mod voice;
