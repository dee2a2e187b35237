//! Scripts that are made: written line by line, or played at once, with what is counted of their answers.
#![tactic(auto)]

pub use counts::Counts;
pub use laws::made_scripts_are_accepted;
pub use making::make_script;
pub use trying::try_script;

mod counts;
mod laws;
mod making;
mod trying;
