//! Questions that change nothing, judged and answered by what is declared: what a change would do to the tables of all
//! bridges, the entries that prove the best paths from a bridge, and whether entries prove them.
//!
//! [`refusal`] says why one is refused, and [`answer`] the lines that are answered to one that isn't. All is told of the
//! actual wiring, whether the bridges know it yet or not. To settle is an extra too, but no question: whoever plays it
//! doesn't ask here.
#![tactic(auto)]

pub use answering::answer;
pub use refusing::refusal;

mod answering;
mod changing;
mod checking;
pub mod laws;
mod naming;
mod proving;
mod refusing;
mod wiring;
