//! Captures that are listed: the whole file is read from a source, up to a limit, and for each packet a line goes to a
//! sink.
//!
//! It takes time linear in the bytes of the file. In memory are the file, and a little of what is written.
#![tactic(auto)]

pub use laws::frames_are_listed;
pub use listing::list_capture;

mod laws;
mod lines;
mod listing;
mod reading;
