//! What one line gave.
use crate::Refusal;

/// What a line of a script gave: the bytes to write, and why the line is refused where it is.
#[derive(Drop)]
pub(crate) struct Reply {
    pub(crate) text: Vec<u8>,
    pub(crate) refused: Option<Refusal>,
}
