//! Why a line is refused: its spelling, or a reason of the network's. Of a capture there is one reason.
use spb_network::Reason;

/// Why a line is refused.
#[derive(Clone, Copy, Debug, PartialEq, Eq)]
pub enum Refusal {
    /// The line isn't in the grammar: the column, from 1, of the first word that doesn't fit.
    Words(usize),
    /// The line is a command that is refused.
    Command(Reason),
    /// It isn't a line of a script, but a packet of a capture, or its header, that isn't read.
    Capture,
}
