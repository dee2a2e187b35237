//! What is told of a script that is played.

/// What is told of a script that is played.
#[derive(Clone, Copy, Debug, PartialEq, Eq)]
pub(crate) enum Voice {
    /// The answers to its lines, and the `error` line of the one that is refused.
    Answers,
    /// The frames that are delivered, as packets of a capture, and nothing else.
    Packets,
}
