//! The ends and the directions of a link.

/// An end of a link.
#[derive(Clone, Copy, Debug, PartialEq, Eq)]
pub enum Side {
    /// The end that is named first where the link is declared.
    A,
    /// The end that is named second.
    B,
}

/// A direction of a link.
#[derive(Clone, Copy, Debug, PartialEq, Eq)]
pub enum Dir {
    /// From end a to end b.
    Ab,
    /// From end b to end a.
    Ba,
}
