//! The names of the implementations, by which a network picks boxes.

/// The implementation that a box holds. All do the same.
#[derive(Clone, Copy, Debug, PartialEq, Eq)]
pub enum Kind {
    /// One that computes its tables anew.
    Plain,
    /// One that repairs the trees that it has.
    Swift,
}
