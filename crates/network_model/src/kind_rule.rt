//! The rules by which bridges take plain or swift boxes.

/// Which kind of box each declared bridge takes.
#[derive(Clone, Copy, Debug, PartialEq, Eq)]
pub enum KindRule {
    /// All are plain.
    Plain,
    /// All are swift.
    Swift,
    /// The first, third and so on are plain, the others swift.
    Mixed,
}
