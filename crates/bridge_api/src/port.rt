//! What a bridge keeps of each of its backbone ports.
use adjacency::Adjacency;

/// A backbone port of a bridge.
#[derive(Clone, Copy, Debug, PartialEq, Eq)]
pub struct BridgePort {
    pub adjacency: Adjacency,
    /// Whether CSNPs are to be sent at the next tick, as is so when the adjacency has come up.
    pub csnp_due: bool,
    /// The metric of the link, 1 to 16,777,214; 1 where there is no link.
    pub metric: u32,
}
