//! The graph of a backbone, of which paths and tables are made.
use crate::{BridgeId, Isid, Seq, SourceId, SystemId, Vid};

/// A bridge of a graph: its bridge id, and the source id that its group addresses carry.
#[derive(Clone, Copy, Debug, PartialEq, Eq)]
pub struct GraphBridge {
    pub id: BridgeId,
    pub source: SourceId,
}

/// An edge between two bridges, with the port that it has at each, and its cost, 1 to 16,777,214.
///
/// Which end is `a` says nothing: paths and tables don't depend on it.
#[derive(Clone, Copy, Debug, PartialEq, Eq)]
pub struct Edge {
    pub a: SystemId,
    pub port_a: u16,
    pub b: SystemId,
    pub port_b: u16,
    pub cost: u32,
}

/// A bridge that takes part in a service, the base VID of that service, and what the bridge does there.
#[derive(Clone, Copy, Debug, PartialEq, Eq)]
pub struct Member {
    pub system: SystemId,
    pub isid: Isid,
    pub vid: Vid,
    /// Whether it sends to the service (RFC 6329, 16.1: T).
    pub transmit: bool,
    /// Whether it receives what is sent to it (R).
    pub receive: bool,
}

/// A backbone: its bridges, the edges between them, and the members of its services.
///
/// The order of the lists says nothing: paths and tables don't depend on it.
#[derive(Debug, Drop)]
pub struct Graph {
    pub bridges: Seq<GraphBridge>,
    pub edges: Seq<Edge>,
    pub members: Seq<Member>,
}
