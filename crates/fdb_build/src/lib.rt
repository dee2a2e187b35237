//! The forwarding tables of a bridge in a graph: its unicast rows and its group rows (IEEE 802.1aq, 8.8 and 28.10).
//!
//! A [`Fabric`] is a graph with its base VIDs, made ready once for the tables of all its bridges. The bridges are
//! sorted by address, and for each base VID the members are gathered: the services of each source, by its place in the
//! graph, and the places of each service's receivers, in a map. [`Fabric::grow_from`] searches what the tables of a
//! bridge are read from: once the best paths from each bridge that sends, under the mask of each VID in which it sends,
//! and those from the bridge itself; where no two paths to a bridge tie in cost and hops, one search serves for all
//! masks. All these are kept. [`Fabric::path`] reads a path back from those of the bridge where it begins, which it
//! searches if they aren't kept, and no others.
//!
//! [`Fabric::tables`] makes no search where the paths are kept. It takes a look at each edge for those of the bridge,
//! and a look-up for each neighbour, whose port is put at its place. For each VID the unicast rows then take one way
//! back for each bridge of the graph. For each source the group rows take a look at the arcs from the bridge: where
//! none follows it on a path from there, that is all. Else they take one way back for each bridge that receives from
//! the source, in however many services: what a source's first way back from a bridge gave is kept at the place of
//! that bridge until the next source; and the receivers of each service to which it sends are read. A row takes one
//! look-up among those of its VID, and another where its address was there. The routes from a source under a mask,
//! which the forest lends, are looked up once for all that is asked of them. A way back goes from the end of a path
//! towards its source, until it comes to the bridge whose tables these are; it takes no memory. Where a graph has no
//! members nothing is searched but the paths from that bridge.
//!
//! [`tables_of`] makes a fabric for one bridge alone. [`tables_by`] reads the same tables off trees that are there
//! already, and makes no search.
#![tactic(auto)]

pub use fabric::Fabric;
pub use tables::{tables_by, tables_of};

mod fabric;
mod groups;
pub mod laws;
mod layout;
mod searches;
mod services;
mod sets;
mod surroundings;
mod tables;
