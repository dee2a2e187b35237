//! A bridge of the kind [`Kind::Plain`](bridge_api::Kind): a control plane of `bridge_control`, to which each call is
//! forwarded. It takes the time that `bridge_control` says.
//!
//! Bridges that hold the same LSPs, as those of a quiet network do, can share what they have read of them
//! ([`SharedReading`]): the graph, and the trees that were searched in it. A bridge then compares each LSP that it holds
//! with those that were read, byte by byte, and reads anew where one differs. It answers questions about tables and
//! paths by what is shared, and so it does with frames for which no tables are kept.
#![tactic(auto)]

pub use bridge::PlainBridge;
pub use bridge_control::SharedReading;

mod bridge;
