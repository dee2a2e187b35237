//! What accepted commands answer.
use adjacency::Adjacency;
use lsdb::DbRow;
use spb_types::{Name, Seq, Tables, Vid};

/// A customer frame that leaves at a customer port of a bridge.
#[derive(Debug, Drop)]
pub struct Out {
    pub bridge: Name,
    pub port: u16,
    pub frame: Seq<u8>,
}

/// What an accepted command answers.
#[derive(Debug, Drop)]
pub enum Answer {
    /// A declaration answers nothing.
    Silent,
    /// An event answers the customer frames that leave, in order.
    Outs {
        frames: Seq<Out>,
    },
    /// The numbers of the conditions of quiet that fail, in ascending order: none exactly where the network is quiet.
    State {
        failing: Seq<u8>,
    },
    /// The tables of a bridge by the LSPs that it holds, and whether the network is quiet.
    Show {
        bridge: Name,
        quiet: bool,
        tables: Tables,
    },
    /// The tables that the wiring gives a bridge.
    Wiring {
        bridge: Name,
        tables: Tables,
    },
    /// What a bridge holds: a row for each LSP id, in order of id.
    Db {
        bridge: Name,
        rows: Seq<DbRow>,
    },
    /// The ports of a bridge, from port 1 on: the adjacency, and whether CSNPs are due.
    Adj {
        bridge: Name,
        ports: Seq<(Adjacency, bool)>,
    },
    /// The best path between two bridges in a base VID, by the LSPs that the first holds: its cost, and the names of its
    /// bridges from the first to the last. Where there is no path there are no names, and the cost is 0.
    Path {
        from: Name,
        to: Name,
        vid: Vid,
        cost: u64,
        names: Seq<Name>,
    },
    /// How many frames a bridge dropped: a count for each [`DropReason`](bridge_api::DropReason), in its order.
    Drops {
        bridge: Name,
        counts: [u64; 9],
    },
}
