//! The tests of the crates of the control plane: `link_model`, `lsdb`, `flooding`, `snp_sync`, `ect_trees`,
//! `fork_trees`, `what_if` and `fdb_build`. One module tests one crate.
//!
//! Nothing else stands here, and nothing stands on this crate. A crate with tests is proved twice, with and without
//! them; so those of the lower crates, which see them from outside, stand above them. (`format_tests` has the others.)
#![tactic(auto)]

/// The address 02:00:00:00:00:NN.
macro_rules! mac {
    ($last:expr) => {
        Mac {
            bytes: [2, 0, 0, 0, 0, $last],
        }
    };
}

macro_rules! system {
    ($last:expr) => {
        SystemId { mac: mac!($last) }
    };
}

/// A bridge of a graph, with the priority 32768 unless another is given.
macro_rules! bridge {
    ($last:expr) => {
        bridge!($last, 32768)
    };
    ($last:expr, $priority:expr) => {
        GraphBridge {
            id: BridgeId {
                priority: $priority,
                system: system!($last),
            },
            source: SourceId { value: $last },
        }
    };
}

/// An edge: a bridge and its port there, the other and its port, and the cost. Without ports each is 1.
macro_rules! edge {
    ($a:expr, $b:expr, $cost:expr) => {
        edge!($a, 1, $b, 1, $cost)
    };
    ($a:expr, $port_a:expr, $b:expr, $port_b:expr, $cost:expr) => {
        Edge {
            a: system!($a),
            port_a: $port_a,
            b: system!($b),
            port_b: $port_b,
            cost: $cost,
        }
    };
}

#[cfg(test)]
mod databases;
#[cfg(test)]
mod fixtures;
#[cfg(test)]
mod floods;
#[cfg(test)]
mod kept_trees;
#[cfg(test)]
mod lanes;
#[cfg(test)]
mod path_entries;
#[cfg(test)]
mod snps;
#[cfg(test)]
mod tables;
#[cfg(test)]
mod trees;
