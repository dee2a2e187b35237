//! The trees of best paths of a graph (IEEE 802.1aq, 28.5 to 28.8) whose edges change one after another: [`TreeSet`].
//!
//! For V bridges, E edges and M masks there are M * V trees, each with a whole path to each bridge, so a set takes memory
//! for M * V^2 paths, six bytes a hop. [`TreeSet::new`] makes the roads of the graph once, and searches each tree.
//!
//! [`TreeSet::change_edge`] copies the graph, in which the edge to be set stands first, and makes the roads of the copy:
//! O(V + E) steps, once for all trees. Where the cost between the ends of the edge stays as it is, as where its ports
//! alone change, no tree is looked at. Otherwise each tree is brought up to date by itself, under its own mask
//! ([`ect_trees::Tree::repair`]), and what was computed anew for it is added to [`TreeSet::relabelled`].
//!
//! [`TreeSet::tree`] takes a look at each mask, and finds the place of the source by a hash of its system id.
#![tactic(auto)]

pub use set::TreeSet;

mod edges;
pub mod laws;
mod set;
