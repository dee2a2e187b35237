//! Least paths: the tree of best paths from a bridge under an ECT mask (IEEE 802.1aq, 28.5 to 28.8).
//!
//! [`Roads`] are made once for all trees of a graph, in O(V + E) steps for V bridges and E edges: they keep the
//! places of the bridges, and the arcs from each. [`tree_from`] makes roads, over a copy of the graph, for one tree
//! alone. [`Roads::tree`] settles the bridges in order of cost: each bridge once, and with it the arcs that lead from
//! it. The frontier is an array of the bridges that wait, in no order: to take out one that costs least, or another,
//! takes a look at each, up to V. So a tree takes a look at each arc, and O(V) steps for each bridge that is settled
//! and for each label that improves, with a copy of its path. Ids are compared only where cost and hops tie, and only
//! those behind the fork of the two paths are masked and put in order; where that are one or two of each, as mostly,
//! without memory. They are looked for at the places that labels guess, and other bridges by a hash of the system id;
//! where a guess fails by the hash, and where many ids fall together by a scan of the graph's list. A tree keeps each
//! of its paths whole, with its cost, at the place of its bridge in the graph's list; [`Tree::path_to`] looks for the
//! one that ends at the bridge, and copies it.
//!
//! [`Tree::repair`] brings a tree up to date after one edge changed. It takes a look at the hops of each path, and drops
//! the paths over that edge; then at the arcs into each bridge without a path, and at those of the edge; and then it
//! settles, as above, the bridges whose path is new, each once, and no others.
//!
//! A [`Forest`] says which bridge directly follows another on the best path from a source. [`Forest::grow`] searches
//! the best paths from a source under a mask, and keeps them as routes. They are guessed by a quick search, which
//! keeps the last step of each way, with no memory for a label. The guess is looked at before it is believed: each
//! step once, and each arc once, with ids only where cost and hops tie, and once for arcs in turn that tie between
//! the same two ways. Where it isn't right, whole paths are searched, and those are kept. So a source and a mask cost
//! a search once: two looks at each arc, and for each way that the guess goes on from, and each that was undercut
//! before, a few steps to put it on a stack of those that wait and to take it off, and where an edge costs 64 or more a
//! few for each bit of a cost. Where no path ties with another, the routes serve under every mask.
//! [`Forest::follower`] then takes a look at the routes that are kept from its source, and the hops of one way, without
//! memory, which it walks back no further than the bridge that is followed can stand; where no routes serve, it searches
//! whole paths for that answer alone. Who asks often about one source borrows its routes, which are looked up once
//! ([`Forest::routes`]):
//! [`Routes::follower`] then takes the hops of one way alone, and [`Routes::leads_on`] tells by a look at the arcs
//! from a bridge whether any other may follow it. [`Forest::path`] reads a whole path back from the same routes, in
//! time and memory of its hops. [`Roads::follower_by`] reads the bridge that follows off a tree that is kept
//! ([`Trees`]): it takes the hops of one path, and a look-up for that bridge.
//!
//! Whether a path with one arc more is better than another is asked of [`Search::better`], over [`Roads::mesh`].
#![tactic(auto)]

pub use forest::Forest;
pub use key::{PathKey, compare_keys};
pub use mesh::{Arc, Mesh};
pub use roads::{Roads, tree_from};
pub use routes::Routes;
pub use search::{Label, Search};
pub use tree::Tree;
pub use trees::Trees;

mod followers;
mod forest;
mod fork;
mod guess;
mod index;
mod key;
pub mod laws;
mod mesh;
mod paths;
mod queue;
mod repair;
mod roads;
mod routes;
mod search;
mod tree;
mod trees;
mod trial;
mod waiting;
mod ways;
