//! The laws of changed graphs, and of trees that are kept over changes. Each is the contract of a function that does
//! nothing.
ghost use Rattle.fork_trees.specs.Edges.{StaysValid, EdgesStand, CostsChangeThere};
ghost use Rattle.fork_trees.specs.Set.{TreesStayBest, SomeTreesChange};

/// A valid graph stays valid when an edge between two of its bridges is set, changed or removed.
pub fn changed_graphs_are_valid()
    ensures { StaysValid }
{}

/// Nothing but the edge between the two bridges changes: an edge stands in the changed graph exactly where it is the
/// one that is set, or stood there and joins other bridges.
pub fn one_edge_changes()
    ensures edges { EdgesStand }
    ensures costs { CostsChangeThere }
{}

/// After any changes a set has the same trees, and each has the best paths of the graph with these changes. Some
/// changes join bridges that were not joined.
pub fn trees_stay_best()
    ensures stay { TreesStayBest }
    ensures some { SomeTreesChange }
{}
