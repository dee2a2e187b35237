//! The laws of keys and of best paths. Each is the contract of a function that does nothing.
ghost use Rattle.ect_trees.specs.Laws.{AreKeysOrdered, KeepsOrder, NoTieIsLeast, BestIsUnique, BestExists, BestOfNone, BestOfSome, BestToItself, BestReversed, FrontIsBest, BackIsBest, OrderSaysNothing, TreesAlike, GrownIsBest, AlikeHaveSamePorts, LookAlikeFromEach, LooksBack, LooksOn, SameBest, PartLooksAlike, SomeGraphIsCut};
ghost use Rattle.ect_trees.specs.Low.{LowIsBest, BestIsLow};

/// Keys are totally ordered, and only equal keys tie.
pub fn keys_are_ordered()
    ensures { AreKeysOrdered }
{}

/// One bridge more, added to two paths at the bridge where both end, keeps the order of their keys.
pub fn one_more_bridge_keeps_order()
    ensures { KeepsOrder }
{}

/// No tie is least, in a valid graph: a path that no other is below is below every other.
pub fn no_tie_is_least()
    ensures { NoTieIsLeast }
{}

/// There is at most one best path.
pub fn best_is_unique()
    ensures { BestIsUnique }
{}

/// Where a valid graph has a path, it has a best one.
pub fn best_exists()
    ensures { BestExists }
{}

/// In a valid graph `best_of` gives the best path, and nothing exactly where there is no path.
pub fn best_of_is_best()
    ensures none { BestOfNone }
    ensures some { BestOfSome }
{}

/// In a valid graph ways that are low at every edge, at most one to each bridge, are the best paths; and these are low
/// at every edge. Low means that no way, with one bridge more over an edge, is below the way to that bridge.
pub fn low_ways_are_best()
    ensures best { LowIsBest }
    ensures low { BestIsLow }
{}

/// The best path from a bridge to itself is that bridge alone.
pub fn best_to_itself_is_alone()
    ensures { BestToItself }
{}

/// The best path back is the best path in reverse.
pub fn best_back_is_reverse()
    ensures { BestReversed }
{}

/// In a valid graph both parts of a best path at a bridge on it are best.
pub fn parts_of_best_are_best()
    ensures front { FrontIsBest }
    ensures back { BackIsBest }
{}

/// In valid graphs best paths don't depend on the order of a graph's lists, nor on the order of an edge's ends.
pub fn order_says_nothing()
    ensures { OrderSaysNothing }
{}

/// A tree of the best paths of a valid graph, with their costs, is one of each valid graph with the same bridges and
/// edges, in whatever order.
pub fn trees_are_alike()
    ensures { TreesAlike }
{}

/// A tree whose labels are the best paths of a valid graph gives the best paths.
pub fn grown_trees_give_best()
    ensures { GrownIsBest }
{}

/// Valid graphs that are alike have the same costs and ports, and, with the same members, look alike from every bridge.
pub fn alike_graphs_look_alike()
    ensures ports { AlikeHaveSamePorts }
    ensures look { LookAlikeFromEach }
{}

/// Valid graphs that look alike from a bridge look alike both ways, and from each bridge that it reaches.
pub fn looks_are_shared()
    ensures back { LooksBack }
    ensures on { LooksOn }
{}

/// Best paths from a bridge are the same in valid graphs that look alike from it.
pub fn best_is_seen_alike()
    ensures { SameBest }
{}

/// A graph looks like the part of it that a bridge reaches, seen from that bridge. Some graph has a smaller part.
pub fn part_looks_alike()
    ensures look { PartLooksAlike }
    ensures some { SomeGraphIsCut }
{}
