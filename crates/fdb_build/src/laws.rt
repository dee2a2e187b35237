//! The laws of a bridge's tables. Each is the contract of a function that does nothing.
ghost use Rattle.fdb_build.specs.Tables.{RowsAreTable, TableIsOne, SameRows, OrderSaysNothingOfRows};
ghost use Rattle.fdb_build.specs.OnePath.{OnePath, SameWayBack, GroupLeadsOn};
ghost use Rattle.fdb_build.specs.GroupTrees.{RowsLeadOn, RowsLeadToFollowers, FollowersAccept, NothingElsewhere, TreeHangsTogether, ReceiversAreOnTree, SomeServiceHasTransit};
ghost use Rattle.fdb_build.specs.Groups.{GroupRowsAreTable, GroupTableIsOne, SameGroups, OrderSaysNothingOfGroups};

/// In a valid graph the unicast rows that `unicast_rows` computes are just those of the bridges with a best path, each
/// once, ascending.
pub fn rows_are_table()
    ensures { RowsAreTable }
{}

/// There is just one such table of unicast rows.
pub fn table_is_one()
    ensures { TableIsOne }
{}

/// The unicast rows of a bridge are the same in valid graphs that look alike from it.
pub fn rows_are_seen_alike()
    ensures { SameRows }
{}

/// In valid graphs unicast rows don't depend on the order of the graph's lists, nor of an edge's ends, nor of the VIDs.
pub fn order_says_nothing()
    ensures { OrderSaysNothingOfRows }
{}

/// In a graph that is valid for `me`, `group_rows` lists just the ports that lead on, those for one VID and address in
/// one row, ascending.
pub fn group_rows_are_table()
    ensures { GroupRowsAreTable }
{}

/// There is just one such table of group rows.
pub fn group_table_is_one()
    ensures { GroupTableIsOne }
{}

/// The group rows of a bridge are the same in valid graphs that look alike from it.
pub fn groups_are_seen_alike()
    ensures { SameGroups }
{}

/// In valid graphs group rows don't depend on the order of the graph's lists, nor of an edge's ends, nor of the VIDs.
pub fn order_says_nothing_of_groups()
    ensures { OrderSaysNothingOfGroups }
{}

/// Frames go one path: a bridge sends to a source by its port to the bridge before it on the best path from there, and
/// takes frames from the source at that port alone; the way back is the same; and the source's group row leads on to
/// each bridge that follows on the way to a receiver.
pub fn frames_go_one_path()
    ensures path { OnePath }
    ensures back { SameWayBack }
    ensures group { GroupLeadsOn }
{}

/// What a source sends to a service goes down one tree: by its group row each bridge sends on just to those that follow
/// it on the way to a receiver, and each of these takes it from that bridge alone. A bridge that isn't on the tree
/// sends nothing on, and is sent nothing. The tree leads to each other receiver that the source reaches, one edge
/// further with each bridge. Some service has a receiver that follows another bridge than the source.
pub fn group_rows_make_trees()
    ensures rows { RowsLeadOn }
    ensures towards { RowsLeadToFollowers }
    ensures accept { FollowersAccept }
    ensures elsewhere { NothingElsewhere }
    ensures together { TreeHangsTogether }
    ensures receivers { ReceiversAreOnTree }
    ensures some { SomeServiceHasTransit }
{}
