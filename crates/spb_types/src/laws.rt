//! The laws of sets of ports, of group addresses, of the limits and of level 1. Each is the contract of a function that
//! does nothing.
ghost use Rattle.std.specs.Prelude.{◌≡◌};
ghost use Rattle.spb_types.specs.PortLaws.{NoneIsInTheEmpty, PutInIsThere, PuttingInLeavesOthers, TakenOutIsGone, TakingOutLeavesOthers, MembersArePorts, SamePortsAreOneSet};
ghost use Rattle.spb_types.specs.Address.{GroupAddressesDiffer};
ghost use Rattle.spb_types.specs.declared.level.TheConstants.{LEVEL_1};
ghost use Rattle.spb_types.specs.declared.limits.TheConstants.{GREATEST_ECT, GREATEST_ISID, GREATEST_METRIC, GREATEST_VID, MOST_ADDRESSES, MOST_BRIDGES, MOST_CUSTOMER_PORTS, MOST_DELIVERIES, MOST_DELIVERIES_TOGETHER, MOST_FRAMES, MOST_GRAPH_BRIDGES, MOST_ISIDS, MOST_LINKS, MOST_LSPS, MOST_PORTS, MOST_ROUNDS, MOST_SERVICES, MOST_VIDS, SOURCE_IDS};

/// A port that is put into a set is there, one that is taken out isn't, and every other is where it was. The empty set
/// has no port, what is in a set is 1 to 32, and sets with the same ports are one.
pub fn sets_of_ports_are_sets()
    ensures empty { NoneIsInTheEmpty }
    ensures put_in { PutInIsThere }
    ensures others_put { PuttingInLeavesOthers }
    ensures taken_out { TakenOutIsGone }
    ensures others_taken { TakingOutLeavesOthers }
    ensures ports { MembersArePorts }
    ensures same { SamePortsAreOneSet }
{}

/// A group address tells its source and its I-SID, where these have 20 and 24 bits.
pub fn group_addresses_differ()
    ensures { GroupAddressesDiffer }
{}

/// The limits of what is declared, held and played are 96 bridges, 400 links, 32 backbone ports and 1,024 customer
/// ports, 960 I-SIDs of a bridge, 4,096 services, 1,024 addresses of an I-SID, 16 base VIDs, 65,535 bridges of a graph,
/// 4,096 LSPs, 1,024 frames in a lane, 20,000 rounds, and 1,000,000 deliveries of a drain and 100,000,000 of a script;
/// the greatest base VID is 4,094, the greatest ECT number 16, the greatest I-SID 16,777,215, the greatest metric
/// 16,777,214, and SPSourceIDs are below 1,048,576. Definitions name these constants.
pub fn limits_are_these()
    ensures bridges { MOST_BRIDGES ≡ 96 }
    ensures links { MOST_LINKS ≡ 400 }
    ensures ports { MOST_PORTS ≡ 32 }
    ensures customer_ports { MOST_CUSTOMER_PORTS ≡ 1024 }
    ensures isids { MOST_ISIDS ≡ 960 }
    ensures services { MOST_SERVICES ≡ 4096 }
    ensures addresses { MOST_ADDRESSES ≡ 1024 }
    ensures vids { MOST_VIDS ≡ 16 }
    ensures greatest_vid { GREATEST_VID ≡ 4094 }
    ensures greatest_ect { GREATEST_ECT ≡ 16 }
    ensures greatest_isid { GREATEST_ISID ≡ 16777215 }
    ensures source_ids { SOURCE_IDS ≡ 1048576 }
    ensures greatest_metric { GREATEST_METRIC ≡ 16777214 }
    ensures graph_bridges { MOST_GRAPH_BRIDGES ≡ 65535 }
    ensures lsps { MOST_LSPS ≡ 4096 }
    ensures frames { MOST_FRAMES ≡ 1024 }
    ensures rounds { MOST_ROUNDS ≡ 20000 }
    ensures deliveries { MOST_DELIVERIES ≡ 1000000 }
    ensures deliveries_together { MOST_DELIVERIES_TOGETHER ≡ 100000000 }
{}

/// Level 1 is the number 1, as a circuit type and as a flags octet (ISO/IEC 10589, 9.7 and 9.8). Definitions name this
/// constant.
pub fn level_1_is_1()
    ensures { LEVEL_1 ≡ 1 }
{}
