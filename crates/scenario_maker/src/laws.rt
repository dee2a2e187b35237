//! What holds of every script that is made. A law is the contract of a function that does nothing.
ghost use Rattle.scenario_maker.specs.Laws.{MadeIsLong, MembersAreApart, ChordsAreNoRingLinks, ChordsLeadAcross, PlacesAreTakenOnce, NamesAreApart};

/// A script that is made has 16 commands for each bridge, one for each chord, and 7 more.
pub fn scripts_are_long()
    ensures { MadeIsLong }
{}

/// On a ring of four bridges or more a bridge, the next one and the one across are three bridges of the ring.
pub fn members_are_apart()
    ensures { MembersAreApart }
{}

/// On a ring of four bridges or more no chord joins neighbours: the bridge across is neither the next one nor the one
/// before.
pub fn chords_join_no_neighbours()
    ensures { ChordsAreNoRingLinks }
{}

/// A chord leads from a bridge of the first half of the ring to one of the second, and no two from one bridge, so that
/// each bridge has one at most.
pub fn chords_lead_across()
    ensures { ChordsLeadAcross }
{}

/// No two bridges of a ring have the same next one, and no two the same one across. So no customer port is attached
/// twice, and no port 2 ends two links of the ring.
pub fn places_are_taken_once()
    ensures { PlacesAreTakenOnce }
{}

/// A name tells the bridge, the link of the ring or the chord, for numbers up to 96, and no two links have the same
/// name.
pub fn names_are_apart()
    ensures { NamesAreApart }
{}
