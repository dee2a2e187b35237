//! The laws of flooding. Each is the contract of a function that does nothing.
ghost use Rattle.std.specs.Prelude.{◌≡◌};
ghost use Rattle.flooding.specs.Laws.{HearingLspIsCertified, HearingEntryIsCertified, AnsweringIsCertified, BringingIsCertified, OthersStand, LspStands, EntryStands, FullStands, FittingIsNotFull, HeardIsAtMostHeld, StoredFlags, FloodedFlags, AskedFlags, AckedFlags, ClearedFlags, OfferedFlags, FlaggedFlags, SetSrmFlags, ClearedPortFlags, AgedFlags, ExpiredFlags, SpentFlags, OwnStands, OwnIsNotSpent, LspLeavesOwn, EntryLeavesOwn, LspLeavesOwnBody, EntryLeavesOwnBody, BringingLeavesOwnBody, OriginatedStands, BringingLeavesOthers, BringingLeavesOwn, BringingIsNotSpent, IdsNameLsps, SentIsHeld, SentIsRead, ReadIsWhole, ClaimIsNumbered, LspKeepsSendable, EntryKeepsSendable, BringingKeepsSendable, AgeingKeepsSendable, FlagsKeepSendable, LspKeepsFlags, EntryKeepsFlags, BringingKeepsFlags};
ghost use Rattle.flooding.specs.Advancing.{AdvancesCompose, LspAdvances, EntryAdvances, OriginationAdvances, PurgeAdvances, SettlingAdvances, AgeingAdvances};
ghost use Rattle.flooding.specs.SettlingLaws.{SettlingIsCertified, SettlingStands, SettlingLeavesOthers, SettlingLeavesOwn, SettlingLeavesOwnBody, SettlingGoesOneFurther, SettlingDoesntSpend, SettlingBringsFew, SettlingKeepsSendable, SettlingKeepsFlags, SettlingKeepsSilence, SettlingRenews, SettlingSpends, SettledIsCurrent, FreshIsCurrent, CurrentIsSettled, LspKeepsCurrent, EntryKeepsCurrent};
ghost use Rattle.flooding.specs.Starting.{StartingIsAlone, StartingKeepsSendable, StartingKeepsFlags, StartingKeepsFew, StartingBringsFew, StartingKeepsSilence, StartingLeavesOwnBody};
ghost use Rattle.flooding.specs.OctetLaws.{LspKeepsOctets, EntryKeepsOctets, SettlingKeepsOctets, StartingKeepsOctets, AgeingKeepsOctets};
ghost use Rattle.flooding.specs.Room.{most_others};
ghost use Rattle.flooding.specs.RoomLaws.{FewOwn, OthersAreHeld, RoomFits, PuttingKeepsFew, ChangingKeepsOthers, HearingKeepsFew, BringingKeepsFew, SettlingKeepsFew};
ghost use Rattle.flooding.specs.declared.origination.TheConstants.{MAX_AGE};

/// What is heard at an Up port, answered, originated and purged is a certified step.
pub fn flooding_is_certified()
    ensures lsp { HearingLspIsCertified }
    ensures entry { HearingEntryIsCertified }
    ensures answer { AnsweringIsCertified }
    ensures bringing { BringingIsCertified }
{}

/// A claim changes what is held under its id, and nothing else; and nothing where it finds no place.
pub fn a_claim_changes_its_id_alone()
    ensures others { OthersStand }
    ensures lsp { LspStands }
    ensures entry { EntryStands }
    ensures full { FullStands }
    ensures fitting { FittingIsNotFull }
{}

/// After an LSP is heard where there was a place, what is held is no older.
pub fn what_is_held_is_no_older_than_what_was_heard()
    ensures { HeardIsAtMostHeld }
{}

/// Where an LSP is to be sent and acknowledged after each change, port by port.
pub fn flags_are_read_port_by_port()
    ensures stored { StoredFlags }
    ensures flooded { FloodedFlags }
    ensures asked { AskedFlags }
    ensures acked { AckedFlags }
    ensures cleared { ClearedFlags }
    ensures offered { OfferedFlags }
    ensures flagged { FlaggedFlags }
    ensures srm_set { SetSrmFlags }
    ensures port_cleared { ClearedPortFlags }
    ensures aged { AgedFlags }
    ensures expired { ExpiredFlags }
    ensures spent { SpentFlags }
{}

/// A claim below the last number leaves an own LSP as it was, but for its flags, or is answered one number past it with
/// the body of the LSP's number, or dead where there is none. An origination puts the next entry under the id of its
/// number, and what is brought up to date changes no other. In all of it the system and its bodies stay, and below the
/// last number it isn't spent.
pub fn own_lsps_are_kept_or_renewed()
    ensures own { OwnStands }
    ensures not_spent { OwnIsNotSpent }
    ensures lsp { LspLeavesOwn }
    ensures entry { EntryLeavesOwn }
    ensures originated { OriginatedStands }
    ensures others { BringingLeavesOthers }
    ensures still_own { BringingLeavesOwn }
    ensures still_not_spent { BringingIsNotSpent }
{}

/// Bringing own LSPs up to date changes no other LSP, and nothing where they stand or the system is spent. It takes each
/// one number further at most, with the body of its number, or makes it dead at the last number.
pub fn settling_changes_own_lsps_alone()
    ensures stands { SettlingStands }
    ensures others { SettlingLeavesOthers }
    ensures own { SettlingLeavesOwn }
    ensures further { SettlingGoesOneFurther }
    ensures not_spent { SettlingDoesntSpend }
    ensures few { SettlingBringsFew }
    ensures renews { SettlingRenews }
    ensures spends { SettlingSpends }
{}

/// Bringing own LSPs up to date is a certified step, after which the LSPs that are held can be sent, flags stand at Up
/// ports, and no more is to be acknowledged or asked for.
pub fn settling_keeps_what_steps_keep()
    ensures certified { SettlingIsCertified }
    ensures body { SettlingLeavesOwnBody }
    ensures sendable { SettlingKeepsSendable }
    ensures flags { SettlingKeepsFlags }
    ensures silence { SettlingKeepsSilence }
{}

/// After they were brought up to date, where those that were live had lifetime enough left, each own LSP that the
/// system has a body for is live with it for 301 to 1,200 seconds more, and no other own one is live, unless the system
/// is spent. What is heard keeps it so, and then each stands.
pub fn own_lsps_are_current()
    ensures settled { SettledIsCurrent }
    ensures fresh { FreshIsCurrent }
    ensures still { CurrentIsSettled }
    ensures lsp { LspKeepsCurrent }
    ensures entry { EntryKeepsCurrent }
{}

/// Under an id of the own system no body comes to stand but the one that the system has for its number, or that of a
/// dead LSP.
pub fn own_bodies_are_the_systems()
    ensures lsp { LspLeavesOwnBody }
    ensures entry { EntryLeavesOwnBody }
    ensures brought { BringingLeavesOwnBody }
{}

/// Under an id of the own system version and body stay, or the number becomes greater, or the LSP is dead at a number
/// that isn't lower: whatever is heard, originated, purged and brought up to date, and in each second.
pub fn own_lsps_advance()
    ensures compose { AdvancesCompose }
    ensures lsp { LspAdvances }
    ensures entry { EntryAdvances }
    ensures origination { OriginationAdvances }
    ensures purge { PurgeAdvances }
    ensures settling { SettlingAdvances }
    ensures ageing { AgeingAdvances }
{}

/// What is to be sent at a port by its ids is what the database says; an LSP that is sent claims what is held, and its
/// bytes are read as that LSP.
pub fn what_is_sent_is_what_is_held()
    ensures ids { IdsNameLsps }
    ensures claim { SentIsHeld }
    ensures read { SentIsRead }
{}

/// Every entry stays one whose LSP can be written and is read again, where what is heard was read and the own LSPs
/// can be written.
pub fn what_is_held_can_be_sent()
    ensures read { ReadIsWhole }
    ensures numbered { ClaimIsNumbered }
    ensures lsp { LspKeepsSendable }
    ensures entry { EntryKeepsSendable }
    ensures bringing { BringingKeepsSendable }
    ensures ageing { AgeingKeepsSendable }
    ensures flags { FlagsKeepSendable }
{}

/// Flags stay at Up ports.
pub fn flags_stand_at_up_ports()
    ensures lsp { LspKeepsFlags }
    ensures entry { EntryKeepsFlags }
    ensures bringing { BringingKeepsFlags }
{}

/// Every body that is held stays octets, whatever a life begins with and is heard, brought up to date or aged in it,
/// where what is heard is octets and the system says octets.
pub fn bodies_stay_octets()
    ensures lsp { LspKeepsOctets }
    ensures entry { EntryKeepsOctets }
    ensures settling { SettlingKeepsOctets }
    ensures starting { StartingKeepsOctets }
    ensures ageing { AgeingKeepsOctets }
{}

/// An own LSP lives 1,200 seconds when it is originated (ISO/IEC 10589, 7.3.5). `renewed` names this constant.
pub fn own_lsps_live_1200_seconds()
    ensures { MAX_AGE ≡ 1200 }
{}

/// A life that held nothing yet begins with its own LSPs alone: one with a body is live one past the number of the life
/// before; one without is dead at that number, or isn't held where it is 0; and one that was at the last number is dead
/// there. What is held stays so that it can be sent, flags stay at the ports where they may stand, and where none stood
/// none comes. At most as many ids come as there are numbers of the life before, and of those that aren't own numbers
/// no more come to be held than have room. A body is the one that was held, that of the number, or that of a dead LSP.
pub fn a_life_begins_above_the_one_before()
    ensures alone { StartingIsAlone }
    ensures sendable { StartingKeepsSendable }
    ensures flags { StartingKeepsFlags }
    ensures few { StartingKeepsFew }
    ensures brings { StartingBringsFew }
    ensures silence { StartingKeepsSilence }
    ensures body { StartingLeavesOwnBody }
{}

/// While few ids are held that aren't own numbers, an own number has a place in the database, and another id has one
/// until 4,080 are held, as many as leave it to the own numbers. Few they stay, whatever is heard, changed and brought
/// up to date.
pub fn own_numbers_have_room()
    ensures many { most_others ≡ 4080 }
    ensures few { FewOwn }
    ensures held { OthersAreHeld }
    ensures fits { RoomFits }
    ensures keeps { PuttingKeepsFew }
    ensures changing { ChangingKeepsOthers }
    ensures hearing { HearingKeepsFew }
    ensures bringing { BringingKeepsFew }
    ensures settling { SettlingKeepsFew }
{}
