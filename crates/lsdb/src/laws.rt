//! The laws of versions and of databases. Each is the contract of a function that does nothing.
ghost use Rattle.lsdb.specs.CertificateLaws.{StandingIsCertified, StepsCompose, SilenceServesAll, StoringIsCertified, AckingIsCertified, ClearingIsCertified, AskingIsCertified, OfferingIsCertified, FlaggingIsCertified, FloodingIsCertified, AgeingIsCertified, ClearingPortIsCertified, SettingSrmIsCertified, EntryStepsCompose, PuttingIsCertified, ChangingIsCertified, ChangingEachIsCertified};
ghost use Rattle.lsdb.specs.MapLaws.{EachIsRead, ChangedIsRead, ChangingLeavesOthers, InsertedIsRead, InsertingLeavesOthers, IdsAreOrdered, TiedIdsAreOne};
ghost use Rattle.lsdb.specs.Laws.{AtMostItself, SameBothWays, AtMostThrough, AbsentIsLeast, JoinIsAbove, JoinIsLeast, OlderIsBelow, NewerIsAbove, EqualIsSame, ConfusedIsNeither, ConfusedAreLive, ConfusedJoinIsDead, NumbersFollow, GreaterNumberIsAbove, AtOneNumber, NotAtMost, WithoutFlagsNoneIsDue, WhereNoneIsDueNoFlags};
ghost use Rattle.lsdb.specs.Time.{LivesForItsLifetime, DiesAfterIt, OthersDontAge};

/// Versions are ordered, and absent is the least of them.
pub fn versions_are_ordered()
    ensures reflexive { AtMostItself }
    ensures antisymmetric { SameBothWays }
    ensures transitive { AtMostThrough }
    ensures least { AbsentIsLeast }
{}

/// The join of two versions is the least that both are at most.
pub fn join_is_least_upper_bound()
    ensures above { JoinIsAbove }
    ensures least { JoinIsLeast }
    ensures confused { ConfusedJoinIsDead }
{}

/// The relation says how two versions stand in the order, and confused that they don't.
pub fn relation_tells_the_order()
    ensures older { OlderIsBelow }
    ensures newer { NewerIsAbove }
    ensures equal { EqualIsSame }
    ensures confused { ConfusedIsNeither }
    ensures live { ConfusedAreLive }
{}

/// Sequence numbers follow the order, and decide it but for one number.
pub fn numbers_follow_the_order()
    ensures follow { NumbersFollow }
    ensures greater { GreaterNumberIsAbove }
    ensures same { AtOneNumber }
    ensures not { NotAtMost }
{}

/// A step in which nothing changes is certified, certified steps compose, and one without claims serves every port.
pub fn certified_steps_compose()
    ensures standing { StandingIsCertified }
    ensures through { StepsCompose }
    ensures silence { SilenceServesAll }
    ensures entries { EntryStepsCompose }
{}

/// Each change that a bridge makes to an entry is certified.
pub fn changes_of_an_entry_are_certified()
    ensures storing { StoringIsCertified }
    ensures acking { AckingIsCertified }
    ensures clearing { ClearingIsCertified }
    ensures asking { AskingIsCertified }
    ensures offering { OfferingIsCertified }
    ensures flagging { FlaggingIsCertified }
    ensures flooding { FloodingIsCertified }
    ensures ageing { AgeingIsCertified }
    ensures clearing_port { ClearingPortIsCertified }
    ensures setting_srm { SettingSrmIsCertified }
{}

/// What is certified of entries is certified of the database.
pub fn changes_of_a_database_are_certified()
    ensures putting { PuttingIsCertified }
    ensures changing { ChangingIsCertified }
    ensures each { ChangingEachIsCertified }
{}

/// What a change of the database leaves under each id, and that ids are in one order.
pub fn changes_are_read_by_id()
    ensures each { EachIsRead }
    ensures changed { ChangedIsRead }
    ensures others_changed { ChangingLeavesOthers }
    ensures inserted { InsertedIsRead }
    ensures others_inserted { InsertingLeavesOthers }
    ensures order { IdsAreOrdered }
    ensures tied { TiedIdsAreOne }
{}

/// No flags stand exactly where no LSP is to be sent, acknowledged or asked for at any port.
pub fn flags_are_at_ports()
    ensures none { WithoutFlagsNoneIsDue }
    ensures all { WhereNoneIsDueNoFlags }
{}

/// A live LSP of which nothing more is heard stays as it is for the seconds of its lifetime, which falls. After them it
/// is dead at its number, with lifetime 0 and the body 01, and is to be sent at every port that is Up then. No other
/// ages.
pub fn a_silent_lsp_lives_for_its_lifetime()
    ensures lives { LivesForItsLifetime }
    ensures dies { DiesAfterIt }
    ensures others { OthersDontAge }
{}
