//! What holds after all frames of a round. Each law is the contract of a function that does nothing.
ghost use Rattle.bridge_rounds.specs.Mail.{MailIsSound, MailKeepsBridge, MailHoldsWithin, MailFits};
ghost use Rattle.bridge_rounds.specs.Hellos.{OneHelloMoves, NoHelloStands, TowardsKept};
ghost use Rattle.bridge_rounds.specs.Staying.{PortStaysUp, BridgeSaysTheSame};
ghost use Rattle.bridge_rounds.specs.Versions.{MailRises, AtMostStands, LspIsHeld, VersionsComeFrom, PortIsKept, RoundIsKept};

/// Whatever frames come, a sound bridge is sound after each of them, and the same bridge after all. If it holds LSPs of
/// at most 900 ids and hears of no others, it holds no others, and each of them has room.
pub fn bridges_last_through_rounds()
    ensures sound { MailIsSound }
    ensures bridge { MailKeepsBridge }
    ensures ids { MailHoldsWithin }
    ensures fits { MailFits }
{}

/// One hello at a port makes of its adjacency what it makes of the one before, whatever else comes; without a hello it
/// stays. By the hello of the only system that may be kept there the state becomes that of the table.
pub fn hellos_move_adjacencies()
    ensures one { OneHelloMoves }
    ensures none { NoHelloStands }
    ensures towards { TowardsKept }
{}

/// No version falls, and one of which no more is claimed than is held stands. An LSP that comes at an Up port is at
/// most what is held in the end. Of another system a version is held that was held or claimed, unless two live ones
/// with one number meet.
pub fn versions_come_by_claims()
    ensures rises { MailRises }
    ensures stands { AtMostStands }
    ensures held { LspIsHeld }
    ensures come { VersionsComeFrom }
{}

/// The neighbour at a port that is Up in the end is no further behind than before, by all frames of a round, and by a
/// whole round.
pub fn neighbours_keep_up()
    ensures frames { PortIsKept }
    ensures round { RoundIsKept }
{}

/// A port that is Up stays so with its neighbour while each hello that comes there keeps it. And where each port with
/// carrier stays Up, the bridge has the same to say.
pub fn ports_stay_up()
    ensures up { PortStaysUp }
    ensures says { BridgeSaysTheSame }
{}
