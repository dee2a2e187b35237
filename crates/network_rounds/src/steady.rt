//! What holds after each round of a network that was ready for it. Each law is the contract of a function that does
//! nothing.
ghost use Rattle.network_rounds.specs.Steady.{NothingIsLost, LifetimesLast, LinksComeUp, RoundsAreSteady};

/// In a network that is ready for rounds no ids come to be held but those that are held at the start, and from the end
/// of the first round on no frame is lost: lanes are empty between rounds, and what a bridge sends is heard.
pub fn nothing_is_lost()
    ensures { NothingIsLost }
{}

/// For as many rounds as the network is ready for no LSP runs out, and none is originated anew for its age.
pub fn lifetimes_last()
    ensures { LifetimesLast }
{}

/// From the end of round 4 on both ends of each link that is up are Up with each other, and keep each other for three
/// seconds; and from the end of round 5 on no CSNPs are due. Each round from then on is a steady one.
pub fn links_come_up()
    ensures up { LinksComeUp }
    ensures steady { RoundsAreSteady }
{}
