//! What every step of a bridge keeps, whatever comes to it. Each is the contract of a function that does nothing.
ghost use Rattle.bridge_api.specs.Laws.{ConfiguredIsSound, ConfiguredHasNoCarrier, ConfiguredStarts, SoundCanSay, StepsStaySound, StepsKeepBridge, StepsKeepCarrier, StepsKeepNeighbours, SentIsSound, OneHello, HellosAreHeard, SentWithCarrier, LspSettlesNothing, CsnpSettlesNothing, PsnpSettlesNothing, EnteringUpIsWhole, UpPortsAreUp, StepsCarryDatabase, NeighboursComeUp, SomeBridge};
ghost use Rattle.bridge_laws.specs.Advancing.{StepsAdvance};
ghost use Rattle.bridge_laws.specs.Apart.{SentHasEntered, LeftHasEntered, ConfiguredIsPlaced, StepsKeepPlaces};
ghost use Rattle.bridge_api.specs.Duties.{SecondsServe, LspsAreHeard, RequestsAreHeard, SecondsLeaveNothingDue};
ghost use Rattle.bridge_laws.specs.Brief.{SentIsBrief};
ghost use Rattle.bridge_laws.specs.Few.{ConfiguredHoldsFew, StepsHoldFew, StepsBringFew, SecondsSendFew, SecondsSendOwn};
ghost use Rattle.bridge_api.specs.Graph.{ReadsWhatIsHeld, ReadsEachOnce, ReadsItself, ReadsOthers, OwnPortsAreApart, SaysItsNeighbours, MembersAreSaid, CutSaysNothing, SomeGraphIsOwn};
ghost use Rattle.bridge_api.specs.Time.{NeighboursAreKept, NeighboursAreLost, KeepsSomebody, SecondsAge, LspsLast, LspsExpire, SecondsStandStill, SecondsRenew, SecondsStayUnspent, SecondsSpend, SpentStandsStill, OwnLspLasts, OwnLspIsRenewed, AloneStaysAlone, EveryNineHundred};
ghost use Rattle.bridge_laws.specs.Dropping.{DroppedFramesCountOnce, HeardFramesCountEntries, EntriesWithoutWayCountOnce, OtherEntriesCountNothing, OtherStepsCountNothing, SomeDrops};
ghost use Rattle.bridge_laws.specs.Counting.{StepsHoldIds, StepsLearn, StepsLearnVersions, StepsAnswer, StepsOriginate, StepsDontSpend, ConfiguredIsFar, SomeIsFar};

use itag_frames::control_again;

/// A configured bridge is sound, and stays so: unless its sequence numbers are spent, each own LSP in which it has
/// something to say is live for 301 to 1,200 seconds and says that, and no other own one is live. It has the ports of
/// its configuration and no carrier yet, and holds its own LSPs alone, each as it begins above the number that it had
/// in the life before. What a sound bridge says of itself can be written, fits its LSPs, and is octets.
pub fn bridges_are_sound()
    ensures configured { ConfiguredIsSound }
    ensures no_carrier { ConfiguredHasNoCarrier }
    ensures starts { ConfiguredStarts }
    ensures says { SoundCanSay }
    ensures steps { StepsStaySound }
{}

/// What a sound bridge hears in LSPs and sequence numbers PDUs leaves it nothing to originate.
pub fn hearing_settles_nothing()
    ensures lsp { LspSettlesNothing }
    ensures csnp { CsnpSettlesNothing }
    ensures psnp { PsnpSettlesNothing }
{}

/// A bridge keeps its ids, its VIDs, and its ports; the metric and the carrier of a port change by setting the metric
/// there, and by a change of carrier there, alone; and what is attached changes by attaching and detaching alone.
pub fn steps_keep_the_bridge()
    ensures bridge { StepsKeepBridge }
    ensures carrier { StepsKeepCarrier }
{}

/// A neighbour that is kept was kept before, or is the sender of the hello that was just heard.
pub fn steps_keep_neighbours()
    ensures { StepsKeepNeighbours }
{}

/// Each frame that a sound bridge sends and that is heard as a hello names its sender and port, the state there, and
/// nobody but the neighbour that is kept; an LSP that is sent is the one that its sender holds, and what a frame claims
/// is just what its sender holds. Any other frame carries a customer's. In each second one hello is sent at each port
/// with carrier, and nothing at others. What is said of frames and hellos is said where the neighbour that is kept, if
/// one is, has a circuit id of four bytes, as in every frame. Each LSP and each PSNP that is sent in a second is heard
/// as what it is.
pub fn frames_are_heard()
    ensures sound { SentIsSound }
    ensures one_hello { OneHello }
    ensures heard { HellosAreHeard }
    ensures carrier { SentWithCarrier }
    ensures lsps { LspsAreHeard }
    ensures requests { RequestsAreHeard }
{
    control_again();
}

/// Each frame that a sound bridge sends has at most 2,022 bytes, those of a customer's frame of 2,000 bytes with its
/// tags, or is the frame that came in.
pub fn frames_are_brief()
    ensures { SentIsBrief }
{}

/// Service instances don't mix at a bridge. A frame that is sent carries, and one that leaves at a customer port is,
/// byte for byte, a customer's frame that has just come in, and in the same I-SID; and it leaves at a port of that
/// I-SID, where what was learned at customer ports was learned at ports of its I-SID. So it is at a configured bridge,
/// and stays so.
pub fn services_stay_apart()
    ensures sent { SentHasEntered }
    ensures left { LeftHasEntered }
    ensures configured { ConfiguredIsPlaced }
    ensures places { StepsKeepPlaces }
{}

/// In each second all is sent that is to be sent at an Up port, and afterwards no SSN flag stands anywhere and no CSNP
/// is due.
pub fn seconds_serve_neighbours()
    ensures sent { SecondsServe }
    ensures nothing_due { SecondsLeaveNothingDue }
{}

/// A bridge reads its graph from the live LSPs that it holds, of each system what they say together, if the one of
/// number 0 is among them. A sound one reads of itself what it has to say, unless its sequence numbers are spent, and
/// each neighbour at a port of its own. Of another sound one whose numbers aren't spent it reads what that one has to
/// say, where it holds the same of its system. It says each neighbour at a port that is Up, with the metric there, and
/// no other. What a sound one says is read so: it is a member of each service to which a customer port is attached, in
/// the VID of the port, and of no other, once; and it transmits where one of these ports sends, and receives where one
/// does.
pub fn graphs_are_read_from_what_is_held()
    ensures held { ReadsWhatIsHeld }
    ensures once { ReadsEachOnce }
    ensures own { ReadsItself }
    ensures others { ReadsOthers }
    ensures neighbours { SaysItsNeighbours }
    ensures members { MembersAreSaid }
    ensures ports { OwnPortsAreApart }
{}

/// What a bridge doesn't reach says nothing of its rows: in the graph that it reaches they are those of the graph of
/// all that it reads, where it reads at most 65,535 systems and the graph that it reaches is valid. There are such
/// bridges and graphs.
pub fn cut_says_nothing()
    ensures rows { CutSaysNothing }
    ensures some { SomeGraphIsOwn }
{}

/// A port that is Up was so before with the same neighbour, or everything is to be sent there and nothing has SSN
/// there.
pub fn entering_up_is_whole()
    ensures { EnteringUpIsWhole }
{}

/// In a step of a sound bridge no version that is held falls, and the neighbour at each Up port is no further behind.
/// The set of the Up ports has each port that is Up, and no other number.
pub fn steps_carry_the_database()
    ensures steps { StepsCarryDatabase }
    ensures up_ports { UpPortsAreUp }
{}

/// Of two bridges just configured, with carrier at port 1 of each, the one that hears the other after that one heard it
/// is Up; and there are such bridges.
pub fn neighbours_come_up()
    ensures up { NeighboursComeUp }
    ensures some { SomeBridge }
{
    control_again();
}

/// A bridge that holds its own LSPs alone, each at number k at most, and hears hellos alone, holds them alone after a
/// step, each at number k + 1 at most; and in a second it sends, for each port, at most three frames for each own
/// number, and two. That is said below the last number, of a bridge whose sequence numbers aren't spent, such as a
/// configured one in its first life, with its own LSPs at number 1 at most. Whatever else a bridge holds, a step in
/// which it hears hellos alone brings at most 16 LSPs; and in a second it sends, for each port, at most three frames
/// for each LSP that it held and for each of 16 more, and two.
pub fn few_are_held_and_sent()
    ensures configured { ConfiguredHoldsFew }
    ensures steps { StepsHoldFew }
    ensures brings { StepsBringFew }
    ensures sent { SecondsSendFew }
    ensures own { SecondsSendOwn }
{}

/// A neighbour is kept for as many seconds as its holding count says, in the state that it is in, whatever comes to the
/// bridge but hellos and changes of carrier at its port. Then the port is Down, and keeps nobody. There are bridges
/// that keep somebody.
pub fn silent_neighbours_are_lost()
    ensures kept { NeighboursAreKept }
    ensures lost { NeighboursAreLost }
    ensures some { KeepsSomebody }
{
    control_again();
}

/// In a second an LSP under an id that is no own number keeps its version and body, or is dead at its number. Where
/// nothing comes to the bridge, a live one stays as it is for the seconds of its lifetime, and is then dead, to be sent
/// at every Up port.
pub fn silent_lsps_expire()
    ensures age { SecondsAge }
    ensures last { LspsLast }
    ensures expire { LspsExpire }
{}

/// Of a sound bridge whose sequence numbers aren't spent: a second after which it has the same to say in an own LSP,
/// whose lifetime is then above 300, leaves that one as it is. Any other in which it has something to say is
/// originated: it stands one sequence number further, while no lower one has to go past the last. The first that has to
/// is dead instead, and no later second originates. So a bridge just configured, in its first life, and left to itself
/// originates each own LSP in which it has something to say every 900 seconds.
pub fn own_lsps_are_renewed()
    ensures still { SecondsStandStill }
    ensures renew { SecondsRenew }
    ensures unspent { SecondsStayUnspent }
    ensures spend { SecondsSpend }
    ensures spent { SpentStandsStill }
    ensures lasts { OwnLspLasts }
    ensures renewed { OwnLspIsRenewed }
    ensures alone { AloneStaysAlone }
    ensures every { EveryNineHundred }
{}

/// Sequence numbers rise by what is heard alone, but for what a bridge originates. An id is held by being claimed, or
/// is an own one. Whatever comes in but a second, an LSP of another system stays, is the one that came in, or is dead
/// where confused ones met. An own one stands at most one number past what it answers, or else is originated once at
/// most. Where its own numbers and those that are claimed are below the last one, nothing spends them; there are such
/// bridges.
pub fn numbers_rise_by_what_is_heard()
    ensures ids { StepsHoldIds }
    ensures learn { StepsLearn }
    ensures versions { StepsLearnVersions }
    ensures answer { StepsAnswer }
    ensures originate { StepsOriginate }
    ensures fresh { StepsDontSpend }
    ensures configured { ConfiguredIsFar }
    ensures some { SomeIsFar }
{}

/// Under an id of a bridge's own system, version and body stay in a step, or the number becomes greater, or the LSP is
/// dead at a number that isn't lower. So no live version comes to stand there with a second body.
pub fn own_lsps_advance()
    ensures { StepsAdvance }
{}

/// A frame that is dropped raises the count of the one reason for which it is dropped, by one, and changes and sends
/// nothing. Any other frame raises no count but that of Full, once for each entry of a sequence numbers PDU that finds
/// no place in the database. A customer's frame is dropped only where no port leads on, which is counted once; what its
/// source taught the bridge stays. Nothing else raises a count. There are bridges that drop frames.
pub fn dropped_frames_are_counted()
    ensures dropped { DroppedFramesCountOnce }
    ensures heard { HeardFramesCountEntries }
    ensures without_way { EntriesWithoutWayCountOnce }
    ensures entries { OtherEntriesCountNothing }
    ensures others { OtherStepsCountNothing }
    ensures some { SomeDrops }
{}
