//! What holds of a network at every moment. Each law is the contract of a function that does nothing.
ghost use Rattle.network_model.specs.Holding.{TheFirstReasonIsGiven};
ghost use Rattle.network_model.specs.SoundLaws.{EventsKeepSound, CommandsKeepSound, NetworksAreSound, SomeNetworkIsBusy};
ghost use Rattle.network_model.specs.CountedLaws.{EventsKeepCounted, CommandsKeepCounted, NetworksAreCounted, NumbersStayLow, BridgesStayFar, NothingIsFull, OriginsGiveOneBody, SomeCountedIsBusy};
ghost use Rattle.network_model.specs.WiringLaws.{SoundIsWired, NetworksAreWired};
ghost use Rattle.network_model.specs.Truth.{QuietIsShared, QuietIsRead, QuietReadsLinks, QuietIsTrue, QuietHasWiredTables};
ghost use Rattle.network_model.specs.PathLaws.{FramesGoOnePath, PathIsTrue};
ghost use Rattle.network_model.specs.Convergence.{CountedQuietIsConverged, PlayedQuietIsConverged, ShowIsTrue, SomeNetworkIsQuiet};
ghost use Rattle.network_model.specs.MeetingLaws.{SomeBridgesMeet};
ghost use Rattle.network_model.specs.Quiet.{QuietSays};
ghost use Rattle.network_model.specs.RestartLaws.{RestartIsNew};
ghost use Rattle.network_model.specs.Brief.{SeenIsBrief};
ghost use Rattle.network_model.specs.DeliveryLaws.{FramesAreDelivered, DeliverDelivers};
ghost use Rattle.network_model.specs.Isolation.{CommandsKeepApart, ServicesStayApart, SomeFrameLeaves};
ghost use Rattle.network_model.specs.Once.{ExactlyOnce, NetworksDeliverOnce, SomeFramePasses};

/// Whatever comes to the bridges of a sound network, and whatever becomes of its frames and links, it stays sound.
pub fn events_keep_sound()
    ensures { EventsKeepSound }
{}

/// A command that isn't refused leaves a sound network sound, and so each network is that began with nothing declared.
pub fn networks_are_sound()
    ensures step { CommandsKeepSound }
    ensures always { NetworksAreSound }
{}

/// The wiring of a sound network is a valid graph, and valid for each bridge; and what `wiring` answers of a bridge is
/// its unicast table and its group table in that graph. So it is whatever commands were accepted.
pub fn wiring_gives_tables()
    ensures sound { SoundIsWired }
    ensures always { NetworksAreWired }
{}

/// A delivery takes the frame at the front of a lane, whose link is up, makes the bridge at the far end step once by
/// it, and puts what that sends into the lanes that lead from there; the customers' frames that leave the bridge have
/// left, and nothing else is changed. An accepted `deliver` makes such a delivery.
pub fn a_delivery_is_one_step()
    ensures delivered { FramesAreDelivered }
    ensures command { DeliverDelivers }
{}

/// A bridge that restarted is one that was just configured with the metrics of its links and what is attached to its
/// ports, and then got carrier on its links that are up: nothing is left of what it held but the sequence numbers of
/// its own LSPs. That of LSP number 0 goes one further, if it can; and each own LSP has version and body as they were,
/// or a greater sequence number, or is dead at one that isn't lower. It took the next blank box of its kind; without
/// one nothing changes.
pub fn a_restart_begins_anew()
    ensures { RestartIsNew }
{}

/// Each frame that a command delivers in a sound network has at most 2,022 bytes.
pub fn deliveries_are_brief()
    ensures { SeenIsBrief }
{}

/// Some commands lead to a network with a hello on its way over a link; and some lead to one in which a port is Up, and
/// a live LSP is on its way from it.
pub fn some_network_is_busy()
    ensures hello { SomeNetworkIsBusy }
    ensures met { SomeBridgesMeet }
{}

/// A command is refused for the reason of the least number that holds of it, and accepted exactly where none holds.
pub fn the_first_reason_is_given()
    ensures { TheFirstReasonIsGiven }
{}

/// Whatever commands are accepted, at most 120,000 of them, with at most 20,000 rounds, and in whatever order frames
/// are delivered, lost and doubled: no bridge spends its sequence numbers, and none but ids of declared bridges are
/// held or claimed. The numbers of each are within an allowance that a round raises by 128 and a command by 2, and so
/// are at most 2,800,000; and no database is full. No version of an LSP has a greater number than the one that the
/// bridge holds which originates it; and no two bridges hold different bodies of an LSP under one live version. Some
/// such network has a frame on its way.
pub fn numbers_stay_bounded()
    ensures events { EventsKeepCounted }
    ensures step { CommandsKeepCounted }
    ensures always { NetworksAreCounted }
    ensures low { NumbersStayLow }
    ensures far { BridgesStayFar }
    ensures place { NothingIsFull }
    ensures bodies { OriginsGiveOneBody }
    ensures some { SomeCountedIsBusy }
{}

/// Each of the three conditions of a quiet network, which are tests, holds exactly where what it reads like does.
pub fn quiet_says_what_it_reads_like()
    ensures { QuietSays }
{}

/// In a quiet network in which no live version has two bodies, all bridges that a walk over links that are up joins
/// hold the same. Where no bridge has spent its sequence numbers either, and each reads at most 65,535 systems, each
/// reads of each other that is joined to it what that one has to say: the links of the wiring. So its graph is the part
/// of the wiring that it reaches, with the best paths of the wiring, and its tables are those that are wired for it.
pub fn quiet_is_true()
    ensures shared { QuietIsShared }
    ensures read { QuietIsRead }
    ensures links { QuietReadsLinks }
    ensures wired { QuietIsTrue }
    ensures quiet { QuietHasWiredTables }
{}

/// In a quiet network the path between two bridges in a VID is the best one of the wiring, and the way back is the
/// same. Each bridge on it takes the source's frames from the bridge before it alone, and where the source sends to a
/// service that the last bridge receives, each sends what goes there on to the bridge behind it. What `path` answers is
/// that path, by the names of its bridges.
pub fn quiet_paths_are_wired()
    ensures frames { FramesGoOnePath }
    ensures answer { PathIsTrue }
{}

/// Where a sound network whose sequence numbers are counted is quiet, every bridge has its part of the wiring right,
/// any two that a walk joins hold the same, between any two frames go one path, and a group frame leaves exactly once
/// where it has to. So it is whatever commands were accepted, at most 120,000 of them. Where `show` says quiet, it has
/// the rows of `wiring`. Some commands lead to a quiet network of two bridges and a link.
pub fn quiet_can_be_relied_on()
    ensures counted { CountedQuietIsConverged }
    ensures always { PlayedQuietIsConverged }
    ensures shown { ShowIsTrue }
    ensures some { SomeNetworkIsQuiet }
{}

/// Whatever commands were accepted, whether the network is quiet or not: a frame that leaves at a customer port leaves
/// at one of an I-SID in which it entered, byte for byte, by one of these commands. In one command nothing is sent on
/// or leaves but what was on its way or enters by it. Some commands lead to a network in which a frame leaves.
pub fn services_stay_apart()
    ensures network { ServicesStayApart }
    ensures command { CommandsKeepApart }
    ensures some { SomeFrameLeaves }
{}

/// In a quiet network a frame with a group destination enters, and frames are delivered, in any order, until none is on
/// its way: the frame leaves once at each other port of its service that receives and that a walk over links joins to
/// the first, and nowhere else. So it is whatever commands led to the quiet network, at most 120,000 of them; and some
/// do.
pub fn group_frames_leave_once()
    ensures counted { ExactlyOnce }
    ensures always { NetworksDeliverOnce }
    ensures some { SomeFramePasses }
{}
