//! The laws of what is written and read, and of the graph of all that is said. Each is the contract of a function that
//! does nothing.
ghost use Rattle.spb_content.specs.Members.{MergedSays, MergedAgain};
ghost use Rattle.spb_content.specs.Laws.{ReadAgain, SameIsWritten, WrittenIsSame, OrderSaysNothingOfContent, TreesAscend, VidsAscend, IsidsAscend, OwnFits, ServicesAreFew, FragmentsAreRead, OthersSayServices, FewAreOne, FragmentsAreFirst, FragmentsFit, ContentIsOctets, FragmentsAreOctets, MembersAreRead, SaidGraphHasAllLinks};

/// What a bridge of at most 60 I-SIDs writes in one is read as what it says.
pub fn content_again()
    ensures { ReadAgain }
{}

/// Bridges that say the same write the same, and, with at most 60 I-SIDs, only those do.
pub fn same_content_is_written_alike()
    ensures written { SameIsWritten }
    ensures said { WrittenIsSame }
{}

/// Merging members gives one for each base VID and I-SID that a member has, which does what one of these members does.
/// Merging again changes nothing.
pub fn merging_is_exact()
    ensures says { MergedSays }
    ensures again { MergedAgain }
{}

/// What a bridge says doesn't depend on the order of its VIDs and attached ports.
pub fn order_says_nothing()
    ensures { OrderSaysNothingOfContent }
{}

/// The trees, the base VIDs in use and the I-SIDs that a bridge says are those that it has, each once and ascending.
pub fn lists_ascend()
    ensures trees { TreesAscend }
    ensures vids { VidsAscend }
    ensures isids { IsidsAscend }
{}

/// What a bridge of at most 32 ports and 60 I-SIDs writes fits into one LSP.
pub fn content_fits()
    ensures { OwnFits }
{}

/// The fragments of a bridge, put together, say what it says, where their numbers have room for its services, of which
/// there are no more than I-SIDs. But for number 0, each says services and nothing else.
pub fn fragments_are_read()
    ensures few { ServicesAreFew }
    ensures read { FragmentsAreRead }
    ensures others { OthersSayServices }
{}

/// With at most 60 I-SIDs all that a bridge says is in fragment 0, and no other exists.
pub fn few_are_one()
    ensures { FewAreOne }
{}

/// Where a fragment doesn't exist, none behind it does.
pub fn fragments_are_first()
    ensures { FragmentsAreFirst }
{}

/// Each fragment of a bridge of at most 32 ports fits into one LSP.
pub fn fragments_fit()
    ensures { FragmentsFit }
{}

/// What a bridge writes is octets, in fragments, and with at most 60 I-SIDs in one, if its id and those of its
/// neighbours are.
pub fn content_is_octets()
    ensures one { ContentIsOctets }
    ensures fragments { FragmentsAreOctets }
{}

/// What a bridge says, read again, makes it the members that its attached ports make it, if each of these sends or
/// receives.
pub fn members_are_read()
    ensures { MembersAreRead }
{}

/// The graph of all that is said, reached or not, is valid, and has the costs and ports that are said, where at most
/// 65,535 systems say something, each once.
pub fn said_graph_has_all_links()
    ensures { SaidGraphHasAllLinks }
{}
