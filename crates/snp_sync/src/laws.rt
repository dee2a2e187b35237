//! The laws of sequence numbers PDUs. Each is the contract of a function that does nothing.
ghost use Rattle.snp_sync.specs.HearingLaws.{EntriesAreCertified, CsnpIsCertified, UnnamedStands, LastClaimStands, EntryIsServed, CsnpStands, MissedIsSent, EntriesLeaveOwn, EntriesDontSpend, EntriesLeaveOwnBody, CsnpLeavesOwnBody, EntriesKeepCurrent, CsnpKeepsCurrent, ClaimsAreNumbered, EntriesKeepFew, CsnpKeepsFew, EntriesKeepSendable, CsnpKeepsSendable, EntriesKeepFlags, CsnpKeepsFlags, EntriesKeepOctets, CsnpKeepsOctets, EntriesKeepSized, CsnpKeepsSized, LspKeepsSized, OriginationKeepsSized, SettlingKeepsSized, StartingKeepsSized, AgeingKeepsSized, FlagsKeepSized};
ghost use Rattle.snp_sync.specs.Advancing.{EntriesAdvance, CsnpAdvances};
ghost use Rattle.snp_sync.specs.SendingLaws.{SuccessorIsNext, SuccessorIsId, EntryClaimsWhatIsHeld, RangesCoverOnce, CsnpChunksListTheirRanges, CsnpChunksAreShort, CsnpChunksEndAtIds, CsnpChunksClaimWhatIsHeld, CsnpChunksListWhatIsHeld, CsnpIsRead, EntriesAreRead, CsnpEntriesAreRead, CsnpEntriesAreSized, PsnpChunksAreWhole, PsnpChunksAreShort, PsnpChunksClaimWhatIsHeld, PsnpChunksListWhatIsHeld, PsnpIsRead, PsnpEntriesAreRead, PsnpEntriesAreSized, SsnIsCleared, ClearingSsnIsCertified};

/// No LSP id lies between an id and its successor.
pub fn the_successor_is_next()
    ensures next { SuccessorIsNext }
    ensures id { SuccessorIsId }
{}

/// Each LSP id lies in the range of just one CSNP, which lists the LSPs in its range but the absent ones.
pub fn csnps_cover_each_id_once()
    ensures once { RangesCoverOnce }
    ensures lists { CsnpChunksListTheirRanges }
    ensures short { CsnpChunksAreShort }
    ensures ends { CsnpChunksEndAtIds }
{}

/// The PSNPs at a port list what has SSN there, and afterwards nothing has, and all else stands under every id.
pub fn psnps_list_all_with_ssn()
    ensures whole { PsnpChunksAreWhole }
    ensures short { PsnpChunksAreShort }
    ensures ssn_cleared { SsnIsCleared }
    ensures certified { ClearingSsnIsCertified }
{}

/// An entry that is sent is one of an LSP that is held, and claims exactly what is held.
pub fn what_is_said_is_what_is_held()
    ensures entry { EntryClaimsWhatIsHeld }
    ensures csnp_chunks { CsnpChunksClaimWhatIsHeld }
    ensures chunks { PsnpChunksClaimWhatIsHeld }
    ensures csnp_chunks_held { CsnpChunksListWhatIsHeld }
    ensures psnp_chunks_held { PsnpChunksListWhatIsHeld }
{}

/// A PDU that is sent is read as it was written.
pub fn what_is_written_is_read()
    ensures csnp { CsnpIsRead }
    ensures psnp { PsnpIsRead }
    ensures entries { EntriesAreRead }
    ensures csnp_chunks { CsnpEntriesAreRead }
    ensures chunks { PsnpEntriesAreRead }
    ensures sized_csnp_chunks { CsnpEntriesAreSized }
    ensures sized_psnp_chunks { PsnpEntriesAreSized }
{}

/// The entries of a PSNP, and a CSNP, heard at an Up port are a certified step.
pub fn hearing_is_certified()
    ensures entries { EntriesAreCertified }
    ensures csnp { CsnpIsCertified }
{}

/// Under each id stands what the last claim of it made. After an entry that found a place its sender gets what it
/// lacks, or is asked for what it has; after a CSNP its sender gets what it lacks in the range. The port at which they
/// are heard is Up.
pub fn the_sender_is_served()
    ensures unnamed { UnnamedStands }
    ensures last { LastClaimStands }
    ensures entry { EntryIsServed }
    ensures csnp { CsnpStands }
    ensures missed { MissedIsSent }
{}

/// Entries that are heard leave the system and its present bodies as they are, and below the last number they don't spend
/// it. Under its ids no body comes to stand by entries or a CSNP but that of its number, or that of a dead LSP. While it
/// isn't spent, its own LSPs stay current.
pub fn hearing_leaves_own_lsps()
    ensures stands { EntriesLeaveOwn }
    ensures not_spent { EntriesDontSpend }
    ensures body { EntriesLeaveOwnBody }
    ensures csnp_body { CsnpLeavesOwnBody }
    ensures current { EntriesKeepCurrent }
    ensures csnp_current { CsnpKeepsCurrent }
{}

/// Under an id of the own system version and body stay by entries and by a CSNP, or the number becomes greater, or the
/// LSP is dead at a number that isn't lower.
pub fn own_lsps_advance()
    ensures entries { EntriesAdvance }
    ensures csnp { CsnpAdvances }
{}

/// After entries or a CSNP were heard at an Up port, each LSP that is held can still be written and is read again, and
/// flags stand at Up ports alone; bodies are still octets, where the system says octets; and of the ids that aren't own
/// numbers no more are held than have room.
pub fn entries_stay_sound()
    ensures numbered { ClaimsAreNumbered }
    ensures few { EntriesKeepFew }
    ensures csnp_few { CsnpKeepsFew }
    ensures sendable { EntriesKeepSendable }
    ensures csnp_sendable { CsnpKeepsSendable }
    ensures flags { EntriesKeepFlags }
    ensures csnp_flags { CsnpKeepsFlags }
    ensures octets { EntriesKeepOctets }
    ensures csnp_octets { CsnpKeepsOctets }
{}

/// Of every LSP that is held an entry of a PDU can tell, whatever a life begins with and is heard, originated or aged in
/// it.
pub fn entries_stay_writable()
    ensures entries { EntriesKeepSized }
    ensures csnp { CsnpKeepsSized }
    ensures lsp { LspKeepsSized }
    ensures origination { OriginationKeepsSized }
    ensures settling { SettlingKeepsSized }
    ensures starting { StartingKeepsSized }
    ensures ageing { AgeingKeepsSized }
    ensures flags { FlagsKeepSized }
{}
