//! The configuration of a bridge, and when it is whole.
ghost use Rattle.std.specs.Prelude.{◌≡◌, ◌≤◌, length, IfOk};
ghost use Rattle.std.specs.List.{AllByRecursion};
ghost use Rattle.flooding.specs.Own.{last_number, own_numbers};
ghost use Rattle.bridge_api.specs.Config as config;

use flooding::OWN_NUMBERS;
use spb_types::{Attachment, BridgeId, NoMemory, Seq, SourceId, VidPlan};
use std::alloc::Global;

/// What a bridge is configured with.
///
/// It is whole where there are at most 32 ports and a metric of 1 to 16,777,214 for each; at most 16 base VIDs, which
/// differ and are 1 to 4094, with ECT numbers 1 to 16; a system id with the group bit clear that isn't all zero; a
/// source below 1,048,576; attached ports that differ and are 1 to 1,024, with at most 960 I-SIDs, each 1 to 16,777,215
/// and in a single one of the base VIDs; and as many numbers of the life before as a bridge has own LSPs.
#[derive(Debug, Drop)]
pub struct BridgeConfig {
    pub id: BridgeId,
    pub source: SourceId,
    /// How many backbone ports there are, numbered from 1 on.
    pub ports: u8,
    pub vids: Seq<VidPlan>,
    /// The metric of the link at each port, in order; 1 where there is no link.
    pub metrics: Seq<u32>,
    /// The customer ports that are attached.
    pub attached: Seq<Attachment>,
    /// For each own LSP by its number, the sequence number that it had in the life before, above which it begins; 0
    /// where it had none.
    pub last: Seq<u32>,
}

/// What a bridge has for `last` in its first life: a 0 for each own LSP, as a whole configuration may.
#[tactic(auto, unfolding(flooding::specs::Own::own_numbers))]
pub fn first_life(alloc: Global) -> Result<Seq<u32>, NoMemory>
    ensures last { IfOk result (λ last. last ≡ config.first_life) }
    ensures long { IfOk result (λ last. length last ≡ own_numbers) }
    ensures each { IfOk result (AllByRecursion (λ n. n ≤ last_number)) }
{
    let last = vec![in alloc; 0; usize::from(OWN_NUMBERS)]?;
    Ok(Seq::from_vec(last))
}
