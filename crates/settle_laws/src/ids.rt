//! Whether all bridges together hold few different LSP ids.
ghost use Rattle.std.specs.Prelude.{◌≡◌, ◌<◌, false, length, slice_get, IfOk, OnOk};
ghost use Rattle.std.specs.Option.{option_map_or};
ghost use Rattle.snp_sync.specs.Hearing.{is_among};
ghost use Rattle.network_rounds.specs.Premises.{has_few_ids, ids_of};
ghost use Rattle.spb_network.specs.Applying.{IsReady};
ghost use Rattle.spb_network.specs.Network.{state_of};
ghost use Rattle.settle_laws.specs.Ids.{with_id, with_ids};

use bridge_api::Bridge;
use spb_network::NetworkOf;
use spb_types::{LspId, NoMemory};
use std::alloc::Global;

/// The most LSP ids that bridges together may hold.
const MOST_IDS: usize = 900;

/// Whether an id is among those that were found.
fn is_found(found: &[LspId], id: &LspId) -> bool
    ensures { result ≡ is_among found.now id.now }
{
    found.iter().any(|other| other.cmp(id).is_eq())
}

/// Notes an id, unless it was found before.
fn note_id(found: &mut Vec<LspId>, id: LspId) -> Result<(), NoMemory>
    ensures { OnOk result (found.new.items ≡ with_id found.old.items id) }
{
    if is_found(found, &id) {
        return Ok(());
    }
    found.push(id)?;
    Ok(())
}

/// Notes the ids that a bridge holds. No database has more places than a `usize` counts.
fn note_ids<B: Bridge>(
    network: &NetworkOf<B>,
    bridge: usize,
    found: &mut Vec<LspId>,
) -> Result<(), NoMemory>
    requires halted { network.now.halted ≡ false }
    requires ready { IsReady B.shown network.now }
    requires bridge { bridge < length (state_of B.shown network.now).views }
    ensures { OnOk result (found.new.items ≡ option_map_or (λ v. with_ids found.old.items (ids_of v))
        (slice_get (state_of B.shown network.now).views bridge) found.old.items) }
{
    let mut place: usize = 0;
    while let Some(held) = network.entry_of(bridge, place) {
        note_id(found, held.id)?;
        let Some(next) = place.checked_add(1) else {
            return Err(NoMemory);
        };
        place = next;
    }
    Ok(())
}

/// Whether all bridges together hold at most 900 different ids. Each id that is held is looked for among those found
/// before it.
#[tactic(auto, unfolding(network_rounds::specs::Premises::has_few_ids))]
pub(crate) fn are_ids_few<B: Bridge>(
    alloc: Global,
    network: &NetworkOf<B>,
) -> Result<bool, NoMemory>
    requires halted { network.now.halted ≡ false }
    requires ready { IsReady B.shown network.now }
    ensures { IfOk result (λ few. few ≡ has_few_ids (state_of B.shown network.now)) }
{
    let mut found = Vec::new(alloc);
    for bridge in 0..network.bridge_count() {
        note_ids(network, bridge, &mut found)?;
        if found.len() > MOST_IDS {
            return Ok(false);
        }
    }
    Ok(true)
}
