//! Whether what bridges hold passes a test.
ghost use Rattle.std.specs.Prelude.{◌≡◌, ◌<◌, false, length, slice_get, true, IfOk};
ghost use Rattle.std.specs.List.{list_all};
ghost use Rattle.std.specs.Option.{option_map_or};
ghost use Rattle.lsdb.specs.Entry.{entry_of};
ghost use Rattle.flooding.specs.Own as own;
ghost use Rattle.spb_network.specs.Applying.{IsReady};
ghost use Rattle.spb_network.specs.Network.{state_of};
ghost use Rattle.settle_laws.specs.Premises as spec;

use crate::lanes::outlives;
use bridge_api::Bridge;
use flooding::OWN_NUMBERS;
use lsdb::Held;
use spb_network::NetworkOf;
use spb_types::{LspId, NoMemory, SystemId};

/// What is asked of an LSP that a system holds.
#[derive(Clone, Copy, Debug, PartialEq, Eq)]
pub(crate) enum LspTest {
    /// More than so many seconds are left of it, if it is live.
    Lasting(u32),
    /// So it is if the LSP is one of the system's own.
    OwnLasting(u32),
}

/// Whether an id is one that the system originates.
#[tactic(auto, unfolding(flooding::specs::Own::own_numbers))]
fn is_own(system: SystemId, id: &LspId) -> bool
    ensures { result ≡ own.is_own_number system id.now }
{
    id.system == system && (id.pseudonode == 0 && id.number < OWN_NUMBERS)
}

/// Whether an LSP that a system holds passes a test.
fn lsp_passes(test: LspTest, system: SystemId, held: &Held) -> bool
    ensures { result ≡ spec.lsp_passes test system held.now.id (entry_of held.now) }
{
    match test {
        LspTest::Lasting(most) => outlives(most, held.version, held.lifetime),
        LspTest::OwnLasting(most) => {
            !is_own(system, &held.id) || outlives(most, held.version, held.lifetime)
        }
    }
}

/// Whether each LSP that a bridge holds passes a test. No database has more places than a `usize` counts.
fn database_passes<B: Bridge>(
    network: &NetworkOf<B>,
    test: LspTest,
    bridge: usize,
) -> Result<bool, NoMemory>
    requires halted { network.now.halted ≡ false }
    requires ready { IsReady B.shown network.now }
    requires bridge { bridge < length (state_of B.shown network.now).views }
    ensures { IfOk result (λ holds. holds ≡ option_map_or (spec.view_passes test)
        (slice_get (state_of B.shown network.now).views bridge) true) }
{
    let system = network.system_of(bridge);
    let mut place: usize = 0;
    while let Some(held) = network.entry_of(bridge, place) {
        if !lsp_passes(test, system, held) {
            return Ok(false);
        }
        let Some(next) = place.checked_add(1) else {
            return Err(NoMemory);
        };
        place = next;
    }
    Ok(true)
}

/// Whether each LSP that a bridge holds passes a test, at each bridge.
pub(crate) fn databases_pass<B: Bridge>(
    network: &NetworkOf<B>,
    test: LspTest,
) -> Result<bool, NoMemory>
    requires halted { network.now.halted ≡ false }
    requires ready { IsReady B.shown network.now }
    ensures { IfOk result (λ holds.
        holds ≡ list_all (spec.view_passes test) (state_of B.shown network.now).views) }
{
    for bridge in 0..network.bridge_count() {
        if !database_passes(network, test, bridge)? {
            return Ok(false);
        }
    }
    Ok(true)
}
