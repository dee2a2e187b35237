//! The premises of settling: which of them fails.
ghost use Rattle.std.specs.Prelude.{◌≡◌, ◌≤◌, false, IfOk};
ghost use Rattle.network_rounds.specs.Premises.{has_no_customers, outlive, owns_outlive};
ghost use Rattle.spb_network.specs.Applying.{IsReady};
ghost use Rattle.spb_network.specs.Network.{state_of};
ghost use Rattle.settle_laws.specs.Premises.{ready_of};

use crate::answers::Ready;
use crate::databases::{LspTest, databases_pass};
use crate::ids::are_ids_few;
use crate::lanes::{FrameTest, lanes_pass};
use crate::settling::most_settling;
use bridge_api::Bridge;
use spb_network::NetworkOf;
use spb_types::NoMemory;
use std::alloc::Global;

/// Whether no frame on its way carries a customer's.
#[tactic(auto, unfolding(network_rounds::specs::Premises::has_no_customers))]
fn has_no_customers<B: Bridge>(alloc: Global, network: &NetworkOf<B>) -> Result<bool, NoMemory>
    ensures { IfOk result (λ holds. holds ≡ has_no_customers (state_of B.shown network.now)) }
{
    lanes_pass(alloc, network, FrameTest::Plain)
}

/// Whether more than so many seconds are left of all that is live.
#[tactic(auto, unfolding(network_rounds::specs::Premises::outlive))]
fn outlive<B: Bridge>(alloc: Global, network: &NetworkOf<B>, most: u32) -> Result<bool, NoMemory>
    requires halted { network.now.halted ≡ false }
    requires ready { IsReady B.shown network.now }
    ensures { IfOk result (λ holds. holds ≡ outlive most (state_of B.shown network.now)) }
{
    if !databases_pass(network, LspTest::Lasting(most))? {
        return Ok(false);
    }
    lanes_pass(alloc, network, FrameTest::Lasting(most))
}

/// Whether more than so many seconds and 300 are left of what bridges originate.
#[tactic(auto, unfolding(network_rounds::specs::Premises::owns_outlive))]
fn owns_outlive<B: Bridge>(network: &NetworkOf<B>, most: u32) -> Result<bool, NoMemory>
    requires halted { network.now.halted ≡ false }
    requires ready { IsReady B.shown network.now }
    requires most { most ≤ 400 }
    ensures { IfOk result (λ holds. holds ≡ owns_outlive most (state_of B.shown network.now)) }
{
    databases_pass(network, LspTest::OwnLasting(most + 300))
}

/// The first premise of settling that fails.
pub fn ready<B: Bridge>(alloc: Global, network: &NetworkOf<B>) -> Result<Ready, NoMemory>
    requires halted { network.now.halted ≡ false }
    requires ready { IsReady B.shown network.now }
    ensures { IfOk result (λ first. first ≡ ready_of (state_of B.shown network.now)) }
{
    let most = most_settling(network);
    if !has_no_customers(alloc, network)? {
        return Ok(Ready::Frame);
    }
    if !outlive(alloc, network, most)? {
        return Ok(Ready::Lifetime);
    }
    if !owns_outlive(network, most)? {
        return Ok(Ready::OwnLifetime);
    }
    if !are_ids_few(alloc, network)? {
        return Ok(Ready::Ids);
    }
    Ok(Ready::Yes)
}
