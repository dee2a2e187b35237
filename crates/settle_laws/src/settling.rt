//! Settling: single rounds until a network is quiet.
ghost use Rattle.std.specs.Prelude.{◌≡◌, ◌≤◌, ◌+◌, ◌*◌, ◌++◌, false, nat_le, IfOk, OnOk, OnErr, if◌then◌else◌};
ghost use Rattle.spb_types.specs.declared.limits.TheConstants.{MOST_ROUNDS};
ghost use Rattle.network_model.specs.Captured.{seen_of, captured};
ghost use Rattle.network_model.specs.Isolation.{outs_in};
ghost use Rattle.network_model.specs.Questions as question;
ghost use Rattle.network_rounds.specs.Settling as rounds;
ghost use Rattle.spb_network.specs.Applying.{IsReady};
ghost use Rattle.spb_network.specs.Network.{state_of};
ghost use Rattle.settle_laws.specs.declared.answers.Ready.TheVariants as readiness;
ghost use Rattle.settle_laws.specs.Premises.{ready_of};
ghost use Rattle.settle_laws.specs.Settling.{PlaysRound, PlaysRounds, SettlesBy, WatchesSettling, Notes, EndsInTime, LeftTells, one_round, single_rounds};

use crate::answers::{Ready, Settled};
use crate::premises::ready;
use crate::watch::Watch;
use bridge_api::Bridge;
use network_rounds::networks_settle;
use spb_network::{Answer, ApplyError, Delivered, NetworkOf, Out, Reason};
use spb_types::NoMemory;
use spb_types::limits::MOST_ROUNDS;
use std::alloc::Global;

/// The rounds that settling may make with so many bridges.
pub fn bound(bridges: u32) -> u32
    requires { bridges ≤ 96 }
    ensures { result ≡ 4 * bridges + 16 }
{
    4 * bridges + 16
}

/// The rounds that settling may make with a network.
pub(crate) fn most_settling<B: Bridge>(network: &NetworkOf<B>) -> u32
    requires halted { network.now.halted ≡ false }
    requires ready { IsReady B.shown network.now }
    ensures most { result ≡ rounds.most_settling (state_of B.shown network.now) }
    ensures few { result ≤ 400 }
{
    bound(network.bridge_count() as u32)
}

/// Moves the customers' frames that an answer says to have left behind others. After `NoMemory` these are as they were.
fn move_outs(answer: Answer, outs: &mut Vec<Out>) -> Result<(), NoMemory>
    ensures ok { OnOk result (outs.new.items ≡ outs.old.items ++ outs_in answer) }
    ensures err { OnErr result (outs.new.items ≡ outs.old.items) }
{
    match answer {
        Answer::Outs { frames } => {
            let mut items = frames.into_vec();
            outs.append(&mut items)?;
            Ok(())
        }
        _ => Ok(()),
    }
}

/// Plays a round, and moves the customers' frames that leave in it behind others.
fn play_round<B: Bridge>(
    network: &mut NetworkOf<B>,
    outs: &mut Vec<Out>,
    watch: &mut Watch,
) -> Result<(), ApplyError>
    requires halted { network.old.halted ≡ false }
    requires ready { IsReady B.shown network.old }
    requires room { (state_of B.shown network.old).rounds + 1 ≤ MOST_ROUNDS }
    ensures round { PlaysRound (state_of B.shown network.old) outs.old.items outs.new.items result
        network.new.halted (state_of B.shown network.new) }
    ensures ready { IsReady B.shown network.new }
    ensures notes { OnOk result (Notes (seen_of (state_of B.shown network.old) one_round) watch.old watch.new) }
{
    let answer = watch.apply_round(network)?;
    move_outs(answer, outs)?;
    Ok(())
}

/// Plays rounds until the network is quiet, at most so many, and answers how many it played.
fn play_rounds<B: Bridge>(
    network: &mut NetworkOf<B>,
    most: u32,
    outs: &mut Vec<Out>,
    watch: &mut Watch,
) -> Result<u32, ApplyError>
    requires halted { network.old.halted ≡ false }
    requires ready { IsReady B.shown network.old }
    requires room { (state_of B.shown network.old).rounds + most ≤ MOST_ROUNDS }
    ensures rounds { PlaysRounds most (state_of B.shown network.old) outs.old.items outs.new.items result
        network.new.halted (state_of B.shown network.new) }
    ensures ready { IsReady B.shown network.new }
    ensures notes { IfOk result (λ made. Notes
        (captured (state_of B.shown network.old) (single_rounds made)) watch.old watch.new) }
{
    for made in 0..most {
        if network.is_quiet() {
            return Ok(made);
        }
        play_round(network, outs, watch)?;
    }
    Ok(most)
}

/// The first premise that fails, where the network isn't quiet.
fn ready_unless_quiet<B: Bridge>(alloc: Global, network: &NetworkOf<B>) -> Result<Ready, NoMemory>
    requires halted { network.now.halted ≡ false }
    requires ready { IsReady B.shown network.now }
    ensures { IfOk result (λ first. question.is_quiet (state_of B.shown network.now) ≡ false →
        first ≡ ready_of (state_of B.shown network.now)) }
{
    if network.is_quiet() {
        return Ok(Ready::Yes);
    }
    ready(alloc, network)
}

/// What is left of settling, where this was the first premise that failed before it.
fn left<B: Bridge>(network: &NetworkOf<B>, before: Ready) -> Ready
    requires halted { network.now.halted ≡ false }
    requires ready { IsReady B.shown network.now }
    ensures { result ≡ (if question.is_quiet (state_of B.shown network.now) then readiness.Yes else before) }
{
    if network.is_quiet() {
        Ready::Yes
    } else {
        before
    }
}

/// Whether so many rounds more are within the limit of all rounds.
fn are_rounds_left<B: Bridge>(network: &NetworkOf<B>, most: u32) -> bool
    ensures { result ≡ nat_le ((state_of B.shown network.now).rounds + most) MOST_ROUNDS }
{
    u64::from(network.rounds_used()) + u64::from(most) <= MOST_ROUNDS
}

/// Settles a network, and notes the deliveries of its rounds if they are watched.
#[tactic(auto, unfolding(network_rounds::specs::Settling::settle_refusal))]
fn settle_noting<B: Bridge>(
    alloc: Global,
    network: &mut NetworkOf<B>,
    outs: &mut Vec<Out>,
    watch: &mut Watch,
) -> Result<Settled, ApplyError>
    requires { IsReady B.shown network.old }
    ensures settles { SettlesBy B.shown network.old outs.old.items outs.new.items result network.new }
    ensures ready { IsReady B.shown network.new }
    ensures in_time { IfOk result (λ answer. EndsInTime (state_of B.shown network.old) answer
        (state_of B.shown network.new)) }
    ensures tells { IfOk result (λ answer. LeftTells (state_of B.shown network.old) answer
        (state_of B.shown network.new)) }
    ensures notes { OnOk result (Notes (captured (state_of B.shown network.old)
        (rounds.settling (state_of B.shown network.old))) watch.old watch.new) }
{
    if network.is_halted() {
        return Err(ApplyError::Halted);
    }
    let most = most_settling(network);
    if !are_rounds_left(network, most) {
        return Err(ApplyError::Refused(Reason::TooMany));
    }
    let before = ready_unless_quiet(alloc, network)?;
    let rounds = play_rounds(network, most, outs, watch)?;
    networks_settle();
    Ok(Settled {
        rounds,
        left: left(network, before),
    })
}

/// Settles a network: plays single rounds until it is quiet, at most [`bound`] of them, and none where it is quiet
/// already. Each is one `round 1`, which counts among the rounds and among the accepted commands. The customers' frames
/// that leave follow upon those in `outs`, in order.
///
/// While no more than 120,000 commands were accepted before, the answer's `left` is `Yes` exactly where the network is
/// quiet afterwards. So it is wherever [`ready`] would have answered `Yes` before; of n bridges, 2(n - 1) + 6 rounds are
/// enough then.
///
/// `Halted` exactly where an earlier command found no memory, and then `Refused` with `TooMany` exactly where the rounds
/// before and the bound together pass 20,000, also where the network is quiet. After both nothing is changed. After
/// `NoMemory` some of the rounds may have been made; the network halted exactly where a round found none.
///
/// That the network is quiet says nothing of the next round: a port whose holding count is 1 may go Down in it.
pub fn settle<B: Bridge>(
    alloc: Global,
    network: &mut NetworkOf<B>,
    outs: &mut Vec<Out>,
) -> Result<Settled, ApplyError>
    requires { IsReady B.shown network.old }
    ensures settles { SettlesBy B.shown network.old outs.old.items outs.new.items result network.new }
    ensures ready { IsReady B.shown network.new }
    ensures in_time { IfOk result (λ answer. EndsInTime (state_of B.shown network.old) answer
        (state_of B.shown network.new)) }
    ensures tells { IfOk result (λ answer. LeftTells (state_of B.shown network.old) answer
        (state_of B.shown network.new)) }
{
    settle_noting(alloc, network, outs, &mut Watch::off(alloc))
}

/// Settles a network as [`settle`] does, and appends the frames that its rounds deliver, in order, each with the seconds
/// of the bridge to which it comes; none has more than 2,022 bytes. Where it answers an error, nothing is appended.
///
/// No frame is copied. `NoMemory` comes also where a list of deliveries can't grow; all rounds may have been made then.
pub fn settle_watched<B: Bridge>(
    alloc: Global,
    network: &mut NetworkOf<B>,
    outs: &mut Vec<Out>,
    seen: &mut Vec<Delivered>,
) -> Result<Settled, ApplyError>
    requires { IsReady B.shown network.old }
    ensures watches { WatchesSettling B.shown network.old outs.old.items outs.new.items seen.old.items seen.new.items
        result network.new }
    ensures ready { IsReady B.shown network.new }
    ensures in_time { IfOk result (λ answer. EndsInTime (state_of B.shown network.old) answer
        (state_of B.shown network.new)) }
    ensures tells { IfOk result (λ answer. LeftTells (state_of B.shown network.old) answer
        (state_of B.shown network.new)) }
{
    let mut watch = Watch::on(alloc);
    let settled = settle_noting(alloc, network, outs, &mut watch)?;
    watch.move_behind(seen)?;
    Ok(settled)
}
