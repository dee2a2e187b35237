//! Settling a network by its calls, as `run` makes them for a line of a script.
use super::are_equal;
use super::boxes::{blank, declare_two, name, put};
use bridge_api::Bridge;
use settle_laws::{Ready, Settled, bound, ready, settle, settle_watched};
use spb_network::{KindRule, NetworkOf};
use std::alloc::Global;
use std::process::Abort;

/// What settling answers that ends in quiet after so many rounds.
fn quiet_after(rounds: u32) -> Settled {
    Settled {
        rounds,
        left: Ready::Yes,
    }
}

/// Asserts how two bridges settle, which are declared on the network of a rack: in five rounds, which deliver twenty
/// frames, and then in none.
fn check_settling<B: Bridge>(rt: &impl Abort, alloc: Global, rack: Vec<B>) {
    let mut network = NetworkOf::new(alloc, rack);
    network.set_rule(KindRule::Plain);
    let (a, b, link) = (name(rt, b"A"), name(rt, b"B"), name(rt, b"L1"));
    declare_two(&mut network, a, b, link).expect(rt, "refused");
    let first = ready(alloc, &network).expect(rt, "out of memory");
    are_equal(rt, &first, &Ready::Yes);
    let (mut outs, mut seen) = (Vec::new(alloc), Vec::new(alloc));
    let settled = settle_watched(alloc, &mut network, &mut outs, &mut seen).expect(rt, "refused");
    are_equal(rt, &settled, &quiet_after(5));
    are_equal(rt, &seen.len(), &20);
    let settled = settle(alloc, &mut network, &mut outs).expect(rt, "refused");
    are_equal(rt, &settled, &quiet_after(0));
    are_equal(rt, &outs.len(), &0);
}

#[test]
fn two_bridges_settle_in_five_rounds(rt: HostRuntime) {
    let mut rack: Vec<Box<dyn Bridge>> = Vec::new(rt.alloc());
    put(&rt, &mut rack, blank(&rt, rt.alloc()));
    put(&rt, &mut rack, blank(&rt, rt.alloc()));
    check_settling(&rt, rt.alloc(), rack);
    are_equal(&rt, &bound(2), &24);
}
