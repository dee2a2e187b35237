//! Changes of one held LSP. None takes memory.
ghost use Rattle.std.specs.Prelude.{◌≡◌, ◌≤◌, ◌∷◌, [], ℕ, ◌||◌, length};
ghost use Rattle.spb_types.specs.Ports.{has};
ghost use Rattle.lsdb.specs.Entry as entry;
ghost use Rattle.lsdb.specs.Entry.{entry_of, CanBeHeld, IsClean, cleaned, raised, with_flags, purged, with_srm, with_ssn, with_flags_at, flags_cleared_at, aged, has_flags};
ghost use Rattle.lsdb.specs.Place.{with_entry};
ghost use Rattle.lsdb.specs.Calm.{LivesFor, lowered_by};

use crate::{Held, Version};
use spb_types::limits::MOST_PORTS;
use spb_types::{LEVEL_1, PortSet, Seq};

// Leaves the flags octet of a dead LSP alone.
fn keep_flags_octet(body: &mut Seq<u8>)
    requires { 1 ≤ length body.old }
    ensures { body.new ≡ LEVEL_1 ∷ [] }
{
    body.truncate(1);
    body.set(0, LEVEL_1);
}

/// Gives the LSP the lifetime and the body that its version is kept with.
pub fn clean(held: &mut Held)
    requires { CanBeHeld held.old.version held.old.lifetime held.old.body }
    ensures { held.new ≡ with_entry cleaned held.old }
{
    match held.version {
        Version::Absent => {
            held.lifetime = 0;
            held.body.truncate(0);
        }
        Version::Live { seq: _, sum: _ } => {}
        Version::Dead { seq: _ } => {
            held.lifetime = 0;
            keep_flags_octet(&mut held.body);
        }
    }
}

/// Gives the LSP another version, lifetime and body.
pub fn raise(held: &mut Held, to: Version, lifetime: u16, body: Vec<u8>)
    requires { CanBeHeld to lifetime body.items }
    ensures { held.new ≡ with_entry (raised to lifetime body.items) held.old }
{
    held.version = to;
    held.lifetime = lifetime;
    held.body = Seq::from_vec(body);
    clean(held);
}

/// Gives the LSP these flags.
pub fn set_flags(held: &mut Held, srm: PortSet, ssn: PortSet)
    ensures { held.new ≡ with_entry (with_flags srm ssn) held.old }
{
    held.srm = srm;
    held.ssn = ssn;
}

/// Makes the LSP dead at this number, to be sent at these ports.
pub fn purge(held: &mut Held, seq: u32, srm: PortSet)
    requires { 1 ≤ length held.old.body }
    ensures { held.new ≡ with_entry (purged seq srm) held.old }
{
    held.version = Version::Dead { seq };
    clean(held);
    set_flags(held, srm, PortSet::none());
}

fn switched(ports: PortSet, port: u8, on: bool) -> PortSet
    requires low { 1 ≤ port }
    requires high { port ≤ MOST_PORTS }
    ensures { result ≡ entry.switched on ports port }
{
    if on {
        ports.with(port)
    } else {
        ports.without(port)
    }
}

/// Puts a port into the ports at which the LSP is to be sent, or takes it out.
pub fn set_srm(held: &mut Held, port: u8, on: bool)
    requires low { 1 ≤ port }
    requires high { port ≤ MOST_PORTS }
    ensures { held.new ≡ with_entry (with_srm port on) held.old }
{
    held.srm = switched(held.srm, port, on);
}

/// Puts a port into the ports at which the LSP is to be acknowledged, or takes it out.
pub fn set_ssn(held: &mut Held, port: u8, on: bool)
    requires low { 1 ≤ port }
    requires high { port ≤ MOST_PORTS }
    ensures { held.new ≡ with_entry (with_ssn port on) held.old }
{
    held.ssn = switched(held.ssn, port, on);
}

/// Puts a port into the ports at which the LSP is to be sent, or takes it out, and the same for those at which it is to
/// be acknowledged.
pub fn set_flags_at(held: &mut Held, port: u8, srm: bool, ssn: bool)
    requires low { 1 ≤ port }
    requires high { port ≤ MOST_PORTS }
    ensures { held.new ≡ with_entry (with_flags_at port srm ssn) held.old }
{
    held.srm = switched(held.srm, port, srm);
    held.ssn = switched(held.ssn, port, ssn);
}

/// Takes a port out of the flags.
pub fn clear_flags(held: &mut Held, port: u8)
    requires low { 1 ≤ port }
    requires high { port ≤ MOST_PORTS }
    ensures { held.new ≡ with_entry (flags_cleared_at port) held.old }
{
    held.srm = held.srm.without(port);
    held.ssn = held.ssn.without(port);
}

/// Lets a second pass. Where a live LSP's lifetime ends it is dead, and to be sent at every Up port.
pub fn age(held: &mut Held, up: PortSet)
    requires { IsClean (entry_of held.old) }
    ensures { held.new ≡ with_entry (aged up) held.old }
{
    if let Version::Live { seq, sum: _ } = held.version {
        if held.lifetime <= 1 {
            held.version = Version::Dead { seq };
            clean(held);
            held.srm = up;
        } else {
            held.lifetime -= 1;
        }
    }
}

/// Lets so many seconds pass in which the LSP doesn't die.
pub fn lower(held: &mut Held, seconds: u16)
    ensures { held.new ≡ with_entry (lowered_by seconds) held.old }
{
    held.lifetime = held.lifetime.saturating_sub(seconds);
}

/// The greatest number of seconds up to `left` for which the LSP doesn't die.
pub fn least_left(held: &Held, left: u16) -> u16
    ensures most { result ≤ left }
    ensures lives { LivesFor result (entry_of held.now) }
{
    if held.lifetime > 0 && held.lifetime <= left {
        held.lifetime - 1
    } else {
        left
    }
}

/// Whether some port is in the set.
#[tactic(auto, using(crate::proofs::Flags::below_has_ports))]
pub fn has_ports(set: PortSet) -> bool
    ensures { result ≡ entry.has_ports set }
{
    set.bits != 0
}

/// The ports of two sets.
#[tactic(auto, using(crate::proofs::Flags::has_either))]
pub fn either(a: PortSet, b: PortSet) -> PortSet
    ensures { (p : ℕ) → has result p ≡ (has a p || has b p) }
{
    PortSet {
        bits: a.bits | b.bits,
    }
}

/// Ports and the flags of an LSP: there are some exactly where there were some or it has flags.
#[tactic(auto, using(crate::proofs::Flags::flags_or))]
pub fn with_flags_of(held: &Held, ports: PortSet) -> PortSet
    ensures { entry.has_ports result ≡ (entry.has_ports ports || has_flags (entry_of held.now)) }
{
    PortSet {
        bits: ports.bits | (held.srm.bits | held.ssn.bits),
    }
}

/// Whether the LSP is to be sent, or to be acknowledged or asked for, at some port.
pub fn has_flags(held: &Held) -> bool
    ensures { result ≡ has_flags (entry_of held.now) }
{
    has_ports(held.srm) || has_ports(held.ssn)
}
