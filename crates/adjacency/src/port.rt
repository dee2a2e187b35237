//! The adjacency at one port: what a hello, a second and a change of carrier make of it, and what the own hello says.
ghost use Rattle.std.specs.Prelude.{◌≡◌, ℕ, ◌≤◌, ◌&&◌, true, if◌then◌else◌};
ghost use Rattle.isis_pdu.specs.Pdu.{hello_of};
ghost use Rattle.adjacency.specs.Hearing as hearing;
ghost use Rattle.adjacency.specs.Hearing.{same_end};
ghost use Rattle.spb_types.specs.declared.address.SystemId.{SystemId};
ghost use Rattle.adjacency.specs.declared.state.AdjacencyChange.TheVariants as did;
ghost use Rattle.adjacency.specs.Adjacency.{IsSound, down, after_hello, after_hello_heard, after_second, after_carrier, state_towards, is_new_up, change_of, change_by_hello, is_up, is_refreshed, neighbour_of, said};

use crate::state::{AdjState, AdjacencyChange};
use isis_pdu::Hello;
use spb_tlvs::ThreeWay;
use spb_types::{LEVEL_1, Mac, SystemId};

/// The three-way adjacency at a port (RFC 5303).
///
/// `neighbour`, `circuit` and `hold` are 0 where the state is Down. Otherwise `hold` is at least 1, and there is
/// carrier. Each call has this as its condition and keeps it.
#[derive(Clone, Copy, Debug, PartialEq, Eq)]
pub struct Adjacency {
    /// Whether the port has carrier.
    pub carrier: bool,
    /// The state of the adjacency.
    pub state: AdjState,
    /// The neighbour's system id.
    pub neighbour: SystemId,
    /// The neighbour's extended local circuit id.
    pub circuit: u32,
    /// How many seconds the neighbour is still kept without a further hello.
    pub hold: u16,
}

const NO_SYSTEM: SystemId = SystemId {
    mac: Mac { bytes: [0; 6] },
};

impl Adjacency {
    /// The adjacency of a port at which no neighbour is kept.
    pub fn down(carrier: bool) -> Self
        ensures new { result ≡ down carrier }
        ensures sound { IsSound result }
    {
        Adjacency {
            carrier,
            state: AdjState::Down,
            neighbour: NO_SYSTEM,
            circuit: 0,
            hold: 0,
        }
    }

    /// Hears a hello at port number `port` of the system `me`; `way` is its three-way adjacency (RFC 5303, 3.2).
    /// `Discarded` exactly where its circuit type lacks level 1, its source is `me`, or it names another system or
    /// circuit as its neighbour. Holding time 0 makes the state Down.
    ///
    /// The port has carrier, and the state in `way` is at most 2.
    pub fn hear(&mut self, me: SystemId, port: u8, hello: &Hello, way: &ThreeWay) -> AdjacencyChange
        requires carrier { self.old.carrier ≡ true }
        requires state { way.now.state ≤ 2 }
        requires sound { IsSound self.old }
        ensures new { self.new ≡ after_hello me port (hello_of hello.now) way.now self.old }
        ensures heard { result ≡ change_by_hello me port (hello_of hello.now) way.now self.old }
        ensures still_sound { IsSound self.new }
    {
        if is_discarded(me, port, hello, way) {
            return AdjacencyChange::Discarded;
        }
        let before = *self;
        *self = before.after(hello, way);
        before.change_to(self)
    }

    /// Begins the holding count anew where the state is Up and the hello comes from the neighbour that is kept, and tells
    /// whether it does. Otherwise nothing changes.
    ///
    /// It's [`hear`](Self::hear) for the hello that comes each second, of which [`keeps_up`] was asked once.
    pub fn refresh(&mut self, hello: &Hello, way: &ThreeWay) -> bool
        requires holding { 1 ≤ hello.now.holding }
        requires sound { IsSound self.old }
        ensures exact { (me : SystemId) (port : ℕ) → hearing.keeps_up me port (hello_of hello.now) way.now ≡ true
            → result ≡ is_refreshed me port (hello_of hello.now) way.now self.old }
        ensures new { self.new ≡ (if result then record self.old { hold = hello.now.holding } else self.old) }
        ensures heard { result ≡ true → (me : SystemId) (port : ℕ)
            → hearing.keeps_up me port (hello_of hello.now) way.now ≡ true
            → self.new ≡ after_hello me port (hello_of hello.now) way.now self.old }
        ensures kept { result ≡ true → (me : SystemId) (port : ℕ)
            → hearing.keeps_up me port (hello_of hello.now) way.now ≡ true
            → change_by_hello me port (hello_of hello.now) way.now self.old ≡ did.Kept }
        ensures sound { IsSound self.new }
    {
        if !self.is_up_with(hello.source, way.circuit) {
            return false;
        }
        self.hold = hello.holding;
        true
    }

    /// Whether the state is Up with this neighbour and circuit.
    fn is_up_with(&self, system: SystemId, circuit: u32) -> bool
        ensures { result ≡ (is_up self.now.state && same_end (self.now.neighbour, self.now.circuit) (system, circuit)) }
    {
        self.state == AdjState::Up && self.is_kept(system, circuit)
    }

    fn is_kept(&self, system: SystemId, circuit: u32) -> bool
        ensures { result ≡ same_end (self.now.neighbour, self.now.circuit) (system, circuit) }
    {
        self.neighbour.is(system) && self.circuit == circuit
    }

    /// The adjacency after a hello that isn't discarded.
    fn after(&self, hello: &Hello, way: &ThreeWay) -> Self
        requires { way.now.state ≤ 2 }
        ensures new { result ≡ after_hello_heard (hello_of hello.now) way.now self.now }
        ensures sound { IsSound result }
    {
        if hello.holding == 0 {
            return Adjacency::down(true);
        }
        let state = self
            .state_towards(hello.source, way.circuit)
            .after(AdjState::numbered(way.state));
        if state == AdjState::Down {
            return Adjacency::down(true);
        }
        Adjacency {
            carrier: true,
            state,
            neighbour: hello.source,
            circuit: way.circuit,
            hold: hello.holding,
        }
    }

    /// The state to which a hello from this system and circuit comes: another neighbour or circuit than the kept one
    /// makes it Down first.
    fn state_towards(&self, system: SystemId, circuit: u32) -> AdjState
        ensures { result ≡ state_towards (system, circuit) self.now }
    {
        if self.is_kept(system, circuit) {
            self.state
        } else {
            AdjState::Down
        }
    }

    /// Counts a second of the holding count down. At 0 the state becomes Down.
    #[tactic(auto, using(crate::proofs::Counted::counted))]
    pub fn tick(&mut self) -> AdjacencyChange
        requires { IsSound self.old }
        ensures new { self.new ≡ after_second self.old }
        ensures heard { result ≡ change_of self.old self.new }
        ensures sound { IsSound self.new }
    {
        if self.state == AdjState::Down {
            return AdjacencyChange::Kept;
        }
        if self.hold > 1 {
            self.hold -= 1;
            return AdjacencyChange::Kept;
        }
        let before = *self;
        *self = Adjacency::down(self.carrier);
        before.change_to(self)
    }

    /// Carrier came or went. Without it the state is Down.
    pub fn set_carrier(&mut self, on: bool) -> AdjacencyChange
        requires { IsSound self.old }
        ensures new { self.new ≡ after_carrier on self.old }
        ensures heard { result ≡ change_of self.old self.new }
        ensures sound { IsSound self.new }
    {
        let before = *self;
        if on {
            self.carrier = true;
        } else {
            *self = Adjacency::down(false);
        }
        before.change_to(self)
    }

    /// What the own hello says at port number `port`: the state, the port as the extended local circuit id, and the
    /// neighbour that is kept (RFC 5303, 3).
    pub fn three_way(&self, port: u8) -> ThreeWay
        ensures { result ≡ said port self.now }
    {
        ThreeWay {
            state: self.state.number(),
            circuit: u32::from(port),
            neighbour: self.kept_neighbour(),
        }
    }

    fn kept_neighbour(&self) -> Option<(SystemId, u32)>
        ensures { result ≡ neighbour_of self.now }
    {
        match self.state {
            AdjState::Down => None,
            AdjState::Initializing | AdjState::Up => Some((self.neighbour, self.circuit)),
        }
    }

    /// What the change from this adjacency to `new` did.
    fn change_to(&self, new: &Self) -> AdjacencyChange
        ensures { result ≡ change_of self.now new.now }
    {
        if new.is_new_up(self) {
            AdjacencyChange::CameUp
        } else if self.state == AdjState::Up && new.state != AdjState::Up {
            AdjacencyChange::LeftUp
        } else {
            AdjacencyChange::Kept
        }
    }

    /// Whether the state is Up, and `before` isn't Up with the same neighbour and circuit.
    fn is_new_up(&self, before: &Self) -> bool
        ensures { result ≡ is_new_up self.now before.now }
    {
        let same_end = self.is_kept(before.neighbour, before.circuit);
        self.state == AdjState::Up && !(before.state == AdjState::Up && same_end)
    }
}

/// Whether a hello keeps a neighbour Up that is Up already: it isn't discarded, the state that it says is Up or
/// Initializing, and its holding time isn't 0. What is asked is what the hello says alone.
pub fn keeps_up(me: SystemId, port: u8, hello: &Hello, way: &ThreeWay) -> bool
    ensures { result ≡ hearing.keeps_up me port (hello_of hello.now) way.now }
{
    way.state < 2 && hello.holding > 0 && !is_discarded(me, port, hello, way)
}

/// Whether a hello is discarded: its circuit type lacks level 1, its source is `me`, or it names another end of the
/// circuit as its neighbour.
fn is_discarded(me: SystemId, port: u8, hello: &Hello, way: &ThreeWay) -> bool
    ensures { result ≡ hearing.is_discarded me port (hello_of hello.now) way.now }
{
    !has_level_one(hello.circuit_type) || hello.source.is(me) || names_another(me, port, way)
}

fn has_level_one(circuit_type: u8) -> bool
    ensures { result ≡ hearing.has_level_one circuit_type }
{
    circuit_type == LEVEL_1 || circuit_type == 3
}

/// Whether a neighbour is named that isn't the system `me` at its port number `port`.
fn names_another(me: SystemId, port: u8, way: &ThreeWay) -> bool
    ensures { result ≡ hearing.names_another (me, port) way.now.neighbour }
{
    match way.neighbour {
        None => false,
        Some((system, circuit)) => !(system.is(me) && circuit == u32::from(port)),
    }
}
