//! The hello that came last to a port: where the same frame comes again, it isn't read again.
ghost use Rattle.std.specs.Prelude.{◌≡◌, ℕ, ◌≤◌, [], true, IfOk, IfSome, if◌then◌else◌};
ghost use Rattle.spb_types.specs.declared.address.SystemId.{SystemId};
ghost use Rattle.isis_pdu.specs.Pdu.{hello_of};
ghost use Rattle.adjacency.specs.Adjacency.{IsSound, after_hello, change_by_hello};
ghost use Rattle.adjacency.specs.declared.state.AdjacencyChange.TheVariants as did;
ghost use Rattle.bridge_api.specs.Parsing as api;
ghost use Rattle.bridge_control.specs.Heard.{IsSaidIn, IsJudgedAt, AreJudged, hello_saying};

use adjacency::{Adjacency, keeps_up};
use isis_pdu::Hello;
use spb_tlvs::ThreeWay;
use spb_types::{NoMemory, SystemId};
use std::alloc::Global;
use std::marker::Model;

/// What a hello says, but for its TLVs; of these the three-way adjacency.
#[derive(Clone, Copy, Debug)]
pub(crate) struct Said {
    pub(crate) circuit_type: u8,
    pub(crate) source: SystemId,
    pub(crate) holding: u16,
    pub(crate) circuit: u8,
    pub(crate) way: ThreeWay,
}

impl Said {
    /// The hello without its TLVs.
    pub(crate) fn hello(&self) -> Hello<'_>
        ensures { hello_of result ≡ hello_saying self.now [] }
    {
        Hello {
            circuit_type: self.circuit_type,
            source: self.source,
            holding: self.holding,
            circuit: self.circuit,
            tlvs: [].as_slice(),
        }
    }
}

/// What a hello says, and whether it keeps a neighbour Up at the port to which it came, which was asked once.
#[derive(Clone, Copy, Debug)]
pub(crate) struct JudgedHello {
    pub(crate) said: Said,
    pub(crate) keeps_up: bool,
}

impl JudgedHello {
    /// Begins the holding count at the port anew, if the hello does that there and nothing else, and tells whether it
    /// does. Otherwise nothing changes, and more may be to be done.
    pub(crate) fn refresh(&self, adjacency: &mut Adjacency) -> bool
        requires holding { self.now.keeps_up ≡ true → 1 ≤ self.now.said.holding }
        requires sound { IsSound adjacency.old }
        ensures new { adjacency.new ≡ (if result then record adjacency.old { hold = self.now.said.holding } else adjacency.old) }
        ensures heard { result ≡ true → (me : SystemId) (port : ℕ) → IsJudgedAt me port self.now
            → adjacency.new ≡ after_hello me port (hello_saying self.now.said []) self.now.said.way adjacency.old }
        ensures kept { result ≡ true → (me : SystemId) (port : ℕ) → IsJudgedAt me port self.now
            → change_by_hello me port (hello_saying self.now.said []) self.now.said.way adjacency.old ≡ did.Kept }
    {
        if !self.keeps_up {
            return false;
        }
        adjacency.refresh(&self.said.hello(), &self.said.way)
    }
}

/// A frame that brought a hello, and what the hello says. Contracts see what it says.
#[derive(Debug, Drop)]
pub(crate) struct HeardHello {
    frame: Vec<u8>,
    judged: JudgedHello,
}

impl Model for HeardHello {
    ghost use Rattle.bridge_control.specs.declared.heard.JudgedHello.{JudgedHello};
    ghost use Rattle.bridge_control.specs.Heard.{IsSaidIn};

    ghost Value = { JudgedHello };

    ghost view = { λ heard. heard.judged };

    ghost invariant = { λ heard. IsSaidIn heard.frame.items heard.judged.said };
}

impl HeardHello {
    /// Keeps a frame that brought this hello to a port of the system `me`.
    pub(crate) fn new(
        alloc: Global,
        frame: &[u8],
        me: SystemId,
        port: u8,
        hello: &Hello<'_>,
        way: &ThreeWay,
    ) -> Result<Self, NoMemory>
        requires state { way.now.state ≤ 2 }
        requires brings { api.parsed frame.now ≡ api.hello (hello_of hello.now) way.now }
        ensures { IfOk result (IsJudgedAt me port) }
    {
        let said = Said {
            circuit_type: hello.circuit_type,
            source: hello.source,
            holding: hello.holding,
            circuit: hello.circuit,
            way: *way,
        };
        let judged = JudgedHello {
            said,
            keeps_up: keeps_up(me, port, hello, way),
        };
        let frame = Vec::from_slice(alloc, frame)?;
        Ok(HeardHello { frame, judged })
    }

    /// What a frame says, if it is the one that is kept.
    pub(crate) fn judged_in(&self, frame: &[u8]) -> Option<&JudgedHello>
        ensures said { IfSome result (λ judged. IsSaidIn frame.now judged.now.said) }
        ensures same { IfSome result (λ judged. judged.now ≡ self.now) }
    {
        if self.frame.as_slice() == frame {
            Some(&self.judged)
        } else {
            None
        }
    }
}

/// Room for the hello that came last to each of so many ports. None has come yet.
pub(crate) fn none_heard(alloc: Global, ports: usize) -> Result<Vec<Option<HeardHello>>, NoMemory>
    ensures { IfOk result (λ heard. (me : SystemId) → AreJudged me heard.items) }
{
    let mut heard = Vec::with_capacity(alloc, ports)?;
    'make: for _ in 0..ports {
        heard.push(None)?;
    }
    Ok(heard)
}

/// What a frame says, if it brings the hello that came last to a port.
pub(crate) fn judged_at<'a>(
    heard: &'a [Option<HeardHello>],
    port: u8,
    frame: &[u8],
) -> Option<&'a JudgedHello>
    requires { 1 ≤ port }
    ensures said { IfSome result (λ judged. IsSaidIn frame.now judged.now.said) }
    ensures judged { IfSome result (λ judged. (me : SystemId) → AreJudged me heard.now → IsJudgedAt me port judged.now) }
{
    let place = usize::from(port);
    if place > heard.len() {
        return None;
    }
    match &heard[place - 1] {
        None => None,
        Some(last) => last.judged_in(frame),
    }
}

/// Keeps a hello as the one that came last to a port.
pub(crate) fn put_heard(heard: &mut Vec<Option<HeardHello>>, port: u8, hello: HeardHello)
    ensures { (me : SystemId) → IsJudgedAt me port hello → AreJudged me heard.old.items → AreJudged me heard.new.items }
{
    let place = usize::from(port);
    if place > 0 && place <= heard.len() {
        heard[place - 1] = Some(hello);
    }
}
