//! The hellos that a bridge sends.
ghost use Rattle.std.specs.Prelude.{◌≡◌, ◌-◌, ◌≤◌, length, slice_set, IfOk, OnOk, OnErr};
ghost use Rattle.bridge_api.specs.Step.{with_wire};
ghost use Rattle.bridge_api.specs.Ticking as api;
ghost use Rattle.bridge_control.specs.Frames.{hello_sent};
ghost use Rattle.bridge_control.specs.Machine.{kept_hello, hellos_from};

use bridge_api::{BridgePort, Outbox};
use isis_pdu::{Hello, write_hello};
use itag_frames::control_frame;
use shared_frames::Frame;
use spb_content::AREAS_AND_PROTOCOLS;
use spb_tlvs::{ThreeWay, write_three_way};
use spb_types::{LEVEL_1, NoMemory, SystemId};
use std::alloc::Global;

/// How long a neighbour is to hold this bridge, in seconds.
const HOLDING: u16 = 3;

/// Bytes that the TLVs of a hello take, at most.
const MOST_TLVS: usize = 26;

/// Puts the hello that is kept for a port into the outbox, if there is one.
pub(crate) fn send_hello(
    number: u8,
    hello: &Option<Frame>,
    outbox: &mut Outbox,
) -> Result<(), NoMemory>
    ensures ok { OnOk result (outbox.new ≡ with_wire (hello_sent number hello.now) outbox.old) }
    ensures err { OnErr result (outbox.new ≡ outbox.old) }
{
    match hello {
        None => Ok(()),
        Some(hello) => outbox.wire.push((number, hello.share()?)),
    }
}

/// The hellos that are kept for ports, in order, as control frames.
pub(crate) fn hellos_of(
    alloc: Global,
    system: SystemId,
    ports: &[BridgePort],
) -> Result<Vec<Option<Frame>>, NoMemory>
    requires { length ports.now ≤ 32 }
    ensures { IfOk result (λ hellos. hellos.items ≡ hellos_from system 1 ports.now) }
{
    let mut hellos = Vec::with_capacity(alloc, ports.len())?;
    'make: for (place, port) in ports.iter().enumerate() {
        let hello = kept_hello(alloc, system, place as u8 + 1, port)?;
        hellos.push(hello)?;
    }
    Ok(hellos)
}

/// Keeps another hello for the port of a number.
pub(crate) fn put_hello(hellos: &mut Vec<Option<Frame>>, port: u8, hello: Option<Frame>)
    requires low { 1 ≤ port }
    requires high { port ≤ length hellos.old.items }
    ensures { hellos.new.items ≡ slice_set hellos.old.items (port - 1) hello }
{
    hellos[usize::from(port) - 1] = hello;
}

/// The hello that is kept for a port. None is made where there is no carrier.
pub(crate) fn kept_hello(
    alloc: Global,
    system: SystemId,
    number: u8,
    port: &BridgePort,
) -> Result<Option<Frame>, NoMemory>
    ensures { IfOk result (λ hello. hello ≡ kept_hello system number port.now) }
{
    if !port.adjacency.carrier {
        return Ok(None);
    }
    let hello = hello_frame(alloc, system, number, port)?;
    Ok(Some(hello))
}

/// The hello of a port, as a control frame.
fn hello_frame(
    alloc: Global,
    system: SystemId,
    number: u8,
    port: &BridgePort,
) -> Result<Frame, NoMemory>
    ensures { IfOk result (λ frame. frame ≡ api.hello_frame system number port.now) }
{
    let tlvs = hello_tlvs(alloc, port.adjacency.three_way(number))?;
    let hello = Hello {
        circuit_type: LEVEL_1,
        source: system,
        holding: HOLDING,
        circuit: number,
        tlvs: tlvs.as_slice(),
    };
    let pdu = write_hello(alloc, &hello)?;
    Frame::from_vec(control_frame(alloc, system.mac, pdu.as_slice())?)
}

fn hello_tlvs(alloc: Global, way: ThreeWay) -> Result<Vec<u8>, NoMemory>
    requires { way.state ≤ 2 }
    ensures tlvs { IfOk result (λ tlvs. tlvs.items ≡ api.hello_tlvs way) }
    ensures short { IfOk result (λ tlvs. length tlvs.items ≤ 26) }
{
    let mut tlvs = Vec::with_capacity(alloc, MOST_TLVS)?;
    tlvs.extend_from_slice(&AREAS_AND_PROTOCOLS)?;
    write_three_way(&mut tlvs, &way)?;
    Ok(tlvs)
}
