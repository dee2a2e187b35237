//! The packets of frames that are delivered, many of which are written together.
ghost use Rattle.std.specs.Prelude.{◌≡◌, ◌≢◌, ◌≤◌, ◌++◌, Err, IfOk, IsErrOf, IsTrue, OnOk, OnErr};
ghost use Rattle.std.specs.Io.KnownBytes.{Appends};
ghost use Rattle.std.specs.List.{AllByRecursion};
ghost use Rattle.network_model.specs.Brief.{IsBrief};
ghost use Rattle.spb_network.specs.Applying.{IsReady};
ghost use Rattle.spb_network.specs.Network.{state_of};
ghost use Rattle.spb_outside.specs.Faults.{Rose};
ghost use Rattle.script_run.specs.Output.{AppendsFront};
ghost use Rattle.script_run.specs.Play.{judged, packet_of, packets_of};
ghost use Rattle.script_run.specs.Puts.{Puts};
ghost use Rattle.script_run.specs.Replying.{IsAlive};

use crate::Refusal;
use crate::held::make_room;
use crate::output::write_all;
use crate::play::watch_line;
use crate::voice::Voice;
use bridge_api::Bridge;
use frame_capture::put_frame;
use spb_network::{Delivered, NetworkOf};
use spb_outside::{Sink, WriteError};
use std::alloc::Global;

/// Puts the packet of a delivery.
fn put_packet<K: Sink>(sink: &mut K, held: &mut Vec<u8>, item: &Delivered) -> Result<(), WriteError>
    requires { IsBrief item.now }
    ensures all { OnOk result (Puts (K.holds sink.old) (K.holds sink.new)
        held.old.items held.new.items (packet_of item.now)) }
    ensures front { OnErr result (AppendsFront (K.holds sink.old) (K.holds sink.new)
        (held.old.items ++ packet_of item.now)) }
    ensures count { K.faults sink.old ≤ K.faults sink.new }
    ensures failed { IsErrOf result WriteError.Failed → Rose (K.faults sink.old) (K.faults sink.new) }
    ensures reliable { IsTrue (K.is_reliable sink.old) →
        (result ≢ Err WriteError.Failed) × IsTrue (K.is_reliable sink.new) }
{
    make_room(sink, held)?;
    put_frame(held, item.tick, item.frame.as_slice())?;
    Ok(())
}

/// Puts the packets of some deliveries.
fn put_packets<K: Sink>(
    sink: &mut K,
    held: &mut Vec<u8>,
    seen: &[Delivered],
) -> Result<(), WriteError>
    requires { AllByRecursion IsBrief seen.now }
    ensures all { OnOk result (Puts (K.holds sink.old) (K.holds sink.new)
        held.old.items held.new.items (packets_of seen.now)) }
    ensures front { OnErr result (AppendsFront (K.holds sink.old) (K.holds sink.new)
        (held.old.items ++ packets_of seen.now)) }
    ensures count { K.faults sink.old ≤ K.faults sink.new }
    ensures failed { IsErrOf result WriteError.Failed → Rose (K.faults sink.old) (K.faults sink.new) }
    ensures reliable { IsTrue (K.is_reliable sink.old) →
        (result ≢ Err WriteError.Failed) × IsTrue (K.is_reliable sink.new) }
{
    for item in seen {
        put_packet(sink, held, item)?;
    }
    Ok(())
}

/// Writes the packets of some deliveries.
fn write_packets<K: Sink>(alloc: Global, seen: &[Delivered], sink: &mut K) -> Result<(), WriteError>
    requires { AllByRecursion IsBrief seen.now }
    ensures all { OnOk result (Appends (K.holds sink.old) (K.holds sink.new) (packets_of seen.now)) }
    ensures front { OnErr result (AppendsFront (K.holds sink.old) (K.holds sink.new) (packets_of seen.now)) }
    ensures count { K.faults sink.old ≤ K.faults sink.new }
    ensures failed { IsErrOf result WriteError.Failed → Rose (K.faults sink.old) (K.faults sink.new) }
    ensures reliable { IsTrue (K.is_reliable sink.old) →
        (result ≢ Err WriteError.Failed) × IsTrue (K.is_reliable sink.new) }
{
    let mut held = Vec::new(alloc);
    put_packets(sink, &mut held, seen)?;
    write_all(sink, &held)?;
    Ok(())
}

/// Plays a line and writes the packets of what it delivers.
pub(crate) fn capture_line<B: Bridge, K: Sink>(
    alloc: Global,
    network: &mut NetworkOf<B>,
    number: u32,
    line: &[u8],
    sink: &mut K,
) -> Result<Option<Refusal>, WriteError>
    requires { IsAlive B.shown network.old }
    ensures text { OnOk result (Appends (K.holds sink.old) (K.holds sink.new)
        ((judged (state_of B.shown network.old) number line.now).says Voice.Packets)) }
    ensures refused { IfOk result (λ refused.
        refused ≡ (judged (state_of B.shown network.old) number line.now).refused) }
    ensures state { OnOk result (state_of B.shown network.new
        ≡ (judged (state_of B.shown network.old) number line.now).state) }
    ensures alive { OnOk result (IsAlive B.shown network.new) }
    ensures ready { IsReady B.shown network.new }
    ensures front { OnErr result (AppendsFront (K.holds sink.old) (K.holds sink.new)
        ((judged (state_of B.shown network.old) number line.now).says Voice.Packets)) }
    ensures count { K.faults sink.old ≤ K.faults sink.new }
    ensures failed { IsErrOf result WriteError.Failed → Rose (K.faults sink.old) (K.faults sink.new) }
    ensures reliable { IsTrue (K.is_reliable sink.old) →
        (result ≢ Err WriteError.Failed) × IsTrue (K.is_reliable sink.new) }
{
    let mut seen = Vec::new(alloc);
    let refused = watch_line(alloc, network, number, line, &mut seen)?;
    write_packets(alloc, &seen, sink)?;
    Ok(refused)
}
