//! A script that is played to its end, or up to what cuts it short.
ghost use Rattle.std.specs.Prelude.{◌≡◌, ◌≢◌, IsTrue};
ghost use Rattle.spb_network.specs.Applying.{IsReady};
ghost use Rattle.spb_network.specs.Network.{state_of};
ghost use Rattle.spb_outside.specs.Faults.{Rose};
ghost use Rattle.script_run.specs.Replying.{IsAlive, IsNew};
ghost use Rattle.script_run.specs.Running.{Runs};
ghost use Rattle.script_run.specs.Run as ends;

use crate::Status;
use crate::pieces::{Break, play_script};
use crate::voice::Voice;
use bridge_api::Bridge;
use network_rounds::networks_settle;
use spb_network::NetworkOf;
use spb_outside::{Sink, Source};
use std::alloc::Global;

/// Plays the script that the source gives, piece by piece.
pub fn run_script<B: Bridge, S: Source, K: Sink>(
    alloc: Global,
    network: &mut NetworkOf<B>,
    source: &mut S,
    sink: &mut K,
) -> Status
    requires { IsNew B.shown network.old }
    ensures other { result ≢ Status.Usage }
    ensures silent { IsTrue (ends.is_silent result) → sink.new ≡ sink.old }
    ensures runs { Runs S.left S.is_reliable K.holds K.is_reliable result
        (state_of B.shown network.old) (state_of B.shown network.new) source.old source.new sink.old sink.new }
    ensures alive { IsTrue (ends.is_ended result) → IsAlive B.shown network.new }
    ensures ready { IsReady B.shown network.new }
    ensures read_fault { result ≡ Status.ReadFault → Rose (S.faults source.old) (S.faults source.new) }
    ensures write_fault { result ≡ Status.WriteFault → Rose (K.faults sink.old) (K.faults sink.new) }
    ensures reliable_source { IsTrue (S.is_reliable source.old) → result ≢ Status.ReadFault }
    ensures reliable_sink { IsTrue (K.is_reliable sink.old) → result ≢ Status.WriteFault }
{
    networks_settle();
    match play_script(alloc, network, Voice::Answers, source, sink) {
        Ok(status) => status,
        Err(Break::Read) => Status::ReadFault,
        Err(Break::Write) => Status::WriteFault,
        Err(Break::NoMemory) => Status::NoMemory,
    }
}
