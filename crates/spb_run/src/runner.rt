//! The one call that the program makes.
ghost use Rattle.std.specs.Prelude.{◌≡◌, ◌≢◌, ◌≤◌, ◌↔◌, List, ℕ, length, map, string_bytes, None, Some, IsTrue};
ghost use Rattle.std.specs.Io.KnownBytes.{Consumes};
ghost use Rattle.spb_network.specs.Applying.{IsReady};
ghost use Rattle.spb_network.specs.Network.{state_of};
ghost use Rattle.spb_outside.specs.Faults.{Rose};
ghost use Rattle.script_run.specs.Capturing.{Captures};
ghost use Rattle.script_run.specs.Replying.{IsAlive, IsNew};
ghost use Rattle.capture_list.specs.Lists.{Lists};
ghost use Rattle.made_runs.specs.Making.{Makes};
ghost use Rattle.script_run.specs.Running.{Runs};
ghost use Rattle.script_run.specs.States.{ruled};
ghost use Rattle.made_runs.specs.Trying.{Tries};
ghost use Rattle.script_run.specs.Run as ends;
ghost use Rattle.spb_run.specs.Words as spelled;

use crate::words::form_of;
use crate::{Form, Status};
use bridge_api::Bridge;
use capture_list::list_capture;
use made_runs::{make_script, try_script};
use script_run::{capture_script, run_script};
use spb_network::{KindRule, NetworkOf};
use spb_outside::{Sink, Source};
use std::alloc::Global;

/// Runs the program with these words, which don't have its own name among them.
///
/// For the words `run` it plays the script that the source gives, on a network that was just made, and writes the
/// answers to the sink. With `--kind plain`, `--kind swift` or `--kind mixed` behind it the bridges take boxes of that
/// kind, or plain and swift ones in turn; without, all are plain. The script is read in pieces of at most 8,192 bytes.
/// The answers to each line are written before the next is played, and the whole lines of a piece before the next is
/// read, unless the run ends at one of them: however the run ends, all whole lines that were read are accepted and answered, but for those that end
/// in the last 8,192 bytes. So a script is never in memory whole, and whoever writes it sees the answers to what was
/// read.
///
/// For the words `make N` it writes the script that is made for N bridges, 4 to 96, to the sink, each line before the
/// next is spelled, and reads and plays nothing. All its commands are in memory then.
///
/// For the words `try N` it plays the script that is made for N bridges, 4 to 96, on a network that was just made, reads
/// nothing, and writes one line: what was counted of the answers, or the `error` line of the first command that is
/// refused. A kind may be told behind it as behind `run`.
///
/// For the word `list` it reads a capture from the source, of at most 67,108,864 bytes, plays nothing, and writes a line
/// for each of its packets, and the `error` line of the first that isn't whole. The file is in memory then, and nothing
/// is written before it was read.
///
/// For the word `capture` it plays the script that the source gives as for `run`, where all bridges take plain boxes, and
/// writes no answers but a capture of the frames that are delivered: its header before anything is read, and the packets
/// of each line before the next is played.
///
/// All other words are `Usage`.
pub fn run<B: Bridge, S: Source, K: Sink>(
    alloc: Global,
    words: &[String],
    network: &mut NetworkOf<B>,
    source: &mut S,
    sink: &mut K,
) -> Status
    requires { IsNew B.shown network.old }

    // Usage comes exactly for words that are no form, and then nothing is read, played or written.
    ensures usage { (result ≡ Status.Usage) ↔ (spelled.form_of (map string_bytes words.now) ≡ None) }
    ensures idle { result ≡ Status.Usage → source.new ≡ source.old }
    ensures unplayed { result ≡ Status.Usage → network.new ≡ network.old }
    ensures silent { IsTrue (ends.is_silent result) → sink.new ≡ sink.old }

    // Of each form its own record of promises.
    ensures runs { (rule : _) → spelled.form_of (map string_bytes words.now) ≡ Some (Form.Run rule) →
        Runs S.left S.is_reliable K.holds K.is_reliable result
        (ruled rule (state_of B.shown network.old)) (state_of B.shown network.new)
        source.old source.new sink.old sink.new }
    ensures makes { (bridges : ℕ) → spelled.form_of (map string_bytes words.now) ≡ Some (Form.Make bridges) →
        Makes K.holds K.is_reliable bridges
        result network.old network.new source.old source.new sink.old sink.new }
    ensures tries { (bridges : ℕ) (rule : _) →
        spelled.form_of (map string_bytes words.now) ≡ Some (Form.Try bridges rule) →
        Tries K.holds K.is_reliable bridges result
        (ruled rule (state_of B.shown network.old)) (state_of B.shown network.new)
        source.old source.new sink.old sink.new }
    ensures lists { spelled.form_of (map string_bytes words.now) ≡ Some Form.Listing →
        Lists S.left S.is_reliable K.holds K.is_reliable result source.old source.new sink.old sink.new
        × (network.new ≡ network.old) }
    ensures captures { spelled.form_of (map string_bytes words.now) ≡ Some Form.Capture →
        Captures S.left S.is_reliable K.holds K.is_reliable result
        (ruled KindRule.Plain (state_of B.shown network.old)) (state_of B.shown network.new)
        source.old source.new sink.old sink.new }

    // After every run the network is sound, or it has halted, which it hasn't after Done and Refused.
    ensures ready { IsReady B.shown network.new }
    ensures alive { IsTrue (ends.is_ended result) → IsAlive B.shown network.new }

    // A fault comes only where the source or the sink failed in this call.
    ensures read_fault { result ≡ Status.ReadFault → Rose (S.faults source.old) (S.faults source.new) }
    ensures write_fault { result ≡ Status.WriteFault → Rose (K.faults sink.old) (K.faults sink.new) }
    ensures reliable_source { IsTrue (S.is_reliable source.old) → result ≢ Status.ReadFault }
    ensures reliable_sink { IsTrue (K.is_reliable sink.old) → result ≢ Status.WriteFault }

    // Nothing is read for other words than `run`, `capture` and `list`, and for these at most one byte more than a script
    // may have, or a capture.
    ensures few { (read : List ℕ) × Consumes (S.left source.old) (S.left source.new) read
        × (length read ≤ spelled.most_read (spelled.form_of (map string_bytes words.now))) }
{
    match form_of(words) {
        Some(Form::Run(rule)) => {
            network.set_rule(rule);
            run_script(alloc, network, source, sink)
        }
        Some(Form::Make(bridges)) => make_script(alloc, bridges, sink),
        Some(Form::Try(bridges, rule)) => {
            network.set_rule(rule);
            try_script(alloc, bridges, network, sink)
        }
        Some(Form::Listing) => list_capture(alloc, source, sink),
        Some(Form::Capture) => {
            network.set_rule(KindRule::Plain);
            capture_script(alloc, network, source, sink)
        }
        None => Status::Usage,
    }
}
