//! `spbsim run` plays a script of a shortest path backbone from standard input, and writes the answers to standard
//! output. `spbsim make N` writes such a script for N bridges, 4 to 96, to standard output, and `spbsim try N` plays it
//! and counts what is answered. Behind `run` and `try N`, `--kind plain`, `--kind swift` or `--kind mixed` tells which
//! boxes the bridges take. `spbsim capture` plays the script from standard input and writes the frames that are delivered
//! to standard output, as a capture, and `spbsim list` lists the packets of a capture from standard input. The exit
//! status is the number of the status with which `run` of `spb_run` ends, 0 to 6.
//!
//! All of it is done by `spb_run::run`, over the standard streams: here stand the words, and the rack of boxes that
//! bridges are taken from.
#![tactic(auto)]

use bridge_api::Bridge;
use plain_bridge::{PlainBridge, SharedReading};
use spb_network::NetworkOf;
use spb_outside::{Sink, Source, StdSink, StdSource};
use spb_run::{Status, run};
use spb_types::NoMemory;
use std::alloc::Global;
use std::env;
use std::io::ErrorKind;
use std::process::ExitCode;
use std::rt::{Env, HostRuntime};
use swift_bridge::SwiftBridge;
use usage::usage_line;

#[cfg(test)]
mod tests;
mod usage;

/// How many blank boxes of each kind the rack has.
const BOXES: usize = 256;

/// The program's words, without its name. A word that isn't text is none of the program's, so there is no form for it.
fn words(rt: &(impl Env + AllocGlobal)) -> Result<Vec<String>, Status> {
    match env::args(rt) {
        Ok(all) => all
            .skip(1)
            .collect(rt.alloc())
            .map_err(|_| Status::NoMemory),
        Err(error) if error.kind() == ErrorKind::OutOfMemory => Err(Status::NoMemory),
        Err(_) => Err(Status::Usage),
    }
}

/// Makes a rack of blank boxes, and runs the program with these words on the network of it.
fn play<S: Source, K: Sink>(
    alloc: Global,
    words: &[String],
    source: &mut S,
    sink: &mut K,
) -> Result<Status, NoMemory> {
    let mut rack: Vec<Box<dyn Bridge>> = Vec::new(alloc);
    let shared = SharedReading::new(alloc)?;
    for _ in 0..BOXES {
        rack.push(Box::new(alloc, PlainBridge::sharing(alloc, shared.share()?))?)?;
        rack.push(Box::new(alloc, SwiftBridge::sharing(alloc, shared.share()?))?)?;
    }
    Ok(play_on(alloc, words, rack, source, sink))
}

/// Runs the program with these words on the network of a rack.
fn play_on<B: Bridge, S: Source, K: Sink>(
    alloc: Global,
    words: &[String],
    rack: Vec<B>,
    source: &mut S,
    sink: &mut K,
) -> Status {
    let mut network = NetworkOf::new(alloc, rack);
    run(alloc, words, &mut network, source, sink)
}

fn main(rt: HostRuntime) -> ExitCode {
    let mut source = StdSource::new(rt.stdin());
    let mut sink = StdSink::new(rt.stdout());
    let status = match words(&rt) {
        Ok(words) => {
            play(rt.alloc(), &words, &mut source, &mut sink).unwrap_or(Status::NoMemory)
        }
        Err(status) => status,
    };
    // This line takes no memory; that of the usage does, and isn't written where none is found.
    if let Some(text) = status.message() {
        let _ = eprintln!(rt; "{text}");
    }
    if status == Status::Usage {
        if let Ok(line) = usage_line(rt.alloc()) {
            let _ = eprintln!(rt; "{line}");
        }
    }
    ExitCode::from(status.number())
}
