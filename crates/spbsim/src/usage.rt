//! The usage line.
use clap::{Arg, Command};
use std::alloc::{AllocError, Global};

/// The first line of the program's usage, as `clap` renders it. Nothing here compares words: `spb_run` does.
pub(crate) fn usage_line(alloc: Global) -> Result<String, AllocError> {
    let kind = Arg::new(alloc, "kind").long("kind").value_name("K");
    let made = Arg::new(alloc, "N").required(true);
    let tried = Arg::new(alloc, "N").required(true);
    let tried_kind = Arg::new(alloc, "kind").long("kind").value_name("K");
    let mut program = Command::new(alloc, "spbsim")
        .subcommand(Command::new(alloc, "run").arg(kind)?)?
        .subcommand(Command::new(alloc, "make").arg(made)?)?
        .subcommand(Command::new(alloc, "try").arg(tried)?.arg(tried_kind)?)?
        .subcommand(Command::new(alloc, "capture"))?
        .subcommand(Command::new(alloc, "list"))?
        .subcommand_required(true)
        .subcommand_value_name("run [--kind K] | make N | try N [--kind K] | capture | list");
    let usage = program.render_usage()?;
    let first = usage.as_str().lines().next().unwrap_or("");
    String::from_str(alloc, first)
}
