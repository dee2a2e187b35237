//! The cases: scripts, the words of the program, what is written for them, and how the run ends. They are data, so a
//! new one is proved by nothing, and costs the gate no more than its run.
//!
//! They stand in the files `NAME.cases` of the folder `data`, in which this program runs. It plays all of them by
//! `spb_run::run`, on boxes as `spbsim` has them, and says how many cases each file has. Where one differs, it says so
//! on standard error, and ends with status 1. What the lines of a file say stands in `line.rt`.
#![tactic(auto)]

use reader::Reader;
use std::fs;
use std::process::ExitCode;
use std::rt::{Files, HostRuntime};
use trouble::Trouble;

mod case;
mod compare;
mod escape;
mod line;
mod play;
mod reader;
mod trouble;

/// The names of the files of cases in this folder, in order. There is one at least.
fn files<R: Files + AllocGlobal + Clone + Drop>(rt: &R) -> Result<Vec<String>, Trouble> {
    let mut names = Vec::new(rt.alloc());
    for entry in fs::read_dir(rt, ".")? {
        let entry = entry?;
        if entry.file_name().ends_with(".cases") {
            names.push(String::from_str(rt.alloc(), entry.file_name())?)?;
        }
    }
    if names.is_empty() {
        return Err(Trouble::NoCases);
    }
    names.sort()?;
    Ok(names)
}

/// Plays the cases of a file, says how many there are, and what differs, and answers whether nothing does.
fn play_file(
    rt: &(impl Files + AllocGlobal + Print + Eprint),
    name: &str,
) -> Result<bool, Trouble> {
    let text = fs::read_to_string(rt, name)?;
    let mut reader = Reader::new(rt.alloc(), name)?;
    reader.read(rt, text.as_str())?;
    println!(rt; "{name}: {}", reader.count())?;
    eprint!(rt; "{}", reader.told())?;
    Ok(reader.told().is_empty())
}

/// The same for each file.
fn play_all(rt: &HostRuntime) -> Result<bool, Trouble> {
    let names = files(rt)?;
    let mut well = true;
    for name in names.iter() {
        well = play_file(rt, name.as_str())? && well;
    }
    Ok(well)
}

fn main(rt: HostRuntime) -> ExitCode {
    match play_all(&rt) {
        Ok(true) => ExitCode::SUCCESS,
        Ok(false) => ExitCode::FAILURE,
        Err(trouble) => {
            let _ = eprintln!(rt; "cases: {trouble}");
            ExitCode::FAILURE
        }
    }
}
