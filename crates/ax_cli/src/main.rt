//! The program `axrun`: its words, standard input and output, and the status that it ends with.
#![tactic(auto)]

mod shown;
mod status;
mod stores;

use ax_io::{StdSink, StdSource};
use ax_types::{NoMemory, Status};
use run_top::run_top;
use shown::{is_any, is_change, is_grant};
use status::{exit_number, status_line};
use std::process::ExitCode;
use std::rt::Env;
use std::{env, io};
use stores::empty_stores;
use watch_hooks::Filters;

/// The words behind the program's name. Words that are no UTF-8 are a faulty command line.
fn words_of<R: Env + AllocGlobal>(rt: &R) -> Result<Vec<String>, Status> {
    let mut args = match env::args(rt) {
        Ok(args) => args,
        Err(error) if error.kind() == io::ErrorKind::OutOfMemory => return Err(Status::NoMemory),
        Err(_) => return Err(Status::Usage),
    };
    let _name = args.next();
    args.collect(rt.alloc()).map_err(|_| Status::NoMemory)
}

/// Runs the words over standard input and output, with stores in memory.
fn run_words<R: Input + Print + AllocGlobal>(rt: &R, words: &[String]) -> Result<Status, NoMemory> {
    let alloc = rt.alloc();
    let mut stores = empty_stores(alloc)?;
    let filters = Filters::new(
        Box::new(alloc, is_any)?,
        Box::new(alloc, is_change)?,
        Box::new(alloc, is_grant)?,
    );
    let mut input = StdSource::new(rt.reader());
    let mut output = StdSink::new(io::writer(rt));
    Ok(run_top(alloc, words, &mut input, &mut output, &mut stores, &filters))
}

/// Runs the program's words.
fn run<R: Env + Input + Print + AllocGlobal>(rt: &R) -> Status {
    match words_of(rt) {
        Ok(words) => run_words(rt, words.as_slice()).unwrap_or(Status::NoMemory),
        Err(status) => status,
    }
}

fn main(rt: HostRuntime) -> ExitCode {
    let status = run(&rt);
    if status != Status::Done {
        if let Ok(line) = status_line(rt.alloc(), &status) {
            let _ = eprintln!(rt; "{line}");
        }
    }
    ExitCode::from(exit_number(&status))
}
