//! The program: it does the job of its words and ends with the number of the job's status. What went wrong outside of it
//! is said on standard error: by the store and the sink for files and the standard output, and here for memory.
#![tactic(auto)]

use hc_outside::{FileStore, StdSink, Store};
use hc_run::{SOURCE_LIMIT, Status, hcc, weigh_source};
use std::alloc::Global;
use std::process::ExitCode;
use std::rt::{Env, Files};
use std::{env, io};

fn main(rt: HostRuntime) -> ExitCode {
    let status = run(&rt);
    match status {
        Status::NoMemory => {
            let _ = eprintln!(rt; "hcc: there wasn't enough memory");
        }
        Status::Refused(_) => tell_weight(&rt),
        _ => {}
    }
    ExitCode::from(status.number())
}

/// Does the job of the words. Where they can't be read as texts, there is none.
fn run<R: Files + Env + Print + Eprint + Alloc<A = Global>>(rt: &R) -> Status {
    let mut store = FileStore::new(rt);
    let mut out = StdSink::new(rt);
    match words(rt) {
        Ok(words) => hcc(rt.alloc(), words.as_slice(), &mut store, &mut out),
        Err(error) if error.kind() == io::ErrorKind::OutOfMemory => Status::NoMemory,
        Err(_) => hcc(rt.alloc(), &[], &mut store, &mut out),
    }
}

/// Says what the refused source weighs, where the variable HCC_WEIGHT is set: an explanation of L8 asks so.
fn tell_weight<R: Files + Env + Eprint + Alloc<A = Global>>(rt: &R) {
    if env::var(rt, "HCC_WEIGHT").is_err() {
        return;
    }
    if let Some(weight) = weighed(rt) {
        let _ = eprintln!(rt; "hcc: the source weighs {}", weight);
    }
}

/// What the source of the words weighs, if it can be read and has a core.
fn weighed<R: Files + Env + Eprint + Alloc<A = Global>>(rt: &R) -> Option<u64> {
    let words = words(rt).ok()?;
    let file = words.as_slice().get(1)?;
    let mut text = Vec::new(rt.alloc());
    let mut store = FileStore::new(rt);
    store
        .load(rt.alloc(), file.as_str(), SOURCE_LIMIT, &mut text)
        .ok()?;
    weigh_source(rt.alloc(), text.as_slice()).ok()
}

/// The words after the program's name.
fn words<R: Env + Alloc<A = Global>>(rt: &R) -> io::Result<Vec<String>> {
    let mut words = env::args(rt)?;
    let _name = words.next();
    Ok(words.collect(rt.alloc())?)
}
