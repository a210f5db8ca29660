//! The program: it passes the words behind its name to the top call, over the machine's files and standard output, and
//! ends with the status's number.
#![tactic(auto)]

use bz_io::{HostDesk, HostSink, Sink, put_all};
use bz_top::{Status, run};
use std::alloc::Global;
use std::process::ExitCode;
use std::rt::{Env, Files};
use std::{env, io};

fn main(rt: HostRuntime) -> ExitCode {
    ExitCode::from(program(&rt, rt.alloc()).number())
}

/// Does what the program's words ask for.
fn program<R: Alloc<A = Global> + Env + Files + Print>(rt: &R, alloc: Global) -> Status {
    let mut desk = HostDesk::new(rt);
    let mut out = HostSink::new(io::writer(rt));
    match read_words(rt, alloc) {
        Ok(words) => run(alloc, words.get(1..).unwrap_or(&[]), &mut desk, &mut out),
        Err(error) if error.kind() == io::ErrorKind::OutOfMemory => out_of_memory(&mut out),
        // Words that are no text ask for nothing.
        Err(_) => run(alloc, &[], &mut desk, &mut out),
    }
}

/// The program's name and the words behind it.
fn read_words<R: Alloc<A = Global> + Env>(rt: &R, alloc: Global) -> io::Result<Vec<String>> {
    let words = env::args(rt)?.collect(alloc)?;
    Ok(words)
}

/// Ends for want of memory before there were words.
fn out_of_memory<O: Sink>(out: &mut O) -> Status {
    match put_all(out, b"out of memory\n") {
        Ok(()) => Status::Memory,
        Err(_) => Status::Write,
    }
}
