//! The program: it hands the command words, standard input and standard output to the top call.
#![tactic(auto)]

use selfcheck::{Status, StdSink, StdSource, Unwatched, selfcheck_watched};
use std::env;
use std::io::ErrorKind;
use std::process::ExitCode;
use std::rt::Env;
use std::thread::Threads;

/// The code that the program ends with where the system doesn't hand over the command words.
const NO_WORDS: u8 = 7;

// The command words without the program's name, or, where they can't be had, the code that the
// program ends with.
fn command_words<R: Env + AllocGlobal>(rt: &R) -> Result<Vec<String>, u8> {
    match env::args(rt) {
        Ok(args) => args
            .skip(1)
            .collect(rt.alloc())
            .map_err(|_| Status::NoMemory.code()),
        Err(fault) if fault.kind() == ErrorKind::OutOfMemory => Err(Status::NoMemory.code()),
        Err(_) => Err(NO_WORDS),
    }
}

fn run<R: Env + Input + Print + AllocGlobal + Threads + Sync>(rt: &R) -> u8 {
    match command_words(rt) {
        Ok(words) => {
            let mut source = StdSource::new(rt);
            let mut sink = StdSink::new(rt);
            selfcheck_watched(
                rt,
                rt.alloc(),
                &words,
                &mut source,
                &mut Unwatched,
                &mut sink,
            )
            .code()
        }
        Err(code) => code,
    }
}

fn main(rt: HostRuntime) -> ExitCode {
    ExitCode::from(run(&rt))
}
