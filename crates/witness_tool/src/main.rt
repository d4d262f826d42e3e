//! The program: it reads a book, or the whole output of a run, and writes of it what its command
//! word asks for: a picture, a smaller book, an explanation or evidence for its verdict.
#![tactic(auto)]

mod task;

use byte_streams::{Status, StdSink, StdSource, run_program, write_text};
use std::env;
use std::io::ErrorKind;
use std::process::ExitCode;
use std::rt::Env;
use task::Task;

/// The code that the program ends with where the system doesn't hand over the command words.
const NO_WORDS: u8 = 7;

/// The output for words that name no task.
const USAGE: &[u8] = b"usage: witness_tool picture | smaller | explain | evidence\n";

// The task that the command words name, where they are the one word of a task; or, where they can't
// be had, the code that the program ends with.
fn task_asked<R: Env + AllocGlobal>(rt: &R) -> Result<Option<Task>, u8> {
    match env::args(rt) {
        Ok(mut words) => match (words.nth(1), words.next()) {
            (Some(word), None) => Ok(Task::from_word(word.as_str())),
            _ => Ok(None),
        },
        Err(fault) if fault.kind() == ErrorKind::OutOfMemory => Err(Status::NoMemory.code()),
        Err(_) => Err(NO_WORDS),
    }
}

fn run<R: Env + Input + Print + AllocGlobal>(rt: &R) -> u8 {
    let mut sink = StdSink::new(rt);
    match task_asked(rt) {
        Ok(Some(task)) => {
            let mut source = StdSource::new(rt);
            run_program(&task, rt.alloc(), &mut source, &mut sink).code()
        }
        Ok(None) => write_text(&mut sink, Status::Usage, USAGE).code(),
        Err(code) => code,
    }
}

fn main(rt: HostRuntime) -> ExitCode {
    ExitCode::from(run(&rt))
}
