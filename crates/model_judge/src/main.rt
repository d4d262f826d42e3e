//! The program: it reads the text of a model, which has a book and the steps that were told, and
//! judges the book by these steps.
#![tactic(auto)]

mod judging;
mod output;

use byte_streams::{StdSink, StdSource};
use output::run_judge;
use std::process::ExitCode;

fn run<R: Input + Print + AllocGlobal>(rt: &R) -> u8 {
    let mut source = StdSource::new(rt);
    let mut sink = StdSink::new(rt);
    run_judge(rt.alloc(), &mut source, &mut sink)
}

fn main(rt: HostRuntime) -> ExitCode {
    ExitCode::from(run(&rt))
}
