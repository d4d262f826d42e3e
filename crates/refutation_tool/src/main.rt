//! The program: it reads the text of a refutation, and judges whether it shows that its book has no
//! legal order.
#![tactic(auto)]

mod judge;

use byte_streams::{StdSink, StdSource, run_program};
use judge::Judge;
use std::process::ExitCode;

fn run<R: Input + Print + AllocGlobal>(rt: &R) -> u8 {
    let mut source = StdSource::new(rt);
    let mut sink = StdSink::new(rt);
    run_program(&Judge, rt.alloc(), &mut source, &mut sink).code()
}

fn main(rt: HostRuntime) -> ExitCode {
    ExitCode::from(run(&rt))
}
