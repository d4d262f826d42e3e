//! Pieces of work that take memory, and their outcomes where one allocation is refused. The program
//! itself refuses none: whoever runs it says which one the system is to refuse.
//!
//! Each line of standard input names a work, how many allocations are used up before it, and `do`
//! or `leave`, which only prepares it. After the work allocations are used up until one is refused,
//! or 4,000 were had. One line is printed for each line of input:
//!
//! | Line | Meaning |
//! |---|---|
//! | `WORK: CAME` | no allocation after the work was refused |
//! | `WORK: CAME, and N behind it` | the work had all memory that it wanted, and N more allocations were had before one was refused |
//! | `WORK: refused before` | an allocation before the work was refused |
//!
//! CAME is the ordinary answer, want of memory with nothing written, a call without a judgement,
//! which leaves its record, or that the work wasn't done. Any other outcome is `WRONG`, and the
//! status is then 1.
#![tactic(auto)]

mod came;
mod command;
mod enforced;
mod great_book;
mod memory;
mod ran;
mod work;

use anyhow::{Context, Result};
use came::Came;
use memory::{use_up, use_up_all};
use std::process::ExitCode;
use std::thread::Threads;
use work::MemoryWork;

// Prepares the work that a line names, does it where the line says so, and answers whether its
// outcome isn't wrong. Where an allocation before the work is refused, the work isn't done, and the
// answer is true.
fn try_line<R: Print + AllocGlobal + Threads + Sync>(rt: &R, line: &str) -> Result<bool> {
    let (name, rest) = line.split_once(' ').context("a number")?;
    let (before, deed) = rest.split_once(' ').context("a deed")?;
    let before = before.parse::<u64>().context("a number")?;
    let mut work = MemoryWork::prepare(rt.alloc(), name)?;
    if !use_up(rt.alloc(), before) {
        println!(rt; "{name}: refused before")?;
        return Ok(true);
    }
    if deed == "do" {
        work.act(rt);
    }
    let more = use_up_all(rt.alloc());
    let came = work.came(rt.alloc());
    match more {
        None => println!(rt; "{name}: {came}")?,
        Some(count) => println!(rt; "{name}: {came}, and {count} behind it")?,
    }
    Ok(came != Came::Wrong)
}

fn run<R: Print + Input + AllocGlobal + Threads + Sync>(rt: &R) -> Result<bool> {
    let mut all = true;
    for line in rt.lines(rt.alloc()) {
        all &= try_line(rt, line?.as_str())?;
    }
    Ok(all)
}

fn main(rt: HostRuntime) -> Result<ExitCode> {
    if run(&rt)? {
        Ok(ExitCode::SUCCESS)
    } else {
        Ok(ExitCode::FAILURE)
    }
}
