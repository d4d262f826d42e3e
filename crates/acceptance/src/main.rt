//! Runs the top call on a table of cases, over sources and sinks in memory.
//!
//! The table is read from standard input. A case begins with a line `case NAME`, and its lines say,
//! in any order:
//!
//! | Line | Meaning |
//! |---|---|
//! | `words WORD ..` | the command words; without it there are none |
//! | `in LINE` | a line of the input, with its line feed; `in` alone is an empty line |
//! | `in-cut TEXT` | a piece of the input without a line feed |
//! | `in-byte N` | one byte of the input, as a number |
//! | `in-fill COUNT` | this many bytes `x` of the input |
//! | `in-calls CALLER COUNT OP` | this many lines of the input: the caller, a number that counts from 0, and the operation |
//! | `in-turns CALLER COUNT` | the line of a script's turns, with this many turns of the caller |
//! | `in-each CALLERS COUNT OP, ..` | the lines of a script from `callers` to its last call: each caller has COUNT calls, which take the operations in turn; a `*` in an operation is a number that no other call has |
//! | `in-rounds CALLERS COUNT TURNS` | the line of a script's turns: COUNT rounds, in each of which each caller has TURNS turns in a row |
//! | `in-answered CALLER COUNT OP REPLY` | COUNT lines of the input: the caller, a number that counts from 0, the operation, the reply, and a view of the caller's calls up to that one |
//! | `fronts` | each prefix of the input, but not the whole input, is tried in its place: it has to be refused as a text that is cut |
//! | `each-read-fails` | the source gives one byte a read; each read fails in turn, up to the one that finds the end: status 4 and nothing written; and then none fails |
//! | `each-write-fails` | the sink takes one byte a write; each write fails in turn, up to the last: status 5 and the bytes before it; and then none fails |
//! | `delivered COUNT` | the output, which the schedule decides, is the text of a report of COUNT calls, all of them delivered |
//! | `overlapping COUNT` | the output, which the schedule decides, is the text of a report of COUNT calls, all of them delivered, and some view holds some calls of another caller, but not all |
//! | `certified` | the output, which the schedule decides, is a certificate: `order` calls it legal, `verify` calls its book legal, and `sketch` writes the history of that book |
//! | `source-fails K ..` | the reads that fail, counted from 1 |
//! | `source-most N` | the most bytes that a read gives |
//! | `source-steady` | the input comes from the source that never fails |
//! | `sink-fails K ..` | the writes that fail, counted from 1 |
//! | `sink-most N` | the most bytes that a write takes |
//! | `sink-room N` | the capacity of the sink, in bytes |
//! | `out LINE` | a line of the wanted output, with its line feed |
//! | `out-cut TEXT` | a piece of the wanted output without a line feed |
//! | `out-each CALLERS COUNT OP, ..` | lines of the wanted output, as those of `in-each` |
//! | `out-rounds CALLERS COUNT TURNS` | a line of the wanted output, as that of `in-rounds` |
//! | `left N` | how many bytes the source is to have left |
//! | `status N` | the wanted status |
//!
//! A book that `verify` is to call legal is also tried at its smaller cuts, at most 20,000 of them:
//! the book at each has to be legal too, by an order that is accepted without a search. A book of
//! at most three callers that `verify` is to judge is also judged by sets of one call each, which
//! has to give the same verdict.
//!
//! Empty lines and lines that begin with `#` are passed over. A line is printed for each case that
//! fails, with what was answered instead of what was wanted, and `N passed, M failed` last.
#![tactic(auto)]

mod alone;
mod case;
mod cuts;
mod schedules;
mod table;
mod trial;

use anyhow::Result;
use case::Case;
use std::io::{BufRead, BufReader};
use std::process::ExitCode;
use std::thread::Threads;

#[derive(Drop)]
struct CaseCounts {
    passed: u64,
    failed: u64,
}

impl CaseCounts {
    fn count(&mut self, passed: bool) {
        if passed {
            self.passed = self.passed.saturating_add(1);
        } else {
            self.failed = self.failed.saturating_add(1);
        }
    }
}

fn try_case<R: Print + AllocGlobal + Threads + Sync>(
    rt: &R,
    case: Case,
    tally: &mut CaseCounts,
) -> Result<()> {
    let outcome = case.run_with_cuts(rt)?;
    if !outcome.passed {
        println!(rt; "{}", outcome.report)?;
    }
    tally.count(outcome.passed);
    Ok(())
}

fn run<R: Print + Input + AllocGlobal + Threads + Sync>(rt: &R) -> Result<CaseCounts> {
    let mut tally = CaseCounts {
        passed: 0,
        failed: 0,
    };
    let mut current: Option<Case> = None;
    let table = BufReader::new(rt.alloc(), rt.reader())?;
    for line in table.lines(rt.alloc()) {
        let line = line?;
        if let Some(name) = line.strip_prefix("case ") {
            let next = Case::new(rt.alloc(), name)?;
            if let Some(case) = current.replace(next) {
                try_case(rt, case, &mut tally)?;
            }
        } else if let Some(case) = &mut current {
            table::take_line(rt.alloc(), case, line.as_str())?;
        }
    }
    if let Some(case) = current {
        try_case(rt, case, &mut tally)?;
    }
    Ok(tally)
}

fn main(rt: HostRuntime) -> Result<ExitCode> {
    let tally = run(&rt)?;
    println!(rt; "{} passed, {} failed", tally.passed, tally.failed)?;
    if tally.failed == 0 {
        Ok(ExitCode::SUCCESS)
    } else {
        Ok(ExitCode::FAILURE)
    }
}
