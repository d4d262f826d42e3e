//! What has to hold of the output of a run, whatever the schedule of its callers, where the output
//! can't be compared byte by byte.

use crate::trial::Told;
use anyhow::{Context, Result, anyhow};
use book_base::{Call, Cut};
use report_lines::LineEnd;
use report_text::{Report, read_report};
use selfcheck::{MemorySink, SteadySource, selfcheck};
use std::alloc::Global;
use std::thread::Threads;

/// The capacity of a sink for the verdict on a certificate or on its book.
const CAPACITY: usize = 1 << 20;

/// Tries whether an output shows what it is to show. Where it doesn't, that is an error.
pub fn try_told<R: AllocGlobal + Threads + Sync>(rt: &R, told: Told, output: &[u8]) -> Result<()> {
    match told {
        Told::Delivered(calls) => {
            read_delivered(rt.alloc(), output, calls)?;
            Ok(())
        }
        Told::Overlapping(calls) => try_overlap(&read_delivered(rt.alloc(), output, calls)?),
        Told::Certified => try_certificate(rt, output),
    }
}

// The report with this text. A text that isn't that of a report of this many calls, all of them
// delivered, is an error.
fn read_delivered(alloc: Global, text: &[u8], calls: u64) -> Result<Report> {
    let report = read_report(alloc, text).map_err(|_| anyhow!("the report can't be read"))?;
    let counts = report.counts();
    if counts.calls != calls || counts.delivered != calls {
        return Err(anyhow!(
            "{} calls for {calls}, {} of them delivered",
            counts.calls,
            counts.delivered
        ));
    }
    Ok(report)
}

// Tries whether some call of a report overlaps calls of another caller. Where none does, that is an
// error.
fn try_overlap(report: &Report) -> Result<()> {
    for caller in 0..report.callers() {
        if has_call_amid_others(report, caller) {
            return Ok(());
        }
    }
    Err(anyhow!("no call was made amid those of another caller"))
}

// Whether some view of a caller holds some of another caller's calls, and not all.
fn has_call_amid_others(report: &Report, caller: u32) -> bool {
    if caller >= report.callers() {
        return false;
    }
    for number in 0..report.lines(caller) {
        if let LineEnd::Delivered(record, _) = report.line(Call { caller, number }).end {
            if is_amid_others(report, caller, &record.view) {
                return true;
            }
        }
    }
    false
}

// Whether this view of a caller holds some of another caller's calls, and not all.
fn is_amid_others(report: &Report, caller: u32, view: &Cut) -> bool {
    for other in 0..report.callers() {
        if other != caller && other < view.n() {
            let held = view.get(other);
            if 0 < held && held < report.lines(other) {
                return true;
            }
        }
    }
    false
}

// Tries a certificate. It is an error where its order or its book isn't found legal, or where no
// sketch of its book is written.
fn try_certificate<R: AllocGlobal + Threads + Sync>(rt: &R, certificate: &[u8]) -> Result<()> {
    let text = str::from_utf8(certificate).context("a text")?;
    let (book, _) = text.split_once("order 2\n").context("an order")?;
    try_command(rt, "order", certificate)?;
    try_command(rt, "verify", book.as_bytes())?;
    try_command(rt, "sketch", book.as_bytes())
}

// Tries a command on an input. Where its status isn't 0, that is an error.
fn try_command<R: AllocGlobal + Threads + Sync>(rt: &R, command: &str, input: &[u8]) -> Result<()> {
    let alloc = rt.alloc();
    let words = vec![in alloc; String::from_str(alloc, command)?]?;
    let mut source = SteadySource::new(input.to_vec(alloc)?);
    let sink = MemorySink::new(alloc, CAPACITY, Vec::new(alloc), usize::MAX);
    let mut sink = sink.map_err(|_| anyhow!("no memory for a sink"))?;
    let status = selfcheck(rt, alloc, &words, &mut source, &mut sink).code();
    if status != 0 {
        return Err(anyhow!("status {status} of {command}"));
    }
    Ok(())
}
