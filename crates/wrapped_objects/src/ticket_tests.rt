use crate::TicketDispenser;
use book_base::{BAD, Call, MAX_CALLS, NoMemory};
use byte_streams::{MemorySink, Status};
use client_scripts::{Script, make_script, read_script};
use core_objects::OneWordPass;
use named_runs::{Form, Unwatched, core_fresh};
use report_lines::LineEnd;
use report_text::read_report;
use reports::Report;
use seq_objects::Kind;
use std::alloc::Global;
use std::test::Fail;
use std::thread::Threads;

// One caller takes two tickets, and between them asks for an operation that no dispenser knows.
const THREE_CALLS: &[u8] =
    b"script 2\nobject counter\ncallers 1\ncalls 3\n0 0 inc\n0 1 #8589934592\n0 2 inc\nturns\nend\n";

// Runs a script over one dispenser, whose first ticket has the number `first`, and reads the report
// that is written of the run.
fn take_tickets<R: Threads + Sync>(
    rt: &R,
    alloc: Global,
    first: u32,
    script: &Script,
) -> Result<Option<Report>, NoMemory> {
    let object = TicketDispenser { first };
    let mut passes = OneWordPass::for_callers(alloc, script.callers(), MAX_CALLS)?;
    let mut sink = MemorySink::new(alloc, 10_000, Vec::new(alloc), 10_000)?;
    let status = core_fresh(
        rt,
        alloc,
        script,
        &object,
        &mut passes,
        MAX_CALLS,
        Form::Report,
        &mut Unwatched,
        &mut sink,
    );
    match read_report(alloc, sink.bytes()) {
        Ok(report) if status == Status::Fine => Ok(Some(report)),
        _ => Ok(None),
    }
}

// The replies of a report, caller by caller, where there is one and each of its calls was
// delivered.
fn delivered(alloc: Global, report: Option<Report>) -> Result<Option<Vec<u64>>, NoMemory> {
    let Some(report) = report else {
        return Ok(None);
    };
    let mut replies = Vec::new(alloc);
    for caller in 0..report.callers() {
        for number in 0..report.lines(caller) {
            match report.line(Call { caller, number }).end {
                LineEnd::Delivered(record, _) => replies.push(record.reply)?,
                _ => return Ok(None),
            }
        }
    }
    Ok(Some(replies))
}

// The reply word `=0`. The reply word `=V` is greater by V.
const ZERO: u64 = 2 << 32;

// Whatever the schedule, 32 calls of four callers get the tickets from 100 to 131, each once.
#[test]
fn each_ticket_is_given_once(rt: HostRuntime) -> Result<(), Fail> {
    let script = make_script(rt.alloc(), 7, 4, 8, Kind::Counter)?;
    let report = take_tickets(&rt, rt.alloc(), 100, &script)?;
    let mut replies = delivered(rt.alloc(), report)?.unwrap_or(Vec::new(rt.alloc()));
    replies.sort_unstable();
    assert_eq!(rt; replies.len(), 32);
    for (number, reply) in replies.iter().enumerate() {
        assert_eq!(rt; *reply, ZERO + 100 + number as u64);
    }
    Ok(())
}

// An operation word other than that of taking a ticket gets `bad` and takes none. The ticket after
// the greatest number, 2^32 - 1, has the number 0.
#[test]
fn an_unknown_operation_takes_no_ticket(rt: HostRuntime) -> Result<(), Fail> {
    let script = read_script(rt.alloc(), THREE_CALLS)?;
    let report = take_tickets(&rt, rt.alloc(), u32::MAX, &script)?;
    let replies = delivered(rt.alloc(), report)?.unwrap_or(Vec::new(rt.alloc()));
    assert_eq!(rt;
        replies.as_slice(),
        [ZERO + 4_294_967_295, BAD, ZERO].as_slice()
    );
    Ok(())
}
