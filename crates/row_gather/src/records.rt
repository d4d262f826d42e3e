//! Peeks the records that a cut holds and a book lacks, word by word.
ghost use Rattle.std.specs.Prelude.{◌≡◌, ◌+◌, ◌<◌, ◌≤◌, IfOk, length, sum};
ghost use Rattle.book_base.specs.Cut.{IsWithin};
ghost use Rattle.book_base.specs.Book.{answered};
ghost use Rattle.world_core.specs.declared.region.Region.{Region};
ghost use Rattle.row_table.specs.Callers.{local_with};
ghost use Rattle.row_gather.specs.Peeks.{IsReady, PeeksAlone};
ghost use Rattle.row_gather.specs.Words.{IsPeekedView, IsPeekedRecord, TicksForRecords};
ghost use Rattle.row_gather.specs.Known.{KnowsCall, KnowsFirst, KnowsRecords, HasRecords, HasAllRecords, lists_in};

use book_base::{Book, Call, Cut, NoMemory, Record};
use row_table::{Caller, Rows, Steps};
use std::alloc::Global;
use std::sync::ledger::Ledger;
use world_core::{Program, Region};

// Peeks the view of a call: one word for each entry.
fn peek_view<P: Program, L: Ledger>(
    rows: &Rows<P>,
    caller: &mut Caller<P>,
    call: Call,
    steps: &mut Steps<L>,
) -> Cut
    requires ready { IsReady P.meaning rows.now caller.old }
    requires caller_fits { call.caller < rows.now.callers }
    requires known { KnowsCall rows.now caller.old Region.M call }
    ensures peeks { PeeksAlone P.meaning rows.now caller.old caller.new steps.old steps.new }
    ensures ticks { steps.new ≡ steps.old + rows.now.callers }
    ensures view { IsPeekedView rows.now.callers (local_with caller.new) call result }
{
    let mut view = Cut::zero(rows.callers());
    for j in 0..rows.callers() {
        let count = rows.peek(caller, Region::M, call.caller, call.number, 1 + j, steps);
        view.set(j, count);
    }
    view
}

// Peeks the record of a call: its reply, and then its view.
fn peek_record<P: Program, L: Ledger>(
    rows: &Rows<P>,
    caller: &mut Caller<P>,
    call: Call,
    steps: &mut Steps<L>,
) -> Record
    requires ready { IsReady P.meaning rows.now caller.old }
    requires caller_fits { call.caller < rows.now.callers }
    requires known { KnowsCall rows.now caller.old Region.M call }
    ensures peeks { PeeksAlone P.meaning rows.now caller.old caller.new steps.old steps.new }
    ensures ticks { steps.new ≡ steps.old + (1 + rows.now.callers) }
    ensures record { IsPeekedRecord rows.now.callers (local_with caller.new) call result }
{
    let reply = rows.peek(caller, Region::M, call.caller, call.number, 0, steps);
    let view = peek_view(rows, caller, call, steps);
    Record { reply, view }
}

// Peeks the records of the calls of caller `j` with the numbers from `from` up to but not including
// `count`.
fn peek_records_of<P: Program, L: Ledger>(
    alloc: Global,
    rows: &Rows<P>,
    caller: &mut Caller<P>,
    j: u32,
    from: u64,
    count: u64,
    steps: &mut Steps<L>,
) -> Result<Vec<Record>, NoMemory>
    requires ready { IsReady P.meaning rows.now caller.old }
    requires caller_fits { j < rows.now.callers }
    requires order { from ≤ count }
    requires known { KnowsFirst rows.now caller.old Region.M j count }
    ensures peeks { PeeksAlone P.meaning rows.now caller.old caller.new steps.old steps.new }
    ensures ticks { IfOk result
        (λ _. TicksForRecords rows.now.callers from count steps.old steps.new) }
    ensures records { IfOk result (λ rs. HasRecords rows.now caller.new j from count rs.items) }
{
    let mut records = Vec::with_capacity(alloc, (count - from) as usize)?;
    for number in from..count {
        let call = Call { caller: j, number };
        records.push(peek_record(rows, caller, call, steps))?;
    }
    Ok(records)
}

// Peeks the records that the cut holds and the book lacks, and returns a list of them for each
// caller.
pub fn peek_records<P: Program, L: Ledger>(
    alloc: Global,
    rows: &Rows<P>,
    caller: &mut Caller<P>,
    book: &Book,
    cut: &Cut,
    steps: &mut Steps<L>,
) -> Result<Vec<Vec<Record>>, NoMemory>
    requires ready { IsReady P.meaning rows.now caller.old }
    requires callers { length book.now ≡ rows.now.callers }
    requires wide { length cut.now ≡ rows.now.callers }
    requires within { IsWithin (answered book.now) cut.now }
    requires known { KnowsRecords rows.now caller.old cut.now }
    ensures peeks { PeeksAlone P.meaning rows.now caller.old caller.new steps.old steps.new }
    ensures ticks { IfOk result (λ _.
        TicksForRecords rows.now.callers (sum (answered book.now))
        (sum cut.now) steps.old steps.new) }
    ensures records { IfOk result (λ lists.
        HasAllRecords rows.now caller.new book.now cut.now (lists_in lists.items)) }
{
    let mut lists = Vec::with_capacity(alloc, cut.n() as usize)?;
    for j in 0..cut.n() {
        let from = book.answers(j);
        let count = cut.get(j);
        lists.push(peek_records_of(alloc, rows, caller, j, from, count, steps)?)?;
    }
    Ok(lists)
}
