//! Adds calls to a book. Their operations are peeked from the table word by word.
ghost use Rattle.std.specs.Prelude.{ℕ, ◌≡◌, ◌+◌, ◌<◌, ◌≤◌, max, length, slice_index, OnOk};
ghost use Rattle.book_base.specs.declared.TheConstants.{MAX_CALLS};
ghost use Rattle.book_base.specs.Book.{calls_of, with_call};
ghost use Rattle.world_core.specs.declared.region.Region.{Region};
ghost use Rattle.row_table.specs.Callers.{local_with};
ghost use Rattle.row_gather.specs.Peeks.{IsReady, PeeksAlone};
ghost use Rattle.row_gather.specs.Words.{IsPeekedOperation, ArePeekedOperations, HasPeekedCalls};
ghost use Rattle.row_gather.specs.Words.{IsLengthenedTo, TicksForCalls};
ghost use Rattle.row_gather.specs.Known.{KnowsCall, KnowsFirst, KnowsCalls};

use book_base::{Book, BookFault, Call, Cut, NoMemory, OpWord, join};
use row_table::{Caller, Rows, Steps};
use std::sync::ledger::Ledger;
use world_core::{Program, Region};

// Peeks the operation of a call: its low word, and then its high word.
fn peek_operation<P: Program, L: Ledger>(
    rows: &Rows<P>,
    caller: &mut Caller<P>,
    call: Call,
    steps: &mut Steps<L>,
) -> OpWord
    requires ready { IsReady P.meaning rows.now caller.old }
    requires caller_fits { call.caller < rows.now.callers }
    requires known { KnowsCall rows.now caller.old Region.N call }
    ensures peeks { PeeksAlone P.meaning rows.now caller.old caller.new steps.old steps.new }
    ensures ticks { steps.new ≡ steps.old + 2 }
    ensures operation { IsPeekedOperation (local_with caller.new) call result }
{
    let low = rows.peek(caller, Region::N, call.caller, call.number, 0, steps);
    let high = rows.peek(caller, Region::N, call.caller, call.number, 1, steps);
    join(low, high)
}

// Adds a call of caller `j` to the book. Caller `j` has fewer calls in the book than a caller may
// have, so only lack of memory refuses the call.
fn add_call(book: &mut Book, j: u32, op: OpWord) -> Result<(), NoMemory>
    requires caller { j < length book.old }
    requires room { calls_of book.old j < MAX_CALLS }
    ensures { OnOk result (book.new ≡ with_call book.old j op) }
{
    match book.add_call(j, op) {
        Ok(()) => Ok(()),
        Err(BookFault::NoMemory) => Err(NoMemory),
        Err(_) => unreachable!(),
    }
}

// Adds to the book the calls of caller `j` that it lacks among the first `count` ones, and peeks
// their operations.
fn add_calls_of<P: Program, L: Ledger>(
    rows: &Rows<P>,
    caller: &mut Caller<P>,
    book: &mut Book,
    j: u32,
    count: u64,
    steps: &mut Steps<L>,
) -> Result<(), NoMemory>
    requires ready { IsReady P.meaning rows.now caller.old }
    requires caller_fits { j < rows.now.callers }
    requires callers { length book.old ≡ rows.now.callers }
    requires few { count ≤ MAX_CALLS }
    requires known { KnowsFirst rows.now caller.old Region.N j count }
    requires peeked { ArePeekedOperations (local_with caller.old) book.old }
    ensures peeks { PeeksAlone P.meaning rows.now caller.old caller.new steps.old steps.new }
    ensures ticks { OnOk result (TicksForCalls book.old book.new steps.old steps.new) }
    ensures same { OnOk result (HasPeekedCalls (local_with caller.new) book.old book.new) }
    ensures calls { OnOk result (IsLengthenedTo j count book.old book.new) }
{
    for number in book.calls(j)..count {
        let op = peek_operation(rows, caller, Call { caller: j, number }, steps);
        add_call(book, j, op)?;
    }
    Ok(())
}

// Adds to the book the calls that it lacks of each caller `j`, up to the number that `counts` has
// for `j`, and peeks their operations.
pub fn add_calls<P: Program, L: Ledger>(
    rows: &Rows<P>,
    caller: &mut Caller<P>,
    book: &mut Book,
    counts: &Cut,
    steps: &mut Steps<L>,
) -> Result<(), NoMemory>
    requires ready { IsReady P.meaning rows.now caller.old }
    requires callers { length book.old ≡ rows.now.callers }
    requires wide { length counts.now ≡ rows.now.callers }
    requires few { (j : ℕ) → slice_index counts.now j ≤ MAX_CALLS }
    requires known { KnowsCalls rows.now caller.old counts.now }
    requires peeked { ArePeekedOperations (local_with caller.old) book.old }
    ensures peeks { PeeksAlone P.meaning rows.now caller.old caller.new steps.old steps.new }
    ensures ticks { OnOk result (TicksForCalls book.old book.new steps.old steps.new) }
    ensures same { OnOk result (HasPeekedCalls (local_with caller.new) book.old book.new) }
    ensures calls { OnOk result ((j : ℕ) → j < rows.now.callers
        → calls_of book.new j ≡ max (calls_of book.old j) (slice_index counts.now j)) }
{
    for j in 0..rows.callers() {
        add_calls_of(rows, caller, book, j, counts.get(j), steps)?;
    }
    Ok(())
}
