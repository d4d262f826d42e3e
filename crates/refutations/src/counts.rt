//! Counts of puts and takes by which a container's book has no legal order.

ghost use Rattle.std.specs.Prelude.{◌≡◌, ◌+◌, ◌<◌, ◌≤◌, ◌↔◌, ◌∷◌, ◌++◌, [], true, length, IfOk, OnOk, IsTrue, IsFalse};
ghost use Rattle.book_base.specs.Book.{IsCall, IsAnswered};
ghost use Rattle.book_base.specs.Order.{HasLegalOrder};
ghost use Rattle.legal_orders.specs.Container.{Reading};
ghost use Rattle.seq_objects.specs.Objects.{kind_spec};
ghost use Rattle.queue_pairs.specs.declared.TheConstants.{NEVER};
ghost use Rattle.queue_pairs.specs.Spans.{IsSpanOf};
ghost use Rattle.queue_pairs.specs.Tables.{IsTable};
ghost use Rattle.broken_rules.specs.Deeds.{reading_of};
ghost use Rattle.broken_rules.specs.Rules.{holds_values};
ghost use Rattle.refutations.specs.Counts.{IsAnsweredBefore, HasEachOnce, AreMore, TakesExceedPuts, FindMissesPuts};
ghost use Rattle.refutations.specs.Counting.{deal_fits, TimeFits, IsOfSort, IsAskedOf, RepliesNone, FindsNothing, HasEachTo};

use book_base::{Book, Call, NoMemory};
use kind_search::{PqueueReader, QueueReader, StackReader};
use queue_pairs::{NEVER, QueueDeal, Span, Table};
use seq_objects::{Kind, NONE};
use std::alloc::Global;

/// Which calls are counted, of those that put in or take out one of some values.
#[derive(Clone, Copy)]
pub(crate) enum Sort {
    /// The takes that show one of the values and are due up to this moment.
    TakesDue(u64),
    /// The puts of one of the values that begin up to this moment.
    PutsBegun(u64),
    /// The answered puts of one of the values that precede this call.
    PutsBefore(Call),
    /// The takes that show one of the values or are unanswered, and that this call doesn't precede.
    TakesHeld(Call),
}

/// Whether a kind's objects hold what is put in until it is taken out: queues, stacks and priority
/// queues do.
pub fn holds_values(kind: Kind) -> bool
    ensures { result ≡ holds_values kind }
{
    matches!(kind, Kind::Queue | Kind::Stack | Kind::Pqueue)
}

/// Whether more takes that show one of some values are due up to a moment than puts of these values
/// begin up to it. A moment is how many calls a view counts.
pub fn takes_exceed_puts(
    alloc: Global,
    kind: Kind,
    book: &Book,
    values: &[u64],
    moment: u64,
) -> Result<bool, NoMemory>
    // The kind's objects hold what is put in until it is taken out.
    requires { holds_values kind ≡ true }
    // `true` is answered exactly where more such takes are due than puts begin.
    ensures more { IfOk result (λ more.
        IsTrue more ↔ TakesExceedPuts (reading_of kind) book.now values.now moment) }
    // `true` is answered only where the book has no legal order.
    ensures none { IfOk result (λ more.
        IsTrue more → HasLegalOrder (kind_spec kind) book.now → ⊥) }
{
    let table = table_of(alloc, kind, book)?;
    let due = Sort::TakesDue(moment);
    let begun = Sort::PutsBegun(moment);
    let more = are_more(alloc, book, &table, values, due, begun)?;
    Ok(more)
}

/// Whether a take has the reply `none`, and more answered puts of some values precede it than its
/// view holds takes that are unanswered or show one of these values.
pub fn find_misses_puts(
    alloc: Global,
    kind: Kind,
    book: &Book,
    values: &[u64],
    find: Call,
) -> Result<bool, NoMemory>
    // The kind's objects hold what is put in until it is taken out.
    requires kind { holds_values kind ≡ true }
    // The call is one of the book's.
    requires call { IsCall book.now find }
    // `true` is answered exactly where the call is such a take, with more such puts than takes.
    ensures missed { IfOk result (λ missed.
        IsTrue missed ↔ FindMissesPuts (reading_of kind) book.now values.now find) }
    // `true` is answered only where the book has no legal order.
    ensures none { IfOk result (λ missed.
        IsTrue missed → HasLegalOrder (kind_spec kind) book.now → ⊥) }
{
    let table = table_of(alloc, kind, book)?;
    if finds_nothing(book, &table, find) {
        let before = Sort::PutsBefore(find);
        let held = Sort::TakesHeld(find);
        let more = are_more(alloc, book, &table, values, before, held)?;
        Ok(more)
    } else {
        Ok(false)
    }
}

// The calls of a container's book, with what they did and when.
fn table_of(alloc: Global, kind: Kind, book: &Book) -> Result<Table, NoMemory>
    requires { holds_values kind ≡ true }
    ensures { IfOk result (IsTable (reading_of kind) book.now) }
{
    match kind {
        Kind::Queue => Table::of(alloc, &QueueReader, book),
        Kind::Stack => Table::of(alloc, &StackReader, book),
        _ => Table::of(alloc, &PqueueReader, book),
    }
}

// Whether a call is a take with the reply `none`.
fn finds_nothing(book: &Book, table: &Table, find: Call) -> bool
    requires { IsCall book.now find }
    ensures finds { (reading : Reading) → IsTable reading book.now table.now
        → IsTrue result ↔ FindsNothing reading book.now find }
    ensures answered { IsTrue result → IsAnswered book.now find }
{
    match table.at(find.caller as usize, find.number as usize) {
        Some(timed) => timed.deal.is_find() && replies_none(book, find),
        None => false,
    }
}

// Whether a call is answered by `none`.
fn replies_none(book: &Book, call: Call) -> bool
    requires { IsCall book.now call }
    ensures none { IsTrue result ↔ RepliesNone book.now call }
    ensures answered { IsTrue result → IsAnswered book.now call }
{
    let _callers = book.callers();
    call.number < book.answers(call.caller) && book.reply(call) == NONE
}

// Whether more calls are of one sort than of another.
fn are_more(
    alloc: Global,
    book: &Book,
    table: &Table,
    values: &[u64],
    one: Sort,
    other: Sort,
) -> Result<bool, NoMemory>
    requires one { IsAskedOf book.now one }
    requires other { IsAskedOf book.now other }
    ensures { IfOk result (λ more. (reading : Reading) → IsTable reading book.now table.now
        → IsTrue more ↔ AreMore (IsOfSort reading book.now values.now one)
        (IsOfSort reading book.now values.now other)) }
{
    let ones = calls_of(alloc, book, table, values, one)?;
    let others = calls_of(alloc, book, table, values, other)?;
    Ok(others.len() < ones.len())
}

// All calls of a sort.
fn calls_of(
    alloc: Global,
    book: &Book,
    table: &Table,
    values: &[u64],
    sort: Sort,
) -> Result<Vec<Call>, NoMemory>
    requires { IsAskedOf book.now sort }
    ensures { IfOk result (λ calls. (reading : Reading) → IsTable reading book.now table.now
        → HasEachOnce (IsOfSort reading book.now values.now sort) calls.items) }
{
    let mut calls = Vec::new(alloc);
    for caller in 0..book.callers() {
        add_calls(book, table, values, sort, caller, &mut calls)?;
    }
    Ok(calls)
}

// Adds a caller's calls of a sort.
fn add_calls(
    book: &Book,
    table: &Table,
    values: &[u64],
    sort: Sort,
    caller: u32,
    calls: &mut Vec<Call>,
) -> Result<(), NoMemory>
    requires sort { IsAskedOf book.now sort }
    requires caller { caller < length book.now }
    ensures { OnOk result ((reading : Reading) → IsTable reading book.now table.now
        → HasEachTo (IsOfSort reading book.now values.now sort) caller 0 calls.old.items
        → HasEachTo (IsOfSort reading book.now values.now sort) (caller + 1) 0 calls.new.items) }
{
    for number in 0..book.calls(caller) {
        let call = Call { caller, number };
        let counts = is_counted(book, table, values, sort, call);
        push_if(calls, counts, call)?;
    }
    Ok(())
}

// Adds a call where it is counted.
fn push_if(calls: &mut Vec<Call>, counts: bool, call: Call) -> Result<(), NoMemory>
    ensures more { OnOk result
        (IsTrue counts → calls.new.items ≡ calls.old.items ++ call ∷ []) }
    ensures same { OnOk result (IsFalse counts → calls.new.items ≡ calls.old.items) }
{
    if !counts {
        return Ok(());
    }
    calls.push(call)?;
    Ok(())
}

// Whether a call is of a sort.
fn is_counted(book: &Book, table: &Table, values: &[u64], sort: Sort, call: Call) -> bool
    requires sort { IsAskedOf book.now sort }
    requires call { IsCall book.now call }
    ensures { (reading : Reading) → IsTable reading book.now table.now
        → IsTrue result ↔ IsOfSort reading book.now values.now sort call }
{
    match table.at(call.caller as usize, call.number as usize) {
        Some(timed) => {
            deal_fits(sort, values, timed.deal) && time_fits(book, sort, call, timed.span)
        }
        None => false,
    }
}

// Whether a call that did this is counted, if it has the time of the sort.
fn deal_fits(sort: Sort, values: &[u64], deal: QueueDeal) -> bool
    ensures { result ≡ deal_fits sort values.now deal }
{
    match (sort, deal) {
        (Sort::TakesDue(_), QueueDeal::Took(value)) => values.contains(&value),
        (Sort::PutsBegun(_), QueueDeal::Put(value)) => values.contains(&value),
        (Sort::PutsBefore(_), QueueDeal::Put(value)) => values.contains(&value),
        (Sort::TakesHeld(_), QueueDeal::Took(value)) => values.contains(&value),
        (Sort::TakesHeld(_), QueueDeal::OpenTake) => true,
        _ => false,
    }
}

// Whether a call with this span has the time of a sort.
fn time_fits(book: &Book, sort: Sort, call: Call, span: Span) -> bool
    requires sort { IsAskedOf book.now sort }
    requires call { IsCall book.now call }
    ensures { IsSpanOf book.now call span → IsTrue result ↔ TimeFits book.now sort call }
{
    let _callers = book.callers();
    match sort {
        Sort::TakesDue(moment) => is_up_to(span.last, moment),
        Sort::PutsBegun(moment) => is_up_to(span.first, moment),
        Sort::PutsBefore(other) => is_answered_before(book, call, other),
        Sort::TakesHeld(other) => !book.precedes(other, call),
    }
}

// Whether a moment of a span is one that comes, and is no later than another moment.
fn is_up_to(one: u64, moment: u64) -> bool
    ensures { IsTrue result ↔ ((one < NEVER) × (one ≤ moment)) }
{
    one < NEVER && one <= moment
}

// Whether a call is answered, and precedes another.
fn is_answered_before(book: &Book, call: Call, other: Call) -> bool
    requires call { IsCall book.now call }
    requires other { IsCall book.now other }
    ensures { IsTrue result ↔ IsAnsweredBefore book.now call other }
{
    let _callers = book.callers();
    call.number < book.answers(call.caller) && book.precedes(call, other)
}
