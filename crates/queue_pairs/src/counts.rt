ghost use Rattle.std.specs.Prelude.{◌≡◌, ℕ, ◌<◌, [], Some, IfSome, IsTrue, count_by, slice_index_or};
ghost use Rattle.queue_pairs.specs.Tables.{rows_of};
ghost use Rattle.queue_pairs.specs.Counts.{listed, is_counted, count_in, PutsAhead, TakesAhead};

use crate::{QueueDeal, Table, TimedCall};

/// Which calls of a table are counted, for some values and up to a moment.
#[derive(Clone, Copy)]
pub enum Counted {
    /// The puts of one of the values that have taken effect by the moment: their own view is no
    /// later than it.
    DuePuts,
    /// The puts of one of the values that may have taken effect by the moment: some view that is no
    /// later than it holds them.
    EarlyPuts,
    /// The takes that show one of the values and have taken effect by the moment: their own view is
    /// no later than it.
    DueTakes,
    /// The takes that show one of the values, or are unanswered, and may have taken effect by the
    /// moment: some view that is no later than it holds them.
    EarlyTakes,
}

/// Whether more puts of some values have taken effect by `put_moment` than takes may have taken out
/// by `take_moment`. The answer is `false` too where there are too many calls to count.
pub fn puts_are_ahead(table: &Table, values: &[u64], put_moment: u64, take_moment: u64) -> bool
    // The answer is `true` only where more puts of the values have taken effect by `put_moment`
    // than takes may have taken out by `take_moment`.
    ensures { IsTrue result → PutsAhead table.now values.now put_moment take_moment }
{
    is_less(
        count(table, Counted::EarlyTakes, values, take_moment),
        count(table, Counted::DuePuts, values, put_moment),
    )
}

/// Whether more takes of some values have taken effect by `take_moment` than puts of them may have
/// by `put_moment`. The answer is `false` too where there are too many calls to count.
pub fn takes_are_ahead(table: &Table, values: &[u64], put_moment: u64, take_moment: u64) -> bool
    // The answer is `true` only where more takes of the values have taken effect by `take_moment`
    // than puts of them may have by `put_moment`.
    ensures { IsTrue result → TakesAhead table.now values.now put_moment take_moment }
{
    is_less(
        count(table, Counted::EarlyPuts, values, put_moment),
        count(table, Counted::DueTakes, values, take_moment),
    )
}

// Whether both counts are known, and the first is the lesser one.
fn is_less(one: Option<usize>, other: Option<usize>) -> bool
    ensures { IsTrue result → (low high : ℕ) × (one ≡ Some low) × (other ≡ Some high)
        × (low < high) }
{
    match (one, other) {
        (Some(low), Some(high)) => low < high,
        _ => false,
    }
}

// How many calls of a table are counted for some values up to a moment, or `None` where the number
// is too great.
fn count(table: &Table, what: Counted, values: &[u64], moment: u64) -> Option<usize>
    ensures { IfSome result (λ all. all ≡ count_in (is_counted what values.now moment) table.now) }
{
    let mut all: usize = 0;
    for caller in 0..table.rows.len() {
        let more = count_of(table, caller, what, values, moment);
        all = all.checked_add(more)?;
    }
    Some(all)
}

// How many calls of a caller are counted for some values up to a moment.
fn count_of(table: &Table, caller: usize, what: Counted, values: &[u64], moment: u64) -> usize
    ensures { result ≡ count_by (is_counted what values.now moment)
        (slice_index_or (rows_of table.now) caller []) }
{
    match table.rows.get(caller) {
        Some(row) => count_row(row, what, values, moment),
        None => 0,
    }
}

// How many calls of a row are counted for some values up to a moment.
fn count_row(row: &[TimedCall], what: Counted, values: &[u64], moment: u64) -> usize
    ensures { result ≡ count_by (is_counted what values.now moment) row.now }
{
    let mut all: usize = 0;
    for number in 0..row.len() {
        if is_counted(row[number], what, values, moment) {
            all += 1;
        }
    }
    all
}

// Whether a call is counted for some values up to a moment.
fn is_counted(timed: TimedCall, what: Counted, values: &[u64], moment: u64) -> bool
    ensures { result ≡ is_counted what values.now moment timed }
{
    match (what, timed.deal) {
        (Counted::DuePuts, QueueDeal::Put(value)) => {
            listed(values, value) && timed.span.last <= moment
        }
        (Counted::EarlyPuts, QueueDeal::Put(value)) => {
            listed(values, value) && timed.span.first <= moment
        }
        (Counted::DueTakes, QueueDeal::Took(value)) => {
            listed(values, value) && timed.span.last <= moment
        }
        (Counted::EarlyTakes, QueueDeal::Took(value)) => {
            listed(values, value) && timed.span.first <= moment
        }
        (Counted::EarlyTakes, QueueDeal::OpenTake) => timed.span.first <= moment,
        _ => false,
    }
}

// Whether a value is among `values`.
fn listed(values: &[u64], value: u64) -> bool
    ensures { result ≡ listed values.now value }
{
    values.contains(&value)
}
