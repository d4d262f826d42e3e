ghost use Rattle.std.specs.Prelude.{IfOk, IsTrue};
ghost use Rattle.queue_pairs.specs.Counts.{IsRefuted};

use crate::counts::{puts_are_ahead, takes_are_ahead};
use crate::{NEVER, QueueDeal, Span, Table, TimedCall};
use book_base::NoMemory;
use std::alloc::Global;

// How many different values are looked at, at most, where a take finds nothing.
const MOST_VALUES: usize = 64;

/// Moments of those calls of a table that some view holds, each with the call's value, each list in
/// order. `due_puts` and `due_takes` have the moments of the own views of the answered puts, and of
/// the takes that show a value. The other lists have the moments of the first views that hold the
/// calls: `early_puts` of all puts, `early_takes` of the takes that show a value, and `open_takes`
/// of the unanswered takes, with the value 0. `values` has values of answered puts, each once.
#[derive(Drop)]
struct TableMoments {
    due_puts: Vec<(u64, u64)>,
    early_puts: Vec<(u64, u64)>,
    due_takes: Vec<(u64, u64)>,
    early_takes: Vec<(u64, u64)>,
    open_takes: Vec<(u64, u64)>,
    values: Vec<u64>,
}

/// Whether counts of calls show that a container's book has no legal order: by some moment a value
/// has been taken out more often than it may have been put in, or a take finds nothing where more
/// values were left than unanswered takes may have taken out.
///
/// The moments and the values to count are found by lists of moments, which aren't trusted: the
/// calls are counted once more.
pub fn refute_by_counts(alloc: Global, table: &Table) -> Result<bool, NoMemory>
    // The answer is `true` only where no container that begins empty has a legal order of a book
    // with this table.
    ensures refuted { IfOk result (λ refuted. IsTrue refuted → IsRefuted table.now) }
{
    let moments = moments_of(alloc, table)?;
    if let Some((value, moment)) = overtaken(&moments)
        && takes_refute(table, &[value], moment)
    {
        return Ok(true);
    }
    finds_refute(alloc, table, &moments)
}

// Whether more takes of some values have taken effect by a moment than puts of them may have by
// this moment.
fn takes_refute(table: &Table, values: &[u64], moment: u64) -> bool
    ensures { IsTrue result → IsRefuted table.now }
{
    if moment >= NEVER {
        return false;
    }
    takes_are_ahead(table, values, moment, moment)
}

// Whether counts of calls show that some take finds nothing where values were left.
fn finds_refute(alloc: Global, table: &Table, moments: &TableMoments) -> Result<bool, NoMemory>
    ensures { IfOk result (λ refuted. IsTrue refuted → IsRefuted table.now) }
{
    for place in 0..table.finds.len() {
        let left = values_left(alloc, moments, table.finds[place].span)?;
        if !left.is_empty() && find_refutes(table, &left, place) {
            return Ok(true);
        }
    }
    Ok(false)
}

// Whether more puts of some values have taken effect before any view holds a take that finds
// nothing, entry `place` of the table's, than takes may have taken out by this take's own view.
fn find_refutes(table: &Table, values: &[u64], place: usize) -> bool
    ensures { IsTrue result → IsRefuted table.now }
{
    let Some(find) = table.finds.get(place) else {
        return false;
    };
    if find.span.first == 0 {
        return false;
    }
    if find.span.first >= NEVER {
        return false;
    }
    if find.span.last >= NEVER {
        return false;
    }
    puts_are_ahead(table, values, find.span.first - 1, find.span.last)
}

// A value and a moment by which it has been taken out more often than it may have been put in,
// where the lists of moments have them.
fn overtaken(moments: &TableMoments) -> Option<(u64, u64)> {
    let puts = &moments.early_puts;
    let mut next = 0;
    for place in 0..moments.due_takes.len() {
        let (value, moment) = moments.due_takes[place];
        let put = puts.partition_point(|other| other.0 < value).max(next);
        match puts.get(put) {
            Some(other) => {
                if other.0 != value || other.1 > moment {
                    return Some((value, moment));
                }
            }
            None => return Some((value, moment)),
        }
        next = put + 1;
    }
    None
}

// The values of which more puts have taken effect before a take's span than answered takes may have
// taken out by the end of the span. There are none where the unanswered takes that may have taken
// effect by this end are enough for all that is left of the values.
fn values_left(alloc: Global, moments: &TableMoments, span: Span) -> Result<Vec<u64>, NoMemory> {
    let mut left = Vec::new(alloc);
    let mut all: usize = 0;
    for value in &moments.values {
        let put = up_to(&moments.due_puts, *value, span.first.saturating_sub(1));
        let taken = up_to(&moments.early_takes, *value, span.last);
        if taken < put {
            left.push(*value)?;
            all = all.saturating_add(put - taken);
        }
    }
    if all <= up_to(&moments.open_takes, 0, span.last) {
        left.clear();
    }
    Ok(left)
}

// How many moments of a value, in a list in order, are no later than `moment`.
fn up_to(moments: &[(u64, u64)], value: u64, moment: u64) -> usize {
    let before = moments.partition_point(|other| other.0 < value);
    let through = moments.partition_point(|other| other.0 < value
        || (other.0 == value && other.1 <= moment));
    through.saturating_sub(before)
}

// The moments of a table's calls.
fn moments_of(alloc: Global, table: &Table) -> Result<TableMoments, NoMemory> {
    let mut moments = TableMoments {
        due_puts: Vec::new(alloc),
        early_puts: Vec::new(alloc),
        due_takes: Vec::new(alloc),
        early_takes: Vec::new(alloc),
        open_takes: Vec::new(alloc),
        values: Vec::new(alloc),
    };
    for row in &table.rows {
        for timed in row {
            add(*timed, &mut moments)?;
        }
    }
    sort(&mut moments)?;
    add_values(&mut moments)?;
    Ok(moments)
}

// Adds the moments of a call, if some view holds it.
fn add(timed: TimedCall, moments: &mut TableMoments) -> Result<(), NoMemory> {
    if !timed.is_held() {
        return Ok(());
    }
    let Span { first, last } = timed.span;
    match timed.deal {
        QueueDeal::Put(value) => {
            moments.early_puts.push((value, first))?;
            if timed.is_answered() {
                moments.due_puts.push((value, last))?;
            }
        }
        QueueDeal::Took(value) => {
            moments.early_takes.push((value, first))?;
            moments.due_takes.push((value, last))?;
        }
        QueueDeal::OpenTake => moments.open_takes.push((0, first))?,
        _ => {}
    }
    Ok(())
}

// Puts each list of moments in order.
fn sort(moments: &mut TableMoments) -> Result<(), NoMemory> {
    moments.due_puts.sort()?;
    moments.early_puts.sort()?;
    moments.due_takes.sort()?;
    moments.early_takes.sort()?;
    moments.open_takes.sort()?;
    Ok(())
}

// Adds the values of the answered puts, each once, as long as there are fewer than `MOST_VALUES`.
fn add_values(moments: &mut TableMoments) -> Result<(), NoMemory> {
    for place in 0..moments.due_puts.len() {
        let value = moments.due_puts[place].0;
        if moments.values.last() != Some(&value) && moments.values.len() < MOST_VALUES {
            moments.values.push(value)?;
        }
    }
    Ok(())
}
