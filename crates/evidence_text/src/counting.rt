//! Counts of puts and takes by which a container's book may have no legal order. What is found is
//! judged afterwards.

ghost use Rattle.std.specs.Prelude.{IfOk, IfSome};
ghost use Rattle.refutation_text.specs.Said.{ending_said};
ghost use Rattle.evidence_text.specs.Written.{HasValues};

use book_base::{Book, NoMemory};
use kind_search::{PqueueReader, QueueReader, StackReader};
use queue_pairs::{QueueDeal, Table, TimedCall};
use refutation_text::{Ending, are_values};
use seq_objects::Kind;
use std::alloc::Global;

/// A put of a value that begins at a moment, or a take that shows the value and is due then.
#[derive(Clone, Copy, PartialEq, Eq, PartialOrd, Ord)]
struct Deed {
    value: u64,
    moment: u64,
    is_take: bool,
}

/// Counts that refute a queue's, a stack's or a priority queue's book, where some are found.
pub(crate) fn counts_of(alloc: Global, kind: Kind, book: &Book) -> Result<Option<Ending>, NoMemory>
    // The values are such as a line can say.
    ensures { IfOk result (λ found. IfSome found (λ ending. HasValues (ending_said ending))) }
{
    let table = match kind {
        Kind::Queue => Table::of(alloc, &QueueReader, book)?,
        Kind::Stack => Table::of(alloc, &StackReader, book)?,
        Kind::Pqueue => Table::of(alloc, &PqueueReader, book)?,
        _ => return Ok(None),
    };
    match exceeding_takes(alloc, &table)? {
        Some(ending) => Ok(Some(ending)),
        None => missing_find(alloc, &table),
    }
}

// The first value, and of it the first moment, up to which more takes that show it are due than puts
// of it begin.
fn exceeding_takes(alloc: Global, table: &Table) -> Result<Option<Ending>, NoMemory>
    ensures { IfOk result (λ found. IfSome found (λ ending. HasValues (ending_said ending))) }
{
    let mut deeds = Vec::new(alloc);
    for row in &table.rows {
        for call in row {
            if let Some(deed) = deed_of(call) {
                deeds.push(deed)?;
            }
        }
    }
    deeds.sort()?;
    let (mut value, mut puts, mut takes) = (0, 0u64, 0u64);
    for deed in &deeds {
        if deed.value != value {
            (value, puts, takes) = (deed.value, 0, 0);
        }
        if deed.is_take {
            takes = takes.saturating_add(1);
        } else {
            puts = puts.saturating_add(1);
        }
        if takes > puts && value <= u64::from(u32::MAX) {
            return Ok(Some(Ending::CountsTakes(value, deed.moment)));
        }
    }
    Ok(None)
}

// What a call puts in when it begins, or takes out when it is due.
fn deed_of(call: &TimedCall) -> Option<Deed> {
    match call.deal {
        QueueDeal::Put(value) if call.is_held() => Some(Deed {
            value,
            moment: call.span.first,
            is_take: false,
        }),
        QueueDeal::Took(value) => Some(Deed {
            value,
            moment: call.span.last,
            is_take: true,
        }),
        _ => None,
    }
}

// A take that finds nothing, before which more puts of some values are answered than takes of these
// begin up to it.
fn missing_find(alloc: Global, table: &Table) -> Result<Option<Ending>, NoMemory>
    ensures { IfOk result (λ found. IfSome found (λ ending. HasValues (ending_said ending))) }
{
    for find in &table.finds {
        let values = left_before(alloc, table, find)?;
        if are_values(&values) {
            return Ok(Some(Ending::CountsFind(
                u64::from(find.call.caller),
                find.call.number,
                values,
            )));
        }
    }
    Ok(None)
}

// The values of which more puts are answered before a take that finds nothing than takes begin up to
// it, where these puts are more than the unanswered takes too; else none.
fn left_before(alloc: Global, table: &Table, find: &TimedCall) -> Result<Vec<u64>, NoMemory> {
    let mut deeds = Vec::new(alloc);
    let mut open = 0u64;
    for row in &table.rows {
        for call in row {
            match call.deal {
                QueueDeal::Put(value) if call.span.last < find.span.first => {
                    deeds.push((value, false))?;
                }
                QueueDeal::Took(value) if call.span.first <= find.span.last => {
                    deeds.push((value, true))?;
                }
                QueueDeal::OpenTake if call.span.first <= find.span.last => {
                    open = open.saturating_add(1);
                }
                _ => {}
            }
        }
    }
    deeds.sort()?;
    left_of(alloc, &deeds, open)
}

// Of values in their order, each with whether it is taken out or put in: those that are put in more
// often than taken out, where these puts are more than the `open` takes too; else none.
fn left_of(alloc: Global, deeds: &[(u64, bool)], open: u64) -> Result<Vec<u64>, NoMemory> {
    let mut values = Vec::new(alloc);
    let (mut left, mut puts, mut takes) = (0u64, 0u64, 0u64);
    for k in 0..deeds.len() {
        let (value, is_take) = deeds[k];
        if is_take {
            takes = takes.saturating_add(1);
        } else {
            puts = puts.saturating_add(1);
        }
        let is_last = match deeds.get(k.saturating_add(1)) {
            Some(next) => next.0 != value,
            None => true,
        };
        if is_last {
            if puts > takes {
                left = left.saturating_add(puts - takes);
                values.push(value)?;
            }
            (puts, takes) = (0, 0);
        }
    }
    if left <= open {
        values.clear();
    }
    Ok(values)
}
