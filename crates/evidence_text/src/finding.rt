//! Refutations of a book without a legal order, as texts.

ghost use Rattle.std.specs.Prelude.{◌≡◌, ◌<◌, ◌≤◌, length, [], IfOk, IfErr, IfSome};
ghost use Rattle.std.specs.List.{AllByRecursion};
ghost use Rattle.book_base.specs.declared.call.Call.{Call};
ghost use Rattle.book_base.specs.Order.{HasLegalOrder};
ghost use Rattle.seq_objects.specs.Objects.{kind_spec};
ghost use Rattle.refutations.specs.Impossible.{IsImpossible};
ghost use Rattle.refutation_text.specs.Said.{Impossible, ending_said, steps_said};
ghost use Rattle.refutation_text.specs.RefutationRules.{IsRefutationText};
ghost use Rattle.evidence_text.specs.Written.{HasCounts, HasValues};
ghost use Rattle.evidence_text.specs.Found.{AreParts, IsRefutationOf, IsFinding, IsFirstNamed};

use crate::counting::counts_of;
use crate::evidence::{Limit, Limits};
use crate::level_writer::have_numbers;
use crate::parts::{Parts, parts_of};
use crate::writer::write_refutation;
use book_base::{Book, Call, NoMemory, ReadFault};
use level_refutations::find_levels;
use pair_refutations::find_pairs;
use refutation_text::{Ending, RefutationVerdict, Step, refute};
use refutations::{find_closed, first_impossible};
use seq_objects::Kind;
use smaller_book::Smaller;
use std::alloc::Global;

/// The text of a refutation of a book, or the limit that was met. A reply that no state gives is
/// named without a step, and so are counts of puts and takes. Of other books a part is looked for of
/// which few items have to be listed: first the smallest part that is found, and then those with
/// fewer steps.
pub(crate) fn refutation_of(
    alloc: Global,
    kind: Kind,
    book: &Book,
    limits: Limits,
) -> Result<Result<Vec<u8>, Limit>, NoMemory>
    // The book has no legal order.
    requires { ¬ HasLegalOrder (kind_spec kind) book.now }
    // A text is that of a right refutation of the book, within the limit of bytes. Where this limit
    // was met, there is one whose text is longer.
    ensures found { IfOk result (IsFinding kind book.now limits) }
    // Where some reply is impossible, the refutation names the first such call, without a step.
    ensures impossible { IfOk result (λ found. (call : Call)
        → IsImpossible (kind_spec kind) book.now call → IsFirstNamed kind book.now limits found) }
{
    match first_impossible(kind, book) {
        Some(call) => Ok(within(text_of_reply(alloc, kind, book, call)?, limits)),
        None => of_possible(alloc, kind, book, limits),
    }
}

// A refutation that counts puts and takes of the book, or lists the items of a part.
fn of_possible(
    alloc: Global,
    kind: Kind,
    book: &Book,
    limits: Limits,
) -> Result<Result<Vec<u8>, Limit>, NoMemory>
    requires { ¬ HasLegalOrder (kind_spec kind) book.now }
    ensures { IfOk result (IsFinding kind book.now limits) }
{
    match counted(alloc, kind, book)? {
        Some(text) => Ok(within(text, limits)),
        None => {
            let parts = parts_of(alloc, kind, book)?;
            of_parts(alloc, kind, book, &parts, limits)
        }
    }
}

// The text, where it is within the limit of bytes.
fn within(text: Vec<u8>, limits: Limits) -> Result<Vec<u8>, Limit>
    ensures within { IfOk result
        (λ found. (found ≡ text) × (length text.items ≤ limits.bytes)) }
    ensures met { IfErr result (λ limit. (limit ≡ Limit.Bytes)
        × (limits.bytes < length text.items)) }
{
    if text.len() as u64 <= limits.bytes {
        Ok(text)
    } else {
        Err(Limit::Bytes)
    }
}

// The text of the refutation that names a call whose reply is impossible.
fn text_of_reply(alloc: Global, kind: Kind, book: &Book, call: Call) -> Result<Vec<u8>, NoMemory>
    requires { IsImpossible (kind_spec kind) book.now call }
    ensures text { IfOk result
        (λ text. IsRefutationText text.items kind book.now [] (Impossible call)) }
    ensures right { IfOk result (λ text. IsRefutationOf kind book.now text.items) }
{
    let _callers = book.callers();
    let text = write_refutation(alloc, kind, book, &[], &Ending::Impossible(call))?;
    Ok(text)
}

// The text of a refutation that counts puts and takes of the book, where one is found.
fn counted(alloc: Global, kind: Kind, book: &Book) -> Result<Option<Vec<u8>>, NoMemory>
    ensures { IfOk result (λ found. IfSome found (λ text. IsRefutationOf kind book.now text.items)) }
{
    match counts_of(alloc, kind, book)? {
        Some(ending) => judged(alloc, kind, book, &[], &ending),
        None => Ok(None),
    }
}

// A refutation that lists the items of some part, of which the last one is tried first.
fn of_parts(
    alloc: Global,
    kind: Kind,
    book: &Book,
    parts: &Parts,
    limits: Limits,
) -> Result<Result<Vec<u8>, Limit>, NoMemory>
    requires { AreParts kind parts.now }
    ensures { IfOk result (IsFinding kind book.now limits) }
{
    let mut met = match of_part(alloc, kind, book, &parts.last, &parts.steps, limits)? {
        Ok(text) => return Ok(Ok(text)),
        Err(limit) => limit,
    };
    let count = parts.earlier.len();
    for k in 0..count {
        let part = &parts.earlier[count - 1 - k];
        let steps = &parts.steps[..part.steps.min(parts.steps.len())];
        match of_part(alloc, kind, book, &part.left, steps, limits)? {
            Ok(text) => return Ok(Ok(text)),
            Err(Limit::Bytes) => met = Limit::Bytes,
            Err(Limit::Items) => {}
        }
    }
    Ok(Err(met))
}

// A refutation that lists the items of a part, which these steps leave.
fn of_part(
    alloc: Global,
    kind: Kind,
    book: &Book,
    left: &Smaller,
    steps: &[Step],
    limits: Limits,
) -> Result<Result<Vec<u8>, Limit>, NoMemory>
    requires { AllByRecursion HasCounts (steps_said steps.now) }
    ensures { IfOk result (IsFinding kind book.now limits) }
{
    match listed(alloc, kind, book, left, steps, limits)? {
        Some(text) => Ok(within(text, limits)),
        None => Ok(Err(Limit::Items)),
    }
}

// The text of a refutation that lists the items of a part, where one is found. Of a queue standings
// are tried first, of which there are fewer; of a stack levels where the list is too long, since of
// small parts a list is shorter.
fn listed(
    alloc: Global,
    kind: Kind,
    book: &Book,
    left: &Smaller,
    steps: &[Step],
    limits: Limits,
) -> Result<Option<Vec<u8>>, NoMemory>
    requires { AllByRecursion HasCounts (steps_said steps.now) }
    ensures { IfOk result (λ found. IfSome found (λ text. IsRefutationOf kind book.now text.items)) }
{
    if kind == Kind::Queue {
        let found = paired(alloc, kind, book, left, steps, limits)?;
        if found.is_some() {
            return Ok(found);
        }
    }
    let found = plainly(alloc, kind, book, left, steps, limits)?;
    if kind != Kind::Stack || is_short(&found, limits) {
        return Ok(found);
    }
    match leveled(alloc, kind, book, left, steps, limits)? {
        Some(text) => Ok(Some(text)),
        None => Ok(found),
    }
}

// Whether a text was found that is within the limit of bytes.
fn is_short(found: &Option<Vec<u8>>, limits: Limits) -> bool {
    match found {
        Some(text) => text.len() as u64 <= limits.bytes,
        None => false,
    }
}

// The text of a refutation that lists pairs of calls and a state of a part, where one is found.
fn plainly(
    alloc: Global,
    kind: Kind,
    book: &Book,
    left: &Smaller,
    steps: &[Step],
    limits: Limits,
) -> Result<Option<Vec<u8>>, NoMemory>
    requires { AllByRecursion HasCounts (steps_said steps.now) }
    ensures { IfOk result (λ found. IfSome found (λ text. IsRefutationOf kind book.now text.items)) }
{
    match find_closed(alloc, &kind, &left.book, limits.items)? {
        Some(entries) => judged(alloc, kind, book, steps, &Ending::Closed(entries)),
        None => Ok(None),
    }
}

// The text of a refutation of a stack's book that lists levels of a part, where one is found.
fn leveled(
    alloc: Global,
    kind: Kind,
    book: &Book,
    left: &Smaller,
    steps: &[Step],
    limits: Limits,
) -> Result<Option<Vec<u8>>, NoMemory>
    requires { AllByRecursion HasCounts (steps_said steps.now) }
    ensures { IfOk result (λ found. IfSome found (λ text. IsRefutationOf kind book.now text.items)) }
{
    match find_levels(alloc, &left.book, limits.items)? {
        Some(entries) => {
            if !have_numbers(&entries) {
                return Ok(None);
            }
            judged(alloc, kind, book, steps, &Ending::Levels(entries))
        }
        None => Ok(None),
    }
}

// The text of a refutation of a queue's book that lists standings of a part, where one is found.
fn paired(
    alloc: Global,
    kind: Kind,
    book: &Book,
    left: &Smaller,
    steps: &[Step],
    limits: Limits,
) -> Result<Option<Vec<u8>>, NoMemory>
    requires { AllByRecursion HasCounts (steps_said steps.now) }
    ensures { IfOk result (λ found. IfSome found (λ text. IsRefutationOf kind book.now text.items)) }
{
    match find_pairs(alloc, &left.book, limits.items)? {
        Some(entries) => judged(alloc, kind, book, steps, &Ending::Pairs(entries)),
        None => Ok(None),
    }
}

// The text of a refutation, where it is right.
fn judged(
    alloc: Global,
    kind: Kind,
    book: &Book,
    steps: &[Step],
    ending: &Ending,
) -> Result<Option<Vec<u8>>, NoMemory>
    requires steps { AllByRecursion HasCounts (steps_said steps.now) }
    requires ending { HasValues (ending_said ending.now) }
    ensures { IfOk result (λ found. IfSome found (λ text. IsRefutationOf kind book.now text.items)) }
{
    let text = write_refutation(alloc, kind, book, steps, ending)?;
    match refute(alloc, &text) {
        Ok(RefutationVerdict::Illegal) => Ok(Some(text)),
        Ok(RefutationVerdict::Faulty(_)) => Ok(None),
        Err(ReadFault::Text(_)) => Ok(None),
        Err(ReadFault::NoMemory) => Err(NoMemory),
    }
}
