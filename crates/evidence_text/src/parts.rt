//! Parts of a book without a legal order, each smaller than the one before it, with the steps of a
//! refutation that leave them.

ghost use Rattle.std.specs.Prelude.{IfOk, IfSome, OnOk};
ghost use Rattle.std.specs.List.{AllByRecursion};
ghost use Rattle.book_base.specs.Order.{HasLegalOrder};
ghost use Rattle.seq_objects.specs.Objects.{kind_spec};
ghost use Rattle.refutation_text.specs.Said.{steps_said};
ghost use Rattle.evidence_text.specs.Written.{HasCounts};
ghost use Rattle.evidence_text.specs.Found.{AreParts};

use crate::steps::{cut_step, keys_step, numbers_of, push_step, push_unseen};
use book_base::{Book, NoMemory};
use refutation_text::Step;
use seq_objects::Kind;
use smaller_book::{
    Smaller, numbers_of_all, without_halves, without_later, without_open, without_singles,
    without_unseen,
};
use std::alloc::Global;

/// What the calls that a part lacks have in common.
#[derive(Clone, Copy)]
enum Rule {
    /// They are after a cut.
    Cut,
    /// They have keys that no other call has.
    Keys,
    /// They are read-only, or no call that stays can tell what they set.
    Unseen,
}

/// A part of a book, with the numbers that its calls have in the book.
#[derive(Drop)]
pub(crate) struct Part {
    pub(crate) left: Smaller,
    /// How many of the steps leave it, from the first.
    pub(crate) steps: usize,
}

/// Parts of a book, each smaller than the one before it.
#[derive(Drop)]
pub(crate) struct Parts {
    /// All steps, one after another.
    pub(crate) steps: Vec<Step>,
    /// All parts but the last, the book itself first.
    pub(crate) earlier: Vec<Part>,
    /// The part that all steps leave.
    pub(crate) last: Smaller,
}

/// Makes a book smaller, as long as it has no legal order: the latest records go, then the calls of
/// keys, read-only calls and calls that no call which stays can tell, and further records. No single
/// record goes that would leave several unanswered calls of a caller in a view, since more items
/// would be listed of the part.
pub(crate) fn parts_of(alloc: Global, kind: Kind, book: &Book) -> Result<Parts, NoMemory>
    requires { ¬ HasLegalOrder (kind_spec kind) book.now }
    ensures { IfOk result (AreParts kind) }
{
    let mut parts = whole(alloc, kind, book)?;
    parts = with_seen_first(alloc, kind, parts)?;
    let early = without_later(alloc, kind, &parts.last.book)?;
    parts = with_part(alloc, kind, parts, early, Rule::Cut)?;
    let keyless = without_halves(alloc, kind, &parts.last.book)?;
    parts = with_part(alloc, kind, parts, keyless, Rule::Keys)?;
    parts = with_seen(alloc, kind, parts)?;
    let thin = without_singles(alloc, kind, &parts.last.book)?;
    parts = with_part(alloc, kind, parts, thin, Rule::Unseen)?;
    let open = without_open(alloc, kind, &parts.last.book)?;
    parts = with_part(alloc, kind, parts, open, Rule::Cut)?;
    let last = without_halves(alloc, kind, &parts.last.book)?;
    with_part(alloc, kind, parts, last, Rule::Keys)
}

// The parts, of a register with one more, which lacks calls that no call which stays can tell. They
// go before any record does, since each record that goes leaves an unanswered call, and an
// unanswered compare-and-set may see each value.
fn with_seen_first(alloc: Global, kind: Kind, parts: Parts) -> Result<Parts, NoMemory>
    requires { AreParts kind parts }
    ensures { IfOk result (AreParts kind) }
{
    match kind {
        Kind::Register | Kind::CasRegister => with_seen(alloc, kind, parts),
        Kind::Queue | Kind::Stack | Kind::Pqueue => Ok(parts),
        Kind::IntSet | Kind::Map | Kind::Counter => Ok(parts),
    }
}

// The parts with one at the end that lacks calls of the last one that are read-only or that no call
// which stays can tell, where there is one.
fn with_seen(alloc: Global, kind: Kind, parts: Parts) -> Result<Parts, NoMemory>
    requires { AreParts kind parts }
    ensures { IfOk result (AreParts kind) }
{
    let seen = without_unseen(alloc, kind, &parts.last.book)?;
    with_part(alloc, kind, parts, seen, Rule::Unseen)
}

// The book as the only part, without steps.
fn whole(alloc: Global, kind: Kind, book: &Book) -> Result<Parts, NoMemory>
    requires { ¬ HasLegalOrder (kind_spec kind) book.now }
    ensures { IfOk result (AreParts kind) }
{
    let _kind = kind;
    let last = Smaller {
        book: book.copy(alloc)?,
        numbers: numbers_of_all(alloc, book)?,
    };
    Ok(Parts {
        steps: Vec::new(alloc),
        earlier: Vec::new(alloc),
        last,
    })
}

// The parts with a part of the last one at the end, where there is one. Its numbers are those that
// its calls have in the last part.
fn with_part(
    alloc: Global,
    kind: Kind,
    parts: Parts,
    next: Option<Smaller>,
    rule: Rule,
) -> Result<Parts, NoMemory>
    requires parts { AreParts kind parts }
    requires next { IfSome next (λ smaller. ¬ HasLegalOrder (kind_spec kind) smaller.book) }
    ensures { IfOk result (AreParts kind) }
{
    let Some(next) = next else {
        return Ok(parts);
    };
    let left = Smaller {
        numbers: names_of(alloc, &parts.last, &next)?,
        book: next.book,
    };
    let mut steps = parts.steps;
    let mut earlier = parts.earlier;
    let count = steps.len();
    push_rule(alloc, kind, &parts.last, &left, rule, &mut steps)?;
    earlier.push(Part {
        left: parts.last,
        steps: count,
    })?;
    Ok(Parts {
        steps,
        earlier,
        last: left,
    })
}

// The numbers in the book of the calls of a part of a part.
fn names_of(alloc: Global, part: &Smaller, next: &Smaller) -> Result<Vec<Vec<u64>>, NoMemory> {
    let mut rows = Vec::new(alloc);
    for caller in 0..next.book.callers() {
        rows.push(picked(alloc, numbers_of(part, caller), numbers_of(next, caller))?)?;
    }
    Ok(rows)
}

// The numbers at these places of a list.
fn picked(alloc: Global, numbers: &[u64], places: &[u64]) -> Result<Vec<u64>, NoMemory> {
    let mut found = Vec::new(alloc);
    for place in places {
        if let Some(number) = numbers.get(*place as usize) {
            found.push(*number)?;
        }
    }
    Ok(found)
}

// Appends the steps by a rule that lead from a part to a smaller one.
fn push_rule(
    alloc: Global,
    kind: Kind,
    part: &Smaller,
    left: &Smaller,
    rule: Rule,
    steps: &mut Vec<Step>,
) -> Result<(), NoMemory>
    requires { AllByRecursion HasCounts (steps_said steps.old.items) }
    ensures { OnOk result (AllByRecursion HasCounts (steps_said steps.new.items)) }
{
    match rule {
        Rule::Cut => push_step(steps, cut_step(left)),
        Rule::Keys => {
            let step = keys_step(alloc, kind, part, left)?;
            push_step(steps, step)
        }
        Rule::Unseen => push_unseen(alloc, kind, part, left, steps),
    }
}
