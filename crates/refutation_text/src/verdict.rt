//! What a refutation shows of its book.

ghost use Rattle.std.specs.Prelude.{◌≡◌, ◌⊎◌, ◌↔◌, ℕ, IfOk, IfErr, IfSome, IfNone, IsTrue, MatchResult};
ghost use Rattle.book_base.specs.declared.fault.TextFault.{TextFault};
ghost use Rattle.book_base.specs.declared.call.Call.{Call};
ghost use Rattle.book_base.specs.Book.{IsCall};
ghost use Rattle.seq_objects.specs.Objects.{kind_spec};
ghost use Rattle.refutations.specs.Impossible.{IsImpossible};
ghost use Rattle.text_fields.specs.Faults.{IsFaultOf};
ghost use Rattle.smaller_book.specs.Numbers.{numbers_in};
ghost use Rattle.level_refutations.specs.Said.{entries_said};
ghost use Rattle.refutation_text.specs.RefutationRules.{IsFirstRefutationFault};
ghost use Rattle.refutation_text.specs.Said.{Impossible, Takes, Find, Pairs, Levels, steps_said, ending_said};
ghost use Rattle.refutation_text.specs.Steps.{AreNamesOf, IsCalled};
ghost use Rattle.refutation_text.specs.Verdicts.{IsShown, EndingFails, LevelsFail, step_fault, pairs_fault, IsVerdictOf, IsRefutationVerdict, IsOfIllegalBook};

use crate::fault::RefutationFault;
use crate::part_steps::{StepFault, call_in, number_of, part_of};
use crate::reader::read_refutation;
use crate::refutation::{Ending, Refutation};
use book_base::{Book, Call, NoMemory, ReadFault};
use level_refutations::{LevelEntry, check_levels};
use pair_refutations::{PairEntry, PairFault, check_pairs};
use refutations::{
    check_closed, find_misses_puts, has_impossible_reply, holds_values, takes_exceed_puts,
};
use seq_objects::Kind;
use smaller_book::Smaller;
use std::alloc::Global;

/// Whether a refutation is right, and if not its first fault.
#[derive(Clone, Copy, Debug, PartialEq, Eq)]
pub enum RefutationVerdict {
    /// The book has no legal order, as the refutation shows.
    Illegal,
    /// The refutation shows nothing, for this fault.
    Faulty(RefutationFault),
}

/// Judges the refutation that the bytes are the text of.
///
/// A fault of the text names the first wrong line, and the first test that this line fails.
pub fn refute(alloc: Global, bytes: &[u8]) -> Result<RefutationVerdict, ReadFault>
    // A verdict that is answered is the one on the refutation whose text the bytes are.
    ensures verdict { IfOk result (IsRefutationVerdict bytes.now) }
    // The answer `Illegal` comes only where the book of the text has no legal order.
    ensures illegal { IfOk result (λ verdict.
        verdict ≡ RefutationVerdict.Illegal → IsOfIllegalBook bytes.now) }
    // A refusal has the first fault of the bytes as the text of a refutation, or says want of
    // memory.
    ensures refused { IfErr result (IsFaultOf (IsFirstRefutationFault bytes.now)) }
    // Where the bytes are the text of a refutation, the answer is the verdict on it, unless memory
    // runs out.
    ensures only { (verdict : RefutationVerdict) → IsRefutationVerdict bytes.now verdict
        → MatchResult result (λ v. v ≡ verdict) (λ e. e ≡ ReadFault.NoMemory) }
    // Where the bytes have a first fault, the answer is that fault, unless memory runs out.
    ensures first { (fault : TextFault) → IsFirstRefutationFault bytes.now fault
        → MatchResult result (λ _. ⊥)
        (λ e. (e ≡ ReadFault.Text fault) ⊎ (e ≡ ReadFault.NoMemory)) }
{
    judged(alloc, bytes)
}

// Reads the refutation, and judges it.
#[tactic(auto, using(crate::proofs::Readings::verdict_from_judged))]
fn judged(alloc: Global, bytes: &[u8]) -> Result<RefutationVerdict, ReadFault>
    ensures verdict { IfOk result (IsRefutationVerdict bytes.now) }
    ensures refused { IfErr result (IsFaultOf (IsFirstRefutationFault bytes.now)) }
{
    let read = read_refutation(alloc, bytes)?;
    Ok(judge(alloc, read)?)
}

// What a refutation shows.
#[tactic(auto, using(crate::proofs::Judging::step_verdict, crate::proofs::Judging::ending_verdict, crate::proofs::Judging::right_verdict))]
fn judge(alloc: Global, read: Refutation) -> Result<RefutationVerdict, NoMemory>
    ensures { IfOk result (IsVerdictOf read.kind read.book (steps_said read.steps.items)
        (ending_said read.ending)) }
{
    let Refutation {
        kind,
        book,
        steps,
        ending,
    } = read;
    let count = steps.len() as u64;
    match part_of(alloc, kind, book, &steps)? {
        Err((s, why)) => Ok(RefutationVerdict::Faulty(fault_of_step(s, why))),
        Ok(left) => match fault_of_ending(alloc, kind, &left, count, &ending)? {
            Some(fault) => Ok(RefutationVerdict::Faulty(fault)),
            None => Ok(RefutationVerdict::Illegal),
        },
    }
}

// The fault of a refutation with a step that can't be made.
fn fault_of_step(s: u64, why: StepFault) -> RefutationFault
    ensures { result ≡ step_fault s why }
{
    match why {
        StepFault::Lacks => RefutationFault::Lacks(s),
        StepFault::Open => RefutationFault::Open(s),
        StepFault::Changes => RefutationFault::Changes(s),
    }
}

// Why what an ending says of a part isn't so.
fn fault_of_ending(
    alloc: Global,
    kind: Kind,
    left: &Smaller,
    steps: u64,
    ending: &Ending,
) -> Result<Option<RefutationFault>, NoMemory>
    requires { AreNamesOf (numbers_in left.now.numbers.items) left.now.book }
    ensures fault { IfOk result (λ found. IfSome found
        (EndingFails kind (numbers_in left.now.numbers.items) left.now.book steps
        (ending_said ending.now))) }
    ensures shown { IfOk result (λ found. IfNone found
        (IsShown kind (numbers_in left.now.numbers.items) left.now.book (ending_said ending.now))) }
{
    match ending {
        Ending::Impossible(named) => Ok(fault_of_reply(kind, left, steps, *named)),
        Ending::CountsTakes(value, moment) => fault_of_takes(alloc, kind, left, *value, *moment),
        Ending::CountsFind(caller, number, values) => {
            fault_of_find(alloc, kind, left, steps, *caller, *number, values)
        }
        Ending::Closed(entries) => match check_closed(alloc, &kind, &left.book, entries)? {
            Ok(()) => Ok(None),
            Err(fault) => Ok(Some(RefutationFault::Closed(fault))),
        },
        Ending::Pairs(entries) => fault_of_pairs(alloc, kind, left, steps, entries),
        Ending::Levels(entries) => fault_of_levels(alloc, kind, left, entries),
    }
}

// Why a call's reply isn't impossible.
fn fault_of_reply(kind: Kind, left: &Smaller, steps: u64, named: Call) -> Option<RefutationFault>
    requires { AreNamesOf (numbers_in left.now.numbers.items) left.now.book }
    ensures fault { IfSome result (EndingFails kind
        (numbers_in left.now.numbers.items) left.now.book steps (Impossible named)) }
    ensures shown { IfNone result (IsShown kind
        (numbers_in left.now.numbers.items) left.now.book (Impossible named)) }
{
    let Some(call) = call_in(left, named) else {
        return Some(RefutationFault::Lacks(steps));
    };
    if is_impossible(kind, &left.book, call) {
        None
    } else {
        Some(RefutationFault::Possible)
    }
}

// Whether a call is answered, and no list gives its operation its reply.
fn is_impossible(kind: Kind, book: &Book, call: Call) -> bool
    requires { IsCall book.now call }
    ensures { IsTrue result ↔ IsImpossible (kind_spec kind) book.now call }
{
    call.number < book.answers(call.caller) && has_impossible_reply(kind, book, call)
}

// Why counts of takes and puts of a value up to a moment don't refute a book.
fn fault_of_takes(
    alloc: Global,
    kind: Kind,
    left: &Smaller,
    value: u64,
    moment: u64,
) -> Result<Option<RefutationFault>, NoMemory>
    ensures fault { IfOk result (λ found. IfSome found (λ fault. (s : ℕ) → EndingFails kind
        (numbers_in left.now.numbers.items) left.now.book s (Takes value moment) fault)) }
    ensures shown { IfOk result (λ found. IfNone found (IsShown kind
        (numbers_in left.now.numbers.items) left.now.book (Takes value moment))) }
{
    if !holds_values(kind) {
        return Ok(Some(RefutationFault::Kind));
    }
    if takes_exceed_puts(alloc, kind, &left.book, &[value], moment)? {
        Ok(None)
    } else {
        Ok(Some(RefutationFault::Possible))
    }
}

// Why counts of puts before a call that finds nothing don't refute a book.
fn fault_of_find(
    alloc: Global,
    kind: Kind,
    left: &Smaller,
    steps: u64,
    caller: u64,
    number: u64,
    values: &[u64],
) -> Result<Option<RefutationFault>, NoMemory>
    requires { AreNamesOf (numbers_in left.now.numbers.items) left.now.book }
    ensures fault { IfOk result (λ found. IfSome found (EndingFails kind
        (numbers_in left.now.numbers.items) left.now.book steps
        (Find (record { caller = caller; number = number }) values.now))) }
    ensures shown { IfOk result (λ found. IfNone found (IsShown kind
        (numbers_in left.now.numbers.items) left.now.book
        (Find (record { caller = caller; number = number }) values.now))) }
{
    if !holds_values(kind) {
        return Ok(Some(RefutationFault::Kind));
    }
    let Some(find) = any_call_in(left, caller, number) else {
        return Ok(Some(RefutationFault::Lacks(steps)));
    };
    if find_misses_puts(alloc, kind, &left.book, values, find)? {
        Ok(None)
    } else {
        Ok(Some(RefutationFault::Possible))
    }
}

// The call of a part that is, in the book, the one with any caller and number.
fn any_call_in(left: &Smaller, caller: u64, number: u64) -> Option<Call>
    requires { AreNamesOf (numbers_in left.now.numbers.items) left.now.book }
    ensures found { IfSome result (IsCalled (numbers_in left.now.numbers.items) left.now.book
        (record { caller = caller; number = number })) }
    ensures none { IfNone result ((call : Call) → IsCalled (numbers_in left.now.numbers.items)
        left.now.book (record { caller = caller; number = number }) call → ⊥) }
{
    if caller >= u64::from(left.book.callers()) {
        return None;
    }
    let caller = caller as u32;
    call_in(left, Call { caller, number })
}

// Why entries that make standings don't refute a queue's book.
fn fault_of_pairs(
    alloc: Global,
    kind: Kind,
    left: &Smaller,
    steps: u64,
    entries: &[PairEntry],
) -> Result<Option<RefutationFault>, NoMemory>
    requires { AreNamesOf (numbers_in left.now.numbers.items) left.now.book }
    ensures fault { IfOk result (λ found. IfSome found (EndingFails kind
        (numbers_in left.now.numbers.items) left.now.book steps (Pairs entries.now))) }
    ensures shown { IfOk result (λ found. IfNone found (IsShown kind
        (numbers_in left.now.numbers.items) left.now.book (Pairs entries.now))) }
{
    if !is_queue(kind) {
        return Ok(Some(RefutationFault::Kind));
    }
    match check_pairs(alloc, &left.book, entries)? {
        Ok(()) => Ok(None),
        Err(why) => Ok(Some(pairs_fault(left, steps, why))),
    }
}

// Whether an object is a queue.
fn is_queue(kind: Kind) -> bool
    ensures { IsTrue result ↔ (kind ≡ Kind.Queue) }
{
    matches!(kind, Kind::Queue)
}

// The fault of a refutation whose entries fail a test of standings.
fn pairs_fault(left: &Smaller, steps: u64, why: PairFault) -> RefutationFault
    requires names { AreNamesOf (numbers_in left.now.numbers.items) left.now.book }
    requires call { (call : Call) → why ≡ PairFault.Odd call → IsCall left.now.book call }
    ensures { result ≡ pairs_fault (numbers_in left.now.numbers.items) steps why }
{
    match why {
        PairFault::Open => RefutationFault::Open(steps),
        PairFault::Odd(call) => RefutationFault::Pairs(PairFault::Odd(Call {
            caller: call.caller,
            number: number_of(left, call),
        })),
        PairFault::Unlisted(e) => RefutationFault::Pairs(PairFault::Unlisted(e)),
        PairFault::Whole(e) => RefutationFault::Pairs(PairFault::Whole(e)),
        PairFault::Leads(e, by) => RefutationFault::Pairs(PairFault::Leads(e, by)),
    }
}

// Why entries of a table of levels don't refute a stack's book.
fn fault_of_levels(
    alloc: Global,
    kind: Kind,
    left: &Smaller,
    entries: &[LevelEntry],
) -> Result<Option<RefutationFault>, NoMemory>
    ensures fault { IfOk result (λ found. IfSome found
        (LevelsFail kind left.now.book (entries_said entries.now))) }
    ensures shown { IfOk result (λ found. IfNone found (IsShown kind
        (numbers_in left.now.numbers.items) left.now.book (Levels (entries_said entries.now)))) }
{
    if !is_stack(kind) {
        return Ok(Some(RefutationFault::Kind));
    }
    match check_levels(alloc, &left.book, entries)? {
        Ok(()) => Ok(None),
        Err(why) => Ok(Some(RefutationFault::Levels(why))),
    }
}

// Whether an object is a stack.
fn is_stack(kind: Kind) -> bool
    ensures { IsTrue result ↔ (kind ≡ Kind.Stack) }
{
    matches!(kind, Kind::Stack)
}
