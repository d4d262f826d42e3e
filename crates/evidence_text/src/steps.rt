//! The steps of a refutation that lead from a part of a book to a smaller one. Both have with each
//! call the number that it has in the book.

ghost use Rattle.std.specs.Prelude.{◌<◌, length, IfOk, OnOk};
ghost use Rattle.std.specs.List.{AllByRecursion};
ghost use Rattle.refutation_text.specs.Said.{step_said, steps_said};
ghost use Rattle.evidence_text.specs.Written.{HasCounts};

use book_base::{Call, Cut, MAX_CALLERS, NoMemory};
use refutation_text::Step;
use seq_objects::Kind;
use smaller_book::{Smaller, calls_of_all, is_read_only, keys_of};
use std::alloc::Global;

/// The step back to a cut that leaves a part: of each caller the calls up to its last answered one
/// keep their replies.
pub(crate) fn cut_step(left: &Smaller) -> Step
    // The step has 16 counts.
    ensures { HasCounts (step_said result) }
{
    let mut counts = Cut::zero(MAX_CALLERS as u32);
    for caller in 0..left.book.callers() {
        counts.set(caller, count_of(left, caller));
    }
    Step::At(counts)
}

// One more than the number in the book of the last answered call of a caller, or 0 where no call of
// the caller is answered.
fn count_of(left: &Smaller, caller: u32) -> u64
    requires { caller < length left.now.book }
{
    let answers = left.book.answers(caller) as usize;
    match numbers_of(left, caller)[..].get(answers.saturating_sub(1)) {
        Some(number) if answers > 0 => number.saturating_add(1),
        _ => 0,
    }
}

/// The step that takes the calls of some keys: it names the keys that go, or those that stay where
/// these are fewer.
pub(crate) fn keys_step(
    alloc: Global,
    kind: Kind,
    part: &Smaller,
    left: &Smaller,
) -> Result<Step, NoMemory>
    // The step isn't one back to a cut.
    ensures { IfOk result (λ step. HasCounts (step_said step)) }
{
    let stay = keys_of(alloc, kind, &left.book)?;
    let mut go = Vec::new(alloc);
    for key in &keys_of(alloc, kind, &part.book)? {
        if !stay.contains(key) {
            go.push(*key)?;
        }
    }
    if go.len() <= stay.len() {
        Ok(Step::Without(go))
    } else {
        Ok(Step::Only(stay))
    }
}

/// Appends steps that take the calls that go, of which each is read-only or no call that stays can
/// tell what it sets: a step for each call where all are read-only and twice as many stay, and else
/// one that names those that stay.
pub(crate) fn push_unseen(
    alloc: Global,
    kind: Kind,
    part: &Smaller,
    left: &Smaller,
    steps: &mut Vec<Step>,
) -> Result<(), NoMemory>
    // Each step back to a cut has 16 counts.
    requires { AllByRecursion HasCounts (steps_said steps.old.items) }
    ensures { OnOk result (AllByRecursion HasCounts (steps_said steps.new.items)) }
{
    let stay = calls_of_all(&left.book);
    let go = calls_of_all(&part.book).saturating_sub(stay);
    if go <= stay / 2 && lacks_read_only_alone(kind, part, left) {
        push_leaves(part, left, steps)
    } else {
        push_step(steps, Step::Keep(calls_of(alloc, left)?))
    }
}

// Whether each call that goes is read-only.
fn lacks_read_only_alone(kind: Kind, part: &Smaller, left: &Smaller) -> bool {
    for caller in 0..part.book.callers() {
        if !caller_lacks_read_only_alone(kind, part, left, caller) {
            return false;
        }
    }
    true
}

// Whether each call of a caller that goes is read-only.
fn caller_lacks_read_only_alone(kind: Kind, part: &Smaller, left: &Smaller, caller: u32) -> bool
    requires { caller < length part.now.book }
{
    let stay = numbers_of(left, caller);
    let numbers = numbers_of(part, caller);
    for place in 0..part.book.calls(caller) {
        if let Some(number) = numbers.get(place as usize) {
            let call = Call {
                caller,
                number: place,
            };
            if !stay.contains(number) && !is_read_only(kind, &part.book, call) {
                return false;
            }
        }
    }
    true
}

// The calls of a part, with the numbers that come with it.
fn calls_of(alloc: Global, left: &Smaller) -> Result<Vec<Call>, NoMemory> {
    let mut calls = Vec::new(alloc);
    for caller in 0..left.book.callers() {
        push_calls_of(left, caller, &mut calls)?;
    }
    Ok(calls)
}

// Appends the calls of a caller in a part, with the numbers that come with it.
fn push_calls_of(left: &Smaller, caller: u32, calls: &mut Vec<Call>) -> Result<(), NoMemory> {
    for number in numbers_of(left, caller) {
        calls.push(Call {
            caller,
            number: *number,
        })?;
    }
    Ok(())
}

/// Appends a step for each call that goes, which is read-only.
fn push_leaves(part: &Smaller, left: &Smaller, steps: &mut Vec<Step>) -> Result<(), NoMemory>
    // Each step back to a cut has 16 counts.
    requires { AllByRecursion HasCounts (steps_said steps.old.items) }
    ensures { OnOk result (AllByRecursion HasCounts (steps_said steps.new.items)) }
{
    for caller in 0..part.book.callers() {
        push_leaves_of(part, left, caller, steps)?;
    }
    Ok(())
}

// Appends a step for each call of a caller that goes.
fn push_leaves_of(
    part: &Smaller,
    left: &Smaller,
    caller: u32,
    steps: &mut Vec<Step>,
) -> Result<(), NoMemory>
    requires { AllByRecursion HasCounts (steps_said steps.old.items) }
    ensures { OnOk result (AllByRecursion HasCounts (steps_said steps.new.items)) }
{
    let stay = numbers_of(left, caller);
    for number in numbers_of(part, caller) {
        if !stay.contains(number) {
            push_step(
                steps,
                Step::Leave(Call {
                    caller,
                    number: *number,
                }),
            )?;
        }
    }
    Ok(())
}

/// Appends a step.
pub(crate) fn push_step(steps: &mut Vec<Step>, step: Step) -> Result<(), NoMemory>
    requires before { AllByRecursion HasCounts (steps_said steps.old.items) }
    requires step { HasCounts (step_said step) }
    ensures { OnOk result (AllByRecursion HasCounts (steps_said steps.new.items)) }
{
    steps.push(step)?;
    Ok(())
}

/// The numbers that come with a part for a caller's calls.
pub(crate) fn numbers_of(left: &Smaller, caller: u32) -> &[u64] {
    match left.numbers.get(caller as usize) {
        Some(numbers) => numbers,
        None => &[],
    }
}
