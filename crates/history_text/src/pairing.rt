//! Invocations and their answers: which events have a fault, and the calls that entries make.

ghost use Rattle.std.specs.Prelude.{◌≡◌, ◌+◌, ◌-◌, ◌<◌, ℕ, option_to_list, List, [], ◌∷◌, ◌++◌, Option, None, IfOk, OnOk, bytes_eq, reverse, option_map, length, drop, if◌then◌else◌};
ghost use Rattle.std.specs.HashMap as hash;
ghost use Rattle.history_text.specs.declared.entry.LinedEntry.{LinedEntry};
ghost use Rattle.history_text.specs.declared.event.LinedEvent.{LinedEvent};
ghost use Rattle.history_text.specs.Pairing.{is_invocation, first_event, last_event, pending_by, answer_fault, fault_beside, event_fault, entry_fault, answer_by, call_made, widened, call_by, calls_of};

use crate::call::{LogAnswer, LogCall};
use crate::clock::Clock;
use crate::entry::{Entry, LinedEntry};
use crate::event::{LinedEvent, Stage};
use crate::fault::LogWhat;
use crate::process_events::ProcessEvents;
use book_base::NoMemory;
use std::alloc::Global;

// The invocation of a process's pending call, by its last event.
fn pending(last: Option<LinedEvent<'_>>) -> Option<LinedEvent<'_>>
    ensures { result ≡ pending_by last.entry }
{
    match last {
        Some(last) if last.event.stage == Stage::Invoke => Some(last),
        _ => None,
    }
}

// What is wrong with the answer of a call.
fn wrong_answer(clock: Clock, invoked: &LinedEvent, answer: &LinedEvent) -> Option<LogWhat>
    ensures { result ≡ answer_fault clock invoked.now answer.now }
{
    if invoked.event.operation != answer.event.operation {
        return Some(LogWhat::Operation);
    }
    let latest = clock.latest(answer.moment(clock));
    if answer.event.stage == Stage::Ok && latest < clock.earliest(invoked.moment(clock)) {
        return Some(LogWhat::Time);
    }
    None
}

// What is wrong with an event of a process that has this pending call.
fn wrong_beside(clock: Clock, lined: &LinedEvent, pending: Option<LinedEvent>) -> Option<LogWhat>
    ensures { result ≡ fault_beside clock lined.now pending.entry }
{
    let invokes = lined.event.stage == Stage::Invoke;
    match pending {
        None if invokes => None,
        None => Some(LogWhat::Unasked),
        Some(_) if invokes => Some(LogWhat::Pending),
        Some(invoked) => wrong_answer(clock, &invoked, lined),
    }
}

// What is wrong with an entry that comes after others, of which the last event of each process is
// known.
pub fn wrong_entry(clock: Clock, last: &ProcessEvents, entry: &LinedEntry) -> Option<LogWhat>
    ensures { (earlier : List LinedEntry)
        → ((process : List ℕ) → hash.get_by (λ key. bytes_eq process key.now) last.now.events
        ≡ last_event process earlier)
        → result ≡ entry_fault clock earlier entry.now.line entry.now.entry }
{
    let Entry::OfCall(event) = entry.entry else {
        return None;
    };
    if clock.moment_of(entry.line, event.time).is_none() {
        return Some(LogWhat::Time);
    }
    let lined = LinedEvent {
        line: entry.line,
        event,
    };
    wrong_beside(clock, &lined, pending(last.of(event.process)))
}

// The answer of a call, by the next event of its process.
fn answer_of(clock: Clock, next: Option<LinedEvent<'_>>) -> Option<LogAnswer<'_>>
    ensures { result ≡ answer_by clock next.entry }
{
    match next {
        Some(next) if next.event.stage == Stage::Ok => Some(LogAnswer {
            line: next.line,
            returned: clock.latest(next.moment(clock)),
            value: next.event.value,
        }),
        _ => None,
    }
}

// The call that an invocation makes, by the next event of its process.
fn made<'a>(
    clock: Clock,
    invoked: LinedEvent<'a>,
    next: Option<LinedEvent<'a>>,
) -> Option<LogCall<'a>>
    ensures { result ≡ call_made clock invoked.entry next.entry }
{
    if let Some(next) = next {
        if next.event.stage == Stage::Fail {
            return None;
        }
    }
    Some(LogCall {
        process: Some(invoked.event.process),
        key: invoked.event.key,
        operation: invoked.event.operation,
        value: invoked.event.value,
        arguments: invoked.event.arguments,
        line: invoked.line,
        invoked: clock.earliest(invoked.moment(clock)),
        answer: answer_of(clock, next),
    })
}

// The call that an event makes, by the next event of its process.
fn of_event<'a>(
    clock: Clock,
    lined: LinedEvent<'a>,
    next: Option<LinedEvent<'a>>,
) -> Option<LogCall<'a>>
    ensures { result ≡ (if is_invocation lined.entry.event.stage
        then call_made clock lined.entry next.entry else None) }
{
    if lined.event.stage == Stage::Invoke {
        made(clock, lined, next)
    } else {
        None
    }
}

// A whole call, as wide as the clock's error makes it.
fn wide(clock: Clock, call: LogCall<'_>) -> LogCall<'_>
    ensures { result ≡ widened clock call.entry }
{
    let answer = match call.answer {
        None => None,
        Some(answer) => Some(LogAnswer {
            line: answer.line,
            returned: clock.latest(answer.returned),
            value: answer.value,
        }),
    };
    LogCall {
        process: call.process,
        key: call.key,
        operation: call.operation,
        value: call.value,
        arguments: call.arguments,
        line: call.line,
        invoked: clock.earliest(call.invoked),
        answer,
    }
}

// The call that an entry makes before others, of which the first event of each process is known.
fn call_of<'a>(
    clock: Clock,
    entry: &LinedEntry<'a>,
    next: &ProcessEvents<'a>,
) -> Option<LogCall<'a>>
    ensures { (later : List LinedEntry)
        → ((process : List ℕ) → hash.get_by (λ key. bytes_eq process key.now) next.now.events
        ≡ first_event process later)
        → result ≡ call_by clock entry.now.line entry.now.entry later }
{
    match entry.entry {
        Entry::OfCall(event) => {
            let lined = LinedEvent {
                line: entry.line,
                event,
            };
            of_event(clock, lined, next.of(event.process))
        }
        Entry::Whole(call) => Some(wide(clock, call)),
        Entry::Other => None,
    }
}

// The entry that comes before as many last ones.
#[tactic(auto, using(crate::proofs::Stepping::drop_back))]
fn before_last<'a, 'b>(entries: &'b [LinedEntry<'a>], done: usize) -> &'b LinedEntry<'a>
    requires { done < length entries.now }
    ensures { drop (length entries.entry.now - (done + 1)) entries.entry.now
        ≡ result.now ∷ drop (length entries.entry.now - done) entries.entry.now }
{
    &entries[entries.len() - 1 - done]
}

// Adds a call, where there is one.
fn add<'a>(calls: &mut Vec<LogCall<'a>>, call: Option<LogCall<'a>>) -> Result<(), NoMemory>
    ensures { OnOk result
        (calls.new.items ≡ calls.old.items ++ option_to_list call.entry) }
{
    if let Some(call) = call {
        calls.push(call)?;
    }
    Ok(())
}

/// The calls of some entries that took effect or may have done so, in the order of their invocations
/// in the log.
pub fn calls<'a>(
    alloc: Global,
    clock: Clock,
    entries: &[LinedEntry<'a>],
) -> Result<Vec<LogCall<'a>>, NoMemory>
    ensures { IfOk result (λ calls. calls.items ≡ calls_of clock entries.now) }
{
    let mut calls = Vec::new(alloc);
    let mut next = ProcessEvents::new(alloc);
    for done in 0..entries.len() {
        let entry = before_last(entries, done);
        let call = call_of(clock, entry, &next);
        add(&mut calls, call)?;
        next.note(entry)?;
    }
    calls.reverse();
    Ok(calls)
}
