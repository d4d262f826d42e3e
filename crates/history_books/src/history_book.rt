ghost use Rattle.std.specs.Prelude.{◌≡◌, ◌≤◌, IfOk, IfErr};
ghost use Rattle.book_base.specs.declared.TheConstants.{MAX_CALLERS};
ghost use Rattle.history_books.specs.Calls.{IsInOrder};
ghost use Rattle.history_books.specs.BookOf.{IsBookOf};
ghost use Rattle.history_books.specs.Causes.{IsCause, IsCauseFor};

use crate::sweep::Sweep;
use crate::timed_call::TimedCall;
use book_base::{Book, Call, MAX_CALLERS, NoMemory};
use std::alloc::Global;
use thiserror::Error;

/// The book of some calls, and the name of each call there, in the order of the calls.
#[derive(Debug, Drop)]
pub struct HistoryBook {
    pub book: Book,
    pub names: Vec<Call>,
}

/// Why calls have no book.
#[derive(Clone, Copy, Debug, PartialEq, Eq, Error)]
pub enum HistoryError {
    /// Each caller has a call that is pending when the call at this place is invoked.
    #[error("call {0} is invoked while as many calls are pending as there may be callers")]
    TooMany(usize),
    /// When the call at this place is invoked, each caller that has no pending call has as many
    /// calls as a caller may have.
    #[error("call {0} has no place: each caller without a pending call is full")]
    Long(usize),
    /// Want of memory.
    #[error("out of memory")]
    NoMemory,
}

impl From<NoMemory> for HistoryError {
    ghost use Rattle.std.specs.Prelude.{◌≡◌};
    ghost use Rattle.history_books.specs.declared.history_book.HistoryError.{HistoryError};

    ghost from_gives = { λ _ e. e ≡ HistoryError.NoMemory };

    fn from(_e: NoMemory) -> HistoryError {
        HistoryError::NoMemory
    }
}

// The book of the calls with this many callers.
fn book_with(alloc: Global, callers: u32, calls: &[TimedCall]) -> Result<HistoryBook, HistoryError>
    requires some { 1 ≤ callers }
    requires few { callers ≤ MAX_CALLERS }
    requires order { IsInOrder calls.now }
    ensures book { IfOk result (λ made. IsBookOf calls.now made.book made.names.items) }
    ensures cause { IfErr result (IsCauseFor callers calls.now) }
{
    let mut sweep = Sweep::new(alloc, callers)?;
    for (place, call) in calls.iter().enumerate() {
        sweep.settle(calls)?;
        match sweep.free_caller(call.process) {
            Some(caller) => sweep.add(calls, call, caller)?,
            None => return Err(sweep.none_free(calls, place)),
        }
    }
    sweep.settle(calls)?;
    Ok(HistoryBook {
        book: sweep.book,
        names: sweep.names,
    })
}

// How many callers the calls have where each process is a caller of its own, and goes on as a
// further one after a call that it lost; at least one, and at most as many as there may be.
fn callers_wanted(alloc: Global, calls: &[TimedCall]) -> Result<u32, NoMemory>
    ensures some { IfOk result (λ callers. 1 ≤ callers) }
    ensures few { IfOk result (λ callers. callers ≤ MAX_CALLERS) }
{
    let mut wanted: u32 = 0;
    let mut users: Vec<u64> = Vec::new(alloc);
    for call in calls {
        if !users.contains(&call.process) {
            wanted = wanted.saturating_add(1);
            users.push(call.process)?;
        }
        if call.answer.is_none() {
            users.retain(|user| *user != call.process);
        }
    }
    Ok(wanted.clamp(1, MAX_CALLERS as u32))
}

/// The book of the calls, and the name of each call there.
///
/// The calls are given to at most [`MAX_CALLERS`] callers. A process is a caller as long as that
/// fits; after a call that it lost it goes on as another one.
pub fn book_of(alloc: Global, calls: &[TimedCall]) -> Result<HistoryBook, HistoryError>
    // The calls are listed by their invocations, and no call returns before it is invoked.
    requires { IsInOrder calls.now }
    // The book that is answered has exactly the calls, with their replies and their precedence.
    ensures book { IfOk result (λ made. IsBookOf calls.now made.book made.names.items) }
    // An error names the call that no caller can take, or says want of memory.
    ensures cause { IfErr result (IsCause calls.now) }
{
    let callers = callers_wanted(alloc, calls)?;
    match book_with(alloc, callers, calls) {
        Err(HistoryError::NoMemory) => Err(HistoryError::NoMemory),
        Err(_) => book_with(alloc, MAX_CALLERS as u32, calls),
        Ok(made) => Ok(made),
    }
}
