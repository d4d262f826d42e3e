//! A book that is made call by call, in the order of invocations: before each call the calls are
//! answered that returned before it was invoked, with the calls so far as their view.

ghost use Rattle.std.specs.Prelude.{◌≡◌, ℕ, ◌+◌, ◌<◌, ◌≤◌, List, [], Option, length, replicate, slice_get, IfOk, IfSome, IfNone, OnOk, IsTrue, ◌↔◌};
ghost use Rattle.book_base.specs.Book.{announced, IsValid, with_call};
ghost use Rattle.book_base.specs.declared.TheConstants.{MAX_CALLERS, MAX_CALLS};
ghost use Rattle.history_books.specs.declared.timed_call.TimedCall.{TimedCall};
ghost use Rattle.history_books.specs.declared.timed_call.Answer.{Answer};
ghost use Rattle.history_books.specs.Calls.{IsInOrder, IsDue};
ghost use Rattle.history_books.specs.Causes.{IsCauseFor};
ghost use Rattle.history_books.specs.Sweep.{IsSwept, IsNotDue, NoneIsDue, IsFree, HasIdle, SameBut};

use crate::history_book::HistoryError;
use crate::timed_call::{Answer, TimedCall};
use book_base::{Book, Call, Cut, MAX_CALLS, NoMemory, OpWord};
use sketch::announced;
use std::alloc::Global;

// The book so far; the name of each call so far in it; the pending call of each caller, by its
// place among the calls; and the process that each caller's last call is of.
#[derive(Drop)]
pub struct Sweep {
    pub book: Book,
    pub names: Vec<Call>,
    pub pending: Vec<Option<usize>>,
    users: Vec<u64>,
}

// The answer of a pending call that returned before the call at the place `count` was invoked.
// Where there is no such call, each answer is due.
fn due_answer(calls: &[TimedCall], count: usize, pending: Option<usize>) -> Option<Answer>
    requires { IfSome pending (λ j. j < length calls.now) }
    ensures due { IfSome result (λ answer. (j : ℕ) × (call : TimedCall) × (pending ≡ Some j)
        × (slice_get calls.now j ≡ Some call) × (call.answer ≡ Some answer)
        × IsDue calls.now count answer.returned) }
    ensures none { IfNone result (IsNotDue calls.now count pending) }
{
    let answer = calls[pending?].answer?;
    match calls.get(count) {
        Some(next) if next.invoked <= answer.returned => None,
        _ => Some(answer),
    }
}

// Adds a call to a book at the end of a caller's calls, which are fewer than it may have.
fn add_call(book: &mut Book, caller: u32, op: OpWord) -> Result<(), NoMemory>
    requires { caller < length book.old }
    ensures { OnOk result (book.new ≡ with_call book.old caller op) }
{
    match book.add_call(caller, op) {
        Ok(()) => Ok(()),
        Err(_) => Err(NoMemory),
    }
}

// The pending calls of this many callers, of which none has one.
fn no_pending(alloc: Global, callers: u32) -> Result<Vec<Option<usize>>, NoMemory>
    ensures { IfOk result (λ pending. pending.items ≡ replicate callers None) }
{
    let mut pending = Vec::new(alloc);
    for _ in 0..callers {
        pending.push(None)?;
    }
    Ok(pending)
}

// Notes that a caller's last call is of a process.
fn note_user(users: &mut Vec<u64>, caller: u32, process: u64) {
    if let Some(user) = users.get_mut(caller as usize) {
        *user = process;
    }
}

impl Sweep {
    // The book of this many callers, without calls.
    pub fn new(alloc: Global, callers: u32) -> Result<Sweep, NoMemory>
        requires some { 1 ≤ callers }
        requires few { callers ≤ MAX_CALLERS }
        ensures swept { IfOk result (λ sweep. (calls : List TimedCall)
            → IsSwept calls sweep.book sweep.names.items sweep.pending.items) }
        ensures none { IfOk result (λ sweep. sweep.names.items ≡ []) }
        ensures callers { IfOk result (λ sweep. length sweep.book ≡ callers) }
    {
        Ok(Sweep {
            book: Book::new(alloc, callers)?,
            names: Vec::new(alloc),
            pending: no_pending(alloc, callers)?,
            users: vec![in alloc; 0; callers as usize]?,
        })
    }

    // Answers each pending call that returned before the next call was invoked.
    pub fn settle(&mut self, calls: &[TimedCall]) -> Result<(), NoMemory>
        requires order { IsInOrder calls.now }
        requires swept { IsSwept calls.now self.old.book self.old.names.items
            self.old.pending.items }
        ensures swept { OnOk result
            (IsSwept calls.now self.new.book self.new.names.items self.new.pending.items) }
        ensures names { OnOk result (self.new.names.items ≡ self.old.names.items) }
        ensures callers { OnOk result (length self.new.book ≡ length self.old.book) }
        ensures valid { OnOk result (IsValid self.new.book) }
        ensures none { OnOk result
            (NoneIsDue calls.now (length self.new.names.items) self.new.pending.items) }
    {
        let view = announced(&self.book);
        for caller in 0..self.book.callers() {
            self.settle_caller(calls, caller, view)?;
        }
        let _callers = self.book.callers();
        Ok(())
    }

    // Answers a caller's pending call where it returned before the next call was invoked.
    fn settle_caller(&mut self, calls: &[TimedCall], caller: u32, view: Cut) -> Result<(), NoMemory>
        requires order { IsInOrder calls.now }
        requires swept { IsSwept calls.now self.old.book self.old.names.items
            self.old.pending.items }
        requires caller { caller < length self.old.book }
        requires view { view ≡ announced self.old.book }
        ensures swept { OnOk result
            (IsSwept calls.now self.new.book self.new.names.items self.new.pending.items) }
        ensures names { OnOk result (self.new.names.items ≡ self.old.names.items) }
        ensures view { OnOk result (view ≡ announced self.new.book) }
        ensures callers { OnOk result (length self.new.book ≡ length self.old.book) }
        ensures others { OnOk result
            (SameBut caller self.old.pending.items self.new.pending.items) }
        ensures none { OnOk result
            ((pending : Option ℕ) → slice_get self.new.pending.items caller ≡ Some pending
            → IsNotDue calls.now (length self.new.names.items) pending) }
    {
        let _callers = self.book.callers();
        if let Some(answer) = due_answer(calls, self.names.len(), self.pending[caller as usize]) {
            self.book.put_answer(caller, answer.reply, view)?;
            self.pending[caller as usize] = None;
        }
        Ok(())
    }

    // Whether a caller has no pending call, and fewer calls than a caller may have.
    fn is_free(&self, caller: u32) -> bool
        requires wide { length self.now.pending.items ≡ length self.now.book }
        requires caller { caller < length self.now.book }
        ensures { IsTrue result ↔ IsFree self.now.book self.now.pending.items caller }
    {
        self.pending[caller as usize].is_none() && self.book.calls(caller) < MAX_CALLS
    }

    // How a caller is ranked for the next call of a process: first the caller of the process's last
    // call, then those with few calls.
    fn rank(&self, caller: u32, process: u64) -> u64
        requires caller { caller < length self.now.book }
    {
        let calls = self.book.calls(caller);
        if calls > 0 && self.users.get(caller as usize) == Some(&process) {
            0
        } else {
            calls.saturating_add(1)
        }
    }

    // The better one of two free callers, or the second where there is no first.
    fn better(&self, best: Option<u32>, caller: u32, process: u64) -> u32
        requires best { IfSome best (λ other. (other < length self.now.book)
            × IsFree self.now.book self.now.pending.items other) }
        requires caller { caller < length self.now.book }
        requires free { IsFree self.now.book self.now.pending.items caller }
        ensures caller { result < length self.now.book }
        ensures free { IsFree self.now.book self.now.pending.items result }
    {
        match best {
            Some(other) if self.rank(other, process) <= self.rank(caller, process) => other,
            _ => caller,
        }
    }

    // The caller that takes the next call of a process.
    pub fn free_caller(&self, process: u64) -> Option<u32>
        requires { length self.now.pending.items ≡ length self.now.book }
        ensures found { IfSome result (λ caller. (caller < length self.now.book)
            × IsFree self.now.book self.now.pending.items caller) }
        ensures none { IfNone result ((caller : ℕ) → caller < length self.now.book
            → ¬ (IsFree self.now.book self.now.pending.items caller)) }
    {
        let mut best: Option<u32> = None;
        for caller in 0..self.book.callers() {
            if self.is_free(caller) {
                best = Some(self.better(best, caller, process));
            }
        }
        best
    }

    // Whether some caller has no pending call.
    pub fn has_idle(&self) -> bool
        ensures { IsTrue result ↔ HasIdle self.now.pending.items }
    {
        for pending in &self.pending {
            if pending.is_none() {
                return true;
            }
        }
        false
    }

    // Adds the next call, as a call of a free caller.
    pub fn add(
        &mut self,
        calls: &[TimedCall],
        call: &TimedCall,
        caller: u32,
    ) -> Result<(), NoMemory>
        requires order { IsInOrder calls.now }
        requires swept { IsSwept calls.now self.old.book self.old.names.items
            self.old.pending.items }
        requires next { slice_get calls.now (length self.old.names.items) ≡ Some call.now }
        requires caller { caller < length self.old.book }
        requires free { IsFree self.old.book self.old.pending.items caller }
        requires none { NoneIsDue calls.now (length self.old.names.items) self.old.pending.items }
        ensures swept { OnOk result
            (IsSwept calls.now self.new.book self.new.names.items self.new.pending.items) }
        ensures names { OnOk result
            (length self.new.names.items ≡ length self.old.names.items + 1) }
        ensures callers { OnOk result (length self.new.book ≡ length self.old.book) }
    {
        let _callers = self.book.callers();
        let place = self.names.len();
        let number = self.book.calls(caller);
        add_call(&mut self.book, caller, call.op)?;
        self.names.push(Call { caller, number })?;
        self.pending[caller as usize] = Some(place);
        note_user(&mut self.users, caller, call.process);
        Ok(())
    }

    // Why no caller takes the call at a place.
    pub fn none_free(&self, calls: &[TimedCall], place: usize) -> HistoryError
        requires swept { IsSwept calls.now self.now.book self.now.names.items
            self.now.pending.items }
        requires none { NoneIsDue calls.now (length self.now.names.items) self.now.pending.items }
        requires place { place ≡ length self.now.names.items }
        requires call { place < length calls.now }
        requires taken { (caller : ℕ) → caller < length self.now.book
            → ¬ (IsFree self.now.book self.now.pending.items caller) }
        ensures { IsCauseFor (length self.now.book) calls.now result }
    {
        let _callers = self.book.callers();
        if self.has_idle() {
            HistoryError::Long(place)
        } else {
            HistoryError::TooMany(place)
        }
    }
}
