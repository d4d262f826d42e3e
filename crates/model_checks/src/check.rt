ghost use Rattle.std.specs.Prelude.{◌≡◌, ◌↔◌, ℕ, ◌+◌, ◌≤◌, ◌<◌, [], None, Some, length, map, IsTrue, IsSome, IfSome, IfOk, IfErr, OnOk, OnErr};
ghost use Rattle.std.specs.List.{AllByRecursion};
ghost use Rattle.book_base.specs.declared.TheConstants.{MAX_CALLERS, MAX_CALLS};
ghost use Rattle.book_base.specs.Order.{call_at};
ghost use Rattle.book_base.specs.Book.{IsValid, calls_of, answers_of, announced, with_answer};
ghost use Rattle.seq_objects.specs.Replies.{reply_value};
ghost use Rattle.told_models.specs.Table.{TellsStep, TakesPromise, IsTellFault, IsPromiseFault};
ghost use Rattle.told_models.specs.Searching.{IsSearch};
ghost use Rattle.told_models.specs.Weighing.{weight_of};
ghost use Rattle.model_checks.specs.declared.answer.ModelAnswer.{ModelAnswer};
ghost use Rattle.model_checks.specs.Words.{operation_word};
ghost use Rattle.model_checks.specs.History.{Event, Begins, Ends, MayBegin, MayEnd, book_with, book_without_calls};
ghost use Rattle.model_checks.specs.Checks.{IsSoundCheck, IsRightFor, HasOrder, IsOrderOf, IsEvidenceOf, left_by, HasTried};

use crate::answer::ModelAnswer;
use crate::words::{operation_number, operation_word};
use book_base::{Book, Call, MAX_CALLS, NoMemory, Place};
use model_text::{lines_of, write_model};
use seq_objects::wrapping_value_reply;
use sketch::announced;
use std::alloc::Global;
use told_models::{Answer, PromiseFault, TellFault, ToldSearch, ToldTable, Transition};

/// A check of a history by a model whose steps are asked for.
///
/// The book has the calls that have begun and ended so far. The view of a call counts of each
/// caller the calls that have begun when it ends, so that one call precedes another exactly where
/// its end is told before the other's begin (`laws::precedence_is_told`). What was told of the
/// model stays when more calls are told; the search begins anew then.
#[derive(Drop)]
pub struct ModelCheck {
    pub table: ToldTable,
    pub book: Book,
    pub search: Option<ToldSearch>,
    pub order: Option<Vec<Place>>,
}

impl ModelCheck {
    /// A check of a history of so many callers, before its first call. Nothing was told of the
    /// model, whose initial state has the number 0.
    pub fn new(alloc: Global, callers: u32) -> Result<ModelCheck, NoMemory>
        // There is at least one caller.
        requires some { 1 ≤ callers }
        // There are at most `MAX_CALLERS` callers.
        requires few { callers ≤ MAX_CALLERS }
        // The check is sound.
        ensures sound { IfOk result IsSoundCheck }
        // No call has begun.
        ensures book { IfOk result (λ check. check.book ≡ book_without_calls callers) }
        // Nothing was told, but that the initial state has the number 0.
        ensures table { IfOk result
            (λ check. check.table ≡ record { init = 0; steps = []; promises = [] }) }
        // There is no order.
        ensures order { IfOk result (λ check. check.order ≡ None) }
    {
        Ok(ModelCheck {
            table: ToldTable::new(alloc, 0),
            book: Book::new(alloc, callers)?,
            search: None,
            order: None,
        })
    }

    /// A caller's next call begins, with the operation of this number. The answer is whether it
    /// may.
    pub fn begin(&mut self, caller: u32, op: u32) -> Result<bool, NoMemory>
        // The check is sound.
        requires sound { IsSoundCheck self.old }
        // The check is still sound.
        ensures sound { IsSoundCheck self.new }
        // The answer is true exactly where there is such a caller, its last call has ended, and it
        // has made fewer than `MAX_CALLS` calls.
        ensures when { IfOk result (λ begun. IsTrue begun ↔ MayBegin self.old.book caller) }
        // With true the call has begun, what was told is as before, and there is no order.
        ensures begun { IfOk result (λ begun. IsTrue begun
            → (self.new.book ≡ book_with self.old.book (Begins caller op))
            × (self.new.table ≡ self.old.table) × (self.new.order ≡ None)) }
        // With false nothing has changed.
        ensures unchanged { IfOk result (λ begun. ¬ IsTrue begun → self.new ≡ self.old) }
        // With want of memory the call may begin, and nothing has changed.
        ensures no_memory { IfErr result (λ _.
            MayBegin self.old.book caller × (self.new ≡ self.old)) }
    {
        if !self.may_begin(caller) {
            return Ok(false);
        }
        let Ok(()) = self.book.add_call(caller, operation_word(op)) else {
            return Err(NoMemory);
        };
        self.search = None;
        self.order = None;
        Ok(true)
    }

    /// The caller's call that has begun ends, with the reply of this number. The answer is whether
    /// there is one.
    pub fn end(&mut self, caller: u32, reply: u32) -> Result<bool, NoMemory>
        // The check is sound.
        requires sound { IsSoundCheck self.old }
        // The check is still sound.
        ensures sound { IsSoundCheck self.new }
        // The answer is true exactly where there is such a caller, and a call of it has begun and
        // hasn't ended.
        ensures when { IfOk result (λ ended. IsTrue ended ↔ MayEnd self.old.book caller) }
        // With true the call has ended, what was told is as before, and there is no order.
        ensures ended { IfOk result (λ ended. IsTrue ended
            → (self.new.book ≡ book_with self.old.book (Ends caller reply))
            × (self.new.table ≡ self.old.table) × (self.new.order ≡ None)) }
        // With false nothing has changed.
        ensures unchanged { IfOk result (λ ended. ¬ IsTrue ended → self.new ≡ self.old) }
        // With want of memory the call may end, and nothing has changed.
        ensures no_memory { IfErr result (λ _.
            MayEnd self.old.book caller × (self.new ≡ self.old)) }
    {
        if !self.may_end(caller) {
            return Ok(false);
        }
        let view = announced(&self.book);
        self.book
            .put_answer(caller, wrapping_value_reply(u64::from(reply)), view)?;
        self.search = None;
        self.order = None;
        Ok(true)
    }

    /// Promises that the operation of this number changes no state at which it has the reply of
    /// this number.
    pub fn leaves(&mut self, op: u32, reply: u32) -> Result<(), PromiseFault>
        // The check is sound.
        requires sound { IsSoundCheck self.old }
        // The check is still sound.
        ensures sound { IsSoundCheck self.new }
        // The table has the promise now, and is as before besides.
        ensures promised { IfOk result (λ _. TakesPromise self.old.table self.new.table
            (operation_word op) (reply_value reply)) }
        // All but the table is as before.
        ensures kept { self.new ≡ record self.old { table = self.new.table } }
        // A promise is refused only where a told step breaks it, whose state the refusal names, or
        // for want of memory.
        ensures refusal { IfErr result
            (IsPromiseFault self.old.table (operation_word op) (reply_value reply)) }
        // A refusal changes nothing.
        ensures refused { OnErr result (self.new ≡ self.old) }
    {
        self.table
            .promise(operation_word(op), wrapping_value_reply(u64::from(reply)))
    }

    /// Tells that at this state this operation leads to the state `next`, with this reply, by their
    /// numbers.
    pub fn tell(&mut self, state: u32, op: u32, next: u32, reply: u32) -> Result<(), TellFault>
        // The check is sound.
        requires sound { IsSoundCheck self.old }
        // The check is still sound.
        ensures sound { IsSoundCheck self.new }
        // The table has the step now, and all other steps are as before.
        ensures told { IfOk result (λ _. TellsStep self.old.table self.new.table state
            (operation_word op) (record { next = next; reply = reply_value reply })) }
        // All but the table is as before.
        ensures kept { self.new ≡ record self.old { table = self.new.table } }
        // A step is refused only where another one was told there, where it breaks a promise, or
        // for want of memory.
        ensures refusal { IfErr result (IsTellFault self.old.table state (operation_word op)
            (record { next = next; reply = reply_value reply })) }
        // A refusal changes nothing.
        ensures refused { OnErr result (self.new ≡ self.old) }
    {
        let transition = Transition {
            next: u64::from(next),
            reply: wrapping_value_reply(u64::from(reply)),
        };
        self.table
            .tell(u64::from(state), operation_word(op), transition)
    }

    /// Goes on with the check, by at most so many steps.
    pub fn go_on(&mut self, alloc: Global, steps: u64) -> Result<ModelAnswer, NoMemory>
        // The check is sound.
        requires sound { IsSoundCheck self.old }
        // The check is still sound.
        ensures sound { IsSoundCheck self.new }
        // The answer is right: with `Legal` the check has an order that is legal for each object
        // that agrees with what was told, with `Illegal` no such object has a legal order, and
        // `Ask` names a step of the book that wasn't told.
        ensures answer { IfOk result (IsRightFor self.new) }
        // There is an order only with `Legal`.
        ensures order { IfOk result
            (λ said. IsSome self.new.order → said ≡ ModelAnswer.Legal) }
        // After want of memory there is none.
        ensures none { IfErr result (λ _. self.new.order ≡ None) }
        // The history, and what was told of the model, are as before.
        ensures kept { (self.new.book ≡ self.old.book) × (self.new.table ≡ self.old.table) }
        // With `Paused` what is left to try has become less by as many as there are steps, and it
        // has never become more.
        ensures tried { IfOk result (λ said. HasTried steps self.old said self.new) }
    {
        self.order = None;
        let mut search = resumed(alloc, self.search.take(), &self.table, &self.book)?;
        let said = search.go_on(alloc, &self.table, &self.book, steps)?;
        self.search = Some(search);
        match said {
            Some(Answer::Legal(order)) => {
                self.order = Some(order);
                Ok(ModelAnswer::Legal)
            }
            Some(Answer::Illegal) => Ok(ModelAnswer::Illegal),
            Some(Answer::Ask(state, op)) => {
                Ok(ModelAnswer::Ask(state as u32, operation_number(op)))
            }
            None => Ok(ModelAnswer::Paused),
        }
    }

    /// The calls of the order that the check has found, in their order.
    pub fn calls_in_order(&self, alloc: Global) -> Result<Option<Vec<Call>>, NoMemory>
        // The check is sound.
        requires sound { IsSoundCheck self.now }
        // There are calls exactly where the check has an order.
        ensures when { IfOk result (λ found. IsSome found ↔ HasOrder self.now) }
        // They are those of the order, which is legal for each object that agrees with what was
        // told.
        ensures order { IfOk result
            (λ found. IfSome found (λ calls. IsOrderOf calls.items self.now)) }
        // The numbers of their callers and their own are those that a book may have.
        ensures few { IfOk result (λ found. IfSome found (λ calls.
            AllByRecursion (λ call. (call.caller < MAX_CALLERS) × (call.number < MAX_CALLS))
            calls.items)) }
    {
        let _init = self.table.init();
        let _callers = self.book.callers();
        match &self.order {
            Some(order) => Ok(Some(calls_of_places(alloc, order)?)),
            None => Ok(None),
        }
    }

    /// The evidence of the check: the text of the history's book and of what was told of the model.
    /// Whoever has it judges the book without the model.
    pub fn evidence(&self, alloc: Global) -> Result<Vec<u8>, NoMemory>
        // The check is sound.
        requires sound { IsSoundCheck self.now }
        // The text has the check's book, and tells what was told, and nothing else.
        ensures evidence { IfOk result (λ bytes. IsEvidenceOf bytes.items self.now) }
    {
        write_model(alloc, &self.book, &lines_of(alloc, &self.table)?)
    }

    // Whether a call of a caller may begin.
    fn may_begin(&self, caller: u32) -> bool
        ensures { IsTrue result ↔ MayBegin self.now.book caller }
    {
        caller < self.book.callers()
            && self.book.answers(caller) == self.book.calls(caller)
            && self.book.calls(caller) < MAX_CALLS
    }

    // Whether a call of a caller may end.
    fn may_end(&self, caller: u32) -> bool
        ensures may { IsTrue result ↔ MayEnd self.now.book caller }
        ensures valid { IsValid self.now.book }
    {
        caller < self.book.callers() && self.book.answers(caller) < self.book.calls(caller)
    }
}

// The calls of some places, in their order.
fn calls_of_places(alloc: Global, places: &[Place]) -> Result<Vec<Call>, NoMemory>
    ensures { IfOk result (λ calls. calls.items ≡ map call_at places.now) }
{
    let mut calls = Vec::with_capacity(alloc, places.len())?;
    for place in places {
        calls.push(Call {
            caller: place.caller,
            number: place.number,
        })?;
    }
    Ok(calls)
}

// The search that a check has, or one at its beginning.
fn resumed(
    alloc: Global,
    search: Option<ToldSearch>,
    table: &ToldTable,
    book: &Book,
) -> Result<ToldSearch, NoMemory>
    requires { IfSome search (IsSearch table.now book.now) }
    ensures search { IfOk result (IsSearch table.now book.now) }
    ensures left { IfOk result
        (λ found. weight_of book.now found ≤ left_by book.now search) }
{
    match search {
        Some(search) => Ok(search),
        None => ToldSearch::begin(alloc, table, book),
    }
}
