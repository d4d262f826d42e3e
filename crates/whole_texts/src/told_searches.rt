//! Searches in dialogue, of histories of objects whose steps are told where a search asks for them:
//! a lock with an owner, a queue with two places, a counter, and a flag.

ghost use Rattle.std.specs.Prelude.{◌≡◌, length};

use book_base::{Book, Call, Cut, OpWord};
use frontier_check::{Verdict, check};
use indexmap::IndexSet;
use std::alloc::Global;
use std::test::Fail;
use told_models::{Answer, ToldSearch, ToldTable, Transition};

// Owner A or B acquires the lock or releases it. State 0 is free, 1 is held by A, and 2 by B.
const ACQUIRE_A: OpWord = 1;

const ACQUIRE_B: OpWord = 2;

const RELEASE_A: OpWord = 3;

const RELEASE_B: OpWord = 4;

const YES: u64 = 1;

const NO: u64 = 0;

fn lock_step(state: u64, op: OpWord) -> Transition {
    match (state, op) {
        (0, ACQUIRE_A) => to(1, YES),
        (0, ACQUIRE_B) => to(2, YES),
        (1, RELEASE_A) => to(0, YES),
        (2, RELEASE_B) => to(0, YES),
        _ => to(state, NO),
    }
}

// The queue's operations 1, 2 and 3 put that value in, and this one takes the oldest value out.
const TAKE: OpWord = 4;
// A take replies the value, or 0 where there is none.
const PUT: u64 = 10;

const FULL: u64 = 20;

// The decimal digits of a queue's state are its values, the oldest one last.
fn queue_step(state: u64, op: OpWord) -> Transition {
    let oldest = state % 10;
    if op == TAKE {
        return to(state / 10, oldest);
    }
    let value = (op % 4) as u64;
    if oldest == 0 {
        to(value, PUT)
    } else if state < 10 {
        to(10 * value + oldest, PUT)
    } else {
        to(state, FULL)
    }
}

// The counter is read, or another operation adds its own word to it.
const READ: OpWord = 4;

const ADDED: u64 = 1_000;

fn counter_step(count: u64, op: OpWord) -> Transition {
    match op {
        READ => to(count, count),
        _ => to(count.saturating_add((op % 4) as u64), ADDED),
    }
}

// The flag is raised, lowered, or tested. State 0 is lowered, 1 is raised.
const RAISE: OpWord = 1;

const LOWER: OpWord = 2;

const TEST: OpWord = 4;

fn flag_step(state: u64, op: OpWord) -> Transition {
    match op {
        RAISE => to(1, YES),
        LOWER => to(0, YES),
        _ => to(state, state),
    }
}

#[derive(Clone, Copy)]
enum Object {
    Lock,
    Queue,
    Counter,
    Flag,
}

fn step_of(object: Object, state: u64, op: OpWord) -> Transition {
    match object {
        Object::Lock => lock_step(state, op),
        Object::Queue => queue_step(state, op),
        Object::Counter => counter_step(state, op),
        Object::Flag => flag_step(state, op),
    }
}

fn to(next: u64, reply: u64) -> Transition {
    Transition { next, reply }
}

// A caller begins a call of an operation, or its call gets this reply.
#[derive(Clone, Copy)]
enum Event {
    Begins(u32, OpWord),
    Gets(u32, u64),
}

use Event::{Begins, Gets};
use Object::{Counter, Flag, Lock, Queue};

// The book of a history of three callers: a call's view has the calls that have begun when it ends.
fn book_of(alloc: Global, events: &[Event]) -> Result<Book, Fail> {
    let mut book = Book::new(alloc, 3)?;
    for event in events {
        add(&mut book, *event)?;
    }
    Ok(book)
}

fn add(book: &mut Book, event: Event) -> Result<(), Fail> {
    if book.callers() != 3 {
        return Err("another number of callers".into());
    }
    match event {
        Begins(caller, op) => {
            if caller > 2 {
                return Err("no such caller".into());
            }
            book.add_call(caller, op)?;
        }
        Gets(caller, reply) => {
            if caller > 2 {
                return Err("no such caller".into());
            }
            let view = begun(book);
            book.add_answer(caller, reply, view)?;
        }
    }
    Ok(())
}

fn begun(book: &Book) -> Cut
    requires { length book.now ≡ 3 }
    ensures { length result ≡ 3 }
{
    let mut view = Cut::zero(3);
    view.set(0, book.calls(0));
    view.set(1, book.calls(1));
    view.set(2, book.calls(2));
    view
}

// What a dialogue with a search came to: the verdict, the steps that were asked for, and how often
// the search went on.
#[derive(Clone, Copy, PartialEq, Eq, Debug)]
struct Ended {
    legal: bool,
    asks: u64,
    rounds: u64,
}

// A dialogue with a search that goes on by so many steps at a time. A table that refuses a step,
// and a search that answers otherwise when it goes on after its verdict, are failures.
fn searched(
    alloc: Global,
    object: Object,
    book: &Book,
    promises: &[(OpWord, u64)],
    steps: u64,
) -> Result<Ended, Fail> {
    let mut table = ToldTable::new(alloc, 0);
    for (op, reply) in promises {
        table.promise(*op, *reply)?;
    }
    let mut search = ToldSearch::begin(alloc, &table, book)?;
    let mut asks = 0u64;
    for rounds in 0..10_000 {
        match search.go_on(alloc, &table, book, steps)? {
            Some(Answer::Ask(state, op)) => {
                table.tell(state, op, step_of(object, state, op))?;
                asks = asks.saturating_add(1);
            }
            Some(answer) => {
                let legal = answer != Answer::Illegal;
                if search.go_on(alloc, &table, book, steps)? != Some(answer) {
                    return Err("another answer, when the search went on".into());
                }
                return Ok(Ended {
                    legal,
                    asks,
                    rounds,
                });
            }
            None => {}
        }
    }
    Err("no answer".into())
}

// Whether a book is legal for the sequential object of a table that is closed under its operations.
fn is_legal_when_closed(alloc: Global, object: Object, book: &Book) -> Result<bool, Fail> {
    let mut ops = IndexSet::new(alloc);
    let mut calls = 0u64;
    for caller in 0..book.callers() {
        calls = calls.saturating_add(book.calls(caller));
        for number in 0..book.calls(caller) {
            ops.insert(book.op(Call { caller, number }))?;
        }
    }
    let mut table = ToldTable::new(alloc, 0);
    for _turns in 0..10_000 {
        match table.untold(alloc, &ops, calls)? {
            Some((state, op)) => table.tell(state, op, step_of(object, state, op))?,
            None => return Ok(matches!(check(alloc, &table, book)?, Verdict::Legal(_))),
        }
    }
    Err("the table isn't closed".into())
}

// The promises that hold of an object, of the operations and replies of the histories here.
fn promises_of(object: Object) -> &'static [(OpWord, u64)] {
    match object {
        Object::Lock => &[
            (ACQUIRE_A, NO),
            (ACQUIRE_B, NO),
            (RELEASE_A, NO),
            (RELEASE_B, NO),
        ],
        Object::Queue => &[(1, FULL), (2, FULL), (3, FULL), (TAKE, 0)],
        Object::Counter => &[(READ, 0), (READ, 1), (READ, 2), (READ, 3)],
        Object::Flag => &[(TEST, NO), (TEST, YES)],
    }
}

// The verdict on which a search, the same search by single steps, one with promises and a closed
// table agree.
fn verdict(alloc: Global, object: Object, book: &Book) -> Result<bool, Fail> {
    let at_once = searched(alloc, object, book, &[], 1_000)?;
    let by_steps = searched(alloc, object, book, &[], 1)?;
    if (by_steps.legal, by_steps.asks) != (at_once.legal, at_once.asks) {
        return Err("another answer by single steps".into());
    }
    if searched(alloc, object, book, promises_of(object), 1_000)?.legal != at_once.legal {
        return Err("another verdict with promises".into());
    }
    if is_legal_when_closed(alloc, object, book)? != at_once.legal {
        return Err("another verdict by a closed table".into());
    }
    Ok(at_once.legal)
}

fn is_legal(alloc: Global, object: Object, events: &[Event]) -> Result<bool, Fail> {
    verdict(alloc, object, &book_of(alloc, events)?)
}

// How many steps a search of a book asks for.
fn asks(
    alloc: Global,
    object: Object,
    events: &[Event],
    promises: &[(OpWord, u64)],
) -> Result<u64, Fail> {
    let book = book_of(alloc, events)?;
    Ok(searched(alloc, object, &book, promises, 1_000)?.asks)
}

#[test]
fn a_lock_has_one_owner(rt: HostRuntime) -> Result<(), Fail> {
    let alloc = rt.alloc();
    let refused = [
        Begins(0, ACQUIRE_A),
        Gets(0, YES),
        Begins(1, ACQUIRE_B),
        Gets(1, NO),
    ];
    assert!(rt; is_legal(alloc, Lock, &refused)?);
    let two_owners = [
        Begins(0, ACQUIRE_A),
        Gets(0, YES),
        Begins(1, ACQUIRE_B),
        Gets(1, YES),
    ];
    assert!(rt; !is_legal(alloc, Lock, &two_owners)?);
    let later_one_owns = [
        Begins(0, ACQUIRE_A),
        Begins(1, ACQUIRE_B),
        Gets(0, NO),
        Gets(1, YES),
    ];
    assert!(rt; is_legal(alloc, Lock, &later_one_owns)?);
    let no_owner = [
        Begins(0, ACQUIRE_A),
        Begins(1, ACQUIRE_B),
        Gets(0, NO),
        Gets(1, NO),
    ];
    assert!(rt; !is_legal(alloc, Lock, &no_owner)?);
    Ok(())
}

#[test]
fn an_unanswered_call_may_have_taken_effect(rt: HostRuntime) -> Result<(), Fail> {
    let alloc = rt.alloc();
    let released = [
        Begins(0, ACQUIRE_A),
        Gets(0, YES),
        Begins(0, RELEASE_A),
        Begins(1, ACQUIRE_B),
        Gets(1, YES),
    ];
    assert!(rt; is_legal(alloc, Lock, &released)?);
    let not_released = [
        Begins(0, ACQUIRE_A),
        Gets(0, YES),
        Begins(0, RELEASE_A),
        Begins(1, ACQUIRE_B),
        Gets(1, NO),
    ];
    assert!(rt; is_legal(alloc, Lock, &not_released)?);
    let unseen = [Begins(1, ACQUIRE_B), Gets(1, NO), Begins(0, ACQUIRE_A)];
    assert!(rt;
        !is_legal(alloc, Lock, &unseen)?,
        "the acquire of A began later"
    );
    Ok(())
}

#[test]
fn a_queue_of_two_places_refuses_a_third_value(rt: HostRuntime) -> Result<(), Fail> {
    let alloc = rt.alloc();
    let refused = [
        Begins(0, 1),
        Gets(0, PUT),
        Begins(0, 2),
        Gets(0, PUT),
        Begins(0, 3),
        Gets(0, FULL),
        Begins(1, TAKE),
        Gets(1, 1),
    ];
    assert!(rt; is_legal(alloc, Queue, &refused)?);
    let too_many = [
        Begins(0, 1),
        Gets(0, PUT),
        Begins(0, 2),
        Gets(0, PUT),
        Begins(0, 3),
        Gets(0, PUT),
        Begins(1, TAKE),
        Gets(1, 1),
    ];
    assert!(rt; !is_legal(alloc, Queue, &too_many)?);
    let after_a_take = [
        Begins(0, 1),
        Gets(0, PUT),
        Begins(0, 2),
        Gets(0, PUT),
        Begins(0, 3),
        Begins(1, TAKE),
        Gets(0, PUT),
        Gets(1, 1),
    ];
    assert!(rt; is_legal(alloc, Queue, &after_a_take)?);
    let newest_first = [
        Begins(0, 1),
        Gets(0, PUT),
        Begins(0, 2),
        Gets(0, PUT),
        Begins(1, TAKE),
        Gets(1, 2),
    ];
    assert!(rt; !is_legal(alloc, Queue, &newest_first)?);
    Ok(())
}

// Caller 0 adds 2 while caller 1 reads this count, and then caller 0 reads 2.
fn read_beside_an_add(count: u64) -> [Event; 6] {
    [
        Begins(0, 2),
        Begins(1, READ),
        Gets(1, count),
        Gets(0, ADDED),
        Begins(0, READ),
        Gets(0, 2),
    ]
}

#[test]
fn a_read_counts_whole_adds(rt: HostRuntime) -> Result<(), Fail> {
    let alloc = rt.alloc();
    assert!(rt; is_legal(alloc, Counter, &read_beside_an_add(0))?);
    assert!(rt; !is_legal(alloc, Counter, &read_beside_an_add(1))?);
    assert!(rt; is_legal(alloc, Counter, &read_beside_an_add(2))?);
    Ok(())
}

#[test]
fn a_call_that_changes_nothing_here_may_change_something_elsewhere(
    rt: HostRuntime,
) -> Result<(), Fail> {
    let alloc = rt.alloc();
    // To lower the flag leaves it lowered at the beginning, with the recorded reply. Yet the only
    // legal order raises the flag first.
    let lowered_at_the_end = [
        Begins(0, LOWER),
        Begins(1, RAISE),
        Gets(0, YES),
        Gets(1, YES),
        Begins(0, TEST),
        Gets(0, NO),
    ];
    assert!(rt; is_legal(alloc, Flag, &lowered_at_the_end)?);
    let raised_at_the_end = [
        Begins(0, LOWER),
        Begins(1, RAISE),
        Gets(0, YES),
        Gets(1, YES),
        Begins(0, TEST),
        Gets(0, YES),
    ];
    assert!(rt; is_legal(alloc, Flag, &raised_at_the_end)?);
    let raised_alone = [Begins(1, RAISE), Gets(1, YES), Begins(0, TEST), Gets(0, NO)];
    assert!(rt; !is_legal(alloc, Flag, &raised_alone)?);
    Ok(())
}

#[test]
fn a_book_without_an_answered_call_is_legal_without_an_ask(rt: HostRuntime) -> Result<(), Fail> {
    let alloc = rt.alloc();
    let unanswered = [Begins(0, ACQUIRE_A), Begins(1, ACQUIRE_B)];
    assert!(rt; is_legal(alloc, Lock, &unanswered)?);
    assert_eq!(rt; asks(alloc, Lock, &unanswered, &[])?, 0);
    Ok(())
}

#[test]
fn a_search_asks_only_where_it_comes(rt: HostRuntime) -> Result<(), Fail> {
    let alloc = rt.alloc();
    // A at the free lock, which contradicts its reply; then B there, and A where B holds the lock.
    let later_one_owns = [
        Begins(0, ACQUIRE_A),
        Begins(1, ACQUIRE_B),
        Gets(0, NO),
        Gets(1, YES),
    ];
    assert_eq!(rt; asks(alloc, Lock, &later_one_owns, &[])?, 3);
    // Both at the free lock, and each where the other one holds it.
    let two_owners = [
        Begins(0, ACQUIRE_A),
        Begins(1, ACQUIRE_B),
        Gets(0, YES),
        Gets(1, YES),
    ];
    assert_eq!(rt; asks(alloc, Lock, &two_owners, &[])?, 4);
    // An add at 0 and at 2, whichever of the two comes first, and the read at 4.
    let two_adds = [
        Begins(0, 2),
        Begins(1, 2),
        Gets(0, ADDED),
        Gets(1, ADDED),
        Begins(0, READ),
        Gets(0, 5),
    ];
    assert_eq!(rt; asks(alloc, Counter, &two_adds, &[])?, 3);
    Ok(())
}

#[test]
fn a_promised_call_is_asked_for_at_once(rt: HostRuntime) -> Result<(), Fail> {
    let alloc = rt.alloc();
    // The add at 0, and the read of caller 1 at 2.
    assert_eq!(rt; asks(alloc, Counter, &read_beside_an_add(2), &[])?, 2);
    // The read at 0 first, which has another reply there, and then these two.
    let promised = [(READ, 2)];
    assert_eq!(rt; asks(alloc, Counter, &read_beside_an_add(2), &promised)?, 3);
    Ok(())
}

#[test]
fn promised_calls_are_tried_in_one_order(rt: HostRuntime) -> Result<(), Fail> {
    let alloc = rt.alloc();
    // Three callers test the lowered flag at the same time, each by an operation of its own, and
    // then the last one finds it raised.
    let raised_by_nobody = [
        Begins(0, TEST),
        Begins(1, TEST + 1),
        Begins(2, TEST + 2),
        Gets(0, NO),
        Gets(1, NO),
        Gets(2, NO),
        Begins(2, TEST + 2),
        Gets(2, YES),
    ];
    let promises = [(TEST, NO), (TEST + 1, NO), (TEST + 2, NO)];
    let book = book_of(alloc, &raised_by_nobody)?;
    let plain = searched(alloc, Flag, &book, &[], 1)?;
    let promised = searched(alloc, Flag, &book, &promises, 1)?;
    assert!(rt; !plain.legal && !promised.legal);
    // Three asks, each with a step deeper after it; the last test is left out; and three steps
    // back.
    assert_eq!(rt; promised.rounds, 10);
    assert!(rt; plain.rounds > 10);
    Ok(())
}

// Numbers in an order that looks random (xorshift; Marsaglia 2003).
#[derive(Drop)]
struct Draws {
    state: u64,
}

impl Draws {
    // The next number, below `bound`, or 0 where the bound is 0.
    fn below(&mut self, bound: u64) -> u64 {
        let mut state = self.state;
        state ^= state << 13;
        state ^= state >> 7;
        state ^= state << 17;
        self.state = state;
        if bound == 0 { 0 } else { (state >> 11) % bound }
    }
}

// A random history of at most five calls: each takes effect at some time before it ends, and now
// and then its reply is replaced by that of another operation.
fn drawn(alloc: Global, object: Object, draws: &mut Draws) -> Result<Book, Fail> {
    let mut book = Book::new(alloc, 3)?;
    let mut state = 0;
    for _events in 0..7 {
        if book.callers() != 3 {
            return Err("another number of callers".into());
        }
        let caller = match draws.below(3) {
            0 => 0,
            1 => 1,
            _ => 2,
        };
        if book.calls(caller) == book.answers(caller) {
            book.add_call(caller, OpWord::from(draws.below(4)) + 1)?;
            continue;
        }
        let number = book.answers(caller);
        if number >= book.calls(caller) {
            continue;
        }
        let step = step_of(object, state, book.op(Call { caller, number }));
        state = step.next;
        let reply = if draws.below(5) == 0 {
            step_of(object, state, OpWord::from(draws.below(4)) + 1).reply
        } else {
            step.reply
        };
        let view = begun(&book);
        book.add_answer(caller, reply, view)?;
    }
    Ok(book)
}

// How many sequences of five turns there are, each of one of three callers or of nobody.
const SEQUENCES: u64 = 1024;

// Whether a book of at most five calls has a legal order, by a try of all sequences of its callers.
fn has_order(object: Object, book: &Book) -> bool {
    for sequence in 0..SEQUENCES {
        if is_order(object, book, sequence) {
            return true;
        }
    }
    false
}

// Whether the calls of a sequence of callers, each the next one of its caller, are a legal order.
fn is_order(object: Object, book: &Book, sequence: u64) -> bool {
    let mut taken = Cut::zero(book.callers());
    let mut state = 0;
    let mut turns = sequence;
    for _places in 0..5 {
        let caller = (turns % 4) as u32;
        turns /= 4;
        if caller < book.callers() && caller < taken.n() {
            let number = taken.get(caller);
            if number >= book.calls(caller) {
                return false;
            }
            let call = Call { caller, number };
            if !may_come(book, &taken, call) {
                return false;
            }
            let step = step_of(object, state, book.op(call));
            if number < book.answers(caller) && book.reply(call) != step.reply {
                return false;
            }
            state = step.next;
            taken.set(caller, number.saturating_add(1));
        }
    }
    for caller in 0..book.callers() {
        if caller < taken.n() && taken.get(caller) < book.answers(caller) {
            return false;
        }
    }
    true
}

// Whether all calls that precede a call are taken.
fn may_come(book: &Book, taken: &Cut, call: Call) -> bool {
    for caller in 0..book.callers() {
        for number in 0..book.calls(caller) {
            let other = Call { caller, number };
            if caller < taken.n()
                && number >= taken.get(caller)
                && call.caller < book.callers()
                && call.number < book.calls(call.caller)
                && book.precedes(other, call)
            {
                return false;
            }
        }
    }
    true
}

// How many of so many random histories are legal. A search, a closed table and a try of all orders
// agree on each of them.
fn legal_ones(alloc: Global, object: Object, seed: u64, histories: u64) -> Result<u64, Fail> {
    let mut draws = Draws { state: seed };
    let mut legal = 0u64;
    for _history in 0..histories {
        let book = drawn(alloc, object, &mut draws)?;
        let found = verdict(alloc, object, &book)?;
        if found != has_order(object, &book) {
            return Err("another verdict than that of a try of all orders".into());
        }
        if found {
            legal = legal.saturating_add(1);
        }
    }
    Ok(legal)
}

#[test]
fn verdicts_are_those_of_a_try_of_all_orders(rt: HostRuntime) -> Result<(), Fail> {
    let alloc = rt.alloc();
    for (object, seed) in [(Lock, 1), (Queue, 2), (Counter, 3), (Flag, 4)] {
        let legal = legal_ones(alloc, object, seed, 12)?;
        assert!(rt; legal >= 2 && legal <= 10, "both verdicts are tried");
    }
    Ok(())
}

#[test]
fn a_promise_and_a_step_that_breaks_it_exclude_one_another(rt: HostRuntime) -> Result<(), Fail> {
    let alloc = rt.alloc();
    let mut table = ToldTable::new(alloc, 0);
    table.promise(READ, 0)?;
    assert!(rt; table.tell(0, READ, to(1, 0)).is_err());
    assert!(rt; table.get(0, READ).is_none());
    table.tell(0, READ, to(0, 0))?;
    table.tell(3, READ, to(4, 3))?;
    assert!(rt; table.promise(READ, 3).is_err());
    assert!(rt; !table.is_promised(READ, 3));
    Ok(())
}

#[test]
fn a_table_is_not_asked_at_states_that_its_words_do_not_reach(rt: HostRuntime) -> Result<(), Fail> {
    let alloc = rt.alloc();
    let mut table = ToldTable::new(alloc, 0);
    let mut ops = IndexSet::new(alloc);
    ops.insert(ACQUIRE_A)?;
    ops.insert(ACQUIRE_B)?;
    // A step of another word leads to state 50.
    table.tell(0, RELEASE_A, to(50, YES))?;
    let mut asks = 0u64;
    for _turns in 0..10 {
        if let Some((state, op)) = table.untold(alloc, &ops, 2)? {
            asks = asks.saturating_add(1);
            table.tell(state, op, lock_step(state, op))?;
        }
    }
    // The two acquires are asked for at the free lock, and where A holds it, and where B does.
    assert_eq!(rt; asks, 6);
    assert!(rt; table.get(50, ACQUIRE_A).is_none());
    Ok(())
}
