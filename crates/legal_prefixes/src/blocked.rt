//! The calls that may come next after a longest legal prefix, and what the object replies to them.

ghost use Rattle.std.specs.Prelude.{◌≡◌, ◌<◌, length, IfOk, OnOk};
ghost use Rattle.book_base.specs.Next.{next_call, MayComeNext};
ghost use Rattle.legal_prefixes.specs.declared.TheConstants.{LIST_ROOM};
ghost use Rattle.legal_prefixes.specs.Longest.{IsLongest, IsBlocked, AddsBlocked, AreAllBlocked};

use crate::LIST_ROOM;
use crate::layer::load;
use crate::next_calls::may_come;
use crate::prefix::LegalPrefix;
use book_base::{Book, Call, NoMemory, SeqObject, State};
use seq_objects::Kind;
use std::alloc::Global;

/// A call that may come next after a prefix, its recorded reply, and the one that the object gives.
#[derive(Clone, Copy, Debug)]
pub struct Blocked {
    pub call: Call,
    pub recorded: u64,
    pub given: u64,
}

/// All calls that may come next after a longest legal prefix, by caller.
pub fn blocked_after(
    alloc: Global,
    kind: Kind,
    book: &Book,
    prefix: &LegalPrefix,
) -> Result<Vec<Blocked>, NoMemory>
    // The book has no legal order, and the prefix is a longest legal one.
    requires { IsLongest kind book.now prefix.now }
    // The answer has each call that may come next after the prefix, which the object gives another
    // reply than the recorded one.
    ensures { IfOk result
        (λ all. AreAllBlocked kind book.now prefix.now.cut prefix.now.words.items all.items) }
{
    let mut here = State::with_room(alloc, LIST_ROOM)?;
    let mut all = Vec::new(alloc);
    for caller in 0..book.callers() {
        push_blocked(kind, book, &mut here, prefix, caller, &mut all)?;
    }
    Ok(all)
}

// Adds the next call of a caller, where this call may come next.
fn push_blocked(
    kind: Kind,
    book: &Book,
    here: &mut State,
    prefix: &LegalPrefix,
    caller: u32,
    all: &mut Vec<Blocked>,
) -> Result<(), NoMemory>
    requires room { here.old.room ≡ LIST_ROOM }
    requires longest { IsLongest kind book.now prefix.now }
    requires caller { caller < length book.now }
    ensures room { here.new.room ≡ LIST_ROOM }
    ensures added { OnOk result (AddsBlocked kind book.now prefix.now.cut prefix.now.words.items
        caller all.old.items all.new.items) }
{
    if !may_come(book, &prefix.cut, caller) {
        return Ok(());
    }
    all.push(blocked_call(kind, book, here, prefix, caller))?;
    Ok(())
}

// The next call of a caller, which may come next after a longest legal prefix.
fn blocked_call(
    kind: Kind,
    book: &Book,
    here: &mut State,
    prefix: &LegalPrefix,
    caller: u32,
) -> Blocked
    requires room { here.old.room ≡ LIST_ROOM }
    requires longest { IsLongest kind book.now prefix.now }
    requires caller { caller < length book.now }
    requires may { MayComeNext book.now prefix.now.cut (next_call prefix.now.cut caller) }
    ensures room { here.new.room ≡ LIST_ROOM }
    ensures call { result.call ≡ next_call prefix.now.cut caller }
    ensures blocked { IsBlocked kind book.now prefix.now.cut prefix.now.words.items result }
{
    let call = Call {
        caller,
        number: prefix.cut.get(caller),
    };
    load(here, &prefix.words);
    let given = kind.step(here, book.op(call));
    if call.number >= book.answers(caller) {
        unreachable!();
    }
    Blocked {
        call,
        recorded: book.record(call).reply,
        given,
    }
}
