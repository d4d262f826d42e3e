ghost use Rattle.std.specs.Prelude.{◌≡◌, ◌<◌, length, slice_get, Some, None, IfOk, OnOk};
ghost use Rattle.told_models.specs.Table.{told_step};
ghost use Rattle.own_objects.specs.Told.{value_at, IsToldOf, MakesAmong, Continues, TellsMore};

use crate::object::OwnObject;
use book_base::{Book, Call, NoMemory, OpWord};
use indexmap::IndexSet;
use std::alloc::Global;
use told_models::{ToldTable, Transition};

/// Promises of each answered call of a book that its operation changes no state at which it has the
/// recorded reply, where the object knows that.
pub fn promise_reads<O: OwnObject>(
    object: &O,
    states: &IndexSet<O::State>,
    table: &mut ToldTable,
    book: &Book,
) -> Result<(), NoMemory>
    requires { IsToldOf O.value (O.initial object.now) (O.next object.now) states.now.keys
        table.old }
    ensures { OnOk result (IsToldOf O.value (O.initial object.now) (O.next object.now)
        states.now.keys table.new) }
{
    for caller in 0..book.callers() {
        for number in 0..book.answers(caller) {
            let call = Call { caller, number };
            promise_read(object, states, table, book.op(call), book.reply(call))?;
        }
    }
    Ok(())
}

// Promises that an operation changes no state at which it has a reply, where the object knows that.
fn promise_read<O: OwnObject>(
    object: &O,
    states: &IndexSet<O::State>,
    table: &mut ToldTable,
    op: OpWord,
    reply: u64,
) -> Result<(), NoMemory>
    requires { IsToldOf O.value (O.initial object.now) (O.next object.now) states.now.keys
        table.old }
    ensures { OnOk result (IsToldOf O.value (O.initial object.now) (O.next object.now)
        states.now.keys table.new) }
{
    if !object.leaves(op, reply) {
        return Ok(());
    }
    match table.promise(op, reply) {
        Ok(()) => Ok(()),
        Err(_) => Err(NoMemory),
    }
}

/// Tells the step of an operation at the state with a number, which the object makes.
#[tactic(auto, using(crate::proofs::Truths::told_with_step))]
pub fn tell_step<O: OwnObject>(
    alloc: Global,
    object: &O,
    states: &mut IndexSet<O::State>,
    table: &mut ToldTable,
    state: u64,
    op: OpWord,
) -> Result<(), NoMemory>
    requires told { IsToldOf O.value (O.initial object.now) (O.next object.now) states.old.keys
        table.old }
    requires within { state < length states.old.keys }
    requires untold { told_step table.old state op ≡ None }
    ensures told { OnOk result (IsToldOf O.value (O.initial object.now) (O.next object.now)
        states.new.keys table.new) }
    ensures more { OnOk result (TellsMore table.old table.new state op) }
{
    let (after, reply) = object.step(alloc, &states[state as usize], op)?;
    let transition = transition_to(object, states, table, state, op, after, reply)?;
    match table.tell(state, op, transition) {
        Ok(()) => Ok(()),
        Err(_) => Err(NoMemory),
    }
}

// The transition to a state after an operation. Where it is promised that the operation changes
// nothing with this reply, it leads back to its own state, whatever number the state after it has.
#[tactic(auto, using(crate::proofs::Truths::read_only_step, crate::proofs::Truths::numbered_step, crate::proofs::Truths::told_with_states))]
fn transition_to<O: OwnObject>(
    object: &O,
    states: &mut IndexSet<O::State>,
    table: &ToldTable,
    state: u64,
    op: OpWord,
    after: O::State,
    reply: u64,
) -> Result<Transition, NoMemory>
    requires told { IsToldOf O.value (O.initial object.now) (O.next object.now) states.old.keys
        table.now }
    requires within { state < length states.old.keys }
    requires made { O.next object.now
        (value_at O.value (O.initial object.now) states.old.keys state) op ≡ (O.value after, reply) }
    ensures told { OnOk result (IsToldOf O.value (O.initial object.now) (O.next object.now)
        states.new.keys table.now) }
    ensures made { IfOk result (MakesAmong O.value (O.initial object.now) (O.next object.now)
        states.new.keys state op) }
{
    if table.is_promised(op, reply) {
        return Ok(Transition { next: state, reply });
    }
    let next = number_of::<O>(states, after)?;
    Ok(Transition { next, reply })
}

// The number of a state: its index among the states, to which it is added where it is new.
fn number_of<O: OwnObject>(
    states: &mut IndexSet<O::State>,
    state: O::State,
) -> Result<u64, NoMemory>
    ensures number { IfOk result (λ number. (found : O.State)
        × (slice_get states.new.keys number ≡ Some found) × (O.value found ≡ O.value state)) }
    ensures kept { OnOk result (Continues states.old.keys states.new.keys) }
{
    let (index, _is_new) = states.insert_full(state)?;
    Ok(index as u64)
}
