//! The object steps of a call of the log.
ghost use Rattle.std.specs.Prelude.{◌≡◌, ℕ, ◌+◌, ◌*◌, ◌<◌, ◌≤◌, List, [], Some, None, length, take, slice_get, vec_capacity};
ghost use Rattle.world_core.specs.CallSteps.{steps_now};
ghost use Rattle.row_table.specs.Callers.{IsCallerOf};
ghost use Rattle.drv_wrapper.specs.States.{caller_announced, announced_local};
ghost use Rattle.drv_wrapper.specs.ObjectSteps.{HasStepped};
ghost use Rattle.world_objects.specs.LogWords.{ticket_place};
ghost use Rattle.core_objects.specs.LogCalls.{places_on, number_on, place_on, HasLogWords, HasMade, HasStored, HasPlaced, MayLoad, KnowsPlaces, KnowsLog, KnowsOperation};

use crate::core_log::LogProgram;
use book_base::{OpWord, SeqObject, high, join, low};
use drv_wrapper::Announced;
use row_table::Rows;
use world_core::Program;

// Stores both words of the announced operation in the two object words of the call with the number
// `number`.
pub(crate) fn store_operation<S: SeqObject + Copy>(
    rows: &Rows<LogProgram<S>>,
    announced: &mut Announced<LogProgram<S>>,
    number: u64,
)
    requires words { HasLogWords rows.now }
    requires caller { IsCallerOf ⟦<LogProgram<S> as Program>⟧.meaning rows.now
        (caller_announced announced.old) }
    requires number { number ≡ number_on rows.now announced.old }
    requires first { steps_now (announced_local announced.old) ≡ [] }
    ensures made { HasMade ⟦<LogProgram<S> as Program>⟧.meaning rows.now announced.old
        announced.new }
    ensures stored { HasStored rows.now announced.new }
    ensures unplaced { place_on rows.now announced.new ≡ None }
    ensures tickets { (tickets : List ℕ) → KnowsPlaces rows.now announced.old tickets
        → KnowsPlaces rows.now announced.new tickets }
{
    let op = announced.op();
    announced.object_store(rows, 2 * number, low(op));
    announced.object_store(rows, 2 * number + 1, high(op));
}

// Exchanges 0 for the ticket of the call at the first place of the log that isn't known to be
// filled, where that place is empty. Returns the ticket that the place has then.
fn try_place<S: SeqObject + Copy>(
    rows: &Rows<LogProgram<S>>,
    announced: &mut Announced<LogProgram<S>>,
    tickets: &[u64],
    places: u64,
    number: u64,
) -> u64
    requires words { HasLogWords rows.now }
    requires caller { IsCallerOf ⟦<LogProgram<S> as Program>⟧.meaning rows.now
        (caller_announced announced.old) }
    requires places { places ≡ places_on rows.now }
    requires number { number ≡ number_on rows.now announced.old }
    requires stored { HasStored rows.now announced.old }
    requires unplaced { place_on rows.now announced.old ≡ None }
    requires tickets { KnowsPlaces rows.now announced.old tickets.now }
    requires place { length tickets.now < places }
    ensures stepped { (found : ℕ)
        × HasStepped ⟦<LogProgram<S> as Program>⟧.meaning rows.now announced.old announced.new
        (record { place = ticket_place places (length tickets.now); old = found; new = result }) }
    ensures filled { 0 < result }
{
    let place = 2 * places + tickets.len() as u64;
    match announced.object_exchange(rows, place, 0, number + 1) {
        Ok(_) => number + 1,
        Err(found) => found,
    }
}

// Places the ticket of the call in the log: tries place by place, from the first that isn't known
// to be filled. The tickets that it finds, and at last its own, are added to `tickets`.
pub(crate) fn place_ticket<S: SeqObject + Copy>(
    rows: &Rows<LogProgram<S>>,
    announced: &mut Announced<LogProgram<S>>,
    tickets: &mut Vec<u64>,
    places: u64,
    number: u64,
)
    requires words { HasLogWords rows.now }
    requires caller { IsCallerOf ⟦<LogProgram<S> as Program>⟧.meaning rows.now
        (caller_announced announced.old) }
    requires places { places ≡ places_on rows.now }
    requires number { number ≡ number_on rows.now announced.old }
    requires stored { HasStored rows.now announced.old }
    requires unplaced { place_on rows.now announced.old ≡ None }
    requires tickets { KnowsPlaces rows.now announced.old tickets.old.items }
    requires capacity { places ≤ vec_capacity tickets.old }
    ensures made { HasMade ⟦<LogProgram<S> as Program>⟧.meaning rows.now announced.old
        announced.new }
    ensures stored { HasStored rows.now announced.new }
    ensures placed { HasPlaced rows.now announced.new tickets.new.items }
    ensures tickets { KnowsPlaces rows.now announced.new tickets.new.items }
    ensures more { length tickets.old.items < length tickets.new.items }
    ensures capacity { vec_capacity tickets.old ≤ vec_capacity tickets.new }
{
    for _place in tickets.len()..places as usize {
        let ticket = try_place(rows, announced, tickets, places, number);
        tickets.push(ticket).unwrap();
        if ticket == number + 1 {
            return;
        }
    }
    // The log has as many places as the callers have calls, and this call's ticket isn't in it yet,
    // so some place is empty.
    unreachable!()
}

// Loads the operation of the call with the number `named`, whose ticket is known to stand before
// the announced call's own ticket.
fn load_operation<S: SeqObject + Copy>(
    rows: &Rows<LogProgram<S>>,
    announced: &mut Announced<LogProgram<S>>,
    named: u64,
) -> OpWord
    requires words { HasLogWords rows.now }
    requires caller { IsCallerOf ⟦<LogProgram<S> as Program>⟧.meaning rows.now
        (caller_announced announced.old) }
    requires named { MayLoad rows.now announced.old named }
    ensures made { HasMade ⟦<LogProgram<S> as Program>⟧.meaning rows.now announced.old
        announced.new }
    ensures tickets { (tickets : List ℕ) → KnowsPlaces rows.now announced.old tickets
        → KnowsPlaces rows.now announced.new tickets }
    ensures operation { KnowsOperation announced.new named result }
{
    let low = announced.object_load(rows, 2 * named);
    let high = announced.object_load(rows, 2 * named + 1);
    join(low, high)
}

// Loads the operations that `log` lacks, of the calls whose tickets stand before the announced
// call's own ticket, and adds them to `log`.
pub(crate) fn load_operations<S: SeqObject + Copy>(
    rows: &Rows<LogProgram<S>>,
    announced: &mut Announced<LogProgram<S>>,
    tickets: &[u64],
    log: &mut Vec<OpWord>,
)
    requires words { HasLogWords rows.now }
    requires caller { IsCallerOf ⟦<LogProgram<S> as Program>⟧.meaning rows.now
        (caller_announced announced.old) }
    requires tickets { KnowsPlaces rows.now announced.old tickets.now }
    requires placed { HasPlaced rows.now announced.old tickets.now }
    requires log { KnowsLog rows.now announced.old log.old.items }
    requires fewer { length log.old.items < length tickets.now }
    requires capacity { places_on rows.now ≤ vec_capacity log.old }
    ensures made { HasMade ⟦<LogProgram<S> as Program>⟧.meaning rows.now announced.old
        announced.new }
    ensures tickets { KnowsPlaces rows.now announced.new tickets.now }
    ensures log { KnowsLog rows.now announced.new log.new.items }
    ensures before { take (length log.old.items) log.new.items ≡ log.old.items }
    ensures whole { length log.new.items + 1 ≡ length tickets.now }
    ensures capacity { vec_capacity log.old ≤ vec_capacity log.new }
{
    for place in log.len()..tickets.len() - 1 {
        let op = load_operation(rows, announced, tickets[place] - 1);
        log.push(op).unwrap();
    }
}
