//! Calls that set an object's list and that no call which stays can tell.
ghost use Rattle.std.specs.Prelude.{◌≡◌, ℕ, ◌<◌, ◌≤◌, ◌⊎◌, ◌↔◌, length, slice_index, None, is_some, option_to_list, if◌then◌else◌, IfSome, IfNone, IsTrue};
ghost use Rattle.book_base.specs.declared.call.Call.{Call};
ghost use Rattle.book_base.specs.Book.{IsCall, Precedes, calls_of};
ghost use Rattle.seq_objects.specs.CasRegisterSteps.{cas_register_operation, cas_register_after};
ghost use Rattle.seq_objects.specs.Items.{first_or_zero, place_of};
ghost use Rattle.seq_objects.specs.Replies.{reply_yes, reply_no};
ghost use Rattle.seq_objects.specs.IntSetSteps.{set_operation, set_after};
ghost use Rattle.seq_objects.specs.MapSteps.{item_of, place_of_key, value_at, map_operation, map_after};
ghost use Rattle.seq_objects.specs.RegisterSteps.{register_operation, register_after};
ghost use Rattle.smaller_book.specs.Part.{IsNamed};
ghost use Rattle.smaller_book.specs.Numbers.{numbers_in, AreNumbersOf};
ghost use Rattle.smaller_book.specs.OneKey.{is_set_or_map, IsOfOneKey};
ghost use Rattle.smaller_book.specs.Settings.{where_yes, set_by_register, set_by_cas_register, set_by_set, set_by_map, item_set_with, item_set, reply_at, SetsLists, Writes, RepliesOtherwise, Overwrites, ComesAfterOverwriting, CannotTell, IsUnseenSetting, StaysOrMayGo, LacksOnlyUnseen, IsFirstSeen};

use crate::keys::reply_of;
use crate::one_key::{is_set_or_map, sets_lists};
use crate::read_only::is_read_only;
use book_base::{BAD, Book, Call, OpWord};
use seq_objects::{
    CasRegisterOperation, DONE, IntSetOperation, Kind, MapOperation, NO, NONE, RegisterOperation,
    YES, wrapping_value_reply,
};

/// How many values a register or a map can have: those below 2^32.
const VALUES: u64 = 1 << 32;

/// The first call of a book, by its caller and then by its number, whose number isn't among these
/// and that may not go: it is neither read-only, nor does it set the object's list so that no call
/// among these can tell.
pub fn first_seen(kind: Kind, book: &Book, numbers: &[Vec<u64>]) -> Option<Call>
    // The numbers are rising numbers of calls of the book, a list for each caller.
    requires { AreNumbersOf book.now (numbers_in numbers.now) }
    // The answered call is the first one that isn't named and that may not go.
    ensures first { IfSome result (IsFirstSeen kind book.now (numbers_in numbers.now)) }
    // Where no call is answered, each call that isn't named may go.
    ensures none { IfNone result (LacksOnlyUnseen kind book.now (numbers_in numbers.now)) }
{
    let lists = sets_lists(kind, book);
    for caller in 0..book.callers() {
        let found = first_seen_of(kind, book, numbers, lists, caller);
        if found.is_some() {
            return found;
        }
    }
    None
}

// The first call of a caller whose number isn't among these and that may not go.
fn first_seen_of(
    kind: Kind,
    book: &Book,
    numbers: &[Vec<u64>],
    lists: bool,
    caller: u32,
) -> Option<Call>
    requires numbers { AreNumbersOf book.now (numbers_in numbers.now) }
    requires lists { IsTrue lists ↔ SetsLists kind book.now }
    requires caller { caller < length book.now }
    ensures caller { IfSome result (λ call. call.caller ≡ caller) }
    ensures is_call { IfSome result (IsCall book.now) }
    ensures seen { IfSome result
        (λ call. ¬ StaysOrMayGo kind book.now (numbers_in numbers.now) call) }
    ensures earlier { IfSome result (λ call. (number : ℕ) → number < call.number
        → StaysOrMayGo kind book.now (numbers_in numbers.now)
        (record { caller = caller; number = number })) }
    ensures none { IfNone result ((number : ℕ) → number < calls_of book.now caller
        → StaysOrMayGo kind book.now (numbers_in numbers.now)
        (record { caller = caller; number = number })) }
{
    for number in 0..book.calls(caller) {
        let call = Call { caller, number };
        if !stays_or_may_go(kind, book, numbers, lists, call) {
            return Some(call);
        }
    }
    None
}

// Whether a call's number is among these, or the call is read-only, or it sets a list and no call
// among them can tell.
fn stays_or_may_go(kind: Kind, book: &Book, numbers: &[Vec<u64>], lists: bool, call: Call) -> bool
    requires numbers { AreNumbersOf book.now (numbers_in numbers.now) }
    requires lists { IsTrue lists ↔ SetsLists kind book.now }
    requires call { IsCall book.now call }
    ensures { IsTrue result ↔ StaysOrMayGo kind book.now (numbers_in numbers.now) call }
{
    is_among(numbers, call)
        || is_read_only(kind, book, call)
        || (lists && is_unseen(kind, book, numbers, call))
}

// Whether a call's number is among these.
fn is_among(numbers: &[Vec<u64>], call: Call) -> bool
    requires { call.caller < length numbers.now }
    ensures { IsTrue result ↔ IsNamed (numbers_in numbers.now) call }
{
    numbers[call.caller as usize].contains(&call.number)
}

// Whether a call sets a list, and no call whose number is among these can tell.
fn is_unseen(kind: Kind, book: &Book, numbers: &[Vec<u64>], call: Call) -> bool
    requires numbers { AreNumbersOf book.now (numbers_in numbers.now) }
    requires lists { SetsLists kind book.now }
    requires call { IsCall book.now call }
    ensures { IsTrue result ↔ IsUnseenSetting kind book.now (numbers_in numbers.now) call }
{
    match item_set(kind, book, call) {
        None => false,
        Some(item) => none_tells(kind, book, numbers, call, item),
    }
}

// Whether no call whose number is among these can tell that a call has set a list.
fn none_tells(
    kind: Kind,
    book: &Book,
    numbers: &[Vec<u64>],
    setting: Call,
    item: Option<u64>,
) -> bool
    requires numbers { AreNumbersOf book.now (numbers_in numbers.now) }
    requires setting { IsCall book.now setting }
    ensures { IsTrue result ↔ ((call : Call) → IsCall book.now call
        → IsNamed (numbers_in numbers.now) call → CannotTell kind book.now setting item call) }
{
    for caller in 0..book.callers() {
        if !none_of_tells(kind, book, &numbers[caller as usize], setting, item, caller) {
            return false;
        }
    }
    true
}

// Whether no call of a caller with one of these numbers can tell that a call has set a list.
fn none_of_tells(
    kind: Kind,
    book: &Book,
    numbers: &[u64],
    setting: Call,
    item: Option<u64>,
    caller: u32,
) -> bool
    requires setting { IsCall book.now setting }
    requires caller { caller < length book.now }
    requires inside { (k : ℕ) → k < length numbers.now
        → slice_index numbers.now k < calls_of book.now caller }
    ensures { IsTrue result ↔ ((k : ℕ) → k < length numbers.now
        → CannotTell kind book.now setting item
        (record { caller = caller; number = slice_index numbers.now k })) }
{
    let until = overwritten_from(kind, book, setting, caller);
    for place in 0..numbers.len() {
        let number = numbers[place];
        if number < until && !cannot_see(kind, book, setting, item, Call { caller, number }) {
            return false;
        }
    }
    true
}

/// The number from which on the calls of a caller come after one that overwrites what a call sets.
pub fn overwritten_from(kind: Kind, book: &Book, setting: Call, caller: u32) -> u64
    requires setting { IsCall book.now setting }
    requires caller { caller < length book.now }
    ensures { (number : ℕ) → number < calls_of book.now caller → (result ≤ number
        ↔ ComesAfterOverwriting kind book.now setting
        (record { caller = caller; number = number })) }
{
    let mut from = book.calls(caller);
    for other in 0..book.callers() {
        from = from.min(overwritten_by(kind, book, setting, caller, other));
    }
    from
}

// The number from which on the calls of a caller come after one of the caller `other` that
// overwrites what a call sets.
fn overwritten_by(kind: Kind, book: &Book, setting: Call, caller: u32, other: u32) -> u64
    requires setting { IsCall book.now setting }
    requires caller { caller < length book.now }
    requires other { other < length book.now }
    ensures overwritten { (number : ℕ) → number < calls_of book.now caller → result ≤ number
        → ComesAfterOverwriting kind book.now setting
        (record { caller = caller; number = number }) }
    ensures all { (number : ℕ) (between : Call) → number < calls_of book.now caller
        → between.caller ≡ other → Overwrites kind book.now setting between
        → Precedes book.now between (record { caller = caller; number = number })
        → result ≤ number }
{
    match overwriting(kind, book, setting, other) {
        None => book.calls(caller),
        Some(between) => {
            let _callers = book.callers();
            book.view(between).get(caller)
        }
    }
}

// The first call of a caller that overwrites what a call sets.
fn overwriting(kind: Kind, book: &Book, setting: Call, caller: u32) -> Option<Call>
    requires setting { IsCall book.now setting }
    requires caller { caller < length book.now }
    ensures caller { IfSome result (λ between. between.caller ≡ caller) }
    ensures overwrites { IfSome result (Overwrites kind book.now setting) }
    ensures first { IfSome result (λ between. (other : Call) → other.caller ≡ caller
        → Overwrites kind book.now setting other → between.number ≤ other.number) }
    ensures none { IfNone result ((other : Call) → other.caller ≡ caller
        → ¬ Overwrites kind book.now setting other) }
{
    let _callers = book.callers();
    if setting.number >= book.answers(setting.caller) {
        return None;
    }
    for number in book.view(setting).get(caller)..book.answers(caller) {
        let between = Call { caller, number };
        if !is_read_only(kind, book, between) {
            return Some(between);
        }
    }
    None
}

/// Whether a call can't tell that another one has set a list, wherever it is overwritten.
pub fn cannot_see(kind: Kind, book: &Book, setting: Call, item: Option<u64>, seer: Call) -> bool
    requires setting { IsCall book.now setting }
    requires seer { IsCall book.now seer }
    ensures { IsTrue result ↔ (Writes kind book.now seer
        ⊎ RepliesOtherwise kind book.now item seer ⊎ Precedes book.now seer setting) }
{
    is_blind(kind, book, seer)
        || replies_otherwise(kind, book, item, seer)
        || book.precedes(seer, setting)
}

/// What a call sets, whatever the list was before: the only item of the list after it, or no item.
/// Of a set or a map only where all calls of the book are about one key.
pub fn item_set(kind: Kind, book: &Book, call: Call) -> Option<Option<u64>>
    requires { IsCall book.now call }
    ensures { result ≡ item_set kind book.now call }
{
    let _callers = book.callers();
    let reply = reply_of(book, call);
    item_set_with(kind, book.op(call), reply)
}

/// Whether a call leaves the same list, and gets the same reply where it is answered, whatever the
/// list was before.
pub fn is_blind(kind: Kind, book: &Book, call: Call) -> bool
    requires { IsCall book.now call }
    ensures { IsTrue result ↔ Writes kind book.now call }
{
    let _callers = book.callers();
    item_set_with(kind, book.op(call), None).is_some()
        && (!is_set_or_map(kind) || call.number >= book.answers(call.caller))
}

// Whether a call has another reply than the object gives where its list has this item alone, or no
// item.
fn replies_otherwise(kind: Kind, book: &Book, item: Option<u64>, call: Call) -> bool
    requires { IsCall book.now call }
    ensures { IsTrue result ↔ RepliesOtherwise kind book.now item call }
{
    let _callers = book.callers();
    let op = book.op(call);
    match (reply_of(book, call), reply_at(kind, item, op)) {
        (Some(reply), Some(given)) => reply != given,
        _ => false,
    }
}

// What an operation word sets, with its reply where it has one.
fn item_set_with(kind: Kind, op: OpWord, reply: Option<u64>) -> Option<Option<u64>>
    ensures { result ≡ item_set_with kind op reply }
{
    match kind {
        Kind::Register => set_by_register(op),
        Kind::CasRegister => set_by_cas_register(op, reply),
        Kind::IntSet => set_by_set(op),
        Kind::Map => set_by_map(op),
        Kind::Queue | Kind::Stack | Kind::Pqueue | Kind::Counter => None,
    }
}

fn set_by_register(op: OpWord) -> Option<Option<u64>>
    ensures { result ≡ set_by_register (register_operation op) }
{
    match RegisterOperation::from_word(op) {
        Some(RegisterOperation::Write(value)) => Some(Some(u64::from(value))),
        Some(RegisterOperation::Read) => None,
        None => None,
    }
}

fn set_by_cas_register(op: OpWord, reply: Option<u64>) -> Option<Option<u64>>
    ensures { result ≡ set_by_cas_register (cas_register_operation op) reply }
{
    match CasRegisterOperation::from_word(op) {
        Some(CasRegisterOperation::Write(value)) => Some(Some(u64::from(value))),
        Some(CasRegisterOperation::Read) => None,
        Some(CasRegisterOperation::CompareAndSet(_, new)) => where_yes(u64::from(new), reply),
        None => None,
    }
}

// A value as the only item of a list, where there is a reply and it is `YES`.
fn where_yes(value: u64, reply: Option<u64>) -> Option<Option<u64>>
    ensures { result ≡ where_yes value reply }
{
    if reply? == YES {
        Some(Some(value))
    } else {
        None
    }
}

fn set_by_set(op: OpWord) -> Option<Option<u64>>
    ensures { result ≡ set_by_set (set_operation op) }
{
    match IntSetOperation::from_word(op) {
        Some(IntSetOperation::Add(value)) => Some(Some(u64::from(value))),
        Some(IntSetOperation::Remove(_)) => Some(None),
        Some(IntSetOperation::Has(_)) => None,
        None => None,
    }
}

fn set_by_map(op: OpWord) -> Option<Option<u64>>
    ensures { result ≡ set_by_map (map_operation op) }
{
    match MapOperation::from_word(op) {
        Some(MapOperation::Put(key, value)) => Some(Some(map_item(key, value))),
        Some(MapOperation::Get(_)) => None,
        Some(MapOperation::Delete(_)) => Some(None),
        None => None,
    }
}

// The item of a map for a key and its value.
fn map_item(key: u32, value: u32) -> u64
    ensures { result ≡ item_of key value }
{
    u64::from(key) * VALUES + u64::from(value)
}

// The reply that the object gives to an operation where its list has this item alone, or no item.
fn reply_at(kind: Kind, item: Option<u64>, op: OpWord) -> Option<u64>
    ensures { result ≡ reply_at kind item op }
{
    match kind {
        Kind::Register => Some(register_reply(item, op)),
        Kind::CasRegister => Some(cas_register_reply(item, op)),
        Kind::IntSet => Some(set_reply(item, op)),
        Kind::Map => Some(map_reply(item, op)),
        Kind::Queue | Kind::Stack | Kind::Pqueue | Kind::Counter => None,
    }
}

fn register_reply(item: Option<u64>, op: OpWord) -> u64
    ensures { result ≡ (register_after (option_to_list item) (register_operation op)).1 }
{
    match RegisterOperation::from_word(op) {
        Some(RegisterOperation::Write(_)) => DONE,
        Some(RegisterOperation::Read) => wrapping_value_reply(value_or_zero(item)),
        None => BAD,
    }
}

fn cas_register_reply(item: Option<u64>, op: OpWord) -> u64
    ensures { result ≡ (cas_register_after (option_to_list item) (cas_register_operation op)).1 }
{
    match CasRegisterOperation::from_word(op) {
        Some(CasRegisterOperation::Write(_)) => DONE,
        Some(CasRegisterOperation::Read) => wrapping_value_reply(value_or_zero(item)),
        Some(CasRegisterOperation::CompareAndSet(expected, _)) => {
            if value_or_zero(item) % VALUES == u64::from(expected) {
                YES
            } else {
                NO
            }
        }
        None => BAD,
    }
}

fn value_or_zero(item: Option<u64>) -> u64
    ensures { result ≡ first_or_zero (option_to_list item) }
{
    match item {
        None => 0,
        Some(value) => value,
    }
}

fn set_reply(item: Option<u64>, op: OpWord) -> u64
    ensures { result ≡ (set_after (option_to_list item) (set_operation op)).1 }
{
    match IntSetOperation::from_word(op) {
        Some(IntSetOperation::Add(value)) => yes_or_no(!is_value(item, value)),
        Some(IntSetOperation::Remove(value)) => yes_or_no(is_value(item, value)),
        Some(IntSetOperation::Has(value)) => yes_or_no(is_value(item, value)),
        None => BAD,
    }
}

fn is_value(item: Option<u64>, value: u32) -> bool
    ensures { result ≡ is_some (place_of (option_to_list item) value) }
{
    match item {
        None => false,
        Some(item) => item == u64::from(value),
    }
}

fn yes_or_no(yes: bool) -> u64
    ensures { result ≡ (if yes then reply_yes else reply_no) }
{
    if yes { YES } else { NO }
}

fn map_reply(item: Option<u64>, op: OpWord) -> u64
    ensures { result ≡ (map_after (option_to_list item) (map_operation op)).1 }
{
    match MapOperation::from_word(op) {
        Some(MapOperation::Put(key, _)) => value_for(item, key),
        Some(MapOperation::Get(key)) => value_for(item, key),
        Some(MapOperation::Delete(key)) => value_for(item, key),
        None => BAD,
    }
}

fn value_for(item: Option<u64>, key: u32) -> u64
    ensures { result
        ≡ value_at (option_to_list item) (place_of_key (option_to_list item) key) }
{
    match item {
        None => NONE,
        Some(item) => {
            if item / VALUES == u64::from(key) {
                wrapping_value_reply(item)
            } else {
                NONE
            }
        }
    }
}
