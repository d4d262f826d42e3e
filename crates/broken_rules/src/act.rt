//! What a call of a book did.

ghost use Rattle.std.specs.Prelude.{◌≡◌, ◌==◌, ◌&&◌, ◌||◌};
ghost use Rattle.book_base.specs.Book.{IsCall, record_of};
ghost use Rattle.legal_orders.specs.Deals.{deed_of, deal_of, take_of};
ghost use Rattle.kind_search.specs.Readings.{queue_reading};
ghost use Rattle.broken_rules.specs.Deeds as deeds;
ghost use Rattle.broken_rules.specs.Deeds.{reading_of, counter_reading, did, took, set_by, set_deal, expected_by, expected_deal, deal_by_key, deal_on_key, absence_by, deal_of_act, value_by, is_put, is_take, is_nothing, is_open};

use book_base::{Book, Call, OpWord, SeqObject, low};
use kind_search::{PqueueReader, QueueReader, RegisterReader, StackReader};
use legal_orders::{Reader, Role};
use seq_objects::{CasRegisterOperation, Kind, NO, NONE, YES, shown_value};

/// How many keys there are: a key is below this number.
const KEYS: u64 = 1 << 32;

/// The code of the operation of a set or a map that puts a key in.
const PUT: u64 = 1;

/// The code of the operation of a set that takes a key out.
const REMOVE: u64 = 2;

/// The code of the operation of a map that takes a key out.
const DELETE: u64 = 3;

/// The number that a reply word has above its low 32 bits where it gives a value.
const VALUE_TAG: u64 = 2;

/// What a call of a book did. An increment takes the count that it replies, a read takes the value
/// that it shows, and an operation of a set or a map takes its key where it found the key.
#[derive(Clone, Copy, Debug)]
pub(crate) enum Act {
    /// The call puts a value in.
    Put(u64),
    /// The call is answered, and takes a value.
    Took(u64),
    /// The call is answered, and found nothing to take.
    FoundNothing,
    /// The call is a take without an answer.
    OpenTake,
    /// The call neither puts in nor takes.
    Other,
}

impl Act {
    /// The value that the act puts in or takes, and 0 where it does neither.
    pub(crate) fn value(self) -> u64
        ensures { result ≡ value_by (deal_of_act self) }
    {
        match self {
            Act::Put(value) => value,
            Act::Took(value) => value,
            _ => 0,
        }
    }

    /// Whether the act is a put.
    pub(crate) fn is_put(self) -> bool
        ensures { result ≡ is_put (deal_of_act self) }
    {
        matches!(self, Act::Put(_))
    }

    /// Whether the act is an answered take that shows a value.
    pub(crate) fn is_take(self) -> bool
        ensures { result ≡ is_take (deal_of_act self) }
    {
        matches!(self, Act::Took(_))
    }

    /// Whether the act is an answered take that found nothing.
    pub(crate) fn is_nothing(self) -> bool
        ensures { result ≡ is_nothing (deal_of_act self) }
    {
        matches!(self, Act::FoundNothing)
    }

    /// Whether the act is a take without an answer.
    fn is_open(self) -> bool
        ensures { result ≡ is_open (deal_of_act self) }
    {
        matches!(self, Act::OpenTake)
    }

    /// Whether the act puts the value `value` in.
    pub(crate) fn puts(self, value: u64) -> bool
        ensures { result ≡ (is_put (deal_of_act self) && (value_by (deal_of_act self) == value)) }
    {
        self.is_put() && self.value() == value
    }

    /// Whether the act is an answered take of the value `value`.
    pub(crate) fn took(self, value: u64) -> bool
        ensures { result ≡ (is_take (deal_of_act self) && (value_by (deal_of_act self) == value)) }
    {
        self.is_take() && self.value() == value
    }

    /// Whether the act may take the value `value`: it is a take of it, or a take without an answer.
    pub(crate) fn may_take(self, value: u64) -> bool
        ensures { result ≡ ((is_take (deal_of_act self) && (value_by (deal_of_act self) == value))
            || is_open (deal_of_act self)) }
    {
        self.took(value) || self.is_open()
    }
}

/// What a call of a book did.
pub(crate) fn act_of(kind: Kind, book: &Book, call: Call) -> Act
    requires { IsCall book.now call }
    ensures { deal_of_act result ≡ did kind book.now call }
{
    if is_keyed(kind) {
        act_by_key(kind, book, call)
    } else if is_cas_register(kind) {
        act_by_setting(book, call)
    } else {
        act_by_reading(kind, book, call)
    }
}

/// What a call of a book took: what it did, but a compare-and-set that is answered `yes` took the
/// value that it expected.
pub(crate) fn taking_of(kind: Kind, book: &Book, call: Call) -> Act
    requires { IsCall book.now call }
    ensures { deal_of_act result ≡ took kind book.now call }
{
    if is_cas_register(kind) {
        act_by_expecting(book, call)
    } else {
        act_of(kind, book, call)
    }
}

/// Whether a kind's objects are objects of keys: sets and maps.
pub(crate) fn is_keyed(kind: Kind) -> bool
    ensures { result ≡ deeds.is_keyed kind }
{
    matches!(kind, Kind::IntSet | Kind::Map)
}

/// Whether a kind's objects are registers with compare-and-set.
pub(crate) fn is_cas_register(kind: Kind) -> bool
    ensures { result ≡ deeds.is_cas_register kind }
{
    matches!(kind, Kind::CasRegister)
}

// What a call of a register with compare-and-set did.
fn act_by_setting(book: &Book, call: Call) -> Act
    requires { IsCall book.now call }
    ensures { deal_of_act result ≡ set_by book.now call }
{
    match CasRegisterOperation::from_word(book.op(call)) {
        Some(CasRegisterOperation::Write(value)) => Act::Put(u64::from(value)),
        Some(CasRegisterOperation::Read) => take_of(book, call),
        Some(CasRegisterOperation::CompareAndSet(_, new)) => set_act(book, call, u64::from(new)),
        None => Act::Other,
    }
}

// What a call that is a compare-and-set to the value `value` did.
fn set_act(book: &Book, call: Call, value: u64) -> Act
    requires { IsCall book.now call }
    ensures { deal_of_act result ≡ set_deal value (record_of book.now call) }
{
    if call.number < book.answers(call.caller) && book.record(call).reply == NO {
        Act::Other
    } else {
        Act::Put(value)
    }
}

// What a call of a register with compare-and-set found.
fn act_by_expecting(book: &Book, call: Call) -> Act
    requires { IsCall book.now call }
    ensures { deal_of_act result ≡ expected_by book.now call }
{
    match CasRegisterOperation::from_word(book.op(call)) {
        Some(CasRegisterOperation::Write(value)) => Act::Put(u64::from(value)),
        Some(CasRegisterOperation::Read) => take_of(book, call),
        Some(CasRegisterOperation::CompareAndSet(expected, _)) => {
            expected_act(book, call, u64::from(expected))
        }
        None => Act::Other,
    }
}

// What a call that is a compare-and-set, and expects the value `expected`, found.
fn expected_act(book: &Book, call: Call, expected: u64) -> Act
    requires { IsCall book.now call }
    ensures { deal_of_act result ≡ expected_deal expected (record_of book.now call) }
{
    if call.number < book.answers(call.caller) && book.record(call).reply == YES {
        Act::Took(expected)
    } else {
        Act::Other
    }
}

// What a call of a set or a map did with its key.
fn act_by_key(kind: Kind, book: &Book, call: Call) -> Act
    requires { IsCall book.now call }
    ensures { deal_of_act result ≡ deal_by_key kind book.now call }
{
    let op = book.op(call);
    let key = key_of_word(kind, op);
    let found = has_found(kind, book, call, op);
    let puts = puts_key(op);
    act_on_key(key, found, puts)
}

// What an operation with the key `key` did, by whether it found the key (`found`) and whether it
// puts the key in (`puts`).
fn act_on_key(key: Option<u64>, found: bool, puts: bool) -> Act
    ensures { deal_of_act result ≡ deal_on_key key found puts }
{
    match key {
        None => Act::Other,
        Some(key) => {
            if found {
                Act::Took(key)
            } else if puts {
                Act::Put(key)
            } else {
                Act::Other
            }
        }
    }
}

// The key of an operation word of a set or a map, where the object knows the word.
fn key_of_word(kind: Kind, op: OpWord) -> Option<u64>
    ensures { result ≡ deeds.key_of_word kind op }
{
    if kind.known(op) {
        Some(low(op) % KEYS)
    } else {
        None
    }
}

// Whether an operation word of a set or a map puts its key in.
fn puts_key(op: OpWord) -> bool
    ensures { result ≡ deeds.puts_key op }
{
    low(op) / KEYS == PUT
}

// Whether a call with the operation word `op` is answered, and its reply says that its key was
// there.
fn has_found(kind: Kind, book: &Book, call: Call, op: OpWord) -> bool
    requires { IsCall book.now call }
    ensures { result ≡ deeds.has_found kind op (record_of book.now call) }
{
    if call.number >= book.answers(call.caller) {
        return false;
    }
    finds_key(kind, op, book.record(call).reply)
}

// Whether the reply to an operation of a set or a map says that its key was there. It never does
// for other kinds.
fn finds_key(kind: Kind, op: OpWord, reply: u64) -> bool
    ensures { result ≡ deeds.finds_key kind op reply }
{
    match kind {
        Kind::IntSet => set_finds(op, reply),
        Kind::Map => reply / KEYS == VALUE_TAG,
        Kind::Queue
        | Kind::Stack
        | Kind::Pqueue
        | Kind::Register
        | Kind::Counter
        | Kind::CasRegister => false,
    }
}

// Whether the reply to an operation of a set says that its key was there.
fn set_finds(op: OpWord, reply: u64) -> bool
    ensures { result ≡ deeds.set_finds op reply }
{
    if puts_key(op) {
        reply == NO
    } else {
        reply == YES
    }
}

/// What a call of a set or a map did with the absence of its key: a call that missed the key takes
/// its absence, and one that may take the key out puts it in.
pub(crate) fn absence_of(kind: Kind, book: &Book, call: Call) -> Act
    requires { IsCall book.now call }
    ensures { deal_of_act result ≡ absence_by kind book.now call }
{
    let op = book.op(call);
    let key = key_of_word(kind, op);
    let missed = has_missed(kind, book, call, op);
    let takes = takes_key_out(kind, op);
    act_on_key(key, missed, takes)
}

// Whether an operation word of a set or a map takes its key out.
fn takes_key_out(kind: Kind, op: OpWord) -> bool
    ensures { result ≡ deeds.takes_key_out kind op }
{
    match kind {
        Kind::IntSet => low(op) / KEYS == REMOVE,
        Kind::Map => low(op) / KEYS == DELETE,
        Kind::Queue
        | Kind::Stack
        | Kind::Pqueue
        | Kind::Register
        | Kind::Counter
        | Kind::CasRegister => false,
    }
}

// Whether a call with the operation word `op` is answered, and its reply says that its key was not
// there.
fn has_missed(kind: Kind, book: &Book, call: Call, op: OpWord) -> bool
    requires { IsCall book.now call }
    ensures { result ≡ deeds.has_missed kind op (record_of book.now call) }
{
    if call.number >= book.answers(call.caller) {
        return false;
    }
    misses_key(kind, op, book.record(call).reply)
}

// Whether the reply to an operation of a set or a map says that its key was not there. It never
// does for other kinds.
fn misses_key(kind: Kind, op: OpWord, reply: u64) -> bool
    ensures { result ≡ deeds.misses_key kind op reply }
{
    match kind {
        Kind::IntSet => set_misses(op, reply),
        Kind::Map => reply == NONE,
        Kind::Queue
        | Kind::Stack
        | Kind::Pqueue
        | Kind::Register
        | Kind::Counter
        | Kind::CasRegister => false,
    }
}

// Whether the reply to an operation of a set says that its key was not there.
fn set_misses(op: OpWord, reply: u64) -> bool
    ensures { result ≡ deeds.set_misses op reply }
{
    if puts_key(op) {
        reply == YES
    } else {
        reply == NO
    }
}

// What a call did, as the reading of its kind says.
fn act_by_reading(kind: Kind, book: &Book, call: Call) -> Act
    requires { IsCall book.now call }
    ensures { deal_of_act result ≡ deal_of (reading_of kind) book.now call }
{
    match role_of(kind, book.op(call)) {
        Role::Put(value) => Act::Put(value),
        Role::Take => take_of(book, call),
        Role::Other => Act::Other,
    }
}

// What a call that is a take did. Replies of all kinds show a value in the same way.
fn take_of(book: &Book, call: Call) -> Act
    requires { IsCall book.now call }
    ensures { deal_of_act result ≡ take_of queue_reading book.now call }
{
    if call.number >= book.answers(call.caller) {
        return Act::OpenTake;
    }
    match shown_value(book.record(call).reply) {
        Some(value) => Act::Took(value),
        None => Act::FoundNothing,
    }
}

// The role of an operation word of a kind: whether it puts a value in, takes one out, or does
// neither.
fn role_of(kind: Kind, op: OpWord) -> Role
    ensures { deed_of result ≡ (reading_of kind).deed op }
{
    match kind {
        Kind::Queue => QueueReader.role(op),
        Kind::Stack => StackReader.role(op),
        Kind::Pqueue => PqueueReader.role(op),
        Kind::Register => RegisterReader.role(op),
        Kind::Counter => counter_role(op),
        Kind::IntSet | Kind::CasRegister | Kind::Map => Role::Other,
    }
}

// The role of an operation word of a counter: an increment takes the count that it replies.
fn counter_role(op: OpWord) -> Role
    ensures { deed_of result ≡ counter_reading.deed op }
{
    if Kind::Counter.known(op) {
        Role::Take
    } else {
        Role::Other
    }
}
