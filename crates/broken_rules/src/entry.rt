//! Entries of a map: keys with their values, as the items of its list.

ghost use Rattle.std.specs.Prelude.{◌≡◌, ◌↔◌, IsTrue};
ghost use Rattle.book_base.specs.Book.{IsCall, record_of};
ghost use Rattle.seq_objects.specs.MapSteps as steps;
ghost use Rattle.broken_rules.specs.Entries as entries;
ghost use Rattle.broken_rules.specs.Entries.{ShowsEntry, PutsEntry, ExcludesEntry};

use book_base::{Book, Call};
use seq_objects::{MapOperation, NONE};

/// How many values there are: a value is below this number.
const VALUES: u64 = 1 << 32;

/// The number that a reply word has above its low 32 bits where it gives a value.
const VALUE_TAG: u64 = 2;

// The entry that a call shows, where it shows one: its key, with the value that its reply gives.
fn shown_by(book: &Book, call: Call) -> Option<u64>
    requires { IsCall book.now call }
    ensures { result ≡ entries.shown_by book.now call }
{
    match asked_of(book, call) {
        None => None,
        Some(MapOperation::Put(key, _)) => entry_at(book, call, key),
        Some(MapOperation::Get(key)) => entry_at(book, call, key),
        Some(MapOperation::Delete(key)) => entry_at(book, call, key),
    }
}

/// Whether a call shows an entry.
pub(crate) fn shows_entry(book: &Book, call: Call) -> bool
    requires { IsCall book.now call }
    ensures { IsTrue result ↔ ShowsEntry book.now call }
{
    shown_by(book, call).is_some()
}

/// The entry that a call shows, or 0 where it shows none.
pub(crate) fn shown_at(book: &Book, call: Call) -> u64
    requires { IsCall book.now call }
    ensures { result ≡ entries.shown_at book.now call }
{
    shown_by(book, call).unwrap_or(0)
}

/// Whether a call puts the entry `entry` in.
pub(crate) fn puts_entry(book: &Book, entry: u64, call: Call) -> bool
    requires { IsCall book.now call }
    ensures { IsTrue result ↔ PutsEntry book.now entry call }
{
    match asked_of(book, call) {
        Some(MapOperation::Put(key, value)) => item_of(key, value) == entry,
        _ => false,
    }
}

/// Whether the entry `entry` isn't there after a call.
pub(crate) fn excludes_entry(book: &Book, entry: u64, call: Call) -> bool
    requires { IsCall book.now call }
    ensures { IsTrue result ↔ ExcludesEntry book.now entry call }
{
    let own = entry / VALUES;
    match asked_of(book, call) {
        None => false,
        Some(MapOperation::Put(key, value)) => {
            u64::from(key) == own && item_of(key, value) != entry
        }
        Some(MapOperation::Get(key)) => {
            u64::from(key) == own && got_other(book, entry, key, call)
        }
        Some(MapOperation::Delete(key)) => u64::from(key) == own,
    }
}

// Whether a get of a key is answered, and says that the entry `entry` isn't there.
fn got_other(book: &Book, entry: u64, key: u32, call: Call) -> bool
    requires { IsCall book.now call }
    ensures { result ≡ entries.got_other entry key (record_of book.now call) }
{
    if call.number >= book.answers(call.caller) {
        return false;
    }
    let reply = book.record(call).reply;
    reply == NONE || is_other(entry, entry_in(key, reply))
}

// Whether an entry is shown, and it is another one than the entry `entry`.
fn is_other(entry: u64, shown: Option<u64>) -> bool
    ensures { result ≡ entries.is_other entry shown }
{
    match shown {
        None => false,
        Some(item) => item != entry,
    }
}

// The entry that a call on the key `key` shows, where it is answered and shows one.
fn entry_at(book: &Book, call: Call, key: u32) -> Option<u64>
    requires { IsCall book.now call }
    ensures { result ≡ entries.entry_at key (record_of book.now call) }
{
    if call.number >= book.answers(call.caller) {
        return None;
    }
    entry_in(key, book.record(call).reply)
}

// The entry that an operation on the key `key` shows by its reply, where it shows one.
fn entry_in(key: u32, reply: u64) -> Option<u64>
    ensures { result ≡ entries.entry_in key reply }
{
    if reply / VALUES == VALUE_TAG {
        Some(u64::from(key) * VALUES + reply % VALUES)
    } else {
        None
    }
}

// The entry of a key and a value.
fn item_of(key: u32, value: u32) -> u64
    ensures { result ≡ steps.item_of key value }
{
    u64::from(key) * VALUES + u64::from(value)
}

// The operation of a call of a map, where the map knows its word.
fn asked_of(book: &Book, call: Call) -> Option<MapOperation>
    requires { IsCall book.now call }
    ensures { result ≡ entries.asked_of book.now call }
{
    MapOperation::from_word(book.op(call))
}
