ghost use Rattle.std.specs.Prelude.{◌≡◌, ◌≢◌, ℕ, ◌^◌, ◌<◌, ◌++◌, true, false, map, decimal, option_map, IfSome, IfNone, OnOk, OnErr};
ghost use Rattle.seq_objects.specs.Words.{AppendsPrefix};
ghost use Rattle.seq_objects.specs.Replies.{named_replies, named_reply, is_value, is_value_or_none, is_yes_or_no, is_known_reply, reply_word, reply_value, shown_value};
ghost use Rattle.seq_objects.specs.ReplyView.{shown, reply_named};

use crate::digits::{argument, number, put_marked, suffix};
use book_base::{BAD, NoMemory};

/// How many values a reply word can give.
const VALUES: u64 = 1 << 32;

/// The tag of a reply word that gives a value.
const VALUE_TAG: u64 = 2;

/// The reply word of an operation that was made, with nothing more to say.
pub const DONE: u64 = 0;

/// The reply word where there is no item.
pub const NONE: u64 = 1 << 32;

/// The reply word for no.
pub const NO: u64 = 3 << 32;

/// The reply word for yes.
pub const YES: u64 = (3 << 32) + 1;

/// A reply word whose text is a name, and this name.
#[derive(Clone, Copy)]
struct NamedReply {
    name: &'static str,
    word: u64,
}

const NAMED_REPLIES: [NamedReply; 5] = [
    NamedReply {
        name: "done",
        word: DONE,
    },
    NamedReply {
        name: "none",
        word: NONE,
    },
    NamedReply {
        name: "no",
        word: NO,
    },
    NamedReply {
        name: "yes",
        word: YES,
    },
    NamedReply {
        name: "bad",
        word: BAD,
    },
];

/// The table of the replies whose text is a name.
#[tactic(auto, unfolding(crate::specs::Replies::named_replies))]
fn all_named() -> &'static [NamedReply]
    ensures { map shown result.now ≡ named_replies }
{
    &NAMED_REPLIES
}

/// The entry of a reply word in the table of named replies, where the table has it.
fn named(reply: u64) -> Option<NamedReply>
    ensures { option_map shown result ≡ named_reply reply }
{
    all_named()
        .iter()
        .find(|entry| reply == entry.word)
        .copied()
}

/// The entry with the name `name` in the table of named replies.
fn reply_named(name: &[u8]) -> Option<NamedReply>
    ensures { option_map shown result ≡ reply_named name.now }
{
    all_named()
        .iter()
        .find(|entry| entry.name.as_bytes() == name)
        .copied()
}

/// The reply word that gives an item modulo 2^32.
pub fn wrapping_value_reply(item: u64) -> u64
    ensures { result ≡ reply_value item }
{
    VALUE_TAG * VALUES + item % VALUES
}

/// Whether a reply word gives a value.
pub fn is_value(reply: u64) -> bool
    ensures { result ≡ is_value reply }
{
    reply / VALUES == VALUE_TAG
}

/// Whether a reply word gives a value or is `NONE`.
pub fn is_value_or_none(reply: u64) -> bool
    ensures { result ≡ is_value_or_none reply }
{
    reply == NONE || is_value(reply)
}

/// Whether a reply word is `YES` or `NO`.
pub fn is_yes_or_no(reply: u64) -> bool
    ensures { result ≡ is_yes_or_no reply }
{
    reply == YES || reply == NO
}

/// The value that a reply word gives, if it gives one.
pub fn shown_value(reply: u64) -> Option<u64>
    ensures { result ≡ shown_value reply }
{
    if is_value(reply) {
        Some(reply % VALUES)
    } else {
        None
    }
}

/// Whether a reply word has a text other than '#' and the whole number.
#[tactic(auto, unfolding(crate::specs::Replies::is_known_reply))]
fn is_known(reply: u64) -> bool
    ensures { result ≡ is_known_reply reply }
{
    named(reply).is_some() || is_value(reply)
}

/// The reply word that `digits` spell, where it neither has a name nor gives a value.
fn unknown_reply(digits: &[u8]) -> Option<u64>
    ensures found { IfSome result (λ reply.
        (decimal reply ≡ digits.now) × (is_known_reply reply ≡ false)) }
    ensures none { IfNone result ((reply : ℕ) → reply < 2 ^ 64
        → decimal reply ≡ digits.now → is_known_reply reply ≡ true) }
{
    let reply = number(digits)?;
    if is_known(reply) { None } else { Some(reply) }
}

/// The reply word whose text is `word`.
pub fn reply_from_word(word: &[u8]) -> Option<u64>
    // A reply that is answered is the one whose text the word is.
    ensures found { IfSome result (λ reply. reply_word reply ≡ word.now) }
    // None is answered only where the word is the text of no reply word.
    ensures none { IfNone result ((reply : ℕ) → reply < 2 ^ 64 → reply_word reply ≢ word.now) }
{
    if let Some(entry) = reply_named(word) {
        return Some(entry.word);
    }
    match suffix(b'=', word) {
        Some(digits) => Some(wrapping_value_reply(u64::from(argument(digits)?))),
        None => unknown_reply(suffix(b'#', word)?),
    }
}

/// Appends the text of a reply word.
pub fn put_reply(out: &mut Vec<u8>, reply: u64) -> Result<(), NoMemory>
    // After an answer Ok the vector has the text of the reply after what it held.
    ensures ok { OnOk result (out.new.items ≡ out.old.items ++ reply_word reply) }
    // After want of memory the vector has what it held and a prefix of the text of the reply.
    ensures err { OnErr result (AppendsPrefix out.old.items out.new.items (reply_word reply)) }
{
    if let Some(entry) = named(reply) {
        out.extend_from_slice(entry.name.as_bytes())?;
        Ok(())
    } else if is_value(reply) {
        put_marked(out, b'=', reply % VALUES)
    } else {
        put_marked(out, b'#', reply)
    }
}
