//! The text of a broken rule: one line in plain words.

ghost use Rattle.std.specs.Prelude.{◌≡◌, ℕ, ◌++◌, IfOk, OnOk};
ghost use Rattle.book_base.specs.Book.{IsCall};
ghost use Rattle.broken_rules.specs.Deeds.{value_at};
ghost use Rattle.broken_rules.specs.Texts.{call_text, plain_text, one_text, two_text, both_text, counts_text, often_text, behind_text, entry_text, overwritten_text, rule_text, broken_text};

use crate::act::{act_of, taking_of};
use crate::entry::shown_at;
use crate::rule::{BrokenRule, Rule};
use crate::tally::tally_of;
use book_base::{Book, Call, NoMemory};
use seq_objects::{Kind, put_number};
use std::alloc::Global;

/// How many values there are: a value is below this number.
const VALUES: u64 = 1 << 32;

/// The line that says by which calls a book breaks a rule, with the values that these calls put in,
/// take or show.
pub fn broken_line(
    alloc: Global,
    kind: Kind,
    book: &Book,
    broken: BrokenRule,
) -> Result<Vec<u8>, NoMemory>
    // The first call is one of the book.
    requires first { IsCall book.now broken.first }
    // The second call is one of the book.
    requires second { IsCall book.now broken.second }
    // The line is the text of the broken rule.
    ensures { IfOk result (λ line. line.items ≡ broken_text kind book.now broken) }
{
    let value = act_of(kind, book, broken.first).value();
    let other = taking_of(kind, book, broken.second).value();
    let more = tally_of(kind, book, broken.rule.more(), value, broken.second);
    let fewer = tally_of(kind, book, broken.rule.fewer(), value, broken.second);
    let mut line = Vec::new(alloc);
    let shown = shown_at(book, broken.second) % VALUES;
    put_rule(&mut line, broken, value, other, more, fewer, shown)?;
    Ok(line)
}

// Appends the line of the rule of `broken`, whose two calls have the values `value` and `other`. In
// a rule of counts they are `more` and `fewer`, and a call of a map shows the value `shown`.
#[tactic(auto, unfolding(crate::specs::Texts::rule_text))]
fn put_rule(
    out: &mut Vec<u8>,
    broken: BrokenRule,
    value: u64,
    other: u64,
    more: u64,
    fewer: u64,
    shown: u64,
) -> Result<(), NoMemory>
    ensures { OnOk result (out.new.items
        ≡ out.old.items
        ++ rule_text broken.rule broken.first value broken.second other more fewer shown) }
{
    let first = broken.first;
    let second = broken.second;
    match broken.rule {
        Rule::NeverReplied => put_plain(
            out,
            first,
            b" has a reply that the object never gives to its operation\n",
        ),
        Rule::TakenUnput => put_one(
            out,
            first,
            b" took ",
            value,
            b", which no call had put in before\n",
        ),
        Rule::TakenTwice => put_two(
            out,
            first,
            b" alone put ",
            value,
            b" in, yet it was taken by ",
            second,
            b" and by another call\n",
        ),
        Rule::FoundNothing => put_two(
            out,
            first,
            b" put ",
            value,
            b" in, yet ",
            second,
            b" found nothing while it was there\n",
        ),
        Rule::PassedOver => put_both(
            out,
            first,
            b" put ",
            value,
            b" in first, yet ",
            second,
            b" took ",
            other,
            b" while it was there\n",
        ),
        Rule::TakenFromUnder => put_both(
            out,
            first,
            b" put ",
            value,
            b" in last, yet ",
            second,
            b" took ",
            other,
            b" while it was there\n",
        ),
        Rule::LesserLeft => put_both(
            out,
            first,
            b" put ",
            value,
            b" in, yet ",
            second,
            b" took ",
            other,
            b", which is greater, while it was there\n",
        ),
        Rule::CountedUnseen => put_one(
            out,
            first,
            b" counted ",
            value,
            b", though fewer other calls had begun before its reply\n",
        ),
        Rule::CountedTwice => put_two(
            out,
            first,
            b" counted ",
            value,
            b", and so did ",
            second,
            b"\n",
        ),
        Rule::CountedDown => put_both(
            out,
            first,
            b" counted ",
            value,
            b", and after it ",
            second,
            b" counted ",
            other,
            b"\n",
        ),
        Rule::ReadUnwritten => put_one(
            out,
            first,
            b" read ",
            other,
            b", which no call had written before\n",
        ),
        Rule::ReadOverwritten => put_both(
            out,
            first,
            b" wrote ",
            value,
            b", and after it ",
            second,
            b" read ",
            other,
            b", which was written over\n",
        ),
        Rule::FoundUnput => put_one(
            out,
            first,
            b" found ",
            value,
            b", which no call had put in before\n",
        ),
        Rule::KeyMissed => put_two(
            out,
            first,
            b" left ",
            value,
            b" in, yet ",
            second,
            b" missed it while it was there\n",
        ),
        Rule::TakenTooOften => put_taken_often(out, first, value, more, fewer),
        Rule::LeftBehind => put_left_behind(out, first, value, second, more, fewer),
        Rule::ValueUnput => put_entry(
            out,
            first,
            b" found ",
            shown,
            b" under key ",
            value,
            b", which no call had put there before\n",
        ),
        Rule::ValueOverwritten => put_overwritten(out, first, second, shown, other),
        Rule::SwappedTwice => put_two(
            out,
            first,
            b" replaced ",
            other,
            b", and so did ",
            second,
            b", though no call wrote it in between\n",
        ),
    }
}

// Appends that a call took a value which `more` calls had taken, and `fewer` may have put in.
fn put_taken_often(
    out: &mut Vec<u8>,
    first: Call,
    value: u64,
    more: u64,
    fewer: u64,
) -> Result<(), NoMemory>
    ensures { OnOk result (out.new.items ≡ out.old.items ++ often_text first value more fewer) }
{
    put_one(out, first, b" took ", value, b", which ")?;
    put_counts(
        out,
        more,
        b" calls had taken by then, and only ",
        fewer,
        b" may have put in\n",
    )?;
    Ok(())
}

// Appends that a call put a value in, yet another one found nothing, after `more` calls had put it
// in, and `fewer` may have taken it.
fn put_left_behind(
    out: &mut Vec<u8>,
    first: Call,
    value: u64,
    second: Call,
    more: u64,
    fewer: u64,
) -> Result<(), NoMemory>
    ensures { OnOk result (out.new.items
        ≡ out.old.items ++ behind_text first value second more fewer) }
{
    put_two(
        out,
        first,
        b" put ",
        value,
        b" in, yet ",
        second,
        b" found nothing, after ",
    )?;
    put_counts(
        out,
        more,
        b" calls had put it in, and only ",
        fewer,
        b" may have taken it\n",
    )?;
    Ok(())
}

// Appends what one call did with a value and a key, and what is said of that.
fn put_entry(
    out: &mut Vec<u8>,
    call: Call,
    deed: &[u8],
    value: u64,
    middle: &[u8],
    key: u64,
    end: &[u8],
) -> Result<(), NoMemory>
    ensures { OnOk result (out.new.items
        ≡ out.old.items ++ entry_text call deed.now value middle.now key end.now) }
{
    put_one(out, call, deed, value, middle)?;
    put_number(out, key)?;
    out.extend_from_slice(end)?;
    Ok(())
}

// Appends that a call found a value under a key, though it was gone after an earlier call.
fn put_overwritten(
    out: &mut Vec<u8>,
    first: Call,
    second: Call,
    value: u64,
    key: u64,
) -> Result<(), NoMemory>
    ensures { OnOk result (out.new.items
        ≡ out.old.items ++ overwritten_text first second value key) }
{
    put_call(out, first)?;
    out.extend_from_slice(b" came before ")?;
    put_entry(
        out,
        second,
        b", which found ",
        value,
        b" under key ",
        key,
        b", though this value was gone by then\n",
    )?;
    Ok(())
}

// Appends what is said of two counts.
fn put_counts(
    out: &mut Vec<u8>,
    more: u64,
    middle: &[u8],
    fewer: u64,
    end: &[u8],
) -> Result<(), NoMemory>
    ensures { OnOk result (out.new.items
        ≡ out.old.items ++ counts_text more middle.now fewer end.now) }
{
    put_number(out, more)?;
    out.extend_from_slice(middle)?;
    put_number(out, fewer)?;
    out.extend_from_slice(end)?;
    Ok(())
}

// Appends what is said of one call.
fn put_plain(out: &mut Vec<u8>, first: Call, end: &[u8]) -> Result<(), NoMemory>
    ensures { OnOk result (out.new.items ≡ out.old.items ++ plain_text first end.now) }
{
    put_call(out, first)?;
    out.extend_from_slice(end)?;
    Ok(())
}

// Appends what one call did with a value, and what is said of that.
fn put_one(
    out: &mut Vec<u8>,
    first: Call,
    deed: &[u8],
    value: u64,
    end: &[u8],
) -> Result<(), NoMemory>
    ensures { OnOk result (out.new.items
        ≡ out.old.items ++ one_text first deed.now value end.now) }
{
    put_call(out, first)?;
    out.extend_from_slice(deed)?;
    put_number(out, value)?;
    out.extend_from_slice(end)?;
    Ok(())
}

// Appends what one call did with a value, and what another call did.
fn put_two(
    out: &mut Vec<u8>,
    first: Call,
    deed: &[u8],
    value: u64,
    middle: &[u8],
    second: Call,
    end: &[u8],
) -> Result<(), NoMemory>
    ensures { OnOk result (out.new.items
        ≡ out.old.items ++ two_text first deed.now value middle.now second end.now) }
{
    put_one(out, first, deed, value, middle)?;
    put_call(out, second)?;
    out.extend_from_slice(end)?;
    Ok(())
}

// Appends what two calls did with two values.
fn put_both(
    out: &mut Vec<u8>,
    first: Call,
    deed: &[u8],
    value: u64,
    middle: &[u8],
    second: Call,
    verb: &[u8],
    other: u64,
    end: &[u8],
) -> Result<(), NoMemory>
    ensures { OnOk result (out.new.items
        ≡ out.old.items
        ++ both_text first deed.now value middle.now second verb.now other end.now) }
{
    put_two(out, first, deed, value, middle, second, verb)?;
    put_number(out, other)?;
    out.extend_from_slice(end)?;
    Ok(())
}

// Appends a call by its caller and its number.
fn put_call(out: &mut Vec<u8>, call: Call) -> Result<(), NoMemory>
    ensures { OnOk result (out.new.items ≡ out.old.items ++ call_text call) }
{
    out.extend_from_slice(b"call ")?;
    put_number(out, u64::from(call.caller))?;
    out.extend_from_slice(b" ")?;
    put_number(out, call.number)?;
    Ok(())
}
