//! Whether a book breaks a rule by two of its calls.

ghost use Rattle.std.specs.Prelude.{◌≡◌, ◌≢◌, ◌≤◌, ◌↔◌, true, sum, IsTrue};
ghost use Rattle.book_base.specs.Book.{IsCall, Precedes};
ghost use Rattle.broken_rules.specs.declared.tally.Tally.TheVariants as tallies;
ghost use Rattle.legal_orders.specs.Deals as deals;
ghost use Rattle.broken_rules.specs.Deeds.{did, took, value_at, taken_at, is_put};
ghost use Rattle.broken_rules.specs.Demands.{Missed};
ghost use Rattle.broken_rules.specs.Entries as entries;
ghost use Rattle.broken_rules.specs.Entries.{ShowsEntry, ExcludesEntry};
ghost use Rattle.broken_rules.specs.Rules.{HasImpossibleReply, SeesAtMost, CountsMore, Related, Breaks};

use crate::act::{act_of, taking_of};
use crate::demand::{Demand, all_meet, is_same, misses_key_of};
use crate::entry::{excludes_entry, shown_at, shows_entry};
use crate::rule::{BrokenRule, Relation};
use crate::tally::{Tally, tally_of};
use book_base::{Book, Call, Cut, SeqObject};
use seq_objects::Kind;

/// Whether a book breaks the rule of `broken` by the two calls of `broken`.
pub(crate) fn is_broken(kind: Kind, book: &Book, broken: BrokenRule) -> bool
    requires first { IsCall book.now broken.first }
    requires second { IsCall book.now broken.second }
    ensures { IsTrue result ↔ Breaks kind book.now broken }
{
    let rule = broken.rule;
    if !rule.is_kept_by(kind) {
        return false;
    }
    let first = act_of(kind, book, broken.first);
    let second = taking_of(kind, book, broken.second);
    if !rule.fits(first, second) {
        return false;
    }
    if !are_related(kind, book, rule.relation(), broken.first, broken.second) {
        return false;
    }
    if !all_meet(kind, book, rule.puts_demand(), broken.first, broken.second) {
        return false;
    }
    all_meet(kind, book, rule.takes_demand(), broken.first, broken.second)
}

// Whether two calls are related as `relation` says.
fn are_related(kind: Kind, book: &Book, relation: Relation, first: Call, second: Call) -> bool
    requires first { IsCall book.now first }
    requires second { IsCall book.now second }
    ensures { IsTrue result ↔ Related kind book.now relation first second }
{
    match relation {
        Relation::Same => is_same(first, second),
        Relation::NeverReplied => is_never_replied(kind, book, first, second),
        Relation::Unseen => is_unseen(kind, book, first, second),
        Relation::Apart => !is_same(first, second),
        Relation::Before => book.precedes(first, second),
        Relation::TakenByAnother => !all_meet(kind, book, Demand::OnlyTake, first, second),
        Relation::MissedAfter => is_missed_after(kind, book, first, second),
        Relation::TakenMore => is_taken_more(kind, book, first, second),
        Relation::LeftOver => is_left_over(kind, book, first, second),
        Relation::ShowsEntry => is_shown_alone(book, first, second),
        Relation::Excluded => is_excluded(book, first, second),
        Relation::BothSwap => both_swap(kind, book, first, second),
        Relation::Any => true,
    }
}

// Whether a call precedes another one, which missed the key of the first one.
fn is_missed_after(kind: Kind, book: &Book, first: Call, second: Call) -> bool
    requires first { IsCall book.now first }
    requires second { IsCall book.now second }
    ensures { IsTrue result ↔ (Precedes book.now first second
        × Missed kind book.now (value_at kind book.now first) second) }
{
    if book.precedes(first, second) {
        misses_key_of(kind, book, first, second)
    } else {
        false
    }
}

// Whether two calls are the same call, by whose reply more calls have taken its value than may have
// put it in.
fn is_taken_more(kind: Kind, book: &Book, first: Call, second: Call) -> bool
    requires first { IsCall book.now first }
    requires second { IsCall book.now second }
    ensures { IsTrue result ↔ ((first ≡ second)
        × CountsMore kind book.now tallies.TakenBy tallies.PutBy first second) }
{
    if is_same(first, second) {
        counts_more(kind, book, Tally::TakenBy, Tally::PutBy, first, second)
    } else {
        false
    }
}

// Whether a call precedes another one, before which more calls put the first one's value in than
// may have taken it by the second one's reply.
fn is_left_over(kind: Kind, book: &Book, first: Call, second: Call) -> bool
    requires first { IsCall book.now first }
    requires second { IsCall book.now second }
    ensures { IsTrue result ↔ (Precedes book.now first second
        × CountsMore kind book.now tallies.PutBefore tallies.TakableBy first second) }
{
    if book.precedes(first, second) {
        counts_more(
            kind,
            book,
            Tally::PutBefore,
            Tally::TakableBy,
            first,
            second,
        )
    } else {
        false
    }
}

// Whether two calls are different calls, which find the same value, and the second one writes a
// value.
fn both_swap(kind: Kind, book: &Book, first: Call, second: Call) -> bool
    requires first { IsCall book.now first }
    requires second { IsCall book.now second }
    ensures { IsTrue result ↔ ((first ≢ second)
        × ((took kind book.now first ≡ deals.Took (taken_at kind book.now second))
        × (is_put (did kind book.now second) ≡ true))) }
{
    if is_same(first, second) {
        return false;
    }
    if finds_value(kind, book, first, second) {
        act_of(kind, book, second).is_put()
    } else {
        false
    }
}

// Whether a call finds the value that the call `taker` takes.
fn finds_value(kind: Kind, book: &Book, call: Call, taker: Call) -> bool
    requires call { IsCall book.now call }
    requires taker { IsCall book.now taker }
    ensures { IsTrue result
        ↔ (took kind book.now call ≡ deals.Took (taken_at kind book.now taker)) }
{
    let value = taking_of(kind, book, taker).value();
    taking_of(kind, book, call).took(value)
}

// Whether two calls are the same call, which shows an entry of a map.
fn is_shown_alone(book: &Book, first: Call, second: Call) -> bool
    requires first { IsCall book.now first }
    requires second { IsCall book.now second }
    ensures { IsTrue result ↔ ((first ≡ second) × ShowsEntry book.now first) }
{
    if is_same(first, second) {
        shows_entry(book, first)
    } else {
        false
    }
}

// Whether a call precedes another one, which shows an entry that isn't there after the first one.
fn is_excluded(book: &Book, first: Call, second: Call) -> bool
    requires first { IsCall book.now first }
    requires second { IsCall book.now second }
    ensures { IsTrue result ↔ (Precedes book.now first second × (ShowsEntry book.now second
        × ExcludesEntry book.now (entries.shown_at book.now second) first)) }
{
    if !book.precedes(first, second) {
        return false;
    }
    if shows_entry(book, second) {
        excludes_entry(book, shown_at(book, second), first)
    } else {
        false
    }
}

// Whether more calls are counted by one tally than by another one, for the value of the call
// `valued` and the call `last`.
fn counts_more(kind: Kind, book: &Book, more: Tally, fewer: Tally, valued: Call, last: Call) -> bool
    requires valued { IsCall book.now valued }
    requires last { IsCall book.now last }
    ensures { IsTrue result ↔ CountsMore kind book.now more fewer valued last }
{
    let value = act_of(kind, book, valued).value();
    let lesser = tally_of(kind, book, fewer, value, last);
    let greater = tally_of(kind, book, more, value, last);
    lesser < greater
}

// Whether two calls are the same call, whose reply the object gives to its operation at no list.
fn is_never_replied(kind: Kind, book: &Book, first: Call, second: Call) -> bool
    requires first { IsCall book.now first }
    requires second { IsCall book.now second }
    ensures { IsTrue result ↔ ((first ≡ second) × HasImpossibleReply kind book.now first) }
{
    if is_same(first, second) {
        has_impossible_reply(kind, book, first)
    } else {
        false
    }
}

// Whether a call is answered, and the object gives its reply to its operation at no list.
fn has_impossible_reply(kind: Kind, book: &Book, call: Call) -> bool
    requires { IsCall book.now call }
    ensures { IsTrue result ↔ HasImpossibleReply kind book.now call }
{
    if call.number < book.answers(call.caller) {
        !kind.may_reply(book.op(call), book.reply(call))
    } else {
        false
    }
}

// Whether two calls are the same call, whose view holds no more calls than the count that it
// replies.
fn is_unseen(kind: Kind, book: &Book, first: Call, second: Call) -> bool
    requires first { IsCall book.now first }
    requires second { IsCall book.now second }
    ensures { IsTrue result
        ↔ ((first ≡ second) × SeesAtMost book.now first (value_at kind book.now first)) }
{
    if is_same(first, second) {
        let count = act_of(kind, book, first).value();
        sees_at_most(book, first, count)
    } else {
        false
    }
}

// Whether a call is answered, and its view holds at most `most` calls.
fn sees_at_most(book: &Book, call: Call, most: u64) -> bool
    requires { IsCall book.now call }
    ensures { IsTrue result ↔ SeesAtMost book.now call most }
{
    if call.number < book.answers(call.caller) {
        let record = book.record(call);
        holds_at_most(&record.view, most)
    } else {
        false
    }
}

// Whether a view holds at most `most` calls.
fn holds_at_most(view: &Cut, most: u64) -> bool
    ensures { IsTrue result ↔ (sum view.now ≤ most) }
{
    let mut more = most;
    for count in view.counts() {
        if *count > more {
            return false;
        }
        more -= *count;
    }
    true
}
