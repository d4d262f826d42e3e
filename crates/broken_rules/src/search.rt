//! The search for a rule that a book breaks.

ghost use Rattle.std.specs.Prelude.{◌≡◌, ℕ, ◌<◌, true, length, slice_get, Some, IfSome, IfNone};
ghost use Rattle.book_base.specs.declared.call.Call.{Call};
ghost use Rattle.book_base.specs.Book.{calls_of, IsCall};
ghost use Rattle.book_base.specs.Order.{HasLegalOrder};
ghost use Rattle.seq_objects.specs.Objects.{kind_spec};
ghost use Rattle.broken_rules.specs.declared.rule.BrokenRule.{BrokenRule};
ghost use Rattle.broken_rules.specs.declared.rule.Rule.{Rule};
ghost use Rattle.broken_rules.specs.Rules.{is_of_one_call, Breaks};

use crate::breaking::is_broken;
use crate::rule::{BrokenRule, Rule};
use book_base::{Book, Call};
use seq_objects::Kind;

/// The rules, in the order in which they are tried.
const RULES: [Rule; 19] = [
    Rule::NeverReplied,
    Rule::TakenUnput,
    Rule::CountedUnseen,
    Rule::ReadUnwritten,
    Rule::FoundUnput,
    Rule::TakenTwice,
    Rule::PassedOver,
    Rule::TakenFromUnder,
    Rule::LesserLeft,
    Rule::FoundNothing,
    Rule::CountedTwice,
    Rule::CountedDown,
    Rule::ReadOverwritten,
    Rule::KeyMissed,
    Rule::TakenTooOften,
    Rule::LeftBehind,
    Rule::ValueUnput,
    Rule::ValueOverwritten,
    Rule::SwappedTwice,
];

/// A rule that a book breaks, with the two calls by which it breaks the rule; `None` where it
/// breaks none of the rules of [`Rule`]. A book that breaks a rule has no legal order. A book that
/// breaks none may have a legal order or not.
///
/// For a rule of two calls all pairs of calls are tried, and for some pairs all calls of the book
/// are looked at: the function is made for small books.
pub fn broken_rule(kind: Kind, book: &Book) -> Option<BrokenRule>
    // Where a rule is returned, the book breaks it by the two calls that are returned with it.
    ensures broken { IfSome result (λ broken. Breaks kind book.now broken) }
    // Where a rule is returned, the book has no legal order.
    ensures illegal { IfSome result (λ _. ¬ HasLegalOrder (kind_spec kind) book.now) }
    // Where `None` is returned, the book breaks no rule.
    ensures none { IfNone result ((broken : BrokenRule) → Breaks kind book.now broken → ⊥) }
{
    let _callers = book.callers();
    first_broken(kind, book, &RULES)
}

// The first one of `rules` that a book breaks, with the two calls by which it breaks the rule.
fn first_broken(kind: Kind, book: &Book, rules: &[Rule]) -> Option<BrokenRule>
    ensures broken { IfSome result (λ broken. Breaks kind book.now broken) }
    ensures none { IfNone result ((k : ℕ) (broken : BrokenRule)
        → slice_get rules.now k ≡ Some broken.rule → Breaks kind book.now broken → ⊥) }
{
    for rule in rules {
        match broken_by(kind, book, *rule) {
            Some(broken) => return Some(broken),
            None => {}
        }
    }
    None
}

// The rule `rule`, with two calls by which a book breaks it, if there are such calls.
fn broken_by(kind: Kind, book: &Book, rule: Rule) -> Option<BrokenRule>
    ensures broken { IfSome result (λ broken. Breaks kind book.now broken) }
    ensures none { IfNone result ((first second : Call) → Breaks kind book.now
        (record { rule = rule; first = first; second = second }) → ⊥) }
{
    if !rule.is_kept_by(kind) {
        return None;
    }
    for caller in 0..book.callers() {
        match broken_by_caller(kind, book, rule, caller) {
            Some(broken) => return Some(broken),
            None => {}
        }
    }
    None
}

// The rule `rule`, with two calls by which a book breaks it, the first of them a call of `caller`.
fn broken_by_caller(kind: Kind, book: &Book, rule: Rule, caller: u32) -> Option<BrokenRule>
    requires { caller < length book.now }
    ensures broken { IfSome result (λ broken. Breaks kind book.now broken) }
    ensures none { IfNone result ((number : ℕ) (second : Call)
        → Breaks kind book.now (record {
          rule = rule;
          first = record { caller = caller; number = number };
          second = second;
        }) → ⊥) }
{
    for number in 0..book.calls(caller) {
        match broken_at(kind, book, rule, Call { caller, number }) {
            Some(broken) => return Some(broken),
            None => {}
        }
    }
    None
}

// The rule `rule`, with two calls by which a book breaks it, the first of them `first`; where the
// rule is of one call, `first` stands as both.
fn broken_at(kind: Kind, book: &Book, rule: Rule, first: Call) -> Option<BrokenRule>
    requires { IsCall book.now first }
    ensures broken { IfSome result (λ broken. Breaks kind book.now broken) }
    ensures none { IfNone result ((second : Call) → Breaks kind book.now
        (record { rule = rule; first = first; second = second }) → ⊥) }
{
    if rule.is_of_one_call() {
        broken_alone(kind, book, rule, first)
    } else {
        broken_with(kind, book, rule, first)
    }
}

// The rule `rule`, which is of one call, with the call `only` as both of its calls, where a book
// breaks the rule by this call.
fn broken_alone(kind: Kind, book: &Book, rule: Rule, only: Call) -> Option<BrokenRule>
    requires call { IsCall book.now only }
    requires rule { is_of_one_call rule ≡ true }
    ensures broken { IfSome result (λ broken. Breaks kind book.now broken) }
    ensures none { IfNone result ((second : Call) → Breaks kind book.now
        (record { rule = rule; first = only; second = second }) → ⊥) }
{
    let broken = BrokenRule {
        rule,
        first: only,
        second: only,
    };
    if is_broken(kind, book, broken) {
        Some(broken)
    } else {
        None
    }
}

// The rule `rule`, with two calls by which a book breaks it, the first of them `first`.
fn broken_with(kind: Kind, book: &Book, rule: Rule, first: Call) -> Option<BrokenRule>
    requires { IsCall book.now first }
    ensures broken { IfSome result (λ broken. Breaks kind book.now broken) }
    ensures none { IfNone result ((second : Call) → Breaks kind book.now
        (record { rule = rule; first = first; second = second }) → ⊥) }
{
    for caller in 0..book.callers() {
        match broken_with_caller(kind, book, rule, first, caller) {
            Some(broken) => return Some(broken),
            None => {}
        }
    }
    None
}

// The rule `rule`, with two calls by which a book breaks it, the first of them `first`, and the
// second one a call of `caller`.
fn broken_with_caller(
    kind: Kind,
    book: &Book,
    rule: Rule,
    first: Call,
    caller: u32,
) -> Option<BrokenRule>
    requires first { IsCall book.now first }
    requires caller { caller < length book.now }
    ensures broken { IfSome result (λ broken. Breaks kind book.now broken) }
    ensures none { IfNone result ((number : ℕ) → Breaks kind book.now
        (record {
          rule = rule;
          first = first;
          second = record { caller = caller; number = number };
        }) → ⊥) }
{
    for number in 0..book.calls(caller) {
        let broken = BrokenRule {
            rule,
            first,
            second: Call { caller, number },
        };
        if is_broken(kind, book, broken) {
            return Some(broken);
        }
    }
    None
}
