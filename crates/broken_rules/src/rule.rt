//! The rules that objects keep.

ghost use Rattle.std.specs.Prelude.{◌≡◌};
ghost use Rattle.broken_rules.specs.Deeds.{deal_of_act};
ghost use Rattle.broken_rules.specs.Rules as rules;
ghost use Rattle.broken_rules.specs.Texts as texts;

use crate::act::{Act, is_cas_register, is_keyed};
use crate::demand::Demand;
use crate::tally::Tally;
use book_base::Call;
use seq_objects::Kind;

/// A rule that the objects of a kind keep. A book breaks it by two of its calls, or by one that
/// stands as both.
#[derive(Clone, Copy, Debug, PartialEq, Eq)]
pub enum Rule {
    /// A reply is one that the object may give: the first call has a reply that the object gives to
    /// its operation at no list.
    NeverReplied,
    /// What is taken was put in before: the first call takes a value, and each put of this value
    /// comes after the first call.
    TakenUnput,
    /// A value that is put in once is taken at most once: the first call alone puts a value in, and
    /// both the second call and another call take it.
    TakenTwice,
    /// A take finds what is there: the second call finds nothing, the first call precedes it and
    /// puts a value in, and each call that may take this value comes after the second call.
    FoundNothing,
    /// A queue gives the oldest value: the first call puts a value in, and the second one takes
    /// another value, which is only put in after the first call, while the first value is still
    /// there.
    PassedOver,
    /// A stack gives the newest value: the first call puts a value in and precedes the second one,
    /// which takes another value while the first value is still there. Each put of that other value
    /// comes before the first call or after the second one.
    TakenFromUnder,
    /// A priority queue gives the least value: the second call takes a value while a lesser one is
    /// there, which the first call put in before.
    LesserLeft,
    /// A counter counts increments that were made: the first call replies a count that is greater
    /// than the number of other calls in its view.
    CountedUnseen,
    /// A counter gives each count once: two calls reply the same count.
    CountedTwice,
    /// A counter goes up: the second call replies a lower count than the first one, which precedes
    /// it.
    CountedDown,
    /// What is read was written before: the call reads a value other than 0, and each write of this
    /// value comes after it. A compare-and-set that is answered `yes` reads the value that it
    /// expects, and one that isn't answered `no` writes its new value.
    ReadUnwritten,
    /// A register holds the value written last: the first call writes a value and precedes the
    /// second call, which reads another value that is only written before the first call or after
    /// the second one.
    ReadOverwritten,
    /// What is found in a set or a map was put in before: the first call finds a key, and each call
    /// that puts this key in comes after the first call.
    FoundUnput,
    /// A set or a map finds what is there: the first call puts a key in or finds it and precedes
    /// the second call, which doesn't find this key, and each call that may take the key out comes
    /// before the first call or after the second one.
    KeyMissed,
    /// A value is taken at most as often as it was put in: the first call takes a value, and more
    /// calls took it by the first call's reply than may have put it in by then.
    TakenTooOften,
    /// A take finds what is left: the second call finds nothing, the first call precedes it and
    /// puts a value in, and more calls that put this value in end before the second call begins
    /// than may have taken it by the second call's reply.
    LeftBehind,
    /// A value that a map gives for a key was put in before: the call shows a key's value, and each
    /// other call that puts this value in for the key comes after it.
    ValueUnput,
    /// A map holds the value that was put in last for a key: the first call precedes the second
    /// one, which shows a key's value. After the first call this value isn't there, and each other
    /// call that puts it in for the key comes before the first call or after the second one.
    ValueOverwritten,
    /// A value is replaced once after each write of it: two compare-and-sets are answered `yes`,
    /// which find the same value and write others, and each write of this value comes before both
    /// or after both.
    SwappedTwice,
}

/// A rule that a book breaks, and the two calls by which it breaks the rule.
#[derive(Clone, Copy, Debug, PartialEq, Eq)]
pub struct BrokenRule {
    pub rule: Rule,
    pub first: Call,
    pub second: Call,
}

/// How two calls that break a rule are related.
#[derive(Clone, Copy, Debug)]
pub(crate) enum Relation {
    /// The two are the same call.
    Same,
    /// The two are the same call, whose reply the object gives to its operation at no list.
    NeverReplied,
    /// The two are the same call, whose view holds no more calls than the count that it replies.
    Unseen,
    /// The two are different calls.
    Apart,
    /// The first call precedes the second one.
    Before,
    /// Another call takes the value that the second one takes.
    TakenByAnother,
    /// The first call precedes the second one, which missed the key of the first one.
    MissedAfter,
    /// The two are the same call, by whose reply more calls have taken its value than may have put
    /// it in.
    TakenMore,
    /// The first call precedes the second one, before which more calls put the first one's value in
    /// than may have taken it by the second one's reply.
    LeftOver,
    /// The two are the same call, which shows an entry of a map.
    ShowsEntry,
    /// The first call precedes the second one, and the entry that the second one shows isn't there
    /// after the first one.
    Excluded,
    /// The two are different calls, which find the same value, and the second one writes a value.
    BothSwap,
    /// The relation asks nothing.
    Any,
}

impl Rule {
    /// Whether the objects of a kind keep the rule.
    pub(crate) fn is_kept_by(self, kind: Kind) -> bool
        ensures { result ≡ rules.keeps kind self }
    {
        match self {
            Rule::NeverReplied => true,
            Rule::TakenUnput => holds_values(kind),
            Rule::TakenTwice => holds_values(kind),
            Rule::FoundNothing => holds_values(kind),
            Rule::PassedOver => matches!(kind, Kind::Queue),
            Rule::TakenFromUnder => matches!(kind, Kind::Stack),
            Rule::LesserLeft => matches!(kind, Kind::Pqueue),
            Rule::CountedUnseen => matches!(kind, Kind::Counter),
            Rule::CountedTwice => matches!(kind, Kind::Counter),
            Rule::CountedDown => matches!(kind, Kind::Counter),
            Rule::ReadUnwritten => is_register(kind),
            Rule::ReadOverwritten => is_register(kind),
            Rule::FoundUnput => is_keyed(kind),
            Rule::KeyMissed => is_keyed(kind),
            Rule::TakenTooOften => holds_values(kind),
            Rule::LeftBehind => holds_values(kind),
            Rule::ValueUnput => is_map(kind),
            Rule::ValueOverwritten => is_map(kind),
            Rule::SwappedTwice => is_cas_register(kind),
        }
    }

    /// Whether two calls may break the rule, of which the first one did `first` and the second one
    /// took `second`.
    pub(crate) fn fits(self, first: Act, second: Act) -> bool
        ensures { result ≡ rules.fits self (deal_of_act first) (deal_of_act second) }
    {
        match self {
            Rule::NeverReplied => true,
            Rule::TakenUnput => first.is_take(),
            Rule::TakenTwice => {
                first.is_put() && second.is_take() && first.value() == second.value()
            }
            Rule::FoundNothing => first.is_put() && second.is_nothing(),
            Rule::PassedOver => first.is_put() && second.is_take(),
            Rule::TakenFromUnder => first.is_put() && second.is_take(),
            Rule::LesserLeft => {
                first.is_put() && second.is_take() && first.value() < second.value()
            }
            Rule::CountedUnseen => first.is_take(),
            Rule::CountedTwice => {
                first.is_take() && second.is_take() && first.value() == second.value()
            }
            Rule::CountedDown => {
                first.is_take() && second.is_take() && second.value() < first.value()
            }
            Rule::ReadUnwritten => second.is_take() && second.value() != 0,
            Rule::ReadOverwritten => first.is_put() && second.is_take(),
            Rule::FoundUnput => first.is_take(),
            Rule::KeyMissed => first.is_put() || first.is_take(),
            Rule::TakenTooOften => first.is_take(),
            Rule::LeftBehind => first.is_put() && second.is_nothing(),
            Rule::ValueUnput => first.is_take(),
            Rule::ValueOverwritten => second.is_take(),
            Rule::SwappedTwice => first.is_put() && second.is_take(),
        }
    }

    /// Whether the rule is broken by one call, which then stands as both of its calls.
    pub(crate) fn is_of_one_call(self) -> bool
        ensures { result ≡ rules.is_of_one_call self }
    {
        matches!(
            self,
            Rule::NeverReplied
                | Rule::TakenUnput
                | Rule::CountedUnseen
                | Rule::ReadUnwritten
                | Rule::FoundUnput
                | Rule::TakenTooOften
                | Rule::ValueUnput
        )
    }

    /// What the rule asks of the calls that put values in, as a demand about the rule's two calls.
    pub(crate) fn puts_demand(self) -> Demand
        ensures { result ≡ rules.puts_demand self }
    {
        match self {
            Rule::TakenUnput | Rule::ReadUnwritten | Rule::FoundUnput => Demand::OwnPutsFollow,
            Rule::TakenTwice => Demand::OnlyPut,
            Rule::PassedOver => Demand::OtherPutsFollow,
            Rule::TakenFromUnder | Rule::ReadOverwritten => Demand::OtherPutsOutside,
            Rule::ValueUnput => Demand::EntryPutsFollow,
            Rule::ValueOverwritten => Demand::EntryPutsOutside,
            Rule::SwappedTwice => Demand::OtherPutsBeside,
            Rule::NeverReplied
            | Rule::FoundNothing
            | Rule::LesserLeft
            | Rule::CountedUnseen
            | Rule::CountedTwice
            | Rule::CountedDown
            | Rule::KeyMissed
            | Rule::TakenTooOften
            | Rule::LeftBehind => Demand::Nothing,
        }
    }

    /// What the rule asks of the calls that take values, as a demand about the rule's two calls.
    pub(crate) fn takes_demand(self) -> Demand
        ensures { result ≡ rules.takes_demand self }
    {
        match self {
            Rule::FoundNothing | Rule::PassedOver | Rule::TakenFromUnder | Rule::LesserLeft => {
                Demand::TakesFollow
            }
            Rule::KeyMissed => Demand::RemovalsOutside,
            Rule::NeverReplied
            | Rule::TakenUnput
            | Rule::TakenTwice
            | Rule::CountedUnseen
            | Rule::CountedTwice
            | Rule::CountedDown
            | Rule::ReadUnwritten
            | Rule::ReadOverwritten
            | Rule::FoundUnput
            | Rule::TakenTooOften
            | Rule::LeftBehind
            | Rule::ValueUnput
            | Rule::ValueOverwritten
            | Rule::SwappedTwice => Demand::Nothing,
        }
    }

    /// How two calls that break the rule are related.
    pub(crate) fn relation(self) -> Relation
        ensures { result ≡ rules.relation_of self }
    {
        match self {
            Rule::NeverReplied => Relation::NeverReplied,
            Rule::TakenUnput | Rule::ReadUnwritten | Rule::FoundUnput => Relation::Same,
            Rule::TakenTwice => Relation::TakenByAnother,
            Rule::PassedOver => Relation::Any,
            Rule::KeyMissed => Relation::MissedAfter,
            Rule::TakenTooOften => Relation::TakenMore,
            Rule::LeftBehind => Relation::LeftOver,
            Rule::ValueUnput => Relation::ShowsEntry,
            Rule::ValueOverwritten => Relation::Excluded,
            Rule::SwappedTwice => Relation::BothSwap,
            Rule::CountedUnseen => Relation::Unseen,
            Rule::CountedTwice => Relation::Apart,
            Rule::FoundNothing
            | Rule::TakenFromUnder
            | Rule::LesserLeft
            | Rule::CountedDown
            | Rule::ReadOverwritten => Relation::Before,
        }
    }
}

impl Rule {
    /// The tally whose count is the greater one where two calls break a rule of counts.
    pub(crate) fn more(self) -> Tally
        ensures { result ≡ texts.more_of self }
    {
        match self {
            Rule::LeftBehind => Tally::PutBefore,
            _ => Tally::TakenBy,
        }
    }

    /// The tally whose count is the lesser one where two calls break a rule of counts.
    pub(crate) fn fewer(self) -> Tally
        ensures { result ≡ texts.fewer_of self }
    {
        match self {
            Rule::LeftBehind => Tally::TakableBy,
            _ => Tally::PutBy,
        }
    }
}

// Whether a kind's objects are registers, with compare-and-set or without.
fn is_register(kind: Kind) -> bool
    ensures { result ≡ rules.is_register kind }
{
    matches!(kind, Kind::Register | Kind::CasRegister)
}

// Whether a kind's objects are maps.
fn is_map(kind: Kind) -> bool
    ensures { result ≡ rules.is_map kind }
{
    matches!(kind, Kind::Map)
}

// Whether a kind's objects hold what is put in until it is taken out.
fn holds_values(kind: Kind) -> bool
    ensures { result ≡ rules.holds_values kind }
{
    matches!(kind, Kind::Queue | Kind::Stack | Kind::Pqueue)
}
