ghost use Rattle.std.specs.Prelude.{◌≡◌, ◌≢◌, ℕ, ◌∷◌, ◌++◌, true, false, ◌↔◌, IfSome, IfNone, IsTrue, OnOk, OnErr, option_copied};
ghost use Rattle.book_base.specs.Reaching.{Leaves, MayReply};
ghost use Rattle.book_base.specs.OperationWord.{IsOperationWord};
ghost use Rattle.seq_objects.specs.declared.kind.Kind.{Kind};
ghost use Rattle.seq_objects.specs.Objects.{kind_next, kind_spec, length-kind_init, length-kind_next, kind_next-unknown};
ghost use Rattle.seq_objects.specs.Words.{kind_name, is_first_kind, is_known_word, operation_text, whole_digits, further, Spells, AppendsPrefix};

use crate::cas_register::CasRegister;
use crate::counter::Counter;
use crate::digits::suffix;
use crate::entry::{entry_named, entry_of};
use crate::int_set::IntSet;
use crate::map::Map;
use crate::pqueue::Pqueue;
use crate::queue::Queue;
use crate::register::Register;
use crate::stack::Stack;
use crate::whole::{put_whole, whole};
use book_base::{GrowsByOne, NoMemory, OpWord, SeqObject, State};

/// A kind of sequential object.
#[derive(Clone, Copy, Debug, PartialEq, Eq)]
pub enum Kind {
    Queue,
    Stack,
    Register,
    Counter,
    IntSet,
    Pqueue,
    CasRegister,
    Map,
}

/// All kinds.
const KINDS: &[Kind] = &[
    Kind::Queue,
    Kind::Stack,
    Kind::Register,
    Kind::Counter,
    Kind::IntSet,
    Kind::Pqueue,
    Kind::CasRegister,
    Kind::Map,
];

impl Kind {
    /// The kind whose name in texts is `name`.
    pub fn from_name(name: &[u8]) -> Option<Kind>
        // A kind that is answered has the name `name`.
        ensures found { IfSome result (λ kind. kind_name kind ≡ name.now) }
        // Where none is answered, no kind has the name `name`.
        ensures none { IfNone result ((kind : Kind) → kind_name kind ≢ name.now) }
    {
        KINDS
            .iter()
            .find(|kind| kind.name().as_bytes() == name)
            .copied()
    }

    /// The name of the kind in texts.
    #[tactic(auto, unfolding(crate::specs::Words::kind_name))]
    pub fn name(self) -> &'static str
        ensures { result.now ≡ kind_name self }
    {
        match self {
            Kind::Queue => "queue",
            Kind::Stack => "stack",
            Kind::Register => "register",
            Kind::Counter => "counter",
            Kind::IntSet => "set",
            Kind::Pqueue => "pqueue",
            Kind::CasRegister => "casreg",
            Kind::Map => "map",
        }
    }

    /// Whether the kind is one of the six that texts of version 1 know.
    pub fn is_first(self) -> bool
        ensures { result ≡ is_first_kind self }
    {
        !matches!(self, Kind::CasRegister | Kind::Map)
    }

    /// The operation word that `digits` spell, where the kind doesn't know this word.
    fn unknown_word(self, digits: &[u8]) -> Option<OpWord>
        ensures found { IfSome result (λ word.
            (whole_digits word ≡ digits.now) × (is_known_word self word ≡ false)) }
        ensures none { IfNone result ((word : ℕ) → IsOperationWord word
            → whole_digits word ≡ digits.now → is_known_word self word ≡ true) }
    {
        let word = whole(digits)?;
        if self.known(word) { None } else { Some(word) }
    }

    /// The operation word that words of a text begin with, and how many of `second` and `third` it
    /// uses. The words are `first`, then `second` and `third` where the text has them.
    pub fn op_from_words(
        self,
        first: &[u8],
        second: Option<&[u8]>,
        third: Option<&[u8]>,
    ) -> Option<(OpWord, u32)>
        // The words of the text begin with those of the operation word that is answered: `first`,
        // and after it as many words as the answer says.
        ensures found { IfSome result (λ (op, used).
            let others = further (option_copied second.entry) (option_copied third.entry) in
            Spells self (first.now ∷ others) op used) }
        // Where `None` is answered, the words of the text begin with those of no operation word.
        ensures none { IfNone result ((op used : ℕ) → IsOperationWord op →
            let others = further (option_copied second.entry) (option_copied third.entry) in
            ¬ (Spells self (first.now ∷ others) op used)) }
    {
        match suffix(b'#', first) {
            Some(digits) => Some((self.unknown_word(digits)?, 0)),
            None => entry_named(self, first)?.operation(second, third),
        }
    }

    /// Appends the text of an operation word.
    pub fn put_op(self, out: &mut Vec<u8>, op: OpWord) -> Result<(), NoMemory>
        // Without want of memory the list has the text of the operation word after what it held.
        ensures ok { OnOk result (out.new.items ≡ out.old.items ++ operation_text self op) }
        // After want of memory the list has a prefix of the operation word's text after what it
        // held.
        ensures err { OnErr result
            (AppendsPrefix out.old.items out.new.items (operation_text self op)) }
    {
        match entry_of(self, op) {
            Some(entry) => entry.put(out, op),
            None => put_whole(out, b'#', op),
        }
    }
}

impl SeqObject for Kind {
    ghost is_known = { is_known_word };

    ghost spec = { kind_spec };

    ghost unknown_is_bad = { kind_next-unknown };

    #[tactic(auto, unfolding(crate::specs::Words::is_known_word))]
    fn known(&self, op: OpWord) -> bool {
        entry_of(*self, op).is_some()
    }

    /// The number of operations and one more: a list has at most one word at first, and an
    /// operation adds at most one.
    fn capacity(&self, operations: u64) -> u64 {
        operations + 1
    }

    fn reset(&self, state: &mut State) {
        match self {
            Kind::Queue => Queue.reset(state),
            Kind::Stack => Stack.reset(state),
            Kind::Register => Register.reset(state),
            Kind::Counter => Counter.reset(state),
            Kind::IntSet => IntSet.reset(state),
            Kind::Pqueue => Pqueue.reset(state),
            Kind::CasRegister => CasRegister.reset(state),
            Kind::Map => Map.reset(state),
        }
    }

    #[tactic(auto, unfolding(crate::specs::Objects::kind_next))]
    fn step(&self, state: &mut State, op: OpWord) -> u64 {
        match self {
            Kind::Queue => Queue.step(state, op),
            Kind::Stack => Stack.step(state, op),
            Kind::Register => Register.step(state, op),
            Kind::Counter => Counter.step(state, op),
            Kind::IntSet => IntSet.step(state, op),
            Kind::Pqueue => Pqueue.step(state, op),
            Kind::CasRegister => CasRegister.step(state, op),
            Kind::Map => Map.step(state, op),
        }
    }

    /// Whether an operation is read-only with the reply `reply`: it changes no list at which it has
    /// this reply. So it is read-only with each reply that it never gives.
    #[tactic(auto, unfolding(crate::specs::Objects::kind_next))]
    fn leaves(&self, op: OpWord, reply: u64) -> bool
        ensures { IsTrue result ↔ Leaves (kind_next self.now) op reply }
    {
        match self {
            Kind::Queue => Queue.leaves(op, reply),
            Kind::Stack => Stack.leaves(op, reply),
            Kind::Register => Register.leaves(op, reply),
            Kind::Counter => Counter.leaves(op, reply),
            Kind::IntSet => IntSet.leaves(op, reply),
            Kind::Pqueue => Pqueue.leaves(op, reply),
            Kind::CasRegister => CasRegister.leaves(op, reply),
            Kind::Map => Map.leaves(op, reply),
        }
    }

    /// Whether an operation may have the reply `reply`: whether it has this reply at some list.
    #[tactic(auto, unfolding(crate::specs::Objects::kind_next))]
    fn may_reply(&self, op: OpWord, reply: u64) -> bool
        ensures { IsTrue result ↔ MayReply (kind_next self.now) op reply }
    {
        match self {
            Kind::Queue => Queue.may_reply(op, reply),
            Kind::Stack => Stack.may_reply(op, reply),
            Kind::Register => Register.may_reply(op, reply),
            Kind::Counter => Counter.may_reply(op, reply),
            Kind::IntSet => IntSet.may_reply(op, reply),
            Kind::Pqueue => Pqueue.may_reply(op, reply),
            Kind::CasRegister => CasRegister.may_reply(op, reply),
            Kind::Map => Map.may_reply(op, reply),
        }
    }
}

impl GrowsByOne for Kind {
    ghost begins_small = { length-kind_init };

    ghost grows_by_one = { length-kind_next };
}
