//! The words of operations.

ghost use Rattle.std.specs.Prelude.{◌≡◌, ℕ, ◌≤◌, IsTrue, List, ◌∷◌, ◌++◌, length, IfSome, IfNone, option_copied};
ghost use Rattle.seq_objects.specs.Words.{further};
ghost use Rattle.text_fields.specs.declared.version.Version.TheVariants.{Second};
ghost use Rattle.text_fields.specs.Lines.{AreSolid};
ghost use Rattle.text_fields.specs.OperationLaws.{one_kind_operation, solid_kind_words, few_kind_words};
ghost use Rattle.text_fields.specs.Operations.{Operations, IsSpelled, kind_operations};

use crate::version::Version;
use book_base::OpWord;
use seq_objects::Kind;

/// The operations of a kind of text, each of one to three words.
pub trait OpText {
    /// The operations that the text has, and the words of each.
    ghost operations: { Self → Operations };

    /// The operation that the first word spells with none, one or both of the further words, and
    /// how many of these are used. A third word counts only where there is a second.
    fn read_op(
        &self,
        first: &[u8],
        second: Option<&[u8]>,
        third: Option<&[u8]>,
    ) -> Option<(OpWord, u32)>
        // An operation that was found is spelled by the first word with as many further words as
        // are answered.
        ensures found { IfSome result (λ (op, used).
            let others = further (option_copied second.entry) (option_copied third.entry) in
            IsSpelled (operations self.now) (first.now ∷ others) op used) }
        // No operation is found only where the words begin with those of no operation.
        ensures none { IfNone result ((op used : ℕ) →
            let others = further (option_copied second.entry) (option_copied third.entry) in
            ¬ (IsSpelled (operations self.now) (first.now ∷ others) op used)) };

    /// No operation's words are a prefix of another one's.
    ghost one_operation: { (text : Self) (a b : ℕ) (x y : List (List ℕ))
        → IsTrue ((operations text).has a) → IsTrue ((operations text).has b)
        → (operations text).words a ++ x ≡ (operations text).words b ++ y → a ≡ b };

    /// An operation has at least one word, and no word of it has a space or a line feed.
    ghost solid_words: { (text : Self) (op : ℕ) → IsTrue ((operations text).has op)
        → AreSolid ((operations text).words op) };

    /// An operation has at most three words.
    ghost few_words: { (text : Self) (op : ℕ) → IsTrue ((operations text).has op)
        → length ((operations text).words op) ≤ 3 };
}

/// The words of a kind's operations in a text of version 2.
impl OpText for Kind {
    ghost operations = { kind_operations Second };

    fn read_op(
        &self,
        first: &[u8],
        second: Option<&[u8]>,
        third: Option<&[u8]>,
    ) -> Option<(OpWord, u32)> {
        self.op_from_words(first, second, third)
    }

    ghost one_operation = { one_kind_operation Second };

    ghost solid_words = { solid_kind_words Second };

    ghost few_words = { λ kind op _. few_kind_words kind op };
}

/// The words of a kind's operations in a text of a version.
#[derive(Clone, Copy, Debug)]
pub struct KindWords {
    pub version: Version,
    pub kind: Kind,
}

impl OpText for KindWords {
    ghost operations = { λ text. kind_operations text.version text.kind };

    fn read_op(
        &self,
        first: &[u8],
        second: Option<&[u8]>,
        third: Option<&[u8]>,
    ) -> Option<(OpWord, u32)> {
        let (op, used) = self.kind.op_from_words(first, second, third)?;
        if self.version.has_word(op) {
            Some((op, used))
        } else {
            None
        }
    }

    ghost one_operation = { λ text. one_kind_operation text.version text.kind };

    ghost solid_words = { λ text. solid_kind_words text.version text.kind };

    ghost few_words = { λ text op _. few_kind_words text.kind op };
}
