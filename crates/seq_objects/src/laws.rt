ghost use Rattle.std.specs.Prelude.{◌≡◌, ℕ, ◌^◌, ◌<◌, List, All};
ghost use Rattle.book_base.specs.OperationWord.{IsOperationWord};
ghost use Rattle.seq_objects.specs.declared.kind.Kind.{Kind};
ghost use Rattle.seq_objects.specs.Words.{kind_name, operation_words, operation_text, Spells, IsWord};
ghost use Rattle.seq_objects.specs.Replies.{reply_word};
ghost use Rattle.seq_objects.specs.MapLaws.{PutIsGot, PutLeavesOthers, DeleteLeavesOthers, DeletedIsNone, KeysStayOnce};

/// Each kind has one name, which is a word.
pub fn one_name_per_kind()
    // Two kinds with one name are one kind.
    ensures name { (a b : Kind) → kind_name a ≡ kind_name b → a ≡ b }
    // The name of each kind is a word: it isn't empty, and each of its bytes is a printed
    // character.
    ensures word { (kind : Kind) → IsWord (kind_name kind) }
{}

/// Each operation word has one text per kind: no two words of a kind share a text, words of a text
/// are read as at most one operation, and a text is its words with one space between two.
pub fn one_text_per_operation()
    // Two operation words with the same text of a kind are equal.
    ensures text { (kind : Kind) (a b : ℕ) → IsOperationWord a → IsOperationWord b
        → operation_text kind a ≡ operation_text kind b → a ≡ b }
    // Where the words of a text begin with those of two operation words of a kind, the two are
    // equal, and so are the numbers of words that they use.
    ensures reading { (kind : Kind) (words : List (List ℕ)) (a b a_used b_used : ℕ)
        → IsOperationWord a → IsOperationWord b
        → Spells kind words a a_used → Spells kind words b b_used
        → (a ≡ b) × (a_used ≡ b_used) }
    // The text of each operation word is of words that aren't empty and have printed characters
    // alone.
    ensures words { (kind : Kind) (op : ℕ) → IsOperationWord op
        → All IsWord (operation_words kind op) }
{}

/// Each reply word has one text: no two share a text, and a text is a word.
pub fn one_text_per_reply()
    // Two reply words with the same text are equal.
    ensures text { (a b : ℕ) → a < 2 ^ 64 → b < 2 ^ 64 → reply_word a ≡ reply_word b → a ≡ b }
    // The text of each reply word is a word: it isn't empty, and each of its bytes is a printed
    // character.
    ensures word { (reply : ℕ) → reply < 2 ^ 64 → IsWord (reply_word reply) }
{}

/// A map keeps what is put: a get gives the last value that was put for its key, and none after the
/// key was deleted, whatever was done to other keys.
pub fn maps_keep_what_is_put()
    // A get after a put of its key gives the value that was put.
    ensures put { PutIsGot }
    // A put doesn't change what a get gives of any other key.
    ensures put_leaves_others { PutLeavesOthers }
    // A delete doesn't change what a get gives of any other key.
    ensures delete_leaves_others { DeleteLeavesOthers }
    // A get after a delete of its key gives none, where no two items of the map's list had the same
    // key before the delete.
    ensures deleted { DeletedIsNone }
    // Where no two items of a map's list have the same key, no two items have the same key after an
    // operation.
    ensures once { KeysStayOnce }
{}
