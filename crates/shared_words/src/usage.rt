ghost use Rattle.std.specs.Prelude.{ℕ};
ghost use Rattle.shared_words.specs.Deeds.{Deed};

/// What callers may do with the words that they share: which deeds each of them may make.
pub trait Usage {
    ghost may: { ℕ → Deed → Type 0 };
}
