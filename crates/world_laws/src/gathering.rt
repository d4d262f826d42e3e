//! A book whose words one caller has peeked.

ghost use Rattle.world_laws.specs.Gathering.{GatheredIsTheBookAt, GatheredStays};

/// A book that one caller has gathered at a cut, by peeking each of its words, is the book at that
/// cut of all callers' calls; and it stays gathered as the caller peeks more.
pub fn gathered_is_the_book_at()
    // A book that one caller gathered at a cut is the book at that cut of all callers' calls.
    ensures book { GatheredIsTheBookAt }
    // What a caller has gathered stays gathered while it peeks more.
    ensures stays { GatheredStays }
{}
