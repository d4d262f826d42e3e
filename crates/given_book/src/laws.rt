//! Laws of what is written, each the contract of a function with an empty body.
ghost use Rattle.std.specs.Prelude.{◌≡◌};
ghost use Rattle.given_book.specs.declared.marking.TheConstants.{MOST_CALLS};

/// The limit of books in whose pictures calls are marked.
pub fn limit_of_marked_books()
    // A smaller book is sought for the picture of a book with at most 1024 calls.
    ensures { MOST_CALLS ≡ 1024 }
{}
