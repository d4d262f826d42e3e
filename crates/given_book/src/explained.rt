ghost use Rattle.std.specs.Prelude.{◌≡◌, ◌⊎◌, List, IfOk, IfErr, MatchResult};
ghost use Rattle.book_base.specs.declared.fault.TextFault.{TextFault};
ghost use Rattle.book_base.specs.Book.{Page};
ghost use Rattle.seq_objects.specs.declared.kind.Kind.{Kind};
ghost use Rattle.given_book.specs.Given.{IsGiven, IsFirstGivenFault, IsNotGiven};
ghost use Rattle.given_book.specs.Explaining.{IsExplanationOf};

use crate::read_given;
use book_base::ReadFault;
use broken_rules::{broken_line, broken_rule};
use legal_prefixes::{LongestPrefixes, longest_prefixes, prefixes_text};
use std::alloc::Global;

/// What is said of a book: why it has no legal order, or that no rule of its kind is broken.
pub enum Explanation {
    /// The book has no legal order: it breaks a rule of its kind, and the text says which one and by
    /// which calls; or it breaks none, and the text is that of its longest legal prefixes.
    Illegal(Vec<u8>),
    /// The book breaks none of the rules. Either it has a legal order, or there are too many legal
    /// prefixes to look for the longest ones, and then the text says that.
    NoneBroken(Vec<u8>),
}

/// Which rule of its kind the book breaks that the bytes give, in one line. Where it breaks none and
/// has no legal order: the longest legal prefixes of the book, and for each a line for each of its
/// calls, and the calls that may come next after it, each with the reply that the object gives it
/// there. At most eight are told, and how many more there are. The search for such prefixes gives up
/// where it would be long.
///
/// A text fault names the first line that is wrong, counted from the title of the book, and the
/// first test that this line fails.
pub fn explained_text(alloc: Global, bytes: &[u8]) -> Result<Explanation, ReadFault>
    // With `Illegal` the bytes give a book that has no legal order, and the text says which rule of
    // its kind it breaks; or it breaks none, and the text is that of its longest legal prefixes and
    // the calls that may come next after each. With `NoneBroken` the book breaks none of the rules,
    // and the text says that; either it has a legal order, or the text says that the search for the
    // longest legal prefixes gave up.
    ensures explained { IfOk result (IsExplanationOf bytes.now) }
    // An error is the first fault of the bytes, which then give no book, or that memory ran out.
    ensures refused { IfErr result (IsNotGiven bytes.now) }
    // A given book is explained, unless memory runs out.
    ensures told { (kind : Kind) (book : List Page) → IsGiven bytes.now kind book
        → IfErr result (λ e. e ≡ ReadFault.NoMemory) }
    // Where the bytes have a first fault, the answer is that fault, unless memory runs out.
    ensures first { (fault : TextFault) → IsFirstGivenFault bytes.now fault
        → MatchResult result (λ _. ⊥)
        (λ e. (e ≡ ReadFault.Text fault) ⊎ (e ≡ ReadFault.NoMemory)) }
{
    explained(alloc, bytes)
}

// Reads the bytes, and writes why the book has no legal order, or that it breaks none of the rules.
fn explained(alloc: Global, bytes: &[u8]) -> Result<Explanation, ReadFault>
    ensures explained { IfOk result (IsExplanationOf bytes.now) }
    ensures refused { IfErr result (IsNotGiven bytes.now) }
{
    let (kind, book) = read_given(alloc, bytes)?;
    match broken_rule(kind, &book) {
        Some(broken) => Ok(Explanation::Illegal(broken_line(alloc, kind, &book, broken)?)),
        None => match longest_prefixes(alloc, kind, &book)? {
            LongestPrefixes::Longest(prefixes) => {
                let text = prefixes_text(alloc, kind, &book, &prefixes)?;
                Ok(Explanation::Illegal(text))
            }
            LongestPrefixes::Whole => {
                Ok(Explanation::NoneBroken(b"no rule of these is broken\n".to_vec(alloc)?))
            }
            LongestPrefixes::Many => Ok(Explanation::NoneBroken(
                b"no rule of these is broken, and there are too many legal prefixes to try\n".to_vec(
                    alloc,
                )?,
            )),
        },
    }
}
