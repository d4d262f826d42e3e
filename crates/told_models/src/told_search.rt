ghost use Rattle.std.specs.Prelude.{◌≡◌, ◌≤◌, IfOk, IfSome};
ghost use Rattle.told_models.specs.Answers.{IsRightAnswer};
ghost use Rattle.told_models.specs.Searching.{IsSearch};
ghost use Rattle.told_models.specs.Weighing.{weight_of, most_weight, HasGoneOn};

use crate::answer::Answer;
use crate::table::ToldTable;
use crate::walk::{Step, Walk};
use book_base::{Book, NoMemory};
use std::alloc::Global;

/// A search for a legal order of a book, by what was told of its object.
///
/// It goes depth first through the pairs of a cut and a state, and remembers those that are dead
/// ends (after Wing and Gong 1993, and Lowe 2017). Where a step isn't told, it asks for it, and
/// goes on from there when it is told.
///
/// A search is of one book. Steps and promises may be told at any time: the search may go on
/// (`laws::searches_stay`), and each answer stays right (`laws::verdicts_stand`). A
/// dialogue with it ends, whatever is told (`laws::dialogues_end`). After want of memory a search
/// is given up. A new one with the same table asks for no step that was told.
#[derive(Drop)]
pub struct ToldSearch {
    walk: Option<Walk>,
}

impl ToldSearch {
    /// A search at its beginning.
    pub fn begin(alloc: Global, table: &ToldTable, book: &Book) -> Result<ToldSearch, NoMemory>
        // The search can go on from here.
        ensures search { IfOk result (IsSearch table.now book.now) }
        // It has no more left to try than the number of the book's calls allows.
        ensures weight { IfOk result (λ search. weight_of book.now search ≤ most_weight book.now) }
    {
        Ok(ToldSearch {
            walk: Walk::begin(alloc, table, book)?,
        })
    }

    /// Goes on with the search, by at most so many steps. `None` comes where these are used up.
    pub fn go_on(
        &mut self,
        alloc: Global,
        table: &ToldTable,
        book: &Book,
        steps: u64,
    ) -> Result<Option<Answer>, NoMemory>
        // The search is of this book, and was begun or went on with no more steps told than the
        // table has.
        requires search { IsSearch table.now book.now self.old }
        // The search can go on from here.
        ensures search { IfOk result (λ _. IsSearch table.now book.now self.new) }
        // An order in the answer is legal for each object that agrees with the table, `Illegal`
        // comes only where no object that agrees has a legal order, and `Ask` names a state and an
        // operation word of the book whose step wasn't told, where fewer told steps of the book's
        // words lead to the state than the book has calls.
        ensures answer { IfOk result (λ said. IfSome said (IsRightAnswer table.now book.now)) }
        // Where the steps are used up, what is left to try has become less by as many, and it has
        // never become more.
        ensures lighter { IfOk result (λ said. HasGoneOn book.now steps self.old said self.new) }
    {
        let Some(walk) = &mut self.walk else {
            return Ok(Some(Answer::Legal(Vec::new(alloc))));
        };
        walk.see_promises(table, book);
        for _step in 0..steps {
            match walk.advance(alloc, table, book)? {
                Step::Found(order) => return Ok(Some(Answer::Legal(order))),
                Step::NoneLeft => return Ok(Some(Answer::Illegal)),
                Step::Asks(state, op) => return Ok(Some(Answer::Ask(state, op))),
                Step::GoesOn => {}
            }
        }
        Ok(None)
    }
}
