//! Laws of legal set orders. Each is the contract of a function with an empty body.

ghost use Rattle.std.specs.Prelude.{◌↔◌, List};
ghost use Rattle.book_base.specs.SeqSpec.{SeqSpec};
ghost use Rattle.book_base.specs.Book.{Page};
ghost use Rattle.book_base.specs.Order.{HasLegalOrder};
ghost use Rattle.set_order.specs.SetOrder.{HasLegalSetOrder};
ghost use Rattle.set_order.specs.Serving.{served_alone};

/// For a sequential object, which serves one operation at a time, a book has a legal set order
/// exactly where it has a legal order.
pub fn single_calls_are_sets()
    ensures { (spec : SeqSpec) (book : List Page)
        → HasLegalSetOrder spec.init (served_alone spec.next) book ↔ HasLegalOrder spec book }
{}
