//! Laws of tables of levels. Each is the contract of a function with an empty body.

ghost use Rattle.stack_levels.specs.LevelLaws.{ClosedTablesHaveNoOrder};

/// A valid book has no legal order of a stack that begins empty, where each view of the book holds
/// at most one unanswered call of each caller, and a table of levels is closed for the book.
pub fn closed_tables_have_no_order()
    ensures { ClosedTablesHaveNoOrder }
{}
