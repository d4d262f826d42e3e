//! Laws of histories. Each is the contract of a function with nothing in it.

ghost use Rattle.model_checks.specs.Laws.{PrecedenceIsTold};

/// In the book of a history a call precedes another one that has begun exactly where its end is
/// told before the other one's begin.
pub fn precedence_is_told()
    ensures { PrecedenceIsTold }
{}
