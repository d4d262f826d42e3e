ghost use Rattle.std.specs.Prelude.{ℕ, ◌+◌, ◌≤◌, List, length};

use crate::seq_object::SeqObject;

/// A sequential object whose list has at most one word at first, and grows by at most one word with
/// each operation.
pub trait GrowsByOne: SeqObject {
    /// The list with which the object begins has at most one word.
    ghost begins_small: { (object : Self) → length (Self.spec object).init ≤ 1 };

    /// An operation makes the list at most one word longer.
    ghost grows_by_one: { (object : Self) (list : List ℕ) (op : ℕ)
        → length ((Self.spec object).next list op).0 ≤ length list + 1 };
}
