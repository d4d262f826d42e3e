//! How many calls of each caller the views of some records hold.
ghost use Rattle.std.specs.Prelude.{ℕ, ◌≡◌, ◌≤◌, max, length, slice_index};
ghost use Rattle.book_base.specs.declared.TheConstants.{MAX_CALLERS};
ghost use Rattle.row_gather.specs.Words.{AreWide, records_at, greatest_of};
ghost use Rattle.row_gather.specs.Known.{AreGreatest, lists_in};

use book_base::{Cut, Record};

// Raises each count of the cut to the greatest count that the views of these records have for the
// same caller, where that is greater.
fn raise_to_all(held: &mut Cut, records: &[Record])
    requires wide { AreWide (length held.old) records.now }
    ensures wide { length held.new ≡ length held.old }
    ensures counts { (i : ℕ)
        → slice_index held.new i ≡ max (slice_index held.old i) (greatest_of records.now i) }
{
    for answer in records {
        held.raise(&answer.view);
    }
}

// For each of n callers how many of its calls the views of these records hold: the greatest count
// that any of these views has for it, and 0 where there is no record.
pub fn held_calls(n: u32, lists: &[Vec<Record>]) -> Cut
    requires some { 1 ≤ n }
    requires few { n ≤ MAX_CALLERS }
    requires wide { (j : ℕ) → AreWide n (records_at (lists_in lists.now) j) }
    ensures wide { length result ≡ n }
    ensures held { AreGreatest n (lists_in lists.now) result }
{
    let mut held = Cut::zero(n);
    for records in lists {
        raise_to_all(&mut held, records);
    }
    held
}
