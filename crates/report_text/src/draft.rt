//! What a reader of a report's text keeps of the lines that it has read.

ghost use Rattle.std.specs.Prelude.{◌≡◌, ◌↔◌, ◌<◌, length, is_some, IsTrue, IfSome, IfNone};
ghost use Rattle.book_base.specs.Cut.{Holds, IsWithin};
ghost use Rattle.report_lines.specs.Lines.{seen_in, delivered_in};
ghost use Rattle.report_text.specs.Drafts.{lowered, limits_with, AreSeenWith, AreJoined, FitsKept};
ghost use Rattle.report_text.specs.Parts.{AlwaysFits, IsAlwaysMisfit};

use book_base::{Book, Call, Cut, What};
use report_lines::{Line, LineEnd};

/// What a reader keeps of the lines that it has read, to test further lines by.
#[derive(Drop)]
pub(crate) struct Draft {
    /// The calls and the records of the lines so far, and the calls whose lines are still due.
    pub(crate) book: Book,
    /// The limits of seen cuts: for each caller the number of its first call with a pending line,
    /// or, where it has none, the number of its calls.
    pub(crate) limits: Cut,
    /// For each caller the greatest count that a seen cut of the lines so far has.
    pub(crate) seen: Cut,
}

impl Draft {
    /// Changes the limits and the greatest counts of seen cuts by the line of this call.
    pub(crate) fn note(&mut self, call: Call, line: &Line)
        requires caller { call.caller < length self.old.limits }
        requires seen { IfSome (seen_in line.now.end) (λ cut. length cut ≡ length self.old.seen) }
        ensures book { self.new.book ≡ self.old.book }
        ensures limits { self.new.limits ≡ limits_with self.old.limits call line.now.end }
        ensures seen { AreSeenWith self.old.seen line.now.end self.new.seen }
    {
        match line.end {
            LineEnd::Pending => lower(&mut self.limits, call),
            LineEnd::Unchecked(_) => {}
            LineEnd::Delivered(_, cut) => join(&mut self.seen, &cut),
            LineEnd::Error(_, cut) => join(&mut self.seen, &cut),
        }
    }
}

/// Lowers the count of a call's caller to the number of the call, where the count is above this
/// number.
fn lower(limits: &mut Cut, call: Call)
    requires { call.caller < length limits.old }
    ensures { limits.new ≡ lowered limits.old call }
{
    let count = limits.get(call.caller);
    limits.set(call.caller, count.min(call.number));
}

/// Raises each count of `seen` that is lower than the count of `cut` for the same caller to that
/// count.
fn join(seen: &mut Cut, cut: &Cut)
    requires { length cut.now ≡ length seen.old }
    ensures { AreJoined seen.old cut.now seen.new }
{
    for j in 0..seen.n() {
        let count = seen.get(j);
        seen.set(j, count.max(cut.get(j)));
    }
}

/// The first of two tests that a line of this call fails: `Seen`, whether it fits the seen cuts and
/// pending lines before it; and `Last`, whether it is delivered or is the last of its caller, which
/// has `count` calls. None where the line passes both.
pub(crate) fn misfit(limits: &Cut, seen: &Cut, call: Call, count: u64, line: &Line) -> Option<What>
    requires caller { call.caller < length limits.now }
    requires wide { length seen.now ≡ length limits.now }
    requires number { call.number < count }
    requires cut { IfSome (seen_in line.now.end) (λ cut. length cut ≡ length limits.now) }
    ensures fits { IfNone result (AlwaysFits limits.now seen.now call count line.now) }
    ensures misfit { IfSome result (IsAlwaysMisfit limits.now seen.now call count line.now) }
{
    if !fits_cuts(limits, seen, call, line) {
        return Some(What::Seen);
    }
    if !is_delivered(line) && call.number + 1 < count {
        return Some(What::Last);
    }
    None
}

/// Whether the line fits the lines before it: where it is pending, no earlier seen cut may hold its
/// call; and a seen cut of its own has to be within the limits and hold the call.
fn fits_cuts(limits: &Cut, seen: &Cut, call: Call, line: &Line) -> bool
    requires caller { call.caller < length limits.now }
    requires wide { length seen.now ≡ length limits.now }
    requires cut { IfSome (seen_in line.now.end) (λ cut. length cut ≡ length limits.now) }
    ensures { IsTrue result ↔ FitsKept limits.now seen.now call line.now.end }
{
    match line.end {
        LineEnd::Pending => !seen.holds(call.caller, call.number),
        LineEnd::Unchecked(_) => true,
        LineEnd::Delivered(_, cut) => goes_right(&cut, limits, call),
        LineEnd::Error(_, cut) => goes_right(&cut, limits, call),
    }
}

/// Whether a seen cut of this call's line holds the call, and is within the limits.
fn goes_right(cut: &Cut, limits: &Cut, call: Call) -> bool
    requires caller { call.caller < length limits.now }
    requires wide { length cut.now ≡ length limits.now }
    ensures { IsTrue result ↔ (IsWithin cut.now limits.now × Holds cut.now call) }
{
    cut.within(limits) && cut.holds(call.caller, call.number)
}

/// Whether the line is delivered.
fn is_delivered(line: &Line) -> bool
    ensures { result ≡ is_some (delivered_in line.now.end) }
{
    match line.end {
        LineEnd::Delivered(_, _) => true,
        _ => false,
    }
}
