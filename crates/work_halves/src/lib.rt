//! Workers side by side: each works once over what all of them share. The first half of them works
//! in a thread beside the second half.
#![tactic(auto)]

ghost use Rattle.std.specs.Prelude.{◌≡◌, ◌+◌, ◌<◌, ◌≤◌, length};
ghost use Rattle.std.specs.List.{All, AllZip};
ghost use Rattle.std.specs.Thread.{IsSend, IsSync};

use std::thread::{Threads, join_mut};

/// A worker, which works once over what all workers share: a context of the type `C`.
pub trait Work<C>: Send {
    /// Whether a worker may work over a context.
    ghost ready: { Self → C → Type 0 };

    /// What a worker's work over a context does: it relates the worker before its work, the
    /// context, and the worker after its work.
    ghost done: { Self → C → Self → Type 0 };

    /// Does the worker's work, once.
    fn work(&mut self, shared: &C)
        requires { ready self.old shared.now }
        ensures { done self.old shared.now self.new };
}

/// Lets each of the workers work once, in any order: the first half of them in a thread of its own
/// beside the second half, and each half is divided further in this way. Where a thread can't be
/// had, one half works after the other.
///
/// All have worked when it returns.
#[cycle(halves)]
pub fn work_all<R: Threads + Sync, C: Sync, W: Work<C>>(rt: &R, shared: &C, all: &mut [W])
    // Each worker may work over `shared`.
    requires { All (λ w. W.ready w shared.now) all.old }
    // Each worker has done its work over `shared`.
    ensures { AllZip (λ before after. W.done before shared.now after) all.old all.new }
{
    match all.len() {
        0 => {}
        1 => all[0].work(shared),
        count => {
            let (prefix, suffix) = all.split_at_mut(count / 2);
            work_beside(rt, shared, prefix, suffix);
        }
    }
}

// Lets the workers of both parts work once, those of one part beside those of the other.
#[cycle(halves)]
fn work_beside<R: Threads + Sync, C: Sync, W: Work<C>>(
    rt: &R,
    shared: &C,
    prefix: &mut [W],
    suffix: &mut [W],
)
    requires both { (0 < length prefix.old) × (0 < length suffix.old) }
    requires prefix { All (λ w. W.ready w shared.now) prefix.old }
    requires suffix { All (λ w. W.ready w shared.now) suffix.old }
    ensures prefix { AllZip (λ before after. W.done before shared.now after) prefix.old prefix.new }
    ensures suffix { AllZip (λ before after. W.done before shared.now after) suffix.old suffix.new }
{
    let mut in_prefix = ||
        requires { IsSync R.row × IsSync C.row × IsSend W.row
            × All (λ w. W.ready w shared.now) prefix.now }
        ensures { AllZip (λ before after. W.done before shared.entry.now after) prefix.entry.now
            prefix.exit.now }
    { work_all(rt, shared, prefix) };
    let mut from_suffix = ||
        requires { IsSync R.row × IsSync C.row × IsSend W.row
            × All (λ w. W.ready w shared.now) suffix.now }
        ensures { AllZip (λ before after. W.done before shared.entry.now after) suffix.entry.now
            suffix.exit.now }
    { work_all(rt, shared, suffix) };
    join_mut(rt, &mut in_prefix, &mut from_suffix);
}

/// Lets the workers of a list work once over `shared`, and beside them two workers of another type
/// over `aside`.
///
/// All have worked when it returns.
pub fn work_with_two<R: Threads + Sync, C: Sync, W: Work<C>, D: Sync, V: Work<D>>(
    rt: &R,
    shared: &C,
    all: &mut [W],
    aside: &D,
    one: &mut V,
    other: &mut V,
)
    // Each worker of the list may work over `shared`.
    requires all { All (λ w. W.ready w shared.now) all.old }
    // The worker `one` may work over `aside`.
    requires one { V.ready one.old aside.now }
    // The worker `other` may work over `aside`.
    requires other { V.ready other.old aside.now }
    // Each worker of the list has done its work over `shared`.
    ensures all { AllZip (λ before after. W.done before shared.now after) all.old all.new }
    // The worker `one` has done its work over `aside`.
    ensures one { V.done one.old aside.now one.new }
    // The worker `other` has done its work over `aside`.
    ensures other { V.done other.old aside.now other.new }
{
    let mut list = ||
        requires { IsSync R.row × IsSync C.row × IsSend W.row
            × All (λ w. W.ready w shared.now) all.now }
        ensures { AllZip (λ before after. W.done before shared.entry.now after) all.entry.now
            all.exit.now }
    { work_all(rt, shared, all) };
    let mut two = ||
        requires { IsSync R.row × IsSync D.row × IsSend V.row × V.ready one.now aside.now
            × V.ready other.now aside.now }
        ensures { V.done one.entry.now aside.entry.now one.exit.now
            × V.done other.entry.now aside.entry.now other.exit.now }
    { work_two(rt, aside, one, other) };
    join_mut(rt, &mut list, &mut two);
}

// Lets two workers work once, side by side.
fn work_two<R: Threads, C: Sync, W: Work<C>>(rt: &R, shared: &C, one: &mut W, other: &mut W)
    requires one { W.ready one.old shared.now }
    requires other { W.ready other.old shared.now }
    ensures one { W.done one.old shared.now one.new }
    ensures other { W.done other.old shared.now other.new }
{
    let mut first = ||
        requires { IsSync C.row × IsSend W.row × W.ready one.now shared.now }
        ensures { W.done one.entry.now shared.entry.now one.exit.now }
    { one.work(shared) };
    let mut second = ||
        requires { IsSync C.row × IsSend W.row × W.ready other.now shared.now }
        ensures { W.done other.entry.now shared.entry.now other.exit.now }
    { other.work(shared) };
    join_mut(rt, &mut first, &mut second);
}
