ghost use Rattle.std.specs.Prelude.{◌≡◌, ℕ, ◌+◌, ◌<◌, List, Some, length};
ghost use Rattle.drv_wrapper.specs.States.{who_announced, op_announced};
ghost use Rattle.drv_wrapper.specs.Telling.{told_after};

use crate::announced::Announced;
use crate::object_pass::ObjectPass;

/// An object under test: any concurrent object, right or wrong, of which nothing is known but what
/// it answers.
///
/// Implement it for an object of your own, and the crates above run its callers on threads, show
/// every caller which calls came before which, and check the replies against a sequential object
/// while they come. The object itself stays as it is: it keeps its own memory, and makes its own
/// atomic steps.
///
/// ```text
/// ghost use Rattle.std.proofs.Common.{rules};
///
/// use drv_wrapper::{Announced, BlackBox, ObjectPass};
/// use std::sync::atomic::{AtomicU64, Ordering};
///
/// /// The object: a counter that its callers share.
/// pub struct Hits {
///     count: AtomicU64,
/// }
///
/// /// What one caller holds to call it.
/// pub struct HitsPass {
///     caller: u32,
///     made: u64,
///     cap: u64,
/// }
///
/// impl ObjectPass for HitsPass {
///     ghost caller = { λ pass. pass.caller };
///     ghost made = { λ pass. pass.made };
///     ghost cap = { λ pass. pass.cap };
///
///     fn caller(&self) -> u32 { self.caller }
///     fn made(&self) -> u64 { self.made }
///     fn cap(&self) -> u64 { self.cap }
/// }
///
/// impl BlackBox for Hits {
///     type Pass = HitsPass;
///
///     ghost tells_each = { Prim.search rules };
///
///     fn call(&self, pass: &mut HitsPass, _announced: &Announced) -> u64 {
///         pass.made += 1;
///         self.count.fetch_add(1, Ordering::SeqCst)
///     }
/// }
/// ```
///
/// What a call is given: the caller's own pass, and the announced call, of which [`Announced::op`]
/// is the operation, [`Announced::caller`] the caller and [`Announced::number`] the number of the
/// call among that caller's. Operations and replies are words. Which ones there are, and which
/// reply is right, is said by the sequential object that the replies are checked against
/// (`SeqObject` in `book_base`). An object may answer any word; to find wrong replies is what the
/// check is for.
///
/// What you owe, which the check of your crate proves of `call`:
///
/// - It returns, and is safe beside calls of other callers: it takes `&self`, and one pass.
/// - The pass counts: `made` is one more, and its caller and its cap are as before. So an object
///   is asked at most once for each announcement.
/// - The pass stays one of the object's own. `is_own` is yours to choose, as the condition that
///   `call` needs of a pass, such as that it comes from this object's `open`. An object that leaves
///   it out takes any pass.
/// - The told list, if there is one, has the operation and the reply at its end, and as many pairs
///   as there were calls (`tells_each`). A pass that leaves `told` out owes nothing here.
///
/// What you may take for granted in `call`: the pass is the object's own and the announced
/// caller's, and `made < cap`. Nobody has to prove that the object is linearizable: its replies are
/// checked while they come.
///
/// To share an object among threads it has to be `Sync`, and its passes `Send`.
///
/// The edges of a call. In the history that is checked, a call of the object is invoked by the step
/// that announces it, before `call` begins, and it returns by the first look of its view's scan,
/// after `call` has returned. So the interval that is checked contains the real one: precedence is
/// never claimed of calls that overlapped, and an object that is linearizable by its own steps is
/// linearizable there too. On the other side a wrong reply of calls that overlap may be a right one
/// in the wider intervals, and then it isn't found (Castañeda and Rodríguez 2023).
pub trait BlackBox {
    /// What one caller holds to call the object.
    type Pass: ObjectPass;

    /// Which passes are the object's own: all passes, where an object leaves this out.
    ghost is_own: { Self → Self.Pass → Type 0 } = { λ object pass. Unit {0} };

    /// Makes the announced call, once, and answers the object's reply to it.
    fn call(&self, pass: &mut Self::Pass, announced: &Announced) -> u64
        // The pass is one of this object's.
        requires own { is_own self.now pass.old }
        // The pass is that of the announced call's caller.
        requires caller { Self.Pass.caller pass.old ≡ who_announced announced.now }
        // The pass has made fewer calls than it may make.
        requires left { Self.Pass.made pass.old < Self.Pass.cap pass.old }
        // The pass is still one of this object's.
        ensures own { is_own self.now pass.new }
        // The pass has made one call more.
        ensures made { Self.Pass.made pass.new ≡ Self.Pass.made pass.old + 1 }
        // The pass keeps its caller and how many calls it may make.
        ensures same { (Self.Pass.caller pass.new ≡ Self.Pass.caller pass.old)
            × (Self.Pass.cap pass.new ≡ Self.Pass.cap pass.old) }
        // A pass that tells its calls tells one more, with this operation and the object's reply;
        // one that tells none still tells none.
        ensures told { Self.Pass.told pass.new
            ≡ told_after (op_announced announced.now) result (Self.Pass.told pass.old) };

    /// The list that a pass of the object tells has as many pairs as calls were made with it.
    ghost tells_each: { (object : Self) (pass : Self.Pass) (pairs : List (ℕ × ℕ))
        → is_own object pass → Self.Pass.told pass ≡ Some pairs
        → length pairs ≡ Self.Pass.made pass };
}
