//! Objects outside the world that have a name.

ghost use Rattle.std.specs.Prelude.{◌≡◌, ◌≤◌, ℕ, IfOk, All};
ghost use Rattle.book_base.specs.declared.TheConstants.{MAX_CALLERS, MAX_CALLS};
ghost use Rattle.seq_objects.specs.declared.kind.Kind.{Kind as TheKind};
ghost use Rattle.test_objects.specs.declared.behaviour.Behaviour.{Behaviour as TheBehaviour};
ghost use Rattle.test_objects.specs.declared.behaviour.Behaviour.TheVariants as behaviours;
ghost use Rattle.named_runs.specs.NamedObjects.{AreOwnPasses, HasAnswered};

use crate::named_machine::NamedMachine;
use book_base::{MAX_CALLERS, MAX_CALLS, NoMemory};
use drv_wrapper::{BlackBox, ObjectPass};
use seq_objects::Kind;
use shared_words::WordsPass;
use std::alloc::Global;
use test_objects::{LogBox, LogPass, OnePass, SplitTally, Tally, WordCell};

/// An object that a name stands for. It is opened with a pass for each of its callers, and closed
/// with these passes once all calls are made. Closing it shows that the object of this behaviour
/// answered the calls of all callers.
pub(crate) trait NamedObject: BlackBox + Sized {
    /// The behaviour whose name the object has.
    ghost behaviour: { TheBehaviour };

    /// Whether the object was opened for scripts of a kind and for a number of callers.
    ghost is_opened_for: { Self → TheKind → ℕ → Type 0 } = { λ object kind n. Unit {0} };

    /// Opens an object for scripts of a kind, for `n` callers with the greatest cap of calls each,
    /// with a pass for each caller, in order.
    fn open_for(alloc: Global, kind: Kind, n: u32) -> Result<(Self, Vec<Self::Pass>), NoMemory>
        requires some_callers { 1 ≤ n }
        requires few_callers { n ≤ MAX_CALLERS }
        ensures opened { IfOk result (λ r. is_opened_for r.0 kind n) }
        ensures passes { IfOk result
            (λ r. AreOwnPasses (Self.is_own r.0) Self.Pass.caller n r.1.items) }
        ensures fresh { IfOk result (λ r. All
            (λ pass. (Self.Pass.made pass ≡ 0) × (Self.Pass.cap pass ≡ MAX_CALLS)) r.1.items) };

    /// Takes the passes of all callers back, and drops the object. Whatever calls the passes tell,
    /// the object of this behaviour answered them.
    fn close_with(self, passes: Vec<Self::Pass>)
        requires { (kind : TheKind) × (n : ℕ) × is_opened_for self kind n
            × AreOwnPasses (Self.is_own self) Self.Pass.caller n passes.items }
        ensures { HasAnswered behaviour (is_opened_for self)
            (Self.is_own self) Self.Pass.caller Self.Pass.told
            passes.items };
}

impl<M: NamedMachine> NamedObject for LogBox<M> {
    ghost use Rattle.test_objects.specs.Passes.{callers_in, machine_in};
    ghost use Rattle.named_runs.specs.NamedObjects.{IsLogFor};

    ghost behaviour = { M.behaviour };

    ghost is_opened_for = { λ object. IsLogFor M.behaviour (M.reply_to (machine_in object)) (callers_in object) };

    fn open_for(alloc: Global, kind: Kind, n: u32) -> Result<(Self, Vec<LogPass>), NoMemory> {
        LogBox::open(alloc, M::for_kind(kind), n, MAX_CALLS)
    }

    fn close_with(self, passes: Vec<LogPass>)
        requires { (kind : TheKind) × (n : ℕ)
            × IsLogFor M.behaviour (M.reply_to (machine_in self)) (callers_in self) kind n
            × AreOwnPasses (⟦<LogBox<M> as BlackBox>⟧.is_own self) ⟦<LogPass as ObjectPass>⟧.caller
            n passes.items }
        ensures { HasAnswered M.behaviour
            (IsLogFor M.behaviour (M.reply_to (machine_in self)) (callers_in self))
            (⟦<LogBox<M> as BlackBox>⟧.is_own self) ⟦<LogPass as ObjectPass>⟧.caller
            ⟦<LogPass as ObjectPass>⟧.told
            passes.items }
    {
        self.close(passes);
    }
}

impl NamedObject for Tally {
    ghost behaviour = { behaviours.Tally };

    fn open_for(alloc: Global, _kind: Kind, n: u32) -> Result<(Self, Vec<WordsPass>), NoMemory> {
        Tally::open(alloc, n, MAX_CALLS)
    }

    fn close_with(self, _passes: Vec<WordsPass>)
        ensures { HasAnswered behaviours.Tally (λ kind n. Unit {0})
            (⟦<Tally as BlackBox>⟧.is_own self)
            ⟦<WordsPass as ObjectPass>⟧.caller ⟦<WordsPass as ObjectPass>⟧.told _passes.items }
    {}
}

impl NamedObject for WordCell {
    ghost behaviour = { behaviours.Cell };

    fn open_for(alloc: Global, _kind: Kind, n: u32) -> Result<(Self, Vec<WordsPass>), NoMemory> {
        WordCell::open(alloc, n, MAX_CALLS)
    }

    fn close_with(self, _passes: Vec<WordsPass>)
        ensures { HasAnswered behaviours.Cell (λ kind n. Unit {0})
            (⟦<WordCell as BlackBox>⟧.is_own self)
            ⟦<WordsPass as ObjectPass>⟧.caller ⟦<WordsPass as ObjectPass>⟧.told _passes.items }
    {}
}

impl NamedObject for SplitTally {
    ghost behaviour = { behaviours.Split };

    fn open_for(alloc: Global, _kind: Kind, n: u32) -> Result<(Self, Vec<WordsPass>), NoMemory> {
        SplitTally::open(alloc, n, MAX_CALLS)
    }

    fn close_with(self, _passes: Vec<WordsPass>)
        ensures { HasAnswered behaviours.Split (λ kind n. Unit {0})
            (⟦<SplitTally as BlackBox>⟧.is_own self)
            ⟦<WordsPass as ObjectPass>⟧.caller ⟦<WordsPass as ObjectPass>⟧.told _passes.items }
    {}
}

impl NamedObject for OnePass {
    ghost behaviour = { behaviours.Onepass };

    fn open_for(alloc: Global, _kind: Kind, n: u32) -> Result<(Self, Vec<WordsPass>), NoMemory> {
        OnePass::open(alloc, n, MAX_CALLS)
    }

    fn close_with(self, _passes: Vec<WordsPass>)
        ensures { HasAnswered behaviours.Onepass (λ kind n. Unit {0})
            (⟦<OnePass as BlackBox>⟧.is_own self)
            ⟦<WordsPass as ObjectPass>⟧.caller ⟦<WordsPass as ObjectPass>⟧.told _passes.items }
    {}
}
