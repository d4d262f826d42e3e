ghost use Rattle.std.specs.Prelude.{◌≡◌, ℕ, List, [], ◌++◌};
ghost use Rattle.world_core.specs.Local.{Object_step};
ghost use Rattle.world_core.specs.CallSteps.{steps_now, all_steps_of};
ghost use Rattle.world_core.specs.World.{Step, IsRun};
ghost use Rattle.world_core.specs.History.{IsLinearizable, history_of};
ghost use Rattle.report_lines.specs.Phases.{progress_of};
ghost use Rattle.row_table.specs.Callers.{IsCallerOf, IsStill, MayGet};
ghost use Rattle.drv_wrapper.specs.States.{who_announced, caller_announced, announced_local, op_announced, op_answered, reply_answered, caller_answered, answered_local};
ghost use Rattle.core_objects.specs.CoreObjects.{shape_with, with_steps, after_steps, AreOpenedWith, HasReplied};

use book_base::SeqObject;
use drv_wrapper::{Announced, Answered};
use row_table::Rows;
use world_core::InWorld;

/// An object inside the world: its callers make its steps on object words of the table, as its
/// program allows, each in the midst of an announced call of its own.
///
/// The object history of every run of its program is linearizable for its sequential object,
/// whatever the callers and the cap (Herlihy and Wing 1990).
pub trait CoreObject {
    /// The sequential object whose replies this object gives.
    type S: SeqObject;

    /// The program that says which steps the object's callers make.
    type P: InWorld;

    /// What one caller holds to ask the object.
    type Pass;

    /// The sequential object of this core object.
    ghost sequential_of: { Self → Self.S };

    /// The program of this core object, with which the rows are opened.
    ghost program_of: { Self → Self.P };

    /// Whether a pass of this object fits a caller, a number of callers, a cap, and the object
    /// steps of all the caller's calls: it was made for them, and knows what these steps show.
    ghost fits: { Self → Self.Pass → ℕ → ℕ → ℕ → List Object_step → Type 0 };

    /// The sequential object of this core object.
    fn sequential(&self) -> &Self::S
        ensures { result.now ≡ sequential_of self.now };

    /// The program of this core object.
    fn program(&self) -> Self::P
        ensures { result ≡ program_of self.now };

    /// Makes the announced call, by object steps of its caller, and returns the reply that the
    /// program then allows. Takes no memory.
    fn reply(
        &self,
        rows: &Rows<Self::P>,
        announced: &mut Announced<Self::P>,
        pass: &mut Self::Pass,
    ) -> u64
        // The rows were opened with the program of this object.
        requires program { AreOpenedWith Self.P.meaning (program_of self.now) rows.now }
        // The caller of the announced call belongs to these rows.
        requires caller { IsCallerOf Self.P.meaning rows.now (caller_announced announced.old) }
        // The announced call has made no object step.
        requires first { steps_now (announced_local announced.old) ≡ [] }
        // The pass fits the caller and all object steps that the caller has made.
        requires fits { fits self.now pass.old (who_announced announced.old) rows.now.callers
            rows.now.cap (all_steps_of (announced_local announced.old)) }
        // The caller has made some object steps and no other event, the program allows it the
        // returned reply, and the pass fits the caller with these further steps.
        ensures made { (made : HasReplied Self.P.meaning rows.now announced.old
            announced.new result)
            × fits self.now pass.new (who_announced announced.old) rows.now.callers rows.now.cap
            (all_steps_of (announced_local announced.old) ++ made.steps) };

    /// Makes the announced call, which has no object step yet, and keeps its reply. Takes no
    /// memory.
    final fn ask(
        &self,
        rows: &Rows<Self::P>,
        announced: Announced<Self::P>,
        pass: &mut Self::Pass,
    ) -> Answered<Self::P>
        // The rows were opened with the program of this object.
        requires program { AreOpenedWith Self.P.meaning (program_of self.now) rows.now }
        // The caller of the announced call belongs to these rows.
        requires caller { IsCallerOf Self.P.meaning rows.now (caller_announced announced) }
        // The announced call has made no object step.
        requires first { steps_now (announced_local announced) ≡ [] }
        // The pass fits the caller and all object steps that the caller has made.
        requires fits { fits self.now pass.old (who_announced announced) rows.now.callers
            rows.now.cap (all_steps_of (announced_local announced)) }
        // The caller still belongs to these rows, with the same number.
        ensures caller { IsStill Self.P.meaning rows.now (caller_announced announced)
            (caller_answered result) }
        // The answered call has the announced operation.
        ensures operation { op_answered result ≡ op_announced announced }
        // The program allows the caller the reply, by its local.
        ensures allowed { MayGet Self.P.meaning (caller_answered result) (reply_answered result) }
        // The caller has made some object steps and no other event, its progress has grown by these
        // steps alone, and the pass fits the caller with these further steps.
        ensures made { (steps : List Object_step)
            × (answered_local result ≡ with_steps (announced_local announced) steps)
            × (progress_of (answered_local result)
            ≡ after_steps steps (progress_of (announced_local announced)))
            × fits self.now pass.new (who_announced announced) rows.now.callers rows.now.cap
            (all_steps_of (announced_local announced) ++ steps) }
    {
        let mut announced = announced;
        let reply = self.reply(rows, &mut announced, pass);
        announced.answer(reply)
    }

    /// The object history of every run of the object's program is linearizable for its sequential
    /// object.
    ghost linearizes: { (object : Self) (n cap : ℕ) (steps : List Step)
        → IsRun (shape_with (Self.P.meaning (program_of object)) n cap) steps
        → IsLinearizable (Self.S.spec (sequential_of object))
        (history_of (shape_with (Self.P.meaning (program_of object)) n cap) steps) };
}

/// The object history of every run of a core object's program is linearizable for its sequential
/// object.
pub fn runs_of<O: CoreObject>(_object: &O)
    ensures { (n cap : ℕ) (steps : List Step)
        → IsRun (shape_with (O.P.meaning (O.program_of _object.now)) n cap) steps
        → IsLinearizable (O.S.spec (O.sequential_of _object.now))
        (history_of (shape_with (O.P.meaning (O.program_of _object.now)) n cap) steps) }
{}
