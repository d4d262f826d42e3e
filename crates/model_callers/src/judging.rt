ghost use Rattle.std.specs.Prelude.{◌≡◌, ◌+◌, ◌≤◌, None, IfSome, IfNone, IfOk, IfErr};
ghost use Rattle.std.specs.Arc.{arc_value};
ghost use Rattle.row_table.specs.Callers.{IsFree};
ghost use Rattle.told_models.specs.Answers.{IsRightAnswer};
ghost use Rattle.told_models.specs.Searching.{IsSearch};
ghost use Rattle.drv_wrapper.specs.Stands.{IsStopped};
ghost use Rattle.model_checks.specs.Checks.{AreSmall, left_by};
ghost use Rattle.model_callers.specs.Callers.{IsGatheredCall, IsSoundAt};
ghost use Rattle.model_callers.specs.Judging.{GoesOnTo};

use crate::gathered_call::GatheredCall;
use crate::kept::KeptByModel;
use crate::stage::ModelStage;
use book_base::{Book, NoMemory};
use model_checks::{ModelAnswer, ModelReply, operation_number};
use std::alloc::Global;
use told_models::{Answer, ToldSearch, ToldTable};

// Goes on with a search, or begins one where there is none, by at most so many steps. After want of
// memory there is none.
fn search_on(
    alloc: Global,
    table: &ToldTable,
    book: &Book,
    search: &mut Option<ToldSearch>,
    steps: u64,
) -> Result<Option<Answer>, NoMemory>
    requires { IfSome search.old (IsSearch table.now book.now) }
    ensures search { IfSome search.new (IsSearch table.now book.now) }
    ensures answer { IfOk result (λ said. IfSome said (IsRightAnswer table.now book.now)) }
    ensures lighter { IfOk result
        (λ said. left_by book.now search.new ≤ left_by book.now search.old) }
    ensures paused { IfOk result (λ said. IfNone said
        (left_by book.now search.new + steps ≤ left_by book.now search.old)) }
    ensures none { IfErr result (λ _. search.new ≡ None) }
{
    let mut found = match search.take() {
        Some(found) => found,
        None => ToldSearch::begin(alloc, table, book)?,
    };
    let said = found.go_on(alloc, table, book, steps)?;
    *search = Some(found);
    Ok(said)
}

// The call, with its caller halted.
fn halted(call: GatheredCall) -> GatheredCall
    ensures same { (result.record ≡ call.record) × (result.gathered ≡ call.gathered) }
    ensures stopped { IsStopped call.caller result.caller }
{
    let GatheredCall {
        caller,
        record: published,
        gathered,
    } = call;
    GatheredCall {
        caller: caller.halt(),
        record: published,
        gathered,
    }
}

/// Goes on with the judgement of a gathered call by at most so many steps, and says what came of it.
/// The stage is that of the call's caller afterwards. A delivered call's book is kept.
pub(crate) fn judge_on(
    alloc: Global,
    kept: &mut KeptByModel,
    call: GatheredCall,
    mut search: Option<ToldSearch>,
    steps: u64,
) -> (ModelStage, ModelReply)
    requires call { IsGatheredCall (arc_value kept.old.rows) call }
    requires free { IsFree call.caller }
    requires search { IfSome search (IsSearch kept.old.table call.gathered.book) }
    requires small { AreSmall kept.old.table }
    ensures same { (kept.new.rows ≡ kept.old.rows) × (kept.new.table ≡ kept.old.table) }
    ensures sound { IsSoundAt (arc_value kept.old.rows) kept.old.table kept.new.gathered result.0 }
    ensures goes_on { GoesOnTo (arc_value kept.old.rows) kept.old.table steps call search result.1
        kept.new.gathered result.0 }
{
    let said = search_on(alloc, &kept.table, &call.gathered.book, &mut search, steps);
    match said {
        Ok(Some(Answer::Legal(_order))) => {
            let GatheredCall {
                caller,
                record: _,
                gathered,
            } = call;
            kept.gathered = Some(gathered);
            (
                ModelStage::Idle(caller),
                ModelReply::Said(ModelAnswer::Legal),
            )
        }
        Ok(Some(Answer::Illegal)) => (
            ModelStage::Wrong(halted(call)),
            ModelReply::Said(ModelAnswer::Illegal),
        ),
        Ok(Some(Answer::Ask(state, op))) => (
            ModelStage::Judging(call, search),
            ModelReply::Said(ModelAnswer::Ask(state as u32, operation_number(op))),
        ),
        Ok(None) => (
            ModelStage::Judging(call, search),
            ModelReply::Said(ModelAnswer::Paused),
        ),
        Err(NoMemory) => (ModelStage::Judging(call, None), ModelReply::NoMemory),
    }
}
