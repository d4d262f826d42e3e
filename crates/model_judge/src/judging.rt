ghost use Rattle.std.specs.Prelude.{IfOk, IfErr};
ghost use Rattle.text_fields.specs.Faults.{IsFaultOf};
ghost use Rattle.told_models.specs.Answers.{IsRightAnswer};
ghost use Rattle.model_text.specs.ModelRules.{IsFirstModelFault};
ghost use Rattle.model_judge.specs.Verdicts.{IsModelVerdict};

use book_base::{Book, NoMemory, OpWord, ReadFault};
use model_text::{read_model, table_of};
use std::alloc::Global;
use told_models::{Answer, ToldSearch, ToldTable};

/// What is said of the book of a model's text, by the steps in the text.
#[derive(Clone, Copy, Debug, PartialEq, Eq)]
pub(crate) enum ModelVerdict {
    /// Each object that agrees with what was told has a legal order of the book.
    Legal,
    /// No object that agrees with what was told has a legal order of the book.
    Illegal,
    /// The step of this operation at this state is needed, and wasn't told.
    Open(u64, OpWord),
}

/// Judges the book of the model's text that the bytes are, by the steps in the text.
pub(crate) fn judge_model(alloc: Global, bytes: &[u8]) -> Result<ModelVerdict, ReadFault>
    // A verdict that is answered is right for the book and the steps whose text the bytes are.
    ensures verdict { IfOk result (IsModelVerdict bytes.now) }
    // A refusal has the first fault of the bytes as a model's text, or says want of memory.
    ensures refused { IfErr result (IsFaultOf (IsFirstModelFault bytes.now)) }
{
    let text = read_model(alloc, bytes)?;
    let table = table_of(alloc, &text.told)?;
    match search(alloc, &table, &text.book)? {
        Answer::Legal(_) => Ok(ModelVerdict::Legal),
        Answer::Illegal => Ok(ModelVerdict::Illegal),
        Answer::Ask(state, op) => Ok(ModelVerdict::Open(state, op)),
    }
}

// Searches for a legal order of the book, up to a verdict or to a step that wasn't told.
fn search(alloc: Global, table: &ToldTable, book: &Book) -> Result<Answer, NoMemory>
    ensures { IfOk result (IsRightAnswer table.now book.now) }
{
    let mut search = ToldSearch::begin(alloc, table, book)?;
    'steps: loop {
        if let Some(answer) = search.go_on(alloc, table, book, u64::MAX)? {
            return Ok(answer);
        }
    }
}
