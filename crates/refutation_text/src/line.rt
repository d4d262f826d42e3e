//! A line after the title of a refutation, by itself.

ghost use Rattle.std.specs.Prelude.{IfOk, IfSome, IfNone};
ghost use Rattle.text_fields.specs.Lines.{words_of};
ghost use Rattle.refutation_text.specs.Said.{StepSaid, EndingSaid, StepLine, step_said, ending_said};
ghost use Rattle.refutation_text.specs.Grammar.{IsLine};
ghost use Rattle.refutation_text.specs.Reading.{opening_line, Opens};

use crate::fields::{call_of, calls_of, counts_of, find_of, keys_of, takes_of};
use crate::refutation::{Ending, Step};
use book_base::NoMemory;
use std::alloc::Global;
use text_fields::{Words, are_words};

/// The step that a line says.
pub(crate) fn step_of(alloc: Global, line: &[u8]) -> Result<Option<Step>, NoMemory>
    ensures found { IfOk result (λ found. IfSome found (λ step.
        IsLine (words_of line.now) (StepLine (step_said step)))) }
    ensures none { IfOk result (λ found. IfNone found ((step : StepSaid)
        → IsLine (words_of line.now) (StepLine step) → ⊥)) }
{
    let words = Words::new(line);
    if let Some(counts) = counts_of(&mut words.copy()) {
        return Ok(Some(Step::At(counts)));
    }
    if let Some(call) = call_of(&mut words.copy(), b"leave") {
        return Ok(Some(Step::Leave(call)));
    }
    if let Some(calls) = calls_of(alloc, &mut words.copy(), b"keep")? {
        return Ok(Some(Step::Keep(calls)));
    }
    if let Some(keys) = keys_of(alloc, &mut words.copy(), b"without")? {
        return Ok(Some(Step::Without(keys)));
    }
    match keys_of(alloc, &mut words.copy(), b"only")? {
        Some(keys) => Ok(Some(Step::Only(keys))),
        None => Ok(None),
    }
}

/// The ending that a line begins, with no entries as yet where entries follow. `None` is answered
/// of other lines.
pub(crate) fn opening_of(alloc: Global, line: &[u8]) -> Result<Option<Ending>, NoMemory>
    ensures found { IfOk result (λ found. IfSome found (λ ending.
        Opens (words_of line.now) (ending_said ending))) }
    ensures none { IfOk result (λ found. IfNone found ((ending : EndingSaid)
        → IsLine (words_of line.now) (opening_line ending) → ⊥)) }
{
    let words = Words::new(line);
    if are_words(&mut words.copy(), b"closed", b"plain") {
        return Ok(Some(Ending::Closed(Vec::new(alloc))));
    }
    if are_words(&mut words.copy(), b"closed", b"pairs") {
        return Ok(Some(Ending::Pairs(Vec::new(alloc))));
    }
    if are_words(&mut words.copy(), b"closed", b"levels") {
        return Ok(Some(Ending::Levels(Vec::new(alloc))));
    }
    if let Some(call) = call_of(&mut words.copy(), b"impossible") {
        return Ok(Some(Ending::Impossible(call)));
    }
    if let Some((value, moment)) = takes_of(&mut words.copy()) {
        return Ok(Some(Ending::CountsTakes(value, moment)));
    }
    match find_of(alloc, &mut words.copy())? {
        Some((caller, number, values)) => Ok(Some(Ending::CountsFind(caller, number, values))),
        None => Ok(None),
    }
}
