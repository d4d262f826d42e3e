//! The lines after a book: the title of the steps, the told lines, and the end.

ghost use Rattle.std.specs.Prelude.{◌≡◌, ◌≢◌, ℕ, ◌<◌, ◌^◌, ◌∷◌, [], ◌++◌, List, IfOk, IfErr, IfSome, IfNone, IsTrue};
ghost use Rattle.std.specs.List.{list_any};
ghost use Rattle.seq_objects.specs.Replies.{reply_word};
ghost use Rattle.text_fields.specs.Lines.{words_of};
ghost use Rattle.text_fields.specs.Faults.{IsFirstTest};
ghost use Rattle.model_text.specs.declared.told_line.Subject.{Subject};
ghost use Rattle.model_text.specs.declared.told_line.Subject.TheVariants.{Leaves, Step};
ghost use Rattle.model_text.specs.ModelWords.{model_words};
ghost use Rattle.model_text.specs.Grammar.{IsSubject, subject_words};
ghost use Rattle.model_text.specs.ModelRules.{ToldFails};
ghost use Rattle.model_text.specs.Reading.{IsTitle, IsNoTitle, IsOneReply, SaysLine, AreTold, AreNotTold};
ghost use Rattle.model_text.specs.Told.{rises_after as rises_after_lem, keeps as keeps_lem, is_promise};

use crate::book_lines::is_end;
use crate::model_words::ModelWords;
use crate::told_line::{Subject, ToldLine};
use book_base::{OpWord, ReadFault, TextFault, What};
use book_text::{take_operation, take_word};
use seq_objects::reply_from_word;
use std::alloc::Global;
use text_fields::{Lines, Words, are_words, next_number};

/// Reads the title of the steps, which is the line after a book.
pub(crate) fn read_title(lines: &mut Lines) -> Result<(), TextFault>
    ensures found { IfOk result (λ _. IsTitle lines.old lines.new) }
    ensures refused { IfErr result (IsNoTitle lines.old) }
{
    let line = lines.number();
    let mut words = Words::new(lines.line()?);
    if are_words(&mut words, b"steps", b"2") {
        Ok(())
    } else {
        Err(TextFault {
            line,
            what: What::Head,
        })
    }
}

/// What the lines tell, up to the end.
pub(crate) fn read_told(alloc: Global, lines: &mut Lines) -> Result<Vec<ToldLine>, ReadFault>
    ensures found { IfOk result (λ told. AreTold lines.old told.items lines.new) }
    ensures refused { IfErr result (AreNotTold lines.old) }
{
    let mut told = Vec::new(alloc);
    loop {
        let line = lines.number();
        match read_told_line(&told, lines.line()?) {
            Ok(Some(said)) => told.push(said)?,
            Ok(None) => return Ok(told),
            Err(what) => return Err(ReadFault::Text(TextFault { line, what })),
        }
    }
}

/// What a line tells after the lines `told`, or `None` where it is the end.
fn read_told_line(told: &[ToldLine], line: &[u8]) -> Result<Option<ToldLine>, What>
    ensures found { IfOk result (SaysLine told.now (words_of line.now)) }
    ensures refused { IfErr result (IsFirstTest (ToldFails told.now (words_of line.now))) }
{
    let mut words = Words::new(line);
    if is_end(&mut words.copy()) {
        return Ok(None);
    }
    let Some(subject) = take_subject(&mut words) else {
        return Err(What::Place);
    };
    let Some(reply) = take_kept(&mut words, told, subject) else {
        return Err(What::Reply);
    };
    let said = ToldLine { subject, reply };
    if rises_after(told, &said) {
        Ok(Some(said))
    } else {
        Err(What::Last)
    }
}

/// Takes what a told line speaks of.
fn take_subject(words: &mut Words) -> Option<Subject>
    ensures found { IfSome result (λ subject.
        IsSubject subject × (words.old ≡ subject_words subject ++ words.new)) }
    ensures none { IfNone result ((subject : Subject) (suffix : List (List ℕ)) → IsSubject subject
        → words.old ≢ subject_words subject ++ suffix) }
{
    let mut ahead = words.copy();
    match take_word(&mut ahead, b"leaves") {
        Some(()) => {
            let op = take_operation(&ModelWords, &mut ahead)?;
            *words = ahead;
            Some(Subject::Leaves(op))
        }
        None => take_step(words),
    }
}

/// Takes a state, an operation and the state to which it leads.
fn take_step(words: &mut Words) -> Option<Subject>
    ensures found { IfSome result (λ subject.
        IsSubject subject × (words.old ≡ subject_words subject ++ words.new)) }
    ensures none { IfNone result ((state op next : ℕ) (suffix : List (List ℕ))
        → IsSubject (Step state op next) → words.old ≢ subject_words (Step state op next) ++ suffix) }
{
    let state = next_number(words, u64::MAX)?;
    let op = take_operation(&ModelWords, words)?;
    let next = next_number(words, u64::MAX)?;
    Some(Subject::Step(state, op, next))
}

/// Takes a reply that keeps the promises of the lines `told`, and nothing after it.
fn take_kept(words: &mut Words, told: &[ToldLine], subject: Subject) -> Option<u64>
    ensures found { IfSome result (λ reply.
        IsOneReply words.old reply × IsTrue (keeps_lem told.now subject reply)) }
    ensures none { IfNone result ((reply : ℕ) → reply < 2 ^ 64
        → IsTrue (keeps_lem told.now subject reply) → words.old ≢ reply_word reply ∷ []) }
{
    let reply = take_reply(words)?;
    if keeps(told, subject, reply) {
        Some(reply)
    } else {
        None
    }
}

/// Takes a reply, and nothing after it.
fn take_reply(words: &mut Words) -> Option<u64>
    ensures found { IfSome result (IsOneReply words.old) }
    ensures none { IfNone result ((reply : ℕ) → reply < 2 ^ 64
        → words.old ≢ reply_word reply ∷ []) }
{
    let reply = reply_from_word(words.next()?)?;
    if words.next().is_none() {
        Some(reply)
    } else {
        None
    }
}

/// Whether a reply keeps the promises of the lines `told`.
fn keeps(told: &[ToldLine], subject: Subject, reply: u64) -> bool
    ensures { result ≡ keeps_lem told.now subject reply }
{
    match subject {
        Subject::Leaves(_) => true,
        Subject::Step(state, op, next) => state == next || !is_promised(told, op, reply),
    }
}

/// Whether a line promises that the operation changes no state at which it has this reply.
fn is_promised(told: &[ToldLine], op: OpWord, reply: u64) -> bool
    ensures { result ≡ list_any (is_promise op reply) told.now }
{
    told.iter().any(|line| line.is_promise(op, reply))
}

/// Whether a line comes after the last one of the lines `told`.
fn rises_after(told: &[ToldLine], line: &ToldLine) -> bool
    ensures { result ≡ rises_after_lem told.now line.now }
{
    match told.last() {
        Some(last) => last.comes_before(line),
        None => true,
    }
}
