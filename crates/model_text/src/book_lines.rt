//! The lines of a model's book, which the told lines follow.

ghost use Rattle.std.specs.Prelude.{◌≡◌, ◌↔◌, ◌≤◌, IsTrue, IfOk, IfErr};
ghost use Rattle.book_base.specs.declared.TheConstants.{MAX_CALLERS};
ghost use Rattle.text_fields.specs.declared.version.Version.TheVariants.{Second};
ghost use Rattle.text_fields.specs.Head.{AreCallers, AreCalls};
ghost use Rattle.book_text.specs.CallLines.{no_call_read};
ghost use Rattle.book_text.specs.Grammar.{end_words};
ghost use Rattle.model_text.specs.ModelBookRules.{TitleDue, ObjectDue, CallersDue, CountsDue, in_calls};
ghost use Rattle.model_text.specs.ModelRules.{InBook, nothing_read};
ghost use Rattle.model_text.specs.Reading.{Goes, Stops, IsFault, IsHead, IsBookRead, IsBookEnd, IsNoBookEnd};

use crate::model_words::ModelWords;
use book_base::{Book, Cut, ReadFault, TextFault, What};
use book_text::read_calls;
use std::alloc::Global;
use text_fields::{Lines, Version, Words, are_words, callers_of, calls_of};

/// The book that the lines begin with, up to its end; the lines after it are left.
pub(crate) fn read_book_lines(alloc: Global, lines: &mut Lines) -> Result<Book, ReadFault>
    ensures found { IfOk result (λ book. IsBookRead lines.old book lines.new) }
    ensures refused { IfErr result (Stops nothing_read lines.old) }
{
    let (n, calls) = read_head(lines)?;
    let book = read_calls(alloc, lines, n, &calls, &ModelWords)?;
    read_book_end(lines)?;
    Ok(book)
}

/// Reads the four lines of the head: the number of callers, and the number of calls of each.
fn read_head(lines: &mut Lines) -> Result<(u32, Cut), TextFault>
    ensures found { IfOk result (λ (n, calls). IsHead calls lines.old lines.new) }
    ensures says { IfOk result (λ (n, calls). AreCallers Second n × AreCalls Second n calls) }
    ensures refused { IfErr result (IsFault nothing_read lines.old) }
{
    read_title(lines)?;
    read_object(lines)?;
    let n = read_callers(lines)?;
    let calls = read_counts(lines, n)?;
    Ok((n, calls))
}

/// Reads the line of the title.
fn read_title(lines: &mut Lines) -> Result<(), TextFault>
    ensures found { IfOk result (λ _.
        Goes (InBook TitleDue) lines.old (InBook ObjectDue) lines.new) }
    ensures refused { IfErr result (IsFault (InBook TitleDue) lines.old) }
{
    let line = lines.number();
    let mut words = Words::new(lines.line()?);
    if are_words(&mut words, b"book", b"2") {
        Ok(())
    } else {
        Err(TextFault {
            line,
            what: What::Head,
        })
    }
}

/// Reads the line of the object.
fn read_object(lines: &mut Lines) -> Result<(), TextFault>
    ensures found { IfOk result (λ _.
        Goes (InBook ObjectDue) lines.old (InBook CallersDue) lines.new) }
    ensures refused { IfErr result (IsFault (InBook ObjectDue) lines.old) }
{
    let line = lines.number();
    let mut words = Words::new(lines.line()?);
    if are_words(&mut words, b"object", b"model") {
        Ok(())
    } else {
        Err(TextFault {
            line,
            what: What::Object,
        })
    }
}

/// Reads the line of the number of callers.
fn read_callers(lines: &mut Lines) -> Result<u32, TextFault>
    ensures found { IfOk result (λ n.
        Goes (InBook CallersDue) lines.old (InBook (CountsDue n)) lines.new) }
    ensures says { IfOk result (λ n. AreCallers Second n) }
    ensures refused { IfErr result (IsFault (InBook CallersDue) lines.old) }
{
    let line = lines.number();
    let mut words = Words::new(lines.line()?);
    match callers_of(Version::Second, &mut words) {
        Some(n) => Ok(n),
        None => Err(TextFault {
            line,
            what: What::Callers,
        }),
    }
}

/// Reads the line of the numbers of calls.
fn read_counts(lines: &mut Lines, n: u32) -> Result<Cut, TextFault>
    requires some { 1 ≤ n }
    requires few { n ≤ MAX_CALLERS }
    ensures found { IfOk result (λ calls. Goes (InBook (CountsDue n)) lines.old
        (InBook (in_calls (no_call_read calls))) lines.new) }
    ensures says { IfOk result (λ calls. AreCalls Second n calls) }
    ensures refused { IfErr result (IsFault (InBook (CountsDue n)) lines.old) }
{
    let line = lines.number();
    let mut words = Words::new(lines.line()?);
    match calls_of(Version::Second, &mut words, n) {
        Some(calls) => Ok(calls),
        None => Err(TextFault {
            line,
            what: What::Calls,
        }),
    }
}

/// Reads the line after a book's calls.
fn read_book_end(lines: &mut Lines) -> Result<(), TextFault>
    ensures found { IfOk result (λ _. IsBookEnd lines.old lines.new) }
    ensures refused { IfErr result (IsNoBookEnd lines.old) }
{
    let line = lines.number();
    let mut words = Words::new(lines.line()?);
    if is_end(&mut words) {
        Ok(())
    } else {
        Err(TextFault {
            line,
            what: What::End,
        })
    }
}

/// Whether the words are those of the last line of a book, or of the steps.
pub(crate) fn is_end(words: &mut Words) -> bool
    ensures { IsTrue result ↔ (words.old ≡ end_words) }
{
    words.next() == Some(b"end".as_slice()) && words.next().is_none()
}
