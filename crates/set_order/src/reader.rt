//! Whole texts of set books.

ghost use Rattle.std.specs.Prelude.{◌≡◌, ◌⊎◌, ℕ, ◌≤◌, [], List, IfOk, IfErr, MatchResult};
ghost use Rattle.book_base.specs.declared.TheConstants.{MAX_CALLERS};
ghost use Rattle.book_base.specs.declared.fault.TextFault.{TextFault};
ghost use Rattle.book_base.specs.Book.{Page};
ghost use Rattle.text_fields.specs.declared.version.Version.TheVariants.{Second};
ghost use Rattle.text_fields.specs.Head.{AreCallers, AreCalls};
ghost use Rattle.text_fields.specs.Lines.{Unread};
ghost use Rattle.text_fields.specs.Faults.{GoesTo, IsFirstFault, StopsFor};
ghost use Rattle.book_text.specs.BookRules.{whole_text};
ghost use Rattle.book_text.specs.CallLines.{no_call_read};
ghost use Rattle.set_order.specs.SetBookRules.{TitleDue, ObjectDue, CallersDue, CountsDue, in_calls, setbook_rules, set_head_rules, IsSetHead, IsSetHeadFault, IsSetBookText, IsNoSetBookText, IsFirstSetBookFault};

use crate::join_words::JoinWords;
use book_base::{Book, Cut, ReadFault, TextFault, What};
use book_text::{read_calls, read_end};
use std::alloc::Global;
use text_fields::{Lines, Version, Words, are_words, callers_of, calls_of};

/// The set book that the bytes are the text of, in version 2.
///
/// A text fault names the first wrong line, and the first test that this line fails.
pub fn read_setbook(alloc: Global, bytes: &[u8]) -> Result<Book, ReadFault>
    // A set book that was read is the one that the bytes are the text of.
    ensures found { IfOk result (λ book. IsSetBookText bytes.now book) }
    // A text of a set book is read as that book, unless memory runs out.
    ensures only { (book : List Page) → IsSetBookText bytes.now book
        → MatchResult result (λ b. b ≡ book) (λ e. e ≡ ReadFault.NoMemory) }
    // A fault of the text is the first fault of bytes that are no set book's text.
    ensures refused { IfErr result (λ e. (e ≡ ReadFault.NoMemory)
        ⊎ ((fault : TextFault) × (e ≡ ReadFault.Text fault)
        × IsFirstSetBookFault bytes.now fault × IsNoSetBookText bytes.now)) }
    // Where the bytes have a first fault, the answer is that fault, unless memory runs out.
    ensures first { (fault : TextFault) → IsFirstSetBookFault bytes.now fault
        → MatchResult result (λ _. ⊥)
        (λ e. (e ≡ ReadFault.Text fault) ⊎ (e ≡ ReadFault.NoMemory)) }
{
    read_text(alloc, bytes)
}

/// The set book that the bytes are the text of, or the fault with which the reading stops.
fn read_text(alloc: Global, bytes: &[u8]) -> Result<Book, ReadFault>
    ensures found { IfOk result (λ book. IsSetBookText bytes.now book) }
    ensures refused { IfErr result (λ e.
        StopsFor setbook_rules TitleDue (whole_text bytes.now) e) }
{
    let mut lines = Lines::new(bytes);
    let (n, calls) = read_head(&mut lines)?;
    let book = read_calls(alloc, &mut lines, n, &calls, &JoinWords)?;
    read_end(&mut lines)?;
    Ok(book)
}

/// The head: the number of callers, and the number of calls of each. After a refusal the lines stay
/// as they were.
fn read_head(lines: &mut Lines) -> Result<(u32, Cut), TextFault>
    ensures found { IfOk result (λ (n, calls). IsSetHead calls lines.old lines.new) }
    ensures says { IfOk result (λ (n, calls). AreCallers Second n × AreCalls Second n calls) }
    ensures refused { IfErr result (IsSetHeadFault lines.old) }
    ensures unchanged { IfErr result (λ _. lines.new ≡ lines.old) }
    // Where the lines begin with a head, its numbers are answered, and the lines after it are left.
    ensures only { (calls : List ℕ) (left : Unread) → IsSetHead calls lines.old left
        → MatchResult result (λ read. (read.1 ≡ calls) × (lines.new ≡ left)) (λ _. ⊥) }
    // Where the head has a first fault, the answer is that fault.
    ensures first { (fault : TextFault) → IsSetHeadFault lines.old fault
        → MatchResult result (λ _. ⊥) (λ e. e ≡ fault) }
{
    let mut ahead = lines.copy();
    let head = read_lines(&mut ahead)?;
    *lines = ahead;
    Ok(head)
}

/// Reads the four lines of the head.
fn read_lines(lines: &mut Lines) -> Result<(u32, Cut), TextFault>
    ensures found { IfOk result (λ (n, calls). IsSetHead calls lines.old lines.new) }
    ensures says { IfOk result (λ (n, calls). AreCallers Second n × AreCalls Second n calls) }
    ensures refused { IfErr result (IsSetHeadFault lines.old) }
{
    read_title(lines)?;
    read_object(lines)?;
    let n = read_callers(lines)?;
    let calls = read_counts(lines, n)?;
    Ok((n, calls))
}

/// Reads the line of the title.
fn read_title(lines: &mut Lines) -> Result<(), TextFault>
    ensures found { IfOk result (λ _.
        GoesTo set_head_rules TitleDue lines.old ObjectDue lines.new) }
    ensures refused { IfErr result (IsFirstFault set_head_rules TitleDue lines.old) }
{
    let line = lines.number();
    let mut words = Words::new(lines.line()?);
    if are_words(&mut words, b"setbook", b"2") {
        Ok(())
    } else {
        Err(TextFault {
            line,
            what: What::Head,
        })
    }
}

/// Reads the line of the object.
fn read_object(lines: &mut Lines) -> Result<(), TextFault>
    ensures found { IfOk result (λ _.
        GoesTo set_head_rules ObjectDue lines.old CallersDue lines.new) }
    ensures refused { IfErr result (IsFirstFault set_head_rules ObjectDue lines.old) }
{
    let line = lines.number();
    let mut words = Words::new(lines.line()?);
    if are_words(&mut words, b"object", b"joins") {
        Ok(())
    } else {
        Err(TextFault {
            line,
            what: What::Object,
        })
    }
}

/// Reads the line of the number of callers.
fn read_callers(lines: &mut Lines) -> Result<u32, TextFault>
    ensures found { IfOk result (λ n.
        GoesTo set_head_rules CallersDue lines.old (CountsDue n) lines.new) }
    ensures says { IfOk result (λ n. AreCallers Second n) }
    ensures refused { IfErr result (IsFirstFault set_head_rules CallersDue lines.old) }
{
    let line = lines.number();
    let mut words = Words::new(lines.line()?);
    match callers_of(Version::Second, &mut words) {
        Some(n) => Ok(n),
        None => Err(TextFault {
            line,
            what: What::Callers,
        }),
    }
}

/// Reads the line of the numbers of calls.
fn read_counts(lines: &mut Lines, n: u32) -> Result<Cut, TextFault>
    requires some { 1 ≤ n }
    requires few { n ≤ MAX_CALLERS }
    ensures found { IfOk result (λ calls. GoesTo set_head_rules
        (CountsDue n) lines.old (in_calls (no_call_read calls)) lines.new) }
    ensures says { IfOk result (λ calls. AreCalls Second n calls) }
    ensures refused { IfErr result (IsFirstFault set_head_rules (CountsDue n) lines.old) }
{
    let line = lines.number();
    let mut words = Words::new(lines.line()?);
    match calls_of(Version::Second, &mut words, n) {
        Some(calls) => Ok(calls),
        None => Err(TextFault {
            line,
            what: What::Calls,
        }),
    }
}
