//! The head of a text.

ghost use Rattle.std.specs.Prelude.{◌≡◌, ◌≢◌, ◌↔◌, ℕ, ◌≤◌, true, List, [], ◌∷◌, length, IfOk, IfErr, IfSome, IfNone, IsTrue, MatchResult};
ghost use Rattle.book_base.specs.declared.TheConstants.{MAX_CALLERS};
ghost use Rattle.seq_objects.specs.declared.kind.Kind.{Kind};
ghost use Rattle.text_fields.specs.declared.version.Version.TheVariants.{First, Second};
ghost use Rattle.book_base.specs.declared.fault.TextFault.{TextFault};
ghost use Rattle.text_fields.specs.Version.{has_kind, most_callers};
ghost use Rattle.text_fields.specs.Lines.{Unread, IsSolid};
ghost use Rattle.text_fields.specs.Head.{TitleDue, ObjectDue, CallersDue, CountsDue, HeadRead, HeadGoes, IsHeadFault, IsHead, AreCallers, AreCalls, object_words, callers_words, calls_words};

use crate::counts::{next_number, read_counts};
use crate::lines::Lines;
use crate::version::Version;
use crate::words::Words;
use book_base::{Cut, TextFault, What};
use seq_objects::Kind;

/// What the head of a text says.
#[derive(Clone, Copy, Debug)]
pub struct Head {
    /// The kind of the object.
    pub kind: Kind,
    /// The number of callers.
    pub n: u32,
    /// The number of calls of each caller.
    pub calls: Cut,
}

/// The head of a text of version 2 with this title, a word such as `book`. After a refusal the
/// lines stay as they were.
pub fn read_head(lines: &mut Lines, title: &[u8]) -> Result<Head, TextFault>
    // A head that was found is the one, in version 2, that the lines began with; it is taken.
    ensures found { IfOk result (λ head.
        IsHead Second title.now head.kind head.calls lines.old lines.new) }
    // A head that was found has a number of callers, and for each of them a number of calls, that
    // texts of version 2 may have.
    ensures says { IfOk result (λ head.
        AreCallers Second head.n × AreCalls Second head.n head.calls) }
    // A refusal is the first fault of the head of these lines.
    ensures refused { IfErr result (IsHeadFault Second title.now TitleDue lines.old) }
    // A refusal leaves the lines as they were.
    ensures unchanged { IfErr result (λ _. lines.new ≡ lines.old) }
    // Where the lines begin with a head whose title is one word, this head is answered, and the
    // lines after it are left.
    ensures only { (kind : Kind) (calls : List ℕ) (left : Unread) → IsSolid title.now
        → IsHead Second title.now kind calls lines.old left
        → MatchResult result (λ head.
        (head.kind ≡ kind) × (head.calls ≡ calls) × (lines.new ≡ left)) (λ _. ⊥) }
    // Where the title is one word and the head has a first fault, the answer is that fault.
    ensures first { (fault : TextFault) → IsSolid title.now
        → IsHeadFault Second title.now TitleDue lines.old fault
        → MatchResult result (λ _. ⊥) (λ e. e ≡ fault) }
{
    read_head_of(Version::Second, lines, title)
}

/// The head of a text of version 1 with this title, a word such as `book`. After a refusal the
/// lines stay as they were.
pub fn read_head1(lines: &mut Lines, title: &[u8]) -> Result<Head, TextFault>
    // A head that was found is the one, in version 1, that the lines began with; it is taken.
    ensures found { IfOk result (λ head.
        IsHead First title.now head.kind head.calls lines.old lines.new) }
    // A head that was found has a number of callers, and for each of them a number of calls, that
    // texts of version 1 may have.
    ensures says { IfOk result (λ head.
        AreCallers First head.n × AreCalls First head.n head.calls) }
    // A refusal is the first fault of the head of these lines.
    ensures refused { IfErr result (IsHeadFault First title.now TitleDue lines.old) }
    // A refusal leaves the lines as they were.
    ensures unchanged { IfErr result (λ _. lines.new ≡ lines.old) }
    // Where the lines begin with a head whose title is one word, this head is answered, and the
    // lines after it are left.
    ensures only { (kind : Kind) (calls : List ℕ) (left : Unread) → IsSolid title.now
        → IsHead First title.now kind calls lines.old left
        → MatchResult result (λ head.
        (head.kind ≡ kind) × (head.calls ≡ calls) × (lines.new ≡ left)) (λ _. ⊥) }
    // Where the title is one word and the head has a first fault, the answer is that fault.
    ensures first { (fault : TextFault) → IsSolid title.now
        → IsHeadFault First title.now TitleDue lines.old fault
        → MatchResult result (λ _. ⊥) (λ e. e ≡ fault) }
{
    read_head_of(Version::First, lines, title)
}

/// The head of a text of this version with this title. After a refusal the lines stay as they were.
pub fn read_head_of(version: Version, lines: &mut Lines, title: &[u8]) -> Result<Head, TextFault>
    // A head that was found is the one, in this version, that the lines began with; it is taken.
    ensures found { IfOk result (λ head.
        IsHead version title.now head.kind head.calls lines.old lines.new) }
    // A head that was found has a number of callers, and for each of them a number of calls, that
    // texts of this version may have.
    ensures says { IfOk result (λ head.
        AreCallers version head.n × AreCalls version head.n head.calls) }
    // A refusal is the first fault of the head of these lines.
    ensures refused { IfErr result (IsHeadFault version title.now TitleDue lines.old) }
    // A refusal leaves the lines as they were.
    ensures unchanged { IfErr result (λ _. lines.new ≡ lines.old) }
    // Where the lines begin with a head whose title is one word, this head is answered, and the
    // lines after it are left.
    ensures only { (kind : Kind) (calls : List ℕ) (left : Unread) → IsSolid title.now
        → IsHead version title.now kind calls lines.old left
        → MatchResult result (λ head.
        (head.kind ≡ kind) × (head.calls ≡ calls) × (lines.new ≡ left)) (λ _. ⊥) }
    // Where the title is one word and the head has a first fault, the answer is that fault.
    ensures first { (fault : TextFault) → IsSolid title.now
        → IsHeadFault version title.now TitleDue lines.old fault
        → MatchResult result (λ _. ⊥) (λ e. e ≡ fault) }
{
    let mut ahead = lines.copy();
    let head = read_lines(version, &mut ahead, title)?;
    *lines = ahead;
    Ok(head)
}

/// Reads the four lines of a head.
fn read_lines(version: Version, lines: &mut Lines, title: &[u8]) -> Result<Head, TextFault>
    ensures found { IfOk result (λ head.
        IsHead version title.now head.kind head.calls lines.old lines.new) }
    ensures says { IfOk result (λ head.
        AreCallers version head.n × AreCalls version head.n head.calls) }
    ensures refused { IfErr result (IsHeadFault version title.now TitleDue lines.old) }
{
    read_title(version, lines, title)?;
    let kind = read_object(version, lines, title)?;
    let n = read_callers(version, lines, title, kind)?;
    let calls = read_calls_line(version, lines, title, kind, n)?;
    Ok(Head { kind, n, calls })
}

/// Reads the line of the title.
fn read_title(version: Version, lines: &mut Lines, title: &[u8]) -> Result<(), TextFault>
    ensures found { IfOk result (λ _.
        HeadGoes version title.now TitleDue lines.old ObjectDue lines.new) }
    ensures refused { IfErr result (IsHeadFault version title.now TitleDue lines.old) }
{
    let line = lines.number();
    let mut words = Words::new(lines.line()?);
    if are_words(&mut words, title, version.word()) {
        Ok(())
    } else {
        Err(TextFault {
            line,
            what: What::Head,
        })
    }
}

/// Whether the words are exactly `first` and `second`.
pub fn are_words(words: &mut Words, first: &[u8], second: &[u8]) -> bool
    ensures { IsTrue result ↔ (words.old ≡ first.now ∷ second.now ∷ []) }
{
    words.next() == Some(first) && words.next() == Some(second) && words.next().is_none()
}

/// Reads the line of the object.
fn read_object(version: Version, lines: &mut Lines, title: &[u8]) -> Result<Kind, TextFault>
    ensures found { IfOk result (λ kind.
        HeadGoes version title.now ObjectDue lines.old (CallersDue kind) lines.new) }
    ensures refused { IfErr result (IsHeadFault version title.now ObjectDue lines.old) }
{
    let line = lines.number();
    let mut words = Words::new(lines.line()?);
    match object_of(version, &mut words) {
        Some(kind) => Ok(kind),
        None => Err(TextFault {
            line,
            what: What::Object,
        }),
    }
}

fn object_of(version: Version, words: &mut Words) -> Option<Kind>
    ensures found { IfSome result (λ kind.
        (has_kind version kind ≡ true) × (words.old ≡ object_words kind)) }
    ensures none { IfNone result ((kind : Kind)
        → has_kind version kind ≡ true → words.old ≢ object_words kind) }
{
    if words.next()? != b"object".as_slice() {
        return None;
    }
    let kind = Kind::from_name(words.next()?)?;
    if !version.has_kind(kind) {
        return None;
    }
    if words.next().is_none() {
        Some(kind)
    } else {
        None
    }
}

/// Reads the line of the number of callers.
fn read_callers(
    version: Version,
    lines: &mut Lines,
    title: &[u8],
    kind: Kind,
) -> Result<u32, TextFault>
    ensures found { IfOk result (λ n.
        HeadGoes version title.now (CallersDue kind) lines.old (CountsDue kind n) lines.new) }
    ensures callers { IfOk result (λ n. AreCallers version n) }
    ensures refused { IfErr result (IsHeadFault version title.now (CallersDue kind) lines.old) }
{
    let line = lines.number();
    let mut words = Words::new(lines.line()?);
    match callers_of(version, &mut words) {
        Some(n) => Ok(n),
        None => Err(TextFault {
            line,
            what: What::Callers,
        }),
    }
}

/// The number of callers that a line gives.
pub fn callers_of(version: Version, words: &mut Words) -> Option<u32>
    // A number of callers that was found is one that texts of the version have, and the words were
    // its line.
    ensures found { IfSome result (λ n. AreCallers version n × (words.old ≡ callers_words n)) }
    // No number is found only where the words aren't the line of a number of callers that texts of
    // the version have.
    ensures none { IfNone result ((n : ℕ)
        → AreCallers version n → words.old ≢ callers_words n) }
{
    if words.next()? != b"callers".as_slice() {
        return None;
    }
    let n = next_number(words, version.most_callers())?;
    if n == 0 {
        return None;
    }
    if words.next().is_none() {
        Some(n as u32)
    } else {
        None
    }
}

/// Reads the line of the numbers of calls.
fn read_calls_line(
    version: Version,
    lines: &mut Lines,
    title: &[u8],
    kind: Kind,
    n: u32,
) -> Result<Cut, TextFault>
    requires some { 1 ≤ n }
    requires few { n ≤ MAX_CALLERS }
    ensures found { IfOk result (λ calls.
        HeadGoes version title.now (CountsDue kind n) lines.old (HeadRead kind calls) lines.new) }
    ensures says { IfOk result (λ calls. AreCalls version n calls) }
    ensures refused { IfErr result (IsHeadFault version title.now (CountsDue kind n) lines.old) }
{
    let line = lines.number();
    let mut words = Words::new(lines.line()?);
    match calls_of(version, &mut words, n) {
        Some(calls) => Ok(calls),
        None => Err(TextFault {
            line,
            what: What::Calls,
        }),
    }
}

/// The numbers of calls that a line gives, one for each of `n` callers.
pub fn calls_of(version: Version, words: &mut Words, n: u32) -> Option<Cut>
    // There is at least one caller.
    requires some { 1 ≤ n }
    // There are at most `MAX_CALLERS` callers.
    requires few { n ≤ MAX_CALLERS }
    // The numbers of calls that were found are those that texts of the version have, and the words
    // were their line.
    ensures found { IfSome result (λ calls.
        AreCalls version n calls × (words.old ≡ calls_words calls)) }
    // No numbers are found only where the words aren't the line of numbers of calls that texts of
    // the version have.
    ensures none { IfNone result ((calls : List ℕ)
        → AreCalls version n calls → words.old ≢ calls_words calls) }
{
    if words.next()? != b"calls".as_slice() {
        return None;
    }
    read_counts(words, n, version.most_calls())
}
