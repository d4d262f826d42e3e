//! The end of a text.

ghost use Rattle.std.specs.Prelude.{◌≡◌, ◌↔◌, IsTrue, IfOk, IfErr, MatchResult};
ghost use Rattle.book_base.specs.declared.fault.TextFault.{TextFault};
ghost use Rattle.text_fields.specs.Lines.{Unread};
ghost use Rattle.book_text.specs.Ending.{IsEnded, IsNoEnd};
ghost use Rattle.book_text.specs.Grammar.{end_words};

use book_base::{TextFault, What};
use text_fields::{Lines, Words};

/// Reads the last line of a text, which nothing may follow.
pub fn read_end(lines: &mut Lines) -> Result<(), TextFault>
    // An answer Ok comes only where the next line is the last of a text, with nothing after it, and
    // it is taken.
    ensures found { IfOk result (λ _. IsEnded lines.old lines.new) }
    // A fault says that the next line isn't whole, that it isn't the last line of a text, or that
    // bytes follow it.
    ensures refused { IfErr result (IsNoEnd lines.old) }
    // Where the next line is the last of a text with nothing after it, the answer is Ok, and the
    // line is taken.
    ensures only { (left : Unread) → IsEnded lines.old left
        → MatchResult result (λ _. lines.new ≡ left) (λ _. ⊥) }
    // Where a fault says why the next line isn't the end of a text, the answer is that fault.
    ensures first { (fault : TextFault) → IsNoEnd lines.old fault
        → MatchResult result (λ _. ⊥) (λ e. e ≡ fault) }
{
    let line = lines.number();
    let mut words = Words::new(lines.line()?);
    if !is_end(&mut words) {
        return Err(TextFault {
            line,
            what: What::End,
        });
    }
    if lines.at_end() {
        Ok(())
    } else {
        Err(TextFault {
            line: lines.number(),
            what: What::Rest,
        })
    }
}

/// Whether the words are those of a text's last line.
fn is_end(words: &mut Words) -> bool
    ensures { IsTrue result ↔ (words.old ≡ end_words) }
{
    words.next() == Some(b"end".as_slice()) && words.next().is_none()
}
