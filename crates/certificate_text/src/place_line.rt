//! A line after the title of the order, by itself.

ghost use Rattle.std.specs.Prelude.{◌≡◌, ◌≢◌, ℕ, ◌<◌, ◌^◌, ◌∷◌, [], ◌++◌, List, IfOk, IfErr, IfSome, IfNone};
ghost use Rattle.book_base.specs.declared.call.Call.{Call};
ghost use Rattle.seq_objects.specs.Replies.{reply_word};
ghost use Rattle.text_fields.specs.Lines.{words_of};
ghost use Rattle.text_fields.specs.Faults.{IsFirstTest};
ghost use Rattle.book_text.specs.CallLines.{place_words};
ghost use Rattle.certificate_text.specs.Grammar.{IsNamed};
ghost use Rattle.certificate_text.specs.CertificateRules.{PlaceFails};
ghost use Rattle.certificate_text.specs.Reading.{SaysPlace, IsOneReply};

use crate::book_lines::is_end;
use book_base::{Call, Place, What};
use seq_objects::reply_from_word;
use text_fields::{Words, next_number};

/// The place that a line gives, or `None` where it is the end.
pub(crate) fn read_place_line(line: &[u8]) -> Result<Option<Place>, What>
    ensures found { IfOk result (SaysPlace (words_of line.now)) }
    ensures refused { IfErr result (IsFirstTest (PlaceFails (words_of line.now))) }
{
    let mut words = Words::new(line);
    if is_end(&mut words.copy()) {
        return Ok(None);
    }
    let Some(call) = take_call(&mut words) else {
        return Err(What::Place);
    };
    match take_reply(&mut words) {
        Some(reply) => Ok(Some(Place {
            caller: call.caller,
            number: call.number,
            reply,
        })),
        None => Err(What::Reply),
    }
}

/// Takes a caller and a number, whether or not a book has such a call.
pub fn take_call(words: &mut Words) -> Option<Call>
    // The words that were taken are those of the call that is answered.
    ensures found { IfSome result (λ call.
        IsNamed call × (words.old ≡ place_words call ++ words.new)) }
    // None is answered only where the words begin with no call.
    ensures none { IfNone result ((call : Call) (suffix : List (List ℕ)) → IsNamed call
        → words.old ≢ place_words call ++ suffix) }
{
    let caller = next_number(words, u64::from(u32::MAX))?;
    let number = next_number(words, u64::MAX)?;
    Some(Call {
        caller: caller as u32,
        number,
    })
}

/// Takes a reply, and nothing after it.
fn take_reply(words: &mut Words) -> Option<u64>
    ensures found { IfSome result (IsOneReply words.old) }
    ensures none { IfNone result ((reply : ℕ) → reply < 2 ^ 64
        → words.old ≢ reply_word reply ∷ []) }
{
    let reply = reply_from_word(words.next()?)?;
    if words.next().is_none() {
        Some(reply)
    } else {
        None
    }
}
