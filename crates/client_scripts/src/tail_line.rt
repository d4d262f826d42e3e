//! A line after the calls, by itself: a stop, or the turns.

ghost use Rattle.std.specs.Prelude.{◌≡◌, ◌≢◌, ◌↔◌, ℕ, ◌<◌, ◌≤◌, ◌∷◌, [], List, length, map, decimal, IfOk, IfErr, IfSome, IfNone, IsTrue};
ghost use Rattle.book_base.specs.declared.TheConstants.{MAX_CALLERS};
ghost use Rattle.text_fields.specs.Lines.{words_of};
ghost use Rattle.client_scripts.specs.ScriptRules.{IsStop, AreTurns};
ghost use Rattle.client_scripts.specs.ScriptLayout.{told};
ghost use Rattle.client_scripts.specs.Parts.{SaysLine, IsTailLineRefused};

use crate::PHASES;
use crate::script::CallerScript;
use book_base::{NoMemory, ReadFault, TextFault, What};
use std::alloc::Global;
use text_fields::{Words, next_number, number};

/// What a line after the calls says.
pub(crate) enum TailLine {
    /// The caller stops after this many phases.
    Stop(u32, u64),
    /// The callers that take turns.
    Turns(Vec<u32>),
}

/// What the line with this number says, where the callers from `least` on may still have a stop.
pub(crate) fn read_tail_line(
    alloc: Global,
    line: &[u8],
    number: u64,
    clients: &[CallerScript],
    least: u32,
) -> Result<TailLine, ReadFault>
    requires { length clients.now ≤ MAX_CALLERS }
    ensures found { IfOk result
        (λ tail. SaysLine (told clients.now least) (words_of line.now) tail) }
    ensures refused { IfErr result
        (IsTailLineRefused (told clients.now least) (words_of line.now) number) }
{
    let mut words = Words::new(line);
    let first = words.next();
    if first == Some(b"stop".as_slice()) {
        match read_stop(&mut words, clients, least) {
            Some((caller, phases)) => Ok(TailLine::Stop(caller, phases)),
            None => Err(fault(number, What::Stop)),
        }
    } else if first == Some(b"turns".as_slice()) {
        match read_turns(alloc, &mut words, clients.len() as u32)? {
            Some(turns) => Ok(TailLine::Turns(turns)),
            None => Err(fault(number, What::Turns)),
        }
    } else {
        Err(fault(number, What::Turns))
    }
}

/// The fault of the text in this line.
fn fault(line: u64, what: What) -> ReadFault
    ensures { result ≡ ReadFault.Text (record { line = line; what = what }) }
{
    ReadFault::Text(TextFault { line, what })
}

/// The caller and the phases after the word `stop`, which nothing may follow.
fn read_stop(words: &mut Words, clients: &[CallerScript], least: u32) -> Option<(u32, u64)>
    requires { length clients.now ≤ MAX_CALLERS }
    ensures found { IfSome result (λ (caller, phases). IsStop (told clients.now least) caller phases
        × (words.old ≡ decimal caller ∷ decimal phases ∷ [])) }
    ensures none { IfNone result
        ((caller phases : ℕ) → IsStop (told clients.now least) caller phases
        → words.old ≢ decimal caller ∷ decimal phases ∷ []) }
{
    let caller = next_number(words, u64::MAX)?;
    let phases = next_number(words, u64::MAX)?;
    if words.next().is_some() {
        return None;
    }
    if may_stop(clients, least, caller, phases) {
        Some((caller as u32, phases))
    } else {
        None
    }
}

/// Whether this caller may stop after this many phases.
fn may_stop(clients: &[CallerScript], least: u32, caller: u64, phases: u64) -> bool
    ensures { IsTrue result ↔ IsStop (told clients.now least) caller phases }
{
    if caller < u64::from(least) || caller >= clients.len() as u64 {
        return false;
    }
    phases / PHASES < clients[caller as usize].operations.len() as u64
}

/// The callers after the word `turns`, each one of `n`, which nothing may follow.
fn read_turns(alloc: Global, words: &mut Words, n: u32) -> Result<Option<Vec<u32>>, NoMemory>
    ensures found { IfOk result (λ found. IfSome found (λ turns. AreTurns n turns.items
        × (words.old ≡ map decimal turns.items))) }
    ensures none { IfOk result (λ found. IfNone found ((turns : List ℕ) → AreTurns n turns
        → words.old ≢ map decimal turns)) }
{
    let mut turns = Vec::new(alloc);
    while let Some(word) = words.next() {
        match turn(word, n) {
            Some(caller) => turns.push(caller)?,
            None => return Ok(None),
        }
    }
    Ok(Some(turns))
}

/// The caller that a word names, one of `n`.
fn turn(word: &[u8], n: u32) -> Option<u32>
    ensures found { IfSome result (λ caller. (caller < n) × (word.now ≡ decimal caller)) }
    ensures none { IfNone result ((caller : ℕ) → caller < n → word.now ≢ decimal caller) }
{
    let caller = number(word)?;
    if caller < u64::from(n) {
        Some(caller as u32)
    } else {
        None
    }
}
