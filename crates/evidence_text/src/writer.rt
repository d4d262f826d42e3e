//! The text of a refutation.

ghost use Rattle.std.specs.Prelude.{◌≡◌, ◌∷◌, ◌++◌, [], map, decimal, codes, IfOk, OnOk};
ghost use Rattle.std.specs.List.{AllByRecursion, flat_map};
ghost use Rattle.text_fields.specs.Lines.{line_text};
ghost use Rattle.text_fields.specs.Counts.{AreNumbers, pair_words};
ghost use Rattle.book_text.specs.CallLines.{place_words};
ghost use Rattle.book_text.specs.Fields.{spaced};
ghost use Rattle.certificate_text.specs.Grammar.{IsNamed};
ghost use Rattle.refutation_text.specs.Said.{StepLine, PlainLine, PairsLine, ItemLine, MoveLine, step_said, steps_said, ending_said};
ghost use Rattle.refutation_text.specs.Grammar.{IsMove, move_words, takes_words, find_words};
ghost use Rattle.refutation_text.specs.RefutationRules.{IsRefutationText};
ghost use Rattle.evidence_text.specs.Written.{HasCounts, HasValues, IsWritten, form_lines, ending_lines};

use crate::level_writer::put_table;
use book_base::{Book, Call, Cut, NoMemory};
use book_text::fields::{put_pairs, put_place, put_spaced, put_title};
use book_text::write_book;
use pair_refutations::{Move, PairEntry};
use refutation_text::{Ending, Step};
use refutations::Entry;
use seq_objects::{Kind, put_number};
use std::alloc::Global;

/// The one text of a refutation: of a book, for an object of this kind, steps and an ending, whether
/// the refutation is right or not.
pub fn write_refutation(
    alloc: Global,
    kind: Kind,
    book: &Book,
    steps: &[Step],
    ending: &Ending,
) -> Result<Vec<u8>, NoMemory>
    // Each step back to a cut has 16 counts.
    requires steps { AllByRecursion HasCounts (steps_said steps.now) }
    // Counted values are below 2^32; where a take that finds nothing is named, they rise, and there
    // is at least one. Each list of entries of a table of levels has a number.
    requires ending { HasValues (ending_said ending.now) }
    // A reader reads the bytes as the kind, the book, the steps and the ending.
    ensures { IfOk result (λ bytes. IsRefutationText bytes.items kind book.now
        (steps_said steps.now) (ending_said ending.now)) }
{
    let mut out = write_book(alloc, kind, book)?;
    put_title(&mut out, b"refutation")?;
    put_steps(&mut out, steps)?;
    put_ending(&mut out, ending)?;
    Ok(out)
}

/// Appends the lines of steps.
fn put_steps(out: &mut Vec<u8>, steps: &[Step]) -> Result<(), NoMemory>
    requires { AllByRecursion HasCounts (steps_said steps.now) }
    ensures { OnOk result (IsWritten out.old.items (map StepLine (steps_said steps.now))
        out.new.items) }
{
    for step in steps {
        put_step(out, step)?;
    }
    Ok(())
}

/// Appends the line of a step.
fn put_step(out: &mut Vec<u8>, step: &Step) -> Result<(), NoMemory>
    requires { HasCounts (step_said step.now) }
    ensures { OnOk result (IsWritten out.old.items (StepLine (step_said step.now) ∷ [])
        out.new.items) }
{
    match step {
        Step::At(counts) => put_counts_line(out, counts),
        Step::Without(keys) => put_numbers_line(out, b"without", keys),
        Step::Only(keys) => put_numbers_line(out, b"only", keys),
        Step::Leave(call) => put_call_line(out, b"leave", *call),
        Step::Keep(calls) => put_calls_line(out, b"keep", calls),
    }
}

/// Appends the line of a step back to a cut.
fn put_counts_line(out: &mut Vec<u8>, counts: &Cut) -> Result<(), NoMemory>
    ensures { OnOk result (out.new.items
        ≡ out.old.items ++ line_text (codes "at" ∷ pair_words 0 counts.now)) }
{
    out.extend_from_slice(b"at")?;
    put_pairs(out, counts)?;
    out.push(b'\n')?;
    Ok(())
}

/// Appends a line of a first word and numbers.
fn put_numbers_line(out: &mut Vec<u8>, first: &[u8], numbers: &[u64]) -> Result<(), NoMemory>
    ensures text { OnOk result (out.new.items
        ≡ out.old.items ++ line_text (first.now ∷ map decimal numbers.now)) }
    ensures small { OnOk result (AreNumbers numbers.now) }
{
    out.extend_from_slice(first)?;
    put_numbers(out, numbers)?;
    out.push(b'\n')?;
    Ok(())
}

/// Appends numbers, each after a space.
pub(crate) fn put_numbers(out: &mut Vec<u8>, numbers: &[u64]) -> Result<(), NoMemory>
    ensures text { OnOk result (out.new.items ≡ out.old.items ++ spaced (map decimal numbers.now)) }
    ensures small { OnOk result (AreNumbers numbers.now) }
{
    for number in numbers {
        put_spaced(out, *number)?;
    }
    Ok(())
}

/// Appends a line of a first word, and the caller and the number of a call.
fn put_call_line(out: &mut Vec<u8>, first: &[u8], call: Call) -> Result<(), NoMemory>
    ensures text { OnOk result (out.new.items
        ≡ out.old.items ++ line_text (first.now ∷ place_words call)) }
    ensures may { OnOk result (IsNamed call) }
{
    out.extend_from_slice(first)?;
    put_place(out, call)?;
    out.push(b'\n')?;
    Ok(())
}

/// Appends a line of a first word, and the callers and the numbers of calls.
fn put_calls_line(out: &mut Vec<u8>, first: &[u8], calls: &[Call]) -> Result<(), NoMemory>
    ensures text { OnOk result (out.new.items
        ≡ out.old.items ++ line_text (first.now ∷ flat_map place_words calls.now)) }
    ensures may { OnOk result (AllByRecursion IsNamed calls.now) }
{
    out.extend_from_slice(first)?;
    put_calls(out, calls)?;
    out.push(b'\n')?;
    Ok(())
}

/// Appends the callers and the numbers of calls, each after a space.
fn put_calls(out: &mut Vec<u8>, calls: &[Call]) -> Result<(), NoMemory>
    ensures text { OnOk result (out.new.items ≡ out.old.items ++ spaced (flat_map place_words calls.now)) }
    ensures may { OnOk result (AllByRecursion IsNamed calls.now) }
{
    for call in calls {
        put_call(out, *call)?;
    }
    Ok(())
}

/// Appends the caller and the number of a call, each after a space.
fn put_call(out: &mut Vec<u8>, call: Call) -> Result<(), NoMemory>
    ensures text { OnOk result (out.new.items ≡ out.old.items ++ spaced (place_words call)) }
    ensures may { OnOk result (IsNamed call) }
{
    put_place(out, call)
}

/// Appends the lines of an ending, up to the end.
fn put_ending(out: &mut Vec<u8>, ending: &Ending) -> Result<(), NoMemory>
    requires { HasValues (ending_said ending.now) }
    ensures { OnOk result (IsWritten out.old.items (ending_lines (ending_said ending.now))
        out.new.items) }
{
    put_form(out, ending)?;
    out.extend_from_slice(b"end\n")?;
    Ok(())
}

/// Appends the line of a form, and those of its entries.
fn put_form(out: &mut Vec<u8>, ending: &Ending) -> Result<(), NoMemory>
    requires { HasValues (ending_said ending.now) }
    ensures { OnOk result (IsWritten out.old.items (form_lines (ending_said ending.now))
        out.new.items) }
{
    match ending {
        Ending::Impossible(call) => put_call_line(out, b"impossible", *call),
        Ending::CountsTakes(value, moment) => put_takes_line(out, *value, *moment),
        Ending::CountsFind(caller, number, values) => put_find_line(out, *caller, *number, values),
        Ending::Closed(entries) => put_list(out, entries),
        Ending::Pairs(entries) => put_pair_list(out, entries),
        Ending::Levels(entries) => put_table(out, entries),
    }
}

/// Appends the line that counts takes of a value up to a moment.
fn put_takes_line(out: &mut Vec<u8>, value: u64, moment: u64) -> Result<(), NoMemory>
    ensures { OnOk result (out.new.items ≡ out.old.items ++ line_text (takes_words value moment)) }
{
    out.extend_from_slice(b"counts takes")?;
    put_spaced(out, value)?;
    put_spaced(out, moment)?;
    out.push(b'\n')?;
    Ok(())
}

/// Appends the line that counts values before a take that finds nothing.
fn put_find_line(
    out: &mut Vec<u8>,
    caller: u64,
    number: u64,
    values: &[u64],
) -> Result<(), NoMemory>
    ensures { OnOk result (out.new.items ≡ out.old.items
        ++ line_text (find_words (record { caller = caller; number = number }) values.now)) }
{
    out.extend_from_slice(b"counts find")?;
    put_spaced(out, caller)?;
    put_spaced(out, number)?;
    put_numbers(out, values)?;
    out.push(b'\n')?;
    Ok(())
}

/// Appends the line that begins a closed list, and the lines of its entries.
fn put_list(out: &mut Vec<u8>, entries: &[Entry]) -> Result<(), NoMemory>
    ensures { OnOk result (IsWritten out.old.items (PlainLine ∷ map ItemLine entries.now)
        out.new.items) }
{
    out.extend_from_slice(b"closed plain\n")?;
    for entry in entries {
        put_entry(out, *entry)?;
    }
    Ok(())
}

/// Appends the line of an entry.
fn put_entry(out: &mut Vec<u8>, entry: Entry) -> Result<(), NoMemory>
    ensures { OnOk result (IsWritten out.old.items (ItemLine entry ∷ []) out.new.items) }
{
    put_number(out, entry.item)?;
    put_spaced(out, entry.caller)?;
    out.push(b'\n')?;
    Ok(())
}

/// Appends the line that begins a closed list of standings, and the lines of its entries.
fn put_pair_list(out: &mut Vec<u8>, entries: &[PairEntry]) -> Result<(), NoMemory>
    ensures { OnOk result (IsWritten out.old.items (PairsLine ∷ map MoveLine entries.now)
        out.new.items) }
{
    out.extend_from_slice(b"closed pairs\n")?;
    for entry in entries {
        put_pair_entry(out, *entry)?;
    }
    Ok(())
}

/// Appends the line of an entry that makes a standing.
fn put_pair_entry(out: &mut Vec<u8>, entry: PairEntry) -> Result<(), NoMemory>
    ensures { OnOk result (IsWritten out.old.items (MoveLine entry ∷ []) out.new.items) }
{
    put_number(out, entry.item)?;
    put_move(out, entry.by)?;
    out.push(b'\n')?;
    Ok(())
}

/// Appends the words of a move, each after a space.
fn put_move(out: &mut Vec<u8>, by: Move) -> Result<(), NoMemory>
    ensures text { OnOk result (out.new.items ≡ out.old.items ++ spaced (move_words by)) }
    ensures may { OnOk result (IsMove by) }
{
    match by {
        Move::Finds => Ok(out.extend_from_slice(b" find")?),
        Move::Callers(putter, taker) => {
            put_spaced(out, putter)?;
            put_spaced(out, taker)
        }
    }
}
