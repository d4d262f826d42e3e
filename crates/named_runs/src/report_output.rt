//! Writes what a form shows of a report.

ghost use Rattle.std.specs.Prelude.{◌≡◌, ◌⊎◌, ◌≤◌, ◌++◌, ℕ, List, true, false, IfOk, OnOk};
ghost use Rattle.std.specs.List.{list_any};
ghost use Rattle.report_lines.specs.Lines.{any_error};
ghost use Rattle.byte_streams.specs.Fault.{LeavesSink};
ghost use Rattle.named_runs.specs.Runs.{IsWitnessText, IsWritten, HasForm, IsRunOutput, RunEnds, counts_text, status_of};

use crate::certificate::report_certificate;
use crate::form::Form;
use book_base::NoMemory;
use book_text::write_book;
use byte_streams::{Sink, Status, write_text};
use report_text::report_text;
use reports::{Counts, Report};
use search_hints::SearchHints;
use seq_objects::put_number;
use std::alloc::Global;

/// Writes what a form shows of a report that was judged by a sequential object. The form
/// `Certificate` needs a report whose delivered book has a legal order; every lawful report is one.
/// All of the text is built before its first byte is written.
pub fn write_report<S: SearchHints, K: Sink>(
    alloc: Global,
    form: Form,
    sequential: &S,
    report: &Report,
    sink: &mut K,
) -> Status
    // Where the form is a certificate, what was delivered by the report has a legal order.
    requires form { HasForm (S.spec sequential.now) form report.now }

    // What the sink has taken fits the status: all that the form shows of this report, a prefix of
    // it with `WriteFault`, and nothing with `NoMemory`.
    ensures ends { RunEnds (S.spec sequential.now) (λ other. other ≡ report.now) form result
        (K.taken sink.old) (K.taken sink.new) }

    // Where a line of the report is an error, the status is `Found`, or `WriteFault` after a failed
    // write, or `NoMemory` where memory was lacking.
    ensures found { list_any any_error report.now.lines ≡ true →
        (result ≡ Status.Found) ⊎ (result ≡ Status.WriteFault) ⊎ (result ≡ Status.NoMemory) }
    // Where no line of the report is an error, the status is `Fine`, or `WriteFault` after a failed
    // write, or `NoMemory` where memory was lacking.
    ensures fine { list_any any_error report.now.lines ≡ false →
        (result ≡ Status.Fine) ⊎ (result ≡ Status.WriteFault) ⊎ (result ≡ Status.NoMemory) }

    // The status is `WriteFault` only where the sink's count of faults rose in this call, and any
    // other status only where that count stayed. With `NoMemory` the sink is as it was.
    ensures faults { LeavesSink K.faults result sink.old sink.new }
{
    match shown(alloc, form, sequential, report) {
        Ok(text) => write_text(sink, status_of(report), &text),
        Err(NoMemory) => Status::NoMemory,
    }
}

/// The status that is written with a report: `Found` where one of its lines is an error, else
/// `Fine`.
fn status_of(report: &Report) -> Status
    ensures { result ≡ status_of report.now }
{
    if report.has_error() {
        Status::Found
    } else {
        Status::Fine
    }
}

/// The text that a form shows of a report.
fn shown<S: SearchHints>(
    alloc: Global,
    form: Form,
    sequential: &S,
    report: &Report,
) -> Result<Vec<u8>, NoMemory>
    requires { HasForm (S.spec sequential.now) form report.now }
    ensures { IfOk result (λ text. IsWritten (S.spec sequential.now) form report.now text.items) }
{
    match form {
        Form::Report => {
            let mut text = report_text(alloc, report)?;
            put_witness(alloc, &mut text, report)?;
            Ok(text)
        }
        Form::Counts => counts_text(alloc, report.counts()),
        Form::Certificate => certificate(alloc, sequential, report),
    }
}

/// Appends the text of a report's witness, where a line is an error.
fn put_witness(alloc: Global, text: &mut Vec<u8>, report: &Report) -> Result<(), NoMemory>
    ensures { OnOk result ((rest : List ℕ) × IsWitnessText report.now rest
        × (text.new.items ≡ text.old.items ++ rest)) }
{
    if let Some(book) = report.witness(alloc)? {
        let rest = write_book(alloc, report.kind(), &book)?;
        text.extend_from_slice(&rest)?;
    }
    Ok(())
}

/// A certificate of a report that has one.
fn certificate<S: SearchHints>(
    alloc: Global,
    sequential: &S,
    report: &Report,
) -> Result<Vec<u8>, NoMemory>
    requires { HasForm (S.spec sequential.now) Form.Certificate report.now }
    ensures { IfOk result
        (λ text. IsWritten (S.spec sequential.now) Form.Certificate report.now text.items) }
{
    match report_certificate(alloc, sequential, report)? {
        Some(text) => Ok(text),
        None => unreachable!(),
    }
}

/// The line of a report's three counts.
fn counts_text(alloc: Global, counts: Counts) -> Result<Vec<u8>, NoMemory>
    ensures { IfOk result (λ text. text.items ≡ counts_text counts) }
{
    let mut text = b"calls ".to_vec(alloc)?;
    put_number(&mut text, counts.calls)?;
    text.extend_from_slice(b" delivered ")?;
    put_number(&mut text, counts.delivered)?;
    text.extend_from_slice(b" errors ")?;
    put_number(&mut text, counts.errors)?;
    text.extend_from_slice(b"\n")?;
    Ok(text)
}
