//! The text of a report.

ghost use Rattle.std.specs.Prelude.{◌≡◌, ◌<◌, ◌++◌, length, Some, IfOk, OnOk};
ghost use Rattle.text_fields.specs.declared.version.Version.TheVariants.{Second};
ghost use Rattle.text_fields.specs.Lines.{line_text, text_of, by_number};
ghost use Rattle.book_text.specs.CallLines.{answer_words};
ghost use Rattle.book_text.specs.Fields.{spaced};
ghost use Rattle.report_lines.specs.Lines.{lines_at};
ghost use Rattle.report_text.specs.ReportRules.{IsReportText};
ghost use Rattle.reports.specs.Grammar.{ending_words, line_words, caller_lines, IsWrittenText};

use book_base::{Call, NoMemory, Record};
use book_text::fields::{put_head, put_operation, put_pairs, put_spaced};
use report_lines::{Line, LineEnd};
use reports::Report;
use seq_objects::{Kind, put_number, put_reply};
use std::alloc::Global;

/// The one text of a report.
pub fn report_text(alloc: Global, report: &Report) -> Result<Vec<u8>, NoMemory>
    // The bytes are the text that is written of the report.
    ensures written { IfOk result (λ bytes. IsWrittenText bytes.items report.now) }
    // A reader reads the bytes as the report.
    ensures read { IfOk result (λ bytes. IsReportText bytes.items report.now) }
{
    let mut out = Vec::new(alloc);
    put_head(&mut out, b"report", report.kind(), &report.sizes())?;
    put_lines(&mut out, report)?;
    out.extend_from_slice(b"end\n")?;
    Ok(out)
}

/// Appends the lines of all callers.
fn put_lines(out: &mut Vec<u8>, report: &Report) -> Result<(), NoMemory>
    ensures { OnOk result (out.new.items ≡ out.old.items
        ++ text_of (by_number (caller_lines report.now.kind) 0 report.now.lines)) }
{
    for caller in 0..report.callers() {
        put_caller(out, report, caller)?;
    }
    Ok(())
}

/// Appends a caller's lines.
fn put_caller(out: &mut Vec<u8>, report: &Report, caller: u32) -> Result<(), NoMemory>
    requires { caller < length report.now.lines }
    ensures { OnOk result (out.new.items ≡ out.old.items
        ++ text_of (caller_lines report.now.kind caller (lines_at report.now.lines caller))) }
{
    for number in 0..report.lines(caller) {
        let call = Call { caller, number };
        put_line(out, report.kind(), call, report.line(call))?;
    }
    Ok(())
}

/// Appends the line of a call.
fn put_line(out: &mut Vec<u8>, kind: Kind, call: Call, line: &Line) -> Result<(), NoMemory>
    ensures { OnOk result (out.new.items ≡ out.old.items
        ++ line_text (line_words kind call line.now)) }
{
    put_number(out, u64::from(call.caller))?;
    put_spaced(out, call.number)?;
    put_operation(out, kind, line.op)?;
    put_ending(out, line.end)?;
    out.push(b'\n')?;
    Ok(())
}

/// Appends the words of the end of a line, each after a space.
fn put_ending(out: &mut Vec<u8>, end: LineEnd) -> Result<(), NoMemory>
    ensures { OnOk result (out.new.items ≡ out.old.items ++ spaced (ending_words end)) }
{
    match end {
        LineEnd::Pending => {
            out.extend_from_slice(b" pending")?;
            Ok(())
        }
        LineEnd::Unchecked(answer) => {
            put_answer(out, &answer)?;
            out.extend_from_slice(b" unchecked")?;
            Ok(())
        }
        LineEnd::Delivered(answer, cut) => {
            put_answer(out, &answer)?;
            out.extend_from_slice(b" ok seen")?;
            put_pairs(out, &cut)
        }
        LineEnd::Error(answer, cut) => {
            put_answer(out, &answer)?;
            out.extend_from_slice(b" error seen")?;
            put_pairs(out, &cut)
        }
    }
}

/// Appends the reply and the view of a record, each word after a space.
fn put_answer(out: &mut Vec<u8>, answer: &Record) -> Result<(), NoMemory>
    ensures { OnOk result (out.new.items ≡ out.old.items
        ++ spaced (answer_words Second (Some answer.now))) }
{
    out.push(b' ')?;
    put_reply(out, answer.reply)?;
    out.extend_from_slice(b" view")?;
    put_pairs(out, &answer.view)
}
