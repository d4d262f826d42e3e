//! Whole texts of reports.

ghost use Rattle.std.specs.Prelude.{◌≡◌, ◌⊎◌, IfOk, IfErr, MatchResult};
ghost use Rattle.book_base.specs.declared.fault.TextFault.{TextFault};
ghost use Rattle.text_fields.specs.Faults.{StopsFor};
ghost use Rattle.text_fields.specs.Head.{TitleDue};
ghost use Rattle.book_text.specs.BookRules.{whole_text};
ghost use Rattle.reports.specs.Findings.{Findings};
ghost use Rattle.report_text.specs.ReportRules.{InHead, report_rules, IsReportText, IsNoReportText, IsFirstReportFault};

use crate::lines::read_callers;
use book_base::ReadFault;
use book_text::read_end;
use reports::Report;
use std::alloc::Global;
use text_fields::{Lines, read_head};

/// Reads the report that the bytes are the text of, in version 2.
///
/// A text fault names the first line that is wrong, and the first test that this line fails.
pub fn read_report(alloc: Global, bytes: &[u8]) -> Result<Report, ReadFault>
    // The bytes are the text of the report that is answered.
    ensures found { IfOk result (λ report. IsReportText bytes.now report) }
    // A text of a report is read as that report, unless memory runs out.
    ensures only { (findings : Findings) → IsReportText bytes.now findings
        → MatchResult result (λ report. report ≡ findings) (λ e. e ≡ ReadFault.NoMemory) }
    // A refusal is for want of memory, or is the first fault of bytes that are no report's text.
    ensures refused { IfErr result (λ e. (e ≡ ReadFault.NoMemory)
        ⊎ ((fault : TextFault) × (e ≡ ReadFault.Text fault)
        × IsFirstReportFault bytes.now fault × IsNoReportText bytes.now)) }
    // Where the bytes have a first fault, the answer is that fault, unless memory runs out.
    ensures first { (fault : TextFault) → IsFirstReportFault bytes.now fault
        → MatchResult result (λ _. ⊥)
        (λ e. (e ≡ ReadFault.Text fault) ⊎ (e ≡ ReadFault.NoMemory)) }
{
    read_text(alloc, bytes)
}

/// Reads the report that the bytes are the text of.
fn read_text(alloc: Global, bytes: &[u8]) -> Result<Report, ReadFault>
    ensures found { IfOk result (λ report. IsReportText bytes.now report) }
    ensures refused { IfErr result (λ e.
        StopsFor report_rules (InHead TitleDue) (whole_text bytes.now) e) }
{
    let mut lines = Lines::new(bytes);
    let head = read_head(&mut lines, b"report")?;
    let callers = read_callers(alloc, &mut lines, head.kind, &head.calls)?;
    read_end(&mut lines)?;
    Ok(Report::of_lines(head.kind, callers))
}
