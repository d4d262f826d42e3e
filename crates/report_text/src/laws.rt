//! Laws of the texts of reports. Each is the contract of a function with nothing in it.

ghost use Rattle.std.specs.Prelude.{◌≡◌, ◌↔◌, ℕ, [], ◌++◌, List};
ghost use Rattle.book_base.specs.declared.fault.TextFault.{TextFault};
ghost use Rattle.book_text.specs.AnyTextBeginnings.{LeavesAt};
ghost use Rattle.reports.specs.Findings.{Findings};
ghost use Rattle.reports.specs.Grammar.{IsWrittenText};
ghost use Rattle.report_text.specs.ReportRules.{IsReportText, IsFirstReportFault};

/// Bytes are the text of at most one report.
pub fn one_report_per_text()
    ensures { (bytes : List ℕ) (a b : Findings)
        → IsReportText bytes a → IsReportText bytes b → a ≡ b }
{}

/// A report has at most one text.
pub fn one_text_per_report()
    ensures { (a b : List ℕ) (findings : Findings)
        → IsReportText a findings → IsReportText b findings → a ≡ b }
{}

/// Bytes have at most one first fault.
pub fn one_first_fault()
    ensures { (bytes : List ℕ) (a b : TextFault)
        → IsFirstReportFault bytes a → IsFirstReportFault bytes b → a ≡ b }
{}

/// A report's text has no fault.
pub fn no_fault_of_a_text()
    ensures { (bytes : List ℕ) (findings : Findings) (fault : TextFault)
        → IsReportText bytes findings → ¬ (IsFirstReportFault bytes fault) }
{}

/// Bytes are read as a report, line by line, exactly where they are the text that is written of
/// this report.
pub fn a_text_is_its_reports_lines()
    ensures { (bytes : List ℕ) (findings : Findings)
        → IsWrittenText bytes findings ↔ IsReportText bytes findings }
{}

/// No report's text is a proper prefix of another's.
pub fn no_report_text_begins_another()
    ensures { (bytes more : List ℕ) (a b : Findings)
        → IsReportText bytes a → IsReportText (bytes ++ more) b → more ≡ [] }
{}

/// A first fault is in the first line with which the bytes can't be the beginning of a report's
/// text: some text begins with the lines before this line, and none with this line after them. Or
/// the text isn't whole, or bytes follow a whole text.
pub fn first_faults_leave_texts()
    ensures { (bytes : List ℕ) (fault : TextFault)
        → IsFirstReportFault bytes fault → LeavesAt IsReportText bytes fault }
{}
