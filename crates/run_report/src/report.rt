ghost use Rattle.std.specs.Prelude.{◌≡◌, ◌<◌, ◌^◌, false, length, vec_len};
ghost use Rattle.std.specs.List.{All};
ghost use Rattle.row_table.specs.Callers.{IsBenchOf};
ghost use Rattle.client_calls.specs.Ends.{SaysJudged};
ghost use Rattle.reports.specs.ReportLayout.{lines_in};
ghost use Rattle.run_report.specs.Starts.{allotments_by, course_of};
ghost use Rattle.run_report.specs.Returns.{AreBack};
ghost use Rattle.run_report.specs.Replies.{HasWord};
ghost use Rattle.run_report.specs.Reporting.{IsRunReport};

use crate::Pace;
use client_calls::{Asks, Shared};
use client_scripts::Script;
use report_lines::{Line, LineEnd};
use reports::{Own, Report};
use row_table::Bench;
use search_hints::SearchHints;
use world_core::Program;

// Every `u64` is less than 2 to the power 64.
fn read_word(word: &u64)
    ensures { word.now < 2 ^ 64 }
{
    let _word = *word;
}

// The reply of a line is a word of 64 bits.
fn read_reply(line: &Line)
    ensures { HasWord line.now.end }
{
    match &line.end {
        LineEnd::Pending => {}
        LineEnd::Unchecked(record) => read_word(&record.reply),
        LineEnd::Delivered(record, _) => read_word(&record.reply),
        LineEnd::Error(record, _) => read_word(&record.reply),
    }
}

// The replies of a caller's lines are words of 64 bits.
fn read_own(lines: &[Line])
    ensures { All (λ line. HasWord line.end) lines.now }
{
    for line in lines {
        read_reply(line);
    }
}

// The replies of all lines are words of 64 bits.
fn read_replies(lines: &[Own])
    ensures { All (λ own. All (λ line. HasWord line.end) own.lines.items) lines.now }
{
    for own in lines {
        read_own(&own.lines);
    }
}

/// The report of a script's callers that are back on their bench with their passes, and left these
/// lines. The pace says how many phases each caller was given.
pub(crate) fn report_of<P: Program, T, S: SearchHints, A: Asks<Program = P, Pass = T>>(
    _shared: &Shared<A, P>,
    _bench: &Bench<P>,
    _sequential: &S,
    _passes: &Vec<T>,
    script: &Script,
    _pace: Pace,
    lines: Vec<Own>,
) -> Report
    requires callers { _shared.now.rows.now.callers ≡ length script.now.operations }
    requires bench { IsBenchOf P.meaning _shared.now.rows.now _bench.now }
    requires all_passes { vec_len _passes.now ≡ length script.now.operations }
    requires all_lines { vec_len lines ≡ length script.now.operations }
    requires lines { AreBack P.meaning _shared.now.rows.now SaysJudged (A.fits _shared.now.asks.now)
        A.count (length script.now.operations) (length script.now.operations)
        (course_of script.now (allotments_by _pace script.now) (S.spec _sequential.now)) _bench.now
        _passes.now.items (lines_in lines.items) false }
    ensures { IsRunReport (S.spec _sequential.now) P.meaning _shared.now.rows.now A.count script.now
        (allotments_by _pace script.now) _bench.now _passes.now.items result }
{
    let _callers = script.callers();
    read_replies(&lines);
    Report::of_lines(script.kind(), lines)
}
