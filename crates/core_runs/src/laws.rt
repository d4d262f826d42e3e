//! What a report says of the object inside the world that answered the calls of its callers. Each
//! law is the contract of a function with nothing in it.

ghost use Rattle.core_runs.specs.LoggedReports.{ReportsOfLogsAreLogged, ReportsOfTalliesAreFormed, ReportsOfCellsAreFormed};

/// The calls of a report over the log of a sequential object are in one log, and each answered call
/// has its reply from this log.
pub fn reports_of_logs_are_logged()
    ensures { ReportsOfLogsAreLogged }
{}

/// In a report over a tally an answered increment has a value for its reply. In a report over a
/// cell an answered write has `done`, and an answered read a value. An operation that the object
/// doesn't know is answered `bad`.
pub fn reports_of_words_are_formed()
    // The reply of each answered call of a report over a tally is a value for an increment, and
    // `bad` for anything else.
    ensures tallies { ReportsOfTalliesAreFormed }
    // The reply of each answered call of a report over a cell is `done` for a write, a value for
    // the read, and `bad` for anything else.
    ensures cells { ReportsOfCellsAreFormed }
{}
