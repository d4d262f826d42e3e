//! What one log for all calls says of each call; and what every run over an object inside the world
//! says of its calls, for every number of callers and cap. Each law is the contract of a function
//! with nothing in it.

ghost use Rattle.core_runs.specs.LogLaws.{AnswersComeFromTheLog, EntriesAreOfCalls};
ghost use Rattle.core_runs.specs.Runs.{RunsOfLogsAreLogged, RunsOfTalliesAreFormed, RunsOfCellsAreFormed};

/// Each answered call has an entry in the log, and its reply is the answer to the log up to this
/// entry.
pub fn answers_come_from_the_log()
    ensures { AnswersComeFromTheLog }
{}

/// Each entry of the log is of a call that its caller asked the object for.
pub fn entries_are_of_calls()
    ensures { EntriesAreOfCalls }
{}

/// The calls of every run over the log of a sequential object are in one log, and each answered
/// call has its reply from this log. A call that was announced and not asked isn't in the log; one
/// that was asked is, whether or not its caller has its record.
pub fn runs_of_logs_are_logged()
    ensures { RunsOfLogsAreLogged }
{}

/// In every run over a tally an answered increment has a value for its reply. In every run over a
/// cell an answered write has `done`, and an answered read a value. An operation that the object
/// doesn't know is answered `bad`.
pub fn runs_of_words_are_formed()
    // In each run over a tally the reply to an answered call is a value for an increment, and `bad`
    // for anything else.
    ensures tallies { RunsOfTalliesAreFormed }
    // In each run over a cell the reply to an answered call is `done` for a write, a value for the
    // read, and `bad` for anything else.
    ensures cells { RunsOfCellsAreFormed }
{}
