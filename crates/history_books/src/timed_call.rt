ghost use Rattle.std.specs.Prelude.{◌↔◌, IsTrue};
ghost use Rattle.history_books.specs.Calls.{IsInOrder, IsLasting};

use book_base::OpWord;

/// When a call returned, and its reply word.
#[derive(Clone, Copy, Debug, PartialEq, Eq)]
pub struct Answer {
    pub returned: u64,
    pub reply: u64,
}

/// A call of a log: the process that made it, its operation word, when it was invoked, and its
/// answer. A call without an answer is lost, or still pending: it may take effect at any later
/// moment or never.
///
/// Moments are numbers of any unit, such as the lines of a log or the nanoseconds of a clock. A
/// call whose moments are only known within some error gets the earliest moment at which it may
/// have been invoked, and the latest one at which it may have returned.
#[derive(Clone, Copy, Debug)]
pub struct TimedCall {
    pub process: u64,
    pub op: OpWord,
    pub invoked: u64,
    pub answer: Option<Answer>,
}

/// Whether the calls are listed by their invocations, and none returns before it is invoked.
pub fn are_in_order(calls: &[TimedCall]) -> bool
    ensures { IsTrue result ↔ IsInOrder calls.now }
{
    let mut last: u64 = 0;
    for call in calls {
        if call.invoked < last || !is_lasting(call) {
            return false;
        }
        last = call.invoked;
    }
    true
}

// Whether a call doesn't return before it is invoked.
fn is_lasting(call: &TimedCall) -> bool
    ensures { IsTrue result ↔ IsLasting call.now }
{
    match call.answer {
        Some(answer) => call.invoked <= answer.returned,
        None => true,
    }
}
