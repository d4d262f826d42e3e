//! Worked calls of one caller and of two, and whether all of them are in one log.

ghost use Rattle.core_runs.specs.Logged.{IsLoggedBy};
ghost use Rattle.object_examples.specs.OneLog.{count_before, one_answered, others_made, answered_backwards, both_made};

/// In which logs caller 0's answered call can be, where the object replies with the number of calls
/// before it. A call of caller 1 may stand before or after it, if the object was asked for that
/// call. Caller 0's reply counts no call that was announced and not asked, no call of a caller that
/// isn't there, and no later call of caller 0.
pub fn logs_have_the_calls_that_were_asked()
    // With the reply 1, caller 0's call is in a log after caller 1's call, for which the object was
    // asked.
    ensures asked_before { IsLoggedBy count_before 2 (others_made 2) (one_answered 1) }
    // With the reply 0, caller 0's call is in a log before caller 1's call, for which the object
    // was asked.
    ensures asked_after { IsLoggedBy count_before 2 (others_made 2) (one_answered 0) }
    // With the reply 0, caller 0's call is in a log without caller 1's call, which is announced and
    // not asked.
    ensures unasked { IsLoggedBy count_before 2 (others_made 1) (one_answered 0) }
    // With the reply 1, caller 0's call is in no log where caller 1's call is announced and not
    // asked: the reply would count that call.
    ensures counts_unasked { ¬ IsLoggedBy count_before 2 (others_made 1) (one_answered 1) }
    // With the reply 1, caller 0's call is in no log of one caller: the reply would count a call of
    // a caller that isn't there.
    ensures counts_a_stranger { ¬ IsLoggedBy count_before 1 (others_made 2) (one_answered 1) }
    // Two calls of one caller with the replies 1 and then 0 are in no log: the first reply would
    // count the second call.
    ensures counts_its_next { ¬ IsLoggedBy count_before 1 both_made answered_backwards }
{}
