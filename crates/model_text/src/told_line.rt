ghost use Rattle.std.specs.Prelude.{◌≡◌};
ghost use Rattle.model_text.specs.Told.{comes_before, is_promise};

use book_base::OpWord;

/// What a told line speaks of: the words before its reply.
#[derive(Clone, Copy, Debug, PartialEq, Eq)]
pub enum Subject {
    /// This operation is promised to change no state at which it has the reply.
    Leaves(OpWord),
    /// At this state this operation leads to that state, with the reply.
    Step(u64, OpWord, u64),
}

/// A line that tells something of a model: a promise or a step.
#[derive(Clone, Copy, Debug, PartialEq, Eq)]
pub struct ToldLine {
    pub subject: Subject,
    pub reply: u64,
}

impl ToldLine {
    /// Whether this line comes before another one where lines rise: promises come before steps,
    /// promises rise by operation and then by reply, and steps by state and then by operation.
    pub fn comes_before(&self, other: &ToldLine) -> bool
        ensures { result ≡ comes_before self.now other.now }
    {
        match (self.subject, other.subject) {
            (Subject::Leaves(op), Subject::Leaves(other_op)) => {
                op < other_op || op == other_op && self.reply < other.reply
            }
            (Subject::Leaves(_), Subject::Step(_, _, _)) => true,
            (Subject::Step(_, _, _), Subject::Leaves(_)) => false,
            (Subject::Step(state, op, _), Subject::Step(other_state, other_op, _)) => {
                state < other_state || state == other_state && op < other_op
            }
        }
    }

    /// Whether this line promises that an operation changes no state at which it has this reply.
    pub fn is_promise(&self, op: OpWord, reply: u64) -> bool
        ensures { result ≡ is_promise op reply self.now }
    {
        match self.subject {
            Subject::Leaves(promised) => op == promised && reply == self.reply,
            Subject::Step(_, _, _) => false,
        }
    }
}
