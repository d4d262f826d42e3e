ghost use Rattle.std.specs.Prelude.{◌≡◌, ◌<◌, ◌≤◌, [], ◌∷◌, ◌++◌, Some};

use crate::word_seat::WordSeat;
use book_base::OpWord;
use drv_wrapper::ObjectPass;

/// What one caller holds to call an object on shared words: its calls with their replies.
#[derive(Drop)]
pub struct WordsPass {
    pub(crate) cap: u64,
    pub(crate) pairs: Vec<(OpWord, u64)>,
    pub seat: WordSeat,
}

impl WordsPass {
    ghost use Rattle.shared_words.specs.Passes.{seat_in, cap_of_pass, made_with, pairs_in, capacity_of_pass};

    /// The caller's calls so far, each as its operation and its reply.
    pub fn pairs(&self) -> &[(OpWord, u64)]
        // The answer has all calls of the pass, in order.
        ensures { result.now ≡ pairs_in self.now }
    {
        &self.pairs
    }

    /// Adds a call with its reply to the pass's calls. Takes no memory.
    pub fn note(&mut self, op: OpWord, reply: u64)
        // The pass has memory for one call more.
        requires { made_with self.old < capacity_of_pass self.old }
        // The pass's calls are those before, and then this one.
        ensures pairs { pairs_in self.new ≡ pairs_in self.old ++ (op, reply) ∷ [] }
        // The pass keeps its seat.
        ensures seat { seat_in self.new ≡ seat_in self.old }
        // The pass keeps its cap, and has memory for at least as many calls as before.
        ensures same { (cap_of_pass self.new ≡ cap_of_pass self.old)
            × (capacity_of_pass self.old ≤ capacity_of_pass self.new) }
    {
        self.pairs.push((op, reply)).unwrap();
    }
}

impl ObjectPass for WordsPass {
    ghost use Rattle.shared_words.specs.Passes.{caller_of_pass, made_with, cap_of_pass, pairs_in};

    ghost caller = { caller_of_pass };

    ghost made = { made_with };

    ghost cap = { cap_of_pass };

    ghost told = { λ pass. Some (pairs_in pass) };

    fn caller(&self) -> u32 {
        self.seat.caller()
    }

    fn made(&self) -> u64 {
        self.pairs.len() as u64
    }

    fn cap(&self) -> u64 {
        self.cap
    }
}
