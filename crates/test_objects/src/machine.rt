ghost use Rattle.std.specs.Prelude.{◌≡◌, ℕ, ◌<◌, List, All, length, take, vec_len};
ghost use Rattle.shared_words.specs.declared.entry.Entry.{Entry as Item};
ghost use Rattle.test_objects.specs.declared.scratch.Scratch.{Scratch as Tool};
ghost use Rattle.test_objects.specs.Scratches.{HasCapacity, KeepsCapacity};

use crate::scratch::Scratch;
use shared_words::Entry;

/// What answers a call from the log of all calls up to it: a machine has a reply to the last entry
/// of each log.
pub trait Machine {
    /// The reply to the last entry of a log.
    ghost reply_to: { Self → List Item → ℕ };

    /// What the scratch holds after the machine has answered a log, where that is of use for the
    /// next answer. A machine that doesn't define this keeps nothing in the scratch.
    ghost has_seen: { Self → List Item → Tool → Type 0 } = { λ machine log scratch. Unit {0} };

    /// The reply to the last entry of the log.
    ///
    /// The machine may use the scratch as it likes, but keeps its capacities. What the scratch
    /// holds before doesn't matter.
    fn answer(&self, log: &[Entry], scratch: &mut Scratch) -> u64
        // The log has at least one entry.
        requires some { 0 < length log.now }
        // Each entry of the log is a call of one of the callers that the scratch is for.
        requires callers { All (λ e. e.caller < vec_len scratch.old.waiting) log.now }
        // Both states of the scratch have capacity for more words than the log has entries.
        requires room { HasCapacity (length log.now) scratch.old }
        // The answer is the machine's reply to the log.
        ensures reply { result ≡ reply_to self.now log.now }
        // The scratch keeps its capacities.
        ensures room { KeepsCapacity scratch.old scratch.new }
        // The scratch holds what the machine keeps of the log.
        ensures seen { has_seen self.now log.now scratch.new };

    /// The reply to the last entry of the log, where the machine may continue from its last answer:
    /// the scratch holds what the machine keeps of the first `known` entries.
    fn go_on(&self, log: &[Entry], known: usize, scratch: &mut Scratch) -> u64
        // The log has more entries than the machine has answered.
        requires more { known < length log.now }
        // Each entry of the log is a call of one of the callers that the scratch is for.
        requires callers { All (λ e. e.caller < vec_len scratch.old.waiting) log.now }
        // Both states of the scratch have capacity for more words than the log has entries.
        requires room { HasCapacity (length log.now) scratch.old }
        // The scratch holds what the machine keeps of the first `known` entries, where there are
        // some.
        requires seen { 0 < known → has_seen self.now (take known log.now) scratch.old }
        // The answer is the machine's reply to the log.
        ensures reply { result ≡ reply_to self.now log.now }
        // The scratch keeps its capacities.
        ensures room { KeepsCapacity scratch.old scratch.new }
        // The scratch holds what the machine keeps of the log.
        ensures seen { has_seen self.now log.now scratch.new }
    {
        self.answer(log, scratch)
    }
}
