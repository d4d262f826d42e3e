//! Objects on shared words, each with its own way to make a call.

ghost use Rattle.std.specs.Prelude.{◌≡◌, ◌<◌, ◌≤◌, ◌++◌, ◌∷◌, [], ℕ, List, IfOk, All, map, length};
ghost use Rattle.std.specs.List.{range_with_len};
ghost use Rattle.book_base.specs.declared.TheConstants.{MAX_CALLERS, MAX_CALLS};
ghost use mathlib.Core.List.{IsPrefix};
ghost use Rattle.shared_words.specs.Deeds.{Deed};
ghost use Rattle.shared_words.specs.Histories.{Access};
ghost use Rattle.shared_words.specs.Transcripts.{Transcript, AreOfOneHistory};
ghost use Rattle.shared_words.specs.Passes.{callers_of, cap_of, count_of, caller_of_seat, history_of, deeds_of, caller_of_pass, made_with, cap_of_pass, pairs_in, history_in, transcript_of, IsSeatOf, IsFreshPass};
ghost use Rattle.test_objects.specs.WordObjects.{IsObjectPass};

use book_base::{MAX_CALLERS, MAX_CALLS, NoMemory, OpWord};
use drv_wrapper::{Announced, BlackBox};
use shared_words::{SharedWords, Usage, WordSeat, WordsPass};
use std::alloc::Global;

/// How an object on shared words makes its calls.
pub trait WordCalls: Usage + Sized {
    /// How many words the object has, by its number of callers and its cap.
    ghost count: { ℕ → ℕ → ℕ };

    /// How many callers an object for `n` callers has: it may be opened only for as many as this
    /// says.
    ghost serves: { ℕ → ℕ } = { λ n. n };

    /// What a call does, by the number of callers, the cap, the caller, the operation, the reply,
    /// and the caller's deeds before and after the call.
    ghost call: { ℕ → ℕ → ℕ → ℕ → ℕ → List Deed → List Deed → Type 0 };

    /// The form of a reply, by the operation.
    ghost form: { ℕ → ℕ → Type 0 };

    /// What the history up to a caller's last access tells of its call, by the caller, the
    /// operation and the reply.
    ghost known: { ℕ → ℕ → ℕ → List Access → Type 0 };

    /// What the one history of all accesses and the transcripts of all callers tell together, by
    /// the number of callers and the cap.
    ghost tells: { ℕ → ℕ → List Access → List Transcript → Type 0 };

    /// How many words an object with `n` callers and this cap has.
    fn count(n: u32, cap: u64) -> usize
        // There is at least one caller.
        requires some_callers { 1 ≤ n }
        // There are at most `MAX_CALLERS` callers.
        requires few_callers { n ≤ MAX_CALLERS }
        // Each caller has at most `MAX_CALLS` calls.
        requires few_calls { cap ≤ MAX_CALLS }
        // The answer is the object's count of words.
        ensures count { result ≡ count n cap }
        // There is at least one word.
        ensures some { 0 < result };

    /// Makes the steps of a call of the seat's caller, and returns the reply to the operation.
    fn reply(words: &SharedWords<Self>, seat: &mut WordSeat, op: OpWord) -> u64
        // There are as many words as the object has with their callers and their cap.
        requires words { count_of words.now ≡ count (callers_of words.now) (cap_of words.now) }
        // The object may have as many callers as share the words.
        requires serves { callers_of words.now ≡ serves (callers_of words.now) }
        // The seat belongs to the words.
        requires seat { IsSeatOf Self.may words.now seat.old }
        // The seat still belongs to the words.
        ensures seat { IsSeatOf Self.may words.now seat.new }
        // The seat keeps its caller.
        ensures caller { caller_of_seat seat.new ≡ caller_of_seat seat.old }
        // The caller has made the deeds of the call.
        ensures call { call (callers_of words.now) (cap_of words.now) (caller_of_seat seat.old) op
            result (deeds_of seat.old) (deeds_of seat.new) }
        // The reply has the form of the object's replies to the operation.
        ensures form { form op result }
        // The history that the seat knew before the call is a prefix of the one that it knows after
        // it.
        ensures history { IsPrefix (history_of seat.old) (history_of seat.new) }
        // The history that the seat knows after the call tells what is known of the call.
        ensures known { known (caller_of_seat seat.old) op result (history_of seat.new) };

    /// What transcripts of one history tell.
    fn tells_together()
        // Where the transcripts of all callers are of one history, they tell together what is told
        // of the object.
        ensures { (n cap : ℕ) (history : List Access) (transcripts : List Transcript)
            → AreOfOneHistory Self.may (call n cap) n history transcripts
            → tells n cap history transcripts };
}

/// An object on shared words, which makes its calls as `M` says.
#[derive(Drop)]
pub struct WordObject<M: WordCalls> {
    pub(crate) words: SharedWords<M>,
    ghost many: { count_of words ≡ M.count (callers_of words) (cap_of words) },
    ghost served: { callers_of words ≡ M.serves (callers_of words) },
}

impl<M: WordCalls> WordObject<M> {
    /// Opens an object for `n` callers with `cap` calls each, with a pass for each caller, in
    /// order. All its words are 0.
    pub fn open(
        alloc: Global,
        n: u32,
        cap: u64,
    ) -> Result<(WordObject<M>, Vec<WordsPass>), NoMemory>
        // There is at least one caller.
        requires some_callers { 1 ≤ n }
        // There are at most `MAX_CALLERS` callers.
        requires few_callers { n ≤ MAX_CALLERS }
        // The object may have this many callers.
        requires serves { n ≡ M.serves n }
        // Each caller has at least one call.
        requires some_calls { 1 ≤ cap }
        // Each caller has at most `MAX_CALLS` calls.
        requires few_calls { cap ≤ MAX_CALLS }
        // The object has this many callers and this cap.
        ensures object { IfOk result (λ r. (callers_of r.0.words ≡ n) × (cap_of r.0.words ≡ cap)) }
        // The passes are those of all callers, in order.
        ensures callers { IfOk result (λ r. map caller_of_pass r.1.items ≡ range_with_len 0 n) }
        // Each pass belongs to this object.
        ensures own { IfOk result (λ r. All (IsObjectPass M.may M.call r.0.words) r.1.items) }
        // Each pass has made no call, and may make as many as the cap.
        ensures fresh { IfOk result (λ r. All (IsFreshPass cap) r.1.items) }
    {
        let (words, passes) = SharedWords::open(alloc, n, cap, M::count(n, cap))?;
        Ok((WordObject { words }, passes))
    }

    /// Makes one call of the pass's caller, and returns its reply. Takes no memory.
    pub fn make(&self, pass: &mut WordsPass, op: OpWord) -> u64
        // The pass belongs to this object.
        requires own { IsObjectPass M.may M.call self.now.words pass.old }
        // The pass has made fewer calls than it may make.
        requires left { made_with pass.old < cap_of_pass pass.old }
        // The pass still belongs to this object.
        ensures own { IsObjectPass M.may M.call self.now.words pass.new }
        // The pass keeps its caller and how many calls it may make.
        ensures same { (caller_of_pass pass.new ≡ caller_of_pass pass.old)
            × (cap_of_pass pass.new ≡ cap_of_pass pass.old) }
        // The pass's calls are those that it had, and then this operation with this reply.
        ensures pairs { pairs_in pass.new ≡ pairs_in pass.old ++ (op, result) ∷ [] }
        // The reply has the form of the object's replies to the operation.
        ensures form { M.form op result }
        // The history that the pass knew before the call is a prefix of the one that it knows after
        // it.
        ensures history { IsPrefix (history_in pass.old) (history_in pass.new) }
        // The history that the pass knows after the call tells what is known of the call.
        ensures known { M.known (caller_of_pass pass.old) op result (history_in pass.new) }
    {
        let reply = M::reply(&self.words, &mut pass.seat, op);
        pass.note(op, reply);
        reply
    }

    /// Takes the passes of all callers back, in order, and drops the object. Takes no memory.
    pub fn close(self, passes: Vec<WordsPass>)
        // The passes are those of all callers, in order.
        requires callers { map caller_of_pass passes.items
            ≡ range_with_len 0 (callers_of self.words) }
        // Each pass belongs to this object.
        requires own { All (IsObjectPass M.may M.call self.words) passes.items }
        // The passes are of one history of all accesses, and tell with it what is told of the
        // object.
        ensures history { (history : List Access) × M.tells (callers_of self.words)
            (cap_of self.words) history (map transcript_of passes.items) }
    {
        M::tells_together();
        let WordObject { words } = self;
        words.close(passes);
    }
}

impl<M: WordCalls> BlackBox for WordObject<M> {
    ghost use Rattle.std.proofs.Common.{sym, ap};
    ghost use Rattle.std.proofs.lemmas.Option.{same_Some};

    type Pass = WordsPass;

    ghost is_own = { λ object pass. IsObjectPass M.may M.call object.words pass };

    ghost tells_each = { λ object pass pairs own told. ap (λ (l : List (ℕ × ℕ)). length l) (sym (same_Some (pairs_in pass) pairs told)) };

    fn call(&self, pass: &mut WordsPass, announced: &Announced) -> u64 {
        self.make(pass, announced.op())
    }
}
