ghost use Rattle.std.specs.Prelude.{◌≡◌, ℕ, ◌+◌, ◌<◌, ◌≤◌, [], ◌∷◌, ◌++◌, Some, IfOk, All, length, map, vec_len, vec_capacity};
ghost use Rattle.book_base.specs.declared.TheConstants.{MAX_CALLERS, MAX_CALLS};
ghost use Rattle.shared_words.specs.Entries.{BeginsWith, IsAfterCall};
ghost use Rattle.test_objects.specs.Pairs.{pairs_of};

use crate::log_pass::{LogPass, Tools};
use crate::machine::Machine;
use book_base::{MAX_CALLERS, MAX_CALLS, NoMemory, OpWord};
use drv_wrapper::{Announced, BlackBox};
use shared_words::{Entry, LogSeat, SharedLog};
use std::alloc::Global;

/// A lawful object: its callers share one log of their calls, and a machine answers each call from
/// the log up to it.
///
/// The log is one order of all calls, so the object answers as the machine does in that order,
/// whatever the threads do.
pub struct LogBox<M: Machine> {
    pub(crate) machine: M,
    pub(crate) log: SharedLog,
}

impl<M: Machine> LogBox<M> {
    ghost use Rattle.test_objects.specs.Passes.{callers_in, cap_in, machine_in, caller_of_pass, made_with, cap_of_pass, pairs_in, log_in, IsPassOf, ArePassesOf, IsFresh};
    ghost use Rattle.test_objects.specs.Equipment.{AreReady};
    ghost use Rattle.shared_words.specs.Seats.{log_of, AreSeatsOf};

    /// Makes one call of the pass's caller: appends it to the log, and returns the machine's reply
    /// to the log up to it. Takes no memory.
    pub fn make(&self, pass: &mut LogPass, op: OpWord) -> u64
        // The pass belongs to this box.
        requires own { IsPassOf M.reply_to M.has_seen self.now pass.old }
        // The pass has made fewer calls than it may make.
        requires left { made_with pass.old < cap_of_pass pass.old }
        // The pass still belongs to this box.
        ensures own { IsPassOf M.reply_to M.has_seen self.now pass.new }
        // The pass keeps its caller and how many calls it may make.
        ensures same { (caller_of_pass pass.new ≡ caller_of_pass pass.old)
            × (cap_of_pass pass.new ≡ cap_of_pass pass.old) }
        // The pass has made one call more.
        ensures made { made_with pass.new ≡ made_with pass.old + 1 }
        // The log that the pass saw is the one that it saw before, then calls of other callers, and
        // this call as the last one.
        ensures log { IsAfterCall (caller_of_pass pass.old) op (log_in pass.old) (log_in pass.new) }
        // The reply is that of the machine to the log up to this call.
        ensures reply { result ≡ M.reply_to (machine_in self.now) (log_in pass.new) }
        // The pass's calls are those that it had, and then this operation with this reply.
        ensures pairs { pairs_in pass.new ≡ pairs_in pass.old ++ (op, result) ∷ [] }
    {
        let known = pass.seat.log().len();
        self.log.append(&mut pass.seat, op);
        let reply = self
            .machine
            .go_on(pass.seat.log(), known, &mut pass.tools.scratch);
        pass.tools.pairs.push((op, reply)).unwrap();
        reply
    }

    // Makes a pass of each seat with its tools.
    fn equip(
        &self,
        seats: Vec<LogSeat>,
        mut all_tools: Vec<Tools>,
        mut passes: Vec<LogPass>,
    ) -> Vec<LogPass>
        requires seats { AreSeatsOf self.now.log seats.items
            × All (λ s. log_of s ≡ []) seats.items }
        requires tools { (vec_len all_tools ≡ callers_in self.now)
            × All (AreReady (callers_in self.now) (cap_in self.now)) all_tools.items }
        requires passes { (passes.items ≡ []) × (callers_in self.now ≤ vec_capacity passes) }
        ensures passes { ArePassesOf M.reply_to M.has_seen self.now result.items }
        ensures fresh { All (IsFresh (cap_in self.now)) result.items }
    {
        let mut rest = seats.into_iter();
        while let Some(seat) = rest.next() {
            let Some(tools) = all_tools.pop() else {
                unreachable!()
            };
            passes.push(LogPass { seat, tools }).unwrap();
        }
        rest.destroy_empty();
        passes
    }
}

impl<M: Machine + Drop> LogBox<M> {
    ghost use Rattle.test_objects.specs.Passes.{callers_in, cap_in, machine_in, caller_of_pass, made_with, cap_of_pass, pairs_in, log_in, ArePassesOf, IsFresh};

    /// Opens a box for `n` callers with `cap` calls each, with a pass for each caller, in order.
    /// Its log is empty.
    pub fn open(
        alloc: Global,
        machine: M,
        n: u32,
        cap: u64,
    ) -> Result<(LogBox<M>, Vec<LogPass>), NoMemory>
        // There is at least one caller.
        requires some_callers { 1 ≤ n }
        // There are at most `MAX_CALLERS` callers.
        requires few_callers { n ≤ MAX_CALLERS }
        // Each caller has at least one call.
        requires some_calls { 1 ≤ cap }
        // Each caller has at most `MAX_CALLS` calls.
        requires few_calls { cap ≤ MAX_CALLS }
        // The box has this many callers, this cap and this machine.
        ensures log { IfOk result
            (λ r. (callers_in r.0 ≡ n) × (cap_in r.0 ≡ cap) × (machine_in r.0 ≡ machine)) }
        // The passes are those of all callers of the box, in order.
        ensures passes { IfOk result (λ r. ArePassesOf M.reply_to M.has_seen r.0 r.1.items) }
        // Each pass has made no call, and may make as many as the cap.
        ensures fresh { IfOk result (λ r. All (IsFresh cap) r.1.items) }
    {
        let tools = Tools::for_all(alloc, n, cap)?;
        let passes = Vec::with_capacity(alloc, n as usize)?;
        match SharedLog::open(alloc, n, cap) {
            Ok((log, seats)) => {
                let whole = LogBox { machine, log };
                let passes = whole.equip(seats, tools, passes);
                Ok((whole, passes))
            }
            Err(failed) => {
                passes.destroy_empty();
                Err(failed)
            }
        }
    }

    /// Takes the passes of all callers back, in order, and returns the one log of all calls. Takes
    /// no memory.
    pub fn close(self, passes: Vec<LogPass>) -> Vec<Entry>
        // The passes are those of all callers of this box, in order.
        requires passes { ArePassesOf M.reply_to M.has_seen self passes.items }
        // Each entry of the log is a call of one of the box's callers.
        ensures callers { All (λ e. e.caller < callers_in self) result.items }
        // The log that each pass saw is a prefix of the returned one.
        ensures prefixes { All (λ p. BeginsWith result.items (log_in p)) passes.items }
        // Each pass has the calls of its caller in the log, each with the machine's reply to the
        // log up to it.
        ensures told { All (λ p. pairs_in p ≡ pairs_of (M.reply_to (machine_in self)) result.items
            (caller_of_pass p)) passes.items }
    {
        let LogBox { machine: _, log } = self;
        log.close(passes)
    }
}

impl<M: Machine> BlackBox for LogBox<M> {
    ghost use Rattle.drv_wrapper.specs.Telling.{told_after};
    ghost use Rattle.drv_wrapper.specs.States.{who_announced, op_announced};
    ghost use Rattle.test_objects.specs.Passes.{machine_in, caller_of_pass, made_with, cap_of_pass, pairs_in, log_in, IsPassOf};
    ghost use Rattle.std.specs.Prelude.{ℕ, List, length};
    ghost use Rattle.std.proofs.Common.{sym, ap, ◌∙◌};
    ghost use Rattle.std.proofs.lemmas.Option.{same_Some};

    type Pass = LogPass;

    ghost is_own = { IsPassOf M.reply_to M.has_seen };

    ghost tells_each = { λ b pass pairs own told. ap (λ (l : List (ℕ × ℕ)). length l) (sym (same_Some (pairs_in pass) pairs told)) ∙ own.count };

    fn call(&self, pass: &mut LogPass, announced: &Announced) -> u64
        // The pass belongs to this box.
        requires own { IsPassOf M.reply_to M.has_seen self.now pass.old }
        // The pass is that of the announced call's caller.
        requires caller { caller_of_pass pass.old ≡ who_announced announced.now }
        // The pass has made fewer calls than it may make.
        requires left { made_with pass.old < cap_of_pass pass.old }
        // The pass still belongs to this box.
        ensures own { IsPassOf M.reply_to M.has_seen self.now pass.new }
        // The pass has made one call more.
        ensures made { made_with pass.new ≡ made_with pass.old + 1 }
        // The pass keeps its caller and how many calls it may make.
        ensures same { (caller_of_pass pass.new ≡ caller_of_pass pass.old)
            × (cap_of_pass pass.new ≡ cap_of_pass pass.old) }
        // The pass's told list has one entry more at its end: this operation with this reply.
        ensures told { Some (pairs_in pass.new)
            ≡ told_after (op_announced announced.now) result (Some (pairs_in pass.old)) }
        // The log that the pass saw is the one that it saw before, then calls of other callers, and
        // the announced call as the last one.
        ensures log { IsAfterCall (caller_of_pass pass.old) (op_announced announced.now)
            (log_in pass.old) (log_in pass.new) }
        // The reply is that of the machine to the log up to this call.
        ensures reply { result ≡ M.reply_to (machine_in self.now) (log_in pass.new) }
    {
        self.make(pass, announced.op())
    }
}
