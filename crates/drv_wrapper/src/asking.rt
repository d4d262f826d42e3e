ghost use Rattle.std.specs.Prelude.{◌≡◌, ◌+◌, ◌<◌};
ghost use Rattle.drv_wrapper.specs.Stands.{replied, IsSame};
ghost use Rattle.drv_wrapper.specs.States.{caller_announced, who_announced, op_announced, caller_answered, op_answered, reply_answered};
ghost use Rattle.drv_wrapper.specs.Telling.{told_after};

use crate::announced::Announced;
use crate::answered::Answered;
use crate::black_box::BlackBox;
use world_core::Program;

/// Asks the object once, with the caller's pass, and keeps its reply.
pub fn ask<B: BlackBox>(announced: Announced, object: &B, pass: &mut B::Pass) -> Answered
    // The pass is one of this object's.
    requires own { B.is_own object.now pass.old }
    // The pass is that of the announced call's caller.
    requires caller { B.Pass.caller pass.old ≡ who_announced announced }
    // The pass has made fewer calls than it may make.
    requires left { B.Pass.made pass.old < B.Pass.cap pass.old }
    // The pass is still one of this object's.
    ensures own { B.is_own object.now pass.new }
    // The pass has made one call more.
    ensures made { B.Pass.made pass.new ≡ B.Pass.made pass.old + 1 }
    // The pass keeps its caller and how many calls it may make.
    ensures same { (B.Pass.caller pass.new ≡ B.Pass.caller pass.old)
        × (B.Pass.cap pass.new ≡ B.Pass.cap pass.old) }
    // A pass that tells its calls tells one more, with this operation and the object's reply; one
    // that tells none still tells none.
    ensures told { B.Pass.told pass.new
        ≡ told_after (op_announced announced) (reply_answered result) (B.Pass.told pass.old) }
    // The caller keeps its number and its local, and still belongs to its table.
    ensures caller { IsSame (caller_announced announced) (caller_answered result) }
    // The answered call has the operation of the announced one.
    ensures operation { op_answered result ≡ op_announced announced }
{
    let reply = object.call(pass, &announced);
    announced.answer(reply)
}

impl<P: Program> Announced<P> {
    ghost use Rattle.row_table.specs.Callers.{MayGet};

    /// Answers the call with a reply that the caller has: one that it found by its object steps, or
    /// one that an object outside the world gave to whoever asked it. The program has to allow the
    /// caller this reply, by its local, and still allows it when [`view`](crate::view) hands it
    /// over. Outside the world every reply is allowed.
    pub fn answer(self, reply: u64) -> Answered<P>
        // The program allows the caller this reply, by its local.
        requires allowed { MayGet P.meaning (caller_announced self) reply }
        // The caller keeps its number and its local, and still belongs to its table.
        ensures caller { IsSame (caller_announced self) (caller_answered result) }
        // The answered call has the operation of the announced one.
        ensures operation { op_answered result ≡ op_announced self }
        // The answered call has this reply.
        ensures reply { reply_answered result ≡ reply }
        // The program still allows the caller the reply.
        ensures allowed { MayGet P.meaning (caller_answered result) (reply_answered result) }
    {
        let Announced { mut caller, op } = self;
        caller.keep_reply(reply);
        Answered { caller, op, reply }
    }
}
