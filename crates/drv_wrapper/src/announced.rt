ghost use Rattle.std.specs.Prelude.{◌≡◌};
ghost use Rattle.row_table.specs.Callers.{who_of, local_with, stance_of};
ghost use Rattle.drv_wrapper.specs.Stands.{ready};
ghost use Rattle.drv_wrapper.specs.Calling.{IsAsked};

use book_base::OpWord;
use row_table::Caller;
use world_core::Outside;

/// A call that is announced: its operation is in the table, and it has no reply yet.
///
/// It is continued by [`ask`](crate::ask), or by `answer` where the caller has the reply; or it is
/// ended by `stop`. One that is dropped stays announced, and its caller makes no more steps.
#[derive(Drop)]
pub struct Announced<P = Outside> {
    pub(crate) caller: Caller<P>,
    pub(crate) op: OpWord,
    pub ghost asked: { IsAsked op (local_with caller) },
    pub ghost stands: { stance_of caller ≡ ready },
}

impl<P> Announced<P> {
    ghost use Rattle.drv_wrapper.specs.States.{caller_announced, who_announced, number_announced, op_announced};
    ghost use Rattle.drv_wrapper.specs.Stands.{IsStopped};

    /// The operation of the call.
    pub fn op(&self) -> OpWord
        ensures { result ≡ op_announced self.now }
    {
        self.op
    }

    /// The number of the call's caller.
    pub fn caller(&self) -> u32
        ensures { result ≡ who_announced self.now }
    {
        self.caller.who()
    }

    /// The number of the call among the caller's calls, the first of which is 0.
    pub fn number(&self) -> u64
        ensures { result ≡ number_announced self.now }
    {
        self.caller.made() - 1
    }

    /// The caller, halted, with its local as it is: the call stays announced, and nobody answers
    /// it.
    pub fn stop(self) -> Caller<P>
        // The caller keeps its number and its local, makes no further calls, and still belongs to
        // its table.
        ensures { IsStopped (caller_announced self) result }
    {
        let Announced { caller, op: _ } = self;
        caller.halt()
    }
}
