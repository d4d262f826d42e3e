ghost use Rattle.std.specs.Prelude.{◌≡◌};
ghost use Rattle.row_table.specs.Callers.{local_with, stance_of};
ghost use Rattle.drv_wrapper.specs.Stands.{replied};
ghost use Rattle.drv_wrapper.specs.Calling.{IsAsked};

use book_base::OpWord;
use row_table::Caller;
use world_core::Outside;

/// A call that the object has answered: the caller keeps the reply, with which the scan of its view
/// begins.
///
/// It is continued by [`view`](crate::view), or ended by `stop`. One that is dropped stays
/// announced, and its caller makes no more steps.
#[derive(Drop)]
pub struct Answered<P = Outside> {
    pub(crate) caller: Caller<P>,
    pub(crate) op: OpWord,
    pub(crate) reply: u64,
    pub ghost asked: { IsAsked op (local_with caller) },
    pub ghost stands: { stance_of caller ≡ replied reply },
}

impl<P> Answered<P> {
    ghost use Rattle.drv_wrapper.specs.States.{caller_answered, reply_answered};
    ghost use Rattle.drv_wrapper.specs.Stands.{IsStopped};

    /// The reply of the object to the call.
    pub fn reply(&self) -> u64
        ensures { result ≡ reply_answered self.now }
    {
        self.reply
    }

    /// The caller, halted, with its local as it is: the call stays announced, and its reply is in
    /// no word of the table.
    pub fn stop(self) -> Caller<P>
        // The caller keeps its number and its local, makes no further calls, and still belongs to
        // its table.
        ensures { IsStopped (caller_answered self) result }
    {
        let Answered {
            caller,
            op: _,
            reply: _,
        } = self;
        caller.halt()
    }
}
