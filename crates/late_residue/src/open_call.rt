ghost use Rattle.std.specs.Prelude.{◌↔◌, IsTrue};
ghost use Rattle.late_residue.specs.Known.{MayHaveReply};

use book_base::OpWord;

/// A call of a stream that hasn't returned: the number of the event by which it was called, counted
/// from 0, its process, its operation word, whether it is lost, and the reply with which it will
/// return, where this is known already.
#[derive(Clone, Copy)]
pub struct OpenCall {
    pub call: u64,
    pub process: u64,
    pub op: OpWord,
    pub is_lost: bool,
    pub reply: Option<u64>,
}

impl OpenCall {
    /// Whether the call may have a reply: none is known of it, or this one.
    pub fn may_have(&self, reply: u64) -> bool
        ensures { IsTrue result ↔ MayHaveReply self.now reply }
    {
        match self.reply {
            Some(known) => reply == known,
            None => true,
        }
    }
}
