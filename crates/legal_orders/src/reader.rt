ghost use Rattle.std.specs.Prelude.{◌≡◌};
ghost use Rattle.legal_orders.specs.Container.{Reading};
ghost use Rattle.legal_orders.specs.Deals.{deed_of};

use book_base::OpWord;

/// What an operation does to what an object holds.
#[derive(Clone, Copy, Debug, PartialEq, Eq)]
pub enum Role {
    /// The operation puts a value in.
    Put(u64),
    /// The operation takes a value out, if there is one.
    Take,
    /// The operation neither puts a value in nor takes one out.
    Other,
}

/// How the operations and replies of an object are read: as puts and takes of values.
pub trait Reader {
    /// How the object's operations, replies and lists are read.
    ghost reading: { Self → Reading };

    /// What an operation word does.
    fn role(&self, op: OpWord) -> Role
        ensures { deed_of result ≡ (reading self.now).deed op };

    /// The value that the reply to a take shows, if it shows one.
    fn shown(&self, reply: u64) -> Option<u64>
        ensures { result ≡ (reading self.now).shown reply };
}
