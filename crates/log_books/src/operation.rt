ghost use Rattle.std.specs.Prelude.{◌≡◌};
ghost use Rattle.log_books.specs.Words.{has_numbers};

use seq_objects::Kind;

/// What the reply of an operation says.
#[derive(Clone, Copy, Debug, PartialEq, Eq)]
pub enum Says {
    /// That the operation was made.
    Done,
    /// A value.
    Value,
    /// A value, or that there is none.
    Maybe,
    /// Yes or no.
    Whether,
    /// Yes, unless it says no.
    Success,
}

/// An operation of a kind: its name in books, how many arguments it has, what its reply says, and
/// whether it changes nothing.
#[derive(Clone, Copy, Debug)]
pub struct Operation {
    pub name: &'static str,
    pub arguments: usize,
    pub says: Says,
    pub reads: bool,
}

const fn changes(name: &'static str, arguments: usize, says: Says) -> Operation {
    Operation {
        name,
        arguments,
        says,
        reads: false,
    }
}

const fn reads(name: &'static str, arguments: usize, says: Says) -> Operation {
    Operation {
        name,
        arguments,
        says,
        reads: true,
    }
}

impl Operation {
    /// The operation of a kind with this name in books.
    pub fn named(kind: Kind, name: &[u8]) -> Option<Operation> {
        match (kind, name) {
            (Kind::Queue, b"enq") => Some(changes("enq", 1, Says::Done)),
            (Kind::Queue, b"deq") => Some(changes("deq", 0, Says::Maybe)),
            (Kind::Stack, b"push") => Some(changes("push", 1, Says::Done)),
            (Kind::Stack, b"pop") => Some(changes("pop", 0, Says::Maybe)),
            (Kind::Register | Kind::CasRegister, b"write") => {
                Some(changes("write", 1, Says::Done))
            }
            (Kind::Register | Kind::CasRegister, b"read") => Some(reads("read", 0, Says::Value)),
            (Kind::CasRegister, b"cas") => Some(changes("cas", 2, Says::Success)),
            (Kind::Counter, b"inc") => Some(changes("inc", 0, Says::Value)),
            (Kind::IntSet, b"add") => Some(changes("add", 1, Says::Whether)),
            (Kind::IntSet, b"remove") => Some(changes("remove", 1, Says::Whether)),
            (Kind::IntSet, b"has") => Some(reads("has", 1, Says::Whether)),
            (Kind::Pqueue, b"insert") => Some(changes("insert", 1, Says::Done)),
            (Kind::Pqueue, b"min") => Some(changes("min", 0, Says::Maybe)),
            (Kind::Map, b"put") => Some(changes("put", 2, Says::Maybe)),
            (Kind::Map, b"get") => Some(reads("get", 1, Says::Maybe)),
            (Kind::Map, b"del") => Some(changes("del", 1, Says::Maybe)),
            _ => None,
        }
    }

    /// The operation of a kind that logs mostly name so.
    pub fn usual(kind: Kind, name: &[u8]) -> Option<Operation> {
        let usual: &[u8] = match (kind, name) {
            (Kind::Queue, b"enqueue" | b"put" | b"offer" | b"send" | b"add") => b"enq",
            (Kind::Queue, b"dequeue" | b"take" | b"poll" | b"receive" | b"get") => b"deq",
            (Kind::Register | Kind::CasRegister, b"set" | b"put" | b"w") => b"write",
            (Kind::Register | Kind::CasRegister, b"get" | b"r") => b"read",
            (Kind::CasRegister, b"compare-and-set") => b"cas",
            (Kind::Counter, b"increment" | b"incr") => b"inc",
            (Kind::IntSet, b"insert") => b"add",
            (Kind::IntSet, b"delete" | b"discard") => b"remove",
            (Kind::IntSet, b"contains" | b"member") => b"has",
            (Kind::Pqueue, b"push" | b"add" | b"enqueue" | b"put") => b"insert",
            (Kind::Pqueue, b"pop" | b"poll" | b"dequeue" | b"get" | b"delete-min") => b"min",
            (Kind::Map, b"set" | b"write") => b"put",
            (Kind::Map, b"read") => b"get",
            (Kind::Map, b"delete" | b"remove") => b"del",
            _ => name,
        };
        Operation::named(kind, usual)
    }
}

/// Whether the values of a kind are numbers of its own, and no names.
pub fn has_numbers(kind: Kind) -> bool
    ensures { result ≡ has_numbers kind }
{
    matches!(kind, Kind::Counter | Kind::Pqueue)
}
