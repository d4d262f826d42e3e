ghost use Rattle.std.specs.Prelude.{IfSome};
ghost use Rattle.log_books.specs.Words.{IsNamed};

use crate::operation::Operation;
use history_text::{Clock, Format, NamedRole};
use seq_objects::Kind;

/// An operation of a log, by its name there, as an operation of the kind.
#[derive(Clone, Copy, Debug)]
pub struct NamedOperation<'a> {
    pub name: &'a [u8],
    pub operation: Operation,
}

/// How a log is read.
#[derive(Drop)]
pub struct Options<'a> {
    pub format: Format,
    pub kind: Kind,
    pub clock: Clock,
    pub keyed: bool,
    pub initial: &'a [u8],
    pub roles: Vec<NamedRole<'a>>,
    pub operations: Vec<NamedOperation<'a>>,
}

impl Options<'_> {
    /// The operation that the log names so: the one that `operations` says, or else the one that
    /// logs mostly name so.
    pub fn operation(&self, name: &[u8]) -> Option<Operation>
        ensures { IfSome result (IsNamed self.now name.now) }
    {
        for named in &self.operations {
            if named.name == name {
                return Some(named.operation);
            }
        }
        Operation::usual(self.kind, name)
    }
}
