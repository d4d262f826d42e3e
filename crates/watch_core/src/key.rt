ghost use Rattle.std.specs.Prelude.{◌≡◌};
ghost use Rattle.stream_locality.specs.KindKeys.{key_of_kind};

use book_base::OpWord;
use seq_objects::{IntSetOperation, Kind, MapOperation};

/// The key of an operation word of an object of a kind: of a set the value that is added, removed
/// or looked for, of a map the key that is put, got or deleted. Each other word has the key 0.
pub fn key_of(kind: Kind, op: OpWord) -> u64
    ensures { result ≡ key_of_kind kind op }
{
    match kind {
        Kind::IntSet => match IntSetOperation::from_word(op) {
            Some(IntSetOperation::Add(value)) => u64::from(value),
            Some(IntSetOperation::Remove(value)) => u64::from(value),
            Some(IntSetOperation::Has(value)) => u64::from(value),
            None => 0,
        },
        Kind::Map => match MapOperation::from_word(op) {
            Some(MapOperation::Put(key, _)) => u64::from(key),
            Some(MapOperation::Get(key)) => u64::from(key),
            Some(MapOperation::Delete(key)) => u64::from(key),
            None => 0,
        },
        Kind::Queue
        | Kind::Stack
        | Kind::Pqueue
        | Kind::Register
        | Kind::Counter
        | Kind::CasRegister => 0,
    }
}
