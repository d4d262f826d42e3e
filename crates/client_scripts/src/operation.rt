//! The operation of a call, as it is drawn.

ghost use Rattle.std.specs.Prelude.{◌≡◌, ◌<◌, ◌≤◌, ◌^◌, true};
ghost use Rattle.text_fields.specs.declared.TheConstants.{TEXT_CALLERS, TEXT_CALLS};
ghost use Rattle.seq_objects.specs.Words.{word_of};
ghost use Rattle.client_scripts.specs.Drawn.{IsWorkload, operation_of, drawn_operation};

use crate::draws::draw;
use crate::workload::{OperationChoice, Workload, choose};
use book_base::{Call, OpWord, join};
use seq_objects::Kind;

/// The operation that is drawn for a call under a key.
pub(crate) fn draw_operation(workload: &Workload, key: u64, call: Call) -> OpWord
    requires workload { IsWorkload workload.now }
    requires caller { call.caller < TEXT_CALLERS }
    requires number { call.number < TEXT_CALLS }
    ensures { result ≡ drawn_operation workload.now key call.caller call.number }
{
    let number = (u64::from(call.caller) * 256 + call.number) * 4;
    let choice = choose(workload, draw(key, number));
    let value = draw(key, number + 1) % workload.values;
    let further = draw(key, number + 2) % workload.values;
    operation(workload.kind, choice, u64::from(value), u64::from(further))
}

/// The operation word of a chosen operation of a kind, with `value` as its first argument and
/// `further` as its second, as far as it takes them.
fn operation(kind: Kind, choice: OperationChoice, value: u64, further: u64) -> OpWord
    requires value { value < 2 ^ 32 }
    requires further { further < 2 ^ 32 }
    ensures { result ≡ operation_of kind choice value further }
{
    match (kind, choice) {
        (Kind::Counter, _) => word(1, 0, 0),
        (Kind::Map, OperationChoice::First) => word(1, value, further),
        (_, OperationChoice::First) => word(1, value, 0),
        (Kind::IntSet | Kind::Map, OperationChoice::Second) => word(2, value, 0),
        (_, OperationChoice::Second) => word(2, 0, 0),
        (Kind::IntSet | Kind::Map, OperationChoice::Third) => word(3, value, 0),
        (Kind::CasRegister, OperationChoice::Third) => word(3, value, further),
        (_, OperationChoice::Third) => word(2, 0, 0),
    }
}

/// The operation word with this code and these arguments.
fn word(code: u64, argument: u64, extra: u64) -> OpWord
    requires code { code ≤ 3 }
    requires argument { argument < 2 ^ 32 }
    ensures { result ≡ word_of code argument extra }
{
    join(code * (1 << 32) + argument, extra)
}
