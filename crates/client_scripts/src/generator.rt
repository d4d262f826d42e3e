//! Scripts made from a number.

ghost use Rattle.std.specs.Prelude.{◌≡◌, ◌≤◌, ◌<◌, ◌^◌, IfOk, None};
ghost use Rattle.std.specs.List.{AllByRecursion};
ghost use Rattle.seq_objects.specs.Words.{word_of};
ghost use Rattle.text_fields.specs.declared.TheConstants.{TEXT_CALLERS, TEXT_CALLS};
ghost use Rattle.client_scripts.specs.Generator.{value_of, by_halves, by_thirds, generated_operation, generated_operations, generated};

use crate::script::{CallerScript, Script};
use book_base::{NoMemory, OpWord, join};
use seq_objects::Kind;
use std::alloc::Global;

/// The script made from a number: this many callers with this many calls each, no stop and no
/// turns.
///
/// Operation `k` of caller `i` is decided by the kind, by `k`, and by the value `(number mod 2^20)
/// * 4096 + i * 256 + k`.
pub fn make_script(
    alloc: Global,
    number: u64,
    callers: u32,
    calls: u64,
    kind: Kind,
) -> Result<Script, NoMemory>
    // There is at least one caller.
    requires some { 1 ≤ callers }
    // There are at most as many callers as texts may have.
    requires few { callers ≤ TEXT_CALLERS }
    // Each caller has at most as many calls as texts may have.
    requires calls { calls ≤ TEXT_CALLS }
    // The answer is the script that is made from the number.
    ensures { IfOk result (λ script. script ≡ generated number callers calls kind) }
{
    let mut clients = Vec::new(alloc);
    for caller in 0..callers {
        clients.push(CallerScript {
            operations: make_operations(alloc, number, caller, calls, kind)?,
            stop: None,
        })?;
    }
    Ok(Script::from_parts(kind, clients, Vec::new(alloc)))
}

/// The operations of a caller, in the script made from `number`.
fn make_operations(
    alloc: Global,
    number: u64,
    caller: u32,
    calls: u64,
    kind: Kind,
) -> Result<Vec<OpWord>, NoMemory>
    requires few { caller < TEXT_CALLERS }
    requires calls { calls ≤ TEXT_CALLS }
    ensures ok { IfOk result (λ ops. ops.items ≡ generated_operations number calls kind caller) }
    ensures small { IfOk result (λ ops. AllByRecursion (λ op. op < 2 ^ 128) ops.items) }
{
    let mut ops = Vec::new(alloc);
    for k in 0..calls {
        let value = (number % (1 << 20)) * 4096 + u64::from(caller) * 256 + k;
        ops.push(operation(kind, value, k))?;
    }
    Ok(ops)
}

/// The operation that is generated for call `k` of a caller, where the value of this call is
/// `value`.
fn operation(kind: Kind, value: u64, k: u64) -> OpWord
    requires { value < 2 ^ 32 }
    ensures { result ≡ generated_operation kind value k }
{
    let low = value % 8;
    match kind {
        Kind::Queue | Kind::Stack | Kind::Register | Kind::Pqueue => {
            by_halves(k, word(1, value, 0), word(2, 0, 0))
        }
        Kind::Counter => word(1, 0, 0),
        Kind::IntSet => by_thirds(k, word(1, low, 0), word(3, low, 0), word(2, low, 0)),
        Kind::CasRegister => by_thirds(
            k,
            word(1, low, 0),
            word(3, low, (value + 1) % 8),
            word(2, 0, 0),
        ),
        Kind::Map => by_thirds(k, word(1, low, value), word(2, low, 0), word(3, low, 0)),
    }
}

/// The operation word with this code and these arguments.
fn word(code: u64, argument: u64, extra: u64) -> OpWord
    requires code { code ≤ 3 }
    requires argument { argument < 2 ^ 32 }
    ensures { result ≡ word_of code argument extra }
{
    join(code * (1 << 32) + argument, extra)
}

/// The operation `even` where the number `k` is even, and `odd` where it is odd.
fn by_halves(k: u64, even: OpWord, odd: OpWord) -> OpWord
    ensures { result ≡ by_halves k even odd }
{
    if k % 2 == 0 { even } else { odd }
}

/// The operation `first`, `second` or `third`, where `k` modulo 3 is 0, 1 or 2.
fn by_thirds(k: u64, first: OpWord, second: OpWord, third: OpWord) -> OpWord
    ensures { result ≡ by_thirds k first second third }
{
    match k % 3 {
        0 => first,
        1 => second,
        _ => third,
    }
}
