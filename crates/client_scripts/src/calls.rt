//! The lines of a script's calls.

ghost use Rattle.std.specs.Prelude.{◌≡◌, length, IfOk, IfErr};
ghost use Rattle.client_scripts.specs.Parts.{IsCallRead, IsCallFault, AreCallsRead, AreCallsStopped, AreClientsRead, AreClientsStopped};

use crate::call_line::read_call_line;
use crate::script::CallerScript;
use book_base::{Call, Cut, OpWord, ReadFault, TextFault};
use std::alloc::Global;
use text_fields::{KindWords, Lines};

/// The callers with the operations that the lines give; the lines after them are left. `calls` has
/// the number of calls of each caller.
pub(crate) fn read_clients(
    alloc: Global,
    lines: &mut Lines,
    calls: &Cut,
    operations: &KindWords,
) -> Result<Vec<CallerScript>, ReadFault>
    ensures found { IfOk result (λ clients.
        AreClientsRead operations.now calls.now lines.old clients.items lines.new) }
    ensures count { IfOk result (λ clients. length clients.items ≡ length calls.now) }
    ensures refused { IfErr result (AreClientsStopped operations.now calls.now lines.old) }
{
    let mut clients = Vec::new(alloc);
    for i in 0..calls.n() {
        clients.push(CallerScript {
            operations: read_operations(alloc, lines, i, calls.get(i), operations)?,
            stop: None,
        })?;
    }
    Ok(clients)
}

/// The operations of the `count` calls of a caller, whose lines are next.
fn read_operations(
    alloc: Global,
    lines: &mut Lines,
    i: u32,
    count: u64,
    operations: &KindWords,
) -> Result<Vec<OpWord>, ReadFault>
    ensures found { IfOk result (λ ops.
        AreCallsRead operations.now i count lines.old ops.items lines.new) }
    ensures count { IfOk result (λ ops. length ops.items ≡ count) }
    ensures refused { IfErr result (AreCallsStopped operations.now i count lines.old) }
{
    let mut ops = Vec::new(alloc);
    for number in 0..count {
        let call = Call { caller: i, number };
        ops.push(read_call(lines, call, operations)?)?;
    }
    Ok(ops)
}

/// The operation of this call, whose line is next.
fn read_call(lines: &mut Lines, call: Call, operations: &KindWords) -> Result<OpWord, TextFault>
    ensures found { IfOk result (λ op. IsCallRead operations.now call lines.old op lines.new) }
    ensures refused { IfErr result (IsCallFault operations.now call lines.old) }
{
    let number = lines.number();
    let line = lines.line()?;
    match read_call_line(operations, line, call) {
        Ok(op) => Ok(op),
        Err(what) => Err(TextFault { line: number, what }),
    }
}
