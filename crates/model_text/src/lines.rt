//! What a table tells, as lines.

ghost use Rattle.std.specs.Prelude.{◌≡◌, ◌++◌, [], map, Some, IsTrue, IfOk, OnOk};
ghost use Rattle.std.specs.List.{All};
ghost use Rattle.std.specs.List.Sorted.{IsStrictlySortedBy};
ghost use Rattle.std.specs.BTreeMap.{get, keys};
ghost use Rattle.std.specs.BTreeSet.{contains};
ghost use Rattle.told_models.specs.Table.{pair_order};
ghost use Rattle.model_text.specs.Told.{AllFollow, TellsAlike, told_table, promise_line, step_line};

use crate::told_line::{Subject, ToldLine};
use book_base::{NoMemory, OpWord};
use std::alloc::Global;
use std::collections::{BTreeMap, BTreeSet};
use told_models::{ToldTable, Transition};

/// The lines of what a table tells, in their order: with these, and a book, `write_model` writes
/// evidence that is judged without the model.
pub fn lines_of(alloc: Global, table: &ToldTable) -> Result<Vec<ToldLine>, NoMemory>
    // The initial state of the table has the number 0.
    requires { table.now.init ≡ 0 }
    // Each line may follow those before it: the lines rise, and the steps keep the promises.
    ensures follow { IfOk result (λ lines. AllFollow [] lines.items) }
    // The lines tell what the table tells, and nothing else.
    ensures alike { IfOk result (λ lines. TellsAlike (told_table lines.items) table.now) }
{
    let mut lines = Vec::new(alloc);
    put_promises(&mut lines, &table.promises(alloc)?)?;
    put_steps(&mut lines, &table.steps(alloc)?)?;
    Ok(lines)
}

/// Appends the lines of promises.
fn put_promises(
    lines: &mut Vec<ToldLine>,
    promises: &BTreeSet<(OpWord, u64)>,
) -> Result<(), NoMemory>
    ensures put { OnOk result
        (lines.new.items ≡ lines.old.items ++ map promise_line promises.now.keys) }
    ensures ordered { IsStrictlySortedBy pair_order promises.now.keys }
    ensures found { All (λ pair. IsTrue (contains pair_order promises.now pair)) promises.now.keys }
{
    for (op, reply) in promises {
        lines.push(ToldLine {
            subject: Subject::Leaves(*op),
            reply: *reply,
        })?;
    }
    Ok(())
}

/// Appends the lines of steps.
fn put_steps(
    lines: &mut Vec<ToldLine>,
    steps: &BTreeMap<(u64, OpWord), Transition>,
) -> Result<(), NoMemory>
    ensures put { OnOk result
        (lines.new.items ≡ lines.old.items ++ map step_line steps.now.entries) }
    ensures ordered { IsStrictlySortedBy pair_order (keys steps.now) }
    ensures found { All (λ step. get pair_order steps.now step.0 ≡ Some step.1) steps.now.entries }
{
    for ((state, op), transition) in steps {
        lines.push(ToldLine {
            subject: Subject::Step(*state, *op, transition.next),
            reply: transition.reply,
        })?;
    }
    Ok(())
}
