ghost use Rattle.std.specs.Prelude.{◌≡◌, ◌++◌, [], ◌∷◌, List, IfOk, OnOk};
ghost use Rattle.model_text.specs.declared.told_line.ToldLine.{ToldLine};
ghost use Rattle.model_text.specs.Told.{AllFollow, MayFollow, TellsAlike, told_table};

use crate::told_line::{Subject, ToldLine};
use book_base::NoMemory;
use std::alloc::Global;
use told_models::{PromiseFault, TellFault, ToldTable, Transition};

/// The table of told lines. Its initial state is 0.
pub fn table_of(alloc: Global, told: &[ToldLine]) -> Result<ToldTable, NoMemory>
    // Each told line may follow those before it: the lines rise, and the steps keep the promises.
    requires { AllFollow [] told.now }
    // The table tells what the lines tell, and nothing else.
    ensures { IfOk result (TellsAlike (told_table told.now)) }
{
    let mut table = ToldTable::new(alloc, 0);
    for line in told {
        tell(&mut table, *line)?;
    }
    Ok(table)
}

/// Tells a line after those that the table tells.
fn tell(table: &mut ToldTable, line: ToldLine) -> Result<(), NoMemory>
    requires { (told : List ToldLine) × AllFollow [] (told ++ line ∷ [])
        × TellsAlike (told_table told) table.old }
    ensures { OnOk result ((told : List ToldLine) → AllFollow [] (told ++ line ∷ [])
        → TellsAlike (told_table told) table.old
        → TellsAlike (told_table (told ++ line ∷ [])) table.new) }
{
    match line.subject {
        Subject::Leaves(op) => match table.promise(op, line.reply) {
            Ok(()) => Ok(()),
            Err(PromiseFault::NoMemory) => Err(NoMemory),
            Err(PromiseFault::LeavesNot(_)) => unreachable!(),
        },
        Subject::Step(state, op, next) => {
            let transition = Transition {
                next,
                reply: line.reply,
            };
            match table.tell(state, op, transition) {
                Ok(()) => Ok(()),
                Err(TellFault::NoMemory) => Err(NoMemory),
                Err(TellFault::Contradicts(_)) => unreachable!(),
                Err(TellFault::LeavesNot) => unreachable!(),
            }
        }
    }
}
