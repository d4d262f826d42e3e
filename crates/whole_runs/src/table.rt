ghost use Rattle.std.specs.Prelude.{◌≡◌, None, IfOk};
ghost use Rattle.row_table.specs.Callers.{who_of, on_bench, IsCallerOf, IsBenchOf};
ghost use Rattle.monitor.specs.Monitors.{IsResting};

use book_base::NoMemory;
use row_table::{Bench, Caller, Rows};
use std::alloc::Global;
use world_core::{Outside, Program};

/// A table for three callers with five calls each, the bench that they have left, and the three
/// callers.
pub fn open_rows(alloc: Global) -> Result<(Rows, Bench, Caller, Caller, Caller), NoMemory>
    ensures bench { IfOk result
        (λ r. IsBenchOf ⟦<Outside as Program>⟧.meaning r.0 r.1 × (r.0.callers ≡ 3)) }
    ensures gone { IfOk result
        (λ r. (on_bench r.1 0 ≡ None) × (on_bench r.1 1 ≡ None) × (on_bench r.1 2 ≡ None)) }
    ensures a { IfOk result
        (λ r. IsResting ⟦<Outside as Program>⟧.meaning r.0 r.2 × (who_of r.2 ≡ 0)) }
    ensures b { IfOk result
        (λ r. IsResting ⟦<Outside as Program>⟧.meaning r.0 r.3 × (who_of r.3 ≡ 1)) }
    ensures c { IfOk result
        (λ r. IsResting ⟦<Outside as Program>⟧.meaning r.0 r.4 × (who_of r.4 ≡ 2)) }
{
    let (rows, mut bench) = Rows::open(alloc, Outside, 3, 5)?;
    let a = rows.part(&mut bench, 0);
    let b = rows.part(&mut bench, 1);
    let c = rows.part(&mut bench, 2);
    Ok((rows, bench, a, b, c))
}

/// Puts all three callers back on the bench, and closes the table.
pub fn close_rows(
    alloc: Global,
    rows: Rows,
    mut bench: Bench,
    a: Caller,
    b: Caller,
    c: Caller,
) -> Result<(), NoMemory>
    requires bench { IsBenchOf ⟦<Outside as Program>⟧.meaning rows bench × (rows.callers ≡ 3) }
    requires gone { (on_bench bench 0 ≡ None) × (on_bench bench 1 ≡ None)
        × (on_bench bench 2 ≡ None) }
    requires a { IsCallerOf ⟦<Outside as Program>⟧.meaning rows a × (who_of a ≡ 0) }
    requires b { IsCallerOf ⟦<Outside as Program>⟧.meaning rows b × (who_of b ≡ 1) }
    requires c { IsCallerOf ⟦<Outside as Program>⟧.meaning rows c × (who_of c ≡ 2) }
{
    rows.back(&mut bench, a);
    rows.back(&mut bench, b);
    rows.back(&mut bench, c);
    rows.close(alloc, bench)?;
    Ok(())
}
