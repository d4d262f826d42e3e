ghost use Rattle.std.specs.Prelude.{List, Option, None};
ghost use Rattle.row_table.specs.Callers.{shape_of, locals_on, IsBenchOf, HoldsAll};
ghost use Rattle.named_runs.specs.Shown.{Ended, Sees};

use row_table::{Bench, Rows};
use world_core::Program;

/// The onlooker of runs, who is shown the table of each run when the run has ended. Only a bench of
/// a table can be shown, and its locals are those that the table's steps have left.
pub trait Onlooker {
    /// The tables that the onlooker was shown, in order, where it keeps them.
    ghost shown: { Self → Option (List Ended) };

    /// Shows the table of a run that has ended, by its rows and its bench.
    fn ended<P: Program>(&mut self, rows: &Rows<P>, bench: &Bench<P>)
        // The bench is a bench of the rows, and holds each of their callers.
        requires bench { IsBenchOf P.meaning rows.now bench.now × HoldsAll bench.now }
        // The table comes after those that the onlooker was shown before, where it keeps them.
        ensures { Sees (shown self.old) (record {
          shape = shape_of P.meaning rows.now;
          locals = locals_on bench.now;
        }) (shown self.new) };
}

/// The onlooker of runs that nobody watches.
#[derive(Clone, Copy, Debug, Drop)]
pub struct Unwatched;

impl Onlooker for Unwatched {
    ghost shown = { λ _. None };

    fn ended<P: Program>(&mut self, _rows: &Rows<P>, _bench: &Bench<P>) {}
}
