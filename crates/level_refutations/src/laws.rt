//! Laws of closed tables of levels. Each is the contract of a function with nothing in it.

ghost use Rattle.level_refutations.specs.Laws.{ClosedTablesHaveNoOrder, ClosedTablesFailNoTest, FirstFaultsAreOne, FaultsAreOfWhatIsSaid};

/// A book for which entries make a closed table has no legal order of a stack.
pub fn closed_tables_have_no_order()
    ensures { ClosedTablesHaveNoOrder }
{}

/// Entries that make a closed table fail no test.
pub fn closed_tables_fail_no_test()
    ensures { ClosedTablesFailNoTest }
{}

/// Entries have at most one first fault.
pub fn first_faults_are_one()
    ensures { FirstFaultsAreOne }
{}

/// Entries that say the same have the same first fault.
pub fn faults_are_of_what_is_said()
    ensures { FaultsAreOfWhatIsSaid }
{}
