//! Laws of pictures: of the rows that places are folded into, and of the colours of values.

ghost use Rattle.std.specs.Prelude.{◌≡◌};
ghost use Rattle.book_picture.specs.declared.row.TheConstants.{ROW_PLACES};
ghost use Rattle.book_picture.specs.declared.values.TheConstants.{COLOURS};
ghost use Rattle.book_picture.specs.Rows.{ADozenStayOnOneRow};
ghost use Rattle.book_picture.specs.Values.{ArgumentsAreOfTheTable, EachValueAppears, FewValuesAreToldApart};

/// The sizes of pictures: how many places a row has at most, and how many colours there are.
pub fn sizes()
    // A row has at most 24 places.
    ensures row { ROW_PLACES ≡ 24 }
    // There are 8 colours.
    ensures colours { COLOURS ≡ 8 }
{}

/// At most 24 places, as many as the sketch of a dozen calls has, stay on one row.
pub fn a_dozen_calls_stay_on_one_row()
    ensures { ADozenStayOnOneRow }
{}

/// An operation of a kind's table is said to have an argument, by its code, exactly where the table
/// says that a number follows its name.
pub fn arguments_are_of_the_table()
    ensures { ArgumentsAreOfTheTable }
{}

/// The list of the values that events show has the value of each invoked call that shows one.
pub fn each_value_appears()
    ensures { EachValueAppears }
{}

/// Where no more values appear than there are colours, any two values have different colours.
pub fn few_values_have_colours_of_their_own()
    ensures { FewValuesAreToldApart }
{}
