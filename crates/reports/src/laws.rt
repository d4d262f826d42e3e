//! Laws of errors. Each is the contract of a function with nothing in it.

ghost use Rattle.reports.specs.Errors.{SomeErrorIsFirst, FirstErrorsAreErrors, FirstErrorIsOne, WitnessIsOne};

/// Lines have a first error exactly where one of them is an error. The first error is one line, and
/// has one witness.
pub fn errors_have_one_witness()
    // Where a line is an error there is a first error.
    ensures some { SomeErrorIsFirst }
    // Where there is a first error a line is an error.
    ensures only { FirstErrorsAreErrors }
    // Lines have at most one first error line, which has one seen cut.
    ensures one { FirstErrorIsOne }
    // Lines have at most one witness.
    ensures witness { WitnessIsOne }
{}
