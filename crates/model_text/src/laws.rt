//! Laws of the texts of models. Each is the contract of a function with nothing in it.

ghost use Rattle.model_text.specs.Laws.{OneModelPerText, OneTextPerModel, OneFirstFault, NoFaultOfAText, ATextIsItsLines, NoTextBeginsAnother, FirstFaultsLeaveTexts};

/// Bytes are the text of one book and one list of told lines at most.
pub fn one_model_per_text()
    ensures { OneModelPerText }
{}

/// A book and a list of told lines have one text at most.
pub fn one_text_per_model()
    ensures { OneTextPerModel }
{}

/// Bytes have one first fault at most.
pub fn one_first_fault()
    ensures { OneFirstFault }
{}

/// A model's text has no fault.
pub fn no_fault_of_a_text()
    ensures { NoFaultOfAText }
{}

/// Bytes are read as a book and told lines exactly where they are what is written of them.
pub fn a_text_is_its_lines()
    ensures { ATextIsItsLines }
{}

/// No model's text is a proper prefix of another's.
pub fn no_text_begins_another()
    ensures { NoTextBeginsAnother }
{}

/// A first fault is where the bytes stop being the beginning of a model's text: some text begins
/// with the lines before the fault's line, and none begins with these and that line; or that line
/// isn't whole, or bytes follow a whole text.
pub fn first_faults_leave_texts()
    ensures { FirstFaultsLeaveTexts }
{}
