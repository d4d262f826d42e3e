/// The form in which a run is written.
#[derive(Clone, Copy, Debug, PartialEq, Eq)]
pub enum Form {
    /// The text of the run's report, and after it, where a line is an error, that of the report's
    /// witness.
    Report,
    /// One line: how many calls have a line, how many of these are delivered, and how many are
    /// errors.
    Counts,
    /// A certificate: the text of the book at the greatest seen cut of the delivered lines, and of
    /// a legal order of it.
    Certificate,
}
