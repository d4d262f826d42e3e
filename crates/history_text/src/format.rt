/// How the lines of a log are written.
#[derive(Clone, Copy, Debug, PartialEq, Eq)]
pub enum Format {
    /// A map of EDN on each line, as Jepsen writes its histories.
    Edn,
    /// An object of JSON on each line.
    Json,
    /// A header that names the columns, and a row of cells on each line after it.
    Csv,
}
