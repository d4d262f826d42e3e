use book_base::{Book, Call, Cut};
use level_refutations::LevelEntry;
use pair_refutations::PairEntry;
use refutations::Entry;
use seq_objects::Kind;

/// A step, which leaves a part of a book. Calls have the numbers that they have in the book.
#[derive(Debug, Drop)]
pub enum Step {
    /// Of each caller the calls below its count keep their replies and views, and all others lose
    /// theirs; then the calls go that no view holds. There are 16 counts, whatever the book.
    At(Cut),
    /// The calls of these keys go.
    Without(Vec<u64>),
    /// The calls of all other keys go.
    Only(Vec<u64>),
    /// This call goes, which is read-only. The book need not have it.
    Leave(Call),
    /// These calls alone stay, and each other one is read-only, or sets a value and no call that
    /// stays can tell. The book need not have them.
    Keep(Vec<Call>),
}

/// What is said of the part that the steps leave.
#[derive(Debug, Drop)]
pub enum Ending {
    /// This call is answered, and no state gives its operation this reply. The book need not have
    /// it.
    Impossible(Call),
    /// Up to a moment, the second number, more takes that show a value, the first number, are due
    /// than puts of it begin.
    CountsTakes(u64, u64),
    /// The call of the caller with the first number, and with the second number, is a take with the
    /// reply `none`, and more answered puts of these values precede it than its view holds takes
    /// that are unanswered or show one of these values. The book need not have it.
    CountsFind(u64, u64, Vec<u64>),
    /// These entries make a closed list of pairs of calls and a state.
    Closed(Vec<Entry>),
    /// These entries make a closed list of standings.
    Pairs(Vec<PairEntry>),
    /// These entries make a closed table of levels.
    Levels(Vec<LevelEntry>),
}

/// A book with a reason why it has no legal order, which is right or not.
#[derive(Debug, Drop)]
pub struct Refutation {
    /// The kind of the book's object.
    pub kind: Kind,
    /// The book.
    pub book: Book,
    /// The steps, from the first.
    pub steps: Vec<Step>,
    /// What is said of the part that they leave.
    pub ending: Ending,
}
