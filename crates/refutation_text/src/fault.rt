use level_refutations::LevelFault;
use pair_refutations::PairFault;
use refutations::ClosedFault;
use thiserror::Error;

/// Why a refutation doesn't show that its book has no legal order. Steps are counted from 0, and
/// the ending has the number of steps as its number.
///
/// The steps are tried first, then the ending, and then its entries.
#[derive(Clone, Copy, Debug, PartialEq, Eq, Error)]
pub enum RefutationFault {
    /// The ending isn't for objects of this kind.
    #[error("the ending isn't for objects of this kind")]
    Kind,
    /// This step or ending names a caller that the book lacks, or a call that the part lacks.
    #[error("step {0} names what isn't there")]
    Lacks(u64),
    /// This step is of keys, or the ending lists standings, and some view holds two unanswered calls of one caller.
    #[error("some view holds two unanswered calls of one caller at step {0}")]
    Open(u64),
    /// A call that goes by this step isn't read-only, and calls that stay may tell what it sets.
    #[error("the call of step {0} isn't read-only")]
    Changes(u64),
    /// What an ending without entries says isn't so: some state gives the call's operation its
    /// reply, or the call is unanswered; or the counts are others.
    #[error("what the ending says isn't so")]
    Possible,
    /// The entries make no closed list.
    #[error(transparent)]
    Closed(ClosedFault),
    /// The entries make no closed list of standings. A call has the number that it has in the book.
    #[error(transparent)]
    Pairs(PairFault),
    /// The entries make no closed table of levels.
    #[error(transparent)]
    Levels(LevelFault),
}
