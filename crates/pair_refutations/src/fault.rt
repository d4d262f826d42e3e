use crate::entry::Move;
use book_base::Call;
use thiserror::Error;

/// Why entries don't refute a queue's book. Entries are counted from 1, and standings from 0, which
/// is the one that covers no call.
#[derive(Clone, Copy, Debug, PartialEq, Eq, Error)]
pub enum PairFault {
    /// Some view holds two unanswered calls of one caller.
    #[error("some view holds two unanswered calls of one caller")]
    Open,
    /// No state gives this call its recorded reply.
    #[error("no state gives call {} of caller {} its reply", .0.number, .0.caller)]
    Odd(Call),
    /// This entry names a standing that no earlier entry makes, or a move that isn't there.
    #[error("entry {0} makes no standing")]
    Unlisted(u64),
    /// This standing covers all answered takes.
    #[error("standing {0} covers all answered takes")]
    Whole(u64),
    /// This move at the standing with this number leads out of the list.
    #[error("a move at standing {0} leads out of the list")]
    Leads(u64, Move),
}
