use thiserror::Error;

/// Why a list of places is no legal order of a book. Places are counted from 0.
///
/// Places are tried from the first, and at each place the tests in the order of the variants;
/// answered calls that are missing are looked for after all places.
#[derive(Clone, Copy, Debug, PartialEq, Eq, Error)]
pub enum OrderFault {
    /// The call at this place isn't in the book.
    #[error("the call at place {0} isn't in the book")]
    Unknown(u64),
    /// The call at this place is at an earlier one too.
    #[error("the call at place {0} stands at an earlier one")]
    Twice(u64),
    /// The previous call of the caller at this place is at no earlier place.
    #[error("the previous call of the caller at place {0} doesn't stand earlier")]
    Skipped(u64),
    /// `Late(q, p)`: the call at place `p` precedes the call at the earlier place `q`, which is the
    /// least place of this kind.
    #[error("the call at place {1} precedes that at the earlier place {0}")]
    Late(u64, u64),
    /// A place, the reply word that its call has in the book, and the other one that the place has.
    #[error("the call at place {0} is answered with the reply word {1}, and the place has {2}")]
    Record(u64, u64, u64),
    /// A place, the reply word that the object gives there, and the other one that the place has.
    #[error("at place {0} the object gives the reply word {1}, and the place has {2}")]
    Run(u64, u64, u64),
    /// The least answered call, by caller and number, that is at no place.
    #[error("call {1} of caller {0} is answered, and stands at no place")]
    Missing(u32, u64),
}
