//! Laws of late residues as far as replies are known. Each is the contract of a function with nothing
//! in it.

ghost use Rattle.late_residue.specs.Laws.{WhereNothingIsKnown, KnownRepliesDecide};

/// Known replies delay a verdict and change none.
pub fn known_replies_decide()
    // Where no reply is known, the descriptions give the residue itself.
    ensures nothing { WhereNothingIsKnown }
    // If there is one, the stream has a legal order; if there is none, the stream with the events from
    // which the replies are known has none.
    ensures decide { KnownRepliesDecide }
{}
