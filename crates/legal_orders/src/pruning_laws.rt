//! Laws of pruning, each the contract of a function with nothing in it. The law of keys holds for
//! every object of keys, the other laws for every object.

ghost use Rattle.legal_orders.specs.Standing.{GoesOnWithIt};
ghost use Rattle.legal_orders.specs.Twins.{TwinServes};
ghost use Rattle.legal_orders.specs.Idle.{IdleMayBeLeftOut};
ghost use Rattle.legal_orders.specs.Keys.{ForcedKeyGoesFirst};

/// In a valid book with one open, of two callers' calls of one operation that may come next, an
/// answered one serves for the other where the other has the same reply and a view that contains
/// its own, or is unanswered and would get the same reply at the present list. Of two unanswered
/// ones either serves for the other.
#[tactic(auto, using(crate::proofs::Exchanging::twin_serves))]
pub fn twins_serve_for_one_another()
    ensures { TwinServes }
{}

/// An unanswered call that doesn't change the object's present list may be left out, in a book with
/// one open.
#[tactic(auto, using(crate::proofs::Omitting::idle_may_be_left_out))]
pub fn idle_calls_may_be_left_out()
    ensures { IdleMayBeLeftOut }
{}

/// In a valid book with one open of an object of keys, only calls with the forced call's key need
/// be tried, where the forced call has a key.
pub fn the_forced_key_goes_first()
    ensures { ForcedKeyGoesFirst }
{}

/// Whatever the object, an answered call that may come next may be taken at once, where the object
/// gives its recorded reply and its operation is read-only with this reply.
pub fn read_only_calls_stand_at_once()
    ensures { GoesOnWithIt }
{}
