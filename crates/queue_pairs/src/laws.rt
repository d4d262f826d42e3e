//! Laws of moments and of pairs. Each is the contract of a function with nothing in it.

ghost use Rattle.queue_pairs.specs.Moments.{PrecedesByMoments, MomentsKeepPrecedence};
ghost use Rattle.queue_pairs.specs.PairLaws.{LegalOrdersHavePairs};
ghost use Rattle.queue_pairs.specs.Serving.{EarlierPutServes, EarlierTakeServes};

/// In a valid book an answered call precedes exactly those calls that no view holds up to the
/// moment of its own view. Where the book has one open, calls that views hold keep precedence
/// exactly where each has a moment, from the first view that holds it up to its own view, and
/// moments don't fall. Of calls that no view holds, no clause speaks.
pub fn moments_keep_precedence()
    // In a valid book, an answered call precedes exactly those calls that no view holds up to the
    // moment of its own view.
    ensures precedes { PrecedesByMoments }
    // In a valid book with one open, calls that views hold keep precedence exactly where they may
    // take effect one after another.
    ensures order { MomentsKeepPrecedence }
{}

/// A queue's book with one open that has a legal order has pairs of puts and takes that may take
/// effect one after another. So a book without such pairs has no legal order.
pub fn legal_orders_have_pairs()
    // A valid book with one open of a queue that begins empty has pairs where it has a legal order.
    ensures { LegalOrdersHavePairs }
{}

/// In a valid book with one open, of two callers' next puts of one value, and of two callers' next
/// takes of one deal, the one that may take effect no later and is due no later serves for the
/// other: where steps that lead to a whole standing begin with a pair that has the other call, as
/// many steps lead there that begin with this pair with the serving call in place of the other. No
/// clause says that `decide_queue` rests on this.
pub fn choices_serve_for_one_another()
    // Of two callers' next puts of one value, one that may take effect no later and is due no later
    // serves for the other.
    ensures puts { EarlierPutServes }
    // Of two callers' next takes of one deal, one that may take effect no later and is due no later
    // serves for the other.
    ensures takes { EarlierTakeServes }
{}
