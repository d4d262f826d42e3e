ghost use Rattle.std.specs.Prelude.{◌≡◌, ◌≢◌, ◌++◌, None, IfOk, IfSome, IfNone, IsTrue};
ghost use Rattle.book_base.specs.Order.{IsLegalOrder, HasLegalOrder};
ghost use Rattle.book_base.specs.Pruning.{HasOneOpen};
ghost use Rattle.search_hints.specs.declared.decision.Decision.{Decision};
ghost use Rattle.search_hints.specs.Decision.{IsRightDecision};
ghost use Rattle.frontier_check.specs.Prefix.{IsBookCapacity, IsPut, IsPrefix};
ghost use Rattle.frontier_check.specs.Standing.{AreMarks, IsStandingFor};
ghost use Rattle.frontier_check.specs.Verdict.{IsRight, KeepsLastOrder};

use crate::call_turns::CallTurns;
use crate::fresh::{calls_after, holds_answered, put_fresh};
use crate::guide::Guide;
use crate::impossible::has_impossible_reply;
use crate::kept_order::{KeptOrder, OrderMark};
use crate::prefix::{Prefix, answers_in, leaves_open, limit_of};
use crate::remaining::decided_after;
use crate::resume::resume;
use crate::search::Search;
use book_base::{Book, Call, Cut, NoMemory, Place};
use search_hints::{Decision, SearchHints, Sight, has_one_open};
use std::alloc::Global;

/// Whether a book has a legal order.
#[derive(Debug, PartialEq, Eq, Drop)]
pub enum Verdict {
    /// The book has this legal order.
    Legal(Vec<Place>),
    /// The book has no legal order.
    Illegal,
}

/// Looks for a legal order of a book: `Legal` carries one, and `Illegal` comes where the book has
/// none.
///
/// Where the object doesn't decide the book, a search goes depth first through the pairs of a cut
/// and a list, and remembers those that are dead ends (after Wing and Gong 1993, and Lowe 2017).
pub fn check<S: SearchHints>(alloc: Global, object: &S, book: &Book) -> Result<Verdict, NoMemory>
    // A verdict `Legal` carries a legal order of the book, and with `Illegal` the book has none.
    ensures verdict { IfOk result (λ verdict. IsRight (S.spec object.now) book.now verdict) }
{
    match check_within(alloc, object, book, None)? {
        Some(verdict) => Ok(verdict),
        None => unreachable!(),
    }
}

/// Looks for a legal order of a book as `check` does, by a search of so many steps at the most,
/// where a number is given. `None` is answered where the steps ended first, and says nothing of the
/// book.
///
/// A step of the search puts a call next or goes back by one; with the number 0 none is made. Only
/// the search counts: an object that decides books makes what it needs for that, by limits of its
/// own, before the search begins.
pub fn check_within<S: SearchHints>(
    alloc: Global,
    object: &S,
    book: &Book,
    steps: Option<u64>,
) -> Result<Option<Verdict>, NoMemory>
    // A verdict `Legal` carries a legal order of the book, and with `Illegal` the book has none.
    ensures verdict { IfOk result
        (λ said. IfSome said (λ verdict. IsRight (S.spec object.now) book.now verdict)) }
    // Where no number of steps is given, a verdict is answered.
    ensures unlimited { IfNone steps (IfOk result (λ said. said ≢ None)) }
{
    match decide_within(alloc, object, book, &[], steps)? {
        Decision::Order(order) => Ok(Some(Verdict::Legal(order))),
        Decision::NoOrder => Ok(Some(Verdict::Illegal)),
        Decision::Unsaid => Ok(None),
    }
}

/// Looks for a legal order as `check` does, but first for one that begins with the guide's places.
///
/// The guide keeps the order that is found, for the next book: a book with a few more calls than
/// the last one mostly has an order that begins like the last one's. The search is that of
/// `check_after`, which is given the guide's places as an order without marks, so that all of them
/// are put one by one.
pub fn check_from<S: SearchHints>(
    alloc: Global,
    object: &S,
    book: &Book,
    guide: &mut Guide,
) -> Result<Verdict, NoMemory>
    // A verdict `Legal` carries a legal order of the book, and with `Illegal` the book has none.
    ensures verdict { IfOk result (λ verdict. IsRight (S.spec object.now) book.now verdict) }
    // With `Legal` the guide keeps the order that was found, and with `Illegal` the one that it
    // had.
    ensures guide { IfOk result (KeepsLastOrder guide.old guide.new) }
{
    let places = KeptOrder {
        order: Vec::from_slice(alloc, guide.places())?,
        marks: Vec::new(alloc),
    };
    match check_on(alloc, object, book, places)? {
        None => Ok(Verdict::Illegal),
        Some(KeptOrder { order, marks: _ }) => {
            guide.keep(alloc, &order)?;
            Ok(Verdict::Legal(order))
        }
    }
}

/// Looks for a legal order as `check` does, but first for one that begins with the places of the
/// last order, as far as these still follow one another.
///
/// `standing` is the order that the last call of `check_after` kept, for this object and for this
/// book or an earlier one from which this book has grown; the first call has none to give. `None`
/// is answered where the book has no legal order. The places before a mark are kept where the new
/// records let them, and those after it are put one by one. A call mostly costs what is new and a
/// copy of the object's list; no clause says how much.
pub fn check_after<S: SearchHints>(
    alloc: Global,
    object: &S,
    book: &Book,
    standing: Option<KeptOrder>,
) -> Result<Option<KeptOrder>, NoMemory>
    // The marks of an order that is given are marks of its places for this object, in this book or
    // in ones from which it has grown.
    requires standing { IfSome standing (IsStandingFor (S.spec object.now) book.now) }
    // An order that is found is a legal one of the book.
    ensures legal { IfOk result
        (λ found. IfSome found (λ s. IsLegalOrder (S.spec object.now) book.now s.order.items)) }
    // The marks of an order that is found are marks of its places for this object, in this book or
    // in ones from which it has grown.
    ensures stands { IfOk result
        (λ found. IfSome found (IsStandingFor (S.spec object.now) book.now)) }
    // Where memory sufficed and no order is found, the book has no legal order.
    ensures illegal { IfOk result
        (λ found. IfNone found (HasLegalOrder (S.spec object.now) book.now → ⊥)) }
{
    match standing {
        None => {
            let nothing = KeptOrder {
                order: Vec::new(alloc),
                marks: Vec::new(alloc),
            };
            check_on(alloc, object, book, nothing)
        }
        Some(standing) => check_on(alloc, object, book, standing),
    }
}

// Looks for a legal order, first after those places of a kept order that still follow one another.
fn check_on<S: SearchHints>(
    alloc: Global,
    object: &S,
    book: &Book,
    standing: KeptOrder,
) -> Result<Option<KeptOrder>, NoMemory>
    requires standing { IsStandingFor (S.spec object.now) book.now standing }
    ensures legal { IfOk result
        (λ found. IfSome found (λ s. IsLegalOrder (S.spec object.now) book.now s.order.items)) }
    ensures stands { IfOk result
        (λ found. IfSome found (IsStandingFor (S.spec object.now) book.now)) }
    ensures illegal { IfOk result
        (λ found. IfNone found (HasLegalOrder (S.spec object.now) book.now → ⊥)) }
{
    let KeptOrder { order, mut marks } = standing;
    let (mut prefix, later) = resume(alloc, object, book, order, &mut marks)?;
    let limit = limit_of(book, &prefix.cut, &later);
    let before = prefix.places.len();
    if !prefix.put_marked(alloc, object, book, &limit, &later, &mut marks)? {
        return check_anew(alloc, object, book, &prefix.places);
    }
    let later = later_of(&later, prefix.places.len().saturating_sub(before));
    if !put_fresh(alloc, object, book, &mut prefix, &mut marks)? {
        return check_anew(alloc, object, book, &prefix.places);
    }
    match rest_after(alloc, object, book, later, &prefix, FIRST_STEPS)? {
        None => {
            if has_impossible_reply(object, book, &prefix.cut) {
                return Ok(None);
            }
            let Prefix {
                places,
                cut: _,
                here: _,
            } = prefix;
            check_before(alloc, object, book, places, marks)
        }
        Some(rest) => {
            prefix.mark_end(alloc, &answers_in(book), &mut marks)?;
            let Prefix {
                places,
                cut: _,
                here: _,
            } = prefix;
            let mut order = places;
            order.extend_from_slice(&rest)?;
            Ok(Some(KeptOrder { order, marks }))
        }
    }
}

// How many times `check_before` puts calls after a mark: each time after an earlier mark.
const TURNS_PUT: u32 = 3;

// Looks for a legal order: first after the last marks of an order, where calls are put as they are
// guessed; then after ever earlier marks, as `check_at_marks` does; and then anywhere.
fn check_before<S: SearchHints>(
    alloc: Global,
    object: &S,
    book: &Book,
    order: Vec<Place>,
    marks: Vec<OrderMark>,
) -> Result<Option<KeptOrder>, NoMemory>
    requires marks { AreMarks (S.spec object.now) book.now order.items 0 marks.items }
    ensures legal { IfOk result
        (λ found. IfSome found (λ s. IsLegalOrder (S.spec object.now) book.now s.order.items)) }
    ensures stands { IfOk result
        (λ found. IfSome found (IsStandingFor (S.spec object.now) book.now)) }
    ensures illegal { IfOk result
        (λ found. IfNone found (HasLegalOrder (S.spec object.now) book.now → ⊥)) }
{
    let mut order = order;
    let mut marks = marks;
    let mut left = marks.len();
    for _ in 0..TURNS_PUT {
        marks.truncate(left);
        let (next, is_legal) = order_put(alloc, object, book, order, &mut marks)?;
        order = next;
        if is_legal {
            return Ok(Some(KeptOrder { order, marks }));
        }
        if left == 0 {
            return check_anew(alloc, object, book, &order);
        }
        left -= 1;
    }
    marks.truncate(left);
    check_at_marks(alloc, object, book, order, marks)
}

// A new order, which begins with the places of `order` before its last mark that still stands, and
// continues with calls as they are guessed; and whether the new order is legal, which it is where
// the places that remain are found soon. The marks become those of the new order.
fn order_put<S: SearchHints>(
    alloc: Global,
    object: &S,
    book: &Book,
    order: Vec<Place>,
    marks: &mut Vec<OrderMark>,
) -> Result<(Vec<Place>, bool), NoMemory>
    requires marks { AreMarks (S.spec object.now) book.now order.items 0 marks.old.items }
    ensures legal { IfOk result
        (λ r. IsTrue r.1 → IsLegalOrder (S.spec object.now) book.now r.0.items) }
    ensures marks { IfOk result
        (λ r. AreMarks (S.spec object.now) book.now r.0.items 0 marks.new.items) }
{
    let (mut prefix, _later) = resume(alloc, object, book, order, marks)?;
    if !put_fresh(alloc, object, book, &mut prefix, marks)? {
        marks.clear();
        let Prefix {
            places,
            cut: _,
            here: _,
        } = prefix;
        return Ok((places, false));
    }
    order_on(alloc, object, book, &[], prefix, marks, FIRST_STEPS)
}

// How many times `check_at_marks` begins after a mark of an order. The first time it drops no mark,
// and each other time it drops twice as many marks as the time before, and one more.
const TURNS_BACK: u32 = 6;

// Looks for a legal order, first after the last mark of an order and then after ever earlier ones,
// and then anywhere.
fn check_at_marks<S: SearchHints>(
    alloc: Global,
    object: &S,
    book: &Book,
    order: Vec<Place>,
    marks: Vec<OrderMark>,
) -> Result<Option<KeptOrder>, NoMemory>
    requires marks { AreMarks (S.spec object.now) book.now order.items 0 marks.items }
    ensures legal { IfOk result
        (λ found. IfSome found (λ s. IsLegalOrder (S.spec object.now) book.now s.order.items)) }
    ensures stands { IfOk result
        (λ found. IfSome found (IsStandingFor (S.spec object.now) book.now)) }
    ensures illegal { IfOk result
        (λ found. IfNone found (HasLegalOrder (S.spec object.now) book.now → ⊥)) }
{
    let mut order = order;
    let mut marks = marks;
    let mut fewer = 0usize;
    for _ in 0..TURNS_BACK {
        let left = marks.len().saturating_sub(fewer);
        if left == 0 {
            return check_anew(alloc, object, book, &order);
        }
        marks.truncate(left);
        let (next, is_legal) = order_after_mark(alloc, object, book, order, &mut marks)?;
        order = next;
        if is_legal {
            return Ok(Some(KeptOrder { order, marks }));
        }
        fewer = fewer.saturating_mul(2).saturating_add(1);
    }
    check_anew(alloc, object, book, &order)
}

// A new order, which begins with the places of `order` before its last mark that still stands; and
// whether the new order is legal, which it is where the places that remain are found soon: by the
// object, where it decides on an order of them, and else by a search. The marks become those of the
// new order.
fn order_after_mark<S: SearchHints>(
    alloc: Global,
    object: &S,
    book: &Book,
    order: Vec<Place>,
    marks: &mut Vec<OrderMark>,
) -> Result<(Vec<Place>, bool), NoMemory>
    requires marks { AreMarks (S.spec object.now) book.now order.items 0 marks.old.items }
    ensures legal { IfOk result
        (λ r. IsTrue r.1 → IsLegalOrder (S.spec object.now) book.now r.0.items) }
    ensures marks { IfOk result
        (λ r. AreMarks (S.spec object.now) book.now r.0.items 0 marks.new.items) }
{
    let (prefix, later) = resume(alloc, object, book, order, marks)?;
    match decided_after(alloc, object, book, &prefix)? {
        Some(places) => order_by(alloc, object, book, &places, prefix, marks),
        None => order_on(alloc, object, book, &later, prefix, marks, STEPS),
    }
}

// An order that begins with the places of a prefix and then with those of `places`, as far as they
// follow; and whether it is a legal order, which it is where the places that remain are found soon.
// Where it isn't a legal order, no mark is left.
fn order_by<S: SearchHints>(
    alloc: Global,
    object: &S,
    book: &Book,
    places: &[Place],
    mut prefix: Prefix,
    marks: &mut Vec<OrderMark>,
) -> Result<(Vec<Place>, bool), NoMemory>
    requires put { IsPut (S.spec object.now) book.now prefix }
    requires room { IsBookCapacity (S.spec object.now) prefix.here.room }
    requires marks { AreMarks (S.spec object.now) book.now prefix.places.items 0 marks.old.items }
    ensures legal { IfOk result
        (λ r. IsTrue r.1 → IsLegalOrder (S.spec object.now) book.now r.0.items) }
    ensures marks { IfOk result
        (λ r. AreMarks (S.spec object.now) book.now r.0.items 0 marks.new.items) }
{
    let limit = limit_of(book, &prefix.cut, places);
    if !prefix.put_marked(alloc, object, book, &limit, places, marks)? {
        marks.clear();
        let Prefix {
            places: order,
            cut: _,
            here: _,
        } = prefix;
        return Ok((order, false));
    }
    let (order, is_legal) = order_on(alloc, object, book, &[], prefix, marks, STEPS)?;
    if is_legal {
        return Ok((order, true));
    }
    // Some marks may be at places that are given up.
    marks.clear();
    Ok((order, false))
}

// An order that begins with the places of a prefix, and whether it is a legal order. It is one
// where the places that remain are found in `more` steps more than calls remain, with the places
// `later` tried first; else the order continues with the places `later`. The marks of the prefix
// are marks of this order.
fn order_on<S: SearchHints>(
    alloc: Global,
    object: &S,
    book: &Book,
    later: &[Place],
    prefix: Prefix,
    _marks: &[OrderMark],
    more: u64,
) -> Result<(Vec<Place>, bool), NoMemory>
    requires put { IsPut (S.spec object.now) book.now prefix }
    requires marks { AreMarks (S.spec object.now) book.now prefix.places.items 0 _marks.now }
    ensures legal { IfOk result
        (λ r. IsTrue r.1 → IsLegalOrder (S.spec object.now) book.now r.0.items) }
    ensures marks { IfOk result
        (λ r. AreMarks (S.spec object.now) book.now r.0.items 0 _marks.now) }
{
    let found = rest_after(alloc, object, book, later, &prefix, more)?;
    let Prefix {
        mut places,
        cut: _,
        here: _,
    } = prefix;
    match found {
        Some(rest) => {
            places.extend_from_slice(&rest)?;
            Ok((places, true))
        }
        None => {
            places.extend_from_slice(later)?;
            Ok((places, false))
        }
    }
}

// Looks for a legal order anywhere, with the guide's places tried first. An order that is found has
// no marks.
fn check_anew<S: SearchHints>(
    alloc: Global,
    object: &S,
    book: &Book,
    guide: &[Place],
) -> Result<Option<KeptOrder>, NoMemory>
    ensures legal { IfOk result
        (λ found. IfSome found (λ s. IsLegalOrder (S.spec object.now) book.now s.order.items)) }
    ensures stands { IfOk result
        (λ found. IfSome found (IsStandingFor (S.spec object.now) book.now)) }
    ensures illegal { IfOk result
        (λ found. IfNone found (HasLegalOrder (S.spec object.now) book.now → ⊥)) }
{
    match order_anywhere(alloc, object, book, guide)? {
        None => Ok(None),
        Some(order) => Ok(Some(KeptOrder {
            order,
            marks: Vec::new(alloc),
        })),
    }
}

// Places that make a legal order after those of a prefix, if some are found in `more` steps more
// than calls remain, with the places `later` tried first. `None` says nothing of the book.
fn rest_after<S: SearchHints>(
    alloc: Global,
    object: &S,
    book: &Book,
    later: &[Place],
    prefix: &Prefix,
    more: u64,
) -> Result<Option<Vec<Place>>, NoMemory>
    requires { IsPut (S.spec object.now) book.now prefix.now }
    ensures { IfOk result (λ found. IfSome found (λ rest.
        IsLegalOrder (S.spec object.now) book.now (prefix.now.places.items ++ rest.items))) }
{
    if !leaves_open(book, &prefix.cut) {
        return Ok(None);
    }
    if holds_answered(book, &prefix.cut) {
        return Ok(Some(Vec::new(alloc)));
    }
    places_after(alloc, object, book, later, prefix, more)
}

// How many steps a search after given places may make beyond one for each call that remains.
const STEPS: u64 = 1000;

// How many steps a search after guessed calls may make beyond one for each call that remains:
// mostly it needs few, and where these don't suffice, a search begins at a mark.
const FIRST_STEPS: u64 = 100;

// The places of a list after its first `taken` ones; none where it has no more.
fn later_of(places: &[Place], taken: usize) -> &[Place] {
    if taken < places.len() {
        &places[taken..]
    } else {
        &[]
    }
}

// Places that make a legal order after those of a prefix, if some are found in `more` steps more
// than calls remain, with the places `later` tried first. `None` says nothing of the book.
fn places_after<S: SearchHints>(
    alloc: Global,
    object: &S,
    book: &Book,
    later: &[Place],
    prefix: &Prefix,
    more: u64,
) -> Result<Option<Vec<Place>>, NoMemory>
    requires { IsPrefix (S.spec object.now) book.now prefix.now }
    ensures { IfOk result (λ found. IfSome found (λ rest.
        IsLegalOrder (S.spec object.now) book.now (prefix.now.places.items ++ rest.items))) }
{
    let call_turns = CallTurns::new(alloc, book, later, prefix)?;
    let sight: Option<Sight> = None;
    let search = Search {
        alloc,
        object,
        book,
        one_open: has_one_open(book),
        sight: &sight,
        call_turns: &call_turns,
        prefix,
    };
    let steps = calls_after(book, &prefix.cut).saturating_add(more);
    match search.run(Some(steps))? {
        Decision::Order(rest) => Ok(Some(rest)),
        Decision::NoOrder | Decision::Unsaid => Ok(None),
    }
}

// A legal order of a book, if it has one, with the guide's places tried first.
fn order_anywhere<S: SearchHints>(
    alloc: Global,
    object: &S,
    book: &Book,
    guide: &[Place],
) -> Result<Option<Vec<Place>>, NoMemory>
    ensures found { IfOk result
        (λ found. IfSome found (λ order. IsLegalOrder (S.spec object.now) book.now order.items)) }
    ensures none { IfOk result
        (λ found. IfNone found (HasLegalOrder (S.spec object.now) book.now → ⊥)) }
{
    match decide_within(alloc, object, book, guide, None)? {
        Decision::Order(order) => Ok(Some(order)),
        Decision::NoOrder => Ok(None),
        Decision::Unsaid => unreachable!(),
    }
}

// Decides a book: where the object may give each reply of the book and doesn't decide the book, a
// search looks everywhere, by so many steps at the most, where a number is given.
fn decide_within<S: SearchHints>(
    alloc: Global,
    object: &S,
    book: &Book,
    guide: &[Place],
    steps: Option<u64>,
) -> Result<Decision, NoMemory>
    ensures right { IfOk result (IsRightDecision (S.spec object.now) book.now) }
    ensures unlimited { IfNone steps (IfOk result (λ decision. decision ≢ Decision.Unsaid)) }
{
    if has_impossible_reply(object, book, &Cut::zero(book.callers())) {
        return Ok(Decision::NoOrder);
    }
    match object.decide(alloc, book)? {
        Decision::Order(order) => Ok(Decision::Order(order)),
        Decision::NoOrder => Ok(Decision::NoOrder),
        Decision::Unsaid => search_within(alloc, object, book, guide, steps),
    }
}

// Decides a book: a search looks everywhere, with the guide's places tried first, by so many steps
// at the most, where a number is given.
fn search_within<S: SearchHints>(
    alloc: Global,
    object: &S,
    book: &Book,
    guide: &[Place],
    steps: Option<u64>,
) -> Result<Decision, NoMemory>
    ensures right { IfOk result (IsRightDecision (S.spec object.now) book.now) }
    ensures unlimited { IfNone steps (IfOk result (λ decision. decision ≢ Decision.Unsaid)) }
{
    let one_open = has_one_open(book);
    let sight = sight_of(alloc, object, book, one_open)?;
    let prefix = Prefix::new(alloc, object, book)?;
    let call_turns = CallTurns::new(alloc, book, guide, &prefix)?;
    let search = Search {
        alloc,
        object,
        book,
        one_open,
        sight: &sight,
        call_turns: &call_turns,
        prefix: &prefix,
    };
    search.run(steps)
}

// The sight by which the object narrows which callers are tried, in a book with one open; `None` in
// any other book, and where the object prepares no sight.
fn sight_of<S: SearchHints>(
    alloc: Global,
    object: &S,
    book: &Book,
    one_open: bool,
) -> Result<Option<Sight>, NoMemory>
    requires { IsTrue one_open → HasOneOpen book.now }
    ensures { IfOk result
        (λ found. IfSome found (λ sight. HasOneOpen book.now × S.sees object.now book.now sight)) }
{
    if one_open {
        object.prepare(alloc, book)
    } else {
        Ok(None)
    }
}
