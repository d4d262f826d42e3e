ghost use Rattle.std.specs.Prelude.{◌<◌, [], ◌∷◌, length, IfOk, IfSome, IsTrue};
ghost use Rattle.queue_pairs.specs.Counts.{PutsAhead, TakesAhead};
ghost use Rattle.queue_refutation.specs.Counts.{HasNoPairs};
ghost use Rattle.queue_refutation.specs.DeadEnds.{QueueHasNoOrder};

use book_base::{Book, NoMemory};
use queue_pairs::{NEVER, QueueDeal, Table, TimedCall, puts_are_ahead, takes_are_ahead};
use search_hints::has_one_open;
use std::alloc::Global;

// How many different values are counted at most. Where there are more, few calls have the same
// value, so that pairs leave few choices.
const MOST_VALUES: usize = 64;

/// The moments of one value's calls, each list in order: `due_puts` those of its answered puts' own
/// views, `early_puts` those of the first views that hold its puts, `due_takes` those of the own
/// views of the takes that show it, and `early_takes` those of the first views that hold these
/// takes or an unanswered take.
#[derive(Drop)]
struct ValueMoments {
    value: u64,
    due_puts: Vec<u64>,
    early_puts: Vec<u64>,
    due_takes: Vec<u64>,
    early_takes: Vec<u64>,
}

/// Whether counts of calls show that a queue's book has no legal order: takes of one value are
/// ahead of its puts while puts of another one are ahead of its takes, which no queue allows.
///
/// The moments at which to count are found by lists of moments, which aren't trusted: the calls are
/// counted once more at these moments.
pub fn refute_by_counts(alloc: Global, table: &Table, book: &Book) -> Result<bool, NoMemory>
    ensures { IfOk result (λ refuted. IsTrue refuted → QueueHasNoOrder table.now book.now) }
{
    if !has_one_open(book) {
        return Ok(false);
    }
    match moments_of(alloc, table)? {
        Some(moments) => Ok(refute(table, &moments)),
        None => Ok(false),
    }
}

// Whether counts show that a table's book has no pairs.
fn refute(table: &Table, moments: &[ValueMoments]) -> bool
    ensures { IsTrue result → HasNoPairs table.now }
{
    for place in 0..moments.len() {
        if takes_refute(table, moments, &moments[place]) {
            return true;
        }
    }
    false
}

// Whether counts show that more of the value of `ahead` has been taken out than put in, while more
// of some other value has been put in than taken out.
fn takes_refute(table: &Table, moments: &[ValueMoments], ahead: &ValueMoments) -> bool
    ensures { IsTrue result → HasNoPairs table.now }
{
    for place in 0..moments.len() {
        let other = &moments[place];
        if let Some((put_moment, take_moment)) = clash_of(other, ahead)
            && refutes(table, ahead.value, other.value, put_moment, take_moment)
        {
            return true;
        }
    }
    false
}

// Whether takes of the value `ahead` by `take_moment` are ahead of its puts by `put_moment`, and
// besides `take_moment` is no later than `put_moment`, or puts of the value `other` by `put_moment`
// are ahead of its takes by `take_moment`.
fn refutes(table: &Table, ahead: u64, other: u64, put_moment: u64, take_moment: u64) -> bool
    ensures { IsTrue result → HasNoPairs table.now }
{
    if put_moment >= NEVER {
        return false;
    }
    if take_moment >= NEVER {
        return false;
    }
    if !takes_of_are_ahead(table, ahead, put_moment, take_moment) {
        return false;
    }
    if take_moment <= put_moment {
        return true;
    }
    puts_of_are_ahead(table, other, put_moment, take_moment)
}

// Whether more takes of a value have taken effect by `take_moment` than puts of it may have by
// `put_moment`.
fn takes_of_are_ahead(table: &Table, value: u64, put_moment: u64, take_moment: u64) -> bool
    ensures { IsTrue result → TakesAhead table.now (value ∷ []) put_moment take_moment }
{
    takes_are_ahead(table, &[value], put_moment, take_moment)
}

// Whether more puts of a value have taken effect by `put_moment` than takes may have taken out by
// `take_moment`.
fn puts_of_are_ahead(table: &Table, value: u64, put_moment: u64, take_moment: u64) -> bool
    ensures { IsTrue result → PutsAhead table.now (value ∷ []) put_moment take_moment }
{
    puts_are_ahead(table, &[value], put_moment, take_moment)
}

// Two moments by which puts of the value of `other` are ahead of its takes, and takes of the value
// of `ahead` are ahead of its puts, where the lists have them. The first moment is for puts, the
// second for takes.
fn clash_of(other: &ValueMoments, ahead: &ValueMoments) -> Option<(u64, u64)> {
    for place in 0..other.due_puts.len() {
        let put_moment = other.due_puts[place];
        let early = up_to(&ahead.early_puts, put_moment);
        let take_moment = moment_at(&ahead.due_takes, early);
        if take_moment < moment_at(&other.early_takes, place) {
            return Some((put_moment, take_moment));
        }
    }
    None
}

// How many moments of a list in order are no later than `moment`.
fn up_to(moments: &[u64], moment: u64) -> usize {
    moments.partition_point(|other| *other <= moment)
}

// The moment at a place of a list, or `NEVER` where there is none.
fn moment_at(moments: &[u64], place: usize) -> u64 {
    match moments.get(place) {
        Some(moment) => *moment,
        None => NEVER,
    }
}

// The moments of each value's calls, or `None` where there are more values than `MOST_VALUES`.
fn moments_of(alloc: Global, table: &Table) -> Result<Option<Vec<ValueMoments>>, NoMemory> {
    let mut moments = Vec::new(alloc);
    for row in &table.rows {
        for timed in row {
            if !add(alloc, *timed, &mut moments)? {
                return Ok(None);
            }
        }
    }
    for row in &table.rows {
        for timed in row {
            add_open(*timed, &mut moments)?;
        }
    }
    for place in 0..moments.len() {
        sort(&mut moments[place])?;
    }
    Ok(Some(moments))
}

// Adds the moments of a call that some view holds, and answers whether its value, if it has one, is
// among the counted ones.
fn add(alloc: Global, timed: TimedCall, moments: &mut Vec<ValueMoments>) -> Result<bool, NoMemory> {
    if !timed.is_held() {
        return Ok(true);
    }
    match timed.deal {
        QueueDeal::Put(value) => {
            let Some(place) = place_of(alloc, value, moments)? else {
                return Ok(false);
            };
            let of_value = &mut moments[place];
            of_value.early_puts.push(timed.span.first)?;
            if timed.is_answered() {
                of_value.due_puts.push(timed.span.last)?;
            }
            Ok(true)
        }
        QueueDeal::Took(value) => {
            let Some(place) = place_of(alloc, value, moments)? else {
                return Ok(false);
            };
            let of_value = &mut moments[place];
            of_value.early_takes.push(timed.span.first)?;
            of_value.due_takes.push(timed.span.last)?;
            Ok(true)
        }
        _ => Ok(true),
    }
}

// Adds the moment of an unanswered take to those of each value.
fn add_open(timed: TimedCall, moments: &mut Vec<ValueMoments>) -> Result<(), NoMemory> {
    if let QueueDeal::OpenTake = timed.deal
        && timed.is_held()
    {
        for place in 0..moments.len() {
            moments[place].early_takes.push(timed.span.first)?;
        }
    }
    Ok(())
}

// The place of a value's moments. They are added where the value has none, or the answer is `None`
// where the limit of values is reached.
fn place_of(
    alloc: Global,
    value: u64,
    moments: &mut Vec<ValueMoments>,
) -> Result<Option<usize>, NoMemory>
    ensures { IfOk result (λ place. IfSome place (λ k. k < length moments.new.items)) }
{
    for place in 0..moments.len() {
        if moments[place].value == value {
            return Ok(Some(place));
        }
    }
    let place = moments.len();
    if place >= MOST_VALUES {
        return Ok(None);
    }
    moments.push(ValueMoments {
        value,
        due_puts: Vec::new(alloc),
        early_puts: Vec::new(alloc),
        due_takes: Vec::new(alloc),
        early_takes: Vec::new(alloc),
    })?;
    Ok(Some(place))
}

// Puts each list of moments in order.
fn sort(moments: &mut ValueMoments) -> Result<(), NoMemory> {
    moments.due_puts.sort()?;
    moments.early_puts.sort()?;
    moments.due_takes.sort()?;
    moments.early_takes.sort()?;
    Ok(())
}
