use book_base::{Call, MAX_CALLERS, NoMemory};
use queue_pairs::{QueueDeal, Table, TimedCall};
use std::alloc::Global;

/// How many moments past that of the forced call's view are looked at.
const FAR: u64 = 32;

/// A put of a value, with the moment of the first view that holds it; or a take of a value, with
/// the moment of its own view.
#[derive(Clone, Copy, Debug, PartialEq, Eq, PartialOrd, Ord)]
struct Dealt {
    value: u64,
    moment: u64,
    takes: bool,
}

/// The last moment before some call outside a cut may take `value` out that may not by `moment`, or
/// the one `FAR` past `moment` where this is earlier.
pub fn moment_before_take(
    calls: &Table,
    counts: &[u16; MAX_CALLERS],
    value: u64,
    moment: u64,
) -> u64 {
    let mut until = moment.saturating_add(FAR);
    for caller in 0..MAX_CALLERS {
        let from = usize::from(counts[caller]);
        until = until.min(before_take_of(calls, caller, from, value, moment, until));
    }
    until
}

// The last moment before some call of a caller, from the number `from` on, may take `value` out
// that may not by `moment`; or `until` where this is earlier.
fn before_take_of(
    calls: &Table,
    caller: usize,
    from: usize,
    value: u64,
    moment: u64,
    until: u64,
) -> u64 {
    for number in from..calls.calls(caller) {
        let Some(timed) = calls.at(caller, number) else {
            break;
        };
        let first = timed.span.first;
        if first > until {
            break;
        }
        if first > moment && may_take(timed, value) {
            return first - 1;
        }
    }
    until
}

// Whether a call takes `value` out, or is a take without a reply, which may.
fn may_take(timed: TimedCall, value: u64) -> bool {
    match timed.deal {
        QueueDeal::Took(shown) => shown == value,
        QueueDeal::OpenTake => true,
        QueueDeal::Put(_) | QueueDeal::FoundNothing | QueueDeal::Other => false,
    }
}

/// Whether all takes outside a cut that have taken effect by the moment `until` may have found what
/// puts outside the cut, other than `but`, have put in: none of these takes found nothing, and of
/// each value, by each moment up to `until`, no more takes have taken effect than puts may have.
pub fn lasts(
    alloc: Global,
    calls: &Table,
    counts: &[u16; MAX_CALLERS],
    but: Option<Call>,
    until: u64,
) -> Result<bool, NoMemory> {
    let mut dealt = Vec::new(alloc);
    for caller in 0..MAX_CALLERS {
        let from = usize::from(counts[caller]);
        if !add_dealt(&mut dealt, calls, caller, from, but, until)? {
            return Ok(false);
        }
    }
    dealt.sort()?;
    Ok(takes_follow(&dealt))
}

// Adds those of a caller's calls, from the number `from` on, that count up to the moment `until`:
// the puts, but not `but`, that some view of such a moment holds, and the takes whose own view has
// such a moment. The answer is `false` where one of these takes found nothing.
fn add_dealt(
    dealt: &mut Vec<Dealt>,
    calls: &Table,
    caller: usize,
    from: usize,
    but: Option<Call>,
    until: u64,
) -> Result<bool, NoMemory> {
    for number in from..calls.calls(caller) {
        let Some(timed) = calls.at(caller, number) else {
            break;
        };
        if timed.span.first > until {
            break;
        }
        let is_due = timed.span.last <= until;
        let (value, moment, takes) = match timed.deal {
            QueueDeal::Put(value) if but != Some(timed.call) => (value, timed.span.first, false),
            QueueDeal::Took(value) if is_due => (value, timed.span.last, true),
            QueueDeal::FoundNothing if is_due => return Ok(false),
            _ => continue,
        };
        dealt.push(Dealt {
            value,
            moment,
            takes,
        })?;
    }
    Ok(true)
}

// Whether at no place of a list, which is sorted by value and then by moment, more takes of the
// place's value than puts of it have come.
fn takes_follow(dealt: &[Dealt]) -> bool {
    let mut value = 0;
    let mut held: u64 = 0;
    for one in dealt {
        if one.value != value {
            value = one.value;
            held = 0;
        }
        if !one.takes {
            held = held.saturating_add(1);
        } else if held == 0 {
            return false;
        } else {
            held -= 1;
        }
    }
    true
}
