ghost use Rattle.std.specs.Prelude.{◌≡◌, ℕ, ◌<◌, ◌≤◌, ◌⊎◌, length, replicate, slice_index, IfSome, IfNone};
ghost use Rattle.book_base.specs.declared.call.Call.{Call};
ghost use Rattle.book_base.specs.Cut.{Holds, IsWithin};
ghost use Rattle.book_base.specs.Book.{announced, IsAnswered, IsValid, IsSmall};
ghost use Rattle.sketch.specs.declared.event.Event.{Event};
ghost use Rattle.sketch.specs.declared.event.Event.TheVariants.{Return};
ghost use Rattle.sketch.specs.Sketch.{IsEventOf, ComesBefore};
ghost use Rattle.sketch.specs.Drawing.{IsDrawn, IsPartOf, IsNext, IsNextOf, with_event};
ghost use Rattle.book_base.specs.declared.TheConstants.{MAX_CALLERS};

use crate::event::Event;
use book_base::{Book, Call, Cut};

// The events of a sketch so far: the calls that were invoked, and those that returned, as cuts.
#[derive(Clone, Copy, Debug)]
pub struct Drawn {
    pub invoked: Cut,
    pub returned: Cut,
}

impl Drawn {
    /// The state before any event is drawn, for this many callers.
    pub fn nothing(callers: u32) -> Drawn
        requires some { 1 ≤ callers }
        requires few { callers ≤ MAX_CALLERS }
        ensures invoked { result.invoked ≡ replicate callers 0 }
        ensures returned { result.returned ≡ replicate callers 0 }
    {
        let none = Cut::zero(callers);
        Drawn {
            invoked: none,
            returned: none,
        }
    }

    /// Draws the event that comes next.
    pub fn draw(&mut self, book: &Book, event: Event)
        requires valid { IsValid book.now }
        requires small { IsSmall book.now }
        requires part { IsPartOf book.now self.old }
        requires next { IsNext book.now self.old event }
        ensures drawn { self.new ≡ with_event self.old event }
        ensures part { IsPartOf book.now self.new }
    {
        match event {
            Event::Invoke(call) => self.invoked.set(call.caller, call.number + 1),
            Event::Return(call) => self.returned.set(call.caller, call.number + 1),
        }
    }

    /// The event that comes next, unless all are drawn.
    ///
    /// Of the answered calls that haven't returned, the one that returns first decides. While its
    /// view holds a call that isn't invoked, the first such call is invoked; then the deciding call
    /// returns. After the last return all other calls are invoked.
    pub fn next(&self, book: &Book) -> Option<Event>
        requires valid { IsValid book.now }
        requires part { IsPartOf book.now self.now }
        ensures next { IfSome result (IsNext book.now self.now) }
        ensures none { IfNone result ((event : Event)
            → IsEventOf book.now event → IsDrawn self.now event) }
    {
        let waiting = self.first_waiting(book);
        let seen = match waiting {
            Some(call) => book.record(call).view,
            None => announced(book),
        };
        match self.first_new(&seen) {
            Some(call) => Some(Event::Invoke(call)),
            None => waiting.map(Event::Return),
        }
    }

    // The least call, by caller and number, that a cut holds and that isn't invoked.
    fn first_new(&self, seen: &Cut) -> Option<Call>
        requires { length seen.now ≡ length self.now.invoked }
        ensures next { IfSome result (IsNextOf self.now.invoked) }
        ensures seen { IfSome result (Holds seen.now) }
        ensures first { IfSome result (λ call. (i : ℕ)
            → i < call.caller → slice_index seen.now i ≤ slice_index self.now.invoked i) }
        ensures none { IfNone result (IsWithin seen.now self.now.invoked) }
    {
        for caller in 0..seen.n() {
            let number = self.invoked.get(caller);
            if number < seen.get(caller) {
                return Some(Call { caller, number });
            }
        }
        None
    }

    // The answered call that returns first of those that haven't returned yet.
    fn first_waiting(&self, book: &Book) -> Option<Call>
        requires { IsPartOf book.now self.now }
        ensures answered { IfSome result (IsAnswered book.now) }
        ensures next { IfSome result (IsNextOf self.now.returned) }
        ensures first { IfSome result (λ call. (other : Call) → IsAnswered book.now other
            → slice_index self.now.returned other.caller ≤ other.number
            → (other ≡ call) ⊎ ComesBefore book.now (Return call) (Return other)) }
        ensures none { IfNone result ((other : Call)
            → IsAnswered book.now other → Holds self.now.returned other) }
    {
        let mut first: Option<Call> = None;
        for caller in 0..book.callers() {
            let number = self.returned.get(caller);
            if number < book.answers(caller) {
                let call = Call { caller, number };
                first = match first {
                    Some(other) => Some(earlier(book, other, call)),
                    None => Some(call),
                };
            }
        }
        first
    }
}

// Of an answered call `a` and an answered call `b` of a later caller, the one that returns first.
fn earlier(book: &Book, a: Call, b: Call) -> Call
    requires valid { IsValid book.now }
    requires first { IsAnswered book.now a }
    requires second { IsAnswered book.now b }
    requires listed { a.caller < b.caller }
    ensures { ((result ≡ a) × ComesBefore book.now (Return a) (Return b))
        ⊎ ((result ≡ b) × ComesBefore book.now (Return b) (Return a)) }
{
    if book.record(a).view.within(&book.record(b).view) {
        a
    } else {
        b
    }
}

/// How many calls each caller of the book made, as a cut.
pub fn announced(book: &Book) -> Cut
    // The answer is how many calls each caller of the book made.
    ensures { result ≡ announced book.now }
{
    let mut counts = Cut::zero(book.callers());
    for caller in 0..book.callers() {
        counts.set(caller, book.calls(caller));
    }
    counts
}
