ghost use Rattle.std.specs.Prelude.{◌≡◌, ◌↔◌, false, IsTrue, IsSome, IfSome, IfNone, IfOk};
ghost use Rattle.std.specs.Arc.{arc_value};
ghost use Rattle.row_table.specs.Callers.{who_of, local_with, stance_of, IsCallerOf, IsFree};

use crate::judging::judge_alone;
use crate::kept::KeptByHandle;
use crate::stage::{HandleStage, Wrong};
use crate::verdict::HandleVerdict;
use announced_calls::{announce_alone, publish_alone};
use book_base::{NoMemory, OpWord};
use book_text::write_book;
use row_table::{Caller, Rows};
use seq_objects::Kind;
use std::alloc::Global;
use std::sync::Arc;

/// One caller of a table, with all that its calls need.
///
/// It makes one call at a time: [`announce`](CallerHandle::announce), then the object's own call,
/// wherever that is made, then with its reply [`answered`](CallerHandle::answered), which judges
/// the call, or [`publish`](CallerHandle::publish), which leaves the judgement to the monitors of
/// the table.
#[derive(Drop)]
pub struct CallerHandle {
    pub(crate) kept: KeptByHandle,
    pub(crate) stage: HandleStage,
}

impl CallerHandle {
    ghost use Rattle.announced_calls.specs.Outside.{every_reply};
    ghost use Rattle.call_handles.specs.Callers.{rows_of, kind_of, stage_of, caller_in, IsSoundCaller, IsOfSameTable, MayAnnounce, HasAnnounced, IsInError, HasBegun, HasEnded, HasPublished, IsWitnessOf};

    /// The handle of a caller of the table `rows`, which is between two calls. Its calls are judged
    /// by `kind`.
    pub fn new(rows: Arc<Rows, Global>, kind: Kind, caller: Caller) -> CallerHandle
        // The caller belongs to `rows`.
        requires caller { IsCallerOf every_reply (arc_value rows) caller }
        // The caller is between two calls.
        requires free { IsFree caller }
        // The handle is sound: its caller, stage and kept book fit one another.
        ensures sound { IsSoundCaller result }
        // The handle has these rows and this kind.
        ensures table { (rows_of result ≡ arc_value rows) × (kind_of result ≡ kind) }
        // The handle's caller is `caller`, between two calls.
        ensures idle { stage_of result ≡ HandleStage.Idle caller }
    {
        CallerHandle {
            kept: KeptByHandle {
                rows,
                kind,
                gathered: None,
                standing: None,
            },
            stage: HandleStage::Idle(caller),
        }
    }

    /// The caller of the handle, which may go back to its bench. A call that is announced stays
    /// unanswered, and then the caller is halted.
    pub fn into_caller(self) -> Caller
        // The handle is sound: its caller, stage and kept book fit one another.
        requires sound { IsSoundCaller self }
        // The caller belongs to the table's rows.
        ensures caller { IsCallerOf every_reply (rows_of self) result }
        // The caller has the number of the handle's caller.
        ensures who { who_of result ≡ who_of (caller_in (stage_of self)) }
        // The caller has the local of the handle's caller.
        ensures local { local_with result ≡ local_with (caller_in (stage_of self)) }
        // Where an announced call waits for its reply, the caller is halted.
        ensures halted { HasAnnounced self → (stance_of result).live ≡ false }
        // Where no announced call waits for its reply, the caller keeps its stance.
        ensures stance { ¬ HasAnnounced self
            → stance_of result ≡ stance_of (caller_in (stage_of self)) }
    {
        let CallerHandle { kept: _, stage } = self;
        match stage {
            HandleStage::Idle(caller) | HandleStage::Unjudged(caller) => caller,
            HandleStage::Announced(call) => call.stop(),
            HandleStage::Wrong(wrong) => {
                let Wrong {
                    caller,
                    reply: _,
                    view: _,
                    seen: _,
                    book: _,
                } = wrong;
                caller
            }
        }
    }

    /// Announces a call with this operation, where the caller is between two calls and has a call
    /// left. The answer is whether a call was announced; where none was, the handle is as it was.
    pub fn announce(self, op: OpWord) -> (CallerHandle, bool)
        // The handle is sound: its caller, stage and kept book fit one another.
        requires sound { IsSoundCaller self }
        // The handle that comes back is sound: its caller, stage and kept book fit one another.
        ensures sound { IsSoundCaller result.0 }
        // The handle that comes back is of this handle's table and kind.
        ensures same { IsOfSameTable self result.0 }
        // The answer is true exactly where the caller is between two calls and has a call left.
        ensures when { IsTrue result.1 ↔ MayAnnounce self }
        // With true the caller has announced a call with this operation.
        ensures begun { IsTrue result.1 → HasBegun op self result.0 }
        // With false the handle is as it was.
        ensures unchanged { ¬ IsTrue result.1 → result.0 ≡ self }
    {
        let CallerHandle { kept, stage } = self;
        match stage {
            HandleStage::Idle(caller) => {
                if caller.left() == 0 {
                    let stage = HandleStage::Idle(caller);
                    return (CallerHandle { kept, stage }, false);
                }
                let stage = HandleStage::Announced(announce_alone(&kept.rows, caller, op));
                (CallerHandle { kept, stage }, true)
            }
            stage => (CallerHandle { kept, stage }, false),
        }
    }

    /// Hands in the object's reply to the call that is announced, and judges the call. Where no
    /// call is announced there is no answer, and the handle is as it was.
    pub fn answered(self, alloc: Global, reply: u64) -> (CallerHandle, Option<HandleVerdict>)
        // The handle is sound: its caller, stage and kept book fit one another.
        requires sound { IsSoundCaller self }
        // The handle that comes back is sound: its caller, stage and kept book fit one another.
        ensures sound { IsSoundCaller result.0 }
        // The handle that comes back is of this handle's table and kind.
        ensures same { IsOfSameTable self result.0 }
        // There is an answer exactly where the caller has announced a call whose reply isn't handed
        // in yet.
        ensures when { IsSome result.1 ↔ HasAnnounced self }
        // With an answer the call has this reply, and the answer is right: legal where the book at
        // the cut that its caller has seen has a legal order, illegal where that book has none,
        // or unjudged where the call is published and nobody has judged it.
        ensures ended { IfSome result.1 (λ answer. HasEnded reply self answer result.0) }
        // Without an answer the handle is as it was.
        ensures unchanged { IfNone result.1 (result.0 ≡ self) }
    {
        let CallerHandle { mut kept, stage } = self;
        match stage {
            HandleStage::Announced(call) => {
                let (stage, answer) = judge_alone(alloc, &mut kept, call, reply);
                (CallerHandle { kept, stage }, Some(answer))
            }
            stage => (CallerHandle { kept, stage }, None),
        }
    }

    /// Hands in the object's reply to the call that is announced, and publishes the call with its
    /// view, without a judgement. The answer is whether a call was announced; where none was, the
    /// handle is as it was.
    pub fn publish(self, reply: u64) -> (CallerHandle, bool)
        // The handle is sound: its caller, stage and kept book fit one another.
        requires sound { IsSoundCaller self }
        // The handle that comes back is sound: its caller, stage and kept book fit one another.
        ensures sound { IsSoundCaller result.0 }
        // The handle that comes back is of this handle's table and kind.
        ensures same { IsOfSameTable self result.0 }
        // The answer is true exactly where the caller has announced a call whose reply isn't handed
        // in yet.
        ensures when { IsTrue result.1 ↔ HasAnnounced self }
        // With true the call is published with this reply, nothing is judged, and the caller is
        // between two calls.
        ensures published { IsTrue result.1 → HasPublished reply self result.0 }
        // With false the handle is as it was.
        ensures unchanged { ¬ IsTrue result.1 → result.0 ≡ self }
    {
        let CallerHandle { kept, stage } = self;
        match stage {
            HandleStage::Announced(call) => {
                let stage = HandleStage::Idle(publish_alone(&kept.rows, call, reply));
                (CallerHandle { kept, stage }, true)
            }
            stage => (CallerHandle { kept, stage }, false),
        }
    }

    /// Where the last call was an error, the text of its book, which has no legal order.
    pub fn witness(&self, alloc: Global) -> Result<Option<Vec<u8>>, NoMemory>
        // The handle is sound: its caller, stage and kept book fit one another.
        requires sound { IsSoundCaller self.now }
        // There is a text exactly where the caller's last call was an error.
        ensures when { IfOk result (λ found. IsSome found ↔ IsInError self.now) }
        // The text is that of the book of the error, which has no legal order.
        ensures text { IfOk result
            (λ found. IfSome found (λ text. IsWitnessOf self.now text.items)) }
    {
        match &self.stage {
            HandleStage::Wrong(wrong) => Ok(Some(write_book(alloc, self.kept.kind, &wrong.book)?)),
            _ => Ok(None),
        }
    }
}
