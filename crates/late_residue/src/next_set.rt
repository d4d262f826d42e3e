ghost use Rattle.std.specs.Prelude.{ℕ, IfSome, IfNone, ◌∷◌, [], ◌++◌, List, IfOk, OnOk};
ghost use Rattle.streams.specs.Stream.{StreamEvent, Returned, IsWaiting, IsValidStream};
ghost use Rattle.late_residue.specs.declared.open_call.OpenCall.{OpenCall};
ghost use Rattle.late_residue.specs.Description.{Description};
ghost use Rattle.late_residue.specs.Reached.{Has, description_of, descriptions_of};
ghost use Rattle.late_residue.specs.Known.{MayHaveReply};
ghost use Rattle.late_residue.specs.Placing.{IsTaken};
ghost use Rattle.late_residue.specs.LateOnes.{AreOpen, AreLate, AreAdded, IsBeyond};

use crate::closing::{admit, close, pruned};
use crate::open_call::OpenCall;
use crate::overwriting::Overwriting;
use crate::reached::Reached;
use book_base::NoMemory;
use std::alloc::Global;

/// The descriptions after a return, or `None` where a limit is met. Open calls with a number below
/// `first` are optional already where they can follow and leave the list.
pub fn next_set<O: Overwriting>(
    alloc: Global,
    object: &O,
    calls: &[OpenCall],
    returning: &OpenCall,
    reply: u64,
    first: u64,
    before: &[Reached],
    limit: usize,
) -> Result<Option<Vec<Reached>>, NoMemory>
    ensures after { IfOk result (λ found. IfSome found (λ left. (stream : List StreamEvent)
        (process : ℕ) → AreOpen stream calls.now → Has calls.now returning.now
        → IsWaiting stream process returning.now.call → MayHaveReply returning.now reply
        → IsValidStream (stream ++ Returned process reply ∷ [])
        → AreLate (O.spec object.now) stream calls.now (descriptions_of before.now)
        → AreLate (O.spec object.now) (stream ++ Returned process reply ∷ []) calls.now
        (descriptions_of left.items))) }
    ensures beyond { IfOk result (λ found. IfNone found ((stream : List StreamEvent)
        → AreOpen stream calls.now
        → AreLate (O.spec object.now) stream calls.now (descriptions_of before.now)
        → IsBeyond (O.spec object.now) stream calls.now limit)) }
{
    let mut ones = Vec::new(alloc);
    let mut left = Vec::new(alloc);
    for one in before {
        let copy = one.copy(alloc)?;
        admit(
            alloc, object, calls, returning, reply, first, copy, &mut ones, &mut left,
        )?;
    }
    if close(
        alloc, object, calls, returning, reply, &mut ones, &mut left, limit,
    )? {
        Ok(Some(pruned(alloc, &left)?))
    } else {
        Ok(None)
    }
}
