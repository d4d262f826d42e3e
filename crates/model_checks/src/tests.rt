//! A check in dialogue: a lock whose operation 0 acquires it and whose operation 1 releases it.
//! State 0 is free and 1 is held; the reply 1 is yes and 0 is no.

ghost use Rattle.std.specs.Prelude.{IfOk};
ghost use Rattle.model_checks.specs.Checks.{IsSoundCheck};

use crate::{ModelAnswer, ModelCheck, ModelReply, ModelRequest, ModelStep};
use std::alloc::Global;
use std::test::Fail;

const ACQUIRE: u32 = 0;

const RELEASE: u32 = 1;

const NO: u32 = 0;

const YES: u32 = 1;

fn lock_step(state: u32, op: u32) -> ModelStep {
    let (next, reply) = match (state, op) {
        (0, ACQUIRE) => (1, YES),
        (1, RELEASE) => (0, YES),
        _ => (state, NO),
    };
    ModelStep {
        state,
        op,
        next,
        reply,
    }
}

// A check of a history of two callers.
fn check_of(alloc: Global, events: &[ModelRequest]) -> Result<ModelCheck, Fail>
    ensures { IfOk result IsSoundCheck }
{
    let mut check = ModelCheck::new(alloc, 2)?;
    for event in events {
        done(alloc, &mut check, *event)?;
    }
    Ok(check)
}

fn done(alloc: Global, check: &mut ModelCheck, request: ModelRequest) -> Result<(), Fail>
    requires { IsSoundCheck check.old }
    ensures { IsSoundCheck check.new }
{
    match check.serve(alloc, request) {
        ModelReply::Done => Ok(()),
        _ => Err("the request isn't done".into()),
    }
}

// The verdict on a history, and how many steps were asked for; the check goes on by one step at a
// time.
fn judged(alloc: Global, check: &mut ModelCheck) -> Result<(bool, u64), Fail>
    requires { IsSoundCheck check.old }
    ensures { IsSoundCheck check.new }
{
    let mut asks = 0u64;
    for _rounds in 0..1_000 {
        match check.serve(alloc, ModelRequest::GoOn(1)) {
            ModelReply::Said(ModelAnswer::Legal) => return Ok((true, asks)),
            ModelReply::Said(ModelAnswer::Illegal) => return Ok((false, asks)),
            ModelReply::Said(ModelAnswer::Ask(state, op)) => {
                done(alloc, check, ModelRequest::Tell(lock_step(state, op)))?;
                asks = asks.saturating_add(1);
            }
            ModelReply::Said(ModelAnswer::Paused) => {}
            _ => return Err("a refusal".into()),
        }
    }
    Err("no verdict".into())
}

fn is_legal(alloc: Global, events: &[ModelRequest]) -> Result<bool, Fail> {
    let mut check = check_of(alloc, events)?;
    Ok(judged(alloc, &mut check)?.0)
}

use ModelRequest::{Begin, End, GoOn, Leaves, Tell};

#[test]
fn calls_that_overlap_have_either_order(rt: HostRuntime) -> Result<(), Fail> {
    let alloc = rt.alloc();
    let overlapping = [
        Begin(0, ACQUIRE),
        Begin(1, ACQUIRE),
        End(0, NO),
        End(1, YES),
    ];
    assert!(rt; is_legal(alloc, &overlapping)?);
    let one_after_the_other = [
        Begin(0, ACQUIRE),
        End(0, NO),
        Begin(1, ACQUIRE),
        End(1, YES),
    ];
    assert!(rt; !is_legal(alloc, &one_after_the_other)?);
    Ok(())
}

#[test]
fn a_call_without_an_end_may_have_taken_effect(rt: HostRuntime) -> Result<(), Fail> {
    let alloc = rt.alloc();
    for reply in [NO, YES] {
        let released = [
            Begin(0, ACQUIRE),
            End(0, YES),
            Begin(0, RELEASE),
            Begin(1, ACQUIRE),
            End(1, reply),
        ];
        assert!(rt; is_legal(alloc, &released)?);
    }
    Ok(())
}

#[test]
fn what_was_told_stays_when_more_calls_are_told(rt: HostRuntime) -> Result<(), Fail> {
    let alloc = rt.alloc();
    let mut check = check_of(alloc, &[Begin(0, ACQUIRE), End(0, YES)])?;
    assert_eq!(rt; judged(alloc, &mut check)?, (true, 1));
    assert!(rt; check.order.is_some());
    done(alloc, &mut check, Begin(1, ACQUIRE))?;
    assert!(rt; check.order.is_none(), "the order is of the history before");
    done(alloc, &mut check, End(1, YES))?;
    // Acquiring the free lock isn't asked for again, and acquiring the held lock is.
    assert_eq!(rt; judged(alloc, &mut check)?, (false, 1));
    Ok(())
}

#[test]
fn calls_of_one_caller_take_turns(rt: HostRuntime) -> Result<(), Fail> {
    let alloc = rt.alloc();
    let mut check = ModelCheck::new(alloc, 2)?;
    assert!(rt; matches!(check.serve(alloc, End(0, YES)), ModelReply::Unfit));
    assert!(rt; matches!(check.serve(alloc, Begin(2, ACQUIRE)), ModelReply::Unfit));
    done(alloc, &mut check, Begin(0, ACQUIRE))?;
    assert!(rt; matches!(check.serve(alloc, Begin(0, ACQUIRE)), ModelReply::Unfit));
    done(alloc, &mut check, End(0, YES))?;
    assert!(rt; matches!(check.serve(alloc, End(0, YES)), ModelReply::Unfit));
    Ok(())
}

#[test]
fn tells_that_break_what_was_told_are_refused(rt: HostRuntime) -> Result<(), Fail> {
    let alloc = rt.alloc();
    let mut check = ModelCheck::new(alloc, 1)?;
    let step = |next, reply| ModelStep {
        state: 0,
        op: ACQUIRE,
        next,
        reply,
    };
    done(alloc, &mut check, Tell(step(1, YES)))?;
    done(alloc, &mut check, Tell(step(1, YES)))?;
    assert!(rt;
        matches!(
            check.serve(alloc, Tell(step(1, NO))),
            ModelReply::Contradicts
        )
    );
    assert!(rt;
        matches!(
            check.serve(alloc, Leaves(ACQUIRE, YES)),
            ModelReply::LeavesNot
        )
    );
    done(alloc, &mut check, Leaves(RELEASE, NO))?;
    let broken = ModelStep {
        state: 0,
        op: RELEASE,
        next: 1,
        reply: NO,
    };
    assert!(rt; matches!(check.serve(alloc, Tell(broken)), ModelReply::LeavesNot));
    Ok(())
}

#[test]
fn no_steps_are_no_progress(rt: HostRuntime) -> Result<(), Fail> {
    let alloc = rt.alloc();
    let mut check = check_of(alloc, &[Begin(0, ACQUIRE), End(0, YES)])?;
    let paused = check.serve(alloc, GoOn(0));
    assert!(rt; matches!(paused, ModelReply::Said(ModelAnswer::Paused)));
    Ok(())
}
