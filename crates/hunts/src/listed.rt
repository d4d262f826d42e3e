ghost use Rattle.std.specs.Prelude.{◌≡◌, map, All, IfOk};
ghost use Rattle.run_report.specs.Passes.{AreUnusedPasses};
ghost use Rattle.hunts.specs.Listing.{pass_in, IsEmptyListing};

use crate::listing_pass::ListingPass;
use book_base::NoMemory;
use client_scripts::Script;
use drv_wrapper::{Announced, BlackBox, ObjectPass};
use std::alloc::Global;

/// An object under test whose passes list what it was asked and what it answered. Each pass of a
/// run lists just the calls of its caller's lines in the run's report.
#[derive(Debug, Drop)]
pub struct Listed<B> {
    object: B,
}

impl<B: BlackBox> Listed<B> {
    ghost use Rattle.hunts.specs.Listing.{object_in, IsListing};

    /// The object with a list for each of its passes, which are those of a script's callers.
    pub fn new(
        alloc: Global,
        object: B,
        passes: Vec<B::Pass>,
        script: &Script,
    ) -> Result<(Listed<B>, Vec<ListingPass<B::Pass>>), NoMemory>
    where
        B: Drop,
        B::Pass: Drop,
        // There is an unused pass of the object for each caller of the script, in order, with which
        // one call may be made for each operation of its caller.
        requires passes { AreUnusedPasses (B.is_own object) B.Pass.caller B.Pass.made B.Pass.cap
            script.now.operations passes.items }
        // The answer has this object.
        ensures object { IfOk result (λ r. object_in r.0 ≡ object) }
        // There is a pass that lists its calls for each caller of the script, in order, just as
        // unused, and its list is empty.
        ensures unused { IfOk result (λ r. AreUnusedPasses
            (IsListing (B.is_own (object_in r.0)) B.Pass.made B.Pass.cap)
            ⟦<ListingPass<B::Pass> as ObjectPass>⟧.caller
            ⟦<ListingPass<B::Pass> as ObjectPass>⟧.made ⟦<ListingPass<B::Pass> as ObjectPass>⟧.cap
            script.now.operations r.1.items) }
    {
        let listing = listing_all(alloc, passes)?;
        Ok((Listed { object }, listing))
    }

    /// The object itself.
    pub fn object(&self) -> &B
        ensures { result.now ≡ object_in self.now }
    {
        &self.object
    }
}

// Each of the passes with an empty list, in order.
fn listing_all<P: ObjectPass + Drop>(
    alloc: Global,
    passes: Vec<P>,
) -> Result<Vec<ListingPass<P>>, NoMemory>
    ensures passes { IfOk result (λ listing. map pass_in listing.items ≡ passes.items) }
    ensures empty { IfOk result (λ listing. All (IsEmptyListing P.cap) listing.items) }
{
    let mut listing = Vec::with_capacity(alloc, passes.len())?;
    let mut rest = passes.into_iter();
    while let Some(pass) = rest.next() {
        listing.push(ListingPass::new(alloc, pass)?)?;
    }
    Ok(listing)
}

impl<B: BlackBox> BlackBox for Listed<B> {
    ghost use Rattle.hunts.specs.Listing.{object_in, IsListing, lists_each};

    type Pass = ListingPass<B::Pass>;

    ghost is_own = { λ listed. IsListing (B.is_own (object_in listed)) B.Pass.made B.Pass.cap };

    ghost tells_each = { λ listed pass pairs own told. lists_each (B.is_own (object_in listed))
        B.Pass.made B.Pass.cap pass pairs own told };

    fn call(&self, pass: &mut ListingPass<B::Pass>, announced: &Announced) -> u64 {
        let reply = self.object.call(&mut pass.pass, announced);
        pass.calls.push_reserved((announced.op(), reply));
        reply
    }
}
