ghost use Rattle.std.specs.Prelude.{◌≡◌, IfOk};

use book_base::{NoMemory, OpWord};
use drv_wrapper::ObjectPass;
use std::alloc::Global;

/// A pass, and the list of the calls that were made with it, each as its operation and its reply.
/// Memory for the list is taken when it is made.
#[derive(Debug, Drop)]
pub struct ListingPass<P> {
    pub(crate) pass: P,
    pub(crate) calls: Vec<(OpWord, u64)>,
}

impl<P> ListingPass<P> {
    ghost use Rattle.hunts.specs.Listing.{calls_of, pass_in};

    /// The calls that were made with the pass, in order, each as its operation and its reply.
    pub fn calls(&self) -> &[(OpWord, u64)]
        ensures { result.now ≡ calls_of self.now }
    {
        &self.calls
    }

    /// The pass whose calls are listed.
    pub fn pass(&self) -> &P
        ensures { result.now ≡ pass_in self.now }
    {
        &self.pass
    }
}

impl<P: ObjectPass + Drop> ListingPass<P> {
    ghost use Rattle.hunts.specs.Listing.{pass_in, IsEmptyListing};

    // The pass with an empty list, which has room for all its calls.
    pub(crate) fn new(alloc: Global, pass: P) -> Result<ListingPass<P>, NoMemory>
        ensures pass { IfOk result (λ listing. pass_in listing ≡ pass) }
        ensures empty { IfOk result (IsEmptyListing P.cap) }
    {
        let calls = Vec::with_capacity(alloc, pass.cap() as usize)?;
        Ok(ListingPass { pass, calls })
    }
}

impl<P: ObjectPass> ObjectPass for ListingPass<P> {
    ghost use Rattle.std.specs.Prelude.{Some};
    ghost use Rattle.hunts.specs.Listing.{calls_of, pass_in};

    ghost caller = { λ listing. P.caller (pass_in listing) };

    ghost made = { λ listing. P.made (pass_in listing) };

    ghost cap = { λ listing. P.cap (pass_in listing) };

    ghost told = { λ listing. Some (calls_of listing) };

    fn caller(&self) -> u32 {
        self.pass.caller()
    }

    fn made(&self) -> u64 {
        self.pass.made()
    }

    fn cap(&self) -> u64 {
        self.pass.cap()
    }
}
