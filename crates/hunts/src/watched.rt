//! An object whose calls are seen while they are under way.

ghost use Rattle.std.specs.Prelude.{IfOk};
ghost use Rattle.run_report.specs.Passes.{AreUnusedPasses};

use crate::underway::Underway;
use crate::{Maker, Noise};
use book_base::NoMemory;
use client_scripts::Script;
use drv_wrapper::{Announced, BlackBox, ObjectPass};
use std::alloc::Global;
use std::sync::atomic::{AtomicU64, Ordering};

/// An object that is called as ever, and whose calls are written down while they are under way.
#[derive(Drop)]
pub(crate) struct Watched<B> {
    object: B,
    run: u64,
    underway: Underway,
}

impl<B: BlackBox> BlackBox for Watched<B> {
    type Pass = B::Pass;

    ghost is_own = { λ watched. B.is_own watched.object };

    ghost tells_each = { λ watched. B.tells_each watched.object };

    fn call(&self, pass: &mut B::Pass, announced: &Announced) -> u64 {
        let caller = announced.caller();
        self.underway.begins(self.run, caller, announced.number());
        let reply = self.object.call(pass, announced);
        self.underway.returned(caller);
        reply
    }
}

/// Makes the objects that another maker makes, each of which writes its calls down.
#[derive(Drop)]
pub(crate) struct WatchedObjects<'a, M> {
    pub(crate) maker: &'a M,
    pub(crate) underway: &'a Underway,
    /// How many objects were made.
    pub(crate) made: AtomicU64,
}

impl<B: BlackBox, M: Maker<B>> Maker<Watched<B>> for WatchedObjects<'_, M> {
    fn open(
        &self,
        alloc: Global,
        script: &Script,
        noise: Noise,
    ) -> Result<(Watched<B>, Vec<B::Pass>), NoMemory> {
        let underway = self.underway.try_clone()?;
        let (object, passes) = self.maker.open(alloc, script, noise)?;
        let object = Watched {
            object,
            run: self.made.fetch_add(1, Ordering::SeqCst),
            underway,
        };
        Ok((object, passes))
    }
}
