ghost use Rattle.std.specs.Prelude.{◌≡◌, ℕ, ◌+◌, ◌<◌, ◌^◌, length, slice_index};
ghost use Rattle.world_core.specs.declared.region.Region.{Region};
ghost use Rattle.row_table.specs.Callers.{local_with, stance_of, IsCallerOf, IsStill, MayStage};
ghost use Rattle.row_table.specs.Staging.{staged_from, with_staged};

use crate::caller::Caller;
use crate::rows::Rows;
use world_core::{Program, Region};

// Stages these words in the caller's row under way in a region, the first at the place `first` and
// each further one at the next place.
pub fn stage_from<P: Program>(
    rows: &Rows<P>,
    caller: &mut Caller<P>,
    region: Region,
    first: u32,
    words: &[u64],
)
    requires caller { IsCallerOf P.meaning rows.now caller.old }
    requires due { (k : ℕ) → k < length words.now
        → MayStage P.meaning rows.now caller.old region (first + k) (slice_index words.now k) }
    requires few { first + length words.now < 2 ^ 32 }
    ensures caller { IsStill P.meaning rows.now caller.old caller.new }
    ensures staged { local_with caller.new ≡ with_staged (local_with caller.old)
        (staged_from first words.now (local_with caller.old).staged) }
    ensures stance { stance_of caller.new ≡ stance_of caller.old }
{
    for k in 0..words.len() {
        rows.stage(caller, region, first + k as u32, words[k]);
    }
}
