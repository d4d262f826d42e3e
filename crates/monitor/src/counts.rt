//! What a script determines of its run before the run begins.

ghost use Rattle.std.specs.Prelude.{◌≡◌, ◌+◌, ◌≤◌, length};
ghost use Rattle.book_base.specs.declared.TheConstants.{MAX_CALLERS};
ghost use Rattle.monitor.specs.Monitoring.{most_rounds, published_for};

use book_base::Cut;
use client_scripts::{PHASES, Script};
use run_report::allotment_of;

/// How many rounds a monitor makes at the most: one for each call of a script, and one more.
pub(crate) fn most_rounds(script: &Script) -> u64
    ensures rounds { result ≡ most_rounds script.now }
{
    let mut calls = 0;
    for i in 0..script.callers() {
        calls += script.calls(i);
    }
    calls + 1
}

/// How many records each caller of a script publishes if it makes all phases that the script gives
/// it, and after these counts two of 0, for the two monitors.
pub(crate) fn published_counts(script: &Script) -> Cut
    requires { length script.now.operations + 2 ≤ MAX_CALLERS }
    ensures { result ≡ published_for script.now }
{
    let callers = script.callers();
    let mut counts = Cut::zero(callers + 2);
    for i in 0..callers {
        counts.set(i, (allotment_of(script, i) + 1) / PHASES);
    }
    counts
}
