//! Which calls a view holds, by the order of the events of a run.

ghost use Rattle.world_laws.specs.Views.{ViewsHoldEarlier, ViewsHoldNoLater};

/// The view of a call holds every call that was invoked before its own call returned, and none that
/// is invoked after the view was taken (Castañeda and Rodríguez 2023).
pub fn views_hold_calls_by_time()
    // The view of a call holds every call that was invoked before its own call returned.
    ensures earlier { ViewsHoldEarlier }
    // A view that a caller has holds no call that is invoked afterwards.
    ensures no_later { ViewsHoldNoLater }
{}
