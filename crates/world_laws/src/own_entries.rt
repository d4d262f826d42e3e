//! What the views, the seen cuts and the embedded cuts of a caller count of that caller itself, and
//! which of its scans gave them.

ghost use Rattle.world_laws.specs.Given.{ViewsAreGiven, SeenCutsAreGiven, EmbeddedCutsAreGiven, ViewsRise, SeenCutsRise};
ghost use Rattle.world_laws.specs.Own.{ViewsCountTheirCall, SeenCutsCountTheirCall, EmbeddedCutsCountTheirRow};

/// View `k` of a caller counts `k + 1` of the caller's own calls, seen cut `k` counts `k + 1` of
/// its own records, and the cut that its row `k` embeds counts `k` of its own rows. None of these
/// cuts counts more for a caller than that caller's own count (Afek and others 1993).
pub fn own_entries_are_numbers()
    // View k of a caller counts k + 1 of its own calls, and of each caller at most as many calls as
    // it has announced.
    ensures views { ViewsCountTheirCall }
    // Seen cut k of a caller counts k + 1 of its own records, and of each caller at most as many
    // records as it has published.
    ensures seen { SeenCutsCountTheirCall }
    // The cut that row k of a caller embeds in a region counts k of its own rows, and of each
    // caller at most as many rows as its count in that region.
    ensures embedded { EmbeddedCutsCountTheirRow }
{}

/// Each view and each seen cut of a caller, and each cut that its counted rows embed, was given by
/// a scan of this caller: a view by a scan of N, a seen cut by one of M, and the cut that a row
/// embeds in a region by one of that region.
pub fn kept_cuts_are_given()
    // Each view of a caller is a cut that a scan of N by this caller gave.
    ensures views { ViewsAreGiven }
    // Each seen cut of a caller is a cut that a scan of M by this caller gave.
    ensures seen { SeenCutsAreGiven }
    // The cut that a caller's counted row embeds in a region is a cut that a scan of this region by
    // this caller gave.
    ensures embedded { EmbeddedCutsAreGiven }
{}

/// A later view of a caller contains its earlier views, and a later seen cut its earlier seen cuts.
pub fn kept_cuts_rise()
    // A later view of a caller contains its earlier views.
    ensures views { ViewsRise }
    // A later seen cut of a caller contains its earlier seen cuts.
    ensures seen { SeenCutsRise }
{}
