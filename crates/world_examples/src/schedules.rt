//! Worked schedules: what the definitions of the world say of runs that are written out.

ghost use Rattle.std.specs.Prelude.{◌≡◌, ◌-◌, ◌^◌, ◌*◌, true, false, [], ◌∷◌, ◌++◌, IsTrue, Some, None, take, drop, length};
ghost use Rattle.world_core.specs.declared.region.Region.TheVariants.{N, M};
ghost use Rattle.world_core.specs.declared.want.Want.TheVariants.{Look as Wants_look, Peek as Wants_peek, Done};
ghost use Rattle.world_core.specs.Layout.{Low, High, Reply, View_entry, Embedded_entry, content, places, count_index, row_index, row_words, row_width, place_index, object_index, embedded_place};
ghost use Rattle.world_core.specs.Shape.{words_of};
ghost use Rattle.world_core.specs.Programs.{outside, scrap};
ghost use Rattle.world_core.specs.Scan.{wanted, looks, peeks};
ghost use Rattle.world_core.specs.Local.{Announcing, Asking, Viewing, Publishing, Judging, IsIdle};
ghost use Rattle.world_core.specs.Event.{Stage, Announce, Object, Look, Peek, Publish, Begins_view, is_enabled};
ghost use Rattle.world_core.specs.World.{IsRun, end_of, object_word};
ghost use Rattle.world_core.specs.Snapshot.{GivesCut, IsInstantaneous, through_last};
ghost use Rattle.world_core.specs.History.{history_of, call_of, Invoked, Returned, IsLinearizable};
ghost use Rattle.world_core.specs.Calls.{calls_in, Has_seen, Is_announced};
ghost use Rattle.world_examples.specs.Schedules.{pair, by, local_at, local_after_all, phases_at, allows, refuses, allows_in, refuses_in, two_calls, view_span, scans_given_up, scan_for_nothing, reply_carried, published_in_a_scan, scanned_twice, scanned_late, trio, three_collects, moved_twice, borrowing, borrowing_span, span_beside_stages, borrowed_words, single, scan_alone, span_after_announcement, given_alone, scrap_pair, object_step, object_steps_made, tenfold, silent};
ghost use Rattle.world_examples.specs.Histories.{numbering, one_after_another, side_by_side, reply_of_another, after_unanswered, without_unanswered};
ghost use Rattle.world_examples.specs.Refusals.{allowed_at_start, refused_at_start, scanned, allowed_as_scanned, refused_as_scanned, scanned_other, staged_three_of_N, asked, allowed_as_asked, refused_as_asked, viewing, allowed_as_viewing, refused_as_viewing, viewed, refused_as_viewed, ready, allowed_as_ready, refused_as_ready, staged_four, refused_as_staged_four, staged_five, looked, allowed_as_looked, refused_as_looked, reply_peeked, entry_peeked, refused_as_entry_peeked, looked_in_N, looked_in_M, cut_of_N, cut_of_M, view_peeked, announcement_peeked, embedded_peeked, looked_past, staged_early, narrow, asking, viewing_local};

/// The indices of the words of the table, worked out, most of them for two callers with a cap of 4.
pub fn words_lie_by_numbers()
    // Two callers with a cap of 4 have 76 words of counts and rows.
    ensures few { row_words 2 4 ≡ 76 }
    // 16 callers with a cap of 256 have 208928 words of counts and rows.
    ensures many { row_words 16 256 ≡ 208928 }
    // Two callers with a cap of 4 and one object word have 77 words.
    ensures with_objects { words_of (record { callers = 2; cap = 4; program = scrap }) ≡ 77 }
    // The first object word of two callers with a cap of 4 is word 76.
    ensures object { object_index 2 4 0 ≡ 76 }
    // A row of two callers has nine words.
    ensures width { row_width 2 ≡ 9 }
    // With two callers the count of caller 1 in N is word 1.
    ensures count_of_N { count_index 2 N 1 ≡ 1 }
    // With two callers the count of caller 1 in M is word 3.
    ensures count_of_M { count_index 2 M 1 ≡ 3 }
    // With two callers and a cap of 4 the first row of caller 1 begins at word 40.
    ensures second_caller { row_index 2 4 1 0 ≡ 40 }
    // With two callers and a cap of 4 the second row of caller 0 begins at word 13.
    ensures second_row { row_index 2 4 0 1 ≡ 13 }
    // With two callers and a cap of 4 the last place in N of the first row of caller 1 is word 43.
    ensures last_of_N { place_index 2 4 N 1 0 3 ≡ 43 }
    // With two callers and a cap of 4 the reply in the first row of caller 1 is word 44.
    ensures reply { place_index 2 4 M 1 0 0 ≡ 44 }
    // With two callers and a cap of 4 the last place in M of the last row of caller 1 is word 75.
    ensures last_of_M { place_index 2 4 M 1 3 4 ≡ 75 }
{}

/// What the places of a row of two callers are for.
pub fn places_have_contents()
    // A row of two callers has four places in N.
    ensures of_N { places 2 N ≡ 4 }
    // A row of two callers has five places in M.
    ensures of_M { places 2 M ≡ 5 }
    // Place 0 in N is for the low word of the operation.
    ensures low { content 2 N 0 ≡ Low }
    // Place 1 in N is for the high word of the operation.
    ensures high { content 2 N 1 ≡ High }
    // Place 3 in N is for the embedded cut's entry for caller 1.
    ensures embedded_in_N { content 2 N 3 ≡ Embedded_entry N 1 }
    // Place 0 in M is for the reply.
    ensures reply { content 2 M 0 ≡ Reply }
    // Place 2 in M is for the view's entry for caller 1.
    ensures view { content 2 M 2 ≡ View_entry 1 }
    // With two callers place 3 in M is for the embedded cut's entry for caller 0.
    ensures embedded_in_M { content 2 M 3 ≡ Embedded_entry M 0 }
    // The entry for caller 1 of the cut that a row embeds in N is at place 3.
    ensures place_in_N { embedded_place 2 N 1 ≡ 3 }
    // With two callers the entry for caller 0 of the cut that a row embeds in M is at place 3.
    ensures place_in_M { embedded_place 2 M 0 ≡ 3 }
{}

/// Two callers make one whole call each, through all five phases.
pub fn two_whole_calls()
    // The steps of the two whole calls are a run.
    ensures run { IsRun pair two_calls }
    // Caller 0 passes through the five phases in order, and is in the phase announce at the end.
    ensures first_phases { phases_at two_calls 0
        (0 ∷ 1 ∷ 8 ∷ 9 ∷ 10 ∷ 23 ∷ 24 ∷ 35 ∷ 36 ∷ 39 ∷ 40 ∷ [])
        ≡ Announcing ∷ Announcing ∷ Announcing ∷ Asking ∷ Viewing ∷ Viewing ∷ Publishing
        ∷ Publishing ∷ Judging ∷ Judging ∷ Announcing ∷ [] }
    // Caller 1 passes through the five phases in order, and is in the phase announce at the end.
    ensures second_phases { phases_at two_calls 1 (19 ∷ 20 ∷ 25 ∷ 42 ∷ 52 ∷ 56 ∷ [])
        ≡ Announcing ∷ Asking ∷ Viewing ∷ Publishing ∷ Judging ∷ Announcing ∷ [] }
    // The words of the table at the end are the four counts and both rows.
    ensures words { (end_of pair two_calls).words ≡ 1 ∷ 1 ∷ 1 ∷ 1 ∷ 5 ∷ 0 ∷ 0 ∷ 0 ∷ 50 ∷ 1 ∷ 1 ∷ 0
        ∷ 0 ∷ 6 ∷ 0 ∷ 1 ∷ 0 ∷ 60 ∷ 1 ∷ 1 ∷ 1 ∷ 0 ∷ [] }

    // The scan of the first caller's view gives the cut 1 1 in its span; the caller had looked at
    // four counts before this scan.
    ensures first_scan { GivesCut pair 0
        (record { region = N; cut = 1 ∷ 1 ∷ []; since = 4 }) view_span }
    // After the two whole calls caller 0 has one call, with its record and its seen cut 1 0.
    ensures first_calls { calls_in (local_at two_calls 0) ≡ record {
      operation = 5;
      reached = Has_seen (record { reply = 50; view = 1 ∷ 1 ∷ [] }) (1 ∷ 0 ∷ []);
    } ∷ [] }
    // After the two whole calls caller 1 has one call, with its record and its seen cut 1 1.
    ensures second_calls { calls_in (local_at two_calls 1) ≡ record {
      operation = 6;
      reached = Has_seen (record { reply = 60; view = 1 ∷ 1 ∷ [] }) (1 ∷ 1 ∷ []);
    } ∷ [] }
    // After the two whole calls caller 0 is idle.
    ensures first_idle { IsIdle (local_at two_calls 0) }
    // After the two whole calls caller 1 is idle.
    ensures second_idle { IsIdle (local_at two_calls 1) }
    // A caller that has staged a word isn't idle.
    ensures staged_is_busy { ¬ IsIdle (local_at (take 5 two_calls) 0) }
    // A caller in the phase ask isn't idle.
    ensures asking_is_busy { ¬ IsIdle (local_at (take 9 two_calls) 0) }

    // The history has the invocation and the return of the first caller's call, and then those of
    // the second caller's.
    ensures history { history_of pair two_calls ≡ Invoked (call_of 0 0) 5
        ∷ Returned (call_of 0 0) 50 ∷ Invoked (call_of 1 0) 6 ∷ Returned (call_of 1 0) 60 ∷ [] }
{}

/// A scan is given up by a new scan, by an announcement and by a publication, and it takes no word
/// of a look that it doesn't need. The look that begins a scan is noted as a look too.
pub fn scans_are_given_up()
    // The steps in which a new scan and an announcement give up scans are a run.
    ensures run { IsRun pair scans_given_up }
    // After two looks in M, of which the first began a scan, the scan has taken two words.
    ensures begun { (local_at (take 2 scans_given_up) 0).scan
        ≡ Some (record { region = M; is_view = false; since = 0; taken = 0 ∷ 0 ∷ [] }) }
    // A look that begins a scan of N gives up the scan of M that was under way.
    ensures by_a_scan { (local_at (take 3 scans_given_up) 0).scan
        ≡ Some (record { region = N; is_view = false; since = 2; taken = 0 ∷ [] }) }
    // The look that begins a scan is among the counts that were looked at.
    ensures looked { (local_at (take 3 scans_given_up) 0).looked
        ≡ record { region = N; caller = 0; count = 0 }
        ∷ record { region = M; caller = 1; count = 0 }
        ∷ record { region = M; caller = 0; count = 0 } ∷ [] }
    // A scan of N doesn't take the word of a look in M.
    ensures unwanted { (local_at (take 4 scans_given_up) 0).scan
        ≡ Some (record { region = N; is_view = false; since = 2; taken = 0 ∷ [] }) }
    // A scan ends at its last look: right after it no scan is under way.
    ensures ended { (local_at (take 7 scans_given_up) 0).scan ≡ None }
    // Of two scans the one that ended has given its cut, and the one given up has given none.
    ensures cut { (local_at (take 7 scans_given_up) 0).cuts
        ≡ record { region = N; cut = 0 ∷ 0 ∷ []; since = 2 } ∷ [] }
    // The cut of a scan of N in the phase announce is the one to embed.
    ensures to_embed { (local_at (take 7 scans_given_up) 0).to_embed ≡ Some (0 ∷ 0 ∷ []) }
    // A caller's stages between the looks of its scan don't change the scan.
    ensures beside_stages { (local_at (take 13 scans_given_up) 0).scan
        ≡ Some (record { region = N; is_view = false; since = 7; taken = 0 ∷ 0 ∷ [] }) }
    // Right after an announcement the caller has no scan under way.
    ensures by_an_announcement { (local_at scans_given_up 0).scan ≡ None }
    // The scan that an announcement gave up has given no cut: the caller was given one cut in all.
    ensures no_further_cut { length (local_at scans_given_up 0).cuts ≡ 1 }
    // The row that an announcement counts embeds the cut that was to be embedded right before.
    ensures embedded { (local_at scans_given_up 0).embedded_in_N ≡ (0 ∷ 0 ∷ []) ∷ [] }
    // After an announcement there is no cut to embed.
    ensures embeds_no_more { (local_at scans_given_up 0).to_embed ≡ None }
    // The steps in which a publication gives up a scan are a run.
    ensures publishing_run { IsRun pair (scans_given_up ++ reply_carried ++ published_in_a_scan) }
    // Right before the publication a scan of M is under way.
    ensures before_a_publication { (local_at
        (scans_given_up ++ reply_carried ++ take 14 published_in_a_scan) 0).scan
        ≡ Some (record { region = M; is_view = false; since = 18; taken = 0 ∷ 0 ∷ [] }) }
    // After a publication the caller has no scan under way.
    ensures by_a_publication { (local_at (scans_given_up ++ reply_carried ++ published_in_a_scan)
        0).scan ≡ None }
    // The row that a publication counts embeds in M the cut that was to be embedded right before.
    ensures embedded_in_M { (local_at (scans_given_up ++ reply_carried ++ published_in_a_scan)
        0).embedded_in_M ≡ (0 ∷ 0 ∷ []) ∷ [] }
    // After a publication there is no cut to embed.
    ensures embeds_no_more_in_M { (local_at (scans_given_up ++ reply_carried ++ published_in_a_scan)
        0).to_embed ≡ None }
{}

/// The look that begins the view's scan carries the object's reply. A scan that begins in the phase
/// ask without the reply gives a cut that becomes neither the view nor a cut to embed.
pub fn a_look_carries_the_reply()
    // The steps of a scan without the reply, and then of a look that carries the reply, are a run.
    ensures run { IsRun pair (scans_given_up ++ scan_for_nothing ++ reply_carried) }
    // A scan in the phase ask without the reply gives its cut like any other.
    ensures cuts { (local_at (scans_given_up ++ scan_for_nothing) 0).cuts
        ≡ record { region = N; cut = 0 ∷ 0 ∷ []; since = 2 }
        ∷ record { region = N; cut = 1 ∷ 0 ∷ []; since = 10 } ∷ [] }
    // The cut of a scan in the phase ask without the reply is no view.
    ensures no_view { (local_at (scans_given_up ++ scan_for_nothing) 0).views ≡ [] }
    // The cut of a scan of N in the phase ask isn't to be embedded.
    ensures none_to_embed { (local_at (scans_given_up ++ scan_for_nothing) 0).to_embed ≡ None }
    // After a scan without the reply the caller is still in the phase ask.
    ensures still_asking { (local_at (scans_given_up ++ scan_for_nothing) 0).phase ≡ Asking }
    // A look that carries a reply adds it to the caller's replies.
    ensures reply { (local_at (scans_given_up ++ scan_for_nothing ++ reply_carried) 0).replies
        ≡ 50 ∷ [] }
    // A look that carries a reply begins the phase view.
    ensures viewing { (local_at (scans_given_up ++ scan_for_nothing ++ reply_carried) 0).phase
        ≡ Viewing }
    // A look that carries a reply begins the view's scan.
    ensures scan { (local_at (scans_given_up ++ scan_for_nothing ++ reply_carried) 0).scan
        ≡ Some (record { region = N; is_view = true; since = 14; taken = 1 ∷ [] }) }
    // The call returns at the look that carries its reply.
    ensures history { history_of pair (scans_given_up ++ scan_for_nothing ++ reply_carried)
        ≡ Invoked (call_of 0 0) 5 ∷ Returned (call_of 0 0) 50 ∷ [] }
{}

/// The row under way in N embeds the cut of the last scan of N that ended in the phase announce
/// before a word of the row was staged.
pub fn the_last_cut_before_a_stage_is_embedded()
    // The steps of two scans of N, with no stage before the second, are a run.
    ensures twice { IsRun pair scanned_twice }
    // Of the cuts of two scans of N before any stage the later one is to be embedded.
    ensures later { (local_at scanned_twice 0).to_embed ≡ Some (0 ∷ 1 ∷ []) }
    // The steps of two scans of N, with a stage before the second, are a run.
    ensures late { IsRun pair scanned_late }
    // Of the cuts of two scans of N, with a stage before the second, the earlier one is to be
    // embedded.
    ensures earlier { (local_at scanned_late 0).to_embed ≡ Some (0 ∷ 0 ∷ []) }
    // The scan before the stage and the scan after it have both given their cuts.
    ensures given { length (local_at scanned_late 0).cuts ≡ 2 }
    // The cut of a scan of M isn't to be embedded in the phase announce.
    ensures other_region { (local_at scanned_other 0).to_embed ≡ None }
{}

/// Where a stage is enabled: for one of the callers, in a phase that stages the region, in a row
/// below the cap, at a place of the region, with a word that belongs there.
pub fn stages_are_conditional()
    // At the start each caller may stage words of its operation, and look at counts.
    ensures start { IsTrue (allows [] allowed_at_start) }
    // At the start none of the listed steps is enabled: a stage of a third caller, at a fifth
    // place, of an entry without a cut, of a number that is no word, or in M; an announcement; a
    // publication; a look at a third caller or with a count that the table doesn't have; a look
    // that begins a scan at caller 1, or the view's scan; and a peek.
    ensures refused_at_start { IsTrue (refuses [] refused_at_start) }
    // After a scan of N in the phase announce the entries of its cut may be staged.
    ensures scanned { IsTrue (allows scanned allowed_as_scanned) }
    // After a scan of N that gave the cut 0 0 neither the entry 1 nor an entry for a third caller
    // may be staged.
    ensures refused_as_scanned { IsTrue (refuses scanned refused_as_scanned) }
    // After a scan of M in the phase announce, and no scan of N, the entry 0 for caller 0 may not
    // be staged in N.
    ensures scanned_other { IsTrue (refuses scanned_other (by 0 (Stage N 2 0) ∷ [])) }
    // With a view and without a cut of M a caller may neither stage an entry of an embedded cut in
    // M, nor a word of N.
    ensures refused_as_viewed { IsTrue (refuses viewed refused_as_viewed) }
    // With a view and a cut of M a caller may stage its reply, the view's entries and the cut's
    // entries in M.
    ensures ready { IsTrue (allows ready allowed_as_ready) }
    // With a view and a cut of M a caller may stage neither another reply or entry in M, nor a word
    // at a sixth place.
    ensures refused_as_ready { IsTrue (refuses ready refused_as_ready) }
    // After its one call a caller with one row may not stage a word of another operation.
    ensures no_row { IsTrue (refuses two_calls (by 0 (Stage N 0 7) ∷ [])) }
{}

/// Where an announcement and a publication are enabled: each in its phase, with a word staged at
/// each place of the row.
pub fn counts_rise_over_whole_rows()
    // A caller with no staged word may not announce.
    ensures unstaged { IsTrue (refuses [] (by 0 Announce ∷ [])) }
    // A caller with three of the four places of N staged may not announce.
    ensures lacking_in_N { IsTrue (refuses staged_three_of_N (by 0 Announce ∷ [])) }
    // A caller with all places of N staged may announce.
    ensures whole_in_N { IsTrue
        (allows (staged_three_of_N ++ by 0 (Stage N 3 0) ∷ []) (by 0 Announce ∷ [])) }
    // A caller with four of the five places of M staged may neither publish nor announce.
    ensures lacking_in_M { IsTrue (refuses staged_four refused_as_staged_four) }
    // A caller with all places of M staged may publish.
    ensures whole_in_M { IsTrue (allows staged_five (by 0 Publish ∷ [])) }
    // A caller in the phase announce may not publish, though as many places are staged as a row has
    // in M.
    ensures early { is_enabled pair 0 staged_early Publish ≡ false }
    // A caller in the phase announce with each place of N staged may announce.
    ensures in_time { is_enabled pair 0 staged_early Announce ≡ true }
{}

/// Where a look is enabled: at a caller's count, with the word that the table has; where it begins
/// a scan, at the first caller, and while the view's scan isn't under way; and where it begins the
/// view's scan, at the first caller, in N, in the phase ask, with a reply that is a word and that
/// the program allows.
pub fn looks_are_conditional()
    // A caller in the phase ask may begin the view's scan with a reply that is a word, or a scan of
    // N or M that isn't the view's.
    ensures asked { IsTrue (allows asked allowed_as_asked) }
    // A caller in the phase ask may not begin the view's scan in M, at caller 1 or with a reply
    // that is no word; it may not stage; and where there are no object words it may make no object
    // step.
    ensures refused_as_asked { IsTrue (refuses asked refused_as_asked) }
    // A caller in the phase view may look at counts of N and M, and peek a row that it knows of.
    ensures viewing { IsTrue (allows viewing allowed_as_viewing) }
    // A caller in the phase view may begin no scan, neither the view's nor another.
    ensures refused_as_viewing { IsTrue (refuses viewing refused_as_viewing) }
{}

/// Where a peek is enabled: at a place of a row that the caller knows to be counted, with the word
/// that the table has.
pub fn peeks_are_conditional()
    // A caller that found 1 as another caller's count in N may peek places of that caller's first
    // row in N.
    ensures by_look { IsTrue (allows looked allowed_as_looked) }
    // A caller that found 1 as another caller's count in N may peek neither that caller's second
    // row, nor a row of its own or of M, nor at a fifth place, nor with a word that the table
    // doesn't have.
    ensures refused_as_looked { IsTrue (refuses looked refused_as_looked) }
    // A caller that peeked the reply of a record, and no entry of its view, may not peek a row of N
    // that only the view counts.
    ensures before_view { IsTrue (refuses reply_peeked (by 1 (Peek N 0 0 0 5) ∷ [])) }
    // A caller that peeked the entry for caller 0 of a view may peek a row of caller 0 in N whose
    // number is below this entry.
    ensures by_view { IsTrue (allows entry_peeked (by 1 (Peek N 0 0 0 5) ∷ [])) }
    // A caller that peeked the entry for caller 0 of a view may peek neither a row of N whose
    // number isn't below this entry, nor a row of another caller.
    ensures refused_by_view { IsTrue (refuses entry_peeked refused_as_entry_peeked) }
    // A caller may not peek a row of a caller that the world doesn't have.
    ensures no_caller { is_enabled pair 0 looked_past (Peek N 2 0 0 0) ≡ false }
{}

/// From what a caller knows that a row is counted: from a count that it looked at and from a cut
/// that a scan gave it, each of the row's own region, and in N from an entry of a view that it
/// peeked.
pub fn rows_are_known()
    // A caller that found the count 1 of caller 0 in N may peek the first row of caller 0 in N.
    ensures count_of_N { is_enabled pair 1 looked_in_N (Peek N 0 0 0 5) ≡ true }
    // A caller that found only the count 1 of caller 0 in N may not peek the second row of caller 0
    // in N.
    ensures count_of_N_beyond { is_enabled pair 1 looked_in_N (Peek N 0 1 0 5) ≡ false }
    // A caller that found only the count 1 of caller 0 in N may not peek a row of caller 1.
    ensures count_of_N_beside { is_enabled pair 1 looked_in_N (Peek N 1 0 0 5) ≡ false }
    // A caller that found only a count of N may not peek a row of M.
    ensures count_of_N_alone { is_enabled pair 1 looked_in_N (Peek M 0 0 0 5) ≡ false }
    // A caller that found the count 1 of caller 0 in M may peek the first row of caller 0 in M.
    ensures count_of_M { is_enabled pair 1 looked_in_M (Peek M 0 0 0 5) ≡ true }
    // A caller that found only a count of M may not peek a row of N.
    ensures count_of_M_alone { is_enabled pair 1 looked_in_M (Peek N 0 0 0 5) ≡ false }
    // A caller that was given the cut 1 0 by a scan of N may peek the first row of caller 0 in N.
    ensures cut_of_N { is_enabled pair 1 cut_of_N (Peek N 0 0 0 5) ≡ true }
    // A caller that was given only the cut 1 0 of N may not peek the second row of caller 0 in N.
    ensures cut_of_N_beyond { is_enabled pair 1 cut_of_N (Peek N 0 1 0 5) ≡ false }
    // A caller that was given only the cut 1 0 of N may not peek a row of caller 1 in N.
    ensures cut_of_N_beside { is_enabled pair 1 cut_of_N (Peek N 1 0 0 5) ≡ false }
    // A caller that was given only a cut of N may not peek a row of M.
    ensures cut_of_N_alone { is_enabled pair 1 cut_of_N (Peek M 0 0 0 5) ≡ false }
    // A caller that was given the cut 1 0 by a scan of M may peek the first row of caller 0 in M.
    ensures cut_of_M { is_enabled pair 1 cut_of_M (Peek M 0 0 0 5) ≡ true }
    // A caller that was given only a cut of M may not peek a row of N.
    ensures cut_of_M_alone { is_enabled pair 1 cut_of_M (Peek N 0 0 0 5) ≡ false }
    // A caller that peeked the entry 1 for caller 0 of a view may peek the first row of caller 0 in
    // N.
    ensures view { is_enabled pair 1 view_peeked (Peek N 0 0 0 5) ≡ true }
    // A caller that peeked only the entry 1 for caller 0 of a view may not peek the second row of
    // caller 0.
    ensures view_beyond { is_enabled pair 1 view_peeked (Peek N 0 1 0 5) ≡ false }
    // A caller that peeked only the entry for caller 0 of a view may not peek a row of caller 1.
    ensures view_beside { is_enabled pair 1 view_peeked (Peek N 1 0 0 5) ≡ false }
    // A caller that peeked only an entry of a view may not peek a row of M.
    ensures view_of_announcements { is_enabled pair 1 view_peeked (Peek M 0 0 0 5) ≡ false }
    // A caller that peeked only a word of an operation may not peek the first row of caller 0 in N.
    ensures announcement { is_enabled pair 1 announcement_peeked (Peek N 0 0 0 5) ≡ false }
    // A caller that peeked only the entry 1 for caller 0 of a cut embedded in M may not peek the
    // first row of caller 0 in N.
    ensures embedded { is_enabled pair 1 embedded_peeked (Peek N 0 0 0 5) ≡ false }
    // A caller that peeked only the entry 1 for caller 0 of a cut embedded in M may not peek the
    // first row of caller 0 in M.
    ensures embedded_in_M { is_enabled pair 1 embedded_peeked (Peek M 0 0 0 5) ≡ false }
{}

/// What a scan needs next after the words that it has taken.
pub fn scans_want()
    // A scan that has taken no word needs the look at caller 0.
    ensures first { wanted 2 [] ≡ Wants_look 0 }
    // A scan of two callers that has taken one word needs the look at caller 1.
    ensures second { wanted 2 (0 ∷ []) ≡ Wants_look 1 }
    // A scan that has made one collect needs a second one, and first the look at caller 0.
    ensures one_collect { wanted 2 (0 ∷ 0 ∷ []) ≡ Wants_look 0 }
    // A scan that has made two equal collects is done with what each of them found.
    ensures equal { wanted 2 (0 ∷ 0 ∷ 0 ∷ 0 ∷ []) ≡ Done (0 ∷ 0 ∷ []) }
    // A scan that has made two collects that differ needs a third one.
    ensures moved { wanted 2 (0 ∷ 0 ∷ 1 ∷ 0 ∷ []) ≡ Wants_look 0 }
    // A scan whose last two of three collects are equal is done with what each of them found.
    ensures equal_later { wanted 2 (0 ∷ 0 ∷ 1 ∷ 0 ∷ 1 ∷ 0 ∷ []) ≡ Done (1 ∷ 0 ∷ []) }
    // A scan whose third collect is equal to the first, and not to the second, isn't done.
    ensures back { wanted 2 (0 ∷ 0 ∷ 1 ∷ 0 ∷ 0 ∷ 0 ∷ []) ≡ Wants_look 0 }
    // A scan of one caller is done after two equal looks.
    ensures alone { wanted 1 (3 ∷ 3 ∷ []) ≡ Done (3 ∷ []) }
    // A scan of one caller that is done after two equal looks has made two looks.
    ensures looks_alone { looks 1 (3 ∷ 3 ∷ []) ≡ 2 }
    // A scan of one caller that is done after two equal looks has made no peek.
    ensures peeks_alone { peeks 1 (3 ∷ 3 ∷ []) ≡ 0 }
    // Where two callers have moved twice since the first collect, a scan needs the peek at the
    // first entry of the cut that the latest row of the one with the lower number embeds.
    ensures twice { wanted 3 (0 ∷ 0 ∷ 0 ∷ 2 ∷ 3 ∷ 0 ∷ []) ≡ Wants_peek 0 1 0 }
    // A scan borrows from caller 1 where since the first collect caller 0 has moved once, caller 1
    // three times and caller 2 twice.
    ensures least { wanted 3 (4 ∷ 0 ∷ 0 ∷ 5 ∷ 3 ∷ 2 ∷ []) ≡ Wants_peek 1 2 0 }
    // A scan borrows from a caller that has moved twice since the first collect, and once since the
    // collect before the latest.
    ensures since_the_first { wanted 2 (0 ∷ 0 ∷ 1 ∷ 0 ∷ 2 ∷ 0 ∷ []) ≡ Wants_peek 0 1 0 }
    // A scan that has taken the first entry of a borrowed cut needs the second.
    ensures equal_first { wanted 2 (0 ∷ 0 ∷ 1 ∷ 0 ∷ 2 ∷ 0 ∷ 7 ∷ []) ≡ Wants_peek 0 1 1 }
    // A scan that has taken all entries of a borrowed cut is done with this cut.
    ensures borrowed { wanted 2 (0 ∷ 0 ∷ 1 ∷ 0 ∷ 2 ∷ 0 ∷ 7 ∷ 8 ∷ []) ≡ Done (7 ∷ 8 ∷ []) }
{}

/// A scan of three callers finds that a caller has moved twice, and ends with the cut that this
/// caller's latest row embeds, after 12 looks and 3 peeks. The cut was the counts of its region at
/// a moment within the scan.
#[tactic(auto, using(crate::proofs::Moments::instantaneous_borrowed))]
pub fn a_cut_is_borrowed()
    // The steps of the run in which caller 2 borrows a cut are a run.
    ensures run { IsRun trio borrowing }
    // A scan of three callers that borrows after four collects needs the fourth after nine words.
    ensures fourth { wanted 3 (take 9 borrowed_words) ≡ Wants_look 0 }
    // A scan of three callers that borrows after four collects needs, after twelve words, the peek
    // at the first entry of the cut in the latest row of caller 0.
    ensures borrows { wanted 3 (take 12 borrowed_words) ≡ Wants_peek 0 1 0 }
    // A scan of three callers that borrows after four collects needs, after fourteen words, the
    // peek at the last entry of the cut in the latest row of caller 0.
    ensures last { wanted 3 (take 14 borrowed_words) ≡ Wants_peek 0 1 2 }
    // A scan of three callers that borrows after four collects is done after fifteen words, with
    // the borrowed cut 1 1 0.
    ensures done { wanted 3 borrowed_words ≡ Done (1 ∷ 1 ∷ 0 ∷ []) }
    // A scan of three callers that borrows after four collects has made twelve looks.
    ensures twelve_looks { looks 3 borrowed_words ≡ 12 }
    // A scan of three callers that borrows after four collects has made three peeks.
    ensures three_peeks { peeks 3 borrowed_words ≡ 3 }
    // The scan of caller 2 gives the borrowed cut 1 1 0 in its span.
    ensures gives { GivesCut trio 2
        (record { region = N; cut = 1 ∷ 1 ∷ 0 ∷ []; since = 0 }) borrowing_span }
    // The borrowed cut was the counts of N at one moment within the scan.
    ensures instantaneous { IsInstantaneous trio
        (record { region = N; cut = 1 ∷ 1 ∷ 0 ∷ []; since = 0 }) borrowing_span }
    // Caller 2 was given the borrowed cut, and no other one.
    ensures cuts { (local_after_all trio borrowing 2).cuts
        ≡ record { region = N; cut = 1 ∷ 1 ∷ 0 ∷ []; since = 0 } ∷ [] }
    // Since caller 2 is in the phase announce and has staged no word, the borrowed cut is the one
    // to embed.
    ensures to_embed { (local_after_all trio borrowing 2).to_embed ≡ Some (1 ∷ 1 ∷ 0 ∷ []) }
{}

/// A scan stays under way while its caller stages and peeks, and gives its cut. Since words of the
/// row were staged before the scan ended, the row doesn't embed that cut.
#[tactic(auto, using(crate::proofs::Moments::instantaneous_beside))]
pub fn a_scan_goes_on_beside_stages()
    // A scan between whose looks its caller peeks and stages gives its cut in its span.
    ensures gives { GivesCut pair 0
        (record { region = N; cut = 0 ∷ 1 ∷ []; since = 0 }) span_beside_stages }
    // The cut of a scan between whose looks its caller peeks and stages was the counts of N at one
    // moment within the scan.
    ensures instantaneous { IsInstantaneous pair
        (record { region = N; cut = 0 ∷ 1 ∷ []; since = 0 }) span_beside_stages }
    // The caller was given the cut of that scan, and no other one.
    ensures cuts { (local_after_all pair (through_last span_beside_stages) 0).cuts
        ≡ record { region = N; cut = 0 ∷ 1 ∷ []; since = 0 } ∷ [] }
    // The cut of a scan that ended after a stage isn't to be embedded.
    ensures none_to_embed { (local_after_all pair (through_last span_beside_stages) 0).to_embed
        ≡ None }
{}

/// A caller alone scans with two looks.
pub fn a_caller_alone_scans()
    // The two looks of a caller alone are a run.
    ensures run { IsRun single scan_alone }
    // A caller alone scans with two looks.
    ensures looks { length scan_alone ≡ 2 }
    // The caller alone was given the cut of its own count, which is 0.
    ensures cut { (local_after_all single scan_alone 0).cuts
        ≡ record { region = N; cut = 0 ∷ []; since = 0 } ∷ [] }
{}

/// A cut is instantaneous where it was the counts of its region at a moment within the scan. It
/// isn't where the region had these counts only before the scan, or only the other region had them.
#[tactic(auto, using(crate::proofs::Moments::instantaneous_alone, crate::proofs::Moments::not_before, crate::proofs::Moments::not_of_answers))]
pub fn moments_lie_within_scans()
    // The scan of N after the announcement gives the cut with the count 1 in its span.
    ensures gives { GivesCut single 0 (given_alone N 1) span_after_announcement }
    // The cut of N with the count 1 was the counts of N at one moment within the scan.
    ensures within { IsInstantaneous single (given_alone N 1) span_after_announcement }
    // The cut of N with the count 0 was the counts of N at no moment within the scan.
    ensures before { ¬ IsInstantaneous single (given_alone N 0) span_after_announcement }
    // The cut of M with the count 1 was the counts of M at no moment within the scan.
    ensures of_answers { ¬ IsInstantaneous single (given_alone M 1) span_after_announcement }
{}

/// Where an object step is enabled: in the phase ask, on an object word, with the old word that the
/// table has and a new one below 2^64, where the program allows the step. And the reply of the
/// view's scan is one that the program allows.
pub fn object_steps_are_conditional()
    // The announcements of two callers and their steps on an object word are a run.
    ensures run { IsRun scrap_pair object_steps_made }
    // The object word is 9 after three object steps of the two callers.
    ensures word { object_word scrap_pair (end_of scrap_pair object_steps_made) 0 ≡ 9 }
    // The first caller has made two object steps in its one call.
    ensures first_steps { (local_after_all scrap_pair object_steps_made 0).object_steps
        ≡ (object_step 0 0 3 ∷ object_step 0 3 6 ∷ []) ∷ [] }
    // The second caller has made one object step in its one call.
    ensures second_steps { (local_after_all scrap_pair object_steps_made 1).object_steps
        ≡ (object_step 0 6 9 ∷ []) ∷ [] }
    // An object step isn't enabled before the call is announced.
    ensures unasked { IsTrue (refuses_in scrap_pair [] (by 0 (Object (object_step 0 0 3)) ∷ [])) }
    // Where a program allows every step, a step in the phase ask with the old word that the table
    // has is enabled, be the word that it leaves 3 or the greatest one.
    ensures asked { IsTrue (allows_in scrap_pair asked
        (by 0 (Object (object_step 0 0 3)) ∷ by 0 (Object (object_step 0 0 (2 ^ 64 - 1))) ∷ [])) }
    // In the phase ask of caller 0 no object step is enabled that has another old word than the
    // table, that is on a second object word, that leaves what is no word, or that is of caller 1,
    // which hasn't announced.
    ensures refused { IsTrue (refuses_in scrap_pair asked
        (by 0 (Object (object_step 0 1 3)) ∷ by 0 (Object (object_step 1 0 3))
        ∷ by 0 (Object (object_step 0 0 (2 ^ 64))) ∷ by 1 (Object (object_step 0 0 3)) ∷ [])) }
    // An object step isn't enabled in the phase view.
    ensures viewed { IsTrue
        (refuses_in scrap_pair viewing (by 0 (Object (object_step 0 0 3)) ∷ [])) }
    // Where a program allows caller 1 alone to leave the word 7, caller 1 may leave 7 in the phase
    // ask.
    ensures step { is_enabled narrow 1 asking (Object (object_step 0 0 7)) ≡ true }
    // Where a program allows caller 1 alone to leave the word 7, caller 1 may not leave 8.
    ensures other_step { is_enabled narrow 1 asking (Object (object_step 0 0 8)) ≡ false }
    // Where a program allows caller 1 alone to leave the word 7, caller 0 may not leave 7.
    ensures others_step { is_enabled narrow 0 asking (Object (object_step 0 0 7)) ≡ false }
    // Where a program allows caller 1 alone to leave the word 7, caller 1 may not leave 7 in the
    // phase view.
    ensures step_in_view { is_enabled narrow 1 viewing_local (Object (object_step 0 0 7)) ≡ false }
    // Where a program allows caller 1 alone to get the reply 7, caller 1 may begin the view's scan
    // with 7 in the phase ask.
    ensures reply { is_enabled narrow 1 asking (Look N 0 0 (Begins_view 7)) ≡ true }
    // Where a program allows caller 1 alone to get the reply 7, caller 1 may not begin the view's
    // scan with 8.
    ensures other_reply { is_enabled narrow 1 asking (Look N 0 0 (Begins_view 8)) ≡ false }
    // Where a program allows caller 1 alone to get the reply 7, caller 0 may not begin the view's
    // scan with 7.
    ensures others_reply { is_enabled narrow 0 asking (Look N 0 0 (Begins_view 7)) ≡ false }
{}

/// The object history of two whole calls is linearizable for an object that gives the replies of
/// these calls, and not for an object that gives other replies.
#[tactic(auto, using(crate::proofs::Linear::linearizable, crate::proofs::Linear::not_linearizable))]
pub fn two_calls_are_linearizable()
    // The history of the two whole calls is linearizable for the object whose reply is ten times
    // the operation.
    ensures lawful { IsLinearizable tenfold (history_of pair two_calls) }
    // The history of the two whole calls isn't linearizable for the object whose reply is always 0.
    ensures unlawful { ¬ IsLinearizable silent (history_of pair two_calls) }
{}

/// Which histories are linearizable. A call that returned before another was invoked comes before
/// it in the order; a call has the reply to its own operation; and a call that never returned may
/// be in the order, or be left out of it (Herlihy and Wing 1990).
#[tactic(auto, using(crate::proofs::Histories::order_forbids, crate::proofs::Histories::side_by_side_linearizable, crate::proofs::Histories::operation_forbids, crate::proofs::Histories::unanswered_stands, crate::proofs::Histories::unanswered_left_out))]
pub fn histories_are_linearizable()
    // A history of two calls, one after another, isn't linearizable where the replies fit only an
    // order with the second call first.
    ensures by_order { ¬ IsLinearizable numbering one_after_another }
    // A history of two calls that overlap is linearizable where the replies fit only an order with
    // the second call first.
    ensures overlapping { IsLinearizable numbering side_by_side }
    // A history of one call that returns the reply to another operation isn't linearizable.
    ensures by_operation { ¬ IsLinearizable tenfold reply_of_another }
    // A history is linearizable where the replies fit only an order with a call that never
    // returned.
    ensures unanswered_stands { IsLinearizable numbering after_unanswered }
    // A history is linearizable where the replies fit only an order without a call that never
    // returned.
    ensures unanswered_left_out { IsLinearizable numbering without_unanswered }
{}
