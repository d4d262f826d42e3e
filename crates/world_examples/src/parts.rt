//! The small definitions of the world, checked value by value; and, for most conditions of the
//! larger ones, a value that fails this condition alone.

ghost use Rattle.std.specs.Prelude.{◌≡◌, true, false, [], ◌∷◌, ◌++◌, IsTrue, Some, None, map, replicate};
ghost use Rattle.world_core.specs.declared.region.Region.TheVariants.{N, M};
ghost use Rattle.world_core.specs.declared.want.Want.TheVariants.{Look as Wants_look, Peek as Wants_peek, Done};
ghost use Rattle.world_core.specs.declared.course.Course.TheVariants.{Borrows};
ghost use Rattle.world_core.specs.Layout.{Low, View_entry, Embedded_entry};
ghost use Rattle.world_core.specs.Programs.{scrap};
ghost use Rattle.world_core.specs.Scan.{FitsCallers, has_ended, is_done, is_look, is_peek, IsSteady, AreWanted, IsShort, course};
ghost use Rattle.world_core.specs.Standing.{standing};
ghost use Rattle.world_core.specs.Local.{Announcing, Asking, Viewing, Publishing, Judging, IsIdle, fresh};
ghost use Rattle.world_core.specs.Event.{Stage, Announce, Object, Look, Peek, Publish, Begins_none, Begins_scan, Begins_view, For_row, For_view, For_seen, For_nothing, is_same_region, is_staging, is_asking, is_view_entry, is_look_wanted, is_peek_wanted, is_enabled};
ghost use Rattle.world_core.specs.World.{start, end_of, IsRun, IsReachable};
ghost use Rattle.world_core.specs.Snapshot.{GivesCut, is_opening, is_first_look, begins_scan, gives_up, keeps_scan};
ghost use Rattle.world_core.specs.History.{call_of};
ghost use Rattle.world_core.specs.Calls.{AreTogether, IsLocalOf, IsPublished, IsGathered, HasPeeked};
ghost use Rattle.world_core.specs.Agreement.{unpublished_calls, unpublished_replies, unpublished_views, unseen_records, HasPhase, FitsPhase, IsStagedIn, IsKeptIn, IsInRow, Agrees};
ghost use Rattle.world_examples.specs.Schedules.{pair, by, local_at, local_after_all, two_calls, announced_both, announcement, single, span_after_announcement, given_alone, object_step};
ghost use Rattle.world_examples.specs.Refusals.{entry_peeked};
ghost use Rattle.world_examples.specs.SecondCalls.{as_announced, as_viewed, as_published, as_judged};
ghost use Rattle.world_examples.specs.Parts.{phases, scan_of, staged_word, purposes, with_looks, with_cuts, rowless, span_of_no_run, span_begun_before, span_given_up, given_since, nobody, stepped, peek_of, with_peeks, lacking_none, lacking_low, lacking_high, lacking_reply, lacking_entry, book_alone, book_of_another, book_unheld, book_lacking, book_too_wide, reply_staged, published_alone, uncounted, crowded, asking_alone, asking_staged, asking_embeds, asking_views, staged_past, staged_beside, staged_entry, staged_low, no_words, lent_words};

/// For each of the five phases of a call: which region's words are staged, whether the object is
/// asked, how many of the caller's calls, replies and views are in no published record, and how
/// many of its published records have no seen cut.
pub fn phases_differ()
    // Of the five phases the phase announce alone stages words of N.
    ensures staging_N { map (λ p. is_staging p N) phases
        ≡ true ∷ false ∷ false ∷ false ∷ false ∷ [] }
    // Of the five phases the phase publish alone stages words of M.
    ensures staging_M { map (λ p. is_staging p M) phases
        ≡ false ∷ false ∷ false ∷ true ∷ false ∷ [] }
    // Of the five phases the phase ask alone asks the object.
    ensures asking { map is_asking phases ≡ false ∷ true ∷ false ∷ false ∷ false ∷ [] }
    // In the phases ask, view and publish one announced call of the caller has no published record;
    // in the other phases each has one.
    ensures calls { map unpublished_calls phases ≡ 0 ∷ 1 ∷ 1 ∷ 1 ∷ 0 ∷ [] }
    // In the phases view and publish one reply of the caller is in no published record; in the
    // other phases each is in one.
    ensures replies { map unpublished_replies phases ≡ 0 ∷ 0 ∷ 1 ∷ 1 ∷ 0 ∷ [] }
    // In the phase publish one view of the caller is in no published record; in the other phases
    // each is in one.
    ensures views { map unpublished_views phases ≡ 0 ∷ 0 ∷ 0 ∷ 1 ∷ 0 ∷ [] }
    // In the phase judge one published record of the caller has no seen cut; in the other phases
    // each has one.
    ensures records { map unseen_records phases ≡ 0 ∷ 0 ∷ 0 ∷ 0 ∷ 1 ∷ [] }
{}

/// What the cut of a scan becomes in each phase (the cut to embed in the row, the view, the seen
/// cut, or nothing), by the scan's region, by whether it is the view's scan, and by whether a word
/// of the row is staged.
pub fn cuts_serve_by_phase()
    // Where no word is staged, the cut of a scan of N that isn't the view's becomes the cut to
    // embed in the phase announce, and has no use in the other phases.
    ensures of_N { purposes [] N false
        ≡ For_row ∷ For_nothing ∷ For_nothing ∷ For_nothing ∷ For_nothing ∷ [] }
    // Where no word is staged, the cut of a scan of M becomes the cut to embed in the phase publish
    // and the seen cut in the phase judge, and has no use in the other phases.
    ensures of_M { purposes [] M false
        ≡ For_nothing ∷ For_nothing ∷ For_nothing ∷ For_row ∷ For_seen ∷ [] }
    // Where a word is staged, the cut of a scan of N that isn't the view's has no use in any phase.
    ensures late_of_N { purposes (staged_word 0 5 ∷ []) N false
        ≡ For_nothing ∷ For_nothing ∷ For_nothing ∷ For_nothing ∷ For_nothing ∷ [] }
    // Where a word is staged, the cut of a scan of M becomes the seen cut in the phase judge, and
    // has no use in the other phases.
    ensures late_of_M { purposes (staged_word 0 5 ∷ []) M false
        ≡ For_nothing ∷ For_nothing ∷ For_nothing ∷ For_nothing ∷ For_seen ∷ [] }
    // Where no word is staged, the cut of the view's scan of N becomes the view in the phase view
    // and the cut to embed in the phase announce, and has no use in the other phases.
    ensures view { purposes [] N true
        ≡ For_row ∷ For_nothing ∷ For_view ∷ For_nothing ∷ For_nothing ∷ [] }
    // The cut of a scan of M never becomes a view, even where the scan is said to be the view's.
    ensures view_of_M { purposes [] M true
        ≡ For_nothing ∷ For_nothing ∷ For_nothing ∷ For_row ∷ For_seen ∷ [] }
{}

/// The tests that the conditions of events consist of, value by value.
pub fn tests_tell_apart()
    // Each of the two regions is the same as itself and not the same as the other.
    ensures regions { is_same_region N N ∷ is_same_region N M ∷ is_same_region M N
        ∷ is_same_region M M ∷ [] ≡ true ∷ false ∷ false ∷ true ∷ [] }
    // A place for the view's entry for caller 1 is one for that entry; a place for the view's entry
    // for caller 0, for an entry of an embedded cut, or for a word of the operation isn't.
    ensures entries { map (λ part. is_view_entry part 1)
        (View_entry 1 ∷ View_entry 0 ∷ Embedded_entry M 1 ∷ Low ∷ [])
        ≡ true ∷ false ∷ false ∷ false ∷ [] }
    // The look at caller 1 is wanted by a scan that next needs a look at caller 1, and not by one
    // that next needs a look at caller 0 or a peek, or that is done.
    ensures looks { map (is_look_wanted 1)
        (Wants_look 1 ∷ Wants_look 0 ∷ Wants_peek 1 0 0 ∷ Done [] ∷ [])
        ≡ true ∷ false ∷ false ∷ false ∷ [] }
    // The peek at place 2 in N of the fourth row of caller 1 is wanted by a scan that next needs
    // the entry for caller 0 of the cut that this row embeds, and not by one that next needs an
    // entry of another caller's row, of another row or for another caller, or a look.
    ensures peeks { map (is_peek_wanted 2 N 1 3 2) (Wants_peek 1 3 0 ∷ Wants_peek 0 3 0 ∷ Wants_peek
        1 2 0 ∷ Wants_peek 1 3 1 ∷ Wants_look 1 ∷ []) ≡ true ∷ false ∷ false ∷ false ∷ false ∷ [] }
    // The peek at place 4 in M of the fourth row of caller 1, with two callers, is wanted by a scan
    // that next needs the entry for caller 1 of the cut that this row embeds, and not by one that
    // needs another entry.
    ensures peeks_of_M { map (is_peek_wanted 2 M 1 3 4) (Wants_peek 1 3 1 ∷ Wants_peek 1 3 2 ∷ [])
        ≡ true ∷ false ∷ [] }
    // A caller may peek a row of caller 0 in N whose number is below a count of caller 0 in N that
    // one of its older looks found.
    ensures older_look { is_enabled pair 1 with_looks (Peek N 0 1 0 0) ≡ true }
    // A caller may not peek a row of caller 0 in N where each count of caller 0 in N that its looks
    // found is at most the row's number.
    ensures beyond_all_looks { is_enabled pair 1 with_looks (Peek N 0 2 0 0) ≡ false }
    // A caller may peek a row of caller 0 in N whose number is below the count for caller 0 of an
    // older cut, which a scan of N gave it.
    ensures older_cut { is_enabled pair 1 with_cuts (Peek N 0 1 0 0) ≡ true }
    // A caller may peek a row of caller 1 in M whose number is below the count for caller 1 of a
    // later cut, which a scan of M gave it.
    ensures later_cut { is_enabled pair 1 with_cuts (Peek M 1 0 0 0) ≡ true }
    // A caller may not peek a row of caller 0 in M whose number is below the count for caller 0 of
    // a cut of N, and of no cut of M.
    ensures cut_of_another { is_enabled pair 1 with_cuts (Peek M 0 1 0 0) ≡ false }
    // A caller may not stage a word of its second row of M where the cap is 1.
    ensures no_row_of_M { is_enabled pair 0 rowless (Stage M 0 0) ≡ false }
{}

/// Which events begin a scan, and which give up the scan that is under way.
pub fn events_begin_and_give_up()
    // A look's opening `Begins_scan` or `Begins_view` begins a scan, and `Begins_none` doesn't.
    ensures openings { map is_opening (Begins_none ∷ Begins_scan ∷ Begins_view 7 ∷ [])
        ≡ false ∷ true ∷ true ∷ [] }
    // A look in N that begins a scan or the view's scan is the first look of a scan of N; a look in
    // M, a look that begins nothing, a peek and an announcement aren't.
    ensures first_looks { map (is_first_look N) (Look N 0 0 Begins_scan ∷ Look N 0 0 (Begins_view 7)
        ∷ Look M 0 0 Begins_scan ∷ Look N 0 0 Begins_none ∷ Peek N 0 0 0 0 ∷ Announce ∷ [])
        ≡ true ∷ true ∷ false ∷ false ∷ false ∷ false ∷ [] }
    // A look of caller 1 that begins a scan counts as a scan begun by caller 1; a look of caller 0,
    // and a look of caller 1 that begins nothing, don't.
    ensures by_whom { map (begins_scan 1 N) (by 1 (Look N 0 0 Begins_scan) ∷ by 0
        (Look N 0 0 Begins_scan) ∷ by 1 (Look N 0 0 Begins_none) ∷ []) ≡ true ∷ false ∷ false ∷ [] }
    // An announcement, a publication, and a look that begins a scan or the view's scan give up a
    // scan; a look that begins nothing, a stage, an object step and a peek don't.
    ensures gives_up { map gives_up
        (Announce ∷ Publish ∷ Look M 0 0 Begins_scan ∷ Look N 0 0 (Begins_view 7)
        ∷ Look N 0 0 Begins_none ∷ Stage N 0 0 ∷ Object (object_step 0 0 0) ∷ Peek N 0 0 0 0 ∷ [])
        ≡ true ∷ true ∷ true ∷ true ∷ false ∷ false ∷ false ∷ false ∷ [] }
    // A scan of caller 1 stays under way at an announcement of caller 0 and at a stage of caller 1,
    // and is given up at an announcement of caller 1.
    ensures keeps { map (keeps_scan 1) (by 1 Announce ∷ by 0 Announce ∷ by 1 (Stage N 0 0) ∷ [])
        ≡ false ∷ true ∷ true ∷ [] }
{}

/// Where a scan does not give a cut in a span of steps: where the steps are no run, where the first
/// step begins no scan, where the scan is given up before its end, and where the cut, or the number
/// of looks before the scan, is another one.
#[tactic(auto, using(crate::proofs::Spans::no_run, crate::proofs::Spans::not_begun, crate::proofs::Spans::not_kept, crate::proofs::Spans::other_cut, crate::proofs::Spans::other_time))]
pub fn scans_give_cuts_in_spans()
    // Steps that are no run are no span in which a scan gives a cut.
    ensures no_run { ¬ GivesCut single 0 (given_since 0) span_of_no_run }
    // A scan gives no cut in a span whose first step began no scan.
    ensures not_begun { ¬ GivesCut single 0 (given_since 2) span_begun_before }
    // A scan gives no cut in a span in which it was given up for another scan.
    ensures not_kept { ¬ GivesCut single 0 (given_since 3) span_given_up }
    // A scan that found the count 1 doesn't give the cut with the count 0.
    ensures other_cut { ¬ GivesCut single 0 (given_alone N 0) span_after_announcement }
    // A scan that began after two looks of its caller doesn't give its cut as one of a scan that
    // began after one look.
    ensures other_time { ¬ GivesCut single 0 (given_since 1) span_after_announcement }
{}

/// Runs and the worlds that they reach: each step of a run is enabled in the world that the steps
/// before it lead to; a world in which no run ends isn't reachable; and locals are together only
/// where there is one for each caller.
#[tactic(auto, using(crate::proofs::Together::first_impossible, crate::proofs::Together::later_impossible, crate::proofs::Together::not_reachable, crate::proofs::Together::one_local, crate::proofs::Together::both_locals, crate::proofs::Together::second_local, crate::proofs::Together::third_local))]
pub fn worlds_are_reached_by_runs()
    // At the start of a world of two callers, with one row each and one object word, the 23 words
    // are 0, and both locals are the fresh one.
    ensures start { start (record { callers = 2; cap = 1; program = scrap })
        ≡ record { words = replicate 23 0; locals = fresh ∷ fresh ∷ [] } }
    // Steps of which the first isn't enabled at the start are no run.
    ensures first_impossible { ¬ IsRun pair (by 0 Announce ∷ []) }
    // Steps of which a later one isn't enabled after those before it are no run.
    ensures later_impossible { ¬ IsRun pair
        (by 0 (Look N 0 0 Begins_none) ∷ by 0 (Look N 0 1 Begins_none) ∷ []) }
    // A world without callers whose object word isn't 0 isn't reachable.
    ensures not_reachable { ¬ IsReachable nobody stepped }
    // A single local isn't the list of locals of a world of two callers.
    ensures one_local { ¬ AreTogether pair (fresh ∷ []) }
    // The locals at the end of the run of two whole calls are together.
    ensures both_locals { AreTogether pair (end_of pair two_calls).locals }
    // The local of caller 1 at the end of the run of two whole calls is one that caller 1 has in
    // some reachable world.
    ensures second_local { IsLocalOf pair 1 (local_at two_calls 1) }
    // The fresh local isn't one that caller 2 has in a reachable world of two callers, which has no
    // caller 2.
    ensures third_local { ¬ IsLocalOf pair 2 fresh }
{}

/// A cut of published records has one count for each caller, which is at most the number of records
/// that this caller published, whatever it announced.
#[tactic(auto, using(crate::proofs::Published::none_published, crate::proofs::Published::one_published, crate::proofs::Published::announced_alone, crate::proofs::Published::too_many, crate::proofs::Published::too_narrow))]
pub fn cuts_are_published()
    // After two announcements, and no publication, the cut 0 0 counts only what is published.
    ensures none { IsPublished (end_of pair announced_both).locals (0 ∷ 0 ∷ []) }
    // After two callers published one record each, the cut 1 0 counts only what is published.
    ensures below { IsPublished (end_of pair two_calls).locals (1 ∷ 0 ∷ []) }
    // After two announcements, and no publication, the cut 1 0 counts more than is published.
    ensures announced { ¬ IsPublished (end_of pair announced_both).locals (1 ∷ 0 ∷ []) }
    // After two callers published one record each, the cut 1 2 counts more than is published.
    ensures above { ¬ IsPublished (end_of pair two_calls).locals (1 ∷ 2 ∷ []) }
    // A cut of one count is no cut of the published records of two callers.
    ensures narrow { ¬ IsPublished (end_of pair two_calls).locals (1 ∷ []) }
{}

/// A caller has peeked a word where one peek of it agrees in all five parts: the region, the
/// caller, the row, the place and the word.
#[tactic(auto, using(crate::proofs::Peeking::peeked, crate::proofs::Peeking::other_region, crate::proofs::Peeking::other_caller, crate::proofs::Peeking::other_row, crate::proofs::Peeking::other_place, crate::proofs::Peeking::other_word))]
pub fn words_are_peeked()
    // Caller 1 has peeked 1 as the view's entry for caller 0 in the first row of M of caller 0.
    ensures peeked { HasPeeked (local_at entry_peeked 1) M (call_of 0 0) 1 1 }
    // A peek in M is no peek in N.
    ensures other_region { ¬ HasPeeked (with_peeks (peek_of M 1 2 3 4 ∷ [])) N (call_of 1 2) 3 4 }
    // A peek into a row of caller 1 is no peek into a row of caller 2.
    ensures other_caller { ¬ HasPeeked (with_peeks (peek_of M 1 2 3 4 ∷ [])) M (call_of 2 2) 3 4 }
    // A peek into the row numbered 2 is no peek into the row numbered 1.
    ensures other_row { ¬ HasPeeked (with_peeks (peek_of M 1 2 3 4 ∷ [])) M (call_of 1 1) 3 4 }
    // A peek at place 3 is no peek at place 4.
    ensures other_place { ¬ HasPeeked (with_peeks (peek_of M 1 2 3 4 ∷ [])) M (call_of 1 2) 4 4 }
    // A peek that found the word 4 is no peek that found the word 3.
    ensures other_word { ¬ HasPeeked (with_peeks (peek_of M 1 2 3 4 ∷ [])) M (call_of 1 2) 3 3 }
{}

/// A caller has gathered a book at a cut where it has peeked each word of the book, and the book
/// has one page for each caller, as many records as the cut counts, and exactly the calls that the
/// views of these records hold.
#[tactic(auto, using(crate::proofs::Gathering::gathered, crate::proofs::Gathering::lacks_low, crate::proofs::Gathering::lacks_high, crate::proofs::Gathering::lacks_reply, crate::proofs::Gathering::lacks_entry, crate::proofs::Gathering::of_another, crate::proofs::Gathering::other_cut, crate::proofs::Gathering::unheld, crate::proofs::Gathering::lacking, crate::proofs::Gathering::too_wide))]
pub fn books_are_gathered()
    // The book of one answered call is gathered at the cut 1 by a caller that has peeked all of its
    // words.
    ensures gathered { IsGathered 1 (lacking_none 1) (1 ∷ []) book_alone }
    // A book isn't gathered by a caller that hasn't peeked the low word of an operation.
    ensures low { ¬ IsGathered 1 lacking_low (1 ∷ []) book_alone }
    // A book isn't gathered by a caller that hasn't peeked the high word of an operation.
    ensures high { ¬ IsGathered 1 lacking_high (1 ∷ []) book_alone }
    // A book isn't gathered by a caller that hasn't peeked a reply.
    ensures reply { ¬ IsGathered 1 lacking_reply (1 ∷ []) book_alone }
    // A book isn't gathered by a caller that hasn't peeked an entry of a view.
    ensures entry { ¬ IsGathered 1 lacking_entry (1 ∷ []) book_alone }
    // A book with more pages than there are callers isn't gathered.
    ensures callers { ¬ IsGathered 1 (lacking_none 1) (1 ∷ []) book_of_another }
    // A book with fewer records than the cut counts isn't gathered at that cut.
    ensures records { ¬ IsGathered 1 (lacking_none 1) (2 ∷ []) book_alone }
    // A book with a call that no view holds isn't gathered.
    ensures held { ¬ IsGathered 1 (lacking_none 1) (1 ∷ []) book_unheld }
    // A book that lacks a call which a view holds isn't gathered.
    ensures there { ¬ IsGathered 1 (lacking_none 2) (1 ∷ []) book_lacking }
    // A book with a view of more counts than there are callers isn't gathered.
    ensures wide { ¬ IsGathered 1 (lacking_none 1) (1 ∷ []) book_too_wide }
{}

/// The counts of a local and the lengths of its lists are those that its phase demands, at moments
/// of a run. A local in which one count or one length differs doesn't have what its phase demands.
#[tactic(auto, using(crate::proofs::Agreeing::no_announced, crate::proofs::Agreeing::no_operation, crate::proofs::Agreeing::no_reply, crate::proofs::Agreeing::no_view, crate::proofs::Agreeing::no_seen, crate::proofs::Agreeing::none_in_N, crate::proofs::Agreeing::none_in_M, crate::proofs::Agreeing::no_steps))]
pub fn lists_have_lengths_by_phase()
    // The fresh local has the counts and the list lengths that its phase demands.
    ensures idle { HasPhase fresh }
    // Right after an announcement a local has the counts and the list lengths that its phase
    // demands.
    ensures asking { HasPhase as_announced }
    // Right after a view is taken a local has the counts and the list lengths that its phase
    // demands.
    ensures publishing { HasPhase as_viewed }
    // Right after a publication a local has the counts and the list lengths that its phase demands.
    ensures judging { HasPhase as_published }
    // Right after a seen cut a local has the counts and the list lengths that its phase demands.
    ensures judged { HasPhase as_judged }
    // A local in the phase announce with one announced call and no published record doesn't have
    // the counts that its phase demands.
    ensures announced { ¬ HasPhase uncounted }
    // The fresh local with an operation added doesn't have the list lengths that its phase demands.
    ensures operations { ¬ HasPhase (record fresh { operations = 5 ∷ [] }) }
    // The fresh local with a reply added doesn't have the list lengths that its phase demands.
    ensures replies { ¬ HasPhase (record fresh { replies = 50 ∷ [] }) }
    // The fresh local with a view added doesn't have the list lengths that its phase demands.
    ensures views { ¬ HasPhase (record fresh { views = [] ∷ [] }) }
    // The fresh local with a seen cut added doesn't have the list lengths that its phase demands.
    ensures seen { ¬ HasPhase (record fresh { seen = [] ∷ [] }) }
    // The fresh local with a cut embedded in N added doesn't have the list lengths that its phase
    // demands.
    ensures embedded_in_N { ¬ HasPhase (record fresh { embedded_in_N = [] ∷ [] }) }
    // The fresh local with a cut embedded in M added doesn't have the list lengths that its phase
    // demands.
    ensures embedded_in_M { ¬ HasPhase (record fresh { embedded_in_M = [] ∷ [] }) }
    // The fresh local with a list of object steps added doesn't have the list lengths that its
    // phase demands.
    ensures object_steps { ¬ HasPhase (record fresh { object_steps = [] ∷ [] }) }
{}

/// What a caller may have in each phase: the view's scan under way in the phase view alone, and
/// staged words and a cut to embed in the phases announce and publish alone.
#[tactic(auto, using(crate::proofs::Agreeing::not_view_of_M, crate::proofs::Agreeing::not_view, crate::proofs::Agreeing::not_in_asking, crate::proofs::Agreeing::not_staged))]
pub fn parts_fit_phases()
    // In the phase view the view's scan of N may be under way.
    ensures view { FitsPhase Viewing (Some (scan_of N true)) }
    // In the phase ask a scan of M that isn't the view's may be under way.
    ensures scan { FitsPhase Asking (Some (scan_of M false)) }
    // In the phase ask a caller may have no scan under way.
    ensures none { FitsPhase Asking None }
    // In the phase view there is always a scan under way.
    ensures no_view { ¬ FitsPhase Viewing None }
    // In the phase view no scan of M is under way, even one that is said to be the view's.
    ensures view_of_M { ¬ FitsPhase Viewing (Some (scan_of M true)) }
    // In the phase view no scan is under way that isn't the view's.
    ensures not_view { ¬ FitsPhase Viewing (Some (scan_of N false)) }
    // In the phase ask the view's scan isn't under way.
    ensures in_asking { ¬ FitsPhase Asking (Some (scan_of N true)) }
    // A word may be staged in the phase announce.
    ensures staged_in_announcing { IsStagedIn Announcing (staged_word 0 5 ∷ []) }
    // A word may be staged in the phase publish.
    ensures staged_in_publishing { IsStagedIn Publishing (staged_word 0 5 ∷ []) }
    // No word is staged in the phase ask.
    ensures staged_in_asking { ¬ IsStagedIn Asking (staged_word 0 5 ∷ []) }
    // No word is staged in the phase view.
    ensures staged_in_viewing { ¬ IsStagedIn Viewing (staged_word 0 5 ∷ []) }
    // No word is staged in the phase judge.
    ensures staged_in_judging { ¬ IsStagedIn Judging (staged_word 0 5 ∷ []) }
    // A cut to embed may be kept in the phase announce.
    ensures kept_in_announcing { IsKeptIn Announcing (Some []) }
    // A cut to embed may be kept in the phase publish.
    ensures kept_in_publishing { IsKeptIn Publishing (Some []) }
    // No cut to embed is kept in the phase ask.
    ensures kept_in_asking { ¬ IsKeptIn Asking (Some []) }
    // No cut to embed is kept in the phase view.
    ensures kept_in_viewing { ¬ IsKeptIn Viewing (Some []) }
    // No cut to embed is kept in the phase judge.
    ensures kept_in_judging { ¬ IsKeptIn Judging (Some []) }
    // A caller in the phase view isn't idle.
    ensures viewing_is_busy { ¬ IsIdle (record fresh { phase = Viewing }) }
    // A caller in the phase publish isn't idle.
    ensures publishing_is_busy { ¬ IsIdle (record fresh { phase = Publishing }) }
    // A caller in the phase judge isn't idle.
    ensures judging_is_busy { ¬ IsIdle (record fresh { phase = Judging }) }
{}

/// A local agrees with the words of the table where its counts and its counted rows are in the
/// table, it has announced at most as many calls as the cap says, its staged words are in the
/// table, each in a row below the cap, at a place of the region and as the word that belongs there,
/// and its parts fit its phase.
#[tactic(auto, using(crate::proofs::Agreeing::agrees, crate::proofs::Agreeing::other_count_of_N, crate::proofs::Agreeing::other_count_of_M, crate::proofs::Agreeing::too_many, crate::proofs::Agreeing::other_row_of_N, crate::proofs::Agreeing::other_row_of_M, crate::proofs::Agreeing::not_standing, crate::proofs::Agreeing::staged_as_asking, crate::proofs::Agreeing::kept_as_asking, crate::proofs::Agreeing::other_lists, crate::proofs::Agreeing::view_as_asking, crate::proofs::Agreeing::past_rows, crate::proofs::Agreeing::past_places, crate::proofs::Agreeing::stands_not, crate::proofs::Agreeing::not_due))]
pub fn locals_agree_with_words()
    // After the run in which a caller stages its reply the caller's local agrees with the words.
    ensures agrees { Agrees single (end_of single reply_staged).words 0
        (local_after_all single reply_staged 0) }
    // The fresh local doesn't agree with words in which the count in N is 1.
    ensures counts_of_N { ¬ Agrees single (1 ∷ 0 ∷ 0 ∷ 0 ∷ 0 ∷ 0 ∷ 0 ∷ 0 ∷ []) 0 fresh }
    // The fresh local doesn't agree with words in which the count in M is 1.
    ensures counts_of_M { ¬ Agrees single (0 ∷ 1 ∷ 0 ∷ 0 ∷ 0 ∷ 0 ∷ 0 ∷ 0 ∷ []) 0 fresh }
    // A local that has announced more calls than the cap says doesn't agree with words that have
    // its counts.
    ensures few { ¬ Agrees single (2 ∷ 1 ∷ 0 ∷ 0 ∷ 0 ∷ 0 ∷ 0 ∷ 0 ∷ []) 0 crowded }
    // A local doesn't agree with words in which its row of N has another high word.
    ensures rows_of_N { ¬ Agrees single (1 ∷ 0 ∷ 5 ∷ 1 ∷ 0 ∷ 0 ∷ 0 ∷ 0 ∷ []) 0 asking_alone }
    // A local doesn't agree with words in which its row of M has another entry of the view.
    ensures rows_of_M { ¬ Agrees single (1 ∷ 1 ∷ 5 ∷ 0 ∷ 0 ∷ 50 ∷ 0 ∷ 0 ∷ []) 0
        (local_after_all single published_alone 0) }
    // A local that has staged 5 at place 0 doesn't agree with words that have 0 there.
    ensures staged { ¬ Agrees single no_words 0 staged_low }
    // A local with a staged word in the phase ask doesn't agree with words that have its counts and
    // rows.
    ensures staged_in { ¬ Agrees single (1 ∷ 0 ∷ 5 ∷ 0 ∷ 0 ∷ 0 ∷ 0 ∷ 0 ∷ []) 0 asking_staged }
    // A local with a cut to embed in the phase ask doesn't agree with words that have its counts
    // and rows.
    ensures kept_in { ¬ Agrees single (1 ∷ 0 ∷ 5 ∷ 0 ∷ 0 ∷ 0 ∷ 0 ∷ 0 ∷ []) 0 asking_embeds }
    // A local without the list lengths that its phase demands doesn't agree with words that have
    // its counts.
    ensures phase { ¬ Agrees single no_words 0 (record fresh { replies = 50 ∷ [] }) }
    // A local with the view's scan under way in the phase ask doesn't agree with words that have
    // its counts and rows.
    ensures scan { ¬ Agrees single (1 ∷ 0 ∷ 5 ∷ 0 ∷ 0 ∷ 0 ∷ 0 ∷ 0 ∷ []) 0 asking_views }
    // A staged word doesn't count as standing in its row where that row is beyond the cap.
    ensures row { ¬ IsInRow single no_words 0 staged_past N 0 }
    // A staged word doesn't count as standing in its row where the region lacks its place.
    ensures place { ¬ IsInRow single no_words 0 staged_beside N 3 }
    // A staged word doesn't count as standing in its row where the table has another word there.
    ensures stands { ¬ IsInRow single no_words 0 staged_low N 0 }
    // A staged word doesn't count as standing in its row where it doesn't belong at its place,
    // though the table has it there.
    ensures due { ¬ IsInRow single (0 ∷ 0 ∷ 0 ∷ 0 ∷ 5 ∷ 0 ∷ 0 ∷ 0 ∷ []) 0 staged_entry N 2 }
{}

/// What a scan keeps of the words that it has taken; which looks, peeks and cuts a scan of some
/// number of callers may come to; and which lists of words are steady, wanted and few.
#[tactic(auto, using(crate::proofs::Steady::steady, crate::proofs::Steady::falls, crate::proofs::Steady::moves, crate::proofs::Steady::others_move, crate::proofs::Steady::wanted_all, crate::proofs::Steady::unwanted, crate::proofs::Steady::long))]
pub fn scans_stand_by_their_words()
    // After three collects and one peek a scan of two callers keeps its first collect, its last
    // collect and the peeked word, and borrows from the second row of caller 0.
    ensures standing { standing 2 1 N (0 ∷ 0 ∷ 1 ∷ 0 ∷ 2 ∷ 0 ∷ 7 ∷ []) ≡ record {
      callers = 2;
      me = 1;
      region = N;
      first = Some (0 ∷ 0 ∷ []);
      last = Some (2 ∷ 0 ∷ []);
      current = 7 ∷ [];
      course = Borrows 0 1;
    } }
    // A scan that has made no whole collect keeps no first collect.
    ensures beginning { (standing 2 1 M (3 ∷ [])).first ≡ None }
    // A look at caller 1 is one that a scan of two callers may need.
    ensures look { FitsCallers 2 (Wants_look 1) }
    // A peek at the entry for caller 1 in a row of caller 1 is one that a scan of two callers may
    // need.
    ensures peek { FitsCallers 2 (Wants_peek 1 5 1) }
    // A cut of two counts is one with which a scan of two callers may end.
    ensures done { FitsCallers 2 (Done (4 ∷ 5 ∷ [])) }
    // A look at caller 2 isn't one that a scan of two callers may need.
    ensures no_look { ¬ FitsCallers 2 (Wants_look 2) }
    // A peek into a row of caller 2 isn't one that a scan of two callers may need.
    ensures no_peek { ¬ FitsCallers 2 (Wants_peek 2 5 1) }
    // A peek at an entry for caller 2 isn't one that a scan of two callers may need.
    ensures no_entry { ¬ FitsCallers 2 (Wants_peek 1 5 2) }
    // A cut of one count isn't one with which a scan of two callers may end.
    ensures narrow { ¬ FitsCallers 2 (Done (4 ∷ [])) }
    // A scan of two callers that has taken all words of a borrowed cut has ended, and one that has
    // taken three looks hasn't.
    ensures ends { map (λ taken. has_ended (course 2 taken)) (lent_words ∷ (0 ∷ 0 ∷ 0 ∷ []) ∷ [])
        ≡ true ∷ false ∷ [] }
    // A scan that is done is told from one that needs a look or a peek.
    ensures dones { map is_done (Wants_look 0 ∷ Wants_peek 0 0 0 ∷ Done [] ∷ [])
        ≡ false ∷ false ∷ true ∷ [] }
    // A scan that needs a look is told from one that needs a peek and from one that is done.
    ensures looks { map is_look (Wants_look 0 ∷ Wants_peek 0 0 0 ∷ Done [] ∷ [])
        ≡ true ∷ false ∷ false ∷ [] }
    // A scan that needs a peek is told from one that needs a look and from one that is done.
    ensures peeks { map is_peek (Wants_look 0 ∷ Wants_peek 0 0 0 ∷ Done [] ∷ [])
        ≡ false ∷ true ∷ false ∷ [] }
    // Words of a scan may be steady though its peeked entries are less than the counts before them.
    ensures steady { IsSteady 2 1 lent_words }
    // Words of a scan by caller 0 in which the count of caller 1 falls aren't steady.
    ensures falls { ¬ IsSteady 2 0 (0 ∷ 1 ∷ 0 ∷ 0 ∷ []) }
    // Words of a scan by caller 0 in which its own count rises aren't steady.
    ensures moves { ¬ IsSteady 2 0 (0 ∷ 0 ∷ 1 ∷ 0 ∷ []) }
    // Words of a scan by caller 1 in which the count of caller 0 rises are steady.
    ensures others_move { IsSteady 2 1 (0 ∷ 0 ∷ 1 ∷ 0 ∷ []) }
    // Each word of two equal collects was taken by a scan that hadn't ended.
    ensures wanted { AreWanted 2 (0 ∷ 0 ∷ 0 ∷ 0 ∷ []) }
    // A word after two equal collects was taken by a scan that had ended.
    ensures unwanted { ¬ AreWanted 2 (0 ∷ 0 ∷ 0 ∷ 0 ∷ 0 ∷ []) }
    // The words of a scan of one caller aren't few where three come of looks: the bound is two.
    ensures long { ¬ IsShort 1 (0 ∷ 1 ∷ 2 ∷ []) }
{}
