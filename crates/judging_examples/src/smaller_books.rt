//! Worked cases: which calls a part has, what its views count, and which calls may be left out.

ghost use Rattle.std.specs.Prelude.{◌≡◌, [], ◌∷◌, Some, None};
ghost use Rattle.book_base.specs.BookAt.{book_at};
ghost use Rattle.book_base.specs.Reaching.{Leaves};
ghost use Rattle.book_base.specs.Pruning.{HasOneOpen};
ghost use Rattle.judging_examples.specs.Books.{line_next, tenfold_next, mistaken, overtaken};
ghost use Rattle.seq_objects.specs.declared.kind.Kind.TheVariants as kinds;
ghost use Rattle.seq_objects.specs.Words as words;
ghost use Rattle.seq_objects.specs.Replies.{reply_done, reply_none, reply_value, reply_yes};
ghost use Rattle.seq_objects.specs.Objects.{kind_next};
ghost use Rattle.judging_examples.specs.Runs.{operation};
ghost use Rattle.smaller_book.specs.Part.{count_below};
ghost use Rattle.smaller_book.specs.Numbers.{composed};
ghost use Rattle.smaller_book.specs.ReadOnly.{IsReadOnly};
ghost use Rattle.smaller_book.specs.Minimal.{numbers_except, all_but};
ghost use Rattle.smaller_book.specs.Keys.{key_of_step, keys_from_to, all_without, items_without, KeysMayGo};
ghost use Rattle.smaller_book.specs.Earliest.{IsTried};
ghost use Rattle.judging_examples.specs.SmallerBooks.{put_twice, of_two_keys, two_open, one_open, two_puts};

/// A view counts the calls that a part has: of calls 0, 2 and 5 two are among the first three, and
/// all are among the first six.
pub fn views_count_what_is_kept()
    // Of calls 0, 2 and 5 none is among the first 0 calls.
    ensures none { count_below (0 ∷ 2 ∷ 5 ∷ []) 0 ≡ 0 }
    // Of calls 0, 2 and 5 two are among the first 3 calls.
    ensures some { count_below (0 ∷ 2 ∷ 5 ∷ []) 3 ≡ 2 }
    // Of calls 0, 2 and 5 two are among the first 5 calls.
    ensures edge { count_below (0 ∷ 2 ∷ 5 ∷ []) 5 ≡ 2 }
    // Of calls 0, 2 and 5 all are among the first 6 calls.
    ensures all { count_below (0 ∷ 2 ∷ 5 ∷ []) 6 ≡ 3 }
{}

/// The numbers that are kept where one call is left out, and the numbers that the calls of a part
/// of a part have in the book: of calls 0, 2 and 3 the first and the third are calls 0 and 3.
pub fn numbers_that_stay()
    // Of three calls without the first one the numbers 1 and 2 stay.
    ensures first { numbers_except 3 0 ≡ 1 ∷ 2 ∷ [] }
    // Of four calls without the second one the numbers 0, 2 and 3 stay.
    ensures middle { numbers_except 4 1 ≡ 0 ∷ 2 ∷ 3 ∷ [] }
    // Of two calls without the last one the number 0 stays.
    ensures last { numbers_except 2 1 ≡ 0 ∷ [] }
    // Where caller 0 has three calls and caller 1 has one: without call 1 of caller 0 its calls 0
    // and 2 stay, and the call of caller 1.
    ensures one_caller { all_but overtaken (record { caller = 0; number = 1 })
        ≡ (0 ∷ 2 ∷ []) ∷ (0 ∷ []) ∷ [] }
    // Where caller 0 has three calls and caller 1 has one: without the call of caller 1 all three
    // calls of caller 0 stay.
    ensures only_call { all_but overtaken (record { caller = 1; number = 0 })
        ≡ (0 ∷ 1 ∷ 2 ∷ []) ∷ [] ∷ [] }
    // The part that has calls 0 and 2 of the part with calls 0, 2 and 3 has calls 0 and 3 of the
    // book.
    ensures through { composed ((0 ∷ 2 ∷ 3 ∷ []) ∷ []) ((0 ∷ 2 ∷ []) ∷ []) ≡ (0 ∷ 3 ∷ []) ∷ [] }
{}

/// A call that changes no list is read-only, whether it is answered or not, and an unanswered call
/// that changes a list isn't. A take isn't read-only, whether it replies 6 or 0: the reply 0 says
/// that nothing was found or that the item 0 was taken, and a list may begin with the item 6 or 0.
pub fn calls_that_leave()
    // An answered call of an object that keeps nothing is read-only.
    ensures replies { IsReadOnly tenfold_next mistaken (record { caller = 1; number = 0 }) }
    // An unanswered call of an object that keeps nothing is read-only.
    ensures changes_nothing { IsReadOnly tenfold_next overtaken
        (record { caller = 0; number = 2 }) }
    // An unanswered put isn't read-only.
    ensures unanswered { ¬ IsReadOnly line_next overtaken (record { caller = 0; number = 2 }) }
    // A take with the reply 6 isn't read-only: it changes a list that begins with 6.
    ensures takes { ¬ Leaves line_next 0 6 }
    // A take with the reply 0 isn't read-only: it changes a list that begins with 0.
    ensures takes_none { ¬ Leaves line_next 0 0 }
{}

/// A read of a register is read-only with the reply 9, and a write of 9 isn't.
pub fn reads_leave()
    // A read of a register doesn't change any list at which it replies 9.
    ensures reads { Leaves (kind_next kinds.Register) (operation words.read 0) (reply_value 9) }
    // A write of 9 to a register changes some list.
    ensures writes { ¬ Leaves (kind_next kinds.Register) (operation words.write 9) reply_done }
{}

/// The keys that operations are about: a put or a write, and a take or a read that shows a value,
/// are about the value; a take that finds nothing or has no reply is about no key.
pub fn keys_of_operations()
    // The key of a put of 5 is 5.
    ensures puts { key_of_step kinds.Queue (operation words.enq 5) None ≡ Some 5 }
    // The key of a take that shows 5 is 5.
    ensures takes { key_of_step kinds.Queue (operation words.deq 0)
        (Some (reply_value 5)) ≡ Some 5 }
    // A take that found nothing has no key.
    ensures finds_none { key_of_step kinds.Queue (operation words.deq 0) (Some reply_none) ≡ None }
    // A take without a reply has no key.
    ensures unanswered { key_of_step kinds.Queue (operation words.deq 0) None ≡ None }
    // The key of a look for 3 in a set is 3.
    ensures of_a_set { key_of_step kinds.IntSet (operation words.has 3) (Some reply_yes) ≡ Some 3 }
    // The key of a get of key 3 of a map is 3, also where it replies the value 5.
    ensures of_a_map { key_of_step kinds.Map (operation words.get 3)
        (Some (reply_value 5)) ≡ Some 3 }
    // The key of a write of 5 to a register is 5.
    ensures writes { key_of_step kinds.Register (operation words.write 5)
        (Some reply_done) ≡ Some 5 }
    // The key of a read of a register that shows 5 is 5.
    ensures reads { key_of_step kinds.Register (operation words.read 0)
        (Some (reply_value 5)) ≡ Some 5 }
    // A write of a register with compare-and-set has no key.
    ensures no_key { key_of_step kinds.CasRegister (operation words.write 5)
        (Some reply_done) ≡ None }
    // An operation that the kind doesn't know has no key.
    ensures unknown { key_of_step kinds.Queue (operation words.has 5)
        (Some (reply_value 5)) ≡ None }
{}

/// All calls that are about a key are left out together: both puts of a value that is put twice and
/// the take that shows it, and of a set the answered calls and the unanswered one. An unanswered
/// take stays.
pub fn calls_without_a_key()
    // Without the key 5 the put of 6, the take that found nothing and the unanswered take stay.
    ensures value { all_without kinds.Queue (keys_from_to 5 5) put_twice
        ≡ (1 ∷ []) ∷ (1 ∷ 2 ∷ []) ∷ [] }
    // Without the keys 5 and 6 only the take that found nothing and the unanswered take stay.
    ensures values { all_without kinds.Queue (keys_from_to 5 6) put_twice ≡ [] ∷ (1 ∷ 2 ∷ []) ∷ [] }
    // Without keys that no call is about all calls stay.
    ensures no_call { all_without kinds.Queue (keys_from_to 7 9) put_twice
        ≡ (0 ∷ 1 ∷ 2 ∷ []) ∷ (0 ∷ 1 ∷ 2 ∷ []) ∷ [] }
    // In a book of a set with two calls on key 3 and two on key 4, without the key 4 those on key 3
    // stay.
    ensures of_a_set { all_without kinds.IntSet (keys_from_to 4 4) of_two_keys
        ≡ (0 ∷ []) ∷ (0 ∷ []) ∷ [] }
    // In a book of a set with two calls on key 3 and two on key 4, without the key 3 those on key 4
    // stay, of which one is unanswered.
    ensures other_of_a_set { all_without kinds.IntSet (keys_from_to 3 3) of_two_keys
        ≡ (1 ∷ []) ∷ (1 ∷ []) ∷ [] }
{}

/// Which items of a list stay when those of some keys are left out: the key of a queue's item is
/// its low 32 bits, and a map's item has its key above these.
pub fn items_without_a_key()
    // Of the items of a queue without the key 5 those stay whose low 32 bits aren't 5.
    ensures values { items_without kinds.Queue (keys_from_to 5 5)
        (5 ∷ 6 ∷ 4294967301 ∷ []) ≡ 6 ∷ [] }
    // Of the items of a map without the key 1 the one of key 2 stays.
    ensures keys { items_without kinds.Map (keys_from_to 1 1) (4294967301 ∷ 8589934592 ∷ [])
        ≡ 8589934592 ∷ [] }
    // The items of a register have no key, and stay.
    ensures no_keys { items_without kinds.Register (keys_from_to 0 9) (5 ∷ []) ≡ 5 ∷ [] }
{}

/// A book has one open where each of its views holds at most one unanswered call of each caller. A
/// book with a view that holds two of one caller hasn't one open.
pub fn open_calls()
    // A book with a view that holds two unanswered calls of one caller hasn't one open.
    ensures two { ¬ HasOneOpen two_open }
    // A book whose views hold one unanswered call of each caller at most has one open.
    ensures one { HasOneOpen one_open }
    // Of a book that hasn't one open, calls of a queue may not go by keys.
    ensures keys_stay { ¬ KeysMayGo kinds.Queue two_open }
    // Of a book that hasn't one open, calls of a register may go by keys.
    ensures keys_go { KeysMayGo kinds.Register two_open }
{}

/// At a cut without the last put of a caller, the view of another caller's take holds one
/// unanswered put, and at a cut without both puts it holds two. As the book has few calls, it is
/// tried at both cuts.
pub fn cuts_with_one_open()
    // At the cut without the last put the take's view holds one unanswered put, and the book has
    // one open.
    ensures one { HasOneOpen (book_at (1 ∷ 1 ∷ []) two_puts) }
    // At the cut without both puts the take's view holds two unanswered puts, and the book hasn't
    // one open.
    ensures two { ¬ HasOneOpen (book_at (0 ∷ 1 ∷ []) two_puts) }
    // A book of few calls is tried at the cut without both puts too.
    ensures few { IsTried two_puts (0 ∷ 1 ∷ []) }
{}
