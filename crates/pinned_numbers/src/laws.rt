//! Laws on numbers and on worked logs, each the contract of a function with an empty body.

ghost use Rattle.std.specs.Prelude.{◌≡◌, ℕ, ◌+◌, ◌*◌, ◌^◌, ◌<◌, true, false, [], ◌∷◌, codes, None};
ghost use Rattle.book_base.specs.declared.TheConstants.{MAX_CALLERS, MAX_CALLS, MAX_ROOM, BAD};
ghost use Rattle.queue_pairs.specs.declared.TheConstants.{NEVER};
ghost use Rattle.seq_objects.specs.declared.kind.Kind.TheVariants as kinds;
ghost use Rattle.seq_objects.specs.Words as words;
ghost use Rattle.seq_objects.specs.Words.{operation_text};
ghost use Rattle.seq_objects.specs.Replies.{reply_bad, reply_word};
ghost use Rattle.smaller_book.specs.declared.TheConstants.{FEW_CALLS};
ghost use Rattle.text_fields.specs.declared.TheConstants.{TEXT_CALLERS, TEXT_CALLS, FIRST_TEXT_CALLERS, FIRST_TEXT_CALLS};
ghost use Rattle.text_fields.specs.declared.version.Version.TheVariants.{First, Second};
ghost use Rattle.text_fields.specs.Version.{most_callers, most_calls, word_limit};
ghost use Rattle.client_scripts.specs.declared.TheConstants.{PHASES};
ghost use Rattle.report_lines.specs.Allotments.{phases_for};
ghost use Rattle.report_lines.specs.Phases.{judged};
ghost use Rattle.byte_streams.specs.declared.TheConstants.{INPUT_LIMIT};
ghost use Rattle.byte_streams.specs.declared.status.Status.TheVariants as statuses;
ghost use Rattle.byte_streams.specs.Status.{code_of};
ghost use Rattle.test_objects.specs.Calls.{is_put, is_take};
ghost use Rattle.test_objects.specs.FaultyForms.{most_loads};
ghost use Rattle.pinned_numbers.specs.Machines.{ArePuts, AreTakes, AreNeither, late_text, invented_text};

/// The limits of books, tables and states.
pub fn limits_of_books()
    // A book has at most 16 callers.
    ensures callers { MAX_CALLERS ≡ 16 }
    // A caller has at most 256 calls.
    ensures calls { MAX_CALLS ≡ 256 }
    // A list has at most 8192 words.
    ensures room { MAX_ROOM ≡ 8192 }
{}

/// The limits of smaller books, and the moment that no call of a queue's book has.
pub fn limits_of_searches()
    // A book with at most 24 calls has few calls, and is tried at each earlier cut.
    ensures few { FEW_CALLS ≡ 24 }
    // The moment `NEVER` is one more than the calls that all callers may make.
    ensures never { NEVER ≡ MAX_CALLERS * MAX_CALLS + 1 }
{}

/// The word of the reply `bad`, as in a table's rows and in texts.
pub fn the_reply_bad()
    // The reply word `bad` is 4 times 2^32.
    ensures word { BAD ≡ 17179869184 }
    // The reply `bad` of the objects is the word `BAD`.
    ensures of_objects { reply_bad ≡ BAD }
    // The text of the word `BAD` is `bad`.
    ensures text { reply_word BAD ≡ codes "bad" }
{}

/// The five phases of a call, which the lines of reports count.
pub fn phases_of_a_call()
    // A call has five phases.
    ensures number { PHASES ≡ 5 }
    // A caller without a stop is given five phases for each of its calls.
    ensures allotted { (calls : ℕ) → phases_for None calls ≡ PHASES * calls }
    // After five phases for each of `calls` calls, and fewer than five phases more, `calls` calls
    // are judged.
    ensures made { (calls more : ℕ) → more < PHASES → judged (PHASES * calls + more) ≡ calls }
{}

/// The limits of texts.
pub fn limits_of_texts()
    // Texts of version 2 have at most 16 callers.
    ensures second_callers { (TEXT_CALLERS ≡ 16) × (most_callers Second ≡ TEXT_CALLERS) }
    // Texts of version 2 have at most 256 calls of a caller.
    ensures second_calls { (TEXT_CALLS ≡ 256) × (most_calls Second ≡ TEXT_CALLS) }
    // Texts of version 2 have operation words below 2^128.
    ensures second_words { word_limit Second ≡ 2 ^ 128 }
    // Texts of version 1 have at most 8 callers.
    ensures first_callers { (FIRST_TEXT_CALLERS ≡ 8) × (most_callers First ≡ FIRST_TEXT_CALLERS) }
    // Texts of version 1 have at most 64 calls of a caller.
    ensures first_calls { (FIRST_TEXT_CALLS ≡ 64) × (most_calls First ≡ FIRST_TEXT_CALLS) }
    // Texts of version 1 have operation words below 2^64.
    ensures first_words { word_limit First ≡ 2 ^ 64 }
    // An input has at most 1,048,576 bytes.
    ensures input { INPUT_LIMIT ≡ 1048576 }
{}

/// The codes that the program ends with.
pub fn codes_of_statuses()
    // The program ends with 0 where nothing was found, and with 1 where something was found.
    ensures written { (code_of statuses.Fine ≡ 0) × (code_of statuses.Found ≡ 1) }
    // The program ends with 2 where its words name no command, and with 3 where the input is
    // refused.
    ensures refused { (code_of statuses.Usage ≡ 2) × (code_of statuses.Refused ≡ 3) }
    // The program ends with 4 where a read failed, and with 5 where a write did.
    ensures failed { (code_of statuses.ReadFault ≡ 4) × (code_of statuses.WriteFault ≡ 5) }
    // The program ends with 6 where memory was lacking.
    ensures no_memory { code_of statuses.NoMemory ≡ 6 }
{}

/// Which operations of the eight kinds faulty machines count as puts, which as takes, and which as
/// neither.
pub fn codes_of_puts_and_takes()
    // An enqueue, a push, a write, an increment, an add, an insert and a put are puts.
    ensures puts { ArePuts (words.enq ∷ words.push ∷ words.write ∷ words.inc
        ∷ words.add ∷ words.insert ∷ words.put ∷ []) }
    // A dequeue, a pop, a read, a remove, a `min` and a get are takes.
    ensures takes { AreTakes (words.deq ∷ words.pop ∷ words.read ∷ words.remove
        ∷ words.min ∷ words.get ∷ []) }
    // A look for a value, a compare-and-set and a delete are neither puts nor takes.
    ensures neither { AreNeither (words.has ∷ words.cas ∷ words.del ∷ []) }
{}

/// A late queue: the put of a caller waits for that caller's next call.
pub fn late_puts_wait()
    // A caller's put is made before that caller's next take.
    ensures own { late_text ((0, words.enq, 7) ∷ (0, words.deq, 0) ∷ []) ≡ codes "=7" }
    // A caller's put isn't made yet when another caller's take comes right after it.
    ensures other { late_text ((0, words.enq, 7) ∷ (1, words.deq, 0) ∷ []) ≡ codes "none" }
    // A caller's first put is made before another caller's take once the caller has made its second
    // put.
    ensures woken { late_text ((0, words.enq, 7) ∷ (0, words.enq, 8)
        ∷ (1, words.deq, 0) ∷ []) ≡ codes "=7" }
    // A take finds the put of its own caller, and not an earlier put of another caller that still
    // waits.
    ensures in_order { late_text ((0, words.enq, 7) ∷ (1, words.enq, 8)
        ∷ (1, words.deq, 0) ∷ []) ≡ codes "=8" }
{}

/// An inventing counter answers 99 to the third call of each caller, and each other call as a right
/// counter does.
pub fn third_calls_are_answered_99()
    // The second call of a lone caller is answered 1.
    ensures second { invented_text (0 ∷ 0 ∷ []) ≡ codes "=1" }
    // The third call of a caller is answered 99.
    ensures third { invented_text (0 ∷ 0 ∷ 0 ∷ []) ≡ codes "=99" }
    // The fourth call of a lone caller is answered 3.
    ensures fourth { invented_text (0 ∷ 0 ∷ 0 ∷ 0 ∷ []) ≡ codes "=3" }
    // A caller's first call is answered 2 after two calls of another caller.
    ensures of_another { invented_text (0 ∷ 0 ∷ 1 ∷ []) ≡ codes "=2" }
    // A caller's third call is answered 99 where calls of another caller come between.
    ensures third_of_another { invented_text (1 ∷ 0 ∷ 1 ∷ 0 ∷ 1 ∷ []) ≡ codes "=99" }
{}

/// A caller of a meeting loads the other caller's flag at most 100,000,000 times.
pub fn loads_of_a_meeting()
    ensures { most_loads ≡ 100000000 }
{}
