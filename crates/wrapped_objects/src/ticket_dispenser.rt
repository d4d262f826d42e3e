ghost use Rattle.std.specs.Prelude.{◌≡◌, ◌==◌, [], ◌∷◌};
ghost use Rattle.seq_objects.specs.Items.{first_or_zero};
ghost use Rattle.wrapped_objects.specs.Tickets.{ticket};

use book_base::{BAD, OpWord, SeqObject, State};
use core_objects::{CoreObject, OneWordPass};
use drv_wrapper::Announced;
use row_table::Rows;
use search_hints::SearchHints;
use seq_objects::wrapping_value_reply;
use world_core::{InWorld, Program};

/// The operation word of taking a ticket. A script of a counter spells it `inc`.
pub const TAKE: OpWord = 1 << 32;

/// A dispenser of numbered tickets. The first one has the number `first`, and each further one the
/// next number, modulo 2^32.
#[derive(Clone, Copy, Debug, PartialEq, Eq)]
pub struct TicketDispenser {
    pub first: u32,
}

impl TicketDispenser {
    // The reply with the ticket that a call gets after `taken` tickets were taken.
    fn ticket(&self, taken: u64) -> u64
        ensures { result ≡ ticket self.now.first taken }
    {
        wrapping_value_reply(u64::from(self.first).wrapping_add(taken))
    }
}

// How many tickets were taken, as the state of the sequential object says.
fn taken_in(state: &State) -> u64
    ensures { result ≡ first_or_zero state.now.words }
{
    if state.is_empty() { 0 } else { state.get(0) }
}

/// The sequential object of a dispenser: its list has how many tickets were taken, modulo 2^64.
impl SeqObject for TicketDispenser {
    ghost use Rattle.wrapped_objects.specs.Tickets.{take, after_call};
    ghost use Rattle.wrapped_objects.specs.TicketLaws.{after_call-unknown};

    ghost is_known = { λ _ op. op == take };

    ghost spec = { λ dispenser. record { init = 0 ∷ []; next = after_call dispenser.first } };

    ghost unknown_is_bad = { λ dispenser list op. after_call-unknown dispenser.first list op };

    fn known(&self, op: OpWord) -> bool {
        op == TAKE
    }

    fn capacity(&self, operations: u64) -> u64 {
        operations + 1
    }

    fn reset(&self, state: &mut State) {
        state.clear();
        state.push(0);
    }

    fn step(&self, state: &mut State, op: OpWord) -> u64 {
        if op != TAKE {
            return BAD;
        }
        let taken = taken_in(state);
        state.clear();
        state.push(taken.wrapping_add(1));
        self.ticket(taken)
    }
}

impl SearchHints for TicketDispenser {}

/// The program of a dispenser inside the world: a call that takes a ticket makes one object step,
/// which adds 1 to the one object word. Each other call makes none.
impl Program for TicketDispenser {
    ghost use Rattle.world_objects.specs.OneWord.{one_word_program};
    ghost use Rattle.wrapped_objects.specs.Tickets.{dispenser};

    ghost meaning = { λ program n cap. one_word_program (dispenser program.first) };

    fn object_words(&self, _n: u32, _cap: u64) -> u64 {
        1
    }
}

impl InWorld for TicketDispenser {}

/// A dispenser as an object inside the world: taking a ticket makes the one object step of the
/// program, and each other operation is answered `bad`.
impl CoreObject for TicketDispenser {
    ghost use Rattle.core_objects.specs.OneWordPasses.{FitsOneWord};
    ghost use Rattle.wrapped_objects.specs.TicketLaws.{dispensers_linearize};

    type S = TicketDispenser;

    type P = TicketDispenser;

    type Pass = OneWordPass;

    ghost sequential_of = { λ dispenser. dispenser };

    ghost program_of = { λ dispenser. dispenser };

    ghost fits = { λ dispenser. FitsOneWord };

    ghost linearizes = { λ dispenser n cap steps run. dispensers_linearize dispenser.first n cap steps run };

    fn sequential(&self) -> &TicketDispenser {
        self
    }

    fn program(&self) -> TicketDispenser {
        *self
    }

    fn reply(
        &self,
        rows: &Rows<TicketDispenser>,
        announced: &mut Announced<TicketDispenser>,
        _pass: &mut OneWordPass,
    ) -> u64 {
        if announced.op() != TAKE {
            return BAD;
        }
        let taken = announced.object_add(rows, 0, 1);
        self.ticket(taken)
    }
}
