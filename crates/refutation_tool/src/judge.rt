//! What the program answers to an input.

ghost use Rattle.std.specs.Prelude.{◌≡◌, ◌++◌, IfOk, OnOk};
ghost use Rattle.refutation_tool.specs.Output.{after_space, pair_fault_words, level_fault_words, fault_words, fault_text};

use book_base::{NoMemory, ReadFault};
use byte_streams::{ProgramAnswer, TextProgram};
use level_refutations::LevelFault;
use pair_refutations::{Move, PairFault};
use refutation_text::{RefutationFault, RefutationVerdict, refute};
use refutations::ClosedFault;
use seq_objects::put_number;
use std::alloc::Global;

/// The program that judges refutations.
#[derive(Clone, Copy)]
pub(crate) struct Judge;

impl TextProgram for Judge {
    ghost use Rattle.refutation_tool.specs.Output.{IsFineFor, IsFoundFor, IsFaultFor};

    ghost is_fine = { IsFineFor };

    ghost is_found = { IsFoundFor };

    ghost is_fault = { IsFaultFor };

    fn answer(&self, alloc: Global, bytes: &[u8]) -> Result<ProgramAnswer, ReadFault> {
        match refute(alloc, bytes)? {
            RefutationVerdict::Illegal => Ok(ProgramAnswer::Fine(b"illegal\n".to_vec(alloc)?)),
            RefutationVerdict::Faulty(fault) => Ok(ProgramAnswer::Found(text_of(alloc, fault)?)),
        }
    }
}

// The line of a fault.
fn text_of(alloc: Global, fault: RefutationFault) -> Result<Vec<u8>, NoMemory>
    ensures { IfOk result (λ text. text.items ≡ fault_text fault) }
{
    let mut text = b"fault ".to_vec(alloc)?;
    put_fault(&mut text, fault)?;
    text.extend_from_slice(b"\n")?;
    Ok(text)
}

// Appends the name of a fault, with its numbers.
fn put_fault(out: &mut Vec<u8>, fault: RefutationFault) -> Result<(), NoMemory>
    ensures { OnOk result (out.new.items ≡ out.old.items ++ fault_words fault) }
{
    match fault {
        RefutationFault::Kind => Ok(out.extend_from_slice(b"Kind")?),
        RefutationFault::Possible => Ok(out.extend_from_slice(b"Possible")?),
        RefutationFault::Lacks(s) => put_numbered(out, b"Lacks", s),
        RefutationFault::Open(s) => put_numbered(out, b"Open", s),
        RefutationFault::Changes(s) => put_numbered(out, b"Changes", s),
        RefutationFault::Closed(ClosedFault::Unlisted(e)) => put_numbered(out, b"Unlisted", e),
        RefutationFault::Closed(ClosedFault::Whole(e)) => put_numbered(out, b"Whole", e),
        RefutationFault::Closed(ClosedFault::Leads(e, caller)) => {
            put_numbered(out, b"Leads", e)?;
            put_numbered(out, b"", u64::from(caller))
        }
        RefutationFault::Pairs(why) => put_pair_fault(out, why),
        RefutationFault::Levels(why) => put_level_fault(out, why),
    }
}

// Appends the name of a fault of entries that make standings, with its numbers.
fn put_pair_fault(out: &mut Vec<u8>, why: PairFault) -> Result<(), NoMemory>
    ensures { OnOk result (out.new.items ≡ out.old.items ++ pair_fault_words why) }
{
    match why {
        PairFault::Open => Ok(out.extend_from_slice(b"Open")?),
        PairFault::Odd(call) => {
            put_numbered(out, b"Odd", u64::from(call.caller))?;
            put_numbered(out, b"", call.number)
        }
        PairFault::Unlisted(e) => put_numbered(out, b"Unlisted", e),
        PairFault::Whole(e) => put_numbered(out, b"Whole", e),
        PairFault::Leads(e, Move::Finds) => {
            put_numbered(out, b"Leads", e)?;
            Ok(out.extend_from_slice(b" find")?)
        }
        PairFault::Leads(e, Move::Callers(putter, taker)) => {
            put_numbered(out, b"Leads", e)?;
            put_numbered(out, b"", putter)?;
            put_numbered(out, b"", taker)
        }
    }
}

// Appends the name of a fault of entries of a table of levels, with its numbers.
fn put_level_fault(out: &mut Vec<u8>, why: LevelFault) -> Result<(), NoMemory>
    ensures { OnOk result (out.new.items ≡ out.old.items ++ level_fault_words why) }
{
    match why {
        LevelFault::Unlisted(e) => put_numbered(out, b"Unlisted", e),
        LevelFault::Whole(level, cut) => {
            put_numbered(out, b"Whole", level)?;
            put_numbered(out, b"", cut)
        }
        LevelFault::Leads(level, cut, caller) => {
            put_numbered(out, b"Leads", level)?;
            put_numbered(out, b"", cut)?;
            put_numbered(out, b"", u64::from(caller))
        }
    }
}

// Appends a word, and a number after a space.
fn put_numbered(out: &mut Vec<u8>, word: &[u8], number: u64) -> Result<(), NoMemory>
    ensures { OnOk result (out.new.items ≡ out.old.items ++ word.now ++ after_space number) }
{
    out.extend_from_slice(word)?;
    out.push(b' ')?;
    put_number(out, number)
}
