ghost use Rattle.std.specs.Prelude.{◌≡◌};
ghost use Rattle.witness_tool.specs.Output.{not_found_text};

use book_base::ReadFault;
use byte_streams::{INPUT_LIMIT, ProgramAnswer, TextProgram};
use evidence_text::{Evidence, Limit, Limits, evidence_for};
use given_book::{Explanation, explained_text, picture_text, smaller_text};
use std::alloc::Global;

/// How long a refutation may be: as long as the programs read one.
const LIMITS: Limits = Limits {
    items: 300_000,
    bytes: INPUT_LIMIT as u64,
};

/// What the program makes of its input.
#[derive(Clone, Copy)]
pub(crate) enum Task {
    /// The picture of the book that the input gives.
    Picture,
    /// A smaller book that is illegal still, of the book that the input gives.
    Smaller,
    /// Why the book has no legal order that the input gives: which rule of its kind it breaks, or how far a legal
    /// order could begin.
    Explain,
    /// Evidence for the verdict on the book whose text the input is.
    Evidence,
}

impl Task {
    ghost use Rattle.witness_tool.specs.Task.{task_named};

    /// The task that a word names.
    #[tactic(auto, unfolding(crate::specs::Task::task_named))]
    pub(crate) fn from_word(word: &str) -> Option<Task>
        ensures { result ≡ task_named word.now }
    {
        match word {
            "picture" => Some(Task::Picture),
            "smaller" => Some(Task::Smaller),
            "explain" => Some(Task::Explain),
            "evidence" => Some(Task::Evidence),
            _ => None,
        }
    }
}

impl TextProgram for Task {
    ghost use Rattle.witness_tool.specs.Output.{IsFineFor, IsFoundFor, IsFaultFor};

    ghost is_fine = { IsFineFor };

    ghost is_found = { IsFoundFor };

    ghost is_fault = { IsFaultFor };

    fn answer(&self, alloc: Global, bytes: &[u8]) -> Result<ProgramAnswer, ReadFault> {
        match self {
            Task::Picture => Ok(ProgramAnswer::Fine(picture_text(alloc, bytes)?.into_bytes())),
            Task::Smaller => match smaller_text(alloc, bytes)? {
                Some(text) => Ok(ProgramAnswer::Found(text)),
                None => Ok(ProgramAnswer::Fine(b"legal\n".to_vec(alloc)?)),
            },
            Task::Explain => match explained_text(alloc, bytes)? {
                Explanation::Illegal(line) => Ok(ProgramAnswer::Found(line)),
                Explanation::NoneBroken(line) => Ok(ProgramAnswer::Fine(line)),
            },
            Task::Evidence => match evidence_for(alloc, bytes, LIMITS)? {
                Evidence::Certificate(text) => Ok(ProgramAnswer::Fine(text)),
                Evidence::Refutation(text) => Ok(ProgramAnswer::Found(text)),
                Evidence::NotFound(limit) => {
                    Ok(ProgramAnswer::Found(not_found(limit).to_vec(alloc)?))
                }
            },
        }
    }
}

// What is written of an illegal book where no refutation was found within a limit.
fn not_found(limit: Limit) -> &'static [u8]
    ensures { result.now ≡ not_found_text limit }
{
    match limit {
        Limit::Items => b"illegal\nno refutation within 300000 items\n",
        Limit::Bytes => b"illegal\nno refutation within 1048576 bytes\n",
    }
}
