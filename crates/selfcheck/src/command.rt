ghost use Rattle.std.specs.Prelude.{◌≡◌, None, IfOk, IsOkAnd, IsTrue};

use crate::arguments::{behaviour_named, soak_number};
use crate::subcommands::{may_be_parsed, parse};
use book_base::NoMemory;
use std::alloc::Global;
use test_objects::Behaviour;

/// A command: what the program is to do.
#[derive(Clone, Copy, Debug, PartialEq, Eq)]
pub enum Command {
    /// Say whether a book has a legal order.
    Verify,
    /// Write a book's sketch.
    Sketch,
    /// Say whether a certificate's order is a legal order of its book.
    Order,
    /// Write a script or a book of version 1 in version 2.
    Upgrade,
    /// Say whether a set book has a legal set order.
    Sets,
    /// Run a script over the object of a behaviour, each caller in a thread, and write the report.
    Run(Behaviour),
    /// Take a script's turns over the object of a behaviour, in one thread, and write the report.
    Replay(Behaviour),
    /// Run a script as [`Command::Run`] does, and write a certificate of what was delivered.
    Certify(Behaviour),
    /// Run a script over the object of a behaviour, each caller in a thread, while two monitors
    /// watch, and write what the monitors found.
    Monitor(Behaviour),
    /// Run the script made from this number over the lawful object, and write the report's counts.
    Soak(u64),
}

impl Command {
    ghost use Rattle.selfcheck.specs.Command.{argued_command, command_of, has_argument, lone_command, reads_source};
    ghost use Rattle.selfcheck.specs.CommandLine.{is_parsed};

    /// The command that these words, those after the program's name, stand for. For words that no
    /// command can have, `None` is returned before clap reads them.
    pub fn from_words(alloc: Global, words: &[String]) -> Result<Option<Command>, NoMemory>
        // The result is the command that the words name, and `None` where they name none.
        ensures command { IfOk result (λ command. command ≡ command_of words.now) }
        // For words that aren't handed to clap the result is `None`, and never an error.
        ensures unparsed { ¬ IsTrue (is_parsed words.now)
            → IsOkAnd result (λ command. command ≡ None) }
    {
        if may_be_parsed(words) {
            parse(alloc, words)
        } else {
            Ok(None)
        }
    }

    /// The command that this word names by itself.
    #[tactic(auto, unfolding(crate::specs::Command::lone_command))]
    pub(crate) fn from_word(word: &str) -> Option<Command>
        ensures { result ≡ lone_command word.now }
    {
        match word {
            "verify" => Some(Command::Verify),
            "sketch" => Some(Command::Sketch),
            "order" => Some(Command::Order),
            "upgrade" => Some(Command::Upgrade),
            "sets" => Some(Command::Sets),
            _ => None,
        }
    }

    /// The command that this word names with this argument, where there is one. The function has an
    /// arm for each command with an argument.
    #[tactic(auto, unfolding(crate::specs::Command::argued_command))]
    pub(crate) fn from_pair(word: &str, argument: &str) -> Option<Command>
        ensures { result ≡ argued_command word.now argument.now }
    {
        match word {
            "run" => Some(Command::Run(behaviour_named(argument)?)),
            "replay" => Some(Command::Replay(behaviour_named(argument)?)),
            "certify" => Some(Command::Certify(behaviour_named(argument)?)),
            "monitor" => Some(Command::Monitor(behaviour_named(argument)?)),
            "soak" => Some(Command::Soak(soak_number(argument)?)),
            _ => None,
        }
    }

    /// Whether the command with this word has an argument.
    #[tactic(auto, unfolding(crate::specs::Command::has_argument))]
    pub(crate) fn has_argument(word: &str) -> bool
        ensures { result ≡ has_argument word.now }
    {
        match word {
            "run" | "replay" | "certify" | "monitor" | "soak" => true,
            _ => false,
        }
    }

    /// Whether the command works on what the source gives.
    pub fn reads_source(self) -> bool
        ensures { result ≡ reads_source self }
    {
        match self {
            Command::Verify
            | Command::Sketch
            | Command::Order
            | Command::Upgrade
            | Command::Sets
            | Command::Replay(_)
            | Command::Certify(_)
            | Command::Monitor(_)
            | Command::Run(_) => true,
            Command::Soak(_) => false,
        }
    }
}
