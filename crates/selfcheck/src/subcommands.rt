//! The command words, as clap reads them.

ghost use Rattle.std.specs.Prelude.{◌≡◌, [], false, IfOk, IsTrue, option_map};
ghost use Rattle.clap.specs.declared.builder.command.Command.TheViews.{out-Command as fields_of};
ghost use Rattle.clap.specs.Simple.{app_of, new_shape, shape_of, subcommand_rows_of, with_subcommand};
ghost use Rattle.selfcheck.specs.Command.{command_of};
ghost use Rattle.selfcheck.specs.CommandLine.{argued_shape, bare_top, begins_with_hyphen, command_met, is_parsed, line_app, met_in};

use crate::command::Command;
use book_base::NoMemory;
use clap::ArgMatches;
use clap::error::ErrorKind;
use std::alloc::{AllocError, Global};

/// Whether the command words are handed to clap: there are two words, of which the first is that of
/// a command with an argument, or one word, which isn't; and no word begins with `-`.
#[tactic(auto, unfolding(crate::specs::CommandLine::is_parsed))]
pub(crate) fn may_be_parsed(words: &[String]) -> bool
    ensures { result ≡ is_parsed words.now }
{
    match words {
        [word] => !Command::has_argument(word.as_str()) && !begins_with_hyphen(word.as_bytes()),
        [word, argument] => Command::has_argument(word.as_str())
            && !begins_with_hyphen(argument.as_bytes()),
        _ => false,
    }
}

fn begins_with_hyphen(word: &[u8]) -> bool
    ensures { result ≡ begins_with_hyphen word.now }
{
    match word {
        [first, ..] => *first == b'-',
        [] => false,
    }
}

/// The command that the words name, where clap reads them as one.
pub(crate) fn parse(alloc: Global, words: &[String]) -> Result<Option<Command>, NoMemory>
    requires { IsTrue (is_parsed words.now) }
    ensures { IfOk result (λ command. command ≡ command_of words.now) }
{
    let line = command_line(alloc)?;
    match line.try_get_matches_from(words) {
        Ok(matches) => Ok(command_in(&matches)),
        Err(error) => match error.kind() {
            ErrorKind::OutOfMemory => Err(NoMemory),
            _ => Ok(None),
        },
    }
}

/// The command line, with a subcommand for each command.
fn command_line<'a>(alloc: Global) -> Result<clap::Command<'a>, AllocError>
    ensures { IfOk result (λ line. app_of line ≡ line_app) }
{
    let line = bare_line(alloc);
    let line = with_lone(line, alloc, "verify")?;
    let line = with_lone(line, alloc, "sketch")?;
    let line = with_lone(line, alloc, "order")?;
    let line = with_lone(line, alloc, "upgrade")?;
    let line = with_lone(line, alloc, "sets")?;
    let line = with_argued(line, alloc, "run")?;
    let line = with_argued(line, alloc, "replay")?;
    let line = with_argued(line, alloc, "certify")?;
    let line = with_argued(line, alloc, "monitor")?;
    let line = with_argued(line, alloc, "soak")?;
    Ok(line)
}

/// The command line without its subcommands.
fn bare_line<'a>(alloc: Global) -> clap::Command<'a>
    ensures { app_of result ≡ record { top = bare_top; subs = [] } }
{
    clap::Command::new(alloc, "selfcheck")
        .no_binary_name(true)
        .disable_help_flag(true)
        .disable_help_subcommand(true)
        .subcommand_required(true)
}

/// The command line with one more subcommand, which has no argument.
fn with_lone<'a>(
    line: clap::Command<'a>,
    alloc: Global,
    name: &'a str,
) -> Result<clap::Command<'a>, AllocError>
    ensures { IfOk result (λ new.
        app_of new ≡ with_subcommand (app_of line.entry) (new_shape name.now)) }
{
    line.subcommand(clap::Command::new(alloc, name))
}

/// The command line with one more subcommand, which has an argument.
fn with_argued<'a>(
    line: clap::Command<'a>,
    alloc: Global,
    name: &'a str,
) -> Result<clap::Command<'a>, AllocError>
    ensures { IfOk result (λ new.
        app_of new ≡ with_subcommand (app_of line.entry) (argued_shape name.now)) }
{
    line.subcommand(argued(alloc, name)?)
}

/// A subcommand with an argument.
fn argued<'a>(alloc: Global, name: &'a str) -> Result<clap::Command<'a>, AllocError>
    ensures shape { IfOk result (λ command. shape_of command ≡ argued_shape name.now) }
    ensures local { IfOk result (λ command. (fields_of command).has_globals ≡ false) }
{
    let argument = clap::Arg::new(alloc, "argument").required(true);
    clap::Command::new(alloc, name).arg(argument)
}

/// The command for the subcommand and the argument that clap has read, and `None` where they name
/// no command.
fn command_in(matches: &ArgMatches) -> Option<Command>
    ensures { result ≡ command_met (option_map met_in (subcommand_rows_of matches.now)) }
{
    let (name, inner) = matches.subcommand()?;
    match inner.get_str("argument") {
        Some(argument) => Command::from_pair(name, argument),
        None => Command::from_word(name),
    }
}
