//! Texts of version 1, written in version 2.

ghost use Rattle.std.specs.Prelude.{◌↔◌, ◌≤◌, length, IsTrue, IfOk, IfErr};
ghost use Rattle.book_text.specs.BookRules.{IsFirstBookFault};
ghost use Rattle.client_scripts.specs.ScriptRules.{IsFirstScriptFault};
ghost use Rattle.text_fields.specs.declared.version.Version.TheVariants.{First};
ghost use Rattle.byte_streams.specs.declared.TheConstants.{INPUT_LIMIT};
ghost use Rattle.selfcheck.specs.Output.{IsOutputOf};
ghost use Rattle.text_fields.specs.Faults.{IsFaultOf};
ghost use Rattle.selfcheck.specs.Refusal.{IsReadFault};
ghost use Rattle.selfcheck.specs.Upgrade.{BeginsAsScript, IsFirstOldFault, IsUpgradedScript, IsUpgradedBook, IsUpgraded};

use crate::command::Command;
use crate::input::check_length;
use crate::output::Output;
use book_base::{NoMemory, ReadFault};
use book_text::{read_book1, write_book};
use byte_streams::Status;
use client_scripts::{read_script1, write_script};
use std::alloc::Global;

/// The output of `upgrade` for the bytes read.
pub(crate) fn upgrade(alloc: Global, bytes: &[u8]) -> Result<Output, NoMemory>
    ensures { IfOk result (λ output.
        IsOutputOf Command.Upgrade bytes.now output.status output.text.items) }
{
    match upgraded(alloc, bytes) {
        Ok(text) => Ok(Output {
            status: Status::Fine,
            text,
        }),
        Err(ReadFault::Text(fault)) => Output::refusal(alloc, fault),
        Err(ReadFault::NoMemory) => Err(NoMemory),
    }
}

/// The text in version 2 of a script or a book. The input is the text of this script or book in
/// version 1.
fn upgraded(alloc: Global, bytes: &[u8]) -> Result<Vec<u8>, ReadFault>
    ensures short { IfOk result (λ _. length bytes.now ≤ INPUT_LIMIT) }
    ensures text { IfOk result (λ text. IsUpgraded bytes.now text.items) }
    ensures refused { IfErr result (IsReadFault IsFirstOldFault bytes.now) }
{
    check_length(bytes)?;
    if begins_as_script(bytes) {
        upgraded_script(alloc, bytes)
    } else {
        upgraded_book(alloc, bytes)
    }
}

/// Whether the first line is the title of a script of version 1.
fn begins_as_script(bytes: &[u8]) -> bool
    ensures { IsTrue result ↔ BeginsAsScript bytes.now }
{
    bytes.starts_with(b"script 1\n")
}

/// The text in version 2 of a script. The bytes are the text of this script in version 1.
fn upgraded_script(alloc: Global, bytes: &[u8]) -> Result<Vec<u8>, ReadFault>
    ensures text { IfOk result (λ text. IsUpgradedScript bytes.now text.items) }
    ensures refused { IfErr result (IsFaultOf (IsFirstScriptFault First bytes.now)) }
{
    let script = read_script1(alloc, bytes)?;
    Ok(write_script(alloc, &script)?)
}

/// The text in version 2 of a book. The bytes are the text of this book in version 1.
fn upgraded_book(alloc: Global, bytes: &[u8]) -> Result<Vec<u8>, ReadFault>
    ensures text { IfOk result (λ text. IsUpgradedBook bytes.now text.items) }
    ensures refused { IfErr result (IsFaultOf (IsFirstBookFault First bytes.now)) }
{
    let (kind, book) = read_book1(alloc, bytes)?;
    Ok(write_book(alloc, kind, &book)?)
}
