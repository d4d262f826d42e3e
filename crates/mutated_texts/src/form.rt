use crate::older::{old_book, old_script, set_book};
use anyhow::{Result, anyhow};
use book_base::{ReadFault, What};
use book_text::{read_book, write_book};
use certificate_text::{read_certificate, write_certificate};
use client_scripts::{read_script, write_script};
use report_text::{read_report, report_text};
use std::alloc::Global;

/// A form of texts.
#[derive(Clone, Copy, Debug, PartialEq, Eq)]
pub enum TextForm {
    Book,
    OldBook,
    Script,
    OldScript,
    Report,
    Certificate,
    SetBook,
}

/// The answer of a reader to bytes.
#[derive(Drop)]
pub enum ReaderAnswer {
    /// The bytes are a text, and this is written of what was read.
    Written(Vec<u8>),
    /// The bytes are no text of the form.
    Refused(What),
}

impl TextForm {
    /// All forms.
    pub const ALL: [TextForm; 7] = [
        TextForm::Book,
        TextForm::OldBook,
        TextForm::Script,
        TextForm::OldScript,
        TextForm::Report,
        TextForm::Certificate,
        TextForm::SetBook,
    ];

    /// The name of the form.
    pub fn name(self) -> &'static str {
        match self {
            TextForm::Book => "book",
            TextForm::OldBook => "book of version 1",
            TextForm::Script => "script",
            TextForm::OldScript => "script of version 1",
            TextForm::Report => "report",
            TextForm::Certificate => "certificate",
            TextForm::SetBook => "set book",
        }
    }

    /// Reads bytes as a text of the form, and writes what was read.
    pub fn answer(self, alloc: Global, bytes: &[u8]) -> Result<ReaderAnswer> {
        match self.rewrite(alloc, bytes) {
            Ok(text) => Ok(ReaderAnswer::Written(text)),
            Err(ReadFault::Text(fault)) => Ok(ReaderAnswer::Refused(fault.what)),
            Err(ReadFault::NoMemory) => Err(anyhow!("no memory for a text")),
        }
    }

    fn rewrite(self, alloc: Global, bytes: &[u8]) -> Result<Vec<u8>, ReadFault> {
        match self {
            TextForm::Book => book(alloc, bytes),
            TextForm::OldBook => old_book(alloc, bytes),
            TextForm::Script => script(alloc, bytes),
            TextForm::OldScript => old_script(alloc, bytes),
            TextForm::Report => report(alloc, bytes),
            TextForm::Certificate => certificate(alloc, bytes),
            TextForm::SetBook => set_book(alloc, bytes),
        }
    }
}

fn book(alloc: Global, bytes: &[u8]) -> Result<Vec<u8>, ReadFault> {
    let (kind, book) = read_book(alloc, bytes)?;
    Ok(write_book(alloc, kind, &book)?)
}

fn script(alloc: Global, bytes: &[u8]) -> Result<Vec<u8>, ReadFault> {
    let script = read_script(alloc, bytes)?;
    Ok(write_script(alloc, &script)?)
}

fn report(alloc: Global, bytes: &[u8]) -> Result<Vec<u8>, ReadFault> {
    let report = read_report(alloc, bytes)?;
    Ok(report_text(alloc, &report)?)
}

fn certificate(alloc: Global, bytes: &[u8]) -> Result<Vec<u8>, ReadFault> {
    let read = read_certificate(alloc, bytes)?;
    Ok(write_certificate(alloc, read.kind, &read.book, &read.order)?)
}
