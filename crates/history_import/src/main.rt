//! The program: it reads a log of another tool on standard input, and writes a book for each key.
#![tactic(auto)]

use book_base::NoMemory;
use byte_streams::{Source, Status, StdSink, StdSource, write_text};
use history_text::LogError;
use log_books::{Options, import, log_refusal, options_of};
use std::alloc::Global;
use std::env;
use std::io::ErrorKind;
use std::process::ExitCode;
use std::rt::Env;

/// The code that the program ends with where the system doesn't hand over the command words.
const NO_WORDS: u8 = 7;

/// The greatest length of a log, in bytes.
const LOG_LIMIT: usize = 1 << 30;

/// The output for other words.
const USAGE: &[u8] =
    b"usage: history_import --format jepsen|jsonl|csv --kind KIND [--keyed] [--error N] [--initial VALUE] [--field ROLE=NAME].. [--op NAME=OPERATION]..\n";

// Why a log was not read to its end.
enum Unread {
    Fault,
    Long,
    NoMemory,
}

// All bytes of a source, which are at most `LOG_LIMIT`.
fn read_whole<S: Source>(alloc: Global, source: &mut S) -> Result<Vec<u8>, Unread> {
    let mut bytes: Vec<u8> = Vec::new(alloc);
    let Ok(mut piece) = vec![in alloc; 0; 65536] else {
        return Err(Unread::NoMemory);
    };
    for _ in 0..u64::MAX {
        let Ok(count) = source.read(&mut piece) else {
            return Err(Unread::Fault);
        };
        if count == 0 {
            break;
        }
        let Some(read) = piece.get(..count) else {
            break;
        };
        if bytes.extend_from_slice(read).is_err() {
            return Err(Unread::NoMemory);
        }
        if bytes.len() > LOG_LIMIT {
            return Err(Unread::Long);
        }
    }
    Ok(bytes)
}

// The command words after the program's name.
fn given_words<R: Env + AllocGlobal>(rt: &R) -> Result<Vec<String>, u8> {
    let mut given = match env::args(rt) {
        Ok(given) => given,
        Err(fault) if fault.kind() == ErrorKind::OutOfMemory => {
            return Err(Status::NoMemory.code());
        }
        Err(_) => return Err(NO_WORDS),
    };
    let mut words = Vec::new(rt.alloc());
    let _program = given.next();
    for word in given {
        if words.push(word).is_err() {
            return Err(Status::NoMemory.code());
        }
    }
    Ok(words)
}

// What is written of a log, and the status that the program ends with.
fn written(alloc: Global, options: &Options, bytes: &[u8]) -> Result<(Status, Vec<u8>), NoMemory> {
    match import(alloc, options, bytes) {
        Ok(imported) if imported.has_books => Ok((Status::Fine, imported.text)),
        Ok(imported) => Ok((Status::Refused, imported.text)),
        Err(LogError::Fault(fault)) => Ok((Status::Refused, log_refusal(alloc, fault)?)),
        Err(LogError::NoMemory) => Err(NoMemory),
    }
}

// Reads the log, and writes its books.
fn write_books<R: Input + Print + AllocGlobal>(rt: &R, options: &Options) -> Status {
    let mut source = StdSource::new(rt);
    let mut sink = StdSink::new(rt);
    match read_whole(rt.alloc(), &mut source) {
        Ok(bytes) => match written(rt.alloc(), options, &bytes) {
            Ok((status, text)) => write_text(&mut sink, status, &text),
            Err(NoMemory) => Status::NoMemory,
        },
        Err(Unread::Fault) => Status::ReadFault,
        Err(Unread::Long) => write_text(&mut sink, Status::Refused, b"refused 0 Long\n"),
        Err(Unread::NoMemory) => Status::NoMemory,
    }
}

fn run<R: Env + Input + Print + AllocGlobal>(rt: &R) -> u8 {
    let words = match given_words(rt) {
        Ok(words) => words,
        Err(code) => return code,
    };
    let mut given: Vec<&[u8]> = Vec::new(rt.alloc());
    for word in &words {
        if given.push(word.as_bytes()).is_err() {
            return Status::NoMemory.code();
        }
    }
    match options_of(rt.alloc(), &given) {
        Ok(Some(options)) => write_books(rt, &options).code(),
        Ok(None) => write_text(&mut StdSink::new(rt), Status::Usage, USAGE).code(),
        Err(NoMemory) => Status::NoMemory.code(),
    }
}

fn main(rt: HostRuntime) -> ExitCode {
    ExitCode::from(run(&rt))
}
