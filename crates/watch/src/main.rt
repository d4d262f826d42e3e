//! The program: it reads the text of a stream as it comes, and says of the objects in it whether
//! their calls so far have legal orders.
#![tactic(auto)]

mod ending;
mod objects;
mod settings;
mod telling;
mod watched_source;
mod watching;

use byte_streams::{Status, StdSink, StdSource, write_text};
use settings::Settings;
use std::env;
use std::io::ErrorKind;
use std::process::ExitCode;
use std::rt::Env;
use watched_source::watch_source;

/// The code that the program ends with where the system doesn't hand over the command words.
const NO_WORDS: u8 = 7;

/// The output for other words.
const USAGE: &[u8] = b"usage: watch [--every LINES] [--most DESCRIPTIONS] [--window EVENTS]\n";

// The settings that the command words say, where they are right; or, where they can't be had, the
// code that the program ends with.
fn settings_asked<R: Env + AllocGlobal>(rt: &R) -> Result<Option<Settings>, u8> {
    let mut words = match env::args(rt) {
        Ok(words) => words,
        Err(fault) if fault.kind() == ErrorKind::OutOfMemory => return Err(Status::NoMemory.code()),
        Err(_) => return Err(NO_WORDS),
    };
    let _program = words.next();
    let mut settings = Settings::new();
    for _ in 0..3 {
        let (Some(flag), count) = (words.next(), words.next()) else {
            return Ok(Some(settings));
        };
        let Some(count) = count.and_then(|word| word.parse::<u64>().ok()) else {
            return Ok(None);
        };
        if !settings.set(flag.as_str(), count) {
            return Ok(None);
        }
    }
    if words.next().is_some() {
        return Ok(None);
    }
    Ok(Some(settings))
}

fn run<R: Env + Input + Print + AllocGlobal>(rt: &R) -> u8 {
    let mut sink = StdSink::new(rt);
    match settings_asked(rt) {
        Ok(Some(settings)) => {
            let mut source = StdSource::new(rt);
            watch_source(rt.alloc(), settings, &mut source, &mut sink).code()
        }
        Ok(None) => write_text(&mut sink, Status::Usage, USAGE).code(),
        Err(code) => code,
    }
}

fn main(rt: HostRuntime) -> ExitCode {
    ExitCode::from(run(&rt))
}
