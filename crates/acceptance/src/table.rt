use crate::case::Case;
use crate::trial::{Told, Trial};
use anyhow::{Context, Result, anyhow};
use std::alloc::Global;
use std::io::Write;

/// Adds to a case what a line of the table of cases says.
pub fn take_line(alloc: Global, case: &mut Case, line: &str) -> Result<()> {
    if line.is_empty() || line.starts_with('#') {
        return Ok(());
    }
    let (key, value) = line.split_once(' ').unwrap_or((line, ""));
    match key {
        "words" => take_words(alloc, &mut case.words, value),
        "in" => take_bytes(&mut case.input, value, "\n"),
        "in-cut" => take_bytes(&mut case.input, value, ""),
        "in-byte" => {
            case.input.push(value.parse::<u8>().context("a byte")?)?;
            Ok(())
        }
        "in-fill" => take_fill(&mut case.input, value),
        "in-calls" => take_calls(&mut case.input, value),
        "in-answered" => take_answered(&mut case.input, value),
        "in-turns" => take_turns(&mut case.input, value),
        "in-each" => take_each(&mut case.input, value),
        "in-rounds" => take_rounds(&mut case.input, value),
        "fronts" => set_trial(case, Trial::Prefixes),
        "each-read-fails" => set_trial(case, Trial::Reads),
        "each-write-fails" => set_trial(case, Trial::Writes),
        "delivered" => {
            let calls = value.parse::<u64>().context("a number of calls")?;
            set_trial(case, Trial::AnySchedule(Told::Delivered(calls)))
        }
        "overlapping" => {
            let calls = value.parse::<u64>().context("a number of calls")?;
            set_trial(case, Trial::AnySchedule(Told::Overlapping(calls)))
        }
        "certified" => set_trial(case, Trial::AnySchedule(Told::Certified)),
        "source-fails" => take_numbers(&mut case.source_fails, value),
        "source-most" => set_size(&mut case.source_most, value),
        "source-steady" => {
            case.is_steady = true;
            Ok(())
        }
        "sink-fails" => take_numbers(&mut case.sink_fails, value),
        "sink-most" => set_size(&mut case.sink_most, value),
        "sink-room" => set_size(&mut case.sink_room, value),
        "out" => take_bytes(&mut case.wanted, value, "\n"),
        "out-cut" => take_bytes(&mut case.wanted, value, ""),
        "out-each" => take_each(&mut case.wanted, value),
        "out-rounds" => take_rounds(&mut case.wanted, value),
        "left" => {
            case.left = Some(value.parse::<usize>().context("a number of bytes")?);
            Ok(())
        }
        "status" => {
            case.status = value.parse::<u8>().context("a status")?;
            Ok(())
        }
        _ => Err(anyhow!("no line of a case: {line}")),
    }
}

fn take_words(alloc: Global, words: &mut Vec<String>, value: &str) -> Result<()> {
    for word in value.split(' ') {
        words.push(String::from_str(alloc, word)?)?;
    }
    Ok(())
}

fn take_bytes(bytes: &mut Vec<u8>, value: &str, end: &str) -> Result<()> {
    bytes.extend_from_slice(value.as_bytes())?;
    bytes.extend_from_slice(end.as_bytes())?;
    Ok(())
}

fn take_fill(bytes: &mut Vec<u8>, value: &str) -> Result<()> {
    for _ in 0..value.parse::<u64>().context("a count")? {
        bytes.push(b'x')?;
    }
    Ok(())
}

fn take_calls(bytes: &mut Vec<u8>, value: &str) -> Result<()> {
    let (caller, rest) = value.split_once(' ').context("a caller")?;
    let (count, operation) = rest.split_once(' ').context("a count")?;
    for number in 0..count.parse::<u64>().context("a count")? {
        writeln!(bytes, "{caller} {number} {operation}")?;
    }
    Ok(())
}

fn take_answered(bytes: &mut Vec<u8>, value: &str) -> Result<()> {
    let (caller, rest) = value.split_once(' ').context("a caller")?;
    let (count, answer) = rest.split_once(' ').context("a count")?;
    for number in 0..count.parse::<u64>().context("a count")? {
        let own = number.saturating_add(1);
        writeln!(bytes, "{caller} {number} {answer} view {caller}:{own}")?;
    }
    Ok(())
}

fn take_turns(bytes: &mut Vec<u8>, value: &str) -> Result<()> {
    let (caller, count) = value.split_once(' ').context("a caller")?;
    bytes.extend_from_slice(b"turns")?;
    for _ in 0..count.parse::<u64>().context("a count")? {
        bytes.push(b' ')?;
        bytes.extend_from_slice(caller.as_bytes())?;
    }
    bytes.push(b'\n')?;
    Ok(())
}

fn take_each(bytes: &mut Vec<u8>, value: &str) -> Result<()> {
    let (callers, rest) = value.split_once(' ').context("a number of callers")?;
    let (count, operations) = rest.split_once(' ').context("a count")?;
    let callers = callers.parse::<u64>().context("a number of callers")?;
    let count = count.parse::<u64>().context("a count")?;
    write!(bytes, "callers {callers}\ncalls")?;
    for _ in 0..callers {
        write!(bytes, " {count}")?;
    }
    bytes.push(b'\n')?;
    for caller in 0..callers {
        take_operations(bytes, caller, count, operations)?;
    }
    Ok(())
}

// Appends the lines of a caller's calls, which take the operations in turn.
fn take_operations(bytes: &mut Vec<u8>, caller: u64, count: u64, operations: &str) -> Result<()> {
    let mut rest = operations;
    for number in 0..count {
        let (operation, next) = rest.split_once(", ").unwrap_or((rest, operations));
        take_operation(bytes, caller, number, operation)?;
        rest = next;
    }
    Ok(())
}

// Appends the line of a call, with a number of its own in place of a `*` in the operation.
fn take_operation(bytes: &mut Vec<u8>, caller: u64, number: u64, operation: &str) -> Result<()> {
    let own = caller.saturating_mul(256).saturating_add(number);
    match operation.split_once('*') {
        Some((before, suffix)) => writeln!(bytes, "{caller} {number} {before}{own}{suffix}")?,
        None => writeln!(bytes, "{caller} {number} {operation}")?,
    }
    Ok(())
}

fn take_rounds(bytes: &mut Vec<u8>, value: &str) -> Result<()> {
    let (callers, rest) = value.split_once(' ').context("a number of callers")?;
    let (count, turns) = rest.split_once(' ').context("a count")?;
    let callers = callers.parse::<u64>().context("a number of callers")?;
    let turns = turns.parse::<u64>().context("a number of turns")?;
    bytes.extend_from_slice(b"turns")?;
    for _ in 0..count.parse::<u64>().context("a count")? {
        take_round(bytes, callers, turns)?;
    }
    bytes.push(b'\n')?;
    Ok(())
}

// Appends this many turns of each caller, one caller after the other.
fn take_round(bytes: &mut Vec<u8>, callers: u64, turns: u64) -> Result<()> {
    for caller in 0..callers {
        for _ in 0..turns {
            write!(bytes, " {caller}")?;
        }
    }
    Ok(())
}

fn set_trial(case: &mut Case, trial: Trial) -> Result<()> {
    case.trial = trial;
    Ok(())
}

fn take_numbers(numbers: &mut Vec<u64>, value: &str) -> Result<()> {
    for number in value.split(' ') {
        numbers.push(number.parse::<u64>().context("a number")?)?;
    }
    Ok(())
}

fn set_size(size: &mut usize, value: &str) -> Result<()> {
    *size = value.parse::<usize>().context("a number")?;
    Ok(())
}
