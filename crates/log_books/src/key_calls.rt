//! The calls of one key, as calls of the kind with numbers for their values.

ghost use Rattle.std.specs.Prelude.{◌≡◌, ◌<◌, All, Some, IfOk, IfSome, IfNone, IsPermutation, List, length, map, option_map, unwrap_or};
ghost use Rattle.log_books.specs.declared.key_calls.LinedCall.{LinedCall};
ghost use Rattle.log_books.specs.Calls.{IsMadeOf, IsLeftOut, AreMadeAt};
ghost use Rattle.log_books.specs.Words.{names_of, KeepsNames, has_numbers, says_no, says_yes, arguments_of, IsWordOf, IsReplyOf};

use crate::names::Names;
use crate::operation::{Operation, Says, has_numbers};
use crate::options::Options;
use book_base::{NoMemory, OpWord};
use history_books::{Answer, TimedCall};
use history_text::{
    LogAnswer, LogCall, LogError, LogFault, LogWhat, in_brackets, is_nothing, items,
};
use indexmap::IndexSet;
use seq_objects::{DONE, Kind, NO, NONE, YES, put_number, wrapping_value_reply};
use std::alloc::Global;

/// The calls of a key, as a book wants them, and the lines of each in the log.
#[derive(Drop)]
pub struct KeyCalls<'a> {
    pub names: Names<'a>,
    pub calls: Vec<LinedCall>,
}

/// A call, and its lines in the log: that of its invocation, and that of its answer.
#[derive(Clone, Copy, Debug)]
pub struct LinedCall {
    pub call: TimedCall,
    pub line: u64,
    pub end: Option<u64>,
}

// The fault of a line.
fn wrong(line: u64, what: LogWhat) -> LogError {
    LogError::Fault(LogFault { line, what })
}

// The arguments of a call, as they are written: for a map the call's key comes first.
fn arguments<'a>(
    alloc: Global,
    options: &Options,
    operation: Operation,
    call: &LogCall<'a>,
) -> Result<Vec<&'a [u8]>, LogError>
    ensures given { IfOk result (λ found. arguments_of options.now.kind operation.arguments call.now
        ≡ Some (map (λ value. value.now) found.items)) }
    ensures many { IfOk result (λ found. length found.items ≡ operation.arguments) }
{
    let mut found = Vec::new(alloc);
    if options.kind == Kind::Map {
        if let Some(key) = call.key {
            found.push(key)?;
        }
    }
    let missing = operation.arguments.saturating_sub(found.len());
    let list = match call.arguments {
        Some(list) => Some(list),
        None if missing > 1 => match call.value {
            Some(value) => in_brackets(value),
            None => None,
        },
        None => None,
    };
    match list {
        Some(list) => {
            let Some(parts) = items(alloc, false, list)? else {
                return Err(wrong(call.line, LogWhat::Value));
            };
            found.extend_from_slice(&parts)?;
        }
        None if missing == 1 => match call.value {
            Some(value) => found.push(value)?,
            None => return Err(wrong(call.line, LogWhat::Value)),
        },
        None => {}
    }
    if found.len() != operation.arguments {
        return Err(wrong(call.line, LogWhat::Value));
    }
    Ok(found)
}

// The operation word of an operation with these arguments.
#[tactic(auto, using(crate::proofs::Making::keeps_both))]
fn word_of<'a>(
    alloc: Global,
    options: &Options,
    operation: Operation,
    names: &mut Names<'a>,
    call: &LogCall<'a>,
) -> Result<OpWord, LogError>
    requires { names.old.numbered ≡ has_numbers options.now.kind }
    ensures numbered { names.new.numbered ≡ names.old.numbered }
    ensures keeps { KeepsNames (names_of names.old) (names_of names.new) }
    ensures word { IfOk result (IsWordOf options.now (names_of names.new) operation call.now) }
{
    let mut words: Vec<Vec<u8>> = Vec::new(alloc);
    for argument in &arguments(alloc, options, operation, call)? {
        let Some(value) = names.number_of(*argument)? else {
            return Err(wrong(call.line, LogWhat::Value));
        };
        let mut word = Vec::new(alloc);
        put_number(&mut word, value)?;
        words.push(word)?;
    }
    let (second, third) = match words.as_slice() {
        [] => (None, None),
        [one] => (Some(one.as_slice()), None),
        [one, other] => (Some(one.as_slice()), Some(other.as_slice())),
        _ => return Err(wrong(call.line, LogWhat::Value)),
    };
    match options
        .kind
        .op_from_words(operation.name.as_bytes(), second, third)
    {
        Some((word, _)) => Ok(word),
        None => Err(wrong(call.line, LogWhat::Operation)),
    }
}

// The reply word of an answer.
fn reply_of<'a>(
    operation: Operation,
    names: &mut Names<'a>,
    initial: &'a [u8],
    answer: &LogAnswer<'a>,
) -> Result<u64, LogError>
    ensures numbered { names.new.numbered ≡ names.old.numbered }
    ensures keeps { KeepsNames (names_of names.old) (names_of names.new) }
    ensures reply { IfOk result (IsReplyOf names.new.numbered (names_of names.new) operation.says
        (unwrap_or (option_map (λ value. value.now) answer.now.value) initial.entry.now)) }
{
    let value = answer.value.unwrap_or(initial);
    match operation.says {
        Says::Done => Ok(DONE),
        Says::Success => Ok(if is_no(value) { NO } else { YES }),
        Says::Whether if is_no(value) => Ok(NO),
        Says::Whether if is_yes(value) => Ok(YES),
        Says::Whether => Err(wrong(answer.line, LogWhat::Reply)),
        Says::Maybe if is_nothing(value) => Ok(NONE),
        _ => match names.number_of(value)? {
            Some(number) => Ok(wrapping_value_reply(number)),
            None => Err(wrong(answer.line, LogWhat::Reply)),
        },
    }
}

fn is_no(value: &[u8]) -> bool
    ensures { result ≡ says_no value.now }
{
    matches!(value, b"false" | b"no" | b"0")
}

fn is_yes(value: &[u8]) -> bool
    ensures { result ≡ says_yes value.now }
{
    matches!(value, b"true" | b"yes" | b"1")
}

// The fault with the lesser line, of which the first one is taken where the lines are equal.
pub fn earlier(first: Option<LogFault>, second: LogFault) -> LogFault {
    match first {
        Some(first) if first.line <= second.line => first,
        _ => second,
    }
}

// A call of the log as a call of the kind. A lost call that changes nothing is none.
fn lined<'a>(
    alloc: Global,
    options: &Options<'a>,
    names: &mut Names<'a>,
    process: u64,
    call: &LogCall<'a>,
) -> Result<Option<LinedCall>, LogError>
    requires { names.old.numbered ≡ has_numbers options.now.kind }
    ensures numbered { names.new.numbered ≡ names.old.numbered }
    ensures keeps { KeepsNames (names_of names.old) (names_of names.new) }
    ensures made { IfOk result (λ found. IfSome found
        (IsMadeOf options.now (names_of names.new) call.now)) }
    ensures left_out { IfOk result (λ found. IfNone found (IsLeftOut options.now call.now)) }
{
    let Some(operation) = options.operation(call.operation) else {
        return Err(wrong(call.line, LogWhat::Operation));
    };
    let op = word_of(alloc, options, operation, names, call)?;
    let (answer, end) = match call.answer {
        None if operation.reads => return Ok(None),
        None => (None, None),
        Some(answer) => {
            let reply = reply_of(operation, names, options.initial, &answer)?;
            let returned = answer.returned;
            (Some(Answer { returned, reply }), Some(answer.line))
        }
    };
    Ok(Some(LinedCall {
        call: TimedCall {
            process,
            op,
            invoked: call.invoked,
            answer,
        },
        line: call.line,
        end,
    }))
}

impl<'a> KeyCalls<'a> {
    /// The calls at these places of the log, without lost ones that change nothing. Of all faults
    /// of their words the first one, by its line, is answered.
    pub fn of(
        alloc: Global,
        options: &Options<'a>,
        log: &[LogCall<'a>],
        places: &[usize],
    ) -> Result<KeyCalls<'a>, LogError>
        requires { All (λ place. place < length log.now) places.now }
        ensures { IfOk result (λ found. (made : List LinedCall)
            × AreMadeAt options.now (names_of found.names) log.now places.now made
            × IsPermutation made found.calls.items) }
    {
        let mut names = Names::new(alloc, has_numbers(options.kind), options.initial)?;
        let mut users: IndexSet<Option<&'a [u8]>> = IndexSet::new(alloc);
        let mut calls = Vec::new(alloc);
        let mut fault: Option<LogFault> = None;
        for place in places {
            let call = &log[*place];
            let process = users.insert_full(call.process)?.0 as u64;
            match lined(alloc, options, &mut names, process, call) {
                Ok(Some(lined)) => calls.push(lined)?,
                Ok(None) => {}
                Err(LogError::Fault(found)) => fault = Some(earlier(fault, found)),
                Err(LogError::NoMemory) => return Err(LogError::NoMemory),
            }
        }
        if let Some(fault) = fault {
            return Err(LogError::Fault(fault));
        }
        calls.sort_by_key(|lined: &LinedCall| lined.call.invoked)?;
        Ok(KeyCalls { names, calls })
    }
}
