ghost use Rattle.std.specs.Prelude.{◌≡◌, ℕ, map, IfOk, Ok};
ghost use Rattle.history_text.specs.Layout.{field_text};
ghost use Rattle.history_text.specs.Entry.{answer_said, whole_said, event_said, entry_said, IsRead};

use crate::call::{LogAnswer, LogCall};
use crate::event::{Event, Stage};
use crate::fault::LogWhat;
use crate::fields::Field;
use crate::layout::Layout;
use crate::line_words::{Keyed, LineWords};
use book_base::NoMemory;
use std::alloc::Global;

/// What a line of a log says.
#[derive(Clone, Copy)]
pub enum Entry<'a> {
    /// An event of a call.
    OfCall(Event<'a>),
    /// A whole call: its invocation and, where it has one, its answer.
    Whole(LogCall<'a>),
    /// No call, as an event of Jepsen's nemesis, or a whole call that failed.
    Other,
}

/// What a line of a log says, with the line's number.
#[derive(Clone, Copy)]
pub struct LinedEntry<'a> {
    pub line: u64,
    pub entry: Entry<'a>,
}

// The answer of a whole call that returned at a moment.
fn answer<'a>(line: u64, words: &LineWords<'a>, returned: Option<u64>) -> Option<LogAnswer<'a>>
    ensures { result ≡ answer_said line words.now returned }
{
    match returned {
        None => None,
        Some(returned) => Some(LogAnswer {
            line,
            returned,
            value: words.reply,
        }),
    }
}

// What the line of a whole call says.
fn whole<'a>(line: u64, words: &LineWords<'a>, operation: &'a [u8], keyed: Keyed<'a>) -> Entry<'a>
    ensures { result ≡ whole_said line words.now operation.entry keyed.entry }
{
    let stage = words.stage();
    if stage == Stage::Fail {
        return Entry::Other;
    }
    let answer = match stage {
        Stage::Info => None,
        _ => answer(line, words, words.end.at()),
    };
    Entry::Whole(LogCall {
        process: words.process,
        key: keyed.key,
        operation,
        value: keyed.value,
        arguments: words.list(),
        line,
        invoked: words.start.at().unwrap_or(0),
        answer,
    })
}

// What the line of an event says.
fn event<'a>(words: &LineWords<'a>, operation: &'a [u8], keyed: Keyed<'a>) -> Entry<'a>
    ensures { result ≡ event_said words.now operation.entry keyed.entry words.now.process }
{
    let Some(process) = words.process else {
        return Entry::Other;
    };
    Entry::OfCall(Event {
        process,
        stage: words.stage(),
        operation,
        key: keyed.key,
        value: keyed.value,
        arguments: words.list(),
        time: words.time.at(),
    })
}

// What a line without a fault says.
fn said<'a>(line: u64, words: &LineWords<'a>) -> Entry<'a>
    ensures { result ≡ entry_said line words.now }
{
    if words.names_no_client() {
        return Entry::Other;
    }
    match (words.operation, words.keyed) {
        (Some(operation), Some(keyed)) if words.whole => whole(line, words, operation, keyed),
        (Some(operation), Some(keyed)) => event(words, operation, keyed),
        _ => Entry::Other,
    }
}

/// What a line with these fields says, or what is wrong with it by itself.
pub fn read_entry<'a>(
    alloc: Global,
    layout: &Layout,
    line: u64,
    fields: &[Field<'a>],
) -> Result<Result<Entry<'a>, LogWhat>, NoMemory>
    ensures { IfOk result (IsRead layout.now line (map field_text fields.now)) }
{
    let words = LineWords::of(alloc, layout, fields)?;
    match words.own_fault() {
        None => Ok(Ok(said(line, &words))),
        Some(what) => Ok(Err(what)),
    }
}
