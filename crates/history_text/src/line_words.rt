//! The words of a line by their roles.

ghost use Rattle.std.specs.Prelude.{◌≡◌, map, IfOk, option_map, is_none, is_some};
ghost use Rattle.history_text.specs.Words.{is_no_client, in_brackets_of, plain_of};
ghost use Rattle.history_text.specs.Layout.{field_text, value_of};
ghost use Rattle.history_text.specs.Entry.{AreWords, stage_named, said_of, keyed_text, keyed_of, names_no_client, lacks_stage, lacks_list, has_wrong_moment, own_fault, stage_or_ok, list_in};

use crate::event::Stage;
use crate::fault::LogWhat;
use crate::fields::Field;
use crate::item::{in_brackets, is_nothing, is_text, items, plain};
use crate::layout::{Layout, Role};
use crate::moment::Moment;
use book_base::NoMemory;
use std::alloc::Global;

/// A key and a value, where a line has them.
#[derive(Clone, Copy)]
pub struct Keyed<'a> {
    pub key: Option<&'a [u8]>,
    pub value: Option<&'a [u8]>,
}

/// The words of a line by their roles.
#[derive(Clone, Copy)]
pub struct LineWords<'a> {
    /// The process, where it is named.
    pub process: Option<&'a [u8]>,
    /// The stage, where the line has a type, and where that is the name of one.
    pub stage: Option<Option<Stage>>,
    /// The name of the operation, as a plain word.
    pub operation: Option<&'a [u8]>,
    /// The key and the value. `None` where they are due as a list of two, and aren't one.
    pub keyed: Option<Keyed<'a>>,
    /// What is in the list of the arguments, where the line has arguments, and where they are a list.
    pub arguments: Option<Option<&'a [u8]>>,
    /// Whether the line is a whole call.
    pub whole: bool,
    pub time: Moment,
    pub start: Moment,
    pub end: Moment,
    /// The reply of a whole call.
    pub reply: Option<&'a [u8]>,
}

// The value of the first field with a role, where it says something.
fn said<'a>(layout: &Layout, fields: &[Field<'a>], role: Role) -> Option<&'a [u8]>
    ensures { option_map (λ word. word.now) result
        ≡ said_of layout.now (map field_text fields.now) role }
{
    match layout.find(fields, role) {
        Some(value) if !is_nothing(value) => Some(value),
        _ => None,
    }
}

// The stage that a type names, where there is one.
fn stage_of(word: Option<&[u8]>) -> Option<Option<Stage>>
    ensures { result ≡ option_map (λ word. stage_named (plain_of word))
        (option_map (λ word. word.now) word.entry) }
{
    match word {
        None => None,
        Some(word) => Some(Stage::from_name(plain(word))),
    }
}

// A word as a plain word.
fn plain_word(word: Option<&[u8]>) -> Option<&[u8]>
    ensures { option_map (λ word. word.now) result
        ≡ option_map plain_of (option_map (λ word. word.now) word.entry) }
{
    match word {
        None => None,
        Some(word) => Some(plain(word)),
    }
}

// What is in a list, where there is a word, and where it is a list.
fn list_of(word: Option<&[u8]>) -> Option<Option<&[u8]>>
    ensures { option_map (option_map (λ word. word.now)) result
        ≡ option_map in_brackets_of (option_map (λ word. word.now) word.entry) }
{
    match word {
        None => None,
        Some(word) => Some(in_brackets(word)),
    }
}

// Whether there is a word.
fn is_there(word: Option<&[u8]>) -> bool
    ensures { result ≡ is_some (option_map (λ word. word.now) word.entry) }
{
    match word {
        None => false,
        Some(_) => true,
    }
}

// The key and the value of a line. Where the layout says that values are pairs, the value is a
// list of two items, of which the first is the key.
fn read_keyed<'a>(
    alloc: Global,
    layout: &Layout,
    fields: &[Field<'a>],
) -> Result<Option<Keyed<'a>>, NoMemory>
    ensures { IfOk result (λ keyed. option_map keyed_text keyed
        ≡ keyed_of layout.now (map field_text fields.now)) }
{
    let value = layout.find(fields, Role::Value);
    if !layout.keyed {
        let key = said(layout, fields, Role::Key);
        return Ok(Some(Keyed { key, value }));
    }
    let Some(value) = value else {
        return Ok(None);
    };
    let Some(list) = in_brackets(value) else {
        return Ok(None);
    };
    let Some(pair) = items(alloc, false, list)? else {
        return Ok(None);
    };
    match pair.as_slice() {
        [key, value] => Ok(Some(Keyed {
            key: Some(*key),
            value: Some(*value),
        })),
        _ => Ok(None),
    }
}

impl<'a> LineWords<'a> {
    /// The words of a line with these fields.
    pub fn of(
        alloc: Global,
        layout: &Layout,
        fields: &[Field<'a>],
    ) -> Result<LineWords<'a>, NoMemory>
        ensures { IfOk result (AreWords layout.now (map field_text fields.now)) }
    {
        let keyed = read_keyed(alloc, layout, fields)?;
        let process = said(layout, fields, Role::Process);
        let kind = said(layout, fields, Role::Type);
        let name = said(layout, fields, Role::Operation);
        let list = said(layout, fields, Role::Arguments);
        let time = layout.find(fields, Role::Time);
        let start = layout.find(fields, Role::Start);
        let end = layout.find(fields, Role::End);
        let reply = layout.find(fields, Role::Reply);
        Ok(LineWords {
            process,
            stage: stage_of(kind),
            operation: plain_word(name),
            keyed,
            arguments: list_of(list),
            whole: is_there(start),
            time: Moment::of(time),
            start: Moment::of(start),
            end: Moment::of(end),
            reply,
        })
    }

    /// Whether the line is of no client, as of Jepsen's nemesis: its process is a keyword, or named
    /// `nemesis`.
    pub fn names_no_client(&self) -> bool
        ensures { result ≡ names_no_client self.now.process }
    {
        match self.process {
            None => false,
            Some([b':', ..]) => true,
            Some(process) => is_text(plain(process), "nemesis"),
        }
    }

    // Whether the type is missing from an event, or is none.
    fn lacks_stage(&self) -> bool
        ensures { result ≡ lacks_stage self.now.whole self.now.stage }
    {
        match self.stage {
            None => !self.whole,
            Some(stage) => stage.is_none(),
        }
    }

    // Whether there are arguments that are no list.
    fn lacks_list(&self) -> bool
        ensures { result ≡ lacks_list self.now.arguments }
    {
        match self.arguments {
            None => false,
            Some(list) => list.is_none(),
        }
    }

    // Whether the moments of the line are wrong.
    fn has_wrong_moment(&self) -> bool
        ensures { result ≡ has_wrong_moment self.now }
    {
        if self.whole {
            self.start.lasts_wrong(self.end)
        } else {
            self.time.is_wrong()
        }
    }

    /// What is wrong with the line by itself: the first test that fails.
    pub fn own_fault(&self) -> Option<LogWhat>
        ensures { result ≡ own_fault self.now }
    {
        if self.names_no_client() {
            return None;
        }
        if self.lacks_stage() {
            return Some(LogWhat::Type);
        }
        if self.operation.is_none() {
            return Some(LogWhat::Operation);
        }
        if self.keyed.is_none() || self.lacks_list() {
            return Some(LogWhat::Value);
        }
        if !self.whole && self.process.is_none() {
            return Some(LogWhat::Process);
        }
        if self.has_wrong_moment() {
            return Some(LogWhat::Time);
        }
        None
    }

    /// The stage of the line, that of an answer where it names none.
    pub fn stage(&self) -> Stage
        ensures { result ≡ stage_or_ok self.now.stage }
    {
        match self.stage {
            Some(Some(stage)) => stage,
            _ => Stage::Ok,
        }
    }

    /// What is in the list of the arguments, where there is one.
    pub fn list(&self) -> Option<&'a [u8]>
        ensures { result ≡ list_in self.now.arguments }
    {
        match self.arguments {
            Some(list) => list,
            None => None,
        }
    }
}
