ghost use Rattle.std.specs.Prelude.{◌≡◌, ◌^◌, ◌<◌, ◌∷◌, ◌++◌, map, IfSome, IfNone, OnOk, OnErr, option_map, option_copied};
ghost use Rattle.seq_objects.specs.Words as words;
ghost use Rattle.seq_objects.specs.Words.{further, AppendsPrefix};
ghost use Rattle.seq_objects.specs.EntryView.{shown, entry_named, text_of, spaced_arguments, IsWrittenWith, LacksArguments};

use crate::digits::{argument, put_marked};
use crate::kind::Kind;
use book_base::{NoMemory, OpWord, high, join, low};

/// How many values an argument can have.
const ARGUMENTS: u64 = 1 << 32;

/// How many numbers follow an operation's name.
#[derive(Clone, Copy)]
pub enum Arity {
    Nullary,
    Unary,
    Binary,
}

/// An entry of a kind's table: the name of an operation, its code, and how many numbers follow the
/// name.
#[derive(Clone, Copy)]
pub struct OperationEntry {
    pub name: &'static str,
    pub code: u32,
    pub arity: Arity,
}

pub const ENQ: OperationEntry = OperationEntry {
    name: "enq",
    code: 1,
    arity: Arity::Unary,
};

pub const DEQ: OperationEntry = OperationEntry {
    name: "deq",
    code: 2,
    arity: Arity::Nullary,
};

pub const PUSH: OperationEntry = OperationEntry {
    name: "push",
    code: 1,
    arity: Arity::Unary,
};

pub const POP: OperationEntry = OperationEntry {
    name: "pop",
    code: 2,
    arity: Arity::Nullary,
};

pub const WRITE: OperationEntry = OperationEntry {
    name: "write",
    code: 1,
    arity: Arity::Unary,
};

pub const READ: OperationEntry = OperationEntry {
    name: "read",
    code: 2,
    arity: Arity::Nullary,
};

pub const INC: OperationEntry = OperationEntry {
    name: "inc",
    code: 1,
    arity: Arity::Nullary,
};

pub const ADD: OperationEntry = OperationEntry {
    name: "add",
    code: 1,
    arity: Arity::Unary,
};

pub const REMOVE: OperationEntry = OperationEntry {
    name: "remove",
    code: 2,
    arity: Arity::Unary,
};

pub const HAS: OperationEntry = OperationEntry {
    name: "has",
    code: 3,
    arity: Arity::Unary,
};

pub const INSERT: OperationEntry = OperationEntry {
    name: "insert",
    code: 1,
    arity: Arity::Unary,
};

pub const MIN: OperationEntry = OperationEntry {
    name: "min",
    code: 2,
    arity: Arity::Nullary,
};

pub const CAS: OperationEntry = OperationEntry {
    name: "cas",
    code: 3,
    arity: Arity::Binary,
};

pub const PUT: OperationEntry = OperationEntry {
    name: "put",
    code: 1,
    arity: Arity::Binary,
};

pub const GET: OperationEntry = OperationEntry {
    name: "get",
    code: 2,
    arity: Arity::Unary,
};

pub const DEL: OperationEntry = OperationEntry {
    name: "del",
    code: 3,
    arity: Arity::Unary,
};

/// The table of operations that a kind knows.
#[tactic(auto, unfolding(crate::specs::Words::entries))]
pub fn entries(kind: Kind) -> &'static [OperationEntry]
    ensures { map shown result.now ≡ words.entries kind }
{
    match kind {
        Kind::Queue => &[ENQ, DEQ],
        Kind::Stack => &[PUSH, POP],
        Kind::Register => &[WRITE, READ],
        Kind::Counter => &[INC],
        Kind::IntSet => &[ADD, REMOVE, HAS],
        Kind::Pqueue => &[INSERT, MIN],
        Kind::CasRegister => &[WRITE, READ, CAS],
        Kind::Map => &[PUT, GET, DEL],
    }
}

/// The code of an operation word.
fn code_of(word: OpWord) -> u64
    ensures { result ≡ words.code_of word }
{
    low(word) / ARGUMENTS
}

/// The argument of an operation word.
pub fn argument_of(word: OpWord) -> u32
    ensures { result ≡ words.argument_of word }
{
    (low(word) % ARGUMENTS) as u32
}

/// The extra of an operation word, where it is below 2^32.
pub fn extra_of(word: OpWord) -> u32
    requires { words.extra_of word < 2 ^ 32 }
    ensures { result ≡ words.extra_of word }
{
    high(word) as u32
}

/// The operation word of a code, an argument and an extra.
fn word_of(code: u32, argument: u32, extra: u32) -> OpWord
    ensures { result ≡ words.word_of code argument extra }
{
    let low = u64::from(code) * ARGUMENTS + u64::from(argument);
    join(low, u64::from(extra))
}

impl Arity {
    /// Whether an operation word has the arguments of this arity.
    fn fits(self, word: OpWord) -> bool
        ensures { result ≡ words.has_arguments self word }
    {
        match self {
            Arity::Nullary => argument_of(word) == 0 && high(word) == 0,
            Arity::Unary => high(word) == 0,
            Arity::Binary => high(word) < ARGUMENTS,
        }
    }
}

impl OperationEntry {
    /// Whether an operation word is one of this entry.
    pub fn has(&self, word: OpWord) -> bool
        ensures { result ≡ words.is_operation_of word (shown self.now) }
    {
        code_of(word) == u64::from(self.code) && self.arity.fits(word)
    }

    /// The operation word of this entry with the arguments that the words `second` and `third` of a
    /// text spell, and how many of these two words the entry uses. Answers `None` where a word that
    /// the entry uses is missing or spells no argument.
    pub fn operation(&self, second: Option<&[u8]>, third: Option<&[u8]>) -> Option<(OpWord, u32)>
        ensures found { IfSome result (λ (word, used).
            let words_left = further (option_copied second.entry) (option_copied third.entry) in
            IsWrittenWith (shown self.now) words_left word used) }
        ensures none { IfNone result
            (let words_left = further (option_copied second.entry) (option_copied third.entry) in
            LacksArguments (shown self.now) words_left) }
    {
        match self.arity {
            Arity::Nullary => Some((word_of(self.code, 0, 0), 0)),
            Arity::Unary => Some((word_of(self.code, argument(second?)?, 0), 1)),
            Arity::Binary => {
                let word = word_of(self.code, argument(second?)?, argument(third?)?);
                Some((word, 2))
            }
        }
    }

    /// Appends the text of an operation word of this entry.
    pub fn put(&self, out: &mut Vec<u8>, word: OpWord) -> Result<(), NoMemory>
        ensures ok { OnOk result (out.new.items ≡ out.old.items ++ text_of (shown self.now) word) }
        ensures err { OnErr result
            (AppendsPrefix out.old.items out.new.items (text_of (shown self.now) word)) }
    {
        out.extend_from_slice(self.name.as_bytes())?;
        put_arguments(out, self.arity, word)
    }
}

/// Appends the arguments of an operation word, each after a space.
fn put_arguments(out: &mut Vec<u8>, arity: Arity, word: OpWord) -> Result<(), NoMemory>
    ensures ok { OnOk result (out.new.items ≡ out.old.items ++ spaced_arguments arity word) }
    ensures err { OnErr result
        (AppendsPrefix out.old.items out.new.items (spaced_arguments arity word)) }
{
    match arity {
        Arity::Nullary => Ok(()),
        Arity::Unary => put_marked(out, b' ', u64::from(argument_of(word))),
        Arity::Binary => {
            put_marked(out, b' ', u64::from(argument_of(word)))?;
            put_marked(out, b' ', high(word))
        }
    }
}

/// The entry of an operation word in a kind's table, where the kind knows the word.
pub fn entry_of(kind: Kind, word: OpWord) -> Option<OperationEntry>
    ensures { option_map shown result ≡ words.entry_of kind word }
{
    entries(kind).iter().find(|entry| entry.has(word)).copied()
}

/// The entry with the name `name` in a kind's table of operations.
pub fn entry_named(kind: Kind, name: &[u8]) -> Option<OperationEntry>
    ensures { option_map shown result ≡ entry_named kind name.now }
{
    entries(kind)
        .iter()
        .find(|entry| entry.name.as_bytes() == name)
        .copied()
}
