ghost use Rattle.std.specs.Prelude.{◌≡◌, ◌<◌, length, IfOk, IfSome};
ghost use Rattle.level_refutations.specs.Closed.{MakeClosed};

use crate::check::check_levels;
use crate::cuts::raised;
use crate::entry::LevelEntry;
use crate::found::{FoundTable, Step};
use crate::node::Node;
use crate::table::next_callers;
use book_base::{BAD, Book, Call, MAX_CALLERS, NoMemory};
use search_hints::least_open;
use seq_objects::{DONE, NONE, StackOperation, wrapping_value_reply};
use std::alloc::Global;

// How often calls may lead to nodes, new or not, for each node that a search may come to.
const LINKS: u64 = 64;

/// Searches for entries that make a closed table for a stack's book, by breadth from the empty stack
/// after no call. The answer is `None` where the search comes to a cut that has all answered calls,
/// as it does in each book with a legal order, or to more than `limit` nodes.
///
/// The search isn't trusted: what it finds is judged. No clause says how often it finds entries.
pub fn find_levels(
    alloc: Global,
    book: &Book,
    limit: u64,
) -> Result<Option<Vec<LevelEntry>>, NoMemory>
    // The entries in the answer make a closed table.
    ensures { IfOk result (λ found. IfSome found (λ entries. MakeClosed book.now entries.items)) }
{
    let Some(table) = search(alloc, book, limit)? else {
        return Ok(None);
    };
    let entries = table.entries(alloc)?;
    match check_levels(alloc, book, &entries)? {
        Ok(()) => Ok(Some(entries)),
        Err(_) => Ok(None),
    }
}

// The table of all nodes that a search by breadth comes to.
fn search(alloc: Global, book: &Book, limit: u64) -> Result<Option<FoundTable>, NoMemory> {
    let mut table = FoundTable::start(alloc)?;
    for number in 0..limit {
        let Some(node) = table.nodes.get(number as usize).copied() else {
            return Ok(Some(table));
        };
        if !expand(alloc, book, &mut table, node)? || table.links > limit.saturating_mul(LINKS) {
            return Ok(None);
        }
    }
    Ok(None)
}

// Adds the nodes to which the next calls at a node lead. The answer is false where the node's cut has
// all answered calls.
fn expand(
    alloc: Global,
    book: &Book,
    table: &mut FoundTable,
    node: Node,
) -> Result<bool, NoMemory> {
    let Some(counts) = table.cuts.get_index(node.cut as usize).copied() else {
        return Ok(false);
    };
    let callers = book.callers() as usize;
    let Some(first) = least_open(book, &counts[..callers]) else {
        return Ok(false);
    };
    let marks = next_callers(book, &counts[..callers], first);
    for caller in 0..book.callers() {
        if marks.has(caller) {
            follow(alloc, book, table, node, &counts, caller)?;
        }
    }
    Ok(true)
}

// Adds the nodes to which the next call of a caller at a node leads, where its reply is none or the
// one that a stack gives.
fn follow(
    alloc: Global,
    book: &Book,
    table: &mut FoundTable,
    node: Node,
    counts: &[u16; MAX_CALLERS],
    caller: u32,
) -> Result<(), NoMemory>
    requires { caller < length book.now }
{
    let _callers = book.callers();
    let number = u64::from(counts[caller as usize]);
    if number >= book.calls(caller) {
        return Ok(());
    }
    let call = Call { caller, number };
    let operation = StackOperation::from_word(book.op(call));
    let item = table.item(node.level);
    if number < book.answers(caller) && book.record(call).reply != reply_at(operation, item) {
        return Ok(());
    }
    let step = Step {
        from: node.cut,
        caller,
        after: raised(counts, caller),
    };
    match operation {
        Some(StackOperation::Push(value)) => table.push(alloc, node.level, value, step),
        Some(StackOperation::Pop) if item.is_some() => table.pop(node.level, step),
        _ => table.stay(node.level, step),
    }
}

// The reply of an operation at a stack with this item on top.
fn reply_at(operation: Option<StackOperation>, item: Option<u32>) -> u64 {
    match (operation, item) {
        (Some(StackOperation::Push(_)), _) => DONE,
        (Some(StackOperation::Pop), Some(value)) => wrapping_value_reply(u64::from(value)),
        (Some(StackOperation::Pop), None) => NONE,
        (None, _) => BAD,
    }
}
