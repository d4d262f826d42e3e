ghost use Rattle.std.specs.Prelude.{◌≡◌, ◌+◌, ◌<◌, length, drop, map, IfOk, IfSome, IfNone, option_map, bytes_eq};
ghost use Rattle.history_text.specs.Scan.{IsPlaceBefore};
ghost use Rattle.history_text.specs.Words.{inside_of, in_braces_of, in_brackets_of, plain_of, says_nothing};
ghost use Rattle.history_text.specs.Items.{with_more, items_from, items_of};

use crate::scan::{Place, Step, sort_of, step_of};
use book_base::NoMemory;
use std::alloc::Global;

// Reads the byte at a place of the line: an item that ends there is put to those found. The answer
// is the reader's next place, or `None` where a group ends that didn't begin.
fn take_byte<'a>(
    found: &mut Vec<&'a [u8]>,
    place: Place,
    json: bool,
    line: &'a [u8],
    at: usize,
) -> Result<Option<Place>, NoMemory>
    requires inside { at < length line.now }
    requires place { IsPlaceBefore at place }
    ensures place { IfOk result (λ next. IfSome next (IsPlaceBefore (at + 1))) }
    ensures items { IfOk result (λ next. IfSome next (λ next.
        with_more (map (λ item. item.now) found.new.items)
        (items_from json line.now next (at + 1) (drop (at + 1) line.now))
        ≡ with_more (map (λ item. item.now) found.old.items)
        (items_from json line.now place at (drop at line.now)))) }
    ensures wrong { IfOk result (λ next. IfNone next
        (with_more (map (λ item. item.now) found.old.items) (items_from json line.now place at (drop at line.now))
        ≡ None)) }
{
    match step_of(place, at, sort_of(json, line[at])) {
        Step::Goes(next) => Ok(Some(next)),
        Step::Ends(start, end) => {
            found.push(&line[start..end])?;
            Ok(Some(Place::Between))
        }
        Step::Wrong => Ok(None),
    }
}

/// The items of a line of EDN or JSON, in their order: atoms, texts in quotes and groups in
/// brackets, with gaps between them. `None` where a bracket or a quote has no counterpart.
pub fn items<'a>(
    alloc: Global,
    json: bool,
    line: &'a [u8],
) -> Result<Option<Vec<&'a [u8]>>, NoMemory>
    ensures { IfOk result (λ found.
        option_map (λ items. map (λ item. item.now) items.items) found ≡ items_of json line.now) }
{
    let mut found = Vec::new(alloc);
    let mut place = Place::Between;
    for at in 0..line.len() {
        match take_byte(&mut found, place, json, line, at)? {
            Some(next) => place = next,
            None => return Ok(None),
        }
    }
    match place {
        Place::Between => Ok(Some(found)),
        Place::Atom(start) => {
            found.push(&line[start..line.len()])?;
            Ok(Some(found))
        }
        _ => Ok(None),
    }
}

// Whether bytes are those of a text.
pub(crate) fn is_text(bytes: &[u8], text: &str) -> bool
    ensures { result ≡ bytes_eq bytes.now text.now }
{
    bytes == text.as_bytes()
}

// What is between the first and the last byte of an item that begins and ends so.
fn inside(item: &[u8], first: u8, last: u8) -> Option<&[u8]>
    ensures { option_map (λ inside. inside.now) result ≡ inside_of first last item.entry.now }
{
    match item {
        [begin, inside @ .., end] if *begin == first && *end == last => Some(inside),
        _ => None,
    }
}

/// What is in the braces of an item that is one map.
pub fn in_braces(item: &[u8]) -> Option<&[u8]>
    ensures { option_map (λ inside. inside.now) result ≡ in_braces_of item.entry.now }
{
    inside(item, b'{', b'}')
}

/// What is in the brackets or parentheses of an item that is one list.
pub fn in_brackets(item: &[u8]) -> Option<&[u8]>
    ensures { option_map (λ inside. inside.now) result ≡ in_brackets_of item.entry.now }
{
    match inside(item, b'[', b']') {
        Some(list) => Some(list),
        None => inside(item, b'(', b')'),
    }
}

/// An item as a plain word: a keyword of EDN without its colon, a text without its quotes, and
/// anything else as it is.
pub fn plain(item: &[u8]) -> &[u8]
    ensures { result.now ≡ plain_of item.entry.now }
{
    match item {
        [b':', word @ ..] => word,
        _ => match inside(item, b'"', b'"') {
            Some(word) => word,
            None => item,
        },
    }
}

/// Whether an item says that there is nothing: it is empty, `nil`, `null` or an empty text.
pub fn is_nothing(item: &[u8]) -> bool
    ensures { result ≡ says_nothing item.now }
{
    item.is_empty() || is_text(item, "nil") || is_text(item, "null") || is_text(item, "\"\"")
}
