ghost use Rattle.std.specs.Prelude.{◌≡◌, map, IfOk, option_map, option_and_then, None};
ghost use Rattle.history_text.specs.Layout.{field_text};
ghost use Rattle.history_text.specs.Fields.{fields_from, fields_in_map, fields_named, fields_of, cells_of};

use crate::cell::{cells, trimmed};
use crate::format::Format;
use crate::item::{in_braces, items, plain};
use book_base::NoMemory;
use std::alloc::Global;

/// A field of a line: its name as a plain word, and its value as it is written.
#[derive(Clone, Copy)]
pub struct Field<'a> {
    pub name: &'a [u8],
    pub value: &'a [u8],
}

// The fields of items that are names and values in turn. `None` where the last name has no value.
fn in_turn<'a>(alloc: Global, items: &[&'a [u8]]) -> Result<Option<Vec<Field<'a>>>, NoMemory>
    ensures { IfOk result (λ found. option_map (λ fields. map field_text fields.items) found
        ≡ fields_from None (map (λ item. item.now) items.now)) }
{
    let mut found = Vec::new(alloc);
    let mut name: Option<&'a [u8]> = None;
    for item in items {
        name = match name {
            None => Some(*item),
            Some(before) => {
                found.push(Field {
                    name: plain(before),
                    value: *item,
                })?;
                None
            }
        };
    }
    if name.is_some() {
        return Ok(None);
    }
    Ok(Some(found))
}

// The fields of a line that is one map of EDN or one object of JSON. `None` where it is neither.
fn of_map<'a>(alloc: Global, json: bool, line: &'a [u8]) -> Result<Option<Vec<Field<'a>>>, NoMemory>
    ensures { IfOk result (λ found. option_map (λ fields. map field_text fields.items) found
        ≡ fields_in_map json line.now) }
{
    let Some(inside) = in_braces(trimmed(line)) else {
        return Ok(None);
    };
    let Some(parts) = items(alloc, json, inside)? else {
        return Ok(None);
    };
    in_turn(alloc, &parts)
}

// The fields of cells under names. `None` where there are not as many.
fn under<'a>(
    alloc: Global,
    names: &[&'a [u8]],
    row: &[&'a [u8]],
) -> Result<Option<Vec<Field<'a>>>, NoMemory>
    ensures { IfOk result (λ found. option_map (λ fields. map field_text fields.items) found
        ≡ fields_named (map (λ name. name.now) names.now) (map (λ cell. cell.now) row.now)) }
{
    if row.len() != names.len() {
        return Ok(None);
    }
    let mut found = Vec::new(alloc);
    for at in 0..row.len() {
        found.push(Field {
            name: plain(names[at]),
            value: row[at],
        })?;
    }
    Ok(Some(found))
}

// The fields of a row of CSV, under the names of the header. `None` where the row has not as many
// cells as the header.
fn of_row<'a>(
    alloc: Global,
    names: &[&'a [u8]],
    line: &'a [u8],
) -> Result<Option<Vec<Field<'a>>>, NoMemory>
    ensures { IfOk result (λ found. option_map (λ fields. map field_text fields.items) found
        ≡ option_and_then (fields_named (map (λ name. name.now) names.now)) (cells_of line.now)) }
{
    match cells(alloc, line)? {
        Some(row) => under(alloc, names, &row),
        None => Ok(None),
    }
}

/// The fields of a line in a format, where a CSV has columns of these names. `None` where the line
/// is no map, or no row with as many cells as there are names.
pub fn fields<'a>(
    alloc: Global,
    format: Format,
    names: &[&'a [u8]],
    line: &'a [u8],
) -> Result<Option<Vec<Field<'a>>>, NoMemory>
    ensures { IfOk result (λ found. option_map (λ fields. map field_text fields.items) found
        ≡ fields_of format (map (λ name. name.now) names.now) line.now) }
{
    match format {
        Format::Edn => of_map(alloc, false, line),
        Format::Json => of_map(alloc, true, line),
        Format::Csv => of_row(alloc, names, line),
    }
}
