ghost use Rattle.std.specs.Prelude.{◌≡◌, map, IfOk, option_map};
ghost use Rattle.history_text.specs.Fields.{trimmed_of, cells_of};

use book_base::NoMemory;
use std::alloc::Global;

/// The cells of a row of CSV, in their order. A comma between quotes is part of its cell. `None`
/// where a quote has no counterpart.
pub fn cells<'a>(alloc: Global, line: &'a [u8]) -> Result<Option<Vec<&'a [u8]>>, NoMemory>
    ensures { IfOk result (λ found.
        option_map (λ cells. map (λ cell. cell.now) cells.items) found ≡ cells_of line.now) }
{
    let mut found = Vec::new(alloc);
    let mut quoted = false;
    let mut start: usize = 0;
    for (at, byte) in line.iter().enumerate() {
        if *byte == b'"' {
            quoted = !quoted;
        } else if *byte == b',' && !quoted {
            found.push(trimmed(&line[start..at]))?;
            start = at + 1;
        }
    }
    if quoted {
        return Ok(None);
    }
    found.push(trimmed(&line[start..line.len()]))?;
    Ok(Some(found))
}

// Bytes without the white space at both ends.
pub(crate) fn trimmed(bytes: &[u8]) -> &[u8]
    ensures { result.now ≡ trimmed_of bytes.entry.now }
{
    bytes.trim_ascii()
}
