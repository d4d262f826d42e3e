//! Where the words of the table lie, by their indices.
ghost use Rattle.std.specs.Prelude.{◌≡◌, ◌+◌, ◌*◌, ◌<◌, ◌≤◌};
ghost use Rattle.book_base.specs.declared.TheConstants.{MAX_CALLERS, MAX_CALLS};
ghost use Rattle.world_core.specs.Layout as words;

use world_core::Region;

/// The place, in a row of a region, of a caller's entry in the cut that the row embeds.
pub fn embedded_place(n: u32, region: Region, caller: u32) -> u64
    ensures { result ≡ words.embedded_place n region caller }
{
    match region {
        Region::N => 2 + caller as u64,
        Region::M => 1 + (n as u64 + caller as u64),
    }
}

/// The index of the word that counts the rows of a caller in a region.
pub fn count_index(n: u32, region: Region, caller: u32) -> usize
    ensures { result ≡ words.count_index n region caller }
{
    match region {
        Region::N => caller as usize,
        Region::M => n as usize + caller as usize,
    }
}

// How many words a row has.
fn row_width(n: u32) -> usize
    requires { n ≤ MAX_CALLERS }
    ensures { result ≡ words.row_width n }
{
    3 + 3 * n as usize
}

/// How many words the counts and the rows have together.
pub fn row_words(n: u32, cap: u64) -> usize
    requires few { n ≤ MAX_CALLERS }
    requires short { cap ≤ MAX_CALLS }
    ensures count { result ≡ words.row_words n cap }
    ensures few { result ≤ 208928 }
{
    2 * n as usize + n as usize * cap as usize * row_width(n)
}

/// The index of the word at a place of row `row` of a caller in a region.
pub fn place_index(n: u32, cap: u64, region: Region, caller: u32, row: u64, place: u32) -> usize
    requires few { n ≤ MAX_CALLERS }
    requires short { cap ≤ MAX_CALLS }
    requires caller { caller < n }
    requires row { row < cap }
    requires place { place < words.places n region }
    ensures { result ≡ words.place_index n cap region caller row place }
{
    let width = row_width(n);
    let first = match region {
        Region::N => 0,
        Region::M => 2 + n as usize,
    };
    let rows = caller as usize * cap as usize + row as usize;
    2 * n as usize + rows * width + (first + place as usize)
}
