//! Tests of the scan of a region as a machine that is given the words it looks at.
ghost use Rattle.std.specs.Prelude.{◌<◌, ◌≤◌};
ghost use Rattle.book_base.specs.declared.TheConstants.{MAX_CALLERS};

use book_base::Cut;
use std::test::Fail;
use world_core::{Region, ScanCore, Want};

// The numbers of looks and of peeks, and the cut, of a scan by the last of `n` callers that is
// given these words in turn; `None` where the scan doesn't end exactly after the last word.
fn scan_of(n: u32, words: &[u64]) -> Option<(u32, u32, Cut)>
    requires some { 0 < n }
    requires few { n ≤ MAX_CALLERS }
{
    let mut scan = ScanCore::begin(n, n - 1, Region::N);
    let mut looks = 0u32;
    let mut peeks = 0u32;
    for &word in words {
        match scan.next() {
            Want::Done(_) => return None,
            Want::Look(_) => looks = looks.saturating_add(1),
            Want::Peek(_, _, _) => peeks = peeks.saturating_add(1),
        }
        scan.take(word);
    }
    match scan.next() {
        Want::Done(cut) => Some((looks, peeks, cut)),
        _ => None,
    }
}

#[test]
fn two_equal_collects_end_a_scan(rt: HostRuntime) -> Result<(), Fail> {
    let (looks, peeks, cut) = scan_of(2, &[0, 0, 1, 0, 1, 0]).ok_or("no cut")?;
    assert_eq!(rt; (looks, peeks), (6, 0));
    assert_eq!(rt; cut.counts(), [1, 0].as_slice());
    Ok(())
}

// The second caller moves twice, and its second row embeds the cut of the counts 1, 1 and 0.
#[test]
fn a_cut_is_borrowed(rt: HostRuntime) -> Result<(), Fail> {
    let words = [0, 0, 0, 1, 0, 0, 1, 1, 0, 2, 1, 0, 1, 1, 0];
    let (looks, peeks, cut) = scan_of(3, &words).ok_or("no cut")?;
    assert_eq!(rt; (looks, peeks), (12, 3));
    assert_eq!(rt; cut.counts(), [1, 1, 0].as_slice());
    Ok(())
}
