//! Where the words of a log lie in its table.
ghost use Rattle.std.specs.Prelude.{◌≡◌, ◌+◌, ◌*◌, ◌<◌, ◌≤◌};
ghost use Rattle.book_base.specs.declared.TheConstants.{MAX_CALLERS, MAX_CALLS};
ghost use Rattle.shared_words.specs.Words as words;

/// How many calls all callers make at most, and so how many places the log has.
pub fn place_count(n: u32, cap: u64) -> usize
    requires few { n ≤ MAX_CALLERS }
    requires short { cap ≤ MAX_CALLS }
    ensures count { result ≡ n * cap }
    ensures fits { result ≤ 4096 }
{
    n as usize * cap as usize
}

/// The number of call `k` of a caller among the calls of all callers.
pub fn number(cap: u64, caller: u32, k: u64) -> u64
    requires few { caller < MAX_CALLERS }
    requires short { cap ≤ MAX_CALLS }
    requires call { k < cap }
    ensures count { result ≡ words.number_of cap caller k }
    ensures fits { result < 4096 }
{
    caller as u64 * cap + k
}
