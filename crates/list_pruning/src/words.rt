ghost use Rattle.std.specs.Prelude.{◌≡◌, false, IfSome};
ghost use Rattle.list_pruning.specs.LastFirst.{EndsWith, Lacks};

/// Whether a value is among `words`.
pub fn holds(words: &[u64], value: u64) -> bool
    ensures { result ≡ false → Lacks words.now value }
{
    for k in 0..words.len() {
        if words[k] == value {
            return true;
        }
    }
    false
}

/// The last of `words`, where there is one.
#[tactic(auto, using(crate::proofs::Stepping::ends_with_before))]
pub fn last_word(words: &[u64]) -> Option<u64>
    ensures { IfSome result (EndsWith words.now) }
{
    if words.is_empty() {
        return None;
    }
    Some(words[words.len() - 1])
}
