ghost use Rattle.std.specs.Prelude.{◌≡◌, ◌<◌, length, slice_index};

use std::marker::PhantomData;
use world_core::Outside;

/// The words that a closed table had. With the locals of its bench they are a reachable world.
#[derive(Drop)]
pub struct World<P = Outside> {
    pub(crate) words: Vec<u64>,
    pub(crate) of: PhantomData<P>,
}

impl<P> World<P> {
    ghost use Rattle.row_table.specs.Worlds.{words_in};

    /// The word at an index of the table: the counts of N and of M, the rows, caller by caller, and
    /// the object words.
    pub fn word(&self, index: u64) -> u64
        // The table has a word at this index.
        requires { index < length (words_in self.now) }
        ensures { result ≡ slice_index (words_in self.now) index }
    {
        self.words[index as usize]
    }
}
