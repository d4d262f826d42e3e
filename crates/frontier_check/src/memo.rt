ghost use Rattle.std.specs.Prelude.{◌≡◌, ℕ, ◌+◌, ◌*◌, ◌<◌, ◌≤◌, ◌⊎◌, ◌↔◌, [], List, length, slice_get, OnOk, IfOk, IsTrue, Some};
ghost use Rattle.frontier_check.specs.declared.memo.MemoEntry.{MemoEntry};

use book_base::NoMemory;
use std::alloc::Global;

/// Where the words of a remembered pair lie in a memo's list of words: the index of the first one,
/// and how many there are.
#[derive(Clone, Copy)]
pub struct MemoEntry {
    pub from: u32,
    pub len: u32,
}

/// Remembered pairs of a cut and a list. The counts of all cuts are in one long list and the words
/// of all lists in another, and a hash table finds the entry of a pair.
#[derive(Drop)]
pub struct Memo {
    pub callers: usize,
    pub counts: Vec<u16>,
    pub words: Vec<u64>,
    pub entries: Vec<MemoEntry>,
    pub slots: Vec<u32>,
}

impl Memo {
    ghost use Rattle.frontier_check.specs.Memo.{IsMemo, Remembers, counts_at, words_at};

    /// A memo without pairs, for cuts with one count for each of `callers` callers.
    pub fn new(alloc: Global, callers: usize) -> Memo
        // The pair of each entry lies in the memo's lists.
        ensures memo { IsMemo result }
        // The memo is for cuts of `callers` callers.
        ensures callers { result.callers ≡ callers }
        // The memo has no entry.
        ensures empty { result.entries.items ≡ [] }
    {
        Memo {
            callers,
            counts: Vec::new(alloc),
            words: Vec::new(alloc),
            entries: Vec::new(alloc),
            slots: Vec::new(alloc),
        }
    }

    /// Whether the memo's hash table finds an entry for a pair of a cut and a list. No clause says
    /// that it finds each remembered pair: to miss one only costs time.
    pub fn remembers(&self, counts: &[u16], words: &[u64]) -> bool
        // The pair of each entry lies in the memo's lists.
        requires { IsMemo self.now }
        // `true` is answered only for a pair that the memo remembers.
        ensures { IsTrue result → Remembers self.now counts.now words.now }
    {
        let size = self.slots.len();
        let mut at = first_slot(counts, words, size);
        for _ in 0..size {
            if at >= size {
                at = 0;
            }
            let slot = self.slots[at];
            if slot == 0 {
                return false;
            }
            if self.is_at(slot as usize - 1, counts, words) {
                return true;
            }
            at += 1;
        }
        false
    }

    // Whether the memo has an entry with the index `index`, and it is that of the pair of `counts`
    // and `words`.
    fn is_at(&self, index: usize, counts: &[u16], words: &[u64]) -> bool
        requires { IsMemo self.now }
        ensures { IsTrue result → Remembers self.now counts.now words.now }
    {
        if index >= self.entries.len() {
            return false;
        }
        self.counts_of(index) == counts && self.words_of(index) == words
    }

    // The counts of the entry with an index.
    fn counts_of(&self, index: usize) -> &[u16]
        requires memo { IsMemo self.now }
        requires index { index < length self.now.entries.items }
        ensures { result.now ≡ counts_at self.now index }
    {
        let from = index * self.callers;
        &self.counts[from..from + self.callers]
    }

    // The words of the entry with an index.
    fn words_of(&self, index: usize) -> &[u64]
        requires memo { IsMemo self.now }
        requires index { index < length self.now.entries.items }
        ensures { (entry : MemoEntry) → slice_get self.now.entries.items index ≡ Some entry
            → result.now ≡ words_at self.now entry }
    {
        let entry = self.entries[index];
        &self.words[entry.from as usize..entry.from as usize + entry.len as usize]
    }

    /// Remembers a pair of a cut and a list. The memo stays as it is where it has so many entries
    /// or words that an index of the pair might not fit in 32 bits.
    pub fn remember(&mut self, alloc: Global, counts: &[u16], words: &[u64]) -> Result<(), NoMemory>
        // The pair of each entry lies in the memo's lists.
        requires memo { IsMemo self.old }
        // The cut has one count for each of the memo's callers.
        requires wide { length counts.now ≡ self.old.callers }
        // After an answer Ok the pair of each entry still lies in the memo's lists.
        ensures memo { OnOk result (IsMemo self.new) }
        // The memo is for cuts of as many callers as before.
        ensures callers { self.new.callers ≡ self.old.callers }
        // After an answer Ok the memo remembers no pair but this one and those that it remembered
        // before.
        ensures only { OnOk result ((cut list : List ℕ) → Remembers self.new cut list
            → Remembers self.old cut list ⊎ ((cut ≡ counts.now) × (list ≡ words.now))) }
    {
        let index = self.entries.len();
        let from = self.words.len();
        if index + 1 >= u32::MAX as usize || from + words.len() >= u32::MAX as usize {
            return Ok(());
        }
        self.add(counts, words)?;
        self.place(alloc, counts, words, index as u32 + 1)
    }

    // Adds an entry for a pair of a cut and a list after all other entries. The hash table doesn't
    // find it yet.
    fn add(&mut self, counts: &[u16], words: &[u64]) -> Result<(), NoMemory>
        requires memo { IsMemo self.old }
        requires wide { length counts.now ≡ self.old.callers }
        requires few { length self.old.entries.items + 1 < u32.MAX }
        requires room { length self.old.words.items + length words.now < u32.MAX }
        ensures memo { OnOk result (IsMemo self.new) }
        ensures callers { self.new.callers ≡ self.old.callers }
        ensures only { OnOk result ((cut list : List ℕ) → Remembers self.new cut list
            → Remembers self.old cut list ⊎ ((cut ≡ counts.now) × (list ≡ words.now))) }
    {
        let entry = MemoEntry {
            from: self.words.len() as u32,
            len: words.len() as u32,
        };
        self.counts.extend_from_slice(counts)?;
        self.words.extend_from_slice(words)?;
        self.entries.push(entry)?;
        Ok(())
    }

    // Lets the hash table find the entry of a pair by the entry's number `mark`, which counts from
    // 1. Where the entries are half as many as the slots or more, the table is made anew for all
    // pairs. Nothing but the table changes.
    fn place(
        &mut self,
        alloc: Global,
        counts: &[u16],
        words: &[u64],
        mark: u32,
    ) -> Result<(), NoMemory>
        requires { IsMemo self.old }
        ensures { self.new ≡ record self.old { slots = self.new.slots } }
    {
        if self.slots.len() / 2 <= self.entries.len() {
            self.slots = self.wider(alloc)?;
        } else {
            mark_slot(&mut self.slots, counts, words, mark);
        }
        Ok(())
    }

    // A hash table of twice as many slots as the memo's, and of at least 64, which finds the entry
    // of each pair.
    fn wider(&self, alloc: Global) -> Result<Vec<u32>, NoMemory>
        requires { IsMemo self.now }
    {
        let size = self.slots.len().saturating_mul(2).max(64);
        let mut slots = vec![in alloc; 0; size]?;
        for index in 0..self.entries.len() {
            mark_slot(
                &mut slots,
                self.counts_of(index),
                self.words_of(index),
                index as u32 + 1,
            );
        }
        Ok(slots)
    }
}

// Puts the number of a pair's entry into the first free slot of a hash table, from the slot on at
// which the pair is sought first. The first slot follows the last one; where no slot is free,
// nothing changes.
fn mark_slot(slots: &mut [u32], counts: &[u16], words: &[u64], mark: u32) {
    let size = slots.len();
    let mut at = first_slot(counts, words, size);
    for _ in 0..size {
        if at >= size {
            at = 0;
        }
        if slots[at] == 0 {
            slots[at] = mark;
            return;
        }
        at += 1;
    }
}

// The slot at which a pair is sought first in a hash table of `size` slots, and 0 where `size` is
// 0.
fn first_slot(counts: &[u16], words: &[u64], size: usize) -> usize
    ensures { 1 ≤ size → result < size }
{
    if size == 0 {
        return 0;
    }
    let mut hash = 0xcbf2_9ce4_8422_2325u64;
    for count in counts {
        hash = mixed(hash, u64::from(*count));
    }
    for word in words {
        hash = mixed(hash, *word);
    }
    (hash % size as u64) as usize
}

// A hash made of a hash and one more word, to which each bit of both contributes.
fn mixed(hash: u64, word: u64) -> u64 {
    let product = (hash ^ word).wrapping_mul(0x9e37_79b9_7f4a_7c15);
    product ^ (product >> 29)
}
