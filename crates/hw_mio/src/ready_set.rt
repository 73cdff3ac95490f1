//! The slots on which a read may give something.

ghost use Rattle.std.specs.Prelude.{◌<◌};

use crate::limits::SLOTS;
use std::alloc::{AllocError, Global};

/// How many slots a word has, and how many words a group.
const BITS: usize = 64;

/// How many words all slots have.
const WORDS: usize = SLOTS / BITS;

/// How many groups all words have.
const GROUPS: usize = WORDS / BITS;

/// A set of slots that is gone through in a circle: a bit for each slot, and one for each word that has any, so that a step looks at few of them.
#[derive(Drop)]
pub struct ReadySet {
    words: Vec<u64>,
    // Which words have a bit.
    groups: [u64; GROUPS],
}

impl ReadySet {
    /// None yet. All room is taken here.
    pub fn start(alloc: Global) -> Result<ReadySet, AllocError> {
        let mut words = Vec::with_capacity(alloc, WORDS)?;
        words.resize(WORDS, 0)?;
        Ok(ReadySet {
            words,
            groups: [0; GROUPS],
        })
    }

    pub fn insert(&mut self, at: usize) {
        let index = at / BITS;
        if let Some(word) = self.words.get_mut(index) {
            *word |= 1 << (at % BITS);
        }
        if let Some(group) = self.groups.get_mut(index / BITS) {
            *group |= 1 << (index % BITS);
        }
    }

    pub fn remove(&mut self, at: usize) {
        let index = at / BITS;
        if let Some(word) = self.words.get_mut(index) {
            *word &= !(1 << (at % BITS));
        }
        if self.word(index) == 0
            && let Some(group) = self.groups.get_mut(index / BITS)
        {
            *group &= !(1 << (index % BITS));
        }
    }

    /// Removes all.
    pub fn clear(&mut self) {
        if self.next_word(0).is_none() {
            return;
        }
        self.words.fill(0);
        self.groups = [0; GROUPS];
    }

    fn word(&self, index: usize) -> u64 {
        self.words.get(index).copied().unwrap_or(0)
    }

    fn group(&self, index: usize) -> u64 {
        self.groups.get(index).copied().unwrap_or(0)
    }

    /// The first word from this one on that has a bit. After the last word comes the first.
    fn next_word(&self, from: usize) -> Option<usize>
        requires { from < WORDS }
    {
        let rest = self.group(from / BITS) >> (from % BITS);
        if rest != 0 {
            return Some(from + rest.trailing_zeros() as usize);
        }
        for step in 1..=GROUPS {
            let index = (from / BITS + step) % GROUPS;
            let group = self.group(index);
            if group != 0 {
                return Some(index * BITS + group.trailing_zeros() as usize);
            }
        }
        None
    }

    /// The first slot after this one that is in the set. After the last slot comes the first, and this one comes last.
    pub fn next_after(&self, at: usize) -> Option<usize>
        requires { at < SLOTS }
    {
        let first = (at + 1) % SLOTS;
        let rest = self.word(first / BITS) >> (first % BITS);
        if rest != 0 {
            return Some(first + rest.trailing_zeros() as usize);
        }
        let index = self.next_word((first / BITS + 1) % WORDS)? % WORDS;
        Some(index * BITS + self.word(index).trailing_zeros() as usize)
    }
}
