//! The ready members of an interest list as bit words, with one level of summary.
ghost use Rattle.std.specs.Prelude.{◌≡◌, ◌+◌, ◌*◌, ◌/◌, ◌<◌, ◌≤◌, true, length, OnOk, []};
ghost use Rattle.vub_event.specs.BitWords.{IsLeastIn, MakesRoom, PutsBit};

use crate::bits::Bits;
use std::alloc::Global;
use std::marker::Model;
use std::sync::ledger::Ledger;
use vub_base::{OutOfMemory, Steps};

/// The numbers of ready objects, 64 to a word, and above them the numbers of the words that have one, 64 to a word of
/// the summary. A contract sees the words.
#[derive(Debug, Drop)]
pub(crate) struct ReadyWords {
    words: Bits,
    summary: Bits,
}

impl Model for ReadyWords {
    ghost use Rattle.std.specs.Prelude.{List, ℕ};
    ghost use Rattle.vub_event.specs.BitWords.{IsSummary};

    ghost Value = { List ℕ };

    ghost view = { λ r. r.words };

    ghost invariant = { λ r. IsSummary r.words r.summary };
}

impl ReadyWords {
    /// No object and no room. Takes no memory.
    pub(crate) fn new(alloc: Global) -> ReadyWords
        ensures { result ≡ [] }
    {
        ReadyWords {
            words: Bits::new(alloc),
            summary: Bits::new(alloc),
        }
    }

    /// Makes room for this object.
    ///
    /// # Errors
    /// Want of memory leaves the objects as they were, maybe with more room.
    pub(crate) fn make_room(&mut self, object: u32) -> Result<(), OutOfMemory>
        ensures makes { MakesRoom self.old object self.new }
        ensures ok { OnOk result (object / 64 < length self.new) }
    {
        let word = object as usize / 64;
        if word < self.words.len() {
            return Ok(());
        }
        self.summary.make_room(word)?;
        self.words.make_room(object as usize)
    }

    /// Puts an object in or takes it out. There is room for an object that is put in.
    pub(crate) fn put(&mut self, object: u32, is_ready: bool)
        requires { is_ready ≡ true → object / 64 < length self.old }
        ensures { PutsBit self.old object is_ready self.new }
    {
        let number = object as usize;
        if number / 64 < self.words.len() {
            let is_some = self.words.put(number, is_ready);
            let _some_in_summary = self.summary.put(number / 64, is_some);
        }
    }

    /// The least number of an object. A step is a look at a word.
    pub(crate) fn first<K: Ledger>(&self, steps: &mut Steps<K>) -> Option<u32>
        ensures least { IsLeastIn self.now result }
        ensures steps { steps.new ≤ steps.old + (length self.now + 63) / 64 + 1 }
    {
        for i in 0..self.words.len().div_ceil(64) {
            let summary = self.summary.word(i, steps);
            if summary != 0 {
                let word = 64 * i + summary.trailing_zeros() as usize;
                let objects = self.words.word(word, steps);
                return Some((64 * word) as u32 + objects.trailing_zeros());
            }
        }
        None
    }
}
