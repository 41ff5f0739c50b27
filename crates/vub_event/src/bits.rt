//! Sets of numbers as bit words.
ghost use Rattle.std.specs.Prelude.{◌≡◌, ◌+◌, ◌/◌, ◌<◌, ◌==◌, not, IsTrue, length, OnOk, []};
ghost use Rattle.vub_event.specs.BitWords.{word_at, MakesRoom, PutsBit, SetsBit};

use std::alloc::Global;
use std::marker::Model;
use std::sync::ledger::Ledger;
use vub_base::{OutOfMemory, Steps};

/// A set of numbers, 64 to a word. A contract sees the words, which are read by [`Bits::word`] alone.
#[derive(Debug, Drop)]
pub(crate) struct Bits {
    words: Vec<u64>,
}

impl Model for Bits {
    ghost use Rattle.std.specs.Prelude.{List, ℕ};
    ghost use Rattle.vub_event.specs.BitWords.{AreWords};

    ghost Value = { List ℕ };

    ghost view = { λ b. b.words.items };

    ghost invariant = { λ b. AreWords b.words.items };
}

/// The word with this bit set or cleared.
fn with_bit(word: u64, bit: u32, is_in: bool) -> u64
    requires { bit < 64 }
    ensures { SetsBit word bit is_in result }
{
    if is_in {
        word | 1 << bit
    } else {
        word & !(1 << bit)
    }
}

impl Bits {
    /// No number and no room. Takes no memory.
    pub(crate) fn new(alloc: Global) -> Bits
        ensures { result ≡ [] }
    {
        Bits {
            words: Vec::new(alloc),
        }
    }

    /// How many words there are.
    pub(crate) fn len(&self) -> usize
        ensures { result ≡ length self.now }
    {
        self.words.len()
    }

    /// The word of this number. It costs one step.
    pub(crate) fn word<K: Ledger>(&self, i: usize, steps: &mut Steps<K>) -> u64
        requires { i < length self.now }
        ensures word { result ≡ word_at self.now i }
        ensures steps { steps.new ≡ steps.old + 1 }
    {
        steps.tick();
        self.words[i]
    }

    /// Makes room for this number.
    ///
    /// # Errors
    /// Want of memory leaves the numbers as they were, maybe with more room.
    pub(crate) fn make_room(&mut self, number: usize) -> Result<(), OutOfMemory>
        ensures makes { MakesRoom self.old number self.new }
        ensures ok { OnOk result (number / 64 < length self.new) }
    {
        while self.words.len() <= number / 64 {
            self.words.push(0)?;
        }
        Ok(())
    }

    /// Puts a number in or takes it out, and says whether its word still has a number. There is room for it.
    pub(crate) fn put(&mut self, number: usize, is_in: bool) -> bool
        requires { number / 64 < length self.old }
        ensures puts { PutsBit self.old number is_in self.new }
        ensures some { result ≡ not (word_at self.new (number / 64) == 0) }
    {
        let word = with_bit(self.words[number / 64], (number % 64) as u32, is_in);
        self.words[number / 64] = word;
        word != 0
    }
}
