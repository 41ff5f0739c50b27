ghost use Rattle.std.specs.Prelude.{◌≡◌, ◌<◌, [], IsOk, OnOk, OnErr, drop, slice_get};
ghost use Rattle.vub_event.specs.BitWords.{SetsBit};
ghost use Rattle.vub_model.specs.Shared.{with_number, without_number};
ghost use Rattle.vub_ring.specs.Pending.{place_in, is_there, AscendsFrom};

use std::alloc::Global;
use std::collections::VecDeque;
use std::marker::Model;
use vub_base::OutOfMemory;

/// How many numbers the word has.
const WORD: u32 = 64;

/// A worker's pending set: event numbers of the queues that are to be looked at, in order. A contract sees them as a
/// list. The numbers below 64 are the bits of a word, so they take no memory.
#[derive(Debug, Drop)]
pub struct Pending {
    /// Bit n is set where the number n is in the set.
    word: u64,
    /// The numbers from 64 on, in order.
    above: VecDeque<u32>,
}

impl Model for Pending {
    ghost use Rattle.std.specs.Prelude.{List, ℕ, ◌++◌};
    ghost use Rattle.vub_ring.specs.Pending.{numbers_of, AscendsFrom};

    ghost Value = { List ℕ };

    ghost view = { λ p. numbers_of p.word ++ p.above.items };

    ghost invariant = { λ p. AscendsFrom 64 p.above.items };
}

/// The word with this bit set or cleared.
fn with_bit(word: u64, bit: u32, is_in: bool) -> u64
    requires { bit < 64 }
    ensures { SetsBit word bit is_in result }
{
    if is_in {
        word | 1 << bit
    } else {
        word & !(1 << bit)
    }
}

/// The place of the first number that is not below this one.
fn place_of(numbers: &VecDeque<u32>, number: u32) -> usize
    ensures { result ≡ place_in numbers.now.items number }
{
    for place in 0..numbers.len() {
        if numbers[place] >= number {
            return place;
        }
    }
    numbers.len()
}

/// Whether the number stands at this place, which is its own.
fn stands_at(numbers: &VecDeque<u32>, place: usize, number: u32) -> bool
    requires { place ≡ place_in numbers.now.items number }
    ensures { result ≡ is_there numbers.now.items number }
{
    place < numbers.len() && numbers[place] == number
}

/// Puts a number at its place, unless it is there.
#[tactic(auto, using(crate::proofs::Numbers::number_goes, crate::proofs::Numbers::place_within))]
fn insert_number(numbers: &mut VecDeque<u32>, number: u32) -> Result<(), OutOfMemory>
    ensures ok { OnOk result (numbers.new.items ≡ with_number numbers.old.items number) }
    ensures err { OnErr result (numbers.new.items ≡ numbers.old.items) }
{
    let place = place_of(numbers, number);
    if stands_at(numbers, place, number) {
        return Ok(());
    }
    numbers.insert(place, number)?;
    Ok(())
}

impl Pending {
    /// No numbers. Takes no memory.
    pub fn new(alloc: Global) -> Pending
        ensures { result ≡ [] }
    {
        Pending {
            word: 0,
            above: VecDeque::new(alloc),
        }
    }

    /// Puts a number in, unless it is there. A number below 64 takes no memory.
    ///
    /// # Errors
    /// Want of memory leaves the numbers as they were.
    pub fn insert(&mut self, number: u32) -> Result<(), OutOfMemory>
        ensures ok { OnOk result (self.new ≡ with_number self.old number) }
        ensures err { OnErr result (self.new ≡ self.old) }
        ensures word { number < 64 → IsOk result }
    {
        if number < WORD {
            self.word = with_bit(self.word, number, true);
            return Ok(());
        }
        insert_number(&mut self.above, number)
    }

    /// Takes a number out, if it is there.
    pub fn remove(&mut self, number: u32)
        ensures { self.new ≡ without_number self.old number }
    {
        if number < WORD {
            self.word = with_bit(self.word, number, false);
        } else {
            self.above.retain(|other| *other != number);
        }
    }

    /// Takes the least number out, if there is one. The others are above it.
    pub fn take_first(&mut self) -> Option<u32>
        ensures first { result ≡ slice_get self.old 0 }
        ensures rest { self.new ≡ drop 1 self.old }
        ensures ascends { AscendsFrom 0 self.old }
    {
        if self.word == 0 {
            return self.above.pop_front();
        }
        let number = self.word.trailing_zeros();
        self.word = with_bit(self.word, number, false);
        Some(number)
    }
}
