// The holes of a file: one bit for each cell, in words of 64.
ghost use Rattle.std.specs.Prelude.{◌≡◌, ◌*◌, ◌+◌, ◌<◌, ◌≤◌, length, slice_index, OnOk, OnErr, IsOk, vec_len};
ghost use Rattle.vub_sparse.specs.Holes.{hole_bit, Marked};

use std::alloc::AllocError;

const WORD: usize = 64;

// Whether this cell is a hole.
pub(crate) fn is_hole(words: &[u64], place: usize) -> bool
    requires { place < 64 * length words.now }
    ensures { result ≡ hole_bit words.now place }
{
    (words[place / WORD] >> (place % WORD)) & 1 == 1
}

// Makes this cell a hole, or a byte.
fn mark_one(words: &mut [u64], place: usize, hole: bool)
    requires { place < 64 * length words.old }
    ensures { Marked words.old words.new place (place + 1) hole }
{
    let bit = 1u64 << (place % WORD);
    let word = &mut words[place / WORD];
    if hole {
        *word |= bit;
    } else {
        *word &= !bit;
    }
}

fn mark_each(words: &mut [u64], from: usize, to: usize, hole: bool)
    requires order { from ≤ to }
    requires within { to ≤ 64 * length words.old }
    ensures { Marked words.old words.new from to hole }
{
    for place in from..to {
        mark_one(words, place, hole);
    }
}

// Whole words.
fn mark_words(words: &mut [u64], from: usize, to: usize, hole: bool)
    requires order { from ≤ to }
    requires within { to ≤ length words.old }
    ensures { Marked words.old words.new (64 * from) (64 * to) hole }
{
    let word = if hole { u64::MAX } else { 0 };
    for index in from..to {
        words[index] = word;
    }
}

// Makes the cells of a range holes, or bytes: the whole words in it at once.
pub(crate) fn mark(words: &mut [u64], from: usize, to: usize, hole: bool)
    requires order { from ≤ to }
    requires within { to ≤ 64 * length words.old }
    ensures { Marked words.old words.new from to hole }
{
    let first = from.div_ceil(WORD);
    let last = to / WORD;
    if first < last {
        mark_each(words, from, first * WORD, hole);
        mark_words(words, first, last, hole);
        mark_each(words, last * WORD, to, hole);
    } else {
        mark_each(words, from, to, hole);
    }
}
