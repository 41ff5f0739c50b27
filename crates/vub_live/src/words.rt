//! What the program's words ask for.
ghost use Rattle.std.specs.Prelude.{◌≡◌, ◌≤◌, IfSome, map, string_bytes};
ghost use Rattle.std.specs.List.{list_all};
ghost use Rattle.vub_live.specs.Words.{begins_well, is_digit, is_decimal, number_in, within, asked};

/// The greatest number of workers that can be asked for.
const GREATEST_WORKERS: u32 = 8;

/// The greatest number of entries on each queue that can be asked for.
const GREATEST_ENTRIES: u32 = 256;

/// What the words ask for.
#[derive(Clone, Copy, Debug, PartialEq, Eq)]
pub(crate) struct Asked {
    /// So many workers, each with a queue.
    pub workers: u32,
    /// So many entries on each queue.
    pub entries: u16,
}

/// Whether a number may begin so: with no byte missing, and with no 0.
fn begins_well(word: &[u8]) -> bool
    ensures { result ≡ begins_well word.now }
{
    match word {
        [] => false,
        [first, ..] => *first != 48,
    }
}

fn are_digits(word: &[u8]) -> bool
    ensures { result ≡ list_all is_digit word.now }
{
    word.iter().all(|byte| 48 <= *byte && *byte <= 57)
}

/// Whether it is a number above 0 in decimal digits, with no sign and no leading zero.
fn is_decimal(word: &[u8]) -> bool
    ensures { result ≡ is_decimal word.now }
{
    begins_well(word) && are_digits(word)
}

/// The number, if it is not too great.
fn within(most: u32, number: u32) -> Option<u32>
    ensures number { result ≡ within most number }
    ensures bound { IfSome result (λ n. n ≤ most) }
{
    if number <= most { Some(number) } else { None }
}

/// The number from 1 to `most` that the word is.
#[tactic(auto, unfolding(crate::specs::Words::number_in))]
fn number_in(most: u32, word: &str) -> Option<u32>
    ensures number { result ≡ number_in most word.now }
    ensures bound { IfSome result (λ n. n ≤ most) }
{
    if !is_decimal(word.as_bytes()) {
        return None;
    }
    match word.parse::<u32>() {
        Ok(number) => within(most, number),
        Err(_) => None,
    }
}

/// What the words ask for: a number of workers from 1 to 8, and a number of entries from 1 to 256. Other words ask for
/// nothing.
pub(crate) fn asked_by(words: &[String]) -> Option<Asked>
    ensures asked { result ≡ asked (map string_bytes words.now) }
    ensures workers { IfSome result (λ a. a.workers ≤ 8) }
    ensures entries { IfSome result (λ a. a.entries ≤ 256) }
{
    match words {
        [first, second] => {
            let workers = number_in(GREATEST_WORKERS, first.as_str())?;
            let entries = number_in(GREATEST_ENTRIES, second.as_str())?;
            Some(Asked {
                workers,
                entries: entries as u16,
            })
        }
        _ => None,
    }
}
