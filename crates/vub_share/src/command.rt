//! What the program's words ask for.
ghost use Rattle.std.specs.Prelude.{◌≡◌, ◌≤◌, IfSome, map, string_bytes};
ghost use Rattle.std.specs.List.{list_all};
ghost use Rattle.vub_share.specs.Commands.{begins_well, is_digit, is_decimal, within, number_in, command_in, IsBounded};

/// The greatest number of entries that can be asked for.
const GREATEST_COUNT: u32 = 100_000;

/// What the words ask for.
#[derive(Clone, Copy, Debug, PartialEq, Eq)]
pub enum Command {
    /// To play the script that is read.
    Play,
    /// To play the generated script with so many entries.
    Make(u32),
}

/// Whether a number may begin so: with no byte missing, and with no 0 before another byte.
fn begins_well(word: &[u8]) -> bool
    ensures { result ≡ begins_well word.now }
{
    match word {
        [] => false,
        [_] => true,
        [first, ..] => *first != 48,
    }
}

fn are_digits(word: &[u8]) -> bool
    ensures { result ≡ list_all is_digit word.now }
{
    word.iter().all(|byte| 48 <= *byte && *byte <= 57)
}

/// Whether it is a number in decimal digits, with no sign and no leading zero.
fn is_decimal(word: &[u8]) -> bool
    ensures { result ≡ is_decimal word.now }
{
    begins_well(word) && are_digits(word)
}

/// The number, if it is not too great.
fn within(number: u32) -> Option<u32>
    ensures number { result ≡ within number }
    ensures bound { IfSome result (λ n. n ≤ 100000) }
{
    if number <= GREATEST_COUNT {
        Some(number)
    } else {
        None
    }
}

/// The number from 0 to 100000 that the word is.
#[tactic(auto, unfolding(crate::specs::Commands::number_in))]
fn number_in(word: &str) -> Option<u32>
    ensures number { result ≡ number_in word.now }
    ensures bound { IfSome result (λ n. n ≤ 100000) }
{
    if !is_decimal(word.as_bytes()) {
        return None;
    }
    match word.parse::<u32>() {
        Ok(number) => within(number),
        Err(_) => None,
    }
}

/// What the words ask for: none to play a script, and `make` and a number from 0 to 100000 to make one. Other words ask
/// for nothing.
pub fn command_of(words: &[String]) -> Option<Command>
    ensures asked { result ≡ command_in (map string_bytes words.now) }
    ensures bound { IfSome result IsBounded }
{
    match words {
        [] => Some(Command::Play),
        [first, second] if first.as_str() == "make" => {
            let count = number_in(second.as_str())?;
            Some(Command::Make(count))
        }
        _ => None,
    }
}
