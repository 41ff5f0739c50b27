//! The pieces of a line, which are written at the end of the text.
ghost use Rattle.std.specs.Prelude.{◌≡◌, ◌++◌, OnOk, string_bytes};
ghost use Rattle.vub_text.specs.Words.{hex_text};

use itoa::{Buffer, Integer};
use vub_base::OutOfMemory;

/// Appends this word, and then a number in decimal.
pub(crate) fn push_number<N: Integer>(
    text: &mut String,
    word: &str,
    number: N,
) -> Result<(), OutOfMemory>
    ensures { OnOk result (string_bytes text.new ≡ string_bytes text.old ++ word.now ++ N.text number) }
{
    let mut buffer = Buffer::new();
    text.push_str(word)?;
    text.push_str(buffer.format(number))?;
    Ok(())
}
