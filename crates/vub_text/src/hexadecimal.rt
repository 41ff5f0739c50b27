ghost use Rattle.std.specs.Prelude.{◌≡◌, ◌≤◌, ◌++◌, length, IfOk, OnOk, string_bytes};
ghost use Rattle.hex.specs.Hex.{encode_lower};
ghost use Rattle.vub_text.specs.Words.{hex_text};

use std::alloc::Global;
use vub_base::OutOfMemory;

/// How many bytes are turned into digits at a time.
const PART: usize = 32;

/// The bytes as lower-case hexadecimal digits, two a byte, or a dash for none.
///
/// # Errors
/// Want of memory.
pub fn hex_of(alloc: Global, bytes: &[u8]) -> Result<String, OutOfMemory>
    ensures { IfOk result (λ s. string_bytes s ≡ hex_text bytes.now) }
{
    if bytes.is_empty() {
        Ok(String::from_str(alloc, "-")?)
    } else {
        Ok(hex::encode(alloc, bytes)?)
    }
}

/// Appends the digits of some bytes, without a text of their own.
fn push_part(text: &mut String, bytes: &[u8]) -> Result<(), OutOfMemory>
    requires { length bytes.now ≤ 32 }
    ensures { OnOk result (string_bytes text.new ≡ string_bytes text.old ++ encode_lower bytes.now) }
{
    let mut room = [0; 2 * PART];
    let digits = &mut room[..2 * bytes.len()];
    let Ok(()) = hex::encode_to_slice(bytes, digits) else {
        unreachable!();
    };
    // the digits are ASCII, which is proved
    text.push_str(unsafe { str::from_utf8_unchecked(digits) })?;
    Ok(())
}

/// Appends the digits of these bytes.
fn push_digits(text: &mut String, bytes: &[u8]) -> Result<(), OutOfMemory>
    ensures { OnOk result (string_bytes text.new ≡ string_bytes text.old ++ encode_lower bytes.now) }
{
    let mut rest = bytes;
    while !rest.is_empty() {
        let (part, more) = rest.split_at(rest.len().min(PART));
        push_part(text, part)?;
        rest = more;
    }
    Ok(())
}

/// Appends the bytes as lower-case hexadecimal digits, two a byte, or a dash for none.
///
/// # Errors
/// Want of memory. The text may then end within the digits.
pub(crate) fn push_hex(text: &mut String, bytes: &[u8]) -> Result<(), OutOfMemory>
    ensures { OnOk result (string_bytes text.new ≡ string_bytes text.old ++ hex_text bytes.now) }
{
    if bytes.is_empty() {
        text.push_str("-")?;
        return Ok(());
    }
    push_digits(text, bytes)
}
