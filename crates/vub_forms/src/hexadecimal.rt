ghost use Rattle.std.specs.Prelude.{◌≡◌};
ghost use Rattle.vub_forms.specs.Reading.{Gives};
ghost use Rattle.vub_forms.specs.Hexadecimal.{lower_value, lower_pair, hex_bytes, bytes_of};

use crate::fault::Fault;
use crate::refusal::Refusal;
use crate::rule::Rule;
use crate::tree::FromTree;
use serde_json::Value;
use std::alloc::Global;
use vub_base::Bytes;

/// The value of a lower-case hexadecimal digit.
fn value_of(digit: u8) -> Option<u8>
    ensures { result ≡ lower_value digit }
{
    match digit {
        b'0'..=b'9' => Some(digit - b'0'),
        b'a'..=b'f' => Some(digit - b'a' + 10),
        _ => None,
    }
}

/// The byte of two lower-case hexadecimal digits.
fn byte_of(high: u8, low: u8) -> Option<u8>
    ensures { result ≡ lower_pair high low }
{
    let high = value_of(high)?;
    let low = value_of(low)?;
    Some(high * 16 + low)
}

/// The bytes of a text of lower-case hexadecimal digits, two for each byte.
fn bytes_in_hex(alloc: Global, text: &[u8]) -> Result<Bytes, Refusal>
    ensures { Gives result (hex_bytes text.now) }
{
    let mut bytes = Vec::with_capacity(alloc, text.len() / 2)?;
    let mut rest = text;
    while let [high, low, after @ ..] = rest {
        let Some(byte) = byte_of(*high, *low) else {
            return Err(Refusal::NoScript(Fault::of(alloc, Rule::Hex)));
        };
        bytes.push(byte)?;
        rest = after;
    }
    if rest.is_empty() {
        Ok(Bytes::from_vec(bytes))
    } else {
        Err(Refusal::NoScript(Fault::of(alloc, Rule::Hex)))
    }
}

impl FromTree for Bytes {
    ghost reads = { bytes_of };

    fn from_tree(alloc: Global, value: &Value) -> Result<Bytes, Refusal> {
        match value {
            Value::String(text) => bytes_in_hex(alloc, text.as_bytes()),
            _ => Err(Refusal::NoScript(Fault::of(alloc, Rule::Hex))),
        }
    }
}
