ghost use Rattle.std.specs.Prelude.{◌≡◌};
ghost use Rattle.std.specs.List.{list_all};
ghost use Rattle.serde_json.specs.Find.{as_u64};
ghost use Rattle.serde_json.specs.View.{number_view};
ghost use Rattle.vub_forms.specs.Reading.{Gives};
ghost use Rattle.vub_forms.specs.Numbers.{is_lower_hex, is_hex_number, hex_number, number_of, u32_of, u16_of};

use crate::fault::Fault;
use crate::refusal::Refusal;
use crate::rule::Rule;
use crate::tree::FromTree;
use serde_json::{Number, Value};
use std::alloc::Global;

/// Whether this byte is one of `0` to `9` and `a` to `f`.
fn is_lower_hex_digit(byte: u8) -> bool
    ensures { result ≡ is_lower_hex byte }
{
    (48 <= byte && byte <= 57) || (97 <= byte && byte <= 102)
}

/// Whether all these bytes are lower-case hexadecimal digits.
fn are_lower_hex(bytes: &[u8]) -> bool
    ensures { result ≡ list_all is_lower_hex bytes.now }
{
    bytes.iter().all(|byte| is_lower_hex_digit(*byte))
}

/// Whether the text is `0x` and 1 to 16 digits.
fn is_number_in_hex(text: &[u8]) -> bool
    ensures { result ≡ is_hex_number text.now }
{
    text.len() >= 3
        && text.len() <= 18
        && text[0] == 48
        && text[1] == 120
        && are_lower_hex(&text[2..])
}

/// The number that the text is, if it is `0x` and 1 to 16 digits.
#[tactic(auto, unfolding(crate::specs::Numbers::hex_number))]
fn number_in_hex(alloc: Global, text: &str) -> Result<u64, Refusal>
    ensures { Gives result (hex_number text.now) }
{
    if !is_number_in_hex(text.as_bytes()) {
        return Err(Refusal::NoScript(Fault::of(alloc, Rule::Number)));
    }
    match u64::from_str_radix(&text[2..], 16) {
        Ok(number) => Ok(number),
        Err(_) => Err(Refusal::NoScript(Fault::of(alloc, Rule::Number))),
    }
}

/// The number, if it is whole and from 0 to 2^64 - 1.
fn whole_number(alloc: Global, number: &Number) -> Result<u64, Refusal>
    ensures { Gives result (as_u64 (number_view number.now)) }
{
    match number.as_u64() {
        Some(number) => Ok(number),
        None => Err(Refusal::NoScript(Fault::of(alloc, Rule::Number))),
    }
}

impl FromTree for u64 {
    ghost reads = { number_of };

    fn from_tree(alloc: Global, value: &Value) -> Result<u64, Refusal> {
        match value {
            Value::Number(number) => whole_number(alloc, number),
            Value::String(text) => number_in_hex(alloc, text),
            _ => Err(Refusal::NoScript(Fault::of(alloc, Rule::Number))),
        }
    }
}

impl FromTree for u32 {
    ghost reads = { u32_of };

    fn from_tree(alloc: Global, value: &Value) -> Result<u32, Refusal> {
        let number = u64::from_tree(alloc, value)?;
        if number > 0xffff_ffff {
            return Err(Refusal::NoScript(Fault::of(alloc, Rule::Number32)));
        }
        Ok(number as u32)
    }
}

impl FromTree for u16 {
    ghost reads = { u16_of };

    fn from_tree(alloc: Global, value: &Value) -> Result<u16, Refusal> {
        let number = u64::from_tree(alloc, value)?;
        if number > 0xffff {
            return Err(Refusal::NoScript(Fault::of(alloc, Rule::Number16)));
        }
        Ok(number as u16)
    }
}
