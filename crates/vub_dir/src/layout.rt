//! Layouts: fields of 2, 4 and 8 bytes one after the other, each in little-endian order.
ghost use Rattle.std.specs.Prelude.{◌≡◌, ◌+◌, ◌≤◌, ◌++◌, length, drop, OnOk};
ghost use Rattle.vub_dir.specs.Layout.{field_bytes, fields_bytes, u32_at, u64_at};

use byteorder::{ByteOrder, LittleEndian};
use std::alloc::AllocError;

/// One field of a layout.
#[derive(Clone, Copy)]
pub enum Field {
    U16(u16),
    U32(u32),
    U64(u64),
}

/// Appends one field.
fn put_field(out: &mut Vec<u8>, field: Field) -> Result<(), AllocError>
    ensures { OnOk result (out.new.items ≡ out.old.items ++ field_bytes field) }
{
    match field {
        Field::U16(number) => out.extend_from_slice(&number.to_le_bytes()),
        Field::U32(number) => out.extend_from_slice(&number.to_le_bytes()),
        Field::U64(number) => out.extend_from_slice(&number.to_le_bytes()),
    }
}

/// Appends the fields, one after the other.
#[tactic(auto, unfolding(crate::specs::Layout::fields_bytes))]
pub(crate) fn put_fields(out: &mut Vec<u8>, fields: &[Field]) -> Result<(), AllocError>
    ensures { OnOk result (out.new.items ≡ out.old.items ++ fields_bytes fields.now) }
{
    for field in fields {
        put_field(out, *field)?;
    }
    Ok(())
}

/// The 4 bytes from place `at` on, as a number.
#[tactic(auto, unfolding(crate::specs::Layout::u32_at))]
pub(crate) fn u32_in(bytes: &[u8], at: usize) -> u32
    requires { at + 4 ≤ length bytes.now }
    ensures { result ≡ u32_at bytes.now at }
{
    LittleEndian::read_u32(&bytes[at..])
}

/// The 8 bytes from place `at` on, as a number.
#[tactic(auto, unfolding(crate::specs::Layout::u64_at))]
pub(crate) fn u64_in(bytes: &[u8], at: usize) -> u64
    requires { at + 8 ≤ length bytes.now }
    ensures { result ≡ u64_at bytes.now at }
{
    LittleEndian::read_u64(&bytes[at..])
}

/// The bytes after the first `count`.
pub(crate) fn bytes_after(bytes: &[u8], count: usize) -> &[u8]
    requires { count ≤ length bytes.now }
    ensures { result.now ≡ drop count bytes.now }
{
    &bytes[count..]
}
