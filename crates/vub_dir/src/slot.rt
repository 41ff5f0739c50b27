ghost use Rattle.std.specs.Prelude.{◌≡◌, ◌+◌, ◌<◌, ◌^◌, ◌++◌, Ok, Err, length, IfOk};
ghost use Rattle.vub_dir.specs.Layout.{fields_bytes};
ghost use Rattle.vub_dir.specs.Replies.{IsFitted, header_fields, message, refusal};

use crate::fuse::{EIO, FUSE_OUT_HEADER_SIZE};
use crate::layout::{Field, put_fields};
use std::alloc::{AllocError, Global};
use vub_base::{Bytes, OutOfMemory};

/// Where a reply goes: the number that it repeats, and the room that it has, in bytes.
#[derive(Clone, Copy)]
pub(crate) struct Slot {
    pub(crate) unique: u64,
    pub(crate) room: u32,
}

impl Slot {
    /// The reply with this body, or the error EIO where it does not fit.
    #[tactic(auto, unfolding(crate::specs::Replies::fitted))]
    pub(crate) fn succeed(self, alloc: Global, body: &[u8]) -> Result<Bytes, OutOfMemory>
        ensures { IfOk result (IsFitted self (Ok body.now)) }
    {
        if FUSE_OUT_HEADER_SIZE + body.len() <= self.room as usize {
            message(alloc, self.unique, 0, body)
        } else {
            self.refuse(alloc, EIO)
        }
    }

    /// The reply whose body is the bytes of these fields, or the error EIO where it does not fit.
    pub(crate) fn succeed_fields(
        self,
        alloc: Global,
        fields: &[Field],
    ) -> Result<Bytes, OutOfMemory>
        ensures { IfOk result (IsFitted self (Ok (fields_bytes fields.now))) }
    {
        let mut body = Vec::new(alloc);
        put_fields(&mut body, fields)?;
        self.succeed(alloc, &body)
    }

    /// The reply whose body is the bytes of the fields of `head` and then of `tail`, `size` in all, or the error EIO
    /// where it does not fit.
    #[tactic(auto, unfolding(crate::specs::Replies::fitted, crate::specs::Replies::message))]
    pub(crate) fn succeed_with(
        self,
        alloc: Global,
        size: u32,
        head: &[Field],
        tail: &[Field],
    ) -> Result<Bytes, OutOfMemory>
        requires { size ≡ length (fields_bytes head.now ++ fields_bytes tail.now) }
        ensures { IfOk result (IsFitted self (Ok (fields_bytes head.now ++ fields_bytes tail.now))) }
    {
        let length = FUSE_OUT_HEADER_SIZE + size as usize;
        if length > self.room as usize {
            return self.refuse(alloc, EIO);
        }
        let mut out = header(alloc, self.unique, 0, length as u32)?;
        put_fields(&mut out, head)?;
        put_fields(&mut out, tail)?;
        Ok(Bytes::from_vec(out))
    }

    /// The reply that refuses with this error, or nothing where there is no room for a header.
    #[tactic(auto, unfolding(crate::specs::Replies::fitted, crate::specs::Replies::refusal))]
    pub(crate) fn refuse(self, alloc: Global, errno: u32) -> Result<Bytes, OutOfMemory>
        ensures refusal { IfOk result (λ reply. reply ≡ refusal self.room self.unique errno) }
        ensures fitted { IfOk result (IsFitted self (Err errno)) }
    {
        if FUSE_OUT_HEADER_SIZE <= self.room as usize {
            message(alloc, self.unique, errno, &[])
        } else {
            Ok(Bytes::new(alloc))
        }
    }
}

/// The header of a reply of `length` bytes (`struct fuse_out_header`), with the memory for all of them.
fn header(alloc: Global, unique: u64, errno: u32, length: u32) -> Result<Vec<u8>, AllocError>
    ensures { IfOk result (λ out. out.items ≡ fields_bytes (header_fields length unique errno)) }
{
    let mut out = Vec::with_capacity(alloc, length as usize)?;
    let fields = [
        Field::U32(length),
        Field::U32(0u32.wrapping_sub(errno)),
        Field::U64(unique),
    ];
    put_fields(&mut out, &fields)?;
    Ok(out)
}

/// A reply: the header and the body.
#[tactic(auto, unfolding(crate::specs::Replies::message))]
fn message(alloc: Global, unique: u64, errno: u32, body: &[u8]) -> Result<Bytes, OutOfMemory>
    requires { 16 + length body.now < 2 ^ 32 }
    ensures { IfOk result (λ reply. reply ≡ message unique errno body.now) }
{
    let length = FUSE_OUT_HEADER_SIZE + body.len();
    let mut out = header(alloc, unique, errno, length as u32)?;
    out.extend_from_slice(body)?;
    Ok(Bytes::from_vec(out))
}
