//! The front of the bodies of READ, WRITE and READDIR (`struct fuse_read_in`, `struct fuse_write_in`).
ghost use Rattle.std.specs.Prelude.{◌≡◌, ◌≤◌, length};
ghost use Rattle.vub_dir.specs.Directory.{offset_in, size_in};

use crate::layout::{u32_in, u64_in};

/// The place in the file, in bytes, or in the directory, in entries.
pub(crate) fn offset_of(body: &[u8]) -> u64
    requires { 40 ≤ length body.now }
    ensures { result ≡ offset_in body.now }
{
    u64_in(body, 8)
}

/// How many bytes are asked for, or follow.
pub(crate) fn size_of(body: &[u8]) -> u32
    requires { 40 ≤ length body.now }
    ensures { result ≡ size_in body.now }
{
    u32_in(body, 16)
}
