//! What a vhost-user daemon takes from `vmm-sys-util`, without the host's part: error numbers, system call codes,
//! alignment, ioctl numbers, counters, lists behind a header, temporary files, and the calls on sparse files.
#![tactic(auto)]

pub mod align;
pub mod errno;
pub mod fam;
pub mod ioctl;
pub mod metric;
pub mod syscall;
pub mod tempdir;
pub mod temperror;
pub mod tempfile;

pub use vub_sparse::{
    FallocateMode, FileError, FileSetLen, FileSync, MemFile, PunchHole, SeekHole, SparseFile,
    WriteZeroes, WriteZeroesAt, fallocate,
};
