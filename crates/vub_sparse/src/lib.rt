//! Sparse files: a list of cells, each a byte or a hole, with a position, and the calls that punch holes, look for
//! them and write zeroes. [`MemFile`] keeps such a file in memory.
#![tactic(auto)]

mod allocate;
mod error;
mod holes;
mod lengths;
mod mem;
mod seek;
mod sparse;
mod store;
mod zeroes;

pub use allocate::{FallocateMode, PunchHole, fallocate};
pub use error::FileError;
pub use lengths::{FileSetLen, FileSync};
pub use mem::MemFile;
pub use seek::SeekHole;
pub use sparse::SparseFile;
pub use zeroes::{WriteZeroes, WriteZeroesAt};
