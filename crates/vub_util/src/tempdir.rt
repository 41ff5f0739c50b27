//! Temporary directories over the files of the system.
ghost use Rattle.std.specs.Prelude.{◌≡◌, ◌≢◌, ◌++◌, ◌∷◌, [], IfOk, IfErr, string_bytes};

use crate::temperror::{TempError, removed};
use std::alloc::Global;
use std::fs;
use std::rt::Files;

/// A directory that is removed with all that is inside when it is no longer needed. The value must be spent by
/// [`TempDir::close`].
#[derive(Debug)]
pub struct TempDir {
    path: String,
}

impl TempDir {
    /// A new directory, whose path is `prefix` and `ending` joined.
    ///
    /// # Errors
    /// `Taken` where the name exists; the system's number; want of memory.
    pub fn new_with_prefix<R: Files>(
        rt: &R,
        alloc: Global,
        prefix: &str,
        ending: &str,
    ) -> Result<TempDir, TempError>
        ensures { IfOk result (λ t. string_bytes t.path ≡ prefix.now ++ ending.now) }
    {
        let mut path = String::from_str(alloc, prefix)?;
        path.push_str(ending)?;
        fs::create_dir(rt, path.as_str())?;
        Ok(TempDir { path })
    }

    /// A new directory in the directory `path`, named by `ending`.
    ///
    /// # Errors
    /// As [`TempDir::new_with_prefix`].
    pub fn new_in<R: Files>(
        rt: &R,
        alloc: Global,
        path: &str,
        ending: &str,
    ) -> Result<TempDir, TempError>
        ensures { IfOk result (λ t. string_bytes t.path ≡ path.now ++ 47 ∷ ending.now) }
    {
        let mut prefix = String::from_str(alloc, path)?;
        prefix.push_str("/")?;
        TempDir::new_with_prefix(rt, alloc, prefix.as_str(), ending)
    }

    /// A new directory in the directory `tmp` for temporary files, named by `ending`.
    ///
    /// # Errors
    /// As [`TempDir::new_with_prefix`].
    pub fn new<R: Files>(
        rt: &R,
        alloc: Global,
        tmp: &str,
        ending: &str,
    ) -> Result<TempDir, TempError>
        ensures { IfOk result (λ t. string_bytes t.path ≡ tmp.now ++ 47 ∷ ending.now) }
    {
        TempDir::new_in(rt, alloc, tmp, ending)
    }

    /// The directory's path, which still stands after [`TempDir::remove`].
    pub fn as_path(&self) -> &str
        ensures { result.now ≡ string_bytes self.now.path }
    {
        self.path.as_str()
    }

    /// Removes the directory and all that is inside.
    ///
    /// # Errors
    /// The system's number; want of memory. Never `Taken`.
    pub fn remove<R: Files>(&mut self, rt: &R) -> Result<(), TempError>
        ensures kept { self.new ≡ self.old }
        ensures refused { IfErr result (λ e. e ≢ TempError.Taken) }
    {
        removed(rt.remove_dir_all(*self.path.allocator(), self.path.as_str()))
    }

    /// Removes the directory and all that is inside.
    ///
    /// # Errors
    /// The system's number; want of memory. Never `Taken`.
    pub fn close<R: Files>(self, rt: &R) -> Result<(), TempError>
        ensures { IfErr result (λ e. e ≢ TempError.Taken) }
    {
        let TempDir { path } = self;
        removed(rt.remove_dir_all(*path.allocator(), path.as_str()))
    }
}
