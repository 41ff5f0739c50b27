//! Temporary files over the files of the system.
ghost use Rattle.std.specs.Prelude.{◌≡◌, ◌≢◌, ◌++◌, ◌∷◌, [], IfOk, IfErr, string_bytes};

use crate::temperror::{TempError, removed};
use std::alloc::Global;
use std::fs::{self, File};
use std::rt::Files;

/// A file that is removed when it is no longer needed. The value must be spent, by [`TempFile::into_file`] or
/// [`TempFile::close`], and each removes its name.
#[derive(Debug)]
pub struct TempFile<F = File> {
    path: String,
    file: F,
}

impl<F: Drop> TempFile<F> {
    /// A new file, whose path is `prefix` and `ending` joined.
    ///
    /// # Errors
    /// `Taken` where the name exists; the system's number; want of memory.
    pub fn new_with_prefix<R: Files<File = F>>(
        rt: &R,
        alloc: Global,
        prefix: &str,
        ending: &str,
    ) -> Result<TempFile<F>, TempError>
        ensures { IfOk result (λ t. string_bytes t.path ≡ prefix.now ++ ending.now) }
    {
        let mut path = String::from_str(alloc, prefix)?;
        path.push_str(ending)?;
        let file = File::create_new(rt, path.as_str())?;
        Ok(TempFile { path, file })
    }

    /// A new file in the directory `path`, named by `ending`.
    ///
    /// # Errors
    /// As [`TempFile::new_with_prefix`].
    pub fn new_in<R: Files<File = F>>(
        rt: &R,
        alloc: Global,
        path: &str,
        ending: &str,
    ) -> Result<TempFile<F>, TempError>
        ensures { IfOk result (λ t. string_bytes t.path ≡ path.now ++ 47 ∷ ending.now) }
    {
        let mut prefix = String::from_str(alloc, path)?;
        prefix.push_str("/")?;
        TempFile::new_with_prefix(rt, alloc, prefix.as_str(), ending)
    }

    /// A new file in the directory `tmp` for temporary files, named by `ending`.
    ///
    /// # Errors
    /// As [`TempFile::new_with_prefix`].
    pub fn new<R: Files<File = F>>(
        rt: &R,
        alloc: Global,
        tmp: &str,
        ending: &str,
    ) -> Result<TempFile<F>, TempError>
        ensures { IfOk result (λ t. string_bytes t.path ≡ tmp.now ++ 47 ∷ ending.now) }
    {
        TempFile::new_in(rt, alloc, tmp, ending)
    }

    /// The file's path, which still stands after [`TempFile::remove`].
    pub fn as_path(&self) -> &str
        ensures { result.now ≡ string_bytes self.now.path }
    {
        self.path.as_str()
    }

    /// The open file.
    pub fn as_file(&self) -> &F
        ensures { result.now ≡ self.now.file }
    {
        &self.file
    }

    /// The open file, whose name is removed. That this is refused isn't told.
    pub fn into_file<R: Files<File = F>>(self, rt: &R) -> F
        ensures { result ≡ self.file }
    {
        let TempFile { path, file } = self;
        let _ = fs::remove_file(rt, path.as_str());
        file
    }

    /// Removes the file's name.
    ///
    /// # Errors
    /// The system's number; want of memory. Never `Taken`.
    pub fn remove<R: Files<File = F>>(&mut self, rt: &R) -> Result<(), TempError>
        ensures kept { self.new ≡ self.old }
        ensures refused { IfErr result (λ e. e ≢ TempError.Taken) }
    {
        removed(fs::remove_file(rt, self.path.as_str()))
    }

    /// Closes the file and removes its name.
    ///
    /// # Errors
    /// The system's number; want of memory. Never `Taken`.
    pub fn close<R: Files<File = F>>(self, rt: &R) -> Result<(), TempError>
        ensures { IfErr result (λ e. e ≢ TempError.Taken) }
    {
        let TempFile { path, file: _ } = self;
        removed(fs::remove_file(rt, path.as_str()))
    }
}
