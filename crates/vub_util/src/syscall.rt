//! What a system call returns: a value, or -1 where it failed.
ghost use Rattle.std.specs.Prelude.{◌≡◌, negsuc, true, false};
ghost use Rattle.vub_util.specs.Syscall.{ReturnsUnless, SucceedsUnless};

use crate::errno::{Error, Result};

/// The value that a system call returned; -1 says that it failed.
#[derive(Debug, Drop)]
pub struct SyscallReturnCode<T: From<i8> + Eq = i32>(pub T);

impl<T: From<i8> + Eq + Drop> SyscallReturnCode<T> {
    /// The value, or the error with this number exactly where the value is -1.
    pub fn into_result(self, errno: i32) -> Result<T>
        ensures { (failed : T) × T.From.from_gives (negsuc 0) failed
            × ReturnsUnless (T.eq self.0 failed) self.0 errno result }
    {
        if self.0 == T::from(-1) {
            Err(Error::last(errno))
        } else {
            Ok(self.0)
        }
    }

    /// Nothing, or the error with this number exactly where the value is -1.
    pub fn into_empty_result(self, errno: i32) -> Result<()>
        ensures { (failed : T) × T.From.from_gives (negsuc 0) failed
            × SucceedsUnless (T.eq self.0 failed) errno result }
    {
        self.into_result(errno)?;
        Ok(())
    }
}
