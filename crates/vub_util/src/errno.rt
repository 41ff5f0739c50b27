//! Error numbers of the operating system.
ghost use Rattle.std.specs.Prelude.{◌≡◌, ℤ, pos, Some, unwrap_or, IfErr, IsErr};
ghost use Rattle.std.specs.IoError.{raw_os_error};
ghost use Rattle.std.specs.Option.{option_copied};
ghost use Rattle.vub_util.specs.Errno.{texts, text_in, errno_text, error_text};

use std::marker::Model;
use std::{fmt, io};

/// An error number, as the system calls give them.
#[derive(Clone, Copy, Debug, PartialEq, Eq)]
pub struct Error(i32);

impl Model for Error {
    ghost Value = { ℤ };

    ghost view = { λ e. e.0 };

    ghost inverse = { λ n. record { 0 = n } };
}

/// A result with an error number.
pub type Result<T> = std::result::Result<T, Error>;

impl Error {
    /// The error with this number.
    pub fn new(errno: i32) -> Error
        ensures { result ≡ errno }
    {
        Error(errno)
    }

    /// The error of the last call that failed, whose number is handed in.
    pub fn last(errno: i32) -> Error
        ensures { result ≡ errno }
    {
        Error(errno)
    }

    /// The error's number.
    pub fn errno(self) -> i32
        ensures { result ≡ self }
    {
        self.0
    }
}

/// Always the error with this number.
pub fn errno_result<T>(errno: i32) -> Result<T>
    ensures refused { IsErr result }
    ensures number { IfErr result (λ e. e ≡ errno) }
{
    Err(Error::new(errno))
}

impl From<io::Error> for Error {
    ghost from_gives = { λ e r. r ≡ unwrap_or (raw_os_error e) (pos 0) };

    /// The number of the system's error, or 0 where it has none.
    fn from(e: io::Error) -> Error {
        Error(e.raw_os_error().unwrap_or(0))
    }
}

impl From<Error> for io::Error {
    ghost from_gives = { λ e r. raw_os_error r ≡ Some e };

    /// The system's error with this number.
    fn from(e: Error) -> io::Error {
        io::Error::from_raw_os_error(e.0)
    }
}

impl fmt::Display for Error {
    ghost output = { λ e. Some (error_text e) };

    fn fmt<W: fmt::Write>(&self, f: &mut fmt::Formatter<W>) -> fmt::Result {
        let errno = self.errno();
        match text_of(errno) {
            Some(text) => write!(f, "{text} (os error {errno})"),
            None => write!(f, "Unknown error {errno} (os error {errno})"),
        }
    }
}

impl std::error::Error for Error {}

// The text of an error number, where it has one.
fn text_of(errno: i32) -> Option<&'static str>
    ensures { option_copied result ≡ errno_text errno }
{
    if errno < 0 {
        None
    } else {
        text_of_number(errno as u32)
    }
}

fn text_of_number(number: u32) -> Option<&'static str>
    ensures { option_copied result ≡ text_in texts number }
{
    match number {
        1 => Some("Operation not permitted"),
        2 => Some("No such file or directory"),
        3 => Some("No such process"),
        4 => Some("Interrupted system call"),
        5 => Some("Input/output error"),
        6 => Some("No such device or address"),
        7 => Some("Argument list too long"),
        8 => Some("Exec format error"),
        9 => Some("Bad file descriptor"),
        10 => Some("No child processes"),
        11 => Some("Resource temporarily unavailable"),
        12 => Some("Cannot allocate memory"),
        13 => Some("Permission denied"),
        14 => Some("Bad address"),
        16 => Some("Device or resource busy"),
        17 => Some("File exists"),
        18 => Some("Invalid cross-device link"),
        19 => Some("No such device"),
        20 => Some("Not a directory"),
        21 => Some("Is a directory"),
        22 => Some("Invalid argument"),
        23 => Some("Too many open files in system"),
        24 => Some("Too many open files"),
        25 => Some("Inappropriate ioctl for device"),
        27 => Some("File too large"),
        28 => Some("No space left on device"),
        29 => Some("Illegal seek"),
        30 => Some("Read-only file system"),
        32 => Some("Broken pipe"),
        105 => Some("No buffer space available"),
        _ => None,
    }
}
