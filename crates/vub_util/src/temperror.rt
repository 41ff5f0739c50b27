ghost use Rattle.std.specs.Prelude.{◌≡◌, ◌≢◌, ◌↔◌, pos, unwrap_or, IfErr, IsErrOf, IsOk};
ghost use Rattle.std.specs.IoError.{error_kind, raw_os_error};
ghost use Rattle.vub_util.specs.Temp.{refusal_of, removal_refusal_of};

use std::alloc::AllocError;
use std::io;
use thiserror::Error;

/// Why a temporary file or directory was not made or not removed.
#[derive(Clone, Copy, Debug, PartialEq, Eq, Error)]
pub enum TempError {
    /// The name exists.
    #[error("the name is taken")]
    Taken,
    /// The system refused, with this number.
    #[error("os error {0}")]
    Os(i32),
    /// Memory was refused.
    #[error("out of memory")]
    OutOfMemory,
}

impl From<AllocError> for TempError {
    ghost use Rattle.vub_util.specs.declared.temperror.TempError.{TempError};

    ghost from_gives = { λ _ r. r ≡ TempError.OutOfMemory };

    fn from(_refused: AllocError) -> TempError {
        TempError::OutOfMemory
    }
}

impl From<io::Error> for TempError {
    ghost from_gives = { λ e r. r ≡ refusal_of (error_kind e) (unwrap_or (raw_os_error e) (pos 0)) };

    /// By the kind of the system's error, and else by its number, or 0 where it has none.
    fn from(refused: io::Error) -> TempError {
        match refused.kind() {
            io::ErrorKind::AlreadyExists => TempError::Taken,
            _ => removal_refusal(refused),
        }
    }
}

// Why a name was not removed.
fn removal_refusal(refused: io::Error) -> TempError
    ensures { result ≡ removal_refusal_of (error_kind refused) (unwrap_or (raw_os_error refused) (pos 0)) }
{
    match refused.kind() {
        io::ErrorKind::OutOfMemory => TempError::OutOfMemory,
        _ => TempError::Os(refused.raw_os_error().unwrap_or(0)),
    }
}

// What the removal of a name answers, by what the system answered.
pub(crate) fn removed(answer: io::Result<()>) -> Result<(), TempError>
    ensures ok { IsOk result ↔ IsOk answer }
    ensures err { IfErr answer (λ e. IsErrOf result
        (removal_refusal_of (error_kind e) (unwrap_or (raw_os_error e) (pos 0)))) }
    ensures never { IfErr result (λ e. e ≢ TempError.Taken) }
{
    match answer {
        Ok(()) => Ok(()),
        Err(refused) => Err(removal_refusal(refused)),
    }
}
