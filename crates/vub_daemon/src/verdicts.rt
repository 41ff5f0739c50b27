//! What `wait` and `serve` answer.
ghost use Rattle.std.specs.Prelude.{◌≡◌};
ghost use Rattle.vub_daemon.specs.Verdicts.{wait_verdict, serve_verdict};

use crate::error::Error;
use vub_proto::VhostUserError;

/// What `wait` answers, by the error with which the control thread ended, and by whether a shutdown was requested.
///
/// # Errors
/// `OutOfMemory` for want of memory, `HandleRequest` for any other error but `SocketBroken`; none where a shutdown was
/// requested.
pub fn wait_verdict(end: VhostUserError, requested: bool) -> Result<(), Error>
    ensures { result ≡ wait_verdict end requested }
{
    if requested {
        return Ok(());
    }
    match end {
        VhostUserError::SocketBroken => Ok(()),
        VhostUserError::OutOfMemory => Err(Error::OutOfMemory),
        end => Err(Error::HandleRequest(end)),
    }
}

/// What `serve` answers, by what its `wait` did.
///
/// # Errors
/// That of `wait`, unless the front end has gone.
pub fn serve_verdict(waited: Result<(), Error>) -> Result<(), Error>
    ensures { result ≡ serve_verdict waited }
{
    match waited {
        Err(Error::HandleRequest(VhostUserError::Disconnected)) => Ok(()),
        Err(Error::HandleRequest(VhostUserError::PartialMessage)) => Ok(()),
        waited => waited,
    }
}
