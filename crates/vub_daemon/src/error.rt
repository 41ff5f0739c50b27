use vub_handler::VhostUserHandlerError;
use vub_locks::{Served, Spent};
use vub_proto::VhostUserError;

/// Why a call of a daemon was refused, or how what it ran has ended (`Error` of the Rust crate `vhost-user-backend`).
#[derive(Debug, Drop, thiserror::Error)]
pub enum Error {
    /// The session was not made, or a worker not started.
    #[error("cannot create vhost user handler")]
    NewVhostUserHandler(VhostUserHandlerError),
    /// The link of `start` can't be opened.
    #[error("cannot create backend listener")]
    CreateBackendListener,
    /// The link of `start_client` can't be opened.
    #[error("cannot create backend req handler")]
    CreateBackendReqHandler,
    /// The link of `serve` can't be opened.
    #[error("cannot create vhost-user listener")]
    CreateVhostUserListener,
    /// The control thread was not started.
    #[error("failed to start daemon")]
    StartDaemon,
    /// The control thread has ended with this error.
    #[error("failed to handle request")]
    HandleRequest(VhostUserError),
    /// What stands at the first place, in order of serial, at which the records of uses and the calls of the service
    /// differ. One of them is None exactly where its list has ended there.
    #[error("uses and calls differ")]
    Mismatch {
        used: Option<Spent>,
        served: Option<Served>,
    },
    /// Memory was refused.
    #[error("out of memory")]
    OutOfMemory,
}
