//! The texts of errors that users of the Rust crates know.
use std::alloc::{AllocError, Global};
use std::test::Fail;
use vub_daemon::Error;
use vub_handler::VhostUserHandlerError;
use vub_locks_rows::shown::tell;
use vub_model::{VringEpollError, Why};
use vub_proto::VhostUserError;
use vub_queue::QueueError;
use vub_util::fam;

/// The texts, a line each.
const TEXTS: &str = "\
cannot create epoll fd
failed to wait for epoll event
cannot register exit event
cannot read vring kick event
failed to handle epoll event
failed to create event consumer and notifier
cannot register vring enabled event fd
failed to consume vring enabled event
out of memory
vring index out of range: 7
failed to create vring
failed to create vring epoll handler
failed spawning the vring worker
Missing memory mapping
out of memory
cannot create vhost user handler
cannot create backend listener
cannot create backend req handler
cannot create vhost-user listener
failed to start daemon
failed to handle request
uses and calls differ
out of memory
The max size has been exceeded
out of memory
";

const OF_WORKERS: [VringEpollError; 10] = [
    VringEpollError::EpollCreateFd,
    VringEpollError::EpollWait,
    VringEpollError::RegisterExitEvent,
    VringEpollError::HandleEventReadKick,
    VringEpollError::HandleEventBackendHandling(Why::RingOutside),
    VringEpollError::NewEventConsumerNotifier,
    VringEpollError::RegisterVringEnabledEvent,
    VringEpollError::HandleVringEnabledEventConsume,
    VringEpollError::OutOfMemory,
    VringEpollError::VringIndexOutOfRange(7),
];

const OF_SESSIONS: [VhostUserHandlerError; 5] = [
    VhostUserHandlerError::CreateVring(QueueError::InvalidMaxSize),
    VhostUserHandlerError::CreateEpollHandler(VringEpollError::EpollWait),
    VhostUserHandlerError::SpawnVringWorker,
    VhostUserHandlerError::MissingMemoryMapping,
    VhostUserHandlerError::OutOfMemory,
];

/// The errors of a daemon.
fn of_daemons(number: u32) -> Error {
    match number {
        0 => Error::NewVhostUserHandler(VhostUserHandlerError::SpawnVringWorker),
        1 => Error::CreateBackendListener,
        2 => Error::CreateBackendReqHandler,
        3 => Error::CreateVhostUserListener,
        4 => Error::StartDaemon,
        5 => Error::HandleRequest(VhostUserError::PartialMessage),
        6 => Error::Mismatch {
            used: None,
            served: None,
        },
        _ => Error::OutOfMemory,
    }
}

fn tell_workers(alloc: Global, lines: &mut String) -> Result<(), AllocError> {
    for error in OF_WORKERS {
        tell(alloc, lines, &error)?;
    }
    Ok(())
}

fn tell_sessions(alloc: Global, lines: &mut String) -> Result<(), AllocError> {
    for error in OF_SESSIONS {
        tell(alloc, lines, &error)?;
    }
    Ok(())
}

fn tell_daemons(alloc: Global, lines: &mut String) -> Result<(), AllocError> {
    for number in 0..8 {
        tell(alloc, lines, &of_daemons(number))?;
    }
    Ok(())
}

fn tell_lists(alloc: Global, lines: &mut String) -> Result<(), AllocError> {
    tell(alloc, lines, &fam::Error::SizeLimitExceeded)?;
    tell(alloc, lines, &fam::Error::OutOfMemory)
}

#[test]
fn errors_have_their_texts(rt: HostRuntime) -> Result<(), Fail> {
    let alloc: Global = rt.alloc();
    let mut lines = String::new(alloc);
    tell_workers(alloc, &mut lines)?;
    tell_sessions(alloc, &mut lines)?;
    tell_daemons(alloc, &mut lines)?;
    tell_lists(alloc, &mut lines)?;
    assert!(rt; lines.as_str() == TEXTS);
    Ok(())
}
