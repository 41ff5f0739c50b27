//! The calls of a worker's listeners and of its exit object.
ghost use Rattle.std.specs.Prelude.{◌≡◌, IsErrOf};
ghost use Rattle.vub_loop.specs.Listening.{handle_of, is_for_listener, listener_answer, listener_error, Registers, Unregisters, ListenFrame, SendsExit, ExitFrame};
ghost use Rattle.vub_vring.specs.PartsState.{Tells};

use crate::handler::VringEpollHandler;
use std::alloc::Global;
use thiserror::Error;
use vub_event::{EventSet, HostError};
use vub_proto::ListenerError;
use vub_vring::{HostOp, HostSaid, Parts, PartsError};

/// Why a listener was not registered, or not unregistered. Nothing has changed.
#[derive(Clone, Copy, Debug, PartialEq, Eq, Error)]
pub enum ListenerFault {
    /// It was refused.
    #[error("{0}")]
    Listener(ListenerError),
    /// The host failed. It comes only where the host's count of faults rose.
    #[error("host failed")]
    Host,
    /// Memory was refused.
    #[error("out of memory")]
    OutOfMemory,
}

/// What is needed of a worker to give it listeners and to end it, wherever the worker runs.
#[derive(Clone, Copy, Debug, PartialEq, Eq)]
pub struct EpollHandle {
    /// The worker's number.
    pub worker: u32,
    /// Its interest list.
    pub list: u32,
    /// Its exit object, if it has one.
    pub exit: Option<u32>,
    /// The number of all queues: the token of a listener is above it.
    pub queues: usize,
}

/// The greatest token of a listener, whose event the device is given in 16 bits.
const GREATEST_TOKEN: u64 = 65535;

/// Whether a listener may have this set and this token, beside so many queues.
fn is_for_listener(queues: usize, set: EventSet, token: u64) -> bool
    ensures { result ≡ is_for_listener queues set token }
{
    token > queues as u64 && token <= GREATEST_TOKEN && set == EventSet::IN
}

/// What a refusal of the host means.
fn listener_error(error: HostError) -> ListenerError
    ensures { result ≡ listener_error error }
{
    match error {
        HostError::EEXIST => ListenerError::AlreadyExists,
        HostError::ENOENT => ListenerError::NotFound,
        _ => ListenerError::EINVAL,
    }
}

/// The answer, by what the host said.
fn listener_answer(answer: Result<HostSaid, PartsError>) -> Result<(), ListenerFault>
    ensures same { result ≡ listener_answer answer }
    ensures host { IsErrOf result ListenerFault.Host → IsErrOf answer PartsError.Fault }
    ensures memory { IsErrOf result ListenerFault.OutOfMemory → IsErrOf answer PartsError.OutOfMemory }
{
    match answer {
        Ok(HostSaid::Refused(error)) => Err(ListenerFault::Listener(listener_error(error))),
        Ok(_) => Ok(()),
        Err(PartsError::Fault) => Err(ListenerFault::Host),
        Err(PartsError::OutOfMemory) => Err(ListenerFault::OutOfMemory),
    }
}

impl EpollHandle {
    /// Adds the event object to the worker's list: the device handles its events under this token.
    ///
    /// # Errors
    /// EINVAL where the token is not above the number of queues or above 65535, where the set is not IN alone, or where
    /// there is no such object or list; `AlreadyExists` where the object is on the list or is the kick of a queue; a
    /// fault of the host; want of memory.
    pub fn register_listener<P: Parts>(
        &self,
        alloc: Global,
        parts: &mut P,
        object: u32,
        set: EventSet,
        token: u64,
    ) -> Result<(), ListenerFault>
        ensures row { Tells (P.state parts.old) (P.state parts.new) (Registers self.now object set token result) }
        ensures frame { ListenFrame (P.state parts.old) (P.state parts.new) result }
    {
        if !is_for_listener(self.queues, set, token) {
            return Err(ListenerFault::Listener(ListenerError::EINVAL));
        }
        let answer = parts.host(alloc, HostOp::Listen(self.list, object, token));
        listener_answer(answer)
    }

    /// Takes the event object off the worker's list, whichever listener's token it has there. Takes no memory.
    ///
    /// # Errors
    /// EINVAL where the token is not above the number of queues or above 65535, where the set is not IN alone, or where
    /// there is no such object or list; `NotFound` where the object is no listener of the list, as a kick and the exit
    /// object are none; a fault of the host.
    pub fn unregister_listener<P: Parts>(
        &self,
        alloc: Global,
        parts: &mut P,
        object: u32,
        set: EventSet,
        token: u64,
    ) -> Result<(), ListenerFault>
        ensures row { Tells (P.state parts.old) (P.state parts.new) (Unregisters self.now object set token result) }
        ensures memory { ¬ (IsErrOf result ListenerFault.OutOfMemory) }
        ensures frame { ListenFrame (P.state parts.old) (P.state parts.new) result }
    {
        if !is_for_listener(self.queues, set, token) {
            return Err(ListenerFault::Listener(ListenerError::EINVAL));
        }
        let answer = parts.host(
            alloc,
            HostOp::Unlisten(self.list, object, self.queues as u64),
        );
        listener_answer(answer)
    }

    /// Tells the worker to end, if it has an exit object: 1 is added to its count, and a full count stays. A fault of
    /// the host is passed over. Takes no memory.
    pub fn send_exit_event<P: Parts>(&self, alloc: Global, parts: &mut P)
        ensures row { SendsExit self.now.exit (P.state parts.old) (P.state parts.new) }
        ensures frame { ExitFrame (P.state parts.old) (P.state parts.new) }
    {
        if let Some(exit) = self.exit {
            let _said = parts.host(alloc, HostOp::Signal(exit, 1));
        }
    }
}

impl VringEpollHandler {
    /// As [`EpollHandle::register_listener`].
    ///
    /// # Errors
    /// The same.
    pub fn register_listener<P: Parts>(
        &self,
        alloc: Global,
        parts: &mut P,
        object: u32,
        set: EventSet,
        token: u64,
    ) -> Result<(), ListenerFault>
        ensures row { Tells (P.state parts.old) (P.state parts.new)
            (Registers (handle_of self.now) object set token result) }
        ensures frame { ListenFrame (P.state parts.old) (P.state parts.new) result }
    {
        let handle = self.epoll_handle();
        handle.register_listener(alloc, parts, object, set, token)
    }

    /// As [`EpollHandle::unregister_listener`].
    ///
    /// # Errors
    /// The same.
    pub fn unregister_listener<P: Parts>(
        &self,
        alloc: Global,
        parts: &mut P,
        object: u32,
        set: EventSet,
        token: u64,
    ) -> Result<(), ListenerFault>
        ensures row { Tells (P.state parts.old) (P.state parts.new)
            (Unregisters (handle_of self.now) object set token result) }
        ensures memory { ¬ (IsErrOf result ListenerFault.OutOfMemory) }
        ensures frame { ListenFrame (P.state parts.old) (P.state parts.new) result }
    {
        let handle = self.epoll_handle();
        handle.unregister_listener(alloc, parts, object, set, token)
    }

    /// As [`EpollHandle::send_exit_event`].
    pub fn send_exit_event<P: Parts>(&self, alloc: Global, parts: &mut P)
        ensures row { SendsExit (handle_of self.now).exit (P.state parts.old) (P.state parts.new) }
        ensures frame { ExitFrame (P.state parts.old) (P.state parts.new) }
    {
        let handle = self.epoll_handle();
        handle.send_exit_event(alloc, parts);
    }
}
