//! Where the requests of a front end come from, and where their answers go.
ghost use Rattle.std.specs.Prelude.{◌≡◌, ◌≤◌, ℕ, Option, IfErr, OnErr};
ghost use Rattle.vub_base.specs.Causes.{Rose};
ghost use Rattle.vub_attend.specs.Links.{Talk, GivesNext, TakesAnswer, IsLinkError};

use std::alloc::Global;
use thiserror::Error;
use vub_base::OutOfMemory;
use vub_proto::{Answer, Request, VhostUserError};

/// A link could not be opened.
#[derive(Clone, Copy, Debug, PartialEq, Eq, Error)]
#[error("link failed")]
pub struct LinkFailed;

/// Closes a link from another thread.
pub trait Closer {
    /// Closes the link: its next calls, and one that waits, end. It may be called again.
    fn close(&self);
}

/// A front end's side of the session, as a connection: its requests come in order, and each answer goes back. It counts
/// the calls at which it had a fault. It may tell its talk: the requests that are left, and the answers that it was
/// given.
pub trait Link {
    type Closer: Closer + Drop;

    // the requests left and the answers given, where it tells them
    ghost talk: { Self → Option Talk };

    // how many of its calls had a fault
    ghost fault_count: { Self → ℕ };

    /// How many of its calls had a fault. The count never falls.
    fn faults(&self) -> u64
        ensures { result ≡ fault_count self.now };

    /// Opens the link, before its first request.
    ///
    /// # Errors
    /// Only where the count of faults rose.
    fn open(&mut self) -> Result<(), LinkFailed>
        ensures cause { OnErr result (Rose (fault_count self.old) (fault_count self.new)) }
        ensures later { fault_count self.old ≤ fault_count self.new }
        ensures talk { talk self.new ≡ talk self.old };

    /// Takes the next request.
    ///
    /// # Errors
    /// `Disconnected`, `PartialMessage`, `SocketBroken` and `InvalidMessage` only where the count of faults rose; want
    /// of memory. The talk is left.
    fn next(&mut self, alloc: Global) -> Result<Request, VhostUserError>
        ensures gives { GivesNext (talk self.old) (talk self.new) result }
        ensures cause { IfErr result (IsLinkError (fault_count self.old) (fault_count self.new)) }
        ensures later { fault_count self.old ≤ fault_count self.new };

    /// Gives the answer of the request that was taken last.
    ///
    /// # Errors
    /// As of `next`. The talk is left.
    fn answer(&mut self, alloc: Global, answer: &Answer) -> Result<(), VhostUserError>
        ensures takes { TakesAnswer answer.now (talk self.old) (talk self.new) result }
        ensures cause { IfErr result (IsLinkError (fault_count self.old) (fault_count self.new)) }
        ensures later { fault_count self.old ≤ fault_count self.new };

    /// What closes this link from another thread.
    ///
    /// # Errors
    /// Want of memory.
    fn closer(&self, alloc: Global) -> Result<Self::Closer, OutOfMemory>;
}
