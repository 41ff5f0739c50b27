//! A host none of whose calls is to fail, as it lies under a lock.
ghost use Rattle.std.specs.Prelude.{◌≡◌, [], IfOk, IsErrOf, IsTrue};
ghost use Rattle.vub_vring.specs.Calls.{IsSaid, takes_memory};

use std::alloc::Global;
use vub_event::{Host, MemHost};
use vub_ring::{KickSaid, PartsError, RingState, play_kick};
use vub_vring::{HostOp, HostSaid, play_host};

/// A host in memory that has no call to fail, which its type says: so it is known also of one that lies under a lock.
#[derive(Debug, Drop)]
pub struct QuietHost {
    pub(crate) host: MemHost,
    ghost quiet: { host.plan.calls.items ≡ [] },
}

impl QuietHost {
    /// This host.
    pub fn new(host: MemHost) -> QuietHost
        requires { host.plan.calls.items ≡ [] }
    {
        QuietHost { host }
    }

    /// Makes this call of the host.
    ///
    /// # Errors
    /// Want of memory, at `CreateEvent`, `CreateList`, `Add` and `Listen` alone.
    pub fn play(&mut self, alloc: Global, op: HostOp) -> Result<HostSaid, PartsError>
        ensures said { IfOk result IsSaid }
        ensures memory { IsErrOf result PartsError.OutOfMemory → IsTrue (takes_memory op) }
        ensures fault { ¬ (IsErrOf result PartsError.Fault) }
    {
        play_host(alloc, &mut self.host, op)
    }

    /// Reads the counter of this event, if it is the kick of the ring.
    pub(crate) fn read_kick<S: RingState>(
        &mut self,
        alloc: Global,
        ring: &mut S,
        object: u32,
    ) -> Result<KickSaid, PartsError>
        ensures fault { ¬ (IsErrOf result PartsError.Fault) }
        ensures only { ¬ (IsErrOf result PartsError.OutOfMemory) }
    {
        play_kick(alloc, ring, &mut self.host, object)
    }

    /// Whether the list is there and no member of it is ready.
    pub(crate) fn is_quiet(&mut self, list: u32) -> bool {
        matches!(self.host.ready(list), Ok(None))
    }
}
