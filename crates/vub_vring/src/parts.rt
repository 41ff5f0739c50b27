ghost use Rattle.std.specs.Prelude.{◌≡◌, ◌≤◌, ℕ, length, sum_by, IfOk, OnErr, IsErrOf, IsTrue};
ghost use Rattle.std.specs.Option.{ForSome};
ghost use Rattle.vub_model.specs.Control.{IsOutcome};
ghost use Rattle.vub_model.specs.Service.{meaning};
ghost use Rattle.vub_ring.specs.Play.{HasRoom, inserts};
ghost use Rattle.vub_vring.specs.Calls.{RingCall, TableRingCall, KickCall, PutCall, PutTried, PendCall, ServiceCall, HostCall, IsSaid, takes_memory, TableCall, IsTableSaid, LogCall, IsLogSaid, DeviceCall, telling, IsCounted, gives_content};
ghost use Rattle.vub_vring.specs.PartsState.{PartsState, HasFailed, IsCall, IsDeviceCall, WaitsWhereTold, Keeps, KeepsShared, IsUntouched};

use crate::ops::{HostOp, HostSaid, LogSaid, TableSaid};
use std::alloc::Global;
use vub_base::{Bytes, OutOfMemory};
use vub_model::{Constants, Entry, RingOp, RingSaid, TableOp};
use vub_proto::{DeviceOp, DeviceSaid, Service, VhostUserBackendMut};
use vub_ring::{KickSaid, PartsError, PendOp, PendSaid, PutSaid, TableRing, TableRingSaid};

/// The parts that guest, control and workers share: rings, guest memory, the host, pending sets, the device and the
/// service. Each call is one hold of the parts that it touches, and one step of the machine.
///
/// Parts may tell what they hold, and then each call says and leaves what its definition says. Told or not, a call that
/// is not made changes nothing, and a fault of the host or a refusal of the device comes only where its count rose. A
/// queue or a worker that is not there is as a closed ring, and as an empty pending set that stays empty. Parts that
/// tell nothing do not answer that a change has to wait: they wait by themselves.
pub trait Parts {
    type Service: Service;

    type Device: VhostUserBackendMut;

    // what they tell of themselves; no call changes what is lent or the constants
    ghost state: { Self → PartsState Self.Service Self.Device };

    /// How many calls of the host have failed. The count never falls.
    fn faults(&self) -> u64
        ensures { result ≡ (state self.now).faults };

    /// How many of its calls the device has refused. The count never falls.
    fn refusals(&self) -> u64
        ensures { result ≡ (state self.now).refusals };

    /// Applies an op to a ring (`VringState` of the Rust crate `vhost-user-backend`).
    ///
    /// # Errors
    /// Want of memory.
    fn ring(&mut self, alloc: Global, queue: u32, op: RingOp) -> Result<RingSaid, PartsError>
        ensures row { IsCall (state self.old) (state self.new) result (RingCall queue op) }
        ensures waits { WaitsWhereTold (state self.old) result RingSaid.Waits }
        ensures only { ¬ (IsErrOf result PartsError.Fault) }
        ensures frame { Keeps (state self.old) (state self.new) result };

    /// Sets the addresses of a ring, and the next used index that stands there; or takes the next entry of a ring that
    /// is ready and enabled, has its addresses and no entry in flight.
    ///
    /// # Errors
    /// Want of memory.
    fn ring_table(
        &mut self,
        alloc: Global,
        queue: u32,
        op: TableRing,
    ) -> Result<TableRingSaid, PartsError>
        ensures row { IsCall (state self.old) (state self.new) result (TableRingCall queue op) }
        ensures waits { WaitsWhereTold (state self.old) result TableRingSaid.Waits }
        ensures room { IfOk result HasRoom }
        ensures only { ¬ (IsErrOf result PartsError.Fault) }
        ensures frame { Keeps (state self.old) (state self.new) result };

    /// Reads the counter of this event, if it is the kick of the ring.
    ///
    /// # Errors
    /// A fault of the host.
    fn ring_host(&mut self, alloc: Global, queue: u32, object: u32) -> Result<KickSaid, PartsError>
        ensures row { IsCall (state self.old) (state self.new) result (KickCall queue object) }
        ensures only { ¬ (IsErrOf result PartsError.OutOfMemory) }
        ensures frame { Keeps (state self.old) (state self.new) result };

    /// Uses the entry with this reply, and signals the call of its ring where the driver wants it; or holds the entry,
    /// where a byte of the use is outside guest memory. A signal at which the host fails is passed over.
    ///
    /// # Errors
    /// Want of memory.
    fn put(&mut self, alloc: Global, entry: &Entry, reply: &[u8]) -> Result<PutSaid, PartsError>
        requires fits { length reply.now ≤ entry.now.chain.room }
        requires room { entry.now.chain.room ≡ sum_by (λ s. s.len) entry.now.chain.segments }
        ensures row { IsCall (state self.old) (state self.new) result
            (PutTried (HasFailed (state self.old) (state self.new)) entry.now reply.now) }
        ensures sound { (state self.old).NeverFails
            → IsCall (state self.old) (state self.new) result (PutCall entry.now reply.now) }
        ensures only { ¬ (IsErrOf result PartsError.Fault) }
        ensures frame { Keeps (state self.old) (state self.new) result };

    /// Makes this call of the host.
    ///
    /// # Errors
    /// A fault of the host; want of memory only for `CreateEvent`, `CreateList`, `Add` and `Listen`.
    fn host(&mut self, alloc: Global, op: HostOp) -> Result<HostSaid, PartsError>
        ensures row { IsCall (state self.old) (state self.new) result (HostCall op) }
        ensures said { IfOk result IsSaid }
        ensures memory { IsErrOf result PartsError.OutOfMemory → IsTrue (takes_memory op) }
        ensures frame { Keeps (state self.old) (state self.new) result };

    /// Changes the table of guest memory.
    ///
    /// # Errors
    /// Want of memory.
    fn table(&mut self, alloc: Global, op: TableOp) -> Result<TableSaid, PartsError>
        ensures row { IsCall (state self.old) (state self.new) result (TableCall op) }
        ensures said { IfOk result IsTableSaid }
        ensures only { ¬ (IsErrOf result PartsError.Fault) }
        ensures frame { Keeps (state self.old) (state self.new) result };

    /// Gives each region of guest memory this part of a log of dirty pages: `size` bytes of the log `object`, from byte
    /// `offset` on. `tracks` says whether the device's regions may get one. It is always made, and takes no memory.
    fn set_log(
        &mut self,
        object: u32,
        offset: u64,
        size: u64,
        tracks: bool,
    ) -> Result<LogSaid, PartsError>
        ensures row { IsCall (state self.old) (state self.new) result (LogCall object offset size tracks) }
        ensures said { IfOk result IsLogSaid }
        ensures made { OnErr result ⊥ }
        ensures frame { Keeps (state self.old) (state self.new) result };

    /// Changes a worker's pending set.
    ///
    /// # Errors
    /// Want of memory, at an `Insert` alone.
    fn pend(&mut self, alloc: Global, worker: u32, op: PendOp) -> Result<PendSaid, PartsError>
        ensures row { IsCall (state self.old) (state self.new) result (PendCall worker op) }
        ensures memory { IsErrOf result PartsError.OutOfMemory → IsTrue (inserts op) }
        ensures only { ¬ (IsErrOf result PartsError.Fault) }
        ensures frame { Keeps (state self.old) (state self.new) result };

    /// Asks the service for the reply to the entry.
    ///
    /// # Errors
    /// Want of memory.
    fn service(&mut self, alloc: Global, entry: &Entry) -> Result<Bytes, PartsError>
        ensures row { IsCall (state self.old) (state self.new) result
            (ServiceCall (meaning Self.Service.reply_of Self.Service.after) entry.now) }
        ensures fits { IfOk result (λ reply. length reply ≤ entry.now.chain.room) }
        ensures only { ¬ (IsErrOf result PartsError.Fault) }
        ensures frame { Keeps (state self.old) (state self.new) result };

    /// Waits until a member of this interest list is ready. Parts of one party alone do not wait, since no other makes
    /// it ready.
    fn wait_ready(&mut self, list: u32)
        ensures same { IsUntouched (state self.old) (state self.new) };

    /// Makes this call of the device.
    ///
    /// # Errors
    /// Want of memory, at a `GetConfig` alone.
    fn device(&mut self, alloc: Global, op: DeviceOp) -> Result<DeviceSaid, PartsError>
        ensures row { IsDeviceCall (state self.old) (state self.new) result
            (DeviceCall (telling Self.Device.said Self.Device.moved) op) }
        ensures said { IfOk result (IsOutcome op) }
        ensures counted { IfOk result (IsCounted (state self.old).refusals (state self.new).refusals) }
        ensures memory { IsErrOf result PartsError.OutOfMemory → IsTrue (gives_content op) }
        ensures only { ¬ (IsErrOf result PartsError.Fault) }
        ensures frame { KeepsShared (state self.old) (state self.new) result };

    /// The device's constants.
    ///
    /// # Errors
    /// Want of memory.
    fn constants(&mut self, alloc: Global) -> Result<Constants, OutOfMemory>
        ensures ok { IfOk result (λ c. ForSome (state self.old).constants (λ told. c ≡ told)) }
        ensures same { IsUntouched (state self.old) (state self.new) };
}
