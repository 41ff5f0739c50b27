ghost use Rattle.std.specs.Prelude.{◌≡◌, ◌^◌, ◌<◌, ℕ, Option, [], ◌∷◌, IfSome};
ghost use Rattle.vub_base.specs.Told.{Told};
ghost use Rattle.vub_event.specs.Errors.{RefusesBy};
ghost use Rattle.vub_event.specs.Faults.{CountsFaults};
ghost use Rattle.vub_event.specs.HostTable.{HostTable};
ghost use Rattle.vub_event.specs.Orderly.{IsOrderly};
ghost use Rattle.vub_event.specs.HostCalls.{member_for, CreateEventCall, CreateListCall, SignalCall, ConsumeCall, AddCall, ModifyCall, DeleteCall, ListenCall, UnlistenCall, ConsumeAsCall, ReadyCall, ReadyManyCall, ClaimCall, release_after, hang_up_after, close_after};

use crate::error::HostError;
use crate::event_set::EventSet;
use crate::ready::Ready;
use std::alloc::Global;

/// A host of event objects and interest lists: what an operating system gives by eventfd(2) and epoll(7), without
/// waiting.
///
/// A host may tell its table, and then each call answers and leaves what the definition of that call says, and a
/// refused call changes nothing: what is said of the calls below is said of such a host. Told or not, a call answers
/// none but its own refusals and Failed, and Failed comes only where the count of faults rose, or stands at its end. A
/// call that takes no allocator never answers want of memory.
pub trait Host: Drop {
    // the table, where the host tells it
    ghost held: { Self → Option HostTable };

    // the count of faults
    ghost fault_count: { Self → ℕ };

    // the host has no call that is to fail
    ghost never_fails: { Self → Type 0 };

    /// The count of the host's faults, which no call lets fall. It stands still once it is 2^64 - 1.
    ///
    /// It also gives what always holds of a told table: the members of each list stand in order of their objects and
    /// none twice, the object of each is there, and no count passes 2^64 - 2.
    fn faults(&self) -> u64
        ensures value { result ≡ fault_count self.now }
        ensures orderly { IfSome (held self.now) IsOrderly };

    /// A new event object with count 0. Its number is the least that was never given, from 0 on. The bits of `flags`
    /// are those of eventfd(2): SEMAPHORE 1, NONBLOCK 0x800 and CLOEXEC 0x80000.
    ///
    /// # Errors
    /// EINVAL for any other flag bit; want of memory, also where the numbers below 4294967295 are all given.
    fn create_event(&mut self, alloc: Global, flags: u32) -> Result<u32, HostError>
        ensures faults { CountsFaults (fault_count self.old) (fault_count self.new) (never_fails self.old)
            (never_fails self.new) result }
        ensures refusals { RefusesBy result (HostError.Failed ∷ HostError.EINVAL ∷ HostError.OutOfMemory ∷ []) }
        ensures table { Told (held self.old) (held self.new) (CreateEventCall flags result) };

    /// A new empty interest list. Lists are numbered in the same way, apart from objects.
    ///
    /// # Errors
    /// Want of memory, also where the numbers below 4294967295 are all given.
    fn create_list(&mut self, alloc: Global) -> Result<u32, HostError>
        ensures faults { CountsFaults (fault_count self.old) (fault_count self.new) (never_fails self.old)
            (never_fails self.new) result }
        ensures refusals { RefusesBy result (HostError.Failed ∷ HostError.OutOfMemory ∷ []) }
        ensures table { Told (held self.old) (held self.new) (CreateListCall result) };

    /// Adds `value` to the count of this object.
    ///
    /// # Errors
    /// EBADF; EINVAL for `u64::MAX`; WouldBlock where the sum would pass `u64::MAX - 1`.
    fn signal(&mut self, object: u32, value: u64) -> Result<(), HostError>
        ensures faults { CountsFaults (fault_count self.old) (fault_count self.new) (never_fails self.old)
            (never_fails self.new) result }
        ensures refusals { RefusesBy result
            (HostError.Failed ∷ HostError.WouldBlock ∷ HostError.EINVAL ∷ HostError.EBADF ∷ []) }
        ensures table { Told (held self.old) (held self.new) (SignalCall object value result) };

    /// Reads the counter of this object: 1 of a semaphore, whose count falls by 1, else the count, which becomes 0.
    ///
    /// # Errors
    /// EBADF; WouldBlock at a count of 0.
    fn consume(&mut self, object: u32) -> Result<u64, HostError>
        ensures faults { CountsFaults (fault_count self.old) (fault_count self.new) (never_fails self.old)
            (never_fails self.new) result }
        ensures refusals { RefusesBy result (HostError.Failed ∷ HostError.WouldBlock ∷ HostError.EBADF ∷ []) }
        ensures table { Told (held self.old) (held self.new) (ConsumeCall object result) };

    /// Makes the object a member of the list, with the events that it asks for and the token of its reports.
    ///
    /// # Errors
    /// EBADF; EINVAL for any of the four upper bits of the set; EEXIST where it is a member; want of memory.
    fn add(
        &mut self,
        alloc: Global,
        list: u32,
        object: u32,
        set: EventSet,
        token: u64,
    ) -> Result<(), HostError>
        ensures faults { CountsFaults (fault_count self.old) (fault_count self.new) (never_fails self.old)
            (never_fails self.new) result }
        ensures refusals { RefusesBy result
            (HostError.Failed ∷ HostError.EINVAL ∷ HostError.EEXIST ∷ HostError.EBADF ∷ HostError.OutOfMemory ∷ []) }
        ensures table { Told (held self.old) (held self.new) (AddCall list (member_for object set token) result) };

    /// Gives the member for this object another set and token.
    ///
    /// # Errors
    /// EBADF; EINVAL for any of the four upper bits of the set; ENOENT where it is no member.
    fn modify(&mut self, list: u32, object: u32, set: EventSet, token: u64) -> Result<(), HostError>
        ensures faults { CountsFaults (fault_count self.old) (fault_count self.new) (never_fails self.old)
            (never_fails self.new) result }
        ensures refusals { RefusesBy result
            (HostError.Failed ∷ HostError.EINVAL ∷ HostError.ENOENT ∷ HostError.EBADF ∷ []) }
        ensures table { Told (held self.old) (held self.new) (ModifyCall list (member_for object set token) result) };

    /// Takes the object off the list.
    ///
    /// # Errors
    /// EBADF; ENOENT where it is no member.
    fn delete(&mut self, list: u32, object: u32) -> Result<(), HostError>
        ensures faults { CountsFaults (fault_count self.old) (fault_count self.new) (never_fails self.old)
            (never_fails self.new) result }
        ensures refusals { RefusesBy result (HostError.Failed ∷ HostError.ENOENT ∷ HostError.EBADF ∷ []) }
        ensures table { Told (held self.old) (held self.new) (DeleteCall list object result) };

    /// Makes the object a member of the list that asks for IN alone.
    ///
    /// # Errors
    /// EBADF; EEXIST where it is a member of this list or a queue claims it; want of memory.
    fn listen(&mut self, alloc: Global, list: u32, object: u32, token: u64) -> Result<(), HostError>
        ensures faults { CountsFaults (fault_count self.old) (fault_count self.new) (never_fails self.old)
            (never_fails self.new) result }
        ensures refusals { RefusesBy result
            (HostError.Failed ∷ HostError.EEXIST ∷ HostError.EBADF ∷ HostError.OutOfMemory ∷ []) }
        ensures table { Told (held self.old) (held self.new) (ListenCall list object token result) };

    /// Takes a member whose token is greater than `above` off the list.
    ///
    /// # Errors
    /// EBADF; ENOENT unless it is a member of this list with such a token.
    fn unlisten(&mut self, list: u32, object: u32, above: u64) -> Result<(), HostError>
        ensures faults { CountsFaults (fault_count self.old) (fault_count self.new) (never_fails self.old)
            (never_fails self.new) result }
        ensures refusals { RefusesBy result (HostError.Failed ∷ HostError.ENOENT ∷ HostError.EBADF ∷ []) }
        ensures table { Told (held self.old) (held self.new) (UnlistenCall list object above result) };

    /// Reads the counter of this object once where it is a member of the list with this token, and says whether it is.
    /// The read leaves 0, or of a semaphore one less, and a count of 0 as it is.
    ///
    /// # Errors
    /// EBADF for the list.
    fn consume_as(&mut self, list: u32, object: u32, token: u64) -> Result<bool, HostError>
        ensures faults { CountsFaults (fault_count self.old) (fault_count self.new) (never_fails self.old)
            (never_fails self.new) result }
        ensures refusals { RefusesBy result (HostError.Failed ∷ HostError.EBADF ∷ []) }
        ensures table { Told (held self.old) (held self.new) (ConsumeAsCall list object token result) };

    /// A ready member of the list, and None exactly where no member is ready.
    ///
    /// # Errors
    /// EBADF for the list.
    fn ready(&mut self, list: u32) -> Result<Option<Ready>, HostError>
        ensures faults { CountsFaults (fault_count self.old) (fault_count self.new) (never_fails self.old)
            (never_fails self.new) result }
        ensures refusals { RefusesBy result (HostError.Failed ∷ HostError.EBADF ∷ []) }
        ensures table { Told (held self.old) (held self.new) (ReadyCall list result) };

    /// The first `most` ready members of the list by object number.
    ///
    /// # Errors
    /// EBADF for the list; want of memory.
    fn ready_many(&mut self, alloc: Global, list: u32, most: usize) -> Result<Vec<Ready>, HostError>
        ensures faults { CountsFaults (fault_count self.old) (fault_count self.new) (never_fails self.old)
            (never_fails self.new) result }
        ensures refusals { RefusesBy result (HostError.Failed ∷ HostError.EBADF ∷ HostError.OutOfMemory ∷ []) }
        ensures table { Told (held self.old) (held self.new) (ReadyManyCall list most result) };

    /// Claims the object for this queue.
    ///
    /// # Errors
    /// EBADF; Held where another queue claims it, or where none does and it is a member of some list.
    fn claim(&mut self, object: u32, queue: u32) -> Result<(), HostError>
        ensures faults { CountsFaults (fault_count self.old) (fault_count self.new) (never_fails self.old)
            (never_fails self.new) result }
        ensures refusals { RefusesBy result (HostError.Failed ∷ HostError.EBADF ∷ HostError.Held ∷ []) }
        ensures table { Told (held self.old) (held self.new) (ClaimCall object queue result) };

    /// No queue claims the object from now on.
    fn release(&mut self, object: u32)
        ensures faults { fault_count self.new ≡ fault_count self.old }
        ensures still { never_fails self.old → never_fails self.new }
        ensures table { Told (held self.old) (held self.new) (λ old new. new ≡ release_after old object) };

    /// The object reports HANG_UP from now on.
    fn hang_up(&mut self, object: u32)
        ensures faults { fault_count self.new ≡ fault_count self.old }
        ensures still { never_fails self.old → never_fails self.new }
        ensures table { Told (held self.old) (held self.new) (λ old new. new ≡ hang_up_after old object) };

    /// The object is gone from the table and from all lists.
    fn close(&mut self, object: u32)
        ensures faults { fault_count self.new ≡ fault_count self.old }
        ensures still { never_fails self.old → never_fails self.new }
        ensures table { Told (held self.old) (held self.new) (λ old new. new ≡ close_after old object) };
}
