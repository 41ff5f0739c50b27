ghost use Rattle.std.specs.Prelude.{◌≡◌, ◌^◌, ◌<◌, ◌||◌, [], ◌∷◌, if◌then◌else◌, Option, Some, None, Result, Ok, Err, IsSome, OnOk, OnErr};
ghost use Rattle.std.specs.Borrow.{sem};
ghost use Rattle.std.specs.Result.{is_ok};
ghost use Rattle.std.specs.Int.{w16, is_power_of_two};
ghost use Rattle.vub_base.specs.Told.{Told};
ghost use Rattle.vub_event.specs.Errors.{RefusesBy};
ghost use Rattle.vub_event.specs.Faults.{CountsFaults};
ghost use Rattle.vub_mem.specs.Marks.{MarksAll, marks_of, page_marks};
ghost use Rattle.vub_mem.specs.Place.{covers, number_at};
ghost use Rattle.vub_queue.specs.EntryNumber.{is_left};
ghost use Rattle.vub_queue.specs.Layout.{used_index_at, used_flags_at};
ghost use Rattle.vub_queue.specs.Notification.{asking_at, guest_asking, guest_declining, needs_answer, ring_told};
ghost use Rattle.vub_queue.specs.Put.{add_answer, ring_used, used_marks, write_used};
ghost use Rattle.vub_queue.specs.Settings.{info_answer};
ghost use Rattle.vub_model.specs.RingRecord.{is_in_flight, is_on, needs_no_flight, waits, fits, based, changed, said_in_time, ring_said, ring_after};
ghost use Rattle.vub_model.specs.EntryNumber.{next_number};
ghost use Rattle.vub_model.specs.Opening.{new_vring};
ghost use Rattle.vub_model.specs.Work.{may_take, is_object};
ghost use Rattle.vub_ring.specs.State.{LendsQueue, sized, changed_if, SignalsCall, ReadsKick};

use crate::events::{raise, read};
use std::marker::Model;
use vub_event::{Host, HostError};
use vub_mem::{DirtyLog, GuestMemory};
use vub_model::{Flight, RingOp, RingSaid};
use vub_queue::{Queue, QueueError};

/// Bases and takes of one ring are fewer than this.
const LIMIT: u64 = 1 << 63;

/// A ring: its queue, the events by which new entries, used entries and errors are told, and what was taken from it
/// (`VringState` of the Rust crate `vhost-user-backend`). Contracts see it as the ring record.
#[derive(Debug, Drop)]
pub struct VringState {
    queue: Queue,
    kick: Option<u32>,
    call: Option<u32>,
    err: Option<u32>,
    enabled: bool,
    flight: Flight,
    epoch: u64,
    base: u16,
    taken: u64,
}

impl Model for VringState {
    ghost use Rattle.vub_model.specs.RingRecord.{Vring};

    ghost Value = { Vring };

    ghost use Rattle.std.specs.Prelude.{◌≤◌, ◌^◌};

    ghost view = { λ r. record { queue = r.queue; kick = r.kick; call = r.call; err = r.err; enabled = r.enabled; flight = r.flight; epoch = r.epoch; base = r.base; taken = r.taken } };

    ghost invariant = { λ r. r.taken ≤ 2 ^ 63 };
}

/// Whether an entry in flight lets this op wait.
fn needs_no_flight(op: RingOp) -> bool
    ensures { result ≡ needs_no_flight op }
{
    match op {
        RingOp::SetReady(ready) => !ready,
        RingOp::SetSize(_) | RingOp::SetInfo { .. } | RingOp::SetBase(_) => true,
        _ => false,
    }
}

/// Whether the addresses of the three areas are multiples of 16, 2 and 4.
fn is_aligned(desc: u64, avail: u64, used: u64) -> bool
    ensures { result ≡ is_ok (info_answer desc avail used) }
{
    desc % 16 == 0 && avail % 2 == 0 && used % 4 == 0
}

impl VringState {
    /// A ring whose queue has at most `max` descriptors, which it has at first. Nothing is set of it, it is not ready
    /// and not enabled, and no entry was taken.
    ///
    /// # Errors
    /// `InvalidMaxSize` exactly where `max` is no power of two.
    pub fn new(max: u16) -> Result<VringState, QueueError>
        ensures { result ≡ (if is_power_of_two max then Ok (new_vring max) else Err QueueError.InvalidMaxSize) }
    {
        Ok(VringState {
            queue: Queue::new(max)?,
            kick: None,
            call: None,
            err: None,
            enabled: false,
            flight: Flight::None,
            epoch: 0,
            base: 0,
            taken: 0,
        })
    }

    /// A ring over this queue, of which nothing was taken yet: its base is the number of the next entry.
    pub fn from_queue(
        queue: Queue,
        kick: Option<u32>,
        call: Option<u32>,
        enabled: bool,
    ) -> VringState
        ensures { result ≡ record {
          queue = queue;
          kick = kick;
          call = call;
          err = None;
          enabled = enabled;
          flight = Flight.None;
          epoch = 0;
          base = queue.next_avail;
          taken = 0;
        } }
    {
        let base = queue.next_avail();
        VringState {
            queue,
            kick,
            call,
            err: None,
            enabled,
            flight: Flight::None,
            epoch: 0,
            base,
            taken: 0,
        }
    }

    /// Whether the ring is enabled.
    pub fn is_enabled(&self) -> bool
        ensures { result ≡ self.now.enabled }
    {
        self.enabled
    }

    /// The queue, lent.
    pub fn get_queue(&self) -> &Queue
        ensures { result.now ≡ self.now.queue }
    {
        &self.queue
    }

    /// The queue, lent so that it can be changed.
    pub fn get_queue_mut(&mut self) -> &mut Queue
        ensures* writes_back { sem 𝓛 (LendsQueue self.entry result) }
        ensures value { result.now ≡ self.old.queue }
    {
        &mut self.queue
    }

    /// The event by which new entries are told, if it is set.
    pub fn get_kick(&self) -> Option<u32>
        ensures { result ≡ self.now.kick }
    {
        self.kick
    }

    /// The event by which used entries are told, if it is set.
    pub fn get_call(&self) -> Option<u32>
        ensures { result ≡ self.now.call }
    {
        self.call
    }

    /// What became of the last entry that was taken.
    pub fn get_flight(&self) -> Flight
        ensures { result ≡ self.now.flight }
    {
        self.flight
    }

    /// How many bases the ring was given before.
    pub fn get_epoch(&self) -> u64
        ensures { result ≡ self.now.epoch }
    {
        self.epoch
    }

    /// The number of the next entry: the base plus the entries taken since.
    pub fn next_number(&self) -> u64
        ensures { result ≡ next_number self.now }
    {
        self.base as u64 + self.taken
    }

    /// Sets whether the ring is enabled.
    pub fn set_enabled(&mut self, enabled: bool)
        ensures { self.new ≡ record self.old { enabled = enabled } }
    {
        self.enabled = enabled;
    }

    /// Sets where the descriptor table, the available ring and the used ring lie.
    ///
    /// # Errors
    /// `Misaligned`, and nothing changes, where they are no multiples of 16, 2 and 4: the first that is not is named.
    pub fn set_queue_info(
        &mut self,
        desc_table: u64,
        avail_ring: u64,
        used_ring: u64,
    ) -> Result<(), QueueError>
        ensures answer { result ≡ info_answer desc_table avail_ring used_ring }
        ensures ok { OnOk result (self.new ≡ record self.old {
          queue = record self.old.queue
              { addresses = Some (record { desc = desc_table; avail = avail_ring; used = used_ring }) };
        }) }
        ensures err { OnErr result (self.new ≡ self.old) }
    {
        self.queue.set_info(desc_table, avail_ring, used_ring)
    }

    /// The number of the next entry to take, in 16 bits.
    pub fn queue_next_avail(&self) -> u16
        ensures { result ≡ self.now.queue.next_avail }
    {
        self.queue.next_avail()
    }

    /// Sets the number of the next entry to take.
    pub fn set_queue_next_avail(&mut self, base: u16)
        ensures { self.new ≡ record self.old { queue = record self.old.queue { next_avail = base } } }
    {
        self.queue.set_next_avail(base);
    }

    /// Sets the number of the next entry to use. The test for a notification counts from it.
    pub fn set_queue_next_used(&mut self, index: u16)
        ensures { self.new ≡ record self.old { queue = record self.old.queue { next_used = index; told = index } } }
    {
        self.queue.set_next_used(index);
    }

    /// Sets the size of the queue. It stays as it is unless this is a power of two and at most the greatest size.
    pub fn set_queue_size(&mut self, size: u16)
        ensures { self.new ≡ sized self.old size }
    {
        let _ = self.queue.set_size(size);
    }

    /// Sets whether notifications go by index.
    pub fn set_queue_event_idx(&mut self, enabled: bool)
        ensures { self.new ≡ record self.old { queue = record self.old.queue { event_idx = enabled } } }
    {
        self.queue.set_event_idx(enabled);
    }

    /// Sets whether the queue is ready.
    pub fn set_queue_ready(&mut self, ready: bool)
        ensures { self.new ≡ record self.old { queue = record self.old.queue { ready = ready } } }
    {
        self.queue.set_ready(ready);
    }

    /// Sets the event by which new entries are told.
    pub fn set_kick(&mut self, kick: Option<u32>)
        ensures { self.new ≡ record self.old { kick = kick } }
    {
        self.kick = kick;
    }

    /// Sets the event by which used entries are told.
    pub fn set_call(&mut self, call: Option<u32>)
        ensures { self.new ≡ record self.old { call = call } }
    {
        self.call = call;
    }

    /// Sets the event by which errors are told.
    pub fn set_err(&mut self, err: Option<u32>)
        ensures { self.new ≡ record self.old { err = err } }
    {
        self.err = err;
    }

    /// The index word of the used ring, as [`Queue::used_idx`] reads it.
    ///
    /// # Errors
    /// `Outside` exactly where the word is not in guest memory.
    pub fn queue_used_idx<L: DirtyLog>(&self, memory: &GuestMemory<L>) -> Result<u16, QueueError>
        requires { IsSome self.now.queue.addresses }
        ensures { result ≡ (if covers memory.now.guest.regions (used_index_at self.now.queue) 2
            then Ok (number_at w16 memory.now.guest (used_index_at self.now.queue)) else Err QueueError.Outside) }
    {
        self.queue.used_idx(memory)
    }

    /// Uses the entry of this head, as [`Queue::add_used`] does.
    ///
    /// # Errors
    /// `InvalidDescriptorIndex` unless the head is below the size, then `Outside` unless the words are in guest memory.
    pub fn add_used<L: DirtyLog>(
        &mut self,
        memory: &mut GuestMemory<L>,
        head: u16,
        len: u32,
    ) -> Result<(), QueueError>
        requires { IsSome self.old.queue.addresses }
        ensures answer { result ≡ add_answer memory.old.guest.regions self.old.queue head }
        ensures used { OnOk result (memory.new.guest ≡ write_used memory.old.guest self.old.queue head len) }
        ensures ring { OnOk result (self.new ≡ record self.old { queue = ring_used self.old.queue }) }
        ensures logs { OnOk result (MarksAll (page_marks L.byte_len L.marks) memory.old.logs
            (used_marks memory.old.guest.regions self.old.queue) memory.new.logs) }
        ensures memory { OnErr result (memory.new ≡ memory.old) }
        ensures same { OnErr result (self.new ≡ self.old) }
    {
        self.queue.add_used(memory, head, len)
    }

    /// Asks the driver to notify of new entries, as [`Queue::enable_notification`] does.
    ///
    /// # Errors
    /// `Outside` exactly where the word to write is not in guest memory.
    pub fn enable_notification<L: DirtyLog>(
        &mut self,
        memory: &mut GuestMemory<L>,
    ) -> Result<bool, QueueError>
        requires { IsSome self.old.queue.addresses }
        ensures answer { result ≡ (if covers memory.old.guest.regions (asking_at self.old.queue) 2
            then Ok (is_left memory.new.guest self.old.queue) else Err QueueError.Outside) }
        ensures guest { OnOk result (memory.new.guest ≡ guest_asking memory.old.guest self.old.queue) }
        ensures logs { OnOk result (MarksAll (page_marks L.byte_len L.marks) memory.old.logs
            (marks_of memory.old.guest.regions (asking_at self.old.queue) 2) memory.new.logs) }
        ensures ring { self.new ≡ self.old }
        ensures err { OnErr result (memory.new ≡ memory.old) }
    {
        self.queue.enable_notification(memory)
    }

    /// Asks the driver not to notify of new entries, as [`Queue::disable_notification`] does.
    ///
    /// # Errors
    /// `Outside` exactly where the flags are to be written and are not in guest memory.
    pub fn disable_notification<L: DirtyLog>(
        &mut self,
        memory: &mut GuestMemory<L>,
    ) -> Result<(), QueueError>
        requires { IsSome self.old.queue.addresses }
        ensures answer { result ≡ (if self.old.queue.event_idx || covers memory.old.guest.regions
            (used_flags_at self.old.queue) 2 then Ok tt else Err QueueError.Outside) }
        ensures guest { OnOk result (memory.new.guest ≡ guest_declining memory.old.guest self.old.queue) }
        ensures logs { OnOk result (MarksAll (page_marks L.byte_len L.marks) memory.old.logs
            (if self.old.queue.event_idx then []
            else marks_of memory.old.guest.regions (used_flags_at self.old.queue) 2) memory.new.logs) }
        ensures ring { self.new ≡ self.old }
        ensures err { OnErr result (memory.new ≡ memory.old) }
    {
        self.queue.disable_notification(memory)
    }

    /// Whether the driver wants to be notified of what was used, as [`Queue::needs_notification`] says.
    ///
    /// # Errors
    /// `Outside` exactly where notifications go by index and used_event is not in guest memory.
    pub fn needs_notification<L: DirtyLog>(
        &mut self,
        memory: &GuestMemory<L>,
    ) -> Result<bool, QueueError>
        requires { IsSome self.old.queue.addresses }
        ensures answer { result ≡ needs_answer memory.now.guest self.old.queue }
        ensures ok { OnOk result (self.new ≡ record self.old { queue = ring_told self.old.queue }) }
        ensures err { OnErr result (self.new ≡ self.old) }
    {
        self.queue.needs_notification(memory)
    }

    /// Signals the call, if it is set: adds 1 to its count. A full counter is no error, and stays.
    ///
    /// # Errors
    /// `EBADF` where the host has no such event, `Failed` only where the host's count of faults rose; nothing changes.
    pub fn signal_used_queue<H: Host>(&self, host: &mut H) -> Result<(), HostError>
        ensures table { Told (H.held host.old) (H.held host.new) (SignalsCall self.now.call result) }
        ensures faults { CountsFaults (H.fault_count host.old) (H.fault_count host.new) (H.never_fails host.old)
            (H.never_fails host.new) result }
        ensures refusals { RefusesBy result (HostError.Failed ∷ HostError.EINVAL ∷ HostError.EBADF ∷ []) }
        ensures none { self.now.call ≡ None → host.new ≡ host.old }
    {
        match self.call {
            None => Ok(()),
            Some(object) => raise(host, object),
        }
    }

    /// Reads the counter of the kick, if it is set, and says whether the ring is enabled. A count of 0 is no error.
    ///
    /// # Errors
    /// `EBADF` where the host has no such event, `Failed` only where the host's count of faults rose; nothing changes.
    pub fn read_kick<H: Host>(&self, host: &mut H) -> Result<bool, HostError>
        ensures table { Told (H.held host.old) (H.held host.new) (ReadsKick self.now.kick self.now.enabled result) }
        ensures faults { CountsFaults (H.fault_count host.old) (H.fault_count host.new) (H.never_fails host.old)
            (H.never_fails host.new) result }
        ensures refusals { RefusesBy result (HostError.Failed ∷ HostError.EBADF ∷ []) }
        ensures none { self.now.kick ≡ None → host.new ≡ host.old }
    {
        match self.kick {
            None => Ok(self.enabled),
            Some(object) => {
                read(host, object)?;
                Ok(self.enabled)
            }
        }
    }

    /// Whether the ring is ready and enabled.
    pub fn is_on(&self) -> bool
        ensures { result ≡ is_on self.now }
    {
        self.queue.ready() && self.enabled
    }

    /// Whether an entry is in flight.
    pub fn is_in_flight(&self) -> bool
        ensures { result ≡ is_in_flight self.now.flight }
    {
        match self.flight {
            Flight::InFlight => true,
            Flight::None | Flight::Held => false,
        }
    }

    /// Whether an entry may be taken: the ring is ready and enabled, has its addresses, no entry is in flight, and
    /// fewer than 2^63 were taken.
    pub fn may_take(&self) -> bool
        ensures { result ≡ may_take self.now }
    {
        self.is_on()
            && self.queue.addresses().is_some()
            && !self.is_in_flight()
            && self.taken < LIMIT
    }

    /// Whether this event is the kick.
    pub fn is_kick(&self, object: u32) -> bool
        ensures { result ≡ is_object self.now.kick object }
    {
        match self.kick {
            None => false,
            Some(kick) => kick == object,
        }
    }

    /// Whether this op has to wait for the entry in flight.
    pub fn waits(&self, op: RingOp) -> bool
        ensures { result ≡ waits self.now op }
    {
        needs_no_flight(op) && self.is_in_flight()
    }

    /// Whether the ring takes this op now: an entry is taken only where none is in flight and fewer than 2^63 were
    /// taken; a size is a power of two and at most the greatest, and addresses have their alignment.
    pub fn fits(&self, op: RingOp) -> bool
        ensures { result ≡ fits self.now op }
    {
        match op {
            RingOp::Taken => !self.is_in_flight() && self.taken < LIMIT,
            RingOp::SetSize(size) => size.is_power_of_two() && size <= self.queue.max_size(),
            RingOp::SetInfo {
                desc,
                avail,
                used,
                ..
            } => is_aligned(desc, avail, used),
            _ => true,
        }
    }

    /// Sets the addresses, and the next used index where it is given, if they are aligned.
    fn give_info(&mut self, desc: u64, avail: u64, used: u64, next_used: Option<u16>)
        ensures { self.new ≡ changed_if self.old (RingOp.SetInfo desc avail used next_used) }
    {
        if self.set_queue_info(desc, avail, used).is_err() {
            return;
        }
        if let Some(index) = next_used {
            self.set_queue_next_used(index);
        }
    }

    /// Gives a new base.
    fn give_base(&mut self, base: u16)
        ensures { self.new ≡ based self.old base }
    {
        if self.epoch < LIMIT {
            self.queue.set_next_avail(base);
            self.epoch += 1;
            self.base = base;
            self.taken = 0;
        }
    }

    /// An entry was taken.
    fn count_taken(&mut self)
        ensures { self.new ≡ changed_if self.old RingOp.Taken }
    {
        if self.is_in_flight() || self.taken >= LIMIT {
            return;
        }
        let next = self.queue.next_avail().wrapping_add(1);
        self.queue.set_next_avail(next);
        self.taken += 1;
        self.flight = Flight::InFlight;
    }

    /// The entry in hand was used.
    fn count_used(&mut self)
        ensures { self.new ≡ changed self.old RingOp.Put }
    {
        let next = self.queue.next_used().wrapping_add(1);
        self.queue.set_next_used(next);
        self.flight = Flight::None;
    }

    /// Makes the change of an op that does not wait.
    fn change(&mut self, op: RingOp)
        ensures { self.new ≡ changed_if self.old op }
    {
        match op {
            RingOp::SetEnabled(enabled) => self.set_enabled(enabled),
            RingOp::SetReady(ready) => self.set_queue_ready(ready),
            RingOp::SetSize(size) => self.set_queue_size(size),
            RingOp::SetInfo {
                desc,
                avail,
                used,
                next_used,
            } => self.give_info(desc, avail, used, next_used),
            RingOp::SetBase(base) => self.give_base(base),
            RingOp::SetEventIdx(enabled) => self.set_queue_event_idx(enabled),
            RingOp::SetKick(kick) => self.set_kick(kick),
            RingOp::SetCall(call) => self.set_call(call),
            RingOp::SetErr(err) => self.set_err(err),
            RingOp::Taken => self.count_taken(),
            RingOp::Put => self.count_used(),
            RingOp::Hold => self.flight = Flight::Held,
            RingOp::GetBase => {}
        }
    }

    /// What an op that does not wait is answered.
    fn answer(&self, op: RingOp) -> RingSaid
        ensures { result ≡ said_in_time self.now op }
    {
        match op {
            RingOp::GetBase => RingSaid::Base(self.queue.next_avail()),
            _ => RingSaid::Done,
        }
    }

    /// Applies an op. `Waits` exactly where an entry is in flight and the op is `SetReady(false)`, `SetSize`, `SetInfo`
    /// or `SetBase`; nothing changes then. `GetBase` changes nothing and answers the number of the next entry, in 16
    /// bits; every other op answers `Done`. `SetBase` sets the base and the number of the next entry, raises the epoch,
    /// and nothing is taken since. `Taken` counts an entry that is then in flight. `Put` raises the number of the next
    /// use, and `Hold` keeps the entry for good. An op that the ring does not take ([`VringState::fits`]), or a base
    /// beyond 2^63, changes nothing.
    pub fn apply(&mut self, op: RingOp) -> RingSaid
        ensures said { result ≡ ring_said self.old op }
        ensures ring { self.new ≡ ring_after self.old op }
    {
        if self.waits(op) {
            return RingSaid::Waits;
        }
        let said = self.answer(op);
        self.change(op);
        said
    }
}
