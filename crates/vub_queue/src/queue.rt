ghost use Rattle.std.specs.Prelude.{◌≡◌, OnOk};
ghost use Rattle.vub_queue.specs.Settings.{IsAligned, info_answer};

use crate::addresses::Addresses;
use crate::error::{QueueError, RingPart};
use crate::layout::{AVAIL_ALIGNMENT, DESC_ALIGNMENT, USED_ALIGNMENT};
use std::marker::Model;

/// The state of a split virtqueue as the device keeps it. Its size and its greatest size are powers of two, and the
/// addresses have the alignment that virtio asks for. The calls that read or write the ring are lent the guest's
/// memory.
#[derive(Debug, Drop)]
pub struct Queue {
    max: u16,
    size: u16,
    ready: bool,
    event_idx: bool,
    addresses: Option<Addresses>,
    next_avail: u16,
    next_used: u16,
    told: u16,
}

impl Model for Queue {
    ghost use Rattle.vub_queue.specs.Ring.{Ring};

    ghost Value = { Ring };

    ghost use Rattle.vub_queue.specs.View.{ring_of, IsSound};

    ghost view = { ring_of };

    ghost invariant = { IsSound };
}

/// Whether the addresses have their alignment, or which part is the first that has not.
fn aligned(at: Addresses) -> Result<(), QueueError>
    ensures answer { result ≡ info_answer at.desc at.avail at.used }
    ensures ok { OnOk result (IsAligned at) }
{
    if at.desc % DESC_ALIGNMENT != 0 {
        return Err(QueueError::Misaligned(RingPart::Desc));
    }
    if at.avail % AVAIL_ALIGNMENT != 0 {
        return Err(QueueError::Misaligned(RingPart::Avail));
    }
    if at.used % USED_ALIGNMENT != 0 {
        return Err(QueueError::Misaligned(RingPart::Used));
    }
    Ok(())
}

impl Queue {
    ghost use Rattle.std.specs.Prelude.{◌≡◌, ◌<◌, ◌≤◌, ◌%◌, true, option_map, IfSome, OnOk, OnErr};
    ghost use Rattle.std.specs.Int.{is_power_of_two};
    ghost use Rattle.vub_queue.specs.EntryNumber.{after};
    ghost use Rattle.vub_queue.specs.Layout.{at_of};
    ghost use Rattle.vub_queue.specs.Settings.{IsAligned, info_answer, new_answer, size_answer};

    /// A queue of at most `max` descriptors, which it has at first. It has no addresses, is not ready, and begins at
    /// number 0. InvalidMaxSize unless `max` is a power of two.
    pub fn new(max: u16) -> Result<Queue, QueueError>
        ensures { result ≡ new_answer max }
    {
        if !max.is_power_of_two() {
            return Err(QueueError::InvalidMaxSize);
        }
        Ok(Queue {
            max,
            size: max,
            ready: false,
            event_idx: false,
            addresses: None,
            next_avail: 0,
            next_used: 0,
            told: 0,
        })
    }

    /// Another queue in the same state. What is done to one does not change the other.
    pub fn copy(&self) -> Queue
        ensures { result ≡ self.now }
    {
        Queue {
            max: self.max,
            size: self.size,
            ready: self.ready,
            event_idx: self.event_idx,
            addresses: self.addresses,
            next_avail: self.next_avail,
            next_used: self.next_used,
            told: self.told,
        }
    }

    /// How many descriptors the table has, and how many slots each ring.
    pub fn size(&self) -> u16
        ensures value { result ≡ self.now.size }
        ensures power { is_power_of_two self.now.size ≡ true }
        ensures some { 0 < self.now.size }
        ensures fits { self.now.size ≤ self.now.max }
    {
        self.size
    }

    /// The greatest size.
    pub fn max_size(&self) -> u16
        ensures value { result ≡ self.now.max }
        ensures power { is_power_of_two self.now.max ≡ true }
    {
        self.max
    }

    /// The number of the next entry to take, in 16 bits.
    pub fn next_avail(&self) -> u16
        ensures { result ≡ self.now.next_avail }
    {
        self.next_avail
    }

    /// The number of the next entry to use, in 16 bits.
    pub fn next_used(&self) -> u16
        ensures { result ≡ self.now.next_used }
    {
        self.next_used
    }

    /// Whether the driver has made the queue ready.
    pub fn ready(&self) -> bool
        ensures { result ≡ self.now.ready }
    {
        self.ready
    }

    /// Whether notifications go by index (VIRTIO_F_EVENT_IDX).
    pub fn event_idx_enabled(&self) -> bool
        ensures { result ≡ self.now.event_idx }
    {
        self.event_idx
    }

    /// Where the descriptor table lies, if the addresses are set.
    pub fn desc_table(&self) -> Option<u64>
        ensures { result ≡ option_map (λ at. at.desc) self.now.addresses }
    {
        match self.addresses {
            None => None,
            Some(at) => Some(at.desc),
        }
    }

    /// Where the available ring lies, if the addresses are set.
    pub fn avail_ring(&self) -> Option<u64>
        ensures { result ≡ option_map (λ at. at.avail) self.now.addresses }
    {
        match self.addresses {
            None => None,
            Some(at) => Some(at.avail),
        }
    }

    /// Where the used ring lies, if the addresses are set.
    pub fn used_ring(&self) -> Option<u64>
        ensures { result ≡ option_map (λ at. at.used) self.now.addresses }
    {
        match self.addresses {
            None => None,
            Some(at) => Some(at.used),
        }
    }

    /// Where the three parts lie, if the addresses are set. They have their alignment.
    pub fn addresses(&self) -> Option<Addresses>
        ensures value { result ≡ self.now.addresses }
        ensures aligned { IfSome result IsAligned }
    {
        self.addresses
    }

    /// Sets the size. InvalidSize, and nothing changes, unless it is a power of two and at most the greatest.
    pub fn set_size(&mut self, n: u16) -> Result<(), QueueError>
        ensures answer { result ≡ size_answer self.old n }
        ensures ok { OnOk result (self.new ≡ record self.old { size = n }) }
        ensures err { OnErr result (self.new ≡ self.old) }
    {
        if n.is_power_of_two() && n <= self.max {
            self.size = n;
            Ok(())
        } else {
            Err(QueueError::InvalidSize)
        }
    }

    /// Sets whether the queue is ready.
    pub fn set_ready(&mut self, ready: bool)
        ensures { self.new ≡ record self.old { ready = ready } }
    {
        self.ready = ready;
    }

    /// Sets whether notifications go by index.
    pub fn set_event_idx(&mut self, enabled: bool)
        ensures { self.new ≡ record self.old { event_idx = enabled } }
    {
        self.event_idx = enabled;
    }

    /// Sets the number of the next entry to take.
    pub fn set_next_avail(&mut self, n: u16)
        ensures { self.new ≡ record self.old { next_avail = n } }
    {
        self.next_avail = n;
    }

    /// Sets the number of the next entry to use. The test for a notification counts from it.
    pub fn set_next_used(&mut self, n: u16)
        ensures { self.new ≡ record self.old { next_used = n; told = n } }
    {
        self.next_used = n;
        self.told = n;
    }

    /// Sets where the descriptor table, the available ring and the used ring lie. Misaligned, and nothing changes,
    /// where they are no multiples of 16, 2 and 4: the first that is not is named.
    pub fn set_info(&mut self, desc: u64, avail: u64, used: u64) -> Result<(), QueueError>
        ensures answer { result ≡ info_answer desc avail used }
        ensures ok { OnOk result (self.new ≡ record self.old
            { addresses = Some (record { desc = desc; avail = avail; used = used }) }) }
        ensures err { OnErr result (self.new ≡ self.old) }
    {
        let at = Addresses { desc, avail, used };
        match aligned(at) {
            Err(fault) => Err(fault),
            Ok(()) => {
                self.addresses = Some(at);
                Ok(())
            }
        }
    }

    /// Where the three parts lie, which are set wherever this is asked.
    pub(crate) fn placed(&self) -> Addresses
        ensures { result ≡ at_of self.now }
    {
        match self.addresses {
            None => Addresses {
                desc: 0,
                avail: 0,
                used: 0,
            },
            Some(at) => at,
        }
    }

    /// The number of the next entry to use at the last test for a notification.
    pub(crate) fn told(&self) -> u16
        ensures { result ≡ self.now.told }
    {
        self.told
    }

    /// One more entry is taken.
    pub(crate) fn step_avail(&mut self)
        ensures { self.new ≡ record self.old { next_avail = after self.old.next_avail } }
    {
        self.next_avail = self.next_avail.wrapping_add(1);
    }

    /// One more entry is used.
    pub(crate) fn step_used(&mut self)
        ensures { self.new ≡ record self.old { next_used = after self.old.next_used } }
    {
        self.next_used = self.next_used.wrapping_add(1);
    }

    /// The driver is told of all that was used.
    pub(crate) fn tell(&mut self)
        ensures { self.new ≡ record self.old { told = self.old.next_used } }
    {
        self.told = self.next_used;
    }
}
