use crate::error::QueueError;
use crate::queue::Queue;
use crate::using::{use_is_covered, write_use};
use vub_mem::{DirtyLog, GuestMemory};

impl Queue {
    ghost use Rattle.std.specs.Prelude.{◌≡◌, if◌then◌else◌, IsSome, OnOk, OnErr, Ok, Err};
    ghost use Rattle.std.specs.Int.{w16};
    ghost use Rattle.vub_mem.specs.Marks.{MarksAll, page_marks};
    ghost use Rattle.vub_mem.specs.Place.{covers, number_at};
    ghost use Rattle.vub_queue.specs.EntryNumber.{index_covers};
    ghost use Rattle.vub_queue.specs.Layout.{avail_index_at, used_index_at};
    ghost use Rattle.vub_queue.specs.Put.{add_answer, ring_used, used_marks, write_used};

    /// The index word of the available ring: how many entries the driver has made available, in 16 bits. Outside
    /// exactly where it is not covered. The addresses are to be set.
    pub fn avail_idx<L: DirtyLog>(&self, memory: &GuestMemory<L>) -> Result<u16, QueueError>
        requires { IsSome self.now.addresses }
        ensures { result ≡ (if index_covers memory.now.guest self.now
            then Ok (number_at w16 memory.now.guest (avail_index_at self.now)) else Err QueueError.Outside) }
    {
        let at = self.placed();
        match memory.locate(at.avail, 2, 2) {
            None => Err(QueueError::Outside),
            Some(word) => Ok(memory.u16_at(word)),
        }
    }

    /// The index word of the used ring: how many entries the device has used, in 16 bits. Outside exactly where it is
    /// not covered. The addresses are to be set.
    pub fn used_idx<L: DirtyLog>(&self, memory: &GuestMemory<L>) -> Result<u16, QueueError>
        requires { IsSome self.now.addresses }
        ensures { result ≡ (if covers memory.now.guest.regions (used_index_at self.now) 2
            then Ok (number_at w16 memory.now.guest (used_index_at self.now)) else Err QueueError.Outside) }
    {
        let at = self.placed();
        match memory.locate(at.used, 2, 2) {
            None => Err(QueueError::Outside),
            Some(word) => Ok(memory.u16_at(word)),
        }
    }

    /// Uses the entry of this head, of whose segments `len` bytes were written: writes the element, then the index
    /// word. InvalidDescriptorIndex unless the head is below the size, then Outside unless both are covered; refused,
    /// nothing changes. The addresses are to be set.
    pub fn add_used<L: DirtyLog>(
        &mut self,
        memory: &mut GuestMemory<L>,
        head: u16,
        len: u32,
    ) -> Result<(), QueueError>
        requires { IsSome self.old.addresses }
        ensures answer { result ≡ add_answer memory.old.guest.regions self.old head }
        ensures used { OnOk result (memory.new.guest ≡ write_used memory.old.guest self.old head len) }
        ensures queue { OnOk result (self.new ≡ ring_used self.old) }
        ensures regions { memory.new.guest.regions ≡ memory.old.guest.regions }
        ensures logs { OnOk result (MarksAll (page_marks L.byte_len L.marks) memory.old.logs
            (used_marks memory.old.guest.regions self.old) memory.new.logs) }
        ensures memory { OnErr result (memory.new ≡ memory.old) }
        ensures same { OnErr result (self.new ≡ self.old) }
    {
        if head >= self.size() {
            return Err(QueueError::InvalidDescriptorIndex);
        }
        if !use_is_covered(memory, self) {
            return Err(QueueError::Outside);
        }
        write_use(memory, self, head, len);
        self.step_used();
        Ok(())
    }
}
