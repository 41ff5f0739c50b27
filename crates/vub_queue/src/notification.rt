ghost use Rattle.std.specs.Prelude.{◌≡◌, true, false, IfSome, OnSome, IfNone};
ghost use Rattle.vub_mem.specs.Place.{covers};
ghost use Rattle.vub_queue.specs.EntryNumber.{is_left};
ghost use Rattle.vub_queue.specs.Notification.{asking_at, asking_word, used_event_covers, wants_notification};

use crate::error::QueueError;
use crate::layout::{avail_slot_place, used_element_place};
use crate::queue::Queue;
use vub_mem::{DirtyLog, GuestMemory};

/// Whether the word used_event is covered, if it is needed.
#[tactic(auto, unfolding(crate::specs::Notification::used_event_covers))]
pub(crate) fn used_event_is_covered<L: DirtyLog>(memory: &GuestMemory<L>, queue: &Queue) -> bool
    ensures { result ≡ used_event_covers memory.now.guest.regions queue.now }
{
    if queue.event_idx_enabled() {
        let at = queue.placed();
        memory
            .locate(at.avail, avail_slot_place(queue.size()), 2)
            .is_some()
    } else {
        true
    }
}

/// Whether the driver wants to be notified of what was used since it was last told.
#[tactic(auto, unfolding(crate::specs::Notification::wants_notification, crate::specs::Notification::used_event_covers))]
pub(crate) fn is_wanted<L: DirtyLog>(memory: &GuestMemory<L>, queue: &Queue) -> bool
    requires { used_event_covers memory.now.guest.regions queue.now ≡ true }
    ensures { result ≡ wants_notification memory.now.guest queue.now }
{
    if !queue.event_idx_enabled() {
        return true;
    }
    let at = queue.placed();
    match memory.locate(at.avail, avail_slot_place(queue.size()), 2) {
        None => true,
        Some(word) => {
            let event = memory.u16_at(word);
            let new = queue.next_used();
            new.wrapping_sub(event).wrapping_sub(1) < new.wrapping_sub(queue.told())
        }
    }
}

/// Where the driver is asked for notifications of new entries, if that word is covered.
fn asking_place<L: DirtyLog>(memory: &GuestMemory<L>, queue: &Queue) -> Option<u64>
    ensures is { IfSome result (λ word. word ≡ asking_at queue.now) }
    ensures some { OnSome result (covers memory.now.guest.regions (asking_at queue.now) 2 ≡ true) }
    ensures none { IfNone result (covers memory.now.guest.regions (asking_at queue.now) 2 ≡ false) }
{
    let at = queue.placed();
    if queue.event_idx_enabled() {
        match memory.locate(at.used, used_element_place(queue.size()), 2) {
            None => None,
            Some(word) => Some(word),
        }
    } else if memory.covers(at.used, 2) {
        Some(at.used)
    } else {
        None
    }
}

/// What asks the driver for notifications of new entries.
fn asking_word(queue: &Queue) -> u16
    ensures { result ≡ asking_word queue.now }
{
    if queue.event_idx_enabled() {
        queue.next_avail()
    } else {
        0
    }
}

/// Whether an entry is left, or the index word can't be read.
fn entry_is_left<L: DirtyLog>(memory: &GuestMemory<L>, queue: &Queue) -> bool
    ensures { result ≡ is_left memory.now.guest queue.now }
{
    let at = queue.placed();
    match memory.locate(at.avail, 2, 2) {
        None => true,
        Some(word) => memory.u16_at(word).wrapping_sub(queue.next_avail()) != 0,
    }
}

impl Queue {
    ghost use Rattle.std.specs.Prelude.{◌≡◌, ◌||◌, [], if◌then◌else◌, IsSome, OnOk, OnErr, Ok, Err};
    ghost use Rattle.vub_mem.specs.Marks.{MarksAll, page_marks, marks_of};
    ghost use Rattle.vub_mem.specs.Place.{covers};
    ghost use Rattle.vub_queue.specs.EntryNumber.{is_left};
    ghost use Rattle.vub_queue.specs.Layout.{used_flags_at};
    ghost use Rattle.vub_queue.specs.Notification.{asking_at, guest_asking, guest_declining, needs_answer, ring_told};

    /// Asks the driver to notify of new entries: by index it writes the number of the next entry to avail_event, else
    /// 0 to the flags of the used ring. True where an entry is left in the memory as it is then, or the available
    /// index can't be read. Outside exactly where the word to write is not covered, and then nothing changes. The
    /// addresses are to be set.
    pub fn enable_notification<L: DirtyLog>(
        &mut self,
        memory: &mut GuestMemory<L>,
    ) -> Result<bool, QueueError>
        requires { IsSome self.old.addresses }
        ensures answer { result ≡ (if covers memory.old.guest.regions (asking_at self.old) 2
            then Ok (is_left memory.new.guest self.old) else Err QueueError.Outside) }
        ensures guest { OnOk result (memory.new.guest ≡ guest_asking memory.old.guest self.old) }
        ensures regions { memory.new.guest.regions ≡ memory.old.guest.regions }
        ensures logs { OnOk result (MarksAll (page_marks L.byte_len L.marks) memory.old.logs
            (marks_of memory.old.guest.regions (asking_at self.old) 2) memory.new.logs) }
        ensures queue { self.new ≡ self.old }
        ensures err { OnErr result (memory.new ≡ memory.old) }
    {
        match asking_place(memory, self) {
            None => Err(QueueError::Outside),
            Some(word) => {
                memory.write_covered(word, &asking_word(self).to_le_bytes());
                Ok(entry_is_left(memory, self))
            }
        }
    }

    /// Asks the driver not to notify of new entries: writes 1 to the flags of the used ring, or nothing where
    /// notifications go by index. Outside exactly where the flags are to be written and are not covered, and then
    /// nothing changes. The addresses are to be set.
    pub fn disable_notification<L: DirtyLog>(
        &mut self,
        memory: &mut GuestMemory<L>,
    ) -> Result<(), QueueError>
        requires { IsSome self.old.addresses }
        ensures answer { result ≡ (if self.old.event_idx || covers memory.old.guest.regions (used_flags_at self.old) 2
            then Ok tt else Err QueueError.Outside) }
        ensures guest { OnOk result (memory.new.guest ≡ guest_declining memory.old.guest self.old) }
        ensures regions { memory.new.guest.regions ≡ memory.old.guest.regions }
        ensures logs { OnOk result (MarksAll (page_marks L.byte_len L.marks) memory.old.logs
            (if self.old.event_idx then [] else marks_of memory.old.guest.regions (used_flags_at self.old) 2)
            memory.new.logs) }
        ensures queue { self.new ≡ self.old }
        ensures err { OnErr result (memory.new ≡ memory.old) }
    {
        if self.event_idx_enabled() {
            return Ok(());
        }
        let at = self.placed();
        if !memory.covers(at.used, 2) {
            return Err(QueueError::Outside);
        }
        memory.write_covered(at.used, &1u16.to_le_bytes());
        Ok(())
    }

    /// Whether the driver wants to be notified of what was used since the last call, the last put or the last
    /// `set_next_used`: always where notifications do not go by index. Outside exactly where they do and used_event
    /// is not covered, and then nothing changes. The addresses are to be set.
    pub fn needs_notification<L: DirtyLog>(
        &mut self,
        memory: &GuestMemory<L>,
    ) -> Result<bool, QueueError>
        requires { IsSome self.old.addresses }
        ensures answer { result ≡ needs_answer memory.now.guest self.old }
        ensures ok { OnOk result (self.new ≡ ring_told self.old) }
        ensures err { OnErr result (self.new ≡ self.old) }
    {
        if !used_event_is_covered(memory, self) {
            return Err(QueueError::Outside);
        }
        let wanted = is_wanted(memory, self);
        self.tell();
        Ok(wanted)
    }
}
