ghost use Rattle.std.specs.Prelude.{◌≡◌, ◌+◌, ◌<◌, Bool, true, Ok, [], length, map, slice_index_or, IfOk};
ghost use Rattle.vub_mem.specs.Place.{covers};
ghost use Rattle.vub_queue.specs.Layout.{avail_event_at};
ghost use Rattle.vub_queue.specs.Put.{room_covers, put_answer};
ghost use Rattle.vub_queue.specs.Ring.{Ring};
ghost use Rattle.vub_model.specs.Written.{spots_of, reply_spots, put_spots, with_spots};
ghost use Rattle.vub_model.specs.Opening.{unwritten};
ghost use Rattle.vub_core.specs.Flags.{filled, run_flagged};
ghost use Rattle.vub_core.specs.Places.{IsUsePlace, IsEventPlace};

use crate::footprint::{EventPlace, UsePlace};
use std::alloc::Global;
use std::marker::Model;
use vub_base::OutOfMemory;
use vub_log::PlainLog;
use vub_mem::GuestMemory;
use vub_model::Object;
use vub_queue::{Chain, Segment, split};

/// Which bytes of each object takes and puts wrote. A contract sees a list of flags for each object, by number.
#[derive(Drop)]
pub(crate) struct Written {
    objects: Vec<Vec<bool>>,
}

impl Model for Written {
    ghost use Rattle.std.specs.Prelude.{List, Bool, map};

    ghost Value = { List (List Bool) };

    ghost view = { λ w. map (λ v. v.items) w.objects.items };
}

/// Flags for the bytes of an object, of which none was written.
fn flags_of(alloc: Global, object: &Object) -> Result<Vec<bool>, OutOfMemory>
    ensures { IfOk result (λ flags. flags.items ≡ unwritten object.now) }
{
    let flags = match object {
        Object::Content(bytes) => vec![in alloc; false; bytes.len()]?,
        Object::Event { .. } | Object::Log { .. } => Vec::new(alloc),
    };
    Ok(flags)
}

#[tactic(auto, using(crate::proofs::Flags::filled_within))]
/// Sets `count` flags from place `from` on, as far as there are flags.
fn fill(flags: &mut [bool], from: usize, count: usize)
    ensures { flags.new ≡ filled flags.old from count }
{
    let here = count.min(flags.len().saturating_sub(from));
    for done in 0..here {
        flags[from + done] = true;
    }
}

impl Written {
    /// Nothing was written.
    pub fn new(alloc: Global, objects: &[Object]) -> Result<Written, OutOfMemory>
        ensures { IfOk result (λ w. w ≡ map unwritten objects.now) }
    {
        let mut list = Vec::with_capacity(alloc, objects.len())?;
        for object in objects {
            list.push(flags_of(alloc, object)?)?;
        }
        Ok(Written { objects: list })
    }

    /// The flags of an object; none where it is not there.
    pub fn of(&self, object: usize) -> &[bool]
        ensures { result.now ≡ slice_index_or self.now object [] }
    {
        match self.objects.get(object) {
            Some(flags) => flags.as_slice(),
            None => &[],
        }
    }

    /// Flags `len` bytes of an object, as far as it has them.
    fn flag(&mut self, object: u32, offset: u64, len: u64)
        ensures { self.new ≡ run_flagged self.old object offset len }
    {
        if (object as usize) < self.objects.len() {
            fill(
                &mut self.objects[object as usize],
                offset as usize,
                len as usize,
            );
        }
    }

    /// Flags the bytes that a write to this range of guest addresses changes, if it is covered.
    pub fn flag_range(&mut self, memory: &GuestMemory<PlainLog>, addr: u64, len: u64)
        ensures { covers memory.now.guest.regions addr len ≡ true
            → self.new ≡ with_spots self.old (spots_of memory.now.guest.regions addr len) }
    {
        let mut at = addr;
        let mut left = len;
        while left > 0 {
            match memory.place_of(at) {
                None => return,
                Some(place) => {
                    let here = place.left.min(left);
                    self.flag(place.object, place.offset, here);
                    left -= here;
                    at += here;
                }
            }
        }
    }

    /// Flags the bytes of the segments that a reply fills, if they are covered.
    pub fn flag_room(&mut self, memory: &GuestMemory<PlainLog>, segments: &[Segment], reply: &[u8])
        ensures { room_covers memory.now.guest.regions segments.now reply.now ≡ true
            → self.new ≡ with_spots self.old (reply_spots memory.now.guest.regions segments.now reply.now) }
    {
        let mut rest = reply;
        for segment in segments {
            let (piece, behind) = split(rest, segment.len);
            self.flag_range(memory, segment.addr, piece.len() as u64);
            rest = behind;
        }
    }

    /// Flags `len` bytes that lie `offset` behind an address, if they are covered.
    pub fn flag_behind(&mut self, memory: &GuestMemory<PlainLog>, base: u64, offset: u64, len: u64)
        requires { 0 < len }
        ensures { covers memory.now.guest.regions (base + offset) len ≡ true
            → self.new ≡ with_spots self.old (spots_of memory.now.guest.regions (base + offset) len) }
    {
        if let Some(addr) = memory.locate(base, offset, len) {
            self.flag_range(memory, addr, len);
        }
    }

    /// Flags what the use of an entry writes: the reply over its segments, and the used element and the used index of
    /// a ring that lies at `place` (virtio 1.2, section 2.7.8). Where the use would be refused, nothing is said.
    pub fn flag_use(
        &mut self,
        memory: &GuestMemory<PlainLog>,
        place: UsePlace,
        chain: &Chain,
        reply: &[u8],
    )
        ensures { (r : Ring) (wanted answer : Bool) → IsUsePlace r place
            → put_answer memory.now.guest.regions r chain.now reply.now wanted ≡ Ok answer
            → self.new ≡ with_spots self.old (put_spots memory.now.guest.regions r chain.now reply.now) }
    {
        self.flag_room(memory, chain.segments.as_slice(), reply);
        self.flag_behind(memory, place.used, 4 + 8 * place.slot as u64, 8);
        self.flag_behind(memory, place.used, 2, 2);
    }

    /// Flags the word avail_event of a ring that lies at `place` (virtio 1.2, section 2.7.10), if it is covered.
    pub fn flag_event(&mut self, memory: &GuestMemory<PlainLog>, place: EventPlace)
        ensures { (r : Ring) → IsEventPlace r place → covers memory.now.guest.regions (avail_event_at r) 2 ≡ true
            → self.new ≡ with_spots self.old (spots_of memory.now.guest.regions (avail_event_at r) 2) }
    {
        self.flag_behind(memory, place.used, 4 + 8 * place.size as u64, 2);
    }
}
