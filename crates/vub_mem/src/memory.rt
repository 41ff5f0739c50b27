//! Guest memory.
ghost use Rattle.std.specs.Prelude.{◌≡◌, ◌≢◌, ◌↔◌, ◌⊎◌, ◌==◌, ℕ, ◌+◌, ◌-◌, ◌*◌, ◌<◌, ◌≤◌, ◌^◌, [], ◌∷◌, ◌++◌, length, true, false, if◌then◌else◌, IsTrue, IfOk, OnOk, OnErr, map, IfErr, IfSome, IfNone, MatchResult, slice_index};
ghost use Rattle.std.specs.List.{AllByRecursion, insert, list_any, position};
ghost use Rattle.std.specs.Int.{w16, w32, w64, to_le_bytes};

use crate::dirty::{DirtyLog, HarvestLog, Stored};
use crate::errors::{LogError, MemError};
use crate::harvests::harvest_log;
use crate::marks::{is_log, load_log, log_bytes, mark_from, test_log};
use crate::numbered::Contents;
use crate::place::Place;
use crate::places::{
    covers_from, covers_range, locate_range, place_in, read_range, u16_at, u32_at, u64_at,
    write_from,
};
use crate::region::Region;
use crate::starts::{find_place, stand};
use crate::table::{clear_logs, insert_place, region_place, test_insert, test_table};
use crate::track::give_logs;
use std::alloc::Global;
use std::marker::Model;
use std::sync::ledger::Ledger;
use vub_base::{Bytes, OutOfMemory, Steps};

/// The memory of a guest: regions of its addresses, which show numbered contents, and the numbered logs of its dirty
/// pages. The regions stand in order of their addresses, and no two share one.
#[derive(Drop)]
pub struct GuestMemory<L: DirtyLog> {
    regions: Vec<Region>,
    contents: Contents,
    logs: Vec<Stored<L>>,
}

impl<L: DirtyLog> Model for GuestMemory<L> {
    ghost use Rattle.vub_mem.specs.Memory.{Memory};

    ghost Value = { Memory L };

    ghost use Rattle.vub_mem.specs.View.{memory_view, IsSoundInside};

    ghost view = { memory_view };

    ghost invariant = { IsSoundInside L.byte_len };
}

impl<L: DirtyLog> GuestMemory<L> {
    ghost use Rattle.vub_mem.specs.Place.{holds, content_of, is_numbered, covers, bytes_at, number_at, store_at, write_at};
    ghost use Rattle.vub_mem.specs.PlaceAt.{place_at, RunsOn};
    ghost use Rattle.vub_mem.specs.Found.{IsLocated};
    ghost use Rattle.vub_mem.specs.Halving.{StandsAt};
    ghost use Rattle.vub_mem.specs.Sound.{IsApart, IsBounded};
    ghost use Rattle.vub_mem.specs.Answers.{ReadsBytes};
    ghost use Rattle.vub_mem.specs.Table.{table_fault, table_answer, unlogged, insert_fault, place_of, remove_answer, without};
    ghost use Rattle.vub_mem.specs.Track.{log_fault, log_answer, with_log};
    ghost use Rattle.vub_mem.specs.Logs.{log_len, ChangesOne};
    ghost use Rattle.vub_mem.specs.Marks.{MarksAll, page_marks, marks_of};

    /// Memory with no region, content or log.
    pub fn new(alloc: Global) -> Self
        ensures { result ≡ record { guest = record { regions = []; contents = [] }; logs = [] } }
    {
        GuestMemory {
            regions: Vec::new(alloc),
            contents: Contents::new(alloc),
            logs: Vec::new(alloc),
        }
    }

    /// Puts this table in the place of the old one. Its regions are without a log, whatever they say.
    ///
    /// # Errors
    /// For each region in turn `Empty` where its length is 0, `PastObject` where it passes the end of its content or
    /// there is none, `Wraps` where it passes address 2^64 - 1. Then `Empty` for an empty list. Then for each two
    /// neighbours `Order` where the second starts first, `Overlap` where they share an address.
    pub fn replace_table(&mut self, regions: Vec<Region>) -> Result<(), MemError>
        ensures answer { result ≡ table_answer (table_fault self.old.guest.contents regions.items) }
        ensures ok { OnOk result (self.new ≡ record self.old
            { guest = record self.old.guest { regions = map unlogged regions.items } }) }
        ensures err { OnErr result (self.new ≡ self.old) }
    {
        match test_table(&self.contents, &regions) {
            Some(fault) => Err(fault),
            None => {
                let mut regions = regions;
                clear_logs(&mut regions);
                self.regions = regions;
                Ok(())
            }
        }
    }

    /// Puts one more region into the table, at its place by order. It is without a log, whatever it says.
    ///
    /// # Errors
    /// `Empty` where its length is 0, `PastObject` where it passes the end of its content or there is none, `Wraps`
    /// where it passes address 2^64 - 1, `Overlap` where it shares an address with a region of the table. Want of
    /// memory.
    pub fn insert_region(&mut self, _alloc: Global, region: Region) -> Result<(), MemError>
        ensures refused { IfSome (insert_fault self.old.guest.contents self.old.guest.regions region)
            (λ e. result ≡ Err e) }
        ensures only { IfErr result (λ e.
            (Some e ≡ insert_fault self.old.guest.contents self.old.guest.regions region)
            ⊎ (e ≡ MemError.OutOfMemory)) }
        ensures ok { OnOk result (self.new ≡ record self.old {
          guest = record self.old.guest
              { regions = insert self.old.guest.regions (place_of self.old.guest.regions region) (unlogged region) };
        }) }
        ensures err { OnErr result (self.new ≡ self.old) }
    {
        match test_insert(&self.contents, &self.regions, &region) {
            Some(fault) => Err(fault),
            None => {
                let place = insert_place(&self.regions, &region);
                let region = Region {
                    log: None,
                    ..region
                };
                match self.regions.insert(place, region) {
                    Ok(()) => Ok(()),
                    Err(_) => Err(MemError::OutOfMemory),
                }
            }
        }
    }

    /// Takes the region with this start and this length out of the table, which may become empty.
    ///
    /// # Errors
    /// `NoSuchRegion` exactly where the table has no such region.
    pub fn remove_region(&mut self, start: u64, len: u64) -> Result<Region, MemError>
        ensures answer { result ≡ remove_answer self.old.guest.regions start len }
        ensures ok { OnOk result (self.new ≡ record self.old
            { guest = record self.old.guest { regions = without self.old.guest.regions start len } }) }
        ensures err { OnErr result (self.new ≡ self.old) }
    {
        match region_place(&self.regions, start, len) {
            None => Err(MemError::NoSuchRegion),
            Some(place) => Ok(self.regions.remove(place)),
        }
    }

    /// The regions, by ascending guest address.
    pub fn regions(&self) -> &[Region]
        ensures value { result.now ≡ self.now.guest.regions }
        ensures apart { IsApart self.now.guest.regions }
        ensures bounded { AllByRecursion IsBounded self.now.guest.regions }
    {
        &self.regions
    }

    /// The bytes of the content with this number, and no bytes where there is none.
    pub fn content(&self, object: u32) -> &[u8]
        ensures { result.now ≡ content_of self.now.guest.contents object }
    {
        self.contents.bytes(object)
    }

    /// Whether a content has this number.
    pub fn has_object(&self, object: u32) -> bool
        ensures value { result ≡ list_any (λ c. is_numbered c object) self.now.guest.contents }
        ensures absent { result ≡ false → AllByRecursion (λ c. c.object ≢ object) self.now.guest.contents }
    {
        self.contents.has(object)
    }

    /// Whether a log has this number.
    pub fn has_log(&self, object: u32) -> bool
        ensures value { result ≡ list_any (λ s. s.object == object) self.now.logs }
        ensures absent { result ≡ false → AllByRecursion (λ s. s.object ≢ object) self.now.logs }
    {
        is_log(&self.logs, object)
    }

    /// How many bytes the log with this number has, and 0 where there is none.
    pub fn log_len(&self, object: u32) -> u64
        ensures value { result ≡ log_len L.byte_len self.now.logs object }
        ensures bound { result < 2 ^ 61 }
    {
        log_bytes(&self.logs, object)
    }

    /// The bits of eight pages: a byte of the log with this number, which has it.
    pub fn load(&mut self, object: u32, byte: u64) -> u8
        requires { byte < log_len L.byte_len self.old.logs object }
        ensures loaded { ChangesOne (λ old new. L.loads old byte result new) self.old.logs object self.new.logs }
        ensures guest { self.new.guest ≡ self.old.guest }
        ensures keeps { (o : ℕ) → log_len L.byte_len self.new.logs o ≡ log_len L.byte_len self.old.logs o }
    {
        load_log(&mut self.logs, object, byte)
    }

    /// The numbered logs, in the order in which they were put in.
    pub fn logs(&self) -> &[Stored<L>]
        ensures { result.now ≡ self.now.logs }
    {
        self.logs.as_slice()
    }

    /// Gives each region the log with this number: page `p` of the guest is bit `8 * offset + p` of it, and `size` is
    /// how many bytes from `offset` on are used. `tracks` says whether dirty pages are tracked at all.
    ///
    /// # Errors
    /// `EmptyLog` where `size` is 0, `PastObject` where no log has this number or `offset + size` passes its length.
    /// Then for each region in turn `Unsupported` where nothing is tracked, `NotPageAligned` where its start or its
    /// length is no multiple of 4096, `TooSmall` where its last page is not below `8 * size`.
    pub fn set_log(
        &mut self,
        object: u32,
        offset: u64,
        size: u64,
        tracks: bool,
    ) -> Result<(), LogError>
        ensures answer { result ≡ log_answer
            (log_fault L.byte_len self.old.logs self.old.guest.regions object offset size tracks) }
        ensures ok { OnOk result (self.new ≡ record self.old {
          guest = record self.old.guest
              { regions = map (λ r. with_log object offset r) self.old.guest.regions };
        }) }
        ensures err { OnErr result (self.new ≡ self.old) }
    {
        match test_log(&self.regions, &self.logs, object, offset, size, tracks) {
            Some(fault) => Err(fault),
            None => {
                give_logs(&mut self.regions, object, offset);
                Ok(())
            }
        }
    }

    /// Puts a content under a number that none has.
    pub fn put_object(&mut self, _alloc: Global, object: u32, bytes: Bytes) -> Result<(), MemError>
        requires { AllByRecursion (λ c. c.object ≢ object) self.old.guest.contents }
        ensures only { OnErr result (result ≡ Err MemError.OutOfMemory) }
        ensures ok { OnOk result (self.new ≡ record self.old {
          guest = record self.old.guest
              { contents = self.old.guest.contents ++ record { object = object; bytes = bytes } ∷ [] };
        }) }
        ensures err { OnErr result (self.new ≡ self.old) }
    {
        match self.contents.put(object, bytes) {
            Ok(()) => Ok(()),
            Err(_) => Err(MemError::OutOfMemory),
        }
    }

    /// Puts a log under a number that no log has, as [`GuestMemory::has_log`] tells.
    ///
    /// # Errors
    /// Want of memory alone.
    pub fn put_log(&mut self, _alloc: Global, object: u32, log: L) -> Result<(), MemError>
        requires { AllByRecursion (λ s. s.object ≢ object) self.old.logs }
        ensures only { OnErr result (result ≡ Err MemError.OutOfMemory) }
        ensures ok { OnOk result (self.new ≡ record self.old
            { logs = self.old.logs ++ record { object = object; log = log } ∷ [] }) }
        ensures err { OnErr result (self.new ≡ self.old) }
    {
        match self.logs.push(Stored { object, log }) {
            Ok(()) => Ok(()),
            Err(_) => Err(MemError::OutOfMemory),
        }
    }

    /// The guest's own write into a content, from byte `offset` on. It marks nothing.
    #[tactic(auto, unfolding(crate::specs::Place::store_at))]
    pub fn store(&mut self, object: u32, offset: u64, bytes: &[u8])
        requires { offset + length bytes.now ≤ length (content_of self.old.guest.contents object) }
        ensures guest { self.new.guest ≡ store_at self.old.guest object offset bytes.now }
        ensures regions { self.new.guest.regions ≡ self.old.guest.regions }
        ensures logs { self.new.logs ≡ self.old.logs }
    {
        self.contents.store(object, offset as usize, bytes);
    }

    /// The place, in the list of regions, of the region that holds the address, found by halving. A step is a look at
    /// the start of a region.
    pub fn find<K: Ledger>(&self, addr: u64, steps: &mut Steps<K>) -> Option<usize>
        ensures place { result ≡ position (λ r. holds r addr) self.now.guest.regions }
        ensures steps { 2 ^ (steps.new - steps.old) ≤ 2 * length self.now.guest.regions + 1 }
    {
        find_place(&self.regions, addr, steps)
    }

    /// Where an address lies, if it lies in a region.
    pub fn place_of(&self, addr: u64) -> Option<Place>
        ensures value { result ≡ place_at self.now.guest.regions addr }
        ensures some { IfSome result (λ p. 0 < p.left) }
        ensures run { IfSome result (RunsOn self.now.guest.regions addr) }
        ensures ends { IfSome result (λ p. addr + p.left < 2 ^ 64) }
    {
        place_in(&self.regions, addr)
    }

    /// Whether each address of the range lies in a region.
    pub fn covers(&self, addr: u64, len: u64) -> bool
        ensures value { result ≡ covers self.now.guest.regions addr len }
        ensures bound { IsTrue result → addr + len < 2 ^ 64 }
    {
        covers_range(&self.regions, addr, len)
    }

    /// The address that lies `offset` behind `base`, where a range from it on is covered.
    pub fn locate(&self, base: u64, offset: u64, len: u64) -> Option<u64>
        requires { 0 < len }
        ensures some { IfSome result (IsLocated self.now.guest.regions base offset len) }
        ensures none { IfNone result (covers self.now.guest.regions (base + offset) len ≡ false) }
    {
        locate_range(&self.regions, base, offset, len)
    }

    /// The little-endian word at an address.
    pub fn u16_at(&self, addr: u64) -> u16
        requires { addr + 2 < 2 ^ 64 }
        ensures { result ≡ number_at w16 self.now.guest addr }
    {
        u16_at(&self.regions, &self.contents, addr)
    }

    /// The little-endian number of four bytes at an address.
    pub fn u32_at(&self, addr: u64) -> u32
        requires { addr + 4 < 2 ^ 64 }
        ensures { result ≡ number_at w32 self.now.guest addr }
    {
        u32_at(&self.regions, &self.contents, addr)
    }

    /// The little-endian number of eight bytes at an address.
    pub fn u64_at(&self, addr: u64) -> u64
        requires { addr + 8 < 2 ^ 64 }
        ensures { result ≡ number_at w64 self.now.guest addr }
    {
        u64_at(&self.regions, &self.contents, addr)
    }

    /// The bytes of a range that is covered.
    ///
    /// # Errors
    /// Want of memory.
    pub fn read_covered(&self, alloc: Global, addr: u64, len: u64) -> Result<Bytes, OutOfMemory>
        requires { covers self.now.guest.regions addr len ≡ true }
        ensures { IfOk result (λ b. b ≡ bytes_at self.now.guest addr len) }
    {
        let octets = read_range(alloc, &self.regions, &self.contents, addr, len)?;
        Ok(Bytes::from_vec(octets))
    }

    /// The bytes of a range.
    ///
    /// # Errors
    /// `Outside` exactly where the range is not covered. Want of memory.
    pub fn read(&self, alloc: Global, addr: u64, len: u64) -> Result<Bytes, MemError>
        ensures { ReadsBytes result (covers self.now.guest.regions addr len) (bytes_at self.now.guest addr len) }
    {
        if !self.covers(addr, len) {
            return Err(MemError::Outside);
        }
        match self.read_covered(alloc, addr, len) {
            Ok(bytes) => Ok(bytes),
            Err(_) => Err(MemError::OutOfMemory),
        }
    }

    /// The little-endian word at an address.
    ///
    /// # Errors
    /// `Outside` exactly where its two bytes are not covered.
    pub fn read_u16(&self, addr: u64) -> Result<u16, MemError>
        ensures { result ≡ (if covers self.now.guest.regions addr 2 then Ok (number_at w16 self.now.guest addr)
            else Err MemError.Outside) }
    {
        if self.covers(addr, 2) {
            Ok(self.u16_at(addr))
        } else {
            Err(MemError::Outside)
        }
    }

    /// Writes these bytes, one after the other by ascending address, over a range that is covered. Each page of 4096
    /// guest bytes that they meet in a region with a log is marked in it.
    pub fn write_covered(&mut self, addr: u64, bytes: &[u8])
        requires { covers self.old.guest.regions addr (length bytes.now) ≡ true }
        ensures guest { self.new.guest ≡ write_at self.old.guest addr bytes.now }
        ensures regions { self.new.guest.regions ≡ self.old.guest.regions }
        ensures logs { MarksAll (page_marks L.byte_len L.marks) self.old.logs
            (marks_of self.old.guest.regions addr (length bytes.now)) self.new.logs }
    {
        let place = stand(&self.regions, addr);
        self.write_on(place, addr, bytes);
    }

    /// Writes these bytes over a range that is covered, and marks its pages. Only the region of this place can hold the
    /// first address.
    fn write_on(&mut self, place: usize, addr: u64, bytes: &[u8])
        requires stands { StandsAt self.old.guest.regions addr place }
        requires covered { covers self.old.guest.regions addr (length bytes.now) ≡ true }
        ensures guest { self.new.guest ≡ write_at self.old.guest addr bytes.now }
        ensures regions { self.new.guest.regions ≡ self.old.guest.regions }
        ensures logs { MarksAll (page_marks L.byte_len L.marks) self.old.logs
            (marks_of self.old.guest.regions addr (length bytes.now)) self.new.logs }
    {
        write_from(&self.regions, &mut self.contents, place, addr, bytes);
        mark_from(
            &self.regions,
            &mut self.logs,
            place,
            addr,
            bytes.len() as u64,
        );
    }

    /// Writes these bytes, one after the other by ascending address. Each page of 4096 guest bytes that they meet in
    /// a region with a log is marked in it.
    ///
    /// # Errors
    /// `Outside` exactly where the range is not covered. Nothing is written or marked then.
    pub fn write(&mut self, addr: u64, bytes: &[u8]) -> Result<(), MemError>
        ensures result { result ≡ (if covers self.old.guest.regions addr (length bytes.now) then Ok tt
            else Err MemError.Outside) }
        ensures ok { OnOk result (self.new.guest ≡ write_at self.old.guest addr bytes.now) }
        ensures covered { covers self.old.guest.regions addr (length bytes.now) ≡ true
            → self.new.guest ≡ write_at self.old.guest addr bytes.now }
        ensures regions { self.new.guest.regions ≡ self.old.guest.regions }
        ensures logs { MarksAll (page_marks L.byte_len L.marks) self.old.logs
            (if covers self.old.guest.regions addr (length bytes.now)
            then marks_of self.old.guest.regions addr (length bytes.now) else []) self.new.logs }
        ensures err { OnErr result (self.new ≡ self.old) }
    {
        let place = stand(&self.regions, addr);
        if !covers_from(&self.regions, place, addr, bytes.len() as u64) {
            return Err(MemError::Outside);
        }
        self.write_on(place, addr, bytes);
        Ok(())
    }

    /// Writes a little-endian word, as [`GuestMemory::write`] writes its two bytes.
    ///
    /// # Errors
    /// `Outside` exactly where the two bytes are not covered. Nothing is written or marked then.
    pub fn write_u16(&mut self, addr: u64, value: u16) -> Result<(), MemError>
        ensures result { result ≡ (if covers self.old.guest.regions addr 2 then Ok tt else Err MemError.Outside) }
        ensures ok { OnOk result (self.new.guest ≡ write_at self.old.guest addr (to_le_bytes w16 value)) }
        ensures covered { covers self.old.guest.regions addr 2 ≡ true
            → self.new.guest ≡ write_at self.old.guest addr (to_le_bytes w16 value) }
        ensures regions { self.new.guest.regions ≡ self.old.guest.regions }
        ensures logs { MarksAll (page_marks L.byte_len L.marks) self.old.logs
            (if covers self.old.guest.regions addr 2 then marks_of self.old.guest.regions addr 2 else [])
            self.new.logs }
        ensures err { OnErr result (self.new ≡ self.old) }
    {
        self.write(addr, &value.to_le_bytes())
    }
}

impl<L: HarvestLog> GuestMemory<L> {
    ghost use Rattle.vub_mem.specs.Logs.{log_len, ChangesOne, HoldsOf};

    /// Hands out the bits of a word of the log with this number, which has the word, and clears them.
    ///
    /// # Errors
    /// `GenerationsSpent` exactly where the word was harvested 4294967295 times. Nothing changes then.
    pub fn harvest(&mut self, object: u32, word: u64) -> Result<u32, LogError>
        requires { 4 * word < log_len L.byte_len self.old.logs object }
        ensures harvested { IfOk result (λ bits. ChangesOne
            (λ old new. L.harvests old word bits new) self.old.logs object self.new.logs) }
        ensures spent { (result ≡ Err LogError.GenerationsSpent) ↔ HoldsOf
            (λ log. L.spent log word) self.old.logs object }
        ensures only { OnErr result (result ≡ Err LogError.GenerationsSpent) }
        ensures err { OnErr result (self.new ≡ self.old) }
        ensures guest { self.new.guest ≡ self.old.guest }
        ensures keeps { (o : ℕ) → log_len L.byte_len self.new.logs o ≡ log_len L.byte_len self.old.logs o }
    {
        harvest_log(&mut self.logs, object, word)
    }
}
