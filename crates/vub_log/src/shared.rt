// A log on atomic words, which parties mark and one harvests at once, with no lock.
ghost use Rattle.std.specs.Prelude.{◌≡◌, ◌↔◌, ◌⊎◌, ◌*◌, ◌^◌, ◌<◌, ◌≤◌, None, true, length, IfOk, IfErr, OnErr};
ghost use Rattle.vub_log.specs.Notes.{NotesMark, NotesLoad, NotesHarvest, IsNewLog, harvests_of, with_notes, without_harvests};

use crate::harvester::Harvester;
use crate::notes::Notes;
use crate::rule::{HarvestStep, LoadStep, LogRule, MarkStep, SeatStep};
use atomic_table::{Seat, Table};
use std::alloc::Global;
use std::marker::Model;
use std::sync::Arc;
use vub_mem::{DirtyLog, LogError};

type Words = Table<u8, Notes, u64, LogRule, Global>;

/// A shared log of dirty pages, on atomic words of 64 bits: the low 32 bits of a word are its pages, the high 32 its
/// generation, which counts its harvests. Its seats mark and load, and its harvester harvests, each in any thread and
/// each by single steps.
#[derive(Drop)]
pub struct MmapLogReg {
    words: Arc<Words, Global>,
    len: u64,
}

impl Model for MmapLogReg {
    ghost use Rattle.vub_log.specs.Notes.{SharedLog};
    ghost use Rattle.vub_log.specs.Seats.{shared_view};

    ghost Value = { SharedLog };

    ghost view = { shared_view };
}

/// A seat at a shared log. Contracts see which log it is and what the seat noted. What others do is not seen: a load
/// may show their marks, and each mark of this seat that a load does not show was harvested.
#[derive(Drop)]
pub struct LogSeat {
    words: Arc<Words, Global>,
    seat: Seat<u8, Notes>,
    len: u64,
}

impl Model for LogSeat {
    ghost use Rattle.vub_log.specs.Notes.{Party};
    ghost use Rattle.vub_log.specs.Seats.{seat_view, IsSeat};

    ghost Value = { Party };

    ghost view = { seat_view };

    ghost invariant = { IsSeat };
}

impl MmapLogReg {
    /// A shared log of `len` bytes, in which no page is marked and no word was harvested, with its first seat and its
    /// harvester.
    ///
    /// # Errors
    /// `EmptyLog` exactly where `len` is 0. `OutOfMemory` from 2^61 bytes on, and for want of memory.
    pub fn new(alloc: Global, len: u64) -> Result<(MmapLogReg, LogSeat, Harvester), LogError>
        ensures ok { IfOk result (λ log. IsNewLog len log.0 log.1 log.2) }
        ensures empty { (result ≡ Err LogError.EmptyLog) ↔ (len ≡ 0) }
        ensures large { 2 ^ 61 ≤ len → result ≡ Err LogError.OutOfMemory }
        ensures only { IfErr result (λ e. (e ≡ LogError.EmptyLog) ⊎ (e ≡ LogError.OutOfMemory)) }
    {
        if len == 0 {
            return Err(LogError::EmptyLog);
        }
        if len >= 1 << 61 {
            return Err(LogError::OutOfMemory);
        }
        let count = (len + 3) / 4;
        let Ok(zeros) = vec![in alloc; 0u64; count as usize] else {
            return Err(LogError::OutOfMemory);
        };
        let Ok(generations) = vec![in alloc; 0u32; count as usize] else {
            return Err(LogError::OutOfMemory);
        };
        let Ok((table, mut keeper)) = Words::of_words(alloc, zeros.as_slice(), &count) else {
            return Err(LogError::OutOfMemory);
        };
        let Ok(words) = Arc::new(alloc, table) else {
            return Err(LogError::OutOfMemory);
        };
        let Ok(marked) = Arc::try_clone(&words) else {
            return Err(LogError::OutOfMemory);
        };
        let Ok(harvested) = Arc::try_clone(&words) else {
            return Err(LogError::OutOfMemory);
        };
        let first = words.shared.split_seat::<SeatStep>(&mut keeper);
        let seat = LogSeat {
            words: marked,
            seat: first,
            len,
        };
        let keeper = LogSeat {
            words: harvested,
            seat: keeper,
            len,
        };
        let harvester = Harvester::new(keeper, generations);
        Ok((MmapLogReg { words, len }, seat, harvester))
    }

    /// How many bytes the log has. The number never changes.
    pub fn len(&self) -> u64
        ensures { result ≡ self.now.len }
    {
        self.len
    }
}

impl LogSeat {
    /// A second seat at this log, which has noted what this one has.
    ///
    /// # Errors
    /// `OutOfMemory` for want of memory. Nothing changes then.
    pub fn split(&mut self) -> Result<LogSeat, LogError>
        ensures ok { IfOk result (λ seat. seat ≡ record self.old { notes = without_harvests self.old.notes }) }
        ensures same { self.new ≡ self.old }
        ensures only { IfErr result (λ e. e ≡ LogError.OutOfMemory) }
    {
        let Ok(words) = Arc::try_clone(&self.words) else {
            return Err(LogError::OutOfMemory);
        };
        let seat = self.words.shared.split_seat::<SeatStep>(&mut self.seat);
        Ok(LogSeat {
            words,
            seat,
            len: self.len,
        })
    }

    /// One seat that has noted what both had. Both are seats of one log.
    pub fn join(mut self, other: LogSeat) -> LogSeat
        requires { other.log ≡ self.log }
        ensures { result ≡ record self { notes = with_notes self.notes other.notes } }
    {
        self.take_in(other);
        self
    }

    pub(crate) fn take_in(&mut self, other: LogSeat)
        requires { other.log ≡ self.old.log }
        ensures { self.new ≡ record self.old { notes = with_notes self.old.notes other.notes } }
    {
        let LogSeat {
            words: _,
            seat,
            len: _,
        } = other;
        self.words
            .shared
            .join_seat::<SeatStep>(&mut self.seat, seat);
    }

    // Takes the bits of a word, whose generation this is, and raises its generation, in one step.
    pub(crate) fn take_bits(&mut self, word: u64, generation: u32) -> u32
        requires word { 4 * word < self.old.len }
        requires keeps { self.old.notes.keeps ≡ true }
        requires generation { generation ≡ length (harvests_of word self.old.notes.harvests) }
        requires unspent { generation < 4294967295 }
        ensures { NotesHarvest self.old word result self.new }
    {
        let next = (u64::from(generation) + 1) * (1 << 32);
        let found = self
            .words
            .shared
            .swap::<HarvestStep>(&mut self.seat, word as usize, next);
        (found % (1 << 32)) as u32
    }
}

impl DirtyLog for LogSeat {
    ghost byte_len = { λ seat. seat.len };

    ghost log_bits = { λ _. None };

    ghost marks = { NotesMark };

    ghost loads = { NotesLoad };

    ghost marks_its_page = { λ old page new has goes. tt };

    ghost loads_its_byte = { λ old byte number new has goes. tt };

    fn len(&self) -> u64 {
        self.len
    }

    fn mark(&mut self, page: u64) {
        let word = (page / 32) as usize;
        self.words
            .shared
            .fetch_or::<MarkStep>(&mut self.seat, word, 1 << (page % 32));
    }

    fn load(&mut self, byte: u64) -> u8 {
        let word = (byte / 4) as usize;
        let found = self.words.shared.load::<LoadStep>(&mut self.seat, word);
        let bits = found % (1 << 32);
        ((bits >> (8 * (byte % 4))) % 256) as u8
    }
}
