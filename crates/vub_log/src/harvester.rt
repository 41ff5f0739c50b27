// The one that harvests a shared log.
ghost use Rattle.std.specs.Prelude.{◌≡◌, None, true, [], replicate};
ghost use Rattle.vub_log.specs.Notes.{NotesMark, NotesLoad, NotesHarvest, IsSpentAt, with_notes};
ghost use Rattle.vub_log.specs.Plain.{word_count};

use crate::shared::LogSeat;
use std::marker::Model;
use vub_mem::{DirtyLog, HarvestLog, LogError};

/// The one that harvests a shared log. It marks and loads as a seat does.
#[derive(Drop)]
pub struct Harvester {
    seat: LogSeat,
    generations: Vec<u32>,
}

impl Model for Harvester {
    ghost use Rattle.vub_log.specs.Notes.{Party};
    ghost use Rattle.vub_log.specs.Harvests.{IsHarvester};

    ghost Value = { Party };

    ghost view = { λ h. h.seat };

    ghost invariant = { IsHarvester };
}

impl Harvester {
    // The keeper of the harvests of a new log, with a generation of 0 for each word.
    pub(crate) fn new(seat: LogSeat, generations: Vec<u32>) -> Harvester
        requires keeps { seat.notes.keeps ≡ true }
        requires first { seat.notes.harvests ≡ [] }
        requires generations { generations.items ≡ replicate (word_count seat.len) 0 }
        ensures { result ≡ seat }
    {
        Harvester { seat, generations }
    }

    /// Notes what a seat of this log noted. The seat is gone, and its marks are the harvester's.
    pub fn take_in(&mut self, seat: LogSeat)
        requires { seat.log ≡ self.old.log }
        ensures { self.new ≡ record self.old { notes = with_notes self.old.notes seat.notes } }
    {
        self.seat.take_in(seat);
    }
}

impl DirtyLog for Harvester {
    ghost byte_len = { λ harvester. harvester.len };

    ghost log_bits = { λ _. None };

    ghost marks = { NotesMark };

    ghost loads = { NotesLoad };

    ghost marks_its_page = { λ old page new has goes. tt };

    ghost loads_its_byte = { λ old byte number new has goes. tt };

    fn len(&self) -> u64 {
        self.seat.len()
    }

    fn mark(&mut self, page: u64) {
        self.seat.mark(page);
    }

    fn load(&mut self, byte: u64) -> u8 {
        self.seat.load(byte)
    }
}

impl HarvestLog for Harvester {
    ghost harvests = { NotesHarvest };

    ghost spent = { IsSpentAt };

    ghost harvests_its_word = { λ old word number new has goes. tt };

    ghost spends_its_word = { λ harvester word has. tt };

    fn harvest(&mut self, word: u64) -> Result<u32, LogError> {
        let place = word as usize;
        let generation = self.generations[place];
        if generation == u32::MAX {
            return Err(LogError::GenerationsSpent);
        }
        let bits = self.seat.take_bits(word, generation);
        self.generations[place] = generation + 1;
        Ok(bits)
    }
}
