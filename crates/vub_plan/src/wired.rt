ghost use Rattle.std.specs.Prelude.{◌≡◌, ◌≤◌, ◌<◌, nat_lt, length, IsTrue};
ghost use Rattle.vub_model.specs.Plans.{is_size, are_offered};
ghost use Rattle.vub_model.specs.Wiring.{opened_at, place_of};
ghost use Rattle.vub_plan.specs.Wires.{wires_of};

use crate::places::place_of;
use std::marker::Model;
use vub_base::Listed;
use vub_model::{Constants, Opened, Place};

/// What never changes in a session: the device's constants, and its workers as they were opened.
#[derive(Debug, Drop)]
pub struct Wired {
    constants: Constants,
    opened: Listed<Opened>,
}

impl Model for Wired {
    ghost use Rattle.std.specs.Prelude.{◌≤◌, ◌<◌, length};
    ghost use Rattle.vub_model.specs.Wiring.{Wiring};
    ghost use Rattle.vub_plan.specs.Wires.{wires_of};

    ghost Value = { Wiring };

    ghost view = { λ w. wires_of w.constants w.opened };

    ghost invariant = { λ w. (w.constants.max ≤ 32768) × (w.constants.queues < 4294967296)
        × (length w.constants.masks < 4294967296) };
}

/// The number that no object and no list has.
const NONE: u32 = 4294967295;

impl Wired {
    /// A device of these constants, whose workers were opened so.
    pub fn new(constants: Constants, opened: Listed<Opened>) -> Wired
        requires size { constants.max ≤ 32768 }
        requires queues { constants.queues < 4294967296 }
        requires workers { length constants.masks < 4294967296 }
        ensures { result ≡ wires_of constants opened }
    {
        Wired { constants, opened }
    }

    /// The device's constants.
    pub fn constants(&self) -> &Constants
        ensures { self.now ≡ wires_of result.now self.now.opened }
    {
        &self.constants
    }

    /// The number of queues.
    pub fn queue_count(&self) -> u32
        ensures { result ≡ self.now.queues }
    {
        self.constants.queues as u32
    }

    /// Whether regions of guest memory may get a log of dirty pages.
    pub fn tracks(&self) -> bool
        ensures { result ≡ self.now.tracks }
    {
        self.constants.tracks
    }

    /// Whether there is such a queue.
    pub fn has_queue(&self, queue: u32) -> bool
        ensures { result ≡ nat_lt queue self.now.queues }
    {
        queue < self.queue_count()
    }

    /// Whether a queue may have this size: a power of two that is not above the greatest.
    pub fn is_size(&self, size: u64) -> bool
        ensures same { result ≡ is_size self.now size }
        ensures fits { IsTrue result → size ≤ 32768 }
    {
        size.is_power_of_two() && size <= self.constants.max as u64
    }

    /// Whether all of these feature bits are offered.
    pub fn are_offered(&self, bits: u64) -> bool
        ensures { result ≡ are_offered self.now.features bits }
    {
        self.constants.features | bits == self.constants.features
    }

    /// The workers as they were opened, by number.
    pub fn opened(&self) -> &[Opened]
        ensures { result.now ≡ self.now.opened }
    {
        self.opened.as_slice()
    }

    /// How a worker was opened. One that is not there has no list, no bell and no exit object.
    pub fn opened_at(&self, worker: u32) -> Opened
        ensures { result ≡ opened_at self.now worker }
    {
        match self.opened.as_slice().get(worker as usize) {
            Some(opened) => *opened,
            None => Opened {
                worker: 0,
                list: NONE,
                bell: NONE,
                exit: None,
            },
        }
    }

    /// Where a queue is served, if a worker has it: at the first whose mask has its bit, under the count of that mask's
    /// bits below it.
    #[tactic(auto, unfolding(vub_model::specs::Wiring::place_of))]
    pub fn place_of(&self, queue: u32) -> Option<Place>
        ensures { result ≡ place_of self.now queue }
    {
        place_of(self.constants.masks.as_slice(), queue)
    }
}
