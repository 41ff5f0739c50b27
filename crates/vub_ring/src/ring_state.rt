ghost use Rattle.std.specs.Prelude.{◌≡◌, ◌<◌, ℕ, Ok, IfOk, OnOk, OnErr, IsOk};
ghost use Rattle.vub_model.specs.RingRecord.{Vring, ring_said, ring_after};

use crate::state::VringState;
use vub_base::OutOfMemory;
use vub_model::{RingOp, RingSaid};

/// A ring that is changed by ops alone: its state, or a state that keeps a book of them. It says for how many ops it
/// has room, its spare: an op that finds room is not refused memory.
pub trait RingState {
    // the ring record
    ghost ring: { Self → Vring };

    // for how many ops there is room
    ghost spare: { Self → ℕ };

    /// The state, lent.
    fn state(&self) -> &VringState
        ensures { result.now ≡ ring self.now };

    /// Makes room for one op at least.
    ///
    /// # Errors
    /// Want of memory.
    fn reserve(&mut self) -> Result<(), OutOfMemory>
        ensures ring { ring self.new ≡ ring self.old }
        ensures room { OnOk result (0 < spare self.new) };

    /// Applies an op, as [`VringState::apply`] does.
    ///
    /// # Errors
    /// Want of memory leaves the ring as it was; never where there is room.
    fn apply(&mut self, op: RingOp) -> Result<RingSaid, OutOfMemory>
        ensures said { IfOk result (λ said. said ≡ ring_said (ring self.old) op) }
        ensures ring { OnOk result (ring self.new ≡ ring_after (ring self.old) op) }
        ensures err { OnErr result (ring self.new ≡ ring self.old) }
        ensures room { 0 < spare self.old → IsOk result };
}

impl RingState for VringState {
    ghost ring = { λ r. r };

    ghost spare = { λ r. 1 };

    fn state(&self) -> &VringState {
        self
    }

    fn reserve(&mut self) -> Result<(), OutOfMemory> {
        Ok(())
    }

    fn apply(&mut self, op: RingOp) -> Result<RingSaid, OutOfMemory> {
        Ok(VringState::apply(self, op))
    }
}
