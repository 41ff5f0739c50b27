//! A ring that counts its ops, and takes no more of them than it has room for.
ghost use Rattle.std.specs.Prelude.{◌-◌};

use vub_base::OutOfMemory;
use vub_model::{RingOp, RingSaid};
use vub_ring::{RingState, VringState};

/// A ring with room for some ops. It never gets more.
#[derive(Debug, Drop)]
pub(crate) struct Booked {
    pub state: VringState,
    pub room: u8,
}

impl RingState for Booked {
    ghost ring = { λ b. b.state };

    ghost spare = { λ b. b.room };

    fn state(&self) -> &VringState {
        &self.state
    }

    fn reserve(&mut self) -> Result<(), OutOfMemory> {
        if self.room == 0 {
            return Err(OutOfMemory);
        }
        Ok(())
    }

    fn apply(&mut self, op: RingOp) -> Result<RingSaid, OutOfMemory> {
        if self.room == 0 {
            return Err(OutOfMemory);
        }
        self.room -= 1;
        Ok(self.state.apply(op))
    }
}
