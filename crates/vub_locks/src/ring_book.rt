//! A ring with the ops that were done to it.
ghost use Rattle.std.specs.Prelude.{◌≡◌, ◌<◌, ◌++◌, [], IfOk, OnOk, OnErr, IsOk};
ghost use Rattle.vub_model.specs.RingRecord.{ring_said, ring_after};
ghost use Rattle.vub_locks.specs.Rings.{kept_of, replayed, IsFresh};

use std::alloc::Global;
use std::marker::Model;
use std::snapshot::Snapshot;
use vub_base::OutOfMemory;
use vub_model::{RingOp, RingSaid};
use vub_ring::{RingState, VringState};

/// A ring, the ring with which the book begins, and the ops that were done to it since. The replay of the ops is the
/// ring, always: so what lies under a ring's lock is what its history says.
#[derive(Drop)]
pub struct RingBook {
    opening: Snapshot<VringState>,
    ops: Vec<RingOp>,
    state: VringState,
}

impl Model for RingBook {
    ghost use Rattle.std.specs.Prelude.{◌-◌, ◌≡◌, length};
    ghost use Rattle.std.specs.Vec.{vec_capacity};
    ghost use Rattle.vub_locks.specs.Rings.{Book, IsFresh, replayed};

    ghost Value = { Book };

    ghost view = { λ b. record {
      opening = b.opening.value;
      ops = b.ops.items;
      state = b.state;
      spare = vec_capacity b.ops - length b.ops.items;
    } };

    ghost invariant = { λ b. IsFresh b.opening.value × (b.state ≡ replayed b.opening.value b.ops.items) };
}

impl RingBook {
    /// A book that begins with this ring, of which nothing was taken yet. Takes no memory.
    pub fn new(alloc: Global, state: VringState) -> RingBook
        requires { IsFresh state }
        ensures opening { result.opening ≡ state }
        ensures state { result.state ≡ state }
        ensures ops { result.ops ≡ [] }
    {
        let opening = Snapshot::of(&state);
        RingBook {
            opening,
            ops: Vec::new(alloc),
            state,
        }
    }

    /// The ops that were done, in order. Their replay from the opening is the ring.
    pub fn ops(&self) -> &[RingOp]
        ensures ops { result.now ≡ self.now.ops }
        ensures replay { self.now.state ≡ replayed self.now.opening result.now }
        ensures fresh { IsFresh self.now.opening }
    {
        self.ops.as_slice()
    }

    /// Applies an op, as `VringState::apply` does, and keeps it where it was done.
    ///
    /// # Errors
    /// Want of memory leaves the book as it was; never where there is room.
    #[tactic(auto, using(crate::proofs::Booking::other_keeps))]
    fn apply_and_keep(&mut self, op: RingOp) -> Result<RingSaid, OutOfMemory>
        ensures said { IfOk result (λ said. said ≡ ring_said self.old.state op) }
        ensures state { OnOk result (self.new.state ≡ ring_after self.old.state op) }
        ensures ops { IfOk result (λ said. self.new.ops ≡ self.old.ops ++ kept_of said op) }
        ensures opening { self.new.opening ≡ self.old.opening }
        ensures err { OnErr result (self.new.state ≡ self.old.state) }
        ensures err_ops { OnErr result (self.new.ops ≡ self.old.ops) }
        ensures room { 0 < self.old.spare → IsOk result }
    {
        self.make_room()?;
        let said = self.state.apply(op);
        if let RingSaid::Done = said {
            self.ops.push_reserved(op);
        }
        Ok(said)
    }

    /// Makes room for one op at least.
    ///
    /// # Errors
    /// Want of memory.
    fn make_room(&mut self) -> Result<(), OutOfMemory>
        ensures opening { self.new.opening ≡ self.old.opening }
        ensures ops { self.new.ops ≡ self.old.ops }
        ensures state { self.new.state ≡ self.old.state }
        ensures spare { OnOk result (0 < self.new.spare) }
        ensures room { 0 < self.old.spare → IsOk result }
    {
        self.ops.reserve(1)?;
        Ok(())
    }
}

impl RingState for RingBook {
    ghost ring = { λ b. b.state };

    ghost spare = { λ b. b.spare };

    fn state(&self) -> &VringState {
        &self.state
    }

    fn reserve(&mut self) -> Result<(), OutOfMemory> {
        self.make_room()
    }

    fn apply(&mut self, op: RingOp) -> Result<RingSaid, OutOfMemory> {
        self.apply_and_keep(op)
    }
}
