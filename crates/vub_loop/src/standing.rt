ghost use Rattle.std.specs.Prelude.{◌≡◌};
ghost use Rattle.vub_model.specs.declared.phase.Phase.TheVariants.{Idle};
ghost use Rattle.vub_loop.specs.Sound.{IsSound};

use std::marker::Model;
use std::mem;
use vub_model::Phase;

/// Where a worker stands. An entry in hand has the room of its segments, and the reply to it fits there. A contract
/// sees the phase.
#[derive(Debug, Drop)]
pub(crate) struct Standing {
    phase: Phase,
}

impl Model for Standing {
    ghost use Rattle.vub_model.specs.declared.phase.Phase.{Phase};
    ghost use Rattle.vub_loop.specs.Sound.{IsSound};

    ghost Value = { Phase };

    ghost view = { λ s. s.phase };

    ghost invariant = { λ s. IsSound s.phase };
}

impl Standing {
    /// In this phase.
    pub fn new(phase: Phase) -> Standing
        requires { IsSound phase }
        ensures { result ≡ phase }
    {
        Standing { phase }
    }

    /// The phase.
    pub fn phase(&self) -> &Phase
        ensures same { result.now ≡ self.now }
        ensures sound { IsSound self.now }
    {
        &self.phase
    }

    /// Takes the phase out, and leaves the worker idle.
    pub fn take(&mut self) -> Phase
        ensures taken { result ≡ self.old }
        ensures left { self.new ≡ Idle }
        ensures sound { IsSound result }
    {
        mem::replace(&mut self.phase, Phase::Idle)
    }
}
