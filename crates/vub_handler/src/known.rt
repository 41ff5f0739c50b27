//! What a session knows of the rings.
ghost use Rattle.std.specs.Prelude.{◌≡◌};
ghost use Rattle.vub_model.specs.FrameSteps.{known_after};
ghost use Rattle.vub_handler.specs.Playing.{known_by};

use vub_base::Listed;
use vub_model::{Known, RingOp, Small};
use vub_plan::known_at;

/// Kick and flags after this op.
fn known_after(known: Known, op: RingOp) -> Known
    ensures { result ≡ known_after known op }
{
    let mut known = known;
    match op {
        RingOp::SetEnabled(enabled) => known.enabled = enabled,
        RingOp::SetReady(ready) => known.ready = ready,
        RingOp::SetKick(kick) => known.kick = kick,
        _ => {}
    }
    known
}

/// What is known after a step.
#[tactic(auto, using(crate::proofs::PlayRows::unset))]
pub(crate) fn learn(known: &mut Listed<Known>, small: &Small)
    ensures { known.new ≡ known_by small.now known.old }
{
    if let Small::Set { queue, op } = small {
        let at = *queue as usize;
        if at < known.len() {
            let now = known_after(known_at(known.as_slice(), *queue), *op);
            known.replace(at, now);
        }
    }
}
