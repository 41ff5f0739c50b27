//! A law of the workers' steps: the call does nothing, and its contract is the law.
ghost use Rattle.vub_core.specs.Lowering.{StepsLower};

/// A step of a worker that was made, as its contract tells it, lowers the work that is left, while the available index
/// words stay.
pub fn steps_lower_the_work<V>()
    ensures { StepsLower V }
{}
