ghost use Rattle.std.specs.Prelude.{◌≡◌, ◌≢◌, ◌∷◌, [], Some, None, IfOk};
ghost use Rattle.vub_model.specs.Control.{tail_of};

use sqlite_items::Boxed;
use std::alloc::Global;
use std::marker::Model;
use vub_base::OutOfMemory;
use vub_model::Small;

/// The small steps of a plan, the last of which is its Answer. They are put together from the end, and a contract sees
/// them as a list. Each is boxed where the plan is made, so that taking one off moves its box and takes no memory.
#[derive(Debug, Drop)]
pub struct PlanSteps {
    /// The steps before the Answer, the last of them first.
    backwards: Vec<Boxed<Small>>,
}

impl Model for PlanSteps {
    ghost use Rattle.std.specs.Prelude.{List, ◌++◌, ◌∷◌, [], reverse};
    ghost use Rattle.vub_model.specs.declared.small.Small.{Small};
    ghost use Rattle.vub_model.specs.declared.small.Small.TheVariants.{Answer as Answering};

    ghost Value = { List Small };

    ghost view = { λ s. reverse s.backwards.items ++ Answering ∷ [] };
}

impl PlanSteps {
    /// The Answer alone. Takes no memory.
    pub fn answer(alloc: Global) -> PlanSteps
        ensures { result ≡ Small.Answer ∷ [] }
    {
        PlanSteps {
            backwards: Vec::new(alloc),
        }
    }

    /// These steps with one more before them.
    ///
    /// # Errors
    /// Want of memory.
    pub fn after(self, small: Small) -> Result<PlanSteps, OutOfMemory>
        ensures { IfOk result (λ steps. steps ≡ small ∷ self) }
    {
        let PlanSteps { mut backwards } = self;
        let small = Boxed::new(*backwards.allocator(), small)?;
        backwards.push(small)?;
        Ok(PlanSteps { backwards })
    }

    /// The first step, if it is not the Answer that ends the plan.
    pub fn first(&self) -> Option<&Boxed<Small>>
        ensures some { (small : _) → result ≡ Some small → self.now ≡ small.now ∷ tail_of self.now }
        ensures more { (small : _) → result ≡ Some small → tail_of self.now ≢ [] }
        ensures none { result ≡ None → self.now ≡ Small.Answer ∷ [] }
    {
        self.backwards.last()
    }

    /// Takes the first step off, if it is not the Answer that ends the plan. Takes no memory.
    pub fn take_first(&mut self) -> Option<Boxed<Small>>
        ensures some { (small : _) → result ≡ Some small → self.old ≡ small ∷ self.new }
        ensures none { result ≡ None → (self.old ≡ Small.Answer ∷ []) × (self.new ≡ self.old) }
    {
        self.backwards.pop()
    }

    /// Leaves the Answer alone. Takes no memory.
    pub fn clear(&mut self)
        ensures { self.new ≡ Small.Answer ∷ [] }
    {
        self.backwards.clear();
    }
}
