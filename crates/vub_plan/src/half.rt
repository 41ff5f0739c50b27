ghost use Rattle.std.specs.Prelude.{◌≡◌, ◌≢◌, ◌⊎◌, ◌∷◌, [], None, Some, IfOk};
ghost use Rattle.vub_model.specs.Plans.{says};
ghost use Rattle.vub_model.specs.Control.{tail_of, instead, told};
ghost use Rattle.vub_plan.specs.Halves.{of_plan, reply_of, dropped, turned, stage_of};

use crate::session::copied;
use crate::steps::PlanSteps;
use sqlite_items::Boxed;
use std::alloc::Global;
use std::marker::Model;
use vub_base::{Listed, OutOfMemory};
use vub_mem::Region;
use vub_model::{Session, Small, TableOp};
use vub_proto::Answer;

/// What an Answer says.
#[derive(Debug, Drop)]
pub enum Due {
    /// An answer that is known before.
    Says(Answer),
    /// The number of the next entry of this queue.
    NextOf(u32),
}

/// What a plan begins with, before its other steps.
#[derive(Debug, Drop)]
pub enum Head {
    None,
    /// The table of guest memory is changed, and the device is told of its regions.
    Table(TableOp),
    /// The device is told of these regions.
    Update(Listed<Region>),
}

/// Which of its steps a request plays next.
#[derive(Clone, Copy, Debug, PartialEq, Eq)]
pub enum Stage {
    /// None, since it was answered.
    Spent,
    /// The Answer.
    Answer,
    /// Another step.
    Step,
}

/// What a step that was played makes of the steps after it.
#[derive(Debug, Drop)]
pub enum Turn {
    /// They stay.
    Goes,
    /// The next two are not played.
    Skips,
    /// The Answer alone is left, with this answer.
    Instead(Answer),
    /// The Answer says this in the end.
    Tells(Answer),
}

/// A request that is under way: what is left of its plan.
#[derive(Debug, Drop)]
pub struct Half {
    head: Head,
    steps: PlanSteps,
    is_answered: bool,
    due: Due,
    /// The session after an answer that is no refusal.
    session: Session,
}

impl Model for Half {
    ghost use Rattle.std.specs.Prelude.{[], if◌then◌else◌};
    ghost use Rattle.vub_plan.specs.Halves.{Begun, reply_of};

    ghost Value = { Begun };

    ghost view = { λ h. record {
      head = h.head;
      plan = record {
        steps = if h.is_answered then [] else h.steps;
        reply = reply_of h.due;
        session = h.session;
      };
    } };
}

impl Half {
    /// A plan of these steps.
    pub fn new(steps: PlanSteps, due: Due, session: Session) -> Half
        ensures head { result.head ≡ Head.None }
        ensures plan { result.plan ≡ record { steps = steps; reply = reply_of due; session = session } }
    {
        Half {
            head: Head::None,
            steps,
            is_answered: false,
            due,
            session,
        }
    }

    /// A request that was answered with ok, after which the session is this one: no step is left. Takes no memory.
    pub fn spent(alloc: Global, session: Session) -> Half
        ensures { result ≡ of_plan (record { steps = []; reply = says Answer.Ok; session = session }) }
    {
        Half {
            head: Head::None,
            steps: PlanSteps::answer(alloc),
            is_answered: true,
            due: Due::Says(Answer::Ok),
            session,
        }
    }

    /// A plan that changes the table of guest memory, and tells the device of its regions.
    pub fn changing(alloc: Global, change: TableOp, session: Session) -> Half
        ensures head { result.head ≡ Head.Table change }
        ensures plan { result.plan
            ≡ record { steps = Small.Answer ∷ []; reply = says Answer.Ok; session = session } }
    {
        Half {
            head: Head::Table(change),
            steps: PlanSteps::answer(alloc),
            is_answered: false,
            due: Due::Says(Answer::Ok),
            session,
        }
    }

    /// What comes before the other steps.
    pub fn head(&self) -> &Head
        ensures { result.now ≡ self.now.head }
    {
        &self.head
    }

    /// What the Answer says.
    pub fn due(&self) -> &Due
        ensures { reply_of result.now ≡ self.now.plan.reply }
    {
        &self.due
    }

    /// A copy of the session after an answer that is no refusal.
    ///
    /// # Errors
    /// Want of memory.
    pub fn session(&self, alloc: Global) -> Result<Session, OutOfMemory>
        ensures { IfOk result (λ session. session ≡ self.now.plan.session) }
    {
        copied(alloc, &self.session)
    }

    /// Which step is the next, where nothing comes before the steps.
    pub fn stage(&self) -> Stage
        ensures { result ≡ stage_of self.now.plan.steps }
    {
        if self.is_answered {
            return Stage::Spent;
        }
        match self.steps.first() {
            None => Stage::Answer,
            Some(small) => match small.get() {
                Small::Answer => Stage::Answer,
                _ => Stage::Step,
            },
        }
    }

    /// The first of the steps, if it is not the Answer that ends the plan.
    pub fn first(&self) -> Option<&Boxed<Small>>
        ensures some { (small : _) → result ≡ Some small
            → self.now.plan.steps ≡ small.now ∷ tail_of self.now.plan.steps }
        ensures more { (small : _) → result ≡ Some small → tail_of self.now.plan.steps ≢ [] }
        ensures none { result ≡ None → (self.now.plan.steps ≡ []) ⊎ (self.now.plan.steps ≡ Small.Answer ∷ []) }
    {
        if self.is_answered {
            return None;
        }
        self.steps.first()
    }

    /// Takes the first of the steps off, and gives it, if it is not the Answer that ends the plan. Takes no memory.
    pub fn drop_first(&mut self) -> Option<Boxed<Small>>
        ensures head { self.new.head ≡ self.old.head }
        ensures plan { self.new.plan ≡ dropped self.old.plan }
        ensures some { (small : _) → result ≡ Some small
            → self.old.plan.steps ≡ small ∷ tail_of self.old.plan.steps }
        ensures none { result ≡ None → (self.old.plan.steps ≡ []) ⊎ (self.old.plan.steps ≡ Small.Answer ∷ []) }
    {
        if self.is_answered {
            return None;
        }
        match self.steps.take_first() {
            Some(small) => Some(small),
            None => {
                self.is_answered = true;
                None
            }
        }
    }

    /// The next two steps are not played. Takes no memory.
    fn skip(&mut self)
        ensures head { self.new.head ≡ self.old.head }
        ensures plan { self.new.plan ≡ dropped (dropped self.old.plan) }
    {
        self.drop_first();
        self.drop_first();
    }

    /// The Answer alone is left, with this answer. Takes no memory.
    fn refuse(&mut self, answer: Answer)
        ensures head { self.new.head ≡ self.old.head }
        ensures plan { self.new.plan ≡ instead answer self.old.plan }
    {
        self.steps.clear();
        self.is_answered = false;
        self.due = Due::Says(answer);
    }

    /// What a step that was played makes of the steps. Takes no memory.
    pub fn turn(&mut self, turn: Turn)
        ensures head { self.new.head ≡ self.old.head }
        ensures plan { self.new.plan ≡ turned turn self.old.plan }
    {
        match turn {
            Turn::Goes => {}
            Turn::Skips => self.skip(),
            Turn::Instead(answer) => self.refuse(answer),
            Turn::Tells(answer) => self.due = Due::Says(answer),
        }
    }

    /// Sets what comes before the other steps. Takes no memory.
    pub fn set_head(&mut self, head: Head)
        ensures { self.new ≡ record self.old { head = head } }
    {
        self.head = head;
    }
}
