ghost use Rattle.std.specs.Prelude.{◌≡◌};
ghost use Rattle.vub_handler.specs.Player.{progress_of};

use sqlite_items::Boxed;
use vub_model::Small;
use vub_proto::Answer;

/// A small step as it was played.
#[derive(Debug, Drop)]
pub struct Played {
    /// The step, in the box that it had in its plan.
    pub small: Boxed<Small>,
    /// Whether the device refused its call.
    pub refused: bool,
    /// What the request is answered, where the step is its Answer.
    pub answer: Option<Answer>,
}

/// How far a request came by one step.
#[derive(Debug, Drop)]
pub enum Progress {
    /// A step was played, and more are left.
    Going,
    /// No step was played, since an entry in flight lets the next one wait.
    Waits,
    /// The request is answered.
    Done(Answer),
}

/// This step was played.
pub(crate) fn as_played(small: Boxed<Small>, refused: bool, answer: Option<Answer>) -> Played
    ensures { result ≡ record { small = small; refused = refused; answer = answer } }
{
    Played {
        small,
        refused,
        answer,
    }
}

/// How far a request came by this step.
pub(crate) fn came_to(played: Played) -> Progress
    ensures { result ≡ progress_of played.answer }
{
    let Played { answer, .. } = played;
    match answer {
        None => Progress::Going,
        Some(answer) => Progress::Done(answer),
    }
}
