//! What a request is answered.
ghost use Rattle.std.specs.Prelude.{◌≡◌, IfOk};
ghost use Rattle.vub_model.specs.Control.{is_refusal};
ghost use Rattle.vub_model.specs.Plans.{next_of};
ghost use Rattle.vub_plan.specs.Halves.{reply_of};
ghost use Rattle.vub_handler.specs.Acting.{PlainFrame};
ghost use Rattle.vub_handler.specs.Playing.{IsDueBy, IsDueFrom};

use std::alloc::Global;
use vub_base::{Bytes, OutOfMemory};
use vub_model::{RingOp, RingSaid};
use vub_plan::Due;
use vub_proto::Answer;
use vub_vring::Parts;

/// A copy of an answer.
fn copied_answer(alloc: Global, answer: &Answer) -> Result<Answer, OutOfMemory>
    ensures { IfOk result (λ copy. copy ≡ answer.now) }
{
    let copy = match answer {
        Answer::Ok => Answer::Ok,
        Answer::Number(n) => Answer::Number(*n),
        Answer::Content(bytes) => Answer::Content(Bytes::from_slice(alloc, bytes.as_slice())?),
        Answer::Object(object) => Answer::Object(*object),
        Answer::Base { index, num } => Answer::Base {
            index: *index,
            num: *num,
        },
        Answer::Failed(error) => Answer::Failed(*error),
        Answer::Listener(error) => Answer::Listener(*error),
    };
    Ok(copy)
}

/// Whether a request was refused.
pub(crate) fn is_refusal(answer: &Answer) -> bool
    ensures { result ≡ is_refusal answer.now }
{
    matches!(answer, Answer::Failed(_) | Answer::Listener(_))
}

/// The answer where a ring says no number.
fn no_base(queue: u32) -> Answer
    ensures { result ≡ Answer.Base queue 0 }
{
    Answer::Base {
        index: queue,
        num: 0,
    }
}

/// The number of the next entry of this queue.
#[tactic(auto, using(crate::proofs::PlayRows::base_told, crate::proofs::PlayRows::done_told, crate::proofs::PlayRows::waits_told))]
fn next_of<P: Parts>(alloc: Global, parts: &mut P, queue: u32) -> Result<Answer, OutOfMemory>
    ensures row { IsDueBy (next_of queue) result (P.state parts.old) (P.state parts.new) }
    ensures due { IfOk result (IsDueFrom (next_of queue)) }
    ensures frame { PlainFrame (P.state parts.old) (P.state parts.new) result }
{
    match parts.ring(alloc, queue, RingOp::GetBase) {
        Ok(RingSaid::Base(next)) => Ok(Answer::Base {
            index: queue,
            num: next as u32,
        }),
        Ok(RingSaid::Done) => Ok(no_base(queue)),
        Ok(RingSaid::Waits) => Ok(no_base(queue)),
        Err(_) => Err(OutOfMemory),
    }
}

/// What a request is answered that is due this.
#[tactic(auto, using(crate::proofs::PlayRows::says_told))]
pub(crate) fn due_answer<P: Parts>(
    alloc: Global,
    parts: &mut P,
    due: &Due,
) -> Result<Answer, OutOfMemory>
    ensures row { IsDueBy (reply_of due.now) result (P.state parts.old) (P.state parts.new) }
    ensures due { IfOk result (IsDueFrom (reply_of due.now)) }
    ensures frame { PlainFrame (P.state parts.old) (P.state parts.new) result }
{
    match due {
        Due::Says(answer) => copied_answer(alloc, answer),
        Due::NextOf(queue) => next_of(alloc, parts, *queue),
    }
}
