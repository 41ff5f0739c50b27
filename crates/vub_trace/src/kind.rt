//! What kind of step a turn was.
ghost use Rattle.std.specs.Prelude.{◌≡◌, option_copied, position};
ghost use Rattle.vub_model.specs.Wiring.{has_bit};
ghost use Rattle.vub_text.specs.Lines.{is_played};
ghost use Rattle.vub_trace.specs.Kinds.{following, follows_in, follows_of, is_stopped, is_of_worker, is_take_of, kind_of_take, kind_of_put, kind_of_small, kind_of};

use crate::past::Past;
use vub_model::{Label, Run, Small, Stop, Take};
use vub_plan::has_bit;

/// The kind of a step: which of the run's lists tells of it.
#[derive(Clone, Copy, Debug, PartialEq, Eq)]
pub enum Kind {
    /// The party had no step.
    Pass,
    /// The guest did its next action.
    Act,
    /// Control changed something.
    Change,
    /// Control called the device.
    Call,
    /// Control answered a request.
    Answer,
    /// A worker polled a member of its interest list.
    Poll,
    /// A worker handled what it had polled.
    Event,
    /// A worker took its pending queues.
    Sweep,
    /// A worker let the device handle an event.
    Hear,
    /// A worker took an entry.
    Take,
    /// A worker looked for an entry, and took none.
    Look,
    /// A worker asked the service.
    Serve,
    /// A worker used its entry.
    Use,
    /// A worker could not use its entry, and stopped.
    Miss,
}

/// What a party does in its next step.
#[derive(Clone, Copy, Debug, PartialEq, Eq)]
pub enum Follows {
    /// It has no further step.
    Nothing,
    /// It asks the service.
    Serve,
    /// Something else.
    Other,
}

fn is_played(label: &Label) -> bool
    ensures { result ≡ is_played label.now }
{
    !matches!(label, Label::Pass)
}

fn following(label: &Label) -> Follows
    ensures { result ≡ following label.now }
{
    match label {
        Label::Serve => Follows::Serve,
        _ => Follows::Other,
    }
}

/// What this party does in a turn with this label, if it is the turn's and does something.
fn follows_in(party: u32, turn: u32, label: &Label) -> Option<Follows>
    ensures { result ≡ follows_in party turn label.now }
{
    if turn == party && is_played(label) {
        Some(following(label))
    } else {
        None
    }
}

/// What this party does next in these turns.
pub fn follows_of(party: u32, turns: &[u32], labels: &[Label]) -> Follows
    ensures { result ≡ follows_of party turns.now labels.now }
{
    for at in 0..turns.len() {
        if at >= labels.len() {
            return Follows::Nothing;
        }
        if let Some(follows) = follows_in(party, turns[at], &labels[at]) {
            return follows;
        }
    }
    Follows::Nothing
}

/// Whether the worker has stopped in the end.
fn is_stopped(stops: &[Stop], worker: u32) -> bool
    ensures { result ≡ is_stopped stops.now worker }
{
    stops.iter().any(|stop| stop.worker == worker)
}

/// The first worker that has this queue.
fn worker_of(masks: &[u64], queue: u32) -> Option<usize>
    ensures { result ≡ position (λ mask. has_bit mask queue) masks.now }
{
    masks.iter().position(|mask| has_bit(*mask, queue))
}

/// Whether the queue is served by this worker, the first whose mask has its bit.
fn is_of_worker(masks: &[u64], queue: u32, worker: u32) -> bool
    ensures { result ≡ is_of_worker masks.now queue worker }
{
    match worker_of(masks, queue) {
        None => false,
        Some(found) => found == worker as usize,
    }
}

fn is_take_of(masks: &[u64], worker: u32, take: Option<&Take>) -> bool
    ensures { result ≡ is_take_of masks.now worker (option_copied take.entry) }
{
    match take {
        None => false,
        Some(take) => is_of_worker(masks, take.queue, worker),
    }
}

fn kind_of_take(masks: &[u64], run: &Run, past: Past, worker: u32, next: Follows) -> Kind
    ensures { result ≡ kind_of_take masks.now run.now past worker next }
{
    match next {
        Follows::Serve => Kind::Take,
        Follows::Other => Kind::Look,
        Follows::Nothing => {
            if is_take_of(masks, worker, run.takes.as_slice().get(past.taken))
                && !is_stopped(run.stops.as_slice(), worker)
            {
                Kind::Take
            } else {
                Kind::Look
            }
        }
    }
}

fn kind_of_put(run: &Run, worker: u32, next: Follows) -> Kind
    ensures { result ≡ kind_of_put run.now worker next }
{
    match next {
        Follows::Nothing if is_stopped(run.stops.as_slice(), worker) => Kind::Miss,
        _ => Kind::Use,
    }
}

fn kind_of_small(small: &Small) -> Kind
    ensures { result ≡ kind_of_small small.now }
{
    match small {
        Small::Device(_) => Kind::Call,
        Small::Answer => Kind::Answer,
        _ => Kind::Change,
    }
}

/// The kind of a step with this label, of the worker with this number if it is a worker's, where this follows.
pub fn kind_of(
    masks: &[u64],
    run: &Run,
    past: Past,
    worker: u32,
    label: &Label,
    next: Follows,
) -> Kind
    ensures { result ≡ kind_of masks.now run.now past worker label.now next }
{
    match label {
        Label::Pass => Kind::Pass,
        Label::Guest => Kind::Act,
        Label::Control(small) => kind_of_small(small.get()),
        Label::Poll { .. } => Kind::Poll,
        Label::Event => Kind::Event,
        Label::Sweep => Kind::Sweep,
        Label::Hear => Kind::Hear,
        Label::Take => kind_of_take(masks, run, past, worker, next),
        Label::Serve => Kind::Serve,
        Label::Put => kind_of_put(run, worker, next),
    }
}
