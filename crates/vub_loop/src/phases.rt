ghost use Rattle.std.specs.Prelude.{◌≡◌, ◌≤◌, ℕ, false, drop, length, OnOk};
ghost use Rattle.vub_base.specs.Causes.{Rose};
ghost use Rattle.vub_model.specs.Work.{after_heard, serving, stopped, queues_numbered, why_of};
ghost use Rattle.vub_vring.specs.Calls.{IsCounted};
ghost use Rattle.vub_loop.specs.Faults.{IsDeviceStop, IsHostStop};
ghost use Rattle.vub_loop.specs.Phases.{is_rung, ServesTo};
ghost use Rattle.vub_loop.specs.Sound.{IsSound};

use std::alloc::Global;
use vub_base::OutOfMemory;
use vub_model::{Phase, Queues, StopCause, VringEpollError, Why};
use vub_proto::DeviceSaid;
use vub_queue::PutFault;
use vub_vring::Pending;

/// The stop of a worker that could not handle an event.
pub(crate) fn stopped_by(why: Why) -> Phase
    ensures same { result ≡ stopped why }
    ensures leads { ServesTo result }
    ensures unrung { is_rung result ≡ false }
{
    Phase::Stopped(StopCause::Fault(VringEpollError::HandleEventBackendHandling(why)))
}

/// Why a use was refused.
pub(crate) fn refusal(fault: PutFault) -> Why
    ensures { result ≡ why_of fault }
{
    match fault {
        PutFault::RoomOutside => Why::RoomOutside,
        PutFault::RingOutside => Why::RingOutside,
    }
}

/// The phase after the device has handled a listener's event: idle, or stopped where it refused.
pub(crate) fn handled(said: &DeviceSaid) -> Phase
    ensures phase { result ≡ after_heard said.now }
    ensures sound { IsSound result }
    ensures unrung { is_rung result ≡ false }
    ensures host { ¬ IsHostStop result }
    ensures device { (before now : ℕ) → IsCounted before now said.now → IsDeviceStop result → Rose before now }
{
    match said {
        DeviceSaid::Refused(number) => stopped_by(Why::Device(*number)),
        _ => Phase::Idle,
    }
}

/// Serving these queues, or idle where there is none.
pub(crate) fn serving_of(queues: Queues) -> Phase
    ensures same { result ≡ serving queues }
    ensures leads { ServesTo result }
    ensures unrung { is_rung result ≡ false }
{
    if queues.is_empty() {
        Phase::Idle
    } else {
        Phase::Serving(queues)
    }
}

/// Serving these queues but for the first.
pub(crate) fn serving_rest(queues: Queues) -> Phase
    ensures same { result ≡ serving (drop 1 queues) }
    ensures leads { ServesTo result }
    ensures unrung { is_rung result ≡ false }
{
    let mut rest = queues;
    rest.drop_first();
    serving_of(rest)
}

/// Makes room for a list of these queues.
///
/// # Errors
/// Want of memory leaves the room as it was.
pub(crate) fn make_room(
    alloc: Global,
    room: &mut Vec<u32>,
    queues: &[u32],
) -> Result<(), OutOfMemory>
    ensures { OnOk result (length queues.now ≤ length room.new.items) }
{
    if room.len() < queues.len() {
        *room = Vec::from_slice(alloc, queues)?;
    }
    Ok(())
}

/// The queues with these event numbers, in order, in this room, which each of the queues has. Takes no memory.
pub(crate) fn queues_at(queues: &[u32], numbers: Pending, room: Vec<u32>) -> Queues
    requires { length queues.now ≤ length room.items }
    ensures { result ≡ queues_numbered queues.now numbers }
{
    let mut rest = numbers;
    let mut due = room;
    let mut kept = 0;
    while let Some(number) = rest.take_first() {
        let number = number as usize;
        if number < queues.len() {
            due[kept] = queues[number];
            kept += 1;
        }
    }
    due.truncate(kept);
    Queues::from_vec(due)
}
