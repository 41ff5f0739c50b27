//! What a run hands back of the workers and of the events.
ghost use Rattle.std.specs.Prelude.{◌≡◌, ◌++◌, ◌<◌, ◌^◌, length, map, IfOk, OnOk};
ghost use Rattle.std.specs.Option.{option_to_list};
ghost use Rattle.vub_event.specs.HostTable.{HostTable};
ghost use Rattle.vub_model.specs.RunRecords.{stop_of, stops_from, count_of_object, counts_from};
ghost use Rattle.vub_model.specs.Shared.{count_at};
ghost use Rattle.vub_loop.specs.Handler.{phase_of};

use std::alloc::Global;
use vub_base::OutOfMemory;
use vub_event::MemHost;
use vub_loop::VringEpollHandler;
use vub_model::{Count, Object, Phase, Stop};

/// Appends a value, if there is one.
fn push_some<T: Drop>(list: &mut Vec<T>, value: Option<T>) -> Result<(), OutOfMemory>
    ensures { OnOk result (list.new.items ≡ list.old.items ++ option_to_list value) }
{
    match value {
        None => Ok(()),
        Some(value) => {
            list.push(value)?;
            Ok(())
        }
    }
}

/// The stop of this worker, if it has stopped.
fn stop_in(worker: u32, phase: &Phase) -> Option<Stop>
    ensures { option_to_list result ≡ stop_of worker phase.now }
{
    match phase {
        Phase::Stopped(cause) => Some(Stop {
            worker,
            cause: *cause,
        }),
        _ => None,
    }
}

/// The workers that have stopped, by number.
#[tactic(auto, using(crate::proofs::Counted::stops_next))]
pub(crate) fn stops_of(
    alloc: Global,
    workers: &[VringEpollHandler],
) -> Result<Vec<Stop>, OutOfMemory>
    requires { length workers.now < 2 ^ 32 }
    ensures { IfOk result (λ stops. stops.items ≡ stops_from 0 (map (λ w. phase_of w) workers.now)) }
{
    let mut stops = Vec::new(alloc);
    for number in 0..workers.len() as u32 {
        push_some(
            &mut stops,
            stop_in(number, workers[number as usize].phase()),
        )?;
    }
    Ok(stops)
}

/// The count of an event; 0 where it is not there.
fn count_of(host: &MemHost, object: u32) -> u64
    ensures { result ≡ count_at host.now.table object }
{
    match host.event(object) {
        None => 0,
        Some(event) => event.count,
    }
}

/// The count of this object of a set-up, if it is an event whose count is above 0.
fn count_in(host: &MemHost, number: u32, object: &Object) -> Option<Count>
    ensures { option_to_list result ≡ count_of_object host.now.table number object.now }
{
    match object {
        Object::Content(_) | Object::Log { .. } => None,
        Object::Event { .. } => {
            let count = count_of(host, number);
            if count > 0 {
                Some(Count {
                    object: number,
                    count,
                })
            } else {
                None
            }
        }
    }
}

/// The event objects of the set-up whose count is above 0, by number.
#[tactic(auto, using(crate::proofs::Counted::counts_next))]
pub(crate) fn counts_of(
    alloc: Global,
    host: &MemHost,
    objects: &[Object],
) -> Result<Vec<Count>, OutOfMemory>
    requires { length objects.now < 2 ^ 32 }
    ensures { IfOk result (λ counts. counts.items ≡ counts_from host.now.table 0 objects.now) }
{
    let mut counts = Vec::new(alloc);
    for number in 0..objects.len() as u32 {
        push_some(
            &mut counts,
            count_in(host, number, &objects[number as usize]),
        )?;
    }
    Ok(counts)
}
