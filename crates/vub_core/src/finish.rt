ghost use Rattle.std.specs.Prelude.{◌≡◌, ◌<◌, ◌^◌, List, length, map, IfOk};
ghost use Rattle.vub_model.specs.DeviceCalls.{Call, device_call};
ghost use Rattle.vub_model.specs.RunRecords.{Shows};
ghost use Rattle.vub_core.specs.Machine.{world_of};
ghost use Rattle.vub_core.specs.Ready.{RequestsName};
ghost use Rattle.vub_core.specs.Whole.{IsWhole};

use crate::control::begin_next;
use crate::counting::{counts_of, stops_of};
use crate::logs::logs_of;
use crate::machine::Machine;
use crate::records::Records;
use crate::rest::at_rest;
use crate::spans::spans_of;
use std::alloc::Global;
use vub_base::{Listed, OutOfMemory};
use vub_model::{Label, Run, Setup};
use vub_proto::Service;

/// What happened, with these labels.
pub(crate) fn finish<V: Service>(
    alloc: Global,
    machine: Machine,
    service: &V,
    setup: &Setup,
    labels: Vec<Label>,
) -> Result<Run, OutOfMemory>
    requires whole { IsWhole machine }
    requires names { RequestsName setup.now machine }
    requires objects { length setup.now.objects < 2 ^ 32 }
    requires workers { length machine.workers.items < 2 ^ 32 }
    ensures { (made : List Call) → machine.calls.items ≡ map device_call made → IfOk result
        (Shows setup.now.objects labels.items made (world_of setup.now machine service.now)) }
{
    let mut machine = machine;
    let objects = setup.objects.as_slice();
    begin_next(alloc, &mut machine, setup)?;
    let rest = at_rest(&mut machine, service, setup);
    let stops = stops_of(alloc, &machine.workers)?;
    let counts = counts_of(alloc, &machine.store.host, objects)?;
    let written = spans_of(
        alloc,
        &machine.records.written,
        &machine.store.memory,
        objects,
    )?;
    let logs = logs_of(alloc, machine.store.memory.logs())?;
    let Machine {
        answers,
        calls,
        records,
        ..
    } = machine;
    let Records {
        takes,
        uses,
        harvests,
        ..
    } = records;
    Ok(Run {
        labels: Listed::from_vec(labels),
        answers: Listed::from_vec(answers),
        device: Listed::from_vec(calls),
        takes: Listed::from_vec(takes),
        uses: Listed::from_vec(uses),
        stops: Listed::from_vec(stops),
        counts: Listed::from_vec(counts),
        written: Listed::from_vec(written),
        logs: Listed::from_vec(logs),
        harvests: Listed::from_vec(harvests),
        rest,
    })
}
