//! Whether a party has a step.
ghost use Rattle.std.specs.List.{list_all};
ghost use Rattle.std.specs.Prelude.{◌≡◌, ◌↔◌, IsTrue};
ghost use Rattle.vub_model.specs.Control.{waits_now, StandsStill};
ghost use Rattle.vub_model.specs.RunOf.{IsAtRest};
ghost use Rattle.vub_vring.specs.Store.{shared_of};
ghost use Rattle.vub_loop.specs.Handler.{phase_of};
ghost use Rattle.vub_plan.specs.Halves.{plan_at};
ghost use Rattle.vub_open.specs.Hosts.{NeverFails};
ghost use Rattle.vub_core.specs.Machine.{control_of, begun_of, world_of};
ghost use Rattle.vub_core.specs.Rest.{has_report, rests_in};
ghost use Rattle.vub_core.specs.Whole.{IsWhole};

use crate::first::{First, first_of};
use crate::machine::Machine;
use vub_event::{Host, MemHost};
use vub_loop::VringEpollHandler;
use vub_model::{Phase, Setup, Small};
use vub_plan::Half;
use vub_proto::Service;
use vub_vring::Store;

/// Whether a member of this interest list is ready.
fn has_report(host: &mut MemHost, list: u32) -> bool
    requires { NeverFails host.old }
    ensures value { result ≡ has_report host.old.table list }
    ensures table { host.new.table ≡ host.old.table }
    ensures sound { NeverFails host.new }
{
    match host.ready(list) {
        Ok(Some(_)) => true,
        _ => false,
    }
}

/// Whether a worker has no step.
fn worker_rests(host: &mut MemHost, worker: &VringEpollHandler) -> bool
    requires { NeverFails host.old }
    ensures value { result ≡ rests_in host.old.table worker.now.opened.list (phase_of worker.now) }
    ensures table { host.new.table ≡ host.old.table }
    ensures sound { NeverFails host.new }
{
    match worker.phase() {
        Phase::Idle => !has_report(host, worker.opened().list),
        Phase::Stopped(_) => true,
        _ => false,
    }
}

/// Whether no worker has a step.
fn workers_rest(host: &mut MemHost, workers: &[VringEpollHandler]) -> bool
    requires { NeverFails host.old }
    ensures value { result ≡ list_all (λ w. rests_in host.old.table w.opened.list (phase_of w)) workers.now }
    ensures table { host.new.table ≡ host.old.table }
    ensures sound { NeverFails host.new }
{
    for worker in workers {
        if !worker_rests(host, worker) {
            return false;
        }
    }
    true
}

/// Whether this step has to wait, since an entry of its ring is in flight.
fn waits(store: &Store, small: &Small) -> bool
    ensures { result ≡ waits_now (shared_of store.now (tt {0})) small.now }
{
    match small {
        Small::Set { queue, op } => match store.rings.get(*queue as usize) {
            Some(ring) => ring.waits(*op),
            None => false,
        },
        Small::Info { queue, .. } => match store.rings.get(*queue as usize) {
            Some(ring) => ring.is_in_flight(),
            None => false,
        },
        _ => false,
    }
}

/// Whether control has no step: none is left of the request, or the first has to wait.
fn control_rests(store: &Store, half: &Half) -> bool
    ensures { IsTrue result ↔ StandsStill (shared_of store.now (tt {0}))
        (plan_at store.now.memory.guest.regions half.now).steps }
{
    match first_of(half) {
        First::Nothing => true,
        First::Step(small) => waits(store, small),
        _ => false,
    }
}

/// Whether no party has a step. The next request is begun, if it is due.
pub(crate) fn at_rest<V: Service>(machine: &mut Machine, service: &V, setup: &Setup) -> bool
    requires whole { IsWhole machine.old }
    requires begun { begun_of setup.now machine.old ≡ control_of setup.now machine.old }
    ensures rests { IsTrue result ↔ IsAtRest (world_of setup.now machine.old service.now) }
    ensures same { world_of setup.now machine.new service.now ≡ world_of setup.now machine.old service.now }
    ensures workers { machine.new.workers ≡ machine.old.workers }
    ensures answers { machine.new.answers ≡ machine.old.answers }
    ensures calls { machine.new.calls ≡ machine.old.calls }
{
    if machine.acted < setup.guest.len() {
        return false;
    }
    control_rests(&machine.store, &machine.half)
        && workers_rest(&mut machine.store.host, &machine.workers)
}
