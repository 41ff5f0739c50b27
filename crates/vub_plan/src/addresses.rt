//! The plan that gives a ring its addresses.
ghost use Rattle.std.specs.Prelude.{◌≡◌, not, IfOk};
ghost use Rattle.std.specs.Result.{is_ok};
ghost use Rattle.vub_queue.specs.Settings.{info_answer};
ghost use Rattle.vub_model.specs.Plans.{info_plan, is_empty};
ghost use Rattle.vub_plan.specs.Halves.{of_plan, IsWiredPlan};

use crate::half::Half;
use crate::session::{copied, done, refused};
use crate::steps::PlanSteps;
use crate::wired::Wired;
use std::alloc::Global;
use vub_base::OutOfMemory;
use vub_mem::{Mapping, MemError, va_to_gpa};
use vub_model::{Session, Small};
use vub_proto::{Cause, Request, VhostUserError};

/// Whether the three areas of a ring have their alignment (virtio 1.2, section 2.7).
fn are_aligned(desc: u64, avail: u64, used: u64) -> bool
    ensures { result ≡ is_ok (info_answer desc avail used) }
{
    desc % 16 == 0 && avail % 2 == 0 && used % 4 == 0
}

/// Whether there is a mapping.
#[tactic(auto, using(crate::proofs::Firsts::none_there, crate::proofs::Firsts::some_there))]
fn has_mapping(mappings: &[Mapping]) -> bool
    ensures { result ≡ not (is_empty mappings.now) }
{
    mappings.first().is_some()
}

/// The plan, by the guest addresses of the three areas.
fn info(
    alloc: Global,
    session: &Session,
    queue: u32,
    desc: Result<u64, MemError>,
    avail: Result<u64, MemError>,
    used: Result<u64, MemError>,
) -> Result<Half, OutOfMemory>
    ensures { IfOk result (λ half. half ≡ of_plan (info_plan queue session.now desc avail used)) }
{
    match (desc, avail, used) {
        (Ok(desc), Ok(avail), Ok(used)) => {
            if !are_aligned(desc, avail, used) {
                return refused(alloc, VhostUserError::InvalidParam, session);
            }
            let steps = PlanSteps::answer(alloc).after(Small::Info {
                queue,
                desc,
                avail,
                used,
            })?;
            Ok(done(steps, copied(alloc, session)?))
        }
        (Err(error), _, _) | (Ok(_), Err(error), _) | (Ok(_), Ok(_), Err(error)) => refused(
            alloc,
            VhostUserError::ReqHandlerError(Cause::Memory(error)),
            session,
        ),
    }
}

/// The plan of `set_vring_addr`, by the front end's addresses of the three areas.
#[tactic(auto, unfolding(vub_model::specs::Plans::plan_of))]
pub fn set_addresses(
    alloc: Global,
    wired: &Wired,
    session: &Session,
    queue: u32,
    flags: u32,
    desc: u64,
    used: u64,
    avail: u64,
    log: u64,
) -> Result<Half, OutOfMemory>
    ensures { IfOk result (IsWiredPlan wired.now session.now
        (Request.SetVringAddr queue flags desc used avail log)) }
{
    let mappings = session.mappings.as_slice();
    if !wired.has_queue(queue) || !has_mapping(mappings) {
        return refused(alloc, VhostUserError::InvalidParam, session);
    }
    let desc = va_to_gpa(mappings, desc);
    let avail = va_to_gpa(mappings, avail);
    let used = va_to_gpa(mappings, used);
    info(alloc, session, queue, desc, avail, used)
}
