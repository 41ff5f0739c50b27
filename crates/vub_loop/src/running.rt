//! The looped calls of a worker, which may never return: the guest may publish without end.
ghost use Rattle.std.specs.Prelude.{◌≡◌, IfOk, IfErr, OnErr, true};
ghost use Rattle.vub_model.specs.declared.cause.StopCause.TheVariants.{Exit};
ghost use Rattle.vub_model.specs.declared.phase.Phase.TheVariants.{Idle, Stopped};
ghost use Rattle.vub_model.specs.Service.{meaning};
ghost use Rattle.vub_vring.specs.Calls.{telling};
ghost use Rattle.vub_vring.specs.PartsState.{IsUntouched};
ghost use Rattle.vub_loop.specs.Handler.{phase_of};
ghost use Rattle.vub_loop.specs.Looping.{TakesTurn, TakesTurns, stop_in, is_going, IsLoopError, ServesAll, ServesNone};
ghost use Rattle.vub_loop.specs.Phases.{has_queues, GoesOn, ServesTo};

use crate::handler::VringEpollHandler;
use crate::turned::Turned;
use std::alloc::Global;
use std::sync::Wait;
use vub_model::{Phase, StopCause, VringEpollError};
use vub_vring::Parts;

/// Why the worker has stopped, if it has.
fn stop_of(phase: &Phase) -> Option<StopCause>
    ensures { result ≡ stop_in phase.now }
{
    match phase {
        Phase::Stopped(cause) => Some(*cause),
        _ => None,
    }
}

/// Whether the worker has queues to serve.
fn has_queues(phase: &Phase) -> bool
    ensures { result ≡ has_queues phase.now }
{
    matches!(
        phase,
        Phase::Serving(_) | Phase::Taken(_, _) | Phase::Served(_, _, _)
    )
}

impl VringEpollHandler {
    /// Takes a turn.
    ///
    /// # Errors
    /// Want of memory leaves the worker and the parts as they were.
    fn go_on<P: Parts>(&mut self, alloc: Global, parts: &mut P) -> Result<Turned, VringEpollError>
        ensures turn { TakesTurn (meaning P.Service.reply_of P.Service.after) (telling P.Device.said P.Device.moved)
            self.old self.new (P.state parts.old) (P.state parts.new) }
        ensures leads { IfOk result (λ t. GoesOn (phase_of self.old) (phase_of self.new)) }
        ensures error { IfErr result (λ e. e ≡ VringEpollError.OutOfMemory) }
        ensures err { OnErr result (self.new ≡ self.old) }
    {
        self.turn(alloc, parts)
    }

    /// After a turn in which the worker had no step, waits until a member of its list is ready.
    fn wait_after<P: Parts>(&self, parts: &mut P, turned: &Turned)
        ensures { IsUntouched (P.state parts.old) (P.state parts.new) }
    {
        if let Turned::Pass = turned {
            parts.wait_ready(self.opened().list);
        }
    }

    /// Takes a turn, and where an idle worker has no step, waits until it may have one.
    ///
    /// # Errors
    /// Want of memory leaves the worker and the parts as they were.
    fn go_on_or_wait<P: Parts>(
        &mut self,
        alloc: Global,
        parts: &mut P,
    ) -> Result<(), VringEpollError>
        ensures turn { TakesTurn (meaning P.Service.reply_of P.Service.after) (telling P.Device.said P.Device.moved)
            self.old self.new (P.state parts.old) (P.state parts.new) }
        ensures error { IfErr result (λ e. e ≡ VringEpollError.OutOfMemory) }
    {
        let turned = self.go_on(alloc, parts)?;
        self.wait_after(parts, &turned);
        Ok(())
    }

    /// Takes turns until the worker stops, and waits where it is idle and no member of its list is ready. Parts of one
    /// party alone do not wait: there it asks again and again.
    ///
    /// # Errors
    /// The error that stopped the worker; or want of memory, after which the turns before it stand, and the worker may
    /// go on.
    pub fn run<P: Parts>(
        &mut self,
        rt: &impl Wait,
        alloc: Global,
        parts: &mut P,
    ) -> Result<(), VringEpollError>
        ensures turns { TakesTurns is_going (meaning P.Service.reply_of P.Service.after)
            (telling P.Device.said P.Device.moved) self.old self.new (P.state parts.old) (P.state parts.new) }
        ensures ok { IfOk result (λ done. phase_of self.new ≡ Stopped Exit) }
        ensures err { IfErr result (IsLoopError (phase_of self.new)) }
    {
        for _ in rt.forever() {
            match stop_of(self.phase()) {
                Some(StopCause::Exit) => return Ok(()),
                Some(StopCause::Fault(error)) => return Err(error),
                None => self.go_on_or_wait(alloc, parts)?,
            }
        }
        unreachable!()
    }

    /// Takes, serves or puts.
    ///
    /// # Errors
    /// Want of memory leaves the worker and the parts as they were.
    fn serve_on<P: Parts>(&mut self, alloc: Global, parts: &mut P) -> Result<(), VringEpollError>
        ensures turn { TakesTurn (meaning P.Service.reply_of P.Service.after) (telling P.Device.said P.Device.moved)
            self.old self.new (P.state parts.old) (P.state parts.new) }
        ensures leads { IfOk result (λ t. GoesOn (phase_of self.old) (phase_of self.new)) }
        ensures error { IfErr result (λ e. e ≡ VringEpollError.OutOfMemory) }
        ensures err { OnErr result (self.new ≡ self.old) }
    {
        self.go_on(alloc, parts)?;
        Ok(())
    }

    /// Takes, serves and puts until the worker has no queues to serve.
    ///
    /// # Errors
    /// The error that stopped the worker; or want of memory, after which the steps before it stand.
    fn serve_queues<P: Parts>(
        &mut self,
        rt: &impl Wait,
        alloc: Global,
        parts: &mut P,
    ) -> Result<(), VringEpollError>
        requires { has_queues (phase_of self.old) ≡ true }
        ensures turns { TakesTurns has_queues (meaning P.Service.reply_of P.Service.after)
            (telling P.Device.said P.Device.moved) self.old self.new (P.state parts.old) (P.state parts.new) }
        ensures ok { IfOk result (λ done. phase_of self.new ≡ Idle) }
        ensures err { IfErr result (IsLoopError (phase_of self.new)) }
        ensures leads { ServesTo (phase_of self.new) }
    {
        for _ in rt.forever() {
            if !has_queues(self.phase()) {
                return match stop_of(self.phase()) {
                    Some(StopCause::Fault(error)) => Err(error),
                    Some(StopCause::Exit) => Ok(()),
                    None => Ok(()),
                };
            }
            self.serve_on(alloc, parts)?;
        }
        unreachable!()
    }

    /// Serves the queues of a worker that has some: takes, serves and puts until its list of queues is empty, and the
    /// worker is idle. One that has none does nothing.
    ///
    /// # Errors
    /// `HandleEventBackendHandling` where the worker has stopped, with what it could not handle; or want of memory,
    /// after which the steps before it stand, and the worker may go on.
    pub fn handle_event<P: Parts>(
        &mut self,
        rt: &impl Wait,
        alloc: Global,
        parts: &mut P,
    ) -> Result<(), VringEpollError>
        ensures turns { TakesTurns has_queues (meaning P.Service.reply_of P.Service.after)
            (telling P.Device.said P.Device.moved) self.old self.new (P.state parts.old) (P.state parts.new) }
        ensures all { ServesAll self.old self.new result }
        ensures none { ServesNone self.old self.new (P.state parts.old) (P.state parts.new) result }
        ensures err { IfErr result (IsLoopError (phase_of self.new)) }
        ensures leads { GoesOn (phase_of self.old) (phase_of self.new) }
    {
        if !has_queues(self.phase()) {
            return Ok(());
        }
        self.serve_queues(rt, alloc, parts)
    }
}
