ghost use Rattle.std.specs.Prelude.{◌≡◌, ℕ, false, IfOk, IfErr, None};
ghost use Rattle.std.specs.Option.{ForSome};
ghost use Rattle.vub_model.specs.Service.{meaning};
ghost use Rattle.vub_model.specs.Wiring.{Wiring};
ghost use Rattle.vub_model.specs.Work.{after_event};
ghost use Rattle.vub_vring.specs.Calls.{telling};
ghost use Rattle.vub_vring.specs.PartsState.{IsUntouched, Tells};
ghost use Rattle.vub_vring.specs.Worker.{exit_in, KeepsOpening, LeavesMade};
ghost use Rattle.vub_loop.specs.Faults.{read_error};
ghost use Rattle.vub_loop.specs.Finished.{finished_by, finished_in};
ghost use Rattle.vub_loop.specs.Handler.{phase_of, IsHandler, IsNew, IsOpened, new_handler};
ghost use Rattle.vub_loop.specs.Listening.{handle_of};
ghost use Rattle.vub_loop.specs.Hearing.{HandledBy, HearsDevice, TurnsDevice};
ghost use Rattle.vub_loop.specs.Phases.{is_polled, is_rung, is_heard, is_serving, is_taken, is_served, GoesOn, MadeIn, PolledIn, ServedIn, TurnedIn};
ghost use Rattle.vub_loop.specs.Polling.{PollingIn};
ghost use Rattle.vub_loop.specs.Sound.{IsSound};
ghost use Rattle.vub_loop.specs.Stepping.{OnPhases, StepsBy, PollsBy, PollingBy, HearsBy, HearingBy, TurnsBy, PollsLeastBy, PollingLeastBy, TurnsLeastBy, ReadsBy, UsesNone, StepFrame, SureFrame, HearFrame, TurnFrame, ReadFrame};

use crate::finished::Finished;
use crate::listening::EpollHandle;
use crate::mask::queues_of_worker;
use crate::phases::{handled, make_room, queues_at, refusal, serving_of, serving_rest, stopped_by};
use crate::polling::Polling;
use crate::reading::{heard, kicked, rung};
use crate::said::member_of;
use crate::standing::Standing;
use crate::turned::Turned;
use std::alloc::Global;
use std::marker::Model;
use std::mem;
use vub_base::{Listed, OutOfMemory};
use vub_model::{Constants, Entry, Opened, Phase, Play, StopCause, VringEpollError, Why};
use vub_proto::{DeviceOp, DeviceSaid};
use vub_vring::{
    HostOp, Parts, PartsError, PendOp, PendSaid, PutSaid, TableRing, TableRingSaid, open_worker,
};

/// A worker (`VringEpollHandler` of the Rust crate `vhost-user-backend`): the queues of its mask, and where it stands.
///
/// Each step makes one row of the machine, and answers whether it was made: false exactly where the worker may not make
/// it, and then nothing changes. Where the host fails, a worker that polls or reads a counter stops with the error of
/// that call, and where the device refuses an event, the worker stops with the device's number; such a step was made.
/// The only error of a step is want of memory, which leaves the worker and the parts as they were.
#[derive(Debug, Drop)]
pub struct VringEpollHandler {
    opened: Opened,
    /// The numbers of its queues, in order: the place of a queue is its event number.
    queues: Listed<u32>,
    /// The number of all queues, which is the token of the bell and of the exit object.
    count: usize,
    standing: Standing,
    /// A worker that is to sweep has room for a list of its queues, so that the sweep takes no memory.
    room: Vec<u32>,
    /// What the last step used.
    finished: Option<Finished>,
}

impl Model for VringEpollHandler {
    ghost use Rattle.std.specs.Prelude.{◌≡◌, ◌≤◌, true, length};
    ghost use Rattle.vub_loop.specs.Phases.{is_rung};
    ghost use Rattle.vub_loop.specs.Worker.{Worker};

    ghost Value = { Worker };

    ghost view = { λ h. record {
      opened = h.opened;
      queues = h.queues;
      count = h.count;
      phase = h.standing;
      finished = h.finished;
    } };

    ghost invariant = { λ h. is_rung h.standing ≡ true → length h.queues ≤ length h.room.items };
}

impl VringEpollHandler {
    /// How the worker was opened: its number, its interest list, its bell and its exit object.
    pub fn opened(&self) -> Opened
        ensures { result ≡ self.now.opened }
    {
        self.opened
    }

    /// Where the worker stands. An entry in hand has the room of its segments, and the reply to it fits there.
    pub fn phase(&self) -> &Phase
        ensures same { result.now ≡ phase_of self.now }
        ensures fits { IsSound (phase_of self.now) }
    {
        self.standing.phase()
    }

    /// The entry and the reply that the last step used, if it used one. They are moved out.
    pub fn take_finished(&mut self) -> Option<Finished>
        ensures was { result ≡ self.old.finished }
        ensures left { self.new ≡ record self.old { finished = None } }
    {
        mem::replace(&mut self.finished, None)
    }

    /// The worker stands in this phase, which is no sweep, and used nothing.
    fn stand(&mut self, phase: Phase)
        requires sound { IsSound phase }
        requires unrung { is_rung phase ≡ false }
        ensures { self.new ≡ record self.old { phase = phase; finished = None } }
    {
        self.standing = Standing::new(phase);
        self.finished = None;
    }

    /// Polls an idle worker's interest list.
    fn poll<P: Parts>(&mut self, alloc: Global, parts: &mut P) -> Result<Polling, VringEpollError>
        ensures row { PollingBy (meaning P.Service.reply_of P.Service.after) result
            self.old self.new (P.state parts.old) (P.state parts.new) }
        ensures least { PollingLeastBy result self.old (P.state parts.old) (P.state parts.new) }
        ensures phase { OnPhases PollingIn result self.old self.new }
        ensures finished { UsesNone result self.new }
        ensures frame { SureFrame self.old self.new (P.state parts.old) (P.state parts.new) result }
    {
        match self.standing.phase() {
            Phase::Idle => {}
            _ => {
                self.finished = None;
                return Ok(Polling::Nothing);
            }
        }
        match parts.host(alloc, HostOp::Ready(self.opened.list)) {
            Ok(said) => match member_of(said) {
                Some(ready) => {
                    self.stand(Phase::Polled {
                        object: ready.object,
                        token: ready.token,
                    });
                    Ok(Polling::Member(ready.object))
                }
                None => {
                    self.finished = None;
                    Ok(Polling::Nothing)
                }
            },
            Err(PartsError::Fault) => {
                self.stand(Phase::Stopped(StopCause::Fault(VringEpollError::EpollWait)));
                Ok(Polling::Failed)
            }
            Err(PartsError::OutOfMemory) => Err(VringEpollError::OutOfMemory),
        }
    }

    /// Poll: an idle worker picks a ready member of its interest list. Takes no memory, and is never refused.
    pub fn poll_step<P: Parts>(
        &mut self,
        alloc: Global,
        parts: &mut P,
    ) -> Result<bool, VringEpollError>
        ensures row { PollsBy (meaning P.Service.reply_of P.Service.after) result
            self.old self.new (P.state parts.old) (P.state parts.new) }
        ensures least { PollsLeastBy result self.old self.new (P.state parts.old) (P.state parts.new) }
        ensures phase { OnPhases PolledIn result self.old self.new }
        ensures finished { UsesNone result self.new }
        ensures frame { SureFrame self.old self.new (P.state parts.old) (P.state parts.new) result }
    {
        match self.poll(alloc, parts)? {
            Polling::Nothing => Ok(false),
            Polling::Member(_) => Ok(true),
            Polling::Failed => Ok(true),
        }
    }

    /// The phase after the counter of this object was read, by the token under which it was polled.
    fn read<P: Parts>(
        &self,
        alloc: Global,
        parts: &mut P,
        object: u32,
        token: u64,
    ) -> Result<Phase, VringEpollError>
        ensures row { (g : Wiring) (worker : ℕ) → IsHandler g worker self.now
            → ReadsBy (P.state parts.old) (P.state parts.new) result
            (λ shared. after_event g worker shared object token) (read_error g worker token) }
        ensures frame { ReadFrame (P.state parts.old) (P.state parts.new) result }
    {
        if token < self.queues.len() as u64 {
            let queue = self.queues.as_slice()[token as usize];
            kicked(alloc, parts, queue, object)
        } else if token == self.count as u64 {
            rung(alloc, parts, self.opened)
        } else {
            heard(alloc, parts, self.opened.list, object, token)
        }
    }

    /// Event: the counter of the event that was polled is read, by its token. A kick is read to zero, and its queue is
    /// served where it is ready and enabled; a bell above zero is read, and the pending queues are due, and at zero a
    /// worker with an exit object stops; a listener is read, and heard. Where the event is no kick or listener of that
    /// token any more, nothing is read.
    ///
    /// # Errors
    /// Want of memory leaves the worker and the parts as they were.
    pub fn event_step<P: Parts>(
        &mut self,
        alloc: Global,
        parts: &mut P,
    ) -> Result<bool, VringEpollError>
        ensures row { StepsBy (meaning P.Service.reply_of P.Service.after) Play.Event result
            self.old self.new (P.state parts.old) (P.state parts.new) }
        ensures phase { OnPhases (MadeIn is_polled) result self.old self.new }
        ensures finished { UsesNone result self.new }
        ensures frame { StepFrame self.old self.new (P.state parts.old) (P.state parts.new) result }
    {
        match self.standing.phase() {
            Phase::Polled { object, token } => {
                let (object, token) = (*object, *token);
                if make_room(alloc, &mut self.room, self.queues.as_slice()).is_err() {
                    return Err(VringEpollError::OutOfMemory);
                }
                let phase = self.read(alloc, parts, object, token)?;
                self.standing = Standing::new(phase);
                self.finished = None;
                Ok(true)
            }
            _ => {
                self.finished = None;
                Ok(false)
            }
        }
    }

    /// Sweep: all pending numbers are taken, and their queues are served, in order. Takes no memory, and is never
    /// refused.
    pub fn sweep_step<P: Parts>(
        &mut self,
        alloc: Global,
        parts: &mut P,
    ) -> Result<bool, VringEpollError>
        ensures row { StepsBy (meaning P.Service.reply_of P.Service.after) Play.Sweep result
            self.old self.new (P.state parts.old) (P.state parts.new) }
        ensures phase { OnPhases (MadeIn is_rung) result self.old self.new }
        ensures finished { UsesNone result self.new }
        ensures frame { SureFrame self.old self.new (P.state parts.old) (P.state parts.new) result }
    {
        match self.standing.phase() {
            Phase::Sweep => {}
            _ => {
                self.finished = None;
                return Ok(false);
            }
        }
        match parts.pend(alloc, self.opened.worker, PendOp::TakeAll) {
            Ok(PendSaid::All(numbers)) => {
                let room = mem::replace(&mut self.room, Vec::new(alloc));
                let queues = queues_at(self.queues.as_slice(), numbers, room);
                self.standing = Standing::new(serving_of(queues));
                self.finished = None;
                Ok(true)
            }
            Ok(PendSaid::Done) => {
                self.stand(Phase::Idle);
                Ok(true)
            }
            Err(_) => Err(VringEpollError::OutOfMemory),
        }
    }

    /// Lets the device handle the event of this token, and answers the outcome.
    fn hear<P: Parts>(
        &mut self,
        alloc: Global,
        parts: &mut P,
        token: u64,
    ) -> Result<DeviceSaid, VringEpollError>
        requires { phase_of self.old ≡ Phase.Heard token }
        ensures row { HearingBy (meaning P.Service.reply_of P.Service.after) result
            self.old self.new (P.state parts.old) (P.state parts.new) }
        ensures device { IfOk result (λ said. HandledBy (telling P.Device.said P.Device.moved) said
            self.old self.new (P.state parts.old) (P.state parts.new)) }
        ensures finished { UsesNone result self.new }
        ensures frame { HearFrame self.old self.new (P.state parts.old) (P.state parts.new) result }
    {
        let op = DeviceOp::HandleEvent {
            token,
            worker: self.opened.worker,
        };
        match parts.device(alloc, op) {
            Ok(said) => {
                self.stand(handled(&said));
                Ok(said)
            }
            Err(_) => Err(VringEpollError::OutOfMemory),
        }
    }

    /// Hear: the device handles the event of the listener that was heard; where it refuses that, the worker stops.
    /// Takes no memory, and has no error.
    pub fn hear_step<P: Parts>(
        &mut self,
        alloc: Global,
        parts: &mut P,
    ) -> Result<bool, VringEpollError>
        ensures row { HearsBy (meaning P.Service.reply_of P.Service.after) result
            self.old self.new (P.state parts.old) (P.state parts.new) }
        ensures phase { OnPhases (MadeIn is_heard) result self.old self.new }
        ensures device { IfOk result (λ made. HearsDevice (telling P.Device.said P.Device.moved) made
            self.old self.new (P.state parts.old) (P.state parts.new)) }
        ensures finished { UsesNone result self.new }
        ensures frame { HearFrame self.old self.new (P.state parts.old) (P.state parts.new) result }
    {
        match self.standing.phase() {
            Phase::Heard { token } => {
                let token = *token;
                self.hear(alloc, parts, token)?;
                Ok(true)
            }
            _ => {
                self.finished = None;
                Ok(false)
            }
        }
    }

    /// Take: the next entry of the first queue of the list is taken. Where the queue gives none, it leaves the list;
    /// where its ring is damaged, the worker stops.
    ///
    /// # Errors
    /// Want of memory leaves the worker and the parts as they were.
    pub fn take_step<P: Parts>(
        &mut self,
        alloc: Global,
        parts: &mut P,
    ) -> Result<bool, VringEpollError>
        ensures row { StepsBy (meaning P.Service.reply_of P.Service.after) Play.Take result
            self.old self.new (P.state parts.old) (P.state parts.new) }
        ensures phase { OnPhases (MadeIn is_serving) result self.old self.new }
        ensures leads { OnPhases ServedIn result self.old self.new }
        ensures finished { UsesNone result self.new }
        ensures frame { StepFrame self.old self.new (P.state parts.old) (P.state parts.new) result }
    {
        match self.standing.take() {
            Phase::Serving(queues) => match queues.first() {
                Some(queue) => match parts.ring_table(alloc, queue, TableRing::Take) {
                    Ok(
                        TableRingSaid::Taken {
                            epoch,
                            number,
                            chain,
                        },
                    ) => {
                        let entry = Entry {
                            queue,
                            epoch,
                            number,
                            chain,
                        };
                        self.stand(Phase::Taken(entry, queues));
                        Ok(true)
                    }
                    // the last three answer another call: parts that tell nothing say by them that nothing was taken
                    Ok(
                        TableRingSaid::Nothing
                        | TableRingSaid::Done
                        | TableRingSaid::Waits
                        | TableRingSaid::Outside,
                    ) => {
                        self.stand(serving_rest(queues));
                        Ok(true)
                    }
                    Ok(TableRingSaid::Damaged(damage)) => {
                        self.stand(stopped_by(Why::Damage(damage)));
                        Ok(true)
                    }
                    Err(_) => {
                        self.standing = Standing::new(Phase::Serving(queues));
                        Err(VringEpollError::OutOfMemory)
                    }
                },
                None => {
                    self.stand(Phase::Idle);
                    Ok(true)
                }
            },
            phase => {
                self.standing = Standing::new(phase);
                self.finished = None;
                Ok(false)
            }
        }
    }

    /// Serve: the service is asked for the reply to the entry in hand.
    ///
    /// # Errors
    /// Want of memory leaves the worker and the parts as they were.
    pub fn serve_step<P: Parts>(
        &mut self,
        alloc: Global,
        parts: &mut P,
    ) -> Result<bool, VringEpollError>
        ensures row { StepsBy (meaning P.Service.reply_of P.Service.after) Play.Serve result
            self.old self.new (P.state parts.old) (P.state parts.new) }
        ensures phase { OnPhases (MadeIn is_taken) result self.old self.new }
        ensures leads { OnPhases ServedIn result self.old self.new }
        ensures finished { UsesNone result self.new }
        ensures frame { StepFrame self.old self.new (P.state parts.old) (P.state parts.new) result }
    {
        match self.standing.take() {
            Phase::Taken(entry, queues) => match parts.service(alloc, &entry) {
                Ok(reply) => {
                    self.stand(Phase::Served(entry, reply, queues));
                    Ok(true)
                }
                Err(_) => {
                    self.standing = Standing::new(Phase::Taken(entry, queues));
                    Err(VringEpollError::OutOfMemory)
                }
            },
            phase => {
                self.standing = Standing::new(phase);
                self.finished = None;
                Ok(false)
            }
        }
    }

    /// Put: the entry in hand is used with the service's reply, and the driver is told where it wants that. Where a
    /// byte of the use is outside guest memory, the entry is held and the worker stops.
    ///
    /// # Errors
    /// Want of memory leaves the worker and the parts as they were.
    pub fn put_step<P: Parts>(
        &mut self,
        alloc: Global,
        parts: &mut P,
    ) -> Result<bool, VringEpollError>
        ensures row { StepsBy (meaning P.Service.reply_of P.Service.after) Play.Put result
            self.old self.new (P.state parts.old) (P.state parts.new) }
        ensures phase { OnPhases (MadeIn is_served) result self.old self.new }
        ensures leads { OnPhases ServedIn result self.old self.new }
        ensures finished { OnPhases (λ made before now. self.new.finished ≡ finished_by Play.Put before now)
            result self.old self.new }
        ensures frame { StepFrame self.old self.new (P.state parts.old) (P.state parts.new) result }
    {
        match self.standing.take() {
            Phase::Served(entry, reply, queues) => {
                match parts.put(alloc, &entry, reply.as_slice()) {
                    Ok(PutSaid::Done) => {
                        self.stand(serving_of(queues));
                        self.finished = Some(Finished { entry, reply });
                        Ok(true)
                    }
                    Ok(PutSaid::Held(fault)) => {
                        self.stand(stopped_by(refusal(fault)));
                        Ok(true)
                    }
                    Err(_) => {
                        self.standing = Standing::new(Phase::Served(entry, reply, queues));
                        Err(VringEpollError::OutOfMemory)
                    }
                }
            }
            phase => {
                self.standing = Standing::new(phase);
                self.finished = None;
                Ok(false)
            }
        }
    }

    /// Makes the step that the worker may make, if it has one, and tells which: `Pass` exactly where it has none, and
    /// `Failed` only where the host failed at a poll.
    ///
    /// # Errors
    /// Want of memory leaves the worker and the parts as they were.
    pub fn turn<P: Parts>(
        &mut self,
        alloc: Global,
        parts: &mut P,
    ) -> Result<Turned, VringEpollError>
        ensures row { TurnsBy (meaning P.Service.reply_of P.Service.after) result
            self.old self.new (P.state parts.old) (P.state parts.new) }
        ensures least { TurnsLeastBy result self.old (P.state parts.old) (P.state parts.new) }
        ensures phase { OnPhases TurnedIn result self.old self.new }
        ensures leads { OnPhases (λ t before now. GoesOn before now) result self.old self.new }
        ensures finished { OnPhases (λ t before now. self.new.finished ≡ finished_in t before now)
            result self.old self.new }
        ensures device { TurnsDevice (telling P.Device.said P.Device.moved) self.old
            (P.state parts.old) (P.state parts.new) result }
        ensures frame { TurnFrame self.old self.new (P.state parts.old) (P.state parts.new) result }
    {
        match self.standing.phase() {
            Phase::Idle => match self.poll(alloc, parts)? {
                Polling::Nothing => Ok(Turned::Pass),
                Polling::Member(object) => Ok(Turned::Played(Play::Poll { object })),
                Polling::Failed => Ok(Turned::Failed),
            },
            Phase::Polled { .. } => {
                self.event_step(alloc, parts)?;
                Ok(Turned::Played(Play::Event))
            }
            Phase::Sweep => {
                self.sweep_step(alloc, parts)?;
                Ok(Turned::Played(Play::Sweep))
            }
            Phase::Heard { token } => {
                let token = *token;
                let said = self.hear(alloc, parts, token)?;
                Ok(Turned::Played(Play::Hear(said)))
            }
            Phase::Serving(_) => {
                self.take_step(alloc, parts)?;
                Ok(Turned::Played(Play::Take))
            }
            Phase::Taken(_, _) => {
                self.serve_step(alloc, parts)?;
                Ok(Turned::Played(Play::Serve))
            }
            Phase::Served(_, _, _) => {
                self.put_step(alloc, parts)?;
                Ok(Turned::Played(Play::Put))
            }
            Phase::Stopped(_) => {
                self.finished = None;
                Ok(Turned::Pass)
            }
        }
    }

    /// What is needed to give this worker listeners and to end it.
    pub fn epoll_handle(&self) -> EpollHandle
        ensures { result ≡ handle_of self.now }
    {
        EpollHandle {
            worker: self.opened.worker,
            list: self.opened.list,
            exit: self.opened.exit,
            queues: self.count,
        }
    }

    /// A worker that was opened, before its first step, with its queues of so many.
    fn with_queues(
        alloc: Global,
        opened: Opened,
        queues: Listed<u32>,
        count: usize,
    ) -> VringEpollHandler
        ensures { result ≡ record {
          opened = opened;
          queues = queues;
          count = count;
          phase = Phase.Idle;
          finished = None;
        } }
    {
        VringEpollHandler {
            opened,
            queues,
            count,
            standing: Standing::new(Phase::Idle),
            room: Vec::new(alloc),
            finished: None,
        }
    }

    /// A worker that was opened, before its first step, by what the device never changes.
    ///
    /// # Errors
    /// Want of memory.
    pub fn from_constants(
        alloc: Global,
        constants: &Constants,
        opened: Opened,
    ) -> Result<VringEpollHandler, OutOfMemory>
        ensures { IfOk result (λ h. h ≡ new_handler constants.now opened) }
    {
        let queues = queues_of_worker(alloc, constants, opened.worker)?;
        Ok(VringEpollHandler::with_queues(alloc, opened, queues, constants.queues))
    }

    /// A worker that was opened, before its first step. The parts' device is asked for what it never changes.
    ///
    /// # Errors
    /// Want of memory.
    pub fn over<P: Parts>(
        alloc: Global,
        parts: &mut P,
        opened: Opened,
    ) -> Result<VringEpollHandler, OutOfMemory>
        ensures made { IfOk result (λ h. ForSome (P.state parts.old).constants
            (λ told. h ≡ new_handler told opened)) }
        ensures new { IfOk result (IsNew opened) }
        ensures frame { IsUntouched (P.state parts.old) (P.state parts.new) }
    {
        let constants = parts.constants(alloc)?;
        VringEpollHandler::from_constants(alloc, &constants, opened)
    }

    /// Opens the worker of this number, as [`open_worker`] does, which stands before its first step then.
    ///
    /// # Errors
    /// Those of [`open_worker`], which leave what it leaves.
    pub fn new<P: Parts>(
        alloc: Global,
        parts: &mut P,
        worker: u32,
    ) -> Result<VringEpollHandler, VringEpollError>
        ensures made { IfOk result (λ h. ForSome (P.state parts.old).constants
            (λ told. IsOpened told worker h (P.state parts.old).shared (P.state parts.new).shared)) }
        ensures new { IfOk result (λ h. IsNew h.opened h) }
        ensures worker { IfOk result (λ h. h.opened.worker ≡ worker) }
        ensures stopped { IfErr result (λ e. ForSome (P.state parts.old).constants
            (λ told. Tells (P.state parts.old) (P.state parts.new)
            (LeavesMade told.queues (exit_in told worker) e))) }
        ensures frame { KeepsOpening (P.state parts.old) (P.state parts.new) result }
    {
        let Ok(constants) = parts.constants(alloc) else {
            return Err(VringEpollError::OutOfMemory);
        };
        let Ok(queues) = queues_of_worker(alloc, &constants, worker) else {
            return Err(VringEpollError::OutOfMemory);
        };
        let opened = open_worker(alloc, parts, worker)?;
        Ok(VringEpollHandler::with_queues(alloc, opened, queues, constants.queues))
    }
}
