ghost use Rattle.std.specs.Prelude.{◌≡◌, ◌≤◌, ◌<◌, ◌^◌, true, map, length, if◌then◌else◌, IfOk, IfErr, OnOk, OnErr};
ghost use Rattle.std.specs.Option.{ForSome};
ghost use Rattle.vub_mem.specs.Mappings.{gpa_of};
ghost use Rattle.vub_model.specs.Control.{is_refusal};
ghost use Rattle.vub_vring.specs.Calls.{telling};
ghost use Rattle.vub_plan.specs.Halves.{stage_of, IsPlanOf};
ghost use Rattle.vub_loop.specs.Listening.{ExitFrame};
ghost use Rattle.vub_handler.specs.Exits.{handle_for, EndsAll};
ghost use Rattle.vub_handler.specs.Opening.{DecidesSize, IsUnmade, KeepsParts, Makes, is_greatest_size};
ghost use Rattle.vub_handler.specs.Player.{new_player, mapped};
ghost use Rattle.vub_handler.specs.Playing.{PlayedBy, CameTo, MovesBy, ComesNearer, PlayFrame};

use crate::acted::Acted;
use crate::acting::act;
use crate::changing::{change, changed};
use crate::copies::copied_change;
use crate::due::{due_answer, is_refusal};
use crate::error::VhostUserHandlerError;
use crate::known::learn;
use crate::played::{Played, Progress, as_played, came_to};
use crate::workers::{is_greatest_size, open_workers, unopened};
use sqlite_items::Boxed;
use std::alloc::Global;
use std::marker::Model;
use vub_base::{Listed, OutOfMemory};
use vub_loop::EpollHandle;
use vub_mem::{Mapping, Region, va_to_gpa};
use vub_model::{Constants, Known, Opened, Session, Small, TableOp};
use vub_plan::{Half, Head, Stage, Wired, plan};
use vub_proto::{Answer, DeviceOp, Request};
use vub_queue::QueueError;
use vub_vring::{Parts, TableSaid};

/// The session of a front end (`VhostUserHandler` of the Rust crate `vhost-user-backend`): its wiring, what was set and
/// acknowledged, and what it knows of the rings.
#[derive(Debug, Drop)]
pub struct VhostUserHandler {
    wired: Wired,
    session: Session,
    known: Listed<Known>,
}

impl Model for VhostUserHandler {
    ghost use Rattle.vub_handler.specs.Player.{Player};

    ghost Value = { Player };

    ghost view = { λ h. record { wiring = h.wired; session = h.session; known = h.known } };
}

/// The handle of a worker that was opened so, beside so many queues.
fn handle_for(queues: usize, opened: &Opened) -> EpollHandle
    ensures { result ≡ handle_for queues opened.now }
{
    EpollHandle {
        worker: opened.worker,
        list: opened.list,
        exit: opened.exit,
        queues,
    }
}

/// The greatest number of queues and of workers.
const GREATEST_COUNT: usize = 4294967295;

impl VhostUserHandler {
    /// Opens the workers of a device of these constants, and makes the session over them.
    #[tactic(auto, using(crate::proofs::Opening::made_over, crate::proofs::Opening::unmade, crate::proofs::Opening::unmade_full, crate::proofs::Opening::size_unopened))]
    fn over_new_workers<P: Parts>(
        alloc: Global,
        parts: &mut P,
        constants: Constants,
    ) -> Result<VhostUserHandler, VhostUserHandlerError>
        requires size { is_greatest_size constants.max ≡ true }
        requires max { constants.max ≤ 32768 }
        requires queues { constants.queues < 2 ^ 32 }
        requires workers { length constants.masks < 2 ^ 32 }
        requires told { ForSome (P.state parts.old).constants (λ c. constants ≡ c) }
        ensures made { IfOk result (λ handler. Makes handler (P.state parts.old) (P.state parts.new)) }
        ensures size { DecidesSize result constants }
        ensures err { IfErr result (IsUnmade (P.state parts.old) (P.state parts.new)) }
        ensures keeps { KeepsParts (P.state parts.old) (P.state parts.new) }
    {
        match open_workers(alloc, parts, constants.masks.len() as u32) {
            Err(error) => Err(unopened(error)),
            Ok(opened) => {
                let wired = Wired::new(constants, Listed::from_vec(opened));
                match VhostUserHandler::over(alloc, wired) {
                    Ok(handler) => Ok(handler),
                    Err(_) => Err(VhostUserHandlerError::OutOfMemory),
                }
            }
        }
    }

    /// A session of which nothing was asked, over new workers: asks for the device's constants, and opens each worker in
    /// order.
    ///
    /// # Errors
    /// `CreateVring` exactly where the greatest size of a queue is no power of two from 1 to 32768, and then nothing was
    /// made; `CreateEpollHandler` only where the host's count of faults rose; want of memory, also at 2^32 queues or
    /// workers. What was made before stays in the host.
    #[tactic(auto, using(crate::proofs::Opening::unmade_early, crate::proofs::Opening::unmade_size, crate::proofs::Opening::unmade_after, crate::proofs::Opening::makes_after, crate::proofs::Opening::keeps_untouched, crate::proofs::Opening::keeps_after))]
    pub fn new<P: Parts>(
        alloc: Global,
        parts: &mut P,
    ) -> Result<VhostUserHandler, VhostUserHandlerError>
        ensures made { IfOk result (λ handler. Makes handler (P.state parts.old) (P.state parts.new)) }
        ensures size { ForSome (P.state parts.old).constants (DecidesSize result) }
        ensures err { IfErr result (IsUnmade (P.state parts.old) (P.state parts.new)) }
        ensures keeps { KeepsParts (P.state parts.old) (P.state parts.new) }
    {
        let Ok(constants) = parts.constants(alloc) else {
            return Err(VhostUserHandlerError::OutOfMemory);
        };
        if !is_greatest_size(constants.max) {
            return Err(VhostUserHandlerError::CreateVring(QueueError::InvalidMaxSize));
        }
        if constants.queues > GREATEST_COUNT || constants.masks.len() > GREATEST_COUNT {
            return Err(VhostUserHandlerError::OutOfMemory);
        }
        VhostUserHandler::over_new_workers(alloc, parts, constants)
    }

    /// A session of which nothing was asked, over these workers.
    ///
    /// # Errors
    /// Want of memory.
    pub fn over(alloc: Global, wired: Wired) -> Result<VhostUserHandler, OutOfMemory>
        ensures { IfOk result (λ handler. handler ≡ new_player wired) }
    {
        let closed = Known {
            kick: None,
            ready: false,
            enabled: false,
        };
        let known = vec![in alloc; closed; wired.queue_count() as usize]?;
        Ok(VhostUserHandler {
            wired,
            session: Session {
                owned: false,
                features: 0,
                protocol: 0,
                mappings: Listed::new(alloc),
            },
            known: Listed::from_vec(known),
        })
    }

    /// The workers as they were opened, by number.
    pub fn opened(&self) -> &[Opened]
        ensures { result.now ≡ self.now.wiring.opened }
    {
        self.wired.opened()
    }

    /// A handle of each worker, by number.
    ///
    /// # Errors
    /// Want of memory.
    pub fn get_epoll_handlers(&self, alloc: Global) -> Result<Vec<EpollHandle>, OutOfMemory>
        ensures { IfOk result (λ handles. handles.items
            ≡ map (handle_for self.now.wiring.queues) self.now.wiring.opened) }
    {
        let queues = self.wired.queue_count() as usize;
        let handles = self
            .opened()
            .iter()
            .map(|opened| handle_for(queues, opened))
            .collect(alloc)?;
        Ok(handles)
    }

    /// Tells each worker to end that has an exit object: 1 is added to its count, and a full count stays. A fault of the
    /// host is passed over. Takes no memory.
    pub fn send_exit_event<P: Parts>(&self, alloc: Global, parts: &mut P)
        ensures row { EndsAll self.now.wiring.opened (P.state parts.old) (P.state parts.new) }
        ensures frame { ExitFrame (P.state parts.old) (P.state parts.new) }
    {
        let queues = self.wired.queue_count() as usize;
        let opened = self.opened();
        for number in 0..opened.len() {
            handle_for(queues, &opened[number]).send_exit_event(alloc, parts);
        }
    }

    /// What was set and acknowledged.
    pub fn session(&self) -> &Session
        ensures { result.now ≡ self.now.session }
    {
        &self.session
    }

    /// Gives the session the kicks and flags of rings that are already set, one for each queue, and the mappings.
    ///
    /// # Errors
    /// Want of memory leaves the session as it was.
    pub fn adopt(
        &mut self,
        alloc: Global,
        rings: &[Known],
        mappings: &[Mapping],
    ) -> Result<(), OutOfMemory>
        ensures ok { OnOk result (self.new ≡ record self.old
            { known = rings.now; session = record self.old.session { mappings = mappings.now } }) }
        ensures err { OnErr result (self.new ≡ self.old) }
    {
        let known = Vec::from_slice(alloc, rings)?;
        let mappings = Vec::from_slice(alloc, mappings)?;
        self.known = Listed::from_vec(known);
        self.session.mappings = Listed::from_vec(mappings);
        Ok(())
    }

    /// Fixes the plan of a request that is lent: that of the machine, wherever kicks and flags of the rings are those
    /// that the session knows.
    ///
    /// # Errors
    /// Want of memory.
    pub fn begin_with(&self, alloc: Global, request: &Request) -> Result<Half, OutOfMemory>
        ensures { IfOk result (IsPlanOf self.now.wiring self.now.known self.now.session request.now) }
    {
        plan(
            alloc,
            &self.wired,
            self.known.as_slice(),
            &self.session,
            request,
        )
    }

    /// Fixes the plan of a request: that of the machine, wherever kicks and flags of the rings are those that the
    /// session knows.
    ///
    /// # Errors
    /// Want of memory.
    pub fn begin(&self, alloc: Global, request: Request) -> Result<Half, OutOfMemory>
        ensures { IfOk result (IsPlanOf self.now.wiring self.now.known self.now.session request) }
    {
        self.begin_with(alloc, &request)
    }

    /// The guest address of an address of the front end.
    ///
    /// # Errors
    /// `MissingMemoryMapping` exactly where no mapping holds it.
    pub fn vmm_va_to_gpa(&self, va: u64) -> Result<u64, VhostUserHandlerError>
        ensures { result ≡ mapped (gpa_of self.now.session.mappings va) }
    {
        match va_to_gpa(self.session.mappings.as_slice(), va) {
            Ok(gpa) => Ok(gpa),
            Err(_) => Err(VhostUserHandlerError::MissingMemoryMapping),
        }
    }

    /// Ends the session.
    pub fn close(self) {}

    /// The table of guest memory is changed; the device is told of its regions next.
    #[tactic(auto, using(crate::proofs::PlaySteps::table_accepted, crate::proofs::PlaySteps::table_refused, crate::proofs::PlayMoves::accepted_moves, crate::proofs::PlayMoves::refused_moves))]
    fn play_table<P: Parts>(
        &self,
        alloc: Global,
        half: &mut Half,
        parts: &mut P,
        op: TableOp,
    ) -> Result<Option<Played>, OutOfMemory>
        requires { half.old.head ≡ Head.Table op }
        ensures row { IfOk result (λ played. PlayedBy (telling P.Device.said P.Device.moved) played self.now self.now
            half.old half.new (P.state parts.old) (P.state parts.new)) }
        ensures moves { IfOk result (λ played. MovesBy played half.old half.new) }
        ensures frame { PlayFrame self.now self.now half.old half.new (P.state parts.old) (P.state parts.new) result }
    {
        let small = Boxed::new(alloc, Small::Table(copied_change(alloc, &op)?))?;
        match change(alloc, parts, op)? {
            TableSaid::Regions(regions) => {
                half.set_head(Head::Update(regions));
                Ok(Some(as_played(small, false, None)))
            }
            TableSaid::Memory(error) => {
                half.set_head(Head::None);
                half.turn(changed(TableSaid::Memory(error)));
                Ok(Some(as_played(small, false, None)))
            }
        }
    }

    /// The device is told of the regions of guest memory.
    #[tactic(auto, using(crate::proofs::PlaySteps::update_played, crate::proofs::PlaySteps::update_held, crate::proofs::PlayMoves::update_moves))]
    fn play_update<P: Parts>(
        &self,
        alloc: Global,
        half: &mut Half,
        parts: &mut P,
        regions: Listed<Region>,
    ) -> Result<Option<Played>, OutOfMemory>
        requires { half.old.head ≡ Head.Update regions }
        ensures row { IfOk result (λ played. PlayedBy (telling P.Device.said P.Device.moved) played self.now self.now
            half.old half.new (P.state parts.old) (P.state parts.new)) }
        ensures moves { IfOk result (λ played. MovesBy played half.old half.new) }
        ensures frame { PlayFrame self.now self.now half.old half.new (P.state parts.old) (P.state parts.new) result }
    {
        let small = Boxed::new(alloc, Small::Device(DeviceOp::UpdateMemory(regions)))?;
        match act(alloc, parts, &self.wired, small.get())? {
            Acted::Waits => Ok(None),
            Acted::Made { turn, refused } => {
                half.set_head(Head::None);
                half.turn(turn);
                Ok(Some(as_played(small, refused, None)))
            }
        }
    }

    /// The next of the steps is played, which is no Answer.
    #[tactic(auto, using(crate::proofs::PlaySteps::step_played, crate::proofs::PlaySteps::step_held, crate::proofs::PlayMoves::step_moves))]
    fn play_step<P: Parts>(
        &mut self,
        alloc: Global,
        half: &mut Half,
        parts: &mut P,
    ) -> Result<Option<Played>, OutOfMemory>
        requires head { half.old.head ≡ Head.None }
        requires stage { stage_of half.old.plan.steps ≡ Stage.Step }
        ensures row { IfOk result (λ played. PlayedBy (telling P.Device.said P.Device.moved) played self.old self.new
            half.old half.new (P.state parts.old) (P.state parts.new)) }
        ensures moves { IfOk result (λ played. MovesBy played half.old half.new) }
        ensures frame { PlayFrame self.old self.new half.old half.new (P.state parts.old) (P.state parts.new) result }
    {
        match half.first() {
            None => Ok(None),
            Some(small) => match act(alloc, parts, &self.wired, small.get())? {
                Acted::Waits => Ok(None),
                Acted::Made { turn, refused } => match half.drop_first() {
                    None => Ok(None),
                    Some(small) => {
                        half.turn(turn);
                        learn(&mut self.known, small.get());
                        Ok(Some(as_played(small, refused, None)))
                    }
                },
            },
        }
    }

    /// The session after this answer.
    fn settle(&mut self, answer: &Answer, session: Session)
        ensures { self.new ≡ record self.old
            { session = if is_refusal answer.now then self.old.session else session } }
    {
        if !is_refusal(answer) {
            self.session = session;
        }
    }

    /// The request is answered.
    #[tactic(auto, using(crate::proofs::PlaySteps::answer_played, crate::proofs::PlayMoves::answer_moves))]
    fn play_answer<P: Parts>(
        &mut self,
        alloc: Global,
        half: &mut Half,
        parts: &mut P,
    ) -> Result<Option<Played>, OutOfMemory>
        requires head { half.old.head ≡ Head.None }
        requires stage { stage_of half.old.plan.steps ≡ Stage.Answer }
        ensures row { IfOk result (λ played. PlayedBy (telling P.Device.said P.Device.moved) played self.old self.new
            half.old half.new (P.state parts.old) (P.state parts.new)) }
        ensures moves { IfOk result (λ played. MovesBy played half.old half.new) }
        ensures frame { PlayFrame self.old self.new half.old half.new (P.state parts.old) (P.state parts.new) result }
    {
        let small = Boxed::new(alloc, Small::Answer)?;
        let session = half.session(alloc)?;
        let answer = due_answer(alloc, parts, half.due())?;
        half.drop_first();
        self.settle(&answer, session);
        Ok(Some(as_played(small, false, Some(answer))))
    }

    /// Plays the first step that is left of a request. None comes where an entry in flight lets that step wait, and
    /// where no step is left; nothing changes then.
    ///
    /// # Errors
    /// Want of memory leaves the session, the request and the parts as they were.
    #[tactic(auto, using(crate::proofs::PlaySteps::spent_held))]
    pub fn play<P: Parts>(
        &mut self,
        alloc: Global,
        half: &mut Half,
        parts: &mut P,
    ) -> Result<Option<Played>, OutOfMemory>
        ensures row { IfOk result (λ played. PlayedBy (telling P.Device.said P.Device.moved) played self.old self.new
            half.old half.new (P.state parts.old) (P.state parts.new)) }
        ensures moves { IfOk result (λ played. MovesBy played half.old half.new) }
        ensures frame { PlayFrame self.old self.new half.old half.new (P.state parts.old) (P.state parts.new) result }
    {
        match half.head() {
            Head::Table(op) => {
                let op = copied_change(alloc, op)?;
                self.play_table(alloc, half, parts, op)
            }
            Head::Update(regions) => {
                let regions = Listed::from_slice(alloc, regions.as_slice())?;
                self.play_update(alloc, half, parts, regions)
            }
            Head::None => match half.stage() {
                Stage::Spent => Ok(None),
                Stage::Answer => self.play_answer(alloc, half, parts),
                Stage::Step => self.play_step(alloc, half, parts),
            },
        }
    }

    /// Plays one step of a request, and tells how far it came: Waits where `play` plays none.
    ///
    /// # Errors
    /// Want of memory leaves the session, the request and the parts as they were.
    pub fn step<P: Parts>(
        &mut self,
        alloc: Global,
        half: &mut Half,
        parts: &mut P,
    ) -> Result<Progress, OutOfMemory>
        ensures row { IfOk result (λ progress. CameTo (telling P.Device.said P.Device.moved) progress
            self.old self.new half.old half.new (P.state parts.old) (P.state parts.new)) }
        ensures moves { IfOk result (λ progress. ComesNearer progress half.old half.new) }
        ensures frame { PlayFrame self.old self.new half.old half.new (P.state parts.old) (P.state parts.new) result }
    {
        match self.play(alloc, half, parts)? {
            None => Ok(Progress::Waits),
            Some(played) => Ok(came_to(played)),
        }
    }
}
