//! The guest's side of a conversation: its driver, and guest memory as it stands between two batches.
ghost use Rattle.std.specs.Prelude.{◌≡◌, ◌⊎◌, ◌+◌, ◌-◌, ◌++◌, ◌∷◌, ◌<◌, ◌^◌, [], false, None, Some, length, option_map};
ghost use Rattle.std.specs.Prelude.{ℕ, IfOk, IfErr, IfSome, OnOk, OnErr};
ghost use Rattle.vub_mem.specs.Place.{content_of};
ghost use Rattle.vub_driver.specs.Calls.{new_state, state_submitted, submit_fault, submit_guest};
ghost use Rattle.vub_driver.specs.Layouts.{new_fault};
ghost use Rattle.vub_driver.specs.Writings.{writes_of};
ghost use Rattle.vub_model.specs.declared.setup.Guest.TheVariants.{Signal};
ghost use Rattle.vub_talk.specs.Ample.{IsNoRest};
ghost use Rattle.vub_talk.specs.Asking.{blank, zeros, AreSmall, HasMoved, MaySubmit, NumbersOn};
ghost use Rattle.vub_talk.specs.Batches.{asks_stored, batch_setup, stores_of};
ghost use Rattle.vub_talk.specs.Late.{refusal_of, IsLate};
ghost use Rattle.vub_talk.specs.Ready.{AreOff, IsLaid, IsReady};
ghost use Rattle.vub_model.specs.World.{stored};
ghost use Rattle.vub_talk.specs.Talking.{guest_asked, spans_stored, state_asked, Collects};
ghost use Rattle.vub_talk.specs.Talks.{IsSlow, IsTrusted};

use crate::ask::Ask;
use crate::constants::{MEMORY, MEMORY_LEN, MEMORY_START};
use crate::fault::TalkFault;
use crate::setup::{push_signal, push_stores, setup_of};
use std::alloc::Global;
use vub_base::{Bytes, Listed, OutOfMemory};
use vub_driver::{Done, Driver, DriverError, Layout};
use vub_mem::{GuestMemory, Region};
use vub_model::{Guest, Setup, Span};

/// The driver, and guest memory.
#[derive(Drop)]
pub(crate) struct Conversation {
    pub(crate) driver: Driver,
    pub(crate) memory: GuestMemory<()>,
}

/// A refusal of the driver.
fn refusal(fault: DriverError) -> TalkFault
    ensures { result ≡ refusal_of fault }
{
    match fault {
        DriverError::OutOfMemory => TalkFault::OutOfMemory,
        fault => TalkFault::Driver(fault),
    }
}

/// A driver of a layout, without EVENT_IDX: it polls for used entries.
///
/// # Errors
/// The first test of a driver's that the layout fails; want of memory.
#[tactic(auto, using(crate::proofs::Refusing::layout_refusal))]
pub(crate) fn driver_of(alloc: Global, layout: Layout) -> Result<Driver, TalkFault>
    ensures refused { IfSome (new_fault layout) (λ e. result ≡ Err (TalkFault.Driver e)) }
    ensures only { IfErr result (λ e.
        (option_map (λ f. TalkFault.Driver f) (new_fault layout) ≡ Some e) ⊎ (e ≡ TalkFault.OutOfMemory)) }
    ensures ok { IfOk result (λ d. d ≡ new_state layout false) }
{
    match Driver::new(alloc, layout, false) {
        Ok(driver) => Ok(driver),
        Err(fault) => Err(refusal(fault)),
    }
}

/// So many zero bytes.
///
/// # Errors
/// Want of memory.
#[tactic(auto, unfolding(crate::specs::Asking::zeros))]
fn zeros(alloc: Global, len: usize) -> Result<Bytes, OutOfMemory>
    ensures { IfOk result (λ bytes. bytes ≡ zeros len) }
{
    let zeros: Vec<u8> = vec![in alloc; 0; len]?;
    Ok(Bytes::from_vec(zeros))
}

/// Guest memory of zero bytes: one region over one content.
///
/// # Errors
/// Want of memory.
pub(crate) fn zero_memory(alloc: Global) -> Result<GuestMemory<()>, OutOfMemory>
    ensures { IfOk result (λ memory. memory.guest ≡ blank) }
{
    let zeros = zeros(alloc, MEMORY_LEN as usize)?;
    let mut memory = GuestMemory::new(alloc);
    let Ok(()) = memory.put_object(alloc, MEMORY, zeros) else {
        return Err(OutOfMemory);
    };
    let mut regions = Vec::new(alloc);
    regions.push(Region {
        start: MEMORY_START,
        len: MEMORY_LEN,
        object: MEMORY,
        offset: 0,
        log: None,
    })?;
    match memory.replace_table(regions) {
        Ok(()) => Ok(memory),
        Err(_) => Err(OutOfMemory),
    }
}

/// Stores bytes that a run wrote.
#[tactic(auto, using(crate::proofs::Asked::store_length), unfolding(vub_model::specs::World::stored))]
fn store_span(memory: &mut GuestMemory<()>, span: &Span)
    ensures guest { memory.new.guest ≡ stored memory.old.guest 0 span.now.offset span.now.bytes }
    ensures bytes { length (content_of memory.new.guest.contents 0)
        ≡ length (content_of memory.old.guest.contents 0) }
    ensures regions { memory.new.guest.regions ≡ memory.old.guest.regions }
{
    let len = memory.content(MEMORY).len();
    let bytes = span.bytes.as_slice();
    if bytes.len() <= len && span.offset <= (len - bytes.len()) as u64 {
        memory.store(MEMORY, span.offset, bytes);
    }
}

impl Conversation {
    /// Submits one ask, and appends the guest's stores that do the same.
    #[tactic(auto, using(crate::proofs::Asked::submit_length, crate::proofs::Asked::submit_regions))]
    fn submit(
        &mut self,
        alloc: Global,
        ask: &Ask,
        guest: &mut Listed<Guest>,
    ) -> Result<(), TalkFault>
        requires counted { self.old.driver.submitted < 2 ^ 64 - 1 }
        requires small { length ask.now.request < 2 ^ 32 }
        requires accepted { submit_fault self.old.memory.guest.regions self.old.driver (length ask.now.request)
            ask.now.room ≡ None }
        ensures driver { OnOk result (self.new.driver ≡ state_submitted self.old.driver ask.now.room) }
        ensures guest { OnOk result (guest.new ≡ guest.old
            ++ stores_of (writes_of self.old.driver.layout self.old.driver.submitted ask.now.request ask.now.room)) }
        ensures regions { OnOk result (self.new.memory.guest.regions ≡ self.old.memory.guest.regions) }
        ensures bytes { OnOk result (length (content_of self.new.memory.guest.contents 0)
            ≡ length (content_of self.old.memory.guest.contents 0)) }
        ensures memory { OnOk result (self.new.memory.guest ≡ submit_guest self.old.driver.layout self.old.memory.guest
            self.old.driver.submitted ask.now.request ask.now.room) }
        ensures only { IfErr result (λ e. e ≡ TalkFault.OutOfMemory) }
    {
        let request = ask.request.as_slice();
        let submission = self.driver.writes(alloc, request, ask.room)?;
        push_stores(guest, submission)?;
        match self.driver.submit(&mut self.memory, request, ask.room) {
            Ok(_) => Ok(()),
            Err(fault) => Err(refusal(fault)),
        }
    }

    /// Submits a batch, and tells the set-up of a machine whose guest does the same.
    ///
    /// # Errors
    /// Want of memory.
    pub(crate) fn submit_all(
        &mut self,
        alloc: Global,
        layout: &Layout,
        asks: &[Ask],
    ) -> Result<Setup, TalkFault>
        requires layout { layout.now ≡ self.old.driver.layout }
        requires may { MaySubmit self.old.driver self.old.memory.guest.regions (length asks.now) }
        requires small { AreSmall layout.now asks.now }
        requires laid { IsLaid layout.now }
        requires ready { IsReady layout.now self.old.driver.submitted self.old.memory.guest }
        ensures driver { OnOk result (HasMoved (length asks.now) 0 self.old.driver self.new.driver) }
        ensures ready { OnOk result (IsReady layout.now (self.old.driver.submitted + length asks.now)
            self.new.memory.guest) }
        ensures regions { OnOk result (self.new.memory.guest.regions ≡ self.old.memory.guest.regions) }
        ensures bytes { OnOk result (length (content_of self.new.memory.guest.contents 0)
            ≡ length (content_of self.old.memory.guest.contents 0)) }
        ensures setup { IfOk result (λ setup. setup ≡ batch_setup layout.now self.old.driver.submitted
            (content_of self.old.memory.guest.contents 0)
            (asks_stored layout.now self.old.driver.submitted asks.now ++ Signal 1 ∷ [])) }
        ensures state { OnOk result (self.new.driver ≡ state_asked self.old.driver asks.now) }
        ensures memory { OnOk result (self.new.memory.guest
            ≡ guest_asked layout.now self.old.memory.guest self.old.driver.submitted asks.now) }
        ensures only { IfErr result (λ e. e ≡ TalkFault.OutOfMemory) }
    {
        let number = self.driver.submitted();
        let content = Bytes::from_slice(alloc, self.memory.content(MEMORY))?;
        let mut guest = Listed::new(alloc);
        for ask in asks {
            self.submit(alloc, ask, &mut guest)?;
        }
        push_signal(&mut guest)?;
        let setup = setup_of(alloc, layout, number, content, guest)?;
        Ok(setup)
    }

    /// Guest memory becomes what it was at the end of a run that wrote these bytes.
    pub(crate) fn store_all(&mut self, spans: &[Span])
        ensures bytes { length (content_of self.new.memory.guest.contents 0)
            ≡ length (content_of self.old.memory.guest.contents 0) }
        ensures regions { self.new.memory.guest.regions ≡ self.old.memory.guest.regions }
        ensures driver { self.new.driver ≡ self.old.driver }
        ensures ready { (l : Layout) (n : ℕ) → IsLaid l → AreOff l spans.now →
            IsReady l n self.old.memory.guest → IsReady l n self.new.memory.guest }
        ensures guest { self.new.memory.guest ≡ spans_stored self.old.memory.guest spans.now }
    {
        for span in spans {
            store_span(&mut self.memory, span);
        }
    }

    /// Collects the reply to the oldest ask.
    ///
    /// # Errors
    /// Want of memory, which stands too for an ask that was not used though the run is at rest: it is not proved that
    /// there is none.
    #[tactic(auto, using(crate::proofs::Fewer::refusal_rests))]
    fn collect(&mut self, alloc: Global, answers: &mut Listed<Done>) -> Result<(), TalkFault>
        ensures driver { OnOk result (HasMoved 0 1 self.old.driver self.new.driver) }
        ensures answers { OnOk result (NumbersOn self.old.driver.collected 1 answers.old answers.new) }
        ensures replies { OnOk result
            (Collects 1 self.old.driver self.old.memory.guest answers.old self.new.driver answers.new) }
        ensures trusted { IfErr result (λ e. IsTrusted self.old.driver self.old.memory.guest → IsSlow e) }
        ensures memory { self.new.memory ≡ self.old.memory }
        ensures only { IfErr result IsLate }
        ensures rests { IfErr result IsNoRest }
    {
        match self.driver.collect(alloc, &self.memory) {
            Ok(Some(done)) => {
                answers.push(done)?;
                Ok(())
            }
            Ok(None) => Err(TalkFault::OutOfMemory),
            Err(fault) => Err(refusal(fault)),
        }
    }

    /// Collects the replies to so many asks.
    ///
    /// # Errors
    /// Want of memory.
    pub(crate) fn collect_all(
        &mut self,
        alloc: Global,
        count: usize,
        answers: &mut Listed<Done>,
    ) -> Result<(), TalkFault>
        ensures driver { OnOk result (HasMoved 0 count self.old.driver self.new.driver) }
        ensures answers { OnOk result (NumbersOn self.old.driver.collected count answers.old answers.new) }
        ensures replies { OnOk result
            (Collects count self.old.driver self.old.memory.guest answers.old self.new.driver answers.new) }
        ensures trusted { IfErr result (λ e. IsTrusted self.old.driver self.old.memory.guest → IsSlow e) }
        ensures memory { self.new.memory ≡ self.old.memory }
        ensures only { IfErr result IsLate }
        ensures rests { IfErr result IsNoRest }
    {
        for _ask in 0..count {
            self.collect(alloc, answers)?;
        }
        Ok(())
    }
}
