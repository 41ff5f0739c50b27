ghost use Rattle.std.specs.Prelude.{◌≡◌, ◌++◌, ◌∷◌, [], map, OnOk, OnErr, IfOk};
ghost use Rattle.vub_model.specs.declared.play.Play.{Play};
ghost use Rattle.vub_model.specs.World.{takes_by, used_of};
ghost use Rattle.vub_model.specs.Opening.{unwritten};
ghost use Rattle.vub_core.specs.Recorded.{HasRoom, uses_in, left_none, IsWritten};

use crate::footprint::Footprint;
use crate::written::Written;
use std::alloc::Global;
use vub_base::{Bytes, OutOfMemory};
use vub_log::PlainLog;
use vub_loop::Finished;
use vub_mem::GuestMemory;
use vub_model::{Harvested, Object, Phase, Play, Take};
use vub_proto::Used;

/// What a run records of its steps.
#[derive(Drop)]
pub(crate) struct Records {
    pub takes: Vec<Take>,
    pub uses: Vec<Used>,
    pub written: Written,
    /// The words that the guest harvested.
    pub harvests: Vec<Harvested>,
}

/// Appends the entry that a Take gave, if it gave one. There is room for it.
///
/// # Errors
/// Want of memory for its request.
fn push_take(
    alloc: Global,
    takes: &mut Vec<Take>,
    play: &Play,
    phase: &Phase,
) -> Result<(), OutOfMemory>
    requires { HasRoom takes.old }
    ensures ok { OnOk result (takes.new.items ≡ takes.old.items ++ takes_by play.now phase.now) }
    ensures err { OnErr result (play.now ≡ Play.Take) }
{
    match (play, phase) {
        (Play::Take, Phase::Taken(entry, _)) => {
            let request = Bytes::from_slice(alloc, entry.chain.request.as_slice())?;
            let take = Take {
                queue: entry.queue,
                epoch: entry.epoch,
                number: entry.number,
                head: entry.chain.head,
                request,
                room: entry.chain.room,
            };
            takes.push(take).unwrap();
            Ok(())
        }
        _ => Ok(()),
    }
}

/// Appends the use of an entry with its reply. There is room for it.
fn push_use(uses: &mut Vec<Used>, finished: Finished)
    requires { HasRoom uses.old }
    ensures { uses.new.items ≡ uses.old.items ++ used_of finished.entry finished.reply ∷ [] }
{
    let Finished { entry, reply } = finished;
    uses.push(Used {
        queue: entry.queue,
        epoch: entry.epoch,
        number: entry.number,
        head: entry.chain.head,
        reply,
    })
    .unwrap();
}

/// Appends the use that a step made, if it made one. There is room for it.
fn push_finished(uses: &mut Vec<Used>, finished: Option<Finished>)
    requires { HasRoom uses.old }
    ensures { uses.new.items ≡ uses.old.items ++ uses_in finished }
{
    if let Some(finished) = finished {
        push_use(uses, finished);
    }
}

/// Whether a Take that ended in this phase found nothing.
fn left_none(play: &Play, phase: &Phase) -> bool
    ensures { result ≡ left_none play.now phase.now }
{
    match (play, phase) {
        (Play::Take, Phase::Idle) => true,
        (Play::Take, Phase::Serving(_)) => true,
        _ => false,
    }
}

/// Flags the bytes that a step wrote, which ended in this phase.
fn flag(
    written: &mut Written,
    memory: &GuestMemory<PlainLog>,
    footprint: Footprint,
    play: &Play,
    phase: &Phase,
    finished: &Option<Finished>,
)
    ensures { IsWritten memory.now.guest.regions footprint play.now phase.now finished.now written.old written.new }
{
    match footprint {
        Footprint::Nothing => {}
        Footprint::Use(place) => {
            if let Some(finished) = finished {
                written.flag_use(
                    memory,
                    place,
                    &finished.entry.chain,
                    finished.reply.as_slice(),
                );
            }
        }
        Footprint::Event(place) => {
            if left_none(play, phase) {
                written.flag_event(memory, place);
            }
        }
    }
}

impl Records {
    /// Nothing was taken, used, written or harvested.
    pub fn new(alloc: Global, objects: &[Object]) -> Result<Records, OutOfMemory>
        ensures takes { IfOk result (λ r. r.takes.items ≡ []) }
        ensures uses { IfOk result (λ r. r.uses.items ≡ []) }
        ensures written { IfOk result (λ r. r.written ≡ map unwritten objects.now) }
        ensures harvests { IfOk result (λ r. r.harvests.items ≡ []) }
    {
        Ok(Records {
            takes: Vec::new(alloc),
            uses: Vec::new(alloc),
            written: Written::new(alloc, objects)?,
            harvests: Vec::new(alloc),
        })
    }

    /// Makes room for one more take and one more use.
    ///
    /// # Errors
    /// Want of memory leaves what was recorded.
    pub fn reserve(&mut self) -> Result<(), OutOfMemory>
        ensures room { OnOk result (HasRoom self.new.takes × HasRoom self.new.uses) }
        ensures takes { self.new.takes.items ≡ self.old.takes.items }
        ensures uses { self.new.uses.items ≡ self.old.uses.items }
        ensures written { self.new.written ≡ self.old.written }
        ensures harvests { self.new.harvests ≡ self.old.harvests }
    {
        self.takes.reserve(1)?;
        self.uses.reserve(1)?;
        Ok(())
    }

    /// Records a worker's step of this play, which could write the words of the footprint, ended in this phase and
    /// finished this entry. There is room for a take and a use.
    ///
    /// # Errors
    /// Want of memory for the request of an entry that was taken, which is known only now. The record of the step is
    /// lost then.
    pub fn record(
        &mut self,
        alloc: Global,
        memory: &GuestMemory<PlainLog>,
        footprint: Footprint,
        play: &Play,
        phase: &Phase,
        finished: Option<Finished>,
    ) -> Result<(), OutOfMemory>
        requires room { HasRoom self.old.takes × HasRoom self.old.uses }
        ensures takes { OnOk result (self.new.takes.items ≡ self.old.takes.items ++ takes_by play.now phase.now) }
        ensures uses { OnOk result (self.new.uses.items ≡ self.old.uses.items ++ uses_in finished) }
        ensures err { OnErr result (play.now ≡ Play.Take) }
        ensures written { IsWritten memory.now.guest.regions footprint play.now phase.now finished
            self.old.written self.new.written }
        ensures harvests { self.new.harvests ≡ self.old.harvests }
    {
        flag(&mut self.written, memory, footprint, play, phase, &finished);
        push_finished(&mut self.uses, finished);
        push_take(alloc, &mut self.takes, play, phase)
    }
}
