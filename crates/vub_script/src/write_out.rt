ghost use Rattle.std.specs.Prelude.{◌≡◌, ◌++◌, map, length, IfOk, OnOk};
ghost use Rattle.std.specs.List.{repeat};
ghost use Rattle.vub_script.specs.Script.{object_from, parties, script_from};

use crate::draft::{Draft, ObjectDraft};
use crate::script::Script;
use std::alloc::Global;
use vub_base::{Bytes, Listed, OutOfMemory};
use vub_model::{Object, Setup};

fn object_of_draft(alloc: Global, object: ObjectDraft) -> Result<Object, OutOfMemory>
    ensures { IfOk result (λ o. o ≡ object_from object) }
{
    match object {
        ObjectDraft::Event { flags } => Ok(Object::Event { flags }),
        ObjectDraft::Zeros { length } => {
            let zeros: Vec<u8> = vec![in alloc; 0; length as usize]?;
            Ok(Object::Content(Bytes::from_vec(zeros)))
        }
        ObjectDraft::Content(bytes) => Ok(Object::Content(bytes)),
        ObjectDraft::Log { len } => Ok(Object::Log { len }),
    }
}

fn objects_of_drafts(
    alloc: Global,
    drafts: Listed<ObjectDraft>,
) -> Result<Listed<Object>, OutOfMemory>
    ensures { IfOk result (λ objects. objects ≡ map object_from drafts) }
{
    let mut objects: Listed<Object> = Listed::new(alloc);
    for draft in drafts.into_vec() {
        let object = object_of_draft(alloc, draft)?;
        objects.push(object)?;
    }
    Ok(objects)
}

/// The parties of one round: the guest 0, the control party 1, and the workers from 2 on.
fn parties_of(alloc: Global, workers: usize) -> Result<Vec<u32>, OutOfMemory>
    ensures { IfOk result (λ found. found.items ≡ parties workers) }
{
    if workers > 0xffff_fffd {
        return Err(OutOfMemory);
    }
    let count = workers as u32 + 2;
    let found = (0..count).collect(alloc)?;
    Ok(found)
}

fn push_rounds(schedule: &mut Vec<u32>, turns: &[u32], rounds: u64) -> Result<(), OutOfMemory>
    ensures { OnOk result (schedule.new.items ≡ schedule.old.items ++ repeat rounds turns.now) }
{
    for _ in 0..rounds {
        schedule.extend_from_slice(turns)?;
    }
    Ok(())
}

/// Writes out a draft: its contents given by a length, and its rounds.
///
/// The draft should be within the limits ([`is_within_limits`](crate::is_within_limits)): one that is not may ask for
/// more memory than there is.
///
/// # Errors
/// Want of memory.
#[tactic(auto, unfolding(crate::specs::Script::script_from))]
pub fn script_of_draft(alloc: Global, draft: Draft) -> Result<Script, OutOfMemory>
    ensures { IfOk result (λ script. script ≡ script_from draft) }
{
    let Draft {
        objects,
        regions,
        rings,
        requests,
        guest,
        device,
        service,
        listed,
        rounds,
    } = draft;
    let objects = objects_of_drafts(alloc, objects)?;
    let parties = parties_of(alloc, device.masks.len())?;
    let mut schedule = listed.into_vec();
    push_rounds(&mut schedule, parties.as_slice(), rounds)?;
    Ok(Script {
        setup: Setup {
            objects,
            regions,
            rings,
            requests,
            guest,
        },
        device,
        service,
        schedule: Listed::from_vec(schedule),
    })
}
