//! The set-up of a batch.
ghost use Rattle.std.specs.Prelude.{◌≡◌, ◌++◌, ◌∷◌, [], length, IfOk, OnOk};
ghost use Rattle.vub_model.specs.declared.setup.Guest.TheVariants.{Signal};
ghost use Rattle.vub_talk.specs.Batches.{batch_setup, store_of, stores_of};

use crate::constants::{CALL, KICK, MEMORY, MEMORY_LEN, MEMORY_START};
use std::alloc::Global;
use vub_base::{Bytes, Listed, OutOfMemory};
use vub_driver::{Layout, Submission, Write};
use vub_model::{GivenRegion, GivenRing, Guest, Info, Object, Setup};

/// The guest's store that makes a driver's write.
fn store_of(write: Write) -> Guest
    ensures { result ≡ store_of write }
{
    let Write { at, bytes } = write;
    Guest::Store {
        object: MEMORY,
        offset: at.saturating_sub(MEMORY_START),
        bytes,
    }
}

/// Appends the four stores of a submit.
pub(crate) fn push_stores(
    guest: &mut Listed<Guest>,
    submission: Submission,
) -> Result<(), OutOfMemory>
    ensures { OnOk result (guest.new ≡ guest.old ++ stores_of submission) }
{
    let Submission {
        request,
        descriptors,
        slot,
        index,
    } = submission;
    guest.push(store_of(request))?;
    guest.push(store_of(descriptors))?;
    guest.push(store_of(slot))?;
    guest.push(store_of(index))
}

/// Appends the signal of the kick.
pub(crate) fn push_signal(guest: &mut Listed<Guest>) -> Result<(), OutOfMemory>
    ensures { OnOk result (guest.new ≡ guest.old ++ Signal 1 ∷ []) }
{
    guest.push(Guest::Signal { object: KICK })
}

/// Guest memory's content, the kick and the call.
fn objects_of(alloc: Global, content: Bytes) -> Result<Listed<Object>, OutOfMemory>
    ensures { IfOk result (λ objects. objects
        ≡ Object.Content content ∷ Object.Event 0 ∷ Object.Event 0 ∷ []) }
{
    let mut objects = Listed::new(alloc);
    objects.push(Object::Content(content))?;
    objects.push(Object::Event { flags: 0 })?;
    objects.push(Object::Event { flags: 0 })?;
    Ok(objects)
}

/// The set-up of a batch whose first request has this number, over these bytes.
///
/// # Errors
/// Want of memory.
#[tactic(auto, unfolding(crate::specs::Batches::batch_setup))]
pub(crate) fn setup_of(
    alloc: Global,
    layout: &Layout,
    number: u64,
    content: Bytes,
    guest: Listed<Guest>,
) -> Result<Setup, OutOfMemory>
    ensures { IfOk result (λ setup. setup ≡ batch_setup layout.now number content guest) }
{
    let objects = objects_of(alloc, content)?;
    let regions = Listed::from_slice(
        alloc,
        &[GivenRegion {
            start: MEMORY_START,
            len: MEMORY_LEN,
            user: 0,
            offset: 0,
            object: MEMORY,
        }],
    )?;
    let index = (number % 65536) as u16;
    let rings = Listed::from_slice(
        alloc,
        &[GivenRing {
            queue: 0,
            size: layout.size,
            info: Some(Info {
                desc: layout.desc,
                avail: layout.avail,
                used: layout.used,
            }),
            base: index,
            next_used: index,
            kick: Some(KICK),
            call: Some(CALL),
            ready: true,
            enabled: true,
        }],
    )?;
    Ok(Setup {
        objects,
        regions,
        rings,
        requests: Listed::new(alloc),
        guest,
    })
}
