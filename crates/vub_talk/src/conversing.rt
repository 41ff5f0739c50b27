//! A whole conversation.
ghost use Rattle.std.specs.Prelude.{◌≡◌, ◌⊎◌, ◌+◌, ◌*◌, ◌<◌, ◌≤◌, false, None, Some, length, map};
ghost use Rattle.std.specs.Prelude.{IfOk, IfErr, IfSome, OnErr};
ghost use Rattle.std.specs.List.{range_with_len};
ghost use Rattle.vub_core.specs.Meanings.{meaning_by};
ghost use Rattle.vub_driver.specs.Calls.{new_state};
ghost use Rattle.vub_driver.specs.Layouts.{new_fault};
ghost use Rattle.vub_driver.specs.Places.{half_of};
ghost use Rattle.vub_open.specs.Asked.{constants_by};
ghost use Rattle.vub_talk.specs.Ample.{AreFew};
ghost use Rattle.vub_talk.specs.Faults.{asks_fault, setup_fault, talk_fault};
ghost use Rattle.vub_talk.specs.Late.{IsLate};
ghost use Rattle.vub_talk.specs.Talked.{lengths_of, IsAnswered, IsWhole};
ghost use Rattle.vub_talk.specs.Talks.{IsSlow};

use crate::ask::Ask;
use crate::batch::talk_batch;
use crate::checks::{asks_fault, device_fault};
use crate::conversation::{Conversation, driver_of, zero_memory};
use crate::fault::TalkFault;
use crate::schedule::schedule_of;
use crate::talk::Talk;
use std::alloc::Global;
use vub_base::Listed;
use vub_driver::{Driver, Layout};
use vub_model::Constants;
use vub_open::read_constants;
use vub_proto::{Service, VhostUserBackendMut};

/// How many asks the next batch has, where so many are left.
fn next_count(half: usize, left: usize) -> usize
    ensures most { result ≤ half }
    ensures within { result ≤ left }
    ensures whole { (result ≡ half) ⊎ (result ≡ left) }
{
    if left < half { left } else { half }
}

/// The conversation of a driver over a new memory with a device of these constants.
fn talk_with<V: Service>(
    alloc: Global,
    asks: &[Ask],
    layout: &Layout,
    driver: Driver,
    constants: &Constants,
    service: &mut V,
    rounds: u32,
) -> Result<Talk, TalkFault>
    requires driver { driver ≡ new_state layout.now false }
    requires layout { new_fault layout.now ≡ None }
    requires asks { asks_fault layout.now asks.now ≡ None }
    requires device { setup_fault constants.now layout.now ≡ None }
    ensures few { IfErr result (λ e. length constants.now.masks ≡ 1 → AreFew layout.now asks.now rounds e) }
    ensures whole { IfOk result (IsWhole layout.now asks.now) }
    ensures only { IfErr result IsLate }
    ensures answered { IfOk result (λ t. 0 < layout.now.slot →
        IsAnswered (meaning_by V.Service) service.old service.new asks.now t) }
    ensures counted { IfOk result (λ t. 0 < layout.now.slot →
        t.calls ≡ lengths_of layout.now asks.now (length t.calls)) }
    ensures slow { IfErr result (λ e. 0 < layout.now.slot → IsSlow e) }
{
    let parties = 2 + constants.masks.len() as u32;
    let schedule = schedule_of(alloc, rounds, parties)?;
    let memory = zero_memory(alloc)?;
    let mut conversation = Conversation { driver, memory };
    let mut talk = Talk {
        answers: Listed::new(alloc),
        calls: Listed::new(alloc),
    };
    let half = usize::from(layout.size / 2);
    let mut done = 0;
    let mut batch = 0;
    while done < asks.len() {
        let count = next_count(half, asks.len() - done);
        talk_batch(
            alloc,
            &mut conversation,
            layout,
            &asks[done..done + count],
            constants,
            service,
            &schedule,
            batch,
            &mut talk,
        )?;
        done += count;
        batch += 1;
    }
    Ok(talk)
}

/// Asks a service one ask after the other, through a ring: the driver's side puts them into guest memory in batches of
/// half of the ring's size, the machine plays each batch by [`vub_core::drive`], and the driver's side takes the
/// replies out of guest memory.
///
/// Guest memory is one region of 1048576 bytes from 0x100000 on, zero at first, and goes on from batch to batch; so do
/// the numbers of the ring, which has no EVENT_IDX. In each batch the guest makes four stores for each ask (its bytes,
/// its two descriptors, its slot, the index) and signals the kick behind the last one. Each party has a turn in each of
/// so many rounds. The device is asked for its constants once, and for nothing else.
///
/// The answers are numbered as the asks, one for each, and there is a count of the call for each batch. Where the slot
/// of the layout is above 0, the k-th answer is the reply of the service after k calls to the bytes and the room of
/// the k-th ask, and the count of each batch is its length.
///
/// # Errors
/// The first test of [`TalkFault`] that fails, up to `Setup`, and then the service was not asked. Then `NotAtRest`: the
/// rounds of this batch were too few; with one worker they were fewer than thirteen for each of its asks, and 26. What a
/// driver may find wrong in a used ring never comes, where the slot is above 0. Want of memory may come at any place; it
/// stands too for an ask that was not used though the run is at rest, of which it is not proved that there is none.
#[tactic(auto, using(crate::proofs::Batching::device_none))]
pub fn converse<D: VhostUserBackendMut, V: Service>(
    alloc: Global,
    asks: &[Ask],
    layout: Layout,
    device: &D,
    service: &mut V,
    rounds: u32,
) -> Result<Talk, TalkFault>
    ensures refused { IfSome
        (talk_fault (constants_by D.VhostUserBackendMut D.Bitmap.TRACKS device.now) layout asks.now)
        (λ e. (result ≡ Err e) ⊎ (result ≡ Err TalkFault.OutOfMemory)) }
    ensures only { IfErr result (λ e.
        (talk_fault (constants_by D.VhostUserBackendMut D.Bitmap.TRACKS device.now) layout asks.now ≡ Some e)
        ⊎ IsLate e) }
    ensures unasked { IfSome
        (talk_fault (constants_by D.VhostUserBackendMut D.Bitmap.TRACKS device.now) layout asks.now)
        (λ e. service.new ≡ service.old) }
    ensures whole { IfOk result (IsWhole layout asks.now) }
    ensures answered { IfOk result (λ t. 0 < layout.slot →
        IsAnswered (meaning_by V.Service) service.old service.new asks.now t) }
    ensures counted { IfOk result (λ t. 0 < layout.slot →
        t.calls ≡ lengths_of layout asks.now (length t.calls)) }
    ensures slow { IfErr result (λ e. 0 < layout.slot →
        (talk_fault (constants_by D.VhostUserBackendMut D.Bitmap.TRACKS device.now) layout asks.now ≡ Some e)
        ⊎ IsSlow e) }
    ensures few { IfErr result (λ e.
        length (constants_by D.VhostUserBackendMut D.Bitmap.TRACKS device.now).masks ≡ 1 →
        AreFew layout asks.now rounds e) }
{
    let driver = driver_of(alloc, layout)?;
    if let Some(fault) = asks_fault(&layout, asks) {
        return Err(TalkFault::Driver(fault));
    }
    let constants = read_constants(alloc, device)?;
    if let Some(fault) = device_fault(&constants, &layout) {
        return Err(fault);
    }
    talk_with(alloc, asks, &layout, driver, &constants, service, rounds)
}
