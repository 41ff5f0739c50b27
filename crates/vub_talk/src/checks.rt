//! The tests of a conversation, in their order.
ghost use Rattle.std.specs.Prelude.{◌≡◌, ◌<◌, length, is_some, position};
ghost use Rattle.std.specs.List.{list_any};
ghost use Rattle.vub_driver.specs.Calls.{is_too_large};
ghost use Rattle.vub_model.specs.ValidSetup.{is_greatest_size};
ghost use Rattle.vub_model.specs.Wiring.{has_bit};
ghost use Rattle.vub_talk.specs.Faults.{asks_fault, has_worker, is_within, lies_within, setup_fault, device_fault};

use crate::ask::Ask;
use crate::constants::{MEMORY_END, MEMORY_START};
use crate::fault::TalkFault;
use vub_driver::{DriverError, Layout};
use vub_model::{Constants, SetupFault};

/// Whether an area lies in the guest memory of a conversation.
fn is_within(at: u64, len: u64) -> bool
    ensures { result ≡ is_within at len }
{
    match at.checked_add(len) {
        Some(end) => at >= MEMORY_START && end <= MEMORY_END,
        None => false,
    }
}

/// Whether the four areas of a layout lie there.
#[tactic(auto, unfolding(crate::specs::Faults::lies_within))]
fn lies_within(layout: &Layout) -> bool
    ensures { result ≡ lies_within layout.now }
{
    let size = u64::from(layout.size);
    is_within(layout.desc, 16 * size)
        && is_within(layout.avail, 6 + 2 * size)
        && is_within(layout.used, 6 + 8 * size)
        && is_within(layout.buffers, u64::from(layout.slot) * size)
}

/// Whether an ask is too large for a layout.
fn is_too_large(layout: &Layout, ask: &Ask) -> bool
    ensures { result ≡ is_too_large layout.now (length ask.now.request) ask.now.room }
{
    let len = ask.request.len();
    let room = ask.room;
    len > layout.slot as usize || room > layout.slot || len > (u32::MAX - room) as usize
}

/// Whether one of the asks is too large for a layout.
fn is_any_too_large(layout: &Layout, asks: &[Ask]) -> bool
    ensures { result ≡ list_any (λ (a : Ask). is_too_large layout.now (length a.request) a.room) asks.now }
{
    asks.iter().any(|ask| is_too_large(layout, ask))
}

/// The first test that the asks fail, or that the layout fails which is one of a driver's.
#[tactic(auto, unfolding(crate::specs::Faults::asks_fault))]
pub(crate) fn asks_fault(layout: &Layout, asks: &[Ask]) -> Option<DriverError>
    ensures { result ≡ asks_fault layout.now asks.now }
{
    if is_any_too_large(layout, asks) {
        return Some(DriverError::TooLarge);
    }
    if !lies_within(layout) {
        return Some(DriverError::Outside);
    }
    None
}

/// Whether a mask has the bit of a queue.
fn has_bit(mask: u64, queue: u32) -> bool
    requires { queue < 64 }
    ensures { result ≡ has_bit mask queue }
{
    (mask >> queue) & 1 == 1
}

/// Whether a mask has the bit of queue 0.
fn has_worker(constants: &Constants) -> bool
    ensures { result ≡ has_worker constants.now }
{
    constants
        .masks
        .as_slice()
        .iter()
        .any(|mask| has_bit(*mask, 0))
}

/// Whether a queue may have this as its greatest size.
#[tactic(auto, unfolding(vub_model::specs::ValidSetup::is_greatest_size))]
fn is_greatest_size(max: usize) -> bool
    ensures { result ≡ is_greatest_size max }
{
    max.is_power_of_two() && max <= 32768
}

/// Whether there is an exit object.
fn is_exit(exit: Option<u32>) -> bool
    ensures { result ≡ is_some exit }
{
    exit.is_some()
}

/// The first worker that has an exit object.
fn first_exit(exits: &[Option<u32>]) -> Option<usize>
    ensures { result ≡ position (λ exit. is_some exit) exits.now }
{
    exits.iter().position(|exit| is_exit(*exit))
}

/// The first test of a set-up that the device fails.
#[tactic(auto, unfolding(crate::specs::Faults::setup_fault))]
fn setup_fault(constants: &Constants, layout: &Layout) -> Option<SetupFault>
    ensures { result ≡ setup_fault constants.now layout.now }
{
    if constants.queues > 64 {
        return Some(SetupFault::Queues);
    }
    if constants.masks.len() > 64 {
        return Some(SetupFault::Workers);
    }
    if !is_greatest_size(constants.max) {
        return Some(SetupFault::QueueSize);
    }
    if let Some(worker) = first_exit(constants.exits.as_slice()) {
        return Some(SetupFault::Exit(worker));
    }
    if constants.queues == 0 || usize::from(layout.size) > constants.max {
        return Some(SetupFault::Ring(0));
    }
    None
}

/// The first test that the device fails.
#[tactic(auto, unfolding(crate::specs::Faults::device_fault))]
pub(crate) fn device_fault(constants: &Constants, layout: &Layout) -> Option<TalkFault>
    ensures { result ≡ device_fault constants.now layout.now }
{
    if !has_worker(constants) {
        return Some(TalkFault::NoWorker);
    }
    match setup_fault(constants, layout) {
        Some(fault) => Some(TalkFault::Setup(fault)),
        None => None,
    }
}
