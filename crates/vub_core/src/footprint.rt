ghost use Rattle.std.specs.Prelude.{◌≡◌, ◌&&◌, true, false, is_some};
ghost use Rattle.vub_model.specs.Work.{may_take};
ghost use Rattle.vub_core.specs.Places.{IsUsePlace, IsEventPlace, IsFootprint};

use vub_model::Phase;
use vub_queue::Queue;
use vub_vring::VringState;

/// Where the use of the next entry is written: the used ring's address, and the slot of its element.
#[derive(Clone, Copy, Debug, PartialEq, Eq)]
pub(crate) struct UsePlace {
    pub used: u64,
    pub slot: u16,
}

/// Where avail_event is written: the used ring's address, and the queue's size.
#[derive(Clone, Copy, Debug, PartialEq, Eq)]
pub(crate) struct EventPlace {
    pub used: u64,
    pub size: u16,
}

/// Which words of a ring a worker's next step may write.
#[derive(Clone, Copy, Debug, PartialEq, Eq)]
pub(crate) enum Footprint {
    Nothing,
    /// The used element and the used index.
    Use(UsePlace),
    /// avail_event.
    Event(EventPlace),
}

/// The words that the use of an entry of this queue writes.
fn use_of(queue: &Queue) -> Footprint
    ensures { is_some queue.now.addresses ≡ true → (place : UsePlace) × (result ≡ Footprint.Use place)
        × IsUsePlace queue.now place }
{
    match queue.addresses() {
        None => Footprint::Nothing,
        Some(at) => Footprint::Use(UsePlace {
            used: at.used,
            slot: queue.next_used() % queue.size(),
        }),
    }
}

/// The word that a take of this ring writes where nothing is left.
fn event_of(ring: &VringState) -> Footprint
    ensures some { (may_take ring.now && ring.now.queue.event_idx) ≡ true → (place : EventPlace)
        × (result ≡ Footprint.Event place) × IsEventPlace ring.now.queue place }
    ensures none { (may_take ring.now && ring.now.queue.event_idx) ≡ false → result ≡ Footprint.Nothing }
{
    if !ring.may_take() || !ring.get_queue().event_idx_enabled() {
        return Footprint::Nothing;
    }
    match ring.get_queue().addresses() {
        None => Footprint::Nothing,
        Some(at) => Footprint::Event(EventPlace {
            used: at.used,
            size: ring.get_queue().size(),
        }),
    }
}

/// The words that the next step of a worker in this phase may write.
pub(crate) fn next_footprint(rings: &[VringState], phase: &Phase) -> Footprint
    ensures { IsFootprint rings.now phase.now result }
{
    match phase {
        Phase::Served(entry, _, _) => match rings.get(entry.queue as usize) {
            None => Footprint::Nothing,
            Some(ring) => use_of(ring.get_queue()),
        },
        Phase::Serving(queues) => match queues.first() {
            None => Footprint::Nothing,
            Some(queue) => match rings.get(queue as usize) {
                None => Footprint::Nothing,
                Some(ring) => event_of(ring),
            },
        },
        _ => Footprint::Nothing,
    }
}
