//! The tests of a set-up, but for those of its region table and of its requests.
ghost use Rattle.std.specs.Prelude.{◌≡◌, not, position, take, [], is_some};
ghost use Rattle.std.specs.List.{list_all};
ghost use Rattle.vub_model.specs.Work.{is_object};
ghost use Rattle.vub_model.specs.ValidSetup.{is_event, is_event_or_none, content_len, exit_fault, device_fault, region_fault, is_aligned, is_free, is_free_or_none, is_first_of_queue, ring_is_sound, ring_fault, log_size, has_word, is_possible, first_impossible, guest_fault, is_empty_log, log_object_fault};

use vub_model::{Constants, GivenRegion, GivenRing, Guest, Info, Object, SetupFault};

/// The greatest number of queues.
const MAX_QUEUES: usize = 64;

/// The greatest number of workers.
const MAX_WORKERS: usize = 64;

/// The greatest number of actions of a guest.
const MAX_ACTIONS: usize = 1048576;

/// The greatest size of a queue, in descriptors.
const MAX_SIZE: usize = 32768;

/// Whether the object is an event of the set-up.
#[tactic(auto, unfolding(vub_model::specs::ValidSetup::is_event))]
pub(crate) fn is_event(objects: &[Object], number: u32) -> bool
    ensures { result ≡ is_event objects.now number }
{
    match objects.get(number as usize) {
        Some(Object::Event { .. }) => true,
        _ => false,
    }
}

/// Whether the object is an event of the set-up, if there is one.
pub(crate) fn is_event_or_none(objects: &[Object], number: Option<u32>) -> bool
    ensures { result ≡ is_event_or_none objects.now number }
{
    match number {
        None => true,
        Some(number) => is_event(objects, number),
    }
}

/// How many bytes the object has, if it is a content of the set-up.
#[tactic(auto, unfolding(vub_model::specs::ValidSetup::content_len))]
pub(crate) fn content_len(objects: &[Object], number: u32) -> Option<u64>
    ensures { result ≡ content_len objects.now number }
{
    match objects.get(number as usize) {
        Some(Object::Content(bytes)) => Some(bytes.len() as u64),
        _ => None,
    }
}

/// How many bytes the object has, if it is a log of the set-up.
#[tactic(auto, unfolding(vub_model::specs::ValidSetup::log_size))]
pub(crate) fn log_size(objects: &[Object], number: u32) -> Option<u32>
    ensures { result ≡ log_size objects.now number }
{
    match objects.get(number as usize) {
        Some(Object::Log { len }) => Some(*len),
        _ => None,
    }
}

/// Whether a log of this many bytes has the word.
fn has_word(len: Option<u32>, word: u64) -> bool
    ensures { result ≡ has_word len word }
{
    match len {
        None => false,
        Some(len) => match word.checked_mul(4) {
            None => false,
            Some(start) => start < len as u64,
        },
    }
}

/// The first worker whose exit object is no event of the set-up.
fn first_bad_exit(objects: &[Object], exits: &[Option<u32>]) -> Option<usize>
    ensures { result ≡ position (λ exit. not (is_event_or_none objects.now exit)) exits.now }
{
    exits
        .iter()
        .position(|exit| !is_event_or_none(objects, *exit))
}

/// The first test of the device's constants that fails.
#[tactic(auto, unfolding(vub_model::specs::ValidSetup::device_fault, vub_model::specs::ValidSetup::exit_fault, vub_model::specs::ValidSetup::is_greatest_size))]
pub(crate) fn device_fault(constants: &Constants, objects: &[Object]) -> Option<SetupFault>
    ensures { result ≡ device_fault constants.now objects.now }
{
    if constants.queues > MAX_QUEUES {
        return Some(SetupFault::Queues);
    }
    if constants.masks.len() > MAX_WORKERS {
        return Some(SetupFault::Workers);
    }
    if !constants.max.is_power_of_two() || constants.max > MAX_SIZE {
        return Some(SetupFault::QueueSize);
    }
    first_bad_exit(objects, constants.exits.as_slice()).map(SetupFault::Exit)
}

/// The first region whose object is no content.
fn first_bad_region(objects: &[Object], regions: &[GivenRegion]) -> Option<usize>
    ensures { result ≡ position (λ r. not (is_some (content_len objects.now r.object))) regions.now }
{
    regions
        .iter()
        .position(|region| content_len(objects, region.object).is_none())
}

/// The first region whose object is no content.
#[tactic(auto, unfolding(vub_model::specs::ValidSetup::region_fault))]
pub(crate) fn region_fault(objects: &[Object], regions: &[GivenRegion]) -> Option<SetupFault>
    ensures { result ≡ region_fault objects.now regions.now }
{
    first_bad_region(objects, regions).map(SetupFault::Region)
}

/// Whether the areas of a ring have their alignment (virtio 1.2, section 2.7).
fn is_aligned(info: Option<Info>) -> bool
    ensures { result ≡ is_aligned info }
{
    match info {
        None => true,
        Some(info) => info.desc % 16 == 0 && info.avail % 2 == 0 && info.used % 4 == 0,
    }
}

/// Whether this is the object.
fn is_object(object: Option<u32>, number: u32) -> bool
    ensures { result ≡ is_object object number }
{
    match object {
        None => false,
        Some(other) => other == number,
    }
}

/// Whether the event is no kick of these rings.
fn is_no_kick(earlier: &[GivenRing], number: u32) -> bool
    ensures { result ≡ list_all (λ ring. not (is_object ring.kick number)) earlier.now }
{
    earlier.iter().all(|ring| !is_object(ring.kick, number))
}

/// Whether the event is no exit object.
fn is_no_exit(exits: &[Option<u32>], number: u32) -> bool
    ensures { result ≡ list_all (λ exit. not (is_object exit number)) exits.now }
{
    exits.iter().all(|exit| !is_object(*exit, number))
}

/// Whether none of these rings has this queue.
fn is_first_of_queue(earlier: &[GivenRing], queue: u32) -> bool
    ensures { result ≡ is_first_of_queue earlier.now queue }
{
    earlier.iter().all(|other| other.queue != queue)
}

/// Whether the event is no kick of these rings and no exit object.
#[tactic(auto, unfolding(vub_model::specs::ValidSetup::is_free))]
fn is_free(constants: &Constants, earlier: &[GivenRing], number: u32) -> bool
    ensures { result ≡ is_free constants.now earlier.now number }
{
    is_no_kick(earlier, number) && is_no_exit(constants.exits.as_slice(), number)
}

/// Whether the event is no kick of these rings and no exit object, if there is one.
fn is_free_or_none(constants: &Constants, earlier: &[GivenRing], number: Option<u32>) -> bool
    ensures { result ≡ is_free_or_none constants.now earlier.now number }
{
    match number {
        None => true,
        Some(number) => is_free(constants, earlier, number),
    }
}

/// Whether a ring passes its tests behind these.
#[tactic(auto, unfolding(vub_model::specs::ValidSetup::ring_is_sound))]
fn is_sound(
    constants: &Constants,
    objects: &[Object],
    earlier: &[GivenRing],
    ring: &GivenRing,
) -> bool
    ensures { result ≡ ring_is_sound constants.now objects.now earlier.now ring.now }
{
    (ring.queue as usize) < constants.queues
        && is_first_of_queue(earlier, ring.queue)
        && ring.size.is_power_of_two()
        && ring.size as usize <= constants.max
        && is_aligned(ring.info)
        && is_event_or_none(objects, ring.kick)
        && is_event_or_none(objects, ring.call)
        && is_free_or_none(constants, earlier, ring.kick)
}

/// The first ring that fails a test.
pub(crate) fn ring_fault(
    constants: &Constants,
    objects: &[Object],
    rings: &[GivenRing],
) -> Option<SetupFault>
    ensures { result ≡ ring_fault constants.now objects.now [] rings.now }
{
    for (index, ring) in rings.iter().enumerate() {
        if !is_sound(constants, objects, &rings[..index], ring) {
            return Some(SetupFault::Ring(index));
        }
    }
    None
}

/// Whether the guest can do this action.
#[tactic(auto, unfolding(vub_model::specs::ValidSetup::is_possible))]
fn is_possible(objects: &[Object], action: &Guest) -> bool
    ensures { result ≡ is_possible objects.now action.now }
{
    match action {
        Guest::Signal { object } => is_event(objects, *object),
        Guest::Harvest { object, word } => has_word(log_size(objects, *object), *word),
        Guest::Store {
            object,
            offset,
            bytes,
        } => match content_len(objects, *object) {
            None => false,
            Some(len) => match offset.checked_add(bytes.len() as u64) {
                None => false,
                Some(end) => end <= len,
            },
        },
    }
}

/// The first of the first `most` actions that the guest can't do.
fn first_bad_action(objects: &[Object], guest: &[Guest], most: usize) -> Option<usize>
    ensures { result ≡ first_impossible objects.now (take most guest.now) }
{
    guest
        .iter()
        .take(most)
        .position(|action| !is_possible(objects, action))
}

/// The first action that the guest can't do, of those that a list may have; or the list is longer.
#[tactic(auto, unfolding(vub_model::specs::ValidSetup::guest_fault))]
pub(crate) fn guest_fault(objects: &[Object], guest: &[Guest]) -> Option<SetupFault>
    ensures { result ≡ guest_fault objects.now guest.now }
{
    match first_bad_action(objects, guest, MAX_ACTIONS) {
        Some(index) => Some(SetupFault::Guest(index)),
        None => {
            if guest.len() > MAX_ACTIONS {
                Some(SetupFault::Guest(MAX_ACTIONS))
            } else {
                None
            }
        }
    }
}

/// Whether it is a log of length 0.
fn is_empty_log(object: &Object) -> bool
    ensures { result ≡ is_empty_log object.now }
{
    match object {
        Object::Log { len } => *len == 0,
        _ => false,
    }
}

/// The first log of length 0.
fn first_empty_log(objects: &[Object]) -> Option<usize>
    ensures { result ≡ position is_empty_log objects.now }
{
    objects.iter().position(is_empty_log)
}

/// The first log of length 0.
#[tactic(auto, unfolding(vub_model::specs::ValidSetup::log_object_fault))]
pub(crate) fn log_object_fault(objects: &[Object]) -> Option<SetupFault>
    ensures { result ≡ log_object_fault objects.now }
{
    first_empty_log(objects).map(SetupFault::Log)
}
