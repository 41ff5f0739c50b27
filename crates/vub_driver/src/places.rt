//! Where the parts of a request lie.
ghost use Rattle.std.specs.Prelude.{◌≡◌, ◌+◌, ◌*◌, ◌^◌, ◌<◌, ◌≤◌};
ghost use Rattle.vub_driver.specs.Calls.{index_of};
ghost use Rattle.vub_driver.specs.Places.{avail_event_at, avail_index_at, avail_slot_at, descriptors_at, place_of};
ghost use Rattle.vub_driver.specs.Places.{request_at};
ghost use Rattle.vub_driver.specs.Places.{used_element_at, used_index_at};
ghost use Rattle.vub_driver.specs.View.{IsFit};

use crate::layout::Layout;

/// The place of a request.
#[tactic(auto, using(crate::proofs::Fitting::place_fits))]
pub(crate) fn place(layout: &Layout, number: u64) -> u16
    requires { IsFit layout.now }
    ensures value { result ≡ place_of layout.now number }
    ensures below { 2 * result + 2 ≤ layout.now.size }
{
    (number % u64::from(layout.size / 2)) as u16
}

/// Where the bytes of a request lie.
#[tactic(auto, using(crate::proofs::Fitting::buffers_fit))]
pub(crate) fn request_at(layout: &Layout, number: u64) -> u64
    requires { IsFit layout.now }
    ensures value { result ≡ request_at layout.now number }
    ensures fits { result + layout.now.slot < 2 ^ 64 }
{
    layout.buffers + 2 * u64::from(place(layout, number)) * u64::from(layout.slot)
}

/// Where the two descriptors of a request lie.
pub(crate) fn descriptors_at(layout: &Layout, number: u64) -> u64
    requires { IsFit layout.now }
    ensures { result ≡ descriptors_at layout.now number }
{
    layout.desc + 16 * u64::from(2 * place(layout, number))
}

/// Where the index of the available ring lies.
pub(crate) fn avail_index_at(layout: &Layout) -> u64
    requires { IsFit layout.now }
    ensures { result ≡ avail_index_at layout.now }
{
    layout.avail + 2
}

/// Where the slot of a request lies.
pub(crate) fn avail_slot_at(layout: &Layout, number: u64) -> u64
    requires { IsFit layout.now }
    ensures { result ≡ avail_slot_at layout.now number }
{
    layout.avail + (4 + 2 * (number % u64::from(layout.size)))
}

/// Where the index of the used ring lies.
pub(crate) fn used_index_at(layout: &Layout) -> u64
    requires { IsFit layout.now }
    ensures value { result ≡ used_index_at layout.now }
    ensures fits { result + 2 < 2 ^ 64 }
{
    layout.used + 2
}

/// Where the used element of a request lies.
pub(crate) fn used_element_at(layout: &Layout, number: u64) -> u64
    requires { IsFit layout.now }
    ensures value { result ≡ used_element_at layout.now number }
    ensures fits { result + 8 < 2 ^ 64 }
{
    layout.used + (4 + 8 * (number % u64::from(layout.size)))
}

/// Where the word lies by which the device asks for signals.
pub(crate) fn avail_event_at(layout: &Layout) -> u64
    requires { IsFit layout.now }
    ensures value { result ≡ avail_event_at layout.now }
    ensures fits { result + 2 < 2 ^ 64 }
{
    layout.used + (4 + 8 * u64::from(layout.size))
}

/// The available index after so many requests, which counts in 16 bits.
pub(crate) fn index_of(count: u64) -> u16
    ensures { result ≡ index_of count }
{
    (count % 65536) as u16
}
