//! The tests of a layout, in their order.
ghost use Rattle.std.specs.Prelude.{◌≡◌, IfNone};
ghost use Rattle.vub_driver.specs.Layouts.{areas_of, has_size, is_aligned, is_disjoint, new_fault};
ghost use Rattle.vub_driver.specs.View.{IsFit};

use crate::area::{Area, all_end, are_apart};
use crate::error::DriverError;
use crate::layout::Layout;

/// Whether the size is one that a ring of pairs may have.
#[tactic(auto, unfolding(crate::specs::Layouts::has_size))]
fn has_size(layout: &Layout) -> bool
    ensures { result ≡ has_size layout.now }
{
    layout.size.is_power_of_two() && layout.size >= 2 && layout.size <= 32768
}

/// Whether the parts have their alignment.
#[tactic(auto, unfolding(crate::specs::Layouts::is_aligned))]
fn is_aligned(layout: &Layout) -> bool
    ensures { result ≡ is_aligned layout.now }
{
    layout.desc % 16 == 0 && layout.avail % 2 == 0 && layout.used % 4 == 0
}

/// The descriptors, the available ring, the used ring and the buffers.
fn areas(layout: &Layout) -> [Area; 4]
    ensures { result ≡ areas_of layout.now }
{
    let size = u64::from(layout.size);
    [
        Area {
            at: layout.desc,
            len: 16 * size,
        },
        Area {
            at: layout.avail,
            len: 6 + 2 * size,
        },
        Area {
            at: layout.used,
            len: 6 + 8 * size,
        },
        Area {
            at: layout.buffers,
            len: u64::from(layout.slot) * size,
        },
    ]
}

/// Whether the areas end before the last address, and no two of them meet.
#[tactic(auto, unfolding(crate::specs::Layouts::is_disjoint))]
fn is_disjoint(layout: &Layout) -> bool
    ensures { result ≡ is_disjoint layout.now }
{
    let areas = areas(layout);
    all_end(&areas) && are_apart(&areas)
}

/// The first test that a layout fails.
#[tactic(auto, unfolding(crate::specs::Layouts::new_fault))]
pub(crate) fn fault_of(layout: &Layout) -> Option<DriverError>
    ensures value { result ≡ new_fault layout.now }
    ensures none { IfNone result (IsFit layout.now) }
{
    if !has_size(layout) {
        return Some(DriverError::Size);
    }
    if !is_aligned(layout) {
        return Some(DriverError::Misaligned);
    }
    if !is_disjoint(layout) {
        return Some(DriverError::Overlap);
    }
    None
}
