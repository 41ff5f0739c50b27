//! Finds the region of an address by halving over the starts of the regions.
ghost use Rattle.std.specs.Prelude.{◌≡◌, ◌+◌, ◌<◌, ◌≤◌, ℕ, length, slice_index_or};
ghost use Rattle.std.specs.List.{AllByRecursion, position};
ghost use Rattle.vub_mem.specs.declared.region.Region.{Region};
ghost use Rattle.vub_mem.specs.Halving.{IsParted, StandsAt, HalvesIn};
ghost use Rattle.vub_mem.specs.Place.{holds};
ghost use Rattle.vub_mem.specs.Sound.{IsApart};

use crate::region::Region;
use std::marker::Brand;
use std::sync::ledger::{Blank, Ledger};
use vub_base::Steps;

/// The starts of a table's regions, each read by [`Starts::at`] alone.
#[derive(Drop)]
pub(crate) struct Starts<'a> {
    regions: &'a [Region],
}

impl<'a> Starts<'a> {
    /// The starts of these regions.
    pub(crate) fn new(regions: &'a [Region]) -> Starts<'a>
        ensures { result.regions.now ≡ regions.now }
    {
        Starts { regions }
    }

    /// How many starts there are.
    pub(crate) fn len(&self) -> usize
        ensures { result ≡ length self.now.regions.now }
    {
        self.regions.len()
    }

    /// The start of this number. It costs one step.
    pub(crate) fn at<K: Ledger>(&self, i: usize, steps: &mut Steps<K>) -> u64
        requires { i < length self.now.regions.now }
        ensures start { (d : Region) → result ≡ (slice_index_or self.now.regions.now i d).start }
        ensures steps { steps.new ≡ steps.old + 1 }
    {
        steps.tick();
        self.regions[i].start
    }
}

/// How many regions start at or below the address.
fn count_starts<K: Ledger>(starts: &Starts<'_>, addr: u64, steps: &mut Steps<K>) -> usize
    requires { IsApart starts.now.regions.now }
    ensures parted { IsParted starts.now.regions.now addr result }
    ensures steps { HalvesIn (length starts.now.regions.now) steps.old steps.new }
{
    let mut low = 0;
    let mut high = starts.len();
    while low < high {
        let middle = low + (high - low) / 2;
        if starts.at(middle, steps) <= addr {
            low = middle + 1;
        } else {
            high = middle;
        }
    }
    low
}

/// The place of the only region that can hold the address.
fn stand_counted<K: Ledger>(regions: &[Region], addr: u64, steps: &mut Steps<K>) -> usize
    requires { IsApart regions.now }
    ensures stands { StandsAt regions.now addr result }
    ensures steps { HalvesIn (length regions.now) steps.old steps.new }
{
    let starts = Starts::new(regions);
    count_starts(&starts, addr, steps).saturating_sub(1)
}

/// The place of the region that holds the address.
pub(crate) fn find_place<K: Ledger>(
    regions: &[Region],
    addr: u64,
    steps: &mut Steps<K>,
) -> Option<usize>
    requires { IsApart regions.now }
    ensures place { result ≡ position (λ r. holds r addr) regions.now }
    ensures steps { HalvesIn (length regions.now) steps.old steps.new }
{
    let place = stand_counted(regions, addr, steps);
    if place < regions.len() && regions[place].holds(addr) {
        Some(place)
    } else {
        None
    }
}

/// The place of the only region that can hold the address, on a counter of steps that nobody reads.
fn stand_with<K: Ledger>(regions: &[Region], addr: u64, blank: Blank) -> usize
    requires apart { IsApart regions.now }
    requires name { blank.name ≡ K.name }
    requires parts { blank.parts ≡ K.parts }
    requires some { 0 < K.parts }
    ensures { StandsAt regions.now addr result }
{
    let mut steps = Steps::<K>::new(blank);
    stand_counted(regions, addr, &mut steps)
}

/// The place of the only region that can hold the address.
pub(crate) fn stand(regions: &[Region], addr: u64) -> usize
    requires { IsApart regions.now }
    ensures { StandsAt regions.now addr result }
{
    stand_with::<Brand>(regions, addr, Blank::new(1))
}
