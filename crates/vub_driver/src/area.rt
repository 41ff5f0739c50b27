ghost use Rattle.std.specs.Prelude.{◌≡◌, ◌+◌, nat_le};
ghost use Rattle.std.specs.List.{list_all};
ghost use Rattle.vub_driver.specs.Layouts.{are_apart, ends, is_apart};

/// A range of guest addresses.
#[derive(Clone, Copy)]
pub(crate) struct Area {
    /// The first address.
    pub(crate) at: u64,
    /// How many bytes there are.
    pub(crate) len: u64,
}

impl Area {
    /// Whether it ends before the last address.
    pub(crate) fn ends(self) -> bool
        ensures { result ≡ ends self }
    {
        self.len <= u64::MAX - self.at
    }

    /// Whether it ends at this address or before it.
    fn ends_by(self, at: u64) -> bool
        ensures { result ≡ nat_le (self.at + self.len) at }
    {
        match self.at.checked_add(self.len) {
            Some(end) => end <= at,
            None => false,
        }
    }

    /// Whether no address lies in both. An area without a byte meets none.
    fn is_apart(self, other: Area) -> bool
        ensures { result ≡ is_apart self other }
    {
        self.len == 0 || other.len == 0 || self.ends_by(other.at) || other.ends_by(self.at)
    }
}

/// Whether each of them ends before the last address.
pub(crate) fn all_end(areas: &[Area]) -> bool
    ensures { result ≡ list_all ends areas.now }
{
    areas.iter().all(|area| area.ends())
}

/// Whether an area meets none of the others.
fn meets_none(area: Area, others: &[Area]) -> bool
    ensures { result ≡ list_all (λ other. is_apart area other) others.now }
{
    others.iter().all(|other| area.is_apart(*other))
}

/// Whether no two of them meet.
pub(crate) fn are_apart(areas: &[Area]) -> bool
    ensures { result ≡ are_apart areas.now }
{
    match areas {
        [] => true,
        [area, rest @ ..] => meets_none(*area, rest) && are_apart(rest),
    }
}
