//! Addresses rounded to a multiple of an alignment, which is a power of two.
ghost use Rattle.std.specs.Prelude.{MatchOption, IsTrue};
ghost use Rattle.std.specs.Int.{is_power_of_two};
ghost use Rattle.vub_util.specs.Align.{IsAlignedBelow, IsAlignedAbove, NoneAbove};

/// The greatest multiple of `alignment`, a power of two, that isn't above `addr`.
pub fn align_downwards(addr: u64, alignment: u64) -> u64
    requires { IsTrue (is_power_of_two alignment) }
    ensures { IsAlignedBelow alignment addr result }
{
    addr - (addr & (alignment - 1))
}

/// The least multiple of `alignment`, a power of two, that isn't below `addr`, or `None` exactly where that passes
/// `u64::MAX`.
pub fn align_upwards(addr: u64, alignment: u64) -> Option<u64>
    requires { IsTrue (is_power_of_two alignment) }
    ensures { MatchOption result (NoneAbove alignment addr) (IsAlignedAbove alignment addr) }
{
    let raised = addr.checked_add(alignment - 1)?;
    Some(align_downwards(raised, alignment))
}
