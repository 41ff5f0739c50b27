ghost use Rattle.std.specs.Prelude.{◌≡◌};
ghost use Rattle.vub_loop.specs.Said.{member_in, has_count, is_member};

use vub_event::Ready;
use vub_vring::HostSaid;

/// The member that a poll gave, if it gave one.
pub(crate) fn member_of(said: HostSaid) -> Option<Ready>
    ensures { result ≡ member_in said }
{
    match said {
        HostSaid::Ready(found) => found,
        _ => None,
    }
}

/// Whether a counter was above zero, and was read.
pub(crate) fn was_counted(said: HostSaid) -> bool
    ensures { result ≡ has_count said }
{
    matches!(said, HostSaid::Count(_))
}

/// Whether the object is a member with this token.
pub(crate) fn was_member(said: HostSaid) -> bool
    ensures { result ≡ is_member said }
{
    matches!(said, HostSaid::Member(true))
}
