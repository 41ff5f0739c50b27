ghost use Rattle.std.specs.Prelude.{⊤, [], ◌∷◌, ◌≡◌, codes};
ghost use Rattle.vub_counter.specs.Flags.{made_flags};

use crate::eventfd_flags::{EFD_CLOEXEC, EFD_NONBLOCK};
use bitflags::{Flag, Flags, bitflag_items};

/// How an event counter is made: without waiting, and not handed on to other programs.
#[derive(Clone, Copy, Debug, PartialEq, Eq)]
pub struct EventFlag(u32);

bitflag_items! {
    impl EventFlag: u32 {
        const NONBLOCK = 1;
        const CLOEXEC = 2;
    }
}

impl Flags for EventFlag {
    type Bits = u32;

    ghost exact = { ⊤ };

    ghost table = { (codes "NONBLOCK", 1) ∷ (codes "CLOEXEC", 2) ∷ [] };

    ghost set_of = { λ s. s.0 };

    fn flags<'a>() -> &'a [Flag<EventFlag>] {
        EventFlag::FLAGS
    }

    fn bits(&self) -> u32 {
        self.0
    }

    fn from_bits_retain(bits: u32) -> EventFlag {
        EventFlag(bits)
    }
}

impl EventFlag {
    /// The flags of eventfd(2) for these.
    pub(crate) fn event_flags(self) -> u32
        ensures { result ≡ made_flags self.0 }
    {
        let nonblock = if self.0 & 1 == 1 { EFD_NONBLOCK } else { 0 };
        let cloexec = if self.0 & 2 == 2 { EFD_CLOEXEC } else { 0 };
        (nonblock + cloexec).cast_unsigned()
    }
}
