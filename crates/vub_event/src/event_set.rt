ghost use Rattle.std.specs.Prelude.{⊤, ◌≡◌, [], ◌∷◌, codes, not, ◌==◌};
ghost use Rattle.std.specs.Int.RustNames.{bit_and};
ghost use Rattle.vub_event.specs.Counter.{has_bits};
ghost use Rattle.vub_event.specs.HostCalls.{has_upper_bits};

use bitflags::{Flag, Flags, bitflag_items};

/// The events that a member of an interest list asks for, or that are reported for it: Linux's `EPOLL*` bits.
#[derive(Clone, Copy, Debug, PartialEq, Eq)]
pub struct EventSet(u32);

bitflag_items! {
    impl EventSet: u32 {
        const IN = 0x1;
        const PRIORITY = 0x2;
        const OUT = 0x4;
        const ERROR = 0x8;
        const HANG_UP = 0x10;
        const READ_HANG_UP = 0x2000;
        const EXCLUSIVE = 0x1000_0000;
        const WAKE_UP = 0x2000_0000;
        const ONE_SHOT = 0x4000_0000;
        const EDGE_TRIGGERED = 0x8000_0000;
    }
}

impl Flags for EventSet {
    type Bits = u32;

    ghost exact = { ⊤ };

    ghost table = { (codes "IN", 0x1) ∷ (codes "PRIORITY", 0x2) ∷ (codes "OUT", 0x4) ∷ (codes "ERROR", 0x8)
        ∷ (codes "HANG_UP", 0x10) ∷ (codes "READ_HANG_UP", 0x2000) ∷ (codes "EXCLUSIVE", 0x10000000)
        ∷ (codes "WAKE_UP", 0x20000000) ∷ (codes "ONE_SHOT", 0x40000000)
        ∷ (codes "EDGE_TRIGGERED", 0x80000000) ∷ [] };

    ghost set_of = { λ s. s.0 };

    fn flags<'a>() -> &'a [Flag<EventSet>] {
        EventSet::FLAGS
    }

    fn bits(&self) -> u32 {
        self.0
    }

    fn from_bits_retain(bits: u32) -> EventSet {
        EventSet(bits)
    }
}

impl EventSet {
    /// The bits that a host refuses: exclusive, wake-up, one-shot and edge-triggered interest.
    const UPPER: u32 = 0xf000_0000;

    /// Whether all of these bits are in the set.
    pub fn has(self, bits: u32) -> bool
        ensures { result ≡ has_bits self.0 bits }
    {
        self.0 & bits == bits
    }

    /// Whether the set asks for interest of a kind that a host refuses.
    pub fn is_refused(self) -> bool
        ensures { result ≡ has_upper_bits self.0 }
    {
        self.0 & EventSet::UPPER != 0
    }
}
